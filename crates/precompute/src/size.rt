//! Rules 31 and 3 cells: the shape of the temporary.
use crate::request::Request;
use crate::spans::Span;
use affine_rows::Listed;
use kernel_edits::refused;
use kernel_ir::{Fault, Refusal, Site, Temp};
use std::alloc::Global;
use wrap_words::Kind;

/// A group has at most so many bytes of local memory.
const MOST_BYTES: i128 = 32_768;

/// A private temporary has at most so many cells.
const MOST_CELLS: i128 = 4096;

/// How many numbers there are in a span.
fn length_of(span: Span) -> i128 {
    i128::from(span.high) - i128::from(span.low) + 1
}

/// How many cells the spans have, 2^127 - 1 standing for all that is more.
fn cell_count(spans: &[Span]) -> i128 {
    let mut count = 1i128;
    for span in spans {
        count = count.saturating_mul(length_of(*span));
    }
    count
}

/// The bytes of a word.
fn width_of(kind: Kind) -> i128 {
    match kind {
        Kind::I32 | Kind::U32 => 4,
        Kind::I64 | Kind::U64 => 8,
    }
}

/// The bytes of a temporary, which has a kind.
fn bytes_of(temp: &Temp) -> i128 {
    let mut count = width_of(temp.kind.unwrap_or(Kind::I32));
    for extent in temp.shape.as_slice() {
        count = count.saturating_mul(i128::from(*extent));
    }
    count
}

/// The bytes of all local temporaries.
fn local_bytes(temps: &[Temp]) -> i128 {
    let mut count = 0i128;
    for temp in temps {
        if temp.local {
            count = count.saturating_add(bytes_of(temp));
        }
    }
    count
}

/// The bytes of local memory with the temporary.
fn bytes_with(request: Request<'_>, spans: &[Span]) -> i128 {
    let own = cell_count(spans).saturating_mul(width_of(request.first.kind));
    local_bytes(request.kernel.temps.as_slice()).saturating_add(own)
}

/// Rule 31 of a local temporary, rule 3 cells of a private one.
fn too_large(alloc: Global, request: Request<'_>, spans: &[Span]) -> Fault {
    if request.is_local {
        let bytes = bytes_with(request, spans);
        refused(Refusal::of_rule(alloc, Site::Script, 31).with_number(bytes))
    } else {
        refused(Refusal::limit(alloc, Site::Script, "cells", MOST_CELLS))
    }
}

fn is_too_large(request: Request<'_>, spans: &[Span]) -> bool {
    if request.is_local {
        bytes_with(request, spans) > MOST_BYTES
    } else {
        cell_count(spans) > MOST_CELLS
    }
}

/// The shape of the temporary. Rule 31 refuses a local one with which the local ones take too many bytes, and rule 3 a private one
/// of too many cells.
pub(crate) fn shape_of(
    alloc: Global,
    request: Request<'_>,
    spans: &[Span],
) -> Result<Listed<u32>, Fault> {
    if is_too_large(request, spans) {
        return Err(too_large(alloc, request, spans));
    }
    let mut shape = Listed::new(alloc);
    for span in spans {
        match u32::try_from(length_of(*span)) {
            Ok(extent) => shape.push(extent)?,
            Err(_) => return Err(too_large(alloc, request, spans)),
        }
    }
    Ok(shape)
}
