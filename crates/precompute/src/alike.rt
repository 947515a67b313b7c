//! Rules 30 and 29: what is asked of the uses.
use crate::parts::{has_floors, same_bases};
use crate::request::{Request, id_at};
use crate::uses::Used;
use kernel_edits::refused;
use kernel_ir::{Fault, Refusal, Site};
use std::alloc::{AllocError, Global};

fn folded_use(alloc: Global, request: Request<'_>, used: &Used) -> Result<Refusal, AllocError> {
    Refusal::of_rule(alloc, Site::Script, 30)
        .with_name(alloc, request.name)?
        .with_word(alloc, id_at(request.kernel, used.at))
}

/// Rule 30: a use stands under a reduction.
pub(crate) fn check_folds(alloc: Global, request: Request<'_>) -> Result<(), Fault> {
    for used in request.uses {
        if used.is_folded {
            return Err(refused(folded_use(alloc, request, used)));
        }
    }
    Ok(())
}

fn differing_uses(
    alloc: Global,
    request: Request<'_>,
    first: &Used,
    second: &Used,
) -> Result<Refusal, AllocError> {
    Refusal::of_rule(alloc, Site::Script, 29)
        .with_name(alloc, request.name)?
        .with_word(alloc, id_at(request.kernel, first.at))?
        .with_word(alloc, id_at(request.kernel, second.at))
}

fn check_bases(alloc: Global, request: Request<'_>) -> Result<(), Fault> {
    let place = request.first.place.as_slice();
    for used in request.uses {
        if !same_bases(alloc, place, used.place.as_slice(), request.swept)? {
            return Err(refused(differing_uses(alloc, request, request.first, used)));
        }
    }
    Ok(())
}

fn check_kinds(alloc: Global, request: Request<'_>) -> Result<(), Fault> {
    for used in request.uses {
        if used.kind != request.first.kind {
            return Err(refused(differing_uses(alloc, request, request.first, used)));
        }
    }
    Ok(())
}

fn check_floors(alloc: Global, request: Request<'_>) -> Result<(), Fault> {
    for used in request.uses {
        if has_floors(used.place.as_slice()) {
            return Err(refused(differing_uses(alloc, request, used, used)));
        }
    }
    Ok(())
}

/// Rule 29: in some place the bases of the uses differ, or else two uses have different kinds, or else a use has floors.
pub(crate) fn check_alike(alloc: Global, request: Request<'_>) -> Result<(), Fault> {
    check_bases(alloc, request)?;
    check_kinds(alloc, request)?;
    check_floors(alloc, request)
}
