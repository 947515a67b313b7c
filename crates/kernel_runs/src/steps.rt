//! The spans of all inames, and the step count of an evaluation.
use crate::ends::Span;
use crate::numbers::Numbers;
use crate::spans::span_in;
use kernel_edits::fold_count_of_all;
use kernel_ir::{Fault, Insn, Kernel};
use kernel_rules::repeated_inames;
use std::alloc::{AllocError, Global};

/// The span of each variable, none where it has no number in any instruction.
#[derive(Drop)]
pub struct Spans {
    of: Vec<Option<Span>>,
}

impl Spans {
    fn new(alloc: Global, count: usize) -> Result<Spans, AllocError> {
        let mut of = Vec::with_capacity(alloc, count)?;
        for _ in 0..count {
            of.push(None)?;
        }
        Ok(Spans { of })
    }

    /// The span of a variable.
    pub fn of(&self, var: u32) -> Option<Span> {
        match self.of.get(var as usize) {
            Some(span) => *span,
            None => None,
        }
    }

    /// How many numbers a variable has.
    pub fn size(&self, var: u32) -> u64 {
        match self.of(var) {
            Some(span) => span.size(),
            None => 0,
        }
    }

    /// The variable has these numbers too.
    fn widen(&mut self, var: u32, span: Option<Span>) {
        let joined = match (self.of(var), span) {
            (Some(known), Some(span)) => Some(known.joined(span)),
            (Some(known), None) => Some(known),
            (None, span) => span,
        };
        let var = var as usize;
        if var < self.of.len() {
            self.of[var] = joined;
        }
    }
}

/// Adds the spans of the inames of an instruction and of its reductions.
fn add_insn(
    alloc: Global,
    kernel: &Kernel,
    insn: &Insn,
    numbers: &Numbers,
    spans: &mut Spans,
) -> Result<(), Fault> {
    let inames = repeated_inames(alloc, kernel, insn)?;
    for own in &inames {
        let span = span_in(alloc, kernel, insn, own, numbers)?;
        spans.widen(own.iname, span);
    }
    Ok(())
}

/// The spans of the inames of all instructions, reductions included: from the least to the greatest number in any of them.
pub fn spans_of(alloc: Global, kernel: &Kernel, numbers: &Numbers) -> Result<Spans, Fault> {
    let mut spans = Spans::new(alloc, kernel.names.len())?;
    for insn in kernel.insns.as_slice() {
        add_insn(alloc, kernel, insn, numbers, &mut spans)?;
    }
    Ok(spans)
}

/// The number of steps of an evaluation, or the last number where there are more: 1 and four times the product of these two:
/// the instructions, twice the reductions and the inames; and, over all inames, one more than the numbers of each.
pub fn count_of(kernel: &Kernel, spans: &Spans) -> u64 {
    let mut turns: u64 = 1;
    for iname in kernel.inames.as_slice() {
        turns = turns.saturating_mul(spans.size(iname.var).saturating_add(1));
    }
    let folds = fold_count_of_all(kernel.insns.as_slice()) as u64;
    let each = (kernel.insns.len() as u64)
        .saturating_add(folds.saturating_mul(2))
        .saturating_add(kernel.inames.len() as u64);
    each.saturating_mul(4)
        .saturating_mul(turns)
        .saturating_add(1)
}
