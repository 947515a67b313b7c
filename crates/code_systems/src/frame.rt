//! What a code says beside its body.
use affine_rows::Listed;
use code_tree::{Bound, Code, Facts, Flat};
use std::alloc::{AllocError, Global};

/// How many axes there are: the three group axes, and then the three local ones.
pub const AXES: u32 = 6;

/// How many of them are group axes.
pub(crate) const GROUP_AXES: u32 = 3;

/// What a code says beside its body, with what is known of it.
#[derive(Clone, Copy)]
pub struct Frame<'a> {
    /// The variables of the parameters. The variable of an axis is its number behind them.
    pub params: &'a [u32],
    /// The subscripts of reads.
    pub flats: &'a [Flat],
    pub facts: &'a Facts,
    /// How many cells are local. They are the first ones.
    pub locals: usize,
    /// The items of each local axis.
    pub items: [u32; 3],
    /// Whether the launch number of each group axis is written `[1]`.
    pub alone: [bool; 3],
}

/// Whether the launch number of a group axis with this bound is written `[1]`.
fn is_alone(bound: &Bound) -> bool {
    match bound {
        Bound::Form(form) => {
            let form = form.quasi();
            form.constant == 0 && form.terms.is_empty() && form.floors.is_empty()
        }
        _ => false,
    }
}

impl<'a> Frame<'a> {
    /// The frame of a code.
    pub fn of(code: &'a Code, facts: &'a Facts) -> Frame<'a> {
        Frame {
            params: code.params.as_slice(),
            flats: code.flats.as_slice(),
            facts,
            locals: code.locals.len(),
            items: [code.l0, code.l1, code.l2],
            alone: [is_alone(&code.g0), is_alone(&code.g1), is_alone(&code.g2)],
        }
    }

    /// The variable of an axis.
    pub fn axis(&self, axis: u32) -> u32 {
        let params = self.params.len().min(u32::MAX as usize) as u32;
        params.saturating_add(axis)
    }

    /// The axis of a variable.
    pub(crate) fn axis_of(&self, var: u32) -> u32 {
        var.saturating_sub(self.axis(0))
    }

    /// The variables of the parameters, the axes and these loops.
    pub(crate) fn vars(&self, alloc: Global, loops: &[u32]) -> Result<Vec<u32>, AllocError> {
        let mut vars = Vec::from_slice(alloc, self.params)?;
        for axis in 0..AXES {
            vars.push(self.axis(axis))?;
        }
        vars.extend_from_slice(loops)?;
        Ok(vars)
    }

    /// The items of a local axis.
    pub(crate) fn items_on(&self, axis: u32) -> u32 {
        match self.items.get(axis.saturating_sub(GROUP_AXES) as usize) {
            Some(items) => *items,
            None => 1,
        }
    }

    /// Whether the axis is a group axis whose launch number is written `[1]`.
    pub(crate) fn is_alone(&self, axis: u32) -> bool {
        match self.alone.get(axis as usize) {
            Some(alone) => *alone,
            None => false,
        }
    }
}

/// The name of an axis.
pub fn axis_name(axis: u32) -> &'static str {
    match axis {
        0 => "g.0",
        1 => "g.1",
        2 => "g.2",
        3 => "l.0",
        4 => "l.1",
        _ => "l.2",
    }
}
