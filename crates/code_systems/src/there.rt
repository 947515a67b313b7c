//! What stands round a statement.
use crate::bounds::{Side, Turning, known_rows};
use crate::frame::{AXES, Frame, GROUP_AXES};
use crate::systems::{add_copies, multiple, variable};
use affine_rows::Listed;
use code_tree::Bound;
use elimination::SetFault;
use expr_tree::QuasiRow;
use kernel_rules::number;
use quasi_forms::Difference;
use std::alloc::{AllocError, Global};

/// The loops round a statement, the outermost first, and the rows that hold there: an axis is at least 0, and a local one at
/// most its items less 1; and from outside to inside, the rows that hold in each turn of a loop, and those of a guard.
#[derive(Drop)]
pub struct There {
    pub loops: Listed<u32>,
    pub rows: Listed<Difference>,
}

/// The axis is at least 0, and a local one at most its items less 1.
fn add_axis(
    alloc: Global,
    frame: &Frame<'_>,
    axis: u32,
    made: &mut Listed<Difference>,
) -> Result<(), AllocError> {
    made.push(Difference {
        form: variable(alloc, frame.axis(axis))?,
        less: number(alloc, 0),
        equal: false,
    })?;
    if axis >= GROUP_AXES {
        made.push(Difference {
            form: number(alloc, i64::from(frame.items_on(axis))),
            less: multiple(alloc, 1, frame.axis(axis), 1)?,
            equal: false,
        })?;
    }
    Ok(())
}

impl There {
    /// What stands round the statements of the body of a code.
    pub fn top(alloc: Global, frame: &Frame<'_>) -> Result<There, AllocError> {
        let mut rows = Listed::new(alloc);
        for axis in 0..AXES {
            add_axis(alloc, frame, axis, &mut rows)?;
        }
        Ok(There {
            loops: Listed::new(alloc),
            rows,
        })
    }

    /// An equal value.
    pub fn copy(&self, alloc: Global) -> Result<There, AllocError> {
        let mut rows = Listed::new(alloc);
        add_copies(alloc, self.rows.as_slice(), &mut rows)?;
        Ok(There {
            loops: Listed::from_slice(alloc, self.loops.as_slice())?,
            rows,
        })
    }

    /// What stands round the statements in a loop here.
    pub fn in_loop(
        &self,
        alloc: Global,
        frame: &Frame<'_>,
        var: u32,
        lower: &Bound,
        upper: &Bound,
    ) -> Result<There, SetFault> {
        let mut inside = self.copy(alloc)?;
        inside.loops.push(var)?;
        let vars = frame.vars(alloc, inside.loops.as_slice())?;
        let below = Turning {
            side: Side::Lower,
            var,
            vars: &vars,
            outer: self.rows.as_slice(),
        };
        let above = Turning {
            side: Side::Upper,
            var,
            vars: &vars,
            outer: self.rows.as_slice(),
        };
        let from_lower = known_rows(alloc, below, lower)?;
        let from_upper = known_rows(alloc, above, upper)?;
        add_copies(alloc, from_lower.as_slice(), &mut inside.rows)?;
        add_copies(alloc, from_upper.as_slice(), &mut inside.rows)?;
        Ok(inside)
    }

    /// What stands round the statements under a guard here.
    pub fn under(&self, alloc: Global, rows: &[QuasiRow]) -> Result<There, AllocError> {
        let mut inside = self.copy(alloc)?;
        for row in rows {
            inside.rows.push(Difference {
                form: row.form.copy(alloc)?,
                less: number(alloc, 0),
                equal: row.equal,
            })?;
        }
        Ok(inside)
    }
}
