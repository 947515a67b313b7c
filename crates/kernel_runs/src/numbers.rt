//! The numbers of a kernel's variables.
use affine_rows::Vars;
use kernel_ir::QuasiRow;
use std::alloc::{AllocError, Global};

/// The number of each variable, 0 where none was given.
#[derive(Drop)]
pub struct Numbers {
    all: Vec<i64>,
}

impl Vars for Numbers {
    ghost use Rattle.std.specs.Prelude.{pos, slice_index_or};

    ghost number = { λ numbers v. slice_index_or numbers.all.items v (pos 0) };

    fn var(&self, var: u32) -> i64 {
        match self.all.get(var as usize) {
            Some(number) => *number,
            None => 0,
        }
    }
}

impl Numbers {
    /// So many variables without numbers.
    pub fn new(alloc: Global, count: usize) -> Result<Numbers, AllocError> {
        let mut all = Vec::with_capacity(alloc, count)?;
        for _ in 0..count {
            all.push(0)?;
        }
        Ok(Numbers { all })
    }

    /// Gives a variable a number.
    pub fn set(&mut self, var: u32, number: i64) {
        let var = var as usize;
        if var < self.all.len() {
            self.all[var] = number;
        }
    }

    /// Whether a row holds.
    pub fn holds(&self, row: &QuasiRow) -> bool {
        let value = row.form.value(self);
        if row.equal { value == 0 } else { value >= 0 }
    }

    /// Whether all rows hold.
    pub fn holds_all(&self, rows: &[QuasiRow]) -> bool {
        for row in rows {
            if !self.holds(row) {
                return false;
            }
        }
        true
    }
}
