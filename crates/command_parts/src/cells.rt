//! The arrays and temporaries that are used where uses of rules are replaced.
use expr_tree::{Cell, Expr, Node, Test};
use kernel_ir::{Insn, Kernel, SubstRule};
use std::alloc::{AllocError, Global};

/// Marks a place, and tells whether it is there and was not marked.
fn mark(marks: &mut [bool], at: u32) -> bool {
    let at = at as usize;
    if at >= marks.len() || marks[at] {
        return false;
    }
    marks[at] = true;
    true
}

/// For each array and each temporary whether it is used.
#[derive(Drop)]
pub struct Cells {
    arrays: Vec<bool>,
    temps: Vec<bool>,
}

impl Cells {
    fn new(alloc: Global, kernel: &Kernel) -> Result<Cells, AllocError> {
        let arrays = vec![in alloc; false; kernel.arrays.len()]?;
        let temps = vec![in alloc; false; kernel.temps.len()]?;
        Ok(Cells { arrays, temps })
    }

    fn add(&mut self, cell: Cell) {
        let _ = match cell {
            Cell::Array(at) => mark(&mut self.arrays, at),
            Cell::Temp(at) => mark(&mut self.temps, at),
        };
    }

    /// Whether the array or temporary is used.
    pub fn has(&self, cell: Cell) -> bool {
        let mark = match cell {
            Cell::Array(at) => self.arrays.get(at as usize),
            Cell::Temp(at) => self.temps.get(at as usize),
        };
        mark.copied().unwrap_or(false)
    }
}

/// A search for cells: those that were found, the rules that were come to, and of these the ones whose bodies are still to be
/// searched.
#[derive(Drop)]
struct Search {
    found: Cells,
    seen: Vec<bool>,
    open: Vec<u32>,
}

impl Search {
    fn new(alloc: Global, kernel: &Kernel) -> Result<Search, AllocError> {
        let seen = vec![in alloc; false; kernel.rules.len()]?;
        Ok(Search {
            found: Cells::new(alloc, kernel)?,
            seen,
            open: Vec::new(alloc),
        })
    }

    fn add_rule(&mut self, rule: u32) -> Result<(), AllocError> {
        if mark(&mut self.seen, rule) {
            self.open.push(rule)?;
        }
        Ok(())
    }

    #[cycle(cells)]
    fn add_value(&mut self, value: &Expr) -> Result<(), AllocError> {
        match value.node() {
            Node::Literal(_) | Node::Leaf(_) => Ok(()),
            Node::Read(cell, _) => {
                self.found.add(*cell);
                Ok(())
            }
            Node::Call(rule, _) => self.add_rule(*rule),
            Node::Neg(a)
            | Node::Inv(a)
            | Node::Shl(a, _)
            | Node::Shr(a, _)
            | Node::Cast(_, a)
            | Node::Fold(_, _, a) => self.add_value(a),
            Node::Bin(_, a, b) => {
                self.add_value(a)?;
                self.add_value(b)
            }
            Node::Pick(test, a, b) => {
                self.add_test(test)?;
                self.add_value(a)?;
                self.add_value(b)
            }
        }
    }

    #[cycle(cells)]
    fn add_test(&mut self, test: &Test) -> Result<(), AllocError> {
        match test {
            Test::Words(_, a, b) => {
                self.add_value(a)?;
                self.add_value(b)
            }
            Test::Index(_, _, _) => Ok(()),
            Test::All(p, q) | Test::Any(p, q) => {
                self.add_test(p.get())?;
                self.add_test(q.get())
            }
            Test::Not(p) => self.add_test(p.get()),
        }
    }

    /// Searches the body of one open rule, if there is one.
    fn go_on(&mut self, rules: &[SubstRule]) -> Result<(), AllocError> {
        let Some(rule) = self.open.pop() else {
            return Ok(());
        };
        match rules.get(rule as usize) {
            None => Ok(()),
            Some(rule) => self.add_value(&rule.body),
        }
    }

    /// What is found once all bodies are searched. Each rule is opened once at most.
    fn finished(mut self, rules: &[SubstRule]) -> Result<Cells, AllocError> {
        for _ in 0..rules.len() {
            self.go_on(rules)?;
        }
        Ok(self.found)
    }
}

/// The arrays and temporaries that a value reads, with uses of rules replaced.
pub fn cells_of_value(alloc: Global, kernel: &Kernel, value: &Expr) -> Result<Cells, AllocError> {
    let mut search = Search::new(alloc, kernel)?;
    search.add_value(value)?;
    search.finished(kernel.rules.as_slice())
}

/// The arrays and temporaries that an instruction stores to or reads, with uses of rules replaced.
pub fn cells_of_insn(alloc: Global, kernel: &Kernel, insn: &Insn) -> Result<Cells, AllocError> {
    let mut search = Search::new(alloc, kernel)?;
    search.found.add(insn.cell);
    search.add_value(&insn.value)?;
    if let Some(test) = &insn.test {
        search.add_test(test)?;
    }
    search.finished(kernel.rules.as_slice())
}
