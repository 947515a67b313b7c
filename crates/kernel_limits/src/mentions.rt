//! What stands in an instruction.
ghost use Rattle.std.specs.Prelude.{◌≡◌, [], ◌∷◌, ◌++◌, length, IfOk, OnOk};
ghost use Rattle.kernel_ir.specs.Mentions.{forms, folded, folds, listed, listed_in, listed_in_test, reads};
ghost use Rattle.kernel_ir.specs.Limits.{all_inames, fold_count};
ghost use Rattle.kernel_limits.specs.Listings.{listed_in_node};

use affine_rows::{Form, Listed, copy_forms};
use expr_tree::{Cell, Expr, Node, Test};
use kernel_ir::Insn;
use std::alloc::{AllocError, Global};

/// What was found in expressions, in the order of the text: the reads, the forms, the inames of reductions, and how many
/// inames each reduction has.
#[derive(Drop)]
pub(crate) struct Found {
    pub(crate) reads: Listed<(Cell, Listed<Form>)>,
    pub(crate) forms: Listed<Form>,
    pub(crate) inames: Listed<u32>,
    pub(crate) folds: Listed<usize>,
}

/// Adds equal forms at the end of others.
pub(crate) fn add_forms(
    alloc: Global,
    forms: &[Form],
    made: &mut Listed<Form>,
) -> Result<(), AllocError>
    ensures { OnOk result (made.new ≡ made.old ++ forms.now) }
{
    for form in forms {
        made.push(form.copy(alloc)?)?;
    }
    Ok(())
}

/// Adds numbers at the end of others.
fn add_numbers(numbers: &[u32], made: &mut Listed<u32>) -> Result<(), AllocError>
    ensures { OnOk result (made.new ≡ made.old ++ numbers.now) }
{
    for &number in numbers {
        made.push(number)?;
    }
    Ok(())
}

impl Found {
    /// Nothing.
    fn new(alloc: Global) -> Found
        ensures { result ≡ record { reads = []; forms = []; inames = []; folds = [] } }
    {
        Found {
            reads: Listed::new(alloc),
            forms: Listed::new(alloc),
            inames: Listed::new(alloc),
            folds: Listed::new(alloc),
        }
    }

    /// One form more.
    fn add_form(&mut self, alloc: Global, form: &Form) -> Result<(), AllocError>
        ensures { OnOk result (self.new ≡ record self.old { forms = self.old.forms ++ form.now ∷ [] }) }
    {
        self.forms.push(form.copy(alloc)?)?;
        Ok(())
    }

    /// One access more.
    fn add_read(&mut self, alloc: Global, cell: Cell, place: &[Form]) -> Result<(), AllocError>
        ensures { OnOk result (self.new ≡ record self.old { reads = self.old.reads ++ (cell, place.now) ∷ []; forms = self.old.forms ++ place.now }) }
    {
        self.reads.push((cell, copy_forms(alloc, place)?))?;
        add_forms(alloc, place, &mut self.forms)
    }

    /// One reduction more.
    fn add_fold(&mut self, inames: &[u32]) -> Result<(), AllocError>
        ensures { OnOk result (self.new ≡ record self.old { inames = self.old.inames ++ inames.now; folds = self.old.folds ++ length inames.now ∷ [] }) }
    {
        self.folds.push(inames.len())?;
        add_numbers(inames, &mut self.inames)
    }
}

#[cycle(mentions)]
fn add_node(alloc: Global, node: &Node, found: &mut Found) -> Result<(), AllocError>
    ensures reads { OnOk result (found.new.reads ≡ found.old.reads ++ listed_in_node reads node.now) }
    ensures forms { OnOk result (found.new.forms ≡ found.old.forms ++ listed_in_node forms node.now) }
    ensures inames { OnOk result (found.new.inames ≡ found.old.inames ++ listed_in_node folded node.now) }
    ensures folds { OnOk result (found.new.folds ≡ found.old.folds ++ listed_in_node folds node.now) }
{
    match node {
        Node::Literal(_) => Ok(()),
        Node::Leaf(form) => found.add_form(alloc, form),
        Node::Read(cell, place) => found.add_read(alloc, *cell, place.as_slice()),
        Node::Call(_, arguments) => add_forms(alloc, arguments.as_slice(), &mut found.forms),
        Node::Neg(a) | Node::Inv(a) | Node::Shl(a, _) | Node::Shr(a, _) | Node::Cast(_, a) => {
            add_expr(alloc, a, found)
        }
        Node::Bin(_, a, b) => {
            add_expr(alloc, a, found)?;
            add_expr(alloc, b, found)
        }
        Node::Pick(test, a, b) => {
            add_test(alloc, test, found)?;
            add_expr(alloc, a, found)?;
            add_expr(alloc, b, found)
        }
        Node::Fold(_, inames, a) => {
            found.add_fold(inames.as_slice())?;
            add_expr(alloc, a, found)
        }
    }
}

/// Adds what stands in an expression.
#[cycle(mentions)]
fn add_expr(alloc: Global, expr: &Expr, found: &mut Found) -> Result<(), AllocError>
    ensures reads { OnOk result (found.new.reads ≡ found.old.reads ++ listed reads expr.now) }
    ensures forms { OnOk result (found.new.forms ≡ found.old.forms ++ listed forms expr.now) }
    ensures inames { OnOk result (found.new.inames ≡ found.old.inames ++ listed folded expr.now) }
    ensures folds { OnOk result (found.new.folds ≡ found.old.folds ++ listed folds expr.now) }
{
    add_node(alloc, expr.node(), found)
}

#[cycle(mentions)]
fn add_test(alloc: Global, test: &Test, found: &mut Found) -> Result<(), AllocError>
    ensures reads { OnOk result (found.new.reads ≡ found.old.reads ++ listed_in_test reads test.now) }
    ensures forms { OnOk result (found.new.forms ≡ found.old.forms ++ listed_in_test forms test.now) }
    ensures inames { OnOk result (found.new.inames ≡ found.old.inames ++ listed_in_test folded test.now) }
    ensures folds { OnOk result (found.new.folds ≡ found.old.folds ++ listed_in_test folds test.now) }
{
    match test {
        Test::Words(_, a, b) => {
            add_expr(alloc, a, found)?;
            add_expr(alloc, b, found)
        }
        Test::Index(_, a, b) => {
            found.add_form(alloc, a)?;
            found.add_form(alloc, b)
        }
        Test::All(p, q) | Test::Any(p, q) => {
            add_test(alloc, p.get(), found)?;
            add_test(alloc, q.get(), found)
        }
        Test::Not(p) => add_test(alloc, p.get(), found),
    }
}

/// Adds what stands in a test, if there is one, and then in a value.
fn add_both(
    alloc: Global,
    test: &Option<Test>,
    value: &Expr,
    found: &mut Found,
) -> Result<(), AllocError>
    ensures reads { OnOk result (found.new.reads ≡ found.old.reads ++ (listed_in reads test.now ++ listed reads value.now)) }
    ensures forms { OnOk result (found.new.forms ≡ found.old.forms ++ (listed_in forms test.now ++ listed forms value.now)) }
    ensures inames { OnOk result (found.new.inames ≡ found.old.inames ++ (listed_in folded test.now ++ listed folded value.now)) }
    ensures folds { OnOk result (found.new.folds ≡ found.old.folds ++ (listed_in folds test.now ++ listed folds value.now)) }
{
    if let Some(test) = test {
        add_test(alloc, test, found)?;
    }
    add_expr(alloc, value, found)
}

/// The inames and reductions of an instruction.
pub(crate) fn repeated(alloc: Global, insn: &Insn) -> Result<Found, AllocError>
    ensures inames { IfOk result (λ found. found.inames ≡ all_inames insn.now) }
    ensures folds { IfOk result (λ found. length found.folds ≡ fold_count insn.now) }
{
    let mut found = Found::new(alloc);
    add_numbers(insn.inames.as_slice(), &mut found.inames)?;
    add_both(alloc, &insn.test, &insn.value, &mut found)?;
    Ok(found)
}

/// The accesses and forms of an instruction, those of its store first.
pub(crate) fn accessed(alloc: Global, insn: &Insn) -> Result<Found, AllocError>
    ensures reads { IfOk result (λ found. found.reads ≡ (insn.now.cell, insn.now.place) ∷ (listed_in reads insn.now.test ++ listed reads insn.now.value)) }
    ensures forms { IfOk result (λ found. found.forms ≡ insn.now.place ++ (listed_in forms insn.now.test ++ listed forms insn.now.value)) }
{
    let mut found = Found::new(alloc);
    found.add_read(alloc, insn.cell, insn.place.as_slice())?;
    add_both(alloc, &insn.test, &insn.value, &mut found)?;
    Ok(found)
}
