//! Reads of the temporary replaced by uses of the rule.
ghost use Rattle.std.specs.Prelude.{◌≡◌, ◌<◌, ◌-◌, ◌++◌, map, Some, IfOk};
ghost use Rattle.std.specs.Result.{IfErr};
ghost use Rattle.expr_tree.specs.declared.tree.Cell.TheVariants as cell;
ghost use Rattle.expr_tree.specs.declared.tree.Node.TheVariants as node;
ghost use Rattle.expr_tree.specs.Rewritten.{tree_of};
ghost use Rattle.to_subst.specs.Inlined.{put_read, variable};

use affine_rows::{Form, Listed, copy_forms};
use expr_tree::{Cell, Expr, ExprFault, Node, Rewriting};
use kernel_edits::tree_of;
use std::alloc::{AllocError, Global};

/// Puts a use of the rule for each read of the temporary, and numbers the temporaries behind it anew.
#[derive(Clone, Copy)]
pub(crate) struct Inlining<'a> {
    pub(crate) temp: u32,
    pub(crate) rule: u32,
    pub(crate) remaining: &'a [u32],
}

/// The form of one variable.
pub(crate) fn variable(alloc: Global, var: u32) -> Result<Form, AllocError>
    ensures { IfOk result (λ form. form ≡ variable var) }
{
    Ok(Form::affine(alloc, 0, Listed::of_one(alloc, (var, 1))?))
}

/// The subscripts, and then the remaining inames.
fn arguments(alloc: Global, place: &[Form], remaining: &[u32]) -> Result<Listed<Form>, AllocError>
    ensures { IfOk result (λ forms. forms ≡ place.now ++ map variable remaining.now) }
{
    let mut made = copy_forms(alloc, place)?;
    for var in remaining {
        made.push(variable(alloc, *var)?)?;
    }
    Ok(made)
}

/// The read of a temporary.
fn read_of(alloc: Global, temp: u32, place: &[Form]) -> Result<Option<Expr>, ExprFault>
    ensures tree { IfOk result (λ put. put ≡ Some (tree_of (node.Read (cell.Temp temp) place.now))) }
    ensures refused { IfErr result (λ f. f ≡ ExprFault.OutOfMemory) }
{
    let place = copy_forms(alloc, place)?;
    Ok(Some(tree_of(alloc, Node::Read(Cell::Temp(temp), place))?))
}

/// The use of a rule.
fn use_of(
    alloc: Global,
    rule: u32,
    place: &[Form],
    remaining: &[u32],
) -> Result<Option<Expr>, ExprFault>
    ensures tree { IfOk result (λ put. put ≡ Some (tree_of (node.Call rule (place.now ++ map variable remaining.now)))) }
    ensures refused { IfErr result (λ f. f ≡ ExprFault.OutOfMemory) }
{
    let arguments = arguments(alloc, place, remaining)?;
    Ok(Some(tree_of(alloc, Node::Call(rule, arguments))?))
}

impl Inlining<'_> {
    /// The cell without the temporary.
    pub(crate) fn moved(&self, cell: Cell) -> Cell {
        match cell {
            Cell::Temp(temp) if temp > self.temp => Cell::Temp(temp - 1),
            _ => cell,
        }
    }

    /// What is put for a read of a temporary.
    fn put(&self, alloc: Global, temp: u32, place: &[Form]) -> Result<Option<Expr>, ExprFault>
        ensures put { IfOk result (λ put. put ≡ put_read self.now.temp self.now.rule self.now.remaining.now (cell.Temp temp) place.now) }
        ensures refused { IfErr result (λ f. f ≡ ExprFault.OutOfMemory) }
    {
        if temp < self.temp {
            return Ok(None);
        }
        if temp == self.temp {
            use_of(alloc, self.rule, place, self.remaining)
        } else {
            read_of(alloc, temp - 1, place)
        }
    }
}

impl Rewriting for Inlining<'_> {
    ghost use Rattle.to_subst.specs.Inlined.{inlining};

    ghost rules = { λ s. inlining s.temp s.rule s.remaining.now };

    fn leaf(&self, alloc: Global, node: &Node) -> Result<Option<Expr>, ExprFault> {
        match node {
            Node::Read(Cell::Temp(temp), place) => self.put(alloc, *temp, place.as_slice()),
            _ => Ok(None),
        }
    }

    fn form(&self, _alloc: Global, _form: &Form) -> Result<Option<Form>, ExprFault> {
        Ok(None)
    }

    fn over(&self, _alloc: Global, _inames: &[u32]) -> Result<Option<Listed<u32>>, ExprFault> {
        Ok(None)
    }
}
