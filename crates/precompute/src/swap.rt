//! Uses replaced by reads of the temporary.
ghost use Rattle.std.specs.Prelude.{◌≡◌, ◌≢◌, ◌++◌, true, false, Ok, Err, Some, IfOk, OnOk};
ghost use Rattle.std.specs.Result.{IfErr};
ghost use Rattle.expr_tree.specs.Rewritten.{tree_of};
ghost use Rattle.quasi_forms.specs.Fits.{fits_form};
ghost use Rattle.kernel_edits.specs.Changing.{is_leaf};
ghost use Rattle.precompute.specs.Swapped.{are_forms, lowered, lowered_places, read_of};

use crate::uses::Source;
use affine_rows::{Form, Listed};
use expr_tree::{Cell, Expr, ExprFault, Node, Rewriting};
use kernel_edits::tree_of;
use quasi_forms::{FormFault, small_sum_of};
use std::alloc::Global;

/// Puts for each use a read of the temporary, in each place at the form there less the place's origin.
#[derive(Clone, Copy)]
pub(crate) struct Swap<'a> {
    pub(crate) source: Source,
    pub(crate) temp: u32,
    pub(crate) origins: &'a [Form],
}

/// A form less another one.
fn lowered(alloc: Global, place: &Form, origin: &Form) -> Result<Form, ExprFault>
    ensures form { IfOk result (λ form. form ≡ lowered place.now origin.now) }
    ensures within { OnOk result (fits_form (lowered place.now origin.now) ≡ true) }
    ensures limit { IfErr result (λ f. f ≢ ExprFault.OutOfMemory → fits_form (lowered place.now origin.now) ≡ false) }
    ensures only { IfErr result (λ f. f ≢ ExprFault.OutOfMemory → f ≡ ExprFault.Limit) }
{
    match small_sum_of(alloc, place, -1, origin) {
        Ok(form) => Ok(form),
        Err(FormFault::Limit) => Err(ExprFault::Limit),
        Err(FormFault::OutOfMemory) | Err(FormFault::NotAffine) => Err(ExprFault::OutOfMemory),
    }
}

/// Adds the places less their origins.
fn add_lowered(
    alloc: Global,
    place: &[Form],
    origins: &[Form],
    made: &mut Listed<Form>,
) -> Result<(), ExprFault>
    ensures forms { OnOk result (made.new ≡ made.old ++ lowered_places place.now origins.now) }
    ensures within { OnOk result (are_forms place.now origins.now ≡ true) }
    ensures limit { IfErr result (λ f. f ≢ ExprFault.OutOfMemory → are_forms place.now origins.now ≡ false) }
    ensures only { IfErr result (λ f. f ≢ ExprFault.OutOfMemory → f ≡ ExprFault.Limit) }
{
    match place {
        [] => Ok(()),
        [form, forms @ ..] => match origins {
            [] => Ok(()),
            [origin, others @ ..] => {
                made.push(lowered(alloc, form, origin)?)?;
                add_lowered(alloc, forms, others, made)
            }
        },
    }
}

/// The subscripts of the temporary.
fn lowered_places(
    alloc: Global,
    place: &[Form],
    origins: &[Form],
) -> Result<Listed<Form>, ExprFault>
    ensures forms { IfOk result (λ forms. forms ≡ lowered_places place.now origins.now) }
    ensures within { OnOk result (are_forms place.now origins.now ≡ true) }
    ensures limit { IfErr result (λ f. f ≢ ExprFault.OutOfMemory → are_forms place.now origins.now ≡ false) }
    ensures only { IfErr result (λ f. f ≢ ExprFault.OutOfMemory → f ≡ ExprFault.Limit) }
{
    let mut made = Listed::new(alloc);
    add_lowered(alloc, place, origins, &mut made)?;
    Ok(made)
}

/// The tree of a node without parts.
fn leaf_tree(alloc: Global, leaf: Node) -> Result<Option<Expr>, ExprFault>
    requires { is_leaf leaf ≡ true }
    ensures tree { IfOk result (λ put. put ≡ Some (tree_of leaf)) }
    ensures refused { IfErr result (λ f. f ≡ ExprFault.OutOfMemory) }
{
    Ok(Some(tree_of(alloc, leaf)?))
}

impl Swap<'_> {
    /// The read of the temporary for a use.
    fn read(&self, alloc: Global, place: &[Form]) -> Result<Option<Expr>, ExprFault>
        ensures answer { IfOk result (λ put. read_of self.now.temp self.now.origins.now place.now ≡ Ok put) }
        ensures refusal { IfErr result (λ f. f ≢ ExprFault.OutOfMemory → read_of self.now.temp self.now.origins.now place.now ≡ Err f) }
    {
        let place = lowered_places(alloc, place, self.origins)?;
        leaf_tree(alloc, Node::Read(Cell::Temp(self.temp), place))
    }
}

impl Rewriting for Swap<'_> {
    ghost use Rattle.precompute.specs.Swapped.{swapping};

    ghost rules = { λ s. swapping s.source s.temp s.origins.now };

    fn leaf(&self, alloc: Global, node: &Node) -> Result<Option<Expr>, ExprFault> {
        match node {
            Node::Read(cell, place) => {
                if !self.source.is_read(*cell) {
                    return Ok(None);
                }
                self.read(alloc, place.as_slice())
            }
            Node::Call(rule, place) => {
                if !self.source.is_rule(*rule) {
                    return Ok(None);
                }
                self.read(alloc, place.as_slice())
            }
            _ => Ok(None),
        }
    }

    fn form(&self, _alloc: Global, _form: &Form) -> Result<Option<Form>, ExprFault> {
        Ok(None)
    }

    fn over(&self, _alloc: Global, _inames: &[u32]) -> Result<Option<Listed<u32>>, ExprFault> {
        Ok(None)
    }
}
