//! A change of a kernel.
ghost use Rattle.std.specs.Prelude.{◌≡◌, ◌≢◌, ◌<◌, [], ◌∷◌, map, length, Ok, Err, Some, true, false, nat_eq, if◌then◌else◌, IfOk, OnOk};
ghost use Rattle.std.specs.List.{list_all, list_any};
ghost use Rattle.std.specs.Result.{IfErr};
ghost use Rattle.expr_tree.specs.Rewritten.{tree_of};
ghost use Rattle.expr_tree.specs.Scenes.{mentions_one};
ghost use Rattle.quasi_forms.specs.Collected.{put_form};
ghost use Rattle.quasi_forms.specs.Fits.{fits};
ghost use Rattle.quasi_forms.specs.Placed.{vars_differ};
ghost use Rattle.kernel_edits.specs.Changing.{changed_form, changed_list, changes_within, form_answer, is_leaf};

use crate::lists::changed_list;
use crate::trees::tree_of;
use affine_rows::{Form, Listed};
use expr_tree::{Expr, ExprFault, Node, Rewriting};
use quasi_forms::{FormFault, is_among, mentions_one, put_all};
use std::alloc::Global;

/// Puts forms for inames, all at once, and in lists of inames others in the place of the first one; the rest of these goes.
#[derive(Clone, Copy)]
pub struct Change<'a> {
    pub vars: &'a [u32],
    pub forms: &'a [Form],
    pub first: u32,
    pub put: &'a [u32],
    ghost differ: { vars_differ vars.now ≡ true },
    ghost count: { length vars.now ≡ length forms.now },
}

impl Change<'_> {
    /// The form with others in the places of the inames, of which it mentions one.
    fn put(&self, alloc: Global, form: &Form) -> Result<Form, ExprFault>
        ensures put { IfOk result (λ f. f ≡ put_form self.now.vars.now self.now.forms.now form.now) }
        ensures fits { OnOk result (fits self.now.vars.now self.now.forms.now form.now ≡ true) }
        ensures limit { IfErr result (λ f. f ≢ ExprFault.OutOfMemory → fits self.now.vars.now self.now.forms.now form.now ≡ false) }
        ensures only { IfErr result (λ f. f ≢ ExprFault.OutOfMemory → f ≡ ExprFault.Limit) }
    {
        match put_all(alloc, form, self.vars, self.forms) {
            Ok(put) => Ok(put),
            Err(FormFault::Limit) => Err(ExprFault::Limit),
            Err(FormFault::OutOfMemory) | Err(FormFault::NotAffine) => Err(ExprFault::OutOfMemory),
        }
    }

    /// The form with others in the places of the inames, if it mentions one of them. `Limit` comes where it, or a part that is
    /// collected on the way, passes its limit.
    pub fn changed(&self, alloc: Global, form: &Form) -> Result<Option<Form>, ExprFault>
        ensures answer { IfOk result (λ put. form_answer self.now.vars.now self.now.forms.now form.now ≡ Ok put) }
        ensures refusal { IfErr result (λ f. f ≢ ExprFault.OutOfMemory → form_answer self.now.vars.now self.now.forms.now form.now ≡ Err f) }
    {
        if !mentions_one(self.vars, form.quasi()) {
            return Ok(None);
        }
        match self.put(alloc, form) {
            Ok(put) => Ok(Some(put)),
            Err(fault) => Err(fault),
        }
    }

    /// The form with others in the places of the inames. `Limit` comes as in `changed`.
    pub fn changed_form(&self, alloc: Global, form: &Form) -> Result<Form, ExprFault>
        ensures changed { IfOk result (λ f. f ≡ changed_form self.now.vars.now self.now.forms.now form.now) }
        ensures within { OnOk result (changes_within self.now.vars.now self.now.forms.now form.now ≡ true) }
        ensures limit { IfErr result (λ f. f ≢ ExprFault.OutOfMemory → changes_within self.now.vars.now self.now.forms.now form.now ≡ false) }
        ensures only { IfErr result (λ f. f ≢ ExprFault.OutOfMemory → f ≡ ExprFault.Limit) }
    {
        match self.changed(alloc, form)? {
            Some(put) => Ok(put),
            None => Ok(form.copy(alloc)?),
        }
    }

    /// The forms with others in the places of the inames. `Limit` comes as in `changed`.
    pub fn changed_forms(&self, alloc: Global, forms: &[Form]) -> Result<Listed<Form>, ExprFault>
        ensures changed { IfOk result (λ fs. fs ≡ map (changed_form self.now.vars.now self.now.forms.now) forms.now) }
        ensures within { OnOk result (list_all (changes_within self.now.vars.now self.now.forms.now) forms.now ≡ true) }
        ensures limit { IfErr result (λ f. f ≢ ExprFault.OutOfMemory → list_all (changes_within self.now.vars.now self.now.forms.now) forms.now ≡ false) }
        ensures only { IfErr result (λ f. f ≢ ExprFault.OutOfMemory → f ≡ ExprFault.Limit) }
    {
        let mut made = Listed::new(alloc);
        for form in forms {
            made.push(self.changed_form(alloc, form)?)?;
        }
        Ok(made)
    }

    fn changes_one(&self, forms: &[Form]) -> bool
        ensures { result ≡ list_any (mentions_one self.now.vars.now) forms.now }
    {
        forms
            .iter()
            .any(|form| mentions_one(self.vars, form.quasi()))
    }

    /// The list with the new inames.
    pub fn changed_list(&self, alloc: Global, inames: &[u32]) -> Result<Listed<u32>, ExprFault>
        ensures list { IfOk result (λ us. us ≡ changed_list self.now.first self.now.vars.now self.now.put.now inames.now) }
        ensures refused { IfErr result (λ f. f ≡ ExprFault.OutOfMemory) }
    {
        Ok(changed_list(alloc, self.first, self.vars, self.put, inames)?)
    }
}

impl Rewriting for Change<'_> {
    ghost use Rattle.kernel_edits.specs.Changing.{changing};

    ghost rules = { λ s. changing s.vars.now s.forms.now s.first s.put.now };

    fn leaf(&self, alloc: Global, node: &Node) -> Result<Option<Expr>, ExprFault> {
        match node {
            Node::Leaf(form) => match self.changed(alloc, form)? {
                None => Ok(None),
                Some(put) => leaf_tree(alloc, Node::Leaf(put)),
            },
            Node::Read(cell, place) => {
                if !self.changes_one(place.as_slice()) {
                    return Ok(None);
                }
                let put = self.changed_forms(alloc, place.as_slice())?;
                leaf_tree(alloc, Node::Read(*cell, put))
            }
            Node::Call(rule, arguments) => {
                if !self.changes_one(arguments.as_slice()) {
                    return Ok(None);
                }
                let put = self.changed_forms(alloc, arguments.as_slice())?;
                leaf_tree(alloc, Node::Call(*rule, put))
            }
            _ => Ok(None),
        }
    }

    fn form(&self, alloc: Global, form: &Form) -> Result<Option<Form>, ExprFault> {
        self.changed(alloc, form)
    }

    fn over(&self, alloc: Global, inames: &[u32]) -> Result<Option<Listed<u32>>, ExprFault> {
        if !is_among(inames, self.first) {
            return Ok(None);
        }
        Ok(Some(self.changed_list(alloc, inames)?))
    }
}

/// The tree of a node without parts.
fn leaf_tree(alloc: Global, leaf: Node) -> Result<Option<Expr>, ExprFault>
    requires { is_leaf leaf ≡ true }
    ensures tree { IfOk result (λ put. put ≡ Some (tree_of leaf)) }
    ensures refused { IfErr result (λ f. f ≡ ExprFault.OutOfMemory) }
{
    Ok(Some(tree_of(alloc, leaf)?))
}

/// Whether the variables differ.
pub fn all_differ(vars: &[u32]) -> bool
    ensures { result ≡ vars_differ vars.now }
{
    match vars {
        [] => true,
        [var, rest @ ..] => is_new(*var, rest) && all_differ(rest),
    }
}

fn is_new(var: u32, vars: &[u32]) -> bool
    ensures { result ≡ list_all (λ u. if nat_eq var u then false else true) vars.now }
{
    vars.iter().all(|other| var != *other)
}
