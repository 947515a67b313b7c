//! Uses of rules replaced by the rules' bodies.
ghost use Rattle.std.specs.Prelude.{◌≡◌, ◌≢◌, ◌<◌, [], ◌∷◌, map, length, slice_get, Ok, Err, Some, true, false, nat_eq, if◌then◌else◌, IfOk, OnOk};
ghost use Rattle.std.specs.List.{list_all};
ghost use Rattle.std.specs.Option.{option_copied};
ghost use Rattle.std.specs.Result.{IfErr};
ghost use Rattle.quasi_forms.specs.Collected.{put_form};
ghost use Rattle.quasi_forms.specs.Placed.{vars_differ};
ghost use Rattle.expr_tree.specs.Rewritten.{tree_of};
ghost use Rattle.quasi_forms.specs.Fits.{fits};
ghost use Rattle.subst_rules.specs.Replaced.{body_with, is_leaf};

use affine_rows::{Form, Listed};
use expr_tree::{Expr, ExprFault, Node, Rewriting, Steps, make};
use kernel_ir::SubstRule;
use quasi_forms::{FormFault, put_all};
use std::alloc::Global;
use std::marker::Brand;
use std::sync::ledger::{Blank, Ledger};

/// Puts forms in for different variables, all at once.
#[derive(Clone, Copy)]
struct Putting<'a> {
    vars: &'a [u32],
    forms: &'a [Form],
    ghost differ: { vars_differ vars.now ≡ true },
    ghost count: { length vars.now ≡ length forms.now },
}

impl Putting<'_> {
    fn put(&self, alloc: Global, form: &Form) -> Result<Form, ExprFault>
        ensures put { IfOk result (λ f. f ≡ put_form self.now.vars.now self.now.forms.now form.now) }
        ensures fits { OnOk result (fits self.now.vars.now self.now.forms.now form.now ≡ true) }
        ensures limit { IfErr result (λ f. f ≢ ExprFault.OutOfMemory → fits self.now.vars.now self.now.forms.now form.now ≡ false) }
        ensures only { IfErr result (λ f. f ≢ ExprFault.OutOfMemory → f ≡ ExprFault.Limit) }
    {
        match put_all(alloc, form, self.vars, self.forms) {
            Ok(put) => Ok(put),
            Err(FormFault::Limit) => Err(ExprFault::Limit),
            Err(FormFault::OutOfMemory) | Err(FormFault::NotAffine) => Err(ExprFault::OutOfMemory),
        }
    }

    fn put_each(&self, alloc: Global, forms: &[Form]) -> Result<Listed<Form>, ExprFault>
        ensures put { IfOk result (λ fs. fs ≡ map (put_form self.now.vars.now self.now.forms.now) forms.now) }
        ensures fits { OnOk result (list_all (fits self.now.vars.now self.now.forms.now) forms.now ≡ true) }
        ensures limit { IfErr result (λ f. f ≢ ExprFault.OutOfMemory → list_all (fits self.now.vars.now self.now.forms.now) forms.now ≡ false) }
        ensures only { IfErr result (λ f. f ≢ ExprFault.OutOfMemory → f ≡ ExprFault.Limit) }
    {
        let mut made = Listed::new(alloc);
        for form in forms {
            made.push(self.put(alloc, form)?)?;
        }
        Ok(made)
    }
}

impl Rewriting for Putting<'_> {
    ghost use Rattle.subst_rules.specs.Replaced.{putting_within};

    ghost rules = { λ s. putting_within s.vars.now s.forms.now };

    fn leaf(&self, alloc: Global, node: &Node) -> Result<Option<Expr>, ExprFault> {
        match node {
            Node::Leaf(form) => {
                let put = self.put(alloc, form)?;
                leaf_tree(alloc, Node::Leaf(put))
            }
            Node::Read(cell, place) => {
                let put = self.put_each(alloc, place.as_slice())?;
                leaf_tree(alloc, Node::Read(*cell, put))
            }
            Node::Call(rule, arguments) => {
                let put = self.put_each(alloc, arguments.as_slice())?;
                leaf_tree(alloc, Node::Call(*rule, put))
            }
            _ => Ok(None),
        }
    }

    fn form(&self, alloc: Global, form: &Form) -> Result<Option<Form>, ExprFault> {
        Ok(Some(self.put(alloc, form)?))
    }

    fn over(&self, _alloc: Global, _inames: &[u32]) -> Result<Option<Listed<u32>>, ExprFault> {
        Ok(None)
    }
}

/// The tree of a node without parts.
fn leaf_tree(alloc: Global, leaf: Node) -> Result<Option<Expr>, ExprFault>
    requires { is_leaf leaf ≡ true }
    ensures tree { IfOk result (λ put. put ≡ Some (tree_of leaf)) }
    ensures refused { IfErr result (λ f. f ≡ ExprFault.OutOfMemory) }
{
    leaf_of::<Brand>(alloc, leaf, Blank::new(1))
}

fn leaf_of<L: Ledger>(alloc: Global, leaf: Node, blank: Blank) -> Result<Option<Expr>, ExprFault>
    requires leaf { is_leaf leaf ≡ true }
    requires name { blank.name ≡ L.name }
    requires parts { blank.parts ≡ L.parts }
    requires some { 0 < blank.parts }
    ensures tree { IfOk result (λ put. put ≡ Some (tree_of leaf)) }
    ensures refused { IfErr result (λ f. f ≡ ExprFault.OutOfMemory) }
{
    let mut steps = Steps::<L>::open(blank);
    Ok(Some(make(alloc, leaf, &mut steps)?))
}

/// Replaces each use of a rule by the rule's body with the arguments in the places of the parameters. The uses in the
/// bodies stay.
#[derive(Clone, Copy)]
pub(crate) struct Replacing<'a> {
    pub(crate) rules: &'a [SubstRule],
}

impl Rewriting for Replacing<'_> {
    ghost use Rattle.subst_rules.specs.Replaced.{replacing};

    ghost rules = { λ s. replacing s.rules.now };

    fn leaf(&self, alloc: Global, node: &Node) -> Result<Option<Expr>, ExprFault> {
        match node {
            Node::Call(rule, arguments) => match rule_at(self.rules, *rule) {
                None => Ok(None),
                Some(rule) => body_with(alloc, rule, arguments.as_slice()),
            },
            _ => Ok(None),
        }
    }

    fn form(&self, _alloc: Global, _form: &Form) -> Result<Option<Form>, ExprFault> {
        Ok(None)
    }

    fn over(&self, _alloc: Global, _inames: &[u32]) -> Result<Option<Listed<u32>>, ExprFault> {
        Ok(None)
    }
}

/// The rule, if it is there.
fn rule_at(rules: &[SubstRule], rule: u32) -> Option<&SubstRule>
    ensures { option_copied result ≡ slice_get rules.now rule }
{
    rules.get(rule as usize)
}

/// The rule's body with the arguments in the places of the parameters.
fn body_with(alloc: Global, rule: &SubstRule, arguments: &[Form]) -> Result<Option<Expr>, ExprFault>
    ensures answer { IfOk result (λ put. body_with (Some rule.now) arguments.now ≡ Ok put) }
    ensures refusal { IfErr result (λ f. f ≢ ExprFault.OutOfMemory → body_with (Some rule.now) arguments.now ≡ Err f) }
{
    with_arguments::<Brand>(alloc, rule, arguments, Blank::new(1))
}

/// The counts of both are compared before any
/// tree is made, so the fault for counts that differ does not come.
fn with_arguments<L: Ledger>(
    alloc: Global,
    rule: &SubstRule,
    arguments: &[Form],
    blank: Blank,
) -> Result<Option<Expr>, ExprFault>
    requires name { blank.name ≡ L.name }
    requires parts { blank.parts ≡ L.parts }
    requires some { 0 < blank.parts }
    ensures answer { IfOk result (λ put. body_with (Some rule.now) arguments.now ≡ Ok put) }
    ensures refusal { IfErr result (λ f. f ≢ ExprFault.OutOfMemory → body_with (Some rule.now) arguments.now ≡ Err f) }
{
    if rule.params.len() != arguments.len() || !all_differ(rule.params.as_slice()) {
        return Err(ExprFault::OutOfMemory);
    }
    let by = Putting {
        vars: rule.params.as_slice(),
        forms: arguments,
    };
    let mut steps = Steps::<L>::open(blank);
    match rule.body.rewrite(alloc, &by, &mut steps) {
        Ok(tree) => Ok(Some(tree)),
        Err(fault) => Err(fault),
    }
}

/// Whether the variables differ.
fn all_differ(vars: &[u32]) -> bool
    ensures { result ≡ vars_differ vars.now }
{
    match vars {
        [] => true,
        [var, rest @ ..] => is_new(*var, rest) && all_differ(rest),
    }
}

fn is_new(var: u32, vars: &[u32]) -> bool
    ensures { result ≡ list_all (λ u. if nat_eq var u then false else true) vars.now }
{
    vars.iter().all(|other| var != *other)
}
