//! The variables that forms mention.
ghost use Rattle.std.specs.Prelude.{◌≡◌, not};
ghost use Rattle.std.specs.List.{list_all};
ghost use Rattle.affine_rows.specs.declared.quasi.Floor.{out-Floor};
ghost use Rattle.expr_tree.specs.Scenes.{each_var, is_among, mentions_one, mentions_only};

use affine_rows::{Floor, Quasi};

/// Whether the variable is among these.
pub fn is_among(vars: &[u32], var: u32) -> bool
    ensures { result ≡ is_among vars.now var }
{
    vars.iter().any(|other| *other == var)
}

fn terms_mention_only(vars: &[u32], terms: &[(u32, i64)]) -> bool
    ensures { result ≡ list_all (λ t. is_among vars.now t.0) terms.now }
{
    terms.iter().all(|term| is_among(vars, term.0))
}

/// Whether a form mentions only these variables, under its floors too.
#[cycle(only)]
pub fn mentions_only(vars: &[u32], form: &Quasi) -> bool
    ensures { result ≡ mentions_only vars.now form.now }
{
    terms_mention_only(vars, form.terms.as_slice())
        && floors_mention_only(vars, form.floors.as_slice())
}

#[cycle(only)]
fn floors_mention_only(vars: &[u32], floors: &[Floor]) -> bool
    ensures { result ≡ list_all (λ f. mentions_only vars.now (out-Floor f).inner) floors.now }
{
    for floor in floors {
        if !mentions_only(vars, &floor.inner) {
            return false;
        }
    }
    true
}

fn terms_mention_none(vars: &[u32], terms: &[(u32, i64)]) -> bool
    ensures { result ≡ list_all (λ t. not (is_among vars.now t.0)) terms.now }
{
    terms.iter().all(|term| !is_among(vars, term.0))
}

#[cycle(none)]
fn mentions_none(vars: &[u32], form: &Quasi) -> bool
    ensures { result ≡ each_var (λ v. not (is_among vars.now v)) form.now }
{
    terms_mention_none(vars, form.terms.as_slice())
        && floors_mention_none(vars, form.floors.as_slice())
}

#[cycle(none)]
fn floors_mention_none(vars: &[u32], floors: &[Floor]) -> bool
    ensures { result ≡ list_all (λ f. each_var (λ v. not (is_among vars.now v)) (out-Floor f).inner) floors.now }
{
    for floor in floors {
        if !mentions_none(vars, &floor.inner) {
            return false;
        }
    }
    true
}

/// Whether a form mentions one of these variables, under its floors too.
pub fn mentions_one(vars: &[u32], form: &Quasi) -> bool
    ensures { result ≡ mentions_one vars.now form.now }
{
    !mentions_none(vars, form)
}
