//! When two forms are the same.
ghost use Rattle.std.specs.Prelude.{◌≡◌, map};
ghost use Rattle.affine_rows.specs.declared.quasi.Floor.{Floor, out-Floor};
ghost use Rattle.quasi_forms.specs.Alike.{same_terms, same_form, same_floors, same_factored};

use affine_rows::{Floor, Quasi};

fn same_terms(left: &[(u32, i64)], right: &[(u32, i64)]) -> bool
    ensures { result ≡ same_terms left.now right.now }
{
    if left.len() != right.len() {
        return false;
    }
    for i in 0..left.len() {
        if left[i].0 != right[i].0 || left[i].1 != right[i].1 {
            return false;
        }
    }
    true
}

/// Whether two forms have the same constant, terms and floors.
#[cycle(same)]
pub fn same_form(left: &Quasi, right: &Quasi) -> bool
    ensures { result ≡ same_form left.now right.now }
{
    left.constant == right.constant
        && same_terms(left.terms.as_slice(), right.terms.as_slice())
        && same_floors(left.floors.as_slice(), right.floors.as_slice())
}

#[cycle(same)]
fn same_floors(left: &[Floor], right: &[Floor]) -> bool
    ensures { result ≡ same_floors left.now right.now }
{
    if left.len() != right.len() {
        return false;
    }
    for i in 0..left.len() {
        if !same_factored(&left[i], &right[i]) {
            return false;
        }
    }
    true
}

/// Whether two floors are alike and have the same factor.
#[cycle(same)]
fn same_factored(left: &Floor, right: &Floor) -> bool
    ensures { result ≡ same_factored left.now right.now }
{
    left.times == right.times && left.by == right.by && same_form(&left.inner, &right.inner)
}
