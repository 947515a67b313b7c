//! What expressions lead with.
ghost use Rattle.std.specs.Prelude.{◌≡◌};
ghost use Rattle.kind_faults.specs.Leads.{leading_at};
ghost use Rattle.untyped_parts.specs.Leads.{leading_of};

use kernel_grammar::{Infix, Prefix};
use kind_faults::{Leading, kept_leading};
use untyped::{Term, Untyped};

/// The first read or cast of the expression outside its inner tests, by those that are kept of the rules. A test has none.
#[cycle(leading)]
pub fn leading(tree: &Untyped, rules: &[Option<Leading>]) -> Option<Leading>
    ensures { result ≡ leading_of (leading_at rules.now) tree.now }
{
    match tree.term() {
        Term::Index(_, _)
        | Term::Literal(_)
        | Term::Prefix(Prefix::Not, _)
        | Term::Infix(Infix::Or, _, _)
        | Term::Infix(Infix::And, _, _)
        | Term::Infix(Infix::Compare(_), _, _)
        | Term::Infix(Infix::NotEqual, _, _) => None,
        Term::Read(cell, _) => Some(Leading::Read(*cell)),
        Term::Use(rule, _) => kept_leading(rules, *rule as usize),
        Term::Cast(to, _) => Some(Leading::Cast(*to)),
        Term::Prefix(_, a) | Term::ShiftLeft(a, _) | Term::ShiftRight(a, _) | Term::Fold(_, _, a) =>
            { leading(a, rules) }
        Term::Infix(_, a, b) | Term::Choose(_, a, b) => match leading(a, rules) {
            Some(first) => Some(first),
            None => leading(b, rules),
        },
    }
}
