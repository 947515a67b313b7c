//! Conditions of domains and assumptions.
ghost use Rattle.std.specs.Prelude.{◌≡◌, [], ◌∷◌, ◌++◌, IfOk, OnOk};
ghost use Rattle.kernel_lines.specs.Places.{forms_of};
ghost use Rattle.kernel_lines.specs.Conditions.{form_faults, no_conditions, both, link_of, links_of, chain_of, chains_of};

use crate::places::read_forms;
use crate::rows::{add_rows, rows_between};
use affine_rows::{Form, Listed, Name};
use expr_tree::QuasiRow;
use kernel_grammar::{Chain, Relation, Step};
use kernel_names::{Limit, LineFaults};
use std::alloc::{AllocError, Global};
use untyped::Scope;

/// The rows of conditions, and what is wrong in them first.
#[derive(Drop)]
pub struct Conditions {
    pub rows: Listed<QuasiRow>,
    pub faults: LineFaults,
}

/// A form that passes a limit.
pub(crate) fn form_faults(over: bool) -> LineFaults
    ensures { result ≡ form_faults over }
{
    LineFaults {
        limit: if over { Some(Limit::Form) } else { None },
        unknown: None,
        taken: None,
        shape: None,
    }
}

impl Conditions {
    fn none(alloc: Global) -> Conditions
        ensures { result ≡ no_conditions }
    {
        Conditions {
            rows: Listed::new(alloc),
            faults: LineFaults::none(),
        }
    }

    /// These and what is wrong behind them.
    fn with_faults(self, faults: LineFaults) -> Conditions
        ensures { result ≡ both self (record { rows = []; faults = faults }) }
    {
        Conditions {
            rows: self.rows,
            faults: self.faults.or(faults),
        }
    }

    /// These and the rows of a list of forms that is compared with the next list, which is given back.
    fn with_link<S: Scope>(
        self,
        alloc: Global,
        scope: &S,
        word: &Name,
        left: &[Form],
        link: &(Relation, Listed<Listed<Step>>),
    ) -> Result<(Conditions, Listed<Form>), AllocError>
        ensures conditions { IfOk result (λ r. r.0 ≡ both self (link_of (S.roles scope.now) word.now left.now link.now)) }
        ensures right { IfOk result (λ r. r.1 ≡ forms_of (S.roles scope.now) link.now.1) }
    {
        let Conditions { mut rows, faults } = self;
        let (right, wrong) = read_forms(alloc, scope, word, link.1.as_slice())?;
        let compared = rows_between(alloc, link.0, left, right.as_slice())?;
        let over = add_rows(compared, &mut rows)?;
        let faults = faults.or(wrong.or(form_faults(over)));
        Ok((Conditions { rows, faults }, right))
    }

    /// These and the rows of lists of forms that are compared, each with the next.
    fn with_chain<S: Scope>(
        self,
        alloc: Global,
        scope: &S,
        word: &Name,
        chain: &Chain,
    ) -> Result<Conditions, AllocError>
        ensures { IfOk result (λ c. c ≡ both self (chain_of (S.roles scope.now) word.now chain.now)) }
    {
        let (mut left, wrong) = read_forms(alloc, scope, word, chain.first.as_slice())?;
        let mut conditions = self.with_faults(wrong);
        'links: for link in chain.rest.as_slice() {
            let (more, right) = conditions.with_link(alloc, scope, word, left.as_slice(), link)?;
            conditions = more;
            left = right;
        }
        Ok(conditions)
    }
}

/// The rows of conditions in order, where names stand for what the scope says; a word says what is refused where something
/// is no index expression. It takes time in proportion to the text, the rows and the sizes of their forms. The only error
/// is want of memory.
pub fn read_conditions<S: Scope>(
    alloc: Global,
    scope: &S,
    word: &Name,
    chains: &[Chain],
) -> Result<Conditions, AllocError>
    ensures { IfOk result (λ c. c ≡ chains_of (S.roles scope.now) word.now chains.now) }
{
    let mut conditions = Conditions::none(alloc);
    'chains: for chain in chains {
        conditions = conditions.with_chain(alloc, scope, word, chain)?;
    }
    Ok(conditions)
}
