//! The uses of a rule, or the reads of an array, that stand in instructions.
ghost use Rattle.std.specs.Prelude.{◌≡◌};
ghost use Rattle.precompute.specs.Swapped.{is_read, is_rule};

use affine_rows::{Form, Listed, copy_forms};
use expr_tree::{Cell, Expr, Node, Test};
use kernel_edits::{cell_kind, leading_kind, leading_of_test, leads_of_rules};
use kernel_ir::{Insn, Kernel};
use std::alloc::{AllocError, Global};
use wrap_words::Kind;

/// What a fill stores: the values of an array or of a rule, by its place among those.
#[derive(Clone, Copy, Debug, PartialEq, Eq)]
pub(crate) enum Source {
    Array(u32),
    Rule(u32),
}

impl Source {
    /// Whether a read of the cell is a use.
    pub(crate) fn is_read(self, cell: Cell) -> bool
        ensures { result ≡ is_read self cell }
    {
        match self {
            Source::Array(array) => match cell {
                Cell::Array(at) => array == at,
                Cell::Temp(_) => false,
            },
            Source::Rule(_) => false,
        }
    }

    /// Whether a use of the rule is one.
    pub(crate) fn is_rule(self, at: u32) -> bool
        ensures { result ≡ is_rule self at }
    {
        match self {
            Source::Array(_) => false,
            Source::Rule(rule) => rule == at,
        }
    }
}

/// A use: the place of its instruction in the kernel, the subscripts or arguments, the kind at which it stands, and whether it
/// stands under a reduction.
#[derive(Drop)]
pub(crate) struct Used {
    pub(crate) at: usize,
    pub(crate) place: Listed<Form>,
    pub(crate) kind: Kind,
    pub(crate) is_folded: bool,
}

/// What is searched for, in a kernel of which the kinds that lead the bodies of its rules are known.
#[derive(Clone, Copy)]
struct Search<'a> {
    kernel: &'a Kernel,
    leads: &'a [Option<Kind>],
    source: Source,
}

/// Where a part of an instruction stands.
#[derive(Clone, Copy)]
struct Spot {
    at: usize,
    kind: Kind,
    is_folded: bool,
}

fn add_if(
    alloc: Global,
    is_use: bool,
    place: &[Form],
    spot: Spot,
    found: &mut Listed<Used>,
) -> Result<(), AllocError> {
    if !is_use {
        return Ok(());
    }
    found.push(Used {
        at: spot.at,
        place: copy_forms(alloc, place)?,
        kind: spot.kind,
        is_folded: spot.is_folded,
    })
}

/// Where the operand of a conversion stands: at the kind that leads it, or else at that to which it is converted.
fn operand_spot(search: Search<'_>, to: Kind, operand: &Expr, spot: Spot) -> Spot {
    let kind = leading_kind(search.kernel, search.leads, operand).unwrap_or(to);
    Spot { kind, ..spot }
}

/// Where the sides of a comparison stand.
fn side_spot(search: Search<'_>, left: &Expr, right: &Expr, spot: Spot) -> Spot {
    let kind = leading_of_test(search.kernel, search.leads, left, right, spot.kind);
    Spot { kind, ..spot }
}

fn folded(spot: Spot) -> Spot {
    Spot {
        is_folded: true,
        ..spot
    }
}

#[cycle(uses)]
fn add_value(
    alloc: Global,
    search: Search<'_>,
    value: &Expr,
    spot: Spot,
    found: &mut Listed<Used>,
) -> Result<(), AllocError> {
    match value.node() {
        Node::Literal(_) | Node::Leaf(_) => Ok(()),
        Node::Read(cell, place) => {
            add_if(
                alloc,
                search.source.is_read(*cell),
                place.as_slice(),
                spot,
                found,
            )
        }
        Node::Call(rule, place) => {
            add_if(
                alloc,
                search.source.is_rule(*rule),
                place.as_slice(),
                spot,
                found,
            )
        }
        Node::Neg(a) | Node::Inv(a) | Node::Shl(a, _) | Node::Shr(a, _) => {
            add_value(alloc, search, a, spot, found)
        }
        Node::Cast(to, a) => add_value(alloc, search, a, operand_spot(search, *to, a, spot), found),
        Node::Bin(_, a, b) => {
            add_value(alloc, search, a, spot, found)?;
            add_value(alloc, search, b, spot, found)
        }
        Node::Pick(test, a, b) => {
            add_test(alloc, search, test, spot, found)?;
            add_value(alloc, search, a, spot, found)?;
            add_value(alloc, search, b, spot, found)
        }
        Node::Fold(_, _, a) => add_value(alloc, search, a, folded(spot), found),
    }
}

#[cycle(uses)]
fn add_test(
    alloc: Global,
    search: Search<'_>,
    test: &Test,
    spot: Spot,
    found: &mut Listed<Used>,
) -> Result<(), AllocError> {
    match test {
        Test::Words(_, a, b) => {
            let own = side_spot(search, a, b, spot);
            add_value(alloc, search, a, own, found)?;
            add_value(alloc, search, b, own, found)
        }
        Test::Index(_, _, _) => Ok(()),
        Test::All(p, q) | Test::Any(p, q) => {
            add_test(alloc, search, p.get(), spot, found)?;
            add_test(alloc, search, q.get(), spot, found)
        }
        Test::Not(p) => add_test(alloc, search, p.get(), spot, found),
    }
}

/// Adds the uses in an instruction. A cell has a kind.
fn add_insn(
    alloc: Global,
    search: Search<'_>,
    at: usize,
    insn: &Insn,
    found: &mut Listed<Used>,
) -> Result<(), AllocError> {
    let spot = Spot {
        at,
        kind: cell_kind(search.kernel, insn.cell).unwrap_or(Kind::I32),
        is_folded: false,
    };
    add_value(alloc, search, &insn.value, spot, found)?;
    match &insn.test {
        None => Ok(()),
        Some(test) => add_test(alloc, search, test, spot, found),
    }
}

/// The uses in instructions, in the order of these.
pub(crate) fn uses_of(
    alloc: Global,
    kernel: &Kernel,
    source: Source,
) -> Result<Listed<Used>, AllocError> {
    let leads = leads_of_rules(alloc, kernel)?;
    let search = Search {
        kernel,
        leads: &leads,
        source,
    };
    let insns = kernel.insns.as_slice();
    let mut found = Listed::new(alloc);
    for at in 0..insns.len() {
        add_insn(alloc, search, at, &insns[at], &mut found)?;
    }
    Ok(found)
}
