//! How large expanded trees get, worked out before any is built.
ghost use Rattle.std.specs.Prelude.{◌≡◌, ◌+◌, ◌*◌, ◌-◌, ◌^◌, ◌<◌, ◌≤◌, min, max, map, length, true, IfOk};
ghost use Rattle.subst_rules.specs.Sizes.{capped, joined, leaf_size, over_one, over_two, size_in, size_with, sizes_of, sizes_to, test_size_with};

use expr_tree::{Expr, Node, Test};
use kernel_ir::SubstRule;
use std::alloc::{AllocError, Global};

/// The depth, to 65, and the count of nodes, to 4,097, of a tree: one past what is allowed stands for all that is more.
#[derive(Clone, Copy)]
pub(crate) struct Size {
    pub(crate) depth: u32,
    pub(crate) nodes: u32,
}

impl Size {
    const LEAF: Size = Size { depth: 1, nodes: 1 };

    fn capped(depth: u64, nodes: u64) -> Size
        ensures { result ≡ capped depth nodes }
    {
        Size {
            depth: depth.min(65) as u32,
            nodes: nodes.min(4097) as u32,
        }
    }

    fn over(self) -> Size
        ensures { result ≡ over_one self }
    {
        Size::capped(self.depth as u64 + 1, self.nodes as u64 + 1)
    }

    fn over_both(self, other: Size) -> Size
        ensures { result ≡ over_two self other }
    {
        let nodes = self.nodes as u64 + other.nodes as u64;
        Size::capped(self.depth.max(other.depth) as u64 + 1, nodes + 1)
    }

    fn joined(self, other: Size) -> Size
        ensures { result ≡ joined self other }
    {
        let nodes = self.nodes as u64 + other.nodes as u64;
        Size::capped(self.depth.max(other.depth) as u64 + 1, nodes)
    }

    fn over_three(test: Size, a: Size, b: Size) -> Size
        ensures { result ≡ capped (max test.depth (max a.depth b.depth) + 1) (test.nodes + (a.nodes + b.nodes) + 1) }
    {
        let depth = test.depth.max(a.depth.max(b.depth)) as u64;
        let nodes = test.nodes as u64 + (a.nodes as u64 + b.nodes as u64);
        Size::capped(depth + 1, nodes + 1)
    }

    fn negated(self) -> Size
        ensures { result ≡ capped (self.depth + 1) self.nodes }
    {
        Size::capped(self.depth as u64 + 1, self.nodes as u64)
    }
}

/// The size of the tree with each use of a rule counted as the size in the table.
#[cycle(size)]
pub(crate) fn size_of(expr: &Expr, table: &[Size]) -> Size
    ensures { result ≡ size_with (size_in table.now) expr.now }
{
    match expr.node() {
        Node::Literal(_) | Node::Leaf(_) | Node::Read(_, _) => Size::LEAF,
        Node::Call(rule, _) => size_in(table, *rule),
        Node::Neg(a)
        | Node::Inv(a)
        | Node::Shl(a, _)
        | Node::Shr(a, _)
        | Node::Cast(_, a)
        | Node::Fold(_, _, a) => size_of(a, table).over(),
        Node::Bin(_, a, b) => size_of(a, table).over_both(size_of(b, table)),
        Node::Pick(test, a, b) => {
            Size::over_three(test_size(test, table), size_of(a, table), size_of(b, table))
        }
    }
}

/// The size of the test, likewise. Tests are no nodes.
#[cycle(size)]
pub(crate) fn test_size(test: &Test, table: &[Size]) -> Size
    ensures { result ≡ test_size_with (size_in table.now) test.now }
{
    match test {
        Test::Words(_, a, b) => size_of(a, table).joined(size_of(b, table)),
        Test::Index(_, _, _) => Size { depth: 1, nodes: 0 },
        Test::All(p, q) | Test::Any(p, q) => {
            test_size(p.get(), table).joined(test_size(q.get(), table))
        }
        Test::Not(p) => test_size(p.get(), table).negated(),
    }
}

/// A rule's size in the table; a rule that is not there stays a use.
fn size_in(table: &[Size], rule: u32) -> Size
    ensures { result ≡ size_in table.now rule }
{
    match table.get(rule as usize) {
        None => Size::LEAF,
        Some(size) => *size,
    }
}

/// The sizes of the bodies with all uses replaced. The rounds end where one changes nothing.
pub(crate) fn sizes_of(alloc: Global, rules: &[SubstRule]) -> Result<Vec<Size>, AllocError>
    ensures { IfOk result (λ sizes. sizes.items ≡ sizes_of rules.now) }
{
    let mut sizes = first_sizes(alloc, rules)?;
    for _round in 0..rules.len() {
        let next = next_sizes(alloc, rules, sizes.as_slice())?;
        let settled = same_sizes(sizes.as_slice(), next.as_slice());
        if settled {
            return Ok(sizes);
        }
        sizes = next;
    }
    Ok(sizes)
}

fn first_sizes(alloc: Global, rules: &[SubstRule]) -> Result<Vec<Size>, AllocError>
    ensures { IfOk result (λ sizes. sizes.items ≡ map (λ r. leaf_size) rules.now) }
{
    rules.iter().map(|_| Size::LEAF).collect(alloc)
}

/// The sizes with uses replaced to one depth more.
fn next_sizes(alloc: Global, rules: &[SubstRule], sizes: &[Size]) -> Result<Vec<Size>, AllocError>
    ensures { IfOk result (λ next. next.items ≡ map (λ r. size_with (size_in sizes.now) r.body) rules.now) }
{
    let mut next = Vec::new(alloc);
    for rule in rules {
        next.push(size_of(&rule.body, sizes))?;
    }
    Ok(next)
}

/// Whether the sizes are the same.
fn same_sizes(a: &[Size], b: &[Size]) -> bool
    ensures { result ≡ true → a.now ≡ b.now }
{
    if a.len() != b.len() {
        return false;
    }
    for at in 0..a.len() {
        if a[at].depth != b[at].depth || a[at].nodes != b[at].nodes {
            return false;
        }
    }
    true
}
