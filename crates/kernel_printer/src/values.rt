//! Values and tests.
ghost use Rattle.std.specs.Prelude.{◌≡◌, ◌++◌, OnOk, codes};
ghost use Rattle.std.specs.Fmt.{decimal};
ghost use Rattle.kernel_printer.specs.Spelled.{spelling_of};
ghost use Rattle.kernel_printer.specs.Standing.{first_standing, standing_text};
ghost use Rattle.kernel_printer.specs.ValueText.{ValueText, comparison_text, first_of, folding_text, infix_text, leaf_text, opening_text, over_text, text_of_test, text_of_value, text_of_node};

use crate::forms::{write_first, write_form, write_forms, write_operand, write_place};
use crate::spelling::{Spelling, write_cell, write_name, write_rule_name, write_vars};
use affine_rows::Form;
use expr_tree::{Expr, Node, Op, Rel, Test};
use kernel_ir::Kernel;
use kind_faults::kind_word;
use std::alloc::{AllocError, Global};
use text_writer::{put, put_digits};

/// Where an expression stands: alone, below a node, or as the first of two values of `min` or `max`.
#[derive(Clone, Copy, Debug, PartialEq, Eq)]
pub enum Standing {
    Alone,
    Below,
    First,
}

/// How a reduction combines.
fn folding(op: Op) -> &'static str
    ensures { result.now ≡ folding_text op }
{
    match op {
        Op::Add => "sum",
        Op::Mul => "product",
        Op::Min => "min",
        Op::Max => "max",
        Op::Sub | Op::And | Op::Or | Op::Xor => "",
    }
}

/// What stands before the first of two values.
fn opening(op: Op) -> &'static str
    ensures { result.now ≡ opening_text op }
{
    match op {
        Op::Min => "min(",
        Op::Max => "max(",
        Op::Add | Op::Mul | Op::Sub | Op::And | Op::Or | Op::Xor => "(",
    }
}

/// What stands between two values.
fn infix(op: Op) -> &'static str
    ensures { result.now ≡ infix_text op }
{
    match op {
        Op::Add => " + ",
        Op::Mul => " * ",
        Op::Min | Op::Max => ", ",
        Op::Sub => " - ",
        Op::And => " & ",
        Op::Or => " | ",
        Op::Xor => " ^ ",
    }
}

/// Where the first of two values stands.
fn first_standing(op: Op) -> Standing
    ensures standing { result ≡ first_standing op }
    ensures text { (t : ValueText) → standing_text result t ≡ first_of op t }
{
    match op {
        Op::Min | Op::Max => Standing::First,
        Op::Add | Op::Mul | Op::Sub | Op::And | Op::Or | Op::Xor => Standing::Below,
    }
}

/// The spelling of a comparison.
fn comparison(rel: Rel) -> &'static str
    ensures { result.now ≡ comparison_text rel }
{
    match rel {
        Rel::Less => " < ",
        Rel::LessEqual => " <= ",
        Rel::Equal => " == ",
        Rel::NotEqual => " != ",
    }
}

/// Adds the inames of a reduction: one bare, several in parentheses.
fn write_over(out: &mut Vec<u8>, kernel: &Kernel, inames: &[u32]) -> Result<(), AllocError>
    ensures { OnOk result (out.new.items ≡ out.old.items ++ over_text kernel.now inames.now) }
{
    if let [iname] = inames {
        return write_name(out, kernel, *iname);
    }
    put(out, "(")?;
    write_vars(out, kernel, ", ", inames)?;
    put(out, ")")
}

/// Adds a leaf.
fn write_leaf(
    alloc: Global,
    out: &mut Vec<u8>,
    spelling: &Spelling,
    standing: Standing,
    form: &Form,
) -> Result<(), AllocError>
    ensures { OnOk result (out.new.items ≡ out.old.items ++ standing_text standing (leaf_text (spelling_of spelling.now) form.now)) }
{
    match standing {
        Standing::Alone => write_form(alloc, out, spelling, form),
        Standing::Below => write_operand(alloc, out, spelling, form),
        Standing::First => write_first(alloc, out, spelling, form),
    }
}

/// Adds a shift.
#[cycle(value)]
fn write_shift(
    alloc: Global,
    out: &mut Vec<u8>,
    spelling: &Spelling,
    a: &Expr,
    sign: &str,
    by: u32,
) -> Result<(), AllocError>
    ensures { OnOk result (out.new.items ≡ out.old.items ++ (codes "(" ++ (text_of_value spelling.now.kernel.now (spelling_of spelling.now) a.now).operand ++ sign.now ++ decimal by ++ codes ")")) }
{
    put(out, "(")?;
    write_value(alloc, out, spelling, Standing::Below, a)?;
    put(out, sign)?;
    put_digits(out, u64::from(by))?;
    put(out, ")")
}

/// Adds an operand behind a text, and a text behind it.
#[cycle(value)]
fn write_between(
    alloc: Global,
    out: &mut Vec<u8>,
    spelling: &Spelling,
    before: &str,
    a: &Expr,
    behind: &str,
) -> Result<(), AllocError>
    ensures { OnOk result (out.new.items ≡ out.old.items ++ (before.now ++ (text_of_value spelling.now.kernel.now (spelling_of spelling.now) a.now).operand ++ behind.now)) }
{
    put(out, before)?;
    write_value(alloc, out, spelling, Standing::Below, a)?;
    put(out, behind)
}

/// Adds a node that is no leaf.
#[cycle(value)]
fn write_node(
    alloc: Global,
    out: &mut Vec<u8>,
    spelling: &Spelling,
    standing: Standing,
    node: &Node,
) -> Result<(), AllocError>
    ensures { OnOk result (out.new.items ≡ out.old.items ++ standing_text standing (text_of_node spelling.now.kernel.now (spelling_of spelling.now) node.now)) }
{
    match node {
        Node::Literal(number) => put_digits(out, *number),
        Node::Leaf(form) => write_leaf(alloc, out, spelling, standing, form),
        Node::Read(cell, place) => {
            write_cell(out, spelling.kernel, cell)?;
            write_place(alloc, out, spelling, place.as_slice())
        }
        Node::Call(rule, arguments) => {
            write_rule_name(out, spelling.kernel, *rule)?;
            put(out, "(")?;
            write_forms(alloc, out, spelling, arguments.as_slice())?;
            put(out, ")")
        }
        Node::Neg(a) => write_between(alloc, out, spelling, "-", a, ""),
        Node::Inv(a) => write_between(alloc, out, spelling, "~", a, ""),
        Node::Shl(a, by) => write_shift(alloc, out, spelling, a, " << ", *by),
        Node::Shr(a, by) => write_shift(alloc, out, spelling, a, " >> ", *by),
        Node::Bin(op, a, b) => {
            put(out, opening(*op))?;
            write_value(alloc, out, spelling, first_standing(*op), a)?;
            put(out, infix(*op))?;
            write_between(alloc, out, spelling, "", b, ")")
        }
        Node::Pick(test, a, b) => {
            put(out, "if(")?;
            write_test(alloc, out, spelling, test)?;
            write_between(alloc, out, spelling, ", ", a, ", ")?;
            write_between(alloc, out, spelling, "", b, ")")
        }
        Node::Cast(kind, a) => {
            put(out, "cast(")?;
            put(out, kind_word(*kind))?;
            write_between(alloc, out, spelling, ", ", a, ")")
        }
        Node::Fold(op, inames, a) => {
            put(out, folding(*op))?;
            put(out, "(")?;
            write_over(out, spelling.kernel, inames.as_slice())?;
            write_between(alloc, out, spelling, ", ", a, ")")
        }
    }
}

/// Adds a value.
#[cycle(value)]
pub fn write_value(
    alloc: Global,
    out: &mut Vec<u8>,
    spelling: &Spelling,
    standing: Standing,
    value: &Expr,
) -> Result<(), AllocError>
    ensures { OnOk result (out.new.items ≡ out.old.items ++ standing_text standing (text_of_value spelling.now.kernel.now (spelling_of spelling.now) value.now)) }
{
    write_node(alloc, out, spelling, standing, value.node())
}

/// Adds a test.
#[cycle(value)]
pub fn write_test(
    alloc: Global,
    out: &mut Vec<u8>,
    spelling: &Spelling,
    test: &Test,
) -> Result<(), AllocError>
    ensures { OnOk result (out.new.items ≡ out.old.items ++ text_of_test spelling.now.kernel.now (spelling_of spelling.now) test.now) }
{
    match test {
        Test::Words(rel, a, b) => {
            write_between(alloc, out, spelling, "(", a, comparison(*rel))?;
            write_between(alloc, out, spelling, "", b, ")")
        }
        Test::Index(rel, a, b) => {
            put(out, "(")?;
            write_operand(alloc, out, spelling, a)?;
            put(out, comparison(*rel))?;
            write_operand(alloc, out, spelling, b)?;
            put(out, ")")
        }
        Test::All(p, q) => {
            put(out, "(")?;
            write_test(alloc, out, spelling, p.get())?;
            put(out, " and ")?;
            write_test(alloc, out, spelling, q.get())?;
            put(out, ")")
        }
        Test::Any(p, q) => {
            put(out, "(")?;
            write_test(alloc, out, spelling, p.get())?;
            put(out, " or ")?;
            write_test(alloc, out, spelling, q.get())?;
            put(out, ")")
        }
        Test::Not(p) => {
            put(out, "(not ")?;
            write_test(alloc, out, spelling, p.get())?;
            put(out, ")")
        }
    }
}
