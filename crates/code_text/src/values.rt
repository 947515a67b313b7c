//! Values and tests.
ghost use Rattle.std.specs.Prelude.{◌≡◌, ◌++◌, ◌%◌, OnOk, codes};
ghost use Rattle.wrap_words.specs.Words.{modulus_of, residue};
ghost use Rattle.affine_rows.specs.declared.quasi.Quasi.{out-Quasi};
ghost use Rattle.code_text.specs.FormText.{form_text};
ghost use Rattle.code_text.specs.KindText.{suffix_text, cast_text, unsigned_kind};
ghost use Rattle.code_text.specs.Names.{name_text};
ghost use Rattle.code_text.specs.ValueText.{literal_text, leaf_of, side_kind, wrapping_text, before_text, between_text, relation_text, text_of_node, text_of_test, text_of_value};

use crate::forms::write_form;
use crate::kinds::{put_cast, suffix, unsigned};
use crate::spelling::{Spelling, store_kind, write_place, write_store};
use affine_rows::Form;
use code_tree::{Code, Target};
use expr_tree::{Expr, Node, Op, Rel, Test};
use std::alloc::AllocError;
use text_writer::{put, put_digits};
use wrap_words::{Kind, of_number};

/// The rest of a number modulo 2^width.
fn reduced(kind: Kind, number: u64) -> u64
    ensures { result ≡ number % modulus_of kind }
{
    match kind {
        Kind::I32 | Kind::U32 => number % 0x1_0000_0000,
        Kind::I64 | Kind::U64 => number,
    }
}

/// The bits of an integer at a kind.
fn bits_of(kind: Kind, number: i64) -> u64
    ensures { result ≡ residue number (modulus_of kind) }
{
    of_number(kind, i128::from(number)).bits
}

/// Adds a number of a kind.
fn write_literal(
    out: &mut Vec<u8>,
    target: Target,
    kind: Kind,
    number: u64,
) -> Result<(), AllocError>
    ensures { OnOk result (out.new.items ≡ out.old.items ++ literal_text target kind number) }
{
    put_cast(out, target, kind)?;
    put_digits(out, reduced(kind, number))?;
    put(out, "u")
}

/// Adds a leaf.
fn write_leaf(out: &mut Vec<u8>, code: &Code, kind: Kind, form: &Form) -> Result<(), AllocError>
    ensures { OnOk result (out.new.items ≡ out.old.items ++ leaf_of code.now.target kind (form_text (name_text code.now) form.now) (out-Quasi form.now)) }
{
    let quasi = form.quasi();
    if quasi.terms.is_empty() && quasi.floors.is_empty() {
        return write_literal(out, code.target, kind, bits_of(kind, quasi.constant));
    }
    put_cast(out, code.target, kind)?;
    put(out, "(")?;
    write_form(out, code, quasi)?;
    put(out, ")")
}

/// Adds what stands before a value that is computed over the unsigned kind.
fn write_wrapping(out: &mut Vec<u8>, target: Target, kind: Kind) -> Result<(), AllocError>
    ensures { OnOk result (out.new.items ≡ out.old.items ++ wrapping_text target kind) }
{
    put_cast(out, target, kind)?;
    put(out, "(")?;
    put_cast(out, target, unsigned(kind))
}

/// Adds the call of a choice between two values.
fn write_choice(out: &mut Vec<u8>, call: &str, kind: Kind) -> Result<(), AllocError>
    ensures { OnOk result (out.new.items ≡ out.old.items ++ (call.now ++ suffix_text kind ++ codes "(")) }
{
    put(out, call)?;
    put(out, suffix(kind))?;
    put(out, "(")
}

/// Adds what stands before the first value of an operation.
fn write_before(out: &mut Vec<u8>, target: Target, op: Op, kind: Kind) -> Result<(), AllocError>
    ensures { OnOk result (out.new.items ≡ out.old.items ++ before_text target op kind) }
{
    match op {
        Op::Min => write_choice(out, "lp_min_", kind),
        Op::Max => write_choice(out, "lp_max_", kind),
        Op::Add | Op::Mul | Op::Sub | Op::And | Op::Or | Op::Xor => write_wrapping(
            out, target, kind,
        ),
    }
}

/// Adds a sign and the conversion of the second value.
fn write_sign(out: &mut Vec<u8>, sign: &str, target: Target, kind: Kind) -> Result<(), AllocError>
    ensures { OnOk result (out.new.items ≡ out.old.items ++ (sign.now ++ cast_text target (unsigned_kind kind))) }
{
    put(out, sign)?;
    put_cast(out, target, unsigned(kind))
}

/// Adds what stands between the two values of an operation.
fn write_between(out: &mut Vec<u8>, target: Target, op: Op, kind: Kind) -> Result<(), AllocError>
    ensures { OnOk result (out.new.items ≡ out.old.items ++ between_text target op kind) }
{
    match op {
        Op::Add => write_sign(out, " + ", target, kind),
        Op::Mul => write_sign(out, " * ", target, kind),
        Op::Sub => write_sign(out, " - ", target, kind),
        Op::And => write_sign(out, " & ", target, kind),
        Op::Or => write_sign(out, " | ", target, kind),
        Op::Xor => write_sign(out, " ^ ", target, kind),
        Op::Min | Op::Max => put(out, ", "),
    }
}

/// The spelling of a comparison.
fn relation(rel: Rel) -> &'static str
    ensures { result.now ≡ relation_text rel }
{
    match rel {
        Rel::Less => " < ",
        Rel::LessEqual => " <= ",
        Rel::Equal => " == ",
        Rel::NotEqual => " != ",
    }
}

/// The kind of the first read or cast of a value, outside its tests.
#[cycle(first)]
fn first_kind(expr: &Expr, spelling: &Spelling) -> Option<Kind>
    ensures { result ≡ (text_of_value spelling.now.code.now expr.now).first }
{
    node_first(expr.node(), spelling)
}

#[cycle(first)]
fn node_first(node: &Node, spelling: &Spelling) -> Option<Kind>
    ensures { result ≡ (text_of_node spelling.now.code.now node.now).first }
{
    match node {
        Node::Literal(_) | Node::Leaf(_) | Node::Call(_, _) => None,
        Node::Read(cell, _) => Some(store_kind(spelling, *cell)),
        Node::Neg(a) | Node::Inv(a) | Node::Shl(a, _) | Node::Shr(a, _) | Node::Fold(_, _, a) => {
            first_kind(a, spelling)
        }
        Node::Bin(_, a, b) | Node::Pick(_, a, b) => match first_kind(a, spelling) {
            Some(kind) => Some(kind),
            None => first_kind(b, spelling),
        },
        Node::Cast(kind, _) => Some(*kind),
    }
}

/// The kind of the two sides of a comparison of words, at the kind that is asked.
fn side(a: &Expr, b: &Expr, kind: Kind, spelling: &Spelling) -> Kind
    ensures { result ≡ side_kind (text_of_value spelling.now.code.now a.now) (text_of_value spelling.now.code.now b.now) kind }
{
    match first_kind(a, spelling) {
        Some(first) => first,
        None => first_kind(b, spelling).unwrap_or(kind),
    }
}

/// Adds a value at a kind.
#[cycle(value)]
pub fn write_value(
    out: &mut Vec<u8>,
    spelling: &Spelling,
    kind: Kind,
    expr: &Expr,
) -> Result<(), AllocError>
    ensures { OnOk result (out.new.items ≡ out.old.items ++ (text_of_value spelling.now.code.now expr.now).at kind) }
{
    write_node(out, spelling, kind, expr.node())
}

#[cycle(value)]
fn write_node(
    out: &mut Vec<u8>,
    spelling: &Spelling,
    kind: Kind,
    node: &Node,
) -> Result<(), AllocError>
    ensures { OnOk result (out.new.items ≡ out.old.items ++ (text_of_node spelling.now.code.now node.now).at kind) }
{
    let target = spelling.code.target;
    match node {
        Node::Literal(number) => write_literal(out, target, kind, *number),
        Node::Leaf(form) => write_leaf(out, spelling.code, kind, form),
        Node::Read(cell, place) => {
            write_store(out, spelling, *cell)?;
            write_place(out, spelling.code, place.as_slice())
        }
        Node::Neg(a) => {
            put_cast(out, target, kind)?;
            put(out, "(0u - ")?;
            put_cast(out, target, unsigned(kind))?;
            write_value(out, spelling, kind, a)?;
            put(out, ")")
        }
        Node::Inv(a) => {
            put_cast(out, target, kind)?;
            put(out, "(~")?;
            put_cast(out, target, unsigned(kind))?;
            write_value(out, spelling, kind, a)?;
            put(out, ")")
        }
        Node::Shl(a, by) => {
            write_wrapping(out, target, kind)?;
            write_value(out, spelling, kind, a)?;
            put(out, " << ")?;
            put_digits(out, u64::from(*by))?;
            put(out, ")")
        }
        Node::Shr(a, by) => {
            write_wrapping(out, target, kind)?;
            write_value(out, spelling, kind, a)?;
            put(out, " >> ")?;
            put_digits(out, u64::from(*by))?;
            put(out, ")")
        }
        Node::Bin(op, a, b) => {
            write_before(out, target, *op, kind)?;
            write_value(out, spelling, kind, a)?;
            write_between(out, target, *op, kind)?;
            write_value(out, spelling, kind, b)?;
            put(out, ")")
        }
        Node::Pick(test, a, b) => {
            put(out, "(")?;
            write_test(out, spelling, kind, test)?;
            put(out, " ? ")?;
            write_value(out, spelling, kind, a)?;
            put(out, " : ")?;
            write_value(out, spelling, kind, b)?;
            put(out, ")")
        }
        Node::Cast(to, a) => {
            put_cast(out, target, *to)?;
            let from = first_kind(a, spelling).unwrap_or(*to);
            write_value(out, spelling, from, a)
        }
        Node::Call(_, _) | Node::Fold(_, _, _) => Ok(()),
    }
}

/// Adds a test at a kind.
#[cycle(value)]
pub fn write_test(
    out: &mut Vec<u8>,
    spelling: &Spelling,
    kind: Kind,
    test: &Test,
) -> Result<(), AllocError>
    ensures { OnOk result (out.new.items ≡ out.old.items ++ (text_of_test spelling.now.code.now test.now).at kind) }
{
    match test {
        Test::Words(rel, a, b) => {
            let side = side(a, b, kind, spelling);
            put(out, "(")?;
            write_value(out, spelling, side, a)?;
            put(out, relation(*rel))?;
            write_value(out, spelling, side, b)?;
            put(out, ")")
        }
        Test::Index(rel, a, b) => {
            put(out, "(")?;
            write_form(out, spelling.code, a.quasi())?;
            put(out, relation(*rel))?;
            write_form(out, spelling.code, b.quasi())?;
            put(out, ")")
        }
        Test::All(p, q) => {
            put(out, "(")?;
            write_test(out, spelling, kind, p.get())?;
            put(out, " && ")?;
            write_test(out, spelling, kind, q.get())?;
            put(out, ")")
        }
        Test::Any(p, q) => {
            put(out, "(")?;
            write_test(out, spelling, kind, p.get())?;
            put(out, " || ")?;
            write_test(out, spelling, kind, q.get())?;
            put(out, ")")
        }
        Test::Not(p) => {
            put(out, "(!")?;
            write_test(out, spelling, kind, p.get())?;
            put(out, ")")
        }
    }
}
