//! How expressions stand in a kernel file: with parentheses round each operation. Texts are joined at once, in no time in
//! proportion to them.
use affine_rows::{Listed, Name};
use kernel_grammar::{Extreme, Infix, Prefix, Relation, Step};
use std::alloc::{AllocError, Global};
use std::collections::LinkedList;
use text_writer::{put, put_digits};

/// A piece of the text of an expression.
#[derive(Drop)]
enum Piece {
    Sign(&'static str),
    Name(Name),
    /// A number, or none where it passes 18446744073709551615.
    Number(Option<u64>),
}

/// The text of an expression.
#[derive(Drop)]
pub(crate) struct Spelled {
    pieces: LinkedList<Piece>,
}

/// The sign of a relation.
fn relation_sign(relation: Relation) -> &'static str {
    match relation {
        Relation::LessEqual => " <= ",
        Relation::Less => " < ",
        Relation::GreaterEqual => " >= ",
        Relation::Greater => " > ",
        Relation::Equal => " == ",
    }
}

/// The sign between two operands.
fn infix_sign(infix: Infix) -> &'static str {
    match infix {
        Infix::Or => " or ",
        Infix::And => " and ",
        Infix::Compare(relation) => relation_sign(relation),
        Infix::NotEqual => " != ",
        Infix::BitOr => " | ",
        Infix::BitXor => " ^ ",
        Infix::BitAnd => " & ",
        Infix::Add => " + ",
        Infix::Subtract => " - ",
        Infix::Multiply => " * ",
        Infix::Divide => " // ",
        Infix::Remainder => " % ",
        Infix::Extreme(_) => ", ",
    }
}

/// What opens before two operands. A bare name in the first place of `min` or `max`, or one in parentheses, would be an iname;
/// one in two parentheses is a value.
fn opening(infix: Infix) -> &'static str {
    match infix {
        Infix::Extreme(Extreme::Min) => "min(((",
        Infix::Extreme(Extreme::Max) => "max(((",
        _ => "(",
    }
}

/// What closes the first of two operands.
fn closing(infix: Infix) -> &'static str {
    match infix {
        Infix::Extreme(_) => "))",
        _ => "",
    }
}

/// What opens before one operand.
fn prefix_opening(prefix: Prefix) -> &'static str {
    match prefix {
        Prefix::Not => "(not ",
        Prefix::Negate => "(-",
        Prefix::Invert => "(~",
    }
}

/// Adds a piece. A number past 18446744073709551615 is written as the least of these.
fn put_piece(out: &mut Vec<u8>, piece: &Piece) -> Result<(), AllocError> {
    match piece {
        Piece::Sign(text) => put(out, text),
        Piece::Name(name) => put(out, name.as_str()),
        Piece::Number(Some(number)) => put_digits(out, *number),
        Piece::Number(None) => put(out, "18446744073709551616"),
    }
}

impl Spelled {
    fn none(alloc: Global) -> Spelled {
        Spelled {
            pieces: LinkedList::new(alloc),
        }
    }

    fn of_piece(alloc: Global, piece: Piece) -> Result<Spelled, AllocError> {
        let mut pieces = LinkedList::new(alloc);
        pieces.push_back(piece)?;
        Ok(Spelled { pieces })
    }

    pub(crate) fn of_name(alloc: Global, name: Name) -> Result<Spelled, AllocError> {
        Spelled::of_piece(alloc, Piece::Name(name))
    }

    /// The use of a rule of this name, without arguments.
    pub(crate) fn of_rule(alloc: Global, name: Name) -> Result<Spelled, AllocError> {
        Spelled::of_name(alloc, name)?.followed("()")
    }

    /// This behind a sign.
    fn behind(self, sign: &'static str) -> Result<Spelled, AllocError> {
        let Spelled { mut pieces } = self;
        pieces.push_front(Piece::Sign(sign))?;
        Ok(Spelled { pieces })
    }

    /// This before a sign.
    fn followed(self, sign: &'static str) -> Result<Spelled, AllocError> {
        let Spelled { mut pieces } = self;
        pieces.push_back(Piece::Sign(sign))?;
        Ok(Spelled { pieces })
    }

    /// This and another behind it.
    fn joined(self, other: Spelled) -> Result<Spelled, AllocError> {
        let Spelled { mut pieces } = self;
        let Spelled {
            pieces: mut further,
        } = other;
        pieces.append(&mut further)?;
        Ok(Spelled { pieces })
    }

    /// The operation of an operand.
    fn operated(self, prefix: Prefix) -> Result<Spelled, AllocError> {
        self.behind(prefix_opening(prefix))?.followed(")")
    }

    /// The operation of two operands.
    fn combined(self, infix: Infix, other: Spelled) -> Result<Spelled, AllocError> {
        let first = self.behind(opening(infix))?.followed(closing(infix))?;
        let both = first.followed(infix_sign(infix))?.joined(other)?;
        both.followed(")")
    }

    /// The cell of a name at subscripts.
    fn cell(self, alloc: Global, name: Name) -> Result<Spelled, AllocError> {
        let places = self.behind("[")?.followed("]")?;
        Spelled::of_name(alloc, name)?.joined(places)
    }

    /// Adds the text.
    pub(crate) fn put(&self, out: &mut Vec<u8>) -> Result<(), AllocError> {
        for piece in &self.pieces {
            put_piece(out, piece)?;
        }
        Ok(())
    }
}

/// The operands that are written and not yet taken by an operation.
#[derive(Drop)]
pub(crate) struct Operands {
    written: Vec<Spelled>,
}

impl Operands {
    pub(crate) fn none(alloc: Global) -> Operands {
        Operands {
            written: Vec::new(alloc),
        }
    }

    pub(crate) fn push(&mut self, operand: Spelled) -> Result<(), AllocError> {
        self.written.push(operand)?;
        Ok(())
    }

    /// The last operand. One is always there, since the steps are those of an expression.
    pub(crate) fn pop(&mut self, alloc: Global) -> Spelled {
        match self.written.pop() {
            Some(operand) => operand,
            None => Spelled::none(alloc),
        }
    }

    /// The last so many operands, with `,` between them.
    fn pop_all(&mut self, alloc: Global, count: u32) -> Result<Spelled, AllocError> {
        let mut all = self.pop(alloc);
        for _place in 1..count {
            all = self.pop(alloc).followed(", ")?.joined(all)?;
        }
        Ok(all)
    }

    /// Takes a step that is no name. What no block has is not written, so that its text is none of a kernel file.
    pub(crate) fn take(&mut self, alloc: Global, step: Step) -> Result<(), AllocError> {
        match step {
            Step::Number(number) => self.push(Spelled::of_piece(alloc, Piece::Number(number))?),
            Step::Index { name, places } => {
                let cell = self.pop_all(alloc, places)?.cell(alloc, name)?;
                self.push(cell)
            }
            Step::Prefix(prefix) => {
                let operand = self.pop(alloc).operated(prefix)?;
                self.push(operand)
            }
            Step::Infix(infix) => {
                let second = self.pop(alloc);
                let both = self.pop(alloc).combined(infix, second)?;
                self.push(both)
            }
            _ => Ok(()),
        }
    }
}
