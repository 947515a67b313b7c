//! What begins at a place in a value or a test.
use crate::bounds::read_subscript;
use crate::forms::{Sort, read_form, read_form_from, read_growing};
use crate::kinds::{Kinds, takes_choice, takes_conversion};
use crate::lists::push;
use crate::names::{Meaning, Store, Wanted, number_to};
use crate::numbers::number_up_to;
use crate::reader::{Reader, Stop};
use crate::reading::{Goal, Open, Part, Reading, Step, Typing};
use crate::trees::{Value, entry_place, leaf};
use affine_rows::Listed;
use code_text::unsigned;
use expr_tree::{Node, Op};
use wrap_words::Kind;

/// The greatest number that is written in a word.
fn greatest_literal(kind: Kind) -> u64 {
    match kind {
        Kind::I32 | Kind::U32 => u64::from(u32::MAX),
        Kind::I64 | Kind::U64 => u64::MAX,
    }
}

/// A read behind its name. Its subscript becomes an entry of the code.
fn read_store(reader: &mut Reader, store: Store) -> Result<Value, Stop> {
    if !store.has_place {
        return leaf(
            reader.alloc,
            Node::Read(store.cell, Listed::new(reader.alloc)),
        );
    }
    let flat = read_subscript(reader)?;
    let entry = number_to(reader.flats.len());
    reader.flats.push(flat)?;
    leaf(
        reader.alloc,
        Node::Read(store.cell, entry_place(reader.alloc, entry)?),
    )
}

/// Takes the type of the unsigned kind of this one and the parenthesis behind it, if the type stands here.
fn takes_unsigned(reader: &mut Reader, kind: Kind) -> Result<bool, Stop> {
    Ok(takes_conversion(reader, Kinds::only(unsigned(kind)))?.is_some())
}

impl Reading {
    /// What is wanted begins.
    pub fn begin(&mut self, reader: &mut Reader, goal: Goal) -> Result<Step, Stop> {
        match goal {
            Goal::Value => self.begin_value(reader),
            Goal::Typed(kind) => self.begin_typed(reader, kind),
            Goal::Side(asks) => self.begin_side(reader, asks),
            Goal::Group { asks, may_choose } => self.begin_group(reader, asks, may_choose),
        }
    }

    /// A value: behind a conversion, a choice by a test, or one that begins with a name.
    fn begin_value(&mut self, reader: &mut Reader) -> Result<Step, Stop> {
        let kinds = self.typing.kinds;
        if !reader.takes("(") {
            return self.begin_named(reader);
        }
        if let Some(kind) = takes_conversion(reader, kinds)? {
            return Ok(Step::Begin(Goal::Typed(kind)));
        }
        reader.take("(")?;
        self.open_choice(kinds)
    }

    /// The first part behind a parenthesis: a value, an index form, or a test of which these kinds are asked.
    fn begin_side(&mut self, reader: &mut Reader, asks: Kinds) -> Result<Step, Stop> {
        let kinds = self.typing.kinds;
        if reader.takes("(") {
            let may_choose = true;
            return Ok(Step::Begin(match takes_conversion(reader, kinds)? {
                Some(kind) => Goal::Typed(kind),
                None => Goal::Group { asks, may_choose },
            }));
        }
        match reader.takes_name(Wanted { vars: true, kinds })? {
            Some(Meaning::Var(var)) => Ok(Step::End(Part::Index(read_form_from(reader, var)?))),
            Some(Meaning::Store(store)) => self.read(reader, store),
            None => match takes_choice(reader, kinds)? {
                Some((op, kind)) => self.begin_least(op, kind),
                None => Ok(Step::End(Part::Index(read_form(reader)?))),
            },
        }
    }

    /// What stands behind a parenthesis: a test that is turned, or a first part.
    fn begin_group(
        &mut self,
        reader: &mut Reader,
        asks: Kinds,
        may_choose: bool,
    ) -> Result<Step, Stop> {
        if reader.takes("!") {
            reader.take("(")?;
            let may_choose = false;
            return self.open(Open::Not, Goal::Group { asks, may_choose });
        }
        let outer = self.typing;
        let chosen = if may_choose {
            outer.kinds
        } else {
            Kinds::none()
        };
        self.typing = Typing::of_asked(asks, 1);
        self.open(
            Open::Group { outer, may_choose },
            Goal::Side(asks.or(chosen)),
        )
    }

    /// A value that begins with a name: a read, or the least or greatest of two values.
    fn begin_named(&mut self, reader: &mut Reader) -> Result<Step, Stop> {
        let kinds = self.typing.kinds;
        if let Some(Meaning::Store(store)) = reader.takes_name(Wanted { vars: false, kinds })? {
            return self.read(reader, store);
        }
        match takes_choice(reader, kinds)? {
            Some((op, kind)) => self.begin_least(op, kind),
            None => Err(Stop::Refused),
        }
    }

    /// A read, which shows its kind.
    fn read(&mut self, reader: &mut Reader, store: Store) -> Result<Step, Stop> {
        self.typing.kinds = Kinds::only(store.kind);
        self.typing.shown = true;
        Ok(Step::End(Part::Value(read_store(reader, store)?)))
    }

    /// The least or the greatest of two values of a kind.
    fn begin_least(&mut self, op: Op, kind: Kind) -> Result<Step, Stop> {
        self.typing.kinds = Kinds::only(kind);
        self.typing.expect();
        self.open(Open::FirstOf(op), Goal::Value)
    }

    /// What stands behind the conversion to a kind: a number, something in parentheses, or the operand of a cast.
    fn begin_typed(&mut self, reader: &mut Reader, kind: Kind) -> Result<Step, Stop> {
        self.typing.kinds = Kinds::only(kind);
        if !reader.digits().is_empty() {
            return self.read_literal(reader, kind);
        }
        if reader.takes("(") {
            return self.begin_round(reader, kind);
        }
        self.open_cast(kind)?;
        self.begin_named(reader)
    }

    /// What stands behind the conversion to a kind and a parenthesis: an operation, a leaf, or the operand of a cast.
    fn begin_round(&mut self, reader: &mut Reader, kind: Kind) -> Result<Step, Stop> {
        if reader.takes("0u - (") {
            return self.open_unsigned(reader, kind, Open::Neg);
        }
        if reader.takes("~(") {
            return self.open_unsigned(reader, kind, Open::Inv);
        }
        if let Some(inner) = takes_conversion(reader, Kinds::all())? {
            self.open_cast(kind)?;
            return Ok(Step::Begin(Goal::Typed(inner)));
        }
        if !reader.takes("(") {
            return self.read_leaf(reader, kind);
        }
        if takes_unsigned(reader, kind)? {
            self.typing.expect();
            return self.open(Open::First(kind), Goal::Value);
        }
        self.open_cast(kind)?;
        self.open_choice(Kinds::all())
    }

    /// Opens an operation over the unsigned kind behind the type of that kind, which has to stand here.
    pub fn open_unsigned(
        &mut self,
        reader: &mut Reader,
        kind: Kind,
        open: Open,
    ) -> Result<Step, Stop> {
        if takes_unsigned(reader, kind)? {
            self.open(open, Goal::Value)
        } else {
            Err(Stop::Refused)
        }
    }

    /// Opens a cast, which shows its kind.
    fn open_cast(&mut self, kind: Kind) -> Result<(), Stop> {
        let mut outer = self.typing;
        outer.shown = true;
        self.typing = Typing::of_asked(Kinds::only(kind), 0);
        Ok(push(&mut self.outside, Open::Cast(kind, outer))?)
    }

    /// Opens a choice of a value of these kinds behind the parenthesis of its test.
    fn open_choice(&mut self, asks: Kinds) -> Result<Step, Stop> {
        let may_choose = false;
        self.open(Open::Choice, Goal::Group { asks, may_choose })
    }

    /// A number of a kind.
    fn read_literal(&mut self, reader: &mut Reader, kind: Kind) -> Result<Step, Stop> {
        if !self.typing.allows(kind) {
            return Err(Stop::Refused);
        }
        let number = number_up_to(reader, greatest_literal(kind))?;
        reader.take("u")?;
        Ok(Step::End(Part::Value(leaf(reader.alloc, Node::Literal(number))?)))
    }

    /// A leaf of a kind, which is no number.
    fn read_leaf(&mut self, reader: &mut Reader, kind: Kind) -> Result<Step, Stop> {
        if !self.typing.allows(kind) {
            return Err(Stop::Refused);
        }
        let form = read_growing(reader, Sort::NoNumber)?.into_form();
        reader.take(")")?;
        Ok(Step::End(Part::Value(leaf(reader.alloc, Node::Leaf(form))?)))
    }
}
