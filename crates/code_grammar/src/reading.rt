//! Values and tests that are not yet read to their ends.
use crate::kinds::Kinds;
use crate::lists::push;
use crate::reader::{Reader, Stop};
use crate::trees::{Asked, Value};
use affine_rows::Form;
use expr_tree::{Op, Rel};
use std::alloc::AllocError;
use wrap_words::Kind;

/// What is known of the kind of a value: the kinds that it may have, whether a read or a cast shows it, the kinds that may be
/// asked where none does, and how many operands follow that may show it.
#[derive(Clone, Copy)]
pub struct Typing {
    pub kinds: Kinds,
    pub shown: bool,
    pub asks: Kinds,
    pub more: u32,
}

/// What stands at a place: a value, an index form, or a test.
#[derive(Drop)]
pub enum Part {
    Value(Value),
    Index(Form),
    Test(Asked),
}

/// What is open round a place, before the part that stands there.
#[derive(Drop)]
pub enum Open {
    /// A negation: its value.
    Neg,
    /// An inversion: its value.
    Inv,
    /// An operation over the unsigned kind: its first value.
    First(Kind),
    /// The least or the greatest of two values: the first.
    FirstOf(Op),
    /// An operation behind its first value: the second.
    Second(Op, Value),
    /// A cast to a kind, with the typing round it: its operand.
    Cast(Kind, Typing),
    /// A choice: its test.
    Choice,
    /// A choice behind its test: the first value.
    Chosen(Asked),
    /// A choice behind its first value: the second.
    Otherwise(Asked, Value),
    /// A test, or a choice too where `may_choose` holds, with the typing round it: the first part.
    Group {
        outer: Typing,
        may_choose: bool,
    },
    /// A comparison of words behind its first side: the second.
    Compared {
        rel: Rel,
        first: Value,
        outer: Typing,
    },
    /// Two tests, both of which or one of which has to hold, behind the first: the second.
    Joined {
        all: bool,
        first: Asked,
        outer: Typing,
    },
    /// A test that is turned: the test.
    Not,
}

/// What is wanted at a place.
#[derive(Clone, Copy)]
pub enum Goal {
    /// A value.
    Value,
    /// What stands behind a conversion to a kind.
    Typed(Kind),
    /// The first part behind a parenthesis: a value, an index form, or a test of which these kinds are asked.
    Side(Kinds),
    /// What stands behind a parenthesis: a test of which these kinds are asked, or a choice too where `may_choose` holds.
    Group { asks: Kinds, may_choose: bool },
}

/// What comes next: something begins, or a part has ended.
#[derive(Drop)]
pub enum Step {
    Begin(Goal),
    End(Part),
}

/// A value or a test that is read: what is open, the innermost last, and the typing of this place.
#[derive(Drop)]
pub struct Reading {
    pub outside: Vec<Open>,
    pub typing: Typing,
}

impl Typing {
    /// The typing of a value of this kind.
    pub fn of_kind(kind: Kind) -> Typing {
        Typing {
            kinds: Kinds::only(kind),
            shown: true,
            asks: Kinds::all(),
            more: 0,
        }
    }

    /// The typing of values of which these kinds may be asked, with so many more operands.
    pub fn of_asked(asks: Kinds, more: u32) -> Typing {
        Typing {
            kinds: Kinds::all(),
            shown: false,
            asks,
            more,
        }
    }

    /// Whether a number of the kind may stand here: the kind is or may yet be shown, or may be asked.
    pub fn allows(self, kind: Kind) -> bool {
        self.shown || self.more > 0 || self.asks.has(kind)
    }

    /// The kinds that may be asked of a comparison whose sides are read.
    pub fn asked(self) -> Kinds {
        if self.shown {
            self.asks
        } else {
            self.asks.and(self.kinds)
        }
    }

    /// One operand more follows.
    pub fn expect(&mut self) {
        self.more = self.more.saturating_add(1);
    }

    /// The operand that follows begins.
    pub fn next(&mut self) {
        self.more = self.more.saturating_sub(1);
    }
}

impl Part {
    /// A value, where nothing else may stand.
    pub fn value(self) -> Result<Value, Stop> {
        match self {
            Part::Value(value) => Ok(value),
            Part::Index(_) | Part::Test(_) => Err(Stop::Refused),
        }
    }

    /// A test, where nothing else may stand.
    pub fn test(self) -> Result<Asked, Stop> {
        match self {
            Part::Test(asked) => Ok(asked),
            Part::Index(_) | Part::Value(_) => Err(Stop::Refused),
        }
    }
}

impl Reading {
    /// Opens something, in which this is wanted.
    pub fn open(&mut self, open: Open, goal: Goal) -> Result<Step, Stop> {
        push(&mut self.outside, open)?;
        Ok(Step::Begin(goal))
    }

    /// Reads on to the end of all that is open. Each byte is taken in few turns.
    pub fn run(&mut self, reader: &mut Reader, step: Step) -> Result<Part, Stop> {
        let mut step = step;
        for _ in 0..u64::MAX {
            step = match step {
                Step::Begin(goal) => self.begin(reader, goal)?,
                Step::End(part) => match self.outside.pop() {
                    None => return Ok(part),
                    Some(open) => self.end(reader, open, part)?,
                },
            };
        }
        Err(Stop::Refused)
    }
}
