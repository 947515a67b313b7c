//! What follows a part of a value or a test.
use crate::forms::read_form;
use crate::kinds::Kinds;
use crate::numbers::small_number_up_to;
use crate::reader::{Reader, Stop};
use crate::reading::{Goal, Open, Part, Reading, Step, Typing};
use crate::trees::{Asked, Value, joined, test_over, turned, value_over};
use affine_rows::Form;
use code_text::unsigned;
use expr_tree::{Node, Op, Rel, Test};
use wrap_words::Kind;

/// The operators that are computed over the unsigned kind, with the parenthesis of its conversion.
const OPERATORS: [(&str, Op); 6] = [
    (" + (", Op::Add),
    (" - (", Op::Sub),
    (" * (", Op::Mul),
    (" & (", Op::And),
    (" | (", Op::Or),
    (" ^ (", Op::Xor),
];

const RELATIONS: [(&str, Rel); 4] = [
    (" < ", Rel::Less),
    (" <= ", Rel::LessEqual),
    (" == ", Rel::Equal),
    (" != ", Rel::NotEqual),
];

/// Takes an operator, if one stands here.
fn takes_operator(reader: &mut Reader) -> Option<Op> {
    for (sign, op) in OPERATORS {
        if reader.takes(sign) {
            return Some(op);
        }
    }
    None
}

/// Takes a comparison.
fn take_relation(reader: &mut Reader) -> Result<Rel, Stop> {
    for (sign, rel) in RELATIONS {
        if reader.takes(sign) {
            return Ok(rel);
        }
    }
    Err(Stop::Refused)
}

/// Takes what joins two tests with the parenthesis behind it, if it stands here, and tells whether both have to hold.
fn takes_join(reader: &mut Reader) -> Option<bool> {
    if reader.takes(" && (") {
        Some(true)
    } else if reader.takes(" || (") {
        Some(false)
    } else {
        None
    }
}

/// The number of a shift of a kind.
fn take_shift(reader: &mut Reader, kind: Kind) -> Result<u32, Stop> {
    small_number_up_to(
        reader,
        match kind {
            Kind::I32 | Kind::U32 => 31,
            Kind::I64 | Kind::U64 => 63,
        },
    )
}

/// The rest of a comparison of index forms behind its first side.
pub fn read_index_test(reader: &mut Reader, first: Form, asks: Kinds) -> Result<Asked, Stop> {
    let rel = take_relation(reader)?;
    let second = read_form(reader)?;
    reader.take(")")?;
    Ok(test_over(reader, Test::Index(rel, first, second), 0, asks))
}

/// A node over parts that are so deep ends here.
fn end_node(reader: &mut Reader, node: Node, below: u32) -> Result<Step, Stop> {
    Ok(Step::End(Part::Value(value_over(reader, node, below)?)))
}

/// A node ends behind a parenthesis.
fn close_node(reader: &mut Reader, node: Node, below: u32) -> Result<Step, Stop> {
    reader.take(")")?;
    end_node(reader, node, below)
}

/// A test ends behind a parenthesis.
fn close_test(reader: &mut Reader, test: Asked) -> Result<Step, Stop> {
    reader.take(")")?;
    Ok(Step::End(Part::Test(test)))
}

impl Reading {
    /// What follows a part in what is open round it.
    pub fn end(&mut self, reader: &mut Reader, open: Open, part: Part) -> Result<Step, Stop> {
        match open {
            Open::Neg => {
                let value = part.value()?;
                close_node(reader, Node::Neg(value.tree), value.depth)
            }
            Open::Inv => {
                let value = part.value()?;
                close_node(reader, Node::Inv(value.tree), value.depth)
            }
            Open::First(kind) => self.end_first(reader, kind, part.value()?),
            Open::FirstOf(op) => self.go_on(reader, ", ", Open::Second(op, part.value()?)),
            Open::Second(op, first) => {
                let second = part.value()?;
                let below = first.depth.max(second.depth);
                close_node(reader, Node::Bin(op, first.tree, second.tree), below)
            }
            Open::Cast(kind, outer) => {
                let value = part.value()?;
                self.typing = outer;
                end_node(reader, Node::Cast(kind, value.tree), value.depth)
            }
            Open::Choice => {
                reader.take(" ? ")?;
                self.begin_chosen(part.test()?)
            }
            Open::Chosen(asked) => {
                self.go_on(reader, " : ", Open::Otherwise(asked, part.value()?))
            }
            Open::Otherwise(asked, first) => {
                let second = part.value()?;
                let below = asked.depth.max(first.depth).max(second.depth);
                close_node(
                    reader,
                    Node::Pick(asked.test, first.tree, second.tree),
                    below,
                )
            }
            Open::Group { outer, may_choose } => self.end_part(reader, outer, may_choose, part),
            Open::Compared { rel, first, outer } => {
                let second = part.value()?;
                let below = first.depth.max(second.depth);
                let asks = self.typing.asked();
                self.typing = outer;
                let test = Test::Words(rel, first.tree, second.tree);
                let asked = test_over(reader, test, below, asks);
                close_test(reader, asked)
            }
            Open::Joined { all, first, outer } => {
                self.typing = outer;
                let joined = joined(reader, all, first, part.test()?)?;
                close_test(reader, joined)
            }
            Open::Not => {
                let turned = turned(reader, part.test()?)?;
                close_test(reader, turned)
            }
        }
    }

    /// The operand that follows behind a sign.
    fn go_on(&mut self, reader: &mut Reader, sign: &str, open: Open) -> Result<Step, Stop> {
        reader.take(sign)?;
        self.typing.next();
        self.open(open, Goal::Value)
    }

    /// What follows the first value of an operation over the unsigned kind: an operator, or a shift.
    fn end_first(&mut self, reader: &mut Reader, kind: Kind, first: Value) -> Result<Step, Stop> {
        self.typing.next();
        if let Some(op) = takes_operator(reader) {
            return self.open_unsigned(reader, kind, Open::Second(op, first));
        }
        if !self.typing.allows(kind) {
            return Err(Stop::Refused);
        }
        if reader.takes(" << ") {
            let by = take_shift(reader, kind)?;
            return close_node(reader, Node::Shl(first.tree, by), first.depth);
        }
        if unsigned(kind) == kind && reader.takes(" >> ") {
            let by = take_shift(reader, kind)?;
            return close_node(reader, Node::Shr(first.tree, by), first.depth);
        }
        Err(Stop::Refused)
    }

    /// The first value of a choice begins. The kinds that may be asked of its test are those of the value.
    fn begin_chosen(&mut self, asked: Asked) -> Result<Step, Stop> {
        self.typing.kinds = self.typing.kinds.and(asked.asks);
        self.typing.expect();
        self.open(Open::Chosen(asked), Goal::Value)
    }

    /// What follows the first part behind a parenthesis.
    fn end_part(
        &mut self,
        reader: &mut Reader,
        outer: Typing,
        may_choose: bool,
        part: Part,
    ) -> Result<Step, Stop> {
        match part {
            Part::Index(first) => {
                let test = read_index_test(reader, first, self.typing.asks)?;
                self.typing = outer;
                Ok(Step::End(Part::Test(test)))
            }
            Part::Value(first) => {
                let rel = take_relation(reader)?;
                self.typing.next();
                self.open(Open::Compared { rel, first, outer }, Goal::Value)
            }
            Part::Test(first) => self.end_test(reader, first, outer, may_choose),
        }
    }

    /// What follows a first test: another one, or the values between which it chooses.
    fn end_test(
        &mut self,
        reader: &mut Reader,
        first: Asked,
        outer: Typing,
        may_choose: bool,
    ) -> Result<Step, Stop> {
        let asks = first.asks.and(self.typing.asks);
        if asks != Kinds::none() {
            if let Some(all) = takes_join(reader) {
                let may_choose = false;
                let goal = Goal::Group { asks, may_choose };
                return self.open(Open::Joined { all, first, outer }, goal);
            }
        }
        if may_choose && first.asks.and(outer.kinds) != Kinds::none() && reader.takes(" ? ") {
            self.typing = outer;
            return self.begin_chosen(first);
        }
        Err(Stop::Refused)
    }
}
