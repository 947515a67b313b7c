//! How tightly operators bind: 1 is loosest, 11 is the level of signs before operands and of what needs no operator.
ghost use Rattle.std.specs.Prelude.{◌≡◌, Bool, MatchOption};
ghost use Rattle.kernel_grammar.specs.Lexicals.{sign as sign_token, word};
ghost use Rattle.kernel_grammar.specs.Spelling.{rel_text};
ghost use Rattle.kernel_grammar.specs.Trees.{Rel};
ghost use Rattle.kernel_expressions.specs.Frames.{inner_level, own_level};
ghost use Rattle.kernel_expressions.specs.Keys.{key_text};
ghost use Rattle.kernel_expressions.specs.Levels.{first_level, level, prefix_level, IsInfix, IsRelation};
ghost use Rattle.kernel_expressions.specs.Settled.{IsNoInfix};
ghost use Rattle.kernel_expressions.specs.Signs.{sign_text};
ghost use Rattle.kernel_expressions.specs.Texts.{text_of};
ghost use Rattle.kernel_expressions.specs.Turns.{shift_text};

use crate::frame::Frame;
use crate::key::Key;
use crate::lexeme::Lexeme;
use crate::sign::Sign;
use kernel_grammar::{Infix, Prefix, Relation};

/// The level of an operator between operands. Its second operand is of a tighter level.
pub fn level(operator: Infix) -> u8
    ensures { result ≡ level operator }
{
    match operator {
        Infix::Or => 1,
        Infix::And => 2,
        Infix::Compare(_) | Infix::NotEqual => 4,
        Infix::BitOr => 5,
        Infix::BitXor => 6,
        Infix::BitAnd => 7,
        Infix::Add | Infix::Subtract => 9,
        Infix::Multiply | Infix::Divide | Infix::Remainder | Infix::Extreme(_) => 10,
    }
}

/// The level of an operator's first operand: its own but for comparisons, which are not compared.
pub fn first_level(operator: Infix) -> u8
    ensures { result ≡ first_level operator }
{
    match operator {
        Infix::Compare(_) | Infix::NotEqual => 5,
        Infix::Or => 1,
        Infix::And => 2,
        Infix::BitOr => 5,
        Infix::BitXor => 6,
        Infix::BitAnd => 7,
        Infix::Add | Infix::Subtract => 9,
        Infix::Multiply | Infix::Divide | Infix::Remainder | Infix::Extreme(_) => 10,
    }
}

/// The level of an operator before its operand, which is also that of the operand.
pub fn prefix_level(prefix: Prefix) -> u8
    ensures { result ≡ prefix_level prefix }
{
    match prefix {
        Prefix::Not => 3,
        Prefix::Negate | Prefix::Invert => 11,
    }
}

/// The level of what may follow the frame.
pub fn inner_level(frame: &Frame) -> u8
    ensures { result ≡ inner_level frame.now }
{
    match frame {
        Frame::Infix(infix) => level(*infix) + 1,
        Frame::Prefix(prefix) => prefix_level(*prefix),
        Frame::Places { .. } => 9,
        Frame::Group | Frame::Body(_) | Frame::First { .. } | Frame::Test | Frame::Then => 1,
    }
}

/// The level of an open operator, and 0 of anything else.
pub fn own_level(frame: &Frame) -> u8
    ensures { result ≡ own_level frame.now }
{
    match frame {
        Frame::Infix(infix) => level(*infix),
        Frame::Prefix(prefix) => prefix_level(*prefix),
        _ => 0,
    }
}

/// The comparison that a sign writes.
pub fn relation_of(sign: Sign) -> Option<Relation>
    ensures { MatchOption result ((rel : Rel) → rel_text rel ≡ sign_token (sign_text sign) → ⊥) (λ relation. IsRelation relation (sign_token (sign_text sign))) }
{
    match sign {
        Sign::LessEqual => Some(Relation::LessEqual),
        Sign::Less => Some(Relation::Less),
        Sign::GreaterEqual => Some(Relation::GreaterEqual),
        Sign::Greater => Some(Relation::Greater),
        Sign::Equal | Sign::EqualEqual => Some(Relation::Equal),
        _ => None,
    }
}

fn infix_sign(sign: Sign) -> Option<Infix>
    ensures { MatchOption result (IsNoInfix (sign_token (sign_text sign))) (λ operator. IsInfix operator (sign_token (sign_text sign))) }
{
    match sign {
        Sign::NotEqual => Some(Infix::NotEqual),
        Sign::Bar => Some(Infix::BitOr),
        Sign::Caret => Some(Infix::BitXor),
        Sign::Ampersand => Some(Infix::BitAnd),
        Sign::Plus => Some(Infix::Add),
        Sign::Minus => Some(Infix::Subtract),
        Sign::Star => Some(Infix::Multiply),
        Sign::SlashSlash => Some(Infix::Divide),
        Sign::Percent => Some(Infix::Remainder),
        _ => Some(Infix::Compare(relation_of(sign)?)),
    }
}

fn infix_key(key: Key) -> Option<Infix>
    ensures { MatchOption result (IsNoInfix (word (key_text key))) (λ operator. IsInfix operator (word (key_text key))) }
{
    match key {
        Key::Or => Some(Infix::Or),
        Key::And => Some(Infix::And),
        _ => None,
    }
}

/// The operator that a token writes between operands.
pub fn infix_of(lexeme: Lexeme) -> Option<Infix>
    ensures { MatchOption result (IsNoInfix (text_of lexeme.entry)) (λ operator. IsInfix operator (text_of lexeme.entry)) }
{
    match lexeme {
        Lexeme::Sign(sign) => infix_sign(sign),
        Lexeme::Key(key) => infix_key(key),
        _ => None,
    }
}

fn shift_sign(sign: Sign) -> Option<bool>
    ensures { MatchOption result ((is_left : Bool) → sign_token (sign_text sign) ≡ shift_text is_left → ⊥) (λ is_left. sign_token (sign_text sign) ≡ shift_text is_left) }
{
    match sign {
        Sign::ShiftLeft => Some(true),
        Sign::ShiftRight => Some(false),
        _ => None,
    }
}

/// Whether a token shifts to the left, if it is the sign of a shift.
pub fn shift_of(lexeme: Lexeme) -> Option<bool>
    ensures { MatchOption result ((is_left : Bool) → text_of lexeme.entry ≡ shift_text is_left → ⊥) (λ is_left. text_of lexeme.entry ≡ shift_text is_left) }
{
    match lexeme {
        Lexeme::Sign(sign) => shift_sign(sign),
        _ => None,
    }
}
