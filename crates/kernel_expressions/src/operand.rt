//! What stands where an operand is wanted.
ghost use Rattle.std.specs.Prelude.{◌≡◌, ◌≤◌, [], length, IfOk, ◌+◌, ℕ};
ghost use Rattle.std.specs.Result.{IfErr};
ghost use Rattle.kernel_grammar.specs.Lexicals.{key, sign as sign_token, word};
ghost use Rattle.kernel_grammar.specs.Spelling.{extreme_text, over_text};
ghost use Rattle.std.specs.Bool.{MatchBool};
ghost use Rattle.kernel_expressions.specs.Follows.{BeginsInames, Goes, GoesShaped, Halted, HaltsShaped, NamedLeft, Never, OperandLeft, Shaped, SignedLeft, start};
ghost use Rattle.kernel_expressions.specs.Keys.{key_text};
ghost use Rattle.kernel_expressions.specs.Leads.{Leads};
ghost use Rattle.kernel_expressions.specs.Reads.{Next, Reads};
ghost use Rattle.kernel_expressions.specs.Settled.{AnyRest, Ends, Halts, Spells, Stops};
ghost use Rattle.kernel_expressions.specs.Signs.{sign_text};
ghost use Rattle.kernel_expressions.specs.Tails.{IsText};
ghost use Rattle.kernel_expressions.specs.Texts.{texts, IsFit};
ghost use Rattle.kernel_expressions.specs.Turns.{Moves, MovesAt, OpensPart, Passes, AreInames, InParens, IsOver, fold_text, folding_of, inames_text, parens_text};

use crate::ahead::{behind_sign, digits, kind, lexeme_at, name, name_at, names, sign};
use crate::frame::{Bracket, Frame};
use crate::key::Key;
use crate::lexeme::Lexeme;
use crate::lexemes::{name_of, number_of};
use crate::partial::{Partial, Turn};
use crate::sign::Sign;
use crate::stop::Stop;
use affine_rows::{Listed, Name};
use kernel_grammar::{Extreme, Folding, Infix, Prefix, Step};
use std::alloc::Global;

/// Opens a part that is read up to a place.
pub fn opened(part: &mut Partial, frame: Frame, at: usize) -> Result<Turn, Stop>
    ensures opens { IfOk result (λ turn. OpensPart part.old frame at part.new turn) }
    ensures none { IfErr result (Halts (λ last. ⊥)) }
{
    part.begin(frame)?;
    Ok(Turn::Operand { at })
}

/// A number, or a number and a name, which is their product.
fn number(alloc: Global, lexemes: &[Lexeme], at: usize, part: &mut Partial) -> Result<Turn, Stop>
    ensures passes { IfOk result (Passes (texts lexemes.now) at) }
    ensures moves { IfOk result (λ turn. Moves lexemes.now part.old at part.new turn) }
    ensures begun { IfErr result (Halts (λ last. last ≡ at)) }
    ensures goes { IfOk result (λ turn. GoesShaped lexemes.now 1 part.old at part.new turn) }
    ensures none { IfErr result (Halts (HaltsShaped lexemes.now 1 part.old at)) }
{
    let (digits, at) = digits(lexemes, at)?;
    part.step(Step::Number(number_of(digits)))?;
    let Some(word) = name_at(lexemes, at) else {
        return Ok(Turn::Operator { at, level: 11 });
    };
    part.step(Step::Name(name_of(alloc, word)?))?;
    part.step(Step::Infix(Infix::Multiply))?;
    Ok(Turn::Operator {
        at: at + 1,
        level: 11,
    })
}

/// A name, and what may stand behind it.
fn named(alloc: Global, lexemes: &[Lexeme], at: usize, part: &mut Partial) -> Result<Turn, Stop>
    ensures passes { IfOk result (Passes (texts lexemes.now) at) }
    ensures moves { IfOk result (λ turn. Moves lexemes.now part.old at part.new turn) }
    ensures begun { IfErr result (Halts (λ last. last ≡ at)) }
    ensures goes { IfOk result (λ turn. (least : ℕ) → Goes (texts lexemes.now) least at (NamedLeft (texts lexemes.now) least part.old.frames at) part.new.frames turn) }
    ensures none { IfErr result (Halts (λ last. (least : ℕ) → Halted (texts lexemes.now) least at (NamedLeft (texts lexemes.now) least part.old.frames at) last)) }
{
    let (name, at) = name(alloc, lexemes, at)?;
    if let Some(at) = behind_sign(lexemes, at, Sign::OpenBracket) {
        let bracket = Bracket::Index;
        let count = 0;
        let frame = Frame::Places {
            name,
            bracket,
            count,
        };
        return opened(part, frame, at);
    }
    let Some(at_first) = behind_sign(lexemes, at, Sign::OpenParenthesis) else {
        part.step(Step::Name(name))?;
        return Ok(Turn::Operator { at, level: 11 });
    };
    if let Some(at) = behind_sign(lexemes, at_first, Sign::CloseParenthesis) {
        part.step(Step::Call { name, arguments: 0 })?;
        return Ok(Turn::Operator { at, level: 11 });
    }
    let bracket = Bracket::Call;
    let count = 0;
    let frame = Frame::Places {
        name,
        bracket,
        count,
    };
    opened(part, frame, at_first)
}

/// Opens a part that begins with a sign.
fn signed(lexemes: &[Lexeme], at: usize, sign: Sign, part: &mut Partial) -> Result<Turn, Stop>
    requires { Next (texts lexemes.now) at (sign_token (sign_text sign)) }
    ensures passes { IfOk result (Passes (texts lexemes.now) at) }
    ensures moves { IfOk result (λ turn. Moves lexemes.now part.old at part.new turn) }
    ensures begun { IfErr result (Halts (λ last. last ≡ at)) }
    ensures goes { IfOk result (λ turn. (least : ℕ) → Goes (texts lexemes.now) least at (SignedLeft (start (sign_token (sign_text sign))) (texts lexemes.now) least part.old.frames at) part.new.frames turn) }
    ensures none { IfErr result (Halts (λ last. (least : ℕ) → Halted (texts lexemes.now) least at (SignedLeft (start (sign_token (sign_text sign))) (texts lexemes.now) least part.old.frames at) last)) }
{
    let _ = lexemes;
    match sign {
        Sign::Minus => opened(part, Frame::Prefix(Prefix::Negate), at + 1),
        Sign::Tilde => opened(part, Frame::Prefix(Prefix::Invert), at + 1),
        Sign::OpenParenthesis => opened(part, Frame::Group, at + 1),
        _ => Err(Stop::Refused { at }),
    }
}

/// Reads names in parentheses.
fn in_parentheses(
    alloc: Global,
    lexemes: &[Lexeme],
    at: usize,
) -> Result<(Listed<Name>, usize), Stop>
    ensures read { IfOk result (λ read. Reads (texts lexemes.now) at read.1 (InParens (IsFit (texts lexemes.now)) read.0)) }
    ensures ends { IfOk result (λ read. Ends (texts lexemes.now) (Spells parens_text) AnyRest at read.1) }
    ensures stops { at ≤ length (texts lexemes.now) → IfErr result (Halts (Stops (texts lexemes.now) (Spells parens_text) AnyRest at)) }
    ensures beyond { BeginsInames (texts lexemes.now) at → IfErr result (Halts (λ last. at + 2 ≤ last)) }
{
    let at = sign(lexemes, at, Sign::OpenParenthesis)?;
    let (names, at) = names(alloc, lexemes, at, Sign::Comma)?;
    Ok((names, sign(lexemes, at, Sign::CloseParenthesis)?))
}

/// Reads a name, or names in parentheses.
fn over(alloc: Global, lexemes: &[Lexeme], at: usize) -> Result<(Listed<Name>, usize), Stop>
    ensures read { IfOk result (λ read. Reads (texts lexemes.now) at read.1 (IsOver (IsFit (texts lexemes.now)) read.0)) }
    ensures ends { IfOk result (λ read. Ends (texts lexemes.now) (Spells over_text) AnyRest at read.1) }
    ensures stops { at ≤ length (texts lexemes.now) → IfErr result (Halts (Stops (texts lexemes.now) (Spells over_text) AnyRest at)) }
{
    if behind_sign(lexemes, at, Sign::OpenParenthesis).is_some() {
        return in_parentheses(alloc, lexemes, at);
    }
    let (name, at) = name(alloc, lexemes, at)?;
    Ok((Listed::of_one(alloc, name)?, at))
}

/// How a sum or a product combines values.
fn folding_of(is_sum: bool) -> Folding
    ensures { result ≡ folding_of is_sum }
{
    if is_sum {
        Folding::Sum
    } else {
        Folding::Product
    }
}

/// A reduction up to its body.
fn fold(
    alloc: Global,
    lexemes: &[Lexeme],
    at: usize,
    is_sum: bool,
    part: &mut Partial,
) -> Result<Turn, Stop>
    requires { Next (texts lexemes.now) at (fold_text is_sum) }
    ensures passes { IfOk result (Passes (texts lexemes.now) at) }
    ensures moves { IfOk result (λ turn. Moves lexemes.now part.old at part.new turn) }
    ensures begun { IfErr result (Halts (Leads (texts lexemes.now) (IsText 11) at)) }
    ensures goes { IfOk result (λ turn. GoesShaped lexemes.now (start (fold_text is_sum)) part.old at part.new turn) }
    ensures none { IfErr result (Halts (HaltsShaped lexemes.now (start (fold_text is_sum)) part.old at)) }
{
    let at = sign(lexemes, at + 1, Sign::OpenParenthesis)?;
    let (inames, at) = over(alloc, lexemes, at)?;
    let at = sign(lexemes, at, Sign::Comma)?;
    let folding = folding_of(is_sum);
    opened(part, Frame::Body(Step::Fold { folding, inames }), at)
}

/// Whether two names or more begin there, in parentheses.
fn are_inames(lexemes: &[Lexeme], at: usize) -> bool
    ensures { MatchBool result (BeginsInames (texts lexemes.now) at) (BeginsInames (texts lexemes.now) at → ⊥) }
{
    let Some(at_first) = behind_sign(lexemes, at, Sign::OpenParenthesis) else {
        return false;
    };
    let Some(_word) = name_at(lexemes, at_first) else {
        return false;
    };
    let Some(_next) = behind_sign(lexemes, at_first + 1, Sign::Comma) else {
        return false;
    };
    true
}

/// Reads names in parentheses and a comma.
fn inames(alloc: Global, lexemes: &[Lexeme], at: usize) -> Result<(Listed<Name>, usize), Stop>
    ensures read { IfOk result (λ read. Reads (texts lexemes.now) at read.1 (AreInames (IsFit (texts lexemes.now)) read.0)) }
    ensures ends { IfOk result (λ read. Ends (texts lexemes.now) (Spells inames_text) AnyRest at read.1) }
    ensures stops { at ≤ length (texts lexemes.now) → IfErr result (Halts (Stops (texts lexemes.now) (Spells inames_text) AnyRest at)) }
    ensures beyond { BeginsInames (texts lexemes.now) at → IfErr result (Halts (λ last. at + 2 ≤ last)) }
{
    let (names, at) = in_parentheses(alloc, lexemes, at)?;
    Ok((names, sign(lexemes, at, Sign::Comma)?))
}

/// `min` or `max`, up to its first place, or to its body where two inames or more stand in the first place.
fn extreme(
    alloc: Global,
    lexemes: &[Lexeme],
    at: usize,
    extreme: Extreme,
    part: &mut Partial,
) -> Result<Turn, Stop>
    requires { Next (texts lexemes.now) at (extreme_text extreme) }
    ensures passes { IfOk result (Passes (texts lexemes.now) at) }
    ensures moves { IfOk result (λ turn. Moves lexemes.now part.old at part.new turn) }
    ensures begun { IfErr result (Halts (Leads (texts lexemes.now) (IsText 11) at)) }
    ensures goes { IfOk result (λ turn. GoesShaped lexemes.now (start (extreme_text extreme)) part.old at part.new turn) }
    ensures none { IfErr result (Halts (HaltsShaped lexemes.now (start (extreme_text extreme)) part.old at)) }
{
    let start = sign(lexemes, at + 1, Sign::OpenParenthesis)?;
    if !are_inames(lexemes, start) {
        return opened(part, Frame::First { extreme, start }, start);
    }
    let (inames, at) = inames(alloc, lexemes, start)?;
    let folding = Folding::Extreme(extreme);
    opened(part, Frame::Body(Step::Fold { folding, inames }), at)
}

/// A cast up to its operand.
fn cast(lexemes: &[Lexeme], at: usize, part: &mut Partial) -> Result<Turn, Stop>
    requires { Next (texts lexemes.now) at (key "cast") }
    ensures passes { IfOk result (Passes (texts lexemes.now) at) }
    ensures moves { IfOk result (λ turn. Moves lexemes.now part.old at part.new turn) }
    ensures begun { IfErr result (Halts (Leads (texts lexemes.now) (IsText 11) at)) }
    ensures goes { IfOk result (λ turn. GoesShaped lexemes.now 11 part.old at part.new turn) }
    ensures none { IfErr result (Halts (HaltsShaped lexemes.now 11 part.old at)) }
{
    let at = sign(lexemes, at + 1, Sign::OpenParenthesis)?;
    let (kind, at) = kind(lexemes, at)?;
    let at = sign(lexemes, at, Sign::Comma)?;
    opened(part, Frame::Body(Step::Cast(kind)), at)
}

/// A choice up to its test.
fn choice(lexemes: &[Lexeme], at: usize, part: &mut Partial) -> Result<Turn, Stop>
    requires { Next (texts lexemes.now) at (key "if") }
    ensures passes { IfOk result (Passes (texts lexemes.now) at) }
    ensures moves { IfOk result (λ turn. Moves lexemes.now part.old at part.new turn) }
    ensures begun { IfErr result (Halts (Leads (texts lexemes.now) (IsText 11) at)) }
    ensures goes { IfOk result (λ turn. GoesShaped lexemes.now 12 part.old at part.new turn) }
    ensures none { IfErr result (Halts (HaltsShaped lexemes.now 12 part.old at)) }
{
    let at = sign(lexemes, at + 1, Sign::OpenParenthesis)?;
    opened(part, Frame::Test, at)
}

/// `not`, where a test may stand.
fn not(lexemes: &[Lexeme], at: usize, least: u8, part: &mut Partial) -> Result<Turn, Stop>
    requires { Next (texts lexemes.now) at (key "not") }
    ensures passes { IfOk result (Passes (texts lexemes.now) at) }
    ensures moves { IfOk result (λ turn. MovesAt lexemes.now least part.old at part.new turn) }
    ensures begun { IfErr result (Halts (λ last. last ≡ at)) }
    ensures goes { IfOk result (λ turn. Goes (texts lexemes.now) least at (Shaped least part.old.frames 6) part.new.frames turn) }
    ensures none { IfErr result (Halts (Halted (texts lexemes.now) least at (Shaped least part.old.frames 6))) }
{
    let _ = lexemes;
    if part.frames.wanted_level(least) > 3 {
        return Err(Stop::Refused { at });
    }
    opened(part, Frame::Prefix(Prefix::Not), at + 1)
}

/// What begins with a word of the grammar.
fn keyed(
    alloc: Global,
    lexemes: &[Lexeme],
    at: usize,
    key: Key,
    least: u8,
    part: &mut Partial,
) -> Result<Turn, Stop>
    requires { Next (texts lexemes.now) at (word (key_text key)) }
    ensures passes { IfOk result (Passes (texts lexemes.now) at) }
    ensures moves { IfOk result (λ turn. MovesAt lexemes.now least part.old at part.new turn) }
    ensures begun { IfErr result (Halts (Leads (texts lexemes.now) (IsText 11) at)) }
    ensures goes { IfOk result (λ turn. Goes (texts lexemes.now) least at (Shaped least part.old.frames (start (word (key_text key)))) part.new.frames turn) }
    ensures none { IfErr result (Halts (Halted (texts lexemes.now) least at (Shaped least part.old.frames (start (word (key_text key)))))) }
{
    match key {
        Key::Not => not(lexemes, at, least, part),
        Key::Sum => fold(alloc, lexemes, at, true, part),
        Key::Product => fold(alloc, lexemes, at, false, part),
        Key::Extreme(which) => extreme(alloc, lexemes, at, which, part),
        Key::Cast => cast(lexemes, at, part),
        Key::If => choice(lexemes, at, part),
        _ => Err(Stop::Refused { at }),
    }
}

/// Reads on where an operand is wanted.
pub fn operand(
    alloc: Global,
    lexemes: &[Lexeme],
    at: usize,
    least: u8,
    part: &mut Partial,
) -> Result<Turn, Stop>
    ensures passes { IfOk result (Passes (texts lexemes.now) at) }
    ensures moves { IfOk result (λ turn. MovesAt lexemes.now least part.old at part.new turn) }
    ensures begun { at ≤ length (texts lexemes.now) → IfErr result (Halts (Leads (texts lexemes.now) (IsText 11) at)) }
    ensures goes { IfOk result (λ turn. Goes (texts lexemes.now) least at (OperandLeft (texts lexemes.now) least part.old.frames at) part.new.frames turn) }
    ensures none { IfErr result (Halts (Halted (texts lexemes.now) least at (OperandLeft (texts lexemes.now) least part.old.frames at))) }
{
    let Some(lexeme) = lexeme_at(lexemes, at) else {
        return Err(Stop::Refused { at });
    };
    match lexeme {
        Lexeme::Number(_) => number(alloc, lexemes, at, part),
        Lexeme::Name(_) => named(alloc, lexemes, at, part),
        Lexeme::Sign(sign) => signed(lexemes, at, sign, part),
        Lexeme::Key(key) => keyed(alloc, lexemes, at, key, least, part),
        Lexeme::Kind(_) => Err(Stop::Refused { at }),
        Lexeme::LineEnd => Err(Stop::Refused { at }),
    }
}
