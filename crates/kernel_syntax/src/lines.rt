//! The lines of a kernel file but for instructions.
ghost use Rattle.std.specs.Prelude.{◌≡◌, ◌≤◌, ◌+◌, ◌++◌, ◌∷◌, codes, false, length, map, IfOk, MatchOption};
ghost use Rattle.std.specs.Result.{IfErr};
ghost use Rattle.kernel_expressions.specs.Texts.{texts, IsFit};
ghost use Rattle.kernel_expressions.specs.Settled.{AnyRest, Behind, Ends, Halts, Spells, Stops, ends_level};
ghost use Rattle.kernel_syntax.specs.Behinds.{is_key, ends_conditions, ends_ruled, is_line_end, is_other};
ghost use Rattle.kernel_syntax.specs.Parts.{array_text, array_word, assume_text, domain_text, named_kind_text, rule_text, temp_text};
ghost use Rattle.kernel_expressions.specs.Reads.{IsItem, Next, Reads, word_of};
ghost use Rattle.kernel_grammar.specs.Lexicals.{Lexical, key, mark, word};
ghost use Rattle.kernel_grammar.specs.Lines.{line_text, ruled_text, typed_text};
ghost use Rattle.kernel_grammar.specs.Syntax.{chain_of, item_of};
ghost use Rattle.kernel_grammar.specs.Words.{Name as SpelledName};
ghost use Rattle.kernel_expressions.specs.Keys.{key_text};

use crate::chains::conditions;
use crate::insn::insn;
use affine_rows::{Listed, Name};
use kernel_expressions::ahead::{behind_sign, kind, lexeme_at, name, name_at, names_before, sign};
use kernel_expressions::expression::expression;
use kernel_expressions::key::Key;
use kernel_expressions::lexeme::Lexeme;
use kernel_expressions::lists::{numbers, places};
use kernel_expressions::sign::Sign;
use kernel_expressions::stop::Stop;
use kernel_grammar::{Chain, Item};
use std::alloc::Global;
use wrap_words::Kind;

/// Reads conditions behind their sign, if it stands there.
fn ruled(alloc: Global, lexemes: &[Lexeme], at: usize) -> Result<(Listed<Chain>, usize), Stop>
    requires { at ≤ length (texts lexemes.now) }
    ensures read { IfOk result (λ read. Reads (texts lexemes.now) at read.1 (IsItem (IsFit (texts lexemes.now)) ruled_text (map chain_of) read.0)) }
    ensures ends { IfOk result (λ read. Ends (texts lexemes.now) (Spells ruled_text) (Behind ends_ruled) at read.1) }
    ensures stops { IfErr result (Halts (Stops (texts lexemes.now) (Spells ruled_text) (Behind ends_ruled) at)) }
{
    match behind_sign(lexemes, at, Sign::Colon) {
        Some(at) => conditions(alloc, lexemes, at),
        None => Ok((Listed::new(alloc), at)),
    }
}

/// Reads a domain behind its word.
fn domain(alloc: Global, lexemes: &[Lexeme], at: usize) -> Result<(Item, usize), Stop>
    requires { Next (texts lexemes.now) at (key "domain") }
    ensures read { IfOk result (λ read. Reads (texts lexemes.now) at read.1 (IsItem (IsFit (texts lexemes.now)) line_text item_of read.0)) }
    ensures ends { IfOk result (λ read. Ends (texts lexemes.now) (Spells domain_text) AnyRest at read.1) }
    ensures stops { IfErr result (Halts (Stops (texts lexemes.now) (Spells domain_text) AnyRest at)) }
{
    let at = sign(lexemes, at + 1, Sign::OpenBracket)?;
    let (known, at) = names_before(alloc, lexemes, at, Sign::CloseBracket)?;
    let at = sign(lexemes, at, Sign::Arrow)?;
    let at = sign(lexemes, at, Sign::OpenBrace)?;
    let at = sign(lexemes, at, Sign::OpenBracket)?;
    let (inames, at) = names_before(alloc, lexemes, at, Sign::CloseBracket)?;
    let (conditions, at) = ruled(alloc, lexemes, at)?;
    let at = sign(lexemes, at, Sign::CloseBrace)?;
    Ok((
        Item::Domain {
            known,
            inames,
            conditions,
        },
        at,
    ))
}

/// Reads a name and its kind.
fn typed(alloc: Global, lexemes: &[Lexeme], at: usize) -> Result<(Name, Kind, usize), Stop>
    ensures read { IfOk result (λ read. Reads (texts lexemes.now) at read.2 (IsItem (IsFit (texts lexemes.now)) (λ (name : SpelledName). typed_text name read.1) word_of read.0)) }
    ensures ends { IfOk result (λ read. Ends (texts lexemes.now) (Spells named_kind_text) AnyRest at read.2) }
    ensures stops { at ≤ length (texts lexemes.now) → IfErr result (Halts (Stops (texts lexemes.now) (Spells named_kind_text) AnyRest at)) }
{
    let (name, at) = name(alloc, lexemes, at)?;
    let at = sign(lexemes, at, Sign::Colon)?;
    let (kind, at) = kind(lexemes, at)?;
    Ok((name, kind, at))
}

/// Reads an array behind its word.
fn array(alloc: Global, lexemes: &[Lexeme], at: usize, stored: bool) -> Result<(Item, usize), Stop>
    requires { Next (texts lexemes.now) at (array_word stored) }
    ensures read { IfOk result (λ read. Reads (texts lexemes.now) at read.1 (IsItem (IsFit (texts lexemes.now)) line_text item_of read.0)) }
    ensures ends { IfOk result (λ read. Ends (texts lexemes.now) (Spells (array_text stored)) AnyRest at read.1) }
    ensures stops { IfErr result (Halts (Stops (texts lexemes.now) (Spells (array_text stored)) AnyRest at)) }
{
    let (name, kind, at) = typed(alloc, lexemes, at + 1)?;
    let (shape, at) = places(alloc, lexemes, at)?;
    Ok((
        Item::Array {
            name,
            kind,
            shape,
            stored,
        },
        at,
    ))
}

/// Reads a temporary behind its word.
fn temp(alloc: Global, lexemes: &[Lexeme], at: usize) -> Result<(Item, usize), Stop>
    requires { Next (texts lexemes.now) at (key "temp") }
    ensures read { IfOk result (λ read. Reads (texts lexemes.now) at read.1 (IsItem (IsFit (texts lexemes.now)) line_text item_of read.0)) }
    ensures ends { IfOk result (λ read. Ends (texts lexemes.now) (Spells temp_text) (Behind (is_other (codes "["))) at read.1) }
    ensures stops { IfErr result (Halts (Stops (texts lexemes.now) (Spells temp_text) (Behind (is_other (codes "["))) at)) }
{
    let (name, kind, at) = typed(alloc, lexemes, at + 1)?;
    let (shape, at) = numbers(alloc, lexemes, at)?;
    Ok((Item::Temp { name, kind, shape }, at))
}

/// Reads a rule.
fn rule(alloc: Global, lexemes: &[Lexeme], at: usize) -> Result<(Item, usize), Stop>
    ensures read { IfOk result (λ read. Reads (texts lexemes.now) at read.1 (IsItem (IsFit (texts lexemes.now)) line_text item_of read.0)) }
    ensures ends { IfOk result (λ read. Ends (texts lexemes.now) (Spells rule_text) (Behind (ends_level 1)) at read.1) }
    ensures stops { at ≤ length (texts lexemes.now) → IfErr result (Halts (Stops (texts lexemes.now) (Spells rule_text) (Behind (ends_level 1)) at)) }
{
    let (name, at) = name(alloc, lexemes, at)?;
    let at = sign(lexemes, at, Sign::OpenParenthesis)?;
    let (params, at) = names_before(alloc, lexemes, at, Sign::CloseParenthesis)?;
    let at = sign(lexemes, at, Sign::ColonEqual)?;
    let (body, at) = expression(alloc, lexemes, at)?;
    Ok((Item::Rule { name, params, body }, at))
}

/// Reads an assumption.
fn assume(alloc: Global, lexemes: &[Lexeme], at: usize) -> Result<(Item, usize), Stop>
    requires { Next (texts lexemes.now) at (key "assume") }
    ensures read { IfOk result (λ read. Reads (texts lexemes.now) at read.1 (IsItem (IsFit (texts lexemes.now)) line_text item_of read.0)) }
    ensures ends { IfOk result (λ read. Ends (texts lexemes.now) (Spells assume_text) (Behind ends_conditions) at read.1) }
    ensures stops { IfErr result (Halts (Stops (texts lexemes.now) (Spells assume_text) (Behind ends_conditions) at)) }
{
    let (conditions, at) = conditions(alloc, lexemes, at + 1)?;
    Ok((Item::Assume { conditions }, at))
}

/// Reads a line that begins with a word of the grammar.
fn keyed(alloc: Global, lexemes: &[Lexeme], at: usize, key: Key) -> Result<(Item, usize), Stop>
    requires { Next (texts lexemes.now) at (word (key_text key)) }
    ensures read { IfOk result (λ read. Reads (texts lexemes.now) at read.1 (IsItem (IsFit (texts lexemes.now)) line_text item_of read.0)) }
    ensures ends { IfOk result (λ read. Ends (texts lexemes.now) (Spells line_text) (Behind is_line_end) at read.1) }
    ensures stops { IfErr result (Halts (Stops (texts lexemes.now) (Spells line_text) (Behind is_line_end) at)) }
{
    match key {
        Key::Domain => domain(alloc, lexemes, at),
        Key::Assume => assume(alloc, lexemes, at),
        Key::Input => array(alloc, lexemes, at, false),
        Key::Output => array(alloc, lexemes, at, true),
        Key::Temp => temp(alloc, lexemes, at),
        _ => Err(Stop::Refused { at }),
    }
}

/// The word of the grammar at a place, if one stands there that names no kind.
fn key_at(lexemes: &[Lexeme], at: usize) -> Option<Key>
    ensures { MatchOption result ((x : Lexical) → Next (texts lexemes.now) at x → is_key x ≡ false) (λ key. Next (texts lexemes.now) at (word (key_text key))) }
{
    match lexeme_at(lexemes, at) {
        Some(Lexeme::Key(key)) => Some(key),
        _ => None,
    }
}

/// The place behind a name and a parenthesis, if they stand there.
fn behind_rule(lexemes: &[Lexeme], at: usize) -> Option<usize>
    ensures { MatchOption result ((n : SpelledName) → Next (texts lexemes.now) at (word n.word) → Next (texts lexemes.now) (at + 1) (mark "(") → ⊥) (λ next. (n : SpelledName) × Next (texts lexemes.now) at (word n.word) × Next (texts lexemes.now) (at + 1) (mark "(")) }
{
    match name_at(lexemes, at) {
        Some(_) => behind_sign(lexemes, at + 1, Sign::OpenParenthesis),
        None => None,
    }
}

/// Reads a line, up to its end.
pub fn line(alloc: Global, lexemes: &[Lexeme], at: usize) -> Result<(Item, usize), Stop>
    requires { at ≤ length (texts lexemes.now) }
    ensures read { IfOk result (λ read. Reads (texts lexemes.now) at read.1 (IsItem (IsFit (texts lexemes.now)) line_text item_of read.0)) }
    ensures ends { IfOk result (λ read. Ends (texts lexemes.now) (Spells line_text) (Behind is_line_end) at read.1) }
    ensures stops { IfErr result (Halts (Stops (texts lexemes.now) (Spells line_text) (Behind is_line_end) at)) }
{
    if let Some(key) = key_at(lexemes, at) {
        return keyed(alloc, lexemes, at, key);
    }
    match behind_rule(lexemes, at) {
        Some(_) => rule(alloc, lexemes, at),
        None => insn(alloc, lexemes, at),
    }
}
