//! Conditions on index expressions.
ghost use Rattle.std.specs.Prelude.{◌≡◌, ◌≤◌, ◌+◌, length, IfOk, MatchOption};
ghost use Rattle.std.specs.Result.{IfErr};
ghost use Rattle.kernel_grammar.specs.Lexicals.{key, Lexical};
ghost use Rattle.kernel_grammar.specs.Lines.{chain_text, links_text};
ghost use Rattle.kernel_grammar.specs.Spelling.{rel_text};
ghost use Rattle.kernel_grammar.specs.Syntax.{chain_of};
ghost use Rattle.kernel_grammar.specs.Trees.{Rel};
ghost use Rattle.kernel_expressions.specs.Levels.{IsRelation};
ghost use Rattle.kernel_expressions.specs.Settled.{Behind, Ends, Halts, Spells, SpellsList, Stops};
ghost use Rattle.kernel_syntax.specs.Behinds.{ends_conditions, ends_links};
ghost use Rattle.kernel_syntax.specs.Parts.{IsLinks};
ghost use Rattle.kernel_expressions.specs.Reads.{IsItem, IsList, Next, Reads};
ghost use Rattle.kernel_expressions.specs.Texts.{texts, IsFit};

use affine_rows::Listed;
use kernel_expressions::ahead::{lexeme_at, sign_at};
use kernel_expressions::key::Key;
use kernel_expressions::levels::relation_of;
use kernel_expressions::lexeme::Lexeme;
use kernel_expressions::lists::sums;
use kernel_expressions::stop::Stop;
use kernel_grammar::{Chain, Relation, Step};
use std::alloc::Global;

/// The relation at a place, if one stands there.
fn relation_at(lexemes: &[Lexeme], at: usize) -> Option<Relation>
    ensures { MatchOption result ((rel : Rel) → Next (texts lexemes.now) at (rel_text rel) → ⊥) (λ relation. (x : Lexical) × Next (texts lexemes.now) at x × IsRelation relation x) }
{
    relation_of(sign_at(lexemes, at)?)
}

/// Reads relations, each with a list of index expressions behind it.
fn links(
    alloc: Global,
    lexemes: &[Lexeme],
    at: usize,
) -> Result<(Listed<(Relation, Listed<Listed<Step>>)>, usize), Stop>
    requires { at ≤ length (texts lexemes.now) }
    ensures read { IfOk result (λ read. Reads (texts lexemes.now) at read.1 (IsLinks (IsFit (texts lexemes.now)) read.0)) }
    ensures ends { IfOk result (λ read. Ends (texts lexemes.now) (Spells links_text) (Behind ends_links) at read.1) }
    ensures stops { IfErr result (Halts (Stops (texts lexemes.now) (Spells links_text) (Behind ends_links) at)) }
{
    let mut at = at;
    let mut links = Listed::new(alloc);
    'links: while let Some(relation) = relation_at(lexemes, at) {
        let (next, behind) = sums(alloc, lexemes, at + 1)?;
        links.push((relation, next))?;
        at = behind;
    }
    Ok((links, at))
}

/// Reads lists of index expressions with relations between them.
fn chain(alloc: Global, lexemes: &[Lexeme], at: usize) -> Result<(Chain, usize), Stop>
    ensures read { IfOk result (λ read. Reads (texts lexemes.now) at read.1 (IsItem (IsFit (texts lexemes.now)) chain_text chain_of read.0)) }
    ensures ends { IfOk result (λ read. Ends (texts lexemes.now) (Spells chain_text) (Behind ends_links) at read.1) }
    ensures stops { at ≤ length (texts lexemes.now) → IfErr result (Halts (Stops (texts lexemes.now) (Spells chain_text) (Behind ends_links) at)) }
{
    let (first, at) = sums(alloc, lexemes, at)?;
    let (rest, at) = links(alloc, lexemes, at)?;
    if rest.len() == 0 {
        return Err(Stop::Refused { at });
    }
    Ok((Chain { first, rest }, at))
}

/// The place behind `and`, if it stands there.
fn behind_and(lexemes: &[Lexeme], at: usize) -> Option<usize>
    ensures { MatchOption result (Next (texts lexemes.now) at (key "and") → ⊥) (λ next. (next ≡ at + 1) × Next (texts lexemes.now) at (key "and")) }
{
    match lexeme_at(lexemes, at) {
        Some(Lexeme::Key(Key::And)) => Some(at + 1),
        _ => None,
    }
}

/// Reads conditions with `and` between them.
pub fn conditions(
    alloc: Global,
    lexemes: &[Lexeme],
    at: usize,
) -> Result<(Listed<Chain>, usize), Stop>
    ensures read { IfOk result (λ read. Reads (texts lexemes.now) at read.1 (IsList (IsFit (texts lexemes.now)) chain_text chain_of (key "and") read.0)) }
    ensures ends { IfOk result (λ read. Ends (texts lexemes.now) (SpellsList chain_text (key "and")) (Behind ends_conditions) at read.1) }
    ensures stops { at ≤ length (texts lexemes.now) → IfErr result (Halts (Stops (texts lexemes.now) (SpellsList chain_text (key "and")) (Behind ends_conditions) at)) }
{
    let (first, mut at) = chain(alloc, lexemes, at)?;
    let mut conditions = Listed::of_one(alloc, first)?;
    'conditions: while let Some(next) = behind_and(lexemes, at) {
        let (other, behind) = chain(alloc, lexemes, next)?;
        conditions.push(other)?;
        at = behind;
    }
    Ok((conditions, at))
}
