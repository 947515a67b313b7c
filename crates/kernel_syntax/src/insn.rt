//! Instructions.
ghost use Rattle.std.specs.Prelude.{◌≡◌, ◌≤◌, ◌++◌, ◌∷◌, ◌+◌, [], codes, length, List, ℕ, IfOk, MatchOption};
ghost use Rattle.std.specs.Result.{IfErr};
ghost use Rattle.kernel_expressions.specs.Texts.{texts, IsFit};
ghost use Rattle.kernel_syntax.specs.Parts.{Is};
ghost use Rattle.kernel_expressions.specs.Reads.{IsItem, IsList, Next, Reads, word_of};
ghost use Rattle.kernel_grammar.specs.Lines.{declared_text, ids_text, insn_text, line_text, option_text, options_text, place_text, stored_text};
ghost use Rattle.kernel_grammar.specs.Lexicals.{key, mark, sign as sign_token};
ghost use Rattle.kernel_grammar.specs.Spelling.{extreme_text};
ghost use Rattle.kernel_grammar.specs.declared.item.Stored.{Stored as SpecStored};
ghost use Rattle.kernel_grammar.specs.declared.step.Extreme.{Extreme as SpecExtreme};
ghost use Rattle.kernel_expressions.specs.Signs.{sign_text};
ghost use Rattle.kernel_grammar.specs.Words.{words_of};
ghost use Rattle.kernel_expressions.specs.Settled.{AnyRest, Behind, Ends, Halts, Spells, SpellsList, Stops, ends_level, is_mark};
ghost use Rattle.kernel_syntax.specs.Behinds.{ends_dep, ends_ids, ends_option, is_line_end, is_other};
ghost use Rattle.kernel_syntax.specs.Parts.{condition_text, dep_text, id_text, inames_text};
ghost use Rattle.kernel_grammar.specs.Syntax.{item_of, option_of, options_of, place_of};

use affine_rows::{Listed, Name};
use kernel_expressions::ahead::{
    behind_sign, kind, lexeme_at, name, name_at, names, sign, sign_at,
};
use kernel_expressions::expression::expression;
use kernel_expressions::key::Key;
use kernel_expressions::lexeme::Lexeme;
use kernel_expressions::lists::places;
use kernel_expressions::sign::Sign;
use kernel_expressions::stop::Stop;
use kernel_grammar::{Declared, Extreme, Folding, InsnOption, Item, Step, Stored};
use std::alloc::Global;

/// Reads `<>` or a kind between the two signs, if they stand there.
fn declared(lexemes: &[Lexeme], at: usize) -> Result<(Declared, usize), Stop>
    requires { at ≤ length (texts lexemes.now) }
    ensures read { IfOk result (λ read. Reads (texts lexemes.now) at read.1 (Is (declared_text read.0))) }
    ensures ends { IfOk result (λ read. Ends (texts lexemes.now) (Spells declared_text) (Behind (is_other (codes "<"))) at read.1) }
    ensures stops { IfErr result (Halts (Stops (texts lexemes.now) (Spells declared_text) (Behind (is_other (codes "<"))) at)) }
{
    let Some(at) = behind_sign(lexemes, at, Sign::Less) else {
        return Ok((Declared::Not, at));
    };
    if let Some(at) = behind_sign(lexemes, at, Sign::Greater) {
        return Ok((Declared::Inferred, at));
    }
    let (kind, at) = kind(lexemes, at)?;
    Ok((Declared::Of(kind), sign(lexemes, at, Sign::Greater)?))
}

/// Reads subscripts, if there are any.
fn place(
    alloc: Global,
    lexemes: &[Lexeme],
    at: usize,
) -> Result<(Listed<Listed<Step>>, usize), Stop>
    requires { at ≤ length (texts lexemes.now) }
    ensures read { IfOk result (λ read. Reads (texts lexemes.now) at read.1 (IsItem (IsFit (texts lexemes.now)) place_text place_of read.0)) }
    ensures ends { IfOk result (λ read. Ends (texts lexemes.now) (Spells place_text) (Behind (is_other (codes "["))) at read.1) }
    ensures stops { IfErr result (Halts (Stops (texts lexemes.now) (Spells place_text) (Behind (is_other (codes "["))) at)) }
{
    match behind_sign(lexemes, at, Sign::OpenBracket) {
        Some(_) => places(alloc, lexemes, at),
        None => Ok((Listed::new(alloc), at)),
    }
}

/// How a sign stores.
fn stored_by(sign: Sign) -> Option<Stored>
    ensures { MatchOption result ((stored : SpecStored) → stored_text stored ≡ sign_token (sign_text sign) ∷ [] → ⊥) (λ stored. stored_text stored ≡ sign_token (sign_text sign) ∷ []) }
{
    match sign {
        Sign::Equal => Some(Stored::Plain),
        Sign::PlusEqual => Some(Stored::Update(Folding::Sum)),
        Sign::StarEqual => Some(Stored::Update(Folding::Product)),
        _ => None,
    }
}

/// How the sign at a place stores, if it does.
fn stored_at(lexemes: &[Lexeme], at: usize) -> Option<Stored>
    ensures { MatchOption result ((stored : SpecStored) (s : List ℕ) → stored_text stored ≡ sign_token s ∷ [] → Next (texts lexemes.now) at (sign_token s) → ⊥) (λ stored. (s : List ℕ) × (stored_text stored ≡ sign_token s ∷ []) × Next (texts lexemes.now) at (sign_token s)) }
{
    stored_by(sign_at(lexemes, at)?)
}

/// Which of `min` and `max` stands at a place, if one does.
fn extreme_at(lexemes: &[Lexeme], at: usize) -> Option<Extreme>
    ensures { MatchOption result ((which : SpecExtreme) → Next (texts lexemes.now) at (extreme_text which) → ⊥) (λ which. Next (texts lexemes.now) at (extreme_text which)) }
{
    match lexeme_at(lexemes, at) {
        Some(Lexeme::Key(Key::Extreme(extreme))) => Some(extreme),
        _ => None,
    }
}

/// Reads how an instruction stores.
fn stored(lexemes: &[Lexeme], at: usize) -> Result<(Stored, usize), Stop>
    ensures read { IfOk result (λ read. Reads (texts lexemes.now) at read.1 (Is (stored_text read.0))) }
    ensures ends { IfOk result (λ read. Ends (texts lexemes.now) (Spells stored_text) AnyRest at read.1) }
    ensures stops { at ≤ length (texts lexemes.now) → IfErr result (Halts (Stops (texts lexemes.now) (Spells stored_text) AnyRest at)) }
{
    if let Some(stored) = stored_at(lexemes, at) {
        return Ok((stored, at + 1));
    }
    let Some(extreme) = extreme_at(lexemes, at) else {
        return Err(Stop::Refused { at });
    };
    let at = sign(lexemes, at + 1, Sign::Equal)?;
    Ok((Stored::Update(Folding::Extreme(extreme)), at))
}

/// Reads the ids of a dependence, if there are any.
fn ids(alloc: Global, lexemes: &[Lexeme], at: usize) -> Result<(Listed<Name>, usize), Stop>
    requires { at ≤ length (texts lexemes.now) }
    ensures read { IfOk result (λ read. Reads (texts lexemes.now) at read.1 (IsItem (IsFit (texts lexemes.now)) ids_text words_of read.0)) }
    ensures ends { IfOk result (λ read. Ends (texts lexemes.now) (Spells ids_text) (Behind ends_ids) at read.1) }
    ensures stops { IfErr result (Halts (Stops (texts lexemes.now) (Spells ids_text) (Behind ends_ids) at)) }
{
    match name_at(lexemes, at) {
        Some(_) => names(alloc, lexemes, at, Sign::Colon),
        None => Ok((Listed::new(alloc), at)),
    }
}

/// Reads the id of an instruction.
fn id(alloc: Global, lexemes: &[Lexeme], at: usize) -> Result<(InsnOption, usize), Stop>
    requires { Next (texts lexemes.now) at (key "id") }
    ensures read { IfOk result (λ read. Reads (texts lexemes.now) at read.1 (IsItem (IsFit (texts lexemes.now)) option_text option_of read.0)) }
    ensures ends { IfOk result (λ read. Ends (texts lexemes.now) (Spells id_text) AnyRest at read.1) }
    ensures stops { IfErr result (Halts (Stops (texts lexemes.now) (Spells id_text) AnyRest at)) }
{
    let at = sign(lexemes, at + 1, Sign::Equal)?;
    let (id, at) = name(alloc, lexemes, at)?;
    Ok((InsnOption::Id(id), at))
}

/// Reads the instructions on which one depends.
fn dep(alloc: Global, lexemes: &[Lexeme], at: usize) -> Result<(InsnOption, usize), Stop>
    requires { Next (texts lexemes.now) at (key "dep") }
    ensures read { IfOk result (λ read. Reads (texts lexemes.now) at read.1 (IsItem (IsFit (texts lexemes.now)) option_text option_of read.0)) }
    ensures ends { IfOk result (λ read. Ends (texts lexemes.now) (Spells dep_text) (Behind ends_dep) at read.1) }
    ensures stops { IfErr result (Halts (Stops (texts lexemes.now) (Spells dep_text) (Behind ends_dep) at)) }
{
    let at = sign(lexemes, at + 1, Sign::Equal)?;
    match behind_sign(lexemes, at, Sign::Star) {
        Some(at) => {
            let automatic = false;
            let (ids, at) = ids(alloc, lexemes, at)?;
            Ok((InsnOption::Dep { automatic, ids }, at))
        }
        None => {
            let automatic = true;
            let (ids, at) = ids(alloc, lexemes, at)?;
            Ok((InsnOption::Dep { automatic, ids }, at))
        }
    }
}

/// Reads further inames of an instruction.
fn inames(alloc: Global, lexemes: &[Lexeme], at: usize) -> Result<(InsnOption, usize), Stop>
    requires { Next (texts lexemes.now) at (key "inames") }
    ensures read { IfOk result (λ read. Reads (texts lexemes.now) at read.1 (IsItem (IsFit (texts lexemes.now)) option_text option_of read.0)) }
    ensures ends { IfOk result (λ read. Ends (texts lexemes.now) (Spells inames_text) (Behind (is_other (codes ":"))) at read.1) }
    ensures stops { IfErr result (Halts (Stops (texts lexemes.now) (Spells inames_text) (Behind (is_other (codes ":"))) at)) }
{
    let at = sign(lexemes, at + 1, Sign::Equal)?;
    let (inames, at) = names(alloc, lexemes, at, Sign::Colon)?;
    Ok((InsnOption::Inames(inames), at))
}

/// Reads the predicate of an instruction.
fn condition(alloc: Global, lexemes: &[Lexeme], at: usize) -> Result<(InsnOption, usize), Stop>
    requires { Next (texts lexemes.now) at (key "if") }
    ensures read { IfOk result (λ read. Reads (texts lexemes.now) at read.1 (IsItem (IsFit (texts lexemes.now)) option_text option_of read.0)) }
    ensures ends { IfOk result (λ read. Ends (texts lexemes.now) (Spells condition_text) (Behind (ends_level 1)) at read.1) }
    ensures stops { IfErr result (Halts (Stops (texts lexemes.now) (Spells condition_text) (Behind (ends_level 1)) at)) }
{
    let at = sign(lexemes, at + 1, Sign::Equal)?;
    let (test, at) = expression(alloc, lexemes, at)?;
    Ok((InsnOption::If(test), at))
}

/// The place behind `if`, if it stands there.
fn behind_if(lexemes: &[Lexeme], at: usize) -> Option<usize>
    ensures { MatchOption result (Next (texts lexemes.now) at (key "if") → ⊥) (λ next. (next ≡ at + 1) × Next (texts lexemes.now) at (key "if")) }
{
    match lexeme_at(lexemes, at) {
        Some(Lexeme::Key(Key::If)) => Some(at + 1),
        _ => None,
    }
}

/// Reads an option.
fn option(alloc: Global, lexemes: &[Lexeme], at: usize) -> Result<(InsnOption, usize), Stop>
    ensures read { IfOk result (λ read. Reads (texts lexemes.now) at read.1 (IsItem (IsFit (texts lexemes.now)) option_text option_of read.0)) }
    ensures ends { IfOk result (λ read. Ends (texts lexemes.now) (Spells option_text) (Behind ends_option) at read.1) }
    ensures stops { at ≤ length (texts lexemes.now) → IfErr result (Halts (Stops (texts lexemes.now) (Spells option_text) (Behind ends_option) at)) }
{
    if let Some(_) = behind_if(lexemes, at) {
        return condition(alloc, lexemes, at);
    }
    let Some(word) = name_at(lexemes, at) else {
        return Err(Stop::Refused { at });
    };
    if word.text == "id" {
        id(alloc, lexemes, at)
    } else if word.text == "dep" {
        dep(alloc, lexemes, at)
    } else if word.text == "inames" {
        inames(alloc, lexemes, at)
    } else {
        Err(Stop::Refused { at })
    }
}

/// Reads options with `,` between them.
fn option_list(
    alloc: Global,
    lexemes: &[Lexeme],
    at: usize,
) -> Result<(Listed<InsnOption>, usize), Stop>
    ensures read { IfOk result (λ read. Reads (texts lexemes.now) at read.1 (IsList (IsFit (texts lexemes.now)) option_text option_of (mark ",") read.0)) }
    ensures ends { IfOk result (λ read. Ends (texts lexemes.now) (SpellsList option_text (mark ",")) (Behind (is_mark (codes "}"))) at read.1) }
    ensures stops { at ≤ length (texts lexemes.now) → IfErr result (Halts (Stops (texts lexemes.now) (SpellsList option_text (mark ",")) (Behind (is_mark (codes "}"))) at)) }
{
    let (first, mut at) = option(alloc, lexemes, at)?;
    let mut options = Listed::of_one(alloc, first)?;
    'options: while let Some(next) = behind_sign(lexemes, at, Sign::Comma) {
        let (other, behind) = option(alloc, lexemes, next)?;
        options.push(other)?;
        at = behind;
    }
    Ok((options, at))
}

/// Reads options in braces, if there are braces.
fn options(
    alloc: Global,
    lexemes: &[Lexeme],
    at: usize,
) -> Result<(Listed<InsnOption>, usize), Stop>
    requires { at ≤ length (texts lexemes.now) }
    ensures read { IfOk result (λ read. Reads (texts lexemes.now) at read.1 (IsItem (IsFit (texts lexemes.now)) options_text options_of read.0)) }
    ensures ends { IfOk result (λ read. Ends (texts lexemes.now) (Spells options_text) (Behind (is_other (codes "{"))) at read.1) }
    ensures stops { IfErr result (Halts (Stops (texts lexemes.now) (Spells options_text) (Behind (is_other (codes "{"))) at)) }
{
    let Some(inner) = behind_sign(lexemes, at, Sign::OpenBrace) else {
        return Ok((Listed::new(alloc), at));
    };
    if let Some(behind) = behind_sign(lexemes, inner, Sign::CloseBrace) {
        return Ok((Listed::new(alloc), behind));
    }
    let (options, at) = option_list(alloc, lexemes, inner)?;
    Ok((options, sign(lexemes, at, Sign::CloseBrace)?))
}

/// Reads an instruction.
pub fn insn(alloc: Global, lexemes: &[Lexeme], at: usize) -> Result<(Item, usize), Stop>
    requires { at ≤ length (texts lexemes.now) }
    ensures read { IfOk result (λ read. Reads (texts lexemes.now) at read.1 (IsItem (IsFit (texts lexemes.now)) line_text item_of read.0)) }
    ensures ends { IfOk result (λ read. Ends (texts lexemes.now) (Spells insn_text) (Behind is_line_end) at read.1) }
    ensures stops { IfErr result (Halts (Stops (texts lexemes.now) (Spells insn_text) (Behind is_line_end) at)) }
{
    let (declared, at) = declared(lexemes, at)?;
    let (name, at) = name(alloc, lexemes, at)?;
    let (place, at) = place(alloc, lexemes, at)?;
    let (stored, at) = stored(lexemes, at)?;
    let (value, at) = expression(alloc, lexemes, at)?;
    let (options, at) = options(alloc, lexemes, at)?;
    Ok((
        Item::Insn {
            declared,
            name,
            place,
            stored,
            value,
            options,
        },
        at,
    ))
}
