//! What a rule keeps, as words.
ghost use Rattle.std.specs.Prelude.{◌≡◌, ◌++◌, ◌∷◌, [], drop, map, codes, bytes_eq, IfOk, OnOk};
ghost use Rattle.std.specs.List.{list_any};
ghost use Rattle.std.specs.Fmt.{signed_decimal};
ghost use Rattle.refusal_lines.specs.Kept.{name_at, ended_at, number_at, values, at_point, is_side, is_axis, has_side, case_words, cell_words, children, indexed, indexed_race, single_race, race_words, words_by, kept_words};

use crate::rules::{Kept, kept_by};
use affine_rows::Point;
use kernel_ir::{Name, Refusal};
use std::alloc::{AllocError, Global};

fn name_at(alloc: Global, names: &[Name], at: usize) -> Result<Name, AllocError>
    ensures { IfOk result (λ word. word ≡ name_at names.now at) }
{
    match names.get(at) {
        Some(name) => name.copy(alloc),
        None => Name::from_str(alloc, ""),
    }
}

/// The name with a comma behind it.
fn ended(alloc: Global, name: &Name) -> Result<Name, AllocError>
    ensures { IfOk result (λ word. word ≡ name.now ++ codes ",") }
{
    let text = name.as_str();
    Ok(Name::new(format!(in alloc; "{text},")?))
}

fn ended_at(alloc: Global, names: &[Name], at: usize) -> Result<Name, AllocError>
    ensures { IfOk result (λ word. word ≡ ended_at names.now at) }
{
    let name = name_at(alloc, names, at)?;
    ended(alloc, &name)
}

fn decimal(alloc: Global, number: i128) -> Result<Name, AllocError>
    ensures { IfOk result (λ word. word ≡ signed_decimal number) }
{
    Ok(Name::new(format!(in alloc; "{number}")?))
}

fn number_at(alloc: Global, numbers: &[i128], at: usize) -> Result<Name, AllocError>
    ensures { IfOk result (λ word. word ≡ number_at numbers.now at) }
{
    match numbers.get(at) {
        Some(number) => decimal(alloc, *number),
        None => decimal(alloc, 0),
    }
}

/// The names from a place on.
fn behind(names: &[Name], at: usize) -> &[Name]
    ensures { result.now ≡ drop at names.now }
{
    match names.get(at..) {
        Some(rest) => rest,
        None => &[],
    }
}

fn value(alloc: Global, name: &Name, number: i64) -> Result<Name, AllocError>
    ensures { IfOk result (λ word. word ≡ name.now ++ codes "=" ++ signed_decimal number) }
{
    let text = name.as_str();
    Ok(Name::new(format!(in alloc; "{text}={number}")?))
}

/// Adds the values of variables.
fn add_values(
    alloc: Global,
    names: &[Name],
    numbers: &[i64],
    words: &mut Vec<Name>,
) -> Result<(), AllocError>
    ensures { OnOk result (words.new.items ≡ words.old.items ++ values names.now numbers.now) }
{
    match names {
        [] => Ok(()),
        [name, names @ ..] => match numbers {
            [] => Ok(()),
            [number, numbers @ ..] => {
                words.push(value(alloc, name, *number)?)?;
                add_values(alloc, names, numbers, words)
            }
        },
    }
}

/// Adds the values of a point, if there is one.
fn add_point(
    alloc: Global,
    names: &[Name],
    point: &Option<Point>,
    words: &mut Vec<Name>,
) -> Result<(), AllocError>
    ensures { OnOk result (words.new.items ≡ words.old.items ++ at_point names.now point.now) }
{
    match point {
        None => Ok(()),
        Some(point) => {
            words.push(Name::from_str(alloc, "at")?)?;
            add_values(alloc, names, point.at.as_slice(), words)?;
            words.push(Name::from_str(alloc, "over")?)?;
            words.push(decimal(alloc, i128::from(point.over))?)?;
            Ok(())
        }
    }
}

fn is_side(word: &Name) -> bool
    ensures { result ≡ is_side word.now }
{
    word.as_str() == "below" || word.as_str() == "above"
}

fn is_listed(names: &[Name], name: &Name) -> bool
    ensures { result ≡ list_any (bytes_eq name.now) names.now }
{
    names
        .iter()
        .any(|other| name.as_bytes() == other.as_bytes())
}

/// Whether the word is an axis of groups or items.
fn is_axis(word: &Name) -> bool
    ensures { result ≡ is_axis word.now }
{
    let word = word.as_str();
    word == "g.0"
        || word == "g.1"
        || word == "g.2"
        || word == "l.0"
        || word == "l.1"
        || word == "l.2"
}

/// Whether the case is an axis's or a variable's, with the side on which it differs.
fn has_side(names: &[Name]) -> bool
    ensures { result ≡ has_side names.now }
{
    match names {
        [case, side, rest @ ..] => is_side(side) && (is_axis(case) || is_listed(rest, case)),
        _ => false,
    }
}

/// Adds a case and values.
fn add_case(
    alloc: Global,
    names: &[Name],
    point: &Option<Point>,
    words: &mut Vec<Name>,
) -> Result<(), AllocError>
    ensures { OnOk result (words.new.items ≡ words.old.items ++ case_words names.now point.now) }
{
    if has_side(names) {
        words.push(name_at(alloc, names, 0)?)?;
        words.push(ended_at(alloc, names, 1)?)?;
        add_point(alloc, behind(names, 2), point, words)
    } else {
        words.push(ended_at(alloc, names, 0)?)?;
        add_point(alloc, behind(names, 1), point, words)
    }
}

/// Two accesses, the case in which they meet, and values.
fn cell_words(alloc: Global, names: &[Name], point: &Option<Point>) -> Result<Vec<Name>, AllocError>
    ensures { IfOk result (λ words. words.items ≡ cell_words names.now point.now) }
{
    let mut words = Vec::new(alloc);
    words.push(name_at(alloc, names, 0)?)?;
    words.push(name_at(alloc, names, 1)?)?;
    words.push(Name::from_str(alloc, "and")?)?;
    words.push(name_at(alloc, names, 2)?)?;
    words.push(ended_at(alloc, names, 3)?)?;
    words.push(Name::from_str(alloc, "case")?)?;
    add_case(alloc, behind(names, 4), point, &mut words)?;
    Ok(words)
}

/// Adds children with commas between them.
fn add_children(alloc: Global, names: &[Name], words: &mut Vec<Name>) -> Result<(), AllocError>
    ensures { OnOk result (words.new.items ≡ words.old.items ++ children names.now) }
{
    match names {
        [] => Ok(()),
        [child] => {
            words.push(child.copy(alloc)?)?;
            Ok(())
        }
        [child, rest @ ..] => {
            words.push(ended(alloc, child)?)?;
            add_children(alloc, rest, words)
        }
    }
}

fn children(alloc: Global, names: &[Name]) -> Result<Vec<Name>, AllocError>
    ensures { IfOk result (λ words. words.items ≡ children names.now) }
{
    let mut words = Vec::new(alloc);
    add_children(alloc, names, &mut words)?;
    Ok(words)
}

/// The name of an array or cell with the index of a place in it.
fn indexed(alloc: Global, name: &Name, numbers: &[i128]) -> Result<Name, AllocError>
    ensures { IfOk result (λ word. word ≡ indexed name.now numbers.now) }
{
    let index = number_at(alloc, numbers, 1)?;
    let text = name.as_str();
    let at = index.as_str();
    Ok(Name::new(format!(in alloc; "{text}[{at}]")?))
}

/// A step, what stands at its index, and two items, whose numbers begin at a place.
fn race_of(
    alloc: Global,
    step: Name,
    place: Name,
    first: Name,
    second: Name,
) -> Result<Vec<Name>, AllocError>
    ensures { IfOk result (λ words. words.items ≡ codes "step" ∷ step ∷ place ∷ codes "items" ∷ first ∷ second ∷ []) }
{
    let mut words = Vec::new(alloc);
    words.push(Name::from_str(alloc, "step")?)?;
    words.push(step)?;
    words.push(place)?;
    words.push(Name::from_str(alloc, "items")?)?;
    words.push(first)?;
    words.push(second)?;
    Ok(words)
}

/// A step, a cell at an index, and two items.
fn indexed_race(alloc: Global, names: &[Name], numbers: &[i128]) -> Result<Vec<Name>, AllocError>
    ensures { IfOk result (λ words. words.items ≡ indexed_race names.now numbers.now) }
{
    let name = name_at(alloc, names, 0)?;
    let step = number_at(alloc, numbers, 0)?;
    let place = indexed(alloc, &name, numbers)?;
    let first = number_at(alloc, numbers, 2)?;
    let second = number_at(alloc, numbers, 3)?;
    race_of(alloc, step, place, first, second)
}

/// A step, a cell without a length, and two items.
fn single_race(alloc: Global, names: &[Name], numbers: &[i128]) -> Result<Vec<Name>, AllocError>
    ensures { IfOk result (λ words. words.items ≡ single_race names.now numbers.now) }
{
    let place = name_at(alloc, names, 0)?;
    let step = number_at(alloc, numbers, 0)?;
    let first = number_at(alloc, numbers, 1)?;
    let second = number_at(alloc, numbers, 2)?;
    race_of(alloc, step, place, first, second)
}

/// A step, a cell and two items. A cell without a length has no index.
fn race_words(alloc: Global, names: &[Name], numbers: &[i128]) -> Result<Vec<Name>, AllocError>
    ensures { IfOk result (λ words. words.items ≡ race_words names.now numbers.now) }
{
    if numbers.len() == 4 {
        indexed_race(alloc, names, numbers)
    } else {
        single_race(alloc, names, numbers)
    }
}

/// Adds numbers.
fn add_numbers(alloc: Global, numbers: &[i128], words: &mut Vec<Name>) -> Result<(), AllocError>
    ensures { OnOk result (words.new.items ≡ words.old.items ++ map signed_decimal numbers.now) }
{
    match numbers {
        [] => Ok(()),
        [number, rest @ ..] => {
            words.push(decimal(alloc, *number)?)?;
            add_numbers(alloc, rest, words)
        }
    }
}

/// Adds equal names.
fn add_names(alloc: Global, names: &[Name], words: &mut Vec<Name>) -> Result<(), AllocError>
    ensures { OnOk result (words.new.items ≡ words.old.items ++ names.now) }
{
    match names {
        [] => Ok(()),
        [name, rest @ ..] => {
            words.push(name.copy(alloc)?)?;
            add_names(alloc, rest, words)
        }
    }
}

fn listed(alloc: Global, names: &[Name], numbers: &[i128]) -> Result<Vec<Name>, AllocError>
    ensures { IfOk result (λ words. words.items ≡ names.now ++ map signed_decimal numbers.now) }
{
    let mut words = Vec::new(alloc);
    add_names(alloc, names, &mut words)?;
    add_numbers(alloc, numbers, &mut words)?;
    Ok(words)
}

/// Words of which the last has values behind it.
fn with_values(
    alloc: Global,
    mut words: Vec<Name>,
    last: Name,
    names: &[Name],
    point: &Option<Point>,
) -> Result<Vec<Name>, AllocError>
    ensures { IfOk result (λ made. made.items ≡ words.items ++ last ∷ at_point names.now point.now) }
{
    words.push(last)?;
    add_point(alloc, names, point, &mut words)?;
    Ok(words)
}

/// What is kept, said so.
fn words_by(
    alloc: Global,
    kept: Kept,
    names: &[Name],
    numbers: &[i128],
    point: &Option<Point>,
) -> Result<Vec<Name>, AllocError>
    ensures { IfOk result (λ words. words.items ≡ words_by kept names.now numbers.now point.now) }
{
    match kept {
        Kept::Listed => listed(alloc, names, numbers),
        Kept::Bytes => {
            let mut words = Vec::new(alloc);
            words.push(Name::from_str(alloc, "after")?)?;
            words.push(number_at(alloc, numbers, 0)?)?;
            words.push(Name::from_str(alloc, "bytes")?)?;
            Ok(words)
        }
        Kept::Nothing => {
            let mut words = Vec::new(alloc);
            words.push(Name::from_str(alloc, "-")?)?;
            Ok(words)
        }
        Kept::Placed => {
            let mut words = Vec::new(alloc);
            words.push(name_at(alloc, names, 0)?)?;
            words.push(Name::from_str(alloc, "place")?)?;
            words.push(number_at(alloc, numbers, 0)?)?;
            words.push(name_at(alloc, names, 1)?)?;
            Ok(words)
        }
        Kept::PlacedAt => {
            let mut words = Vec::new(alloc);
            words.push(name_at(alloc, names, 0)?)?;
            words.push(name_at(alloc, names, 1)?)?;
            words.push(Name::from_str(alloc, "place")?)?;
            words.push(number_at(alloc, numbers, 0)?)?;
            let side = ended_at(alloc, names, 2)?;
            with_values(alloc, words, side, behind(names, 3), point)
        }
        Kept::Cells => cell_words(alloc, names, point),
        Kept::TwoAt => {
            let mut words = Vec::new(alloc);
            words.push(name_at(alloc, names, 0)?)?;
            let last = ended_at(alloc, names, 1)?;
            with_values(alloc, words, last, behind(names, 2), point)
        }
        Kept::ThreeAt => {
            let mut words = Vec::new(alloc);
            words.push(name_at(alloc, names, 0)?)?;
            words.push(name_at(alloc, names, 1)?)?;
            let last = ended_at(alloc, names, 2)?;
            with_values(alloc, words, last, behind(names, 3), point)
        }
        Kept::Stage => {
            let mut words = Vec::new(alloc);
            words.push(Name::from_str(alloc, "stage")?)?;
            words.push(number_at(alloc, numbers, 0)?)?;
            Ok(words)
        }
        Kept::Row => {
            let mut words = Vec::new(alloc);
            words.push(Name::from_str(alloc, "stage")?)?;
            words.push(number_at(alloc, numbers, 0)?)?;
            words.push(Name::from_str(alloc, "row")?)?;
            words.push(number_at(alloc, numbers, 1)?)?;
            Ok(words)
        }
        Kept::Children => children(alloc, names),
        Kept::Race => race_words(alloc, names, numbers),
        Kept::Divergent => {
            let mut words = Vec::new(alloc);
            words.push(Name::from_str(alloc, "step")?)?;
            words.push(number_at(alloc, numbers, 0)?)?;
            words.push(Name::from_str(alloc, "group")?)?;
            words.push(number_at(alloc, numbers, 1)?)?;
            Ok(words)
        }
        Kept::Outside => {
            let mut words = Vec::new(alloc);
            words.push(Name::from_str(alloc, "step")?)?;
            words.push(number_at(alloc, numbers, 0)?)?;
            words.push(name_at(alloc, names, 0)?)?;
            words.push(Name::from_str(alloc, "index")?)?;
            words.push(number_at(alloc, numbers, 1)?)?;
            words.push(name_at(alloc, names, 1)?)?;
            Ok(words)
        }
    }
}

/// The words of what a refusal keeps.
pub(crate) fn kept_words(alloc: Global, refusal: &Refusal) -> Result<Vec<Name>, AllocError>
    ensures { IfOk result (λ words. words.items ≡ kept_words refusal.now) }
{
    let names = refusal.names.as_slice();
    let numbers = refusal.numbers.as_slice();
    words_by(
        alloc,
        kept_by(refusal.number),
        names,
        numbers,
        &refusal.point,
    )
}
