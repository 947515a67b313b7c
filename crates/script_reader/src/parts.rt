//! What commands are made of behind their verbs.
ghost use Rattle.std.specs.Prelude.{◌≤◌, length, IfOk, IfSome};

use crate::command::Verb;
use crate::words::{Sort, Word, word_front, word_in};
use std::alloc::{AllocError, Global};

/// Words that stand at a place of a command.
#[derive(Clone, Copy, Debug, PartialEq, Eq)]
pub(crate) enum Part {
    /// One word.
    One(Sort),
    /// One word or none.
    Optional(Sort),
    /// Any count of words.
    Many(Sort),
}

const SPLIT: [Part; 6] = [
    Part::One(Sort::Name),
    Part::One(Sort::Number),
    Part::Optional(Sort::Outer),
    Part::Optional(Sort::Inner),
    Part::Optional(Sort::OuterTag),
    Part::Optional(Sort::InnerTag),
];

const JOIN: [Part; 4] = [
    Part::One(Sort::Name),
    Part::One(Sort::Name),
    Part::Many(Sort::Name),
    Part::Optional(Sort::As),
];

const TAGS: [Part; 2] = [Part::One(Sort::Tagged), Part::Many(Sort::Tagged)];

const NAMES: [Part; 2] = [Part::One(Sort::Name), Part::Many(Sort::Name)];

const NAME: [Part; 1] = [Part::One(Sort::Name)];

const BUFFER: [Part; 4] = [
    Part::One(Sort::Name),
    Part::One(Sort::Scope),
    Part::One(Sort::Name),
    Part::Many(Sort::Name),
];

/// What a command is made of behind its verb.
pub(crate) fn parts_of(verb: Verb) -> &'static [Part] {
    match verb {
        Verb::SplitIname => &SPLIT,
        Verb::JoinInames => &JOIN,
        Verb::TagInames => &TAGS,
        Verb::PrioritizeLoops => &NAMES,
        Verb::RealizeReduction | Verb::AssignmentToSubst | Verb::Keep | Verb::Back => &NAME,
        Verb::Precompute | Verb::AddPrefetch => &BUFFER,
    }
}

/// Whether no further word has to come.
pub(crate) fn may_end(parts: &[Part]) -> bool {
    parts.iter().all(|part| !matches!(part, Part::One(_)))
}

/// The first of the sorts that may come next of which the text is: the word, and how many parts stand before those that may
/// follow it.
pub(crate) fn next_word(
    alloc: Global,
    parts: &[Part],
    text: &[u8],
) -> Result<Option<(Word, usize)>, AllocError>
    ensures { IfOk result (λ next. IfSome next (λ n. n.1 ≤ length parts.now)) }
{
    for at in 0..parts.len() {
        let (sort, behind) = match parts[at] {
            Part::One(sort) | Part::Optional(sort) => (sort, at + 1),
            Part::Many(sort) => (sort, at),
        };
        if let Some(word) = word_in(alloc, sort, text)? {
            return Ok(Some((word, behind)));
        }
        if matches!(parts[at], Part::One(_)) {
            return Ok(None);
        }
    }
    Ok(None)
}

/// How many bytes at the front of the text begin a word that may come next.
pub(crate) fn next_front(parts: &[Part], text: &[u8]) -> usize {
    match parts {
        [] => 0,
        [Part::One(sort), ..] => word_front(*sort, text),
        [Part::Optional(sort) | Part::Many(sort), rest @ ..] => {
            word_front(*sort, text).max(next_front(rest, text))
        }
    }
}
