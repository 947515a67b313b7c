//! How verbs, axes, scopes, names and numbers are spelled.
ghost use Rattle.std.specs.Prelude.{◌≤◌, length};

use crate::command::Verb;
use kernel_grammar::is_reserved;
use kernel_ir::Tag;

const VERBS: [(&[u8], Verb); 10] = [
    (b"split_iname", Verb::SplitIname),
    (b"join_inames", Verb::JoinInames),
    (b"tag_inames", Verb::TagInames),
    (b"prioritize_loops", Verb::PrioritizeLoops),
    (b"realize_reduction", Verb::RealizeReduction),
    (b"assignment_to_subst", Verb::AssignmentToSubst),
    (b"precompute", Verb::Precompute),
    (b"add_prefetch", Verb::AddPrefetch),
    (b"keep", Verb::Keep),
    (b"back", Verb::Back),
];

const AXES: [(&[u8], Tag); 6] = [
    (b"g.0", Tag::Group(0)),
    (b"g.1", Tag::Group(1)),
    (b"g.2", Tag::Group(2)),
    (b"l.0", Tag::Local(0)),
    (b"l.1", Tag::Local(1)),
    (b"l.2", Tag::Local(2)),
];

/// The scopes, with whether each is the local one.
const SCOPES: [(&[u8], bool); 2] = [(b"local", true), (b"private", false)];

/// The verb that the text is, if it is one.
pub(crate) fn verb_named(text: &[u8]) -> Option<Verb> {
    named(&VERBS, text)
}

/// The axis that the text is, if it is one.
pub(crate) fn axis_named(text: &[u8]) -> Option<Tag> {
    named(&AXES, text)
}

/// Whether the text is the local scope, if it is a scope.
pub(crate) fn scope_named(text: &[u8]) -> Option<bool> {
    named(&SCOPES, text)
}

/// What the text stands for in a table, if it stands there.
fn named<T: Copy>(table: &[(&[u8], T)], text: &[u8]) -> Option<T> {
    for (word, meaning) in table {
        if text == *word {
            return Some(*meaning);
        }
    }
    None
}

/// How many bytes at the front of the text begin a verb.
pub(crate) fn verb_front(text: &[u8]) -> usize {
    table_front(&VERBS, text)
}

/// How many bytes at the front of the text begin an axis.
pub(crate) fn axis_front(text: &[u8]) -> usize {
    table_front(&AXES, text)
}

/// How many bytes at the front of the text begin a scope.
pub(crate) fn scope_front(text: &[u8]) -> usize {
    table_front(&SCOPES, text)
}

/// How many bytes at the front of the text begin a word of the table.
fn table_front<T>(table: &[(&[u8], T)], text: &[u8]) -> usize {
    let mut longest = 0;
    for (word, _) in table {
        longest = longest.max(common_front(text, word));
    }
    longest
}

/// How many bytes two texts have in common at their fronts.
pub(crate) fn common_front(left: &[u8], right: &[u8]) -> usize
    ensures left { result ≤ length left.now }
    ensures right { result ≤ length right.now }
{
    match (left, right) {
        ([a, left @ ..], [b, right @ ..]) => {
            if a == b {
                common_front(left, right) + 1
            } else {
                0
            }
        }
        _ => 0,
    }
}

fn is_letter(byte: u8) -> bool {
    byte.is_ascii_alphabetic() || byte == b'_'
}

/// How many bytes at the front are letters, digits or `_`.
fn word_bytes(text: &[u8]) -> usize
    ensures { result ≤ length text.now }
{
    for at in 0..text.len() {
        if !is_letter(text[at]) && !text[at].is_ascii_digit() {
            return at;
        }
    }
    text.len()
}

/// How many bytes at the front of the text begin a name, which does not begin with `lp_`.
pub(crate) fn name_front(text: &[u8]) -> usize
    ensures { result ≤ length text.now }
{
    match text {
        [b'l', b'p', b'_', ..] => 2,
        [first, ..] if is_letter(*first) => word_bytes(text),
        _ => 0,
    }
}

/// Whether the text is a name.
pub(crate) fn is_name(text: &[u8]) -> bool {
    !text.is_empty() && name_front(text) == text.len() && !is_reserved(text)
}

/// How many bytes at the front of the text are digits.
pub(crate) fn number_front(text: &[u8]) -> usize
    ensures { result ≤ length text.now }
{
    for at in 0..text.len() {
        if !text[at].is_ascii_digit() {
            return at;
        }
    }
    text.len()
}

/// Whether the text is a number.
pub(crate) fn is_number(text: &[u8]) -> bool {
    !text.is_empty() && number_front(text) == text.len()
}
