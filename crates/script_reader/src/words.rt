//! The words behind a verb.
use crate::spelling::{
    axis_front, axis_named, common_front, is_name, is_number, name_front, number_front,
    scope_front, scope_named,
};
use affine_rows::Name;
use kernel_ir::Tag;
use std::alloc::{AllocError, Global};
use text_reader::number_of;

/// A sort of words.
#[derive(Clone, Copy, Debug, PartialEq, Eq)]
pub(crate) enum Sort {
    Name,
    Number,
    Scope,
    /// A name, a colon and an axis.
    Tagged,
    /// `outer=` and a name.
    Outer,
    /// `inner=` and a name.
    Inner,
    /// `outer_tag=` and an axis.
    OuterTag,
    /// `inner_tag=` and an axis.
    InnerTag,
    /// `as=` and a name.
    As,
}

/// A word, by its sort.
#[derive(Drop)]
pub(crate) enum Word {
    Name(Name),
    /// None stands for a number that is too large.
    Number(Option<u64>),
    /// Whether the scope is the local one.
    Scope(bool),
    Tagged(Name, Tag),
    Outer(Name),
    Inner(Name),
    OuterTag(Tag),
    InnerTag(Tag),
    As(Name),
}

/// What a word is made of behind the word of its option.
#[derive(Clone, Copy, Debug, PartialEq, Eq)]
enum Content {
    Name,
    Number,
    Scope,
    Tagged,
    Axis,
}

/// The word of an option, with its sign; nothing for the other sorts.
fn option_word(sort: Sort) -> &'static [u8] {
    match sort {
        Sort::Outer => b"outer=",
        Sort::Inner => b"inner=",
        Sort::OuterTag => b"outer_tag=",
        Sort::InnerTag => b"inner_tag=",
        Sort::As => b"as=",
        Sort::Name | Sort::Number | Sort::Scope | Sort::Tagged => b"",
    }
}

fn content_of(sort: Sort) -> Content {
    match sort {
        Sort::Name | Sort::Outer | Sort::Inner | Sort::As => Content::Name,
        Sort::Number => Content::Number,
        Sort::Scope => Content::Scope,
        Sort::Tagged => Content::Tagged,
        Sort::OuterTag | Sort::InnerTag => Content::Axis,
    }
}

/// The content of a text that begins with the word of the sort's option.
fn content_in(sort: Sort, text: &[u8]) -> Option<&[u8]> {
    let head = option_word(sort);
    let common = common_front(text, head);
    if common == head.len() {
        Some(&text[common..])
    } else {
        None
    }
}

/// The name at the front with what is behind the colon that follows it, if one follows.
fn around_colon(text: &[u8]) -> Option<(&[u8], &[u8])> {
    let count = name_front(text);
    let name = &text[..count];
    match &text[count..] {
        [b':', axis @ ..] if is_name(name) => Some((name, axis)),
        _ => None,
    }
}

/// How many bytes at the front of the text begin a name with an axis.
fn tagged_front(text: &[u8]) -> usize {
    match around_colon(text) {
        None => name_front(text),
        Some((name, axis)) => name
            .len()
            .saturating_add(1)
            .saturating_add(axis_front(axis)),
    }
}

/// How many bytes at the front of the text begin such a content.
fn content_front(content: Content, text: &[u8]) -> usize {
    match content {
        Content::Name => name_front(text),
        Content::Number => number_front(text),
        Content::Scope => scope_front(text),
        Content::Tagged => tagged_front(text),
        Content::Axis => axis_front(text),
    }
}

/// How many bytes at the front of the text begin a word of the sort.
pub(crate) fn word_front(sort: Sort, text: &[u8]) -> usize {
    let head = option_word(sort);
    match content_in(sort, text) {
        None => common_front(text, head),
        Some(behind) => head
            .len()
            .saturating_add(content_front(content_of(sort), behind)),
    }
}

/// The text as a name.
fn to_name(alloc: Global, text: &[u8]) -> Result<Name, AllocError> {
    let mut name = String::new(alloc);
    for byte in text {
        name.push(char::from(*byte))?;
    }
    Ok(Name::new(name))
}

fn name_in(alloc: Global, text: &[u8]) -> Result<Option<Name>, AllocError> {
    if is_name(text) {
        Ok(Some(to_name(alloc, text)?))
    } else {
        Ok(None)
    }
}

fn number_in(text: &[u8]) -> Option<Word> {
    if is_number(text) {
        Some(Word::Number(number_of(text)))
    } else {
        None
    }
}

fn tagged_in(alloc: Global, text: &[u8]) -> Result<Option<Word>, AllocError> {
    let Some((name, axis)) = around_colon(text) else {
        return Ok(None);
    };
    match axis_named(axis) {
        None => Ok(None),
        Some(tag) => Ok(Some(Word::Tagged(to_name(alloc, name)?, tag))),
    }
}

/// The text as a word of the sort, if it is one.
pub(crate) fn word_in(alloc: Global, sort: Sort, text: &[u8]) -> Result<Option<Word>, AllocError> {
    let Some(behind) = content_in(sort, text) else {
        return Ok(None);
    };
    match sort {
        Sort::Name => Ok(name_in(alloc, behind)?.map(Word::Name)),
        Sort::Number => Ok(number_in(behind)),
        Sort::Scope => Ok(scope_named(behind).map(Word::Scope)),
        Sort::Tagged => tagged_in(alloc, behind),
        Sort::Outer => Ok(name_in(alloc, behind)?.map(Word::Outer)),
        Sort::Inner => Ok(name_in(alloc, behind)?.map(Word::Inner)),
        Sort::OuterTag => Ok(axis_named(behind).map(Word::OuterTag)),
        Sort::InnerTag => Ok(axis_named(behind).map(Word::InnerTag)),
        Sort::As => Ok(name_in(alloc, behind)?.map(Word::As)),
    }
}
