//! A command as it is written.
use crate::command::{Command, Verb};
use crate::words::Word;
use affine_rows::{Listed, Name};
use kernel_ir::Tag;
use std::alloc::{AllocError, Global};

/// The words of a command.
#[derive(Drop)]
pub(crate) struct Draft {
    pub(crate) line: u32,
    verb: Verb,
    names: Listed<Name>,
    tags: Listed<Tag>,
    number: Option<u64>,
    local: bool,
    outer: Name,
    inner: Name,
    joined: Name,
    outer_tag: Tag,
    inner_tag: Tag,
}

impl Draft {
    /// A verb alone.
    pub(crate) fn new(alloc: Global, line: u32, verb: Verb) -> Draft {
        Draft {
            line,
            verb,
            names: Listed::new(alloc),
            tags: Listed::new(alloc),
            number: Some(0),
            local: false,
            outer: Name::new(String::new(alloc)),
            inner: Name::new(String::new(alloc)),
            joined: Name::new(String::new(alloc)),
            outer_tag: Tag::Plain,
            inner_tag: Tag::Plain,
        }
    }

    /// One word more.
    pub(crate) fn put(&mut self, word: Word) -> Result<(), AllocError> {
        match word {
            Word::Name(name) => self.names.push(name)?,
            Word::Number(number) => self.number = number,
            Word::Scope(local) => self.local = local,
            Word::Tagged(name, tag) => {
                self.names.push(name)?;
                self.tags.push(tag)?;
            }
            Word::Outer(name) => self.outer = name,
            Word::Inner(name) => self.inner = name,
            Word::OuterTag(tag) => self.outer_tag = tag,
            Word::InnerTag(tag) => self.inner_tag = tag,
            Word::As(name) => self.joined = name,
        }
        Ok(())
    }

    /// The command, or none where its number is too large.
    pub(crate) fn command(self) -> Result<Option<Command>, AllocError> {
        let Draft {
            line,
            verb,
            names,
            mut tags,
            number,
            local,
            outer,
            inner,
            joined,
            outer_tag,
            inner_tag,
        } = self;
        let Some(number) = number else {
            return Ok(None);
        };
        let mut names = names.into_vec();
        if verb == Verb::SplitIname {
            names.push(outer)?;
            names.push(inner)?;
            tags.push(outer_tag)?;
            tags.push(inner_tag)?;
        } else if verb == Verb::JoinInames {
            names.insert(0, joined)?;
        }
        Ok(Some(Command {
            line,
            verb,
            names: Listed::from_vec(names),
            number,
            tags,
            local,
        }))
    }
}
