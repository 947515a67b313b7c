//! Commands of scripts.
use affine_rows::{Listed, Name};
use kernel_ir::Tag;

/// What a command does.
#[derive(Clone, Copy, Debug, PartialEq, Eq)]
pub enum Verb {
    SplitIname,
    JoinInames,
    TagInames,
    PrioritizeLoops,
    RealizeReduction,
    AssignmentToSubst,
    Precompute,
    AddPrefetch,
    Keep,
    Back,
}

/// A command, with the line on which it stands, counted from 1. Names and tags are in the order of the text, but that
/// `SplitIname` has the iname and the names of the outer and the inner one, with the tags of these two, and `JoinInames` the new
/// name before the joined ones. A name that is not given is empty, and a tag that is not given is `Plain`. `number` is the
/// factor of `SplitIname` and else 0, and `local` holds where the scope is `local`.
#[derive(Drop)]
pub struct Command {
    pub line: u32,
    pub verb: Verb,
    pub names: Listed<Name>,
    pub number: u64,
    pub tags: Listed<Tag>,
    pub local: bool,
}
