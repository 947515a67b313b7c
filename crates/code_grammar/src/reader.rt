//! What is left of a text, how far some text of the grammar agrees with it, and what was declared before.
ghost use Rattle.std.specs.Prelude.{◌≤◌, length};

use crate::names::{Meaning, Vars};
use affine_rows::{Listed, Name, Names};
use code_tree::{CodeArray, Flat, Target};
use std::alloc::{AllocError, Global};

/// Why reading ends.
#[derive(Clone, Copy, Debug, PartialEq, Eq)]
pub enum Stop {
    OutOfMemory,
    /// No text of the grammar goes on like this.
    Refused,
}

impl From<AllocError> for Stop {
    fn from(_: AllocError) -> Stop {
        Stop::OutOfMemory
    }
}

/// A limit of a code, in the order in which those of one line are answered.
#[derive(Clone, Copy, Debug, PartialEq, Eq)]
pub enum Limit {
    Depth,
    Number,
    Form,
}

/// A limit that a line passes.
#[derive(Clone, Copy, Debug, PartialEq, Eq)]
pub struct Passed {
    pub line: u32,
    pub limit: Limit,
}

/// A place in a text, and what stands before it.
#[derive(Drop)]
pub struct Reader<'a> {
    pub alloc: Global,
    /// What is left.
    pub rest: &'a [u8],
    /// The line, counted from 1, and its bytes before the place.
    pub line: u32,
    pub column: u32,
    /// How many bytes behind the place some text of the grammar agrees with.
    agreed: usize,
    /// The first limit that was passed.
    pub passed: Option<Passed>,
    pub target: Target,
    /// How variables are read.
    pub vars: Vars,
    /// The names of the launch line.
    pub launch: Listed<Name>,
    /// All names that are declared, which differ, and what each stands for while it may.
    pub(crate) spelled: Names,
    pub(crate) meanings: Vec<Option<Meaning>>,
    /// The names of the code, its arrays, the subscripts of its reads, and how many cells it has.
    pub names: Listed<Name>,
    pub arrays: Listed<CodeArray>,
    pub flats: Listed<Flat>,
    pub(crate) cells: u32,
}

/// How many bytes two texts have in common at their beginnings.
pub fn common(a: &[u8], b: &[u8]) -> usize
    ensures first { result ≤ length a.now }
    ensures second { result ≤ length b.now }
{
    let most = a.len().min(b.len());
    for at in 0..most {
        if a[at] != b[at] {
            return at;
        }
    }
    most
}

/// How many bytes of this sort a text begins with.
fn run_of<F: Fn(u8) -> bool>(bytes: &[u8], belongs: F) -> usize
    requires { F.IsAlwaysCallable belongs }
    ensures { result ≤ length bytes.now }
{
    for at in 0..bytes.len() {
        if !belongs(bytes[at]) {
            return at;
        }
    }
    bytes.len()
}

impl<'a> Reader<'a> {
    /// The beginning of a text.
    pub fn new(alloc: Global, bytes: &'a [u8]) -> Reader<'a> {
        Reader {
            alloc,
            rest: bytes,
            line: 1,
            column: 0,
            agreed: 0,
            passed: None,
            target: Target::C,
            vars: Vars::Launch,
            launch: Listed::new(alloc),
            spelled: Names::new(alloc),
            meanings: Vec::new(alloc),
            names: Listed::new(alloc),
            arrays: Listed::new(alloc),
            flats: Listed::new(alloc),
            cells: 0,
        }
    }

    /// Some text of the grammar agrees with so many bytes behind this place.
    pub fn agree(&mut self, count: usize) {
        self.agreed = self.agreed.max(count);
    }

    /// Counts a byte that is left behind.
    fn count(&mut self, byte: u8) {
        if byte == b'\n' {
            self.line = self.line.saturating_add(1);
            self.column = 0;
        } else {
            self.column = self.column.saturating_add(1);
        }
    }

    /// Goes past so many bytes, and not past the end of the text.
    pub fn skip(&mut self, count: usize) {
        let (taken, rest) = self.rest.split_at(count.min(self.rest.len()));
        for byte in taken {
            self.count(*byte);
        }
        self.rest = rest;
        self.agreed = self.agreed.saturating_sub(count);
    }

    /// Goes to the end of the longest beginning of the text with which some text of the grammar begins.
    pub fn skip_agreed(&mut self) {
        self.skip(self.agreed);
    }

    /// Takes the bytes, if they stand here.
    pub fn takes_bytes(&mut self, bytes: &[u8]) -> bool {
        let same = common(self.rest, bytes);
        if same < bytes.len() {
            self.agree(same);
            return false;
        }
        self.skip(same);
        true
    }

    /// Takes the text, if it stands here.
    pub fn takes(&mut self, text: &str) -> bool {
        self.takes_bytes(text.as_bytes())
    }

    /// Takes the bytes, which have to stand here.
    pub fn take_bytes(&mut self, bytes: &[u8]) -> Result<(), Stop> {
        if self.takes_bytes(bytes) {
            Ok(())
        } else {
            Err(Stop::Refused)
        }
    }

    /// Takes the text, which has to stand here.
    pub fn take(&mut self, text: &str) -> Result<(), Stop> {
        self.take_bytes(text.as_bytes())
    }

    /// The digits that stand here.
    pub fn digits(&self) -> &'a [u8] {
        let count = run_of(self.rest, |byte| byte.is_ascii_digit());
        &self.rest[..count]
    }

    /// The letters, digits and `_` that stand here.
    pub fn name_bytes(&self) -> &'a [u8] {
        let count = run_of(
            self.rest,
            |byte| byte.is_ascii_alphanumeric() || byte == b'_',
        );
        &self.rest[..count]
    }

    /// Takes all parentheses that stand here, and tells how many there are.
    pub fn take_parentheses(&mut self) -> usize {
        let count = run_of(self.rest, |byte| byte == b'(');
        self.skip(count);
        count
    }

    /// The line passes a limit.
    pub fn pass(&mut self, limit: Limit) {
        let comes_first = match self.passed {
            None => true,
            Some(first) => first.line == self.line && (limit as u8) < first.limit as u8,
        };
        if comes_first {
            self.passed = Some(Passed {
                line: self.line,
                limit,
            });
        }
    }
}
