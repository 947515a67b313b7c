//! The lines that arguments have for names.
use affine_rows::{Name, Names};
use run_words::Args;
use std::alloc::{AllocError, Global};
use wrap_words::Kind;

/// The line of a name: none, one number, or other numbers.
#[derive(Clone, Copy)]
pub enum ArgLine<'a> {
    Nothing,
    One(i64),
    Many(&'a [i128]),
}

/// The names of the lines: those of one number, then the others, each in their order.
pub fn line_names(alloc: Global, args: &Args) -> Result<Names, AllocError> {
    let mut names = Names::new(alloc);
    for entry in args.params.as_slice() {
        names.insert(entry.0.copy(alloc)?)?;
    }
    for entry in args.lists.as_slice() {
        names.insert(entry.0.copy(alloc)?)?;
    }
    Ok(names)
}

/// The line of a name, where `names` are the names of the lines.
pub fn line_of<'a>(args: &'a Args, names: &Names, name: &Name) -> ArgLine<'a> {
    let Some(at) = names.position(name) else {
        return ArgLine::Nothing;
    };
    if let Some(entry) = args.params.get(at) {
        return ArgLine::One(entry.1);
    }
    match args.lists.get(at.saturating_sub(args.params.len())) {
        Some(entry) => ArgLine::Many(entry.1.as_slice()),
        None => ArgLine::Nothing,
    }
}

/// Whether a word of the kind stands for the number.
fn is_of_kind(kind: Kind, number: i128) -> bool {
    match kind {
        Kind::I32 => i128::from(i32::MIN) <= number && number <= i128::from(i32::MAX),
        Kind::I64 => i128::from(i64::MIN) <= number && number <= i128::from(i64::MAX),
        Kind::U32 => 0 <= number && number <= i128::from(u32::MAX),
        Kind::U64 => 0 <= number && number <= i128::from(u64::MAX),
    }
}

fn all_of_kind(kind: Kind, numbers: &[i128]) -> bool {
    for number in numbers {
        if !is_of_kind(kind, *number) {
            return false;
        }
    }
    true
}

impl ArgLine<'_> {
    /// The number of a parameter: the only one, from -2^31 to 2^31-1.
    pub fn param(self) -> Option<i64> {
        match self {
            ArgLine::One(number) if is_of_kind(Kind::I32, i128::from(number)) => Some(number),
            _ => None,
        }
    }

    /// Whether there is a line, of numbers of the kind.
    pub fn is_list(self, kind: Kind) -> bool {
        match self {
            ArgLine::Nothing => false,
            ArgLine::One(number) => is_of_kind(kind, i128::from(number)),
            ArgLine::Many(numbers) => all_of_kind(kind, numbers),
        }
    }

    /// How many numbers there are.
    pub fn count(self) -> usize {
        match self {
            ArgLine::Nothing => 0,
            ArgLine::One(_) => 1,
            ArgLine::Many(numbers) => numbers.len(),
        }
    }

    /// The number at a place, and 0 where there is none.
    pub fn at(self, place: usize) -> i128 {
        match self {
            ArgLine::Nothing => 0,
            ArgLine::One(number) => i128::from(number),
            ArgLine::Many(numbers) => match numbers.get(place) {
                Some(number) => *number,
                None => 0,
            },
        }
    }
}
