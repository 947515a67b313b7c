//! Sets of kinds, and what is spelled by a kind.
use crate::reader::{Reader, Stop};
use code_text::{suffix, type_name};
use expr_tree::Op;
use wrap_words::Kind;

/// The kinds, in the order in which they are tried.
const KINDS: [Kind; 4] = [Kind::I32, Kind::I64, Kind::U32, Kind::U64];

/// A set of kinds.
#[derive(Clone, Copy, Debug, PartialEq, Eq)]
pub struct Kinds {
    i32s: bool,
    i64s: bool,
    u32s: bool,
    u64s: bool,
}

impl Kinds {
    /// All kinds, or none.
    fn each(belongs: bool) -> Kinds {
        Kinds {
            i32s: belongs,
            i64s: belongs,
            u32s: belongs,
            u64s: belongs,
        }
    }

    /// All kinds.
    pub fn all() -> Kinds {
        Kinds::each(true)
    }

    /// No kind.
    pub fn none() -> Kinds {
        Kinds::each(false)
    }

    /// One kind alone.
    pub fn only(kind: Kind) -> Kinds {
        Kinds {
            i32s: kind == Kind::I32,
            i64s: kind == Kind::I64,
            u32s: kind == Kind::U32,
            u64s: kind == Kind::U64,
        }
    }

    pub fn has(self, kind: Kind) -> bool {
        self.and(Kinds::only(kind)) != Kinds::none()
    }

    /// The kinds of one set or the other.
    pub fn or(self, other: Kinds) -> Kinds {
        Kinds {
            i32s: self.i32s || other.i32s,
            i64s: self.i64s || other.i64s,
            u32s: self.u32s || other.u32s,
            u64s: self.u64s || other.u64s,
        }
    }

    /// The kinds of both sets.
    pub fn and(self, other: Kinds) -> Kinds {
        Kinds {
            i32s: self.i32s && other.i32s,
            i64s: self.i64s && other.i64s,
            u32s: self.u32s && other.u32s,
            u64s: self.u64s && other.u64s,
        }
    }
}

/// Takes the type of one of these kinds, if it stands here.
fn takes_type(reader: &mut Reader, kinds: Kinds) -> Option<Kind> {
    for kind in KINDS {
        if kinds.has(kind) && reader.takes(type_name(reader.target, kind)) {
            return Some(kind);
        }
    }
    None
}

/// Takes the type of a kind.
pub fn take_type(reader: &mut Reader) -> Result<Kind, Stop> {
    takes_type(reader, Kinds::all()).ok_or(Stop::Refused)
}

/// Takes the type of one of these kinds and the parenthesis behind it, if the type stands here.
pub fn takes_conversion(reader: &mut Reader, kinds: Kinds) -> Result<Option<Kind>, Stop> {
    let kind = takes_type(reader, kinds);
    if kind.is_some() {
        reader.take(")")?;
    }
    Ok(kind)
}

/// Takes the call of the least or the greatest of two values of one of these kinds, if it stands here.
pub fn takes_choice(reader: &mut Reader, kinds: Kinds) -> Result<Option<(Op, Kind)>, Stop> {
    let op = if reader.takes("lp_min_") {
        Op::Min
    } else if reader.takes("lp_max_") {
        Op::Max
    } else {
        return Ok(None);
    };
    for kind in KINDS {
        if kinds.has(kind) && reader.takes(suffix(kind)) {
            reader.take("(")?;
            return Ok(Some((op, kind)));
        }
    }
    Err(Stop::Refused)
}
