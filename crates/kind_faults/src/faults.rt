//! Places where another kind stands than is asked.
ghost use Rattle.std.specs.Prelude.{◌≡◌, nat_lt};
ghost use Rattle.wrap_words.specs.Words.{modulus_of, width_of};
ghost use Rattle.expr_tree.specs.Value.{is_unsigned};
ghost use Rattle.kind_faults.specs.Faults.{kind_fault, misplaced, read_fault, unless};

use wrap_words::Kind;

/// A fault of kinds: the kind that is asked, and the kind of the read or cast that stands there, if one does.
#[derive(Clone, Copy, Debug, PartialEq, Eq)]
pub struct Mismatch {
    pub wanted: Kind,
    pub found: Option<Kind>,
}

/// The fault of something that is no read and no cast and stands where another thing is wanted.
pub fn misplaced(wanted: Kind) -> Option<Mismatch>
    ensures { result ≡ misplaced wanted }
{
    Some(Mismatch {
        wanted,
        found: None,
    })
}

/// That fault, unless all is fine.
pub fn unless(fine: bool, wanted: Kind) -> Option<Mismatch>
    ensures { result ≡ unless fine wanted }
{
    if fine { None } else { misplaced(wanted) }
}

/// The fault of a read or cast of one kind where another one is asked.
pub fn kind_fault(found: Kind, wanted: Kind) -> Option<Mismatch>
    ensures { result ≡ kind_fault found wanted }
{
    if found == wanted {
        None
    } else {
        Some(Mismatch {
            wanted,
            found: Some(found),
        })
    }
}

/// The fault of a read of a cell, which has none where the cell has no kind.
pub fn read_fault(found: Option<Kind>, wanted: Kind) -> Option<Mismatch>
    ensures { result ≡ read_fault found wanted }
{
    match found {
        Some(found) => kind_fault(found, wanted),
        None => None,
    }
}

/// Whether a literal is at most the greatest number of the kind's width, read without a sign.
pub fn fits(number: u64, kind: Kind) -> bool
    ensures { result ≡ nat_lt number (modulus_of kind) }
{
    match kind {
        Kind::I32 | Kind::U32 => number < 4_294_967_296,
        Kind::I64 | Kind::U64 => true,
    }
}

/// Whether a word of the kind may be shifted by so many bits, which are fewer than its width.
pub fn may_shift(by: u64, kind: Kind) -> bool
    ensures { result ≡ nat_lt by (width_of kind) }
{
    match kind {
        Kind::I32 | Kind::U32 => by < 32,
        Kind::I64 | Kind::U64 => by < 64,
    }
}

/// Whether the kind has no negative numbers.
pub fn is_unsigned(kind: Kind) -> bool
    ensures { result ≡ is_unsigned kind }
{
    match kind {
        Kind::I32 | Kind::I64 => false,
        Kind::U32 | Kind::U64 => true,
    }
}
