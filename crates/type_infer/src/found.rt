//! What is kept of rules.
ghost use Rattle.std.specs.Prelude.{◌≡◌};
ghost use Rattle.type_infer.specs.Tables.{fault_at};

use kind_faults::Mismatch;
use wrap_words::Kind;

/// The first fault at each kind that may be asked.
#[derive(Clone, Copy)]
pub struct KindFaults {
    pub i32: Option<Mismatch>,
    pub i64: Option<Mismatch>,
    pub u32: Option<Mismatch>,
    pub u64: Option<Mismatch>,
}

impl KindFaults {
    /// The first fault at a kind.
    pub fn at(&self, kind: Kind) -> Option<Mismatch>
        ensures { result ≡ fault_at self.now kind }
    {
        match kind {
            Kind::I32 => self.i32,
            Kind::I64 => self.i64,
            Kind::U32 => self.u32,
            Kind::U64 => self.u64,
        }
    }
}

/// The body of a rule: the kind of its first read or cast, and its first faults.
#[derive(Clone, Copy)]
pub(crate) struct RuleKinds {
    pub(crate) first: Option<Kind>,
    pub(crate) faults: KindFaults,
}
