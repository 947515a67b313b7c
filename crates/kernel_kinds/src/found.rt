//! What is kept of cells and rules.
use affine_rows::Listed;
use type_infer::KindFaults;
use wrap_words::Kind;

/// The kinds of arrays, and of temporaries as far as they get one.
#[derive(Drop)]
pub(crate) struct Cells {
    pub(crate) arrays: Listed<Kind>,
    pub(crate) temps: Listed<Option<Kind>>,
}

/// The body of a rule: the kind of its first read or cast, and its first faults where a value and where a test is wanted.
#[derive(Clone, Copy)]
pub(crate) struct Kept {
    pub(crate) first: Option<Kind>,
    pub(crate) values: KindFaults,
    pub(crate) tests: KindFaults,
}
