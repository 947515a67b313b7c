//! What is wrong in a line with the names that it declares.
ghost use Rattle.std.specs.Prelude.{◌≡◌, IfOk};
ghost use Rattle.kernel_names.specs.Lines.{no_faults, first_faults, limit_with};

use affine_rows::Name;

/// A limit that a line passes.
#[derive(Clone, Copy, Debug, PartialEq, Eq)]
pub enum Limit {
    /// More than 16 parameters of the kernel.
    Parameters,
    /// More than 65,536 names.
    Names,
    /// More than 8 places of an array or a temporary.
    Places,
    /// A number past 2^64 - 1.
    Wide,
    /// A number past 1,048,576 in an index position.
    Number,
    /// More than 4,096 cells of a temporary.
    Cells,
    /// An expression or a test deeper than 64.
    Depth,
    /// An index form past its limits.
    Form,
    /// More than 16 inames of an instruction, those of its reductions included.
    Inames,
    /// More than 64 instructions, each of their reductions counting two more.
    Instructions,
}

/// What is wrong in a line, by the rule that refuses it, in the order in which the rules are asked: the first limit that is
/// passed, the first name that stands for nothing or another thing, the first name that is taken, and what is no index
/// expression first, in the order of the text each.
#[derive(Drop)]
pub struct LineFaults {
    pub limit: Option<Limit>,
    pub unknown: Option<Name>,
    pub taken: Option<Name>,
    pub shape: Option<Name>,
}

impl LineFaults {
    /// Nothing is wrong.
    pub fn none() -> LineFaults
        ensures { result ≡ no_faults }
    {
        LineFaults {
            limit: None,
            unknown: None,
            taken: None,
            shape: None,
        }
    }

    /// The first of each.
    pub fn or(self, behind: LineFaults) -> LineFaults
        ensures { result ≡ first_faults self behind }
    {
        LineFaults {
            limit: self.limit.or(behind.limit),
            unknown: self.unknown.or(behind.unknown),
            taken: self.taken.or(behind.taken),
            shape: self.shape.or(behind.shape),
        }
    }
}

/// The limit that so many parameters and names pass.
pub(crate) fn limit_with(parameters: u32, names: u32) -> Option<Limit>
    ensures { result ≡ limit_with parameters names }
{
    if parameters > 16 {
        Some(Limit::Parameters)
    } else if names > 65_536 {
        Some(Limit::Names)
    } else {
        None
    }
}
