//! The names of rules, and how what they keep is said.
ghost use Rattle.std.specs.Prelude.{◌≡◌};
ghost use Rattle.refusal_lines.specs.Kept.{kept_by};
ghost use Rattle.refusal_lines.specs.Rules.{entry_of, rule_name, first_names, second_names, third_names, fourth_names, last_names};

/// How the line of a refusal says what its rule keeps.
#[derive(Clone, Copy, Debug, PartialEq, Eq)]
pub(crate) enum Kept {
    /// Names, then numbers.
    Listed,
    /// `after B bytes`.
    Bytes,
    /// `-`.
    Nothing,
    /// A name, `place P` and a side.
    Placed,
    /// An instruction, an array, `place P`, a side and values.
    PlacedAt,
    /// Two accesses, a case and values.
    Cells,
    /// Two names and values.
    TwoAt,
    /// Three names and values.
    ThreeAt,
    /// `stage S`.
    Stage,
    /// `stage S row R`.
    Row,
    /// Names with commas between them.
    Children,
    /// A step, a cell and two items.
    Race,
    /// A step and a group.
    Divergent,
    /// A step, a name, an index and why it is at fault.
    Outside,
}

/// The names of rules from 1 on.
const FIRST_NAMES: [&str; 10] = [
    "Unknown",
    "Taken",
    "Limit",
    "Syntax",
    "FormNotBuilt",
    "NotAffine",
    "RuleCycle",
    "Arity",
    "TypeMismatch",
    "TypeUnknown",
];

/// The names of rules from 11 on.
const SECOND_NAMES: [&str; 10] = [
    "NoBlock",
    "DepCycle",
    "TempCell",
    "OutOfBounds",
    "Conflict",
    "IndexRange",
    "Unbounded",
    "TooWide",
    "TooManyRows",
    "Factor",
];

/// The names of rules from 21 on.
const THIRD_NAMES: [&str; 10] = [
    "Tagged",
    "NotConstantExtent",
    "AxisTaken",
    "NegativeAxis",
    "NotOneWriter",
    "NotInvertible",
    "WriterNotBefore",
    "Footprint",
    "UsesDiffer",
    "UnderReduction",
];

/// The names of rules from 31 on.
const FOURTH_NAMES: [&str; 10] = [
    "LocalTooLarge",
    "NotNested",
    "NestCycle",
    "BoundTooWide",
    "TempCrossesItems",
    "GroupTooLarge",
    "RaceNotExcluded",
    "TargetHasNoAxes",
    "TooManySteps",
    "BadArguments",
];

/// The names of rules from 41 on.
const LAST_NAMES: [&str; 3] = ["Race", "Divergent", "Outside"];

fn first_name(number: u8) -> &'static str
    ensures { result.now ≡ entry_of first_names number }
{
    if number == 0 {
        return "";
    }
    match FIRST_NAMES.get(number as usize - 1) {
        Some(name) => name,
        None => "",
    }
}

fn second_name(number: u8) -> &'static str
    ensures { result.now ≡ entry_of second_names number }
{
    if number == 0 {
        return "";
    }
    match SECOND_NAMES.get(number as usize - 1) {
        Some(name) => name,
        None => "",
    }
}

fn third_name(number: u8) -> &'static str
    ensures { result.now ≡ entry_of third_names number }
{
    if number == 0 {
        return "";
    }
    match THIRD_NAMES.get(number as usize - 1) {
        Some(name) => name,
        None => "",
    }
}

fn fourth_name(number: u8) -> &'static str
    ensures { result.now ≡ entry_of fourth_names number }
{
    if number == 0 {
        return "";
    }
    match FOURTH_NAMES.get(number as usize - 1) {
        Some(name) => name,
        None => "",
    }
}

fn last_name(number: u8) -> &'static str
    ensures { result.now ≡ entry_of last_names number }
{
    if number == 0 {
        return "";
    }
    match LAST_NAMES.get(number as usize - 1) {
        Some(name) => name,
        None => "",
    }
}

/// The name of the rule of this number, or nothing.
pub(crate) fn name_of_rule(number: u8) -> &'static str
    ensures { result.now ≡ rule_name number }
{
    if number <= 10 {
        first_name(number)
    } else if number <= 20 {
        second_name(number - 10)
    } else if number <= 30 {
        third_name(number - 20)
    } else if number <= 40 {
        fourth_name(number - 30)
    } else {
        last_name(number - 40)
    }
}

/// How what the rule of this number keeps is said.
pub(crate) fn kept_by(number: u8) -> Kept
    ensures { result ≡ kept_by number }
{
    if number == 4 {
        Kept::Bytes
    } else if number == 11 {
        Kept::Nothing
    } else if number == 14 {
        Kept::PlacedAt
    } else if number == 15 || number == 27 || number == 37 {
        Kept::Cells
    } else if number == 16 {
        Kept::ThreeAt
    } else if number == 18 {
        Kept::Row
    } else if number == 19 {
        Kept::Stage
    } else if number == 24 {
        Kept::TwoAt
    } else if number == 28 {
        Kept::Placed
    } else if number == 33 {
        Kept::Children
    } else if number == 41 {
        Kept::Race
    } else if number == 42 {
        Kept::Divergent
    } else if number == 43 {
        Kept::Outside
    } else {
        Kept::Listed
    }
}
