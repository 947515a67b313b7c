//! The words of the grammar that name no kind.
ghost use Rattle.std.specs.Prelude.{◌≡◌, bytes_eq, find};
ghost use Rattle.kernel_expressions.specs.Keys.{key_text};

use kernel_grammar::Extreme;

/// A word of the grammar that names no kind.
#[derive(Clone, Copy, Debug, PartialEq, Eq)]
pub enum Key {
    Kernel,
    Domain,
    Assume,
    Input,
    Output,
    Temp,
    Sum,
    Product,
    Extreme(Extreme),
    If,
    Cast,
    And,
    Or,
    Not,
}

/// All of them.
pub const KEYS: [Key; 15] = [
    Key::Kernel,
    Key::Domain,
    Key::Assume,
    Key::Input,
    Key::Output,
    Key::Temp,
    Key::Sum,
    Key::Product,
    Key::Extreme(Extreme::Min),
    Key::Extreme(Extreme::Max),
    Key::If,
    Key::Cast,
    Key::And,
    Key::Or,
    Key::Not,
];

/// The bytes of the word.
pub fn key_text(key: Key) -> &'static str
    ensures { result.now ≡ key_text key }
{
    match key {
        Key::Kernel => "kernel",
        Key::Domain => "domain",
        Key::Assume => "assume",
        Key::Input => "input",
        Key::Output => "output",
        Key::Temp => "temp",
        Key::Sum => "sum",
        Key::Product => "product",
        Key::Extreme(Extreme::Min) => "min",
        Key::Extreme(Extreme::Max) => "max",
        Key::If => "if",
        Key::Cast => "cast",
        Key::And => "and",
        Key::Or => "or",
        Key::Not => "not",
    }
}

fn key_among(word: &[u8], keys: &[Key]) -> Option<Key>
    ensures { result ≡ find (λ key. bytes_eq word.now (key_text key)) keys.now }
{
    for key in keys {
        if word == key_text(*key).as_bytes() {
            return Some(*key);
        }
    }
    None
}

/// The one that is this word, if there is one.
pub fn key_named(word: &[u8]) -> Option<Key>
    ensures { result ≡ find (λ key. bytes_eq word.now (key_text key)) KEYS }
{
    key_among(word, &KEYS)
}
