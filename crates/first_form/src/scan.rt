//! What stands at the front of bytes.
ghost use Rattle.std.specs.Prelude.{◌≡◌, ◌≢◌, ℕ, ◌<◌, ◌^◌, true, List, ◌++◌, length, map, MatchOption};
ghost use Rattle.std.specs.Char.{is_ascii_digit};
ghost use Rattle.std.specs.Fmt.{decimal};
ghost use Rattle.std.specs.List.{concat, list_all, take_while};
ghost use Rattle.first_form.specs.Scans.{is_of, IsFactorAt, IsNameAfter, IsRun};
ghost use Rattle.first_form.specs.Names.{is_word_byte, begins_word};

use crate::words::is_name;

/// The largest factor.
const MAX_FACTOR: u32 = 1_048_576;

/// A class of bytes: letters, digits and `_`; digits; all but the line feed.
#[derive(Clone, Copy, Debug, PartialEq, Eq)]
pub enum Class {
    Word,
    Digit,
    Line,
}

/// Whether the byte is a letter or `_`.
pub fn begins_word(byte: u8) -> bool
    ensures { result ≡ begins_word byte }
{
    byte.is_ascii_alphabetic() || byte == b'_'
}

/// Whether the byte is of the class.
pub fn is_of(class: Class, byte: u8) -> bool
    ensures { result ≡ is_of class byte }
{
    match class {
        Class::Word => begins_word(byte) || byte.is_ascii_digit(),
        Class::Digit => byte.is_ascii_digit(),
        Class::Line => byte != b'\n',
    }
}

/// Whether the bytes are all of the class.
pub fn all_of(bytes: &[u8], class: Class) -> bool
    ensures { result ≡ list_all (is_of class) bytes.now }
{
    bytes.iter().all(|byte| is_of(class, *byte))
}

fn run_length(bytes: &[u8], class: Class) -> usize
    ensures { result ≡ length (take_while (is_of class) bytes.now) }
{
    bytes.iter().take_while(|byte| is_of(class, **byte)).count()
}

/// The longest front of the class, and the rest.
pub fn run(bytes: &[u8], class: Class) -> (&[u8], &[u8])
    ensures { IsRun (is_of class) bytes.now result.0.now result.1.now }
{
    bytes.split_at(run_length(bytes, class))
}

/// What follows the text.
fn strip<'a>(bytes: &'a [u8], text: &[u8]) -> Option<&'a [u8]>
    ensures { MatchOption result ((rest : List ℕ) → bytes.now ≢ text.now ++ rest) (λ rest. bytes.now ≡ text.now ++ rest.now) }
{
    bytes.strip_prefix(text)
}

/// What follows the texts, one after the other.
pub fn after<'a>(bytes: &'a [u8], texts: &[&[u8]]) -> Option<&'a [u8]>
    ensures { let text = concat (map (λ t. t.now) texts.now) in MatchOption result ((rest : List ℕ) → bytes.now ≢ text ++ rest) (λ rest. bytes.now ≡ text ++ rest.now) }
{
    let mut rest = bytes;
    for text in texts {
        rest = strip(rest, *text)?;
    }
    Some(rest)
}

/// The name that follows the texts, and the rest.
pub fn name_after<'a>(bytes: &'a [u8], texts: &[&[u8]]) -> Option<(&'a [u8], &'a [u8])>
    ensures { let text = concat (map (λ t. t.now) texts.now) in MatchOption result ((name rest : List ℕ) → ¬ (IsNameAfter text bytes.now name rest)) (λ found. IsNameAfter text bytes.now found.0.now found.1.now) }
{
    let rest = after(bytes, texts)?;
    let (name, rest) = run(rest, Class::Word);
    if is_name(name) {
        Some((name, rest))
    } else {
        None
    }
}

/// The number that the digits write, if it has no leading zero and fits.
fn number(digits: &[u8]) -> Option<u32>
    requires { list_all is_ascii_digit digits.now ≡ true }
    ensures { MatchOption result ((n : ℕ) → n < 2 ^ 32 → digits.now ≢ decimal n) (λ n. digits.now ≡ decimal n) }
{
    if digits.len() > 1 && digits[0] == b'0' {
        return None;
    }
    std::str::from_utf8(digits).ok()?.parse().ok()
}

/// The factor at the front, and the rest.
pub fn factor_at(bytes: &[u8]) -> Option<(u32, &[u8])>
    ensures { MatchOption result ((factor : ℕ) (rest : List ℕ) → ¬ (IsFactorAt bytes.now factor rest)) (λ found. IsFactorAt bytes.now found.0 found.1.now) }
{
    let (digits, rest) = run(bytes, Class::Digit);
    let factor = number(digits)?;
    if factor <= MAX_FACTOR {
        Some((factor, rest))
    } else {
        None
    }
}
