//! The word that a refusal keeps.
ghost use Rattle.std.specs.Prelude.{◌≡◌, true, not, drop, length, find, IfOk};
ghost use Rattle.std.specs.Char.{is_ascii_digit};
ghost use Rattle.std.specs.List.{list_all, slice_split};
ghost use Rattle.std.specs.Option.{option_map};
ghost use Rattle.first_form.specs.Names.{is_word_byte};
ghost use Rattle.first_form.specs.Refused.{first_line, is_shown, past_digits, shown_word};

use crate::scan::{Class, is_of, run};
use crate::words::is_shown;
use affine_rows::Name;
use std::alloc::{AllocError, Global};

/// The word as a name.
pub fn name_of(alloc: Global, word: &[u8]) -> Result<Name, AllocError>
    requires { list_all is_word_byte word.now ≡ true }
    ensures { IfOk result (λ name. name ≡ word.now) }
{
    Name::from_str(alloc, std::str::from_utf8(word).unwrap())
}

fn past_digits(word: &[u8]) -> &[u8]
    ensures { result.now ≡ past_digits word.now }
{
    run(word, Class::Digit).1
}

/// The first run of letters, digits and `_` that has a name or a reserved word after its digits.
fn first_shown(line: &[u8]) -> Option<&[u8]>
    ensures { option_map (λ part. part.now) result ≡ find (λ part. is_shown (past_digits part)) (slice_split (λ c. not (is_word_byte c)) line.now) }
{
    line.split(|byte| !is_of(Class::Word, *byte))
        .find(|part| is_shown(past_digits(*part)))
}

/// The first name or reserved word in the first line of the rest, or `-`.
pub fn shown_word(alloc: Global, rest: &[u8]) -> Result<Name, AllocError>
    ensures { IfOk result (λ word. word ≡ shown_word (first_line rest.now)) }
{
    let (line, _) = run(rest, Class::Line);
    match first_shown(line) {
        Some(part) => name_of(alloc, past_digits(part)),
        None => Name::from_str(alloc, "-"),
    }
}
