//! Texts and numbers at the end of the bytes that stand already.
ghost use Rattle.std.specs.Prelude.{◌≡◌, ◌++◌, ◌+ℤ◌, ◌<ℤ◌, pos, OnOk};
ghost use Rattle.std.specs.Fmt.{decimal};
ghost use Rattle.text_writer.specs.Bytes.{gap_text, repeated};
ghost use Rattle.text_writer.specs.NumberText.{number_text, sign_text, factor_text, constant_text};

use std::alloc::AllocError;

/// Adds a text.
pub fn put(out: &mut Vec<u8>, text: &str) -> Result<(), AllocError>
    ensures { OnOk result (out.new.items ≡ out.old.items ++ text.now) }
{
    out.extend_from_slice(text.as_bytes())
}

/// Adds a text so many times.
#[tactic(auto, using(crate::proofs::Lists::repeated_step))]
pub fn put_repeated(out: &mut Vec<u8>, text: &str, count: usize) -> Result<(), AllocError>
    ensures { OnOk result (out.new.items ≡ out.old.items ++ repeated text.now count) }
{
    for _ in 0..count {
        put(out, text)?;
    }
    Ok(())
}

/// Adds the gap before an entry of a list that is not the first.
pub fn put_gap(out: &mut Vec<u8>, first: bool, gap: &str) -> Result<(), AllocError>
    ensures { OnOk result (out.new.items ≡ out.old.items ++ gap_text first gap.now) }
{
    if first { Ok(()) } else { put(out, gap) }
}

/// Adds a number in decimal digits.
#[tactic(auto, using(crate::proofs::Digits::digit_rules))]
pub fn put_digits(out: &mut Vec<u8>, number: u64) -> Result<(), AllocError>
    ensures { OnOk result (out.new.items ≡ out.old.items ++ decimal number) }
{
    if number >= 10 {
        put_digits(out, number / 10)?;
    }
    out.push(b'0' + (number % 10) as u8)?;
    Ok(())
}

/// Adds the sign before a part of a sum.
pub fn put_sign(out: &mut Vec<u8>, first: bool, number: i64) -> Result<(), AllocError>
    ensures { OnOk result (out.new.items ≡ out.old.items ++ sign_text first number) }
{
    let negative = number < 0;
    match (first, negative) {
        (true, true) => put(out, "-"),
        (true, false) => Ok(()),
        (false, true) => put(out, " - "),
        (false, false) => put(out, " + "),
    }
}

/// Adds a number.
pub fn put_number(out: &mut Vec<u8>, number: i64) -> Result<(), AllocError>
    ensures { OnOk result (out.new.items ≡ out.old.items ++ number_text number) }
{
    put_sign(out, true, number)?;
    put_digits(out, number.unsigned_abs())
}

/// The number after a negative one.
fn after_negative(number: i64) -> i64
    requires { number <ℤ pos 0 }
    ensures { result ≡ number +ℤ pos 1 }
{
    number + 1
}

/// Adds the number after a number.
#[tactic(auto, using(crate::proofs::Digits::next_text))]
pub fn put_next(out: &mut Vec<u8>, number: i64) -> Result<(), AllocError>
    ensures { OnOk result (out.new.items ≡ out.old.items ++ number_text (number +ℤ pos 1)) }
{
    if number < 0 {
        return put_number(out, after_negative(number));
    }
    put_digits(out, number.unsigned_abs() + 1)
}

/// Adds a factor, unless it is 1.
pub fn put_factor(out: &mut Vec<u8>, factor: u64) -> Result<(), AllocError>
    ensures { OnOk result (out.new.items ≡ out.old.items ++ factor_text factor) }
{
    if factor == 1 {
        return Ok(());
    }
    put_digits(out, factor)?;
    put(out, "*")
}

/// Adds the constant of a sum.
pub fn put_constant(out: &mut Vec<u8>, first: bool, number: i64) -> Result<(), AllocError>
    ensures { OnOk result (out.new.items ≡ out.old.items ++ constant_text first number) }
{
    if !first && number == 0 {
        return Ok(());
    }
    put_sign(out, first, number)?;
    put_digits(out, number.unsigned_abs())
}
