//! The signs of each form.
ghost use Rattle.std.specs.Prelude.{◌≡◌};
ghost use Rattle.text_reader.specs.declared.form.Form.TheVariants.{Kernel, Fortran};
ghost use Rattle.text_reader.specs.Signs.{begins_pair, is_pair, is_single};

use crate::form::Form;

/// Whether the byte is a sign of kernel files.
fn is_kernel_single(byte: u8) -> bool
    ensures { result ≡ is_single Kernel byte }
{
    matches!(
        byte,
        b'[' | b']'
            | b'{'
            | b'}'
            | b'('
            | b')'
            | b','
            | b':'
            | b'='
            | b'<'
            | b'>'
            | b'+'
            | b'-'
            | b'*'
            | b'%'
            | b'|'
            | b'^'
            | b'&'
            | b'~'
    )
}

/// Whether the byte is a sign of Fortran blocks.
fn is_fortran_single(byte: u8) -> bool
    ensures { result ≡ is_single Fortran byte }
{
    matches!(
        byte,
        b'(' | b')' | b',' | b'=' | b'<' | b'>' | b'+' | b'-' | b'*'
    )
}

/// Whether the byte is a sign.
pub fn is_single(form: Form, byte: u8) -> bool
    ensures { result ≡ is_single form byte }
{
    match form {
        Form::Kernel => is_kernel_single(byte),
        Form::Fortran => is_fortran_single(byte),
        Form::Words => false,
    }
}

/// Whether the two bytes are a sign.
pub fn is_pair(form: Form, first: u8, second: u8) -> bool
    ensures { result ≡ is_pair form first second }
{
    match form {
        Form::Kernel => matches!(
            (first, second),
            (b':' | b'=' | b'+' | b'*' | b'<' | b'>' | b'!', b'=')
                | (b'-' | b'>', b'>')
                | (b'<', b'<')
                | (b'/', b'/')
        ),
        Form::Fortran => matches!(
            (first, second),
            (b'=' | b'<' | b'>' | b'/', b'=') | (b':', b':')
        ),
        Form::Words => false,
    }
}

/// Whether a sign of two bytes begins with the byte.
pub fn begins_pair(form: Form, byte: u8) -> bool
    ensures { result ≡ begins_pair form byte }
{
    match form {
        Form::Kernel => matches!(
            byte,
            b':' | b'=' | b'+' | b'*' | b'<' | b'>' | b'!' | b'-' | b'/'
        ),
        Form::Fortran => matches!(byte, b'=' | b'<' | b'>' | b'/' | b':'),
        Form::Words => false,
    }
}
