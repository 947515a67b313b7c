ghost use Rattle.std.specs.Prelude.{◌<◌, length};

use std::alloc::Global;
use std::test::Fail;
use text_reader::{Class, Form, TextFault, number_of, scan, tokens};

fn letter(class: Class) -> char {
    match class {
        Class::Word => 'w',
        Class::Number => 'n',
        Class::Sign => 's',
        Class::LineEnd => 'e',
    }
}

// Each token as its line, its class and its places, or the fault.
fn told(alloc: Global, text: &[u8], form: Form) -> Result<String, Fail>
    requires { length text.now < 1000 }
{
    let mut told = String::new(alloc);
    match tokens(alloc, text, form) {
        Ok(list) => {
            for token in &list {
                let (line, class) = (token.line, letter(token.class));
                let (from, to) = (token.from, token.to);
                let one = format!(in alloc; "{line}{class}{from}-{to} ")?;
                told.push_str(one.as_str())?;
            }
        }
        Err(TextFault::Syntax { line, bytes }) => {
            let one = format!(in alloc; "syntax {line} {bytes}")?;
            told.push_str(one.as_str())?;
        }
        Err(TextFault::Limit { line }) => {
            let one = format!(in alloc; "limit {line}")?;
            told.push_str(one.as_str())?;
        }
        Err(TextFault::OutOfMemory) => told.push_str("no memory")?,
    }
    Ok(told)
}

const KERNEL: [(&[u8], &str); 15] = [
    (b"", ""),
    (b"a\r\nb", "1w0-1 1e2-3 2w3-4 2e4-4 "),
    (
        b"a[i] = 2*n # c",
        "1w0-1 1s1-2 1w2-3 1s3-4 1s5-6 1n7-8 1s8-9 1w9-10 1e14-14 ",
    ),
    (
        b"->-<=<<<//:==2n",
        "1s0-2 1s2-3 1s3-5 1s5-7 1s7-8 1s8-10 1s10-12 1s12-13 1n13-14 1w14-15 1e15-15 ",
    ),
    (b"<> t\n", "1s0-1 1s1-2 1w3-4 1e4-5 "),
    (b"#\xff\n18446744073709551615", "1e2-3 2n3-23 2e23-23 "),
    (b"a $", "syntax 1 2"),
    (b"\na !", "syntax 2 3"),
    (b"a/b", "syntax 1 2"),
    (b" lp_x", "syntax 1 3"),
    (b"a\rb", "syntax 1 2"),
    (b"\n\n a\r", "syntax 3 3"),
    (b"a\xc3\n", "syntax 1 1"),
    (b"1\n18446744073709551616", "limit 2"),
    (b"18446744073709551616\n$", "syntax 2 0"),
];

const FORTRAN: [(&[u8], &str); 4] = [
    (b"x::y/=1!c\xff\n", "1w0-1 1s1-3 1w3-4 1s4-6 1n6-7 1e10-11 "),
    (b"a:b", "syntax 1 2"),
    (b"Lp_a", "syntax 1 2"),
    (b"a#", "syntax 1 1"),
];

const WORDS: [(&[u8], &str); 3] = [
    (b"split i 4#c\r\n", "1w0-5 1w6-7 1w8-9 1e12-13 "),
    (b"a\rb lp_\r\n", "1w0-3 1w4-7 1e8-9 "),
    (b"a b\xffc", "syntax 1 3"),
];

#[test]
fn texts_of_each_form_are_read(rt: HostRuntime) -> Result<(), Fail> {
    let alloc = rt.alloc();
    for (text, want) in KERNEL {
        let found = told(alloc, text, Form::Kernel)?;
        assert_eq!(rt; found.as_str(), want);
    }
    for (text, want) in FORTRAN {
        let found = told(alloc, text, Form::Fortran)?;
        assert_eq!(rt; found.as_str(), want);
    }
    for (text, want) in WORDS {
        let found = told(alloc, text, Form::Words)?;
        assert_eq!(rt; found.as_str(), want);
    }
    Ok(())
}

#[test]
fn numbers_are_read(rt: HostRuntime) -> Result<(), Fail> {
    let alloc = rt.alloc();
    assert_eq!(rt; number_of(b"007"), Some(7));
    assert_eq!(rt; number_of(b"18446744073709551615"), Some(u64::MAX));
    assert_eq!(rt; number_of(b"18446744073709551616"), None);
    let large = scan(alloc, b"18446744073709551616", Form::Kernel)?;
    assert_eq!(rt; large.len(), 2);
    Ok(())
}
