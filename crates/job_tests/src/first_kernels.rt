use first_form::{FormFault, code_of, read_form};
use std::alloc::Global;
use std::test::Fail;

const FRONT: &str =
    "kernel 1\ndomain [n] -> { [i] : 0 <= i < n }\ninput a: int32[n]\noutput out: int32[n]\n";

#[test]
fn a_file_of_the_form_is_read(rt: HostRuntime) -> Result<(), Fail> {
    let alloc = rt.alloc();
    for (factor, number) in [("2", 2), ("0", 0), ("1048576", 1_048_576)] {
        let file = format!(in alloc; "{FRONT}out[i] = {factor}*a[i]\n")?;
        let form = read_form(alloc, file.as_bytes())
            .ok()
            .expect(&rt, "the form is read");
        assert_eq!(rt; form.param.as_str(), "n");
        assert_eq!(rt; form.iname.as_str(), "i");
        assert_eq!(rt; form.input.as_str(), "a");
        assert_eq!(rt; form.output.as_str(), "out");
        assert_eq!(rt; form.factor, number);
        let code = code_of(alloc, &form)?;
        assert_eq!(rt; code.names.len(), 2);
    }
    Ok(())
}

// The line and the word of the refusal, as a text.
fn refusal(alloc: Global, file: &str) -> Result<String, Fail> {
    match read_form(alloc, file.as_bytes()) {
        Err(FormFault::NotBuilt { line, word }) => {
            let word = word.as_str();
            Ok(format!(in alloc; "{line} {word}")?)
        }
        _ => Ok(String::new(alloc)),
    }
}

#[test]
fn the_first_other_line_is_refused(rt: HostRuntime) -> Result<(), Fail> {
    let alloc = rt.alloc();
    for (file, want) in [
        ("", "1 -"),
        ("kernel 2\n", "1 kernel"),
        ("12 34\n", "1 -"),
        (
            "kernel 1\ndomain [n] -> { [i] : 0 <= i < n }\ninput n: int32[n]\n",
            "3 input",
        ),
    ] {
        let found = refusal(alloc, file)?;
        assert_eq!(rt; found.as_str(), want, "at {file}");
    }
    for (end, want) in [
        ("", "5 -"),
        ("out[i] = a[i]\n", "5 out"),
        ("out[i] = 2*a[i]", "5 out"),
        ("out[i] = 02*a[i]\n", "5 out"),
        ("out[i] = 1048577*a[i]\n", "5 out"),
        ("out[i] = 2*a[i]\nx", "6 x"),
    ] {
        let file = format!(in alloc; "{FRONT}{end}")?;
        let found = refusal(alloc, file.as_str())?;
        assert_eq!(rt; found.as_str(), want, "at {end}");
    }
    Ok(())
}
