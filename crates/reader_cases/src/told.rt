//! What is printed of one file.
use affine_rows::Listed;
use kernel_ir::{Fault, Iname, Kernel, Tag, Temp};
use kernel_printer::print_kernel;
use kernel_reader::read_kernel;
use refusal_lines::refusal_text;
use std::alloc::Global;
use std::io;
use subst_rules::{collect_uses, expand};

/// What is printed of a kernel.
#[derive(Clone, Copy)]
enum Form {
    Plain,
    Marked,
    Expanded,
    Counted,
}

fn form_of(bytes: &[u8]) -> Form {
    if bytes.starts_with(b"# marked\n") {
        Form::Marked
    } else if bytes.starts_with(b"# expanded\n") {
        Form::Expanded
    } else if bytes.starts_with(b"# counted\n") {
        Form::Counted
    } else {
        Form::Plain
    }
}

/// The axis of the iname at a place, one after the other.
fn tag_at(place: usize) -> Tag {
    match place % 3 {
        0 => Tag::Group(0),
        1 => Tag::Local(1),
        _ => Tag::Plain,
    }
}

fn tagged(alloc: Global, inames: &[Iname]) -> Result<Listed<Iname>, Fault> {
    let mut made = Listed::new(alloc);
    for (place, iname) in inames.iter().enumerate() {
        made.push(Iname {
            var: iname.var,
            tag: tag_at(place),
        })?;
    }
    Ok(made)
}

fn reversed(alloc: Global, vars: &[u32]) -> Result<Listed<u32>, Fault> {
    let mut made = Listed::new(alloc);
    for var in vars.iter().rev() {
        made.push(*var)?;
    }
    Ok(made)
}

fn local(alloc: Global, temps: &[Temp]) -> Result<Listed<Temp>, Fault> {
    let mut made = Listed::new(alloc);
    for temp in temps {
        made.push(Temp {
            local: true,
            ..temp.copy(alloc)?
        })?;
    }
    Ok(made)
}

/// The kernel with a tag at each iname, the inames in reverse, and local temporaries.
fn marked(alloc: Global, kernel: Kernel) -> Result<Kernel, Fault> {
    let inames = tagged(alloc, kernel.inames.as_slice())?;
    let priority = reversed(alloc, kernel.priority.as_slice())?;
    let temps = local(alloc, kernel.temps.as_slice())?;
    Ok(Kernel {
        inames,
        priority,
        temps,
        ..kernel
    })
}

/// A line for each rule, with the ids of the instructions that use it.
fn uses(alloc: Global, kernel: &Kernel) -> Result<String, Fault> {
    let mut text = String::new(alloc);
    let mut number = 0u32;
    for rule in kernel.rules.as_slice() {
        text.push_str("# ")?;
        text.push_str(rule.name.as_str())?;
        text.push_str(":")?;
        for (id, _) in collect_uses(alloc, kernel, number)?.as_slice() {
            text.push_str(" ")?;
            text.push_str(id.as_str())?;
        }
        text.push_str("\n")?;
        number = number.wrapping_add(1);
    }
    Ok(text)
}

fn printed(alloc: Global, kernel: &Kernel) -> Result<String, Fault> {
    let bytes = print_kernel(alloc, kernel)?;
    Ok(String::from_utf8(bytes).unwrap_or(String::new(alloc)))
}

/// How many names the kernel has.
fn counted(alloc: Global, kernel: &Kernel) -> Result<String, Fault> {
    let count = kernel.names.len();
    Ok(format!(in alloc; "{count} names\n")?)
}

/// The text of the kernel that a file says.
fn text_of(alloc: Global, bytes: &[u8]) -> Result<String, Fault> {
    let kernel = read_kernel(alloc, bytes)?;
    match form_of(bytes) {
        Form::Plain => printed(alloc, &kernel),
        Form::Marked => printed(alloc, &marked(alloc, kernel)?),
        Form::Counted => counted(alloc, &kernel),
        Form::Expanded => {
            let mut text = uses(alloc, &kernel)?;
            text.push_str(&printed(alloc, &expand(alloc, &kernel)?)?)?;
            Ok(text)
        }
    }
}

/// Whether a printed kernel is printed so again once it is read.
fn is_same(alloc: Global, text: &str) -> bool {
    match read_kernel(alloc, text.as_bytes()) {
        Ok(kernel) => match printed(alloc, &kernel) {
            Ok(again) => again.as_str() == text,
            Err(_) => false,
        },
        Err(_) => false,
    }
}

fn tell_fault(rt: &HostRuntime, fault: &Fault) -> io::Result<()> {
    match fault {
        Fault::Rule(refusal) => match refusal_text(rt.alloc(), refusal, "") {
            Ok(line) => print!(rt; "{line}"),
            Err(_) => println!(rt; "out of memory"),
        },
        Fault::OutOfMemory => println!(rt; "out of memory"),
    }
}

/// Prints what is read of a file.
pub(crate) fn tell(rt: &HostRuntime, bytes: &[u8]) -> io::Result<()> {
    let alloc = rt.alloc();
    match text_of(alloc, bytes) {
        Ok(text) => {
            print!(rt; "{text}")?;
            if matches!(form_of(bytes), Form::Plain) && !is_same(alloc, &text) {
                println!(rt; "read again it differs")?;
            }
            Ok(())
        }
        Err(fault) => tell_fault(rt, &fault),
    }
}
