//! The lines before the functions.
use affine_rows::{Form, Listed};
use code_grammar::{Limit, Reader, Sort, Stop, Vars, positive, read_bound, small_number_up_to};
use code_tree::{Bound, Target};
use std::alloc::Global;

/// The greatest constant of a form.
const MOST: u64 = 1 << 62;

/// The bounds of the group axes, and the items of the local axes.
#[derive(Drop)]
pub struct Launch {
    pub groups: (Bound, Bound, Bound),
    pub items: (u32, u32, u32),
}

/// The bound of an axis with so many groups, one less than that.
fn bound_below(alloc: Global, groups: u64) -> Bound {
    let below = groups.saturating_sub(1).min(MOST) as i64;
    Bound::Form(Form::affine(alloc, below, Listed::new(alloc)))
}

/// The launch of a code without axes.
fn no_launch(alloc: Global) -> Launch {
    Launch {
        groups: (
            bound_below(alloc, 1),
            bound_below(alloc, 1),
            bound_below(alloc, 1),
        ),
        items: (1, 1, 1),
    }
}

/// The number of groups of an axis, with its bound, which passes a limit where it is past that of a form.
fn read_group(reader: &mut Reader) -> Result<Bound, Stop> {
    reader.take("[")?;
    if reader.takes("lp_max(1, 1 + ") {
        let bound = read_bound(reader, Sort::NoNumber)?;
        reader.take(")] ")?;
        return Ok(bound);
    }
    let groups = positive(reader)?;
    if groups.saturating_sub(1) > MOST {
        reader.pass(Limit::Form);
    }
    reader.take("] ")?;
    Ok(bound_below(reader.alloc, groups))
}

/// The items of a local axis, of which there is one at least.
fn read_items(reader: &mut Reader) -> Result<u32, Stop> {
    reader.take("[")?;
    if reader.rest.starts_with(b"0") {
        return Err(Stop::Refused);
    }
    let items = small_number_up_to(reader, u32::MAX)?;
    reader.take("] ")?;
    Ok(items)
}

/// The bounds of the group axes.
fn read_groups(reader: &mut Reader) -> Result<(Bound, Bound, Bound), Stop> {
    let first = read_group(reader)?;
    let second = read_group(reader)?;
    let third = read_group(reader)?;
    Ok((first, second, third))
}

/// The items of the local axes.
fn read_local(reader: &mut Reader) -> Result<(u32, u32, u32), Stop> {
    let first = read_items(reader)?;
    let second = read_items(reader)?;
    let third = read_items(reader)?;
    Ok((first, second, third))
}

/// The launch numbers, up to the end of their line.
fn read_numbers(reader: &mut Reader) -> Result<Launch, Stop> {
    let groups = read_groups(reader)?;
    reader.take("items ")?;
    let items = read_local(reader)?;
    reader.take("*/\n")?;
    Ok(Launch { groups, items })
}

/// The lines before the functions. They tell the target, and the launch numbers name parameters that are declared later.
pub fn skip_title<'a>(reader: &mut Reader<'a>) -> Result<(), Stop> {
    reader.take("/* loopw ")?;
    if reader.takes("opencl groups ") {
        reader.target = Target::OpenCl;
        read_numbers(reader)?;
    } else {
        reader.take("c */\n#include <stdint.h>\n")?;
    }
    reader.vars = Vars::Declared;
    Ok(())
}

/// The launch numbers of a text that begins with these bytes, now that the parameters are declared.
pub fn read_launch<'a>(reader: &mut Reader<'a>, bytes: &'a [u8]) -> Result<Launch, Stop> {
    if reader.target == Target::C {
        return Ok(no_launch(reader.alloc));
    }
    let (rest, line, column) = (reader.rest, reader.line, reader.column);
    reader.rest = bytes;
    reader.line = 1;
    reader.take("/* loopw opencl groups ")?;
    let launch = read_numbers(reader)?;
    reader.rest = rest;
    reader.line = line;
    reader.column = column;
    Ok(launch)
}
