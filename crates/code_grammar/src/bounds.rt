//! Bounds and subscripts.
ghost use Rattle.std.specs.Prelude.{◌<◌, length};
ghost use Rattle.affine_rows.specs.declared.quasi.Quasi.{out-Quasi};

use crate::forms::{Sort, read_form, read_growing};
use crate::growing::Growing;
use crate::lists::push;
use crate::reader::{Limit, Reader, Stop};
use affine_rows::{Form, Listed};
use code_tree::{Bound, Flat};
use std::alloc::{AllocError, Global};

/// The deepest bound.
const MAX_DEPTH: u32 = 64;

/// Whether a list has the least or the greatest of its entries.
#[derive(Clone, Copy, Debug, PartialEq, Eq)]
enum Extreme {
    Least,
    Greatest,
}

/// A list that is not yet read to its end: its entries so far, how deep they are, and how many calls are open. Each call but
/// the last has one entry before the next call, and the last has two.
#[derive(Drop)]
struct OpenList {
    extreme: Extreme,
    entries: Listed<Bound>,
    deepest: u32,
    calls: usize,
}

/// A bound, and how deep it is.
#[derive(Drop)]
struct Deep {
    bound: Bound,
    depth: u32,
}

/// The form under the first floor of a form.
fn first_inner(alloc: Global, form: &Form) -> Result<Form, AllocError>
    requires { 0 < length (out-Quasi form.now).floors }
{
    let quasi = form.quasi();
    let floor = &quasi.floors.as_slice()[0];
    Ok(Form::new(floor.inner.copy(alloc)?))
}

/// A form as a bound: one floor with the factor 1 or -1 and nothing else is the floor.
fn bound_of(alloc: Global, form: Growing) -> Result<Bound, AllocError> {
    let form = form.into_form();
    let quasi = form.quasi();
    let has_more = quasi.constant != 0 || !quasi.terms.is_empty();
    if has_more || quasi.floors.len() != 1 {
        return Ok(Bound::Form(form));
    }
    let floor = &quasi.floors.as_slice()[0];
    let (times, by) = (floor.times, floor.by);
    match times {
        1 => Ok(Bound::FloorOf(first_inner(alloc, &form)?, by)),
        -1 => Ok(Bound::MinusFloorOf(first_inner(alloc, &form)?, by)),
        _ => Ok(Bound::Form(form)),
    }
}

/// The call of a list, if one begins here.
fn takes_call(reader: &mut Reader) -> Option<Extreme> {
    if reader.takes("lp_min(") {
        Some(Extreme::Least)
    } else if reader.takes("lp_max(") {
        Some(Extreme::Greatest)
    } else {
        None
    }
}

impl OpenList {
    fn new(alloc: Global, extreme: Extreme) -> OpenList {
        OpenList {
            extreme,
            entries: Listed::new(alloc),
            deepest: 0,
            calls: 1,
        }
    }

    /// Whether the next entry is the last one.
    fn is_last(&self) -> bool {
        self.entries.len() >= self.calls
    }

    /// One more call of this sort in the place of the last entry, which goes on with the list.
    fn continues(&mut self, extreme: Extreme) -> bool {
        let same = self.is_last() && self.extreme == extreme;
        if same {
            self.calls = self.calls.saturating_add(1);
        }
        same
    }

    fn add(&mut self, entry: Deep) -> Result<(), AllocError> {
        let Deep { bound, depth } = entry;
        self.deepest = self.deepest.max(depth);
        self.entries.push(bound)
    }

    /// The list behind its last entry. One that is too deep passes a limit, and 0 stands for it.
    fn close(self, reader: &mut Reader) -> Result<Deep, Stop> {
        let OpenList {
            extreme,
            entries,
            deepest,
            calls,
        } = self;
        for _ in 0..calls {
            reader.take(")")?;
        }
        if deepest >= MAX_DEPTH {
            reader.pass(Limit::Depth);
            let bound = Bound::Form(Growing::new(reader.alloc).into_form());
            return Ok(Deep { bound, depth: 1 });
        }
        let bound = match extreme {
            Extreme::Least => Bound::Least(entries),
            Extreme::Greatest => Bound::Greatest(entries),
        };
        let depth = deepest + 1;
        Ok(Deep { bound, depth })
    }
}

/// Opens a call.
fn open_call(alloc: Global, open: &mut Vec<OpenList>, extreme: Extreme) -> Result<(), AllocError> {
    if let Some(list) = open.last_mut() {
        if list.continues(extreme) {
            return Ok(());
        }
    }
    push(open, OpenList::new(alloc, extreme))
}

/// Takes the calls that begin here.
fn open_calls(reader: &mut Reader, open: &mut Vec<OpenList>) -> Result<(), Stop> {
    for _ in 0..reader.rest.len() {
        let Some(extreme) = takes_call(reader) else {
            break;
        };
        open_call(reader.alloc, open, extreme)?;
    }
    Ok(())
}

/// Puts a bound into the innermost list that is open, and each list that ends with it into the one round it. The bound is
/// whole where no list is left.
fn put(reader: &mut Reader, open: &mut Vec<OpenList>, entry: Deep) -> Result<Option<Bound>, Stop> {
    let mut entry = entry;
    'lists: while let Some(mut list) = open.pop() {
        let is_last = list.is_last();
        list.add(entry)?;
        if !is_last {
            reader.take(", ")?;
            push(open, list)?;
            return Ok(None);
        }
        entry = list.close(reader)?;
    }
    Ok(Some(entry.bound))
}

/// A bound of a sort. Each turn takes a byte.
pub fn read_bound(reader: &mut Reader, sort: Sort) -> Result<Bound, Stop> {
    let mut open = Vec::new(reader.alloc);
    for _ in 0..reader.rest.len() {
        open_calls(reader, &mut open)?;
        let sort = if open.is_empty() { sort } else { Sort::Any };
        let form = read_growing(reader, sort)?;
        let bound = bound_of(reader.alloc, form)?;
        if let Some(whole) = put(reader, &mut open, Deep { bound, depth: 1 })? {
            return Ok(whole);
        }
    }
    Err(Stop::Refused)
}

/// A subscript of several places behind its parentheses, with so many places after the first.
fn read_places(reader: &mut Reader, turns: usize) -> Result<Flat, Stop> {
    let mut places = Listed::of_one(reader.alloc, read_form(reader)?)?;
    let mut shapes = Listed::new(reader.alloc);
    reader.take(")")?;
    for _ in 0..turns {
        reader.take("*(")?;
        shapes.push(read_form(reader)?)?;
        reader.take(") + (")?;
        places.push(read_form(reader)?)?;
        reader.take("))")?;
    }
    Ok(Flat::Horner(places, shapes))
}

/// A subscript in brackets.
pub fn read_subscript(reader: &mut Reader) -> Result<Flat, Stop> {
    reader.take("[")?;
    let flat = if reader.takes("(") {
        reader.take("(")?;
        let more = reader.take_parentheses();
        read_places(reader, more.saturating_add(1))?
    } else {
        Flat::Form(read_form(reader)?)
    };
    reader.take("]")?;
    Ok(flat)
}
