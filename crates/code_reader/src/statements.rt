//! Statements.
use crate::body::{Body, Head};
use crate::cells::read_private;
use affine_rows::Name;
use code_grammar::{
    Condition, Meaning, Reader, Sort, Stop, Store, Wanted, read_bound, read_condition,
    read_subscript, read_value,
};
use code_text::index_name;
use code_tree::{Block, Bound, Stmt, Target};

const BARRIER: &str = "barrier(CLK_LOCAL_MEM_FENCE | CLK_GLOBAL_MEM_FENCE);\n";

/// An assignment behind the name of its target.
fn read_set(reader: &mut Reader, store: Store) -> Result<Stmt, Stop> {
    let flat = if store.has_place {
        Some(read_subscript(reader)?)
    } else {
        None
    };
    reader.take(" = ")?;
    let value = read_value(reader, store.kind)?;
    reader.take(";\n")?;
    let target = store.cell;
    Ok(Stmt::Set {
        target,
        flat,
        value,
    })
}

/// The name of a loop's variable, and its lower bound.
fn read_first(reader: &mut Reader) -> Result<(Name, Bound), Stop> {
    reader.take(index_name(reader.target))?;
    reader.take(" ")?;
    let name = reader.take_new()?;
    reader.take(" = ")?;
    let lower = read_bound(reader, Sort::Any)?;
    Ok((name, lower))
}

/// The upper bound of a loop over the variable of this name.
fn read_last(reader: &mut Reader, name: &Name) -> Result<Bound, Stop> {
    reader.take("; v_")?;
    reader.take(name.as_str())?;
    reader.take(" <= ")?;
    let upper = read_bound(reader, Sort::Any)?;
    reader.take("; ++v_")?;
    reader.take(name.as_str())?;
    reader.take(") {\n")?;
    Ok(upper)
}

/// A loop behind `for (`, up to its brace. Its variable is declared behind its bounds.
fn read_for(reader: &mut Reader, body: &mut Body) -> Result<(), Stop> {
    let (name, lower) = read_first(reader)?;
    let upper = read_last(reader, &name)?;
    let names = reader.declared();
    let var = reader.declare_var(name)?;
    Ok(body.begin(reader.alloc, Head::Loop { var, lower, upper }, names)?)
}

/// A guard or a data test behind `if (`, up to its brace.
fn read_if(reader: &mut Reader, body: &mut Body) -> Result<(), Stop> {
    let condition = read_condition(reader, body.asks())?;
    reader.take(" {\n")?;
    let head = match condition {
        Condition::Rows(rows) => Head::When { rows },
        Condition::Test(test, asks) => Head::Check { test, asks },
    };
    Ok(body.begin(reader.alloc, head, reader.declared())?)
}

/// A statement up to its line end or its brace, or a cell.
fn read_statement(reader: &mut Reader, body: &mut Body) -> Result<(), Stop> {
    let vars = false;
    let kinds = body.targets();
    if let Some(Meaning::Store(store)) = reader.takes_name(Wanted { vars, kinds })? {
        let set = read_set(reader, store)?;
        return Ok(body.assign(set)?);
    }
    if reader.takes("for (") {
        return read_for(reader, body);
    }
    if reader.takes("if (") {
        return read_if(reader, body);
    }
    if reader.target == Target::OpenCl && reader.takes(BARRIER) {
        return Ok(body.add(Stmt::Barrier)?);
    }
    if !body.takes_cells() {
        return Err(Stop::Refused);
    }
    let cell = read_private(reader)?;
    Ok(body.declare(cell)?)
}

/// One line of a body: a cell, a statement or the end of one, or the end of the body, which is then whole.
fn read_line(reader: &mut Reader, body: &mut Body) -> Result<Option<Block>, Stop> {
    for _ in 0..body.depth() {
        reader.take("  ")?;
    }
    if body.may_end() && reader.takes("}") {
        return body.end(reader);
    }
    reader.take("  ")?;
    read_statement(reader, body)?;
    Ok(None)
}

/// The body of a code, up to its brace. Each line takes a byte.
pub fn read_body(reader: &mut Reader) -> Result<Block, Stop> {
    let mut body = Body::new(reader.alloc);
    for _ in 0..reader.rest.len() {
        if let Some(whole) = read_line(reader, &mut body)? {
            return Ok(whole);
        }
    }
    Err(Stop::Refused)
}
