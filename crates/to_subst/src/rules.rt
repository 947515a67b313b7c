//! The kernel with the rule in the place of the temporary and its writer.
use crate::inlining::Inlining;
use crate::scatter::Scatter;
use crate::store::Store;
use affine_rows::{Listed, Name, Names};
use expr_tree::{Expr, ExprFault, Node};
use kernel_edits::{
    expr_fault, has_name, leading_kind, leads_of_rules, number_at, rewritten, tree_of,
};
use kernel_ir::{Fault, Insn, Kernel, SubstRule, Temp};
use std::alloc::{AllocError, Global};
use wrap_words::Kind;

/// Whether the value is that of the writer, or is converted where nothing in it has a kind.
#[derive(Clone, Copy, Debug, PartialEq, Eq)]
pub(crate) enum Body {
    Bare,
    Typed,
}

/// A value with the rewriting, as that of an instruction.
fn rewritten_value(
    alloc: Global,
    insn: &Insn,
    value: &Expr,
    by: Inlining<'_>,
) -> Result<Expr, ExprFault> {
    let copied = insn.copy(alloc)?;
    let with_value = Insn {
        value: value.copy()?,
        test: None,
        ..copied
    };
    let made = rewritten(alloc, &with_value, &by)?;
    Ok(made.value)
}

/// The kind of the temporary, which has one.
fn kind_of(store: &Store<'_>) -> Kind {
    match store.kernel.temps.get(store.temp as usize) {
        None => Kind::I32,
        Some(temp) => temp.kind.unwrap_or(Kind::I32),
    }
}

/// Whether, with uses of rules replaced, something in the writer's value outside its inner tests has a kind.
fn has_kind(alloc: Global, store: &Store<'_>) -> Result<bool, AllocError> {
    let leads = leads_of_rules(alloc, store.kernel)?;
    Ok(leading_kind(store.kernel, &leads, &store.insn.value).is_some())
}

/// The value of the writer, converted to the temporary's kind where it is asked for and the value has no kind.
fn body_of(
    alloc: Global,
    store: &Store<'_>,
    body: Body,
    by: Inlining<'_>,
) -> Result<Expr, ExprFault> {
    let value = rewritten_value(alloc, store.insn, &store.insn.value, by)?;
    if body == Body::Bare || has_kind(alloc, store)? {
        return Ok(value);
    }
    tree_of(alloc, Node::Cast(kind_of(store), value))
}

/// The subscripts, and then the remaining inames.
fn params_of(alloc: Global, scatter: &Scatter) -> Result<Listed<u32>, AllocError> {
    let mut params = Listed::from_slice(alloc, scatter.subscripts.as_slice())?;
    for var in scatter.remaining.as_slice() {
        params.push(*var)?;
    }
    Ok(params)
}

/// A rule with its temporaries numbered anew.
fn rule_with(
    alloc: Global,
    insn: &Insn,
    rule: &SubstRule,
    by: Inlining<'_>,
) -> Result<SubstRule, ExprFault> {
    let body = rewritten_value(alloc, insn, &rule.body, by)?;
    let copied = rule.copy(alloc)?;
    Ok(SubstRule { body, ..copied })
}

/// The rules with their temporaries numbered anew, and the new one.
fn rules_with(
    alloc: Global,
    store: &Store<'_>,
    new: SubstRule,
    by: Inlining<'_>,
) -> Result<Listed<SubstRule>, ExprFault> {
    let mut made = Listed::new(alloc);
    for rule in store.kernel.rules.as_slice() {
        made.push(rule_with(alloc, store.insn, rule, by)?)?;
    }
    made.push(new)?;
    Ok(made)
}

fn temps_without(alloc: Global, temps: &[Temp], gone: usize) -> Result<Listed<Temp>, AllocError> {
    let mut made = Listed::new(alloc);
    for at in 0..temps.len() {
        if at != gone {
            made.push(temps[at].copy(alloc)?)?;
        }
    }
    Ok(made)
}

/// The dependences without the writer.
fn deps_without(alloc: Global, deps: &[Name], writer: &Insn) -> Result<Listed<Name>, AllocError> {
    let mut made = Listed::new(alloc);
    for dep in deps {
        if dep.as_bytes() != writer.id.as_bytes() {
            made.push(dep.copy(alloc)?)?;
        }
    }
    Ok(made)
}

/// Adds those of the writer's dependences that are not there.
fn take_over(alloc: Global, writer: &Insn, deps: &mut Listed<Name>) -> Result<(), AllocError> {
    for dep in writer.deps.as_slice() {
        if !has_name(deps.as_slice(), dep) {
            deps.push(dep.copy(alloc)?)?;
        }
    }
    Ok(())
}

/// An instruction other than the writer.
fn insn_without(
    alloc: Global,
    insn: &Insn,
    writer: &Insn,
    is_reader: bool,
    by: Inlining<'_>,
) -> Result<Insn, ExprFault> {
    let mut deps = deps_without(alloc, insn.deps.as_slice(), writer)?;
    if is_reader {
        take_over(alloc, writer, &mut deps)?;
    }
    let made = rewritten(alloc, insn, &by)?;
    Ok(Insn {
        cell: by.moved(insn.cell),
        deps,
        ..made
    })
}

/// The instructions without the writer.
fn insns_without(
    alloc: Global,
    store: &Store<'_>,
    readers: &[usize],
    by: Inlining<'_>,
) -> Result<Listed<Insn>, ExprFault> {
    let insns = store.kernel.insns.as_slice();
    let mut made = Listed::new(alloc);
    for at in 0..insns.len() {
        if at != store.at {
            let is_reader = readers.contains(&at);
            made.push(insn_without(alloc, &insns[at], store.insn, is_reader, by)?)?;
        }
    }
    Ok(made)
}

/// The rules and the instructions of the new kernel.
#[derive(Drop)]
struct Parts {
    rules: Listed<SubstRule>,
    insns: Listed<Insn>,
}

fn parts_of(
    alloc: Global,
    store: &Store<'_>,
    scatter: &Scatter,
    name: &Name,
    body: Body,
    by: Inlining<'_>,
) -> Result<Parts, ExprFault> {
    let rule = SubstRule {
        name: name.copy(alloc)?,
        params: params_of(alloc, scatter)?,
        body: body_of(alloc, store, body, by)?,
    };
    Ok(Parts {
        rules: rules_with(alloc, store, rule, by)?,
        insns: insns_without(alloc, store, &scatter.readers, by)?,
    })
}

/// The names with one more.
fn named(alloc: Global, names: &Names, name: &Name) -> Result<Names, AllocError> {
    let mut made = names.copy(alloc)?;
    made.insert(name.copy(alloc)?)?;
    Ok(made)
}

/// The kernel with these rules and instructions, with one name more and without the temporary.
fn with_parts(
    alloc: Global,
    store: &Store<'_>,
    name: &Name,
    parts: Parts,
) -> Result<Kernel, Fault> {
    let kernel = store.kernel;
    let names = named(alloc, &kernel.names, name)?;
    let temps = temps_without(alloc, kernel.temps.as_slice(), store.temp as usize)?;
    let copied = kernel.copy(alloc)?;
    Ok(Kernel {
        names,
        temps,
        rules: parts.rules,
        insns: parts.insns,
        ..copied
    })
}

/// The kernel with the rule of this name in the place of the temporary and its writer. Rule 3 refuses where a typed body is too deep.
pub(crate) fn with_rule(
    alloc: Global,
    store: &Store<'_>,
    scatter: &Scatter,
    name: &Name,
    body: Body,
) -> Result<Kernel, Fault> {
    let by = Inlining {
        temp: store.temp,
        rule: number_at(alloc, store.kernel.rules.len())?,
        remaining: scatter.remaining.as_slice(),
    };
    match parts_of(alloc, store, scatter, name, body, by) {
        Ok(parts) => with_parts(alloc, store, name, parts),
        Err(fault) => Err(expr_fault(alloc, fault)),
    }
}
