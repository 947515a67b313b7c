//! The lines of declarations, and those of what a file cannot say.
ghost use Rattle.std.specs.Prelude.{◌≡◌, ◌++◌, true, map, flat_map, OnOk, codes};
ghost use Rattle.std.specs.Fmt.{decimal};
ghost use Rattle.text_writer.specs.Bytes.{separated};
ghost use Rattle.kernel_printer.specs.KernelText.{array_line, assume_line, domain_line, domain_names, kind_or_nothing, priority_line, rule_line, ruled_text, shape_text, tag_line, temp_line};
ghost use Rattle.kernel_printer.specs.Spelled.{spelling_of};
ghost use Rattle.kernel_ir.specs.NameSpace.{name_of};

use crate::forms::{write_forms, write_rows};
use crate::spelling::{Spelling, rule_order, vars_of, write_name, write_vars};
use crate::values::{Standing, write_value};
use kernel_ir::{Array, Iname, Kernel, QuasiRow, SubstRule, Tag, Temp};
use kind_faults::kind_word;
use std::alloc::{AllocError, Global};
use text_writer::{put, put_digits, put_gap};
use wrap_words::Kind;

/// Adds the rows of the domain, where there are any.
fn write_ruled(
    alloc: Global,
    out: &mut Vec<u8>,
    spelling: &Spelling,
    rows: &[QuasiRow],
) -> Result<(), AllocError>
    ensures { OnOk result (out.new.items ≡ out.old.items ++ ruled_text (spelling_of spelling.now) rows.now) }
{
    if rows.is_empty() {
        return Ok(());
    }
    put(out, " : ")?;
    write_rows(alloc, out, spelling, rows)
}

/// Adds the names of the parameters and of the inames.
fn write_domain_names(alloc: Global, out: &mut Vec<u8>, kernel: &Kernel) -> Result<(), AllocError>
    ensures { OnOk result (out.new.items ≡ out.old.items ++ domain_names kernel.now) }
{
    let inames = vars_of(alloc, kernel.inames.as_slice())?;
    put(out, "domain [")?;
    write_vars(out, kernel, ", ", kernel.params.as_slice())?;
    put(out, "] -> { [")?;
    write_vars(out, kernel, ", ", &inames)?;
    put(out, "]")
}

/// Adds the line of the domain, where there is anything to say.
pub fn write_domain(alloc: Global, out: &mut Vec<u8>, spelling: &Spelling) -> Result<(), AllocError>
    ensures { OnOk result (out.new.items ≡ out.old.items ++ domain_line spelling.now.kernel.now (spelling_of spelling.now)) }
{
    let kernel = spelling.kernel;
    if kernel.params.is_empty() && kernel.inames.is_empty() && kernel.rows.is_empty() {
        return Ok(());
    }
    write_domain_names(alloc, out, kernel)?;
    write_ruled(alloc, out, spelling, kernel.rows.as_slice())?;
    put(out, " }\n")
}

/// Adds the line of assumptions, where there are any.
pub fn write_assume(alloc: Global, out: &mut Vec<u8>, spelling: &Spelling) -> Result<(), AllocError>
    ensures { OnOk result (out.new.items ≡ out.old.items ++ assume_line (spelling_of spelling.now) spelling.now.kernel.now.assumptions) }
{
    let rows = spelling.kernel.assumptions.as_slice();
    if rows.is_empty() {
        return Ok(());
    }
    put(out, "assume ")?;
    write_rows(alloc, out, spelling, rows)?;
    put(out, "\n")
}

/// Adds the line of an array.
pub fn write_array(
    alloc: Global,
    out: &mut Vec<u8>,
    spelling: &Spelling,
    array: &Array,
) -> Result<(), AllocError>
    ensures { OnOk result (out.new.items ≡ out.old.items ++ array_line (spelling_of spelling.now) array.now) }
{
    put(out, if array.stored { "output " } else { "input " })?;
    put(out, array.name.as_str())?;
    put(out, ": ")?;
    put(out, kind_word(array.kind))?;
    put(out, "[")?;
    write_forms(alloc, out, spelling, array.shape.as_slice())?;
    put(out, "]\n")
}

/// Adds the word of a kind, where there is one.
fn write_kind(out: &mut Vec<u8>, kind: Option<Kind>) -> Result<(), AllocError>
    ensures { OnOk result (out.new.items ≡ out.old.items ++ kind_or_nothing kind) }
{
    match kind {
        Some(kind) => put(out, kind_word(kind)),
        None => Ok(()),
    }
}

/// Adds numbers with a gap between them.
fn write_numbers(out: &mut Vec<u8>, numbers: &[u32]) -> Result<(), AllocError>
    ensures { OnOk result (out.new.items ≡ out.old.items ++ separated true (codes ", ") (map decimal numbers.now)) }
{
    let mut first = true;
    for number in numbers {
        put_gap(out, first, ", ")?;
        put_digits(out, u64::from(*number))?;
        first = false;
    }
    Ok(())
}

/// Adds the shape of a temporary, where it has one.
fn write_shape(out: &mut Vec<u8>, shape: &[u32]) -> Result<(), AllocError>
    ensures { OnOk result (out.new.items ≡ out.old.items ++ shape_text shape.now) }
{
    if shape.is_empty() {
        return Ok(());
    }
    put(out, "[")?;
    write_numbers(out, shape)?;
    put(out, "]")
}

/// Adds the line of a temporary.
pub fn write_temp(out: &mut Vec<u8>, temp: &Temp) -> Result<(), AllocError>
    ensures { OnOk result (out.new.items ≡ out.old.items ++ temp_line temp.now) }
{
    put(out, "temp ")?;
    put(out, temp.name.as_str())?;
    put(out, ": ")?;
    write_kind(out, temp.kind)?;
    write_shape(out, temp.shape.as_slice())?;
    put(out, if temp.local { " # local" } else { "" })?;
    put(out, "\n")
}

/// Adds the line of a rule.
#[tactic(auto, unfolding(crate::specs::KernelText::rule_line))]
pub fn write_rule(
    alloc: Global,
    out: &mut Vec<u8>,
    kernel: &Kernel,
    rule: &SubstRule,
) -> Result<(), AllocError>
    ensures { OnOk result (out.new.items ≡ out.old.items ++ rule_line kernel.now rule.now) }
{
    let order = rule_order(alloc, kernel, rule)?;
    let spelling = Spelling {
        kernel,
        order: &order,
    };
    put(out, rule.name.as_str())?;
    put(out, "(")?;
    write_vars(out, kernel, ", ", rule.params.as_slice())?;
    put(out, ") := ")?;
    write_value(alloc, out, &spelling, Standing::Alone, &rule.body)?;
    put(out, "\n")
}

/// Adds the line of an axis of an iname.
fn write_axis(
    out: &mut Vec<u8>,
    kernel: &Kernel,
    var: u32,
    letter: &str,
    axis: u8,
) -> Result<(), AllocError>
    ensures { OnOk result (out.new.items ≡ out.old.items ++ (codes "# tag " ++ name_of kernel.now var ++ letter.now ++ decimal axis ++ codes "\n")) }
{
    put(out, "# tag ")?;
    write_name(out, kernel, var)?;
    put(out, letter)?;
    put_digits(out, u64::from(axis))?;
    put(out, "\n")
}

/// Adds the line of an iname's tag, where it has one.
pub fn write_tag(out: &mut Vec<u8>, kernel: &Kernel, iname: Iname) -> Result<(), AllocError>
    ensures { OnOk result (out.new.items ≡ out.old.items ++ tag_line kernel.now iname) }
{
    match iname.tag {
        Tag::Plain => Ok(()),
        Tag::Group(axis) => write_axis(out, kernel, iname.var, " g.", axis),
        Tag::Local(axis) => write_axis(out, kernel, iname.var, " l.", axis),
    }
}

/// Adds names, each behind a blank.
fn write_spaced(out: &mut Vec<u8>, kernel: &Kernel, vars: &[u32]) -> Result<(), AllocError>
    ensures { OnOk result (out.new.items ≡ out.old.items ++ flat_map (λ v. codes " " ++ name_of kernel.now v) vars.now) }
{
    for var in vars {
        put(out, " ")?;
        write_name(out, kernel, *var)?;
    }
    Ok(())
}

/// Adds the line of the priority order, where it is not the declared order.
pub fn write_priority(alloc: Global, out: &mut Vec<u8>, kernel: &Kernel) -> Result<(), AllocError>
    ensures { OnOk result (out.new.items ≡ out.old.items ++ priority_line kernel.now) }
{
    let inames = vars_of(alloc, kernel.inames.as_slice())?;
    let priority = kernel.priority.as_slice();
    if priority == inames.as_slice() {
        return Ok(());
    }
    put(out, "# priority")?;
    write_spaced(out, kernel, priority)?;
    put(out, "\n")
}
