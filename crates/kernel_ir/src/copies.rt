//! Copies of kernels, which share the trees of their expressions.
ghost use Rattle.std.specs.Prelude.{◌≡◌, IfOk};
ghost use Rattle.std.specs.Result.{IfErr};
ghost use Rattle.kernel_ir.specs.declared.fault.Fault.TheVariants.{OutOfMemory};

use crate::fault::Fault;
use crate::kernel::{Array, Insn, Kernel, SubstRule, Temp};
use affine_rows::{Listed, Name, copy_forms};
use expr_tree::{QuasiRow, Test};
use std::alloc::{AllocError, Global};

impl Kernel {
    /// An equal kernel.
    pub fn copy(&self, alloc: Global) -> Result<Kernel, Fault>
        ensures copied { IfOk result (λ k. k ≡ self.now) }
        ensures err { IfErr result (λ fault. fault ≡ OutOfMemory) }
    {
        let names = self.names.copy(alloc)?;
        let params = Listed::from_slice(alloc, self.params.as_slice())?;
        let inames = Listed::from_slice(alloc, self.inames.as_slice())?;
        let priority = Listed::from_slice(alloc, self.priority.as_slice())?;
        let rows = copy_rows(alloc, self.rows.as_slice())?;
        let assumptions = copy_rows(alloc, self.assumptions.as_slice())?;
        let arrays = copy_arrays(alloc, self.arrays.as_slice())?;
        let temps = copy_temps(alloc, self.temps.as_slice())?;
        let rules = copy_rules(alloc, self.rules.as_slice())?;
        let insns = copy_insns(alloc, self.insns.as_slice())?;
        Ok(Kernel {
            names,
            params,
            inames,
            priority,
            rows,
            assumptions,
            arrays,
            temps,
            rules,
            insns,
        })
    }
}

impl Array {
    /// An equal array.
    pub fn copy(&self, alloc: Global) -> Result<Array, AllocError>
        ensures { IfOk result (λ a. a ≡ self.now) }
    {
        let name = self.name.copy(alloc)?;
        let shape = copy_forms(alloc, self.shape.as_slice())?;
        Ok(Array {
            name,
            kind: self.kind,
            shape,
            stored: self.stored,
        })
    }
}

impl Temp {
    /// An equal temporary.
    pub fn copy(&self, alloc: Global) -> Result<Temp, AllocError>
        ensures { IfOk result (λ t. t ≡ self.now) }
    {
        let name = self.name.copy(alloc)?;
        let shape = Listed::from_slice(alloc, self.shape.as_slice())?;
        Ok(Temp {
            name,
            kind: self.kind,
            shape,
            local: self.local,
        })
    }
}

impl SubstRule {
    /// An equal rule.
    pub fn copy(&self, alloc: Global) -> Result<SubstRule, AllocError>
        ensures { IfOk result (λ r. r ≡ self.now) }
    {
        let name = self.name.copy(alloc)?;
        let params = Listed::from_slice(alloc, self.params.as_slice())?;
        let body = self.body.copy()?;
        Ok(SubstRule { name, params, body })
    }
}

impl Insn {
    /// An equal instruction.
    pub fn copy(&self, alloc: Global) -> Result<Insn, AllocError>
        ensures { IfOk result (λ i. i ≡ self.now) }
    {
        let id = self.id.copy(alloc)?;
        let inames = Listed::from_slice(alloc, self.inames.as_slice())?;
        let rows = copy_rows(alloc, self.rows.as_slice())?;
        let test = copy_test(alloc, &self.test)?;
        let place = copy_forms(alloc, self.place.as_slice())?;
        let value = self.value.copy()?;
        let deps = copy_names(alloc, self.deps.as_slice())?;
        Ok(Insn {
            id,
            line: self.line,
            inames,
            rows,
            test,
            cell: self.cell,
            place,
            storing: self.storing,
            value,
            deps,
            auto: self.auto,
        })
    }
}

/// An equal test, if there is one.
pub fn copy_test(alloc: Global, test: &Option<Test>) -> Result<Option<Test>, AllocError>
    ensures { IfOk result (λ t. t ≡ test.now) }
{
    match test {
        None => Ok(None),
        Some(test) => Ok(Some(test.copy(alloc)?)),
    }
}

/// An equal row.
pub fn copy_row(alloc: Global, row: &QuasiRow) -> Result<QuasiRow, AllocError>
    ensures { IfOk result (λ r. r ≡ row.now) }
{
    let form = row.form.copy(alloc)?;
    Ok(QuasiRow {
        form,
        equal: row.equal,
    })
}

/// Equal rows.
pub fn copy_rows(alloc: Global, rows: &[QuasiRow]) -> Result<Listed<QuasiRow>, AllocError>
    ensures { IfOk result (λ rs. rs ≡ rows.now) }
{
    let mut copied = Listed::new(alloc);
    for row in rows {
        copied.push(copy_row(alloc, row)?)?;
    }
    Ok(copied)
}

/// Equal names.
pub fn copy_names(alloc: Global, names: &[Name]) -> Result<Listed<Name>, AllocError>
    ensures { IfOk result (λ ns. ns ≡ names.now) }
{
    let mut copied = Listed::new(alloc);
    for name in names {
        copied.push(name.copy(alloc)?)?;
    }
    Ok(copied)
}

fn copy_arrays(alloc: Global, arrays: &[Array]) -> Result<Listed<Array>, AllocError>
    ensures { IfOk result (λ copies. copies ≡ arrays.now) }
{
    let mut copied = Listed::new(alloc);
    for array in arrays {
        copied.push(array.copy(alloc)?)?;
    }
    Ok(copied)
}

fn copy_temps(alloc: Global, temps: &[Temp]) -> Result<Listed<Temp>, AllocError>
    ensures { IfOk result (λ ts. ts ≡ temps.now) }
{
    let mut copied = Listed::new(alloc);
    for temp in temps {
        copied.push(temp.copy(alloc)?)?;
    }
    Ok(copied)
}

fn copy_rules(alloc: Global, rules: &[SubstRule]) -> Result<Listed<SubstRule>, AllocError>
    ensures { IfOk result (λ rs. rs ≡ rules.now) }
{
    let mut copied = Listed::new(alloc);
    for rule in rules {
        copied.push(rule.copy(alloc)?)?;
    }
    Ok(copied)
}

fn copy_insns(alloc: Global, insns: &[Insn]) -> Result<Listed<Insn>, AllocError>
    ensures { IfOk result (λ copies. copies ≡ insns.now) }
{
    let mut copied = Listed::new(alloc);
    for insn in insns {
        copied.push(insn.copy(alloc)?)?;
    }
    Ok(copied)
}
