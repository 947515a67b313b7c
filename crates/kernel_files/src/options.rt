//! The options of an instruction.
ghost use Rattle.std.specs.Prelude.{◌≡◌, ◌++◌, IfOk, OnOk};
ghost use Rattle.kernel_names.specs.Roles.{kernel_roles};
ghost use Rattle.untyped.specs.Readings.{inames_in, untyped_of};
ghost use Rattle.kernel_files.specs.Options.{no_options, unknown_only, predicate_of, is_too_deep, conjunction, joined, deep_limit, if_faults, with_unknown, with_if, with_inames, with_option, options_of};

use affine_rows::{Listed, Name};
use kernel_grammar::{Infix, InsnOption, Step};
use kernel_lines::{unknown_in, value_faults};
use kernel_names::{Declarations, Ids, Limit, LineFaults};
use std::alloc::{AllocError, Global};
use untyped::{Reading, Role, Term, Untyped, read_untyped};
use untyped_parts::split_predicate;

/// A predicate, and how deep it is.
#[derive(Drop)]
pub struct Predicate {
    pub tree: Untyped,
    pub depth: u32,
}

/// What options say: the predicate, several being joined by `and`, the inames of `inames=`, and what is wrong first.
#[derive(Drop)]
pub struct ReadOptions {
    pub predicate: Option<Predicate>,
    pub named: Listed<u32>,
    pub faults: LineFaults,
}

/// A name that stands for nothing, if there is one.
pub(crate) fn unknown_only(name: Option<Name>) -> LineFaults
    ensures { result ≡ unknown_only name }
{
    LineFaults {
        limit: None,
        unknown: name,
        taken: None,
        shape: None,
    }
}

/// Whether `and` of a predicate and one of this depth is too deep.
fn is_too_deep(predicate: &Option<Predicate>, depth: u32) -> bool
    ensures { result ≡ is_too_deep predicate.now depth }
{
    match predicate {
        Some(first) => first.depth.max(depth) >= 64,
        None => false,
    }
}

/// The limit that a predicate behind another passes.
fn deep_limit(deep: bool, over: bool) -> Option<Limit>
    ensures { result ≡ deep_limit deep over }
{
    if deep {
        Some(Limit::Depth)
    } else if over {
        Some(Limit::Form)
    } else {
        None
    }
}

/// Both predicates by `and`; the first one alone where that is too deep.
fn joined(
    alloc: Global,
    predicate: Option<Predicate>,
    next: Predicate,
) -> Result<Predicate, AllocError>
    ensures { IfOk result (λ p. p ≡ joined predicate next) }
{
    match predicate {
        None => Ok(next),
        Some(first) => {
            let depth = first.depth.max(next.depth);
            if depth >= 64 {
                return Ok(first);
            }
            let term = Term::Infix(Infix::And, first.tree, next.tree);
            Ok(Predicate {
                tree: Untyped::of_term(alloc, term)?,
                depth: depth + 1,
            })
        }
    }
}

/// Adds the inames among names.
fn add_inames(
    declarations: &Declarations,
    names: &[Name],
    inames: &mut Listed<u32>,
) -> Result<(), AllocError>
    ensures { OnOk result (inames.new ≡ inames.old ++ inames_in (kernel_roles declarations.now) names.now) }
{
    'names: for name in names {
        if let Role::Iname(iname) = declarations.role(name) {
            inames.push(iname)?;
        }
    }
    Ok(())
}

impl ReadOptions {
    fn none(alloc: Global) -> ReadOptions
        ensures { result ≡ no_options }
    {
        ReadOptions {
            predicate: None,
            named: Listed::new(alloc),
            faults: LineFaults::none(),
        }
    }

    /// These, and a name that stands for nothing.
    fn with_unknown(self, name: Option<Name>) -> ReadOptions
        ensures { result ≡ with_unknown self name }
    {
        ReadOptions {
            predicate: self.predicate,
            named: self.named,
            faults: self.faults.or(unknown_only(name)),
        }
    }

    /// These, and the inames among names.
    fn with_inames(
        self,
        declarations: &Declarations,
        names: &[Name],
    ) -> Result<ReadOptions, AllocError>
        ensures { IfOk result (λ r. r ≡ with_inames self (inames_in (kernel_roles declarations.now) names.now)) }
    {
        let ReadOptions {
            predicate,
            mut named,
            faults,
        } = self;
        add_inames(declarations, names, &mut named)?;
        Ok(ReadOptions {
            predicate,
            named,
            faults,
        })
    }

    /// These, and a predicate.
    fn with_if(self, alloc: Global, reading: Reading) -> Result<ReadOptions, AllocError>
        ensures { IfOk result (λ r. r ≡ with_if self reading) }
    {
        let Reading {
            part,
            depth,
            faults,
        } = reading;
        let tree = part.into_tree(alloc)?;
        let over = split_predicate(alloc, &tree)?.over;
        let deep = is_too_deep(&self.predicate, depth);
        let together = LineFaults {
            limit: deep_limit(deep, over),
            unknown: None,
            taken: None,
            shape: None,
        };
        let wrong = value_faults(faults).or(together);
        Ok(ReadOptions {
            predicate: Some(joined(alloc, self.predicate, Predicate { tree, depth })?),
            named: self.named,
            faults: self.faults.or(wrong),
        })
    }

    /// These, and an option.
    fn with_option(
        self,
        alloc: Global,
        declarations: &Declarations,
        ids: &Ids,
        option: &InsnOption,
    ) -> Result<ReadOptions, AllocError>
        ensures { IfOk result (λ r. r ≡ with_option declarations.now ids.now.ids self option.now) }
    {
        match option {
            InsnOption::Id(_) => Ok(self),
            InsnOption::Dep { .. } => {
                let unknown = unknown_in(alloc, declarations, ids, option)?;
                Ok(self.with_unknown(unknown))
            }
            InsnOption::Inames(names) => {
                let unknown = unknown_in(alloc, declarations, ids, option)?;
                self.with_unknown(unknown)
                    .with_inames(declarations, names.as_slice())
            }
            InsnOption::If(steps) => {
                let reading = read_untyped(alloc, declarations, steps.as_slice())?;
                self.with_if(alloc, reading)
            }
        }
    }
}

/// What the options of an instruction say, in order. The only error is want of memory.
pub(crate) fn read_options(
    alloc: Global,
    declarations: &Declarations,
    ids: &Ids,
    options: &[InsnOption],
) -> Result<ReadOptions, AllocError>
    ensures { IfOk result (λ r. r ≡ options_of declarations.now ids.now.ids options.now) }
{
    let mut read = ReadOptions::none(alloc);
    'options: for option in options {
        read = read.with_option(alloc, declarations, ids, option)?;
    }
    Ok(read)
}
