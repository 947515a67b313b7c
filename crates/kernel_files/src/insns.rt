//! Instructions.
ghost use Rattle.std.specs.Prelude.{◌≡◌, [], ◌∷◌, ◌++◌, flat_map, length, IfOk, OnOk};
ghost use Rattle.std.specs.Option.{option_map};
ghost use Rattle.untyped.specs.Exprs.{test_of, folding_op};
ghost use Rattle.kernel_files.specs.Insns.{cell_faults, trees_in, trees, mentioned, bound_in, widths, inames_among, first_taken, storing_of, rows_of, rest_in, insn_of, insn_tree, IsShallow, IsShallowRest, read_insn, size_with, whole_limit, taken_in, whole_faults};

use crate::inames::{bound_in, count_reductions, first_taken, inames_among, mentions_in};
use crate::options::{Predicate, read_options, unknown_only};
use affine_rows::{Form, Listed, Name, copy_forms};
use expr_tree::{Cell, Op, QuasiRow, Steps, Test};
use kernel_grammar::{Extreme, Folding, InsnOption, Step, Stored};
use kernel_ir::{Insn, Storing};
use kernel_lines::{
    deps_of, is_automatic, read_forms, read_value, stored_cell, truth_of, value_of,
};
use kernel_names::{Declarations, Ids, Limit, LineFaults};
use std::alloc::{AllocError, Global};
use std::sync::ledger::Ledger;
use untyped::{Term, Untyped};
use untyped_parts::{InsnTree, split_predicate};

/// What an instruction says: its cell, subscripts and value, its predicate, the inames of `inames=`, and what is wrong in
/// these first. Where its name is no cell that may be stored to, another cell stands for it.
#[derive(Drop)]
pub struct ReadInsn {
    pub cell: Cell,
    pub place: Listed<Form>,
    pub value: Untyped,
    pub predicate: Option<Predicate>,
    pub named: Listed<u32>,
    pub faults: LineFaults,
}

fn cell_faults(alloc: Global, cell: Option<Cell>, name: &Name) -> Result<LineFaults, AllocError>
    ensures { IfOk result (λ f. f ≡ cell_faults cell name.now) }
{
    match cell {
        Some(_) => Ok(unknown_only(None)),
        None => Ok(unknown_only(Some(name.copy(alloc)?))),
    }
}

/// What an instruction says. The only error is want of memory.
#[tactic(auto, using(crate::proofs::OptionDepths::shallow_options))]
pub(crate) fn read_insn(
    alloc: Global,
    declarations: &Declarations,
    ids: &Ids,
    name: &Name,
    place: &[Listed<Step>],
    stored: Stored,
    value: &[Step],
    options: &[InsnOption],
) -> Result<ReadInsn, AllocError>
    ensures insn { IfOk result (λ r. r ≡ read_insn declarations.now ids.now.ids name.now place.now stored value.now options.now) }
    ensures shallow { IfOk result IsShallow }
{
    let cell = stored_cell(declarations, name, place.len());
    let of_cell = cell_faults(alloc, cell, name)?;
    let (place, of_place) = read_forms(alloc, declarations, name, place)?;
    let (value, of_value) = read_value(alloc, declarations, stored, value)?;
    let options = read_options(alloc, declarations, ids, options)?;
    Ok(ReadInsn {
        cell: cell.unwrap_or(Cell::Temp(0)),
        place,
        value,
        predicate: options.predicate,
        named: options.named,
        faults: of_cell.or(of_place.or(of_value.or(options.faults))),
    })
}

/// Adds the tree of a predicate.
fn add_tree(predicate: &Option<Predicate>, trees: &mut Listed<Untyped>) -> Result<(), AllocError>
    ensures { OnOk result (trees.new ≡ trees.old ++ trees_in predicate.now) }
{
    match predicate {
        Some(predicate) => trees.push(predicate.tree.copy()?),
        None => Ok(()),
    }
}

/// The operator of an update.
fn op_of(folding: Folding) -> Op
    ensures { result ≡ folding_op folding }
{
    match folding {
        Folding::Sum => Op::Add,
        Folding::Product => Op::Mul,
        Folding::Extreme(Extreme::Min) => Op::Min,
        Folding::Extreme(Extreme::Max) => Op::Max,
    }
}

fn storing_of(stored: Stored) -> Storing
    ensures { result ≡ storing_of stored }
{
    match stored {
        Stored::Plain => Storing::Plain,
        Stored::Update(folding) => Storing::Update(op_of(folding)),
    }
}

/// The rows and the rest of a predicate.
fn parts_of(
    alloc: Global,
    predicate: &Option<Predicate>,
) -> Result<(Listed<QuasiRow>, Option<Untyped>), AllocError>
    ensures rows { IfOk result (λ r. r.0 ≡ rows_of predicate.now) }
    ensures rest { IfOk result (λ r. r.1 ≡ rest_in predicate.now) }
{
    match predicate {
        None => Ok((Listed::new(alloc), None)),
        Some(predicate) => {
            let split = split_predicate(alloc, &predicate.tree)?;
            Ok((split.rows, split.rest))
        }
    }
}

/// The data test.
fn test_of_rest<L: Ledger>(
    alloc: Global,
    rest: &Option<Untyped>,
    steps: &mut Steps<L>,
) -> Result<Option<Test>, AllocError>
    requires { IsShallowRest rest.now }
    ensures { IfOk result (λ t. t ≡ option_map test_of rest.now) }
{
    match rest {
        None => Ok(None),
        Some(rest) => Ok(Some(truth_of(alloc, rest, steps)?)),
    }
}

fn whole_limit(inames: usize, size: u32) -> Option<Limit>
    ensures { result ≡ whole_limit inames size }
{
    if inames > 16 {
        Some(Limit::Inames)
    } else if size > 64 {
        Some(Limit::Instructions)
    } else {
        None
    }
}

impl ReadInsn {
    /// The store as if it were read, the value and the predicate.
    fn trees(&self, alloc: Global) -> Result<Listed<Untyped>, AllocError>
        ensures { IfOk result (λ ts. ts ≡ trees self.now) }
    {
        let place = copy_forms(alloc, self.place.as_slice())?;
        let mut trees = Listed::of_one(
            alloc,
            Untyped::of_term(alloc, Term::Read(self.cell, place))?,
        )?;
        trees.push(self.value.copy()?)?;
        add_tree(&self.predicate, &mut trees)?;
        Ok(trees)
    }

    /// The variables that are mentioned outside the reductions that bind them, and those of `inames=`.
    fn mentioned(&self, alloc: Global) -> Result<Listed<u32>, AllocError>
        ensures { IfOk result (λ vars. vars ≡ mentioned self.now) }
    {
        let trees = self.trees(alloc)?;
        let mut vars = mentions_in(alloc, trees.as_slice())?;
        let mut named = Listed::from_slice(alloc, self.named.as_slice())?.into_vec();
        vars.append(&mut named)?;
        Ok(Listed::from_vec(vars))
    }

    /// The inames that reductions bind.
    fn bound(&self, alloc: Global) -> Result<Listed<u32>, AllocError>
        ensures { IfOk result (λ vars. vars ≡ bound_in self.now) }
    {
        let trees = self.trees(alloc)?;
        Ok(Listed::from_vec(bound_in(alloc, trees.as_slice())?))
    }

    /// How many inames there are, those of reductions among them.
    fn count_inames(&self, alloc: Global, declarations: &Declarations) -> Result<usize, AllocError>
        ensures { IfOk result (λ n. n ≡ length (inames_among declarations.now (mentioned self.now ++ bound_in self.now))) }
    {
        let mut vars = self.mentioned(alloc)?.into_vec();
        let mut bound = self.bound(alloc)?.into_vec();
        vars.append(&mut bound)?;
        Ok(inames_among(alloc, declarations, vars.as_slice())?.len())
    }

    /// The instructions with this one, each reduction counting two more; 65 stands for all that is more.
    pub(crate) fn size_behind(&self, alloc: Global, size: u32) -> Result<u32, AllocError>
        ensures { IfOk result (λ n. n ≡ size_with size self.now) }
    {
        let trees = self.trees(alloc)?;
        let reductions = count_reductions(alloc, trees.as_slice())?;
        Ok((size as u128 + 1 + 2 * reductions as u128).min(65) as u32)
    }

    /// The name of the first iname that is taken, or else the id if that is.
    fn taken(
        &self,
        alloc: Global,
        declarations: &Declarations,
        id: &Name,
        is_taken: bool,
    ) -> Result<Option<Name>, AllocError>
        ensures { IfOk result (λ n. n ≡ taken_in declarations.now id.now is_taken self.now) }
    {
        let mentioned = self.mentioned(alloc)?;
        let own = inames_among(alloc, declarations, mentioned.as_slice())?;
        let bound = self.bound(alloc)?;
        match first_taken(alloc, own.as_slice(), bound.as_slice())? {
            Some(iname) => Ok(Some(declarations.name(alloc, iname)?)),
            None if is_taken => Ok(Some(id.copy(alloc)?)),
            None => Ok(None),
        }
    }

    /// What is wrong with the instruction as a whole: too many inames or instructions, and an iname or an id that is taken.
    pub(crate) fn whole_faults(
        &self,
        alloc: Global,
        declarations: &Declarations,
        id: &Name,
        is_taken: bool,
        size: u32,
    ) -> Result<LineFaults, AllocError>
        ensures { IfOk result (λ f. f ≡ whole_faults declarations.now id.now is_taken size self.now) }
    {
        let inames = self.count_inames(alloc, declarations)?;
        Ok(LineFaults {
            limit: whole_limit(inames, size),
            unknown: None,
            taken: self.taken(alloc, declarations, id, is_taken)?,
            shape: None,
        })
    }

    /// The instruction, and it before its kinds are asked.
    pub(crate) fn to_insn<L: Ledger>(
        &self,
        alloc: Global,
        declarations: &Declarations,
        id: &Name,
        line: u32,
        stored: Stored,
        options: &[InsnOption],
        steps: &mut Steps<L>,
    ) -> Result<(Insn, InsnTree), AllocError>
        requires { IsShallow self.now }
        ensures insn { IfOk result (λ r. r.0 ≡ insn_of declarations.now id.now line stored self.now options.now) }
        ensures tree { IfOk result (λ r. r.1 ≡ insn_tree line self.now) }
    {
        let mentioned = self.mentioned(alloc)?;
        let inames = inames_among(alloc, declarations, mentioned.as_slice())?;
        let (rows, rest) = parts_of(alloc, &self.predicate)?;
        let insn = Insn {
            id: id.copy(alloc)?,
            line,
            inames,
            rows,
            test: test_of_rest(alloc, &rest, steps)?,
            cell: self.cell,
            value: value_of(alloc, &self.value, steps)?,
            place: copy_forms(alloc, self.place.as_slice())?,
            storing: storing_of(stored),
            deps: deps_of(alloc, options)?,
            auto: is_automatic(options),
        };
        let tree = InsnTree {
            line,
            cell: self.cell,
            value: self.value.copy()?,
            test: rest,
        };
        Ok((insn, tree))
    }
}
