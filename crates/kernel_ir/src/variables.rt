//! A kernel's variables, by name and by number.
ghost use Rattle.std.specs.Prelude.{◌≡◌, ◌≤◌, ◌^◌, true, nat_eq, [], ◌∷◌, ◌++◌, length, find, slice_get, Some, IfOk, OnOk, OnErr};
ghost use Rattle.std.specs.Option.{option_copied, option_map};
ghost use Rattle.expr_tree.specs.Scenes.{is_among};
ghost use Rattle.kernel_ir.specs.NameSpace.{iname_vars};
ghost use Rattle.kernel_ir.specs.Refusals.{Refuses, find_refusal, fresh_refusal};

use crate::fault::{Fault, Refusal, Site};
use crate::kernel::{Iname, Kernel, Tag};
use affine_rows::Name;
use std::alloc::Global;

/// A kernel has at most so many names.
pub const MAX_NAMES: u32 = 65_536;

impl Kernel {
    /// The tag of an iname of the kernel, by its variable.
    pub fn tag(&self, var: u32) -> Tag
        requires iname { is_among (iname_vars self.now) var ≡ true }
        ensures { option_map (λ i. i.tag) (find (λ i. nat_eq i.var var) self.now.inames) ≡ Some result }
    {
        first_with(self.inames.as_slice(), var).unwrap().tag
    }

    /// The variable of a name, which is its place among the names, counted from 0. It is refused as unknown exactly where it is not among them.
    pub fn find(&self, alloc: Global, name: &Name) -> Result<u32, Fault>
        requires numbered { length self.now.names ≤ 2 ^ 32 }
        ensures found { IfOk result (λ var. slice_get self.now.names var ≡ Some name.now) }
        ensures refused { Refuses (find_refusal self.now.names name.now) result }
    {
        match self.names.position(name) {
            Some(at) => Ok(at as u32),
            None => Err(Fault::Rule(Refusal::unknown(alloc, Site::Kernel, name)?)),
        }
    }

    /// Adds a name at the end of the names and gives its variable. It is refused exactly where it is there already, or else where there are
    /// 65,536 names; the kernel then stays as it was, as it does without memory.
    pub fn fresh(&mut self, alloc: Global, name: &Name) -> Result<u32, Fault>
        ensures var { IfOk result (λ var. var ≡ length self.old.names) }
        ensures added { OnOk result (self.new ≡ record self.old { names = self.old.names ++ name.now ∷ [] }) }
        ensures refused { Refuses (fresh_refusal self.old.names name.now) result }
        ensures unchanged { OnErr result (self.new ≡ self.old) }
    {
        let taken = self.names.position(name).is_some();
        if taken {
            return Err(Fault::Rule(Refusal::taken(alloc, Site::Kernel, name)?));
        }
        let var = self.names.len();
        if var >= MAX_NAMES as usize {
            return Err(Fault::Rule(Refusal::limit(
                alloc,
                Site::Kernel,
                "names",
                MAX_NAMES as i128,
            )?));
        }
        self.names.insert(name.copy(alloc)?)?;
        Ok(var as u32)
    }
}

/// The first iname with this variable.
fn first_with(inames: &[Iname], var: u32) -> Option<&Iname>
    ensures { option_copied result ≡ find (λ i. nat_eq i.var var) inames.now }
{
    inames.iter().find(|iname| iname.var == var)
}
