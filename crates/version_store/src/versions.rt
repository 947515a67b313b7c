//! The current kernel and those that are kept.
ghost use Rattle.std.specs.Prelude.{◌≡◌, [], Some, OnOk, OnErr};
ghost use Rattle.std.specs.Option.{option_copied, option_map};
ghost use Rattle.kernel_ir.specs.Refusals.{Refuses};
ghost use Rattle.version_store.specs.Kept.{back_refusal, is_kept, keep_refusal, kept_under, with_kept};

use affine_rows::{Listed, Name};
use kernel_checks::Sound;
use kernel_ir::{Fault, Refusal, Site};
use std::alloc::Global;

/// At most so many versions are kept.
const MAX_VERSIONS: usize = 16;

/// A version under its name.
#[derive(Drop)]
struct Kept {
    name: Name,
    sound: Sound,
}

/// The current kernel, and the kept versions in the order in which they were kept.
#[derive(Drop)]
pub struct Versions {
    current: Sound,
    kept: Listed<Kept>,
}

/// Whether a version is kept under a name.
fn is_kept(kept: &[Kept], name: &Name) -> bool
    ensures { result ≡ is_kept kept.now name.now }
{
    kept.iter()
        .any(|version| version.name.as_bytes() == name.as_bytes())
}

/// The version that is kept under a name.
fn kept_under<'a>(kept: &'a [Kept], name: &Name) -> Option<&'a Kept>
    ensures { option_copied result ≡ kept_under kept.now name.now }
{
    kept.iter()
        .find(|version| version.name.as_bytes() == name.as_bytes())
}

impl Versions {
    /// The kernel, with no version kept. It takes no memory.
    pub fn new(alloc: Global, first: Sound) -> Versions
        ensures current { result.current ≡ first }
        ensures kept { result.kept ≡ [] }
    {
        Versions {
            current: first,
            kept: Listed::new(alloc),
        }
    }

    /// The current kernel.
    pub fn current(&self) -> &Sound
        ensures { result.now ≡ self.now.current }
    {
        &self.current
    }

    /// Puts the next kernel in the place of the current one.
    pub fn replace(&mut self, next: Sound)
        ensures { self.new ≡ record self.old { current = next } }
    {
        self.current = next;
    }

    /// Keeps the current kernel under a name. It is refused by rule 2 exactly where a version is kept under the name, and else
    /// by rule 3 exactly where 16 are kept; then all is as before, as it is without memory.
    pub fn keep(&mut self, alloc: Global, name: &Name) -> Result<(), Fault>
        ensures kept { OnOk result (self.new ≡ with_kept self.old name.now) }
        ensures refused { Refuses (keep_refusal self.old.kept name.now) result }
        ensures unchanged { OnErr result (self.new ≡ self.old) }
    {
        if is_kept(self.kept.as_slice(), name) {
            return Err(Fault::Rule(Refusal::taken(alloc, Site::Script, name)?));
        }
        if self.kept.len() >= MAX_VERSIONS {
            let limit = MAX_VERSIONS as i128;
            return Err(Fault::Rule(Refusal::limit(alloc, Site::Script, "versions", limit)?));
        }
        let kept = Kept {
            name: name.copy(alloc)?,
            sound: self.current.copy(alloc)?,
        };
        self.kept.push(kept)?;
        Ok(())
    }

    /// Makes the version that is kept under the name the current kernel; it stays kept. It is refused by rule 1 exactly where
    /// none is kept under the name; then all is as before, as it is without memory.
    pub fn back(&mut self, alloc: Global, name: &Name) -> Result<(), Fault>
        ensures current { OnOk result (option_map (λ k. k.sound) (kept_under self.old.kept name.now) ≡ Some self.new.current) }
        ensures kept { self.new.kept ≡ self.old.kept }
        ensures refused { Refuses (back_refusal self.old.kept name.now) result }
        ensures unchanged { OnErr result (self.new ≡ self.old) }
    {
        match kept_under(self.kept.as_slice(), name) {
            None => Err(Fault::Rule(Refusal::unknown(alloc, Site::Script, name)?)),
            Some(version) => {
                let next = version.sound.copy(alloc)?;
                self.current = next;
                Ok(())
            }
        }
    }
}
