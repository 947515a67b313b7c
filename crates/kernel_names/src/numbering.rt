//! Names with numbers of 32 bits.
ghost use Rattle.std.specs.Prelude.{◌≡◌, [], ◌∷◌, ◌++◌, length, bytes_eq, slice_get, unwrap_or, if◌then◌else◌, IfOk, OnOk};
ghost use Rattle.std.specs.List.{list_any, position};

use affine_rows::{Name, Names};
use std::alloc::{AllocError, Global};
use std::marker::Model;

/// Distinct names, each with its place as its number. Contracts see the list of their bytes.
#[derive(Drop)]
pub(crate) struct Numbering {
    names: Names,
}

impl Model for Numbering {
    ghost use Rattle.std.specs.Prelude.{List, ℕ};
    ghost use Rattle.kernel_names.specs.Numbered.{IsNumbered};

    ghost Value = { List (List ℕ) };

    ghost view = { λ n. n.names };

    ghost invariant = { λ n. IsNumbered n.names };
}

impl Numbering {
    /// No names, which takes no memory.
    pub(crate) fn new(alloc: Global) -> Numbering
        ensures { result ≡ [] }
    {
        Numbering {
            names: Names::new(alloc),
        }
    }

    /// How many names there are.
    pub(crate) fn len(&self) -> u32
        ensures { result ≡ length self.now }
    {
        self.names.len() as u32
    }

    /// The number of a name, if it is there.
    pub(crate) fn position(&self, name: &Name) -> Option<u32>
        ensures { result ≡ position (bytes_eq name.now) self.now }
    {
        match self.names.position(name) {
            Some(at) => Some(at as u32),
            None => None,
        }
    }

    /// The name with a number; empty where there is none.
    pub(crate) fn name(&self, alloc: Global, at: u32) -> Result<Name, AllocError>
        ensures { IfOk result (λ n. n ≡ unwrap_or (slice_get self.now at) []) }
    {
        match self.names.get(at as usize) {
            Some(text) => Name::from_str(alloc, text),
            None => Name::from_str(alloc, ""),
        }
    }

    /// Whether a name is there.
    pub(crate) fn has(&self, name: &Name) -> bool
        ensures { result ≡ list_any (bytes_eq name.now) self.now }
    {
        self.position(name).is_some()
    }

    /// Adds a name at the end, unless it is there. Names that would have no number of 32 bits are answered as want of memory.
    pub(crate) fn insert(&mut self, alloc: Global, name: &Name) -> Result<(), AllocError>
        ensures { OnOk result (self.new ≡ (if list_any (bytes_eq name.now) self.old then self.old else (self.old ++ name.now ∷ []))) }
    {
        if self.names.len() >= u32::MAX as usize {
            return Err(AllocError);
        }
        self.names.insert(name.copy(alloc)?)?;
        Ok(())
    }

    /// The names.
    pub(crate) fn into_names(self) -> Names
        ensures { result ≡ self }
    {
        let Numbering { names } = self;
        names
    }
}
