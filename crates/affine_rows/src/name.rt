//! Names, and distinct names in the order in which they came.
ghost use Rattle.std.specs.Prelude.{◌≡◌, [], ◌∷◌, ◌++◌, ◌+◌, ◌<◌, take, length, slice_get, bytes_eq, false, not, if◌then◌else◌, IsTrue, ◌↔◌, IfSome, IfOk, OnOk, OnErr};
ghost use Rattle.std.specs.List.{list_any};
ghost use Rattle.std.specs.Option.{option_copied};
ghost use Rattle.std.specs.String.{string_bytes};

use indexmap::IndexSet;
use std::alloc::{AllocError, Global};
use std::marker::Model;

/// A text. Contracts see its bytes.
#[derive(Debug, Drop)]
pub struct Name {
    text: String,
}

impl Model for Name {
    ghost use Rattle.std.specs.Prelude.{List, ℕ};
    ghost use Rattle.std.specs.String.{string_bytes};

    ghost Value = { List ℕ };

    ghost view = { λ n. string_bytes n.text };
}

impl Name {
    /// The text as a name.
    pub fn new(text: String) -> Name
        ensures { result ≡ string_bytes text }
    {
        Name { text }
    }

    /// A copy of the text as a name.
    pub fn from_str(alloc: Global, text: &str) -> Result<Name, AllocError>
        ensures { IfOk result (λ n. n ≡ text.now) }
    {
        let text = String::from_str(alloc, text)?;
        Ok(Name { text })
    }

    /// The name's bytes.
    pub fn as_bytes(&self) -> &[u8]
        ensures { result.now ≡ self.now }
    {
        self.text.as_bytes()
    }

    /// The name's text.
    pub fn as_str(&self) -> &str
        ensures { result.now ≡ self.now }
    {
        self.text.as_str()
    }

    /// An equal name.
    pub fn copy(&self, alloc: Global) -> Result<Name, AllocError>
        ensures { IfOk result (λ n. n ≡ self.now) }
    {
        Name::from_str(alloc, self.text.as_str())
    }
}

/// Distinct names in the order in which they came. Contracts see the list of their bytes.
#[derive(Drop)]
pub struct Names {
    set: IndexSet<String>,
}

impl Model for Names {
    ghost use Rattle.std.specs.Prelude.{List, ℕ, map};
    ghost use Rattle.std.specs.String.{string_bytes};

    ghost Value = { List (List ℕ) };

    ghost use Rattle.std.specs.Prelude.{bytes_eq};
    ghost use Rattle.std.specs.List.{IsDistinct};

    ghost view = { λ n. map string_bytes n.set.keys };

    ghost invariant = { λ n. IsDistinct bytes_eq (map string_bytes n.set.keys) };
}

impl Names {
    /// No names, which takes no memory.
    pub fn new(alloc: Global) -> Names
        ensures { result ≡ [] }
    {
        Names {
            set: IndexSet::new(alloc),
        }
    }

    /// How many names there are.
    pub fn len(&self) -> usize
        ensures { result ≡ length self.now }
    {
        self.set.len()
    }

    /// Whether there are none.
    pub fn is_empty(&self) -> bool
        ensures { IsTrue result ↔ (self.now ≡ []) }
    {
        self.set.is_empty()
    }

    /// The place of a name, counted from 0, if it is there.
    pub fn position(&self, name: &Name) -> Option<usize>
        ensures there { IfSome result (λ at. slice_get self.now at ≡ Some name.now) }
        ensures absent { result ≡ None → list_any (bytes_eq name.now) self.now ≡ false }
    {
        self.set.get_index_of(name.as_str())
    }

    /// The name at a place.
    pub fn get(&self, at: usize) -> Option<&str>
        ensures { option_copied result ≡ slice_get self.now at }
    {
        match self.set.get_index(at) {
            Some(text) => Some(text.as_str()),
            None => None,
        }
    }

    /// Adds a name at the end, unless it is there, and tells whether it did. Without memory the names stay as they were.
    pub fn insert(&mut self, name: Name) -> Result<bool, AllocError>
        ensures added { IfOk result (λ added. added ≡ not (list_any (bytes_eq name) self.old)) }
        ensures names { OnOk result (self.new ≡ (if list_any (bytes_eq name) self.old then self.old else (self.old ++ name ∷ []))) }
        ensures err { OnErr result (self.new ≡ self.old) }
    {
        Ok(self.set.insert(name.text)?)
    }

    /// Equal names.
    pub fn copy(&self, alloc: Global) -> Result<Names, AllocError>
        ensures { IfOk result (λ names. names ≡ self.now) }
    {
        let mut copied = Names::new(alloc);
        for at in 0..self.len() {
            copied.add_from(alloc, self, at)?;
        }
        Ok(copied)
    }

    /// Adds the name at a place of other names, which is new here.
    fn add_from(&mut self, alloc: Global, names: &Names, at: usize) -> Result<(), AllocError>
        requires within { at < length names.now }
        requires copied { self.old ≡ take at names.now }
        ensures { OnOk result (self.new ≡ take (at + 1) names.now) }
    {
        let _ = &names.set;
        if let Some(text) = names.get(at) {
            self.insert(Name::from_str(alloc, text)?)?;
        }
        Ok(())
    }
}
