//! The names that a text declares.
use crate::kinds::Kinds;
use crate::reader::{Reader, Stop, common};
use affine_rows::Name;
use code_text::axis_text;
use code_tree::{CodeArray, CodeCell};
use expr_tree::Cell;
use std::alloc::{AllocError, Global};
use wrap_words::Kind;

/// An array or a cell of a kind, and whether it has a subscript.
#[derive(Clone, Copy, Debug, PartialEq, Eq)]
pub struct Store {
    pub cell: Cell,
    pub kind: Kind,
    pub has_place: bool,
}

/// What a name stands for.
#[derive(Clone, Copy, Debug, PartialEq, Eq)]
pub enum Meaning {
    Var(u32),
    Store(Store),
}

/// Which names may stand at a place: variables, and arrays and cells of some kinds.
#[derive(Clone, Copy)]
pub struct Wanted {
    pub vars: bool,
    pub kinds: Kinds,
}

/// How variables are read: on the launch line each name is one of a parameter that is declared later; then the names of
/// variables that are declared; and the six axes too, from this number on.
#[derive(Clone, Copy, Debug, PartialEq, Eq)]
pub enum Vars {
    Launch,
    Declared,
    WithAxes(u32),
}

/// The names of the axes in a code.
const AXES: [&str; 6] = ["g.0", "g.1", "g.2", "l.0", "l.1", "l.2"];

/// A number of a list that is not longer than a text.
pub fn number_to(length: usize) -> u32 {
    length.min(u32::MAX as usize) as u32
}

/// A name of these bytes.
fn name_of(alloc: Global, bytes: &[u8]) -> Result<Name, AllocError> {
    let mut name = String::new(alloc);
    for byte in bytes {
        name.push(char::from(*byte))?;
    }
    Ok(Name::new(name))
}

impl Wanted {
    fn takes(self, meaning: Option<Meaning>) -> bool {
        match meaning {
            Some(Meaning::Var(_)) => self.vars,
            Some(Meaning::Store(store)) => self.kinds.has(store.kind),
            None => false,
        }
    }
}

impl<'a> Reader<'a> {
    /// Whether all names of the launch line are declared.
    pub fn has_launch(&self) -> bool {
        self.launch
            .as_slice()
            .iter()
            .all(|name| self.spelled.position(name).is_some())
    }

    /// What a name stands for, if it is one that is wanted.
    fn meaning_of(&self, name: &Name, wanted: Wanted) -> Option<Meaning> {
        let meaning = *self.meanings.get(self.spelled.position(name)?)?;
        if wanted.takes(meaning) { meaning } else { None }
    }

    /// Whether a name is wanted.
    fn offers(&self, wanted: Wanted) -> bool {
        self.meanings.iter().any(|meaning| wanted.takes(*meaning))
    }

    /// With how many of these bytes some name that is wanted begins.
    fn agreed_with(&self, bytes: &[u8], wanted: Wanted) -> usize {
        let mut most = 0;
        for at in 0..self.meanings.len() {
            if wanted.takes(self.meanings[at]) {
                let name = self.spelled.get(at).unwrap_or("");
                most = most.max(common(bytes, name.as_bytes()));
            }
        }
        most
    }

    /// Takes a name that is wanted with its `v_`, if one stands here.
    pub fn takes_name(&mut self, wanted: Wanted) -> Result<Option<Meaning>, Stop> {
        if !self.offers(wanted) || !self.takes("v_") {
            return Ok(None);
        }
        let bytes = self.name_bytes();
        let name = name_of(self.alloc, bytes)?;
        let Some(meaning) = self.meaning_of(&name, wanted) else {
            self.agree(self.agreed_with(bytes, wanted));
            return Err(Stop::Refused);
        };
        self.skip(bytes.len());
        Ok(Some(meaning))
    }

    /// Takes any name behind its `v_`.
    fn take_name(&mut self) -> Result<Name, Stop> {
        let bytes = self.name_bytes();
        if bytes.is_empty() || bytes[0].is_ascii_digit() {
            return Err(Stop::Refused);
        }
        self.skip(bytes.len());
        Ok(name_of(self.alloc, bytes)?)
    }

    /// Takes a new name with its `v_`.
    pub fn take_new(&mut self) -> Result<Name, Stop> {
        self.take("v_")?;
        let name = self.take_name()?;
        match self.spelled.position(&name) {
            Some(_) => Err(Stop::Refused),
            None => Ok(name),
        }
    }

    /// Takes an axis, if one stands here. The axes are variables from this number on.
    fn takes_axis(&mut self, first: u32) -> Option<u32> {
        for axis in 0..6u32 {
            if self.takes(axis_text(axis as usize)) {
                return Some(first.saturating_add(axis));
            }
        }
        None
    }

    /// Takes the name of a variable that is declared, if one stands here.
    fn takes_declared(&mut self) -> Result<Option<u32>, Stop> {
        let vars = true;
        let kinds = Kinds::none();
        match self.takes_name(Wanted { vars, kinds })? {
            Some(Meaning::Var(var)) => Ok(Some(var)),
            _ => Ok(None),
        }
    }

    /// Takes a name of the launch line, if one stands here, for which 0 stands.
    fn takes_launch(&mut self) -> Result<Option<u32>, Stop> {
        if !self.takes("v_") {
            return Ok(None);
        }
        let name = self.take_name()?;
        self.launch.push(name)?;
        Ok(Some(0))
    }

    /// Takes a variable, if one stands here.
    pub fn takes_var(&mut self) -> Result<Option<u32>, Stop> {
        match self.vars {
            Vars::Launch => self.takes_launch(),
            Vars::Declared => self.takes_declared(),
            Vars::WithAxes(first) => match self.takes_axis(first) {
                Some(axis) => Ok(Some(axis)),
                None => self.takes_declared(),
            },
        }
    }

    /// A new name stands for this from here on.
    fn declare(&mut self, name: &Name, meaning: Meaning) -> Result<(), AllocError> {
        self.spelled.insert(name.copy(self.alloc)?)?;
        self.meanings.push(Some(meaning))?;
        Ok(())
    }

    /// The variable with this new name, which is the next name of the code.
    pub fn declare_var(&mut self, name: Name) -> Result<u32, AllocError> {
        let var = number_to(self.names.len());
        self.declare(&name, Meaning::Var(var))?;
        self.names.push(name)?;
        Ok(var)
    }

    /// The axes become variables.
    pub fn declare_axes(&mut self) -> Result<(), AllocError> {
        self.vars = Vars::WithAxes(number_to(self.names.len()));
        for axis in AXES {
            self.names.push(Name::from_str(self.alloc, axis)?)?;
        }
        Ok(())
    }

    /// The array with this new name, which is the next one.
    pub fn declare_array(&mut self, array: CodeArray) -> Result<(), AllocError> {
        let store = Store {
            cell: Cell::Array(number_to(self.arrays.len())),
            kind: array.kind,
            has_place: true,
        };
        self.declare(&array.name, Meaning::Store(store))?;
        self.arrays.push(array)
    }

    /// The cell with this new name, which is the next one in text order.
    pub fn declare_cell(&mut self, cell: &CodeCell) -> Result<(), AllocError> {
        let store = Store {
            cell: Cell::Temp(self.cells),
            kind: cell.kind,
            has_place: cell.length.is_some(),
        };
        self.cells = self.cells.saturating_add(1);
        self.declare(&cell.name, Meaning::Store(store))
    }

    /// How many names are declared.
    pub fn declared(&self) -> usize {
        self.meanings.len()
    }

    /// The names after so many of them stand for nothing any more.
    pub fn end_names(&mut self, kept: usize) {
        for meaning in self.meanings.iter_mut().skip(kept) {
            *meaning = None;
        }
    }
}
