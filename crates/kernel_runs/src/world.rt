//! What an evaluation works on: the numbers of variables, and the words of arrays and temporaries.
use crate::numbers::Numbers;
use affine_rows::{Form, Vars};
use expr_tree::Cell;
use std::alloc::{AllocError, Global};
use wrap_words::{Kind, Word};

/// The word 0.
pub const ZERO: Word = Word { bits: 0 };

/// A word, and the turn in which it was put.
#[derive(Clone, Copy)]
struct Mark {
    turn: u64,
    word: Word,
}

/// An array, or a temporary at the home values of this turn: its kind, its extents, and its words. A word that was put in an
/// earlier turn is gone, so that a turn begins with 0 everywhere.
#[derive(Drop)]
pub struct Held {
    pub kind: Kind,
    extents: Vec<i128>,
    turn: u64,
    marks: Vec<Mark>,
}

/// The place in a list of words, the last subscript varying fastest, of subscripts in these extents. It is less than the
/// product of the extents, and so exact where there are words.
fn flat_index<V: Vars>(extents: &[i128], place: &[Form], vars: &V) -> Option<usize> {
    let mut index: i128 = 0;
    for at in 0..extents.len().min(place.len()) {
        let subscript = place[at].value(vars);
        if subscript < 0 || subscript >= extents[at] {
            return None;
        }
        index = index.saturating_mul(extents[at]).saturating_add(subscript);
    }
    usize::try_from(index).ok()
}

impl Held {
    /// An array or temporary without words.
    pub fn new(alloc: Global, kind: Kind, extents: Vec<i128>) -> Held {
        Held {
            kind,
            extents,
            turn: 0,
            marks: Vec::new(alloc),
        }
    }

    /// Adds a word at the end.
    pub fn push(&mut self, word: Word) -> Result<(), AllocError> {
        self.marks.push(Mark {
            turn: self.turn,
            word,
        })?;
        Ok(())
    }

    /// Makes room for so many words more.
    pub fn reserve(&mut self, count: usize) -> Result<(), AllocError> {
        self.marks.reserve(count)
    }

    /// How many words there are.
    pub fn len(&self) -> usize {
        self.marks.len()
    }

    /// The word with so many before it, 0 where there is none.
    pub fn word(&self, at: usize) -> Word {
        match self.marks.get(at) {
            Some(mark) if mark.turn == self.turn => mark.word,
            _ => ZERO,
        }
    }

    fn read<V: Vars>(&self, place: &[Form], vars: &V) -> Word {
        match flat_index(&self.extents, place, vars) {
            Some(at) => self.word(at),
            None => ZERO,
        }
    }

    fn write<V: Vars>(&mut self, place: &[Form], vars: &V, word: Word) {
        if let Some(at) = flat_index(&self.extents, place, vars) {
            if at < self.marks.len() {
                self.marks[at] = Mark {
                    turn: self.turn,
                    word,
                };
            }
        }
    }

    /// Begins a turn: each word is 0. There are far fewer turns than numbers of 64 bits.
    fn begin(&mut self) {
        self.turn = self.turn.saturating_add(1);
    }
}

/// Puts a word at a place of one of these.
fn write_in<V: Vars>(all: &mut Vec<Held>, at: u32, place: &[Form], vars: &V, word: Word) {
    let at = at as usize;
    if at < all.len() {
        all[at].write(place, vars, word);
    }
}

/// The numbers of variables, the arrays, and the temporaries at the home values of this moment.
#[derive(Drop)]
pub struct World {
    pub numbers: Numbers,
    pub arrays: Vec<Held>,
    pub temps: Vec<Held>,
}

impl World {
    fn held(&self, cell: Cell) -> Option<&Held> {
        match cell {
            Cell::Array(at) => self.arrays.get(at as usize),
            Cell::Temp(at) => self.temps.get(at as usize),
        }
    }

    /// The kind of an array or temporary.
    pub fn kind(&self, cell: Cell) -> Kind {
        match self.held(cell) {
            Some(held) => held.kind,
            None => Kind::I32,
        }
    }

    /// The word at a place, 0 outside the extents.
    pub fn read(&self, cell: Cell, place: &[Form]) -> Word {
        match self.held(cell) {
            Some(held) => held.read(place, &self.numbers),
            None => ZERO,
        }
    }

    /// Puts a word at a place. Outside the extents it is lost.
    pub fn write(&mut self, cell: Cell, place: &[Form], word: Word) {
        match cell {
            Cell::Array(at) => write_in(&mut self.arrays, at, place, &self.numbers, word),
            Cell::Temp(at) => write_in(&mut self.temps, at, place, &self.numbers, word),
        }
    }

    /// Begins these temporaries at 0.
    pub fn begin(&mut self, temps: &[u32]) {
        for temp in temps {
            let at = *temp as usize;
            if at < self.temps.len() {
                self.temps[at].begin();
            }
        }
    }
}
