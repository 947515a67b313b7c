//! Rows of words in one vector, of each row so many copies.
use std::alloc::{AllocError, Global};

/// How many copies there are of a row, and how many words each has.
#[derive(Clone, Copy)]
pub struct Extent {
    pub copies: u32,
    pub length: u32,
}

impl Extent {
    /// How many words all copies have.
    pub fn words(self) -> u64 {
        u64::from(self.copies) * u64::from(self.length)
    }
}

/// The words of rows. The copies of a row stand one after the other, and the rows likewise.
#[derive(Drop)]
pub struct Shelf<T> {
    extents: Vec<Extent>,
    starts: Vec<usize>,
    words: Vec<T>,
}

/// A length, which is small where the words of a run fit.
pub fn length_of(count: usize) -> u32 {
    count.min(u32::MAX as usize) as u32
}

/// How many words rows have.
pub fn words_of(extents: &[Extent]) -> u64 {
    let mut words: u64 = 0;
    for extent in extents {
        words = words.saturating_add(extent.words());
    }
    words
}

impl<T: Copy + Drop> Shelf<T> {
    /// Rows filled with one word.
    pub fn new(alloc: Global, extents: &[Extent], word: T) -> Result<Shelf<T>, AllocError> {
        let mut starts = Vec::new(alloc);
        let mut all: usize = 0;
        for extent in extents {
            starts.push(all)?;
            all = all.saturating_add(extent.words() as usize);
        }
        Ok(Shelf {
            extents: Vec::from_slice(alloc, extents)?,
            starts,
            words: vec![in alloc; word; all]?,
        })
    }

    /// How many words a row has.
    pub fn size(&self, row: usize) -> usize {
        match self.extents.get(row) {
            Some(extent) => extent.length as usize,
            None => 0,
        }
    }

    /// The place of a word in the vector, if there is such a copy of the row and it has it.
    fn place(&self, copy: u32, row: usize, index: i64) -> Option<usize> {
        let extent = self.extents.get(row)?;
        let start = self.starts.get(row)?;
        if copy >= extent.copies || index < 0 || index >= i64::from(extent.length) {
            return None;
        }
        let before = copy as usize * extent.length as usize;
        start.checked_add(before)?.checked_add(index as usize)
    }

    /// The word at an index of a copy of a row, if it has it.
    pub fn get(&self, copy: u32, row: usize, index: i64) -> Option<T> {
        self.words.get(self.place(copy, row, index)?).copied()
    }

    /// Puts a word at an index of a copy of a row, if it has it.
    pub fn put(&mut self, copy: u32, row: usize, index: i64, word: T) {
        if let Some(place) = self.place(copy, row, index) {
            if place < self.words.len() {
                self.words[place] = word;
            }
        }
    }

    /// The words of a copy of a row.
    pub fn row(&self, copy: u32, row: usize) -> &[T] {
        let words = self.words.as_slice();
        let from = self.place(copy, row, 0).unwrap_or(0).min(words.len());
        let to = from
            .saturating_add(self.size(row) as usize)
            .min(words.len());
        &words[from..to]
    }

    /// Fills a copy of a row with one word.
    pub fn fill(&mut self, copy: u32, row: usize, word: T) {
        for index in 0..length_of(self.size(row)) {
            self.put(copy, row, i64::from(index), word);
        }
    }
}
