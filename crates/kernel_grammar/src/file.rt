//! A whole kernel file.
use crate::item::Item;
use affine_rows::Listed;

/// What a line says, with its number, counted from 1.
#[derive(Drop)]
pub struct Entry {
    pub line: u32,
    pub item: Item,
}

/// The lines that say something behind the first such line, which is `kernel 1`.
#[derive(Drop)]
pub struct KernelFile {
    pub entries: Listed<Entry>,
}
