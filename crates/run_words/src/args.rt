//! The arguments of a run.
use affine_rows::{Listed, Name};

/// Numbers of parameters, and lists of numbers. No name stands in it twice, the two lists taken together.
#[derive(Drop)]
pub struct Args {
    pub params: Listed<(Name, i64)>,
    pub lists: Listed<(Name, Listed<i128>)>,
}

impl Args {
    /// The number of a line of one number, if the name has such a line.
    pub fn number(&self, name: &Name) -> Option<i64> {
        for entry in self.params.as_slice() {
            if entry.0.as_bytes() == name.as_bytes() {
                return Some(entry.1);
            }
        }
        None
    }

    /// The numbers of another line, if the name has such a line.
    pub fn list(&self, name: &Name) -> Option<&[i128]> {
        for entry in self.lists.as_slice() {
            if entry.0.as_bytes() == name.as_bytes() {
                return Some(entry.1.as_slice());
            }
        }
        None
    }

    /// How many numbers the name's line has, if there is one.
    pub fn count(&self, name: &Name) -> Option<usize> {
        match self.number(name) {
            Some(_) => Some(1),
            None => match self.list(name) {
                Some(numbers) => Some(numbers.len()),
                None => None,
            },
        }
    }
}
