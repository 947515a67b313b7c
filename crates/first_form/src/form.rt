//! What a file of the one form says.
use affine_rows::Name;

/// The four names and the factor of a kernel `output[iname] = factor*input[iname]` for `iname` from 0 to `param - 1`.
#[derive(Drop)]
pub struct FirstForm {
    pub param: Name,
    pub iname: Name,
    pub input: Name,
    pub output: Name,
    /// At most 1,048,576.
    pub factor: u32,
}
