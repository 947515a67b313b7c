//! Rows over index forms.
use affine_rows::Form;

/// The form is at least 0, or equals 0 where `equal` holds.
#[derive(Drop)]
pub struct QuasiRow {
    pub form: Form,
    pub equal: bool,
}
