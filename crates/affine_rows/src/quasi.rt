//! Quasi-affine forms: sums of variables with floors of such sums.
use crate::listed::Listed;

/// `times * (inner // by)`, where `//` rounds down.
#[cycle(quasi)]
#[derive(Drop)]
pub struct Floor {
    pub times: i64,
    pub inner: Quasi,
    pub by: i64,
}

/// A constant, terms of variables with their factors, and floors.
#[cycle(quasi)]
#[derive(Drop)]
pub struct Quasi {
    pub constant: i64,
    pub terms: Listed<(u32, i64)>,
    pub floors: Listed<Floor>,
}
