//! Rational points.
use crate::listed::Listed;

/// A rational point: the numbers of `at`, one for each variable, over the denominator `over`, which is at least 1.
#[derive(Debug, Drop)]
pub struct Point {
    pub over: i64,
    pub at: Listed<i64>,
}
