//! The points of a reduction's inames.
use crate::numbers::Numbers;
use crate::steps::Spans;

/// How many points the inames have: one for each choice of their numbers. An evaluation has at least as many steps, so that
/// the product is exact where these are few enough.
pub fn count_points(spans: &Spans, inames: &[u32]) -> u64 {
    let mut count: u64 = 1;
    for var in inames {
        count = count.saturating_mul(spans.size(*var));
    }
    count
}

/// Gives the iname its number, the first one and so many more.
fn set_number(spans: &Spans, numbers: &mut Numbers, var: u32, more: u64) {
    if let Some(span) = spans.of(var) {
        // There are fewer more than the span has numbers, so the sum is none past its end.
        let more = more.min(i64::MAX as u64) as i64;
        numbers.set(var, span.low.saturating_add(more));
    }
}

/// Gives the inames the numbers of the point with so many points before it, where the last iname varies fastest.
pub fn set_point(spans: &Spans, numbers: &mut Numbers, inames: &[u32], point: u64) {
    let mut left = point;
    for place in 0..inames.len() {
        let var = inames[inames.len() - 1 - place];
        let size = spans.size(var).max(1);
        set_number(spans, numbers, var, left % size);
        left = left / size;
    }
}
