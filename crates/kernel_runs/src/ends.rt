//! The ends of what rows say of one variable.
use run_words::near;

/// The least and the greatest integer.
#[derive(Clone, Copy, Debug, PartialEq, Eq)]
pub struct Span {
    pub low: i64,
    pub high: i64,
}

impl Span {
    /// How many numbers there are. The last number of 64 bits stands for one more than it too.
    pub fn size(self) -> u64 {
        if self.high < self.low {
            return 0;
        }
        // The difference of two numbers of 64 bits is exact in 128.
        let above = i128::from(self.high).saturating_sub(i128::from(self.low));
        u64::try_from(above).unwrap_or(u64::MAX).saturating_add(1)
    }

    /// The span of both.
    pub fn joined(self, other: Span) -> Span {
        Span {
            low: self.low.min(other.low),
            high: self.high.max(other.high),
        }
    }
}

/// The rational number `whole + rest/by`, where `rest` is at least 0 and less than `by`.
#[derive(Clone, Copy, Debug, PartialEq, Eq)]
struct Ratio {
    whole: i128,
    rest: i128,
    by: i128,
}

impl Ratio {
    /// A number divided by one that is at least 1.
    fn new(number: i128, by: i64) -> Ratio {
        let by = i128::from(by.max(1));
        Ratio {
            whole: number.div_euclid(by),
            rest: number.rem_euclid(by),
            by,
        }
    }

    fn is_less(self, other: Ratio) -> bool {
        // Both rests are less than their divisors, which are at most 2^63, so the products are exact.
        let mine = self.rest.saturating_mul(other.by);
        let others = other.rest.saturating_mul(self.by);
        self.whole < other.whole || (self.whole == other.whole && mine < others)
    }

    /// The least integer that is not less.
    fn up(self) -> i64 {
        let more = if self.rest == 0 { 0 } else { 1 };
        // `near` gives the same for the sum and for the greatest number of 128 bits.
        near(self.whole.saturating_add(more))
    }

    /// The greatest integer that is not greater.
    fn down(self) -> i64 {
        near(self.whole)
    }
}

/// What rows over one variable say: its least and its greatest rational number, or that there is none.
#[derive(Clone, Copy, Debug, PartialEq, Eq)]
pub struct Ends {
    low: Option<Ratio>,
    high: Option<Ratio>,
    is_empty: bool,
}

/// No row says anything.
pub const OPEN: Ends = Ends {
    low: None,
    high: None,
    is_empty: false,
};

fn greater(known: Option<Ratio>, other: Ratio) -> Ratio {
    match known {
        Some(known) if other.is_less(known) => known,
        _ => other,
    }
}

fn less(known: Option<Ratio>, other: Ratio) -> Ratio {
    match known {
        Some(known) if known.is_less(other) => known,
        _ => other,
    }
}

impl Ends {
    /// With the row that a multiple of the variable and a number are at least 0. No entry of a row passes 2^62, and no number
    /// of one 2^101, so the signs are turned exactly.
    fn with_half(self, factor: i64, number: i128) -> Ends {
        if factor > 0 {
            let low = Some(greater(self.low, Ratio::new(number.saturating_neg(), factor)));
            Ends { low, ..self }
        } else if factor < 0 {
            let high = Some(less(self.high, Ratio::new(number, factor.saturating_neg())));
            Ends { high, ..self }
        } else {
            Ends {
                is_empty: self.is_empty || number < 0,
                ..self
            }
        }
    }

    /// With the row that they are at least 0, or equal 0.
    pub fn with_row(self, factor: i64, number: i128, equal: bool) -> Ends {
        let ends = self.with_half(factor, number);
        if equal {
            ends.with_half(factor.saturating_neg(), number.saturating_neg())
        } else {
            ends
        }
    }

    /// The integers from the least to the greatest number, none where there is no number. An end that is missing is the
    /// end of all numbers.
    pub fn span(self) -> Option<Span> {
        let crossed = match (self.low, self.high) {
            (Some(low), Some(high)) => high.is_less(low),
            _ => false,
        };
        if self.is_empty || crossed {
            return None;
        }
        Some(Span {
            low: match self.low {
                Some(low) => low.up(),
                None => i64::MIN,
            },
            high: match self.high {
                Some(high) => high.down(),
                None => i64::MAX,
            },
        })
    }
}
