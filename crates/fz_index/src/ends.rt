//! Bounds of variables. A Boolean is 0 or 1 there.

/// The numbers from one to another; none where the first is above the second.
#[derive(Clone, Copy)]
pub struct Ends {
    pub low: i64,
    pub high: i64,
}

/// The end of some bounds from which on numbers are counted.
#[derive(Clone, Copy)]
pub enum End {
    Low,
    High,
}

impl Ends {
    /// One number alone.
    pub fn at(number: i64) -> Ends {
        Ends {
            low: number,
            high: number,
        }
    }

    /// The same without so many numbers from an end on.
    pub fn less(self, from: End, count: i64) -> Ends {
        let mut left = self;
        match from {
            End::Low => left.low = left.low.saturating_add(count),
            End::High => left.high = left.high.saturating_sub(count),
        }
        left
    }

    /// The same without a number, where that is an end.
    pub fn without(self, number: i64) -> Ends {
        if number == self.low {
            self.less(End::Low, 1)
        } else if number == self.high {
            self.less(End::High, 1)
        } else {
            self
        }
    }

    /// How far apart the ends are.
    pub fn width(self) -> i128 {
        i128::from(self.high).saturating_sub(i128::from(self.low))
    }

    /// The least and the greatest product with a coefficient.
    pub fn times(self, coefficient: i64) -> (i128, i128) {
        let low = i128::from(coefficient).saturating_mul(i128::from(self.low));
        let high = i128::from(coefficient).saturating_mul(i128::from(self.high));
        (low.min(high), low.max(high))
    }

    /// How far a product with a coefficient can move.
    pub fn reach(self, coefficient: i64) -> i128 {
        let (low, high) = self.times(coefficient);
        high.saturating_sub(low)
    }
}
