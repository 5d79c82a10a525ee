//! What is known of the points of a model so far.

use fz_index::{Ends, Product, Sums};

/// All numbers.
pub(crate) const ALL: Ends = Ends {
    low: i64::MIN,
    high: i64::MAX,
};

/// Of a point of which nothing is known.
pub(crate) const NOTHING: Standing = Standing {
    waits: false,
    open: 0,
    sums: Sums { least: 0, most: 0 },
    top: 0,
    others: i128::MAX,
};

/// What is known of a point so far.
#[derive(Clone, Copy)]
pub(crate) struct Standing {
    /// whether it is on the agenda
    pub(crate) waits: bool,
    /// how many of its variables have no value
    pub(crate) open: usize,
    /// the bounds of its sum
    pub(crate) sums: Sums,
    /// the index of the product that can move furthest, and how far each other one can move at
    /// most: this is measured only when it is needed
    pub(crate) top: usize,
    pub(crate) others: i128,
}

/// What is known of a point with these products.
pub(crate) fn standing_of(products: &[Product], ends: &[Ends]) -> Standing {
    let mut standing = NOTHING;
    for product in products {
        let ends = ends.get(product.variable).copied().unwrap_or(ALL);
        if ends.low < ends.high {
            standing.open = standing.open.saturating_add(1);
        }
        standing.sums = standing.sums.moved(product.coefficient, Ends::at(0), ends);
    }
    standing
}

impl Standing {
    /// Takes note that a variable with this coefficient had these bounds, and has those.
    pub(crate) fn change(&mut self, coefficient: i64, before: Ends, now: Ends) {
        if now.low == now.high {
            self.open = self.open.saturating_sub(1);
        } else if before.low == before.high {
            self.open = self.open.saturating_add(1);
        }
        if coefficient == 0 {
            return;
        }
        self.sums = self.sums.moved(coefficient, before, now);
        if now.low < before.low || before.high < now.high {
            self.others = self.others.max(now.reach(coefficient));
        }
    }
}
