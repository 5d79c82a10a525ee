//! Narrower bounds of a variable, where a point shows them.

ghost use Rattle.std.specs.Prelude.{◌≡◌, ◌<◌, pos, ◌+ℤ◌, ◌-ℤ◌, IfOk, IsTrue, OnErr, length};
ghost use Rattle.std.specs.Int.{int_max, int_min};
ghost use Rattle.fz_model.specs.Meaning.{Assignment, points};
ghost use Rattle.fz_bounds.specs.Bounds.{IsInside};
ghost use Rattle.fz_bounds.specs.Ends.{AreEndsAt, Excludes, IsTightened};

use crate::bounds::Bounds;
use crate::ends::KindEnds;
use crate::refuting::cannot_hold;
use fz_store::Model;
use std::alloc::{AllocError, Global};

/// So many numbers of a variable are tried one by one.
const TRIED: i64 = 1_000;

/// What a point takes from the bounds of a variable.
#[derive(Clone, Copy)]
pub enum Tightened {
    /// The bounds are as narrow as was asked, and were these.
    Narrowed(KindEnds),
    /// They would have no number: the point holds nowhere inside the bounds.
    Empty,
    /// The point doesn't show it. The bounds stay as they were.
    Unshown,
}

/// A variable with its bounds, and the point that is asked about it.
#[derive(Clone, Copy)]
struct Asked<'m, 'a> {
    model: &'m Model<'a>,
    point: usize,
    variable: usize,
    ends: KindEnds,
}

impl Bounds {
    /// Takes from a variable the numbers outside `low..=high`, where the point of a number cannot
    /// hold with them. It tries all those below at once, and all those above; and up to 1,000 of
    /// them one by one. Of a Boolean 0 is false and 1 is true.
    ///
    /// # Errors
    ///
    /// Out of memory. The bounds are as they were.
    pub fn tighten(
        &mut self,
        alloc: Global,
        model: &Model<'_>,
        point: usize,
        variable: usize,
        low: i64,
        high: i64,
    ) -> Result<Tightened, AllocError>
        requires in_range { point < length (points model.now) }
        ensures told { IfOk result (IsTightened model.now point variable self.old self.new) }
        ensures within { (A : Assignment) → IsInside self.new A → IsInside self.old A }
        ensures unchanged { OnErr result (self.new ≡ self.old) }
    {
        let Some(ends) = self.ends(variable) else {
            return Ok(Tightened::Unshown);
        };
        let asked = Asked {
            model,
            point,
            variable,
            ends,
        };
        if !self.takes_below(alloc, &asked, low)? {
            return Ok(Tightened::Unshown);
        }
        if !self.takes_above(alloc, &asked, high)? {
            return Ok(Tightened::Unshown);
        }
        let least = low.max(ends.low);
        let most = high.min(ends.high);
        if most < least {
            return Ok(Tightened::Empty);
        }
        self.narrow(variable, ends.kind, least, most);
        Ok(Tightened::Narrowed(ends))
    }

    /// Whether the point cannot hold with a number within the bounds that is below `low`.
    fn takes_below(
        &mut self,
        alloc: Global,
        asked: &Asked<'_, '_>,
        low: i64,
    ) -> Result<bool, AllocError>
        requires in_range { asked.now.point < length (points asked.now.model.now) }
        requires ends { AreEndsAt self.old asked.now.variable asked.now.ends }
        ensures same { self.new ≡ self.old }
        ensures never { IfOk result (λ b. IsTrue b → Excludes asked.now.model.now asked.now.point
            self.old asked.now.variable asked.now.ends.kind asked.now.ends.low
            (int_min asked.now.ends.high (low -ℤ pos 1))) }
    {
        if low <= asked.ends.low {
            return Ok(true);
        }
        self.cannot_lie(alloc, asked, asked.ends.low, asked.ends.high.min(low - 1))
    }

    /// Whether the point cannot hold with a number within the bounds that is above `high`.
    fn takes_above(
        &mut self,
        alloc: Global,
        asked: &Asked<'_, '_>,
        high: i64,
    ) -> Result<bool, AllocError>
        requires in_range { asked.now.point < length (points asked.now.model.now) }
        requires ends { AreEndsAt self.old asked.now.variable asked.now.ends }
        ensures same { self.new ≡ self.old }
        ensures never { IfOk result (λ b. IsTrue b → Excludes asked.now.model.now asked.now.point
            self.old asked.now.variable asked.now.ends.kind
            (int_max asked.now.ends.low (high +ℤ pos 1)) asked.now.ends.high) }
    {
        if asked.ends.high <= high {
            return Ok(true);
        }
        self.cannot_lie(alloc, asked, asked.ends.low.max(high + 1), asked.ends.high)
    }

    /// Whether the point cannot hold with a number of the variable from one to another.
    fn cannot_lie(
        &mut self,
        alloc: Global,
        asked: &Asked<'_, '_>,
        from: i64,
        to: i64,
    ) -> Result<bool, AllocError>
        requires in_range { asked.now.point < length (points asked.now.model.now) }
        requires ends { AreEndsAt self.old asked.now.variable asked.now.ends }
        ensures same { self.new ≡ self.old }
        ensures never { IfOk result (λ b. IsTrue b → Excludes asked.now.model.now asked.now.point
            self.old asked.now.variable asked.now.ends.kind from to) }
    {
        if self.fails_between(alloc, asked, from, to)? {
            return Ok(true);
        }
        if from >= to || to.saturating_sub(from) >= TRIED {
            return Ok(false);
        }
        for number in from..to {
            if !self.fails_between(alloc, asked, number, number)? {
                return Ok(false);
            }
        }
        self.fails_between(alloc, asked, to, to)
    }

    /// Whether the point cannot hold where the bounds of the variable are these.
    fn fails_between(
        &mut self,
        alloc: Global,
        asked: &Asked<'_, '_>,
        from: i64,
        to: i64,
    ) -> Result<bool, AllocError>
        requires in_range { asked.now.point < length (points asked.now.model.now) }
        requires ends { AreEndsAt self.old asked.now.variable asked.now.ends }
        ensures same { self.new ≡ self.old }
        ensures never { IfOk result (λ b. IsTrue b → Excludes asked.now.model.now asked.now.point
            self.old asked.now.variable asked.now.ends.kind from to) }
    {
        let ends = asked.ends;
        self.narrow(asked.variable, ends.kind, from, to);
        let fails = cannot_hold(alloc, asked.model, asked.point, self);
        self.narrow(asked.variable, ends.kind, ends.low, ends.high);
        fails
    }
}
