//! What bounds say of a test.

ghost use Rattle.std.specs.Prelude.{◌≡◌, ◌↔◌, Bool, IsTrue, true, not, ◌&&◌, ◌||◌};
ghost use Rattle.fz_model.specs.Relations.{◌=ᴮ◌, as_number};
ghost use Rattle.fz_bounds.specs.declared.outlook.Outlook.TheVariants.{Always, Never};
ghost use Rattle.fz_bounds.specs.Decided.{Decides, LiesIn};

use crate::range::Range;

/// Whether a test fails, or holds, whatever the values inside the bounds are; or may do either.
#[derive(Clone, Copy)]
pub enum Outlook {
    Never,
    Always,
    Open,
}

impl Outlook {
    /// Of a test that holds or not.
    pub(crate) fn of(holds: bool) -> Outlook
        ensures { Decides result holds }
    {
        if holds {
            Outlook::Always
        } else {
            Outlook::Never
        }
    }

    /// Of a Boolean that is true where the first is, and only where the second is.
    pub(crate) fn between(must: bool, may: bool) -> Outlook
        ensures { (a : Bool) → (not must || a) ≡ true → (not a || may) ≡ true → Decides result a }
    {
        if must {
            Outlook::Always
        } else if may {
            Outlook::Open
        } else {
            Outlook::Never
        }
    }

    /// Whether it fails at all of them.
    pub(crate) fn is_never(self) -> bool
        ensures { IsTrue result ↔ (self ≡ Never) }
    {
        matches!(self, Outlook::Never)
    }

    /// Whether it holds at all of them.
    pub(crate) fn is_always(self) -> bool
        ensures { IsTrue result ↔ (self ≡ Always) }
    {
        matches!(self, Outlook::Always)
    }

    /// Of the opposite.
    pub fn negated(self) -> Outlook
        ensures { (a : Bool) → Decides self a → Decides result (not a) }
    {
        match self {
            Outlook::Never => Outlook::Always,
            Outlook::Always => Outlook::Never,
            Outlook::Open => Outlook::Open,
        }
    }

    /// Of both tests.
    pub(crate) fn and(self, other: Outlook) -> Outlook
        ensures { (a b : Bool) → Decides self a → Decides other b → Decides result (a && b) }
    {
        match self {
            Outlook::Never => Outlook::Never,
            Outlook::Always => other,
            Outlook::Open => match other {
                Outlook::Never => Outlook::Never,
                Outlook::Always => Outlook::Open,
                Outlook::Open => Outlook::Open,
            },
        }
    }

    /// Of one test or the other.
    pub(crate) fn or(self, other: Outlook) -> Outlook
        ensures { (a b : Bool) → Decides self a → Decides other b → Decides result (a || b) }
    {
        match self {
            Outlook::Always => Outlook::Always,
            Outlook::Never => other,
            Outlook::Open => match other {
                Outlook::Always => Outlook::Always,
                Outlook::Never => Outlook::Open,
                Outlook::Open => Outlook::Open,
            },
        }
    }

    /// Of the tests' having the same outcome.
    pub(crate) fn same(self, other: Outlook) -> Outlook
        ensures { (a b : Bool) → Decides self a → Decides other b → Decides result (a =ᴮ b) }
    {
        match self {
            Outlook::Always => other,
            Outlook::Never => other.negated(),
            Outlook::Open => Outlook::Open,
        }
    }

    /// Of the number that the test's outcome is: 1 where it holds, and else 0.
    pub(crate) fn number(self) -> Range
        ensures { (a : Bool) → Decides self a → LiesIn result (as_number a) }
    {
        match self {
            Outlook::Never => Range::of(0),
            Outlook::Always => Range::of(1),
            Outlook::Open => Range {
                low: Some(0),
                high: Some(1),
            },
        }
    }
}
