//! The point that a verdict is about: the first that fails, or the first that is undecided. And all
//! points that fail.

ghost use Rattle.std.specs.Prelude.{◌≡◌, ◌<◌, ◌++◌, ◌∷◌, [], IfOk, IfSome, IsNone, OnOk, Some, cond, length, slice_get};
ghost use Rattle.fz_filling.specs.of_model.Meaning.{Point, points};
ghost use Rattle.fz_filling.specs.of_model.States.{state};
ghost use Rattle.fz_explain.specs.Firsts.{IsFirst, NoPoint};
ghost use Rattle.fz_explain.specs.Told.{IsSought, failing_in, is_sought};

use fz_model::state;
use fz_store::{Model, Partial, State};
use std::alloc::{AllocError, Global};

/// What kind of point is looked for.
#[derive(Clone, Copy, PartialEq, Eq)]
pub enum Sought {
    /// One that fails.
    Failing,
    /// One that neither holds nor fails.
    Undecided,
}

impl Sought {
    fn fits(self, state: State) -> bool
        ensures { result ≡ is_sought self state }
    {
        match state {
            State::Holds => false,
            State::Fails => matches!(self, Sought::Failing),
            State::NoValue | State::Unknown | State::TooLarge => {
                matches!(self, Sought::Undecided)
            }
        }
    }
}

/// The number, from 0, of the first point of the kind that is sought.
///
/// # Errors
///
/// Out of memory.
pub fn first_point(
    alloc: Global,
    model: &Model<'_>,
    filling: &Partial,
    sought: Sought,
) -> Result<Option<usize>, AllocError>
    ensures found { IfOk result (λ o. IfSome o (IsFirst model.now (IsSought filling.now sought))) }
    ensures in_range { IfOk result (λ o. IfSome o (λ k. k < length (points model.now))) }
    ensures none { IfOk result (λ o. IsNone o → NoPoint model.now (IsSought filling.now sought)) }
{
    for number in 0..model.points() {
        if sought.fits(state(alloc, model, number, filling)?) {
            return Ok(Some(number));
        }
    }
    Ok(None)
}

/// The numbers, from 0, of the points that fail, in their order.
///
/// # Errors
///
/// Out of memory.
pub fn failing_points(
    alloc: Global,
    model: &Model<'_>,
    filling: &Partial,
) -> Result<Vec<usize>, AllocError>
    ensures { IfOk result (λ v. v.items ≡ failing_in filling.now (points model.now)) }
{
    let mut failing = Vec::new(alloc);
    for number in 0..model.points() {
        let fails = Sought::Failing.fits(state(alloc, model, number, filling)?);
        push_where(&mut failing, fails, number)?;
    }
    Ok(failing)
}

/// Adds a number where it is to be added.
fn push_where(numbers: &mut Vec<usize>, is_added: bool, number: usize) -> Result<(), AllocError>
    ensures { OnOk result (numbers.new.items
        ≡ cond is_added (numbers.old.items ++ number ∷ []) numbers.old.items) }
{
    if is_added {
        return Ok(numbers.push(number)?);
    }
    Ok(())
}
