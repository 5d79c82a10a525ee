//! What a row says.

ghost use Rattle.std.specs.Prelude.{◌≡◌, false, option_map};
ghost use Rattle.fz_globals.specs.of_meaning.Builtins.{Row};
ghost use Rattle.fz_globals.specs.of_meaning.Relations.{◌=ℤ◌, ◌=ᴮ◌, ◌=ˢ◌};
ghost use Rattle.fz_globals.specs.of_kernel.Views.{arguments_of, assigned};
ghost use Rattle.fz_builtins.specs.Outcomes.{row_outcome};
ghost use Rattle.fz_builtins.specs.Said.{IsSaid, is_result};

use crate::outcome::Outcome;
use fz_kernel::ArgumentView;
use fz_kernel::sets::same_set;
use fz_store::IntSet;

/// What a row says by the values of its arguments. Where it has a result, the argument at the index
/// that comes with it, that argument isn't looked at: the row holds where its value is the one that
/// is told, and nowhere where none is told.
#[derive(Drop)]
pub enum Said<'s> {
    /// The row has no result, or what it computes isn't known or too large: its outcome.
    Whether(Outcome),
    Number(usize, Option<i128>),
    Boolean(usize, Option<bool>),
    Set(usize, IntSet),
    /// a set that is there already
    Given(usize, Option<&'s IntSet>),
}

/// The outcome of a row that says this.
#[inline(always)]
pub(crate) fn outcome_of(said: Said<'_>, view: &ArgumentView<'_, '_>) -> Outcome
    ensures { (r : Row) → IsSaid r false (assigned view.now) (arguments_of view.now) said.entry
        → result ≡ row_outcome r (assigned view.now) (arguments_of view.now) }
{
    match said {
        Said::Whether(outcome) => outcome,
        Said::Number(place, number) => Outcome::Truth(is_number(number, view.int(place))),
        Said::Boolean(place, truth) => Outcome::Truth(is_truth(truth, view.truth(place))),
        Said::Set(place, set) => Outcome::Truth(same_set(view.set(place), &set)),
        Said::Given(place, set) => Outcome::Truth(is_set(set, view.set(place))),
    }
}

fn is_number(number: Option<i128>, value: i64) -> bool
    ensures { result ≡ is_result ◌=ℤ◌ number value }
{
    match number {
        Some(number) => i128::from(value) == number,
        None => false,
    }
}

fn is_truth(truth: Option<bool>, value: bool) -> bool
    ensures { result ≡ is_result ◌=ᴮ◌ truth value }
{
    match truth {
        Some(truth) => value == truth,
        None => false,
    }
}

fn is_set(set: Option<&IntSet>, value: &IntSet) -> bool
    ensures { result ≡ is_result ◌=ˢ◌ (option_map (λ s. s.now) set.entry) value.now }
{
    match set {
        Some(set) => same_set(value, set),
        None => false,
    }
}
