//! Where the value of a variable comes from.

ghost use Rattle.std.specs.Prelude.{◌≡◌, map};
ghost use Rattle.fz_filling.specs.Givers.{giver_view};
ghost use Rattle.fz_explain.specs.Sources.{SourcesAreEarlier, giver_of, source_of};

use fz_filling::Giver;
use fz_store::Partial;

/// Where the value of a variable comes from.
#[derive(Clone, Copy, PartialEq, Eq)]
pub enum Source {
    /// It is printed.
    Printed,
    /// A step of the filling: the point with this number, from 0, gave it.
    Given(usize),
    /// There is no value.
    Nothing,
}

/// The number of the point whose step gave the variable its value, where one did.
fn giver_of(steps: &[Giver], variable: usize) -> Option<usize>
    ensures { result ≡ giver_of (map giver_view steps.now) variable }
{
    for step in steps {
        if step.variable == variable {
            return Some(step.point);
        }
    }
    None
}

/// Where the value of a variable comes from, under a filling that took these steps.
pub(crate) fn source_of(filling: &Partial, steps: &[Giver], variable: usize) -> Source
    ensures { result ≡ source_of filling.now (map giver_view steps.now) variable }
{
    if !filling.has(variable) {
        return Source::Nothing;
    }
    match giver_of(steps, variable) {
        Some(point) => Source::Given(point),
        None => Source::Printed,
    }
}

/// Where the steps are those from the printed values to a filling, a value that is told as given
/// was given from values that are printed or that steps before gave.
pub fn sources_are_earlier()
    ensures { SourcesAreEarlier }
{}
