//! Another value for a variable.

ghost use Rattle.std.specs.Prelude.{◌≡◌};
ghost use Rattle.fz_model.specs.Steps.{give};

use fz_store::{Partial, Value};

/// Gives a variable a value, whatever value it had, and changes nothing else.
#[tactic(auto, using(crate::proofs::Giving::given_anew, crate::proofs::Giving::none_to_give))]
pub(crate) fn replace(partial: &mut Partial, number: usize, value: Value)
    ensures given { partial.new ≡ give partial.old number value }
{
    partial.take_away(number);
    if number < partial.values().len() {
        partial.set(number, value);
    }
}
