//! Whether an assignment gives every variable a value of its kind inside its domain.

ghost use Rattle.std.specs.Prelude.{◌≡◌, map};
ghost use Rattle.fz_builtins.specs.of_store.Parts.{variable_view};
ghost use Rattle.fz_model.specs.Whole.{lie_inside, lies_inside};

use crate::domains::is_inside;
use fz_store::{Value, Variable, kind_of, same_kind};

/// Whether there is a value, it is of the variable's kind, and it lies in the variable's domain.
#[inline]
fn lies_inside(variable: &Variable<'_>, value: &Option<Value>) -> bool
    ensures { result ≡ lies_inside (variable_view variable.now) value.now }
{
    match value {
        Some(value) => {
            same_kind(kind_of(value), variable.kind) && is_inside(&variable.domain, value)
        }
        None => false,
    }
}

/// Whether every variable has a value of its kind that lies in its domain, and there are no other
/// values.
pub(crate) fn lie_inside(variables: &[Variable<'_>], values: &[Option<Value>]) -> bool
    ensures { result ≡ lie_inside (map variable_view variables.now) values.now }
{
    if variables.len() != values.len() {
        return false;
    }
    for number in 0..values.len() {
        if !lies_inside(&variables[number], &values[number]) {
            return false;
        }
    }
    true
}
