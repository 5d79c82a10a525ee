//! Reified forms of a row.

ghost use Rattle.std.specs.Prelude.{◌≡◌, length};
ghost use Rattle.fz_globals.specs.of_meaning.Builtins.{row_at};
ghost use Rattle.fz_globals.specs.of_meaning.Known.{HasTruth};
ghost use Rattle.fz_builtins.specs.Readings.{truth};

use fz_kernel::ArgumentView;
use fz_store::Known;

/// The index of the control variable, which is behind the arguments of the base row.
pub fn control_index(known: Known) -> usize
    requires form { HasTruth known.form }
    ensures exact { result ≡ length (row_at known.builtin).shapes }
{
    known.shapes().len() - 1
}

/// The control variable: the Boolean behind the arguments of the base row.
pub fn control(known: Known, view: &ArgumentView<'_, '_>) -> bool
    requires form { HasTruth known.form }
    ensures exact { result ≡ truth view.now (length (row_at known.builtin).shapes) }
{
    view.truth(control_index(known))
}
