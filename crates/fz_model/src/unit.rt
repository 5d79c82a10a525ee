//! What `int_lin_eq` leaves to one element of its sum.

ghost use Rattle.std.specs.Prelude.{◌≡◌, None, IsFalse, IsTrue, option_map};
ghost use Rattle.fz_builtins.specs.of_meaning.of_base.declared.value.Value.TheVariants.{Int};
ghost use Rattle.fz_builtins.specs.of_meaning.declared.kind.Kind.TheVariants.{Int as IntKind};
ghost use Rattle.fz_builtins.specs.of_kernel.Views.{arguments_of, assigned};
ghost use Rattle.fz_builtins.specs.of_meaning.Builtins.{row_at};
ghost use Rattle.fz_builtins.specs.of_meaning.declared.builtin.Builtin.TheVariants.{IntLinEq};
ghost use Rattle.fz_model.specs.Left.{HasUnit, IsLeft, IsReadAsNone, holds_with_element, products_leave};

use crate::numbers::made_up;
use fz_kernel::ArgumentView;
use fz_kernel::arrays::sum_of_products;

/// The number that `int_lin_eq` leaves to the element of its second array at an index, counted from
/// 0, which has no value and the coefficient 1 or -1. None where the other products have a partial
/// sum that leaves 128 bits. It takes no memory.
pub(crate) fn unit_value(view: &ArgumentView<'_, '_>, index: usize) -> Option<i64>
    requires unit { HasUnit (assigned view.now) (arguments_of view.now) index }
    requires open { IsReadAsNone (assigned view.now) (arguments_of view.now) index }
    ensures left { IsFalse (products_leave (assigned view.now) (arguments_of view.now))
        → IsLeft IntKind (holds_with_element (row_at IntLinEq) (assigned view.now)
        (arguments_of view.now) index) (option_map Int result) }
    ensures too_large { IsTrue (products_leave (assigned view.now) (arguments_of view.now))
        → result ≡ None }
{
    let coefficients = view.elements(0);
    let others = sum_of_products(&coefficients, &view.elements(1))?;
    made_up(others, coefficients.int(index), view.int(2))
}
