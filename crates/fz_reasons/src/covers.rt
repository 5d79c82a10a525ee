//! Values of a cover and how often they come.

ghost use Rattle.std.specs.Prelude.{◌⊎◌, IfSome};
ghost use Rattle.fz_builtins.specs.of_kernel.Views.{ints};
ghost use Rattle.fz_builtins.specs.Readings.{ints as ints_in};
ghost use Rattle.fz_reasons.specs.Elements.{IsCount, IsOutside};
ghost use Rattle.fz_reasons.specs.declared.reason.Relation.TheVariants.{AtLeast, AtMost, Equal};

use crate::reason::{Count, Element, Relation, Sides};
use fz_globals::counts::{count_of, is_listed};
use fz_kernel::{ArgumentView, Elements};

/// A value that doesn't come as often among the elements as is asked, by the indices of the
/// arguments that have the elements and the numbers.
pub(crate) fn exactly(view: &ArgumentView<'_, '_>, elements: usize, numbers: usize) -> Option<Count>
    ensures { IfSome result (IsCount Equal (ints_in view.now elements) (ints_in view.now 1)
        (ints_in view.now numbers)) }
{
    let (elements, numbers) = (view.elements(elements), view.elements(numbers));
    miscounted(&elements, &view.elements(1), Relation::Equal, &numbers)
}

/// The same, where there are a least and a most number.
pub(crate) fn between(view: &ArgumentView<'_, '_>) -> Option<Count>
    ensures { IfSome result (λ c.
        IsCount AtLeast (ints_in view.now 0) (ints_in view.now 1) (ints_in view.now 2) c
        ⊎ IsCount AtMost (ints_in view.now 0) (ints_in view.now 1) (ints_in view.now 3) c) }
{
    let (elements, cover) = (view.elements(0), view.elements(1));
    match miscounted(&elements, &cover, Relation::AtLeast, &view.elements(2)) {
        Some(count) => Some(count),
        None => miscounted(&elements, &cover, Relation::AtMost, &view.elements(3)),
    }
}

/// The first value of the cover of which the number of elements doesn't compare so with the number
/// that is told for it.
fn miscounted(
    elements: &Elements,
    cover: &Elements,
    relation: Relation,
    numbers: &Elements,
) -> Option<Count>
    ensures { IfSome result
        (IsCount relation (ints elements.now) (ints cover.now) (ints numbers.now)) }
{
    for place in 0..cover.len().min(numbers.len()) {
        let value = cover.int(place);
        let sides = Sides {
            left: count_of(elements, value),
            relation,
            right: i128::from(numbers.int(place)),
        };
        if !sides.hold() {
            return Some(Count {
                place,
                value,
                sides,
            });
        }
    }
    None
}

/// The first element that isn't in the cover.
pub(crate) fn outside(elements: &Elements, cover: &Elements) -> Option<Element>
    ensures { IfSome result (IsOutside (ints elements.now) (ints cover.now)) }
{
    for place in 0..elements.len() {
        let value = elements.int(place);
        if !is_listed(value, cover) {
            return Some(Element { place, value });
        }
    }
    None
}
