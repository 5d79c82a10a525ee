//! Tasks that run at the same time, boxes that overlap, and bins that are too full.

ghost use Rattle.std.specs.Prelude.{◌≡◌, ◌<◌, true, IfSome, length};
ghost use Rattle.fz_builtins.specs.of_meaning.Relations.{are_apart};
ghost use Rattle.fz_builtins.specs.of_kernel.Views.{ints, slots_of};
ghost use Rattle.fz_builtins.specs.Readings.{int, ints as ints_in};
ghost use Rattle.fz_reasons.specs.Elements.{AreBoxes, BothLast, IsBin, IsLoad, IsMore, IsOverlap, IsStretch, span};

use crate::reason::{Boxes, Load, Overlap, Relation, Sides, Stretch};
use fz_kernel::numbers::sum;
use fz_kernel::{ArgumentView, Elements};
use fz_scheduling::bins::load_of;
use fz_scheduling::tasks::used_at;

/// From where what is at an index lasts, and how long.
pub(crate) fn stretch_at(starts: &Elements, lengths: &Elements, place: usize) -> Stretch
    requires started { place < length (slots_of starts.now) }
    requires lasting { place < length (slots_of lengths.now) }
    ensures { IsStretch (ints starts.now) (ints lengths.now) place result }
{
    Stretch {
        start: starts.int(place),
        length: lengths.int(place),
    }
}

fn are_apart(first: Stretch, second: Stretch) -> bool
    ensures { result ≡ are_apart (span first) (span second) }
{
    sum(first.start, first.length) <= i128::from(second.start)
        || sum(second.start, second.length) <= i128::from(first.start)
}

/// What is at an index before another one and isn't apart from what is there; where empty ones are
/// spared, both last.
fn overlap_at(
    starts: &Elements,
    lengths: &Elements,
    one: usize,
    other: usize,
    spare: bool,
) -> Option<Overlap>
    requires order { one < other }
    requires started { other < length (slots_of starts.now) }
    requires lasting { other < length (slots_of lengths.now) }
    ensures overlap { IfSome result (IsOverlap (ints starts.now) (ints lengths.now)) }
    ensures last { IfSome result (λ o. spare ≡ true → BothLast o) }
    ensures one { IfSome result (λ o. o.one ≡ one) }
    ensures other { IfSome result (λ o. o.other ≡ other) }
{
    let first = stretch_at(starts, lengths, one);
    let second = stretch_at(starts, lengths, other);
    if spare && (first.length == 0 || second.length == 0) {
        return None;
    }
    if are_apart(first, second) {
        return None;
    }
    Some(Overlap {
        one,
        first,
        other,
        second,
    })
}

/// The first two that aren't apart.
pub(crate) fn overlap(starts: &Elements, lengths: &Elements, spare: bool) -> Option<Overlap>
    ensures overlap { IfSome result (IsOverlap (ints starts.now) (ints lengths.now)) }
    ensures last { IfSome result (λ o. spare ≡ true → BothLast o) }
{
    for other in 0..starts.len().min(lengths.len()) {
        for one in 0..other {
            if let Some(overlap) = overlap_at(starts, lengths, one, other, spare) {
                return Some(overlap);
            }
        }
    }
    None
}

/// The first two boxes that aren't apart, whose starts along the second axis and lengths along the
/// first are these arguments.
pub(crate) fn boxes(
    view: &ArgumentView<'_, '_>,
    y: usize,
    width: usize,
    spare: bool,
) -> Option<Boxes>
    ensures boxes { IfSome result (AreBoxes (ints_in view.now 0) (ints_in view.now y)
        (ints_in view.now width) (ints_in view.now 3)) }
    ensures last { IfSome result (λ b. spare ≡ true → BothLast b.across × BothLast b.along) }
{
    let (x, y) = (view.elements(0), view.elements(y));
    let (width, height) = (view.elements(width), view.elements(3));
    for other in 0..x.len().min(width.len()).min(y.len()).min(height.len()) {
        for one in 0..other {
            if let Some(across) = overlap_at(&x, &width, one, other, spare)
                && let Some(along) = overlap_at(&y, &height, one, other, spare)
            {
                return Some(Boxes { across, along });
            }
        }
    }
    None
}

/// The first task at whose start more is used than there is.
pub(crate) fn overload(view: &ArgumentView<'_, '_>) -> Option<Load>
    ensures { IfSome result (IsLoad (ints_in view.now 0) (ints_in view.now 1) (ints_in view.now 2)
        (int view.now 3)) }
{
    let (starts, lengths, uses) = (view.elements(0), view.elements(1), view.elements(2));
    let most = view.int(3);
    for task in 0..starts.len().min(lengths.len()).min(uses.len()) {
        let Stretch { start, length } = stretch_at(&starts, &lengths, task);
        let (time, need) = (start, uses.int(task));
        if length != 0
            && need != 0
            && let Some(sides) = more_than(used_at(time, &starts, &lengths, &uses), most)
        {
            return Some(Load { task, time, sides });
        }
    }
    None
}

/// A load and what there is room for, where the load is more.
fn more_than(load: i128, most: i64) -> Option<Sides>
    ensures load { IfSome result (λ s. s.left ≡ load) }
    ensures most { IfSome result (λ s. s.right ≡ most) }
    ensures more { IfSome result IsMore }
{
    let sides = Sides {
        left: load,
        relation: Relation::AtMost,
        right: i128::from(most),
    };
    if sides.hold() { None } else { Some(sides) }
}

/// The first thing in whose bin lies more than there is room for.
pub(crate) fn full_bin(view: &ArgumentView<'_, '_>) -> Option<Load>
    ensures { IfSome result (IsBin (ints_in view.now 1) (ints_in view.now 2) (int view.now 0)) }
{
    let (bins, weights) = (view.elements(1), view.elements(2));
    for task in 0..bins.len() {
        let bin = bins.int(task);
        let load = load_of(i128::from(bin), &bins, &weights);
        if let Some(sides) = more_than(load, view.int(0)) {
            return Some(Load {
                task,
                time: bin,
                sides,
            });
        }
    }
    None
}
