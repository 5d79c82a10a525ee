//! Why a row fails.

ghost use Rattle.std.specs.Prelude.{◌≡◌, ◌↔◌, IfOk, IfSome, true};
ghost use Rattle.fz_builtins.specs.of_meaning.Builtins.{row_at};
ghost use Rattle.fz_builtins.specs.of_meaning.Known.{known_row};
ghost use Rattle.fz_builtins.specs.of_kernel.Given.{are_read};
ghost use Rattle.fz_builtins.specs.of_kernel.Views.{arguments_of, assigned};
ghost use Rattle.fz_builtins.specs.Outcomes.{row_outcome};
ghost use Rattle.fz_builtins.specs.declared.outcome.Outcome.TheVariants.{Truth};
ghost use Rattle.fz_reasons.specs.Reasons.{FormsFail, RowsFail, Says, SaysWhy};

use crate::automata::{by_automaton, near_row};
use crate::covers::{between, exactly, outside};
use crate::loads::{bin_packing_load, knapsack, other_run};
use crate::members::{by_element, by_member};
use crate::negatives::by_negative;
use crate::orders::{
    agree, comes_before, difference_of, early, early_in_chain, early_in_sequence, early_set,
    unsorted,
};
use crate::pairs::{by_neighbours, clash, shared};
use crate::places::{no_index, no_set_index};
use crate::readings::{element_kind, number_count};
use crate::reason::{ElementKind, Reason, Why};
use crate::results::by_result;
use crate::rings::{ring_of_moved, short_ring};
use crate::sides::unlike;
use crate::tasks::{boxes, full_bin, overlap, overload};
use crate::tours::{no_channel, no_inverse, one_way};
use fz_builtins::{Outcome, control, of_builtin};
use fz_globals::counts::{is_listed, is_truth_listed};
use fz_globals::tables::{is_bool_row, is_int_row};
use fz_kernel::arrays::{any_false, any_true, odd_number_true};
use fz_kernel::numbers::number_of_truth;
use fz_kernel::sets::same_set;
use fz_kernel::{ArgumentView, Readiness};
use fz_store::{Builtin, Form, Known};
use std::alloc::{AllocError, Global};

/// Why the row of a builtin fails at the values that the argument view gives; none where it holds,
/// and where there is no reason to tell. What has no value is read as 0, false or the empty set, so
/// its callers see first that there are values.
#[tactic(auto, unfolding(crate::specs::Reasons::Says))]
pub(crate) fn reason_of(
    alloc: Global,
    builtin: Builtin,
    view: &ArgumentView<'_, '_>,
) -> Result<Option<Reason>, AllocError>
    ensures { IfOk result (λ o. IfSome o
        (Says builtin (assigned view.now) (arguments_of view.now))) }
{
    if let Some(sides) = unlike(builtin, view) {
        return Ok(Some(Reason::Sides(sides)));
    }
    if let Some(found) = by_negative(builtin, view) {
        return Ok(Some(Reason::Negative(found)));
    }
    if let Some(reason) = by_elements(builtin, view) {
        return Ok(Some(reason));
    }
    if let Some(reason) = by_order(builtin, view) {
        return Ok(Some(reason));
    }
    if let Some(reason) = by_lists(alloc, builtin, view)? {
        return Ok(Some(reason));
    }
    if let Some(reason) = by_result(alloc, builtin, view)? {
        return Ok(Some(reason));
    }
    Ok(by_member(alloc, builtin, view)?.map(Reason::Member))
}

/// Of literals, elements, values of a cover, or sets.
#[tactic(auto, unfolding(crate::specs::Reasons::Says))]
fn by_elements(builtin: Builtin, view: &ArgumentView<'_, '_>) -> Option<Reason>
    ensures { IfSome result (Says builtin (assigned view.now) (arguments_of view.now)) }
{
    let (first, second) = (&view.elements(0), &view.elements(1));
    match builtin {
        Builtin::BoolClause if !any_true(first) && !any_false(second) => { Some(Reason::NoLiteral) }
        Builtin::ArrayBoolXor if !odd_number_true(first) => Some(Reason::Even),
        Builtin::FznAllDifferentInt => clash(first, false).map(Reason::Clash),
        Builtin::FznAlldifferentExcept0 => clash(first, true).map(Reason::Clash),
        Builtin::FzcheckSubcircuit => clash(second, false).map(Reason::Clash),
        Builtin::FznGlobalCardinality => exactly(view, 0, 2).map(Reason::Count),
        Builtin::FznGlobalCardinalityClosed => match exactly(view, 0, 2) {
            Some(count) => Some(Reason::Count(count)),
            None => outside(first, second).map(Reason::Outside),
        },
        Builtin::FznGlobalCardinalityLowUp => between(view).map(Reason::Count),
        Builtin::FznGlobalCardinalityLowUpClosed => match between(view) {
            Some(count) => Some(Reason::Count(count)),
            None => outside(first, second).map(Reason::Outside),
        },
        Builtin::FznDistribute => exactly(view, 2, 0).map(Reason::Count),
        Builtin::FznMemberInt if !is_listed(view.int(1), first) => {
            Some(Reason::NotListed(view.int(1)))
        }
        Builtin::FznMemberBool if !is_truth_listed(view.truth(1), first) => {
            Some(Reason::NotListed(number_of_truth(view.truth(1))))
        }
        Builtin::SetIn if !view.set(1).contains(view.int(0)) => {
            Some(Reason::NotListed(view.int(0)))
        }
        Builtin::SetNe if same_set(view.set(0), view.set(1)) => Some(Reason::Same),
        _ => None,
    }
}

/// Of values that come too early, lists that aren't inverse, automata or tours.
#[tactic(auto, unfolding(crate::specs::Reasons::Says))]
fn by_order(builtin: Builtin, view: &ArgumentView<'_, '_>) -> Option<Reason>
    ensures { IfSome result (Says builtin (assigned view.now) (arguments_of view.now)) }
{
    match builtin {
        Builtin::FznValuePrecedeInt => {
            Some(Reason::Early(early(view.int(0), view.int(1), &view.elements(2))?))
        }
        Builtin::GecodePrecede => {
            Some(Reason::Early(early(view.int(1), view.int(2), &view.elements(0))?))
        }
        Builtin::GecodePrecedeSet => {
            Some(Reason::Early(early_set(view.int(1), view.int(2), &view.elements(0))?))
        }
        Builtin::FznValuePrecedeChainInt => {
            Some(Reason::Early(early_in_chain(&view.elements(0), &view.elements(1))?))
        }
        Builtin::FznSeqPrecedeChainInt => {
            Some(Reason::Early(early_in_sequence(&view.elements(0))?))
        }
        Builtin::InverseOffsets => {
            let (f, g) = (view.elements(0), view.elements(2));
            let (fo, go) = (view.int(1), view.int(3));
            match one_way(&f, fo, &g, go) {
                Some(found) => Some(Reason::OneWay(found)),
                None => Some(Reason::OtherWay(one_way(&g, go, &f, fo)?)),
            }
        }
        Builtin::FznRegular => by_automaton(view),
        _ => by_tour(builtin, view),
    }
}

/// An element that is no index, or a ring that is too short.
#[tactic(auto, unfolding(crate::specs::Reasons::Says))]
fn by_tour(builtin: Builtin, view: &ArgumentView<'_, '_>) -> Option<Reason>
    ensures { IfSome result (Says builtin (assigned view.now) (arguments_of view.now)) }
{
    let (first, next) = (view.int(0), &view.elements(1));
    match builtin {
        Builtin::GecodeCircuit => match no_index(next, first, number_count(next)) {
            Some(found) => Some(Reason::NoIndex(found)),
            None => Some(Reason::Ring(short_ring(first, next)?)),
        },
        Builtin::FzcheckSubcircuit => match no_index(next, first, number_count(next)) {
            Some(found) => Some(Reason::NoIndex(found)),
            None => Some(Reason::Ring(ring_of_moved(first, next)?)),
        },
        Builtin::ArraySetElement => Some(Reason::NoIndex(no_set_index(view)?)),
        _ => by_tasks(builtin, view),
    }
}

/// Of tasks, boxes, bins, knapsacks or runs of neighbours.
#[tactic(auto, unfolding(crate::specs::Reasons::Says))]
fn by_tasks(builtin: Builtin, view: &ArgumentView<'_, '_>) -> Option<Reason>
    ensures { IfSome result (Says builtin (assigned view.now) (arguments_of view.now)) }
{
    match builtin {
        Builtin::FznDisjunctive => {
            Some(Reason::Overlap(overlap(&view.elements(0), &view.elements(1), true)?))
        }
        Builtin::FznDisjunctiveStrict | Builtin::GecodeScheduleUnary => {
            Some(Reason::Overlap(overlap(&view.elements(0), &view.elements(1), false)?))
        }
        Builtin::FznDiffn => Some(Reason::Boxes(boxes(view, 1, 2, false)?)),
        Builtin::FznDiffnNonstrict => Some(Reason::Boxes(boxes(view, 1, 2, true)?)),
        Builtin::GecodeNooverlap => Some(Reason::Boxes(boxes(view, 2, 1, false)?)),
        Builtin::FznCumulative => Some(Reason::Load(overload(view)?)),
        Builtin::FznBinPacking => Some(Reason::Bin(full_bin(view)?)),
        Builtin::GecodeBinPackingLoad => bin_packing_load(view),
        Builtin::FznKnapsack => knapsack(view),
        Builtin::FznSlidingSum => {
            let (low, high, count) = (view.int(0), view.int(1), view.int(2));
            Some(Reason::Run(other_run(low, high, count, None, &view.elements(3))?))
        }
        Builtin::GecodeAmongSeqInt => {
            let (low, high, count) = (view.int(3), view.int(4), view.int(2));
            let (counted, xs) = (Some(view.set(1)), &view.elements(0));
            Some(Reason::Run(other_run(low, high, count, counted, xs)?))
        }
        _ => None,
    }
}

/// What wants memory: of sets that have an element in common, the order of lists, tables, channels,
/// chosen elements or neighbours.
#[tactic(auto, unfolding(crate::specs::Reasons::Says))]
fn by_lists(
    alloc: Global,
    builtin: Builtin,
    view: &ArgumentView<'_, '_>,
) -> Result<Option<Reason>, AllocError>
    ensures { IfOk result (λ o. IfSome o
        (Says builtin (assigned view.now) (arguments_of view.now))) }
{
    match builtin {
        Builtin::FznPartitionSet => Ok(shared(alloc, &view.elements(0))?.map(Reason::Clash)),
        Builtin::FznLexLessInt | Builtin::FznLexLessBool => {
            let found = difference_of(alloc, element_kind(builtin), view)?;
            if comes_before(found.left, found.right) || agree(found.left, found.right) {
                return Ok(None);
            }
            Ok(Some(Reason::Difference(found)))
        }
        Builtin::FznLexLesseqInt | Builtin::FznLexLesseqBool => {
            let found = difference_of(alloc, element_kind(builtin), view)?;
            if !comes_before(found.right, found.left) {
                return Ok(None);
            }
            Ok(Some(Reason::Difference(found)))
        }
        Builtin::FznSort => {
            Ok(unsorted(alloc, &view.elements(0), &view.elements(1))?.map(Reason::Difference))
        }
        Builtin::FznTableInt if !is_int_row(&view.elements(0), &view.elements(1)) => {
            Ok(near_row(alloc, ElementKind::Int, view)?.map(Reason::NearRow))
        }
        Builtin::FznTableBool if !is_bool_row(&view.elements(0), &view.elements(1)) => {
            Ok(near_row(alloc, ElementKind::Bool, view)?.map(Reason::NearRow))
        }
        Builtin::GecodeIntSetChannel => no_channel(alloc, view),
        Builtin::GecodeInverseSet => no_inverse(alloc, view),
        Builtin::GecodeRange => Ok(by_element(alloc, builtin, view)?.map(Reason::Member)),
        _ => by_neighbours(alloc, builtin, view),
    }
}

/// Whether the row of a builtin holds at the values that the argument view gives; it doesn't where
/// a number of it can't be computed.
pub(crate) fn holds(
    alloc: Global,
    builtin: Builtin,
    view: &ArgumentView<'_, '_>,
) -> Result<bool, AllocError>
    ensures exact { IfOk result (λ b. (b ≡ true) ↔ (row_outcome (row_at builtin)
        (assigned view.now) (arguments_of view.now) ≡ Truth true)) }
{
    match of_builtin(alloc, builtin, view)? {
        Outcome::Truth(holds) => Ok(holds),
        Outcome::TooLarge | Outcome::Unknown => Ok(false),
    }
}

/// Why a row, or one of its reified forms, fails at the values that the argument view gives; none
/// where it holds, where some value is missing or is of another kind, and where there is no reason
/// to tell.
///
/// # Errors
///
/// Out of memory.
pub fn why(
    alloc: Global,
    known: Known,
    view: &ArgumentView<'_, '_>,
) -> Result<Option<Why>, AllocError>
    ensures says { IfOk result (λ o. IfSome o
        (SaysWhy known (assigned view.now) (arguments_of view.now))) }
    ensures ready { IfOk result (λ o. IfSome o (λ _. are_read (assigned view.now)
        (known_row known).shapes (arguments_of view.now) ≡ true)) }
{
    match view.readiness(known.shapes()) {
        Readiness::Ready => why_ready(alloc, known, view),
        Readiness::WrongKind | Readiness::Missing => Ok(None),
    }
}

fn why_ready(
    alloc: Global,
    known: Known,
    view: &ArgumentView<'_, '_>,
) -> Result<Option<Why>, AllocError>
    ensures { IfOk result (λ o. IfSome o
        (SaysWhy known (assigned view.now) (arguments_of view.now))) }
{
    match known.form {
        Form::Base => Ok(reason_of(alloc, known.builtin, view)?.map(Why::Fails)),
        Form::Reified if !control(known, view) => {
            if holds(alloc, known.builtin, view)? {
                Ok(Some(Why::Holds))
            } else {
                Ok(None)
            }
        }
        Form::Implied if !control(known, view) => Ok(None),
        Form::Reified | Form::Implied => {
            Ok(reason_of(alloc, known.builtin, view)?.map(Why::Fails))
        }
    }
}

/// A row fails at all values of which one of its reasons is so.
#[tactic(auto, using(crate::proofs::Fails::fails))]
pub fn a_row_fails_by_its_reason()
    ensures fails { RowsFail }
{}

/// A row, or a reified form of it, fails at all values of which it is so why.
#[tactic(auto, using(crate::proofs::Fails::forms_fail))]
pub fn a_form_fails_by_its_reason()
    ensures fails { FormsFail }
{}
