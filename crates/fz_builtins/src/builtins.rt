//! The rows of the table.

ghost use Rattle.std.specs.Prelude.{◌≡◌, IfOk};
ghost use Rattle.fz_globals.specs.of_meaning.Builtins.{row_at};
ghost use Rattle.fz_globals.specs.of_kernel.Views.{arguments_of, assigned};
ghost use Rattle.fz_builtins.specs.Outcomes.{row_outcome};
ghost use Rattle.fz_builtins.specs.Said.{IsSaid};

use crate::arrays::{bool_sum, wide};
use crate::counting::count;
use crate::outcome::Outcome;
use crate::outcome::Outcome::Truth;
use crate::said::Said::{Boolean, Given, Number, Set, Whether};
use crate::said::{Said, outcome_of};
use crate::scalars::{implies, is_below};
use crate::{arrays, counting, covers, flags, ordering, places, scalars, scheduling, sums};
use fz_kernel::ArgumentView;
use fz_kernel::numbers::{absolute, product, quotient, remainder, sum};
use fz_kernel::sets::same_set;
use fz_store::{Builtin, SetError};
use std::alloc::{AllocError, Global};

/// The outcome of a builtin's row at the values that the argument view gives. It refuses only where
/// memory runs out. The rows that most constraints of real models have come first, and are inlined.
#[inline(always)]
pub fn of_builtin(
    alloc: Global,
    builtin: Builtin,
    view: &ArgumentView<'_, '_>,
) -> Result<Outcome, AllocError>
    ensures { IfOk result (λ o. o ≡ row_outcome (row_at builtin) (assigned view.now)
        (arguments_of view.now)) }
{
    match builtin {
        Builtin::BoolClause => Ok(Truth(arrays::bool_clause(view))),
        Builtin::IntLinEq => Ok(sums::int_lin_eq(view)),
        Builtin::IntLinNe => Ok(sums::int_lin_ne(view)),
        Builtin::IntLinLe => Ok(sums::int_lin_le(view)),
        Builtin::IntNe => Ok(Truth(view.int(0) != view.int(1))),
        Builtin::IntLe => Ok(Truth(view.int(0) <= view.int(1))),
        Builtin::IntLt => Ok(Truth(view.int(0) < view.int(1))),
        _ => by_said(alloc, builtin, view),
    }
}

// The outcome of a row by what it says.
#[inline(never)]
fn by_said(
    alloc: Global,
    builtin: Builtin,
    view: &ArgumentView<'_, '_>,
) -> Result<Outcome, AllocError>
    ensures { IfOk result (λ o. o ≡ row_outcome (row_at builtin) (assigned view.now)
        (arguments_of view.now)) }
{
    match said_of(alloc, builtin, false, view) {
        Ok(said) => Ok(outcome_of(said, view)),
        Err(SetError::Memory) => Err(AllocError),
    }
}

/// What a builtin's row says by the values that the argument view gives; of a row whose result may
/// be either of two arguments, what it says of the first or of the second. It refuses only where
/// memory runs out.
#[inline(always)]
pub fn said_of<'s>(
    alloc: Global,
    builtin: Builtin,
    first: bool,
    view: &ArgumentView<'s, '_>,
) -> Result<Said<'s>, SetError>
    ensures { IfOk result (IsSaid (row_at builtin) first (assigned view.now)
        (arguments_of view.now)) }
{
    match builtin {
        Builtin::IntEq => Ok(scalars::int_eq(view, first)),
        Builtin::IntNe => Ok(Whether(Truth(view.int(0) != view.int(1)))),
        Builtin::IntLe => Ok(Whether(Truth(view.int(0) <= view.int(1)))),
        Builtin::IntLt => Ok(Whether(Truth(view.int(0) < view.int(1)))),
        Builtin::IntGe => Ok(Whether(Truth(view.int(0) >= view.int(1)))),
        Builtin::IntGt => Ok(Whether(Truth(view.int(0) > view.int(1)))),
        Builtin::IntLinEq => Ok(Whether(sums::int_lin_eq(view))),
        Builtin::IntLinNe => Ok(Whether(sums::int_lin_ne(view))),
        Builtin::IntLinLe => Ok(Whether(sums::int_lin_le(view))),
        Builtin::IntPlus => Ok(Number(2, Some(sum(view.int(0), view.int(1))))),
        Builtin::IntMinus => Ok(Number(2, Some(scalars::int_minus(view)))),
        Builtin::IntTimes => Ok(Number(2, Some(product(view.int(0), view.int(1))))),
        Builtin::IntMin => Ok(Number(2, Some(scalars::int_min(view)))),
        Builtin::IntMax => Ok(Number(2, Some(scalars::int_max(view)))),
        Builtin::IntAbs => Ok(Number(1, Some(absolute(view.int(0))))),
        Builtin::IntNegate => Ok(Number(1, Some(scalars::int_negate(view)))),
        Builtin::IntDiv => Ok(Number(2, quotient(view.int(0), view.int(1)))),
        Builtin::IntMod => Ok(Number(2, remainder(view.int(0), view.int(1)))),
        Builtin::IntPow => Ok(scalars::int_pow(view, first)),
        Builtin::ArrayIntElement => Ok(Number(2, wide(arrays::int_element(view)))),
        Builtin::ArrayIntMaximum => Ok(Number(0, wide(arrays::int_maximum(view)))),
        Builtin::ArrayIntMinimum => Ok(Number(0, wide(arrays::int_minimum(view)))),
        Builtin::FznAllDifferentInt => Ok(Whether(Truth(arrays::int_all_different(alloc, view)?))),
        Builtin::BoolEq => Ok(scalars::bool_eq(view, first)),
        Builtin::BoolLe => Ok(Whether(Truth(implies(view.truth(0), view.truth(1))))),
        Builtin::BoolLt => Ok(Whether(Truth(is_below(view.truth(0), view.truth(1))))),
        Builtin::BoolGe => Ok(Whether(Truth(implies(view.truth(1), view.truth(0))))),
        Builtin::BoolGt => Ok(Whether(Truth(is_below(view.truth(1), view.truth(0))))),
        Builtin::BoolNot => Ok(scalars::bool_not(view, first)),
        Builtin::BoolAnd => Ok(Boolean(2, Some(scalars::bool_and(view)))),
        Builtin::BoolOr => Ok(Boolean(2, Some(scalars::bool_or(view)))),
        Builtin::BoolXor => Ok(Boolean(2, Some(view.truth(0) != view.truth(1)))),
        Builtin::BoolAndImp => Ok(Whether(Truth(implies(view.truth(2), scalars::bool_and(view))))),
        Builtin::BoolOrImp => Ok(Whether(Truth(implies(view.truth(2), scalars::bool_or(view))))),
        Builtin::BoolXorImp => Ok(Whether(Truth(implies(
            view.truth(2),
            view.truth(0) != view.truth(1),
        )))),
        Builtin::ArrayBoolAnd => Ok(Boolean(1, Some(arrays::bool_all(view)))),
        Builtin::ArrayBoolOr => Ok(Boolean(1, Some(arrays::bool_any(view)))),
        Builtin::ArrayBoolAndImp => Ok(Whether(Truth(implies(
            view.truth(1),
            arrays::bool_all(view),
        )))),
        Builtin::ArrayBoolOrImp => Ok(Whether(Truth(implies(
            view.truth(1),
            arrays::bool_any(view),
        )))),
        Builtin::ArrayBoolXor => Ok(Whether(Truth(arrays::bool_odd(view)))),
        Builtin::ArrayBoolElement => Ok(Boolean(2, arrays::bool_element(view))),
        Builtin::BoolClause => Ok(Whether(Truth(arrays::bool_clause(view)))),
        Builtin::Bool2Int => Ok(scalars::bool2int(view, first)),
        Builtin::BoolLinEq => Ok(Number(2, Some(bool_sum(view)))),
        Builtin::BoolLinLe => Ok(Whether(Truth(bool_sum(view) <= i128::from(view.int(2))))),
        Builtin::BoolLinNe => Ok(Whether(Truth(bool_sum(view) != i128::from(view.int(2))))),
        Builtin::BoolLinLt => Ok(Whether(Truth(bool_sum(view) < i128::from(view.int(2))))),
        Builtin::BoolLinGe => Ok(Whether(Truth(bool_sum(view) >= i128::from(view.int(2))))),
        Builtin::BoolLinGt => Ok(Whether(Truth(bool_sum(view) > i128::from(view.int(2))))),
        Builtin::SetIn => Ok(Whether(Truth(view.set(1).contains(view.int(0))))),
        Builtin::SetEq => Ok(scalars::set_eq(view, first)),
        Builtin::SetNe => Ok(Whether(Truth(!same_set(view.set(0), view.set(1))))),
        Builtin::SetSubset => Ok(Whether(Truth(view.set(0).is_subset(view.set(1))))),
        Builtin::SetSuperset => Ok(Whether(Truth(view.set(1).is_subset(view.set(0))))),
        Builtin::SetUnion => Ok(Set(2, view.set(0).union(alloc, view.set(1))?)),
        Builtin::SetIntersect => Ok(Set(2, view.set(0).intersect(alloc, view.set(1))?)),
        Builtin::SetDiff => Ok(Set(2, view.set(0).minus(alloc, view.set(1))?)),
        Builtin::SetSymdiff => Ok(Set(2, view.set(0).symdiff(alloc, view.set(1))?)),
        Builtin::SetCard => Ok(Number(1, Some(scalars::set_card(view)))),
        Builtin::SetConvex => Ok(Whether(Truth(flags::convex(alloc, view)?))),
        Builtin::ArraySetElement => Ok(Given(2, arrays::set_element(view))),
        Builtin::GecodeArraySetElementUnion => flags::set_element_union(alloc, view),
        Builtin::FznAlldifferentExcept0 => Ok(Whether(Truth(counting::different_but_zeros(
            alloc, view,
        )?))),
        Builtin::FznAllEqualInt => Ok(Whether(Truth(ordering::all_equal_int(view)))),
        Builtin::FznCountEq => Ok(Number(2, Some(count(view, 0, 1)))),
        Builtin::FznCountNeq => Ok(Whether(Truth(i128::from(view.int(2)) != count(view, 0, 1)))),
        Builtin::FznCountGeq => Ok(Whether(Truth(i128::from(view.int(2)) >= count(view, 0, 1)))),
        Builtin::FznCountGt => Ok(Whether(Truth(i128::from(view.int(2)) > count(view, 0, 1)))),
        Builtin::FznCountLeq => Ok(Whether(Truth(i128::from(view.int(2)) <= count(view, 0, 1)))),
        Builtin::FznCountLt => Ok(Whether(Truth(i128::from(view.int(2)) < count(view, 0, 1)))),
        Builtin::FznAmong => Ok(Number(0, Some(counting::among(view)))),
        Builtin::FznNvalue => Ok(Number(0, Some(counting::number_of_values(alloc, view)?))),
        Builtin::FznAtLeastInt => Ok(Whether(Truth(i128::from(view.int(0)) <= count(view, 1, 2)))),
        Builtin::FznAtMostInt => Ok(Whether(Truth(i128::from(view.int(0)) >= count(view, 1, 2)))),
        Builtin::FznExactlyInt => Ok(Whether(Truth(i128::from(view.int(0)) == count(view, 1, 2)))),
        Builtin::FznGlobalCardinality => Ok(Whether(Truth(covers::cardinality(alloc, view)?))),
        Builtin::FznGlobalCardinalityClosed => Ok(Whether(Truth(covers::cardinality_closed(
            alloc, view,
        )?))),
        Builtin::FznGlobalCardinalityLowUp => Ok(Whether(Truth(covers::cardinality_between(
            alloc, view,
        )?))),
        Builtin::FznGlobalCardinalityLowUpClosed => Ok(Whether(Truth(
            covers::cardinality_between_closed(alloc, view)?,
        ))),
        Builtin::FznDistribute => Ok(Whether(Truth(covers::distribute(alloc, view)?))),
        Builtin::FznCumulative => Ok(Whether(Truth(scheduling::cumulative(view)))),
        Builtin::FznDisjunctive => Ok(Whether(Truth(scheduling::disjunctive(view)))),
        Builtin::FznDisjunctiveStrict => Ok(Whether(Truth(scheduling::disjunctive_strict(view)))),
        Builtin::GecodeScheduleUnary => Ok(Whether(Truth(scheduling::schedule_unary(view)))),
        Builtin::FznDiffn => Ok(Whether(Truth(scheduling::diffn(view)))),
        Builtin::FznDiffnNonstrict => Ok(Whether(Truth(scheduling::diffn_nonstrict(view)))),
        Builtin::GecodeNooverlap => Ok(Whether(Truth(scheduling::nooverlap(view)))),
        Builtin::GecodeCircuit => Ok(Whether(Truth(places::circuit(view)))),
        Builtin::FzcheckSubcircuit => Ok(Whether(Truth(places::subcircuit(alloc, view)?))),
        Builtin::InverseOffsets => Ok(Whether(Truth(places::inverse(view)))),
        Builtin::FznTableInt => Ok(Whether(Truth(places::table_int(view)))),
        Builtin::FznTableBool => Ok(Whether(Truth(places::table_bool(view)))),
        Builtin::FznRegular => Ok(Whether(Truth(places::regular(view)))),
        Builtin::FznBinPacking => Ok(Whether(Truth(scheduling::bin_packing(view)))),
        Builtin::GecodeBinPackingLoad => Ok(Whether(Truth(scheduling::bin_packing_load(view)))),
        Builtin::FznLexLessInt => Ok(Whether(Truth(ordering::lex_less_int(view)))),
        Builtin::FznLexLesseqInt => Ok(Whether(Truth(ordering::lex_lesseq_int(view)))),
        Builtin::FznLexLessBool => Ok(Whether(Truth(ordering::lex_less_bool(view)))),
        Builtin::FznLexLesseqBool => Ok(Whether(Truth(ordering::lex_lesseq_bool(view)))),
        Builtin::FznIncreasingInt => Ok(Whether(Truth(ordering::increasing_int(view)))),
        Builtin::FznIncreasingBool => Ok(Whether(Truth(ordering::increasing_bool(view)))),
        Builtin::FznDecreasingInt => Ok(Whether(Truth(ordering::decreasing_int(view)))),
        Builtin::FznDecreasingBool => Ok(Whether(Truth(ordering::decreasing_bool(view)))),
        Builtin::FznStrictlyIncreasingInt => Ok(Whether(Truth(ordering::strictly_increasing_int(
            view,
        )))),
        Builtin::FznValuePrecedeInt => Ok(Whether(Truth(ordering::value_precede(view)))),
        Builtin::GecodePrecede => Ok(Whether(Truth(ordering::precede(view)))),
        Builtin::GecodePrecedeSet => Ok(Whether(Truth(ordering::precede_set(view)))),
        Builtin::FznValuePrecedeChainInt => Ok(Whether(Truth(ordering::value_precede_chain(
            alloc, view,
        )?))),
        Builtin::FznSeqPrecedeChainInt => Ok(Whether(Truth(ordering::seq_precede_chain(view)))),
        Builtin::FznSort => Ok(Whether(Truth(ordering::sorted(alloc, view)?))),
        Builtin::FznMemberInt => Ok(Whether(Truth(counting::member_int(view)))),
        Builtin::FznMemberBool => Ok(Whether(Truth(counting::member_bool(view)))),
        Builtin::GecodeMaximumArgIntOffset => Ok(Number(2, places::argument_of_maximum(view))),
        Builtin::GecodeMinimumArgIntOffset => Ok(Number(2, places::argument_of_minimum(view))),
        Builtin::GecodeMaximumArgBoolOffset => {
            Ok(Number(2, places::argument_of_greatest_truth(view)))
        }
        Builtin::FznKnapsack => Ok(Whether(sums::knapsack(view))),
        Builtin::FznSlidingSum => Ok(Whether(Truth(scheduling::sliding_sum(view)))),
        Builtin::GecodeAmongSeqInt => Ok(Whether(Truth(scheduling::among_seq(view)))),
        Builtin::GecodeSetWeights => Ok(Number(3, scheduling::set_weights(alloc, view)?)),
        Builtin::GecodeLinkSetToBooleans => Ok(Whether(Truth(flags::link_set_to_booleans(view)))),
        Builtin::GecodeIntSetChannel => Ok(Whether(Truth(flags::int_set_channel(view)))),
        Builtin::GecodeInverseSet => Ok(Whether(Truth(flags::inverse_set(view)))),
        Builtin::GecodeRange => flags::range(alloc, view),
        Builtin::FznDisjoint => Ok(Whether(Truth(flags::disjoint(view)))),
        Builtin::FznPartitionSet => Ok(Whether(Truth(flags::partition_set(alloc, view)?))),
    }
}
