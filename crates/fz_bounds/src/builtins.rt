//! What bounds say of a builtin's row.

ghost use Rattle.fz_model.specs.Builtins.{row_at};
ghost use Rattle.fz_bounds.specs.Within.{Foretells};

use crate::bounded::BoundedConstraint;
use crate::order::Order;
use crate::outlook::Outlook;
use fz_store::Builtin;

/// Whether the row of a builtin holds at no arguments inside the bounds, or at all of them.
pub(crate) fn foretold(builtin: Builtin, at: &BoundedConstraint<'_, '_>) -> Outlook
    ensures { Foretells at.now (row_at builtin) result }
{
    match builtin {
        Builtin::IntEq => at.number(0).equal(at.number(1)),
        Builtin::IntNe => at.number(0).equal(at.number(1)).negated(),
        Builtin::IntLe => at.number(0).at_most(at.number(1)),
        Builtin::IntLt => at.number(0).below(at.number(1)),
        Builtin::IntGe => at.number(1).at_most(at.number(0)),
        Builtin::IntGt => at.number(1).below(at.number(0)),
        Builtin::IntPlus => at.number(2).equal(at.number(0).plus(at.number(1))),
        Builtin::IntMinus => at.number(2).equal(at.number(0).minus(at.number(1))),
        Builtin::IntTimes => at.number(2).equal(at.product(0, 1)),
        Builtin::IntMin => at.number(2).equal(at.number(0).min(at.number(1))),
        Builtin::IntMax => at.number(2).equal(at.number(0).max(at.number(1))),
        Builtin::IntAbs => at.number(1).equal(at.number(0).abs()),
        Builtin::IntNegate => at.number(1).equal(at.number(0).negated()),
        Builtin::BoolEq => at.truth(0).same(at.truth(1)),
        Builtin::BoolLe => at.truth(0).negated().or(at.truth(1)),
        Builtin::BoolLt => at.truth(0).negated().and(at.truth(1)),
        Builtin::BoolGe => at.truth(1).negated().or(at.truth(0)),
        Builtin::BoolGt => at.truth(1).negated().and(at.truth(0)),
        Builtin::BoolNot => at.truth(0).same(at.truth(1)).negated(),
        Builtin::BoolAnd => at.truth(2).same(at.truth(0).and(at.truth(1))),
        Builtin::BoolOr => at.truth(2).same(at.truth(0).or(at.truth(1))),
        Builtin::BoolXor => at.truth(2).same(at.truth(0).same(at.truth(1)).negated()),
        Builtin::BoolAndImp => at.truth(2).negated().or(at.truth(0).and(at.truth(1))),
        Builtin::BoolOrImp => at.truth(2).negated().or(at.truth(0).or(at.truth(1))),
        Builtin::BoolXorImp => {
            at.truth(2)
                .negated()
                .or(at.truth(0).same(at.truth(1)).negated())
        }
        Builtin::ArrayBoolAnd => at.truth(1).same(at.all_true(0)),
        Builtin::ArrayBoolOr => at.truth(1).same(at.any_true(0)),
        Builtin::ArrayBoolAndImp => at.truth(1).negated().or(at.all_true(0)),
        Builtin::ArrayBoolOrImp => at.truth(1).negated().or(at.any_true(0)),
        Builtin::BoolClause => at.any_true(0).or(at.any_false(1)),
        Builtin::Bool2Int => at.number(1).equal(at.truth(0).number()),
        Builtin::IntLinEq => at.sum_of_products(0, 1).equal(at.number(2)),
        Builtin::IntLinNe => at.sum_of_products(0, 1).equal(at.number(2)).negated(),
        Builtin::IntLinLe => at.sum_of_products(0, 1).at_most(at.number(2)),
        Builtin::BoolLinEq => at.sum_where_true().equal(at.number(2)),
        Builtin::BoolLinNe => at.sum_where_true().equal(at.number(2)).negated(),
        Builtin::BoolLinLe => at.sum_where_true().at_most(at.number(2)),
        Builtin::BoolLinLt => at.sum_where_true().below(at.number(2)),
        Builtin::BoolLinGe => at.number(2).at_most(at.sum_where_true()),
        Builtin::BoolLinGt => at.number(2).below(at.sum_where_true()),
        Builtin::ArrayIntElement => at.int_element(),
        Builtin::ArrayBoolElement => at.bool_element(),
        Builtin::ArrayIntMaximum => at.is_among(at.number(0), 1).and(at.all_are(Order::AtMost)),
        Builtin::ArrayIntMinimum => at.is_among(at.number(0), 1).and(at.all_are(Order::AtLeast)),
        Builtin::FznCountEq => at.number(2).equal(at.count_of(0, at.number(1))),
        Builtin::FznCountNeq => at.number(2).equal(at.count_of(0, at.number(1))).negated(),
        Builtin::FznCountGeq => at.count_of(0, at.number(1)).at_most(at.number(2)),
        Builtin::FznCountGt => at.count_of(0, at.number(1)).below(at.number(2)),
        Builtin::FznCountLeq => at.number(2).at_most(at.count_of(0, at.number(1))),
        Builtin::FznCountLt => at.number(2).below(at.count_of(0, at.number(1))),
        Builtin::FznAtLeastInt => at.number(0).at_most(at.count_of(1, at.number(2))),
        Builtin::FznAtMostInt => at.count_of(1, at.number(2)).at_most(at.number(0)),
        Builtin::FznExactlyInt => at.number(0).equal(at.count_of(1, at.number(2))),
        Builtin::FznAlldifferentExcept0 => at.different_but_zeros(),
        Builtin::FznBinPacking => at.loads_are_within(),
        Builtin::GecodeBinPackingLoad => at.are_in_bins().and(at.loads_are()),
        Builtin::FznGlobalCardinality => at.counts_are(0, 1, 2),
        Builtin::FznGlobalCardinalityClosed => at.counts_are(0, 1, 2).and(at.is_closed()),
        Builtin::FznGlobalCardinalityLowUp => at.counts_lie(),
        Builtin::FznGlobalCardinalityLowUpClosed => at.counts_lie().and(at.is_closed()),
        Builtin::FznDistribute => at.counts_are(2, 1, 0),
        Builtin::FznCumulative => at.is_cumulative(),
        Builtin::FznDisjunctive => at.last_naturally().and(at.keep_all_apart(true)),
        Builtin::FznDisjunctiveStrict => at.last_naturally().and(at.keep_all_apart(false)),
        Builtin::IntDiv => at.is_quotient(),
        Builtin::IntMod => at.is_remainder(),
        Builtin::FznAllEqualInt => at.are_in_order(Order::Same),
        Builtin::FznIncreasingInt => at.are_in_order(Order::AtMost),
        Builtin::FznDecreasingInt => at.are_in_order(Order::AtLeast),
        Builtin::FznStrictlyIncreasingInt => at.are_in_order(Order::Below),
        Builtin::FznIncreasingBool => at.are_rising(),
        Builtin::FznDecreasingBool => at.are_falling(),
        Builtin::FznValuePrecedeInt => at.precedes(at.number(0), at.number(1), 2),
        Builtin::GecodePrecede => at.precedes(at.number(1), at.number(2), 0),
        Builtin::FznValuePrecedeChainInt => at.precede_in_turn(),
        Builtin::FznSeqPrecedeChainInt => at.rise_by_one(),
        Builtin::SetIn => at.is_in(),
        Builtin::FznAmong => at.number(0).equal(at.count_in()),
        Builtin::FznMemberInt => at.is_among(at.number(1), 0),
        Builtin::FznKnapsack => at.fills_knapsack(),
        Builtin::GecodeScheduleUnary => at.keep_all_apart(false),
        Builtin::FznDiffn => at.boxes_keep_apart(1, 2, false),
        Builtin::FznDiffnNonstrict => at.boxes_keep_apart(1, 2, true),
        Builtin::GecodeNooverlap => at.boxes_keep_apart(2, 1, false),
        Builtin::FznLexLessInt => at.comes_before(false, 0, 1),
        Builtin::FznLexLesseqInt => at.comes_before(false, 1, 0).negated(),
        Builtin::FznLexLessBool => at.comes_before(true, 0, 1),
        Builtin::FznLexLesseqBool => at.comes_before(true, 1, 0).negated(),
        Builtin::FznTableInt => at.is_row_of(),
        Builtin::InverseOffsets => at.are_inverse(),
        _ => Outlook::Open,
    }
}
