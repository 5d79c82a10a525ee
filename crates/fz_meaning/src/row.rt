//! What the rows of the table ask of a constraint's arguments, and which of them may be filled.

ghost use Rattle.std.specs.Prelude.{◌≡◌, Some, slice_get};
ghost use Rattle.fz_meaning.specs.Builtins.{builtins, row_at};
ghost use Rattle.fz_meaning.specs.TableData.{AreData, IsData};

use crate::builtin::Builtin;
use crate::kind::Kind;

/// What an argument is: a scalar of a kind, or an array of such.
#[derive(Clone, Copy, PartialEq, Eq)]
pub enum Shape {
    Scalar(Kind),
    Array(Kind),
}

/// Which arguments `defines_var` may name, by their indices, counted from 0.
#[derive(Clone, Copy, PartialEq, Eq)]
pub enum Filled {
    Nothing,
    /// The one at this index.
    At(usize),
    /// The one at either index.
    Either(usize, usize),
    /// One element of the second array, where its coefficient is 1 or -1.
    UnitTerm,
}

/// An array that was a matrix, and is written row by row: how long its rows are. Arguments are told
/// by their indices, counted from 0.
#[derive(Clone, Copy, PartialEq, Eq)]
pub enum Matrix {
    /// No array was one.
    Absent,
    /// The rows of the second are as long as the first, an array that isn't empty.
    RowsLike(usize, usize),
    /// The third has as many rows as the first says, and each is as long as the second says; both
    /// are fixed numbers.
    RowsBy(usize, usize, usize),
}

/// A number that a row computes in signed 128 bits, by the indices of arguments, counted from 0.
#[derive(Clone, Copy, PartialEq, Eq)]
pub enum Wide {
    /// The sum of the products of two arrays.
    Products(usize, usize),
    /// The power of a scalar by another.
    Power(usize, usize),
}

// Which arrays have to be of certain lengths: none; those at some argument indices, counted from 0,
// of equal ones; the first two, whose products are added in signed 128 bits; the first three, where
// the products of each of the first two with the third are added so; none, where the power of the
// first argument by the second is computed so; or one that was a matrix.
#[derive(Clone, Copy)]
pub(crate) enum Lengths {
    Free,
    Equal(&'static [usize]),
    Summed,
    Packed,
    Raised,
    Shaped(Matrix),
}

// The kinds of a base row's arguments followed by the Boolean of its reified forms, what may be
// filled, what is asked of lengths, and whether there are reified forms.
#[derive(Clone, Copy)]
pub(crate) struct BaseRow(
    pub(crate) &'static [Shape],
    pub(crate) Filled,
    pub(crate) Lengths,
    pub(crate) bool,
);

const INT: Shape = Shape::Scalar(Kind::Int);

const BOOL: Shape = Shape::Scalar(Kind::Bool);

const SET: Shape = Shape::Scalar(Kind::Set);

const INTS: Shape = Shape::Array(Kind::Int);

const BOOLS: Shape = Shape::Array(Kind::Bool);

const SETS: Shape = Shape::Array(Kind::Set);

const NONE: Filled = Filled::Nothing;

const A: Filled = Filled::At(0);

const B: Filled = Filled::At(1);

const C: Filled = Filled::At(2);

const D: Filled = Filled::At(3);

const A_OR_B: Filled = Filled::Either(0, 1);

const UNIT_TERM: Filled = Filled::UnitTerm;

const FREE: Lengths = Lengths::Free;

const FIRST_TWO: Lengths = Lengths::Equal(&[0, 1]);

const B_AND_C: Lengths = Lengths::Equal(&[1, 2]);

const FIRST_THREE: Lengths = Lengths::Equal(&[0, 1, 2]);

const LAST_THREE: Lengths = Lengths::Equal(&[1, 2, 3]);

const ALL_FOUR: Lengths = Lengths::Equal(&[0, 1, 2, 3]);

const SUMMED: Lengths = Lengths::Summed;

const PACKED: Lengths = Lengths::Packed;

const RAISED: Lengths = Lengths::Raised;

const TABLE: Lengths = Lengths::Shaped(Matrix::RowsLike(0, 1));

const AUTOMATON: Lengths = Lengths::Shaped(Matrix::RowsBy(1, 2, 3));

const FORMS: bool = true;

const ALONE: bool = false;

static ROWS: [BaseRow; 125] = [
    BaseRow(&[INT, INT, BOOL], A_OR_B, FREE, FORMS), // int_eq
    BaseRow(&[INT, INT, BOOL], NONE, FREE, FORMS), // int_ne
    BaseRow(&[INT, INT, BOOL], NONE, FREE, FORMS), // int_le
    BaseRow(&[INT, INT, BOOL], NONE, FREE, FORMS), // int_lt
    BaseRow(&[INT, INT, BOOL], NONE, FREE, FORMS), // int_ge
    BaseRow(&[INT, INT, BOOL], NONE, FREE, FORMS), // int_gt
    BaseRow(&[INTS, INTS, INT, BOOL], UNIT_TERM, SUMMED, FORMS), // int_lin_eq
    BaseRow(&[INTS, INTS, INT, BOOL], NONE, SUMMED, FORMS), // int_lin_ne
    BaseRow(&[INTS, INTS, INT, BOOL], NONE, SUMMED, FORMS), // int_lin_le
    BaseRow(&[INT, INT, INT, BOOL], C, FREE, ALONE), // int_plus
    BaseRow(&[INT, INT, INT, BOOL], C, FREE, ALONE), // int_minus
    BaseRow(&[INT, INT, INT, BOOL], C, FREE, ALONE), // int_times
    BaseRow(&[INT, INT, INT, BOOL], C, FREE, ALONE), // int_min
    BaseRow(&[INT, INT, INT, BOOL], C, FREE, ALONE), // int_max
    BaseRow(&[INT, INT, BOOL], B, FREE, ALONE), // int_abs
    BaseRow(&[INT, INT, BOOL], B, FREE, ALONE), // int_negate
    BaseRow(&[INT, INT, INT, BOOL], C, FREE, ALONE), // int_div
    BaseRow(&[INT, INT, INT, BOOL], C, FREE, ALONE), // int_mod
    BaseRow(&[INT, INT, INT, BOOL], C, RAISED, ALONE), // int_pow
    BaseRow(&[INT, INTS, INT, BOOL], C, FREE, ALONE), // array_int_element
    BaseRow(&[INT, INTS, BOOL], A, FREE, ALONE), // array_int_maximum
    BaseRow(&[INT, INTS, BOOL], A, FREE, ALONE), // array_int_minimum
    BaseRow(&[INTS, BOOL], NONE, FREE, FORMS), // fzn_all_different_int
    BaseRow(&[BOOL, BOOL, BOOL], A_OR_B, FREE, FORMS), // bool_eq
    BaseRow(&[BOOL, BOOL, BOOL], NONE, FREE, FORMS), // bool_le
    BaseRow(&[BOOL, BOOL, BOOL], NONE, FREE, FORMS), // bool_lt
    BaseRow(&[BOOL, BOOL, BOOL], NONE, FREE, FORMS), // bool_ge
    BaseRow(&[BOOL, BOOL, BOOL], NONE, FREE, FORMS), // bool_gt
    BaseRow(&[BOOL, BOOL, BOOL], A_OR_B, FREE, FORMS), // bool_not
    BaseRow(&[BOOL, BOOL, BOOL, BOOL], C, FREE, ALONE), // bool_and
    BaseRow(&[BOOL, BOOL, BOOL, BOOL], C, FREE, ALONE), // bool_or
    BaseRow(&[BOOL, BOOL, BOOL, BOOL], C, FREE, ALONE), // bool_xor
    BaseRow(&[BOOL, BOOL, BOOL, BOOL], NONE, FREE, ALONE), // bool_and_imp
    BaseRow(&[BOOL, BOOL, BOOL, BOOL], NONE, FREE, ALONE), // bool_or_imp
    BaseRow(&[BOOL, BOOL, BOOL, BOOL], NONE, FREE, ALONE), // bool_xor_imp
    BaseRow(&[BOOLS, BOOL, BOOL], B, FREE, ALONE), // array_bool_and
    BaseRow(&[BOOLS, BOOL, BOOL], B, FREE, ALONE), // array_bool_or
    BaseRow(&[BOOLS, BOOL, BOOL], NONE, FREE, ALONE), // array_bool_and_imp
    BaseRow(&[BOOLS, BOOL, BOOL], NONE, FREE, ALONE), // array_bool_or_imp
    BaseRow(&[BOOLS, BOOL], NONE, FREE, FORMS), // array_bool_xor
    BaseRow(&[INT, BOOLS, BOOL, BOOL], C, FREE, ALONE), // array_bool_element
    BaseRow(&[BOOLS, BOOLS, BOOL], NONE, FREE, FORMS), // bool_clause
    BaseRow(&[BOOL, INT, BOOL], A_OR_B, FREE, ALONE), // bool2int
    BaseRow(&[INTS, BOOLS, INT, BOOL], C, FIRST_TWO, FORMS), // bool_lin_eq
    BaseRow(&[INTS, BOOLS, INT, BOOL], NONE, FIRST_TWO, FORMS), // bool_lin_le
    BaseRow(&[INTS, BOOLS, INT, BOOL], NONE, FIRST_TWO, FORMS), // bool_lin_ne
    BaseRow(&[INTS, BOOLS, INT, BOOL], NONE, FIRST_TWO, FORMS), // bool_lin_lt
    BaseRow(&[INTS, BOOLS, INT, BOOL], NONE, FIRST_TWO, FORMS), // bool_lin_ge
    BaseRow(&[INTS, BOOLS, INT, BOOL], NONE, FIRST_TWO, FORMS), // bool_lin_gt
    BaseRow(&[INT, SET, BOOL], NONE, FREE, FORMS), // set_in
    BaseRow(&[SET, SET, BOOL], A_OR_B, FREE, FORMS), // set_eq
    BaseRow(&[SET, SET, BOOL], NONE, FREE, FORMS), // set_ne
    BaseRow(&[SET, SET, BOOL], NONE, FREE, FORMS), // set_subset
    BaseRow(&[SET, SET, BOOL], NONE, FREE, FORMS), // set_superset
    BaseRow(&[SET, SET, SET, BOOL], C, FREE, ALONE), // set_union
    BaseRow(&[SET, SET, SET, BOOL], C, FREE, ALONE), // set_intersect
    BaseRow(&[SET, SET, SET, BOOL], C, FREE, ALONE), // set_diff
    BaseRow(&[SET, SET, SET, BOOL], C, FREE, ALONE), // set_symdiff
    BaseRow(&[SET, INT, BOOL], B, FREE, ALONE), // set_card
    BaseRow(&[SET, BOOL], NONE, FREE, FORMS), // set_convex
    BaseRow(&[INT, SETS, SET, BOOL], C, FREE, ALONE), // array_set_element
    BaseRow(&[SET, SETS, SET, BOOL], C, FREE, ALONE), // gecode_array_set_element_union
    BaseRow(&[INTS, BOOL], NONE, FREE, FORMS), // fzn_alldifferent_except_0
    BaseRow(&[INTS, BOOL], NONE, FREE, FORMS), // fzn_all_equal_int
    BaseRow(&[INTS, INT, INT, BOOL], C, FREE, FORMS), // fzn_count_eq
    BaseRow(&[INTS, INT, INT, BOOL], NONE, FREE, FORMS), // fzn_count_neq
    BaseRow(&[INTS, INT, INT, BOOL], NONE, FREE, FORMS), // fzn_count_geq
    BaseRow(&[INTS, INT, INT, BOOL], NONE, FREE, FORMS), // fzn_count_gt
    BaseRow(&[INTS, INT, INT, BOOL], NONE, FREE, FORMS), // fzn_count_leq
    BaseRow(&[INTS, INT, INT, BOOL], NONE, FREE, FORMS), // fzn_count_lt
    BaseRow(&[INT, INTS, SET, BOOL], A, FREE, FORMS), // fzn_among
    BaseRow(&[INT, INTS, BOOL], A, FREE, FORMS), // fzn_nvalue
    BaseRow(&[INT, INTS, INT, BOOL], NONE, FREE, FORMS), // fzn_at_least_int
    BaseRow(&[INT, INTS, INT, BOOL], NONE, FREE, FORMS), // fzn_at_most_int
    BaseRow(&[INT, INTS, INT, BOOL], NONE, FREE, FORMS), // fzn_exactly_int
    BaseRow(&[INTS, INTS, INTS, BOOL], NONE, B_AND_C, FORMS), // fzn_global_cardinality
    BaseRow(&[INTS, INTS, INTS, BOOL], NONE, B_AND_C, FORMS), // fzn_global_cardinality_closed
    // fzn_global_cardinality_low_up, and that with _closed
    BaseRow(&[INTS, INTS, INTS, INTS, BOOL], NONE, LAST_THREE, FORMS),
    BaseRow(&[INTS, INTS, INTS, INTS, BOOL], NONE, LAST_THREE, FORMS),
    BaseRow(&[INTS, INTS, INTS, BOOL], NONE, FIRST_TWO, FORMS), // fzn_distribute
    BaseRow(&[INTS, INTS, INTS, INT, BOOL], NONE, FIRST_THREE, FORMS), // fzn_cumulative
    BaseRow(&[INTS, INTS, BOOL], NONE, FIRST_TWO, FORMS), // fzn_disjunctive
    BaseRow(&[INTS, INTS, BOOL], NONE, FIRST_TWO, FORMS), // fzn_disjunctive_strict
    BaseRow(&[INTS, INTS, BOOL], NONE, FIRST_TWO, FORMS), // gecode_schedule_unary
    BaseRow(&[INTS, INTS, INTS, INTS, BOOL], NONE, ALL_FOUR, FORMS), // fzn_diffn
    BaseRow(&[INTS, INTS, INTS, INTS, BOOL], NONE, ALL_FOUR, FORMS), // fzn_diffn_nonstrict
    BaseRow(&[INTS, INTS, INTS, INTS, BOOL], NONE, ALL_FOUR, FORMS), // gecode_nooverlap
    BaseRow(&[INT, INTS, BOOL], NONE, FREE, FORMS), // gecode_circuit
    BaseRow(&[INT, INTS, BOOL], NONE, FREE, FORMS), // fzcheck_subcircuit
    BaseRow(&[INTS, INT, INTS, INT, BOOL], NONE, FREE, FORMS), // inverse_offsets
    BaseRow(&[INTS, INTS, BOOL], NONE, TABLE, FORMS), // fzn_table_int
    BaseRow(&[BOOLS, BOOLS, BOOL], NONE, TABLE, FORMS), // fzn_table_bool
    BaseRow(
        &[INTS, INT, INT, INTS, INT, SET, BOOL],
        NONE,
        AUTOMATON,
        FORMS,
    ), // fzn_regular
    BaseRow(&[INT, INTS, INTS, BOOL], NONE, B_AND_C, FORMS), // fzn_bin_packing
    BaseRow(&[INTS, INTS, INTS, INT, BOOL], NONE, B_AND_C, FORMS), // gecode_bin_packing_load
    BaseRow(&[INTS, INTS, BOOL], NONE, FREE, FORMS), // fzn_lex_less_int
    BaseRow(&[INTS, INTS, BOOL], NONE, FREE, FORMS), // fzn_lex_lesseq_int
    BaseRow(&[BOOLS, BOOLS, BOOL], NONE, FREE, FORMS), // fzn_lex_less_bool
    BaseRow(&[BOOLS, BOOLS, BOOL], NONE, FREE, FORMS), // fzn_lex_lesseq_bool
    BaseRow(&[INTS, BOOL], NONE, FREE, FORMS), // fzn_increasing_int
    BaseRow(&[BOOLS, BOOL], NONE, FREE, FORMS), // fzn_increasing_bool
    BaseRow(&[INTS, BOOL], NONE, FREE, FORMS), // fzn_decreasing_int
    BaseRow(&[BOOLS, BOOL], NONE, FREE, FORMS), // fzn_decreasing_bool
    BaseRow(&[INTS, BOOL], NONE, FREE, FORMS), // fzn_strictly_increasing_int
    BaseRow(&[INT, INT, INTS, BOOL], NONE, FREE, FORMS), // fzn_value_precede_int
    BaseRow(&[INTS, INT, INT, BOOL], NONE, FREE, FORMS), // gecode_precede
    BaseRow(&[SETS, INT, INT, BOOL], NONE, FREE, FORMS), // gecode_precede_set
    BaseRow(&[INTS, INTS, BOOL], NONE, FREE, FORMS), // fzn_value_precede_chain_int
    BaseRow(&[INTS, BOOL], NONE, FREE, FORMS), // fzn_seq_precede_chain_int
    BaseRow(&[INTS, INTS, BOOL], NONE, FREE, FORMS), // fzn_sort
    BaseRow(&[INTS, INT, BOOL], NONE, FREE, FORMS), // fzn_member_int
    BaseRow(&[BOOLS, BOOL, BOOL], NONE, FREE, FORMS), // fzn_member_bool
    BaseRow(&[INTS, INT, INT, BOOL], C, FREE, FORMS), // gecode_maximum_arg_int_offset
    BaseRow(&[INTS, INT, INT, BOOL], C, FREE, FORMS), // gecode_minimum_arg_int_offset
    BaseRow(&[BOOLS, INT, INT, BOOL], C, FREE, FORMS), // gecode_maximum_arg_bool_offset
    BaseRow(&[INTS, INTS, INTS, INT, INT, BOOL], NONE, PACKED, FORMS), // fzn_knapsack
    BaseRow(&[INT, INT, INT, INTS, BOOL], NONE, FREE, FORMS), // fzn_sliding_sum
    BaseRow(&[INTS, SET, INT, INT, INT, BOOL], NONE, FREE, FORMS), // gecode_among_seq_int
    BaseRow(&[INTS, INTS, SET, INT, BOOL], D, FIRST_TWO, FORMS), // gecode_set_weights
    BaseRow(&[SET, BOOLS, INT, BOOL], NONE, FREE, FORMS), // gecode_link_set_to_booleans
    BaseRow(&[INTS, INT, SETS, INT, BOOL], NONE, FREE, FORMS), // gecode_int_set_channel
    BaseRow(&[SETS, SETS, INT, INT, BOOL], NONE, FREE, FORMS), // gecode_inverse_set
    BaseRow(&[INTS, INT, SET, SET, BOOL], D, FREE, FORMS), // gecode_range
    BaseRow(&[SET, SET, BOOL], NONE, FREE, FORMS), // fzn_disjoint
    BaseRow(&[SETS, SET, BOOL], NONE, FREE, FORMS), // fzn_partition_set
];

// The rows in the order of the table.
#[inline(always)]
fn rows() -> &'static [BaseRow]
    ensures { AreData result.now }
{
    &ROWS
}

impl Builtin {
    // Its place in the table.
    #[tactic(auto, unfolding(crate::specs::Builtins::builtins))]
    #[inline(always)]
    fn place(self) -> usize
        ensures { slice_get builtins result ≡ Some self }
    {
        self as usize
    }

    // The row of the table.
    #[inline(always)]
    pub(crate) fn base_row(self) -> BaseRow
        ensures { IsData result (row_at self) }
    {
        rows()[self.place()]
    }
}
