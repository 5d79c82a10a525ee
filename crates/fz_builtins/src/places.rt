//! The rows of lists of successors, of tables and of automata.

ghost use Rattle.std.specs.Prelude.{◌≡◌, ℤ, int_le, map, IfOk};
ghost use Rattle.fz_globals.specs.of_meaning.Relations.{◌=ℤ◌, ◌=ᴮ◌, as_number, as_places, is_circuit, is_subcircuit, are_inverse, is_row_of, is_word, is_index_of_best};
ghost use Rattle.fz_builtins.specs.Readings.{int, ints, numbers, truths};
ghost use Rattle.fz_builtins.specs.Said.{is_result};

use fz_globals::best_index::{index_of_greatest_truth, index_of_maximum, index_of_minimum};
use fz_globals::tables::{is_bool_row, is_int_row};
use fz_globals::tours::{are_inverse, is_circuit, is_subcircuit};
use fz_kernel::ArgumentView;
use fz_scheduling::words::is_word;
use std::alloc::{AllocError, Global};

/// Whether the successors lead from the first position to all, to each once, and back.
pub(crate) fn circuit(view: &ArgumentView<'_, '_>) -> bool
    ensures { result ≡ is_circuit (as_places (int view.now 0) (ints view.now 1)) }
{
    is_circuit(view.int(0), &view.elements(1))
}

/// Whether they are a permutation whose moved positions make one cycle.
pub(crate) fn subcircuit(alloc: Global, view: &ArgumentView<'_, '_>) -> Result<bool, AllocError>
    ensures { IfOk result (λ r. r ≡ is_subcircuit (as_places (int view.now 0) (ints view.now 1))) }
{
    is_subcircuit(alloc, view.int(0), &view.elements(1))
}

/// Whether each list is the inverse of the other.
pub(crate) fn inverse(view: &ArgumentView<'_, '_>) -> bool
    ensures { result ≡ are_inverse (as_places (int view.now 1) (ints view.now 0))
        (as_places (int view.now 3) (ints view.now 2)) }
{
    are_inverse(
        &view.elements(0),
        view.int(1),
        &view.elements(2),
        view.int(3),
    )
}

/// Whether the list is a row of the table.
pub(crate) fn table_int(view: &ArgumentView<'_, '_>) -> bool
    ensures { result ≡ is_row_of ◌=ℤ◌ (ints view.now 0) (ints view.now 1) }
{
    is_int_row(&view.elements(0), &view.elements(1))
}

/// Whether the list is a row of the table.
pub(crate) fn table_bool(view: &ArgumentView<'_, '_>) -> bool
    ensures { result ≡ is_row_of ◌=ᴮ◌ (truths view.now 0) (truths view.now 1) }
{
    is_bool_row(&view.elements(0), &view.elements(1))
}

/// Whether the list is a word of the automaton.
pub(crate) fn regular(view: &ArgumentView<'_, '_>) -> bool
    ensures { result ≡ is_word (ints view.now 0) (int view.now 1) (int view.now 2) (ints view.now 3)
        (int view.now 4) (numbers view.now 5) }
{
    let (transitions, last) = (&view.elements(3), view.set(5));
    let (states, symbols, first) = (view.int(1), view.int(2), view.int(4));
    is_word(&view.elements(0), states, symbols, transitions, first, last)
}

/// The index of the first greatest element.
pub(crate) fn argument_of_maximum(view: &ArgumentView<'_, '_>) -> Option<i128>
    ensures { (i : ℤ) → is_index_of_best (λ x m. int_le x m) (ints view.now 0) (int view.now 1) i
        ≡ is_result ◌=ℤ◌ result i }
{
    index_of_maximum(&view.elements(0), view.int(1))
}

/// The index of the first greatest Boolean.
pub(crate) fn argument_of_greatest_truth(view: &ArgumentView<'_, '_>) -> Option<i128>
    ensures { (i : ℤ) → is_index_of_best (λ x m. int_le x m) (map as_number (truths view.now 0))
        (int view.now 1) i ≡ is_result ◌=ℤ◌ result i }
{
    index_of_greatest_truth(&view.elements(0), view.int(1))
}

/// The index of the first least element.
pub(crate) fn argument_of_minimum(view: &ArgumentView<'_, '_>) -> Option<i128>
    ensures { (i : ℤ) → is_index_of_best (λ x m. int_le m x) (ints view.now 0) (int view.now 1) i
        ≡ is_result ◌=ℤ◌ result i }
{
    index_of_minimum(&view.elements(0), view.int(1))
}
