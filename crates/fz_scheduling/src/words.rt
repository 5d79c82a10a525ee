//! Words that a finite automaton accepts.
ghost use Rattle.std.specs.Prelude.{◌≡◌, ◌≤◌, ◌+ℤ◌, ◌*ℤ◌, pos, length, take};
ghost use Rattle.fz_kernel.specs.of_meaning.Relations.{is_word, lies_between, run, step};
ghost use Rattle.fz_kernel.specs.Views.{ints};

use crate::reading::{number_at, number_count};
use fz_kernel::Elements;
use fz_kernel::arrays::int_element_at;
use fz_kernel::numbers::product;
use fz_store::IntSet;

/// Whether the word leads from the first state to a final one. The transitions are written row by
/// row, one row for each state.
pub fn is_word(
    xs: &Elements,
    states: i64,
    symbols: i64,
    transitions: &Elements,
    first: i64,
    last: &IntSet,
) -> bool
    ensures exact { result ≡ is_word (ints xs.now) states symbols
        (ints transitions.now) first last.now }
{
    match end_of_run(states, symbols, transitions, first, xs) {
        Some(state) => lies_from_one(states, state) && last.contains(state),
        None => false,
    }
}

/// The state to which the word leads from a state; none where it leads nowhere.
#[tactic(auto, using(std::proofs::lemmas::List::take_all))]
pub fn end_of_run(
    states: i64,
    symbols: i64,
    transitions: &Elements,
    from: i64,
    xs: &Elements,
) -> Option<i64>
    ensures exact { result ≡ run states symbols (ints transitions.now) from (ints xs.now) }
{
    state_after(states, symbols, transitions, from, xs, number_count(xs))
}

/// The state to which the first so many symbols lead from a state; none where they lead nowhere.
pub fn state_after(
    states: i64,
    symbols: i64,
    transitions: &Elements,
    from: i64,
    xs: &Elements,
    count: usize,
) -> Option<i64>
    requires { count ≤ length (ints xs.now) }
    ensures exact { result
        ≡ run states symbols (ints transitions.now) from (take count (ints xs.now)) }
{
    let mut state = from;
    for place in 0..count {
        match next_state(states, symbols, transitions, state, number_at(xs, place)) {
            Some(next) => state = next,
            None => return None,
        }
    }
    Some(state)
}

/// The state to which a symbol leads; none where it leads nowhere.
#[inline]
pub fn next_state(
    states: i64,
    symbols: i64,
    transitions: &Elements,
    state: i64,
    symbol: i64,
) -> Option<i64>
    ensures exact { result ≡ step states symbols (ints transitions.now) state symbol }
{
    if !lies_from_one(states, state) || !lies_from_one(symbols, symbol) {
        return None;
    }
    int_element_at(product_and_more(state - 1, symbols, symbol), transitions)
}

#[inline(always)]
fn lies_from_one(most: i64, number: i64) -> bool
    ensures { result ≡ lies_between (pos 1) most number }
{
    1 <= number && number <= most
}

// The product and one more number, which always fits in 128 bits.
fn product_and_more(a: i64, b: i64, more: i64) -> i128
    ensures exact { result ≡ ((a *ℤ b) +ℤ more) }
{
    product(a, b) + i128::from(more)
}
