//! Channelling: each number is the index of the set that has the number's own index.

ghost use Rattle.std.specs.Prelude.{◌≡◌};
ghost use Rattle.fz_kernel.specs.of_meaning.Relations.{are_channelled};
ghost use Rattle.fz_kernel.specs.Views.{ints, sets};
ghost use Rattle.fz_globals.specs.Held.{are_held, is_held, size_of_all};

use crate::flags::has;
use crate::indices::place_from;
use crate::testing::numbers_pass;
use fz_kernel::Elements;

/// Whether each set, by its index from `first_part` on, has exactly the indices, from `first` on,
/// of the numbers that are that index. It takes no memory.
pub fn are_channelled(numbers: &Elements, first: i64, parts: &Elements, first_part: i64) -> bool
    ensures exact { result ≡ are_channelled (ints numbers.now) first (sets parts.now) first_part }
{
    // Where each number's index is in the set that the number says, and the sets have as many
    // elements as there are numbers, no set has another element.
    are_held(numbers, first, parts, first_part) && size_of_all(parts) == numbers.len() as u128
}

fn are_held(numbers: &Elements, first: i64, parts: &Elements, first_part: i64) -> bool
    ensures { result ≡ are_held first (ints numbers.now) (sets parts.now) first_part }
{
    numbers_pass(first, numbers, |index, number| {
        is_held(index, number, parts, first_part)
    })
}

/// Whether an index is in the set whose index the number is, where the sets' indices begin with
/// `first_part`.
pub fn is_held(index: i128, number: i64, parts: &Elements, first_part: i64) -> bool
    ensures exact { result ≡ is_held index number (sets parts.now) first_part }
{
    match place_from(number, first_part, parts.len()) {
        Some(part) => has(parts.set(part), index),
        None => false,
    }
}

// How many elements the sets have together, a common one counted in each.
fn size_of_all(parts: &Elements) -> u128
    ensures { result ≡ size_of_all (sets parts.now) }
{
    let mut size: u128 = 0;
    for place in 0..parts.len() {
        size += parts.set(place).len();
    }
    size
}
