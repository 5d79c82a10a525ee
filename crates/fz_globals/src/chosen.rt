//! The elements of an array whose indices are in a set.

ghost use Rattle.std.specs.Prelude.{◌≡◌, ◌&&◌, IfOk, length, pos};
ghost use Rattle.std.specs.List.{list_all};
ghost use Rattle.std.specs.FinSet.{contains, from_list, is_subset};
ghost use Rattle.fz_kernel.specs.of_meaning.Relations.{are_inverse_sets, chosen, indices_from, refer_back, union_of};
ghost use Rattle.fz_kernel.specs.Views.{ints, sets};

use crate::flags::has;
use crate::indices::{are_indices, index_at};
use crate::order::implies;
use fz_kernel::Elements;
use fz_kernel::indices::all_between;
use fz_store::{IntSet, SetError};
use std::alloc::{AllocError, Global};

/// The union of the sets whose indices, from 1 on, are in `indices`.
pub fn union_of_chosen(
    alloc: Global,
    indices: &IntSet,
    parts: &Elements,
) -> Result<IntSet, SetError>
    ensures exact { IfOk result (λ s. s ≡ union_of (chosen (pos 1) (sets parts.now) indices.now)) }
{
    let mut union = IntSet::list(alloc, &[])?;
    for place in 0..parts.len() {
        let part = parts.set(place);
        if has(indices, index_at(1, place)) {
            union = union.union(alloc, part)?;
        }
    }
    Ok(union)
}

/// The set of the numbers whose indices, from `first` on, are in `indices`.
pub fn set_of_chosen(
    alloc: Global,
    numbers: &Elements,
    first: i64,
    indices: &IntSet,
) -> Result<IntSet, SetError>
    ensures exact { IfOk result (λ s. s ≡ from_list (chosen first (ints numbers.now)
        indices.now)) }
{
    IntSet::list(alloc, &chosen_numbers(alloc, numbers, first, indices)?)
}

// The numbers whose indices, from `first` on, are in `indices`, in their order.
#[tactic(auto, using(crate::proofs::Choosing::none_listed))]
fn chosen_numbers(
    alloc: Global,
    numbers: &Elements,
    first: i64,
    indices: &IntSet,
) -> Result<Vec<i64>, AllocError>
    ensures { IfOk result (λ v. v.items ≡ chosen first (ints numbers.now) indices.now) }
{
    let mut listed = Vec::with_capacity(alloc, numbers.len())?;
    for place in 0..numbers.len() {
        let number = numbers.int(place);
        if has(indices, index_at(first, place)) {
            listed.push(number)?;
        }
    }
    Ok(listed)
}

/// Whether each set of one array has only indices of sets of the other that have its own index, and
/// the other way round. It takes no memory.
pub fn are_inverse_sets(a: &Elements, first_a: i64, b: &Elements, first_b: i64) -> bool
    ensures exact { result ≡ are_inverse_sets (sets a.now) first_a (sets b.now) first_b }
{
    refer_back(a, first_a, b, first_b) && refer_back(b, first_b, a, first_a)
}

fn refer_back(parts: &Elements, first: i64, others: &Elements, first_other: i64) -> bool
    ensures { result ≡ refer_back first (sets parts.now) first_other (sets others.now) }
{
    for place in 0..parts.len() {
        let index = index_at(first, place);
        if !leads_back(index, parts.set(place), others, first_other) {
            return false;
        }
    }
    true
}

// Whether the set with this index has only indices of the other sets, and those have its index.
fn leads_back(index: i128, part: &IntSet, others: &Elements, first_other: i64) -> bool
    ensures { result ≡ (is_subset part.now (indices_from first_other (length (sets others.now)))
        && list_all (λ t. contains t index) (chosen first_other (sets others.now) part.now)) }
{
    are_indices(part, first_other, others.len()) && all_have(index, others, first_other, part)
}

// Whether the sets whose indices, from `first` on, are in `indices` have the number.
fn all_have(number: i128, parts: &Elements, first: i64, indices: &IntSet) -> bool
    ensures { result ≡ list_all (λ t. contains t number)
        (chosen first (sets parts.now) indices.now) }
{
    all_between(0, parts.len(), |place| {
        implies(
            has(indices, index_at(first, place)),
            has(parts.set(place), number),
        )
    })
}
