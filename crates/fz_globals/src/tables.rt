//! Rows of tables, which are written one after another.

ghost use Rattle.std.specs.Prelude.{◌≡◌, ◌+◌, ◌*◌, ◌%◌, ◌≤◌, ◌<◌, false, drop, length, nat_eq, take, IfNone, IfSome};
ghost use Rattle.fz_kernel.specs.of_meaning.Relations.{◌=ℤ◌, ◌=ᴮ◌, is_row_of, is_same_list};
ghost use Rattle.fz_kernel.specs.Views.{bools, ints, slots_of};

use fz_kernel::Elements;
use fz_kernel::indices::all_between;

/// Whether the elements are a row of the table; the empty list is none. The test of a row ends at
/// the first element that differs.
pub fn is_int_row(elements: &Elements, table: &Elements) -> bool
    ensures exact { result ≡ is_row_of ◌=ℤ◌ (ints elements.now) (ints table.now) }
{
    match rows_of(elements.len(), table.len()) {
        Some(rows) => is_int_row_among(elements, table, rows),
        None => false,
    }
}

/// Whether the elements are a row of the table; the empty list is none. The test of a row ends at
/// the first element that differs.
pub fn is_bool_row(elements: &Elements, table: &Elements) -> bool
    ensures exact { result ≡ is_row_of ◌=ᴮ◌ (bools elements.now) (bools table.now) }
{
    match rows_of(elements.len(), table.len()) {
        Some(rows) => is_bool_row_among(elements, table, rows),
        None => false,
    }
}

// How many rows of a width have this length together; none where no number of rows has.
fn rows_of(width: usize, length: usize) -> Option<usize>
    ensures wide { IfSome result (λ rows. 0 < width) }
    ensures whole { IfSome result (λ rows. rows * width ≡ length) }
    ensures none { IfNone result (0 < width → nat_eq (length % width) 0 ≡ false) }
{
    if width == 0 {
        return None;
    }
    if length % width != 0 {
        return None;
    }
    Some(length / width)
}

fn is_int_row_among(elements: &Elements, table: &Elements, rows: usize) -> bool
    requires wide { 0 < length (slots_of elements.now) }
    requires whole { rows * length (slots_of elements.now) ≡ length (slots_of table.now) }
    ensures { result ≡ is_row_of ◌=ℤ◌ (ints elements.now) (ints table.now) }
{
    for row in 0..rows {
        if ints_stand_at(elements, table, row * elements.len()) {
            return true;
        }
    }
    false
}

fn is_bool_row_among(elements: &Elements, table: &Elements, rows: usize) -> bool
    requires wide { 0 < length (slots_of elements.now) }
    requires whole { rows * length (slots_of elements.now) ≡ length (slots_of table.now) }
    ensures { result ≡ is_row_of ◌=ᴮ◌ (bools elements.now) (bools table.now) }
{
    for row in 0..rows {
        if bools_stand_at(elements, table, row * elements.len()) {
            return true;
        }
    }
    false
}

// Whether the table has the elements from an index on.
fn ints_stand_at(elements: &Elements, table: &Elements, start: usize) -> bool
    requires { start + length (slots_of elements.now) ≤ length (slots_of table.now) }
    ensures { result ≡ is_same_list ◌=ℤ◌ (ints elements.now)
        (take (length (ints elements.now)) (drop start (ints table.now))) }
{
    all_between(0, elements.len(), |place| {
        elements.int(place) == table.int(start + place)
    })
}

// Whether the table has the elements from an index on.
fn bools_stand_at(elements: &Elements, table: &Elements, start: usize) -> bool
    requires { start + length (slots_of elements.now) ≤ length (slots_of table.now) }
    ensures { result ≡ is_same_list ◌=ᴮ◌ (bools elements.now)
        (take (length (bools elements.now)) (drop start (bools table.now))) }
{
    all_between(0, elements.len(), |place| {
        elements.truth(place) == table.truth(start + place)
    })
}
