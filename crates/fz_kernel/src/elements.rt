//! The elements of an array under a partial assignment.

use crate::slots::{slot_int, slot_set, slot_truth, slots_are_read};
use fz_store::{IntSet, Kind, Partial, Slot, Value};

/// The elements of an array argument. Where one has no value of the kind that is asked for, a
/// reading gives 0, false or the empty set.
#[derive(Clone, Copy)]
pub struct Elements<'s> {
    pub(crate) slots: &'s [Slot],
    pub(crate) constants: &'s [Value],
    pub(crate) partial: &'s Partial,
}

impl<'s> Elements<'s> {
    ghost use Rattle.std.specs.Prelude.{◌≡◌, ◌<◌, Some, length, slice_get};
    ghost use Rattle.std.specs.List.{list_all};
    ghost use Rattle.fz_kernel.specs.Given.{is_read};
    ghost use Rattle.fz_kernel.specs.Views.{bools, ints, sets, slots_of, under};

    /// How many there are. It takes no memory.
    #[inline(always)]
    pub fn len(&self) -> usize
        ensures counted { result ≡ length (slots_of self.now) }
    {
        self.slots.len()
    }

    /// Its value as an integer. It takes no memory.
    #[inline(always)]
    pub fn int(&self, index: usize) -> i64
        requires in_range { index < length (slots_of self.now) }
        ensures read { slice_get (ints self.now) index ≡ Some result }
    {
        slot_int(self.partial, self.constants, self.slot(index))
    }

    /// Its value as a Boolean. It takes no memory.
    #[inline(always)]
    pub fn truth(&self, index: usize) -> bool
        requires in_range { index < length (slots_of self.now) }
        ensures read { slice_get (bools self.now) index ≡ Some result }
    {
        slot_truth(self.partial, self.constants, self.slot(index))
    }

    /// Its value as a set. It takes no memory.
    #[inline(always)]
    pub fn set(&self, index: usize) -> &'s IntSet
        requires in_range { index < length (slots_of self.now) }
        ensures read { slice_get (sets self.now) index ≡ Some result.now }
    {
        slot_set(self.partial, self.constants, self.slot(index))
    }

    #[inline(always)]
    fn slot(&self, index: usize) -> &'s Slot
        requires in_range { index < length (slots_of self.now) }
        ensures there { slice_get self.now.slots.now index ≡ Some result.now }
    {
        &self.slots[index]
    }

    // Whether each has a value of the kind.
    pub(crate) fn are_read(&self, kind: Kind) -> bool
        ensures { result ≡ list_all (is_read (under self.now) kind) (slots_of self.now) }
    {
        slots_are_read(self.partial, self.constants, kind, self.slots)
    }
}
