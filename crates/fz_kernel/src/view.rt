//! The argument view of a constraint.

use crate::elements::Elements;
use crate::reading::Readiness;
use crate::slots::{slot_int, slot_is_read, slot_set, slot_truth};
use fz_store::{Argument, ConstraintParts, IntSet, Partial, Shape, Slot, Value, part};

/// A constraint's arguments under a partial assignment.
#[derive(Clone, Copy)]
pub struct ArgumentView<'s, 'a> {
    parts: ConstraintParts<'s, 'a>,
    partial: &'s Partial,
}

impl<'s, 'a> ArgumentView<'s, 'a> {
    ghost use Rattle.std.specs.Prelude.{◌≡◌, [], map, option_and_then};
    ghost use Rattle.std.specs.List.{list_all};
    ghost use Rattle.fz_store.specs.of_meaning.Known.{shape_of};
    ghost use Rattle.fz_store.specs.Parts.{constraint_view};
    ghost use Rattle.fz_kernel.specs.Arguments.{argument_is_given, argument_slots, array_slots, has_value_at, reading_in, reading_is_read, readings_are_read, slot_is_given};
    ghost use Rattle.fz_kernel.specs.Given.{are_given, are_read, bool_at, int_at, set_at, slot_at, slots_at};
    ghost use Rattle.fz_kernel.specs.Views.{IsReadiness, arguments_of, assigned, slot_read, slots_of, under};

    /// The arguments of a constraint, under a partial assignment. It takes no memory.
    #[inline(always)]
    pub fn new(parts: ConstraintParts<'s, 'a>, partial: &'s Partial) -> ArgumentView<'s, 'a>
        ensures arguments { arguments_of result ≡ (constraint_view parts.entry).arguments }
        ensures assigned { assigned result ≡ partial.now }
    {
        ArgumentView { parts, partial }
    }

    /// The argument at an index, counted from 0, as an integer. It takes no memory.
    #[inline(always)]
    pub fn int(&self, index: usize) -> i64
        ensures read { result ≡ int_at (assigned self.now) (arguments_of self.now) index }
    {
        match self.scalar(index) {
            Some(slot) => slot_int(self.partial, self.constants(), slot),
            None => 0,
        }
    }

    /// The argument at an index as a Boolean. It takes no memory.
    #[inline(always)]
    pub fn truth(&self, index: usize) -> bool
        ensures read { result ≡ bool_at (assigned self.now) (arguments_of self.now) index }
    {
        match self.scalar(index) {
            Some(slot) => slot_truth(self.partial, self.constants(), slot),
            None => false,
        }
    }

    /// The argument at an index as a set. It takes no memory.
    #[inline(always)]
    pub fn set(&self, index: usize) -> &'s IntSet
        ensures read { result.now ≡ set_at (assigned self.now) (arguments_of self.now) index }
    {
        match self.scalar(index) {
            Some(slot) => slot_set(self.partial, self.constants(), slot),
            None => self.partial.no_numbers(),
        }
    }

    /// The elements of the argument at an index, where it is an array. It takes no memory.
    #[inline(always)]
    pub fn elements(&self, index: usize) -> Elements<'s>
        ensures slots { slots_of result ≡ slots_at (arguments_of self.now) index }
        ensures under { under result ≡ assigned self.now }
    {
        match self.parts.arguments().get(index) {
            Some(argument) => self.elements_of(argument),
            None => self.no_elements(),
        }
    }

    #[inline(always)]
    fn constants(&self) -> &'s [Value]
        ensures { result.now ≡ self.now.parts.store.now.constants.items }
    {
        &self.parts.store.constants
    }

    // The slot of the argument at an index, where it has one.
    #[inline(always)]
    fn scalar(&self, index: usize) -> Option<&'s Slot>
        ensures { slot_at (arguments_of self.now) index ≡ option_and_then
            (λ s. slot_read self.now.parts.store.now.constants.items s.now) result }
    {
        match self.parts.arguments().get(index) {
            Some(Argument::One(slot)) => Some(slot),
            Some(Argument::List(_)) => None,
            None => None,
        }
    }

    #[inline(always)]
    fn elements_of(&self, argument: &Argument) -> Elements<'s>
        ensures slots { slots_of result
            ≡ argument_slots self.now.parts.arrays.now self.now.parts.store.now argument.now }
        ensures under { under result ≡ assigned self.now }
    {
        match argument {
            Argument::One(slot) => self.array_elements(slot),
            Argument::List(at) => Elements {
                slots: part(&self.parts.store.slots, *at),
                constants: self.constants(),
                partial: self.partial,
            },
        }
    }

    // The elements of the declared array that a slot is.
    #[inline(always)]
    fn array_elements(&self, slot: &Slot) -> Elements<'s>
        ensures slots { slots_of result ≡ array_slots self.now.parts.arrays.now slot.now }
        ensures under { under result ≡ assigned self.now }
    {
        match slot {
            Slot::Array(number) => match self.parts.arrays.get(*number as usize) {
                Some(array) => Elements {
                    slots: &array.elements.slots,
                    constants: &array.elements.constants,
                    partial: self.partial,
                },
                None => self.no_elements(),
            },
            Slot::Variable(_) | Slot::Number(_) | Slot::Truth(_) | Slot::Constant(_) => {
                self.no_elements()
            }
        }
    }

    #[inline(always)]
    fn no_elements(&self) -> Elements<'s>
        ensures slots { slots_of result ≡ [] }
        ensures under { under result ≡ assigned self.now }
    {
        Elements {
            slots: &[],
            constants: &[],
            partial: self.partial,
        }
    }

    /// Whether all arguments can be read, where the constraint's row asks for these kinds. It goes
    /// over each scalar once, and a second time only where one cannot be read. It takes no memory.
    pub fn readiness(&self, shapes: &[Shape]) -> Readiness
        ensures exact { IsReadiness (assigned self.now) (map shape_of shapes.now)
            (arguments_of self.now) result }
    {
        if self.can_be_read(shapes) {
            Readiness::Ready
        } else if self.all_given() {
            Readiness::WrongKind
        } else {
            Readiness::Missing
        }
    }

    #[inline]
    fn can_be_read(&self, shapes: &[Shape]) -> bool
        ensures { result ≡ are_read (assigned self.now) (map shape_of shapes.now)
            (arguments_of self.now) }
    {
        self.are_read(shapes, self.parts.arguments())
    }

    fn are_read(&self, shapes: &[Shape], arguments: &[Argument]) -> bool
        ensures { result ≡ readings_are_read (assigned self.now) (map shape_of shapes.now)
            (map (reading_in self.now.parts.arrays.now self.now.parts.store.now) arguments.now) }
    {
        if shapes.len() != arguments.len() {
            return false;
        }
        for (shape, argument) in shapes.iter().zip(arguments) {
            if !self.is_read(*shape, argument) {
                return false;
            }
        }
        true
    }

    #[inline]
    fn is_read(&self, shape: Shape, argument: &Argument) -> bool
        ensures { result ≡ reading_is_read (assigned self.now) (shape_of shape)
            (reading_in self.now.parts.arrays.now self.now.parts.store.now argument.now) }
    {
        match shape {
            Shape::Scalar(kind) => match argument {
                Argument::One(slot) => slot_is_read(self.partial, self.constants(), kind, slot),
                Argument::List(_) => false,
            },
            Shape::Array(kind) => self.elements_of(argument).are_read(kind),
        }
    }

    /// Whether each scalar of each argument has a value. It takes no memory.
    pub fn all_given(&self) -> bool
        ensures exact { result ≡ are_given (assigned self.now) (arguments_of self.now) }
    {
        self.are_given(self.parts.arguments())
    }

    fn are_given(&self, arguments: &[Argument]) -> bool
        ensures { result ≡ list_all (argument_is_given
            (assigned self.now) self.now.parts.arrays.now self.now.parts.store.now) arguments.now }
    {
        arguments.iter().all(|argument| self.is_given(argument))
    }

    fn is_given(&self, argument: &Argument) -> bool
        ensures { result ≡ argument_is_given
            (assigned self.now) self.now.parts.arrays.now self.now.parts.store.now argument.now }
    {
        match argument {
            Argument::One(slot) => self.slot_is_given(slot),
            Argument::List(at) => self.slots_are_given(part(&self.parts.store.slots, *at)),
        }
    }

    fn slots_are_given(&self, slots: &[Slot]) -> bool
        ensures { result ≡ list_all (slot_is_given
            (assigned self.now) self.now.parts.arrays.now) slots.now }
    {
        slots.iter().all(|slot| self.slot_is_given(slot))
    }

    fn slot_is_given(&self, slot: &Slot) -> bool
        ensures { result ≡ slot_is_given (assigned self.now) self.now.parts.arrays.now slot.now }
    {
        match slot {
            Slot::Array(number) => match self.parts.arrays.get(*number as usize) {
                Some(array) => self.elements_are_given(&array.elements.slots),
                None => true,
            },
            Slot::Variable(_) | Slot::Number(_) | Slot::Truth(_) | Slot::Constant(_) => {
                self.has_value(slot)
            }
        }
    }

    fn elements_are_given(&self, slots: &[Slot]) -> bool
        ensures { result ≡ list_all (has_value_at (assigned self.now)) slots.now }
    {
        slots.iter().all(|slot| self.has_value(slot))
    }

    // Whether a scalar has a value: only a variable can have none.
    fn has_value(&self, slot: &Slot) -> bool
        ensures { result ≡ has_value_at (assigned self.now) slot.now }
    {
        match slot {
            Slot::Variable(number) => self.partial.has(*number as usize),
            Slot::Number(_) | Slot::Truth(_) | Slot::Constant(_) | Slot::Array(_) => true,
        }
    }
}
