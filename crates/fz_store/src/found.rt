//! What is found under a name.

ghost use Rattle.std.specs.Prelude.{◌≡◌, length, option_map, slice_get};
ghost use Rattle.fz_store.specs.Slots.{scalar_term};
ghost use Rattle.fz_store.specs.Shown.{scalar_terms};

use crate::store::{Scalar, Slot, scalar_at};
use fz_meaning::{Kind, Value};

/// A list of scalars, as slots.
#[derive(Clone, Copy)]
pub struct Scalars<'m> {
    pub slots: &'m [Slot],
    pub constants: &'m [Value],
}

impl<'m> Scalars<'m> {
    /// How many there are. It takes no memory.
    pub fn len(&self) -> usize
        ensures counted { result ≡ length (scalar_terms self.now) }
    {
        self.slots.len()
    }

    /// The one at an index. It takes no memory.
    #[inline(always)]
    pub fn get(&self, place: usize) -> Option<Scalar<'m>>
        ensures read { option_map scalar_term result ≡ slice_get (scalar_terms self.now) place }
    {
        let slot = self.slots.get(place)?;
        Some(scalar_at(self.constants, *slot))
    }
}

/// What a name stands for: a scalar, or an array by its kind and its elements.
#[derive(Clone, Copy)]
pub enum What<'m> {
    Scalar(Scalar<'m>),
    Array(Kind, Scalars<'m>),
}

/// A declared name, a slice of the source, with what it stands for.
#[derive(Clone, Copy)]
pub struct Found<'m, 'a> {
    pub name: &'a [u8],
    pub what: What<'m>,
}
