//! Sets.

ghost use Rattle.std.specs.Prelude.{◌≡◌};
ghost use Rattle.fz_store.specs.of_meaning.Relations.{◌=ˢ◌};

use fz_store::IntSet;

/// Whether the sets have the same elements.
pub fn same_set(a: &IntSet, b: &IntSet) -> bool
    ensures exact { result ≡ (a.now =ˢ b.now) }
{
    a.is_subset(b) && b.is_subset(a)
}
