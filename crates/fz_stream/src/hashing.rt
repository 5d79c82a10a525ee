//! How printed names are hashed.

ghost use Rattle.std.specs.Prelude.{◌≡◌, ◌+◌, ◌*◌, ◌%◌, ◌^◌};
ghost use Rattle.fz_stream.specs.Hashing.{with_first};

use indexmap::IndexSet;
use std::hash::{BuildHasherDefault, Hasher};

/// Names, each once.
pub type Names<'a> = IndexSet<&'a [u8], BuildHasherDefault<NameHasher>>;

/// A hasher of names. A slice writes its length and then each byte by itself, and this hasher takes
/// the first byte of each write: a few instructions a byte, where the usual hasher multiplies to
/// 128 bits. As with the usual one, whose seed is fixed too, somebody who chooses the names can
/// make them collide.
#[derive(Clone, Copy, Drop)]
pub struct NameHasher {
    state: u64,
}

impl Default for NameHasher {
    ghost is_default = { λ s. s ≡ record { state = 0 } };

    fn default() -> NameHasher {
        NameHasher { state: 0 }
    }
}

impl Hasher for NameHasher {
    ghost write = { λ s bytes. record { state = with_first s.state bytes } };

    ghost finish = { λ s. (s.state * 11400714819323198485) % 2 ^ 64 };

    fn finish(&self) -> u64 {
        self.state.wrapping_mul(0x9e37_79b9_7f4a_7c15)
    }

    fn write(&mut self, bytes: &[u8]) {
        match bytes {
            [] => {}
            [first, ..] => {
                self.state = self.state.wrapping_mul(257).wrapping_add(*first as u64);
            }
        }
    }
}
