//! Whether two texts are the same.

ghost use Rattle.std.specs.Prelude.{◌≡◌, bytes_eq, length};

/// Whether two texts are the same. They are compared from their ends, since names of one length
/// mostly differ in their last bytes: eight bytes at a time, and what is left at the front byte by
/// byte. For short names that takes fewer instructions than the comparison of slices. It takes no
/// memory.
#[inline]
pub fn same_text(left: &[u8], right: &[u8]) -> bool
    ensures { result ≡ bytes_eq left.now right.now }
{
    if left.len() != right.len() {
        return false;
    }
    let mut left_rest = left;
    let mut right_rest = right;
    'eights: while let Some((left_front, left_eight)) = left_rest.split_last_chunk::<8>() {
        let Some((right_front, right_eight)) = right_rest.split_last_chunk::<8>() else {
            return false;
        };
        if !same_eight(left_eight, right_eight) {
            return false;
        }
        left_rest = left_front;
        right_rest = right_front;
    }
    same_bytes(left_rest, right_rest)
}

/// Whether eight bytes are the same. They are read as numbers, since those take a single
/// comparison.
#[inline]
fn same_eight(left: &[u8; 8], right: &[u8; 8]) -> bool
    ensures { result ≡ bytes_eq left.now right.now }
{
    u64::from_le_bytes(*left) == u64::from_le_bytes(*right)
}

/// Whether two texts of one length are the same, byte by byte from the end. This is for what is too
/// short for a comparison of eight.
#[inline]
fn same_bytes(left: &[u8], right: &[u8]) -> bool
    requires { length left.now ≡ length right.now }
    ensures { result ≡ bytes_eq left.now right.now }
{
    let mut place = left.len();
    'comparing: while place > 0 {
        place -= 1;
        if left[place] != right[place] {
            return false;
        }
    }
    true
}
