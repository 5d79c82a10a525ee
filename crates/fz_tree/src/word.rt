//! The length of a word, found sixteen bytes at a time with vector instructions.

ghost use Rattle.std.specs.Prelude.{◌≡◌, ◌+◌, ◌≤◌, ◌==◌, if◌then◌else◌, length, take, drop};
ghost use Rattle.std.specs.Int.{w64, trailing_zeros};
ghost use Rattle.std.specs.List.{prefix_len};
ghost use Rattle.fz_tree.specs.Token as bytes_spec;

use std::simd::prelude::*;

/// How many bytes are looked at together.
const LANES: usize = 16;

#[inline]
fn is_word_byte(byte: u8) -> bool
    ensures { result ≡ bytes_spec.is_word_byte byte }
{
    byte.is_ascii_alphanumeric() || byte == b'_'
}

/// The index of the lowest bit that is set, or the number of lanes where none is.
#[inline(always)]
fn first_set(mask: u64) -> usize
    ensures { result ≡ (if mask == 0 then LANES else trailing_zeros w64 mask) }
{
    if mask == 0 {
        LANES
    } else {
        mask.trailing_zeros() as usize
    }
}

/// How many of the sixteen bytes from an index on belong to a word, up to the first that doesn't.
#[inline(always)]
fn word_run(bytes: &[u8], at: usize) -> usize
    requires { at + LANES ≤ length bytes.now }
    ensures { result ≡ prefix_len bytes_spec.is_word_byte (take LANES (drop at bytes.now)) }
{
    let v = u8x16::from_slice(&bytes[at..]);
    // Counted from `a`, a letter of either case is below 26; counted from `0`, a digit is below 10.
    let from_a = (v | u8x16::splat(0x20)) - u8x16::splat(b'a');
    let from_0 = v - u8x16::splat(b'0');
    let no_digit_or_letter = from_a.simd_ge(u8x16::splat(26)) & from_0.simd_ge(u8x16::splat(10));
    let stops = no_digit_or_letter & v.simd_ne(u8x16::splat(b'_'));
    first_set(stops.to_bitmask())
}

/// The length of a word at the front, byte by byte, for the last bytes of a text.
fn last_word_len(bytes: &[u8]) -> usize
    ensures value { result ≡ prefix_len bytes_spec.is_word_byte bytes.now }
    ensures within { result ≤ length bytes.now }
{
    let mut len = 0;
    while len < bytes.len() && is_word_byte(bytes[len]) {
        len += 1;
    }
    len
}

/// The length of a word at the front.
#[inline(always)]
pub(crate) fn word_len(bytes: &[u8]) -> usize
    ensures value { result ≡ prefix_len bytes_spec.is_word_byte bytes.now }
    ensures within { result ≤ length bytes.now }
{
    let mut len = 0;
    while LANES <= bytes.len() - len {
        let run = word_run(bytes, len);
        len += run;
        if run < LANES {
            return len;
        }
    }
    len + last_word_len(&bytes[len..])
}
