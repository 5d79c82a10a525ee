//! Lines and characters of a text: the line and the column of a byte, and the parts of that line
//! before and after it.

ghost use Rattle.std.specs.Prelude.{◌≡◌, ◌≤◌, ◌==◌, suc, take, drop, length, filter, not, option_map, true, IfSome, ℕ, List};
ghost use Rattle.std.specs.List.{list_all};
ghost use Rattle.fz_places.specs.Lines.{begins_character, characters, first_line, first_part, is_end, last_line, last_part, line_ends, parted};

/// The byte that ends a line.
const LF: u8 = b'\n';

/// Where a byte is in a text: the number of its line, from 1, its column in characters, from 1, the
/// bytes of the line before it, and those from it on. The LF that ends a line belongs to neither.
#[derive(Clone, Copy)]
pub struct Spot<'a> {
    pub line: usize,
    pub column: usize,
    pub front: &'a [u8],
    pub behind: &'a [u8],
}

/// Where the byte at this offset, counted from 0, is. An offset past the text's end counts as its
/// end.
pub fn spot_of<'a>(text: &'a [u8], offset: usize) -> Spot<'a>
    ensures line { result.line ≡ suc (line_ends (take offset text.now)) }
    ensures column { result.column ≡ suc (characters (last_line (take offset text.now))) }
    ensures front { result.front.now ≡ last_line (take offset text.now) }
    ensures behind { result.behind.now ≡ first_line (drop offset text.now) }
{
    let (before, rest) = text.split_at(offset.min(text.len()));
    let front = &before[part_start(before, LF)..];
    Spot {
        line: count_ends(before) + 1,
        column: count_characters(front) + 1,
        front,
        behind: &rest[..part_len(rest, LF)],
    }
}

/// How many characters the bytes have, as UTF-8: bytes that begin no character don't count.
fn count_characters(bytes: &[u8]) -> usize
    ensures count { result ≡ characters bytes.now }
    ensures within { result ≤ length bytes.now }
{
    bytes.iter().filter(|byte| begins_character(**byte)).count()
}

/// Whether this begins a character of UTF-8: it isn't the second or a later byte of one.
fn begins_character(byte: u8) -> bool
    ensures { result ≡ begins_character byte }
{
    byte < 128 || byte > 191
}

/// How many lines end in these bytes.
fn count_ends(bytes: &[u8]) -> usize
    ensures count { result ≡ line_ends bytes.now }
    ensures within { result ≤ length bytes.now }
{
    bytes.iter().filter(|byte| **byte == LF).count()
}

/// Where the part after the last byte that is this begins.
pub(crate) fn part_start(bytes: &[u8], end: u8) -> usize
    ensures within { result ≤ length bytes.now }
    ensures part { drop result bytes.now ≡ last_part end bytes.now }
{
    let mut start = 0;
    for (index, &byte) in bytes.iter().enumerate() {
        if byte == end {
            start = index + 1;
        }
    }
    start
}

/// How long the part before the first byte that is this is.
pub(crate) fn part_len(bytes: &[u8], end: u8) -> usize
    ensures within { result ≤ length bytes.now }
    ensures part { take result bytes.now ≡ first_part end bytes.now }
{
    for (index, &byte) in bytes.iter().enumerate() {
        if byte == end {
            return index;
        }
    }
    bytes.len()
}

/// The part before the first byte that is this, and what is behind that byte.
pub(crate) fn parted<'a>(bytes: &'a [u8], end: u8) -> Option<(&'a [u8], &'a [u8])>
    ensures parts { option_map {U = List ℕ × List ℕ} (λ p. (p.0.now, p.1.now)) result
        ≡ parted end bytes.now }
    ensures first { IfSome result (λ p. list_all (λ b. not (b == end)) p.0.now ≡ true) }
{
    let count = part_len(bytes, end);
    if count == bytes.len() {
        return None;
    }
    Some((&bytes[..count], &bytes[count + 1..]))
}
