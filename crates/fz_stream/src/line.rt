//! What a line of a stream is: an item, a marker, a claim or none of them.

ghost use Rattle.std.specs.Prelude.{◌≡◌, ◌⊎◌, reverse, ◌∷◌, length, ◌<◌, ◌≤◌, take, drop};
ghost use Rattle.fz_syntax.specs.Token.{is_blank};
ghost use Rattle.fz_stream.specs.Parts.{kind_of, kind_of_words, lines_of, skip_blanks};
ghost use Rattle.fz_stream.specs.Splitting.{EndsWithFeed, HasNoFeed};

use memchr::memchr;

/// What a solver may claim about its search.
#[derive(Clone, Copy, Debug, PartialEq, Eq)]
pub enum ClaimKind {
    /// `==========`: the search is complete.
    Complete,
    /// `=====UNSATISFIABLE=====`
    Unsatisfiable,
    /// `=====UNKNOWN=====`
    Unknown,
    /// `=====UNBOUNDED=====`
    Unbounded,
    /// `=====UNSATorUNBOUNDED=====`
    UnsatOrUnbounded,
    /// `=====ERROR=====`
    Error,
}

/// The kinds of lines of a stream.
#[derive(Clone, Copy)]
pub enum LineKind {
    Blank,
    Comment,
    Marker,
    Claim(ClaimKind),
    Item,
}

fn is_blank_byte(b: u8) -> bool
    ensures { result ≡ is_blank b }
{
    b == b' ' || b == b'\t' || b == b'\r' || b == b'\n'
}

/// The line without the blanks at its front.
fn after_blanks(line: &[u8]) -> &[u8]
    ensures { result.now ≡ skip_blanks line.now }
{
    let mut rest = line;
    while let Some((first, others)) = rest.split_first() {
        if !is_blank_byte(*first) {
            return rest;
        }
        rest = others;
    }
    rest
}

/// The line without the blanks at its end.
fn before_blanks(line: &[u8]) -> &[u8]
    ensures { result.now ≡ reverse (skip_blanks (reverse line.now)) }
{
    let mut rest = line;
    while let Some((last, others)) = rest.split_last() {
        if !is_blank_byte(*last) {
            return rest;
        }
        rest = others;
    }
    rest
}

/// The kind of a line that has words and is no comment.
fn kind_by_words(words: &[u8]) -> LineKind
    ensures { result ≡ kind_of_words words.now }
{
    if words == b"----------".as_slice() {
        LineKind::Marker
    } else if words == b"==========".as_slice() {
        LineKind::Claim(ClaimKind::Complete)
    } else if words == b"=====UNSATISFIABLE=====".as_slice() {
        LineKind::Claim(ClaimKind::Unsatisfiable)
    } else if words == b"=====UNKNOWN=====".as_slice() {
        LineKind::Claim(ClaimKind::Unknown)
    } else if words == b"=====UNBOUNDED=====".as_slice() {
        LineKind::Claim(ClaimKind::Unbounded)
    } else if words == b"=====UNSATorUNBOUNDED=====".as_slice() {
        LineKind::Claim(ClaimKind::UnsatOrUnbounded)
    } else if words == b"=====ERROR=====".as_slice() {
        LineKind::Claim(ClaimKind::Error)
    } else {
        LineKind::Item
    }
}

/// The kind of a line: its words are the line without the blanks at its ends.
pub fn line_kind(line: &[u8]) -> LineKind
    ensures { result ≡ kind_of line.now }
{
    let words = before_blanks(after_blanks(line));
    match words {
        [] => LineKind::Blank,
        [first, ..] => {
            if *first == b'%' {
                LineKind::Comment
            } else {
                kind_by_words(words)
            }
        }
    }
}

/// The first line of the rest of a stream.
pub fn first_line(rest: &[u8]) -> &[u8]
    requires { 0 < length rest.now }
    ensures front { result.now ≡ take (length result.now) rest.now }
    ensures some { 0 < length result.now }
    ensures within { length result.now ≤ length rest.now }
    ensures whole { EndsWithFeed result.now ⊎ HasNoFeed result.now }
    ensures cut { lines_of rest.now ≡ result.now ∷ lines_of (drop (length result.now) rest.now) }
{
    match memchr(b'\n', rest) {
        Some(i) => &rest[..i + 1],
        None => rest,
    }
}
