//! What a file is that is no model or no stream.

use crate::expected::begins_item;
use crate::text::Given;
use fz_tree::{Mark, TokenKind, Tokens};

/// Bytes that stand at an offset of a file of some kind, and what to say of it.
#[derive(Clone, Copy)]
struct Front(usize, &'static [u8], &'static str);

const FRONTS: [Front; 10] = [
    Front(
        0,
        b"\xef\xbb\xbf",
        "a byte order mark is in front of the text: save the file without it",
    ),
    Front(0, b"\xff\xfe", UTF_16),
    Front(0, b"\xfe\xff", UTF_16),
    Front(0, b"\x1f\x8b", "this is a gzip file: unpack it first"),
    Front(0, b"PK\x03\x04", "this is a zip archive: unpack it first"),
    Front(0, b"\xfd7zXZ\x00", "this is an xz file: unpack it first"),
    Front(
        0,
        b"7z\xbc\xaf\x27\x1c",
        "this is a 7z archive: unpack it first",
    ),
    Front(
        0,
        b"\x28\xb5\x2f\xfd",
        "this is a zstd file: unpack it first",
    ),
    Front(4, b"1AY&SY", "this is a bzip2 file: unpack it first"),
    Front(257, b"ustar", "this is a tar archive: unpack it first"),
];

const UTF_16: &str = "this is UTF-16: save the file as UTF-8";

const MODEL_IS_JSON: &str = "this is JSON, and not the text of a FlatZinc model";

const STREAM_IS_JSON: &str = "this is JSON, as minizinc prints it: see fzcheck-mzn";

const IS_MINIZINC: &str = "this is MiniZinc: compile it to FlatZinc first, by minizinc -c";

const IS_OZN: &str = "this is what minizinc prints by, an .ozn: the model is the .fzn beside it";

const IS_STREAM: &str = "this is what a solver printed: MODEL comes before STREAM";

const IS_MODEL: &str = "this is a FlatZinc model: MODEL comes before STREAM";

const IS_OF_MINIZINC: &str = "this is what minizinc prints: see fzcheck-mzn";

/// Words that MiniZinc reserves and FlatZinc doesn't.
const OF_MINIZINC: [&str; 16] = [
    "include",
    "output",
    "enum",
    "function",
    "test",
    "annotation",
    "type",
    "par",
    "opt",
    "ann",
    "string",
    "in",
    "where",
    "if",
    "let",
    "not",
];

/// What a file of this name is that begins with these bytes, of a stream with those of a block, and
/// has its first fault at this byte offset.
pub(crate) fn look_at(given: Given, name: &str, bytes: &[u8], at: usize) -> Option<&'static str> {
    for Front(offset, front, told) in &FRONTS {
        if bytes.get(*offset..).unwrap_or(b"").starts_with(front) {
            return Some(told);
        }
    }
    let is_json = matches!(bytes.trim_ascii_start().first(), Some(b'{' | b'['));
    match given {
        Given::Model if is_json => Some(MODEL_IS_JSON),
        Given::Model if name.ends_with(".ozn") => Some(IS_OZN),
        Given::Model if name.ends_with(".mzn") || name.ends_with(".dzn") => Some(IS_MINIZINC),
        Given::Model if begins_as_stream(bytes) => Some(IS_STREAM),
        Given::Model if is_minizinc(behind(bytes, at)) => Some(IS_MINIZINC),
        Given::Stream if is_json => Some(STREAM_IS_JSON),
        Given::Stream if begins_as_model(bytes) => Some(IS_MODEL),
        Given::Stream if is_printed_by_minizinc(bytes, at) => Some(IS_OF_MINIZINC),
        _ => None,
    }
}

fn behind(bytes: &[u8], at: usize) -> &[u8] {
    bytes.get(at..).unwrap_or(b"")
}

/// Whether a printed item, a marker or a claim comes first.
fn begins_as_stream(bytes: &[u8]) -> bool {
    let text = bytes.trim_ascii_start();
    if text.starts_with(b"----------") || text.starts_with(b"=====") {
        return true;
    }
    let mut tokens = Tokens::new(bytes);
    let is_name = match tokens.first() {
        Some(token) => token.kind == TokenKind::Word && !begins_item(token.text),
        None => false,
    };
    tokens.advance();
    match tokens.first() {
        Some(token) => is_name && token.kind == TokenKind::Mark(Mark::Equals),
        None => false,
    }
}

/// Whether an item of a model comes first.
fn begins_as_model(bytes: &[u8]) -> bool {
    match Tokens::new(bytes).first() {
        Some(token) => begins_item(token.text),
        None => false,
    }
}

/// Whether something comes first that MiniZinc has and FlatZinc hasn't.
fn is_minizinc(bytes: &[u8]) -> bool {
    if let Some(b'+' | b'*' | b'/' | b'\\' | b'<' | b'>' | b'!' | b'|') = bytes.first() {
        return true;
    }
    match Tokens::new(bytes).first() {
        Some(token) => OF_MINIZINC.iter().any(|word| word.as_bytes() == token.text),
        None => false,
    }
}

/// Whether a fault at this offset is in a value that MiniZinc prints, and no solver of FlatZinc: a
/// list without `array1d`, a string, a name of an enum, a table, or nothing.
fn is_printed_by_minizinc(bytes: &[u8], at: usize) -> bool {
    let before = bytes.get(..at).unwrap_or(bytes).trim_ascii_end().last();
    match behind(bytes, at).first() {
        Some(b'|' | b'<') => true,
        Some(b'[' | b'"') => before == Some(&b'='),
        Some(byte) if byte.is_ascii_alphabetic() => {
            matches!(before, Some(b'=' | b'{' | b'(' | b'[' | b','))
        }
        _ => false,
    }
}
