//! Writes all of some bytes.

ghost use Rattle.std.specs.Prelude.{◌≡◌, ℕ, List, [], ◌++◌, OnOk, OnErr};
ghost use Rattle.std.specs.Io.KnownBytes.{Appends};
ghost use Rattle.fz_check.specs.Writing.{WritesFront};

use std::io::Write;

/// A write failed, or took nothing.
#[derive(Clone, Copy)]
pub(crate) struct WriteFailed;

/// Writes all of the bytes. After an error a front of them was written. A failed write is not
/// repeated, of whatever kind it is.
///
/// # Errors
///
/// A write failed, or took nothing.
fn write_whole<W: Write>(writer: &mut W, bytes: &[u8]) -> Result<(), WriteFailed>
    ensures whole { OnOk result (Appends (W.contents writer.old)
        (W.contents writer.new) bytes.now) }
    ensures front { OnErr result (WritesFront (W.contents writer.old)
        (W.contents writer.new) bytes.now) }
{
    let mut rest = bytes;
    while !rest.is_empty() {
        match writer.write(rest) {
            Ok(0) | Err(_) => return Err(WriteFailed),
            Ok(n) => rest = &rest[n..],
        }
    }
    Ok(())
}

/// Writes all of the lines, as `write_whole` does, and lets go of them.
///
/// # Errors
///
/// A write failed, or took nothing.
pub(crate) fn write_lines<W: Write>(writer: &mut W, lines: &mut Vec<u8>) -> Result<(), WriteFailed>
    ensures whole { OnOk result (Appends (W.contents writer.old)
        (W.contents writer.new) lines.old.items) }
    ensures front { OnErr result (WritesFront (W.contents writer.old)
        (W.contents writer.new) lines.old.items) }
    ensures none_left { lines.new.items ≡ [] }
{
    let outcome = write_whole(writer, lines);
    lines.clear();
    outcome
}
