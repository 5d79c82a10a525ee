//! The bytes of a file.

ghost use Rattle.std.specs.Prelude.{◌≡◌, suc, take, IfOk, IfSome};
ghost use Rattle.std.specs.Io.KnownBytes.{Consumes};

use std::alloc::{AllocError, Global};
use std::io::Read;

/// The most bytes that are read at a time.
const PIECE: usize = 16_384;

/// Why a reader's bytes can't be had.
#[derive(Clone, Copy, PartialEq, Eq)]
pub enum ReadError {
    /// A read failed.
    Failed,
    /// Out of memory.
    Memory,
}

impl From<AllocError> for ReadError {
    fn from(_e: AllocError) -> ReadError {
        ReadError::Memory
    }
}

/// The bytes of a reader up to its end, or `most + 1` of them where there are more than `most`. A
/// read that fails is not repeated, whatever the error: `read_to_end` isn't used, since it repeats
/// a read that a signal interrupts.
///
/// # Errors
///
/// `Failed` where a read fails, `Memory` where memory runs out.
pub fn read_up_to<R: Read>(alloc: Global, reader: &mut R, most: u32) -> Result<Vec<u8>, ReadError>
    ensures bytes { IfOk result (λ bytes. IfSome (R.remaining reader.old)
        (λ xs. bytes.items ≡ take (suc most) xs)) }
    ensures no_more { IfOk result (λ bytes. Consumes (R.remaining reader.old)
        (R.remaining reader.new) bytes.items) }
{
    let limit = most as usize + 1;
    let mut bytes = Vec::new(alloc);
    let mut piece = [0u8; PIECE];
    while bytes.len() < limit {
        let room = PIECE.min(limit - bytes.len());
        let Ok(count) = reader.read(&mut piece[..room]) else {
            return Err(ReadError::Failed);
        };
        if count == 0 {
            break;
        }
        bytes.extend_from_slice(&piece[..count])?;
    }
    Ok(bytes)
}
