//! What the program writes to standard error where it refuses, and the exit status then.

ghost use Rattle.std.specs.Prelude.{◌≡◌, ◌⊎◌, Err};
ghost use Rattle.fz_check.specs.Refusal.{status_of};
ghost use Rattle.fz_check.specs.declared.error.CheckError.TheVariants.{Memory};

use crate::reading::Unread;
use fz_check::{CheckError, MOST_READS, refusal_text, status};
use fz_command::USAGE;
use fz_files::failure_text;
use std::alloc::{AllocError, Global};
use std::io::Write;

/// The status where the words of the command line are wrong, or ask for help.
const WRONG_WORDS: u8 = 5;

/// Writes the usage line.
pub fn refuse_usage(rt: &HostRuntime) -> u8
    ensures { result ≡ 5 }
{
    let _ = eprintln!(rt; "{USAGE}");
    WRONG_WORDS
}

/// Writes the usage line, and which words are wrong.
pub fn refuse_wrong(rt: &HostRuntime, told: &str) -> u8
    ensures { result ≡ 5 }
{
    let _ = eprintln!(rt; "{USAGE}\n{told}");
    WRONG_WORDS
}

/// Writes the line of a refusal, and gives its status, or that of out of memory.
pub fn refuse(rt: &HostRuntime, error: &CheckError) -> u8
    ensures { (result ≡ status_of (Err error.now)) ⊎ (result ≡ status_of (Err Memory)) }
{
    match refusal_text(rt.alloc(), error) {
        Ok(text) => {
            let _ = rt.stderr().write_all(&text);
            status(&Err(*error))
        }
        Err(_) => {
            let _ = eprintln!(rt; "refused: memory");
            status(&Err(CheckError::Memory))
        }
    }
}

/// Whether the line of the refusal was written, and not `refused: memory` in its place.
pub fn is_told(told: u8, error: &CheckError) -> bool {
    told == status(&Err(*error))
}

/// Refuses for a file that can't be read, and tells which one and why.
pub fn refuse_file(rt: &HostRuntime, unread: &Unread<'_>) -> u8 {
    let told = refuse(rt, &unread.error);
    if let CheckError::Read = unread.error
        && is_told(told, &unread.error)
        && let Ok(why) = unread_text(rt.alloc(), unread)
    {
        let _ = eprintln!(rt; "{}: {why}", unread.name);
    }
    told
}

/// Why a file can't be read, in words. Where no read failed there were too many.
///
/// # Errors
///
/// Out of memory.
pub fn unread_text(alloc: Global, unread: &Unread<'_>) -> Result<String, AllocError> {
    let Some(failure) = &unread.failure else {
        return format!(in alloc; "{MOST_READS} reads brought no end");
    };
    let why = failure_text(alloc, failure)?;
    if unread.name == "-" {
        return format!(in alloc; "{why} (standard input is read where STREAM is left out)");
    }
    Ok(why)
}
