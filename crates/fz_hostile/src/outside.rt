//! The words and files that the operands of a call come from, and how its answer is printed.

use std::alloc::AllocError;
use std::fmt::Debug;
use std::fs;
use std::io::Write;

/// The bytes of the file that the word at an index names.
pub fn file(rt: &HostRuntime, words: &[String], place: usize) -> Option<Vec<u8>> {
    let path = words.get(place)?;
    fs::read(rt, path.as_str()).ok()
}

/// The number that the word at an index is.
pub fn number(words: &[String], place: usize) -> Option<usize> {
    let word = words.get(place)?;
    word.as_str().parse::<usize>().ok()
}

/// Prints an answer on a line. This takes no memory.
pub fn tell<T: Debug>(rt: &HostRuntime, answer: &T) {
    let _ = println!(rt; "{answer:?}");
}

/// Prints a list of answers on a line.
pub fn tell_all<T: Debug>(rt: &HostRuntime, answers: &[T]) {
    let _ = println!(rt; "{answers:?}");
}

/// Prints an error as the answer `Err(..)`.
pub fn tell_error<E: Debug>(rt: &HostRuntime, error: &E) {
    let _ = println!(rt; "Err({error:?})");
}

/// Prints a text as it is.
pub fn tell_text(rt: &HostRuntime, text: &[u8]) {
    let _ = rt.stdout().write_all(text);
}

/// Prints a text, or that memory ran out. Whether there is a text.
pub fn is_given(rt: &HostRuntime, text: Result<Vec<u8>, AllocError>) -> bool {
    match text {
        Ok(text) => {
            tell_text(rt, &text);
            true
        }
        Err(error) => {
            tell_error(rt, &error);
            false
        }
    }
}
