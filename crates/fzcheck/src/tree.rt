//! A solver's search tree, in a file.

use crate::reading::{Unread, read_file};
use fz_check::{Branch, CheckError, Ends};

/// The most bytes of a tree.
const MOST_BYTES: u32 = 1_073_741_824;

/// What is told of a line.
const NO_BRANCH: &str = "tells no branch, as 7 2 x <= 5 does: claims are proved without the tree";

/// The bytes of the file of a tree, where one is given.
///
/// # Errors
///
/// `Read` with the system's error, and `Memory`.
pub fn read_tree<'n>(rt: &HostRuntime, name: Option<&'n str>) -> Result<Vec<u8>, Unread<'n>> {
    match name {
        Some(name) => read_file(rt, name, MOST_BYTES),
        None => Ok(Vec::new(rt.alloc())),
    }
}

/// The branches that the lines of a tree tell. Where one tells none, that is told on standard
/// error, and none are given.
///
/// # Errors
///
/// `Memory`.
pub fn branches_of<'n, 'k>(
    rt: &HostRuntime,
    name: Option<&'n str>,
    bytes: &'k [u8],
) -> Result<Vec<Branch<'k>>, Unread<'n>> {
    let name = name.unwrap_or("");
    let mut branches = Vec::new(rt.alloc());
    for (before, line) in bytes.split(|byte| *byte == b'\n').enumerate() {
        match branch_of(line) {
            Some(branch) => if branches.push(branch).is_err() {
                return Err(Unread::new(CheckError::Memory, name, None));
            },
            None if line.is_empty() => {}
            None => {
                let number = before.saturating_add(1);
                let _ = eprintln!(rt; "{name}: line {number} {NO_BRANCH}");
                return Ok(Vec::new(rt.alloc()));
            }
        }
    }
    Ok(branches)
}

/// The branch that a line tells: the number of the node, that of its parent, and of which variable
/// the node has which numbers.
fn branch_of(line: &[u8]) -> Option<Branch<'_>> {
    let mut words = str::from_utf8(line).ok()?.split_whitespace();
    let node = words.next()?.parse().ok()?;
    let parent = words.next()?.parse().ok()?;
    let name = words.next()?.as_bytes();
    let relation = words.next()?;
    let number: i64 = words.next()?.parse().ok()?;
    let (low, high, is_among) = match relation {
        "=" => (number, number, true),
        "!=" => (number, number, false),
        "<=" => (i64::MIN, number, true),
        ">" => (i64::MIN, number, false),
        ">=" => (number, i64::MAX, true),
        "<" => (number, i64::MAX, false),
        _ => return None,
    };
    match words.next() {
        Some(_) => None,
        None => Some(Branch {
            node,
            parent,
            name,
            numbers: Ends { low, high },
            is_among,
        }),
    }
}
