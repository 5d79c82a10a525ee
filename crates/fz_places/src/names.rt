//! The table of names that the MiniZinc compiler writes beside a FlatZinc model.

ghost use Rattle.std.specs.Prelude.{◌≡◌, [], IfErr, IfOk, Some, option_map};
ghost use Rattle.std.specs.Io.BufRead.{strip_last};
ghost use Rattle.fz_places.specs.Tables.{IsFault, columns, row_in, row_named, row_of, rows_in, table};

use crate::lines::{part_len, parted};
use fz_tree::Span;
use std::alloc::{AllocError, AllocFailed, Global};
use thiserror::Error;

/// What ends a line.
const LF: u8 = b'\n';

/// What may come before it.
const CR: u8 = b'\r';

/// What is between two columns.
const TAB: u8 = b'\t';

/// A line of the table.
#[derive(Clone, Copy)]
pub struct NameLine<'n> {
    /// A name in FlatZinc, or the number of a constraint there, from 0.
    pub name: &'n [u8],
    /// The same in the MiniZinc model, as `start[1,2]`.
    pub model_name: &'n [u8],
    /// The path to it in that model.
    pub path: &'n [u8],
}

/// Why a text is no table of names.
#[derive(Clone, Copy, Debug, PartialEq, Eq, Error)]
pub enum TableError {
    /// The byte range of the first line that hasn't three columns.
    #[error("Columns")]
    Columns(Span),
    /// Out of memory.
    #[error("Memory")]
    Memory,
}

impl<T: Drop> From<AllocFailed<T>> for TableError {
    ghost use Rattle.fz_places.specs.declared.names.TableError.TheVariants.{Memory};

    ghost from_gives = { λ _ e. e ≡ Memory };

    fn from(_: AllocFailed<T>) -> TableError {
        TableError::Memory
    }
}

impl From<AllocError> for TableError {
    ghost use Rattle.fz_places.specs.declared.names.TableError.TheVariants.{Memory};

    ghost from_gives = { λ _ e. e ≡ Memory };

    fn from(_: AllocError) -> TableError {
        TableError::Memory
    }
}

/// The lines of a table, in their order.
#[derive(Drop)]
pub struct NameTable<'n> {
    lines: Vec<NameLine<'n>>,
}

impl<'n> NameTable<'n> {
    /// The table without lines.
    pub fn empty(alloc: Global) -> NameTable<'n>
        ensures { rows_in result ≡ [] }
    {
        NameTable {
            lines: Vec::new(alloc),
        }
    }

    /// Reads the text of a table: on each line a name in FlatZinc, its name in the MiniZinc model
    /// and its path there, with a tab between two.
    ///
    /// # Errors
    ///
    /// `Columns` where a line hasn't three columns, `Memory` where memory runs out.
    pub fn read(alloc: Global, text: &'n [u8]) -> Result<NameTable<'n>, TableError>
        ensures rows { IfOk result (λ t. table text.now ≡ Some (rows_in t)) }
        ensures fault { IfErr result (IsFault text.now) }
    {
        let mut lines = Vec::new(alloc);
        let mut start = 0;
        while start < text.len() {
            let rest = &text[start..];
            let count = part_len(rest, LF);
            let end = start + count;
            match row_in(&rest[..count]) {
                Some(line) => lines.push(line)?,
                None => return Err(TableError::Columns(Span { start, end })),
            }
            start = end + 1;
        }
        Ok(NameTable { lines })
    }

    /// The first line of a name in FlatZinc.
    pub fn find(&self, name: &[u8]) -> Option<NameLine<'n>>
        ensures { option_map row_of result ≡ row_named name.now (rows_in self.now) }
    {
        for line in &self.lines {
            if line.name == name {
                return Some(*line);
            }
        }
        None
    }
}

/// A line without a CR at its end.
fn bare_line<'n>(line: &'n [u8]) -> &'n [u8]
    ensures { result.now ≡ strip_last 13 line.now }
{
    if line.len() > 0 && line[line.len() - 1] == CR {
        return &line[..line.len() - 1];
    }
    line
}

/// The columns of a line.
fn columns<'n>(line: &'n [u8]) -> Option<NameLine<'n>>
    ensures { option_map row_of result ≡ columns line.now }
{
    let (name, rest) = parted(line, TAB)?;
    let (model_name, path) = parted(rest, TAB)?;
    match parted(path, TAB) {
        Some(_) => None,
        None => Some(NameLine {
            name,
            model_name,
            path,
        }),
    }
}

/// The columns of a line, without a CR at its end.
fn row_in<'n>(line: &'n [u8]) -> Option<NameLine<'n>>
    ensures { option_map row_of result ≡ row_in line.now }
{
    columns(bare_line(line))
}
