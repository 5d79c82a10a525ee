//! A line on standard error that shows how far a long check is, for a user who waits at a terminal.

use std::alloc::AllocError;
use std::io::IsTerminal;
use std::time::Instant;

/// After how many seconds the line is shown first. From then on it is shown again each second.
const PATIENCE: u64 = 2;

/// How far a check is.
#[derive(Drop)]
pub struct Progress<'r> {
    rt: &'r HostRuntime,
    /// When the check began; none where nothing is to be shown.
    start: Option<Instant>,
    /// The second, counted from the start, in which the line is due.
    due: u64,
    blocks: usize,
    /// The first block that isn't satisfied.
    other: Option<usize>,
    /// The length of the line that is shown.
    columns: usize,
}

impl<'r> Progress<'r> {
    /// The line is shown only where standard error is a terminal and standard output isn't.
    pub fn new(rt: &'r HostRuntime) -> Progress<'r> {
        let shows = rt.stderr().is_terminal() && !rt.stdout().is_terminal();
        Progress {
            rt,
            start: if shows { Instant::now(rt).ok() } else { None },
            due: PATIENCE,
            blocks: 0,
            other: None,
            columns: 0,
        }
    }

    /// Counts a block. Where memory runs out, no more is shown.
    pub fn note(&mut self, is_satisfied: bool) {
        self.blocks = self.blocks.saturating_add(1);
        if !is_satisfied && self.other.is_none() {
            self.other = Some(self.blocks);
        }
        if self.show().is_err() {
            self.start = None;
        }
    }

    /// Shows the line where it is due.
    fn show(&mut self) -> Result<(), AllocError> {
        let seconds = self.seconds();
        if seconds >= self.due {
            self.due = seconds.saturating_add(1);
            let text = self.text()?;
            self.clear();
            self.columns = text.len();
            let _ = eprint!(self.rt; "{text}");
        }
        Ok(())
    }

    /// How many seconds the check has run, or 0 where that isn't known.
    fn seconds(&self) -> u64 {
        match self.start {
            Some(start) => match start.elapsed(self.rt) {
                Ok(elapsed) => elapsed.as_secs(),
                Err(_) => 0,
            },
            None => 0,
        }
    }

    fn text(&self) -> Result<String, AllocError> {
        let blocks = self.blocks;
        match self.other {
            Some(other) => {
                format!(in self.rt.alloc(); "{blocks} blocks, and block {other} isn't satisfied")
            }
            None => format!(in self.rt.alloc(); "{blocks} blocks, all satisfied so far"),
        }
    }

    /// Removes the line from the terminal.
    pub fn clear(&mut self) {
        let columns = self.columns;
        if columns > 0 {
            let _ = eprint!(self.rt; "\r{:columns$}\r", "");
            self.columns = 0;
        }
    }
}
