//! What a person sees beside the report, on standard error: messages, and how far the check is. The
//! report is on standard output.

use fz_files::{Progress, coloured, has_colours};
use std::cell::RefCell;
use std::io;
use std::io::{Stdout, Write};

/// Shows a message, in colours where standard error is a terminal that has them.
pub fn show_message(rt: &HostRuntime, text: &str) {
    if has_colours(rt)
        && let Ok(text) = coloured(rt.alloc(), text)
    {
        let _ = eprint!(rt; "{text}");
        return;
    }
    let _ = eprint!(rt; "{text}");
}

/// How far a check is, and explanations that wait until the lines of their blocks are written.
#[derive(Drop)]
pub struct Screen<'r> {
    rt: &'r HostRuntime,
    progress: Progress<'r>,
    waiting: String,
}

impl<'r> Screen<'r> {
    /// Before the first block.
    pub fn new(rt: &'r HostRuntime) -> Screen<'r> {
        Screen {
            rt,
            progress: Progress::new(rt),
            waiting: String::new(rt.alloc()),
        }
    }

    /// Counts a block.
    pub fn count(&mut self, is_satisfied: bool) {
        self.progress.note(is_satisfied);
    }

    /// Adds an explanation. Without memory for it there is none.
    pub fn add(&mut self, text: &str) {
        let _ = self.waiting.push_str(text);
    }

    /// Shows the explanations that wait.
    pub fn show(&mut self) {
        if !self.waiting.is_empty() {
            self.progress.clear();
            show_message(self.rt, &self.waiting);
            self.waiting.clear();
        }
    }

    /// Removes the line of progress.
    pub fn clear(&mut self) {
        self.progress.clear();
    }
}

/// Standard output. What waits is shown once the lines before it are written.
#[derive(Clone, Copy)]
pub struct Report<'s, 'r> {
    pub out: Stdout,
    pub screen: &'s RefCell<Screen<'r>>,
}

impl Write for Report<'_, '_> {
    fn write(&mut self, buf: &[u8]) -> io::Result<usize> {
        let count = self.out.write(buf)?;
        if count == buf.len()
            && let Ok(mut screen) = self.screen.try_borrow_mut()
        {
            screen.show();
        }
        Ok(count)
    }

    fn flush(&mut self) -> io::Result<()> {
        self.out.flush()
    }
}
