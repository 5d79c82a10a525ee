//! A line of JSON that holds an object.

use json::Writer;
use std::alloc::{AllocError, Global};

/// An object to which members are added. Where memory runs out it has no line.
#[derive(Drop)]
pub struct Object {
    writer: Writer,
    /// Whether all that was added is there.
    is_whole: bool,
}

impl Object {
    pub fn new(alloc: Global) -> Object {
        let mut object = Object {
            writer: Writer::new(Vec::new(alloc)),
            is_whole: true,
        };
        object.begin_element();
        object
    }

    fn key(&mut self, key: &str) {
        self.is_whole &= self.writer.key(key).is_ok();
    }

    pub fn text(&mut self, key: &str, text: &str) {
        self.key(key);
        self.element(text);
    }

    /// An element of a list that is a text.
    pub fn element(&mut self, text: &str) {
        self.is_whole &= self.writer.string(text).is_ok();
    }

    /// A member whose value is a name, a word of the language: these are ASCII.
    pub fn word(&mut self, key: &str, word: &[u8]) {
        self.text(key, str::from_utf8(word).unwrap_or(""));
    }

    pub fn count(&mut self, key: &str, count: usize) {
        self.key(key);
        self.is_whole &= self.writer.u64(count as u64).is_ok();
    }

    pub fn number(&mut self, key: &str, number: i64) {
        self.key(key);
        self.is_whole &= self.writer.i64(number).is_ok();
    }

    pub fn truth(&mut self, key: &str, truth: bool) {
        self.key(key);
        self.is_whole &= self.writer.boolean(truth).is_ok();
    }

    pub fn texts(&mut self, key: &str, texts: &[String]) {
        self.begin_list(key);
        for text in texts {
            self.element(text);
        }
        self.end_list();
    }

    /// Begins a member whose value is a list; what is added from here on are its elements.
    pub fn begin_list(&mut self, key: &str) {
        self.key(key);
        self.is_whole &= self.writer.begin_array().is_ok();
    }

    /// Begins an element of a list that is a list.
    pub fn begin_inner_list(&mut self) {
        self.is_whole &= self.writer.begin_array().is_ok();
    }

    pub fn end_list(&mut self) {
        self.is_whole &= self.writer.end_array().is_ok();
    }

    /// A member whose value is the pair of two numbers.
    pub fn pair(&mut self, key: &str, first: usize, second: usize) {
        self.begin_list(key);
        self.is_whole &= self.writer.u64(first as u64).is_ok();
        self.is_whole &= self.writer.u64(second as u64).is_ok();
        self.end_list();
    }

    /// An element that is a range, as the pair of its bounds.
    pub fn range(&mut self, low: i64, high: i64) {
        self.is_whole &= self.writer.begin_array().is_ok();
        self.is_whole &= self.writer.i64(low).is_ok();
        self.is_whole &= self.writer.i64(high).is_ok();
        self.end_list();
    }

    /// Begins a member whose value is an object; what is added from here on are its members.
    pub fn begin(&mut self, key: &str) {
        self.key(key);
        self.begin_element();
    }

    /// Begins an element of a list that is an object.
    pub fn begin_element(&mut self) {
        self.is_whole &= self.writer.begin_object().is_ok();
    }

    /// Ends a member or an element that is an object.
    pub fn end(&mut self) {
        self.is_whole &= self.writer.end_object().is_ok();
    }

    /// The object on a line.
    ///
    /// # Errors
    ///
    /// Memory ran out for this or for what was added.
    pub fn line(mut self) -> Result<Vec<u8>, AllocError> {
        self.end();
        if !self.is_whole {
            return Err(AllocError);
        }
        let mut line = self.writer.into_inner();
        line.extend_from_slice(b"\n")?;
        Ok(line)
    }
}
