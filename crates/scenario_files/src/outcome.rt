//! What comes of a row.
//!
//! It is apart from what is read of the row, which is lent: nearly all that plays a row only puts, and is checked for no loan then.
use crate::texts::yes_or_no;
use mg_bytes::{CodeFault, OutOfMemory, Text};
use std::alloc::Global;
use std::fmt::Display;
use std::io::Write;

/// What a row gives so far.
pub struct Outcome {
    pub alloc: Global,
    pub bytes: Vec<u8>,
    /// Memory was refused.
    pub is_refused: bool,
    /// There is no such row.
    pub is_unread: bool,
}

// Written out, since each crate that lets one go would prove a derived one anew.
impl Drop for Outcome {
    fn drop(self) {
        let Outcome {
            alloc: _,
            bytes,
            is_refused: _,
            is_unread: _,
        } = self;
        drop(bytes);
    }
}

impl Outcome {
    /// Nothing yet.
    pub fn nothing(alloc: Global) -> Outcome {
        Outcome {
            alloc,
            bytes: Vec::new(alloc),
            is_refused: false,
            is_unread: false,
        }
    }

    /// There is no such row.
    pub fn unread(&mut self) {
        self.is_unread = true;
    }

    /// Memory was refused.
    pub fn refuse(&mut self) {
        self.is_refused = true;
    }

    /// Memory was refused, unless this is done.
    pub fn refuse_unless(&mut self, is_done: bool) {
        if !is_done {
            self.is_refused = true;
        }
    }

    /// A value can't be read: there is no such row, or memory was refused.
    pub fn fault(&mut self, fault: CodeFault) {
        match fault {
            CodeFault::Code(_) => self.is_unread = true,
            CodeFault::OutOfMemory => self.is_refused = true,
        }
    }

    /// Puts bytes behind what there is already.
    pub fn put(&mut self, bytes: &[u8]) {
        if self.bytes.extend_from_slice(bytes).is_err() {
            self.is_refused = true;
        }
    }

    /// Puts a value as it is shown.
    pub fn put_shown<T: Display + Copy>(&mut self, value: T) {
        if write!(self.bytes, "{value}").is_err() {
            self.is_refused = true;
        }
    }

    /// Puts words.
    pub fn put_words(&mut self, words: &str) {
        self.put(words.as_bytes());
    }

    /// Puts two pieces, one behind the other.
    pub fn put_both(&mut self, one: &[u8], other: &[u8]) {
        self.put(one);
        self.put(other);
    }

    /// Puts a value as it is shown, behind a piece.
    pub fn put_behind<T: Display + Copy>(&mut self, piece: &[u8], value: T) {
        self.put(piece);
        self.put_shown(value);
    }

    /// Puts a text that was made, unless memory was refused for it.
    pub fn put_made(&mut self, made: Result<String, OutOfMemory>) {
        match made {
            Ok(text) => self.put(text.as_bytes()),
            Err(_) => self.is_refused = true,
        }
    }

    /// Puts a value, or `none` where there is none.
    pub fn put_or_none<T: Display + Copy>(&mut self, value: Option<T>) {
        match value {
            Some(value) => self.put_shown(value),
            None => self.put(b"none"),
        }
    }

    /// Puts a text that was written, unless memory was refused for it.
    pub fn put_text(&mut self, text: Result<Text, OutOfMemory>) {
        match text {
            Ok(text) => self.put(text.as_bytes()),
            Err(_) => self.is_refused = true,
        }
    }

    /// Puts a return code; want of memory is kept.
    pub fn put_code(&mut self, fault: CodeFault) {
        match fault {
            CodeFault::Code(code) => self.put_shown(code),
            CodeFault::OutOfMemory => self.is_refused = true,
        }
    }

    /// Puts a judgement.
    pub fn put_judged(&mut self, is_so: bool) {
        self.put_words(yes_or_no(is_so));
    }
}
