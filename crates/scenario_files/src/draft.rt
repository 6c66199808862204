//! A text that is put together, as a `Draft` of `mg_bytes` puts bytes together.
use mg_bytes::OutOfMemory;
use std::alloc::{AllocError, Global};

/// A text that is put together of pieces. That memory was refused for one is kept, and told at the end.
#[derive(Drop)]
pub struct TextDraft {
    text: String,
    /// Memory was refused.
    pub is_refused: bool,
}

impl TextDraft {
    /// Nothing yet.
    pub fn new(alloc: Global) -> TextDraft {
        TextDraft {
            text: String::new(alloc),
            is_refused: false,
        }
    }

    /// Puts a piece behind what there is already.
    pub fn put(&mut self, piece: &str) {
        if self.text.push_str(piece).is_err() {
            self.is_refused = true;
        }
    }

    /// Puts a line with its end.
    pub fn put_line(&mut self, line: &str) {
        self.put(line);
        self.put("\n");
    }

    /// Puts a text that was made, unless memory was refused for it.
    pub fn put_made(&mut self, made: Result<String, OutOfMemory>) {
        match made {
            Ok(text) => self.put(text.as_str()),
            Err(_) => self.is_refused = true,
        }
    }

    /// What was put so far.
    pub fn as_str(&self) -> &str {
        self.text.as_str()
    }

    /// All that was put. Its only error is want of memory, also for what was put.
    pub fn end(self) -> Result<String, OutOfMemory> {
        let TextDraft { text, is_refused } = self;
        if is_refused {
            return Err(AllocError);
        }
        Ok(text)
    }
}
