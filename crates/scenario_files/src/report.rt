//! What comes of cases.
use mg_bytes::OutOfMemory;
use std::alloc::Global;

/// How many cases there are, how many of them aren't as they are told, and what is to be printed of those.
///
/// Nothing that tells cases prints, nor can it fail: that memory was refused is kept, and makes its file wrong.
#[derive(Drop)]
pub struct Report {
    pub cases: u32,
    pub wrong: u32,
    pub said: Vec<u8>,
    pub is_refused: bool,
}

impl Report {
    /// Nothing yet. This takes no memory.
    pub fn nothing(alloc: Global) -> Report {
        Report {
            cases: 0,
            wrong: 0,
            said: Vec::new(alloc),
            is_refused: false,
        }
    }

    /// Memory was refused.
    pub fn refuse(&mut self) {
        self.is_refused = true;
    }

    /// Counts a case.
    pub fn count(&mut self, is_right: bool) {
        self.cases = self.cases.wrapping_add(1);
        self.wrong = self.wrong.wrapping_add(u32::from(!is_right));
    }

    /// Puts bytes behind what is said already.
    pub fn put(&mut self, bytes: &[u8]) {
        if self.said.extend_from_slice(bytes).is_err() {
            self.is_refused = true;
        }
    }

    /// Puts words.
    pub fn put_words(&mut self, words: &str) {
        self.put(words.as_bytes());
    }

    /// Counts a case that isn't as it is told, of which this is said, and puts both parts of that.
    pub fn wrong(&mut self, what: &str, said: &str) {
        self.count(false);
        self.put_words(what);
        self.put_words(said);
    }

    /// Counts a row, which is wrong where it gives what it doesn't say.
    pub fn row(
        &mut self,
        title: &str,
        written: &str,
        unlike: &Result<Option<String>, OutOfMemory>,
    ) {
        match unlike {
            Ok(None) => self.count(true),
            Ok(Some(given)) => {
                self.wrong(title, ": ");
                self.put_words(written);
                self.put(b"\n  gives ");
                self.put(given.as_bytes());
                self.put(b"\n");
            }
            Err(_) => self.refuse(),
        }
    }
}
