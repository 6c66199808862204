//! A row that is played: it is read from its front, and what it gives is put beside it. What is left of it in the end is what it
//! says that it gives.
//!
//! Neither reading nor putting can fail: what comes of the row keeps that a word couldn't be read, or that memory was refused, and
//! says nothing else then. So a kind of row asks for that only before it changes its state.
use crate::outcome::Outcome;
use crate::texts::{bytes_of, parted, said};
use mg_bytes::OutOfMemory;
use std::alloc::{AllocError, Global};

/// A row: what hasn't been read of it, and what it gives.
#[derive(Drop)]
pub struct Row<'a> {
    pub left: &'a str,
    pub given: Outcome,
    /// What is given is compared with what is left byte for byte, and not whatever blanks stand before both.
    pub is_exact: bool,
}

impl<'a> Row<'a> {
    /// A row of which nothing has been read.
    pub fn of(alloc: Global, row: &'a str) -> Row<'a> {
        Row {
            left: row,
            given: Outcome::nothing(alloc),
            is_exact: false,
        }
    }

    /// What stands before the next of these separators; all where there is none. The separator is read too, with all blanks
    /// behind it.
    pub fn before(&mut self, separator: &str) -> &'a str {
        let (text, left) = parted(self.left, separator);
        self.left = left.trim_start();
        text
    }

    /// The next word, which is a number; 0 where it is none, and then there is no such row.
    pub fn number(&mut self) -> u32 {
        match self.before(" ").parse::<u32>() {
            Ok(number) => number,
            Err(_) => {
                self.given.unread();
                0
            }
        }
    }

    /// The number behind the next word, which is this one, as `at 1000`.
    pub fn number_behind(&mut self, word: &str) -> u32 {
        if self.before(" ") != word {
            self.given.unread();
        }
        self.number()
    }

    /// The parameters that come next, as `X: A1  R: L/hd`, with what stands behind them, which isn't read.
    pub fn parameters(&mut self) -> &'a str {
        let all = self.left;
        for field in all.split("  ") {
            if !field.contains(": ") {
                break;
            }
            self.before("  ");
        }
        all
    }

    /// All that is left, which is read.
    pub fn rest(&mut self) -> &'a str {
        let left = self.left;
        self.left = "";
        left
    }

    // What is given in short forms, unless that is what is left, byte for byte.
    fn unlike_bytes(&self) -> Result<Option<String>, OutOfMemory> {
        let given = &self.given;
        let wanted = bytes_of(given.alloc, self.left)?;
        if wanted.as_slice() == given.bytes.as_slice() {
            return Ok(None);
        }
        Ok(Some(said(given.alloc, &given.bytes)?))
    }

    /// What is given, unless that is what is left, whatever blanks stand before both.
    pub fn unlike(&self) -> Result<Option<String>, OutOfMemory> {
        let given = &self.given;
        if given.is_refused {
            return Err(AllocError);
        }
        if given.is_unread {
            return Ok(Some("no such row".to_string(given.alloc)?));
        }
        if self.is_exact {
            return self.unlike_bytes();
        }
        if given.bytes.trim_ascii_start() == self.left.trim_start().as_bytes() {
            return Ok(None);
        }
        Ok(Some(String::from_utf8_lossy(given.alloc, &given.bytes)?))
    }
}
