//! The statements of a TOML text: each defines a key, or is the head of a table.
use crate::names::{BETWEEN, names_in};
use crate::within::{Seen, Within};
use mg_bytes::{Draft, OutOfMemory};
use std::alloc::{AllocError, Global};

/// Where a statement stands in a text.
#[derive(Clone, Copy)]
pub struct Mark {
    pub start: usize,
    /// Behind its last byte, and before a comment.
    pub end: usize,
    /// Its equals sign; a head has none.
    pub equals: Option<usize>,
}

// What is read so far.
#[derive(Drop)]
struct Reader {
    within: Within,
    // So many brackets and braces are open.
    depth: usize,
    open: Option<Mark>,
    marks: Vec<Mark>,
}

impl Reader {
    fn close(&mut self) -> Result<(), OutOfMemory> {
        if let Some(mark) = self.open {
            self.marks.push(mark)?;
        }
        self.open = None;
        Ok(())
    }

    // The byte at this place belongs to a statement, which it may begin.
    fn extend(&mut self, place: usize) {
        let end = place.saturating_add(1);
        let mark = match self.open {
            Some(mark) => Mark {
                start: mark.start,
                end,
                equals: mark.equals,
            },
            None => Mark {
                start: place,
                end,
                equals: None,
            },
        };
        self.open = Some(mark);
    }

    fn note_equals(&mut self, place: usize) {
        if let Some(mark) = self.open
            && mark.equals.is_none()
        {
            self.open = Some(Mark {
                start: mark.start,
                end: mark.end,
                equals: Some(place),
            });
        }
    }

    fn take_sign(&mut self, byte: u8, place: usize) -> Result<(), OutOfMemory> {
        match byte {
            b'\n' if self.depth == 0 => return self.close(),
            b'\n' | b'\r' | b' ' | b'\t' => return Ok(()),
            b'[' | b'{' => self.depth = self.depth.saturating_add(1),
            b']' | b'}' => self.depth = self.depth.saturating_sub(1),
            _ => {}
        }
        self.extend(place);
        if byte == b'=' && self.depth == 0 {
            self.note_equals(place);
        }
        Ok(())
    }

    fn take(&mut self, byte: u8, place: usize) -> Result<(), OutOfMemory> {
        let (within, seen) = self.within.behind(byte);
        self.within = within;
        match seen {
            Seen::Sign => self.take_sign(byte, place),
            Seen::Text => {
                self.extend(place);
                Ok(())
            }
            Seen::Comment => Ok(()),
        }
    }
}

/// Where the statements of a text stand.
pub(crate) fn marks_of(alloc: Global, text: &[u8]) -> Result<Vec<Mark>, OutOfMemory> {
    let mut reader = Reader {
        within: Within::Plain,
        depth: 0,
        open: None,
        marks: Vec::new(alloc),
    };
    for (place, byte) in text.iter().enumerate() {
        reader.take(*byte, place)?;
    }
    reader.close()?;
    let Reader {
        within: _,
        depth: _,
        open: _,
        marks,
    } = reader;
    Ok(marks)
}

/// What stands in a text from one place to another.
pub(crate) fn between(text: &[u8], start: usize, end: usize) -> &[u8] {
    match text.get(start..end) {
        Some(piece) => piece,
        None => b"".as_slice(),
    }
}

/// A key as it is written, or a head.
pub(crate) fn key_at(text: &[u8], mark: Mark) -> &[u8] {
    match mark.equals {
        Some(equals) => between(text, mark.start, equals),
        None => between(text, mark.start, mark.end),
    }
}

/// The value of a key as it is written; nothing of a head.
pub(crate) fn value_at(text: &[u8], mark: Mark) -> &[u8] {
    match mark.equals {
        Some(equals) => between(text, equals.saturating_add(1), mark.end),
        None => b"".as_slice(),
    }
}

/// The names of a key, or of a head, as TOML reads them: what no names are where it doesn't.
pub(crate) fn names_at(alloc: Global, text: &[u8], mark: Mark) -> Result<Vec<u8>, OutOfMemory> {
    let mut line = Draft::new(alloc);
    line.put(key_at(text, mark));
    if mark.equals.is_some() {
        line.put(b"=0");
    }
    let line = line.end()?;
    let Ok(line) = std::str::from_utf8(line.as_slice()) else {
        return Ok(Vec::from_slice(alloc, &[BETWEEN])?);
    };
    match toml::table_from_str(alloc, line) {
        Ok(table) => names_in(alloc, &table),
        Err(fault) if fault.is_memory() => Err(AllocError),
        Err(_) => Ok(Vec::from_slice(alloc, &[BETWEEN])?),
    }
}
