//! Where the keys of a TOML text stand.
use crate::lines::line_at;
use crate::names::{BETWEEN, Fit, along, joined};
use crate::statements::{Mark, key_at, marks_of, names_at, value_at};
use mg_bytes::{Draft, OutOfMemory, split_once, trimmed};
use std::alloc::Global;

// A statement of a text.
#[derive(Drop)]
struct Statement {
    mark: Mark,
    // The number of the head that it stands below, among all statements; a head stands below none.
    head: Option<usize>,
    // The names of its key, or of the head.
    names: Vec<u8>,
}

/// A key of several names that stands below a head: what was meant for one name, which wants quotes then.
#[derive(Drop)]
pub struct Dotted {
    pub line: u64,
    /// Its names, with dots between them.
    pub name: Vec<u8>,
}

/// Where the keys of a text stand.
#[derive(Drop)]
pub struct Places<'t> {
    text: &'t [u8],
    statements: Vec<Statement>,
}

// A statement that is found: where it stands, and whether it is about what was looked for, or the nearest that this is in.
#[derive(Clone, Copy)]
struct Found {
    mark: Mark,
    is_exact: bool,
}

fn with_dots(alloc: Global, names: &[u8]) -> Result<Vec<u8>, OutOfMemory> {
    let mut out = Draft::new(alloc);
    for byte in names {
        out.put_byte(if *byte == BETWEEN { b'.' } else { *byte });
    }
    out.end()
}

fn has_several(names: &[u8]) -> bool {
    for byte in names {
        if *byte == BETWEEN {
            return true;
        }
    }
    false
}

// Where the line of a place ends.
fn line_end(text: &[u8], place: usize) -> usize {
    for (end, byte) in text.iter().enumerate() {
        if end >= place && *byte == b'\n' {
            return end;
        }
    }
    text.len()
}

// What stands in the first line.
fn first_line(text: &[u8]) -> &[u8] {
    match split_once(text, b'\n') {
        Some((line, _rest)) => line,
        None => text,
    }
}

impl<'t> Places<'t> {
    /// Where the keys of this text stand. Its only error is want of memory.
    pub fn of(alloc: Global, text: &'t str) -> Result<Places<'t>, OutOfMemory> {
        let text = text.as_bytes();
        let marks = marks_of(alloc, text)?;
        let mut statements = Vec::new(alloc);
        let mut head = None;
        for (number, mark) in marks.iter().enumerate() {
            let names = names_at(alloc, text, *mark)?;
            let is_head = mark.equals.is_none();
            if is_head {
                head = Some(number);
            }
            statements.push(Statement {
                mark: *mark,
                head: if is_head { None } else { head },
                names,
            })?;
        }
        Ok(Places { text, statements })
    }

    // The names of the head of this number.
    fn head_names(&self, head: usize) -> &[u8] {
        match self.statements.get(head) {
            Some(statement) => statement.names.as_slice(),
            None => b"".as_slice(),
        }
    }

    // How a statement goes along a path.
    fn fit<'a>(&self, statement: &Statement, path: &'a [u8]) -> Fit<'a> {
        let names = statement.names.as_slice();
        let Some(head) = statement.head else {
            return along(path, names);
        };
        match along(path, self.head_names(head)) {
            Fit::Left(rest) => along(rest, names),
            Fit::Whole => Fit::Whole,
            Fit::Apart => Fit::Apart,
        }
    }

    fn find(&self, path: &[u8]) -> Option<Found> {
        let mut nearest = None;
        for statement in self.statements.iter() {
            let mark = statement.mark;
            match self.fit(statement, path) {
                Fit::Whole => {
                    return Some(Found {
                        mark,
                        is_exact: true,
                    });
                }
                Fit::Left(_) => {
                    nearest = Some(Found {
                        mark,
                        is_exact: false,
                    });
                }
                Fit::Apart => {}
            }
        }
        nearest
    }

    /// The line in which a key of these names stands, or else that of the table that it is in.
    pub fn line_of(&self, alloc: Global, names: &[&str]) -> Result<Option<u64>, OutOfMemory> {
        let path = joined(alloc, names)?;
        match self.find(path.as_slice()) {
            Some(found) => Ok(Some(line_at(self.text, found.mark.start))),
            None => Ok(None),
        }
    }

    /// The value of the key of these names as it is written, where that stands in a statement of its own.
    pub fn written_at(
        &self,
        alloc: Global,
        names: &[&str],
    ) -> Result<Option<&'t [u8]>, OutOfMemory> {
        let path = joined(alloc, names)?;
        match self.find(path.as_slice()) {
            Some(found) if found.is_exact && found.mark.equals.is_some() => {
                Ok(Some(trimmed(value_at(self.text, found.mark))))
            }
            _ => Ok(None),
        }
    }

    // Whether a statement has a key of several names, and stands below the head of this name.
    fn is_dotted(&self, statement: &Statement, name: &str) -> bool {
        match statement.head {
            Some(head) => {
                self.head_names(head) == name.as_bytes() && has_several(statement.names.as_slice())
            }
            None => false,
        }
    }

    /// The keys of several names below the head of this name.
    pub fn dotted_below(&self, alloc: Global, name: &str) -> Result<Vec<Dotted>, OutOfMemory> {
        let mut dotted = Vec::new(alloc);
        for statement in self.statements.iter() {
            if self.is_dotted(statement, name) {
                dotted.push(Dotted {
                    line: line_at(self.text, statement.mark.start),
                    name: with_dots(alloc, statement.names.as_slice())?,
                })?;
            }
        }
        Ok(dotted)
    }

    // The last statement that begins before a place.
    fn last_before(&self, place: usize) -> Option<&Statement> {
        let mut last = None;
        for statement in self.statements.iter() {
            if statement.mark.start < place {
                last = Some(statement);
            }
        }
        last
    }

    // The names that lead to what a statement is about.
    fn path_of(&self, alloc: Global, statement: &Statement) -> Result<Vec<u8>, OutOfMemory> {
        let mut path = Draft::new(alloc);
        if let Some(head) = statement.head {
            path.put(self.head_names(head));
            path.put_byte(BETWEEN);
        }
        path.put(statement.names.as_slice());
        path.end()
    }

    /// The statement that ends in the line of a place, or goes on there.
    pub(crate) fn around(
        &self,
        alloc: Global,
        place: usize,
    ) -> Result<Option<Around<'t>>, OutOfMemory> {
        let Some(statement) = self.last_before(line_end(self.text, place)) else {
            return Ok(None);
        };
        let path = self.path_of(alloc, statement)?;
        let mark = statement.mark;
        let first = match self.find(path.as_slice()) {
            Some(found) if found.is_exact && found.mark.start < mark.start => {
                Some(line_at(self.text, found.mark.start))
            }
            _ => None,
        };
        Ok(Some(Around {
            is_below_head: statement.head.is_some(),
            key: trimmed(key_at(self.text, mark)),
            value: trimmed(first_line(value_at(self.text, mark))),
            first,
        }))
    }
}

/// A statement of a text.
#[derive(Clone, Copy)]
pub struct Around<'t> {
    /// Whether it stands below the head of a table.
    pub is_below_head: bool,
    /// Its key as it is written, or the head.
    pub key: &'t [u8],
    /// The first line of the value as it is written; nothing of a head.
    pub value: &'t [u8],
    /// The line of a statement before it that is about the same.
    pub first: Option<u64>,
}
