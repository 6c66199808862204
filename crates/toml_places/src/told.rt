//! What is told of a file: a line of words for each fault, in the order of the lines where they stand.
ghost use Rattle.std.specs.Prelude.{◌≡◌, ◌++◌, ◌==◌, nat_lt};
ghost use Rattle.toml_places.specs.Lines.{fault_line, most_told};

use crate::lines::put_line_at;
use mg_bytes::{Draft, OutOfMemory};
use std::alloc::Global;
use std::collections::BTreeMap;

/// So many faults of a file are told at most.
pub const MOST_TOLD: usize = 64;

/// The faults that are told so far.
#[derive(Drop)]
pub struct Told {
    alloc: Global,
    lines: BTreeMap<u64, Vec<u8>>,
    count: usize,
}

// Puts a fault: the line where it stands in one, and these words.
fn put_fault(out: &mut Draft, line: Option<u64>, words: &[u8])
    ensures { out.new ≡ out.old ++ fault_line line words.now }
{
    if let Some(line) = line {
        put_line_at(out, line);
    }
    out.put(words);
}

// Where a fault is told, which so many were found before: those without a line come last.
fn order_of(line: Option<u64>, count: usize) -> u64 {
    let line = line.unwrap_or(u64::MAX / 128);
    line.saturating_mul(128).saturating_add(count as u64)
}

impl Told {
    /// None yet.
    pub fn new(alloc: Global) -> Told
        ensures { result.count ≡ 0 }
    {
        Told {
            alloc,
            lines: BTreeMap::new(alloc),
            count: 0,
        }
    }

    /// Tells a fault, in this line where it stands in one; behind the 64th only that there are more. Its only error is want of memory.
    pub fn tell(&mut self, line: Option<u64>, words: &[u8]) -> Result<(), OutOfMemory> {
        if self.count < MOST_TOLD {
            let mut text = Draft::new(self.alloc);
            put_fault(&mut text, line, words);
            drop(self.lines.insert(order_of(line, self.count), text.end()?)?);
        }
        self.count = self.count.saturating_add(1);
        Ok(())
    }

    /// Whether none is told.
    pub fn is_empty(&self) -> bool
        ensures { result ≡ (self.now.count == 0) }
    {
        self.count == 0
    }

    /// Whether no further one is told.
    pub fn is_full(&self) -> bool
        ensures { result ≡ nat_lt most_told self.now.count }
    {
        self.count > MOST_TOLD
    }

    /// The lines, with an end between them. Its only error is want of memory.
    pub fn end(self) -> Result<Vec<u8>, OutOfMemory> {
        let Told {
            alloc,
            lines,
            count,
        } = self;
        let mut out = Draft::new(alloc);
        let mut is_first = true;
        for (_place, line) in lines.iter() {
            if !is_first {
                out.put(b"\n");
            }
            out.put(line.as_slice());
            is_first = false;
        }
        if count > MOST_TOLD {
            out.put(b"\nfurther faults aren't told");
        }
        drop(lines);
        out.end()
    }
}

/// Lines with the name of a file before each but the first.
pub fn named(alloc: Global, file: &str, lines: &[u8]) -> Result<Vec<u8>, OutOfMemory> {
    let mut out = Draft::new(alloc);
    for byte in lines {
        out.put_byte(*byte);
        if *byte == b'\n' {
            out.put(file.as_bytes());
            out.put(b": ");
        }
    }
    out.end()
}
