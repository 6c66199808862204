//! The files of a capture that is parted: `calls.pcap.7`, of which so many are kept.
ghost use Rattle.std.specs.Prelude.{◌≡◌};
ghost use Rattle.output_queues.specs.Backlog.{sum_within};
ghost use Rattle.live_system.specs.Parting.{number_behind, is_old, is_full};

use mg_bytes::decimal;
use output_queues::{Outlet, make_for_owner};
use std::alloc::{AllocError, Global};
use std::fs::{read_dir, remove_file};
use std::io::ErrorKind;
use std::rt::Files;

/// How a capture is parted.
#[derive(Clone, Copy)]
pub struct Parting {
    /// So many bytes a file has at most, unless one turn puts more.
    pub size: u64,
    /// So many files are kept.
    pub files: u64,
}

/// The files of a capture that is parted.
pub struct CaptureFiles {
    alloc: Global,
    // What their names begin with.
    name: String,
    parting: Parting,
    // The number of the file that is written, and how many bytes were put into it.
    number: u64,
    written: u64,
}

// Written out: a derived drop, and those of all its parts, are proved anew by each crate that lets one go.
impl Drop for CaptureFiles {
    fn drop(self) {
        let CaptureFiles {
            alloc: _,
            name,
            parting: _,
            number: _,
            written: _,
        } = self;
        drop(name);
    }
}

// The number that a file's name has behind this one, if it has one.
fn number_behind(name: &[u8], found: &[u8]) -> Option<u64>
    ensures { result ≡ number_behind name.now found.now }
{
    let rest = found.strip_prefix(name)?;
    decimal(rest.strip_prefix(b".".as_slice())?)
}

// Whether the file with this number goes, where so many are kept and that one begins.
fn is_old(files: u64, number: u64, next: u64) -> bool
    ensures { result ≡ is_old files number next }
{
    number.saturating_add(files) <= next
}

// Notes the number that a file's name has behind this one, if it has one, and gives whether memory was there for it.
fn note_number(numbers: &mut Vec<u64>, name: &str, found: &str) -> bool {
    match number_behind(name.as_bytes(), found.as_bytes()) {
        Some(number) => numbers.push(number).is_ok(),
        None => true,
    }
}

// The numbers of the files of this name. An error is of the system's kind.
fn numbers_of<R: Files + Alloc + Clone + Drop>(
    rt: &R,
    alloc: Global,
    file: &str,
) -> Result<Vec<u64>, ErrorKind> {
    let (before, name) = match file.rsplit_once('/') {
        Some(sides) => sides,
        None => (".", file),
    };
    // Nothing stands before the name of a file of the root.
    let folder = if before.is_empty() { "/" } else { before };
    let entries = match read_dir(rt, folder) {
        Ok(entries) => entries,
        Err(fault) => return Err(fault.kind()),
    };
    let mut numbers = Vec::new(alloc);
    for entry in entries {
        let is_noted = match entry {
            Ok(entry) => note_number(&mut numbers, name, entry.file_name()),
            // A name that is no text is no capture's.
            Err(_) => true,
        };
        if !is_noted {
            return Err(ErrorKind::OutOfMemory);
        }
    }
    Ok(numbers)
}

impl CaptureFiles {
    /// The files of this name: what is there already is older than what will be. Its errors are want of memory, and that the folder
    /// can't be read, for this kind.
    pub fn find<R: Files + Alloc + Clone + Drop>(
        rt: &R,
        alloc: Global,
        name: &str,
        parting: Parting,
    ) -> Result<CaptureFiles, ErrorKind> {
        let numbers = match numbers_of(rt, alloc, name) {
            Ok(numbers) => numbers,
            Err(kind) => return Err(kind),
        };
        let greatest = numbers.as_slice().iter().copied().max().unwrap_or(0);
        let Ok(copy) = String::from_str(alloc, name) else {
            return Err(ErrorKind::OutOfMemory);
        };
        let files = CaptureFiles {
            alloc,
            name: copy,
            parting,
            number: greatest,
            written: 0,
        };
        files.clear(rt, numbers.as_slice());
        Ok(files)
    }

    // The name of the file with this number.
    fn numbered(&self, number: u64) -> Result<String, AllocError> {
        let name = self.name.as_str();
        format!(in self.alloc; "{name}.{number}")
    }

    // Files that are old when the next begins go; one that can't be removed stays.
    fn clear<R: Files>(&self, rt: &R, numbers: &[u64]) {
        let next = self.number.saturating_add(1);
        for number in numbers {
            if is_old(self.parting.files, *number, next) {
                self.remove(rt, *number);
            }
        }
    }

    // The file with this number goes, if it is there.
    fn remove<R: Files>(&self, rt: &R, number: u64) {
        if let Ok(name) = self.numbered(number) {
            let _ = remove_file(rt, name.as_str());
        }
    }

    /// The name of the file that is written. Its only error is want of memory.
    pub fn file(&self) -> Result<String, AllocError> {
        self.numbered(self.number)
    }

    /// Whether the file that is written is full where so many bytes more come: then they belong into the next.
    pub fn is_full(&self, more: usize) -> bool
        ensures { result ≡ is_full self.now.parting.size self.now.written more }
    {
        self.written > 0 && self.written.saturating_add(more as u64) > self.parting.size
    }

    /// So many bytes are put into the file that is written.
    pub fn put(&mut self, more: usize)
        ensures written { self.new.written ≡ sum_within self.old.written more }
        ensures rest { self.new ≡ record self.old { written = self.new.written } }
    {
        self.written = self.written.saturating_add(more as u64);
    }

    /// The outlet of the next file, which is made for its owner alone; the oldest goes. After an error, of the system's kind, the next file
    /// has the next number none the less.
    pub fn next<R: Files>(&mut self, rt: &R) -> Result<Box<Outlet<R::File>>, ErrorKind> {
        self.number = self.number.saturating_add(1);
        self.written = 0;
        let Ok(name) = self.file() else {
            return Err(ErrorKind::OutOfMemory);
        };
        let stream = match make_for_owner(rt, name.as_str()) {
            Ok(stream) => stream,
            Err(fault) => return Err(fault.kind()),
        };
        if self.number >= self.parting.files {
            self.remove(rt, self.number - self.parting.files);
        }
        match Outlet::new(self.alloc, name.as_str(), stream) {
            Ok(outlet) => Ok(outlet),
            Err(_) => Err(ErrorKind::OutOfMemory),
        }
    }
}
