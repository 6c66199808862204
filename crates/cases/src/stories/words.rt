//! The words that a program is called with in a story, as its own reader is given them.
use mg_bytes::OutOfMemory;
use output_queues::{Outlet, Stream};
use scenario_files::parted;
use std::alloc::Global;
use std::io::{self, Write};

/// Which words are wrong is said, and nobody reads that: of `rgwd` no story has such words, and one of `rgca` tells how it ends.
#[derive(Drop)]
pub struct Unread;

impl Write for Unread {
    fn write(&mut self, buf: &[u8]) -> io::Result<usize> {
        Ok(buf.len())
    }

    fn flush(&mut self) -> io::Result<()> {
        Ok(())
    }
}

/// Where it is said which words are wrong.
pub fn unread_outlet(alloc: Global) -> Result<Box<Outlet<Unread>>, OutOfMemory> {
    Outlet::new(alloc, "standard error", Stream::over(Unread))
}

// Puts a word, with what stands behind it.
fn put_word(alloc: Global, line: &mut Vec<String>, word: &str) -> Result<(), OutOfMemory> {
    let (name, value) = parted(word, " ");
    line.push(name.to_string(alloc)?)?;
    if !value.is_empty() {
        line.push(value.to_string(alloc)?)?;
    }
    Ok(())
}

/// The command line with these words: the name of a program, or of a part of one, the file of its configuration, and they.
pub fn line_of(
    alloc: Global,
    name: &str,
    config: &str,
    words: &[String],
) -> Result<Vec<String>, OutOfMemory> {
    let mut line = Vec::new(alloc);
    put_word(alloc, &mut line, name)?;
    put_word(alloc, &mut line, config)?;
    for word in words {
        put_word(alloc, &mut line, word.as_str())?;
    }
    Ok(line)
}
