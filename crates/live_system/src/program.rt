//! How a program begins and ends, whichever it is: its words, its outlets, the file of its capture, and what it says at last.
ghost use Rattle.std.specs.Prelude.{◌≡◌, ◌⊎◌};
ghost use Rattle.live_system.specs.Ending.{status_of};

use crate::ending::CommonEnding;
use crate::standing::hold_standard;
use mg_bytes::OutOfMemory;
use output_queues::{Outlet, Outlets, Stream, make_for_owner};
use std::alloc::Global;
use std::env;
use std::io::{ErrorKind, Write};
use std::os::fd::AsRawFd;
use std::rt::{Clock, Env, Files};

/// What is said where memory is refused.
pub const OUT_OF_MEMORY: &[u8] = b"out of memory\n";

/// What a program has where it begins.
pub struct Begun<F> {
    /// Its words, of which the first is its name, or how it ends without them.
    pub words: Result<Vec<String>, CommonEnding>,
    pub outlets: Outlets<F>,
    /// What stands at the numbers of standard streams that weren't open, to be kept to the end.
    pub held: Vec<F>,
}

// Written out: a derived drop, and those of all its parts, are proved anew by each crate that lets one go.
impl<F: Drop> Drop for Begun<F> {
    fn drop(self) {
        let Begun {
            words,
            outlets,
            held,
        } = self;
        drop(words);
        drop(outlets);
        drop(held);
    }
}

impl<F> Begun<F> {
    /// Its words, its outlets, and what is to be kept to the end.
    pub fn parts(self) -> (Result<Vec<String>, CommonEnding>, Outlets<F>, Vec<F>)
        ensures { result ≡ (self.words, self.outlets, self.held) }
    {
        let Begun {
            words,
            outlets,
            held,
        } = self;
        (words, outlets, held)
    }
}

/// Begins a program, and first of all holds the numbers of its standard streams. `None` where memory is refused for its outlets, and
/// then that is said.
pub fn begin<R: AllocGlobal + Env + Files>(rt: &R) -> Option<Begun<R::File>>
where
    R::File: AsRawFd,
{
    let held = hold_standard(rt, rt.alloc());
    let Ok(outlets) = Outlets::open(rt, rt.alloc()) else {
        let _ = Stream::error(rt).take(OUT_OF_MEMORY);
        return None;
    };
    let words = match env::args(rt) {
        Ok(args) => match args.collect::<Vec<String>>(rt.alloc()) {
            Ok(words) => Ok(words),
            Err(_) => Err(CommonEnding::OutOfMemory),
        },
        Err(fault) => Err(CommonEnding::wordless(fault.kind())),
    };
    Some(Begun {
        words,
        outlets,
        held,
    })
}

/// The outlet of a capture, whose file isn't there yet, if one is asked for. To be opened once all sockets are had: so none is left where
/// a program doesn't start. An error is of the system's kind.
pub fn open_capture<R: Files>(
    rt: &R,
    alloc: Global,
    file: Option<&str>,
) -> Result<Option<Box<Outlet<R::File>>>, ErrorKind> {
    let Some(file) = file else {
        return Ok(None);
    };
    match make_for_owner(rt, file) {
        Ok(stream) => match Outlet::new(alloc, file, stream) {
            Ok(outlet) => Ok(Some(outlet)),
            Err(_) => Err(ErrorKind::OutOfMemory),
        },
        Err(fault) => Err(fault.kind()),
    }
}

/// Says how a program ends, on standard output where its words ask for just that, else on standard error, and offers what waits for a
/// second: whether standard output took all.
pub fn say_last<R: Clock, F: Write + Drop>(
    rt: &R,
    outlets: &mut Outlets<F>,
    text: &[u8],
    is_asked: bool,
) -> bool {
    if is_asked {
        outlets.output.say(text);
        outlets.finish(rt, b"", 0);
    } else {
        outlets.finish(rt, text, 0);
    }
    outlets.output.is_open()
}

/// Says how a program ends (`say_last`), and gives its status: this one, or that of a fault where what its words ask isn't taken. Where
/// memory was refused for the text, that is said.
pub fn end<R: Clock, F: Write + Drop>(
    rt: &R,
    outlets: &mut Outlets<F>,
    text: Result<Vec<u8>, OutOfMemory>,
    status: u8,
    is_asked: bool,
) -> u8
    ensures { (result ≡ status) ⊎ (result ≡ status_of CommonEnding.Write) }
{
    let is_taken = match &text {
        Ok(text) => say_last(rt, outlets, text.as_slice(), is_asked),
        Err(_) => say_last(rt, outlets, OUT_OF_MEMORY, is_asked),
    };
    if is_taken {
        status
    } else {
        CommonEnding::Write.status()
    }
}
