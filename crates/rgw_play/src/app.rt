//! The program: reads its words, does what they ask, and says how it ended.
ghost use Rattle.std.specs.Prelude.{◌≡◌, ◌≢◌, IfErr, Err};
ghost use Rattle.rgw_play.specs.Ending.{Ends, Simulates, Carries};

use crate::ending::Ending;
use crate::session::{carry, play};
use crate::words::{Task, WordFault, read_words};
use gateway_core::WireFault;
use rgw_scripts::{LinkFault, PlayFault};
use std::alloc::Global;
use std::io::{ErrorKind, Read, Write};
use std::net::Net;
use std::rt::Env;
use std::{env, io};

// The program's words, of which the first is its name.
fn words_of<R: AllocGlobal + Env>(rt: &R) -> Result<Vec<String>, WordFault> {
    match env::args(rt) {
        Ok(args) => match args.collect::<Vec<String>>(rt.alloc()) {
            Ok(words) => Ok(words),
            Err(_) => Err(WordFault::OutOfMemory),
        },
        Err(e) if e.kind() == ErrorKind::OutOfMemory => Err(WordFault::OutOfMemory),
        Err(_) => Err(WordFault::Usage),
    }
}

/// The task that words say, if they could be had.
pub fn asked(alloc: Global, words: Result<Vec<String>, WordFault>) -> Result<Task, WordFault>
    ensures { IfErr words (λ fault. result ≡ Err fault) }
{
    match words {
        Ok(words) => read_words(alloc, words.as_slice()),
        Err(fault) => Err(fault),
    }
}

/// Plays the input without a network.
pub fn simulate<R: Read, W: Write>(alloc: Global, reader: &mut R, writer: &mut W) -> Ending
    ensures ends { Simulates result (R.remaining reader.old) (W.contents writer.old)
        (W.contents writer.new) }
    // Where nothing is played and no write failed, nothing was written.
    ensures nothing_written { result ≢ Ending.Played → result ≢ Ending.Fault PlayFault.Write →
        writer.new ≡ writer.old }
{
    match play(alloc, reader, writer) {
        Ok(_) => Ending::Played,
        Err(fault) => Ending::Fault(fault),
    }
}

/// Plays the input over two sockets of this host, of which the gateway's has this port; 0 is any free one.
pub fn loopback<H: AllocGlobal + Net, R: Read, W: Write>(
    rt: &H,
    reader: &mut R,
    writer: &mut W,
    port: u16,
) -> Ending
    ensures ends { Carries result (R.remaining reader.old) (W.contents writer.old)
        (W.contents writer.new) }
    // Where nothing is played and no write failed, nothing was written.
    ensures nothing_written { result ≢ Ending.Played → result ≢ Ending.Fault PlayFault.Write →
        writer.new ≡ writer.old }
{
    match carry(rt, reader, writer, port) {
        Ok(_) => Ending::Played,
        Err(LinkFault::Play(fault)) => Ending::Fault(fault),
        Err(LinkFault::Link(WireFault)) => Ending::WireFault,
    }
}

/// Does what is asked.
pub fn perform<H: AllocGlobal + Net, R: Read, W: Write>(
    rt: &H,
    asked: Result<Task, WordFault>,
    reader: &mut R,
    writer: &mut W,
) -> Ending
    ensures ends { Ends asked result (R.remaining reader.old) (W.contents writer.old)
        (W.contents writer.new) }
    // Where nothing is played and no write failed, nothing was written.
    ensures nothing_written { result ≢ Ending.Played → result ≢ Ending.Fault PlayFault.Write →
        writer.new ≡ writer.old }
{
    match asked {
        Ok(Task::Simulate) => simulate(rt.alloc(), reader, writer),
        Ok(Task::Loopback { port }) => loopback(rt, reader, writer, port),
        Err(WordFault::Usage) => Ending::Usage,
        Err(WordFault::OutOfMemory) => Ending::Fault(PlayFault::OutOfMemory),
    }
}

/// Runs the program, says on standard error how it ended unless all went well, and gives its exit status.
pub fn run<R: AllocGlobal + Env + Input + Net + Print + Eprint>(rt: &R) -> u8 {
    let alloc = rt.alloc();
    let asked = asked(alloc, words_of(rt));
    let ending = perform(rt, asked, &mut rt.reader(), &mut io::writer(rt));
    // Nobody is left who could be told that standard error failed.
    let _ = eprint!(rt; "{ending}");
    ending.status()
}
