//! The capture of a gateway: each datagram that comes or is sent, as tshark and Wireshark read it.
ghost use Rattle.std.specs.Prelude.{◌≡◌, ◌++◌, [], IfOk, IfSome, IfNone, is_some};
ghost use Rattle.log_format.specs.File.{file_head};
ghost use Rattle.live_journal.specs.Recording.{Begins};
ghost use Rattle.live_journal.specs.Capturing.{BeginsFile, Captures};

use log_format::{Packet, put_head, put_packet};
use mg_bytes::{OutOfMemory, Text};
use output_queues::Record;
use std::alloc::Global;
use std::net::SocketAddrV4;

/// The capture of a gateway's datagrams.
pub struct Capture {
    alloc: Global,
    // The address of the gateway's socket.
    pub(crate) here: SocketAddrV4,
    /// The name of its file; empty where there is none.
    pub name: Text,
    pub record: Record,
}

// Written out: a derived drop, and those of all its parts, are proved anew by each crate that lets one go.
impl Drop for Capture {
    fn drop(self) {
        let Capture {
            alloc: _,
            here: _,
            name,
            record,
        } = self;
        drop(name);
        drop(record);
    }
}

// The head of a file, and these bytes.
fn headed(alloc: Global, bytes: &[u8]) -> Result<Vec<u8>, OutOfMemory>
    ensures { IfOk result (λ out. out.items ≡ file_head ++ bytes.now) }
{
    let mut out = Vec::new(alloc);
    put_head(&mut out)?;
    out.extend_from_slice(bytes)?;
    Ok(out)
}

// What is captured begins with the head of a file, if it is asked for.
#[tactic(auto, using(told_messages::proofs::RecordLemmas::putting))]
fn begun(alloc: Global, is_on: bool) -> Record
    ensures { Begins is_on file_head result }
{
    let mut record = Record::new(alloc, is_on);
    if !is_on {
        return record;
    }
    match put_head(&mut record.out) {
        Ok(()) => {}
        Err(_) => record.refuse(),
    }
    record
}

impl Capture {
    /// A capture that has its head, for the file of this name, if it is asked for.
    pub fn new(
        alloc: Global,
        file: Option<&str>,
        here: SocketAddrV4,
    ) -> Result<Capture, OutOfMemory>
        ensures head { IfOk result (λ capture. Begins (is_some file.entry) file_head capture.record) }
        ensures here { IfOk result (λ capture. capture.here ≡ here) }
        ensures named { IfOk result (λ made. IfSome file.entry (λ name. made.name ≡ name.now) × IfNone file.entry (made.name ≡ [])) }
    {
        let name = file.unwrap_or("").as_bytes();
        Ok(Capture {
            alloc,
            here,
            name: Text::of(Vec::from_slice(alloc, name)?),
            record: begun(alloc, file.is_some()),
        })
    }

    /// What is put stands in another file from now on, which begins with a head of its own.
    #[tactic(auto, using(crate::proofs::CaptureLemmas::heading))]
    pub fn begin_file(&mut self)
        ensures head { BeginsFile self.old.record.state self.old.record.out.items self.new.record.state self.new.record.out.items }
        ensures rest { self.new ≡ record self.old { «record» = self.new.record } }
    {
        if !self.record.is_on() {
            return;
        }
        match headed(self.alloc, self.record.out.as_slice()) {
            Ok(out) => self.record.out = out,
            Err(_) => self.record.refuse(),
        }
    }

    /// A datagram goes from one to the other at this moment, in microseconds since 1970.
    #[tactic(auto, using(told_messages::proofs::RecordLemmas::putting))]
    pub(crate) fn pass(&mut self, moment: u64, from: SocketAddrV4, to: SocketAddrV4, bytes: &[u8])
        ensures { Captures self.old (record { moment = moment; from = from; to = to; bytes = bytes.now }) self.new }
    {
        if !self.record.is_on() {
            return;
        }
        let packet = Packet {
            moment,
            from,
            to,
            bytes,
        };
        match put_packet(self.alloc, &mut self.record.out, &packet) {
            Ok(()) => {}
            Err(_) => self.record.refuse(),
        }
    }
}
