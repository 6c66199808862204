//! What became of what was recorded.
ghost use Rattle.std.specs.Prelude.{◌≡◌, ◌++◌, OnOk};
ghost use Rattle.output_queues.specs.Written.{name_text, numbers_text, names_text, faults_in, written_line};

use log_format::write_shown;
use mg_bytes::{Draft, OutOfMemory};
use std::alloc::Global;

/// What became of what was recorded: how many lines weren't kept, and how often it failed to be written, by where that is.
#[derive(Clone, Copy)]
pub struct Written {
    pub dropped: u64,
    pub output: u64,
    pub error: u64,
    pub capture: u64,
}

// Puts a name, behind a blank, where that failed.
#[tactic(auto, unfolding(crate::specs::Written::name_text))]
fn put_name(out: &mut Draft, faults: u64, name: &[u8])
    ensures { out.new ≡ out.old ++ name_text faults name.now }
{
    if faults > 0 {
        out.put_byte(b' ');
        write_shown(out, name);
    }
}

// How many lines weren't kept, and how many write faults there were.
fn put_numbers(out: &mut Draft, dropped: u64, faults: u64)
    ensures { out.new ≡ out.old ++ numbers_text dropped faults }
{
    out.put(b"records dropped ");
    out.put_decimal(dropped);
    out.put(b" write faults ");
    out.put_decimal(faults);
}

// Where they were.
fn put_names(out: &mut Draft, written: Written, capture: &[u8])
    ensures { out.new ≡ out.old ++ names_text written capture.now }
{
    put_name(out, written.output, b"standard output");
    put_name(out, written.error, b"standard error");
    put_name(out, written.capture, capture);
}

impl Written {
    /// All was kept and written.
    pub const ALL: Written = Written {
        dropped: 0,
        output: 0,
        error: 0,
        capture: 0,
    };

    /// How many write faults there were.
    pub fn faults(self) -> u64
        ensures { result ≡ faults_in self }
    {
        self.output
            .saturating_add(self.error)
            .saturating_add(self.capture)
    }

    /// Puts it as a line, where the capture's file has this name: `records dropped 12 write faults 1 calls.pcap`. Its only error is want
    /// of memory.
    #[tactic(auto, unfolding(crate::specs::Written::written_line))]
    pub fn put_line(
        self,
        alloc: Global,
        out: &mut Vec<u8>,
        capture: &[u8],
    ) -> Result<(), OutOfMemory>
        ensures { OnOk result (out.new.items ≡ out.old.items ++ written_line self capture.now) }
    {
        let mut line = Draft::new(alloc);
        put_numbers(&mut line, self.dropped, self.faults());
        put_names(&mut line, self, capture);
        line.put(b"\n");
        line.append_to(out)
    }
}
