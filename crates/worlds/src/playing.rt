//! The wire.
ghost use Rattle.std.specs.Prelude.{◌≡◌, [], Some, true};

use crate::filling::fill;
use crate::keeping::{Kept, keep};
use crate::plan::Planned;
use gateway_core::{Input, Wire, WireFault};
use std::alloc::Global;
use std::net::SocketAddrV4;

/// A wire that plays a plan, behind which it fails at each turn, and keeps what is handed to it.
///
/// It tells all that it gave, and all that was handed to it for as long as there is memory to keep that.
#[derive(Drop)]
pub struct MemoryWire {
    alloc: Global,
    plan: Vec<Planned>,
    at: usize,
    /// What was handed to it.
    pub kept: Vec<Kept>,
    is_whole: bool,
    failing_send: u64,
    sends: u64,
    receive_faults: u64,
    send_faults: u64,
}

impl MemoryWire {
    ghost use Rattle.gateway_core.specs.Wire.{WireLog};
    ghost use Rattle.worlds.specs.Log.{log_of};

    /// A wire that nothing went over yet. The send with this number fails, counted from 1; at 0 none does.
    pub fn new(alloc: Global, plan: Vec<Planned>, failing_send: u64) -> MemoryWire
        ensures { log_of result ≡ record { given = Some []; handed = Some []; receive_faults = 0; send_faults = 0 } }
    {
        MemoryWire {
            alloc,
            plan,
            at: 0,
            kept: Vec::new(alloc),
            is_whole: true,
            failing_send,
            sends: 0,
            receive_faults: 0,
            send_faults: 0,
        }
    }
}

impl Wire for MemoryWire {
    ghost use Rattle.worlds.specs.Log.{log_of};

    ghost log = { log_of };

    fn next(&mut self, room: &mut [u8]) -> Result<Input, WireFault> {
        let Some(planned) = self.plan.get(self.at) else {
            self.receive_faults = self.receive_faults.saturating_add(1);
            return Err(WireFault);
        };
        self.at += 1;
        match planned {
            Planned::Datagram { source, bytes } => Ok(Input::Datagram {
                source: *source,
                len: fill(room, bytes.as_bytes()),
            }),
            Planned::Phone { line, act } => Ok(Input::Phone {
                line: *line,
                act: *act,
            }),
            Planned::Tick { moment } => Ok(Input::Tick { moment: *moment }),
            Planned::End => Ok(Input::End),
            Planned::Fault => {
                self.receive_faults = self.receive_faults.saturating_add(1);
                Err(WireFault)
            }
        }
    }

    fn send(&mut self, to: SocketAddrV4, bytes: &[u8]) -> Result<(), WireFault> {
        if keep(self.alloc, &mut self.kept, to, bytes).is_err() {
            self.is_whole = false;
        }
        self.sends = self.sends.saturating_add(1);
        if self.sends == self.failing_send {
            self.send_faults = self.send_faults.saturating_add(1);
            return Err(WireFault);
        }
        Ok(())
    }
}
