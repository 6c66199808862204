//! What a line is when it is shown.
use arrayvec::ArrayVec;
use connections::Connection;
use events_and_signals::ActiveSignal;
use mg_line::Hook;
use std::marker::Model;

/// What a line is, as the gateway's readers tell it. A contract sees its lists.
#[derive(Drop)]
pub struct LineStatus<'a> {
    pub line: u16,
    pub hook: Hook,
    pub signals: ArrayVec<ActiveSignal, 9>,
    /// What its places hold.
    pub connections: &'a [Option<Connection>],
    /// How many events found no room.
    pub lost: u64,
}

impl<'a> Model for LineStatus<'a> {
    ghost use Rattle.rgw_scripts.specs.Status.{LineStatus};

    ghost Value = { LineStatus };

    ghost view = { λ s. record {
      line = s.line;
      hook = s.hook;
      signals = s.signals.items;
      connections = s.connections.now;
      lost = s.lost;
    } };
}
