//! A trace that is kept whole, in memory.
ghost use Rattle.std.specs.Prelude.{◌≡◌, [], Some};
ghost use Rattle.live_play.specs.Keeping.{kept_text};

use live_io::Teller;
use std::alloc::Global;

/// A trace of which all is kept, until memory is refused.
#[derive(Drop)]
pub struct TraceText {
    /// What it was told.
    pub text: Vec<u8>,
    is_whole: bool,
}

impl TraceText {
    /// One that was told nothing.
    pub fn new(alloc: Global) -> TraceText
        ensures { kept_text result ≡ Some [] }
    {
        TraceText {
            text: Vec::new(alloc),
            is_whole: true,
        }
    }
}

impl Teller for TraceText {
    ghost use Rattle.live_play.specs.Keeping.{kept_text};

    ghost told = { kept_text };

    fn is_telling(&self) -> bool {
        self.is_whole
    }

    fn tell(&mut self, text: &[u8]) {
        if self.is_whole && self.text.extend_from_slice(text).is_err() {
            self.is_whole = false;
        }
    }

    fn break_off(&mut self) {
        self.is_whole = false;
    }
}
