//! What a trace is told.
ghost use Rattle.std.specs.Prelude.{◌≡◌, false, None};
ghost use Rattle.live_io.specs.Sending.{Grows};

/// What a trace is told.
pub trait Teller {
    ghost use Rattle.std.specs.Prelude.{ℕ, List, Option};

    /// All that it was told, where it tells: nothing once the trace is broken off, or where there is none.
    ghost told: { Self → Option (List ℕ) };

    /// Whether it wants to be told more.
    fn is_telling(&self) -> bool
        ensures { result ≡ false → told self.now ≡ None };

    /// It is told this, or broken off.
    fn tell(&mut self, text: &[u8])
        ensures { Grows (told self.old) text.now (told self.new) };

    /// It is broken off: memory was refused.
    fn break_off(&mut self)
        ensures { told self.new ≡ None };
}
