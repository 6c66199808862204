//! Behind what an address stands.
ghost use Rattle.std.specs.Prelude.{◌≡◌};
ghost use Rattle.live_system.specs.AddressWords.{word_text};

/// Behind what an address stands: a word of a command line, or a key of a configuration.
#[derive(Clone, Copy)]
pub enum AddressWord {
    Listen,
    Phones,
    Http,
    Tell,
    Control,
    /// The key of a call agent's configuration.
    OwnKey,
}

impl AddressWord {
    /// How it is told.
    #[tactic(auto, unfolding(crate::specs::AddressWords::word_text))]
    pub fn text(self) -> &'static str
        ensures { result.now ≡ word_text self }
    {
        match self {
            AddressWord::Listen => "--listen",
            AddressWord::Phones => "--phones",
            AddressWord::Http => "--http",
            AddressWord::Tell => "--tell",
            AddressWord::Control => "--control",
            AddressWord::OwnKey => "own",
        }
    }
}
