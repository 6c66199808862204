//! What was counted.
ghost use Rattle.std.specs.Prelude.{◌≡◌};
ghost use Rattle.page_state.specs.Verbs.{verb_word as word_of_verb};

/// How many commands of a verb came.
#[derive(Clone, Copy)]
pub struct VerbCount {
    /// The verb's place: EPCF, RQNT, NTFY, CRCX, MDCX, DLCX, AUEP, AUCX and RSIP are 0 to 8; what is more is any other.
    pub verb: u8,
    pub number: u64,
}

/// How many answers with a code went out.
#[derive(Clone, Copy)]
pub struct CodeCount {
    pub code: u16,
    pub number: u64,
}

/// How often a file couldn't be written, or a stream, which has its name here.
#[derive(Drop)]
pub struct FileCount {
    pub file: Vec<u8>,
    pub number: u64,
}

/// So many places sends are counted by: those of an agent's addresses, and one for all others.
pub const PLACES: usize = 5;

/// What was counted since the start, and how much is held now.
#[derive(Drop)]
pub struct Counts {
    pub datagrams_in: u64,
    pub datagrams_out: u64,
    /// Commands that came, by verb.
    pub commands: Vec<VerbCount>,
    /// Responses that came.
    pub responses: u64,
    /// Texts that came and are no message.
    pub unreadable: u64,
    /// Responses that were sent, by code.
    pub answers: Vec<CodeCount>,
    /// Of these, those that were sent before.
    pub answers_again: u64,
    pub notifications: u64,
    pub notifications_again: u64,
    pub announcements: u64,
    pub announcements_again: u64,
    /// Commands of its own that nobody answered: those of the gateway itself, and those of its lines.
    pub given_up_by_gateway: u64,
    pub given_up_by_lines: u64,
    /// Sends of commands of its own, by the place of their receiver among the addresses of its agent; the last are those to others.
    pub sends: [u64; PLACES],
    /// Inputs that the gateway refused.
    pub refused: u64,
    /// Datagrams of who may not speak.
    pub strangers: u64,
    /// Commands that found no room among those that are remembered.
    pub lost_commands: u64,
    pub receive_faults: u64,
    pub send_faults: u64,
    /// Lines of the log that found no room.
    pub dropped_lines: u64,
    /// Of each file and stream that something is recorded into.
    pub write_faults: Vec<FileCount>,
    /// Transactions that are held now.
    pub transactions: u64,
}

/// The word of the verb at a place (RFC 3435, 3.2.1.1).
#[tactic(auto, unfolding(crate::specs::Verbs::verb_word))]
pub fn verb_word(place: u8) -> &'static str
    ensures { result.now ≡ word_of_verb place }
{
    match place {
        0 => "EPCF",
        1 => "RQNT",
        2 => "NTFY",
        3 => "CRCX",
        4 => "MDCX",
        5 => "DLCX",
        6 => "AUEP",
        7 => "AUCX",
        8 => "RSIP",
        _ => "other",
    }
}
