//! What was counted. A count stays at its greatest value.
ghost use Rattle.std.specs.Prelude.{◌≡◌, ◌++◌};
ghost use Rattle.std.specs.List.{flat_map};
ghost use Rattle.agent_log.specs.Counts.{one_more, entry_text, calls_text, messages_text, losses_text, counts_text};

use mg_bytes::Draft;

/// What was counted of calls and of messages.
#[derive(Clone, Copy)]
pub struct Tally {
    /// Calls to a free line.
    pub calls: u64,
    /// Of these, those whose ends were connected to each other.
    pub set_up: u64,
    /// Those that ended before that, since an end hung up.
    pub abandoned: u64,
    /// Those that ended before that, since nobody answered, or the ends couldn't be connected.
    pub failed: u64,
    /// Calls to a line that wasn't free.
    pub busy: u64,
    /// Calls to no line, or to no number in time.
    pub wrong_number: u64,
    /// Datagrams that came, and those of them that came from no gateway.
    pub datagrams_in: u64,
    pub strange: u64,
    /// Datagrams that were sent, and those of them that were sent again.
    pub datagrams_out: u64,
    pub again: u64,
    /// Commands that were issued, answered, and given up.
    pub commands: u64,
    pub answered: u64,
    pub given_up: u64,
    /// Notifications that were taken, each once, and announcements that came.
    pub notifications: u64,
    pub announcements: u64,
    /// Commands that came under a name that their gateway doesn't have.
    pub strange_names: u64,
    /// What the bad network lost, copied, and kept back.
    pub lost: u64,
    pub copied: u64,
    pub late: u64,
    /// How often something failed: for want of memory, in receiving, and in sending.
    pub refused: u64,
    pub receive_faults: u64,
    pub send_faults: u64,
}

/// One more.
pub fn count(number: &mut u64)
    ensures { number.new ≡ one_more number.old }
{
    *number = number.saturating_add(1);
}

// Numbers, each with what stands before it.
fn put_entries(out: &mut Draft, entries: &[(&str, u64)])
    ensures { out.new ≡ out.old ++ flat_map entry_text entries.now }
{
    for (before, number) in entries {
        out.put(before.as_bytes());
        out.put_decimal(*number);
    }
}

impl Tally {
    /// Nothing was counted.
    pub const NOTHING: Tally = Tally {
        calls: 0,
        set_up: 0,
        abandoned: 0,
        failed: 0,
        busy: 0,
        wrong_number: 0,
        datagrams_in: 0,
        strange: 0,
        datagrams_out: 0,
        again: 0,
        commands: 0,
        answered: 0,
        given_up: 0,
        notifications: 0,
        announcements: 0,
        strange_names: 0,
        lost: 0,
        copied: 0,
        late: 0,
        refused: 0,
        receive_faults: 0,
        send_faults: 0,
    };

    #[tactic(auto, unfolding(crate::specs::Counts::calls_text))]
    fn put_calls(&self, out: &mut Draft)
        ensures { out.new ≡ out.old ++ calls_text self.now }
    {
        let entries = [
            ("calls ", self.calls),
            (" set up ", self.set_up),
            (" abandoned ", self.abandoned),
            (" failed ", self.failed),
            (" busy ", self.busy),
            (" wrong number ", self.wrong_number),
        ];
        put_entries(out, &entries);
    }

    #[tactic(auto, unfolding(crate::specs::Counts::messages_text))]
    fn put_messages(&self, out: &mut Draft)
        ensures { out.new ≡ out.old ++ messages_text self.now }
    {
        let entries = [
            ("\ndatagrams in ", self.datagrams_in),
            (" strange ", self.strange),
            (" out ", self.datagrams_out),
            (" again ", self.again),
            ("\ncommands ", self.commands),
            (" answered ", self.answered),
            (" given up ", self.given_up),
            ("\nnotifications ", self.notifications),
            (" announcements ", self.announcements),
            (" strange ", self.strange_names),
        ];
        put_entries(out, &entries);
    }

    #[tactic(auto, unfolding(crate::specs::Counts::losses_text))]
    fn put_losses(&self, out: &mut Draft)
        ensures { out.new ≡ out.old ++ losses_text self.now }
    {
        let entries = [
            ("\nnetwork lost ", self.lost),
            (" copied ", self.copied),
            (" late ", self.late),
            ("\nfaults memory ", self.refused),
            (" receive ", self.receive_faults),
            (" send ", self.send_faults),
        ];
        put_entries(out, &entries);
    }

    /// Puts the counts as text, one kind a line.
    pub fn put_text(&self, out: &mut Draft)
        ensures { out.new ≡ out.old ++ counts_text self.now }
    {
        self.put_calls(out);
        self.put_messages(out);
        self.put_losses(out);
        out.put(b"\n");
    }
}
