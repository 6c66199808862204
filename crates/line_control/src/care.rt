//! What is kept of a line beside what the exchange knows: which command is next, and what the one in flight is for.
ghost use Rattle.std.specs.Prelude.{◌≡◌, option_map};
ghost use Rattle.line_control.specs.Duties.{is_held, begun, owed_behind, owed, lost, announced, held_from, woken, is_put_off, duty_answered, duty_behind, routed_by, changed_by, fixed_order};

use agent_log::{Refusals, Standing};
use call_processing::{Cause, MOST_PUT_OFF, PutOff, may_pass};

/// A command that was put off is sent again so long behind its answer, in ms.
const AGAIN_AFTER: u64 = 1000;

/// What a command to a line is for.
#[derive(Clone, Copy)]
pub(crate) enum Duty {
    /// Connections of an earlier run are to end: DLCX.
    Clear,
    /// The line's hook is to be known: AUEP. Nothing else tells it at the start, and after a notification was given up.
    Audit,
    /// The exchange says which command.
    Route,
}

/// How a line stands, and what it refuses for good.
#[derive(Clone, Copy)]
pub(crate) struct Shown {
    pub(crate) standing: Standing,
    pub(crate) refusals: Refusals,
}

/// What is kept of a line.
#[derive(Clone, Copy)]
pub(crate) struct Care {
    // What is next, and what the command in flight is for, if one is.
    pub(crate) next: Duty,
    pub(crate) flight: Option<Duty>,
    // Whether the gateway has started again since that was issued: what it is answered may be of before, and isn't believed.
    pub(crate) is_outlived: bool,
    // Whether the line has told something since it was audited.
    pub(crate) has_told: bool,
    // Whether an audit told that its handset was lifted, and it has told nothing since.
    pub(crate) is_found_off: bool,
    // How often in a row a duty beside the exchange was put off.
    pub(crate) put_off: u8,
    // The moment at which the command is sent again that was put off, in ms; until then none is sent.
    pub(crate) again: Option<u64>,
    // How it stood, and what it refused, when that was told last.
    pub(crate) shown: Shown,
}

/// What happens to what is kept of a line.
#[derive(Clone, Copy)]
pub(crate) enum Change {
    /// What is next is in flight from now on, where nothing holds the line.
    Begin,
    /// No command is in flight any more.
    Land,
    /// The command in flight was given up: what that was for is owed again where the exchange doesn't know of it.
    Lose,
    /// The line has told something.
    Tell,
    /// Its hook is to be asked for next.
    OweAudit,
    /// It is announced: it has started again, or lost its agent.
    Announce { is_restart: bool },
    /// An audit has found its handset lifted, or not.
    Find { is_off: bool },
    /// How it stands was told, and what it refuses.
    Show { shown: Shown },
    /// A duty beside the exchange was answered by this code at this moment, in ms: it is put off, or over.
    Answer { moment: u64, code: u16, duty: Duty },
    /// A command of the exchange's was answered at this moment, and put off so, if it was.
    Routed { moment: u64, off: Option<PutOff> },
    /// At this moment what was put off is sent again, if it was to be.
    Wake { moment: u64 },
}

/// A line of which nothing is known.
pub(crate) const NEW_CARE: Care = Care {
    next: Duty::Clear,
    flight: None,
    is_outlived: false,
    has_told: false,
    is_found_off: false,
    put_off: 0,
    again: None,
    shown: Shown {
        standing: Standing::Rest,
        refusals: Refusals::NOTHING,
    },
};

fn owed_behind(next: Duty, duty: Duty) -> Duty
    ensures { result ≡ owed_behind next duty }
{
    match next {
        Duty::Clear => Duty::Clear,
        Duty::Audit => duty,
        Duty::Route => duty,
    }
}

// What comes before a command that was put off so, if anything does.
fn duty_behind(off: PutOff) -> Option<Duty>
    ensures { result ≡ duty_behind off }
{
    if off.times == MOST_PUT_OFF {
        // It may be put off no more.
        match off.cause {
            Cause::Hook | Cause::Request => Some(Duty::Audit),
            Cause::Connection => Some(Duty::Clear),
        }
    } else if off.times == 1 {
        match off.cause {
            Cause::Hook => Some(Duty::Audit),
            Cause::Request | Cause::Connection => None,
        }
    } else {
        None
    }
}

/// The command that a duty is, by its verb and what stands behind its line; none where the exchange says which.
pub(crate) fn fixed_order(duty: Duty) -> Option<(&'static [u8], &'static [u8])>
    ensures { option_map (λ order. (order.0.now, order.1.now)) result ≡ fixed_order duty }
{
    match duty {
        Duty::Clear => Some((b"DLCX".as_slice(), b"".as_slice())),
        Duty::Audit => Some((b"AUEP".as_slice(), b"F: ES\r\n".as_slice())),
        Duty::Route => None,
    }
}

impl Care {
    /// Whether nothing is to be sent: a command is in flight, or one that was put off isn't due yet.
    pub(crate) fn is_held(&self) -> bool
        ensures { result ≡ is_held self.now }
    {
        self.flight.is_some() || self.again.is_some()
    }

    // What is next is in flight from now on, where nothing holds the line.
    fn begin(&mut self)
        ensures { self.new ≡ begun self.old }
    {
        if self.is_held() {
            return;
        }
        let duty = self.next;
        self.flight = Some(duty);
        self.is_outlived = false;
        match duty {
            Duty::Clear => self.next = Duty::Audit,
            Duty::Audit => {
                // It counts what the line tells from now on.
                self.has_told = false;
                self.next = Duty::Route;
            }
            Duty::Route => self.next = Duty::Route,
        }
    }

    // The line is to be cleared or audited next.
    fn owe(&mut self, duty: Duty)
        ensures { self.new ≡ owed self.old duty }
    {
        self.next = owed_behind(self.next, duty);
    }

    // The command in flight was given up: what that was for is owed again where the exchange doesn't know of it.
    fn lose(&mut self)
        ensures { self.new ≡ lost self.old }
    {
        let duty = self.flight;
        self.flight = None;
        match duty {
            Some(Duty::Clear) => self.owe(Duty::Clear),
            Some(Duty::Audit) => self.owe(Duty::Audit),
            Some(Duty::Route) | None => {}
        }
    }

    // It is announced: it has started again, or lost its agent.
    fn announce(&mut self, is_restart: bool)
        ensures { self.new ≡ announced is_restart self.old }
    {
        self.owe(Duty::Audit);
        if !is_restart {
            return;
        }
        // Its gateway has started again.
        self.is_outlived = self.flight.is_some();
        self.is_found_off = false;
        self.put_off = 0;
        self.again = None;
    }

    // The command that was put off at this moment is sent again a while later.
    fn hold(&mut self, moment: u64)
        ensures { self.new ≡ held_from moment self.old }
    {
        self.again = Some(moment.saturating_add(AGAIN_AFTER));
    }

    // At this moment what was put off is sent again, if it was to be.
    fn wake(&mut self, moment: u64)
        ensures { self.new ≡ woken moment self.old }
    {
        match self.again {
            Some(again) => {
                if again == moment {
                    self.again = None;
                }
            }
            None => {}
        }
    }

    /// Whether a duty that was refused by this code is put off.
    pub(crate) fn is_put_off(&self, code: u16) -> bool
        ensures { result ≡ is_put_off code self.now }
    {
        may_pass(code) && self.put_off < MOST_PUT_OFF
    }

    // A duty beside the exchange was answered by this code at this moment: it is put off, or over.
    fn answer(&mut self, moment: u64, code: u16, duty: Duty)
        ensures { self.new ≡ duty_answered moment code duty self.old }
    {
        if self.is_put_off(code) {
            self.put_off += 1;
            self.owe(duty);
            self.hold(moment);
        } else {
            self.put_off = 0;
        }
    }

    // A command of the exchange's was answered at this moment, and put off so, if it was.
    fn route(&mut self, moment: u64, off: Option<PutOff>)
        ensures { self.new ≡ routed_by moment off self.old }
    {
        let Some(off) = off else {
            return;
        };
        match duty_behind(off) {
            Some(duty) => self.owe(duty),
            None => self.hold(moment),
        }
    }

    /// This happens to it.
    pub(crate) fn change(&mut self, change: Change)
        ensures { self.new ≡ changed_by change self.old }
    {
        match change {
            Change::Begin => self.begin(),
            Change::Land => self.flight = None,
            Change::Lose => self.lose(),
            Change::Tell => {
                self.has_told = true;
                self.is_found_off = false;
            }
            Change::OweAudit => self.owe(Duty::Audit),
            Change::Announce { is_restart } => self.announce(is_restart),
            Change::Find { is_off } => self.is_found_off = is_off,
            Change::Show { shown } => self.shown = shown,
            Change::Answer { moment, code, duty } => self.answer(moment, code, duty),
            Change::Routed { moment, off } => self.route(moment, off),
            Change::Wake { moment } => self.wake(moment),
        }
    }
}
