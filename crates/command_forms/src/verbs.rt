//! The verbs that are served.
ghost use Rattle.std.specs.Prelude.{◌≡◌};
ghost use Rattle.command_forms.specs.Verbs.{row, row_of};

use crate::forms::{AuditTarget, Target};
use crate::verbs::Connecting::{Creates, Deletes, Keeps, Modifies};
use crate::verbs::Purpose::{ForDeed, ForReport};
use crate::verbs::Reporting::{Connection, Endpoint};
use mgcp_text::{Bytes, Verb};

/// Which wildcard the name of a command may have.
#[derive(Clone, Copy)]
pub(crate) enum Wildcard {
    Never,
    /// That for all lines.
    All,
    /// That for all lines, where it asks for no items: F is absent or empty.
    AllWithoutItems,
    /// That for all lines, where it names neither a call nor a connection: C and I are absent.
    AllWithoutCall,
    /// That for any one line.
    Any,
}

/// What a deed does with the connections of a line.
#[derive(Clone, Copy)]
pub(crate) enum Connecting {
    Keeps,
    Creates,
    Modifies,
    Deletes,
}

/// Of what a report is.
#[derive(Clone, Copy)]
pub(crate) enum Reporting {
    Endpoint,
    Connection,
}

/// What a verb asks for.
#[derive(Clone, Copy)]
pub(crate) enum Purpose {
    ForReport(Reporting),
    ForDeed(Connecting),
}

/// A verb that is served: the codes of the parameters that it must have and of those that it may have, each a letter;
/// which wildcard its name may have; and what it asks for.
#[derive(Drop)]
pub(crate) struct VerbRow {
    pub must: Bytes<'static>,
    pub may: Bytes<'static>,
    pub wildcard: Wildcard,
    pub purpose: Purpose,
}

/// What a command is to do, and on which lines.
#[derive(Clone, Copy)]
pub(crate) enum Task {
    ReportOf(Reporting, AuditTarget),
    DeedOn(Connecting, Target),
}

/// What the verb and the name of a command mean: a verb that is served, and what is to be done on the lines that the
/// command is for.
#[derive(Drop)]
pub struct Meant {
    pub(crate) row: VerbRow,
    pub(crate) task: Task,
}

// A row of the table; each code is one letter.
fn row(
    must: &'static [u8],
    may: &'static [u8],
    wildcard: Wildcard,
    purpose: Purpose,
) -> Option<VerbRow>
    ensures { result ≡ row must.now may.now wildcard purpose }
{
    Some(VerbRow {
        must: Bytes::of(must),
        may: Bytes::of(may),
        wildcard,
        purpose,
    })
}

/// The row of a verb, if it is served.
pub(crate) fn row_of(verb: Verb) -> Option<VerbRow>
    ensures { result ≡ row_of verb }
{
    match verb {
        Verb::Epcf => row(b"", b"B", Wildcard::All, ForDeed(Keeps)),
        Verb::Rqnt => row(b"X", b"NBRSDTQ", Wildcard::All, ForDeed(Keeps)),
        Verb::Crcx => row(b"CM", b"NBLXRSDTQ", Wildcard::Any, ForDeed(Creates)),
        Verb::Mdcx => row(b"CI", b"NBMLXRSDTQ", Wildcard::Never, ForDeed(Modifies)),
        Verb::Dlcx => row(
            b"",
            b"CINBXRSDTQ",
            Wildcard::AllWithoutCall,
            ForDeed(Deletes),
        ),
        Verb::Auep => row(b"", b"F", Wildcard::AllWithoutItems, ForReport(Endpoint)),
        Verb::Aucx => row(b"I", b"F", Wildcard::Never, ForReport(Connection)),
        Verb::Ntfy | Verb::Rsip | Verb::Other => None,
    }
}
