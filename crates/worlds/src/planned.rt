//! What a wire in memory is to give, as a row says it, and as an event.
use crate::forms::{act_in, number_of, text_of};
use crate::gateways::agent_address;
use crate::plan::Planned;
use gateway_core::Event;
use scenario_files::Row;

/// What a row says that a wire is to give: `datagram 200 1 OK¶` from the agent, `phone 1 off`, `at 1000` the moment, `end`, or
/// `fault`.
pub fn planned_in(row: &mut Row<'_>) -> Planned {
    let word = row.before(" ");
    let rest = row.rest();
    match word {
        "datagram" => Planned::Datagram {
            source: agent_address(),
            bytes: text_of(&mut row.given, rest),
        },
        "phone" => {
            let (line, act) = act_in(&mut row.given, rest);
            Planned::Phone { line, act }
        }
        "at" => Planned::Tick {
            moment: number_of(&mut row.given, rest),
        },
        "end" => Planned::End,
        "fault" => Planned::Fault,
        _ => {
            row.given.unread();
            Planned::Fault
        }
    }
}

/// The event that this is; nothing where it is none.
pub fn event_of(planned: &Planned) -> Option<Event<'_>> {
    match planned {
        Planned::Datagram { source, bytes } => Some(Event::Datagram {
            source: *source,
            bytes: bytes.as_bytes(),
        }),
        Planned::Phone { line, act } => Some(Event::Phone {
            line: *line,
            act: *act,
        }),
        Planned::Tick { moment } => Some(Event::Tick { moment: *moment }),
        Planned::End | Planned::Fault => None,
    }
}
