//! Answers among what is sent.
use crate::forms::numbered;
use gateway_core::{Outputs, Refusal};
use scenario_files::Outcome;
use std::net::SocketAddrV4;

/// Whether a 200 to the command with this id is sent to this address, and nothing else.
pub fn is_just_200(
    given: &mut Outcome,
    sent: &Result<Outputs, Refusal>,
    to: SocketAddrV4,
    id: u32,
) -> bool {
    let answer = numbered(given, "200 ", id, " OK\r\n");
    let Ok(sent) = sent else {
        given.refuse();
        return false;
    };
    match sent.as_slice() {
        [one] => one.to == to && one.bytes.as_bytes() == answer.as_bytes(),
        _ => false,
    }
}
