//! The payload types of an audio stream.
ghost use Rattle.std.specs.Prelude.{◌≡◌, ◌≤◌, length, nat_le};
ghost use Rattle.std.specs.List.{list_all};
ghost use Rattle.sdp_subset.specs.Payloads.{is_payload, are_payloads};

use mg_bytes::Few;
use std::marker::Model;

/// The most payload types of a stream (this gateway's profile).
const MOST_PAYLOADS: usize = 32;

fn is_payload(payload: u8) -> bool
    ensures { result ≡ is_payload payload }
{
    payload <= 127
}

#[tactic(auto, unfolding(crate::specs::Payloads::are_payloads))]
fn are_payloads(list: &[u8]) -> bool
    ensures { result ≡ are_payloads list.now }
{
    list.len() >= 1 && list.len() <= MOST_PAYLOADS && all_payloads(list)
}

fn all_payloads(list: &[u8]) -> bool
    ensures { result ≡ list_all is_payload list.now }
{
    list.iter().all(|payload| is_payload(*payload))
}

// The same numbers in a list of their own.
fn copied(list: &[u8]) -> Few<u8, MOST_PAYLOADS>
    requires { length list.now ≤ 32 }
    ensures { result ≡ list.now }
{
    let mut copy = Few::new();
    for payload in list {
        copy.push(*payload);
    }
    copy
}

/// The payload types of a stream (RFC 2327, 6), in their order: 1 to 32 numbers from 0 to 127. A contract sees their
/// list.
#[derive(Drop)]
pub struct Payloads {
    list: Few<u8, MOST_PAYLOADS>,
}

impl Model for Payloads {
    ghost use Rattle.std.specs.Prelude.{◌≡◌, true, List, ℕ};
    ghost use Rattle.sdp_subset.specs.Payloads.{are_payloads};

    ghost Value = { List ℕ };

    ghost view = { λ p. p.list };

    ghost invariant = { λ p. are_payloads p.list ≡ true };
}

impl Payloads {
    ghost use Rattle.std.specs.Prelude.{◌≡◌, true};
    ghost use Rattle.sdp_subset.specs.Payloads.{are_payloads, payloads_from, with_payload, has_room};

    /// These payload types; `None` where there are none or more than 32, or one is past 127.
    #[tactic(auto, unfolding(crate::specs::Payloads::payloads_from, crate::specs::Payloads::are_payloads))]
    pub fn of(list: &[u8]) -> Option<Payloads>
        ensures { result ≡ payloads_from list.now }
    {
        if !are_payloads(list) {
            return None;
        }
        Some(Payloads { list: copied(list) })
    }

    /// Adds a payload type at the end, and says whether it did: where there are 32 already, or it is past 127, the
    /// list stays as it was.
    pub fn push(&mut self, payload: u8) -> bool
        ensures added { result ≡ has_room self.old payload }
        ensures list { self.new ≡ with_payload self.old payload }
    {
        if self.list.as_slice().len() >= MOST_PAYLOADS || !is_payload(payload) {
            return false;
        }
        self.list.push(payload);
        true
    }

    /// The payload types.
    pub fn as_slice(&self) -> &[u8]
        ensures value { result.now ≡ self.now }
        ensures each { are_payloads result.now ≡ true }
    {
        self.list.as_slice()
    }

    /// An equal list. It takes no memory.
    pub(crate) fn copy(&self) -> Payloads
        ensures { result ≡ self.now }
    {
        Payloads {
            list: copied(self.list.as_slice()),
        }
    }
}
