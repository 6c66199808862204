//! Worked examples of what can be shown, as theorems.
ghost use Rattle.std.specs.Prelude.{◌≡◌, ◌∷◌, [], true, false};
ghost use Rattle.mgcp_text.specs.Writing.{is_writable_body};
ghost use Rattle.sdp_subset.specs.Writing.{session_text};
ghost use Rattle.connections.specs.Example.{cut_connection, offering};
ghost use Rattle.audits.specs.Example.{opening, lifted, after_request, calling};
ghost use Rattle.audits.specs.Showing.{IsShowable};

/// A line as it opens can be shown, one that was asked for much, one that was asked for an embedded request, and one with a
/// connection whose remote description is known.
pub fn endpoints_can_be_shown()
    ensures opening { IsShowable opening }
    ensures asked { IsShowable lifted }
    ensures embedded { IsShowable after_request }
    ensures connected { IsShowable (calling cut_connection) }
{}

/// A description can't be written with an address of no octets, since its line would end in a blank.
#[tactic(auto, unfolding(crate::proofs::Computing::on_examples))]
pub fn a_description_needs_an_address()
    ensures whole { is_writable_body (session_text (offering (8 ∷ []))) ≡ true }
    ensures none { is_writable_body (session_text (record (offering (8 ∷ [])) { address = record { octets = [] } })) ≡ false }
{}
