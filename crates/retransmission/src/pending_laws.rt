//! Laws of messages in flight, in the words of their subject (RFC 3435, 3.5).
ghost use Rattle.std.specs.Prelude.{◌≡◌, ◌≢◌, ◌↔◌, ◌+◌, ◌-◌, ◌<◌, ◌≤◌, ℕ, List, ◌∷◌, All, length, map, true};
ghost use Rattle.std.specs.List.{range_with_len};
ghost use Rattle.std.specs.declared.net.socket_addr.SocketAddrV4.{SocketAddrV4};
ghost use Rattle.endpoint_names.specs.declared.route.Route.{Route};
ghost use Rattle.endpoint_names.specs.Route.{at};
ghost use Rattle.retransmission.specs.declared.repeat.Repeat.TheVariants as repeats;
ghost use Rattle.retransmission.specs.declared.reply.Reply.TheVariants as replies;
ghost use Rattle.retransmission.specs.Flight.{InFlight, sent_to, sent_first, repeat_of, repeated, reply_of, heard};
ghost use Rattle.retransmission.specs.Life.{Happening, resent, resent_to, is_answered, IsNoAnswer};

/// A provisional response never counts as the answer (RFC 3435, 3.5.6): a response does exactly where it has the message's
/// id and a final return code.
pub fn final_responses_alone_are_answers()
    ensures { (message : InFlight) (id code : ℕ) →
        (reply_of message id code ≡ replies.Answered) ↔ ((message.id ≡ id) × (200 ≤ code) × (code ≤ 999)) }
{}

/// A message to which no final response comes is never answered, whatever else comes.
pub fn other_responses_answer_nothing()
    ensures { (message : InFlight) (happenings : List Happening) → All IsNoAnswer happenings →
        is_answered message happenings ≢ true }
{}

/// A message is sent eight times at most, whatever happens.
pub fn there_are_at_most_eight_sends()
    ensures { (id : ℕ) (route : Route SocketAddrV4) (text : List ℕ) (first : ℕ) (happenings : List Happening) →
        length (first ∷ resent (sent_first id route text first) happenings) ≤ 8 }
{}

/// Its sends go to the addresses of its route in turn, whatever happens between them (RFC 3435, 4.3): each to the address for
/// its number, of which the first is 0.
pub fn sends_go_to_addresses_in_turn()
    ensures { (id : ℕ) (route : Route SocketAddrV4) (text : List ℕ) (moment : ℕ) (happenings : List Happening) →
        let message = sent_first id route text moment in let sends = sent_to message ∷ resent_to message happenings in
        sends ≡ map (at route) (range_with_len 0 (length sends)) }
{}

/// It is sent again less than 20,000 ms after it was first sent, whatever happens (RFC 3435, 4.3).
pub fn repeats_go_out_within_20_seconds()
    ensures one { (message : InFlight) (moment : ℕ) → repeat_of message moment ≡ repeats.Sent → moment - message.first < 20000 }
    ensures all { (id : ℕ) (route : Route SocketAddrV4) (text : List ℕ) (first : ℕ) (happenings : List Happening) →
        All (λ moment. moment < first + 20000) (resent (sent_first id route text first) happenings) }
{}

/// What is due next is later than what made it due: than the send, or than the provisional response.
pub fn what_is_due_comes_later()
    ensures first { (id : ℕ) (route : Route SocketAddrV4) (text : List ℕ) (moment : ℕ) → moment < (sent_first id route text moment).due }
    ensures repeat { (message : InFlight) (moment : ℕ) → repeat_of message moment ≡ repeats.Sent →
        moment < (repeated message moment).due }
    ensures provisional { (message : InFlight) (id code moment : ℕ) → reply_of message id code ≡ replies.Provisional →
        moment < (heard message id code moment).due }
{}

/// A message keeps its id, its route and its text, each time that it is sent.
pub fn a_repeat_is_the_same_message()
    ensures repeat { (message : InFlight) (moment : ℕ) → ((repeated message moment).id ≡ message.id)
        × ((repeated message moment).route ≡ message.route) × ((repeated message moment).text ≡ message.text)
        × ((repeated message moment).first ≡ message.first) }
    ensures reply { (message : InFlight) (id code moment : ℕ) → ((heard message id code moment).id ≡ message.id)
        × ((heard message id code moment).route ≡ message.route) × ((heard message id code moment).text ≡ message.text)
        × ((heard message id code moment).first ≡ message.first) }
{}
