//! Laws of announcements, in the words of their subject (RFC 3435, 2.3.12 and 2.4).
ghost use Rattle.std.specs.Prelude.{◌≡◌, ◌≢◌, ◌↔◌, ℕ, Option, Some};
ghost use Rattle.endpoint_names.specs.declared.entity.Entity.{Entity};
ghost use Rattle.retransmission.specs.declared.reply.Reply.{Reply};
ghost use Rattle.retransmission.specs.declared.reply.Reply.TheVariants as replies;
ghost use Rattle.retransmission.specs.declared.restart.Restart.{Restart};
ghost use Rattle.retransmission.specs.declared.restart.Restart.TheVariants as restarts;
ghost use Rattle.retransmission.specs.declared.heard.Heard.TheVariants as heard;
ghost use Rattle.retransmission.specs.Restarting.{heard_of};

/// An announcement is asked for anew exactly where it is in flight, and its answer is 521 and names an entity.
pub fn redirections_alone_are_no_answers()
    ensures { (restart : Restart) (reply : Reply) (code : ℕ) (entity : Option Entity) (agent : Entity) →
        (heard_of restart reply code entity ≡ heard.Redirected agent)
        ↔ ((restart ≡ restarts.Announced) × (reply ≡ replies.Answered) × (code ≡ 521) × (entity ≡ Some agent)) }
{}

/// Whom to notify is named exactly where an announcement is in flight, and its answer is another than 521 and names an
/// entity.
pub fn answers_to_announcements_alone_name_entities()
    ensures { (restart : Restart) (reply : Reply) (code : ℕ) (entity : Option Entity) (agent : Entity) →
        (heard_of restart reply code entity ≡ heard.Answered (Some agent))
        ↔ ((restart ≡ restarts.Announced) × (reply ≡ replies.Answered) × (code ≢ 521) × (entity ≡ Some agent)) }
{}
