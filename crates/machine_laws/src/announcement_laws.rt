//! Laws of announcements (RFC 3435, 2.3.12, 4.4.6 and 4.4.7), for every setup and every list of events.
ghost use Rattle.std.specs.Prelude.{ℕ, ◌≡◌, ◌≢◌, ◌+◌, ◌++◌, true, false, List, Option, None, Some, Result, Ok, Err};
ghost use Rattle.endpoint_names.specs.declared.entity.Entity.{Entity};
ghost use Rattle.mgcp_text.specs.declared.confirmation.KValue.{KValue};
ghost use Rattle.mgcp_text.specs.Answer.{plain_code};
ghost use Rattle.command_forms.specs.declared.verbs.Meant.{Meant};
ghost use Rattle.command_forms.specs.declared.refused.Refused.{Refused};
ghost use Rattle.command_forms.specs.Codes.{Audits};
ghost use Rattle.command_forms.specs.Command.{Command};
ghost use Rattle.command_forms.specs.Meaning.{meant};
ghost use Rattle.command_forms.specs.Order.{form_of};
ghost use Rattle.retransmission.specs.declared.repeat.Repeat.TheVariants.{GivenUp};
ghost use Rattle.retransmission.specs.declared.reply.Reply.TheVariants as replies;
ghost use Rattle.retransmission.specs.Flight.{InFlight, repeat_of, reply_of};
ghost use Rattle.retransmission.specs.declared.restart.Restart.TheVariants.{Waiting, Announced};
ghost use Rattle.retransmission.specs.declared.heard.Heard.TheVariants.{Redirected, Answered};
ghost use Rattle.retransmission.specs.Restarting.{is_serving};
ghost use Rattle.mg_line.specs.declared.phone.Act.{Act};
ghost use Rattle.timers.specs.declared.kind.DueKind.TheVariants.{Announce};
ghost use Rattle.timers.specs.declared.due_item.DueItem.{DueItem};
ghost use Rattle.plain_machine.specs.declared.post.Post.{Post};
ghost use Rattle.plain_machine.specs.declared.response.Response.{Response};
ghost use Rattle.plain_machine.specs.declared.setup.Setup.{Setup};
ghost use Rattle.plain_machine.specs.Effect.{silently};
ghost use Rattle.plain_machine.specs.Event.{GatewayEvent};
ghost use Rattle.plain_machine.specs.Posting.{id_on, line_of_id, with_command, wait_of, resent_on};
ghost use Rattle.plain_machine.specs.Announcing.{announcement, announced_on, heard_on};
ghost use Rattle.plain_machine.specs.Machine.{Endpoints, serves};
ghost use Rattle.plain_machine.specs.Acting.{acted};
ghost use Rattle.plain_machine.specs.Commanding.{done_by, commanded};
ghost use Rattle.plain_machine.specs.Falling.{post_due, happened};
ghost use Rattle.plain_machine.specs.Responding.{responded};
ghost use Rattle.plain_machine.specs.Lists.{plain};
ghost use Rattle.plain_machine.specs.Flights.{AreInOrder, OwnIsInOrder};

/// What is in flight of each line, and of the gateway itself, agrees with where its announcement is, whatever happened: while
/// that waits nothing is, and while it is on its way it is what is in flight. Until the gateway serves its lines send nothing.
pub fn what_is_in_flight_agrees_with_announcements()
    ensures { (setup : Setup) (events : List GatewayEvent) → AreInOrder (plain setup events).endpoints }
{}

/// Until its announcement is answered a gateway does nothing at a command. It answers with the code of a fault of the verb or
/// the name, or else 405, but an audit as ever; and from then on each command as it is, of which none has the code 405.
pub fn until_it_serves_a_gateway_only_reports()
    ensures nothing { (setup : Setup) (endpoints : Endpoints) (moment id : ℕ) (command : Command) (confirms : KValue) →
        serves endpoints ≡ false →
        (commanded setup endpoints moment id command confirms).told ≡ silently endpoints }
    ensures named { (setup : Setup) (endpoints : Endpoints) (moment id : ℕ) (command : Command) (confirms : KValue)
        (refused : Refused) → meant command setup.names ≡ Err refused →
        (commanded setup endpoints moment id command confirms).answer ≡ plain_code refused.code }
    ensures refused { (setup : Setup) (endpoints : Endpoints) (moment id : ℕ) (command : Command) (confirms : KValue)
        (found : Meant) → serves endpoints ≡ false → meant command setup.names ≡ Ok found →
        (Audits command.verb → ⊥) → (commanded setup endpoints moment id command confirms).answer ≡ plain_code 405 }
    ensures audits { (setup : Setup) (endpoints : Endpoints) (moment id : ℕ) (command : Command) (confirms : KValue) →
        Audits command.verb → commanded setup endpoints moment id command confirms
        ≡ done_by (form_of command confirms setup.names) setup endpoints moment id }
    ensures served { (setup : Setup) (endpoints : Endpoints) (moment id : ℕ) (command : Command) (confirms : KValue) →
        serves endpoints ≡ true → commanded setup endpoints moment id command confirms
        ≡ done_by (form_of command confirms setup.names) setup endpoints moment id }
    ensures none { (setup : Setup) (command : Command) (confirms : KValue) →
        form_of command confirms setup.names ≡ Err 405 → ⊥ }
{}

/// A gateway that serves goes on to serve, whatever happens. No act, no command and nothing that falls due makes it serve, but
/// the answer to its announcement alone; and 521 that names another agent isn't the answer.
pub fn a_gateway_serves_once_its_announcement_is_answered()
    ensures lasts { (setup : Setup) (before events : List GatewayEvent) → serves (plain setup before).endpoints ≡ true →
        serves (plain setup (before ++ events)).endpoints ≡ true }
    ensures act { (setup : Setup) (endpoints : Endpoints) (line moment : ℕ) (act : Act) →
        serves (acted setup endpoints line moment act).value ≡ serves endpoints }
    ensures deed { (setup : Setup) (endpoints : Endpoints) (moment id : ℕ) (command : Command) (confirms : KValue) →
        serves (commanded setup endpoints moment id command confirms).told.value ≡ serves endpoints }
    ensures due { (setup : Setup) (endpoints : Endpoints) (item : DueItem) → OwnIsInOrder endpoints.own →
        serves (happened setup endpoints item).value ≡ serves endpoints }
    ensures answered { (setup : Setup) (endpoints : Endpoints) (moment : ℕ) (response : Response) (agent : Option Entity) →
        line_of_id response.id ≡ 0 → heard_on endpoints.own response ≡ Answered agent →
        serves (responded setup endpoints moment response).value ≡ true }
    ensures other { (setup : Setup) (endpoints : Endpoints) (moment : ℕ) (response : Response) →
        serves endpoints ≡ false → ((agent : Option Entity) → heard_on endpoints.own response ≢ Answered agent) →
        serves (responded setup endpoints moment response).value ≡ false }
    ensures redirected { (post : Post) (message : InFlight) (response : Response) (agent : Entity) →
        post.restart ≡ Announced → post.pending ≡ Some message →
        reply_of message response.id response.code ≡ replies.Answered → response.code ≡ 521 →
        response.entity ≡ Some agent → heard_on post response ≡ Redirected agent }
{}

/// Until it is answered an announcement goes on, of the gateway itself, which is line 0, and of a line. Where one waits it
/// falls due at its moment, and then it goes out under the next id. Where it was given up it waits anew. So something of the
/// gateway itself falls due as long as it doesn't serve.
pub fn an_announcement_goes_on_until_it_is_answered()
    ensures due { (own : Post) → OwnIsInOrder own → is_serving own.restart ≡ false → post_due 0 own ≢ None }
    ensures waits { (line until : ℕ) (post : Post) → post.restart ≡ Waiting until → post.pending ≡ None →
        post_due line post ≡ Some (record { moment = until; line = line; kind = Announce }) }
    ensures sent { (setup : Setup) (line moment until : ℕ) (post : Post) → post.restart ≡ Waiting until →
        announced_on setup line moment post
        ≡ with_command line moment (record post { restart = Announced }) (announcement setup line (id_on line post.number)) }
    ensures given_up { (setup : Setup) (line moment : ℕ) (post : Post) (message : InFlight) →
        post.pending ≡ Some message → repeat_of message moment ≡ GivenUp →
        resent_on setup line moment post
        ≡ silently (record post { pending = None; restart = Waiting (moment + wait_of setup line) }) }
{}
