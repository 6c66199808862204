//! Laws of a line and of the others.
ghost use Rattle.std.specs.Prelude.{◌≡◌, ◌≤◌, ℕ, List, Option};
ghost use Rattle.timers.specs.declared.due_item.DueItem.{DueItem};
ghost use Rattle.plain_machine.specs.declared.post.Post.{Post};
ghost use Rattle.plain_machine.specs.declared.setup.Setup.{Setup};
ghost use Rattle.plain_machine.specs.declared.endpoint.Endpoint.{Endpoint};
ghost use Rattle.plain_machine.specs.Effect.{Effect};
ghost use Rattle.plain_machine.specs.Event.{GatewayEvent};
ghost use Rattle.plain_machine.specs.Falling.{post_due, pass};
ghost use Rattle.plain_machine.specs.Machine.{Endpoints, endpoint_at};
ghost use Rattle.machine_laws.specs.Apart.{LinesKeepApart};
ghost use Rattle.machine_laws.specs.Isolation.{AsUnderItsOwn};
ghost use Rattle.machine_laws.specs.Passing.{seen, PassesAlone, line_due, line_happens, own_happens};

/// Where lines keep apart, each is as it is under its own events alone: its hook state, its signals, its connections and
/// what it lost, the answers to its commands and its own messages, each with its address and its moment. Of line 0, which
/// is the gateway itself, these are its own messages.
pub fn lines_that_keep_apart_are_isolated()
    ensures { (setup : Setup) (line : ℕ) (events : List GatewayEvent) → LinesKeepApart setup events →
        AsUnderItsOwn setup line events }
{}

/// What a tick makes of a line, and what the line sends in it, is the line's own, whatever is due on others; and so it is
/// of the gateway itself. There is only one outcome of that.
pub fn each_line_passes_alone()
    ensures line { (setup : Setup) (endpoints : Endpoints) (line moment : ℕ) → 1 ≤ line →
        PassesAlone (line_due line) (line_happens setup line) moment (endpoint_at endpoints line)
        (seen (λ (e : Endpoints). endpoint_at e line) line (pass setup endpoints moment)) }
    ensures own { (setup : Setup) (endpoints : Endpoints) (moment : ℕ) →
        PassesAlone (post_due 0) (own_happens setup) moment endpoints.own
        (seen (λ (e : Endpoints). e.own) 0 (pass setup endpoints moment)) }
    ensures line_once { (setup : Setup) (line moment : ℕ) (was : Option Endpoint) (one other : Effect (Option Endpoint)) →
        PassesAlone (line_due line) (line_happens setup line) moment was one →
        PassesAlone (line_due line) (line_happens setup line) moment was other → one ≡ other }
    ensures own_once { (setup : Setup) (moment : ℕ) (was : Post) (one other : Effect Post) →
        PassesAlone (post_due 0) (own_happens setup) moment was one →
        PassesAlone (post_due 0) (own_happens setup) moment was other → one ≡ other }
{}
