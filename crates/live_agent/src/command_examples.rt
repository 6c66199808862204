//! Worked examples of how a command is answered that was typed, as theorems.
#![tactic(auto)]

ghost use Rattle.std.specs.Prelude.{◌≡◌, ◌⊎◌, [], ◌∷◌, ℕ, List, Some, Ok, codes};
ghost use Rattle.std.specs.declared.net.socket_addr.SocketAddr.{SocketAddr};
ghost use Rattle.call_agent.specs.declared.issuing.Issued.{Issued};
ghost use Rattle.mg_bytes.specs.Lines.{cut, line_of};
ghost use Rattle.live_io.specs.Typing.{left_of};
ghost use Rattle.agent_gateways.specs.Typed.{typed_text};
ghost use Rattle.agent_gateways.specs.TypedCommands.{IssuesTyped};
ghost use Rattle.agent_gateways.specs.declared.switchboard.Switchboard.{Switchboard};
ghost use Rattle.live_agent.specs.declared.wire.Wire.{Wire};
ghost use Rattle.live_agent.specs.AnyAround.{anywhere};
ghost use Rattle.live_agent.specs.Sending.{SendsCommand};
ghost use Rattle.live_agent.specs.TypedCommands.{AnswersAll, AnswersCommand, DoesCommand};

/// How a command is issued, and answered.
pub fn what_a_command_is_answered_has_examples()
    // Who typed it is told so where it was issued, and sent; else why it wasn't.
    ensures issued { (issued : Issued) (board now : Switchboard) (was sent is : Wire ℕ) →
        IssuesTyped (codes "AUEP aaln/1\r\n") (Ok issued) board now → SendsCommand anywhere issued.datagram was sent → issued.id ≡ 7 →
        AnswersAll anywhere.answers (codes "issued 7\n") sent is →
        AnswersCommand anywhere (codes "AUEP aaln/1\r\n") board now was is }
    ensures refused { (board : Switchboard) (was is : Wire ℕ) →
        AnswersAll anywhere.answers (codes "? VERB NAME, counts, or stop\n") was is → AnswersCommand anywhere [] board board was is }
    // Where memory is refused for that before, nothing is issued.
    ensures before { (text : List ℕ) (board : Switchboard) (was is : Wire ℕ) →
        AnswersAll anywhere.answers (codes "! 1 OutOfMemory\n") was is → AnswersCommand anywhere text board board was is }
    // What isn't a verb and a name changes no board, and nobody is told anything else.
    ensures unknown { (board now : Switchboard) (was is : Wire ℕ) → AnswersCommand anywhere [] board now was is →
        (now ≡ board) × (is.journal ≡ was.journal) × (left_of is.lines ≡ []) }
    ensures told { (sender : SocketAddr) (text : List ℕ) (board now : Switchboard) (was is : Wire ℕ) → was.lines.sender ≡ Some sender →
        AnswersCommand (record anywhere { answers = λ before to said after. text ≡ said }) [] board now was is →
        (text ≡ codes "! 1 OutOfMemory\n") ⊎ (text ≡ codes "? VERB NAME, counts, or stop\n") }
{}

/// What is done of a command that is the next line.
pub fn what_a_typed_line_does_has_examples()
    // It is answered with all that stands behind its line; or memory is refused for its text, and nothing is issued.
    ensures next { (piece rest : List ℕ) (board now : Switchboard) (was is : Wire ℕ) → left_of was.lines ≡ piece ∷ cut rest →
        AnswersCommand anywhere (typed_text (line_of piece) rest) board now was is →
        DoesCommand anywhere board now was is }
    ensures before { (board : Switchboard) (was is : Wire ℕ) → AnswersAll anywhere.answers (codes "! 1 OutOfMemory\n") was is →
        DoesCommand anywhere board board was is }
    // Where no line is left there is no command.
    ensures nothing { (board now : Switchboard) (was is : Wire ℕ) → left_of was.lines ≡ [] →
        DoesCommand anywhere board now was is → (now ≡ board) × (is.journal ≡ was.journal) }
    ensures told { (sender : SocketAddr) (text : List ℕ) (board now : Switchboard) (was is : Wire ℕ) → was.lines.sender ≡ Some sender →
        left_of was.lines ≡ [] → DoesCommand (record anywhere { answers = λ before to said after. text ≡ said }) board now was is →
        (text ≡ codes "! 1 OutOfMemory\n") ⊎ (text ≡ codes "? VERB NAME, counts, or stop\n") }
{}
