//! Audits and their answers (RFC 3435, 2.3.10), as theorems.
#![tactic(auto, unfolding(crate::proofs::Computing::on_examples))]

ghost use Rattle.std.specs.Prelude.{◌≡◌, ◌++◌, codes, [], ◌∷◌, length, None, Some, Ok, Err};
ghost use Rattle.mgcp_text.specs.declared.message.Message.TheVariants as messages;
ghost use Rattle.mg_line.specs.declared.phone.Act.TheVariants as acts;
ghost use Rattle.mgcp_text.specs.Answer.{response_of};
ghost use Rattle.mgcp_text.specs.Writing.{written};
ghost use Rattle.audits.specs.Fitting.{fitting};
ghost use Rattle.plain_machine.specs.Machine.{opening};
ghost use Rattle.plain_machine.specs.Lists.{machine_after, outputs_of, outputs_from};
ghost use Rattle.plain_machine.specs.Event.{phone, tick};
ghost use Rattle.plain_machine.specs.Example.{example, two_lines, long_answer, from_agent, to_agent_at, answers_to, answers_from, one_answer, answer_owned_by, messages_to, machine_at, rqnt, sends, asking_of, crcx, epcf, one_sends, local_text, created_text, says, second_called, told_of_connection};

/// Each sentence at an example.
pub fn each_sentence_has_an_example()
    // An audit is answered to its source.
    ensures datagram { answers_to (codes "AUEP 1200 aaln/1@rgw.example.net MGCP 1.0\r\n")
        ≡ one_answer (codes "200 1200 OK\r\n") }
    ensures message { messages_to (codes "AUEP 1200 aaln/1@rgw.example.net MGCP 1.0\r\n")
        ≡ answer_owned_by (Some 1) (messages.Response 200 1200 [] []) }
    // The items of F are reported once each, whatever stands between them.
    ensures once { answers_to (codes "AUEP 30 aaln/1@rgw.example.net MGCP 1.0\r\nF: ES,y,es,ES\r\n")
        ≡ one_answer (codes "200 30 OK\r\nES: L/hu\r\n") }
    ensures commas_alone { answers_to (codes "AUEP 30 aaln/1@rgw.example.net MGCP 1.0\r\nF: y;ES\r\n")
        ≡ one_answer (codes "200 30 OK\r\n") }
    ensures whole_words { answers_to (codes "AUEP 30 aaln/1@rgw.example.net MGCP 1.0\r\nF: ESX,E\r\n")
        ≡ one_answer (codes "200 30 OK\r\n") }
    // An audit changes no line.
    ensures of_a_line { (machine_after two_lines second_called
        (asking_of (codes "AUEP") 3 (codes "aaln/2") (codes "F: A,B,D,ES,I,N,O,Q,R,S,T,X\r\n") ∷ [])).endpoints
        ≡ second_called.endpoints }
    ensures of_a_connection { (machine_after two_lines second_called
        (asking_of (codes "AUCX") 3 (codes "aaln/2") (codes "I: 1\r\nF: C,L,M,N,P,LC,RC\r\n") ∷ [])).endpoints
        ≡ second_called.endpoints }
    // An audit of all lines is told their names; an F that asks for nothing is none.
    ensures names { outputs_of two_lines (from_agent (codes "AUEP 2101 *@rgw.example.net MGCP 1.0\r\n") ∷ [])
        ≡ one_answer (codes "200 2101 OK\r\nZ: aaln/1@rgw.example.net\r\nZ: aaln/2@rgw.example.net\r\n") }
    ensures empty { outputs_of two_lines (from_agent (codes "AUEP 2101 AALN/*@rgw.example.net MGCP 1.0\r\nF:\r\n") ∷ [])
        ≡ one_answer (codes "200 2101 OK\r\nZ: aaln/1@rgw.example.net\r\nZ: aaln/2@rgw.example.net\r\n") }
{}

/// An audit that asks for ES is told the hook state.
pub fn an_audit_tells_the_hook_state()
    ensures off_hook { answers_from (machine_at 0) (phone 1 acts.OffHook
        ∷ from_agent (codes "AUEP 30 aaln/1@rgw.example.net MGCP 1.0\r\nF: ES\r\n") ∷ [])
        ≡ one_answer (codes "200 30 OK\r\nES: L/hd\r\n") }
    ensures other_line { answers_from (machine_at 0) (phone 1 acts.OffHook
        ∷ from_agent (codes "AUEP 30 aaln/2@rgw.example.net MGCP 1.0\r\nF: ES\r\n") ∷ [])
        ≡ one_answer (codes "200 30 OK\r\nES: L/hu\r\n") }
    ensures back { answers_from (machine_at 0) (phone 1 acts.OffHook ∷ phone 1 acts.Flash ∷ phone 1 acts.OnHook
        ∷ from_agent (codes "AUEP 30 aaln/1@rgw.example.net MGCP 1.0\r\nf: y, es ,ES\r\n") ∷ [])
        ≡ one_answer (codes "200 30 OK\r\nES: L/hu\r\n") }
    ensures empty { answers_to (codes "AUEP 30 aaln/1@rgw.example.net MGCP 1.0\r\nF:\r\n")
        ≡ one_answer (codes "200 30 OK\r\n") }
    ensures others { answers_to (codes "AUEP 30 aaln/1@rgw.example.net MGCP 1.0\r\nF: E,RM\r\n")
        ≡ one_answer (codes "200 30 OK\r\n") }
    ensures later { outputs_from example (machine_at 0) (tick 700 ∷ from_agent (codes "AUEP 30 aaln/1@rgw.example.net MGCP 1.0\r\n") ∷ [])
        ≡ to_agent_at 700 (codes "200 30 OK\r\n") ∷ [] }
{}

/// An answer belongs to the line that its command names; to none where the name is no line, or nobody could read it.
pub fn answers_have_an_owner()
    ensures last_line { messages_to (codes "AUEP 9 aaln/16@rgw.example.net MGCP 1.0\r\n")
        ≡ answer_owned_by (Some 16) (messages.Response 200 9 [] []) }
    ensures other_verb { messages_to (codes "NTFY 9 aaln/2@rgw.example.net MGCP 1.0\r\n")
        ≡ answer_owned_by (Some 2) (messages.Response 504 9 [] []) }
    ensures version { messages_to (codes "AUEP 9 aaln/1@rgw.example.net MGCP 2.0\r\n")
        ≡ answer_owned_by None (messages.Response 528 9 [] []) }
    ensures body { messages_to (codes "AUEP 9 aaln/1@rgw.example.net MGCP 1.0\r\nno parameter\r\n")
        ≡ answer_owned_by None (messages.Response 510 9 [] []) }
    ensures unknown { messages_to (codes "AUEP 9 aaln/17@rgw.example.net MGCP 1.0\r\n")
        ≡ answer_owned_by None (messages.Response 500 9 [] []) }
    ensures all { messages_to (codes "AUEP 9 *@rgw.example.net MGCP 1.0\r\nF: ES\r\n")
        ≡ answer_owned_by None (messages.Response 503 9 [] []) }
    ensures any { messages_to (codes "AUEP 9 $@rgw.example.net MGCP 1.0\r\n")
        ≡ answer_owned_by None (messages.Response 503 9 [] []) }
    ensures complicated { messages_to (codes "AUEP 9 aaln/*/1@rgw.example.net MGCP 1.0\r\n")
        ≡ answer_owned_by None (messages.Response 503 9 [] []) }
{}

/// Each item tells of the line as it is.
pub fn items_are_those_of_the_line()
    ensures as_it_opens { answers_to (codes "AUEP 30 aaln/1@rgw.example.net MGCP 1.0\r\nF: A,B,D,ES,I,N,O,Q,R,S,T,X\r\n")
        ≡ one_answer (codes "200 30 OK\r\nA: a:PCMU;PCMA, p:10-30, v:L;G;D, m:sendonly;recvonly;sendrecv;confrnce;inactive\r\n"
        ++ codes "B: e:mu\r\nD:\r\nES: L/hu\r\nI:\r\nN: ca@ca.example.net\r\nO:\r\nQ: step,process\r\nR:\r\nS:\r\nT:\r\nX: 0\r\n") }
    ensures requested { sends (rqnt 1403 (codes "aaln/1")
        (codes "X: A4\r\nR: L/hd(A,E(S(L/dl),R(L/hu,D/[0-9#*T](D))))\r\nD: (0T|00T|[1-7]xxx)\r\n")
        ∷ asking_of (codes "AUEP") 1404 (codes "aaln/1") (codes "F: R,ES,X,Q,T\r\n") ∷ [])
        ≡ says (codes "200 1403 OK")
        ∷ says (codes "200 1404 OK\r\nR: L/hd(A,E(R(L/hu(N),D/[0123456789*#T](D)),S(L/dl)))\r\nES: L/hu\r\nX: A4\r\n"
        ++ codes "Q: step,process\r\nT:") ∷ [] }
    ensures active { sends (rqnt 7 (codes "aaln/1") (codes "X: 1\r\nN: ca2@[127.0.0.2]:2728\r\nS: L/rg,L/vmwi\r\n")
        ∷ asking_of (codes "AUEP") 8 (codes "aaln/1") (codes "F: S,N\r\n") ∷ [])
        ≡ says (codes "200 7 OK") ∷ says (codes "200 8 OK\r\nS: L/rg,L/vmwi\r\nN: ca2@[127.0.0.2]:2728") ∷ [] }
    ensures connections { one_sends (crcx 1 (codes "aaln/1") [] ∷ crcx 2 (codes "aaln/1") []
        ∷ epcf 3 (codes "aaln/1") (codes "B: e:A\r\n") ∷ asking_of (codes "AUEP") 4 (codes "aaln/1") (codes "F: I,B\r\n") ∷ [])
        ≡ created_text 1 1 3000 (codes "0 8") ∷ created_text 2 2 3002 (codes "0 8") ∷ says (codes "200 3 OK")
        ∷ says (codes "200 4 OK\r\nI: 1,2\r\nB: e:A") ∷ [] }
{}

/// Of a connection its parameters are told, and its descriptions behind them; of one that its line doesn't have nothing is.
pub fn a_connection_is_reported()
    ensures call_and_mode { told_of_connection (codes "I: 1\r\nF: C,M\r\n") ≡ says (codes "200 1915 OK\r\nC: 1A\r\nM: recvonly") ∷ [] }
    ensures items { told_of_connection (codes "I: 1\r\nF: P,N,L,M,C\r\n")
        ≡ says (codes "200 1915 OK\r\nP: PS=0, OS=0, PR=0, OR=0, PL=0, JI=0, LA=0\r\nN: ca@ca.example.net\r\n"
        ++ codes "L: a:PCMU;PCMA, p:20\r\nM: recvonly\r\nC: 1A") ∷ [] }
    ensures descriptions { told_of_connection (codes "I: 1\r\nF: RC,LC\r\n")
        ≡ to_agent_at 1000 (codes "200 1915 OK\r\n" ++ local_text 1 1 3000 (codes "0 8") ++ codes "\r\nv=0\r\n") ∷ [] }
    ensures no_items { told_of_connection (codes "I: 1\r\n") ≡ says (codes "200 1915 OK") ∷ [] }
    ensures unknown { told_of_connection (codes "I: 2\r\n") ≡ says (codes "515 1915") ∷ [] }
    ensures no_identifier { told_of_connection (codes "F: C\r\n") ≡ says (codes "510 1915") ∷ [] }
    ensures other_line { outputs_from two_lines second_called (asking_of (codes "AUCX") 3 (codes "aaln/1") (codes "I: 1\r\n") ∷ [])
        ≡ says (codes "515 3") ∷ [] }
    ensures all { outputs_from two_lines second_called (asking_of (codes "AUCX") 3 (codes "*") (codes "I: 1\r\n") ∷ [])
        ≡ says (codes "503 3") ∷ [] }
{}

/// An answer that would be longer than a datagram may be gives way to 533.
pub fn an_answer_fits_into_a_datagram()
    ensures longest { length (written (response_of 9 (long_answer 3990))) ≡ 4000 }
    ensures taken { fitting 9 (long_answer 3990) ≡ Ok (long_answer 3990) }
    ensures too_long { fitting 9 (long_answer 3991) ≡ Err 533 }
{}
