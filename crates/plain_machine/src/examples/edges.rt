//! Worked examples of edges, as theorems: an answer to a line that isn't the first, what K confirms, answers that
//! don't fit, what finds no room, what shares a datagram, and how much may fall due at one moment.
#![tactic(auto, unfolding(crate::proofs::Computing::on_examples))]

ghost use Rattle.std.specs.Prelude.{◌≡◌, ℕ, List, ◌++◌, codes, [], ◌∷◌, length, replicate, true, false, None, Some, Ok, Err};
ghost use Rattle.mgcp_text.specs.Answer.{plain_code, response_of};
ghost use Rattle.mgcp_text.specs.Writing.{written};
ghost use Rattle.command_forms.specs.declared.forms.Asks.TheVariants.{Reports};
ghost use Rattle.connections.specs.declared.deletion.Deletion.TheVariants as deletions;
ghost use Rattle.command_forms.specs.declared.forms.ConnectionDeed.TheVariants as deeds;
ghost use Rattle.command_forms.specs.declared.forms.Target.TheVariants.{One, All, Any};
ghost use Rattle.command_forms.specs.declared.forms.Audit.{Audit};
ghost use Rattle.command_forms.specs.declared.forms.AuditTarget.TheVariants as audits;
ghost use Rattle.transmission.specs.Looking.{full};
ghost use Rattle.mg_line.specs.declared.phone.Act.TheVariants as acts;
ghost use Rattle.plain_machine.specs.Effect.{silently, effect_map, behind, afterwards};
ghost use Rattle.plain_machine.specs.Event.{phone};
ghost use Rattle.plain_machine.specs.Message.{resent};
ghost use Rattle.transmission.specs.Packing.{packed, messages_in};
ghost use Rattle.plain_machine.specs.Machine.{opening, opening_endpoints, with_own};
ghost use Rattle.plain_machine.specs.Done.{only_answer};
ghost use Rattle.plain_machine.specs.Connecting.{counts_param, nothing_shown};
ghost use Rattle.plain_machine.specs.Requesting.{shown_of};
ghost use Rattle.plain_machine.specs.Commanding.{audited, reported, done_by};
ghost use Rattle.plain_machine.specs.Reporting.{names_of};
ghost use Rattle.plain_machine.specs.Falling.{due_by, pass};
ghost use Rattle.transmission.specs.Acknowledging.{asks_for_acknowledgement};
ghost use Rattle.plain_machine.specs.Answering.{transaction, transacted_by};
ghost use Rattle.plain_machine.specs.Lists.{outputs_of};
ghost use Rattle.plain_machine.specs.Example.{example, agent, audit, from_agent, one_answer, to_agent_at, rqnt, sends, ntfy, lifted_on_2, response, first_endpoints, busiest, wide, ready_endpoints, machine_at, busiest_own};
ghost use Rattle.plain_machine.specs.Example.{requesting_nothing, holding, first_connection, other_host, to_agent, to_other_at, own_at, lifted, flown};

/// Each sentence at an example.
pub fn each_sentence_has_an_example()
    // The answer to a line's command lets that line go on, under its own ids, whichever it is.
    ensures an_answer_is_for_its_line { sends (phone 2 acts.OffHook ∷ phone 2 acts.OnHook ∷ rqnt 1501 (codes "aaln/2") (codes "X: A5\r\n")
        ∷ response 200 20000000 ∷ [])
        ≡ to_agent_at 1000 lifted_on_2 ∷ to_agent_at 1000 (codes "200 1501 OK\r\n")
        ∷ to_agent_at 1000 (ntfy 20000001 2 (codes "A5") (codes "L/hu")) ∷ [] }
    // An acknowledgement is asked for by the codes 200 to 999.
    ensures least { asks_for_acknowledgement 200 ((record { code = codes "K"; value = [] }) ∷ []) ≡ true }
    ensures less { asks_for_acknowledgement 199 ((record { code = codes "K"; value = [] }) ∷ []) ≡ false }
    ensures greatest { asks_for_acknowledgement 999 ((record { code = codes "K"; value = [] }) ∷ []) ≡ true }
    ensures greater { asks_for_acknowledgement 1000 ((record { code = codes "K"; value = [] }) ∷ []) ≡ false }
    // An audit of a line that there isn't is 500; one whose answer doesn't fit is 533.
    ensures some_audits_have_no_report_no_line { audited example (ready_endpoints example) 9 (audits.One 17)
        (record { connection = None; items = [] }) ≡ Err 500 }
    ensures unfit { done_by (Ok (Reports audits.All (record { connection = None; items = [] })))
        (wide 250 16) (opening_endpoints (wide 250 16)) 0 9
        ≡ only_answer (opening_endpoints (wide 250 16)) (plain_code 533) }
    // What finds no room in the history is lost: nothing is done, and nothing is said.
    ensures what_finds_no_room_is_lost { transacted_by full (machine_at 0) agent
        (transaction 1306 (Some 1) [] (only_answer (ready_endpoints example) (plain_code 200)))
        ≡ silently (machine_at 0) }
    // Each item of K confirms.
    ensures each_item_of_k_confirms { outputs_of example (from_agent (audit 1301) ∷ from_agent (audit 1303) ∷ from_agent (audit 1304)
        ∷ from_agent (audit 1305 ++ codes "K: 1301, 1303-1304\r\n")
        ∷ from_agent (audit 1301) ∷ from_agent (audit 1303) ∷ from_agent (audit 1304) ∷ from_agent (audit 1305) ∷ [])
        ≡ one_answer (codes "200 1301 OK\r\n") ++ one_answer (codes "200 1303 OK\r\n")
        ++ one_answer (codes "200 1304 OK\r\n") ++ one_answer (codes "200 1305 OK\r\n")
        ++ one_answer (codes "200 1305 OK\r\n") }
    // At one moment 12 things may be due on each line, and two of the gateway itself: all of them happen.
    ensures one_line { due_by (pass example (with_own (first_endpoints (busiest ∷ [])) busiest_own) 0).value 0
        ≡ None }
    ensures two_lines { due_by
        (pass example (with_own (first_endpoints (busiest ∷ busiest ∷ [])) busiest_own) 0).value 0 ≡ None }
    // Of all lines that refuse a request the least gives the code, be it the first of them or not.
    ensures before { sends (phone 16 acts.OffHook ∷ rqnt 1801 (codes "*") (codes "X: B2\r\nS: L/rg,L/dl\r\n") ∷ [])
        ≡ to_agent_at 1000 (ntfy 160000000 16 (codes "0") (codes "L/hd")) ∷ to_agent_at 1000 (codes "402 1801\r\n") ∷ [] }
    ensures first { sends (phone 1 acts.OffHook ∷ rqnt 1801 (codes "*") (codes "X: B2\r\nS: L/rg,L/dl\r\n") ∷ [])
        ≡ to_agent_at 1000 (ntfy 10000000 1 (codes "0") (codes "L/hd")) ∷ to_agent_at 1000 (codes "401 1801\r\n") ∷ [] }
    // The id of a response counts in its length: 3,997 bytes with one digit are 4,005 with nine.
    ensures short { let report : Audit = record { connection = None; items = [] } in
        done_by (Ok (Reports audits.All report)) (wide 320 12) (opening_endpoints (wide 320 12)) 0 9
        ≡ only_answer (opening_endpoints (wide 320 12)) (reported (names_of (wide 320 12) (opening_endpoints (wide 320 12)))) }
    ensures long { outputs_of (wide 320 12) (from_agent (codes "AUEP 999999999 *@" ++ replicate 320 97 ++ codes " MGCP 1.0\r\n") ∷ [])
        ≡ one_answer (codes "533 999999999\r\n") }
    // A K that can't be read confirms nothing; one that can be read confirms, be its command refused or not.
    ensures unreadable { outputs_of example (from_agent (audit 1301) ∷ from_agent (audit 1302 ++ codes "K: x\r\n")
        ∷ from_agent (audit 1301) ∷ [])
        ≡ one_answer (codes "200 1301 OK\r\n") ++ one_answer (codes "510 1302\r\n")
        ++ one_answer (codes "200 1301 OK\r\n") }
    ensures refused { outputs_of example (from_agent (audit 1301) ∷ from_agent (audit 1302 ++ codes "M: x\r\nK: 1301\r\n")
        ∷ from_agent (audit 1301) ∷ [])
        ≡ one_answer (codes "200 1301 OK\r\n") ++ one_answer (codes "539 1302\r\n") }
    // Of one line that there is it is told what a deed does to its connections; of all lines, of any one line and of a line
    // that there isn't nothing is told, whatever the deed.
    ensures one { let deleting = deeds.Delete (deletions.One (codes "1a") (codes "1")) in
        let line = holding (Some first_connection ∷ replicate 3 None) in
        shown_of (first_endpoints (line ∷ [])) (One 1) (record (requesting_nothing None) { connections = deleting })
        ≡ record { params = counts_param ∷ []; body = [] } }
    ensures all { let deleting = deeds.Delete (deletions.One (codes "1a") (codes "1")) in
        let line = holding (Some first_connection ∷ replicate 3 None) in
        shown_of (first_endpoints (line ∷ [])) All (record (requesting_nothing None) { connections = deleting }) ≡ nothing_shown }
    ensures any { let deleting = deeds.Delete (deletions.One (codes "1a") (codes "1")) in
        let line = holding (Some first_connection ∷ replicate 3 None) in
        shown_of (first_endpoints (line ∷ [])) Any (record (requesting_nothing None) { connections = deleting }) ≡ nothing_shown }
    ensures some_deeds_tell_of_no_connection_no_line { let deleting = deeds.Delete (deletions.One (codes "1a") (codes "1")) in
        let line = holding (Some first_connection ∷ replicate 3 None) in
        shown_of (first_endpoints (line ∷ [])) (One 2) (record (requesting_nothing None) { connections = deleting }) ≡ nothing_shown }
    // Successive messages share a datagram of 4,000 bytes at most, in their order, where both their address and their moment
    // are the same.
    ensures three { packed (to_agent_at 5 (codes "a\n") ∷ to_agent_at 5 (codes "b\n") ∷ to_agent_at 5 (codes "c\n") ∷ [])
        ≡ to_agent_at 5 (codes "a\n.\r\nb\n.\r\nc\n") ∷ [] }
    ensures none { packed [] ≡ [] }
    ensures other_moment { packed (to_agent_at 5 (codes "a\n") ∷ to_agent_at 6 (codes "b\n") ∷ [])
        ≡ to_agent_at 5 (codes "a\n") ∷ to_agent_at 6 (codes "b\n") ∷ [] }
    ensures other_host { packed (to_agent (codes "a\n")
        ∷ (record { to = record agent { ip = other_host }; moment = 0; bytes = codes "b\n" }) ∷ [])
        ≡ to_agent (codes "a\n") ∷ (record { to = record agent { ip = other_host }; moment = 0; bytes = codes "b\n" }) ∷ [] }
    ensures other_port { packed (to_agent (codes "a\n")
        ∷ (record { to = record agent { port = 2728 }; moment = 0; bytes = codes "b\n" }) ∷ [])
        ≡ to_agent (codes "a\n") ∷ (record { to = record agent { port = 2728 }; moment = 0; bytes = codes "b\n" }) ∷ [] }
    ensures successive { packed (to_agent (codes "a\n") ∷ to_other_at 0 (codes "b\n") ∷ to_agent (codes "c\n") ∷ [])
        ≡ to_agent (codes "a\n") ∷ to_other_at 0 (codes "b\n") ∷ to_agent (codes "c\n") ∷ [] }
    ensures longest { packed (to_agent (replicate 1998 10) ∷ to_agent (replicate 1999 10) ∷ [])
        ≡ to_agent (replicate 1998 10 ++ codes ".\r\n" ++ replicate 1999 10) ∷ [] }
    ensures too_long { packed (to_agent (replicate 1999 10) ∷ to_agent (replicate 1999 10) ∷ to_agent (codes "c\n") ∷ [])
        ≡ to_agent (replicate 1999 10) ∷ to_agent (replicate 1999 10 ++ codes ".\r\nc\n") ∷ [] }
    ensures taken_apart { messages_in (to_other_at 7 (codes "a\n.\r\nb\n"))
        ≡ to_other_at 7 (codes "a\n") ∷ to_other_at 7 (codes "b\n") ∷ [] }
    // What becomes of a part is put into the whole, and its messages stay; one thing after another begins with what that
    // left, and its messages go out behind.
    ensures whole { effect_map (λ (x : List ℕ). x ++ codes "b")
        (record { value = codes "a"; sent = own_at 1 0 (resent (flown 7 lifted 0 1500)) ∷ [] })
        ≡ record { value = codes "ab"; sent = own_at 1 0 (resent (flown 7 lifted 0 1500)) ∷ [] } }
    ensures silent { silently (codes "a") ≡ record { value = codes "a"; sent = [] } }
    ensures sent_first { behind (own_at 1 0 (resent (flown 7 lifted 0 1500)) ∷ [])
        (record { value = codes "a"; sent = own_at 2 0 (resent (flown 8 lifted_on_2 0 1500)) ∷ [] })
        ≡ record {
          value = codes "a";
          sent = own_at 1 0 (resent (flown 7 lifted 0 1500)) ∷ own_at 2 0
              (resent (flown 8 lifted_on_2 0 1500)) ∷ [];
        } }
    ensures after { afterwards (record { value = codes "a"; sent = own_at 1 0 (resent (flown 7 lifted 0 1500)) ∷ [] })
        (λ (x : List ℕ). record { value = x ++ codes "b"; sent = own_at 2 0 (resent (flown 8 x 0 1500)) ∷ [] })
        ≡ record {
          value = codes "ab";
          sent = own_at 1 0 (resent (flown 7 lifted 0 1500)) ∷ own_at 2 0
              (resent (flown 8 (codes "a") 0 1500)) ∷ [];
        } }
{}

/// The names of 96 lines have 3,940 bytes where the domain has 28 letters, and don't fit where it has 29.
pub fn the_names_of_many_lines_may_not_fit()
    ensures bytes { length (written (response_of 2102 (reported (names_of (wide 28 96) (opening_endpoints (wide 28 96))))))
        ≡ 3940 }
    ensures fit { audited (wide 28 96) (opening_endpoints (wide 28 96)) 2102 audits.All
        (record { connection = None; items = [] })
        ≡ Ok (reported (names_of (wide 28 96) (opening_endpoints (wide 28 96)))) }
    ensures unfit { audited (wide 29 96) (opening_endpoints (wide 29 96)) 2102 audits.All
        (record { connection = None; items = [] }) ≡ Err 533 }
{}
