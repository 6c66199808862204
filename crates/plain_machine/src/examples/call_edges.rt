//! Connections at their edges (RFC 3435, 2.1.3, 2.3.5 to 2.3.7 and 2.3.9): numbers, ports and lines, and commands that
//! come with a request, as theorems.
#![tactic(auto, unfolding(crate::proofs::Computing::on_examples))]

ghost use Rattle.std.specs.Prelude.{◌≡◌, codes, [], ◌∷◌, ◌++◌, map, replicate, option_map, None, Some};
ghost use Rattle.mg_line.specs.declared.phone.Act.TheVariants.{OffHook, OnHook};
ghost use Rattle.packages.specs.declared.signal.Signal.TheVariants as signal;
ghost use Rattle.plain_machine.specs.Event.{phone};
ghost use Rattle.connections.specs.Standing.{no_connections};
ghost use Rattle.plain_machine.specs.Connecting.{id_param};
ghost use Rattle.plain_machine.specs.Machine.{opening, opening_endpoints, opening_endpoint, port_of};
ghost use Rattle.plain_machine.specs.Calls.{connection_at, port_at, standing_at, NumbersGoOn, IsOnLine};
ghost use Rattle.plain_machine.specs.Lists.{machine_after, outputs_from, connections_of, signals_of};
ghost use Rattle.plain_machine.specs.Example.{example, one_line, two_lines, other_host, elsewhere, to_agent_at, response, rqnt, ready_endpoint};
ghost use Rattle.plain_machine.specs.Example.{ntfy, lifted, lifted_on_2, crcx, mdcx, dlcx, epcf, ready_machine, one_sends};
ghost use Rattle.plain_machine.specs.Example.{numbers_then, local_text, created_text, says, first_connection};
ghost use Rattle.plain_machine.specs.Example.{numbered_to, second_called, both_send, both_then, frees_all, deletes_again, on_and_on};

/// A connection's identifier is its number in upper case hexadecimal; in the local description the number stands in
/// decimal. After the greatest number no connection is created.
pub fn an_identifier_is_a_number_in_hexadecimal()
    ensures param { id_param 26 ≡ record { code = codes "I"; value = codes "1A" } }
    ensures greatest { id_param 4294967295 ≡ record { code = codes "I"; value = codes "FFFFFFFF" } }
    ensures tenth { outputs_from one_line (numbered_to 9)
        (crcx 1 (codes "aaln/1") [] ∷ mdcx 2 (codes "C: 1a\r\nI: a\r\n") ∷ [])
        ≡ to_agent_at 1000 (codes "200 1 OK\r\nI: A\r\n" ++ local_text 10 1 3000 (codes "0 8"))
        ∷ says (codes "200 2 OK") ∷ [] }
    ensures last { outputs_from one_line (numbered_to 4294967294)
        (crcx 1 (codes "aaln/1") [] ∷ crcx 2 (codes "aaln/1") [] ∷ [])
        ≡ to_agent_at 1000 (codes "200 1 OK\r\nI: FFFFFFFF\r\n" ++ local_text 4294967295 1 3000 (codes "0 8"))
        ∷ says (codes "502 2") ∷ [] }
{}

/// Each sentence at an example.
pub fn each_sentence_has_an_example()
    // The ports of a line follow those of the line before it, from the first port of the gateway on; streams are received at
    // the address that is configured.
    ensures lowest { port_of (record example { media_base = 1024 }) 1 ≡ 1024 }
    ensures last_line { port_of example 16 ≡ 3120 }
    ensures highest { port_of elsewhere 96 ≡ 64760 }
    ensures endpoint { (ready_endpoint elsewhere 16).connections ≡ no_connections other_host 64120 }
    ensures answer { outputs_from elsewhere (ready_machine elsewhere) (crcx 1 (codes "aaln/16") [] ∷ [])
        ≡ to_agent_at 1000
        (codes "200 1 OK\r\nI: 1\r\n\r\nv=0\r\no=- 1 1 IN IP4 127.0.0.2\r\ns=-\r\nc=IN IP4 127.0.0.2\r\n"
        ++ codes "t=0 0\r\nm=audio 64120 RTP/AVP 0 8\r\na=ptime:20\r\n") ∷ [] }
    // A connection is seen at its place of its line, with its port and its number.
    ensures port { port_at second_called 2 0 ≡ Some 3008 }
    ensures free { port_at second_called 2 1 ≡ None }
    ensures other_line { port_at second_called 1 0 ≡ None }
    ensures no_line { port_at second_called 3 0 ≡ None }
    ensures next_place { port_at (machine_after two_lines second_called (crcx 2 (codes "aaln/2") [] ∷ [])) 2 1
        ≡ Some 3010 }
    ensures connection { connection_at second_called 2 0 ≡ Some first_connection }
    ensures no_place { connection_at second_called 2 4 ≡ None }
    ensures there { IsOnLine second_called 2 1 }
    ensures other_number { IsOnLine second_called 2 2 → ⊥ }
    ensures elsewhere { IsOnLine second_called 1 1 → ⊥ }
{}

/// The last number of a line is known where there is such a line; it may grow or stay.
pub fn last_numbers_are_compared()
    ensures line { option_map (λ standing. standing.last) (standing_at second_called.endpoints 2) ≡ Some 1 }
    ensures none { standing_at second_called.endpoints 3 ≡ None }
    ensures same { NumbersGoOn second_called.endpoints second_called.endpoints }
    ensures less { NumbersGoOn (numbered_to 2).endpoints (numbered_to 1).endpoints → ⊥ }
    ensures lost { NumbersGoOn (ready_machine two_lines).endpoints (ready_machine one_line).endpoints → ⊥ }
{}

/// A command that requests nothing leaves what the line was asked for: its request stays, and what it did not ask for
/// waits.
pub fn without_a_request_a_line_stays()
    ensures waits { one_sends (phone 1 OffHook ∷ phone 1 OnHook ∷ response 200 10000000 ∷ crcx 1 (codes "aaln/1") []
        ∷ epcf 2 (codes "aaln/1") [] ∷ mdcx 3 (codes "C: 1a\r\nI: 1\r\n") ∷ dlcx 4 (codes "aaln/1") []
        ∷ rqnt 5 (codes "aaln/1") (codes "X: A5\r\n") ∷ [])
        ≡ to_agent_at 1000 lifted ∷ created_text 1 1 3000 (codes "0 8") ∷ says (codes "200 2 OK")
        ∷ says (codes "200 3 OK") ∷ says (codes "250 4 OK")
        ∷ to_agent_at 1000 (codes "200 5 OK\r\n.\r\n" ++ ntfy 10000001 1 (codes "A5") (codes "L/hu")) ∷ [] }
    ensures remembered { one_sends (phone 1 OffHook ∷ phone 1 OnHook ∷ crcx 1 (codes "aaln/1") (codes "X: A5\r\n")
        ∷ response 200 10000000 ∷ [])
        ≡ to_agent_at 1000 lifted ∷ created_text 1 1 3000 (codes "0 8")
        ∷ to_agent_at 1000 (ntfy 10000001 1 (codes "A5") (codes "L/hu")) ∷ [] }
{}

/// A command whose request the line refuses does nothing to its connections.
pub fn a_refused_request_undoes_the_command()
    ensures deletion { numbers_then one_line
        (crcx 1 (codes "aaln/1") [] ∷ dlcx 2 (codes "aaln/1") (codes "X: 1\r\nS: L/dl\r\n") ∷ []) 1 ≡ Some (1 ∷ []) }
    ensures creation { one_sends (phone 1 OffHook ∷ crcx 1 (codes "aaln/1") (codes "X: 1\r\nS: L/rg\r\n")
        ∷ crcx 2 (codes "aaln/1") [] ∷ [])
        ≡ to_agent_at 1000 lifted ∷ says (codes "401 1") ∷ created_text 2 1 3000 (codes "0 8") ∷ [] }
    ensures change { connections_of (machine_after one_line (ready_machine one_line) (crcx 1 (codes "aaln/1") []
        ∷ mdcx 2 (codes "C: 1a\r\nI: 1\r\nM: inactive\r\nL: p:30\r\nX: 1\r\nS: L/dl\r\n") ∷ [])) 1
        ≡ Some (Some first_connection ∷ replicate 3 None) }
{}

/// All lines are freed of their connections and have the request, or, where one line refuses it, none is.
pub fn all_lines_are_freed_with_a_request()
    ensures answer { both_send (frees_all (codes "L/vmwi") ∷ []) ≡ says (codes "250 3 OK") ∷ [] }
    ensures freed { map (connections_of (both_then (frees_all (codes "L/vmwi") ∷ []))) (1 ∷ 2 ∷ [])
        ≡ replicate 2 (Some (replicate 4 None)) }
    ensures signals { map (signals_of (both_then (frees_all (codes "L/vmwi") ∷ []))) (1 ∷ 2 ∷ [])
        ≡ replicate 2 (Some (on_and_on signal.MessageWaiting ∷ [])) }
    ensures refused { both_send (phone 2 OffHook ∷ frees_all (codes "L/rg") ∷ [])
        ≡ to_agent_at 1000 lifted_on_2 ∷ says (codes "401 3") ∷ [] }
    ensures kept { map (connections_of (both_then (phone 2 OffHook ∷ frees_all (codes "L/rg") ∷ []))) (1 ∷ 2 ∷ [])
        ≡ replicate 2 (Some (Some first_connection ∷ replicate 3 None)) }
{}

/// A repeat of a deletion deletes nothing more, whatever was created since.
pub fn a_deletion_is_done_once()
    ensures answers { one_sends deletes_again ≡ created_text 1 1 3000 (codes "0 8") ∷ says (codes "250 2 OK")
        ∷ created_text 3 2 3000 (codes "0 8") ∷ says (codes "250 2 OK") ∷ [] }
    ensures stands { numbers_then one_line deletes_again 1 ≡ Some (2 ∷ []) }
{}
