//! Connections: what is created, modified and deleted, and what is answered (RFC 3435, 2.3.2, 2.3.5 to 2.3.7 and 2.3.9),
//! as theorems.
#![tactic(auto, unfolding(crate::proofs::Computing::on_examples))]

ghost use Rattle.std.specs.Prelude.{◌≡◌, codes, [], ◌∷◌, ◌++◌, option_map, replicate, None, Some};
ghost use Rattle.connections.specs.declared.codec.Encoding.TheVariants.{Mu, A};
ghost use Rattle.packages.specs.declared.signal.Signal.TheVariants as signal;
ghost use Rattle.plain_machine.specs.Machine.{opening, opening_endpoint, endpoint_at};
ghost use Rattle.plain_machine.specs.Requesting.{line_with_place};
ghost use Rattle.plain_machine.specs.Lists.{machine_after, outputs_from, connections_of, signals_of};
ghost use Rattle.plain_machine.specs.Example.{example, one_line, two_lines, other_entity, rqnt, until, first_endpoints, to_agent_at, ready_endpoint};
ghost use Rattle.plain_machine.specs.Example.{crcx, mdcx, dlcx, epcf, ready_machine, two_send, one_sends, numbers_then};
ghost use Rattle.plain_machine.specs.Example.{local_text, created_text, says, offering_8, holding, first_connection, full_lines};

/// A connection has an identifier and a local description; where the command names any one line, the answer names it. A
/// line has four places, each with its port, and then no line is left.
pub fn connections_are_created()
    ensures any { one_sends (crcx 1901 (codes "aaln/$") [] ∷ []) ≡ to_agent_at 1000
        (codes "200 1901 OK\r\nI: 1\r\nZ: aaln/1@rgw.example.net\r\n" ++ local_text 1 1 3000 (codes "0 8")) ∷ [] }
    ensures four { one_sends (crcx 1 (codes "aaln/1") [] ∷ crcx 2 (codes "aaln/1") [] ∷ crcx 3 (codes "aaln/1") []
        ∷ crcx 4 (codes "aaln/1") [] ∷ crcx 5 (codes "aaln/1") [] ∷ crcx 6 (codes "aaln/$") [] ∷ [])
        ≡ created_text 1 1 3000 (codes "0 8") ∷ created_text 2 2 3002 (codes "0 8") ∷ created_text 3 3 3004 (codes "0 8")
        ∷ created_text 4 4 3006 (codes "0 8") ∷ says (codes "540 5") ∷ says (codes "410 6") ∷ [] }
    ensures second_line { two_send (crcx 1 (codes "aaln/2") [] ∷ []) ≡ created_text 1 1 3008 (codes "0 8") ∷ [] }
    ensures chosen { two_send (crcx 1 (codes "aaln/1") [] ∷ crcx 2 (codes "aaln/1") [] ∷ crcx 3 (codes "aaln/1") []
        ∷ crcx 4 (codes "aaln/1") [] ∷ crcx 5 (codes "$") [] ∷ [])
        ≡ created_text 1 1 3000 (codes "0 8") ∷ created_text 2 2 3002 (codes "0 8")
        ∷ created_text 3 3 3004 (codes "0 8") ∷ created_text 4 4 3006 (codes "0 8") ∷ to_agent_at 1000
        (codes "200 5 OK\r\nI: 1\r\nZ: aaln/2@rgw.example.net\r\n" ++ local_text 1 1 3008 (codes "0 8")) ∷ [] }
    ensures no_line { outputs_from two_lines full_lines (crcx 9 (codes "$") [] ∷ []) ≡ says (codes "410 9") ∷ [] }
    ensures codec { one_sends (crcx 1902 (codes "aaln/1") (codes "\r\nv=0\r\nc=IN IP4 127.0.0.1\r\nm=audio 4000 RTP/AVP 18\r\n") ∷ [])
        ≡ says (codes "534 1902") ∷ [] }
    ensures description { two_send (crcx 2103 (codes "aaln/1") (codes "\r\nv=0\r\n") ∷ []) ≡ says (codes "509 2103") ∷ [] }
    ensures all { two_send (crcx 1 (codes "*") [] ∷ []) ≡ says (codes "503 1") ∷ [] }
    ensures again { one_sends (crcx 1 (codes "aaln/1") [] ∷ crcx 1 (codes "aaln/1") [] ∷ [])
        ≡ created_text 1 1 3000 (codes "0 8") ∷ created_text 1 1 3000 (codes "0 8") ∷ [] }
    ensures once { numbers_then one_line (crcx 1 (codes "aaln/1") [] ∷ crcx 1 (codes "aaln/1") [] ∷ []) 1 ≡ Some (1 ∷ []) }
{}

/// Each sentence at an example.
pub fn each_sentence_has_an_example()
    // Any one line is the least that has a place; no other is asked where that one refuses.
    ensures any_one_line_is_the_least_with_a_place_first { line_with_place
        (first_endpoints (ready_endpoint example 1 ∷ ready_endpoint example 2 ∷ [])) ≡ Some 1 }
    ensures last_place { line_with_place (first_endpoints (holding (replicate 3 (Some first_connection) ++ None ∷ []) ∷ [])) ≡ Some 1 }
    ensures second { line_with_place (first_endpoints (holding (replicate 4 (Some first_connection)) ∷ ready_endpoint example 2 ∷ []))
        ≡ Some 2 }
    ensures any_one_line_is_the_least_with_a_place_none { line_with_place
        (first_endpoints (holding (replicate 4 (Some first_connection)) ∷ [])) ≡ None }
    ensures refuses { two_send (rqnt 1 (codes "aaln/1") (codes "X: 1\r\n") ∷ crcx 2 (codes "$") (codes "X: 1\r\nS: L/dl\r\n") ∷ [])
        ≡ says (codes "200 1 OK") ∷ says (codes "402 2") ∷ [] }
    ensures not_there { numbers_then two_lines (crcx 2 (codes "$") (codes "X: 1\r\nS: L/dl\r\n") ∷ []) 1 ≡ Some [] }
    ensures no_other { numbers_then two_lines (crcx 2 (codes "$") (codes "X: 1\r\nS: L/dl\r\n") ∷ []) 2 ≡ Some [] }
    // What the places of a line hold, where there is such a line.
    ensures opening { connections_of (ready_machine two_lines) 2 ≡ Some (replicate 4 None) }
    ensures connections_are_seen_none { connections_of (ready_machine two_lines) 3 ≡ None }
    ensures connections_are_seen_first { connections_of
        (machine_after two_lines (ready_machine two_lines) (crcx 1 (codes "aaln/2") [] ∷ [])) 2
        ≡ Some (Some first_connection ∷ replicate 3 None) }
    ensures other { connections_of (machine_after two_lines (ready_machine two_lines) (crcx 1 (codes "aaln/2") [] ∷ [])) 1
        ≡ Some (replicate 4 None) }
{}

/// A connection that is modified keeps what isn't given. Its local description is answered where the codecs in force or the
/// packet time changed, with the next version; what is refused changes nothing.
pub fn connections_are_modified()
    ensures changed { one_sends (crcx 1 (codes "aaln/1") [] ∷ mdcx 1910 (codes "C: 1a\r\nI: 1\r\nM: sendrecv\r\n")
        ∷ mdcx 1911 (codes "C: 1a\r\nI: 1\r\nM: sendrecv\r\n" ++ offering_8) ∷ [])
        ≡ created_text 1 1 3000 (codes "0 8") ∷ says (codes "527 1910")
        ∷ to_agent_at 1000 (codes "200 1911 OK\r\n" ++ local_text 1 2 3000 (codes "8")) ∷ [] }
    ensures unchanged { one_sends (crcx 1 (codes "aaln/1") [] ∷ mdcx 2 (codes "C: 1a\r\nI: 1\r\nM: inactive\r\n") ∷ [])
        ≡ created_text 1 1 3000 (codes "0 8") ∷ says (codes "200 2 OK") ∷ [] }
    ensures refused { one_sends (crcx 1 (codes "aaln/1") [] ∷ mdcx 1912 (codes "C: 1a\r\nI: 1\r\nM: loopback\r\n")
        ∷ mdcx 1913 (codes "C: 1a\r\nI: 9\r\n") ∷ mdcx 1914 (codes "C: 2\r\nI: 1\r\n")
        ∷ mdcx 1917 (codes "C: 1a\r\nI: 1\r\nL: p:5\r\n") ∷ [])
        ≡ created_text 1 1 3000 (codes "0 8") ∷ says (codes "517 1912") ∷ says (codes "515 1913") ∷ says (codes "516 1914")
        ∷ says (codes "535 1917") ∷ [] }
{}

/// Of a connection that is deleted by its identifier the counts of packets are answered; by its call, or on all lines, none.
/// What is deleted leaves its place, and its number isn't given again.
pub fn connections_are_deleted()
    ensures one { one_sends (crcx 1 (codes "aaln/1") [] ∷ dlcx 1916 (codes "aaln/1") (codes "C: 1a\r\nI: 1\r\n") ∷ [])
        ≡ created_text 1 1 3000 (codes "0 8") ∷ says (codes "250 1916 OK\r\nP: PS=0, OS=0, PR=0, OR=0, PL=0, JI=0, LA=0") ∷ [] }
    ensures call { one_sends (crcx 1 (codes "aaln/1") [] ∷ dlcx 2 (codes "aaln/1") (codes "C: 2\r\n")
        ∷ dlcx 3 (codes "aaln/1") (codes "C: 1a\r\n")
        ∷ dlcx 4 (codes "aaln/1") [] ∷ [])
        ≡ created_text 1 1 3000 (codes "0 8") ∷ says (codes "516 2") ∷ says (codes "250 3 OK") ∷ says (codes "250 4 OK") ∷ [] }
    ensures lines { two_send (crcx 1 (codes "aaln/1") [] ∷ crcx 2 (codes "aaln/2") [] ∷ dlcx 3301 (codes "*") []
        ∷ dlcx 3302 (codes "*") (codes "C: 1A\r\n") ∷ [])
        ≡ created_text 1 1 3000 (codes "0 8") ∷ created_text 2 1 3008 (codes "0 8") ∷ says (codes "250 3301 OK")
        ∷ says (codes "503 3302") ∷ [] }
    ensures none_before { numbers_then two_lines (crcx 1 (codes "aaln/1") [] ∷ crcx 2 (codes "aaln/2") []
        ∷ dlcx 3 (codes "*") [] ∷ []) 1 ≡ Some [] }
    ensures none_left { numbers_then two_lines (crcx 1 (codes "aaln/1") [] ∷ crcx 2 (codes "aaln/2") []
        ∷ dlcx 3 (codes "*") [] ∷ []) 2 ≡ Some [] }
    ensures others_stay { numbers_then two_lines (crcx 1 (codes "aaln/1") [] ∷ crcx 2 (codes "aaln/2") []
        ∷ dlcx 3 (codes "aaln/1") [] ∷ []) 2
        ≡ Some (1 ∷ []) }
    ensures number { numbers_then one_line (crcx 1 (codes "aaln/1") [] ∷ crcx 2 (codes "aaln/1") []
        ∷ dlcx 3 (codes "aaln/1") (codes "C: 1a\r\nI: 1\r\n")
        ∷ crcx 4 (codes "aaln/1") [] ∷ []) 1 ≡ Some (3 ∷ 2 ∷ []) }
{}

/// An encoding that is given is the line's from then on, and counts in the command that gives it; it changes no connection.
pub fn an_encoding_is_given()
    ensures lines { two_send (epcf 3303 (codes "*") (codes "B: e:A\r\n") ∷ crcx 1 (codes "aaln/1") [] ∷ crcx 2 (codes "aaln/2") [] ∷ [])
        ≡ says (codes "200 3303 OK") ∷ created_text 1 1 3000 (codes "8 0") ∷ created_text 2 1 3008 (codes "8 0") ∷ [] }
    ensures one { two_send (epcf 1 (codes "aaln/1") (codes "B: e:A\r\n") ∷ epcf 2 (codes "aaln/1") [] ∷ crcx 3 (codes "aaln/1") []
        ∷ crcx 4 (codes "aaln/2") [] ∷ [])
        ≡ says (codes "200 1 OK") ∷ says (codes "200 2 OK") ∷ created_text 3 1 3000 (codes "8 0")
        ∷ created_text 4 1 3008 (codes "0 8") ∷ [] }
    ensures at_once { one_sends (crcx 1 (codes "aaln/1") (codes "B: e:A\r\n") ∷ crcx 2 (codes "aaln/1") [] ∷ [])
        ≡ created_text 1 1 3000 (codes "8 0") ∷ created_text 2 2 3002 (codes "8 0") ∷ [] }
    // The next modification counts by it: one that comes with the encoding, and one after an EndpointConfiguration.
    ensures modified { one_sends (crcx 1 (codes "aaln/1") [] ∷ mdcx 2 (codes "C: 1a\r\nI: 1\r\nB: e:A\r\n")
        ∷ mdcx 3 (codes "C: 1a\r\nI: 1\r\n") ∷ [])
        ≡ created_text 1 1 3000 (codes "0 8")
        ∷ to_agent_at 1000 (codes "200 2 OK\r\n" ++ local_text 1 2 3000 (codes "8 0")) ∷ says (codes "200 3 OK") ∷ [] }
    ensures later { one_sends (crcx 1 (codes "aaln/1") [] ∷ epcf 2 (codes "*") (codes "B: e:A\r\n")
        ∷ mdcx 3 (codes "C: 1a\r\nI: 1\r\n") ∷ [])
        ≡ created_text 1 1 3000 (codes "0 8") ∷ says (codes "200 2 OK")
        ∷ to_agent_at 1000 (codes "200 3 OK\r\n" ++ local_text 1 2 3000 (codes "8 0")) ∷ [] }
    ensures connection { connections_of (machine_after one_line (ready_machine one_line)
        (crcx 1 (codes "aaln/1") [] ∷ epcf 2 (codes "aaln/1") (codes "B: e:A\r\n") ∷ [])) 1
        ≡ Some (Some first_connection ∷ replicate 3 None) }
    ensures opening { option_map (λ endpoint. endpoint.encoding) (endpoint_at (ready_machine one_line).endpoints 1) ≡ Some Mu }
    ensures then { option_map (λ endpoint. endpoint.encoding) (endpoint_at (machine_after one_line (ready_machine one_line)
        (rqnt 1 (codes "aaln/1") (codes "X: 1\r\nB: e:a\r\n") ∷ [])).endpoints 1)
        ≡ Some A }
{}

/// A command may have a request and an entity beside: connections refuse first, then the request, and then nothing is done.
pub fn a_request_comes_with_connections()
    ensures done { signals_of (machine_after one_line (ready_machine one_line)
        (crcx 1 (codes "aaln/1") (codes "X: 1\r\nS: L/rg\r\n") ∷ [])) 1
        ≡ Some (until signal.Ringing 181000 ∷ []) }
    ensures answer { one_sends (crcx 1 (codes "aaln/1") (codes "X: 1\r\nS: L/rg\r\n") ∷ []) ≡ created_text 1 1 3000 (codes "0 8") ∷ [] }
    ensures refused { one_sends (crcx 1 (codes "aaln/1") (codes "X: 1\r\nR: D/5(D)\r\n") ∷ []) ≡ says (codes "519 1") ∷ [] }
    ensures undone { connections_of (machine_after one_line (ready_machine one_line)
        (crcx 1 (codes "aaln/1") (codes "B: e:A\r\nX: 1\r\nR: D/5(D)\r\n") ∷ [])) 1
        ≡ Some (replicate 4 None) }
    ensures encoding { option_map (λ endpoint. endpoint.encoding) (endpoint_at (machine_after one_line (ready_machine one_line)
        (crcx 1 (codes "aaln/1") (codes "B: e:A\r\nX: 1\r\nR: D/5(D)\r\n") ∷ [])).endpoints 1) ≡ Some Mu }
    ensures first { one_sends (mdcx 1 (codes "C: 2\r\nI: 1\r\nX: 1\r\nS: L/dl\r\n") ∷ []) ≡ says (codes "516 1") ∷ [] }
    ensures deletion { one_sends (dlcx 1 (codes "aaln/1") (codes "X: 1\r\nS: L/dl\r\n") ∷ []) ≡ says (codes "402 1") ∷ [] }
    ensures entity { option_map (λ endpoint. endpoint.post.entity) (endpoint_at (machine_after one_line (ready_machine one_line)
        (crcx 1 (codes "aaln/1") (codes "N: ca2@[127.0.0.2]:2728\r\n") ∷ [])).endpoints 1) ≡ Some other_entity }
{}
