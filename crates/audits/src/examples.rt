//! Worked examples of audits, as theorems: each sentence of the definitions at work, by the text of the response.
#![tactic(auto, unfolding(crate::proofs::Computing::on_examples))]

ghost use Rattle.std.specs.Prelude.{◌≡◌, ◌∷◌, ◌++◌, [], codes, replicate, Some, None, Ok, Err};
ghost use Rattle.connections.specs.Example.{cut_connection, first_connection, pcma_connection};
ghost use Rattle.audits.specs.Example.{opening, lifted, after_request, calling, with_places, numbered, with_entity, calling_with_entity};
ghost use Rattle.audits.specs.Example.{told, told_under, told_of, told_of_under, size_of, capabilities, statistics, described};

use connections::{Encoding, Mode};

/// Each sentence at an example.
pub fn each_sentence_has_an_example()
    // Each item of a line has its value: of one that opens, and of one where all differ.
    ensures capabilities { told opening (codes "A")
        ≡ Ok (codes "200 9 OK\r\nA: a:PCMU;PCMA, p:10-30, v:L;G;D, m:sendonly;recvonly;sendrecv;confrnce;inactive\r\n") }
    ensures mu { told opening (codes "B") ≡ Ok (codes "200 9 OK\r\nB: e:mu\r\n") }
    ensures a_law { told lifted (codes "B") ≡ Ok (codes "200 9 OK\r\nB: e:A\r\n") }
    ensures map { told lifted (codes "D") ≡ Ok (codes "200 9 OK\r\nD: (12T|34)\r\n") }
    ensures on_hook { told opening (codes "ES") ≡ Ok (codes "200 9 OK\r\nES: L/hu\r\n") }
    ensures off_hook { told lifted (codes "ES") ≡ Ok (codes "200 9 OK\r\nES: L/hd\r\n") }
    ensures each_item_of_a_line_is_told_connection { told (calling first_connection) (codes "I") ≡ Ok (codes "200 9 OK\r\nI: 1\r\n") }
    ensures each_item_of_a_line_is_told_entity { told opening (codes "N") ≡ Ok (codes "200 9 OK\r\nN: ca@ca.example.net\r\n") }
    ensures other_entity { told lifted (codes "N") ≡ Ok (codes "200 9 OK\r\nN: Me@[127.0.0.1]:2728\r\n") }
    ensures observed { told lifted (codes "O") ≡ Ok (codes "200 9 OK\r\nO: L/hd,D/1\r\n") }
    ensures in_step { told opening (codes "Q") ≡ Ok (codes "200 9 OK\r\nQ: step,process\r\n") }
    ensures in_loop { told lifted (codes "Q") ≡ Ok (codes "200 9 OK\r\nQ: loop,discard\r\n") }
    ensures requested { told lifted (codes "R") ≡ Ok (codes "200 9 OK\r\nR: L/hu(N),D/[0123456789T](D)\r\n") }
    ensures signals { told lifted (codes "S") ≡ Ok (codes "200 9 OK\r\nS: L/dl,L/vmwi\r\n") }
    ensures detected { told lifted (codes "T") ≡ Ok (codes "200 9 OK\r\nT: L/all,G/oc\r\n") }
    ensures identifier { told lifted (codes "X") ≡ Ok (codes "200 9 OK\r\nX: 1aB\r\n") }
    // What is empty, and a digit map that isn't there, is told as an empty value.
    ensures what_is_empty_is_told_as_empty { told opening (codes "D,I,O,R,S,T,X")
        ≡ Ok (codes "200 9 OK\r\nD:\r\nI:\r\nO:\r\nR:\r\nS:\r\nT:\r\nX: 0\r\n") }
    // The connections of a line are told by their places, whatever their numbers; free places are passed over.
    ensures in_order { told (with_places (numbered 3 ∷ numbered 26 ∷ numbered 2 ∷ numbered 1 ∷ [])) (codes "I")
        ≡ Ok (codes "200 9 OK\r\nI: 3,1A,2,1\r\n") }
    ensures gaps { told (with_places (None ∷ numbered 4294967295 ∷ None ∷ numbered 16 ∷ [])) (codes "I")
        ≡ Ok (codes "200 9 OK\r\nI: FFFFFFFF,10\r\n") }
    // The items are told in the order of F, forwards and backwards.
    ensures after_a_request { told_under 1404 after_request (codes "R,ES,X,Q,T")
        ≡ Ok (codes "200 1404 OK\r\nR: L/hd(A,E(R(L/hu(N),D/[0123456789*#T](D)),S(L/dl)))\r\n"
        ++ codes "ES: L/hu\r\nX: A4\r\nQ: step,process\r\nT:\r\n") }
    ensures forwards { told lifted (codes "A,B,D,ES,I,N,O,Q,R,S,T,X")
        ≡ Ok (codes "200 9 OK\r\n" ++ capabilities
        ++ codes "B: e:A\r\nD: (12T|34)\r\nES: L/hd\r\nI:\r\nN: Me@[127.0.0.1]:2728\r\nO: L/hd,D/1\r\n"
        ++ codes "Q: loop,discard\r\nR: L/hu(N),D/[0123456789T](D)\r\nS: L/dl,L/vmwi\r\nT: L/all,G/oc\r\nX: 1aB\r\n") }
    ensures a_line_is_told_in_the_order_of_f_backwards { told lifted (codes "X,T,S,R,Q,O,N,I,ES,D,B")
        ≡ Ok (codes "200 9 OK\r\nX: 1aB\r\nT: L/all,G/oc\r\nS: L/dl,L/vmwi\r\nR: L/hu(N),D/[0123456789T](D)\r\n"
        ++ codes "Q: loop,discard\r\nO: L/hd,D/1\r\nN: Me@[127.0.0.1]:2728\r\nI:\r\nES: L/hd\r\nD: (12T|34)\r\nB: e:A\r\n") }
    // An item is told once, at its first place, in whatever case and with whatever blanks it is asked for.
    ensures again { told opening (codes "ES,B,ES,b,es") ≡ Ok (codes "200 9 OK\r\nES: L/hu\r\nB: e:mu\r\n") }
    ensures case { told opening (codes "eS,x") ≡ Ok (codes "200 9 OK\r\nES: L/hu\r\nX: 0\r\n") }
    ensures blanks { told opening (codes " X ,\tb") ≡ Ok (codes "200 9 OK\r\nX: 0\r\nB: e:mu\r\n") }
    ensures an_item_is_told_once_connection { told_of (calling first_connection) (codes "1") (codes "m,C,M,c")
        ≡ Ok (codes "200 9 OK\r\nM: recvonly\r\nC: 1A\r\n") }
    // What isn't known is left out, and an empty F asks for nothing.
    ensures others { told opening (codes "RM,ES,,E,ESX,C,LC,X;B") ≡ Ok (codes "200 9 OK\r\nES: L/hu\r\n") }
    ensures empty { told opening (codes "") ≡ Ok (codes "200 9 OK\r\n") }
    ensures other_items_are_left_out_of_a_connection { told_of (calling first_connection) (codes "1") (codes "ES,A,M,L C,I")
        ≡ Ok (codes "200 9 OK\r\nM: recvonly\r\n") }
    ensures nothing { told_of (calling first_connection) (codes "1") (codes "") ≡ Ok (codes "200 9 OK\r\n") }
{}

/// Each sentence at an example.
pub fn further_sentences_have_examples()
    // The encoding of a line is told by B, and changes no connection.
    ensures line { told (record (calling first_connection) { encoding = Encoding.A }) (codes "B,A,I")
        ≡ Ok (codes "200 9 OK\r\nB: e:A\r\n" ++ capabilities ++ codes "I: 1\r\n") }
    ensures the_encoding_is_told_by_b_alone_connection { told_of (record (calling first_connection) { encoding = Encoding.A })
        (codes "1") (codes "L")
        ≡ Ok (codes "200 9 OK\r\nL: a:PCMU;PCMA, p:20\r\n") }
    // Each item of a connection has its value; L has the local list, also where the remote description leaves less.
    ensures first { told_of (calling first_connection) (codes "1") (codes "C,L,M,N,P")
        ≡ Ok (codes "200 9 OK\r\nC: 1A\r\nL: a:PCMU;PCMA, p:20\r\nM: recvonly\r\nN: ca@ca.example.net\r\n" ++ statistics) }
    ensures counts { told_of (calling first_connection) (codes "1") (codes "P")
        ≡ Ok (codes "200 9 OK\r\nP: PS=0, OS=0, PR=0, OR=0, PL=0, JI=0, LA=0\r\n") }
    ensures cut { told_of (calling cut_connection) (codes "1") (codes "L") ≡ Ok (codes "200 9 OK\r\nL: a:PCMU;PCMA, p:20\r\n") }
    ensures pcma { told_of (calling pcma_connection) (codes "1") (codes "L") ≡ Ok (codes "200 9 OK\r\nL: a:PCMA, p:30\r\n") }
    ensures each_item_of_a_connection_is_told_entity { told_of (record (calling first_connection) { entity = lifted.entity })
        (codes "1") (codes "N")
        ≡ Ok (codes "200 9 OK\r\nN: Me@[127.0.0.1]:2728\r\n") }
    // The items of a connection are told in the order of F.
    ensures after_a_change { told_of_under 1915 (calling (record cut_connection { mode = Mode.SendReceive })) (codes "1") (codes "C,M")
        ≡ Ok (codes "200 1915 OK\r\nC: 1A\r\nM: sendrecv\r\n") }
    ensures a_connection_is_told_in_the_order_of_f_backwards { told_of (calling first_connection) (codes "1") (codes "P,N,M,L,C")
        ≡ Ok (codes "200 9 OK\r\n" ++ statistics ++ codes "N: ca@ca.example.net\r\nM: recvonly\r\nL: a:PCMU;PCMA, p:20\r\nC: 1A\r\n") }
    // The local description stands behind the items and an empty line, and the remote one behind one more, in whatever order F
    // asks for them. The local one has the list in force and the port of its place; a remote one that isn't known is `v=0`.
    ensures local { told_of (calling cut_connection) (codes "1") (codes "LC")
        ≡ Ok (codes "200 9 OK\r\n\r\n" ++ described (codes "1 2") (codes "3000 RTP/AVP 8")) }
    ensures remote { told_of (calling cut_connection) (codes "1") (codes "M,rc")
        ≡ Ok (codes "200 9 OK\r\nM: recvonly\r\n\r\nv=0\r\nc=IN IP4 10.0.0.9\r\nm=audio 4000 RTP/AVP 8\r\n") }
    ensures both { told_of (calling cut_connection) (codes "1") (codes "lc,C,RC,LC")
        ≡ Ok (codes "200 9 OK\r\nC: 1A\r\n\r\n" ++ described (codes "1 2") (codes "3000 RTP/AVP 8")
        ++ codes "\r\nv=0\r\nc=IN IP4 10.0.0.9\r\nm=audio 4000 RTP/AVP 8\r\n") }
    ensures turned { told_of (calling cut_connection) (codes "1") (codes "RC,LC")
        ≡ told_of (calling cut_connection) (codes "1") (codes "LC,RC") }
    ensures unknown { told_of (calling first_connection) (codes "1") (codes "RC") ≡ Ok (codes "200 9 OK\r\n\r\nv=0\r\n") }
    ensures both_unknown { told_of (calling first_connection) (codes "1") (codes "RC,LC")
        ≡ Ok (codes "200 9 OK\r\n\r\n" ++ described (codes "1 1") (codes "3000 RTP/AVP 0 8") ++ codes "\r\nv=0\r\n") }
    ensures by_place { told_of (with_places (None ∷ numbered 7 ∷ None ∷ numbered 26 ∷ [])) (codes "1a") (codes "LC")
        ≡ Ok (codes "200 9 OK\r\n\r\n" ++ described (codes "26 1") (codes "3006 RTP/AVP 0 8")) }
    // An identifier of no connection of the line is 515, also one with leading zeros.
    ensures none { told_of opening (codes "1") (codes "M") ≡ Err 515 }
    ensures other { told_of (calling first_connection) (codes "9") (codes "M") ≡ Err 515 }
    ensures zeros { told_of (calling first_connection) (codes "01") (codes "") ≡ Err 515 }
    ensures its_call { told_of (calling first_connection) (codes "1A") (codes "M") ≡ Err 515 }
    // A response of more than 4,000 bytes is 533, of a line and of a connection. An entity is never so long; here it stands for
    // all that can be told.
    ensures longest { size_of (told (with_entity 3985) (codes "N")) ≡ Ok 4000 }
    ensures too_long { told (with_entity 3986) (codes "N") ≡ Err 533 }
    ensures by_its_id { told_under 10 (with_entity 3985) (codes "N") ≡ Err 533 }
    ensures unasked { told (with_entity 3986) (codes "X") ≡ Ok (codes "200 9 OK\r\nX: 0\r\n") }
    ensures a_long_response_is_533_of_a_connection { size_of (told_of (calling_with_entity 3985) (codes "1") (codes "N")) ≡ Ok 4000 }
    ensures too_long_of_it { told_of (calling_with_entity 3986) (codes "1") (codes "N") ≡ Err 533 }
    ensures with_its_description { size_of (told_of (calling_with_entity 3882) (codes "1") (codes "LC,N")) ≡ Ok 4000 }
    ensures by_its_description { told_of (calling_with_entity 3883) (codes "1") (codes "LC,N") ≡ Err 533 }
{}
