//! Worked examples of the definitions, as theorems: each sentence of a definition has one that a slip in it breaks.
#![tactic(auto, unfolding(crate::proofs::Computing::on_examples))]

ghost use Rattle.std.specs.Prelude.{◌≡◌, ◌++◌, true, false, codes, replicate, [], ◌∷◌, Some, Ok, Err};
ghost use Rattle.std.specs.List.{repeat};
ghost use Rattle.mgcp_text.specs.declared.message.Message.TheVariants as messages;
ghost use Rattle.mgcp_text.specs.declared.message.Verb.TheVariants.{Auep};
ghost use Rattle.packages.specs.declared.event.LineEvent.TheVariants.{OffHook, OnHook, Flash, GenericComplete};
ghost use Rattle.packages.specs.declared.signal.Signal.TheVariants.{DialTone, Ringing, MessageWaiting};
ghost use Rattle.digit_map.specs.declared.change.MapChange.TheVariants.{Remove, Replace};
ghost use Rattle.event_syntax.specs.declared.events.Events.TheVariants.{AllOfLine, One, Letters};
ghost use Rattle.packages.specs.declared.handling.Notifying.TheVariants.{Step, Loop};
ghost use Rattle.packages.specs.declared.handling.Quarantined.TheVariants.{Process, Discard};
ghost use Rattle.event_syntax.specs.declared.request.Action.TheVariants.{Notify, Accumulate, Dial};
ghost use Rattle.packages.specs.declared.signals.Setting.TheVariants.{Start, Stop, Lasting};
ghost use Rattle.event_syntax.specs.Ranges.{letters_in};
ghost use Rattle.mgcp_text.specs.declared.confirmation.KValue.TheVariants.{Absent, Unreadable};
ghost use Rattle.connections.specs.declared.codec.Encoding.TheVariants.{Mu};
ghost use Rattle.command_forms.specs.declared.forms.AuditTarget.TheVariants as audits;
ghost use Rattle.command_forms.specs.declared.forms.Target.TheVariants as targets;
ghost use Rattle.command_forms.specs.declared.refused.FaultyPart.TheVariants as places;
ghost use Rattle.command_forms.specs.declared.verbs.Connecting.TheVariants.{Keeps};
ghost use Rattle.command_forms.specs.Refusing.{refusal};
ghost use Rattle.command_forms.specs.Meaning.{is_for, meant_in};
ghost use Rattle.command_forms.specs.Values.{change_at};
ghost use Rattle.command_forms.specs.Deeds.{deed_of};
ghost use Rattle.command_forms.specs.Order.{form_in};
ghost use Rattle.command_forms.specs.Example.{gateway, reply_to, command_on, request_on, audit_on, request, audit, refused, bare_request, request_for, request_with, taken, asks, audit_of};
ghost use Rattle.command_forms.specs.Example.{nothing, does_on, only, requests, looking_for, request_at, request_meanwhile, request_handling, request_changing, handled, does};

/// A request has an identifier as it was given, and may have signals, an entity and an encoding. What follows the
/// parameters is ignored. A command without an identifier requests nothing.
pub fn requests_are_read()
    ensures identifier { request (codes "X: 1\r\n") ≡ taken }
    ensures as_given { request (codes "X: 0a0F\r\n") ≡ bare_request (targets.One 1) (codes "0a0F") }
    ensures signals { request (codes "X: 1\r\nS: L/rg(to=5),vmwi(-),L/dl\r\n") ≡ request_for (asks Ringing (Lasting 5)
        ∷ asks MessageWaiting Stop ∷ asks DialTone Start ∷ []) }
    ensures no_signals { request (codes "X: 1\r\nS:\r\n") ≡ taken }
    ensures entity { request (codes "X: 1\r\nN: CA@Ca.example.net\r\n") ≡ request_with (codes "CA@Ca.example.net") 2727 }
    ensures port { request (codes "N: ca@[127.0.0.1]:2728\r\nX: 1\r\n") ≡ request_with (codes "ca@[127.0.0.1]:2728") 2728 }
    ensures confirming { request (codes "K: 7-9, 12\r\nX: 1\r\n") ≡ taken }
    ensures confirming_none { request (codes "X: 1\r\nK:\r\n") ≡ taken }
    ensures description { request (codes "X: 1\r\n\r\nX+Y: 1\r\n") ≡ taken }
    ensures faulty_description { request (codes "X: 1\r\n\r\nv=1\r\n") ≡ taken }
    ensures encoding { request (codes "X: 1\r\nB: e:mu\r\n")
        ≡ does_on (targets.One 1) (record nothing { encoding = Some Mu; request = Some (only (codes "1")) }) }
    ensures without { deed_of Keeps [] [] [] ≡ Ok nothing }
    ensures lower_case { command_on (codes "rqnt") (codes "AALN/1") (codes "x: 1\r\nk: 1\r\ns:\r\n") ≡ taken }
{}

/// A request may say what is done at which events (R), which events to look for meanwhile (T), how events are handled (Q)
/// and what becomes of the digit map (D). What is absent is no events, step and process, and that the map stays.
pub fn requests_ask_for_events()
    ensures requested { request (codes "X: 1\r\nR: L/hd(N), G/oc(A)\r\n")
        ≡ request_at (does (One OffHook) Notify ∷ does (One GenericComplete) Accumulate ∷ []) }
    ensures dialled { request (codes "R: D/5(D)\r\nX: 1\r\n") ≡ request_at (does (Letters (letters_in (codes "5"))) Dial ∷ []) }
    ensures none_requested { request (codes "X: 1\r\nR:\r\n") ≡ taken }
    ensures detected { request (codes "X: 1\r\nT: L/hu,L/all\r\n") ≡ request_meanwhile (One OnHook ∷ AllOfLine ∷ []) }
    ensures none_detected { request (codes "T:\r\nX: 1\r\n") ≡ taken }
    ensures looping { request (codes "X: 1\r\nQ: loop\r\n") ≡ request_handling Loop Process }
    ensures discarding { request (codes "X: 1\r\nQ: discard\r\n") ≡ request_handling Step Discard }
    ensures both { request (codes "X: 1\r\nQ: DISCARD , loop\r\n") ≡ request_handling Loop Discard }
    ensures neither { request (codes "X: 1\r\nQ: process,step\r\n") ≡ taken }
    ensures map { request (codes "X: 1\r\nD: (0T | 8x)\r\n") ≡ request_changing (Replace (codes "(0T|8x)")) }
    ensures no_map { request (codes "X: 1\r\nD:\r\n") ≡ request_changing Remove }
    ensures blank_map { request (codes "D: \t \r\nX: 1\r\n") ≡ request_changing Remove }
    ensures lower_case { request (codes "x: 1\r\nr:\r\nt:\r\nq: step\r\nd: xx\r\n") ≡ request_changing (Replace (codes "xx")) }
    ensures all { request_on (codes "*") (codes "S: L/dl\r\nT: L/hf\r\nR: L/hu(N)\r\nD: xx\r\nQ: loop\r\nX: A7\r\n")
        ≡ requests targets.All (record {
          identifier = codes "A7";
          events = looking_for (does (One OnHook) Notify ∷ []) (One Flash ∷ []);
          signals = asks DialTone Start ∷ [];
          handling = handled Loop Process;
          map = Replace (codes "xx");
        }) }
{}

/// An audit has the items that F asks for, with commas between them as they were given; an empty F is no F.
pub fn audits_are_read()
    ensures bare { audit [] ≡ audit_of (audits.One 1) [] }
    ensures items { audit (codes "F: es , X\r\n") ≡ audit_of (audits.One 1) (codes "es , X") }
    ensures no_items { audit (codes "F:\r\n") ≡ audit_of (audits.One 1) [] }
    ensures description { audit (codes "F: ES\r\n\r\nv=1\r\n") ≡ audit_of (audits.One 1) (codes "ES") }
    ensures confirming { audit (codes "K: 1\r\nf: ES\r\n") ≡ audit_of (audits.One 1) (codes "ES") }
    ensures last_line { audit_on (codes "aaln/16") [] ≡ audit_of (audits.One 16) [] }
{}

/// Each sentence at an example.
pub fn each_sentence_has_an_example()
    // The verbs without a row are 504, and so is a message that is no command.
    ensures ntfy { command_on (codes "NTFY") (codes "aaln/1") (codes "X: 1\r\n") ≡ refused 504 }
    ensures rsip { command_on (codes "RSIP") (codes "aaln/1") [] ≡ refused 504 }
    ensures unknown { command_on (codes "PING") (codes "aaln/1") [] ≡ refused 504 }
    ensures response { form_in (messages.Response 200 2001 [] []) Absent gateway ≡ Err 504 }
    ensures response_means_nothing { meant_in (messages.Response 200 2001 [] []) gateway ≡ Err (refusal places.Verb 504) }
    // A name that no endpoint has is 500; a wildcard in another place is 503.
    ensures beyond { request_on (codes "aaln/17") (codes "X: 1\r\n") ≡ refused 500 }
    ensures audit_beyond { audit_on (codes "aaln/17") [] ≡ refused 500 }
    ensures no_wildcard { audit_on (codes "aaln/*x") [] ≡ refused 500 }
    ensures other_domain { reply_to (codes "AUEP 2001 aaln/1@ca.example.net MGCP 1.0\r\n") ≡ refused 500 }
    ensures complicated { request_on (codes "aaln/*/1") (codes "X: 1\r\n") ≡ refused 503 }
    ensures audit_complicated { audit_on (codes "*/aaln") [] ≡ refused 503 }
    // A command for one line is for that line and no other; one for all lines is for each; one for any one line is for none
    // before it is chosen.
    ensures one { is_for (targets.One 2) 2 ≡ true }
    ensures lesser { is_for (targets.One 2) 1 ≡ false }
    ensures greater { is_for (targets.One 2) 3 ≡ false }
    ensures first { is_for targets.All 1 ≡ true }
    ensures last { is_for targets.All 16 ≡ true }
    ensures any { is_for targets.Any 1 ≡ false }
    // The parameters are checked from top to bottom.
    ensures foreign_first { request (codes "M: x\r\nX+Y: 1\r\nX: 1\r\n") ≡ refused 539 }
    ensures critical_first { request (codes "X+Y: 1\r\nM: x\r\nX: 1\r\n") ≡ refused 511 }
    ensures second_first { request (codes "X: 1\r\nX: 1\r\nM: x\r\n") ≡ refused 510 }
    ensures foreign_before_second { request (codes "X: 1\r\nM: x\r\nX: 1\r\n") ≡ refused 539 }
{}

/// A request may be on all lines; an audit may where it asks for no items. Neither may be on any one line.
pub fn some_names_may_mean_all_lines()
    ensures request_all { request_on (codes "*") (codes "X: A2\r\n") ≡ bare_request targets.All (codes "A2") }
    ensures request_after { request_on (codes "aaln/*") (codes "X: A2\r\n") ≡ bare_request targets.All (codes "A2") }
    ensures request_any { request_on (codes "$") (codes "X: A2\r\n") ≡ refused 503 }
    ensures audit_all { audit_on (codes "*") [] ≡ audit_of audits.All [] }
    ensures audit_after { audit_on (codes "aaln/*") (codes "K: 1\r\n") ≡ audit_of audits.All [] }
    ensures empty_items { audit_on (codes "*") (codes "F:\r\n") ≡ audit_of audits.All [] }
    ensures audit_items { audit_on (codes "*") (codes "F: ES\r\n") ≡ refused 503 }
    ensures lower_case { audit_on (codes "*") (codes "f: ES\r\n") ≡ refused 503 }
    ensures comma { audit_on (codes "*") (codes "F: ,\r\n") ≡ refused 503 }
    ensures audit_any { audit_on (codes "$") [] ≡ refused 503 }
    // The first F counts here, and a second one is found later.
    ensures first_empty { audit_on (codes "*") (codes "F:\r\nF: ES\r\n") ≡ refused 510 }
    ensures first_full { audit_on (codes "*") (codes "F: ES\r\nF:\r\n") ≡ refused 503 }
{}

/// An extension `X+..` or with a `/` isn't understood, and `X-..` is ignored, both in either case.
pub fn extensions_begin_with_x()
    ensures critical { request (codes "X: 1\r\nX+Y: 1\r\n") ≡ refused 511 }
    ensures critical_lower { request (codes "X: 1\r\nx+y: 1\r\n") ≡ refused 511 }
    ensures critical_sign { request (codes "X: 1\r\nX+: 1\r\n") ≡ refused 511 }
    ensures package { request (codes "X: 1\r\nL/S: 1\r\n") ≡ refused 511 }
    ensures last_slash { request (codes "X: 1\r\nS/: 1\r\n") ≡ refused 511 }
    ensures ignored { request (codes "X: 1\r\nX-Y: 1\r\n") ≡ taken }
    ensures ignored_lower { request (codes "X: 1\r\nx-y: 1\r\n") ≡ taken }
    ensures ignored_sign { request (codes "X: 1\r\nX-: 1\r\n") ≡ taken }
    ensures ignored_twice { request (codes "X-Y: 1\r\nX: 1\r\nX-Y: 2\r\n") ≡ taken }
    ensures ignored_with_slash { request (codes "X: 1\r\nX-a/b: 1\r\n") ≡ refused 511 }
    ensures other_letter { request (codes "X: 1\r\nS-Y: 1\r\n") ≡ refused 539 }
    ensures other_plus { request (codes "X: 1\r\nS+Y: 1\r\n") ≡ refused 539 }
    ensures other_sign { request (codes "X: 1\r\nXY: 1\r\n") ≡ refused 539 }
    // What is ignored stands for nothing.
    ensures no_identifier { request (codes "X-: 1\r\n") ≡ refused 510 }
{}

/// A request must have X and may have N, B, R, S, D, T, Q and K; an audit may have F and K.
pub fn verbs_have_codes()
    ensures missing { request [] ≡ refused 510 }
    ensures missing_with_others { request (codes "S: L/rg\r\nK: 1\r\n") ≡ refused 510 }
    ensures missing_with_events { request (codes "R:\r\nT:\r\n") ≡ refused 510 }
    ensures missing_with_handling { request (codes "Q: step\r\n") ≡ refused 510 }
    ensures missing_with_map { request (codes "D:\r\n") ≡ refused 510 }
    ensures foreign { request (codes "X: 1\r\nM: x\r\n") ≡ refused 539 }
    ensures call { request (codes "X: 1\r\nC: 1\r\n") ≡ refused 539 }
    ensures connection { request (codes "X: 1\r\nI: 1\r\n") ≡ refused 539 }
    ensures options { request (codes "X: 1\r\nL: p:20\r\n") ≡ refused 539 }
    ensures items { request (codes "X: 1\r\nF: ES\r\n") ≡ refused 539 }
    ensures longer { request (codes "X: 1\r\nSS: L/rg\r\n") ≡ refused 539 }
    ensures audit_identifier { audit (codes "X: 1\r\n") ≡ refused 539 }
    ensures audit_entity { audit (codes "N: ca@ca.example.net\r\n") ≡ refused 539 }
    ensures audit_signals { audit (codes "S:\r\n") ≡ refused 539 }
    ensures audit_requested { audit (codes "R:\r\n") ≡ refused 539 }
    ensures audit_detected { audit (codes "T:\r\n") ≡ refused 539 }
    ensures audit_handling { audit (codes "Q: step\r\n") ≡ refused 539 }
    ensures audit_map { audit (codes "D:\r\n") ≡ refused 539 }
    ensures audit_foreign { audit (codes "M: x\r\n") ≡ refused 539 }
    ensures audit_encoding { audit (codes "B: e:mu\r\n") ≡ refused 539 }
    ensures audit_call { audit (codes "C: 1\r\n") ≡ refused 539 }
    ensures audit_connection { audit (codes "I: 1\r\n") ≡ refused 539 }
    ensures audit_options { audit (codes "L: p:20\r\n") ≡ refused 539 }
{}

/// A code may stand once, in whatever case.
pub fn codes_stand_once()
    ensures identifier { request (codes "X: 1\r\nX: 1\r\n") ≡ refused 510 }
    ensures case { request (codes "X: 1\r\nx: 1\r\n") ≡ refused 510 }
    ensures apart { request (codes "S:\r\nX: 1\r\ns:\r\n") ≡ refused 510 }
    ensures requested { request (codes "X: 1\r\nR:\r\nr:\r\n") ≡ refused 510 }
    ensures detected { request (codes "X: 1\r\nT:\r\nT:\r\n") ≡ refused 510 }
    ensures handling { request (codes "X: 1\r\nQ: step\r\nQ: step\r\n") ≡ refused 510 }
    ensures map { request (codes "X: 1\r\nD:\r\nD:\r\n") ≡ refused 510 }
    ensures entity { request (codes "X: 1\r\nN: ca@ca.example.net\r\nN: ca@ca.example.net\r\n") ≡ refused 510 }
    ensures confirming { audit (codes "K: 1\r\nK: 2\r\n") ≡ refused 510 }
    ensures items { audit (codes "F: ES\r\nF: ES\r\n") ≡ refused 510 }
{}

/// Each value has its own code, also where it is empty; an identifier is 1 to 32 hexadecimal digits.
pub fn values_have_codes()
    ensures confirming { request (codes "X: 1\r\nK: x\r\n") ≡ refused 510 }
    ensures audit_confirming { audit (codes "K: x\r\n") ≡ refused 510 }
    // What K confirms was read before, and isn't read again.
    ensures told { form_in (messages.Command Auep 2001 (codes "aaln/1@rgw.example.net") [] []) Unreadable gateway ≡ Err 510 }
    ensures entity { request (codes "X: 1\r\nN: ca@other.example.net\r\n") ≡ refused 539 }
    ensures no_entity { request (codes "X: 1\r\nN:\r\n") ≡ refused 539 }
    ensures no_identifier { request (codes "X:\r\n") ≡ refused 510 }
    ensures no_digit { request (codes "X: 1g\r\n") ≡ refused 510 }
    ensures digits_32 { let digits = replicate 32 70 in
        request (codes "X: " ++ digits ++ codes "\r\n") ≡ bare_request (targets.One 1) digits }
    ensures digits_33 { request (codes "X: " ++ replicate 33 70 ++ codes "\r\n") ≡ refused 510 }
    ensures spelling { request (codes "X: 1\r\nS: L/dl()\r\n") ≡ refused 510 }
    ensures package { request (codes "X: 1\r\nS: Q/a\r\n") ≡ refused 518 }
    ensures unknown { request (codes "X: 1\r\nS: L/wt\r\n") ≡ refused 513 }
    ensures event { request (codes "X: 1\r\nS: L/hd\r\n") ≡ refused 522 }
    ensures parameter { request (codes "X: 1\r\nS: L/dl(to=x)\r\n") ≡ refused 538 }
    ensures nine { request (codes "X: 1\r\nS: dl,dl,dl,dl,dl,dl,dl,dl,dl\r\n") ≡ refused 502 }
{}

/// So have R, T, Q and D: the codes of R and T are those of their first faults, another Q is 508, and a D that is no map
/// is 510, a map that is too large 502.
pub fn values_of_events_have_codes()
    ensures handling { request (codes "X: 1\r\nQ: fast\r\n") ≡ refused 508 }
    ensures no_handling { request (codes "X: 1\r\nQ:\r\n") ≡ refused 508 }
    ensures map { request (codes "X: 1\r\nD: [9-1]\r\n") ≡ refused 510 }
    ensures large_map { change_at (Some (record { code = codes "D"; value = replicate 2049 49 })) ≡ Err 502 }
    ensures largest_map { let digits = replicate 2048 49 in
        change_at (Some (record { code = codes "D"; value = digits })) ≡ Ok (Replace digits) }
    ensures spelling { request (codes "X: 1\r\nR: L/hd(N\r\n") ≡ refused 510 }
    ensures package { request (codes "X: 1\r\nR: Q/a(N)\r\n") ≡ refused 518 }
    ensures unknown { request (codes "X: 1\r\nR: L/wt(N)\r\n") ≡ refused 512 }
    ensures connection { request (codes "X: 1\r\nR: L/hd@1(N)\r\n") ≡ refused 512 }
    ensures signal { request (codes "X: 1\r\nR: L/dl(N)\r\n") ≡ refused 522 }
    ensures parameter { request (codes "X: 1\r\nR: L/hd(Z)(p)\r\n") ≡ refused 538 }
    ensures timer { request (codes "X: 1\r\nR: D/T(N)\r\n") ≡ refused 523 }
    ensures two_actions { request (codes "X: 1\r\nR: L/hd(N,A)\r\n") ≡ refused 523 }
    ensures embedded_signal { request (codes "X: 1\r\nR: L/hd(E(S(L/wt)))\r\n") ≡ refused 513 }
    ensures entries_33 { request (codes "X: 1\r\nR: " ++ repeat 32 (codes "hd,") ++ codes "hd\r\n") ≡ refused 502 }
    ensures detected_spelling { request (codes "X: 1\r\nT: L/hd,\r\n") ≡ refused 510 }
    ensures detected_package { request (codes "X: 1\r\nT: Q/a\r\n") ≡ refused 518 }
    ensures detected_unknown { request (codes "X: 1\r\nT: L/wt\r\n") ≡ refused 512 }
    ensures detected_signal { request (codes "X: 1\r\nT: L/dl\r\n") ≡ refused 522 }
    ensures detected_parameter { request (codes "X: 1\r\nT: L/hd(N)\r\n") ≡ refused 538 }
    ensures detected_33 { request (codes "X: 1\r\nT: " ++ repeat 32 (codes "hd,") ++ codes "hd\r\n") ≡ refused 502 }
{}

/// The verb comes first, then the name, then the parameters, then what is missing, then the values.
pub fn a_command_is_checked_in_order()
    ensures verb_before_name { command_on (codes "NTFY") (codes "aaln/17") [] ≡ refused 504 }
    ensures verb_before_wildcard { command_on (codes "NTFY") (codes "$") [] ≡ refused 504 }
    ensures verb_before_parameters { command_on (codes "NTFY") (codes "aaln/1") (codes "X+Y: 1\r\n") ≡ refused 504 }
    ensures name_before_parameters { request_on (codes "aaln/17") (codes "X+Y: 1\r\n") ≡ refused 500 }
    ensures complicated_before_parameters { request_on (codes "aaln/*/1") (codes "X+Y: 1\r\n") ≡ refused 503 }
    ensures wildcard_before_parameters { request_on (codes "$") (codes "X+Y: 1\r\n") ≡ refused 503 }
    ensures items_before_parameters { audit_on (codes "*") (codes "M: x\r\nF: ES\r\n") ≡ refused 503 }
    ensures parameters_before_missing { request (codes "M: x\r\n") ≡ refused 539 }
    ensures parameters_before_values { request (codes "X: g\r\nS: Q/a\r\nM: x\r\n") ≡ refused 539 }
    ensures parameters_before_confirming { request (codes "K: x\r\nX: 1\r\nM: x\r\n") ≡ refused 539 }
    ensures missing_before_entity { request (codes "N: x\r\n") ≡ refused 510 }
    ensures missing_before_handling { request (codes "Q: fast\r\n") ≡ refused 510 }
    ensures missing_before_requested { request (codes "R: Q/a\r\n") ≡ refused 510 }
    ensures missing_before_detected { request (codes "T: Q/a\r\n") ≡ refused 510 }
    ensures missing_before_signals { request (codes "S: Q/a\r\n") ≡ refused 510 }
{}

/// The values of a request are judged in the order K, N, B, X, Q, D, R, T, S, wherever their lines stand.
pub fn values_are_judged_in_order()
    ensures k_before_n { request (codes "X: 1\r\nN: x\r\nK: x\r\n") ≡ refused 510 }
    ensures k_above_n { request (codes "K: x\r\nN: x\r\nX: 1\r\n") ≡ refused 510 }
    ensures k_before_s { request (codes "S: Q/a\r\nX: 1\r\nK: x\r\n") ≡ refused 510 }
    ensures n_before_x { request (codes "X: g\r\nN: x\r\n") ≡ refused 539 }
    ensures n_above_x { request (codes "N: x\r\nX: g\r\n") ≡ refused 539 }
    ensures n_before_s { request (codes "S: Q/a\r\nX: 1\r\nN: x\r\n") ≡ refused 539 }
    ensures b_before_x { request (codes "X: g\r\nB: x\r\n") ≡ refused 539 }
    ensures k_before_b { request (codes "B: x\r\nK: x\r\nX: 1\r\n") ≡ refused 510 }
    ensures x_before_s { request (codes "S: Q/a\r\nX: g\r\n") ≡ refused 510 }
    ensures x_above_s { request (codes "X: g\r\nS: Q/a\r\n") ≡ refused 510 }
    ensures k_before_q { request (codes "Q: fast\r\nX: 1\r\nK: x\r\n") ≡ refused 510 }
    ensures n_before_q { request (codes "Q: fast\r\nX: 1\r\nN: x\r\n") ≡ refused 539 }
    ensures x_before_q { request (codes "Q: fast\r\nX: g\r\n") ≡ refused 510 }
    ensures x_above_q { request (codes "X: g\r\nQ: fast\r\n") ≡ refused 510 }
    ensures q_before_d { request (codes "X: 1\r\nD: [9-1]\r\nQ: fast\r\n") ≡ refused 508 }
    ensures q_above_d { request (codes "X: 1\r\nQ: fast\r\nD: [9-1]\r\n") ≡ refused 508 }
    ensures q_before_r { request (codes "R: Q/a\r\nX: 1\r\nQ: fast\r\n") ≡ refused 508 }
    ensures d_before_r { request (codes "R: Q/a\r\nX: 1\r\nD: [9-1]\r\n") ≡ refused 510 }
    ensures d_above_r { request (codes "D: [9-1]\r\nR: Q/a\r\nX: 1\r\n") ≡ refused 510 }
    ensures d_before_t { request (codes "T: Q/a\r\nX: 1\r\nD: [9-1]\r\n") ≡ refused 510 }
    ensures r_before_t { request (codes "T: L/dl\r\nX: 1\r\nR: Q/a\r\n") ≡ refused 518 }
    ensures r_above_t { request (codes "R: Q/a\r\nT: L/dl\r\nX: 1\r\n") ≡ refused 518 }
    ensures t_before_s { request (codes "S: L/wt\r\nX: 1\r\nT: Q/a\r\n") ≡ refused 518 }
    ensures t_above_s { request (codes "T: Q/a\r\nS: L/wt\r\nX: 1\r\n") ≡ refused 518 }
    ensures r_before_s { request (codes "S: L/wt\r\nR: Q/a\r\nX: 1\r\n") ≡ refused 518 }
{}
