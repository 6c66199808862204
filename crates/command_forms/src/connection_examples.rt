//! Worked examples of the commands of connections and of EndpointConfiguration, as theorems.
#![tactic(auto, unfolding(crate::proofs::Computing::on_examples))]

ghost use Rattle.std.specs.Prelude.{◌≡◌, ◌++◌, true, false, codes, replicate, [], ◌∷◌, Some, None};
ghost use Rattle.command_forms.specs.declared.forms.Target.TheVariants as targets;
ghost use Rattle.packages.specs.declared.event.LineEvent.TheVariants.{OffHook, OnHook};
ghost use Rattle.packages.specs.declared.signal.Signal.TheVariants.{DialTone};
ghost use Rattle.digit_map.specs.declared.change.MapChange.TheVariants.{Replace};
ghost use Rattle.event_syntax.specs.declared.events.Events.TheVariants.{One};
ghost use Rattle.packages.specs.declared.handling.Notifying.TheVariants.{Loop};
ghost use Rattle.packages.specs.declared.handling.Quarantined.TheVariants.{Process};
ghost use Rattle.event_syntax.specs.declared.request.Action.TheVariants.{Notify};
ghost use Rattle.packages.specs.declared.signals.Setting.TheVariants.{Start};
ghost use Rattle.connections.specs.declared.codec.Codec.TheVariants.{Pcmu, Pcma};
ghost use Rattle.connections.specs.declared.codec.Codecs.TheVariants.{Only, Both};
ghost use Rattle.connections.specs.declared.codec.Encoding.TheVariants.{Mu, A};
ghost use Rattle.connections.specs.declared.deletion.Deletion.TheVariants as deletions;
ghost use Rattle.connections.specs.declared.mode.Mode.TheVariants.{SendOnly, SendReceive, Conference, Inactive};
ghost use Rattle.connections.specs.Options.{no_options};
ghost use Rattle.connections.specs.Example.{asked as asking, asked_time};
ghost use Rattle.command_forms.specs.declared.forms.ConnectionDeed.TheVariants as deeds;
ghost use Rattle.command_forms.specs.Example.{command_on, refused, only, looking_for, request, handled, does, asks};
ghost use Rattle.command_forms.specs.Example.{nothing, does_on, configure, create, modify, delete, create_with};
ghost use Rattle.command_forms.specs.Example.{modify_with};
ghost use Rattle.command_forms.specs.Example.{described, session, connects_on, connects, receiver, creates};
ghost use Rattle.command_forms.specs.Example.{creates_in, creates_asking, created};
ghost use Rattle.command_forms.specs.declared.verbs.Connecting.TheVariants.{Keeps, Creates, Modifies, Deletes};
ghost use Rattle.command_forms.specs.declared.verbs.Purpose.TheVariants.{ForReport, ForDeed};
ghost use Rattle.command_forms.specs.declared.verbs.Reporting.TheVariants.{Endpoint, Connection};
ghost use Rattle.command_forms.specs.Deeds.{deletion_by, with_remote};
ghost use Rattle.command_forms.specs.Order.{names_call, counted};
ghost use Rattle.command_forms.specs.Example.{called_agent, offering, connection_alone, no_change, modification};
ghost use Rattle.command_forms.specs.Example.{modifies, modified, deletes};

/// EndpointConfiguration says an encoding, or nothing; what follows the parameters is ignored.
pub fn endpoints_are_configured()
    ensures bare { configure [] ≡ does_on (targets.One 1) nothing }
    ensures mu { configure (codes "B: e:mu\r\n") ≡ does_on (targets.One 1) (record nothing { encoding = Some Mu }) }
    ensures a_law { configure (codes "B: e:A\r\n")
        ≡ does_on (targets.One 1) (record nothing { encoding = Some A }) }
    ensures upper_case { configure (codes "B: E:MU\r\n")
        ≡ does_on (targets.One 1) (record nothing { encoding = Some Mu }) }
    ensures lower_case { command_on (codes "epcf") (codes "aaln/1") (codes "b: e:a\r\nk: 1\r\n")
        ≡ does_on (targets.One 1) (record nothing { encoding = Some A }) }
    ensures ignored { configure (codes "X-Y: 1\r\n") ≡ does_on (targets.One 1) nothing }
    ensures description { configure (codes "\r\nv=1\r\n") ≡ does_on (targets.One 1) nothing }
{}

/// A creation has a call as it was given and a mode, and may have options, a remote description, an encoding, an entity
/// and a request. Without L it has the options that stand for it, and without a description no session.
pub fn connections_are_created()
    ensures bare { create_with [] ≡ created }
    ensures as_given { create (codes "M: recvonly\r\nC: 0a0F\r\n") ≡ creates (record receiver { call = codes "0a0F" }) }
    ensures send_only { create (codes "C: 1A\r\nM: sendonly\r\n") ≡ creates_in SendOnly }
    ensures send_receive { create (codes "C: 1A\r\nM: SendRecv\r\n") ≡ creates_in SendReceive }
    ensures conference { create (codes "C: 1A\r\nM: confrnce\r\n") ≡ creates_in Conference }
    ensures inactive { create (codes "C: 1A\r\nM: inactive\r\n") ≡ creates_in Inactive }
    ensures options { create_with (codes "L: a:PCMA , p:10\r\n") ≡ creates_asking (asking (Only Pcma) 10) }
    ensures time { create_with (codes "L: p:25-35\r\n") ≡ creates_asking (asked_time 30) }
    ensures remote { create_with described ≡ creates (record receiver { remote = Some session }) }
    ensures encoding { create_with (codes "B: e:A\r\n")
        ≡ does_on (targets.One 1) (record nothing { encoding = Some A; connections = deeds.Create receiver }) }
    ensures entity { create_with (codes "N: ca@ca.example.net\r\n") ≡ does_on (targets.One 1)
        (record nothing { entity = Some called_agent; connections = deeds.Create receiver }) }
    ensures requesting { create_with (codes "X: A\r\n")
        ≡ does_on (targets.One 1)
        (record nothing { connections = deeds.Create receiver; request = Some (only (codes "A")) }) }
    ensures confirming { create_with (codes "K: 7-9\r\n") ≡ created }
    ensures lower_case { command_on (codes "crcx") (codes "AALN/1") (codes "c: 1A\r\nm: RECVONLY\r\nl: p:20\r\n")
        ≡ created }
    ensures all { create (codes "S: L/dl\r\nT: L/hu\r\nR: L/hd(N)\r\nD: xx\r\nQ: loop\r\nX: A7\r\n"
        ++ codes "L: a:PCMU;PCMA\r\nB: e:mu\r\nM: sendrecv\r\nC: 1A\r\n" ++ described)
        ≡ does_on (targets.One 1) (record {
          entity = None;
          encoding = Some Mu;
          connections = deeds.Create (record {
            call = codes "1A";
            mode = SendReceive;
            options = asking (Both Pcmu) 20;
            remote = Some session;
          });
          request = Some (record {
            identifier = codes "A7";
            events = looking_for (does (One OffHook) Notify ∷ []) (One OnHook ∷ []);
            signals = asks DialTone Start ∷ [];
            handling = handled Loop Process;
            map = Replace (codes "xx");
          });
        }) }
{}

/// A modification names a call and a connection as they were given, and says what is to change of it: what is absent,
/// mode, options or remote description, isn't. It may have an encoding, an entity and a request.
pub fn connections_are_modified()
    ensures bare { modify_with [] ≡ modified }
    ensures as_given { modify (codes "I: 01\r\nC: 1A\r\n")
        ≡ connects (deeds.Modify (codes "1A") (codes "01") no_change) }
    ensures mode { modify_with (codes "M: sendrecv\r\n") ≡ modifies (record no_change { mode = Some SendReceive }) }
    ensures options { modify_with (codes "L: a:PCMA\r\n")
        ≡ modifies (record no_change { options = Some (asking (Only Pcma) 20) }) }
    ensures no_codec { modify_with (codes "L: p:20\r\n") ≡ modifies (record no_change { options = Some no_options }) }
    ensures remote { modify_with described ≡ modifies (record no_change { remote = Some session }) }
    ensures together { modify_with (codes "L: p:10\r\nM: inactive\r\n" ++ described)
        ≡ modifies (record { mode = Some Inactive; options = Some (asked_time 10); remote = Some session }) }
    ensures encoding { modify_with (codes "B: e:mu\r\n")
        ≡ does_on (targets.One 1) (record nothing { encoding = Some Mu; connections = modification no_change }) }
    ensures entity { modify_with (codes "N: ca@ca.example.net\r\n") ≡ does_on (targets.One 1)
        (record nothing { entity = Some called_agent; connections = modification no_change }) }
    ensures requesting { modify_with (codes "X: A\r\n")
        ≡ does_on (targets.One 1)
        (record nothing { connections = modification no_change; request = Some (only (codes "A")) }) }
    ensures confirming { modify_with (codes "K:\r\n") ≡ modified }
    ensures lower_case { command_on (codes "mdcx") (codes "aaln/1") (codes "c: 1a\r\ni: 1\r\nm: SENDRECV\r\n")
        ≡ modifies (record no_change { mode = Some SendReceive }) }
{}

/// A deletion is that of the connection which C and I name, of those of the call that C names, or of all; it may have
/// an encoding, an entity and a request, and a description is ignored.
pub fn connections_are_deleted()
    ensures one { delete (codes "C: 1a\r\nI: 1\r\n") ≡ deletes (deletions.One (codes "1a") (codes "1")) }
    ensures one_above { delete (codes "I: 01\r\nC: 1A\r\n") ≡ deletes (deletions.One (codes "1A") (codes "01")) }
    ensures of_call { delete (codes "C: 1a\r\n") ≡ deletes (deletions.OfCall (codes "1a")) }
    ensures all_of_line { delete [] ≡ deletes deletions.All }
    ensures encoding { delete (codes "B: e:A\r\n")
        ≡ does_on (targets.One 1) (record nothing { encoding = Some A; connections = deeds.Delete deletions.All }) }
    ensures entity { delete (codes "N: ca@ca.example.net\r\n") ≡ does_on (targets.One 1)
        (record nothing { entity = Some called_agent; connections = deeds.Delete deletions.All }) }
    ensures requesting { delete (codes "X: A\r\n")
        ≡ does_on (targets.One 1)
        (record nothing { connections = deeds.Delete deletions.All; request = Some (only (codes "A")) }) }
    ensures confirming { delete (codes "K: 1\r\n") ≡ deletes deletions.All }
    ensures description { delete (codes "C: 1a\r\n" ++ described) ≡ deletes (deletions.OfCall (codes "1a")) }
    ensures faulty_description { delete (codes "\r\nv=0\r\n") ≡ deletes deletions.All }
    ensures lower_case { command_on (codes "dlcx") (codes "aaln/1") (codes "c: 1a\r\ni: 1\r\n")
        ≡ deletes (deletions.One (codes "1a") (codes "1")) }
{}

/// A description counts in a creation and in a modification: it can be read, or has empty lines only and is none.
pub fn descriptions_are_of_connections()
    ensures empty_lines { create_with (codes "\r\n \r\n\r\n") ≡ created }
    ensures modified_empty_lines { modify_with (codes "\r\n\r\n\t\r\n") ≡ modified }
    ensures empty_lines_at_its_end { create_with (described ++ codes "\r\n\r\n")
        ≡ creates (record receiver { remote = Some session }) }
    ensures version_alone { create_with (codes "\r\nv=0\r\n") ≡ refused 509 }
    ensures modified_version_alone { modify_with (codes "\r\nv=0\r\n") ≡ refused 509 }
    ensures empty_line_before_it { create_with (codes "\r\n\r\nv=0\r\nc=IN IP4 127.0.0.1\r\nm=audio 4000 RTP/AVP 8\r\n")
        ≡ refused 509 }
    ensures port { create_with (codes "\r\nv=0\r\nc=IN IP4 127.0.0.1\r\nm=audio 65536 RTP/AVP 8\r\n") ≡ refused 509 }
{}

/// A configuration may be on all lines, a creation on any one, a deletion on all where neither C nor I stands there,
/// whatever they are, and a modification on one line alone.
pub fn some_names_of_connections_are_wildcards()
    ensures configuration_all { command_on (codes "EPCF") (codes "*") (codes "B: e:A\r\n")
        ≡ does_on targets.All (record nothing { encoding = Some A }) }
    ensures configuration_after { command_on (codes "EPCF") (codes "aaln/*") [] ≡ does_on targets.All nothing }
    ensures configuration_any { command_on (codes "EPCF") (codes "$") [] ≡ refused 503 }
    ensures configuration_beyond { command_on (codes "EPCF") (codes "aaln/17") [] ≡ refused 500 }
    ensures creation_any { command_on (codes "CRCX") (codes "$") (codes "C: 1A\r\nM: recvonly\r\n")
        ≡ connects_on targets.Any (deeds.Create receiver) }
    ensures creation_after { command_on (codes "CRCX") (codes "aaln/$") (codes "C: 1A\r\nM: recvonly\r\n")
        ≡ connects_on targets.Any (deeds.Create receiver) }
    ensures creation_all { command_on (codes "CRCX") (codes "*") (codes "C: 1A\r\nM: recvonly\r\n") ≡ refused 503 }
    ensures creation_beyond { command_on (codes "CRCX") (codes "aaln/17") (codes "C: 1A\r\nM: recvonly\r\n")
        ≡ refused 500 }
    ensures creation_complicated { command_on (codes "CRCX") (codes "aaln/$/1") (codes "C: 1A\r\nM: recvonly\r\n")
        ≡ refused 503 }
    ensures modification_all { command_on (codes "MDCX") (codes "*") (codes "C: 1a\r\nI: 1\r\n") ≡ refused 503 }
    ensures modification_any { command_on (codes "MDCX") (codes "$") (codes "C: 1a\r\nI: 1\r\n") ≡ refused 503 }
    ensures deletion_all { command_on (codes "DLCX") (codes "*") []
        ≡ connects_on targets.All (deeds.Delete deletions.All) }
    ensures deletion_with_others { command_on (codes "DLCX") (codes "aaln/*") (codes "K: 1\r\nX: A\r\n")
        ≡ does_on targets.All
        (record nothing { connections = deeds.Delete deletions.All; request = Some (only (codes "A")) }) }
    ensures deletion_call { command_on (codes "DLCX") (codes "*") (codes "C: 1a\r\n") ≡ refused 503 }
    ensures deletion_no_call { command_on (codes "DLCX") (codes "*") (codes "C:\r\n") ≡ refused 503 }
    ensures deletion_lower_case { command_on (codes "DLCX") (codes "*") (codes "c: 1a\r\n") ≡ refused 503 }
    ensures deletion_connection { command_on (codes "DLCX") (codes "*") (codes "I: 1\r\n") ≡ refused 503 }
    ensures deletion_no_connection { command_on (codes "DLCX") (codes "*") (codes "I:\r\n") ≡ refused 503 }
    ensures deletion_both { command_on (codes "DLCX") (codes "*") (codes "C: 1a\r\nI: 1\r\n") ≡ refused 503 }
    ensures deletion_any { command_on (codes "DLCX") (codes "$") [] ≡ refused 503 }
    ensures last_line { command_on (codes "DLCX") (codes "aaln/16") []
        ≡ connects_on (targets.One 16) (deeds.Delete deletions.All) }
{}

/// What isn't of a verb's row is 539: a configuration has B alone, a creation no I, a deletion neither M nor L, and
/// none of them F.
pub fn other_codes_are_foreign()
    ensures configuration_entity { configure (codes "N: ca@ca.example.net\r\n") ≡ refused 539 }
    ensures configuration_identifier { configure (codes "X: A\r\n") ≡ refused 539 }
    ensures configuration_requested { configure (codes "R:\r\n") ≡ refused 539 }
    ensures configuration_signals { configure (codes "S:\r\n") ≡ refused 539 }
    ensures configuration_map { configure (codes "D: x\r\n") ≡ refused 539 }
    ensures configuration_detected { configure (codes "T:\r\n") ≡ refused 539 }
    ensures configuration_handling { configure (codes "Q: step\r\n") ≡ refused 539 }
    ensures configuration_call { configure (codes "C: 1\r\n") ≡ refused 539 }
    ensures configuration_connection { configure (codes "I: 1\r\n") ≡ refused 539 }
    ensures configuration_mode { configure (codes "M: recvonly\r\n") ≡ refused 539 }
    ensures configuration_options { configure (codes "L: p:20\r\n") ≡ refused 539 }
    ensures configuration_items { configure (codes "F: ES\r\n") ≡ refused 539 }
    ensures creation_connection { create_with (codes "I: 1\r\n") ≡ refused 539 }
    ensures creation_items { create_with (codes "F: ES\r\n") ≡ refused 539 }
    ensures modification_items { modify_with (codes "F: ES\r\n") ≡ refused 539 }
    ensures deletion_mode { delete (codes "M: recvonly\r\n") ≡ refused 539 }
    ensures deletion_options { delete (codes "L: p:20\r\n") ≡ refused 539 }
    ensures deletion_items { delete (codes "F: ES\r\n") ≡ refused 539 }
    ensures critical { create_with (codes "X+Y: 1\r\n") ≡ refused 511 }
    ensures package { modify_with (codes "L/S: 1\r\n") ≡ refused 511 }
    ensures deletion_critical { delete (codes "X+Y: 1\r\n") ≡ refused 511 }
    ensures ignored { create_with (codes "X-Y: 1\r\nX-Y: 2\r\n") ≡ created }
    ensures deletion_ignored { delete (codes "X-Y: 1\r\n") ≡ deletes deletions.All }
{}

/// A creation must have C and M, a modification C and I, a deletion C where it has I: else it is 510.
pub fn some_codes_must_stand_there()
    ensures creation_call { create (codes "M: recvonly\r\n") ≡ refused 510 }
    ensures creation_mode { create (codes "C: 1A\r\n") ≡ refused 510 }
    ensures creation_neither { create [] ≡ refused 510 }
    ensures modification_call { modify (codes "I: 1\r\n") ≡ refused 510 }
    ensures modification_connection { modify (codes "C: 1a\r\n") ≡ refused 510 }
    ensures modification_neither { modify (codes "M: sendrecv\r\n") ≡ refused 510 }
    ensures deletion_call { delete (codes "I: 1\r\n") ≡ refused 510 }
    ensures deletion_lower_case { delete (codes "i: 1\r\n") ≡ refused 510 }
    ensures deletion_with_others { delete (codes "X: A\r\nI: 1\r\n") ≡ refused 510 }
    ensures deletion_ignored { delete (codes "X-C: 1\r\nI: 1\r\n") ≡ refused 510 }
{}

/// R, S, D, T and Q are of a request, which is there exactly where X stands: without it each of them is 510, an empty
/// one too.
pub fn requests_have_an_identifier()
    ensures creation_requested { create_with (codes "R:\r\n") ≡ refused 510 }
    ensures creation_signals { create_with (codes "S:\r\n") ≡ refused 510 }
    ensures creation_map { create_with (codes "D: x\r\n") ≡ refused 510 }
    ensures creation_detected { create_with (codes "T:\r\n") ≡ refused 510 }
    ensures creation_handling { create_with (codes "Q: step\r\n") ≡ refused 510 }
    ensures modification_requested { modify_with (codes "R:\r\n") ≡ refused 510 }
    ensures modification_signals { modify_with (codes "S:\r\n") ≡ refused 510 }
    ensures modification_map { modify_with (codes "D: x\r\n") ≡ refused 510 }
    ensures modification_detected { modify_with (codes "T:\r\n") ≡ refused 510 }
    ensures modification_handling { modify_with (codes "Q: step\r\n") ≡ refused 510 }
    ensures deletion_requested { delete (codes "R:\r\n") ≡ refused 510 }
    ensures deletion_signals { delete (codes "S:\r\n") ≡ refused 510 }
    ensures deletion_map { delete (codes "D: x\r\n") ≡ refused 510 }
    ensures deletion_detected { delete (codes "T:\r\n") ≡ refused 510 }
    ensures deletion_handling { delete (codes "Q: step\r\n") ≡ refused 510 }
    ensures ignored { delete (codes "X-: 1\r\nR:\r\n") ≡ refused 510 }
    ensures lower_case { create_with (codes "q: step\r\n") ≡ refused 510 }
    ensures with_identifier { delete (codes "Q: step\r\nX: A\r\n")
        ≡ does_on (targets.One 1)
        (record nothing { connections = deeds.Delete deletions.All; request = Some (only (codes "A")) }) }
    ensures above_identifier { create_with (codes "R:\r\nS:\r\nT:\r\nX: A\r\n")
        ≡ does_on (targets.One 1)
        (record nothing { connections = deeds.Create receiver; request = Some (only (codes "A")) }) }
{}

/// A code may stand once, in whatever case.
pub fn codes_of_connections_stand_once()
    ensures call { create_with (codes "C: 1A\r\n") ≡ refused 510 }
    ensures mode { create_with (codes "m: recvonly\r\n") ≡ refused 510 }
    ensures options { create_with (codes "L: p:20\r\nL: p:20\r\n") ≡ refused 510 }
    ensures encoding { configure (codes "B: e:A\r\nb: e:A\r\n") ≡ refused 510 }
    ensures connection { modify_with (codes "I: 1\r\n") ≡ refused 510 }
    ensures deletion_call { delete (codes "C: 1a\r\nC: 1a\r\n") ≡ refused 510 }
    ensures identifier { delete (codes "X: A\r\nX: A\r\n") ≡ refused 510 }
{}

/// Each value has its own code, also where it is empty: B 539, C, I and X 510, M 517, L 541, or 535 for a packet time
/// that can't be had.
pub fn values_of_connections_have_codes()
    ensures encoding { configure (codes "B: e:x\r\n") ≡ refused 539 }
    ensures no_encoding { configure (codes "B:\r\n") ≡ refused 539 }
    ensures spaced_encoding { configure (codes "B: e: mu\r\n") ≡ refused 539 }
    ensures request_encoding { request (codes "X: 1\r\nB: mu\r\n") ≡ refused 539 }
    ensures entity { create_with (codes "N: ca@other.example.net\r\n") ≡ refused 539 }
    ensures confirming { create_with (codes "K: x\r\n") ≡ refused 510 }
    ensures call { create (codes "C: 1g\r\nM: recvonly\r\n") ≡ refused 510 }
    ensures no_call { create (codes "C:\r\nM: recvonly\r\n") ≡ refused 510 }
    ensures call_32 { let digits = replicate 32 70 in create (codes "C: " ++ digits ++ codes "\r\nM: recvonly\r\n")
        ≡ creates (record receiver { call = digits }) }
    ensures call_33 { create (codes "C: " ++ replicate 33 70 ++ codes "\r\nM: recvonly\r\n") ≡ refused 510 }
    ensures deletion_call { delete (codes "C: x\r\n") ≡ refused 510 }
    ensures connection { modify (codes "C: 1a\r\nI: x\r\n") ≡ refused 510 }
    ensures no_connection { modify (codes "C: 1a\r\nI:\r\n") ≡ refused 510 }
    ensures deletion_connection { delete (codes "C: 1a\r\nI: 1-1\r\n") ≡ refused 510 }
    ensures mode { create (codes "C: 1A\r\nM: loopback\r\n") ≡ refused 517 }
    ensures no_mode { create (codes "C: 1A\r\nM:\r\n") ≡ refused 517 }
    ensures modification_mode { modify_with (codes "M: loopback\r\n") ≡ refused 517 }
    ensures options { create_with (codes "L: z:1\r\n") ≡ refused 541 }
    ensures no_options { create_with (codes "L:\r\n") ≡ refused 541 }
    ensures time { modify_with (codes "L: p:5\r\n") ≡ refused 535 }
    ensures time_and_options { modify_with (codes "L: p:5, z:1\r\n") ≡ refused 541 }
    ensures identifier { delete (codes "X: g\r\n") ≡ refused 510 }
    ensures no_identifier { create_with (codes "X:\r\n") ≡ refused 510 }
    ensures handling { create_with (codes "X: A\r\nQ: fast\r\n") ≡ refused 508 }
    ensures signals { modify_with (codes "X: A\r\nS: L/wt\r\n") ≡ refused 513 }
{}

/// The name comes first, then the parameters from top to bottom, then what is missing, then the values.
pub fn commands_of_connections_are_checked_in_order()
    ensures name_before_parameters { command_on (codes "CRCX") (codes "aaln/17") (codes "X+Y: 1\r\n") ≡ refused 500 }
    ensures wildcard_before_parameters { command_on (codes "MDCX") (codes "*") (codes "X+Y: 1\r\n") ≡ refused 503 }
    ensures call_before_parameters { command_on (codes "DLCX") (codes "*") (codes "X+Y: 1\r\nC:\r\n") ≡ refused 503 }
    ensures parameters_before_missing { create (codes "F: ES\r\n") ≡ refused 539 }
    ensures parameters_before_call { delete (codes "I: 1\r\nX+Y: 1\r\n") ≡ refused 511 }
    ensures parameters_before_identifier { delete (codes "S:\r\nM: recvonly\r\n") ≡ refused 539 }
    ensures missing_before_entity { create (codes "N: x\r\n") ≡ refused 510 }
    ensures missing_before_options { create (codes "L: z:1\r\n") ≡ refused 510 }
    ensures missing_before_description { create (codes "\r\nv=0\r\n") ≡ refused 510 }
    ensures call_before_entity { delete (codes "N: x\r\nI: 1\r\n") ≡ refused 510 }
    ensures identifier_before_entity { delete (codes "N: x\r\nS:\r\n") ≡ refused 510 }
    ensures identifier_before_mode { create (codes "C: 1A\r\nM: loopback\r\nS:\r\n") ≡ refused 510 }
    ensures identifier_before_handling { create_with (codes "Q: fast\r\n") ≡ refused 510 }
    ensures identifier_before_signals { modify_with (codes "S: L/wt\r\n") ≡ refused 510 }
    ensures identifier_before_description { modify_with (codes "S:\r\n\r\nv=0\r\n") ≡ refused 510 }
{}

/// The values are judged in the order K, N, B, C, I, M, L, X, Q, D, R, T, S, wherever their lines stand, and the
/// description last. What has one code, N and B, and C and I, and I and X, can't be told apart.
pub fn values_of_connections_are_judged_in_order()
    ensures k_before_n { modify_with (codes "N: x\r\nK: x\r\n") ≡ refused 510 }
    ensures k_above_n { modify_with (codes "K: x\r\nN: x\r\n") ≡ refused 510 }
    ensures k_before_b { configure (codes "B: x\r\nK: x\r\n") ≡ refused 510 }
    ensures n_before_c { modify (codes "C: x\r\nI: 1\r\nN: x\r\n") ≡ refused 539 }
    ensures n_above_c { modify (codes "N: x\r\nC: x\r\nI: 1\r\n") ≡ refused 539 }
    ensures b_before_c { modify (codes "C: x\r\nI: 1\r\nB: x\r\n") ≡ refused 539 }
    ensures b_above_c { modify (codes "B: x\r\nC: x\r\nI: 1\r\n") ≡ refused 539 }
    ensures b_before_i { modify (codes "C: 1a\r\nI: x\r\nB: x\r\n") ≡ refused 539 }
    ensures c_before_m { create (codes "M: x\r\nC: x\r\n") ≡ refused 510 }
    ensures c_above_m { create (codes "C: x\r\nM: x\r\n") ≡ refused 510 }
    ensures i_before_m { modify (codes "M: x\r\nC: 1a\r\nI: x\r\n") ≡ refused 510 }
    ensures i_above_m { modify (codes "I: x\r\nC: 1a\r\nM: x\r\n") ≡ refused 510 }
    ensures m_before_l { modify_with (codes "L: z:1\r\nM: x\r\n") ≡ refused 517 }
    ensures m_above_l { modify_with (codes "M: x\r\nL: z:1\r\n") ≡ refused 517 }
    ensures l_before_x { modify_with (codes "X: g\r\nL: z:1\r\n") ≡ refused 541 }
    ensures l_above_x { modify_with (codes "L: z:1\r\nX: g\r\n") ≡ refused 541 }
    ensures time_before_x { create_with (codes "X: g\r\nL: p:5\r\n") ≡ refused 535 }
    ensures x_before_q { create_with (codes "Q: fast\r\nX: g\r\n") ≡ refused 510 }
    ensures x_above_q { create_with (codes "X: g\r\nQ: fast\r\n") ≡ refused 510 }
    ensures q_before_d { create_with (codes "X: A\r\nD: [9-1]\r\nQ: fast\r\n") ≡ refused 508 }
    ensures q_above_d { create_with (codes "X: A\r\nQ: fast\r\nD: [9-1]\r\n") ≡ refused 508 }
    ensures d_before_r { modify_with (codes "R: Q/a\r\nX: A\r\nD: [9-1]\r\n") ≡ refused 510 }
    ensures r_before_t { modify_with (codes "T: L/dl\r\nX: A\r\nR: Q/a\r\n") ≡ refused 518 }
    ensures t_before_s { modify_with (codes "S: L/wt\r\nX: A\r\nT: Q/a\r\n") ≡ refused 518 }
    ensures s_before_description { modify_with (codes "X: A\r\nS: L/wt\r\n\r\nv=0\r\n") ≡ refused 513 }
    ensures s_before_description_of_creation { create_with (codes "X: A\r\nS: L/wt\r\n\r\nv=0\r\n") ≡ refused 513 }
    ensures k_before_description { create_with (codes "K: x\r\n\r\nv=0\r\n") ≡ refused 510 }
    ensures n_before_m { modify_with (codes "M: x\r\nN: x\r\n") ≡ refused 539 }
    ensures b_before_l { modify_with (codes "L: z:1\r\nB: x\r\n") ≡ refused 539 }
    ensures b_before_q { create_with (codes "X: A\r\nQ: fast\r\nB: x\r\n") ≡ refused 539 }
    ensures c_before_l { create (codes "L: z:1\r\nM: recvonly\r\nC: x\r\n") ≡ refused 510 }
    ensures m_before_s { create (codes "S: L/wt\r\nX: A\r\nC: 1A\r\nM: x\r\n") ≡ refused 517 }
    ensures l_before_q { create_with (codes "X: A\r\nQ: fast\r\nL: z:1\r\n") ≡ refused 541 }
    ensures m_before_description { create (codes "C: 1A\r\nM: x\r\n\r\nv=0\r\n") ≡ refused 517 }
    ensures l_before_description { modify_with (codes "L: z:1\r\n\r\nv=0\r\n") ≡ refused 541 }
{}

/// Each two values that have other codes are judged in this order, wherever their lines stand.
pub fn values_of_connections_are_judged_in_pairs()
    ensures k_before_m { modify_with (codes "M: x\r\nK: x\r\n") ≡ refused 510 }
    ensures k_before_l { modify_with (codes "L: z:1\r\nK: x\r\n") ≡ refused 510 }
    ensures k_before_q { create_with (codes "X: A\r\nQ: fast\r\nK: x\r\n") ≡ refused 510 }
    ensures k_before_r { create_with (codes "X: A\r\nR: Q/a\r\nK: x\r\n") ≡ refused 510 }
    ensures n_before_i { modify (codes "C: 1a\r\nI: x\r\nN: x\r\n") ≡ refused 539 }
    ensures n_before_l { modify_with (codes "L: z:1\r\nN: x\r\n") ≡ refused 539 }
    ensures n_before_x { delete (codes "X: g\r\nN: x\r\n") ≡ refused 539 }
    ensures n_before_q { delete (codes "X: A\r\nQ: fast\r\nN: x\r\n") ≡ refused 539 }
    ensures n_before_description { create_with (codes "N: x\r\n\r\nv=0\r\n") ≡ refused 539 }
    ensures b_before_m { modify_with (codes "M: x\r\nB: x\r\n") ≡ refused 539 }
    ensures b_before_x { delete (codes "X: g\r\nB: x\r\n") ≡ refused 539 }
    ensures b_before_d { create_with (codes "X: A\r\nD: [9-1]\r\nB: x\r\n") ≡ refused 539 }
    ensures b_before_s { create_with (codes "X: A\r\nS: L/wt\r\nB: x\r\n") ≡ refused 539 }
    ensures b_before_description { modify_with (codes "B: x\r\n\r\nv=0\r\n") ≡ refused 539 }
    ensures c_before_q { delete (codes "X: A\r\nQ: fast\r\nC: x\r\n") ≡ refused 510 }
    ensures c_before_r { delete (codes "X: A\r\nR: Q/a\r\nC: x\r\n") ≡ refused 510 }
    ensures c_before_description { create (codes "M: recvonly\r\nC: x\r\n\r\nv=0\r\n") ≡ refused 510 }
    ensures i_before_l { modify (codes "L: z:1\r\nC: 1a\r\nI: x\r\n") ≡ refused 510 }
    ensures i_before_s { delete (codes "X: A\r\nS: L/wt\r\nC: 1a\r\nI: x\r\n") ≡ refused 510 }
    ensures i_before_description { modify (codes "C: 1a\r\nI: x\r\n\r\nv=0\r\n") ≡ refused 510 }
    ensures m_before_x { modify_with (codes "X: g\r\nM: x\r\n") ≡ refused 517 }
    ensures m_before_q { modify_with (codes "X: A\r\nQ: fast\r\nM: x\r\n") ≡ refused 517 }
    ensures m_before_r { modify_with (codes "X: A\r\nR: Q/a\r\nM: x\r\n") ≡ refused 517 }
    ensures time_after_m { modify_with (codes "L: p:5\r\nM: x\r\n") ≡ refused 517 }
    ensures l_before_d { create_with (codes "X: A\r\nD: [9-1]\r\nL: z:1\r\n") ≡ refused 541 }
    ensures l_before_t { create_with (codes "X: A\r\nT: Q/a\r\nL: p:5\r\n") ≡ refused 535 }
    ensures time_before_description { create_with (codes "L: p:5\r\n\r\nv=0\r\n") ≡ refused 535 }
    ensures x_before_description { modify_with (codes "X: g\r\n\r\nv=0\r\n") ≡ refused 510 }
    ensures q_before_s { delete (codes "X: A\r\nS: L/wt\r\nQ: fast\r\n") ≡ refused 508 }
    ensures q_before_description { create_with (codes "X: A\r\nQ: fast\r\n\r\nv=0\r\n") ≡ refused 508 }
    ensures d_before_t { delete (codes "X: A\r\nT: Q/a\r\nD: [9-1]\r\n") ≡ refused 510 }
    ensures d_before_description { create_with (codes "X: A\r\nD: [9-1]\r\n\r\nv=0\r\n") ≡ refused 510 }
    ensures r_before_description { modify_with (codes "X: A\r\nR: Q/a\r\n\r\nv=0\r\n") ≡ refused 518 }
    ensures t_before_description { create_with (codes "X: A\r\nT: L/dl\r\n\r\nv=0\r\n") ≡ refused 522 }
{}

/// A connection of a call as it is created, modified and deleted. What no connection of the line fits, a codec, an
/// identifier or a call, is no fault of the command.
pub fn a_call_is_made_and_ended()
    ensures other_codec { create_with (codes "\r\nv=0\r\nc=IN IP4 127.0.0.1\r\nm=audio 4000 RTP/AVP 18\r\n")
        ≡ creates (record receiver { remote = Some (offering (18 ∷ [])) }) }
    ensures sending { modify_with (codes "M: sendrecv\r\n") ≡ modifies (record no_change { mode = Some SendReceive }) }
    ensures towards { modify_with (codes "M: sendrecv\r\n\r\nv=0\r\nc=IN IP4 127.0.0.1\r\nm=audio 4000 RTP/AVP 8\r\n")
        ≡ modifies (record no_change { mode = Some SendReceive; remote = Some (offering (8 ∷ [])) }) }
    ensures loopback { modify_with (codes "M: loopback\r\n") ≡ refused 517 }
    ensures other_connection { modify (codes "C: 1a\r\nI: 9\r\n")
        ≡ connects (deeds.Modify (codes "1a") (codes "9") no_change) }
    ensures other_call { modify (codes "C: 2\r\nI: 1\r\n") ≡ connects (deeds.Modify (codes "2") (codes "1") no_change) }
    ensures too_short { modify_with (codes "L: p:5\r\n") ≡ refused 535 }
    ensures ended { delete (codes "C: 1a\r\nI: 1\r\n") ≡ deletes (deletions.One (codes "1a") (codes "1")) }
    ensures no_description { create_with (codes "\r\nv=0\r\n") ≡ refused 509 }
{}

/// What no command gets as far as: only a deletion can have I without C, and only what is created or modified has a
/// remote description.
pub fn some_cases_are_of_no_command()
    ensures reports { names_call (ForReport Endpoint) connection_alone ≡ true }
    ensures reports_connection { names_call (ForReport Connection) connection_alone ≡ true }
    ensures keeps { names_call (ForDeed Keeps) connection_alone ≡ true }
    ensures creates { names_call (ForDeed Creates) connection_alone ≡ true }
    ensures modifies { names_call (ForDeed Modifies) connection_alone ≡ true }
    ensures deletes { names_call (ForDeed Deletes) connection_alone ≡ false }
    ensures without_call { deletion_by None (Some (codes "1")) ≡ deletions.All }
    ensures kept { with_remote (Some session) deeds.Keep ≡ deeds.Keep }
    ensures deleted { with_remote (Some session) (deeds.Delete deletions.All) ≡ deeds.Delete deletions.All }
    ensures ignored { counted Keeps described ≡ [] }
    ensures ignored_of_deletion { counted Deletes described ≡ [] }
    ensures counts_of_creation { counted Creates described ≡ described }
    ensures counts_of_modification { counted Modifies described ≡ described }
{}
