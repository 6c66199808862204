//! Worked examples of what the laws speak of, as theorems: which codes there are, what may be asked of which lines, and
//! what a deed has of its command.
#![tactic(auto, unfolding(crate::proofs::Computing::on_examples))]

ghost use Rattle.std.specs.Prelude.{◌≡◌, ◌++◌, codes, map, [], ◌∷◌, true, false, None, Some, Ok, Err};
ghost use Rattle.std.specs.List.{list_all, list_any};
ghost use Rattle.mgcp_text.specs.declared.message.Verb.TheVariants.{Epcf, Rqnt, Ntfy, Crcx, Mdcx, Dlcx, Auep, Aucx, Rsip, Other};
ghost use Rattle.connections.specs.declared.deletion.Deletion.TheVariants as deletions;
ghost use Rattle.connections.specs.declared.mode.Mode.TheVariants.{Inactive};
ghost use Rattle.connections.specs.Options.{no_options};
ghost use Rattle.connections.specs.Example.{asked_time};
ghost use Rattle.command_forms.specs.declared.forms.Asks.TheVariants.{Reports, Does};
ghost use Rattle.command_forms.specs.declared.forms.AuditTarget.TheVariants as audits;
ghost use Rattle.command_forms.specs.declared.forms.ConnectionDeed.TheVariants as deeds;
ghost use Rattle.command_forms.specs.declared.forms.Target.TheVariants.{One, All, Any};
ghost use Rattle.command_forms.specs.declared.verbs.Connecting.TheVariants.{Keeps, Creates, Modifies, Deletes};
ghost use Rattle.command_forms.specs.declared.verbs.Purpose.TheVariants.{ForReport, ForDeed};
ghost use Rattle.command_forms.specs.declared.verbs.Reporting.TheVariants.{Endpoint, Connection};
ghost use Rattle.command_forms.specs.declared.verbs.Task.TheVariants.{ReportOf, DeedOn};
ghost use Rattle.command_forms.specs.Order.{is_audit};
ghost use Rattle.command_forms.specs.Codes.{name_codes, param_codes, has_code, AreOf, may_connect_all, may_connect_any};
ghost use Rattle.command_forms.specs.Codes.{MayBeOf, options_or, HasCreation, HasModification, HasDeletion, connecting_in};
ghost use Rattle.command_forms.specs.Codes.{target_in, target_meant, purpose_meant, Audits};
ghost use Rattle.command_forms.specs.Example.{all_deeds, connecting, asking_for, param, of_creation, of_connection, of_call};
ghost use Rattle.command_forms.specs.Example.{of_audited, connection_alone, receiver, no_change, session};

/// Each sentence at an example.
pub fn each_sentence_has_an_example()
    // The verb and the name have codes of their own; what lines refuse, and a gateway that restarts, has none of either.
    ensures name { map (has_code name_codes) (500 ∷ 503 ∷ 504 ∷ 405 ∷ 502 ∷ 510 ∷ [])
        ≡ true ∷ true ∷ true ∷ false ∷ false ∷ false ∷ [] }
    ensures values { list_all (has_code param_codes)
        (502 ∷ 508 ∷ 509 ∷ 510 ∷ 511 ∷ 512 ∷ 513 ∷ 517 ∷ 518 ∷ 522 ∷ 523 ∷ 535 ∷ 538 ∷ 539 ∷ 541 ∷ []) ≡ true }
    ensures others { list_any (has_code param_codes)
        (200 ∷ 250 ∷ 401 ∷ 402 ∷ 405 ∷ 410 ∷ 500 ∷ 503 ∷ 504 ∷ 515 ∷ 516 ∷ 519 ∷ 527 ∷ 528 ∷ 533 ∷ 534 ∷ 540 ∷ []) ≡ false }
    // AuditEndpoint and AuditConnection audit, and no other verb does.
    ensures endpoint { Audits Auep }
    ensures connection { Audits Aucx }
    ensures configuration { Audits Epcf → ⊥ }
    ensures request { Audits Rqnt → ⊥ }
    ensures notification { Audits Ntfy → ⊥ }
    ensures creation { Audits Crcx → ⊥ }
    ensures modification { Audits Mdcx → ⊥ }
    ensures deletion { Audits Dlcx → ⊥ }
    ensures restart { Audits Rsip → ⊥ }
    ensures unknown { Audits Other → ⊥ }
    // Of what verbs ask for, the reports are audits.
    ensures reports { map is_audit (ForReport Endpoint ∷ ForReport Connection ∷ []) ≡ true ∷ true ∷ [] }
    ensures deeds { map is_audit (ForDeed Keeps ∷ ForDeed Creates ∷ ForDeed Modifies ∷ ForDeed Deletes ∷ [])
        ≡ false ∷ false ∷ false ∷ false ∷ [] }
    // A form is for a line that there is, for all of them, or for any one.
    ensures first { AreOf 2 (One 1) }
    ensures last { AreOf 2 (One 2) }
    ensures a_line_is_one_that_there_is_none { AreOf 2 (One 0) → ⊥ }
    ensures past { AreOf 2 (One 3) → ⊥ }
    ensures a_line_is_one_that_there_is_all { AreOf 2 All }
    ensures a_line_is_one_that_there_is_any { AreOf 2 Any }
    ensures a_line_is_one_that_there_is_report { target_in (Reports (audits.One 2) (asking_for [])) ≡ One 2 }
    ensures a_line_is_one_that_there_is_report_of_all { target_in (Reports audits.All (asking_for [])) ≡ All }
    ensures a_line_is_one_that_there_is_deed { target_in (Does All (connecting deeds.Keep)) ≡ All }
    // What is meant is a report or a deed, of the lines that the name has.
    ensures a_task_has_its_lines_report { target_meant (ReportOf Endpoint (audits.One 2)) ≡ One 2 }
    ensures a_task_has_its_lines_report_of_all { target_meant (ReportOf Endpoint audits.All) ≡ All }
    ensures a_task_has_its_lines_deed { target_meant (DeedOn Creates Any) ≡ Any }
    ensures purposes { map purpose_meant (ReportOf Connection (audits.One 1) ∷ DeedOn Deletes All ∷ [])
        ≡ ForReport Connection ∷ ForDeed Deletes ∷ [] }
{}

/// Each sentence at an example.
pub fn further_sentences_have_examples()
    // On all lines connections stay, or all are deleted; on any one line one is created. A report of all lines is of no
    // connection by itself.
    ensures deeds_are_for_more_than_one_line_all { map may_connect_all all_deeds ≡ true ∷ false ∷ false ∷ true ∷ false ∷ false ∷ [] }
    ensures deeds_are_for_more_than_one_line_any { map may_connect_any all_deeds ≡ false ∷ true ∷ false ∷ false ∷ false ∷ false ∷ [] }
    ensures which { map connecting_in all_deeds ≡ Keeps ∷ Creates ∷ Modifies ∷ Deletes ∷ Deletes ∷ Deletes ∷ [] }
    ensures deed_on_all { MayBeOf (Does All (connecting (deeds.Delete deletions.All))) }
    ensures not_on_all { MayBeOf (Does All (connecting (deeds.Create receiver))) → ⊥ }
    ensures deed_on_any { MayBeOf (Does Any (connecting (deeds.Create receiver))) }
    ensures not_on_any { MayBeOf (Does Any (connecting deeds.Keep)) → ⊥ }
    ensures deed_on_one { MayBeOf (Does (One 1) (connecting (deeds.Create receiver))) }
    ensures report_on_all { MayBeOf (Reports audits.All (asking_for [])) }
    ensures items_on_all { MayBeOf (Reports audits.All (asking_for (codes "ES"))) → ⊥ }
    ensures report_on_one { MayBeOf (Reports (audits.One 1) (asking_for (codes "ES"))) }
    ensures connection_on_all { MayBeOf (Reports audits.All of_audited) → ⊥ }
    ensures connection_on_one { MayBeOf (Reports (audits.One 1) of_audited) }
    // A creation has the call, the mode, the options and the description of its command; without L the options are none.
    ensures a_creation_has_what_its_command_says_none { options_or None ≡ Ok no_options }
    ensures a_creation_has_what_its_command_says_options { options_or (Some (param (codes "L") (codes "p:30"))) ≡ Ok (asked_time 30) }
    ensures fault { options_or (Some (param (codes "L") (codes "p:5"))) ≡ Err 535 }
    ensures has { HasCreation of_creation [] receiver }
    ensures described { HasCreation of_creation (codes "v=0\r\nc=IN IP4 127.0.0.1\r\nm=audio 4000 RTP/AVP 18 8\r\n")
        (record receiver { remote = Some session }) }
    ensures a_creation_has_what_its_command_says_other_call { HasCreation of_creation [] (record receiver { call = codes "1a" }) → ⊥ }
    ensures other_mode { HasCreation of_creation [] (record receiver { mode = Inactive }) → ⊥ }
    ensures other_options { HasCreation of_creation [] (record receiver { options = asked_time 30 }) → ⊥ }
    ensures no_description { HasCreation of_creation [] (record receiver { remote = Some session }) → ⊥ }
    // A modification has the call and the connection of its command, and what that gives is to change.
    ensures bare { HasModification of_connection [] (codes "1a") (codes "1") no_change }
    ensures mode { HasModification (of_connection ++ param (codes "M") (codes "inactive") ∷ []) []
        (codes "1a") (codes "1") (record no_change { mode = Some Inactive }) }
    ensures a_modification_has_what_its_command_says_options { HasModification (of_connection ++ param (codes "L") (codes "p:30") ∷ []) []
        (codes "1a") (codes "1") (record no_change { options = Some (asked_time 30) }) }
    ensures a_modification_has_what_its_command_says_other_call { HasModification of_connection [] (codes "1A") (codes "1") no_change → ⊥ }
    ensures other_id { HasModification of_connection [] (codes "1a") (codes "2") no_change → ⊥ }
    ensures unsaid { HasModification of_connection [] (codes "1a") (codes "1")
        (record no_change { mode = Some Inactive }) → ⊥ }
    // C and I say which connections are deleted: all, those of a call, or one.
    ensures a_deletion_is_what_its_command_says_all { HasDeletion [] deletions.All }
    ensures of_call { HasDeletion of_call (deletions.OfCall (codes "1A")) }
    ensures one { HasDeletion of_connection (deletions.One (codes "1a") (codes "1")) }
    ensures not_all { HasDeletion of_call deletions.All → ⊥ }
    ensures id_alone { HasDeletion connection_alone deletions.All → ⊥ }
    ensures not_the_call { HasDeletion of_connection (deletions.OfCall (codes "1a")) → ⊥ }
    ensures not_one { HasDeletion of_call (deletions.One (codes "1A") (codes "1")) → ⊥ }
{}
