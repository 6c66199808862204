//! Worked examples of R and of the requests embedded in it, as theorems.
#![tactic(auto, unfolding(crate::proofs::RequestComputing::on_examples))]

ghost use Rattle.std.specs.Prelude.{◌≡◌, codes, [], ◌∷◌, Some, None, Ok, Err, true, false};
ghost use Rattle.event_syntax.specs.Requested.{requested_of, takes_memory, requested_text, are_writable_requested};
ghost use Rattle.event_syntax.specs.RequestExample.{does, keeps, embeds, one_entry, inside, with_events, with_signals};
ghost use Rattle.event_syntax.specs.RequestExample.{with_map, nothing, embedded_does, as_written};
ghost use Rattle.packages.specs.Example.{asks};
ghost use Rattle.event_syntax.specs.EventExample.{range_of};

use crate::events::Events;
use crate::request::Action;
use packages::{LineEvent, Setting, Signal};

/// Each sentence at an example.
pub fn each_sentence_has_an_example()
    // An entry of R says what is done at its events: N where nothing is said, or K alone.
    ensures notify { requested_of (codes "L/hd(N)") ≡ one_entry (does (Events.One LineEvent.OffHook) Action.Notify) }
    ensures actions_are_read_nothing { requested_of (codes "hu") ≡ one_entry (does (Events.One LineEvent.OnHook) Action.Notify) }
    ensures accumulate { requested_of (codes "L/all(a)") ≡ one_entry (does Events.AllOfLine Action.Accumulate) }
    ensures ignore { requested_of (codes "oc ( i )") ≡ one_entry (does (Events.One LineEvent.LineComplete) Action.Ignore) }
    ensures actions_are_read_dial { requested_of (codes "D/[0-9T](D)") ≡ one_entry (does (range_of (codes "0-9T")) Action.Dial) }
    ensures keep_alone { requested_of (codes "G/oc(K)") ≡ one_entry (keeps (Events.One LineEvent.GenericComplete) Action.Notify) }
    ensures keep { requested_of (codes "D/X(d, k)") ≡ one_entry (keeps (range_of (codes "X")) Action.Dial) }
    ensures keep_first { requested_of (codes "L/hf(K,A)") ≡ one_entry (keeps (Events.One LineEvent.Flash) Action.Accumulate) }
    ensures keep_ignore { requested_of (codes "L/hf(I,K)") ≡ one_entry (keeps (Events.One LineEvent.Flash) Action.Ignore) }
    // Each action stands at most once, and but for A with E only one of N, A, D, I and E; K stands with any.
    ensures two { requested_of (codes "L/hd(N,A)") ≡ Err 523 }
    ensures notify_twice { requested_of (codes "L/hd(N,N)") ≡ Err 523 }
    ensures accumulate_and_ignore { requested_of (codes "L/hd(A,I)") ≡ Err 523 }
    ensures accumulate_and_dial { requested_of (codes "D/5(A,D)") ≡ Err 523 }
    ensures dial_twice { requested_of (codes "D/5(D,D)") ≡ Err 523 }
    ensures keep_twice { requested_of (codes "L/hd(K,K)") ≡ Err 523 }
    ensures keep_twice_with_another { requested_of (codes "L/hd(K,N,K)") ≡ Err 523 }
    ensures other_actions_are_523_three { requested_of (codes "L/hd(N,A,I)") ≡ Err 523 }
    ensures another { requested_of (codes "L/hd(Z)") ≡ Err 523 }
    ensures another_beside { requested_of (codes "L/hd(N,Z)") ≡ Err 523 }
    ensures embed_twice { requested_of (codes "L/hd(E(R(L/hu)),E(R(L/hu)))") ≡ Err 523 }
    ensures embed_and_notify { requested_of (codes "L/hd(N,E(R(L/hu)))") ≡ Err 523 }
    ensures embed_and_ignore { requested_of (codes "L/hd(E(R(L/hu)),I)") ≡ Err 523 }
    ensures embed_and_dial { requested_of (codes "D/5(D,E(R(L/hu)))") ≡ Err 523 }
    ensures accumulate_twice { requested_of (codes "L/hd(A,A,E(R(L/hu)))") ≡ Err 523 }
{}

/// Each sentence at an example.
pub fn further_sentences_have_examples()
    // D stands on events of D alone, and where T is among them nothing else does.
    ensures dial_on_hook { requested_of (codes "L/hd(D)") ≡ Err 523 }
    ensures dial_on_all { requested_of (codes "L/all(D)") ≡ Err 523 }
    ensures dial_on_generic { requested_of (codes "G/all(D,K)") ≡ Err 523 }
    ensures dial_on_key { requested_of (codes "D/5(D)") ≡ one_entry (does (range_of (codes "5")) Action.Dial) }
    ensures dial_on_timer { requested_of (codes "D/T(D)") ≡ one_entry (does (range_of (codes "T")) Action.Dial) }
    ensures notify_on_timer { requested_of (codes "D/T(N)") ≡ Err 523 }
    ensures nothing_on_timer { requested_of (codes "D/T") ≡ Err 523 }
    ensures keep_on_timer { requested_of (codes "D/T(K)") ≡ Err 523 }
    ensures dial_and_keep_on_timer { requested_of (codes "D/T(K,D)") ≡ one_entry (keeps (range_of (codes "T")) Action.Dial) }
    ensures accumulate_on_range { requested_of (codes "D/[0-9T](A)") ≡ Err 523 }
    ensures ignore_on_range { requested_of (codes "D/[T0](I)") ≡ Err 523 }
    ensures embed_on_timer { requested_of (codes "D/T(E(R(L/hu)))") ≡ Err 523 }
    ensures both_on_timer { requested_of (codes "D/T(A,E(R(L/hu)))") ≡ Err 523 }
    // The keys, among which T isn't.
    ensures accumulate_on_keys { requested_of (codes "D/all(A)") ≡ one_entry (does (range_of (codes "0-9*#ABCD")) Action.Accumulate) }
    ensures accumulate_on_digits { requested_of (codes "D/X(I)") ≡ one_entry (does (range_of (codes "X")) Action.Ignore) }
    // E embeds an R, an S and a digit map, in any order, by itself or with A, with K or without.
    ensures requests_are_embedded_events { requested_of (codes "L/hd(E(R(L/hu(A),D/T(D,K))))")
        ≡ one_entry (embeds false (Events.One LineEvent.OffHook)
        (with_events (embedded_does (Events.One LineEvent.OnHook) Action.Accumulate false
        ∷ embedded_does (range_of (codes "T")) Action.Dial true ∷ []) nothing)) }
    ensures requests_are_embedded_signals { requested_of (codes "L/hd(e(s(L/dl(to=5))))")
        ≡ one_entry (embeds false (Events.One LineEvent.OffHook)
        (with_signals (asks Signal.DialTone (Setting.Lasting 5) ∷ []) nothing)) }
    ensures requests_are_embedded_map { requested_of (codes "L/hd(E(D((0T | 1x))))")
        ≡ one_entry (embeds false (Events.One LineEvent.OffHook)
        (with_map (codes "(0T|1x)") nothing)) }
    ensures any_order { requested_of (codes "L/hd( K, E( D(x.T), R(hu), S(dl) ) )")
        ≡ requested_of (codes "L/hd(E(S(dl),R(hu),D(x.T)),K)") }
    ensures all { requested_of (codes "L/hd( K, E( D(x.T), R(hu), S(dl) ) )") ≡ one_entry (record {
      events = Events.One LineEvent.OffHook;
      reaction = inside (record {
        events = embedded_does (Events.One LineEvent.OnHook) Action.Notify false ∷ [];
        signals = asks Signal.DialTone Setting.Start ∷ [];
        map = Some (codes "x.T");
      });
      keep = true;
    }) }
    ensures with_accumulate { requested_of (codes "L/hd(A,E(S(L/dl)))") ≡ requested_of (codes "L/hd(E(S(L/dl)),a)") }
    // Nothing in a part of blanks, but blanks in the R and S that stand there.
    ensures blank_inside { requested_of (codes "L/hd(E(R( hu , hf )))") ≡ requested_of (codes "L/hd(E(R(hu,hf)))") }
{}

/// Each sentence at an example.
pub fn more_sentences_have_examples()
    // A value of R that isn't spelled is 510, whatever stands in it; so is a value of R or S inside of E.
    ensures empty_actions { requested_of (codes "L/hd()") ≡ Err 510 }
    ensures blank_actions { requested_of (codes "L/hd( )") ≡ Err 510 }
    ensures empty_action { requested_of (codes "L/hd(N,)") ≡ Err 510 }
    ensures empty_parameters { requested_of (codes "L/hd(N)()") ≡ Err 510 }
    ensures third_parentheses { requested_of (codes "L/hd(N)(p)(q)") ≡ Err 510 }
    ensures open { requested_of (codes "L/hd(N") ≡ Err 510 }
    ensures closed { requested_of (codes "L/hd)N(") ≡ Err 510 }
    ensures no_event { requested_of (codes "L/hd(N),") ≡ Err 510 }
    ensures parameter_first { requested_of (codes "L/oc(L/dl)") ≡ Err 510 }
    ensures bare_embed { requested_of (codes "L/hd(E)") ≡ Err 510 }
    ensures action_with_inside { requested_of (codes "L/hd(N(R(L/hu)))") ≡ Err 510 }
    ensures embed_with_two { requested_of (codes "L/hd(E(R(L/hu))(S(L/dl)))") ≡ Err 510 }
    ensures empty_embed { requested_of (codes "L/hd(E())") ≡ Err 510 }
    ensures part_twice { requested_of (codes "L/hd(E(R(L/hu),r(L/hu)))") ≡ Err 510 }
    ensures signals_twice { requested_of (codes "L/hd(E(S(L/dl),S(L/dl)))") ≡ Err 510 }
    ensures map_twice { requested_of (codes "L/hd(E(D(1),D(2)))") ≡ Err 510 }
    ensures other_part { requested_of (codes "L/hd(E(X(L/hu)))") ≡ Err 510 }
    ensures bare_part { requested_of (codes "L/hd(E(R))") ≡ Err 510 }
    ensures action_as_part { requested_of (codes "L/hd(E(N))") ≡ Err 510 }
    ensures empty_part { requested_of (codes "L/hd(E(R()))") ≡ Err 510 }
    ensures blank_part { requested_of (codes "L/hd(E(S( )))") ≡ Err 510 }
    ensures empty_map { requested_of (codes "L/hd(E(D( )))") ≡ Err 510 }
    ensures second_pair_of_a_part { requested_of (codes "L/hd(E(R(L/hu)(x)))") ≡ Err 510 }
    ensures inner_events { requested_of (codes "L/hd(E(R(L/hu())))") ≡ Err 510 }
    ensures inner_range { requested_of (codes "L/hd(E(R(D/[])))") ≡ Err 510 }
    ensures inner_signals { requested_of (codes "L/hd(E(S(L/dl())))") ≡ Err 510 }
    // A request that is embedded in an embedded one must be spelled too.
    ensures inmost { requested_of (codes "L/hd(E(R(L/hu(E(R(L/hf()))))))") ≡ Err 510 }
    // The spelling of the whole value comes first, then the number of entries, then the entries from left to right, each by
    // package, `@`, name, parameters and actions, and then by what is embedded.
    ensures spelling_first { requested_of (codes "Q/a,D/[9-1]") ≡ Err 510 }
    ensures inner_spelling_first { requested_of (codes "Q/a,L/hd(E(R(L/hu())))") ≡ Err 510 }
    ensures spelling_before_number { requested_of
        (codes "hd,hd,hd,hd,hd,hd,hd,hd,hd,hd,hd,hd,hd,hd,hd,hd,hd,hd,hd,hd,hd,hd,hd,hd,hd,hd,hd,hd,hd,hd,hd,hd,hd,") ≡ Err 510 }
    ensures faults_of_requests_have_an_order_number { requested_of
        (codes "hd,hd,hd,hd,hd,hd,hd,hd,hd,hd,hd,hd,hd,hd,hd,hd,hd,hd,hd,hd,hd,hd,hd,hd,hd,hd,hd,hd,hd,hd,hd,hd,hd") ≡ Err 502 }
    ensures number_before_entries { requested_of
        (codes "Q/a,hd,hd,hd,hd,hd,hd,hd,hd,hd,hd,hd,hd,hd,hd,hd,hd,hd,hd,hd,hd,hd,hd,hd,hd,hd,hd,hd,hd,hd,hd,hd,hd") ≡ Err 502 }
    ensures entries_of_32 { requested_of
        (codes "Q/a,hd,hd,hd,hd,hd,hd,hd,hd,hd,hd,hd,hd,hd,hd,hd,hd,hd,hd,hd,hd,hd,hd,hd,hd,hd,hd,hd,hd,hd,hd,hd") ≡ Err 518 }
    ensures package { requested_of (codes "Q/a(N)") ≡ Err 518 }
    ensures package_first { requested_of (codes "Q/a@1(Z)(p)") ≡ Err 518 }
    ensures connection { requested_of (codes "L/hd@1(N)") ≡ Err 512 }
    ensures connection_before_name { requested_of (codes "L/dl@1(Z)(p)") ≡ Err 512 }
    ensures name { requested_of (codes "L/wt(N)") ≡ Err 512 }
    ensures signal { requested_of (codes "L/dl(N)") ≡ Err 522 }
    ensures name_before_parameters { requested_of (codes "L/dl(Z)(p)") ≡ Err 522 }
    ensures parameters_before_actions { requested_of (codes "L/hd(Z)(p)") ≡ Err 538 }
    ensures faults_of_requests_have_an_order_parameters { requested_of (codes "L/hd(N)(p,q r)") ≡ Err 538 }
    ensures name_before_actions { requested_of (codes "L/wt(Z)") ≡ Err 512 }
    ensures left_first { requested_of (codes "L/hd(Z),Q/a") ≡ Err 523 }
    ensures actions_of_the_first { requested_of (codes "L/hd(D),L/wt") ≡ Err 523 }
    ensures actions_before_inside { requested_of (codes "L/hd(E(R(Q/a)),N)") ≡ Err 523 }
    ensures events_before_inside { requested_of (codes "D/T(E(R(Q/a)))") ≡ Err 523 }
    ensures parameters_before_inside { requested_of (codes "L/hd(E(R(Q/a)))(p)") ≡ Err 538 }
    ensures inside_before_right { requested_of (codes "L/hd(E(R(Q/a))),L/wt") ≡ Err 518 }
    ensures left_before_inside { requested_of (codes "L/wt,L/hd(E(R(Q/a)))") ≡ Err 512 }
{}

/// Each sentence at an example.
pub fn other_sentences_have_examples()
    // To read R takes memory where it is spelled and its first entry says what is done at its events, and where R stands in
    // parentheses, in which a request may be embedded; else it takes none.
    ensures one { takes_memory (codes "L/hd") ≡ true }
    ensures fault_behind { takes_memory (codes "L/hd,L/wt") ≡ true }
    ensures fault_inside { takes_memory (codes "L/hd(E(S(Q/a)))") ≡ true }
    ensures requests_take_memory_from_the_first_entry_on_embedded { takes_memory (codes "L/wt(E(r (L/hu)))") ≡ true }
    ensures misspelled_behind { takes_memory (codes "L/wt(E(R(L/hu") ≡ true }
    ensures requests_take_memory_from_the_first_entry_on_empty { takes_memory [] ≡ false }
    ensures requests_take_memory_from_the_first_entry_on_blank { takes_memory (codes " ") ≡ false }
    ensures misspelled { takes_memory (codes "L/hd,") ≡ false }
    ensures misspelled_inside { takes_memory (codes "L/hd(E(S()))") ≡ false }
    ensures no_name { takes_memory (codes "L/hd(,R,(") ≡ false }
    ensures fault_first { takes_memory (codes "L/wt,L/hd") ≡ false }
    ensures fault_around { takes_memory (codes "L/hd(D,E(S(L/dl)))") ≡ false }
    ensures requests_take_memory_from_the_first_entry_on_number { takes_memory
        (codes "hd,hd,hd,hd,hd,hd,hd,hd,hd,hd,hd,hd,hd,hd,hd,hd,hd,hd,hd,hd,hd,hd,hd,hd,hd,hd,hd,hd,hd,hd,hd,hd,hd") ≡ false }
{}

/// Each sentence at an example.
pub fn still_more_sentences_have_examples()
    // What is embedded is read part by part in the order of the text, each part by its number of entries and then from left
    // to right; a wrong map has its place there too.
    ensures faults_of_embedded_requests_have_an_order_events { requested_of (codes "L/hd(E(R(L/hu,L/wt)))") ≡ Err 512 }
    ensures actions { requested_of (codes "L/hd(E(R(L/hu(N,A))))") ≡ Err 523 }
    ensures faults_of_embedded_requests_have_an_order_parameters { requested_of (codes "L/hd(E(R(L/hu(N)(p))))") ≡ Err 538 }
    ensures faults_of_embedded_requests_have_an_order_signals { requested_of (codes "L/hd(E(S(L/dl,L/oc)))") ≡ Err 522 }
    ensures signal_parameters { requested_of (codes "L/hd(E(S(L/rs(-))))") ≡ Err 538 }
    ensures faults_of_embedded_requests_have_an_order_map { requested_of (codes "L/hd(E(D([9-1])))") ≡ Err 510 }
    ensures nested_map { requested_of (codes "L/hd(E(D(((1)))))") ≡ Err 510 }
    ensures map_behind_another_entry { requested_of (codes "Q/a,L/hd(E(D([9-1])))") ≡ Err 518 }
    ensures map_before_the_next_entry { requested_of (codes "L/hd(E(D([9-1]))),Q/a") ≡ Err 510 }
    ensures signals_before_events { requested_of (codes "L/hd(E(S(L/wt),R(Q/a)))") ≡ Err 513 }
    ensures events_before_signals { requested_of (codes "L/hd(E(R(Q/a),S(L/wt)))") ≡ Err 518 }
    ensures map_first { requested_of (codes "L/hd(E(D(1|2),R(Q/a)))") ≡ Err 510 }
    ensures map_last { requested_of (codes "L/hd(E(R(Q/a),D(1|2)))") ≡ Err 518 }
    ensures embed_in_embed { requested_of (codes "L/hd(E(R(L/hu(E(R(Q/a))))))") ≡ Err 523 }
    ensures accumulate_and_embed_in_embed { requested_of (codes "L/hd(E(R(L/hu(A,E(R(L/hf))))))") ≡ Err 523 }
    ensures name_before_embed_in_embed { requested_of (codes "L/hd(E(R(L/wt(E(R(L/hf))))))") ≡ Err 512 }
    ensures embed_in_embed_before_right { requested_of (codes "L/hd(E(R(L/hu(E(R(L/hf))),Q/a)))") ≡ Err 523 }
    ensures most_events { requested_of
        (codes "L/hd(E(R(Q/a,hd,hd,hd,hd,hd,hd,hd,hd,hd,hd,hd,hd,hd,hd,hd,hd,hd,hd,hd,hd,hd,hd,hd,hd,hd,hd,hd,hd,hd,hd,hd)))") ≡ Err 518 }
    ensures too_many_events { requested_of
        (codes "L/hd(E(R(Q/a,hd,hd,hd,hd,hd,hd,hd,hd,hd,hd,hd,hd,hd,hd,hd,hd,hd,hd,hd,hd,hd,hd,hd,hd,hd,hd,hd,hd,hd,hd,hd,hd)))")
        ≡ Err 502 }
    ensures too_many_signals { requested_of (codes "L/hd(E(S(Q/a,dl,dl,dl,dl,dl,dl,dl,dl)))") ≡ Err 502 }
    // R is written with packages and all actions, letters in their order, and without blanks.
    ensures requests_are_written_embedded { as_written (codes "L/hd(A,E(S(L/dl),R(L/hu,D/[0-9#*T](D))))")
        ≡ Ok (codes "L/hd(A,E(R(L/hu(N),D/[0123456789*#T](D)),S(L/dl)))") }
    ensures all_parts { as_written (codes "hf(K,E(D( (0T | 1x) ),S(G/rt,vmwi(-)),R(all(i))))")
        ≡ Ok (codes "L/hf(E(R(L/all(I)),S(G/rt,L/vmwi(-)),D((0T|1x))),K)") }
    ensures one_part { as_written (codes "L/hd(E(D(xx)))") ≡ Ok (codes "L/hd(E(D(xx)))") }
    ensures requests_are_written_three { as_written (codes "L/hd(I),D/[0-9T](D,K),L/oc(N)")
        ≡ Ok (codes "L/hd(I),D/[0123456789T](D,K),L/oc(N)") }
    ensures requests_are_written_plain { as_written (codes "hd, G/all(k) ,D/x(a)") ≡ Ok (codes "L/hd(N),G/oc(N,K),D/[0123456789](A)") }
    ensures none { requested_text [] ≡ [] }
    ensures requests_are_written_empty { requested_of [] ≡ Ok [] }
    ensures requests_are_written_blank { requested_of (codes " \t") ≡ Ok [] }
    // An entry can be written so that it is read again where its events take what is done, and what it embeds isn't empty.
    ensures some_requests_can_be_written_plain { are_writable_requested
        (does (range_of (codes "T")) Action.Dial ∷ keeps Events.AllOfLine Action.Ignore ∷ [])
        ≡ true }
    ensures timer { are_writable_requested (does (range_of (codes "T")) Action.Notify ∷ []) ≡ false }
    ensures some_requests_can_be_written_dial { are_writable_requested (does Events.AllOfLine Action.Dial ∷ []) ≡ false }
    ensures letter { are_writable_requested (does (range_of []) Action.Dial ∷ []) ≡ false }
    ensures some_requests_can_be_written_nothing { are_writable_requested (embeds false Events.AllOfLine nothing ∷ []) ≡ false }
    ensures some_requests_can_be_written_map { are_writable_requested
        (embeds true Events.AllOfLine (with_map (codes "x.T") nothing) ∷ []) ≡ true }
    ensures no_map { are_writable_requested (embeds true Events.AllOfLine (with_map (codes "x..") nothing) ∷ []) ≡ false }
    ensures blank_map { are_writable_requested (embeds true Events.AllOfLine (with_map (codes "x .") nothing) ∷ []) ≡ false }
    ensures embedded_timer { are_writable_requested (embeds false Events.AllOfLine
        (with_events (embedded_does (range_of (codes "T")) Action.Accumulate false ∷ []) nothing) ∷ []) ≡ false }
    ensures embedded_signal { are_writable_requested (embeds false Events.AllOfLine
        (with_signals (asks Signal.Confirm Setting.Stop ∷ []) nothing) ∷ []) ≡ false }
{}
