//! Scenarios of a line, as theorems: what is done to it, and what it tells. They begin where the gateway serves, but for the
//! last two, which begin at the opening.
#![tactic(auto, unfolding(crate::proofs::Computing::on_examples))]

ghost use Rattle.std.specs.Prelude.{◌≡◌, ◌+◌, ◌++◌, codes, length, take, [], ◌∷◌, None};
ghost use Rattle.events_and_signals.specs.SignalExample.{until};
ghost use Rattle.machine_rules.specs.Rules.{most_quarantined};
ghost use Rattle.mg_line.specs.Example.{lifted, put_back, flashed, flashes};
ghost use Rattle.mg_line.specs.Scenario.{does, asks, answers, opens, waits, requests, with_map, without_map, with_signals, with_detected, with_handling, tells, scenario, opening_scenario, repeated};

use crate::phone::{Act, Key};
use packages::Signal;

/// A perfect match is notified at once.
pub fn a_perfect_match_is_notified()
    ensures keys { (scenario (
        asks (with_map (codes "(x.T|8xxx)") (requests (codes "A1") (codes "L/hd(A),D/[0-9T](D)"))) 1000
        ∷ does Act.OffHook 1000 ∷ does (Act.Key Key.Eight) 1000 ∷ does (Act.Key Key.One) 1000 ∷ does (Act.Key Key.Two) 1000
        ∷ [])).notices ≡ [] }
    ensures last_key { (scenario (
        asks (with_map (codes "(x.T|8xxx)") (requests (codes "A1") (codes "L/hd(A),D/[0-9T](D)"))) 1000
        ∷ does Act.OffHook 1000 ∷ does (Act.Key Key.Eight) 1000 ∷ does (Act.Key Key.One) 1000 ∷ does (Act.Key Key.Two) 1000
        ∷ does (Act.Key Key.Three) 1000 ∷ [])).notices
        ≡ (1000, tells (codes "A1") (codes "L/hd,D/8,D/1,D/2,D/3")) ∷ [] }
    ensures two { (scenario (
        asks (with_map (codes "(xx)") (requests (codes "B1") (codes "L/hd(I),D/X(D)"))) 1000
        ∷ does Act.OffHook 1000 ∷ does (Act.Key Key.Five) 1000 ∷ does (Act.Key Key.Six) 1000 ∷ [])).notices
        ≡ (1000, tells (codes "B1") (codes "D/5,D/6")) ∷ [] }
{}

/// Timer T runs for 4,000 ms where it alone completes what is dialled, and for 16,000 ms else.
pub fn timer_t_ends_dialling()
    ensures soon { (scenario (
        asks (with_map (codes "(0T|00T|[1-7]xxx)") (requests (codes "A2") (codes "L/hd(I),D/[0-9T](D)"))) 1000
        ∷ does Act.OffHook 1000 ∷ does (Act.Key Key.Zero) 1000 ∷ waits 4999 ∷ [])).notices ≡ [] }
    ensures at_4_000 { (scenario (
        asks (with_map (codes "(0T|00T|[1-7]xxx)") (requests (codes "A2") (codes "L/hd(I),D/[0-9T](D)"))) 1000
        ∷ does Act.OffHook 1000 ∷ does (Act.Key Key.Zero) 1000 ∷ waits 5000 ∷ [])).notices
        ≡ (5000, tells (codes "A2") (codes "D/0,D/T")) ∷ [] }
    ensures later { (scenario (
        asks (with_map (codes "(0T|00T|[1-7]xxx)") (requests (codes "A2") (codes "L/hd(I),D/[0-9T](D)"))) 1000
        ∷ does Act.OffHook 1000 ∷ does (Act.Key Key.One) 1000 ∷ waits 16999 ∷ [])).notices ≡ [] }
    ensures at_16_000 { (scenario (
        asks (with_map (codes "(0T|00T|[1-7]xxx)") (requests (codes "A2") (codes "L/hd(I),D/[0-9T](D)"))) 1000
        ∷ does Act.OffHook 1000 ∷ does (Act.Key Key.One) 1000 ∷ waits 17500 ∷ [])).notices
        ≡ (17000, tells (codes "A2") (codes "D/1,D/T")) ∷ [] }
    ensures again { (scenario (
        asks (with_map (codes "(0T|00T|[1-7]xxx)") (requests (codes "A2") (codes "L/hd(I),D/[0-9T](D)"))) 1000
        ∷ does Act.OffHook 1000 ∷ does (Act.Key Key.Zero) 1000 ∷ does (Act.Key Key.Zero) 3000 ∷ waits 9000 ∷ [])).notices
        ≡ (7000, tells (codes "A2") (codes "D/0,D/0,D/T")) ∷ [] }
    ensures one_more_digit { (scenario (
        asks (with_map (codes "(1xT)") (requests (codes "A3") (codes "L/hd(I),D/[0-9T](D)"))) 1000
        ∷ does Act.OffHook 1000 ∷ does (Act.Key Key.One) 1000 ∷ waits 5000 ∷ waits 17000 ∷ [])).notices
        ≡ (17000, tells (codes "A3") (codes "D/1,D/T")) ∷ [] }
{}

/// Without D/T in R timer T doesn't run.
pub fn timer_t_runs_where_it_is_asked_for()
    ensures short { (scenario (
        asks (with_map (codes "(0T|00T|[1-7]xxx)") (requests (codes "A2") (codes "L/hd(I),D/[0-9](D)"))) 1000
        ∷ does Act.OffHook 1000 ∷ does (Act.Key Key.Zero) 1000 ∷ waits 100000 ∷ [])).notices ≡ [] }
    ensures long { (scenario (
        asks (with_map (codes "(0T|00T|[1-7]xxx)") (requests (codes "A2") (codes "L/hd(I),D/[0-9](D)"))) 1000
        ∷ does Act.OffHook 1000 ∷ does (Act.Key Key.One) 1000 ∷ waits 100000 ∷ [])).notices ≡ [] }
{}

/// Where no word begins with what is dialled, it is notified at once.
pub fn an_impossible_match_is_notified()
    ensures { (scenario (
        asks (with_map (codes "(0T|00T|[1-7]xxx)") (requests (codes "A2") (codes "L/hd(I),D/[0-9T](D)"))) 1000
        ∷ does Act.OffHook 1000 ∷ does (Act.Key Key.Nine) 1000 ∷ [])).notices
        ≡ (1000, tells (codes "A2") (codes "D/9")) ∷ [] }
{}

/// Off hook the embedded request stands: dial tone, which the first key stops, and digits.
pub fn an_embedded_request_collects_digits()
    ensures dial_tone { (scenario (
        asks (with_map (codes "(0T|00T|[1-7]xxx)") (requests (codes "A4") (codes "L/hd(A,E(S(L/dl),R(L/hu,D/[0-9#*T](D))))"))) 1000
        ∷ does Act.OffHook 1000 ∷ [])).line.signals ≡ until 17000 Signal.DialTone ∷ [] }
    ensures quiet { (scenario (
        asks (with_map (codes "(0T|00T|[1-7]xxx)") (requests (codes "A4") (codes "L/hd(A,E(S(L/dl),R(L/hu,D/[0-9#*T](D))))"))) 1000
        ∷ does Act.OffHook 1000 ∷ does (Act.Key Key.Zero) 2000 ∷ [])).line.signals ≡ [] }
    ensures told { (scenario (
        asks (with_map (codes "(0T|00T|[1-7]xxx)") (requests (codes "A4") (codes "L/hd(A,E(S(L/dl),R(L/hu,D/[0-9#*T](D))))"))) 1000
        ∷ does Act.OffHook 1000 ∷ does (Act.Key Key.Zero) 2000 ∷ waits 6000 ∷ [])).notices
        ≡ (6000, tells (codes "A4") (codes "L/hd,D/0,D/T")) ∷ [] }
{}

/// With A the event that brings the embedded request is told too; without A it isn't, nor is what was accumulated before.
pub fn an_embedded_request_with_or_without_a()
    ensures dial_tone { (scenario (
        asks (requests (codes "A3") (codes "L/hd(A,E(S(L/dl),R(L/hu,D/5)))")) 1000 ∷ does Act.OffHook 1000 ∷ [])).line.signals
        ≡ until 17000 Signal.DialTone ∷ [] }
    ensures quiet { (scenario (
        asks (requests (codes "A3") (codes "L/hd(A,E(S(L/dl),R(L/hu,D/5)))")) 1000 ∷ does Act.OffHook 1000
        ∷ does (Act.Key Key.Five) 1000 ∷ [])).line.signals ≡ [] }
    ensures with_a { (scenario (
        asks (requests (codes "A3") (codes "L/hd(A,E(S(L/dl),R(L/hu,D/5)))")) 1000 ∷ does Act.OffHook 1000
        ∷ does (Act.Key Key.Five) 1000 ∷ [])).notices
        ≡ (1000, tells (codes "A3") (codes "L/hd,D/5")) ∷ [] }
    ensures without_a { (scenario (
        asks (requests (codes "A3") (codes "L/hd(E(S(L/dl),R(L/hu,D/5)))")) 1000 ∷ does Act.OffHook 1000
        ∷ does (Act.Key Key.Five) 1000 ∷ [])).notices
        ≡ (1000, tells (codes "A3") (codes "D/5")) ∷ [] }
    ensures dropped { (scenario (
        asks (requests (codes "A3") (codes "L/hd(A),L/hf(E(R(D/5)))")) 1000 ∷ does Act.OffHook 1000 ∷ does Act.Flash 1000
        ∷ does (Act.Key Key.Five) 1000 ∷ [])).notices
        ≡ (1000, tells (codes "A3") (codes "D/5")) ∷ [] }
{}

/// Events are quarantined until the notification is answered and a request came; each request lets one notification out.
pub fn quarantined_events_wait_for_requests()
    ensures unasked { (scenario (does Act.OffHook 1000 ∷ [])).notices ≡ (1000, tells (codes "0") (codes "L/hd")) ∷ [] }
    ensures silent { (scenario (does Act.OffHook 1000 ∷ does Act.OnHook 1000 ∷ does Act.OffHook 1000 ∷ answers 1000 ∷ [])).notices
        ≡ (1000, tells (codes "0") (codes "L/hd")) ∷ [] }
    ensures processed { (scenario (
        does Act.OffHook 1000 ∷ does Act.OnHook 1000 ∷ does Act.OffHook 1000 ∷ answers 1000
        ∷ asks (requests (codes "A5") (codes "L/hd(N),L/hu(N)")) 1001 ∷ answers 1001
        ∷ asks (requests (codes "A6") (codes "L/hd(N),L/hu(N)")) 1002 ∷ [])).notices
        ≡ (1000, tells (codes "0") (codes "L/hd")) ∷ (1001, tells (codes "A5") (codes "L/hu"))
        ∷ (1002, tells (codes "A6") (codes "L/hd")) ∷ [] }
    ensures discarded { (scenario (
        does Act.OffHook 1000 ∷ does Act.OnHook 1000 ∷ does Act.OffHook 1000 ∷ answers 1000
        ∷ asks (with_handling (codes "discard") (requests (codes "A5") (codes "L/hd(N),L/hu(N)"))) 1001 ∷ [])).notices
        ≡ (1000, tells (codes "0") (codes "L/hd")) ∷ [] }
{}

/// As many events are quarantined as there is room for, and the one after them is lost.
pub fn an_event_past_the_last_place_is_lost()
    ensures full { (scenario (does Act.OffHook 1000 ∷ repeated most_quarantined (does Act.Flash 1000))).line.quarantined
        ≡ record { events = flashes most_quarantined; room = most_quarantined; lost = 0 } }
    ensures lost { (scenario (does Act.OffHook 1000 ∷ repeated (most_quarantined + 1) (does Act.Flash 1000))).line.quarantined
        ≡ record { events = flashes most_quarantined; room = most_quarantined; lost = 1 } }
{}

/// Timer T and the end of dial tone fall due at one moment: timer T comes first, and the end is quarantined.
pub fn timer_t_comes_before_the_end_of_a_signal()
    ensures { (scenario (
        asks (with_map (codes "(0T|00T|[1-7]xxx)") (requests (codes "A7") (codes "L/hd(I),D/[0-9T](D,K),L/oc(N)"))) 1000
        ∷ does Act.OffHook 1000
        ∷ asks (with_signals (codes "L/dl") (requests (codes "A8") (codes "L/hd(I),D/[0-9T](D,K),L/oc(N)"))) 1000
        ∷ does (Act.Key Key.One) 1000 ∷ waits 17000 ∷ answers 17000
        ∷ asks (requests (codes "A9") (codes "L/oc(N)")) 17000 ∷ [])).notices
        ≡ (17000, tells (codes "A8") (codes "D/1,D/T")) ∷ (17000, tells (codes "A9") (codes "L/oc(L/dl)")) ∷ [] }
{}

/// In loop the line notifies again after each answer; a request that came during a notification stands after its answer.
pub fn a_loop_notifies_after_each_answer()
    ensures { (scenario (
        asks (with_handling (codes "loop") (with_detected (codes "D/5") (requests (codes "C1") (codes "L/hd(I),L/hf(N)")))) 1000
        ∷ does Act.OffHook 1000 ∷ does Act.Flash 1000 ∷ does (Act.Key Key.Five) 1000 ∷ does Act.Flash 1000 ∷ answers 1001
        ∷ does (Act.Key Key.Six) 1001 ∷ does (Act.Key Key.Five) 1001
        ∷ asks (requests (codes "C2") (codes "D/[56](N)")) 1001 ∷ answers 1002 ∷ [])).notices
        ≡ (1000, tells (codes "C1") (codes "L/hf")) ∷ (1001, tells (codes "C1") (codes "L/hf"))
        ∷ (1002, tells (codes "C2") (codes "D/5")) ∷ [] }
{}

/// The 64th accumulated event is notified with the others, and the 65th is quarantined.
pub fn the_64th_accumulated_event_notifies()
    ensures sixty_three { (scenario (
        asks (requests (codes "F1") (codes "L/hd(I),L/hf(A)")) 1000 ∷ does Act.OffHook 1000 ∷ repeated 63 (does Act.Flash 1000))).notices
        ≡ [] }
    ensures sixty_four { (scenario (
        asks (requests (codes "F1") (codes "L/hd(A),L/hf(A)")) 1000 ∷ does Act.OffHook 1000 ∷ repeated 63 (does Act.Flash 1000))).notices
        ≡ (1000, record { identifier = codes "F1"; observed = lifted ∷ flashes 63 }) ∷ [] }
    ensures sixty_five { length (scenario (
        asks (requests (codes "F1") (codes "L/hd(A),L/hf(A)")) 1000 ∷ does Act.OffHook 1000
        ∷ repeated 64 (does Act.Flash 1000))).line.quarantined.events ≡ 1 }
    ensures embedded { (scenario (
        asks (requests (codes "F1") (codes "L/hd(A),L/hf(A),L/hu(A,E(R(L/hd(I))))")) 1000 ∷ does Act.OffHook 1000
        ∷ repeated 62 (does Act.Flash 1000) ++ does Act.OnHook 2000 ∷ does Act.OffHook 3000 ∷ answers 3000
        ∷ asks (requests (codes "F2") (codes "L/hd(N)")) 3001 ∷ [])).notices
        ≡ (2000, record { identifier = codes "F1"; observed = lifted ∷ flashes 62 ++ put_back ∷ [] })
        ∷ (3001, tells (codes "F2") (codes "L/hd")) ∷ [] }
    ensures dialled { length (scenario (
        asks (with_map (codes "(x.T)") (requests (codes "F1") (codes "L/hd(I),D/X(D)"))) 1000 ∷ does Act.OffHook 1000
        ∷ repeated 64 (does (Act.Key Key.One) 1000))).notices ≡ 1 }
    ensures dialled_before { length (scenario (
        asks (with_map (codes "(x.T)") (requests (codes "F1") (codes "L/hd(I),D/X(D)"))) 1000 ∷ does Act.OffHook 1000
        ∷ repeated 63 (does (Act.Key Key.One) 1000))).notices ≡ 0 }
{}

/// A key at the moment at which dial tone ends: pressed before the end it stops the tone, which tells nothing then; with K
/// the tone goes on, and its end is told behind the key. After the end the key is quarantined.
pub fn a_key_at_the_end_of_a_signal()
    ensures key_first { (scenario (
        does Act.OffHook 1000 ∷ answers 1000
        ∷ asks (with_signals (codes "L/dl") (requests (codes "F1") (codes "D/5(A),L/oc(N)"))) 1000
        ∷ does (Act.Key Key.Five) 17000 ∷ waits 17000 ∷ [])).notices ≡ (1000, tells (codes "0") (codes "L/hd")) ∷ [] }
    ensures keeping { (scenario (
        does Act.OffHook 1000 ∷ answers 1000
        ∷ asks (with_signals (codes "L/dl") (requests (codes "F1") (codes "D/5(A,K),L/oc(N)"))) 1000
        ∷ does (Act.Key Key.Five) 17000 ∷ waits 17000 ∷ [])).notices
        ≡ (1000, tells (codes "0") (codes "L/hd")) ∷ (17000, tells (codes "F1") (codes "D/5,L/oc(L/dl)")) ∷ [] }
    ensures end_first { (scenario (
        does Act.OffHook 1000 ∷ answers 1000
        ∷ asks (with_signals (codes "L/dl") (requests (codes "F1") (codes "D/5(A),L/oc(N)"))) 1000
        ∷ waits 17000 ∷ does (Act.Key Key.Five) 17000 ∷ answers 17001
        ∷ asks (requests (codes "F2") (codes "D/5(N)")) 17002 ∷ [])).notices
        ≡ (1000, tells (codes "0") (codes "L/hd")) ∷ (17000, tells (codes "F1") (codes "L/oc(L/dl)"))
        ∷ (17002, tells (codes "F2") (codes "D/5")) ∷ [] }
{}

/// The end of timer T is a letter, and doesn't start timer T again.
pub fn timer_t_can_stand_inside_a_word()
    ensures waits { (scenario (
        asks (with_map (codes "(1T2)") (requests (codes "H1") (codes "L/hd(I),D/[0-9T](D)"))) 1000
        ∷ does Act.OffHook 1000 ∷ does (Act.Key Key.One) 1000 ∷ waits 40000 ∷ [])).notices ≡ [] }
    ensures goes_on { (scenario (
        asks (with_map (codes "(1T2)") (requests (codes "H1") (codes "L/hd(I),D/[0-9T](D)"))) 1000
        ∷ does Act.OffHook 1000 ∷ does (Act.Key Key.One) 1000 ∷ waits 40000 ∷ does (Act.Key Key.Two) 40000 ∷ [])).notices
        ≡ (40000, tells (codes "H1") (codes "D/1,D/T,D/2")) ∷ [] }
{}

/// An embedded request that a quarantined event brings stands for the quarantined events behind it, and its signals are
/// those that the hook state allows then.
pub fn a_drain_goes_on_under_the_embedded_request()
    ensures told { (scenario (
        does Act.OffHook 1000 ∷ does Act.OnHook 1000 ∷ does Act.OffHook 1000 ∷ answers 1000
        ∷ asks (requests (codes "J1") (codes "L/hu(E(R(L/hd(N)),S(L/rg,L/dl))),L/hd(A)")) 1001 ∷ [])).notices
        ≡ (1000, tells (codes "0") (codes "L/hd")) ∷ (1001, tells (codes "J1") (codes "L/hd")) ∷ [] }
    ensures signals { (scenario (
        does Act.OffHook 1000 ∷ does Act.OnHook 1000 ∷ answers 1000
        ∷ asks (requests (codes "J1") (codes "L/hu(E(R(L/hd(N)),S(L/rg,L/dl)))")) 1001 ∷ [])).line.signals
        ≡ until 181001 Signal.Ringing ∷ [] }
{}

/// A request with an empty D removes the digit map.
pub fn an_empty_map_removes_the_map()
    ensures { (scenario (
        asks (with_map (codes "(xx)") (requests (codes "B1") (codes "L/hd(I),D/X(D)"))) 1000
        ∷ asks (without_map (requests (codes "B2") (codes "L/hd(I)"))) 1000 ∷ [])).line.digit_map ≡ None }
{}

/// Until the gateway serves a line is silent: events that are persistent are quarantined, and a key isn't. Then they occur,
/// up to the first that notifies; the next waits for a request. What finds no room is lost.
pub fn events_wait_until_the_gateway_serves()
    ensures silent { (opening_scenario (does Act.OffHook 1000 ∷ does Act.OnHook 2000 ∷ waits 3000 ∷ [])).notices ≡ [] }
    ensures quarantined { (opening_scenario (
        does Act.OffHook 1000 ∷ does (Act.Key Key.Five) 1000 ∷ does Act.Flash 1000 ∷ does Act.OnHook 2000
        ∷ [])).line.quarantined.events ≡ lifted ∷ flashed ∷ put_back ∷ [] }
    ensures told { (opening_scenario (does Act.OffHook 1000 ∷ does Act.OnHook 2000 ∷ opens 3000 ∷ [])).notices
        ≡ (3000, tells (codes "0") (codes "L/hd")) ∷ [] }
    ensures left { (opening_scenario (does Act.OffHook 1000 ∷ does Act.OnHook 2000 ∷ opens 3000 ∷ [])).line.quarantined.events
        ≡ put_back ∷ [] }
    ensures next { (opening_scenario (
        does Act.OffHook 1000 ∷ does Act.OnHook 2000 ∷ opens 3000 ∷ answers 3001
        ∷ asks (requests (codes "A1") (codes "L/hu(N)")) 3002 ∷ [])).notices
        ≡ (3000, tells (codes "0") (codes "L/hd")) ∷ (3002, tells (codes "A1") (codes "L/hu")) ∷ [] }
    ensures nothing { (opening_scenario (opens 3000 ∷ [])).notices ≡ [] }
    ensures later { (opening_scenario (opens 3000 ∷ does Act.OffHook 4000 ∷ [])).notices
        ≡ (4000, tells (codes "0") (codes "L/hd")) ∷ [] }
    ensures lost { (opening_scenario (does Act.OffHook 1000 ∷ repeated most_quarantined (does Act.Flash 1000))).line.quarantined
        ≡ record { events = take most_quarantined (lifted ∷ flashes most_quarantined); room = most_quarantined; lost = 1 } }
{}

/// What a request asks for before the gateway serves is quarantined, by R and by T, and occurs then, in its order.
pub fn what_is_asked_for_waits_until_the_gateway_serves()
    ensures silent { (opening_scenario (
        asks (with_detected (codes "D/6") (requests (codes "A1") (codes "L/hd(A),D/5(A),L/hu(N)"))) 1000
        ∷ does Act.OffHook 1000 ∷ does (Act.Key Key.Five) 1000 ∷ does (Act.Key Key.Six) 1000 ∷ does (Act.Key Key.Seven) 1000
        ∷ does Act.OnHook 1000 ∷ [])).notices ≡ [] }
    ensures quarantined { (opening_scenario (
        asks (with_detected (codes "D/6") (requests (codes "A1") (codes "L/hd(A),D/5(A),L/hu(N)"))) 1000
        ∷ does Act.OffHook 1000 ∷ does (Act.Key Key.Five) 1000 ∷ does (Act.Key Key.Six) 1000 ∷ does (Act.Key Key.Seven) 1000
        ∷ does Act.OnHook 1000 ∷ [])).line.quarantined.events
        ≡ (tells (codes "A1") (codes "L/hd,D/5,D/6,L/hu")).observed }
    ensures told { (opening_scenario (
        asks (with_detected (codes "D/6") (requests (codes "A1") (codes "L/hd(A),D/5(A),L/hu(N)"))) 1000
        ∷ does Act.OffHook 1000 ∷ does (Act.Key Key.Five) 1000 ∷ does (Act.Key Key.Six) 1000 ∷ does (Act.Key Key.Seven) 1000
        ∷ does Act.OnHook 1000 ∷ opens 2000 ∷ [])).notices ≡ (2000, tells (codes "A1") (codes "L/hd,D/5,L/hu")) ∷ [] }
    ensures accumulated { (opening_scenario (
        asks (requests (codes "A1") (codes "L/hd(A)")) 1000 ∷ does Act.OffHook 1000 ∷ opens 2000 ∷ [])).line.accumulated
        ≡ lifted ∷ [] }
{}
