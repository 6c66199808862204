//! Worked examples of who may speak, as theorems.
#![tactic(auto, unfolding(crate::proofs::Computing::on_examples))]

ghost use Rattle.std.specs.Prelude.{◌≡◌, codes, true, false, Some, None};
ghost use Rattle.live_io.specs.Example.{host_at, admits};
ghost use Rattle.live_io.specs.Speaking.{nobody, anybody, with_host, may_speak, admitted_in};

/// Each sentence at an example.
pub fn each_sentence_has_an_example()
    // An address admits who has it, and a network who has one of its addresses, from the first to the last.
    ensures itself { admits (codes "10.0.0.7") (host_at 10 0 0 7) ≡ Some true }
    ensures below { admits (codes "10.0.0.7") (host_at 10 0 0 6) ≡ Some false }
    ensures above { admits (codes "10.0.0.7") (host_at 10 0 0 8) ≡ Some false }
    ensures whole { admits (codes "10.0.0.7/32") (host_at 10 0 0 6) ≡ Some false }
    ensures networks_have_a_first_and_a_last_first { admits (codes "10.1.0.0/16") (host_at 10 1 0 0) ≡ Some true }
    ensures last { admits (codes "10.1.0.0/16") (host_at 10 1 255 255) ≡ Some true }
    ensures before { admits (codes "10.1.0.0/16") (host_at 10 0 255 255) ≡ Some false }
    ensures behind { admits (codes "10.1.0.0/16") (host_at 10 2 0 0) ≡ Some false }
    ensures within_a_byte { admits (codes "192.168.1.5/30") (host_at 192 168 1 4) ≡ Some true }
    ensures past_it { admits (codes "192.168.1.5/30") (host_at 192 168 1 8) ≡ Some false }
    // The bits behind those that count don't matter.
    ensures other_bits { admits (codes "10.0.0.7/8") (host_at 10 200 0 1) ≡ Some true }
    ensures all { admits (codes "10.0.0.7/0") (host_at 255 255 255 255) ≡ Some true }
    // Any of several networks admits; `any` admits all, and nobody is admitted who isn't named.
    ensures second { admits (codes "10.0.0.7, 10.1.0.0/16") (host_at 10 1 2 3) ≡ Some true }
    ensures one_of_several_admits_first { admits (codes "10.0.0.7,10.1.0.0/16") (host_at 10 0 0 7) ≡ Some true }
    ensures neither { admits (codes "10.0.0.7,10.1.0.0/16") (host_at 10 0 0 8) ≡ Some false }
    ensures any { admits (codes "any") (host_at 10 0 0 8) ≡ Some true }
    ensures anybody { may_speak anybody (host_at 10 0 0 8) ≡ true }
    ensures nobody { may_speak nobody (host_at 10 0 0 8) ≡ false }
    ensures named { may_speak (with_host (with_host nobody (host_at 10 0 0 7)) (host_at 10 0 0 9)) (host_at 10 0 0 9) ≡ true }
    ensures still { may_speak (with_host (with_host nobody (host_at 10 0 0 7)) (host_at 10 0 0 9)) (host_at 10 0 0 7) ≡ true }
    ensures not_named { may_speak (with_host nobody (host_at 10 0 0 7)) (host_at 10 0 0 9) ≡ false }
    // Anything else says nothing of who may speak.
    ensures empty { admitted_in (codes "") ≡ None }
    ensures no_second { admitted_in (codes "10.0.0.7,") ≡ None }
    ensures too_many_bits { admitted_in (codes "10.0.0.7/33") ≡ None }
    ensures no_bits { admitted_in (codes "10.0.0.7/") ≡ None }
    ensures no_address { admitted_in (codes "/8") ≡ None }
    ensures a_name { admitted_in (codes "ca.example.net") ≡ None }
    ensures a_port { admitted_in (codes "10.0.0.7:2727") ≡ None }
    ensures in_brackets { admitted_in (codes "[10.0.0.7]") ≡ None }
    ensures other_case { admitted_in (codes "Any") ≡ None }
    ensures any_among_others { admitted_in (codes "any,10.0.0.7") ≡ None }
{}

/// A host is written so.
pub fn hosts_are_written_so()
    // The name localhost is 127.0.0.1, and no other name is an address.
    ensures here { admits (codes "localhost") (host_at 127 0 0 1) ≡ Some true }
    ensures here_alone { admits (codes "localhost") (host_at 127 0 0 2) ≡ Some false }
    ensures here_with_bits { admits (codes "localhost/8") (host_at 127 9 9 9) ≡ Some true }
    ensures other_name { admitted_in (codes "localhost.") ≡ None }
    ensures name_with_port { admitted_in (codes "localhost:2727") ≡ None }
    // No number has a zero in front of it; a zero alone is a number.
    ensures first { admitted_in (codes "010.0.0.7") ≡ None }
    ensures second { admitted_in (codes "10.00.0.7") ≡ None }
    ensures third { admitted_in (codes "10.0.01.7") ≡ None }
    ensures fourth { admitted_in (codes "10.0.0.07") ≡ None }
    ensures bits { admitted_in (codes "10.0.0.7/08") ≡ None }
    ensures zeros { admits (codes "0.0.0.0") (host_at 0 0 0 0) ≡ Some true }
{}
