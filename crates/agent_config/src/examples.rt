//! Worked examples of the definitions, as theorems: each sentence of a definition has one that a slip in it breaks.
#![tactic(auto, unfolding(crate::proofs::Computing::on_examples))]

ghost use Rattle.std.specs.Prelude.{◌≡◌, codes, pos, [], Some, None};
ghost use Rattle.toml.specs.Data.{string, integer};
ghost use Rattle.agent_config.specs.declared.config_fault.ValueFault.TheVariants as faults;
ghost use Rattle.agent_config.specs.ConfigFaults.{place_by, value_text, fault_text, missing_line, unknown_line, value_line, count_line, name_line, limit_line};

/// Each sentence at an example.
pub fn each_sentence_has_an_example()
    // A fault is told with its key, what stands there, and what may.
    ensures faults_are_told_by_key_and_value_own { place_by None (codes "own") ≡ codes "own" }
    ensures of_gateway { place_by (Some (codes "gw1")) (codes "address") ≡ codes "gateways.\"gw1\".address" }
    ensures faults_are_told_by_key_and_value_gateway { place_by (Some (codes "gw\n")) [] ≡ codes "gateways.\"gw\\x0a\"" }
    ensures text { value_text (string (codes "a\n")) ≡ codes "\"a\\x0a\"" }
    ensures kind { value_text (integer (pos 7)) ≡ codes "integer" }
    ensures missing { missing_line (codes "own") ≡ codes "missing: own" }
    ensures faults_are_told_by_key_and_value_unknown { unknown_line (codes "map") ≡ codes "unknown key map" }
    ensures value { value_line (codes "own") (string (codes "x")) faults.NoAddress
        ≡ codes "own: \"x\", wanted an address a.b.c.d:port, with a port from 1 on" }
    ensures count { count_line (codes "gateways") 1025 faults.NoGateways ≡ codes "gateways: 1,025, wanted 1 to 1,024 tables" }
    ensures name { name_line (codes "gateways.\"-\"") faults.NoDomain
        ≡ codes "gateways.\"-\", wanted 1 to 64 letters, digits, \"-\" and \".\"" }
    ensures limit { limit_line 1048576 ≡ codes "over 1,048,576 bytes" }
    // What may stand at a key.
    ensures map { fault_text faults.NoDigitMap ≡ codes ", wanted a digit map, as \"(2xx|0)\"" }
    ensures what_may_stand_at_a_key_gateway { fault_text faults.NoGateway ≡ codes ", wanted a table with address and numbers" }
    ensures number { fault_text faults.NoNumber ≡ codes ", wanted 1 to 32 of 0 to 9, A to D, * and #, in quotes" }
    ensures numbers { fault_text faults.NoNumbers ≡ codes ", wanted 1 to 96 numbers in a list" }
    ensures twice { fault_text faults.Twice ≡ codes " stands twice" }
{}
