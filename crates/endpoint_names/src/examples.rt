//! Worked examples of the definitions, as theorems.
#![tactic(auto, unfolding(crate::proofs::Computing::on_examples))]

ghost use Rattle.std.specs.Prelude.{◌≡◌, ◌++◌, ◌∷◌, codes, replicate, true, false, Ok, Err, Some, None};
ghost use Rattle.mg_bytes.specs.Bytes.{at_sign};
ghost use Rattle.endpoint_names.specs.declared.route.Route.TheVariants.{One, Two, Three, Four};
ghost use Rattle.endpoint_names.specs.RouteExample.{local_address};
ghost use Rattle.endpoint_names.specs.Name.{means_line, name_fault_number, name_text};
ghost use Rattle.endpoint_names.specs.Table.{is_domain, fault_of, table_fault_number};
ghost use Rattle.endpoint_names.specs.Entity.{entity_of};
ghost use Rattle.endpoint_names.specs.Examples.{meaning, table_of, hosts_named, at_port, read_at, IsAt, IsNoEntity, IsRouted};

use crate::name::{NameFault, Pattern};
use crate::table::TableFault;

/// Each sentence at an example.
pub fn each_sentence_has_an_example()
    // `aaln/` and the line's number is a line, in any case.
    ensures first { meaning (codes "aaln/1@rgw.example.net") ≡ Ok (Pattern.One 1) }
    ensures lines_are_named_by_number_last { meaning (codes "AALN/16@RGW.example.net") ≡ Ok (Pattern.One 16) }
    ensures beyond { meaning (codes "aaln/17@rgw.example.net") ≡ Err NameFault.Unknown }
    ensures zero { meaning (codes "aaln/0@rgw.example.net") ≡ Err NameFault.Unknown }
    ensures leading_zero { meaning (codes "aaln/01@rgw.example.net") ≡ Err NameFault.Unknown }
    ensures star_after { meaning (codes "aaln/1*@rgw.example.net") ≡ Err NameFault.Unknown }
    // A name has this gateway's domain after its first `@`.
    ensures names_are_of_one_domain_other { meaning (codes "aaln/1@other.example.net") ≡ Err NameFault.Unknown }
    ensures names_are_of_one_domain_two { meaning (codes "aaln/1@rgw.example.net@x") ≡ Err NameFault.Unknown }
    // Split at its last `@`, it would be a wildcard in another place.
    ensures names_are_of_one_domain_first_at { meaning (codes "*/x@y@rgw.example.net") ≡ Err NameFault.Unknown }
    ensures none { meaning (codes "aaln/1") ≡ Err NameFault.Unknown }
    // `*` is all lines, alone, after `aaln/` or in both places.
    ensures a_star_is_all_lines_alone { meaning (codes "*@rgw.example.net") ≡ Ok Pattern.All }
    ensures a_star_is_all_lines_after { meaning (codes "aaln/*@rgw.example.net") ≡ Ok Pattern.All }
    ensures a_star_is_all_lines_both { meaning (codes "*/*@rgw.example.net") ≡ Ok Pattern.All }
    // `$` is any one line, in the same places.
    ensures a_dollar_is_any_line_alone { meaning (codes "$@rgw.example.net") ≡ Ok Pattern.Any }
    ensures a_dollar_is_any_line_after { meaning (codes "aaln/$@rgw.example.net") ≡ Ok Pattern.Any }
    ensures a_dollar_is_any_line_both { meaning (codes "$/$@rgw.example.net") ≡ Ok Pattern.Any }
    // A wildcard as a term in another place is too complicated.
    ensures further { meaning (codes "aaln/*/1@rgw.example.net") ≡ Err NameFault.TooComplicated }
    ensures front { meaning (codes "*/aaln@rgw.example.net") ≡ Err NameFault.TooComplicated }
    ensures dollar_front { meaning (codes "$/aaln@rgw.example.net") ≡ Err NameFault.TooComplicated }
    ensures star_dollar { meaning (codes "*/$@rgw.example.net") ≡ Err NameFault.TooComplicated }
    ensures dollar_star { meaning (codes "$/*@rgw.example.net") ≡ Err NameFault.TooComplicated }
    ensures other_domain { meaning (codes "*/aaln@other.example.net") ≡ Err NameFault.Unknown }
    // Only `/` parts the terms.
    ensures hyphen { meaning (codes "aaln-*@rgw.example.net") ≡ Err NameFault.Unknown }
    ensures dot { meaning (codes "aaln.$@rgw.example.net") ≡ Err NameFault.Unknown }
    // One line alone is meant by its own name, and every line by the others.
    ensures one { means_line (Pattern.One 1) 1 ≡ true }
    ensures names_mean_lines_other { means_line (Pattern.One 1) 2 ≡ false }
    ensures lesser { means_line (Pattern.One 16) 1 ≡ false }
    ensures all_first { means_line Pattern.All 1 ≡ true }
    ensures all_last { means_line Pattern.All 16 ≡ true }
    ensures any_first { means_line Pattern.Any 1 ≡ true }
    ensures any_last { means_line Pattern.Any 16 ≡ true }
{}

/// Each sentence at an example.
pub fn further_sentences_have_examples()
    // A name is written in lower case without leading zeros, with the domain as it is given.
    ensures line { name_text (Pattern.One 1) (codes "rgw.example.net") ≡ codes "aaln/1@rgw.example.net" }
    ensures names_are_written_last { name_text (Pattern.One 16) (codes "RGW.example.net") ≡ codes "aaln/16@RGW.example.net" }
    ensures all { name_text Pattern.All (codes "rgw.example.net") ≡ codes "*@rgw.example.net" }
    ensures any { name_text Pattern.Any (codes "rgw.example.net") ≡ codes "$@rgw.example.net" }
    // A domain is 1 to 64 letters, digits, `-` and `.`.
    ensures domains_have_1_to_64_bytes_taken { is_domain (codes "Ca-1.example.net") ≡ true }
    ensures domains_have_1_to_64_bytes_empty { is_domain (codes "") ≡ false }
    ensures domains_have_1_to_64_bytes_other { is_domain (codes "ca_1") ≡ false }
    ensures star { is_domain (codes "*.example.net") ≡ false }
    ensures port { is_domain (codes "ca:2727") ≡ false }
    ensures brackets { is_domain (codes "[127.0.0.1]") ≡ false }
    ensures shortest { is_domain (codes "a") ≡ true }
    ensures signs { is_domain (codes "-.") ≡ true }
    ensures domains_have_1_to_64_bytes_longest { is_domain (replicate 64 97) ≡ true }
    ensures domains_have_1_to_64_bytes_too_long { is_domain (replicate 65 97) ≡ false }
    // A host is a name of the table, in any case, or an address in brackets, with or without a port.
    ensures no_port { IsAt (codes "ca@ca.example.net") 1 2727 }
    ensures entities_are_local_host_and_port_no_local { IsAt (codes "CA.EXAMPLE.NET:2728") 1 2728 }
    ensures entities_are_local_host_and_port_literal { IsAt (codes "ca2@[127.0.0.2]:2727") 2 2727 }
    ensures zeros { IsAt (codes "[127.000.0.1]:02727") 1 2727 }
    ensures carriage_return { IsAt (codes "a\rb@ca.example.net") 1 2727 }
    ensures smallest_port { IsAt (codes "ca.example.net:1") 1 1 }
    ensures largest_port { IsAt (codes "ca.example.net:65535") 1 65535 }
    // An entity has all the addresses of its host, each with its port; an address in brackets is one.
    ensures entities_have_the_addresses_of_their_host_two { IsRouted (Two (local_address 1) (local_address 2)) (codes "ca@ca.example.net")
        (Two (at_port 1 2727) (at_port 2 2727)) }
    ensures three { IsRouted (Three (local_address 3) (local_address 1) (local_address 2)) (codes "ca.example.net:2728")
        (Three (at_port 3 2728) (at_port 1 2728) (at_port 2 2728)) }
    ensures four { IsRouted (Four (local_address 1) (local_address 2) (local_address 1) (local_address 3))
        (codes "a@CA.example.net") (Four (at_port 1 2727) (at_port 2 2727) (at_port 1 2727) (at_port 3 2727)) }
    ensures entities_have_the_addresses_of_their_host_literal { IsRouted (Two (local_address 1) (local_address 2))
        (codes "ca@[127.0.0.2]:2728")
        (One (at_port 2 2728)) }
{}

/// Each sentence at an example.
pub fn more_sentences_have_examples()
    // Any other text is no entity.
    ensures port_0 { IsNoEntity (codes "ca.example.net:0") }
    ensures port_65536 { IsNoEntity (codes "ca.example.net:65536") }
    ensures no_digits { IsNoEntity (codes "ca@ca.example.net:") }
    ensures octet { IsNoEntity (codes "[127.0.0.256]") }
    ensures other_texts_are_no_entities_unknown { IsNoEntity (codes "other.example.net") }
    ensures bare_address { IsNoEntity (codes "127.0.0.1") }
    ensures name_in_brackets { IsNoEntity (codes "[ca.example.net]") }
    ensures open_bracket { IsNoEntity (codes "[127.0.0.1") }
    ensures other_texts_are_no_entities_first_at { IsNoEntity (codes "a@b@ca.example.net") }
    ensures tab { IsNoEntity (codes "a\tb@ca.example.net") }
    ensures line_feed { IsNoEntity (codes "a\nb@ca.example.net") }
    ensures other_texts_are_no_entities_no_local { IsNoEntity (codes "@ca.example.net") }
    ensures blank { IsNoEntity (codes "a b@ca.example.net") }
    ensures other_texts_are_no_entities_empty { IsNoEntity (codes "") }
    // A local name has at most 64 bytes.
    ensures local_names_have_64_bytes_longest { let text = replicate 64 97 ++ codes "@ca.example.net" in IsAt text 1 2727 }
    ensures local_names_have_64_bytes_too_long { IsNoEntity (replicate 65 97 ++ codes "@ca.example.net") }
    // An entity's name has at most 128 bytes: 64, an `@`, and the host.
    ensures entities_have_128_bytes_longest { let host = replicate 63 97 in let text = replicate 64 97 ++ at_sign ∷ host in
        entity_of (table_of host) text ≡ read_at text 1 2727 }
    ensures entities_have_128_bytes_too_long { let host = replicate 64 97 in
        entity_of (table_of host) (replicate 64 97 ++ at_sign ∷ host) ≡ None }
    // A table has 64 names. A name that is no domain is refused as such, also where it stands in the table or the
    // table is full; a name that stands there is refused as such, also where the table is full.
    ensures tables_have_64_names_taken { fault_of (hosts_named (codes "a") 63) (codes "b") ≡ None }
    ensures tables_have_64_names_full { fault_of (hosts_named (codes "a") 64) (codes "b") ≡ Some TableFault.Full }
    ensures tables_have_64_names_twice { fault_of (hosts_named (codes "a") 64) (codes "A") ≡ Some TableFault.Twice }
    ensures twice_in_one { fault_of (hosts_named (codes "a") 1) (codes "a") ≡ Some TableFault.Twice }
    ensures tables_have_64_names_no_domain { fault_of (hosts_named (codes "a") 64) (codes "b_")
        ≡ Some TableFault.NotADomain }
    ensures no_domain_twice { fault_of (hosts_named (codes "b_") 64) (codes "b_")
        ≡ Some TableFault.NotADomain }
    // Faults are numbered from 1, in the order in which they are declared.
    ensures faults_have_numbers_unknown { name_fault_number NameFault.Unknown ≡ 1 }
    ensures complicated { name_fault_number NameFault.TooComplicated ≡ 2 }
    ensures faults_have_numbers_no_domain { table_fault_number TableFault.NotADomain ≡ 1 }
    ensures faults_have_numbers_twice { table_fault_number TableFault.Twice ≡ 2 }
    ensures faults_have_numbers_full { table_fault_number TableFault.Full ≡ 3 }
{}
