//! Worked examples of flaws, as theorems.
#![tactic(auto, unfolding(crate::proofs::Computing::on_examples))]

ghost use Rattle.std.specs.Prelude.{◌≡◌, ◌++◌, codes, pos, negsuc, replicate, true, false, Some, None, [], ◌∷◌};
ghost use Rattle.toml.specs.Data.{string, integer, boolean, array, table, no_items, item, no_members, member};
ghost use Rattle.plain_machine.specs.declared.config.ConfigKey.TheVariants as keys;
ghost use Rattle.plain_machine.specs.Example.{example};
ghost use Rattle.rgw_scripts.specs.Example.{settings_with, local, host_at, with_lines, with_media};
ghost use Rattle.endpoint_names.specs.declared.table.TableFault.TheVariants.{Full};
ghost use Rattle.gateway_config.specs.declared.flaw.Flaw.TheVariants as flaws;
ghost use Rattle.gateway_config.specs.AgentWording.{agent_told};
ghost use Rattle.gateway_config.specs.Flaws.{flaw_in};
ghost use Rattle.gateway_config.specs.NamesWording.{names_told, refused_told};
ghost use Rattle.gateway_config.specs.Ports.{ports_of};
ghost use Rattle.gateway_config.specs.Wording.{key_told, document_told, line_told, limit_told};

/// Each sentence at an example.
pub fn each_sentence_has_an_example()
    // An unknown key comes first, then a missing one, then a value of another kind, then the others in their order, and 0.0.0.0 last.
    ensures none { flaw_in (with_lines (integer (pos 16))) ≡ None }
    ensures flaws_have_an_order_unknown { flaw_in (member (codes "Lines") (integer (pos 1)) (with_lines (integer (pos 16))))
        ≡ Some flaws.UnknownKey }
    ensures mistyped { flaw_in (settings_with (codes "line") (integer (pos 16)) local (host_at local)) ≡ Some flaws.UnknownKey }
    ensures flaws_have_an_order_missing { flaw_in no_members ≡ Some (flaws.Missing keys.Domain) }
    ensures flaws_have_an_order_kind { flaw_in (with_lines (string (codes "16"))) ≡ Some (flaws.BadValue keys.Lines) }
    ensures kind_first { flaw_in (settings_with (codes "lines") (integer (pos 97)) (string (codes "localhost")) (host_at local))
        ≡ Some (flaws.BadValue keys.MediaAddress) }
    ensures value { flaw_in (with_lines (integer (pos 97))) ≡ Some (flaws.BadValue keys.Lines) }
    ensures value_first { flaw_in (settings_with (codes "lines") (integer (pos 97)) (string (codes "0.0.0.0")) (host_at local))
        ≡ Some (flaws.BadValue keys.Lines) }
    ensures flaws_have_an_order_any_address { flaw_in (with_media (string (codes "0.0.0.0"))) ≡ Some flaws.AnyAddress }
    ensures other_address { flaw_in (with_media (string (codes "0.0.0.1"))) ≡ None }
    // A line has four ports, each two behind the one before it; those of the next line come behind them.
    ensures first { ports_of example 1 ≡ 3000 ∷ 3002 ∷ 3004 ∷ 3006 ∷ [] }
    ensures second { ports_of example 2 ≡ 3008 ∷ 3010 ∷ 3012 ∷ 3014 ∷ [] }
    ensures last { ports_of example 96 ≡ 3760 ∷ 3762 ∷ 3764 ∷ 3766 ∷ [] }
    // A flaw is told with its key, what stands there, and what may.
    ensures flaws_are_told_by_key_and_value_missing { document_told no_members (flaws.Missing keys.Agent) ≡ codes "missing: agent" }
    ensures flaws_are_told_by_key_and_value_unknown { document_told (member (codes "Lines") (integer (pos 1)) no_members)
        flaws.UnknownKey ≡ codes "unknown key \"Lines\"" }
    ensures at_key { document_told (with_lines (integer (pos 97))) (flaws.BadValue keys.Lines) ≡ codes "lines: 97, wanted 1 to 96" }
    ensures flaws_are_told_by_key_and_value_any_address { document_told no_members flaws.AnyAddress
        ≡ codes "media_address: 0.0.0.0, wanted an address of this machine that others reach" }
    ensures limit { limit_told ≡ codes "over 1,048,576 bytes" }
    ensures line { line_told 7 (codes "no value") ≡ codes "line 7: no value" }
    ensures quoted { key_told keys.Lines (Some (string (codes "16"))) ≡ codes "lines: \"16\", wanted 1 to 96" }
    ensures wait { key_told keys.RestartWait (Some (integer (pos 0))) ≡ codes "restart_wait: 0, wanted 1 to 600,000 ms" }
    ensures other_wait { key_told keys.DisconnectedWait (Some (boolean false)) ≡ codes "disconnected_wait: false, wanted 1 to 600,000 ms" }
    ensures base { key_told keys.MediaBase (Some (integer (negsuc 0)))
        ≡ codes "media_base: -1, wanted an even number from 1,024 to 64,000" }
    ensures address { key_told keys.MediaAddress (Some (boolean true))
        ≡ codes "media_address: true, wanted an IPv4 address, as \"10.0.0.5\"" }
    ensures flaws_are_told_by_key_and_value_domain { key_told keys.Domain (Some (string []))
        ≡ codes "domain: \"\", wanted a text of 1 to 64 letters, digits, \"-\" and \".\"" }
    ensures list { key_told keys.Lines (Some (array (item (boolean true) no_items))) ≡ codes "lines: a list of 1, wanted 1 to 96" }
    ensures flaws_are_told_by_key_and_value_kind { key_told keys.Lines (Some (table no_members)) ≡ codes "lines: a table, wanted 1 to 96" }
    ensures agent { key_told keys.Agent (Some (integer (pos 7))) ≡ codes "agent: 7, wanted a text [local@]host[:port]" }
    ensures names { key_told keys.Names (Some (string (codes "ca"))) ≡ codes "names: \"ca\", wanted a table [names]" }
    // What a call agent lacks: its length comes first, then that it is one word, its local name, its host and its port.
    ensures long { agent_told (string (replicate 129 97)) ≡ replicate 64 97 ++ codes ".., wanted at most 128 bytes" }
    ensures blank { agent_told (string (codes "a b@")) ≡ codes "a b@, wanted no blank in it" }
    ensures no_local { agent_told (string (codes "@h")) ≡ codes "@h, wanted a text [local@]host[:port]" }
    ensures local { agent_told (string (replicate 65 97 ++ codes "@"))
        ≡ replicate 64 97 ++ codes ".., wanted at most 64 bytes before the @" }
    ensures no_host { agent_told (string (codes "ca@")) ≡ codes "ca@, wanted a text [local@]host[:port]" }
    ensures literal { agent_told (string (codes "ca@[1.2]:0")) ≡ codes "ca@[1.2]:0, wanted an IPv4 address in the brackets" }
    ensures brackets { agent_told (string (codes "10.0.0.7")) ≡ codes "10.0.0.7, an address wants brackets" }
    ensures port { agent_told (string (codes "ca@[10.0.0.7]:0")) ≡ codes "ca@[10.0.0.7]:0, wanted a port from 1 to 65,535" }
    ensures an_agent_is_told_by_what_it_lacks_unknown { agent_told (string (codes "ca@h")) ≡ codes "ca@h, no such host in [names]" }
    // What hosts lack: one that can't be read comes first, then one that can't be taken.
    ensures unread { names_told (table (member (codes "_") local (member (codes "ca") (integer (pos 1)) no_members)))
        ≡ codes "ca = 1, wanted an IPv4 address, as \"10.0.0.7\", or a list of 1 to 4" }
    ensures text { names_told (table (member (codes "ca") (string (codes "x")) no_members))
        ≡ codes "ca = \"x\", wanted an IPv4 address, as \"10.0.0.7\", or a list of 1 to 4" }
    ensures hosts_are_told_by_what_they_lack_domain { names_told (table (member (codes "_") local no_members))
        ≡ codes "_, wanted 1 to 64 letters, digits, \"-\" and \".\"" }
    ensures twice { names_told (table (member (codes "CA") local (member (codes "ca") local no_members))) ≡ codes "ca stands twice" }
    ensures full { refused_told 65 (codes "h") Full ≡ codes "65 hosts, wanted at most 64" }
{}
