//! Worked examples of how programs end, as theorems: each sentence of a definition has one that a slip in it breaks.
#![tactic(auto, unfolding(crate::proofs::Computing::on_examples))]

ghost use Rattle.std.specs.Prelude.{◌≡◌, codes, true, false, Some, None, [], ◌∷◌, ◌++◌, map};
ghost use Rattle.std.specs.List.{flat_map};
ghost use Rattle.std.specs.Net.Grammar.{IsSocketV4Text};
ghost use Rattle.std.specs.Net.Text.{socket_v4_text};
ghost use Rattle.std.specs.declared.io.ErrorKind.{ErrorKind};
ghost use Rattle.std.specs.declared.net.socket_addr.SocketAddrV4.{SocketAddrV4};
ghost use Rattle.impairment.specs.declared.spoiling.SpoilingFault.{SpoilingFault};
ghost use Rattle.impairment.specs.declared.spoiling.SpoilingFault.TheVariants as faults;
ghost use Rattle.live_system.specs.declared.address_words.AddressWord.{AddressWord};
ghost use Rattle.live_system.specs.declared.address_words.AddressWord.TheVariants as words;
ghost use Rattle.live_system.specs.declared.ending.About.{About};
ghost use Rattle.live_system.specs.declared.ending.FileNames.{FileNames};
ghost use Rattle.live_system.specs.declared.ending.CommonEnding.TheVariants.{Served, Help, Version, Usage, Told, BadAddress, BadNetwork};
ghost use Rattle.live_system.specs.declared.ending.CommonEnding.TheVariants.{Unreadable, Unwritable, Unbound, Clock, Write, OutOfMemory};
ghost use Rattle.live_system.specs.AddressWords.{word_text};
ghost use Rattle.live_system.specs.Addresses.{local_port, local_address, IsAddress};
ghost use Rattle.live_system.specs.Ending.{status_of, is_asked, served_ending, ending_text};
ghost use Rattle.live_system.specs.NetworkFaults.{wanted_by};
ghost use Rattle.output_queues.specs.Reasons.{reason_of};
ghost use Rattle.live_system.specs.Wording.{piece_text};

/// Each sentence at an example.
pub fn each_sentence_has_an_example()
    // What was asked was done, or words are refused, or the system failed.
    ensures statuses_tell_what_came_of_it_done { map status_of (Served ∷ Help ∷ Version ∷ []) ≡ 0 ∷ 0 ∷ 0 ∷ [] }
    ensures statuses_tell_what_came_of_it_words { map status_of (Usage ∷ Told ∷ []) ≡ 2 ∷ 2 ∷ [] }
    ensures statuses_tell_what_came_of_it_address { (word : AddressWord) → status_of (BadAddress word) ≡ 2 }
    ensures statuses_tell_what_came_of_it_network { (fault : SpoilingFault) → status_of (BadNetwork fault) ≡ 2 }
    ensures system { map status_of (Clock ∷ Write ∷ OutOfMemory ∷ []) ≡ 3 ∷ 3 ∷ 3 ∷ [] }
    ensures statuses_tell_what_came_of_it_unread { (kind : ErrorKind) → status_of (Unreadable kind) ≡ 3 }
    ensures statuses_tell_what_came_of_it_unwritten { (kind : ErrorKind) → status_of (Unwritable kind) ≡ 3 }
    ensures statuses_tell_what_came_of_it_unbound { (word : AddressWord) (address : SocketAddrV4) (kind : ErrorKind) →
        status_of (Unbound word address kind) ≡ 3 }
    // How it is used and its version are what words ask for; nothing else is.
    ensures asked { map is_asked (Help ∷ Version ∷ []) ≡ true ∷ true ∷ [] }
    ensures words_ask_for_help_and_version_done { map is_asked (Served ∷ Usage ∷ Told ∷ Clock ∷ Write ∷ OutOfMemory ∷ [])
        ≡ false ∷ false ∷ false ∷ false ∷ false ∷ false ∷ [] }
    ensures words_ask_for_help_and_version_address { (word : AddressWord) → is_asked (BadAddress word) ≡ false }
    ensures words_ask_for_help_and_version_network { (fault : SpoilingFault) → is_asked (BadNetwork fault) ≡ false }
    ensures words_ask_for_help_and_version_unread { (kind : ErrorKind) → is_asked (Unreadable kind) ≡ false }
    ensures words_ask_for_help_and_version_unwritten { (kind : ErrorKind) → is_asked (Unwritable kind) ≡ false }
    ensures words_ask_for_help_and_version_unbound { (word : AddressWord) (address : SocketAddrV4) (kind : ErrorKind) →
        is_asked (Unbound word address kind) ≡ false }
{}

/// How it ends that served, at examples.
pub fn each_way_to_have_served_has_an_example()
    ensures all_is_written { served_ending false 0 ≡ Served }
    ensures one_record_failed { served_ending false 1 ≡ Write }
    ensures more_failed { served_ending false 3 ≡ Write }
    ensures memory_was_refused { served_ending true 0 ≡ OutOfMemory }
    ensures memory_is_told_first { served_ending true 1 ≡ OutOfMemory }
{}

/// Each sentence at an example.
pub fn further_sentences_have_examples()
    // An ending says why, in a line; nothing where it served, or where all was said.
    ensures served { (about : About) (files : FileNames) → ending_text about files Served ≡ [] }
    ensures told { (about : About) (files : FileNames) → ending_text about files Told ≡ [] }
    ensures unrecorded { (about : About) (files : FileNames) → ending_text about files Write ≡ [] }
    ensures help { (about : About) (files : FileNames) → ending_text about files Help ≡ flat_map piece_text about.help.now }
    ensures version { (about : About) (files : FileNames) → ending_text about files Version ≡ flat_map piece_text about.version.now }
    ensures usage { (about : About) (files : FileNames) → ending_text about files Usage
        ≡ codes "usage: " ++ about.usage.now ++ codes "\n" }
    ensures an_ending_says_why_address { (about : About) (files : FileNames) → ending_text about files (BadAddress words.Http)
        ≡ codes "--http: no address a.b.c.d:port\n" }
    ensures an_ending_says_why_network { (about : About) (files : FileNames) → ending_text about files (BadNetwork faults.Seed)
        ≡ codes "--network: seed: a number, once for each direction\n" }
    ensures an_ending_says_why_unread { (about : About) (files : FileNames) (kind : ErrorKind) →
        ending_text about files (Unreadable kind) ≡ files.read_from.now ++ codes ": read fault" ++ reason_of kind ++ codes "\n" }
    ensures an_ending_says_why_unwritten { (about : About) (files : FileNames) (kind : ErrorKind) →
        ending_text about files (Unwritable kind) ≡ files.written_to.now ++ codes ": write fault" ++ reason_of kind ++ codes "\n" }
    ensures an_ending_says_why_unbound { (about : About) (files : FileNames) (word : AddressWord) (address : SocketAddrV4)
        (kind : ErrorKind) → ending_text about files (Unbound word address kind)
        ≡ word_text word ++ (codes " " ++ (socket_v4_text address ++ (codes ": no socket" ++ (reason_of kind ++ codes "\n")))) }
    ensures clock { (about : About) (files : FileNames) → ending_text about files Clock ≡ codes "clock fault\n" }
    ensures memory { (about : About) (files : FileNames) → ending_text about files OutOfMemory ≡ codes "out of memory\n" }
    // Words that have an address behind them are told as they are written, and so is a configuration's key.
    ensures gateway_words { map word_text (words.Listen ∷ words.Phones ∷ words.Http ∷ words.Tell ∷ [])
        ≡ codes "--listen" ∷ codes "--phones" ∷ codes "--http" ∷ codes "--tell" ∷ [] }
    ensures agent_words { map word_text (words.Control ∷ words.OwnKey ∷ []) ≡ codes "--control" ∷ codes "own" ∷ [] }
    // Where a text says nothing of a network, what would stands there.
    ensures wanted { map wanted_by (faults.Lose ∷ faults.Copy ∷ faults.Seed ∷ [])
        ≡ codes "lose: 0% to 100%, once for each direction" ∷ codes "copy: 0% to 100%, once for each direction"
        ∷ codes "seed: a number, once for each direction" ∷ [] }
    ensures wanted_late { wanted_by faults.Late ≡ codes "late: LEAST-MOST in ms, 10000 at most, once for each direction" }
    ensures wanted_other { wanted_by faults.Other ≡ codes "lose N%, copy N%, late LEAST-MOST, seed N, or one of these after in or out" }
{}

/// Each sentence at an example.
pub fn an_address_is_written_so()
    // Behind localhost stands a port, from 0 to 65535, and nothing else.
    ensures port { local_port (codes "localhost:2428") ≡ Some 2428 }
    ensures any_port { local_port (codes "localhost:0") ≡ Some 0 }
    ensures last_port { local_port (codes "localhost:65535") ≡ Some 65535 }
    ensures no_port { local_port (codes "localhost") ≡ None }
    ensures nothing { local_port (codes "localhost:") ≡ None }
    ensures too_high { local_port (codes "localhost:65536") ≡ None }
    ensures more { local_port (codes "localhost:2428 ") ≡ None }
    ensures other { local_port (codes "localhost.example.net:2428") ≡ None }
    // It is 127.0.0.1; else four numbers say the address.
    ensures local { (address : SocketAddrV4) → IsAddress (codes "localhost:2428") address → address ≡ local_address 2428 }
    ensures octets { (local_address 2428).ip.octets ≡ 127 ∷ 0 ∷ 0 ∷ 1 ∷ [] }
    ensures numbers { (address : SocketAddrV4) → IsAddress (codes "10.0.0.7:2427") address
        → IsSocketV4Text (codes "10.0.0.7:2427") address }
{}
