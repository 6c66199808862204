//! Worked examples of the definitions, as theorems.
#![tactic(auto, unfolding(crate::proofs::Computing::on_examples))]

ghost use Rattle.std.specs.Prelude.{◌≡◌, ◌≢◌, ◌<◌, ◌+◌, ℕ, List, codes, true, false, [], ◌∷◌, ◌++◌, map, option_map};
ghost use Rattle.std.specs.Prelude.{Ok, Err, Some, None};
ghost use Rattle.std.specs.Borrow.{Bor};
ghost use Rattle.std.specs.Net.Addr.{IsUnspecifiedV4};
ghost use Rattle.std.specs.Net.Grammar.{IsSocketV4Text};
ghost use Rattle.std.specs.Net.Socket.{v4_ip, v4_port};
ghost use Rattle.std.specs.Net.Text.{socket_v4_text};
ghost use Rattle.std.specs.declared.io.ErrorKind.{ErrorKind};
ghost use Rattle.std.specs.declared.io.ErrorKind.TheVariants as kinds;
ghost use Rattle.std.specs.declared.net.ipv4_addr.Ipv4Addr.{Ipv4Addr};
ghost use Rattle.std.specs.declared.net.socket_addr.SocketAddrV4.{SocketAddrV4};
ghost use Rattle.live_system.specs.Addresses.{local_address, IsAddress};
ghost use Rattle.live_system.specs.declared.asking.AskFault.TheVariants as ask_faults;
ghost use Rattle.live_system.specs.declared.ending.About.{About};
ghost use Rattle.live_system.specs.declared.ending.FileNames.{FileNames};
ghost use Rattle.live_system.specs.declared.ending.CommonEnding.{CommonEnding};
ghost use Rattle.live_system.specs.declared.ending.CommonEnding.TheVariants.{Served, Help, Version, Usage, OutOfMemory};
ghost use Rattle.live_system.specs.declared.ending.CommonEnding.TheVariants.{Unreadable, Unwritable};
ghost use Rattle.live_system.specs.Ending.{status_of as common_status, is_asked as is_commonly_asked, ending_text as common_text};
ghost use Rattle.live_system.specs.Wording.{joined};
ghost use Rattle.clap.specs.Matches.{first_value, one_text};
ghost use Rattle.clap.specs.declared.parser.matches.Found.{Found};
ghost use Rattle.live_system.specs.Values.{IsBehind, IsRead};
ghost use Rattle.output_queues.specs.Reasons.{reason_of};
ghost use Rattle.page_http.specs.Naming.{names_in};
ghost use Rattle.gateway_config.specs.declared.flaw.Flaw.TheVariants as flaws;
ghost use Rattle.gateway_config.specs.Wording.{Tells};
ghost use Rattle.small_rules.specs.Numbering.{first_at};
ghost use Rattle.live_io.specs.Speaking.{admitted_in};
ghost use Rattle.traces.specs.declared.verdict.Verdict.TheVariants as verdicts;
ghost use Rattle.rgwd_words.specs.declared.ending.Ending.{Ending};
ghost use Rattle.rgwd_words.specs.declared.ending.Ending.TheVariants.{Common, Checked, BadAgents, BadHosts, BadSize, BadFiles, AnyAddress, BadFirst, BadSpread, NoTimeOfDay, Replayed, Differs, NoTrace, Answered, Refused, NoAnswer};
ghost use Rattle.rgwd_words.specs.declared.help.TheConstants.{USAGE};
ghost use Rattle.rgwd_words.specs.declared.words.ListFault.{ListFault};
ghost use Rattle.rgwd_words.specs.declared.words.ListFault.TheVariants as faults;
ghost use Rattle.rgwd_words.specs.declared.words.Settings.{Settings};
ghost use Rattle.rgwd_words.specs.declared.words.Sockets.{Sockets};
ghost use Rattle.rgwd_words.specs.Asking.{usual_listen, usual_phones, spoiling_read, IsAt, AsksSockets, Asks};
ghost use Rattle.rgwd_words.specs.Names.{help_pieces, version_pieces, Says};
ghost use Rattle.rgwd_words.specs.Opening.{names_asked, RefusesNames, RefusesSpeakers, TellsPlace, TellsSocket, Unanswered};
ghost use Rattle.rgwd_words.specs.Parting.{parting_of};
ghost use Rattle.rgwd_words.specs.Replaying.{replayed_by};
ghost use Rattle.rgwd_words.specs.Starting.{first_of, ms_of, rest_of, until_next};
ghost use Rattle.rgwd_words.specs.Statuses.{status_of, is_asked, fails};
ghost use Rattle.rgwd_words.specs.Telling.{answered_by};
ghost use Rattle.rgwd_words.specs.Texts.{ending_text};

/// Each sentence at an example.
pub fn each_sentence_has_an_example()
    // What was asked was done, or nobody answered, or words are refused, or the system failed.
    ensures statuses_tell_what_came_of_it_common { (ending : CommonEnding) → status_of (Common ending) ≡ common_status ending }
    ensures done { map status_of (Checked ∷ Replayed ∷ Answered ∷ []) ≡ 0 ∷ 0 ∷ 0 ∷ [] }
    ensures unlike { map status_of (Differs ∷ Refused ∷ []) ≡ 1 ∷ 1 ∷ [] }
    ensures statuses_tell_what_came_of_it_silent { (address : SocketAddrV4) → status_of (NoAnswer address) ≡ 1 }
    ensures words { map status_of (AnyAddress ∷ BadFirst ∷ BadSpread ∷ NoTrace ∷ []) ≡ 2 ∷ 2 ∷ 2 ∷ 2 ∷ [] }
    ensures admission { map status_of (BadAgents ∷ BadHosts ∷ BadSize ∷ BadFiles ∷ []) ≡ 2 ∷ 2 ∷ 2 ∷ 2 ∷ [] }
    ensures system { status_of NoTimeOfDay ≡ 3 }
    ensures failed { map fails (BadAgents ∷ NoTimeOfDay ∷ Common Usage ∷ Common OutOfMemory ∷ []) ≡ true ∷ true ∷ true ∷ true ∷ [] }
    ensures not_failed { map fails (Common Served ∷ Checked ∷ Replayed ∷ Differs ∷ Answered ∷ Refused ∷ [])
        ≡ false ∷ false ∷ false ∷ false ∷ false ∷ false ∷ [] }
    ensures asked { (ending : CommonEnding) → is_asked (Common ending) ≡ is_commonly_asked ending }
    ensures own { map is_asked (Checked ∷ BadSize ∷ NoTrace ∷ Answered ∷ []) ≡ false ∷ false ∷ false ∷ false ∷ [] }
    // An ending says why, in a line; nothing where what was asked for is printed, or where all was said.
    ensures an_ending_says_why_common { (about : About) (names : FileNames) (ending : CommonEnding) →
        ending_text about names (Common ending) ≡ common_text about names ending }
    ensures an_ending_says_why_nothing { (about : About) (names : FileNames) →
        map (ending_text about names) (Checked ∷ Answered ∷ Refused ∷ Replayed ∷ Differs ∷ NoTrace ∷ [])
        ≡ [] ∷ [] ∷ [] ∷ [] ∷ [] ∷ [] ∷ [] }
    ensures size { (about : About) (names : FileNames) → ending_text about names BadSize
        ≡ codes "--capture-size: wanted 1 to 100000 MB, beside --capture\n" }
    ensures files { (about : About) (names : FileNames) → ending_text about names BadFiles
        ≡ codes "--capture-files: wanted 1 to 10000, beside --capture-size\n" }
    ensures spread { (about : About) (names : FileNames) → ending_text about names BadSpread
        ≡ codes "--spread: wanted 0 to 600000 ms\n" }
    ensures an_ending_says_why_silent { (about : About) (names : FileNames) (address : SocketAddrV4) →
        ending_text about names (NoAnswer address)
        ≡ socket_v4_text address ++ codes ": no answer; does a gateway run, with its telephones (--phones) at this address?\n" }
    // A capture is parted into files of 1 to 100,000 MB, of which 1 to 10,000 are kept; ten where nothing is said.
    ensures none { parting_of true None None ≡ Ok None }
    ensures ten { parting_of true (Some (codes "100")) None ≡ Ok (Some (record { size = 100000000; files = 10 })) }
    ensures both { parting_of true (Some (codes "1")) (Some (codes "3")) ≡ Ok (Some (record { size = 1000000; files = 3 })) }
    ensures most { parting_of true (Some (codes "100000")) (Some (codes "10000"))
        ≡ Ok (Some (record { size = 100000000000; files = 10000 })) }
    ensures no_capture { parting_of false (Some (codes "1")) None ≡ Err BadSize }
    ensures a_capture_is_parted_as_words_say_nothing { parting_of true (Some (codes "0")) None ≡ Err BadSize }
    ensures too_much { parting_of true (Some (codes "100001")) None ≡ Err BadSize }
    ensures no_number { parting_of true (Some (codes "1MB")) None ≡ Err BadSize }
    ensures no_files { parting_of true (Some (codes "1")) (Some (codes "0")) ≡ Err BadFiles }
    ensures too_many { parting_of true (Some (codes "1")) (Some (codes "10001")) ≡ Err BadFiles }
    ensures no_size { parting_of true None (Some (codes "3")) ≡ Err BadFiles }
{}

/// Each sentence at an example.
pub fn an_ending_names_the_file_that_fails()
    // Of the file that is read it says that it can't be read, and of the one that is written that it can't be written.
    ensures read { (read written text : List ℕ) (kind : ErrorKind) → Says read written (Common (Unreadable kind)) text
        → text ≡ read ++ (codes ": read fault" ++ (reason_of kind ++ codes "\n")) }
    ensures written { (read written text : List ℕ) (kind : ErrorKind) → Says read written (Common (Unwritable kind)) text
        → text ≡ written ++ (codes ": write fault" ++ (reason_of kind ++ codes "\n")) }
    // Who asks how it is used, or for its version, is told what it says of itself.
    ensures usage { (read written text : List ℕ) → Says read written (Common Usage) text
        → text ≡ codes "usage: " ++ (USAGE.now ++ codes "\n") }
    ensures help { (read written text : List ℕ) → Says read written (Common Help) text → text ≡ joined help_pieces }
    ensures version { (read written text : List ℕ) → Says read written (Common Version) text → text ≡ joined version_pieces }
{}

/// Each sentence at an example.
pub fn what_stands_behind_words_is_meant()
    // An address is what the text behind its word says, or a usual one.
    ensures listen { (address : SocketAddrV4) → IsAt usual_listen None address → IsSocketV4Text (codes "127.0.0.1:2427") address }
    ensures phones { (address : SocketAddrV4) → IsAt usual_phones None address → IsSocketV4Text (codes "127.0.0.1:2428") address }
    ensures said { (text : List ℕ) (address : SocketAddrV4) → IsAt usual_listen (Some text) address → IsAddress text address }
    ensures here { (address : SocketAddrV4) → IsAt usual_listen (Some (codes "localhost:4000")) address → address ≡ local_address 4000 }
    // Of who speaks, and of other machines' telephones, only what the words say counts.
    ensures speakers { (found : Found) (sockets : Sockets) → AsksSockets found sockets → first_value found (codes "agents") ≡ None
        → option_map (λ text. text.now) sockets.agents ≡ None }
    ensures telephones { (found : Found) (sockets : Sockets) → AsksSockets found sockets → one_text found (codes "phones-open") ≡ None
        → sockets.phones_open ≡ false }
    ensures site { (found : Found) (sockets : Sockets) → AsksSockets found sockets
        → IsBehind (first_value found (codes "http")) sockets.http }
    ensures trace { (found : Found) (settings : Settings) → Asks found settings → one_text found (codes "trace") ≡ None
        → settings.trace ≡ false }
    ensures network { (found : Found) (settings : Settings) → Asks found settings
        → IsRead spoiling_read (first_value found (codes "network")) settings.network }
{}

/// Each sentence at an example.
pub fn what_is_opened_has_examples()
    // The page has the further names that words say, or none; and a list is refused that is none.
    ensures no_names { names_asked None ≡ Some [] }
    ensures names { (text : Bor (List ℕ)) → names_asked (Some text) ≡ names_in text.now }
    ensures unrefused { (fault : ListFault) → RefusesNames None fault → ⊥ }
    ensures no_list { (text : Bor (List ℕ)) → RefusesNames (Some text) faults.BadHosts → names_in text.now ≡ None }
    ensures other_fault { (text : Bor (List ℕ)) → RefusesNames (Some text) faults.BadAgents → ⊥ }
    ensures unsaid { RefusesSpeakers None faults.BadAgents → ⊥ }
    ensures no_speakers { (text : Bor (List ℕ)) → RefusesSpeakers (Some text) faults.BadAgents → admitted_in text.now ≡ None }
    ensures no_hosts { (text : Bor (List ℕ)) → RefusesSpeakers (Some text) faults.BadHosts → ⊥ }
    // A capture tells where the gateway's socket is, or was to be; of one at any address that of its media.
    ensures anywhere { (socket here : SocketAddrV4) (media : Ipv4Addr) → TellsPlace socket media here
        → IsUnspecifiedV4 (v4_ip socket) → v4_ip here ≡ media }
    ensures somewhere { (socket here : SocketAddrV4) (media : Ipv4Addr) → TellsPlace socket media here
        → ¬ (IsUnspecifiedV4 (v4_ip socket)) → v4_ip here ≡ v4_ip socket }
    ensures port { (socket here : SocketAddrV4) (media : Ipv4Addr) → TellsPlace socket media here → v4_port here ≡ v4_port socket }
    ensures own { (own wanted here : SocketAddrV4) (media : Ipv4Addr) → TellsSocket own wanted media here
        → 0 < v4_port own → TellsPlace own media here }
    ensures wanted { (own wanted here : SocketAddrV4) (media : Ipv4Addr) → TellsSocket own wanted media here
        → v4_port own ≡ 0 → TellsPlace wanted media here }
    // Where a line isn't answered, nobody is there, or the clock or the socket failed.
    ensures silent { (address : SocketAddrV4) (ending : Ending) → Unanswered address ask_faults.NoAnswer ending
        → status_of ending ≡ 1 }
    ensures clock { (address : SocketAddrV4) (ending : Ending) → Unanswered address ask_faults.Clock ending → status_of ending ≡ 3 }
    ensures no_socket { (address : SocketAddrV4) (kind : ErrorKind) (ending : Ending) → kind ≢ kinds.OutOfMemory
        → Unanswered address (ask_faults.Refused kind) ending → status_of ending ≡ 3 }
    ensures no_memory { (address : SocketAddrV4) (ending : Ending) → Unanswered address (ask_faults.Refused kinds.OutOfMemory) ending
        → status_of ending ≡ 3 }
{}

/// With which number ids begin, and how long a start waits until that is another start's no more.
#[tactic(auto)]
pub fn a_start_is_by_its_words_and_the_time_of_day()
    // It is that of the time of day, of which microseconds are told; a word counts before that. Without both there is none, unless nothing
    // is to be begun.
    ensures number { first_of None (Some (ms_of 1767225600123456)) false ≡ Some 4515536 }
    ensures said { first_of (Some 4711) (Some 1767225600123) false ≡ Some 4711 }
    ensures checked { first_of None None true ≡ Some 0 }
    ensures none { first_of None None false ≡ None }
    // A number is had for 50 ms, and where a word says it nobody waits.
    ensures whole { rest_of None (Some 1000) ≡ 50 }
    ensures rest { rest_of None (Some 1049) ≡ 1 }
    ensures next { first_at (1049 + until_next 1049) ≡ first_at 1049 + 1 }
    ensures unasked { rest_of (Some 4711) (Some 1049) ≡ 0 }
    ensures timeless { rest_of None None ≡ 0 }
{}

/// How the program ends by a trace.
#[tactic(auto)]
pub fn a_replay_ends_so()
    ensures as_told { (lines : ℕ) → replayed_by (verdicts.AsTold lines) ≡ Replayed }
    ensures differs { (line : ℕ) (told : _) (sent : _) → replayed_by (verdicts.Differs line told sent) ≡ Differs }
    ensures broken { (line : ℕ) → replayed_by (verdicts.Broken line) ≡ NoTrace }
{}

/// How the program ends by an answer at the telephones.
pub fn an_answer_ends_it_so()
    // One that begins with a mark refuses the line, and any other one doesn't.
    ensures refused { answered_by (codes "! 5 PhoneState\n") ≡ Refused }
    ensures not_understood { answered_by (codes "? VERB NAME, counts, or stop\n") ≡ Refused }
    ensures done { answered_by (codes "done\n") ≡ Answered }
    ensures marked_later { answered_by (codes "line 1 on ! ?\n") ≡ Answered }
    ensures empty { answered_by [] ≡ Answered }
{}
