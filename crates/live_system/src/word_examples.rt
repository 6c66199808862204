//! Worked examples of the definitions, as theorems.
#![tactic(auto)]

ghost use Rattle.std.specs.Prelude.{◌≡◌, ℕ, Bool, codes, true, false, List, [], Option, Some, None};
ghost use Rattle.std.specs.Borrow.{Bor};
ghost use Rattle.std.specs.Str.Parse.{digits_value, without_leading_plus};
ghost use Rattle.std.specs.declared.net.socket_addr.SocketAddrV4.{SocketAddrV4};
ghost use Rattle.live_system.specs.Addresses.{IsAddress};
ghost use Rattle.live_system.specs.Files.{name_of};
ghost use Rattle.live_system.specs.Values.{IsBehind, IsMoment, IsRead, SaysFlag};

/// Each sentence at an example.
pub fn what_stands_behind_words_is_meant()
    // An address is what the text behind its word says, and a word stands there or doesn't.
    ensures nothing { IsBehind None None }
    ensures something { (text : List ℕ) → IsBehind (Some text) None → ⊥ }
    ensures address { (text : List ℕ) (address : SocketAddrV4) → IsAddress text address → IsBehind (Some text) (Some address) }
    ensures no_flag { (flag : Bool) → SaysFlag None flag → flag ≡ false }
    ensures flag { (flag : Bool) → SaysFlag (Some (codes "true")) flag → flag ≡ true }
    ensures flag_not { (flag : Bool) → SaysFlag (Some (codes "false")) flag → flag ≡ false }
    // What is read of a text is what it says, and it says something; of no text nothing is.
    ensures unread { (found : Option ℕ) → IsRead (λ text. Some 7) None found → found ≡ None }
    ensures read { (text : List ℕ) (found : Option ℕ) → IsRead (λ text. Some 7) (Some text) found → found ≡ Some 7 }
    ensures unreadable { (text : List ℕ) (found : Option ℕ) → IsRead (λ text. None) (Some text) found → ⊥ }
    ensures no_moment { (moment : Option ℕ) → IsMoment None moment → moment ≡ None }
    ensures moment { (ms : ℕ) (text : List ℕ) → IsMoment (Some text) (Some ms) → ms ≡ digits_value 10 (without_leading_plus text) }
    // A file that isn't asked for has no name.
    ensures no_file { name_of None ≡ [] }
    ensures file { (name : Bor (List ℕ)) → name_of (Some name) ≡ name.now }
{}
