//! What stands behind words: addresses and moments.
ghost use Rattle.std.specs.Prelude.{◌≡◌, None, Ok, IfOk, IfErr, IfSome};
ghost use Rattle.clap.specs.Matches.{found_of, first_value, one_text};
ghost use Rattle.live_system.specs.Addresses.{IsAddress};
ghost use Rattle.live_system.specs.Values.{IsBehind, IsMoment};

use crate::address_words::AddressWord;
use crate::addresses::address_in;
use crate::ending::CommonEnding;
use clap::ArgMatches;
use std::net::SocketAddrV4;

/// The address behind a word, if one stands there.
pub fn address_behind(
    matches: &ArgMatches<'_>,
    name: &str,
    word: AddressWord,
) -> Result<Option<SocketAddrV4>, CommonEnding>
    ensures stands { IfOk result (λ found. IfSome found (λ address.
        IfSome (first_value (found_of matches.now) name.now) (λ text. IsAddress text address))) }
    ensures stands_not { IfOk result (λ found. found ≡ None → first_value (found_of matches.now) name.now ≡ None) }
    ensures behind { IfOk result (λ found. IsBehind (first_value (found_of matches.now) name.now) found) }
    ensures none { first_value (found_of matches.now) name.now ≡ None → result ≡ Ok None }
    ensures other { IfErr result (λ ending. ending ≡ CommonEnding.BadAddress word) }
    ensures no_address { IfErr result (λ _. IfSome (first_value (found_of matches.now) name.now) (λ text.
        (address : SocketAddrV4) → ¬ (IsAddress text address))) }
{
    match matches.get_str(name) {
        Some(text) => match address_in(word, text) {
            Ok(address) => Ok(Some(address)),
            Err(ending) => Err(ending),
        },
        None => Ok(None),
    }
}

/// The moment behind a word, in ms, if one stands there.
pub fn moment_behind(matches: &ArgMatches<'_>, name: &str) -> Option<u64>
    ensures { IsMoment (one_text (found_of matches.now) name.now) result }
{
    matches.get_one::<u64>(name)
}
