//! The address that a text says, which stands behind a word of a command line.
ghost use Rattle.std.specs.Prelude.{◌≡◌, IfOk, IfErr};
ghost use Rattle.live_system.specs.Addresses.{local_port, IsAddress};

use crate::address_words::AddressWord;
use crate::ending::CommonEnding;
use mg_bytes::decimal;
use std::net::{Ipv4Addr, SocketAddrV4};

// The port behind `localhost:`, where that stands in front.
#[tactic(auto, unfolding(crate::specs::Addresses::local_port))]
fn local_port(text: &[u8]) -> Option<u16>
    ensures { result ≡ local_port text.now }
{
    let digits = text.strip_prefix(b"localhost:".as_slice())?;
    let number = decimal(digits)?;
    if number > 65535 {
        return None;
    }
    Some(number as u16)
}

/// The address that a text says, which stands behind a word: `a.b.c.d:port`, or `localhost:port`.
pub fn address_in(word: AddressWord, text: &str) -> Result<SocketAddrV4, CommonEnding>
    ensures address { IfOk result (λ address. IsAddress text.now address) }
    ensures other { IfErr result (λ ending. ending ≡ CommonEnding.BadAddress word) }
    ensures none { IfErr result (λ _. (address : SocketAddrV4) → ¬ (IsAddress text.now address)) }
{
    if let Some(port) = local_port(text.as_bytes()) {
        return Ok(SocketAddrV4::new(Ipv4Addr::new(127, 0, 0, 1), port));
    }
    match text.parse::<SocketAddrV4>() {
        Ok(address) => Ok(address),
        Err(_) => Err(CommonEnding::BadAddress { word }),
    }
}
