//! Addresses and ports as text.
ghost use Rattle.std.specs.Prelude.{◌≡◌, ◌≤◌, length};
ghost use Rattle.std.specs.List.{AllByRecursion};
ghost use Rattle.mg_bytes.specs.Address.{octet_of, ipv4_of, port_of};

use crate::number::decimal;
use crate::split::split_once;
use std::net::Ipv4Addr;

fn octet(text: &[u8]) -> Option<u8>
    ensures { result ≡ octet_of text.now }
{
    let number = decimal(text)?;
    if number > 255 {
        return None;
    }
    Some(number as u8)
}

/// The address that `a.b.c.d` spells: four decimal numbers from 0 to 255 with dots between them.
#[tactic(auto, unfolding(crate::specs::Address::ipv4_of))]
pub fn ipv4_address(text: &[u8]) -> Option<Ipv4Addr>
    ensures { result ≡ ipv4_of text.now }
{
    let (a, rest) = split_once(text, b'.')?;
    let (b, rest) = split_once(rest, b'.')?;
    let (c, d) = split_once(rest, b'.')?;
    Some(Ipv4Addr::new(octet(a)?, octet(b)?, octet(c)?, octet(d)?))
}

/// The four octets of an address, each of which has eight bits.
pub fn octets_of(address: Ipv4Addr) -> [u8; 4]
    ensures value { result ≡ address.octets }
    ensures four { length result ≡ 4 }
    ensures each { AllByRecursion (λ octet. octet ≤ 255) result }
{
    let [a, b, c, d] = address.octets();
    [a, b, c, d]
}

/// The port that a decimal number from 1 to 65535 is.
pub fn port_number(text: &[u8]) -> Option<u16>
    ensures { result ≡ port_of text.now }
{
    let number = decimal(text)?;
    if number < 1 || number > 65535 {
        return None;
    }
    Some(number as u16)
}
