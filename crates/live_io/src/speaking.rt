//! From whom datagrams are taken: who may speak, as far as an address tells.
ghost use Rattle.std.specs.Prelude.{◌≡◌, ◌≤◌, ◌^◌, [], Some, OnOk, OnErr, IfOk, option_map};
ghost use Rattle.std.specs.List.{list_any};
ghost use Rattle.mg_bytes.specs.Items.{items_of};
ghost use Rattle.live_io.specs.Speaking.{size_of, network_at, is_within, admitted_by, anybody, nobody, with_host, may_speak};
ghost use Rattle.live_io.specs.Speaking.{is_bare, bare_address_of, host_of, bits_of, network_from, network_of, networks_from, these, admitted_in};

use mg_bytes::{decimal, ipv4_address, list_items, split_once};
use std::alloc::{AllocError, Global};
use std::net::Ipv4Addr;

// So many bits an address has.
const ADDRESS_BITS: u8 = 32;

/// The addresses from one to another, as the numbers that they are.
#[derive(Clone, Copy)]
pub struct Network {
    first: u64,
    last: u64,
}

/// Who may speak: whoever sends, or whoever has an address of one of these networks.
#[derive(Drop)]
pub struct Speakers {
    is_any: bool,
    networks: Vec<Network>,
}

// How many addresses have so many of their first bits in common.
#[tactic(auto, using(crate::proofs::SpeakingLemmas::sizes))]
fn size_of(bits: u8) -> u64
    ensures value { result ≡ size_of bits }
    ensures some { 1 ≤ result }
    ensures few { result ≤ 2 ^ 32 }
{
    2u64.pow(u32::from(ADDRESS_BITS.saturating_sub(bits)))
}

// The addresses that have so many of their first bits in common with this one.
fn network_at(address: Ipv4Addr, bits: u8) -> Network
    ensures { result ≡ network_at address bits }
{
    let size = size_of(bits);
    let number = u64::from(address.to_bits());
    let first = number - number % size;
    Network {
        first,
        last: first + (size - 1),
    }
}

fn is_within(host: Ipv4Addr, network: Network) -> bool
    ensures { result ≡ is_within host network }
{
    let number = u64::from(host.to_bits());
    network.first <= number && number <= network.last
}

fn is_within_any(host: Ipv4Addr, networks: &[Network]) -> bool
    ensures { result ≡ list_any (is_within host) networks.now }
{
    for network in networks {
        if is_within(host, *network) {
            return true;
        }
    }
    false
}

// Whether a number has no zero in front of it.
fn is_bare(number: &[u8]) -> bool
    ensures { result ≡ is_bare number.now }
{
    number.len() <= 1 || !number.starts_with(b"0")
}

// The address that four numbers spell, of which none has a zero in front of it.
#[tactic(auto, unfolding(crate::specs::Speaking::bare_address_of))]
fn bare_address(text: &[u8]) -> Option<Ipv4Addr>
    ensures { result ≡ bare_address_of text.now }
{
    let (a, rest) = split_once(text, b'.')?;
    let (b, rest) = split_once(rest, b'.')?;
    let (c, d) = split_once(rest, b'.')?;
    if is_bare(a) && is_bare(b) && is_bare(c) && is_bare(d) {
        ipv4_address(text)
    } else {
        None
    }
}

// The address of a host.
#[tactic(auto, unfolding(crate::specs::Speaking::host_of))]
fn host_in(text: &[u8]) -> Option<Ipv4Addr>
    ensures { result ≡ host_of text.now }
{
    if text == b"localhost".as_slice() {
        return Some(Ipv4Addr::new(127, 0, 0, 1));
    }
    bare_address(text)
}

// So many bits, 0 to 32.
#[tactic(auto, unfolding(crate::specs::Speaking::bits_of))]
fn bits_in(text: &[u8]) -> Option<u8>
    ensures { result ≡ bits_of text.now }
{
    if !is_bare(text) {
        return None;
    }
    let number = decimal(text)?;
    if number <= u64::from(ADDRESS_BITS) {
        Some(number as u8)
    } else {
        None
    }
}

// A host with the number of its address's bits that count.
fn masked(host: &[u8], bits: &[u8]) -> Option<Network>
    ensures { result ≡ network_from [] (Some (host.now, bits.now)) }
{
    let address = host_in(host)?;
    Some(network_at(address, bits_in(bits)?))
}

// A host alone, or one with the number of its address's bits that count.
#[tactic(auto, unfolding(crate::specs::Speaking::network_of))]
fn network_in(text: &[u8]) -> Option<Network>
    ensures { result ≡ network_of text.now }
{
    match split_once(text, b'/') {
        Some((host, bits)) => masked(host, bits),
        None => Some(network_at(host_in(text)?, ADDRESS_BITS)),
    }
}

// The networks that a text says, which commas part; nothing where it says others.
#[tactic(auto, unfolding(crate::specs::Speaking::networks_from))]
fn networks_in(alloc: Global, text: &[u8]) -> Result<Option<Vec<Network>>, AllocError>
    ensures { IfOk result (λ found. option_map (λ networks. networks.items) found ≡ networks_from [] (items_of text.now)) }
{
    let mut networks = Vec::new(alloc);
    for item in list_items(text) {
        let Some(network) = network_in(item) else {
            return Ok(None);
        };
        networks.push(network)?;
    }
    Ok(Some(networks))
}

// Whoever has an address of one of these networks.
fn these(networks: Vec<Network>) -> Speakers
    ensures { admitted_by result ≡ these networks.items }
{
    Speakers {
        is_any: false,
        networks,
    }
}

impl Speakers {
    /// Whoever sends may speak.
    pub fn anybody(alloc: Global) -> Speakers
        ensures { admitted_by result ≡ anybody }
    {
        Speakers {
            is_any: true,
            networks: Vec::new(alloc),
        }
    }

    /// Nobody may, yet.
    pub fn nobody(alloc: Global) -> Speakers
        ensures { admitted_by result ≡ nobody }
    {
        these(Vec::new(alloc))
    }

    /// Those whom a word admits: `any`, or addresses, as `localhost,10.0.0.7,10.1.0.0/16`, of which so many of the first bits count as
    /// behind `/`, all 32 where nothing is there. `None` where it says anything else; the only error is want of memory.
    #[tactic(auto, unfolding(crate::specs::Speaking::admitted_in))]
    pub fn read(alloc: Global, text: &[u8]) -> Result<Option<Speakers>, AllocError>
        ensures { IfOk result (λ found. option_map admitted_by found ≡ admitted_in text.now) }
    {
        if text == b"any".as_slice() {
            return Ok(Some(Speakers::anybody(alloc)));
        }
        match networks_in(alloc, text)? {
            Some(networks) => Ok(Some(these(networks))),
            None => Ok(None),
        }
    }

    /// Whoever has this address may speak too. After an error, which is for want of memory, all is as it was.
    pub fn admit(&mut self, host: Ipv4Addr) -> Result<(), AllocError>
        ensures ok { OnOk result (admitted_by self.new ≡ with_host (admitted_by self.old) host) }
        ensures err { OnErr result (admitted_by self.new ≡ admitted_by self.old) }
    {
        self.networks.push(network_at(host, ADDRESS_BITS))?;
        Ok(())
    }

    /// Whether who has this address may speak.
    pub fn hears(&self, host: Ipv4Addr) -> bool
        ensures { result ≡ may_speak (admitted_by self.now) host }
    {
        self.is_any || is_within_any(host, self.networks.as_slice())
    }
}
