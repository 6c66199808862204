//! The codecs of a connection, and the encoding of a line.
ghost use Rattle.std.specs.Prelude.{◌≡◌, map};
ghost use Rattle.connections.specs.Codecs.{payload_type, other_than, is_same_codec, are_same_codecs, listed, codecs_by};
ghost use Rattle.connections.specs.Codecs.{offers, left_of_both, offered_of, codec_named, codec_name};
ghost use Rattle.connections.specs.Codecs.{encoding_named, encoding_text as text_of};

use mg_bytes::same_no_case;
use sdp_subset::Payloads;

/// A codec of this gateway (RFC 3551, 6).
#[derive(Clone, Copy)]
pub enum Codec {
    /// G.711 with mu-law, payload type 0.
    Pcmu,
    /// G.711 with A-law, payload type 8.
    Pcma,
}

/// A list of codecs, each at one place: it has one at least.
#[derive(Clone, Copy)]
pub enum Codecs {
    /// This one alone.
    Only(Codec),
    /// This one, and then the other one.
    Both(Codec),
}

/// The encoding of a line (RFC 3435, 2.3.2).
#[derive(Clone, Copy)]
pub enum Encoding {
    /// Mu-law.
    Mu,
    /// A-law.
    A,
}

pub(crate) fn other_than(codec: Codec) -> Codec
    ensures { result ≡ other_than codec }
{
    match codec {
        Codec::Pcmu => Codec::Pcma,
        Codec::Pcma => Codec::Pcmu,
    }
}

fn payload_type(codec: Codec) -> u8
    ensures { result ≡ payload_type codec }
{
    match codec {
        Codec::Pcmu => 0,
        Codec::Pcma => 8,
    }
}

pub(crate) fn is_same_codec(codec: Codec, other: Codec) -> bool
    ensures { result ≡ is_same_codec codec other }
{
    matches!(
        (codec, other),
        (Codec::Pcmu, Codec::Pcmu) | (Codec::Pcma, Codec::Pcma)
    )
}

pub(crate) fn are_same_codecs(codecs: Codecs, others: Codecs) -> bool
    ensures { result ≡ are_same_codecs codecs others }
{
    match (codecs, others) {
        (Codecs::Only(codec), Codecs::Only(other)) => is_same_codec(codec, other),
        (Codecs::Both(first), Codecs::Both(other)) => is_same_codec(first, other),
        (Codecs::Only(_), Codecs::Both(_)) | (Codecs::Both(_), Codecs::Only(_)) => false,
    }
}

// Both codecs, that of the encoding first.
pub(crate) fn codecs_by(encoding: Encoding) -> Codecs
    ensures { result ≡ codecs_by encoding }
{
    match encoding {
        Encoding::Mu => Codecs::Both(Codec::Pcmu),
        Encoding::A => Codecs::Both(Codec::Pcma),
    }
}

// The payload types of the codecs, in their order.
#[tactic(auto, unfolding(sdp_subset::specs::Payloads::payloads_from, sdp_subset::specs::Payloads::are_payloads))]
pub(crate) fn payloads_of(codecs: Codecs) -> Payloads
    ensures { result ≡ map payload_type (listed codecs) }
{
    match codecs {
        Codecs::Only(Codec::Pcmu) => Payloads::of(&[0]).unwrap(),
        Codecs::Only(Codec::Pcma) => Payloads::of(&[8]).unwrap(),
        Codecs::Both(Codec::Pcmu) => Payloads::of(&[0, 8]).unwrap(),
        Codecs::Both(Codec::Pcma) => Payloads::of(&[8, 0]).unwrap(),
    }
}

fn offers(payloads: &[u8], codec: Codec) -> bool
    ensures { result ≡ offers payloads.now codec }
{
    payloads
        .iter()
        .any(|payload| *payload == payload_type(codec))
}

fn left_of_both(is_first: bool, is_other: bool, first: Codec) -> Option<Codecs>
    ensures { result ≡ left_of_both is_first is_other first }
{
    match (is_first, is_other) {
        (true, true) => Some(Codecs::Both(first)),
        (true, false) => Some(Codecs::Only(first)),
        (false, true) => Some(Codecs::Only(other_than(first))),
        (false, false) => None,
    }
}

// Those of the codecs that are offered.
pub(crate) fn offered_of(payloads: &[u8], codecs: Codecs) -> Option<Codecs>
    ensures { result ≡ offered_of payloads.now codecs }
{
    match codecs {
        Codecs::Only(codec) => {
            if offers(payloads, codec) {
                Some(Codecs::Only(codec))
            } else {
                None
            }
        }
        Codecs::Both(first) => left_of_both(
            offers(payloads, first),
            offers(payloads, other_than(first)),
            first,
        ),
    }
}

pub(crate) fn codec_named(name: &[u8]) -> Option<Codec>
    ensures { result ≡ codec_named name.now }
{
    if same_no_case(name, b"PCMU") {
        Some(Codec::Pcmu)
    } else if same_no_case(name, b"PCMA") {
        Some(Codec::Pcma)
    } else {
        None
    }
}

/// The encoding that B asks for (RFC 3435, 3.2.2): `e:mu` or `e:A`, in any case; `None` for another value.
pub fn read_encoding(value: &[u8]) -> Option<Encoding>
    ensures { result ≡ encoding_named value.now }
{
    if same_no_case(value, b"e:mu") {
        Some(Encoding::Mu)
    } else if same_no_case(value, b"e:A") {
        Some(Encoding::A)
    } else {
        None
    }
}

/// The written form of B (RFC 3435, 3.2.2).
pub fn encoding_text(encoding: Encoding) -> &'static [u8]
    ensures { result.now ≡ text_of encoding }
{
    match encoding {
        Encoding::Mu => b"e:mu",
        Encoding::A => b"e:A",
    }
}
