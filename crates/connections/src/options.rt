//! The local options of a connection (RFC 3435, 2.3.5 and 3.2.2), as far as this gateway has a choice: the codecs and the
//! packet time.
ghost use Rattle.std.specs.Prelude.{◌≡◌, IfOk, option_map, Option};
ghost use Rattle.connections.specs.Options.{choice_of, choice_from, timed, options_with, options_of, no_options};
ghost use Rattle.connections.specs.Options.{codecs_text, options_text};

use crate::codec::{Codec, Codecs};
use crate::option_items::{are_options, bounds_of, codecs_in, time_within, value_of};
use mg_bytes::{OutOfMemory, ReturnCode, Text, put_decimal};
use std::alloc::Global;

/// Which codecs are asked for.
#[derive(Clone, Copy)]
pub enum CodecChoice {
    /// None: those of the line's encoding are meant.
    ByEncoding,
    /// None that this gateway knows.
    NoneKnown,
    /// These, the first first.
    These(Codecs),
}

/// What L asks of a connection.
#[derive(Clone, Copy)]
pub struct Options {
    /// The codecs that `a` names.
    pub codecs: CodecChoice,
    /// The time of a packet in ms: 10, 20 or 30.
    pub packet_time: u16,
}

impl Options {
    /// What is asked for without L: the codecs of the line's encoding, 20 ms.
    pub fn none() -> Options
        ensures { result ≡ no_options }
    {
        Options {
            codecs: CodecChoice::ByEncoding,
            packet_time: 20,
        }
    }
}

fn choice_from(value: Option<&[u8]>) -> CodecChoice
    ensures { result ≡ choice_from (option_map (λ v. v.now) value.entry) }
{
    match value {
        None => CodecChoice::ByEncoding,
        Some(value) => match codecs_in(value) {
            None => CodecChoice::NoneKnown,
            Some(codecs) => CodecChoice::These(codecs),
        },
    }
}

fn options_with(codecs: CodecChoice, value: Option<&[u8]>) -> Result<Options, u16>
    ensures { result ≡ options_with codecs (option_map (λ v. v.now) value.entry) }
{
    let Some(value) = value else {
        return Ok(Options {
            codecs,
            packet_time: 20,
        });
    };
    let Some(bounds) = bounds_of(value) else {
        return Err(ReturnCode::UnsupportedPacketTime.number());
    };
    let Some(packet_time) = time_within(bounds) else {
        return Err(ReturnCode::UnsupportedPacketTime.number());
    };
    Ok(Options {
        codecs,
        packet_time,
    })
}

/// The value of L: `name:value` separated by commas, round which blanks may stand, each name once and in any case.
///
/// Of `a` the names PCMU and PCMA count, each at its first place; `p` is a packet time in ms or a range, `m-n`, and the least
/// of 10, 20 and 30 in it is taken; `b`, `e`, `gc`, `r`, `s`, `t`, `nt` and `x-..` are ignored. Anything else is the
/// return code 541, wherever it stands, and else a `p` that holds none of the three times is 535.
#[tactic(auto, unfolding(crate::specs::Options::options_of, crate::specs::Options::options_in))]
pub fn read_options(value: &[u8]) -> Result<Options, u16>
    ensures { result ≡ options_of value.now }
{
    if !are_options(value) {
        return Err(ReturnCode::UnsupportedConnectionOptions.number());
    }
    options_with(choice_from(value_of(b"a", value)), value_of(b"p", value))
}

fn codecs_text(codecs: Codecs) -> &'static [u8]
    ensures { result.now ≡ codecs_text codecs }
{
    match codecs {
        Codecs::Only(Codec::Pcmu) => b"PCMU",
        Codecs::Only(Codec::Pcma) => b"PCMA",
        Codecs::Both(Codec::Pcmu) => b"PCMU;PCMA",
        Codecs::Both(Codec::Pcma) => b"PCMA;PCMU",
    }
}

/// The written form of L (RFC 3435, 3.2.2): codecs and a packet time in ms, as `a:PCMU;PCMA, p:20`. An error is for want
/// of memory only.
#[tactic(auto, unfolding(crate::specs::Options::options_text))]
pub fn write_options(alloc: Global, codecs: Codecs, packet_time: u16) -> Result<Text, OutOfMemory>
    ensures { IfOk result (λ text. text ≡ options_text codecs packet_time) }
{
    let mut out = Vec::new(alloc);
    out.extend_from_slice(b"a:")?;
    out.extend_from_slice(codecs_text(codecs))?;
    out.extend_from_slice(b", p:")?;
    put_decimal(alloc, &mut out, u64::from(packet_time))?;
    Ok(Text::of(out))
}
