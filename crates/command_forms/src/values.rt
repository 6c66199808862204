//! The values of a command's parameters, and its description.
ghost use Rattle.std.specs.Prelude.{◌≡◌, codes, option_map};
ghost use Rattle.mg_bytes.specs.CodeFault.{AnswersAs, answer_of};
ghost use Rattle.mgcp_text.specs.Message.{param_at};
ghost use Rattle.command_forms.specs.Values.{is_readable, said_at, entity_at, encoding_from, identifier_from, mode_from};
ghost use Rattle.command_forms.specs.Values.{handling_at, change_at, remote_of};
ghost use Rattle.connections.specs.Options.{options_of};

use connections::{Encoding, Mode, Options, read_encoding, read_mode, read_options};
use digit_map::{MapChange, read_change};
use endpoint_names::{Entity, Table, read_entity};
use event_syntax::{Handling, Notifying, Quarantined, read_handling};
use mg_bytes::{CodeFault, Identifier, ReturnCode};
use mgcp_text::{KValue, Param, param_at};
use sdp_subset::{SdpFault, Session, read_sdp};
use std::alloc::Global;

/// Whether K can be read (RFC 3435, 3.2.2.1).
pub(crate) fn is_readable(confirms: &KValue) -> bool
    ensures { result ≡ is_readable confirms.now }
{
    match confirms {
        KValue::Unreadable => false,
        KValue::Absent | KValue::Items(_) => true,
    }
}

/// The entity that N says, where it stands there (RFC 3435, 2.1.4 and 2.3.3).
pub(crate) fn entity_at(table: &Table, params: &[Param<'_>]) -> Result<Option<Entity>, CodeFault>
    ensures { AnswersAs (entity_at table.now (param_at (codes "N") params.now)) result }
{
    let Some(param) = param_at(b"N", params) else {
        return Ok(None);
    };
    match read_entity(param.value.as_slice(), table) {
        Some(entity) => Ok(Some(entity)),
        None => Err(CodeFault::of(ReturnCode::UnsupportedParameter)),
    }
}

/// The encoding that B says, where it stands there (RFC 3435, 2.3.2 and 3.2.2).
pub(crate) fn encoding_at(params: &[Param<'_>]) -> Result<Option<Encoding>, CodeFault>
    ensures { AnswersAs (said_at encoding_from (param_at (codes "B") params.now)) result }
{
    let Some(param) = param_at(b"B", params) else {
        return Ok(None);
    };
    match read_encoding(param.value.as_slice()) {
        Some(encoding) => Ok(Some(encoding)),
        None => Err(CodeFault::of(ReturnCode::UnsupportedParameter)),
    }
}

/// The identifier of a call, a connection or a request (RFC 3435, 2.1.3, 2.3.3 and appendix A).
pub(crate) fn identifier_from(value: &[u8]) -> Result<Identifier, CodeFault>
    ensures value { result ≡ answer_of (identifier_from value.now) }
    ensures answers { AnswersAs (identifier_from value.now) result }
{
    match Identifier::of(value) {
        Some(identifier) => Ok(identifier),
        None => Err(CodeFault::of(ReturnCode::ProtocolError)),
    }
}

/// The identifier that stands behind this code, where it stands there.
pub(crate) fn identifier_at(
    code: &[u8],
    params: &[Param<'_>],
) -> Result<Option<Identifier>, CodeFault>
    ensures { AnswersAs (said_at identifier_from (param_at code.now params.now)) result }
{
    let Some(param) = param_at(code, params) else {
        return Ok(None);
    };
    Ok(Some(identifier_from(param.value.as_slice())?))
}

/// The mode of this name (RFC 3435, 2.3.5 and 3.2.2).
pub(crate) fn mode_from(value: &[u8]) -> Result<Mode, CodeFault>
    ensures { AnswersAs (mode_from value.now) result }
{
    match read_mode(value) {
        Some(mode) => Ok(mode),
        None => Err(CodeFault::of(ReturnCode::UnsupportedMode)),
    }
}

/// The mode that M names, where it stands there.
pub(crate) fn mode_at(params: &[Param<'_>]) -> Result<Option<Mode>, CodeFault>
    ensures { AnswersAs (said_at mode_from (param_at (codes "M") params.now)) result }
{
    let Some(param) = param_at(b"M", params) else {
        return Ok(None);
    };
    Ok(Some(mode_from(param.value.as_slice())?))
}

/// The options that L asks for, where it stands there (RFC 3435, 2.3.5 and 3.2.2).
#[tactic(auto, using(crate::proofs::OptionCodes::options_small))]
pub(crate) fn options_at(params: &[Param<'_>]) -> Result<Option<Options>, CodeFault>
    ensures { AnswersAs (said_at options_of (param_at (codes "L") params.now)) result }
{
    let Some(param) = param_at(b"L", params) else {
        return Ok(None);
    };
    match read_options(param.value.as_slice()) {
        Ok(options) => Ok(Some(options)),
        Err(code) => Err(CodeFault::Code(code)),
    }
}

/// How quarantined events are handled by Q: step and process where Q is absent (RFC 3435, 2.3.3).
pub(crate) fn handling_at(params: &[Param<'_>]) -> Result<Handling, CodeFault>
    ensures { AnswersAs (handling_at (param_at (codes "Q") params.now)) result }
{
    match param_at(b"Q", params) {
        Some(param) => read_handling(param.value.as_slice()),
        None => Ok(Handling {
            notifying: Notifying::Step,
            quarantined: Quarantined::Process,
        }),
    }
}

// The value of D, where it stands there.
fn map_value<'m>(params: &'m [Param<'_>]) -> Option<&'m [u8]>
    ensures { option_map (λ text. text.now) result ≡ option_map (λ param. param.value) (param_at (codes "D") params.now) }
{
    match param_at(b"D", params) {
        Some(param) => Some(param.value.as_slice()),
        None => None,
    }
}

/// What D does with the digit map: it stays where D is absent (RFC 3435, 2.3.3).
pub(crate) fn change_at(alloc: Global, params: &[Param<'_>]) -> Result<MapChange, CodeFault>
    ensures { AnswersAs (change_at (param_at (codes "D") params.now)) result }
{
    Ok(read_change(alloc, map_value(params))?)
}

/// The description of the remote end, where there is a text (RFC 3435, 2.3.5 and 3.4).
pub(crate) fn remote_of(text: &[u8]) -> Result<Option<Session>, CodeFault>
    ensures { AnswersAs (remote_of text.now) result }
{
    if text.is_empty() {
        return Ok(None);
    }
    match read_sdp(text) {
        Ok(session) => Ok(Some(session)),
        Err(SdpFault::NotInSubset) => Err(CodeFault::of(ReturnCode::RemoteDescriptionError)),
        Err(SdpFault::OutOfMemory) => Err(CodeFault::OutOfMemory),
    }
}
