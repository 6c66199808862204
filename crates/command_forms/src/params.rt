//! The parameters of a command, each by its code.
ghost use Rattle.std.specs.Prelude.{◌≡◌, ◌≤◌, ◌∷◌, [], IfSome};
ghost use Rattle.std.specs.List.{list_any};
ghost use Rattle.mgcp_text.specs.Message.{param_at};
ghost use Rattle.mg_bytes.specs.Bytes.{is_slash};
ghost use Rattle.command_forms.specs.Params.{begins_x, is_critical, is_ignored, is_among, is_taken, param_fault, params_fault, has, missing_letter, has_none, value_at};

use crate::refused::{FaultyPart, Refused};
use crate::verbs::VerbRow;
use mg_bytes::{ReturnCode, same_no_case};
use mgcp_text::{Param, param_at};

fn has_slash(code: &[u8]) -> bool
    ensures { result ≡ list_any is_slash code.now }
{
    code.iter().any(|byte| *byte == b'/')
}

fn begins_x(sign: u8, code: &[u8]) -> bool
    ensures { result ≡ begins_x sign code.now }
{
    match code {
        [x, second, ..] => same_no_case(&[*x], b"X") && *second == sign,
        _ => false,
    }
}

fn is_critical(code: &[u8]) -> bool
    ensures { result ≡ is_critical code.now }
{
    begins_x(b'+', code) || has_slash(code)
}

fn is_ignored(code: &[u8]) -> bool
    ensures { result ≡ is_ignored code.now }
{
    begins_x(b'-', code)
}

fn is_among(letters: &[u8], code: &[u8]) -> bool
    ensures { result ≡ is_among letters.now code.now }
{
    letters.iter().any(|letter| same_no_case(code, &[*letter]))
}

fn is_taken(row: &VerbRow, code: &[u8]) -> bool
    ensures { result ≡ is_taken row.now code.now }
{
    is_among(b"K", code)
        || is_among(row.must.as_slice(), code)
        || is_among(row.may.as_slice(), code)
}

// What is wrong with a parameter of this verb after these.
pub(crate) fn param_fault(row: &VerbRow, before: &[Param<'_>], param: &Param<'_>) -> Option<u16>
    ensures value { result ≡ param_fault row.now before.now param.now }
    ensures three_digits { IfSome result (λ code. code ≤ 999) }
{
    let code = param.code.as_slice();
    if is_critical(code) {
        return Some(ReturnCode::UnrecognizedExtension.number());
    }
    if is_ignored(code) {
        return None;
    }
    if !is_taken(row, code) {
        return Some(ReturnCode::UnsupportedParameter.number());
    }
    if param_at(code, before).is_some() {
        return Some(ReturnCode::ProtocolError.number());
    }
    None
}

/// The first parameter line of this verb at fault, from top to bottom. Only a code of the verb's row is looked for among
/// those before, and each of these stands there once, so few lines are looked at twice.
#[tactic(auto, unfolding(crate::specs::Params::params_fault))]
pub(crate) fn params_fault(row: &VerbRow, params: &[Param<'_>]) -> Option<Refused>
    ensures value { result ≡ params_fault row.now 1 [] params.now }
    ensures three_digits { IfSome result (λ refused. refused.code ≤ 999) }
{
    for (place, param) in params.iter().enumerate() {
        if let Some(code) = param_fault(row, &params[..place], param) {
            return Some(Refused {
                code,
                at: FaultyPart::Line(place + 1),
            });
        }
    }
    None
}

/// Whether a parameter with this letter stands there.
pub(crate) fn has_code(letter: u8, params: &[Param<'_>]) -> bool
    ensures { result ≡ has (letter ∷ []) params.now }
{
    param_at(&[letter], params).is_some()
}

/// The first of these letters with which no parameter stands there.
pub(crate) fn missing_letter(letters: &[u8], params: &[Param<'_>]) -> Option<u8>
    ensures { result ≡ missing_letter letters.now params.now }
{
    letters
        .iter()
        .copied()
        .find(|letter| !has_code(*letter, params))
}

/// Whether no parameter with one of these letters stands there.
pub(crate) fn has_none(letters: &[u8], params: &[Param<'_>]) -> bool
    ensures { result ≡ has_none letters.now params.now }
{
    letters.iter().all(|letter| !has_code(*letter, params))
}

/// The value of the first parameter with this code; empty where there is none.
pub(crate) fn value_at<'m>(code: &[u8], params: &'m [Param<'_>]) -> &'m [u8]
    ensures { result.now ≡ value_at code.now params.now }
{
    match param_at(code, params) {
        Some(param) => param.value.as_slice(),
        None => b"",
    }
}
