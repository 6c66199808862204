//! Parameters as lines of a text: `code: value` (RFC 3435, 3.2.2).
ghost use Rattle.std.specs.Prelude.{◌≡◌, None, Some, true, false, MatchOption, IfOk, OnErr, option_copied};
ghost use Rattle.std.specs.List.{list_all};
ghost use Rattle.mgcp_text.specs.Message.{has_code, param_at};
ghost use Rattle.mgcp_text.specs.Parameter.{is_code_byte, is_code, param_of};
ghost use Rattle.mgcp_text.specs.Reading.{params_of, some_params_of, has_params};
ghost use Rattle.mg_bytes.specs.Lists.{is_empty};

use crate::bytes::Bytes;
use crate::message::{Param, Params};
use mg_bytes::{Lines, OutOfMemory, Sequence, same_no_case, split_once, trimmed};
use std::alloc::Global;

fn is_code_byte(byte: u8) -> bool
    ensures { result ≡ is_code_byte byte }
{
    byte.is_ascii_alphanumeric() || byte == b'+' || byte == b'-' || byte == b'/'
}

fn all_code_bytes(code: &[u8]) -> bool
    ensures { result ≡ list_all is_code_byte code.now }
{
    code.iter().all(|byte| is_code_byte(*byte))
}

/// Whether a text is a parameter's code: one or more letters, digits, `+`, `-` or `/`.
pub fn is_code(code: &[u8]) -> bool
    ensures { result ≡ is_code code.now }
{
    code.len() >= 1 && all_code_bytes(code)
}

/// The parameter that a line is: `code: value`.
#[tactic(auto, unfolding(crate::specs::Parameter::param_of))]
fn param_of(line: &[u8]) -> Option<Param<'_>>
    ensures { result ≡ param_of line.now }
{
    let (left, right) = split_once(line, b':')?;
    let code = trimmed(left);
    if !is_code(code) {
        return None;
    }
    Some(Param {
        code: Bytes::of(code),
        value: Bytes::of(trimmed(right)),
    })
}

/// The parameters up to the first empty line; `None` where another line stands there.
#[tactic(auto, unfolding(crate::specs::Reading::params_of))]
pub fn params_of<'a>(
    alloc: Global,
    lines: &mut Lines<'a>,
) -> Result<Option<Params<'a>>, OutOfMemory>
    ensures value { IfOk result (λ found.
        MatchOption found (params_of lines.old ≡ None)
        (λ params. params_of lines.old ≡ Some (params, lines.new))) }
    ensures memory { OnErr result (has_params lines.old ≡ true) }
{
    let mut params = Sequence::new(alloc);
    while let Some(line) = lines.next() {
        if line.is_empty() {
            break;
        }
        match param_of(line) {
            Some(param) => params.push(param)?,
            None => return Ok(None),
        }
    }
    Ok(Some(params))
}

/// The parameters of a response up to the first empty line: all of them are kept, and other lines are skipped.
#[tactic(auto, unfolding(crate::specs::Reading::some_params_of))]
pub fn some_params_of<'a>(alloc: Global, lines: &mut Lines<'a>) -> Result<Params<'a>, OutOfMemory>
    ensures value { IfOk result (λ params. some_params_of lines.old ≡ (params, lines.new)) }
    ensures memory { OnErr result (is_empty (some_params_of lines.old).0 ≡ false) }
{
    let mut params = Sequence::new(alloc);
    while let Some(line) = lines.next() {
        if line.is_empty() {
            break;
        }
        if let Some(param) = param_of(line) {
            params.push(param)?;
        }
    }
    Ok(params)
}

fn has_code(param: &Param<'_>, code: &[u8]) -> bool
    ensures { result ≡ has_code code.now param.now }
{
    same_no_case(param.code.as_slice(), code)
}

/// The first parameter with this code, which is compared without case (RFC 3435, 3.2.2).
pub fn param_at<'p, 'a>(code: &[u8], params: &'p [Param<'a>]) -> Option<&'p Param<'a>>
    ensures { option_copied result ≡ param_at code.now params.now }
{
    params.iter().find(|param| has_code(param, code))
}
