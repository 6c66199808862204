//! Reads an input, and cuts it into its configuration and its script.
ghost use Rattle.std.specs.Prelude.{◌≡◌, ◌+◌, ◌≤◌, ◌⊎◌, IfErr, IfOk, IfSome, take, length, nat_lt};
ghost use Rattle.mg_bytes.specs.Lines.{cut};
ghost use Rattle.rgw_scripts.specs.Input.{is_separator, config_text, script_pieces};
ghost use Rattle.rgw_scripts.specs.Play.{largest_input};

use crate::{LIMIT, PlayFault};
use mg_bytes::lines;
use std::alloc::Global;
use std::io::{ErrorKind, Read};

const CHUNK: usize = 4096;

/// Reads all there is, up to one byte past the limit.
pub fn read_limited<R: Read>(alloc: Global, reader: &mut R) -> Result<Vec<u8>, PlayFault>
    ensures ok { IfOk result
        (λ text. (IfSome (R.remaining reader.old) (λ input. text.items ≡ take (LIMIT + 1) input))) }
    ensures bounded { IfOk result (λ text. length text.items ≤ LIMIT + 1) }
    ensures err { IfErr result (λ e. (e ≡ PlayFault.OutOfMemory) ⊎ (e ≡ PlayFault.Read)) }
{
    let mut text = Vec::new(alloc);
    let mut chunk = [0u8; CHUNK];
    // Each round takes a byte or more, or is interrupted.
    for _ in 0..u32::MAX {
        let room = (LIMIT + 1 - text.len()).min(CHUNK);
        if room == 0 {
            return Ok(text);
        }
        match reader.read(&mut chunk[..room]) {
            Ok(0) => return Ok(text),
            Ok(n) => {
                if text.extend_from_slice(&chunk[..n]).is_err() {
                    return Err(PlayFault::OutOfMemory);
                }
            }
            Err(e) if e.kind() == ErrorKind::Interrupted => {}
            Err(_) => return Err(PlayFault::Read),
        }
    }
    Err(PlayFault::Read)
}

/// Whether an input has more bytes than are taken.
pub fn is_too_long(input: &[u8]) -> bool
    ensures { result ≡ nat_lt largest_input (length input.now) }
{
    input.len() > LIMIT
}

/// What stands before the first line `%%` of an input, and what stands after it.
#[derive(Clone, Copy)]
pub struct Parts<'a> {
    pub config: &'a [u8],
    pub script: &'a [u8],
}

fn is_separator(line: &[u8]) -> bool
    ensures { result ≡ is_separator line.now }
{
    line == b"%%".as_slice()
}

/// The parts of an input. Without a line `%%` the script is empty.
#[tactic(auto, unfolding(crate::specs::Input::script_pieces))]
pub fn parts_of(input: &[u8]) -> Parts<'_>
    ensures config { result.config.now ≡ config_text input.now }
    ensures script { cut result.script.now ≡ script_pieces (cut input.now) }
    ensures few { length result.script.now ≤ length input.now }
{
    let mut rest = lines(input);
    let mut end = 0;
    while let Some(line) = rest.next() {
        if is_separator(line) {
            return Parts {
                config: &input[..end],
                script: rest.rest(),
            };
        }
        end = input.len() - rest.rest().len();
    }
    Parts {
        config: input,
        script: &[],
    }
}
