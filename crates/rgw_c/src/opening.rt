//! How a gateway is opened from the text of a configuration, what is wrong with one, and how it is closed.
ghost use Rattle.std.specs.Prelude.{◌≡◌, ◌≢◌, ◌<◌, ◌≤◌, ℕ, List, [], length, take, true, Result, IfOk, IfErr, IfSome, IsSome, IsSomeAnd, MatchOption, None};
ghost use Rattle.small_rules.specs.Numbering.{firsts};
ghost use Rattle.gateway_core.specs.Stands.{Stands};
ghost use Rattle.rgw_scripts.specs.declared.step.ScriptStep.{ScriptStep};
ghost use Rattle.rgw_scripts.specs.Configuration.{config_in};
ghost use Rattle.rgw_scripts.specs.Play.{scene_of, configured_from, Explains};
ghost use Rattle.gateway_config.specs.Flaws.{flaw_of};
ghost use Rattle.gateway_config.specs.Wording.{Tells};
ghost use Rattle.rgw_c.specs.Opening.{Opened, Explained, WantsRoom, unread_number};
ghost use Rattle.rgw_c.specs.Numbers.{is_read_number, is_told_number, is_checked_number};
ghost use Rattle.rgw_c.specs.Telling.{open_number};

use crate::handle::{Handle, put, take};
use crate::instance::Instance;
use crate::numbers::{
    BAD_FIRST, HAS_FLAW, IS_OPEN, NOT_OPEN, OK, OUT_OF_MEMORY, SMALL_BUFFER, TOO_LONG, VERSION,
    config_number,
};
use gateway_config::{BAD_TOML, Flaw, flaw_of, read_config, told};
use gateway_core::{ConfigFault, FIRSTS, Gateway, Outputs};
use rgw_scripts::{PlayFault, is_too_long};
use small_rules::lacks_room;
use std::alloc::Global;

// The gateway of a configuration's text, whose ids begin with this number, below `FIRSTS`, and its own one higher (RFC 3435, 3.2.1.2).
fn gateway_from(alloc: Global, text: &[u8], first: u32) -> Result<Gateway, PlayFault>
    requires { first < firsts }
    ensures ok { IfOk result
        (λ gateway. (steps : Result (List ScriptStep) ℕ) →
        configured_from first (config_in text.now) steps ≡ scene_of gateway.setup steps) }
    ensures opened { IfOk result (λ gateway. Stands gateway []) }
    ensures err { IfErr result
        (λ fault. (steps : Result (List ScriptStep) ℕ) →
        Explains fault (configured_from first (config_in text.now) steps)) }
    ensures no_stream { IfErr result (λ fault. (fault ≢ PlayFault.Read) × (fault ≢ PlayFault.Write)) }
{
    let Some(config) = read_config(alloc, text)? else {
        return Err(PlayFault::Config { number: BAD_TOML });
    };
    match Gateway::starting_at(alloc, config, first) {
        Ok(gateway) => Ok(gateway),
        Err(ConfigFault::OutOfMemory) => Err(PlayFault::OutOfMemory),
        Err(fault) => Err(PlayFault::Config {
            number: fault.number(),
        }),
    }
}

// An instance of a configuration's text, which has sent nothing; or the number of why there is none.
fn instance_of(alloc: Global, config: &[u8], first: u32) -> Result<Box<Instance>, u32>
    requires { first < firsts }
    ensures ok { IfOk result (λ instance. Opened config.now first instance.value) }
    ensures err { IfErr result (λ number. Explained config.now first number) }
    ensures wrong { IfErr result (λ number. number ≢ OK) }
    ensures few { IfErr result (λ number. is_read_number number ≡ true) }
{
    match gateway_from(alloc, config, first) {
        Ok(gateway) => {
            let outputs = Outputs::new(alloc);
            match Box::new(alloc, Instance { gateway, outputs }) {
                Ok(instance) => Ok(instance),
                Err(_) => Err(OUT_OF_MEMORY),
            }
        }
        Err(PlayFault::Config { number }) => Err(config_number(number)),
        Err(_) => Err(OUT_OF_MEMORY),
    }
}

/// Opens a handle that isn't open on a gateway of the configuration in this text, at moment 0, whose ids begin with this number, below
/// `FIRSTS`. A text of more than `LIMIT` bytes isn't read. What is refused leaves the handle as it was.
#[unsafe(no_mangle)]
pub extern "C" fn rgw_open_nonnull(
    alloc: Global,
    handle: &mut Handle,
    config: &[u8],
    first: u32,
) -> u32
    ensures opened { result ≡ OK → IsSomeAnd handle.new.held (λ is. Opened config.now first is) }
    ensures number { MatchOption (unread_number handle.old.held config.now first) (is_read_number result ≡ true)
        (λ number. result ≡ number) }
    ensures fault { handle.old.held ≡ None → Explained config.now first result }
    ensures left { result ≢ OK → handle.new.held ≡ handle.old.held }
{
    let held = take(handle, alloc);
    if let Some(instance) = held {
        put(handle, alloc, instance);
        return IS_OPEN;
    }
    if first >= FIRSTS {
        return BAD_FIRST;
    }
    if is_too_long(config) {
        return TOO_LONG;
    }
    match instance_of(alloc, config, first) {
        Ok(instance) => {
            put(handle, alloc, instance);
            OK
        }
        Err(number) => number,
    }
}

// Tells a flaw of a configuration's text, in a line that is copied to the start of the buffer, if it fits.
fn tell_flaw(alloc: Global, config: &[u8], flaw: Flaw, buffer: &mut [u8], needed: &mut usize) -> u32
    ensures few { is_told_number result ≡ true }
    ensures told { result ≡ HAS_FLAW → Tells config.now flaw (take needed.new buffer.new) }
    ensures fits { result ≡ HAS_FLAW → needed.new ≤ length buffer.old }
    ensures small { result ≡ SMALL_BUFFER → WantsRoom config.now flaw (length buffer.old) needed.new }
    ensures left { result ≢ HAS_FLAW → buffer.new ≡ buffer.old }
    ensures unasked { result ≡ OUT_OF_MEMORY → needed.new ≡ needed.old }
{
    let Ok(line) = told(alloc, config, flaw) else {
        return OUT_OF_MEMORY;
    };
    if lacks_room(&line, buffer, needed) {
        SMALL_BUFFER
    } else {
        HAS_FLAW
    }
}

/// What is wrong with the configuration in this text, in a line without its end, as `rgwd --check` says it; the line is copied to the
/// start of the buffer. `needed` is how long it is, also where it doesn't fit: then the buffer is as it was. `OK` where nothing is wrong.
#[unsafe(no_mangle)]
pub extern "C" fn rgw_check_nonnull(
    alloc: Global,
    config: &[u8],
    buffer: &mut [u8],
    needed: &mut usize,
) -> u32
    ensures few { is_checked_number result ≡ true }
    ensures none { result ≡ OK → flaw_of config.now ≡ None }
    ensures flaw { result ≢ OK → result ≢ OUT_OF_MEMORY → IsSome (flaw_of config.now) }
    ensures told { result ≡ HAS_FLAW → IfSome (flaw_of config.now) (λ flaw. Tells config.now flaw (take needed.new buffer.new)) }
    ensures needed { result ≡ HAS_FLAW → needed.new ≤ length buffer.old }
    ensures small { result ≡ SMALL_BUFFER → IfSome (flaw_of config.now) (λ flaw.
        WantsRoom config.now flaw (length buffer.old) needed.new) }
    ensures left { result ≢ HAS_FLAW → buffer.new ≡ buffer.old }
    ensures unasked { result ≢ HAS_FLAW → result ≢ SMALL_BUFFER → needed.new ≡ needed.old }
{
    match flaw_of(alloc, config) {
        Ok(Some(flaw)) => tell_flaw(alloc, config, flaw, buffer, needed),
        Ok(None) => OK,
        Err(_) => OUT_OF_MEMORY,
    }
}

/// Closes a handle, and frees what it had.
#[unsafe(no_mangle)]
pub extern "C" fn rgw_close_nonnull(alloc: Global, handle: &mut Handle) -> u32
    ensures number { result ≡ open_number handle.old.held }
    ensures closed { handle.new.held ≡ None }
{
    match take(handle, alloc) {
        Some(_) => OK,
        None => NOT_OPEN,
    }
}

/// The version of the library: 10,000 times the first number, 100 times the second, and the third.
#[unsafe(no_mangle)]
pub extern "C" fn rgw_version() -> u32
    ensures { result ≡ VERSION }
{
    VERSION
}
