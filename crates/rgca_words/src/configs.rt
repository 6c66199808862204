//! Reads a configuration.
ghost use Rattle.std.specs.Prelude.{◌≡◌};
ghost use Rattle.rgca_words.specs.Endings.{config_by};

use crate::ending::Ending;
use agent_config::{AgentConfig, ConfigRefusal, read_config, too_long};
use live_system::{CommonEnding, read_file};
use rgw_scripts::LIMIT;
use std::alloc::Global;
use std::rt::Files;
use toml_places::named;

// The configuration that a text writes; where calls are to be routed it has a digit map.
fn config_of(alloc: Global, is_routed: bool, text: &[u8]) -> Result<AgentConfig, ConfigRefusal> {
    if text.len() > LIMIT {
        return Err(too_long(alloc, LIMIT));
    }
    read_config(alloc, text, is_routed)
}

// Why the configuration in this file is refused, where each line names the file but the first, before which that stands already.
fn named_refusal(alloc: Global, file: &str, refusal: ConfigRefusal) -> ConfigRefusal {
    match refusal {
        ConfigRefusal::OutOfMemory => ConfigRefusal::OutOfMemory,
        ConfigRefusal::Told { line } => match named(alloc, file, line.as_slice()) {
            Ok(line) => ConfigRefusal::Told { line },
            Err(_) => ConfigRefusal::OutOfMemory,
        },
    }
}

// How the program ends by a configuration that is refused.
fn config_ending(refusal: ConfigRefusal) -> Ending
    ensures { result ≡ config_by refusal }
{
    match refusal {
        ConfigRefusal::OutOfMemory => Ending::Common(CommonEnding::OutOfMemory),
        ConfigRefusal::Told { line } => Ending::Config { line },
    }
}

/// The configuration in this file; where calls are to be routed it has a digit map. Where it can't be read, or is refused, the program ends
/// so.
pub fn config_at<R: Files>(
    rt: &R,
    alloc: Global,
    file: &str,
    is_routed: bool,
) -> Result<AgentConfig, Ending> {
    let text = match read_file(rt, alloc, file, LIMIT as u64) {
        Ok(text) => text,
        Err(kind) => return Err(Ending::Common(CommonEnding::unreadable(kind))),
    };
    match config_of(alloc, is_routed, text.as_slice()) {
        Ok(config) => Ok(config),
        Err(refusal) => Err(config_ending(named_refusal(alloc, file, refusal))),
    }
}
