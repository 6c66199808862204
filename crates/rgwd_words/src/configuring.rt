//! The gateway of the configuration that the words name, at a start; or why there is none.
use crate::ending::Ending;
use crate::starting::{Begun, Start};
use crate::warnings::warnings_text;
use crate::words::Settings;
use config_flaws::{flaws_text, with_names};
use gateway_config::read_config;
use gateway_core::Gateway;
use live_system::{CommonEnding, read_file};
use output_queues::{Outlet, boxed};
use plain_machine::Setup;
use rgw_scripts::LIMIT;
use std::alloc::{AllocError, Global};
use std::io::Write;
use std::rt::{Clock, Files};

/// A gateway that may serve.
pub struct Configured {
    /// The text of its configuration.
    pub config: Vec<u8>,
    pub gateway: Box<Gateway>,
    pub begun: Begun,
}

// A gateway of the configuration in this text, which has no flaw, at this start: without one memory alone is refused.
fn gateway_of(alloc: Global, text: &[u8], start: &Start) -> Result<Box<Gateway>, AllocError> {
    let Ok(Some(config)) = read_config(alloc, text) else {
        return Err(AllocError);
    };
    match Gateway::starting_at(alloc, config, start.first.number()) {
        Ok(gateway) => boxed(alloc, gateway),
        Err(_) => Err(AllocError),
    }
}

// Says at this outlet what is right but may be meant otherwise, where it is asked for a check; for want of memory that alone isn't said.
fn say_warnings<F: Write + Drop>(
    alloc: Global,
    settings: &Settings<'_>,
    setup: &Setup,
    error: &mut Outlet<F>,
) {
    if !settings.check {
        return;
    }
    if let Ok(said) = warnings_text(alloc, settings, setup) {
        error.say(said.as_slice());
    }
}

/// The gateway of the configuration that the settings name, at a start that begins now; or how the program ends without one. Which flaws a
/// configuration has this outlet says, and of what is checked what may be meant otherwise.
pub fn configure<R: Files + Clock, F: Write + Drop>(
    rt: &R,
    alloc: Global,
    settings: &Settings<'_>,
    error: &mut Outlet<F>,
) -> Result<Configured, Ending> {
    let config = match read_file(rt, alloc, settings.config, LIMIT as u64) {
        Ok(config) => config,
        Err(kind) => return Err(Ending::unreadable(kind)),
    };
    let Ok(config) = with_names(alloc, config) else {
        return Err(Ending::Common(CommonEnding::OutOfMemory));
    };
    let Ok(flaws) = flaws_text(alloc, settings.config, config.as_slice()) else {
        return Err(Ending::Common(CommonEnding::OutOfMemory));
    };
    if let Some(said) = &flaws {
        error.say(said.as_slice());
        return Err(Ending::Common(CommonEnding::Told));
    }
    let Some(start) = Start::now(rt, settings) else {
        return Err(Ending::NoTimeOfDay);
    };
    let Ok(gateway) = gateway_of(alloc, config.as_slice(), &start) else {
        return Err(Ending::Common(CommonEnding::OutOfMemory));
    };
    say_warnings(alloc, settings, gateway.setup(), error);
    let begun = start.begun(gateway.setup().names.domain.as_bytes());
    Ok(Configured {
        config,
        gateway,
        begun,
    })
}
