//! The program: reads its configuration, and serves as its words ask.
ghost use Rattle.std.specs.Prelude.{◌≡◌, None, is_some, IfOk, IfSome};
ghost use Rattle.live_system.specs.Files.{name_of};
ghost use Rattle.rgca_words.specs.Names.{Says};

use agent_config::AgentConfig;
use live_agent::{WireSettings, serve_agent};
use live_system::{AddressWord, CommonEnding, SocketWanted, begin};
use output_queues::Outlets;
use rgca_words::{Ending, Said, Settings, asked_by, config_at};
use std::alloc::Global;
use std::net::Net;
use std::os::fd::AsRawFd;
use std::rt::{Clock, Env, Files};

// How the wire is opened.
fn wire_settings(settings: &Settings<'_>, config: &AgentConfig) -> WireSettings
    ensures listen { IfSome settings.now.listen (λ address. result.listen ≡ record { word = AddressWord.Listen; address = address }) }
    ensures own { settings.now.listen ≡ None → result.listen ≡ record { word = AddressWord.OwnKey; address = config.now.own } }
    ensures control { result.control ≡ record { word = AddressWord.Control; address = settings.now.control } }
    ensures network { result.network ≡ settings.now.network }
    ensures kept { (result.has_log ≡ settings.now.log) × (result.has_capture ≡ is_some settings.now.capture) }
    ensures end { result.end ≡ settings.now.stop_after }
{
    let listen = match settings.listen {
        Some(address) => SocketWanted {
            word: AddressWord::Listen,
            address,
        },
        None => SocketWanted {
            word: AddressWord::OwnKey,
            address: config.own,
        },
    };
    WireSettings {
        listen,
        control: SocketWanted {
            word: AddressWord::Control,
            address: settings.control,
        },
        network: settings.network,
        has_log: settings.log,
        has_capture: settings.capture.is_some(),
        end: settings.stop_after,
    }
}

// Serves as these settings ask: how the program ends then, and what it says, which names the files of the settings.
fn serve<R: Files + Net + Clock>(
    rt: &R,
    alloc: Global,
    settings: &Settings<'_>,
    outlets: &mut Outlets<R::File>,
) -> Said
    ensures { IfOk result.text (λ text. Says settings.now.config.now (name_of settings.now.capture) result.ending text.items) }
{
    let ending = match config_at(rt, alloc, settings.config, settings.route) {
        Ok(config) => {
            let is_routed = settings.route;
            let capture = settings.capture;
            let wire = wire_settings(settings, &config);
            Ending::Common(serve_agent(rt, alloc, &config, is_routed, wire, capture, outlets))
        }
        Err(ending) => ending,
    };
    ending.said(alloc, settings.files())
}

/// Runs the program, and gives its exit status.
pub fn run<R: AllocGlobal + Env + Files + Net + Clock>(rt: &R) -> u8
where
    R::File: AsRawFd,
{
    let Some(mut begun) = begin(rt) else {
        return CommonEnding::OutOfMemory.status();
    };
    let alloc = rt.alloc();
    let said = match asked_by(alloc, &begun.words, &mut begun.outlets.error) {
        Ok(settings) => serve(rt, alloc, &settings, &mut begun.outlets),
        Err(said) => said,
    };
    said.end(rt, &mut begun.outlets)
}
