//! Opens the page's site, if the words ask for one; and says whom a gateway hears, and what is asked of its desk.
ghost use Rattle.std.specs.Prelude.{◌≡◌, true, Some, is_some, IfOk, IfErr, IfNone, IfSome};
ghost use Rattle.live_io.specs.Speaking.{admitted_by, admitted_in};
ghost use Rattle.live_gateway.specs.Admitting.{known_to};
ghost use Rattle.rgwd_words.specs.Opening.{names_asked, RefusesSpeakers, TellsSocket};
ghost use Rattle.rgwd_words.specs.Statuses.{fails};

use crate::reception::PageReception;
use live_gateway::{Admission, DeskSettings, boxed, speakers_of};
use live_system::{AddressWord, CommonEnding, Readiness};
use page_server::Reception;
use plain_machine::Setup;
use rgwd_words::{Ending, ListFault, Settings, captured_at, page_names, speakers_in};
use std::alloc::Global;
use std::cell::Cell;
use std::net::{Ipv4Addr, Net, SocketAddrV4};
use std::rc::Rc;

/// The site, if one is asked for; there it is told whether nobody is let in for want of files.
pub fn open_site<R: Net, P: Reception>(
    rt: &R,
    alloc: Global,
    settings: &Settings<'_>,
    ready: &Readiness,
    is_full: Rc<Cell<bool>>,
) -> Result<Option<Box<PageReception<P>>>, Ending>
    ensures asked { IfOk result (λ site. is_some site ≡ is_some settings.now.sockets.http) }
    ensures named { IfOk result (λ site. IfSome site (λ there.
        IfSome (names_asked settings.now.sockets.http_hosts) (λ names. P.opens names there.value.site))) }
    ensures failed { IfErr result (λ ending. fails ending ≡ true) }
{
    let Some(address) = settings.sockets.http else {
        return Ok(None);
    };
    let names = match page_names(alloc, settings) {
        Ok(names) => names,
        Err(fault) => return Err(fault.ending()),
    };
    let site = match P::at(rt, alloc, address, names, ready) {
        Ok(site) => site,
        Err(fault) => return Err(Ending::unbound(AddressWord::Http, address, fault.kind())),
    };
    match boxed(alloc, PageReception { site, is_full }) {
        Ok(reception) => Ok(Some(reception)),
        Err(_) => Err(Ending::Common(CommonEnding::OutOfMemory)),
    }
}

/// Whom a gateway hears that is set up so, whose sockets are at these addresses, and who may type.
pub fn admission_of(
    alloc: Global,
    settings: &Settings<'_>,
    setup: &Setup,
    own: [SocketAddrV4; 2],
) -> Result<Admission, ListFault>
    ensures own { IfOk result (λ admission. admission.own ≡ own) }
    ensures open { IfOk result (λ admission. admission.are_phones_open ≡ settings.now.sockets.phones_open) }
    ensures known { IfNone settings.now.sockets.agents
        (IfOk result (λ admission. admitted_by admission.speakers ≡ known_to setup.now)) }
    ensures said { IfSome settings.now.sockets.agents (λ agents.
        IfOk result (λ admission. admitted_in agents.now ≡ Some (admitted_by admission.speakers))) }
    ensures refused { IfErr result (λ fault. RefusesSpeakers settings.now.sockets.agents fault) }
{
    let speakers = match settings.sockets.agents {
        Some(text) => speakers_in(alloc, text)?,
        None => speakers_of(alloc, setup)?,
    };
    Ok(Admission {
        speakers,
        own,
        are_phones_open: settings.sockets.phones_open,
    })
}

/// What is asked of a gateway whose socket for commands is at this address, and whose media is at that one.
pub fn desk_settings<'w>(
    settings: &Settings<'w>,
    own: SocketAddrV4,
    media: Ipv4Addr,
) -> DeskSettings<'w>
    ensures told { (result.has_trace ≡ settings.now.trace) × (result.has_log ≡ settings.now.log)
        × (result.has_page ≡ is_some settings.now.sockets.http) }
    ensures captured { result.capture ≡ settings.now.capture }
    ensures spoilt { result.network ≡ settings.now.network }
    ensures ends { result.end ≡ settings.now.stop_after }
    ensures here { TellsSocket own settings.now.sockets.listen media result.here }
{
    DeskSettings {
        has_trace: settings.trace,
        has_log: settings.log,
        capture: settings.capture,
        here: captured_at(own, settings.sockets.listen, media),
        has_page: settings.sockets.http.is_some(),
        network: settings.network,
        end: settings.stop_after,
    }
}
