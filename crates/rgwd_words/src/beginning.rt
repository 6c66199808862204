//! What is done and said before a gateway serves: a capture's file is made, and it is said where its sockets are, and how it starts; or
//! what it will be, where that alone is asked.
use crate::ending::Ending;
use crate::starting::Begun;
use crate::words::Settings;
use gateway_config::told_setup;
use live_io::Surroundings;
use live_system::{CaptureFiles, CommonEnding, Live, open_capture};
use log_format::put_peer;
use mg_bytes::Draft;
use output_queues::{Outlet, Outlets, boxed};
use plain_machine::Setup;
use std::alloc::{AllocError, Global};
use std::io::{ErrorKind, Write};
use std::net::{Net, SocketAddrV4};
use std::rt::{Clock, Files};

// Puts an address behind its word; nothing where there is none.
fn put_behind(out: &mut Draft, word: &[u8], address: Option<SocketAddrV4>) {
    if let Some(address) = address {
        out.put(word);
        put_peer(out, address);
    }
}

// Where the sockets are, and the page, if there is one, and how it starts, as a line; none where one of these doesn't tell where it is.
fn start_line(
    alloc: Global,
    own: [SocketAddrV4; 2],
    has_page: bool,
    page: Option<SocketAddrV4>,
    begun: Begun,
) -> Result<Vec<u8>, AllocError> {
    if own[0].port() == 0 || own[1].port() == 0 || has_page != page.is_some() {
        return Ok(Vec::new(alloc));
    }
    let mut line = Draft::new(alloc);
    line.put(b"listen ");
    put_peer(&mut line, own[0]);
    line.put(b" phones ");
    put_peer(&mut line, own[1]);
    put_behind(&mut line, b" http ", page);
    begun.put(&mut line);
    line.put(b"\n");
    line.end()
}

// The file of a capture, if one is asked for, becomes an outlet; where it is parted its first file, and what is known of the others comes
// in a box: who holds that holds little.
fn open_files<R: Files + Alloc + Clone + Drop>(
    rt: &R,
    alloc: Global,
    settings: &Settings<'_>,
    outlets: &mut Outlets<R::File>,
) -> Result<Option<Box<CaptureFiles>>, ErrorKind> {
    let (Some(name), Some(parting)) = (settings.capture, settings.parting) else {
        let capture = match open_capture(rt, alloc, settings.capture) {
            Ok(capture) => capture,
            Err(fault) => return Err(fault),
        };
        outlets.capture = capture;
        return Ok(None);
    };
    let files = match CaptureFiles::find(rt, alloc, name, parting) {
        Ok(files) => files,
        Err(fault) => return Err(fault),
    };
    let Ok(mut files) = boxed(alloc, files) else {
        return Err(ErrorKind::OutOfMemory);
    };
    let outlet = match files.next(rt) {
        Ok(outlet) => outlet,
        Err(kind) => return Err(kind),
    };
    outlets.capture = Some(outlet);
    Ok(Some(files))
}

/// Makes the file of a capture, where one is asked for, and says on standard error where the sockets are, and the page, where there is
/// one, and how a gateway starts. As long as a start waits it waits then, before its clock begins: so what is recorded of the gateway
/// doesn't tell it. A signal ends that wait. It gives what is known of a capture's files, where that is parted; or how the program ends
/// that can't serve.
pub fn begin_serving<R: Files + Net + Clock + Alloc + Clone + Drop>(
    alloc: Global,
    settings: &Settings<'_>,
    begun: Begun,
    page: Option<SocketAddrV4>,
    live: &mut Live<'_, R>,
    outlets: &mut Outlets<R::File>,
) -> Result<Option<Box<CaptureFiles>>, CommonEnding> {
    let rt = live.rt;
    let files = match open_files(rt, alloc, settings, outlets) {
        Ok(files) => files,
        Err(kind) => return Err(CommonEnding::unwritable(kind)),
    };
    let own = live.own();
    let has_page = settings.sockets.http.is_some();
    // For want of memory that line alone isn't said.
    if let Ok(line) = start_line(alloc, own, has_page, page, begun) {
        outlets.error.say(line.as_slice());
    }
    outlets.offer();
    if let Some(waits) = begun.waits {
        live.sleep(waits);
        if live.clock.begin_anew().is_err() {
            return Err(CommonEnding::Clock);
        }
    }
    Ok(files)
}

// What a gateway that is set up so will be, who may speak to it, as a line that is told here, and its sockets.
fn setup_text(
    alloc: Global,
    settings: &Settings<'_>,
    setup: &Setup,
    agents: &[u8],
) -> Result<Vec<u8>, AllocError> {
    let lines = told_setup(alloc, setup)?;
    let mut text = Draft::new(alloc);
    text.put(lines.as_slice());
    text.put(agents);
    text.put(b"sockets: --listen ");
    put_peer(&mut text, settings.sockets.listen);
    text.put(b" --phones ");
    put_peer(&mut text, settings.sockets.phones);
    put_behind(&mut text, b" --http ", settings.sockets.http);
    text.put(b"\n");
    text.end()
}

/// Says at this outlet what a gateway that is set up so will be, who may speak to it, as a line that memory was there for, and its
/// sockets: how the program ends by that.
pub fn say_setup<F: Write + Drop>(
    alloc: Global,
    settings: &Settings<'_>,
    setup: &Setup,
    agents: Result<Vec<u8>, AllocError>,
    output: &mut Outlet<F>,
) -> Ending {
    let Ok(agents) = agents else {
        return Ending::Common(CommonEnding::OutOfMemory);
    };
    let Ok(said) = setup_text(alloc, settings, setup, agents.as_slice()) else {
        return Ending::Common(CommonEnding::OutOfMemory);
    };
    output.say(said.as_slice());
    Ending::Checked
}
