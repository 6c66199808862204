//! The program: reads its words and its configuration, opens its sockets, and serves.
ghost use Rattle.std.specs.Prelude.{◌≡◌, IfOk, IfNone, IfSome, None};
ghost use Rattle.live_system.specs.Files.{name_of};
ghost use Rattle.rgwd_words.specs.Names.{Says};

use crate::opening::{admission_of, desk_settings, open_site};
use crate::reception::PageReception;
use crate::recording::Recording;
use gateway_core::Gateway;
use live_gateway::{Desk, agents_line, end_desk, open_desk};
use live_io::Surroundings;
use live_journal::Trace;
use live_system::{CommonEnding, DayWatch, Live, begin};
use page_server::{PageProgram, Reception, run_with_site};
use rgwd_words::{
    Begun, Configured, Ending, Said, Settings, asked_by, begin_serving, configure, open_sockets,
    say_setup,
};
use std::alloc::Global;
use std::cell::Cell;
use std::net::{Net, SocketAddrV4};
use std::os::fd::AsRawFd;
use std::random::RandomSource;
use std::rc::Rc;
use std::rt::{Clock, Env, Files};

// Where the page is, if there is one that tells it.
fn page_address<P: Reception>(visitors: &Option<Box<PageReception<P>>>) -> Option<SocketAddrV4>
    ensures none { IfNone visitors.now (result ≡ None) }
    ensures placed { IfSome visitors.now (λ there. result ≡ P.placed there.value.site) }
{
    match visitors {
        Some(reception) => reception.site.address(),
        None => None,
    }
}

// Makes the file of a capture, where one is asked for, says on standard error where the sockets are, and how it starts; then serves at this
// desk until the end, and answers who asked for that once all is written. As long as a start waits it waits first, before its clock begins:
// so what is recorded of the gateway doesn't tell it.
fn serve_desk<R: Files + Net + Clock + RandomSource + Alloc + Clone + Drop, P: Reception>(
    rt: &R,
    alloc: Global,
    settings: &Settings<'_>,
    begun: Begun,
    desk: &mut Desk<Live<'_, R>, Trace>,
    visitors: &mut Option<Box<PageReception<P>>>,
    recording: &mut Recording<R>,
) -> Ending {
    let page = page_address(visitors);
    let files = match begin_serving(
        alloc,
        settings,
        begun,
        page,
        &mut desk.exchange.around,
        &mut recording.outlets,
    ) {
        Ok(files) => files,
        Err(ending) => return Ending::Common(ending),
    };
    recording.files = files;
    desk.run(visitors, recording);
    Ending::Common(end_desk(rt, desk, recording))
}

// Opens what the settings ask for: sockets, the page's site, and a desk for this gateway over these, whose trace has begun with this
// configuration; and serves there.
fn serve_with<R: Files + Net + Clock + RandomSource + Alloc + Clone + Drop, P: Reception>(
    rt: &R,
    alloc: Global,
    settings: &Settings<'_>,
    begun: Begun,
    config: &[u8],
    gateway: Box<Gateway>,
    recording: &mut Recording<R>,
) -> Ending {
    let live = match open_sockets(rt, alloc, settings, begun) {
        Ok(live) => live,
        Err(ending) => return Ending::Common(ending),
    };
    let Ok(is_full) = recording.is_full.clone() else {
        return Ending::Common(CommonEnding::OutOfMemory);
    };
    let mut visitors = match open_site::<R, P>(rt, alloc, settings, &live.ready, is_full) {
        Ok(visitors) => visitors,
        Err(ending) => return ending,
    };
    let own = live.own();
    let admission = match admission_of(alloc, settings, gateway.setup(), own) {
        Ok(admission) => admission,
        Err(fault) => return fault.ending(),
    };
    let asked = desk_settings(settings, own[0], gateway.setup().media_address);
    let Ok(mut desk) = open_desk(alloc, &asked, config, gateway, live, admission) else {
        return Ending::Common(CommonEnding::OutOfMemory);
    };
    serve_desk(
        rt,
        alloc,
        settings,
        begun,
        &mut desk,
        &mut visitors,
        recording,
    )
}

// Serves with the gateway of the configuration that the settings name, or says on standard output what it will be; or on standard error
// which flaw the configuration has.
fn serve_configured<R: Files + Net + Clock + RandomSource + Alloc + Clone + Drop, P: Reception>(
    rt: &R,
    alloc: Global,
    settings: &Settings<'_>,
    recording: &mut Recording<R>,
) -> Ending {
    let Configured {
        config,
        gateway,
        begun,
    } = match configure(rt, alloc, settings, &mut recording.outlets.error) {
        Ok(found) => found,
        Err(ending) => return ending,
    };
    if settings.check {
        let agents = agents_line(alloc, settings.sockets.agents, gateway.setup());
        return say_setup(
            alloc,
            settings,
            gateway.setup(),
            agents,
            &mut recording.outlets.output,
        );
    }
    serve_with::<R, P>(
        rt,
        alloc,
        settings,
        begun,
        config.as_slice(),
        gateway,
        recording,
    )
}

// Does what the settings ask: how the program ends then, and what it says, which names the files of the settings.
fn perform<R: Files + Net + Clock + RandomSource + Alloc + Clone + Drop, P: Reception>(
    rt: &R,
    alloc: Global,
    settings: &Settings<'_>,
    recording: &mut Recording<R>,
) -> Said
    ensures { IfOk result.text (λ text. Says settings.now.config.now (name_of settings.now.capture) result.ending text.items) }
{
    let ending = serve_configured::<R, P>(rt, alloc, settings, recording);
    ending.said(alloc, settings.files())
}

/// The program, over what its machine gives it.
struct Program<'r, R> {
    rt: &'r R,
}

impl<R> PageProgram for Program<'_, R>
where
    R: AllocGlobal + Env + Files + Net + Clock + RandomSource + Clone + Drop,
    R::File: AsRawFd,
{
    fn run<P: Reception>(&self) -> u8 {
        let Ok(runtime) = self.rt.clone() else {
            return CommonEnding::OutOfMemory.status();
        };
        let Ok(is_full) = Rc::new(self.rt.alloc(), Cell::new(false)) else {
            return CommonEnding::OutOfMemory.status();
        };
        let Some(begun) = begin(self.rt) else {
            return CommonEnding::OutOfMemory.status();
        };
        let (words, outlets, _held) = begun.parts();
        let mut recording = Recording {
            rt: runtime,
            outlets,
            files: None,
            days: DayWatch::new(),
            is_full,
            is_full_said: false,
        };
        let settings = match asked_by(self.rt, &words, &mut recording.outlets) {
            Ok(settings) => settings,
            Err(said) => return said.end(self.rt, &mut recording.outlets),
        };
        let said = perform::<R, P>(self.rt, self.rt.alloc(), &settings, &mut recording);
        said.end(self.rt, &mut recording.outlets)
    }
}

/// Runs the program with a page at a socket of this machine, and gives its exit status.
pub(crate) fn run_on_site<R: AllocGlobal + Env + Files + Net + Clock + RandomSource + Clone + Drop>(
    rt: &R,
) -> u8
where
    R::File: AsRawFd,
{
    let program = Program { rt };
    let status = run_with_site(&program);
    let Program { rt: _ } = program;
    status
}
