//! A play: reads an input, judges it, plays its steps and writes what they show.
ghost use Rattle.std.specs.Prelude.{◌≡◌, ◌≢◌, [], Ok, IfOk, IfErr, IfSome};
ghost use Rattle.gateway_core.specs.Stands.{Stands};
ghost use Rattle.rgw_scripts.specs.Play.{judged, Plays, PlaysInto, Explains, ExplainsLink};

use crate::player::Player;
use crate::scene::{Scene, judge};
use crate::sockets::{BindFault, Sockets};
use gateway_core::WireFault;
use rgw_scripts::{Direct, Link, LinkFault, PlayFault, Played, StepFault, read_limited};
use std::alloc::Global;
use std::io::{Read, Write};
use std::net::Net;

// Plays a scene over a link.
fn play_scene<W: Write, L: Link>(
    alloc: Global,
    link: &mut L,
    scene: Scene,
    writer: &mut W,
) -> Result<Played, LinkFault<L::Fault>>
    requires { Stands scene.gateway [] }
    ensures written { IfOk result (λ played.
        Plays (record { setup = scene.gateway.setup; steps = scene.steps.items }) played.commands played.refused
        (W.contents writer.old) (W.contents writer.new)) }
    ensures explained { IfErr result
        (λ fault. ExplainsLink fault (Ok (record { setup = scene.gateway.setup; steps = scene.steps.items }))) }
    ensures nothing_written { IfErr result
        (λ fault. fault ≢ LinkFault.Play PlayFault.Write → writer.new ≡ writer.old) }
    ensures no_read { IfErr result (λ fault. fault ≢ LinkFault.Play PlayFault.Read) }
{
    let Scene { gateway, steps } = scene;
    let mut player = Player::new(alloc, gateway);
    match player.play(link, &steps) {
        Ok(()) => {}
        Err(StepFault::OutOfMemory) => return Err(LinkFault::Play(PlayFault::OutOfMemory)),
        Err(StepFault::Link(fault)) => return Err(LinkFault::Link(fault)),
    }
    match writer.write_all(&player.out) {
        Ok(()) => Ok(Played {
            commands: steps.len() as u64,
            refused: player.refused,
        }),
        Err(_) => Err(LinkFault::Play(PlayFault::Write)),
    }
}

// Plays an input that was read, without a network.
fn play_input<W: Write>(alloc: Global, input: &[u8], writer: &mut W) -> Result<Played, PlayFault>
    ensures written { IfOk result (λ played.
        PlaysInto (judged input.now) played.commands played.refused (W.contents writer.old)
        (W.contents writer.new)) }
    ensures explained { IfErr result (λ fault. Explains fault (judged input.now)) }
    ensures nothing_written { IfErr result
        (λ fault. fault ≢ PlayFault.Write → writer.new ≡ writer.old) }
{
    let scene = judge(alloc, input)?;
    match play_scene(alloc, &mut Direct, scene, writer) {
        Ok(played) => Ok(played),
        Err(LinkFault::Play(fault)) => Err(fault),
        Err(LinkFault::Link(never)) => match never {},
    }
}

// Plays an input that was read, over two sockets.
fn carry_input<H: AllocGlobal + Net, W: Write>(
    rt: &H,
    input: &[u8],
    writer: &mut W,
    port: u16,
) -> Result<Played, LinkFault<WireFault>>
    ensures written { IfOk result (λ played.
        PlaysInto (judged input.now) played.commands played.refused (W.contents writer.old)
        (W.contents writer.new)) }
    ensures explained { IfErr result (λ fault. ExplainsLink fault (judged input.now)) }
    ensures nothing_written { IfErr result
        (λ fault. fault ≢ LinkFault.Play PlayFault.Write → writer.new ≡ writer.old) }
{
    let scene = match judge(rt.alloc(), input) {
        Ok(scene) => scene,
        Err(fault) => return Err(LinkFault::Play(fault)),
    };
    let mut sockets = match Sockets::bind(rt.alloc(), rt, port) {
        Ok(sockets) => sockets,
        Err(BindFault::OutOfMemory) => return Err(LinkFault::Play(PlayFault::OutOfMemory)),
        Err(BindFault::Wire) => return Err(LinkFault::Link(WireFault)),
    };
    match play_scene(rt.alloc(), &mut sockets, scene, writer) {
        Ok(played) => Ok(played),
        Err(fault) => Err(fault),
    }
}

/// Plays the input, and writes its output and nothing else.
///
/// The input is a configuration, a line `%%` and a script. Its faults come in this order: it can't be read, it is too
/// long (line 0), its configuration, its script. Want of memory may come before any of them.
pub fn play<R: Read, W: Write>(
    alloc: Global,
    reader: &mut R,
    writer: &mut W,
) -> Result<Played, PlayFault>
    // What is written is the printed form of what the steps show, and the counts are theirs.
    ensures written { IfOk result (λ played. IfSome (R.remaining reader.old) (λ input.
        PlaysInto (judged input) played.commands played.refused (W.contents writer.old)
        (W.contents writer.new))) }
    // A fault of the configuration or of the script is the input's first.
    ensures explained { IfErr result
        (λ fault. IfSome (R.remaining reader.old) (λ input. Explains fault (judged input))) }
    // Whatever fails but the writing itself, nothing was written.
    ensures nothing_written { IfErr result
        (λ fault. fault ≢ PlayFault.Write → writer.new ≡ writer.old) }
{
    let input = read_limited(alloc, reader)?;
    match play_input(alloc, &input, writer) {
        Ok(played) => Ok(played),
        Err(fault) => Err(fault),
    }
}

/// Plays the input as `play` does, over two UDP sockets of this host: each datagram of the script goes from the call agent's
/// to the gateway's, which has this port, or any free one where it is 0, and each that the gateway sends goes back before it
/// is printed. The clock is the script's, and so are the addresses.
///
/// What is written is what `play` writes. Its faults come in the same order; that a socket can't be bound comes behind the
/// script's. A socket that gives nothing for 1,000 ms is a fault.
pub fn carry<H: AllocGlobal + Net, R: Read, W: Write>(
    rt: &H,
    reader: &mut R,
    writer: &mut W,
    port: u16,
) -> Result<Played, LinkFault<WireFault>>
    ensures written { IfOk result (λ played. IfSome (R.remaining reader.old) (λ input.
        PlaysInto (judged input) played.commands played.refused (W.contents writer.old)
        (W.contents writer.new))) }
    ensures explained { IfErr result
        (λ fault. IfSome (R.remaining reader.old) (λ input. ExplainsLink fault (judged input))) }
    ensures nothing_written { IfErr result
        (λ fault. fault ≢ LinkFault.Play PlayFault.Write → writer.new ≡ writer.old) }
{
    let input = match read_limited(rt.alloc(), reader) {
        Ok(input) => input,
        Err(fault) => return Err(LinkFault::Play(fault)),
    };
    match carry_input(rt, &input, writer, port) {
        Ok(played) => Ok(played),
        Err(fault) => Err(fault),
    }
}
