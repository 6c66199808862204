//! Judges an input: its gateway and its steps, or its first fault.
ghost use Rattle.std.specs.Prelude.{◌≡◌, ◌≢◌, List, [], Ok, ℕ, Result, IfOk, IfErr};
ghost use Rattle.gateway_core.specs.Stands.{Stands};
ghost use Rattle.rgw_scripts.specs.declared.step.ScriptStep.{ScriptStep};
ghost use Rattle.rgw_scripts.specs.Configuration.{config_in};
ghost use Rattle.rgw_scripts.specs.Play.{scene_of, configured, judged, Explains};

use gateway_config::{BAD_TOML, read_config};
use gateway_core::{ConfigFault, Gateway};
use rgw_scripts::{PlayFault, ScriptFault, ScriptStep, is_too_long, parts_of, read_script};
use std::alloc::Global;

/// What there is to play: a gateway that nothing came to yet, and steps.
#[derive(Drop)]
pub struct Scene {
    pub gateway: Gateway,
    pub steps: Vec<ScriptStep>,
}

// The gateway of a configuration's text.
fn gateway_of(alloc: Global, text: &[u8]) -> Result<Gateway, PlayFault>
    ensures ok { IfOk result
        (λ gateway. (steps : Result (List ScriptStep) ℕ) →
        configured (config_in text.now) steps ≡ scene_of gateway.setup steps) }
    ensures opened { IfOk result (λ gateway. Stands gateway []) }
    ensures err { IfErr result
        (λ fault. (steps : Result (List ScriptStep) ℕ) →
        Explains fault (configured (config_in text.now) steps)) }
    ensures no_stream { IfErr result (λ fault. (fault ≢ PlayFault.Read) × (fault ≢ PlayFault.Write)) }
{
    let Some(config) = read_config(alloc, text)? else {
        return Err(PlayFault::Config { number: BAD_TOML });
    };
    match Gateway::new(alloc, config) {
        Ok(gateway) => Ok(gateway),
        Err(ConfigFault::OutOfMemory) => Err(PlayFault::OutOfMemory),
        Err(fault) => Err(PlayFault::Config {
            number: fault.number(),
        }),
    }
}

/// What there is to play of an input, or its first fault.
pub fn judge(alloc: Global, input: &[u8]) -> Result<Scene, PlayFault>
    ensures scene { IfOk result
        (λ scene. judged input.now
        ≡ Ok (record { setup = scene.gateway.setup; steps = scene.steps.items })) }
    ensures opened { IfOk result (λ scene. Stands scene.gateway []) }
    ensures err { IfErr result (λ fault. Explains fault (judged input.now)) }
    ensures no_stream { IfErr result (λ fault. (fault ≢ PlayFault.Read) × (fault ≢ PlayFault.Write)) }
{
    if is_too_long(input) {
        return Err(PlayFault::Script { line: 0 });
    }
    let parts = parts_of(input);
    let gateway = match gateway_of(alloc, parts.config) {
        Ok(gateway) => gateway,
        Err(fault) => return Err(fault),
    };
    match read_script(alloc, parts.script) {
        Ok(steps) => Ok(Scene { gateway, steps }),
        Err(ScriptFault::OutOfMemory) => Err(PlayFault::OutOfMemory),
        Err(ScriptFault::BadLine { line }) => Err(PlayFault::Script { line }),
    }
}
