//! The bounds of numbers, as they are told.
ghost use Rattle.std.specs.Prelude.{◌≡◌};
ghost use Rattle.gateway_config.specs.Bounds.{bounds_of};

use plain_machine::{
    ConfigKey, HIGHEST_MEDIA_BASE, LONGEST_WAIT, LOWEST_MEDIA_BASE, MOST_LINES, SHORTEST_WAIT,
};

/// The least number that may stand at a key, and the greatest.
#[derive(Clone, Copy)]
pub struct Bounds {
    pub least: u32,
    pub most: u32,
}

/// The bounds of a key's number; `None` where no number stands there.
pub fn bounds_of(key: ConfigKey) -> Option<Bounds>
    ensures { result ≡ bounds_of key }
{
    match key {
        // Lines are counted from 1.
        ConfigKey::Lines => Some(Bounds {
            least: 1,
            most: MOST_LINES as u32,
        }),
        ConfigKey::RestartWait | ConfigKey::DisconnectedWait => Some(Bounds {
            least: SHORTEST_WAIT,
            most: LONGEST_WAIT,
        }),
        ConfigKey::MediaBase => Some(Bounds {
            least: LOWEST_MEDIA_BASE,
            most: HIGHEST_MEDIA_BASE,
        }),
        ConfigKey::Domain | ConfigKey::Names | ConfigKey::Agent | ConfigKey::MediaAddress => None,
    }
}
