//! What may stand at a key, judged in a configuration that is else right.
use gateway_config::{bounds_of, flaw_of, told};
use mg_bytes::{Draft, OutOfMemory};
use plain_machine::ConfigKey;
use std::alloc::Global;
use toml::Value;
use toml_places::{replaced, written};

// Of no number that TOML has more is shown.
const GREATEST: i64 = i64::MAX;

// It as it is shown.
const GREATEST_SHOWN: &str = "9,223,372,036,854,775,807";

/// The keys of a configuration.
pub(crate) const KEYS: [ConfigKey; 8] = [
    ConfigKey::Domain,
    ConfigKey::Lines,
    ConfigKey::Agent,
    ConfigKey::RestartWait,
    ConfigKey::DisconnectedWait,
    ConfigKey::MediaAddress,
    ConfigKey::MediaBase,
    ConfigKey::Names,
];

/// Their names.
pub(crate) fn key_names() -> [&'static str; 8] {
    [
        ConfigKey::Domain.name(),
        ConfigKey::Lines.name(),
        ConfigKey::Agent.name(),
        ConfigKey::RestartWait.name(),
        ConfigKey::DisconnectedWait.name(),
        ConfigKey::MediaAddress.name(),
        ConfigKey::MediaBase.name(),
        ConfigKey::Names.name(),
    ]
}

/// The key with this name.
pub(crate) fn key_called(name: &str) -> Option<ConfigKey> {
    for key in KEYS {
        if key.name() == name {
            return Some(key);
        }
    }
    None
}

// What may stand at a key.
fn usual(key: ConfigKey) -> &'static str {
    match key {
        ConfigKey::Domain => "\"a\"",
        ConfigKey::Agent => "\"[127.0.0.1]\"",
        ConfigKey::MediaAddress => "\"127.0.0.1\"",
        ConfigKey::Lines | ConfigKey::RestartWait | ConfigKey::DisconnectedWait => "1",
        ConfigKey::MediaBase => "1024",
        ConfigKey::Names => "{}",
    }
}

// A configuration that has this at a key, and these names, but is else right.
fn text_with(
    alloc: Global,
    key: ConfigKey,
    value: &str,
    names: &str,
) -> Result<Vec<u8>, OutOfMemory> {
    let mut text = Draft::new(alloc);
    for other in KEYS {
        text.put(other.name().as_bytes());
        text.put(b" = ");
        let stands = if other == key {
            value
        } else if other == ConfigKey::Names {
            names
        } else {
            usual(other)
        };
        text.put(stands.as_bytes());
        text.put(b"\n");
    }
    text.end()
}

/// What is wrong with this at a key, in words, where the names are these; nothing where it may stand there.
pub(crate) fn judged(
    alloc: Global,
    key: ConfigKey,
    value: &str,
    names: &str,
) -> Result<Option<Vec<u8>>, OutOfMemory> {
    let text = text_with(alloc, key, value, names)?;
    let Some(flaw) = flaw_of(alloc, text.as_slice())? else {
        return Ok(None);
    };
    Ok(Some(told(alloc, text.as_slice(), flaw)?))
}

/// What is wrong with a number at a key that TOML has not, shown so; `None` where no number may stand there.
pub(crate) fn judged_number(
    alloc: Global,
    key: ConfigKey,
    shown: &[u8],
) -> Result<Option<Vec<u8>>, OutOfMemory> {
    if bounds_of(key).is_none() {
        return Ok(None);
    }
    let greatest = written(alloc, &Value::Integer(GREATEST))?;
    match judged(alloc, key, greatest.as_str(), "{}")? {
        Some(words) => Ok(Some(replaced(alloc, words.as_slice(), GREATEST_SHOWN, shown)?)),
        None => Ok(None),
    }
}
