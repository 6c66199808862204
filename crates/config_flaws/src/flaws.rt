//! All flaws of a configuration.
ghost use Rattle.std.specs.Prelude.{◌≡◌, is_some, IfOk, IfSome};
ghost use Rattle.gateway_config.specs.Flaws.{flaw_of};
ghost use Rattle.config_flaws.specs.Flaws.{NamesFile};

use crate::judged::{KEYS, judged, judged_number, key_called, key_names};
use gateway_config::{Flaw, flaw_of, told as first_told};
use log_format::{write_number, write_shown};
use mg_bytes::{Draft, OutOfMemory};
use plain_machine::ConfigKey;
use std::alloc::{AllocError, Global};
use toml::de::Error;
use toml::{Table, Value};
use toml_places::{
    Dotted, Places, Reason, Told, has, line_at, named, put_nearest, put_toml_fault, replaced,
    shown, toml_fault, written,
};

// The table of names, in a path of keys.
const NAMES: &str = "names";

// What is told of hosts where one more than may be is looked at.
const TOO_MANY: &str = "65 hosts";

// What is told of an agent that no host is.
const NO_HOST: &str = ", no such host";

// What is told of a document.
#[derive(Drop)]
struct Telling<'t> {
    alloc: Global,
    table: &'t Table,
    places: Places<'t>,
    // The hosts that may stand among the names so far, and in the place of one that may not, another address.
    hosts: Value,
    told: Told,
}

// The names of a document, where these are a table.
fn names_of(table: &Table) -> Option<&Table> {
    match table.get(NAMES) {
        Some(names) => names.as_table(),
        None => None,
    }
}

// What is told of the kind of a value of which more is seen as it is written.
fn kind_told(value: &Value) -> Option<&'static str> {
    match value {
        Value::Float(_) => Some("a float"),
        Value::Datetime(_) => Some("a datetime"),
        Value::String(_)
        | Value::Integer(_)
        | Value::Boolean(_)
        | Value::Array(_)
        | Value::Table(_) => None,
    }
}

// Whether a name stands first in one with dots.
fn is_first(dotted: &Dotted, name: &str) -> bool {
    match dotted.name.as_slice().strip_prefix(name.as_bytes()) {
        Some([b'.', ..]) => true,
        _ => false,
    }
}

fn is_among(dotted: &[Dotted], name: &str) -> bool {
    for other in dotted {
        if is_first(other, name) {
            return true;
        }
    }
    false
}

impl Telling<'_> {
    // Tells what these words say of the value of a key of these names.
    fn tell_value(
        &mut self,
        names: &[&str],
        value: &Value,
        words: &[u8],
    ) -> Result<(), OutOfMemory> {
        let line = self.places.line_of(self.alloc, names)?;
        let (Some(kind), Some(written)) = (
            kind_told(value),
            self.places.written_at(self.alloc, names)?,
        ) else {
            return self.told.tell(line, words);
        };
        let seen = shown(self.alloc, written)?;
        let words = replaced(self.alloc, words, kind, seen.as_slice())?;
        self.told.tell(line, words.as_slice())
    }

    // Whether a key stands among the names that is missing at the top.
    fn is_misplaced(&self, name: &str) -> bool {
        key_called(name).is_some() && self.table.get(name).is_none()
    }

    // Puts a host among those that may stand there.
    fn put_host(&mut self, name: &str, value: Value) -> Result<(), OutOfMemory> {
        let name = String::from_str(self.alloc, name)?;
        if let Some(hosts) = self.hosts.as_table_mut() {
            drop(hosts.insert(name, value)?);
        }
        Ok(())
    }

    fn drop_host(&mut self, name: &str) {
        if let Some(hosts) = self.hosts.as_table_mut() {
            drop(hosts.remove(name));
        }
    }

    // What is wrong with the hosts so far.
    fn hosts_flaw(&self) -> Result<Option<Vec<u8>>, OutOfMemory> {
        let hosts = written(self.alloc, &self.hosts)?;
        judged(self.alloc, ConfigKey::Names, hosts.as_str(), "{}")
    }

    // Puts a host with any address, so that an agent may name it, where its name may stand there.
    fn put_named(&mut self, name: &str) -> Result<(), OutOfMemory> {
        self.put_host(name, Value::string(self.alloc, "127.0.0.1")?)?;
        if self.hosts_flaw()?.is_some() {
            self.drop_host(name);
        }
        Ok(())
    }

    // Tells that there are more hosts than may be.
    fn tell_count(&mut self, count: usize, words: &[u8]) -> Result<(), OutOfMemory> {
        let mut number = Draft::new(self.alloc);
        write_number(&mut number, count as u64);
        number.put(b" hosts");
        let number = number.end()?;
        let words = replaced(self.alloc, words, TOO_MANY, number.as_slice())?;
        let line = self.places.line_of(self.alloc, &[NAMES])?;
        self.told.tell(line, words.as_slice())
    }

    // Tells what is wrong with a host, of so many: whether others may stand behind it.
    fn tell_host(&mut self, count: usize, name: &str, value: &Value) -> Result<bool, OutOfMemory> {
        self.put_host(name, value.clone()?)?;
        let Some(words) = self.hosts_flaw()? else {
            return Ok(true);
        };
        self.drop_host(name);
        if has(words.as_slice(), TOO_MANY) {
            self.tell_count(count, words.as_slice())?;
            return Ok(false);
        }
        self.tell_value(&[NAMES, name], value, words.as_slice())?;
        self.put_named(name)?;
        Ok(true)
    }

    // Tells names with dots that lack their quotes.
    fn tell_dotted(&mut self, dotted: &[Dotted]) -> Result<(), OutOfMemory> {
        for other in dotted {
            if self.told.is_full() {
                break;
            }
            let mut words = Draft::new(self.alloc);
            words.put(b"names: ");
            write_shown(&mut words, other.name.as_slice());
            words.put(b", quote it: \"");
            write_shown(&mut words, other.name.as_slice());
            words.put(b"\"");
            let words = words.end()?;
            self.told.tell(Some(other.line), words.as_slice())?;
            if let Ok(name) = std::str::from_utf8(other.name.as_slice()) {
                self.put_named(name)?;
            }
        }
        Ok(())
    }

    // Tells what is wrong with each host.
    fn tell_hosts(&mut self, hosts: &Table) -> Result<(), OutOfMemory> {
        let dotted = self.places.dotted_below(self.alloc, NAMES)?;
        self.tell_dotted(dotted.as_slice())?;
        for (name, value) in hosts.iter() {
            let name = name.as_str();
            if self.told.is_full() {
                break;
            }
            if self.is_misplaced(name) || (value.is_table() && is_among(dotted.as_slice(), name)) {
                continue;
            }
            if !self.tell_host(hosts.len(), name, value)? {
                break;
            }
        }
        Ok(())
    }

    // Tells what is wrong with the value of a key that no host is.
    fn tell_key(
        &mut self,
        names: &[&str],
        key: ConfigKey,
        value: &Value,
    ) -> Result<(), OutOfMemory> {
        let hosts = written(self.alloc, &self.hosts)?;
        let value_written = written(self.alloc, value)?;
        let Some(words) = judged(self.alloc, key, value_written.as_str(), hosts.as_str())? else {
            return Ok(());
        };
        // Where there is no table of names that alone is told.
        if has(words.as_slice(), NO_HOST) && names_of(self.table).is_none() {
            return Ok(());
        }
        self.tell_value(names, value, words.as_slice())
    }

    // Tells that a key stands among the names, or else that it is missing.
    fn tell_missing(&mut self, key: ConfigKey) -> Result<(), OutOfMemory> {
        let mut words = Draft::new(self.alloc);
        let value = match names_of(self.table) {
            Some(hosts) => hosts.get(key.name()),
            None => None,
        };
        let Some(value) = value else {
            words.put(b"missing: ");
            words.put(key.name().as_bytes());
            let words = words.end()?;
            return self.told.tell(None, words.as_slice());
        };
        words.put(key.name().as_bytes());
        words.put(b": stands under [names], wanted above that");
        let words = words.end()?;
        let path = [NAMES, key.name()];
        let line = self.places.line_of(self.alloc, &path)?;
        self.told.tell(line, words.as_slice())?;
        self.tell_key(&path, key, value)
    }

    // Tells that there is no such key.
    fn tell_unknown(&mut self, name: &str) -> Result<(), OutOfMemory> {
        let mut words = Draft::new(self.alloc);
        words.put(b"unknown key \"");
        write_shown(&mut words, name.as_bytes());
        words.put(b"\"");
        put_nearest(self.alloc, &mut words, name, &key_names())?;
        let words = words.end()?;
        let line = self.places.line_of(self.alloc, &[name])?;
        self.told.tell(line, words.as_slice())
    }

    // Tells the keys that no configuration has.
    fn tell_others(&mut self) -> Result<(), OutOfMemory> {
        let table = self.table;
        for (name, _value) in table.iter() {
            if self.told.is_full() {
                break;
            }
            if key_called(name.as_str()).is_none() {
                self.tell_unknown(name.as_str())?;
            }
        }
        Ok(())
    }

    // Tells all of its flaws.
    fn tell_all(&mut self) -> Result<(), OutOfMemory> {
        let table = self.table;
        if let Some(hosts) = names_of(table) {
            self.tell_hosts(hosts)?;
        }
        for key in KEYS {
            match table.get(key.name()) {
                Some(value) => {
                    if !(key == ConfigKey::Names && value.is_table()) {
                        self.tell_key(&[key.name()], key, value)?;
                    }
                }
                None => self.tell_missing(key)?,
            }
        }
        self.tell_others()
    }
}

// Tells all flaws of a document.
fn tell_document(
    alloc: Global,
    text: &str,
    table: &Table,
    told: Told,
) -> Result<Told, OutOfMemory> {
    let places = Places::of(alloc, text)?;
    let mut telling = Telling {
        alloc,
        table,
        places,
        hosts: Value::Table(Table::new(alloc)),
        told,
    };
    telling.tell_all()?;
    let Telling {
        alloc: _,
        table: _,
        places,
        hosts,
        told,
    } = telling;
    drop(places);
    drop(hosts);
    Ok(told)
}

// What may stand at the key of a fault, in words, where a number may.
fn number_words(alloc: Global, reason: Reason<'_>) -> Result<Option<Vec<u8>>, OutOfMemory> {
    let (key, value, is_top) = match reason {
        Reason::Number { key, value, is_top } | Reason::Unquoted { key, value, is_top } => (
            key, value, is_top,
        ),
        Reason::Twice { .. } | Reason::Other => return Ok(None),
    };
    match key_called(std::str::from_utf8(key).unwrap_or("")) {
        Some(key) if is_top => judged_number(alloc, key, shown(alloc, value)?.as_slice()),
        _ => Ok(None),
    }
}

// Why a text isn't TOML, in words.
fn toml_words(alloc: Global, reason: Reason<'_>, error: &Error) -> Result<Vec<u8>, OutOfMemory> {
    if let Some(words) = number_words(alloc, reason)? {
        return Ok(words);
    }
    let mut words = Draft::new(alloc);
    put_toml_fault(&mut words, reason, error.message());
    words.end()
}

// Tells why a text isn't TOML.
fn tell_toml(alloc: Global, text: &str, error: &Error, told: &mut Told) -> Result<(), OutOfMemory> {
    let fault = toml_fault(alloc, text, error)?;
    let words = toml_words(alloc, fault.reason, error)?;
    told.tell(Some(fault.line), words.as_slice())
}

// Tells all flaws of a text in UTF-8.
fn tell_text(alloc: Global, text: &str, told: Told) -> Result<Told, OutOfMemory> {
    let mut told = told;
    match toml::table_from_str(alloc, text) {
        Ok(table) => tell_document(alloc, text, &table, told),
        Err(error) if error.is_memory() => Err(AllocError),
        Err(error) => {
            tell_toml(alloc, text, &error, &mut told)?;
            Ok(told)
        }
    }
}

// Tells all flaws of a text that has this one.
fn tell_flaws(alloc: Global, text: &[u8], flaw: Flaw) -> Result<Told, OutOfMemory> {
    let mut told = Told::new(alloc);
    if let Flaw::TooLong = flaw {
        return Ok(told);
    }
    match std::str::from_utf8(text) {
        Ok(text) => tell_text(alloc, text, told),
        Err(fault) => {
            told.tell(Some(line_at(text, fault.valid_up_to())), b"no UTF-8")?;
            Ok(told)
        }
    }
}

// The lines that tell all flaws of a text that has this one.
fn flaw_lines(alloc: Global, text: &[u8], flaw: Flaw) -> Result<Vec<u8>, OutOfMemory> {
    let told = tell_flaws(alloc, text, flaw)?;
    if told.is_empty() {
        return first_told(alloc, text, flaw);
    }
    told.end()
}

/// What is said of all flaws that the configuration in this file with this text has, if it has one: lines that name the file. Its only error
/// is want of memory.
pub fn flaws_text(alloc: Global, file: &str, text: &[u8]) -> Result<Option<Vec<u8>>, OutOfMemory>
    ensures flawed { IfOk result (λ said. is_some said ≡ is_some (flaw_of text.now)) }
    ensures named { IfOk result (λ said. IfSome said (λ lines. NamesFile file.now lines.items)) }
{
    let Some(flaw) = flaw_of(alloc, text)? else {
        return Ok(None);
    };
    let lines = flaw_lines(alloc, text, flaw)?;
    let lines = named(alloc, file, lines.as_slice())?;
    let mut said = Draft::new(alloc);
    said.put(file.as_bytes());
    said.put(b": ");
    said.put(lines.as_slice());
    said.put(b"\n");
    Ok(Some(said.end()?))
}
