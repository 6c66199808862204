//! Reads the configuration of a call agent from TOML.
use crate::config_fault::{
    ConfigRefusal, LONGEST_NUMBER, MOST_GATEWAYS, MOST_NUMBERS, Place, ValueFault, miscounted,
    misnamed, missing, refused, told, unknown,
};
use crate::text::copied;
use digit_map::{MapFault, read_map};
use endpoint_names::is_domain;
use mg_bytes::{Draft, OutOfMemory, Text};
use std::alloc::{AllocError, Global};
use std::collections::BTreeMap;
use std::net::{Ipv4Addr, SocketAddrV4};
use toml::de::Error;
use toml::{Table, Value};
use toml_places::{
    Places, Told, line_at, put_nearest, put_toml_fault, replaced, toml_fault, written,
};

const KEYS: [&str; 3] = ["own", "digit_map", "gateways"];

const GATEWAY_KEYS: [&str; 3] = ["address", "numbers", "phones"];

/// A gateway that a call agent works with.
pub struct GatewayConfig {
    /// What stands behind the `@` of its endpoints' names.
    pub domain: Text,
    pub address: SocketAddrV4,
    /// The address at which its telephones are worked and watched, where that is known.
    pub phones: Option<SocketAddrV4>,
    /// The number of each of its lines, in their order.
    pub numbers: Vec<Text>,
}

// Written out: a derived drop, and those of all its parts, are proved anew by each crate that lets one go.
impl Drop for GatewayConfig {
    fn drop(self) {
        let GatewayConfig {
            domain,
            address: _,
            phones: _,
            numbers,
        } = self;
        drop(domain);
        drop(numbers);
    }
}

/// What a call agent is configured to be.
pub struct AgentConfig {
    /// Its own address, as gateways know it.
    pub own: SocketAddrV4,
    /// By which numbers are dialled.
    pub map: Option<Text>,
    pub gateways: Vec<GatewayConfig>,
}

// Written out: a derived drop, and those of all its parts, are proved anew by each crate that lets one go.
impl Drop for AgentConfig {
    fn drop(self) {
        let AgentConfig {
            own: _,
            map,
            gateways,
        } = self;
        drop(map);
        drop(gateways);
    }
}

// The numbers so far, of all gateways.
type Numbers = BTreeMap<String, bool>;

// Whether a key is one of these.
fn is_among(known: &[&str], name: &str) -> bool {
    for key in known {
        if *key == name {
            return true;
        }
    }
    false
}

// A key of the agent's own.
fn own_key(key: &str) -> Place<'_> {
    Place { gateway: None, key }
}

// A key of the gateway with this domain.
fn key_of<'a>(domain: &'a str, key: &'a str) -> Place<'a> {
    Place {
        gateway: Some(domain),
        key,
    }
}

// The address that a value is; none with port 0.
fn address_in(value: Option<&Value>) -> Option<SocketAddrV4> {
    let address = value?.as_str()?.parse::<SocketAddrV4>().ok()?;
    if address.port() > 0 {
        Some(address)
    } else {
        None
    }
}

fn is_key(byte: u8) -> bool {
    matches!(byte, b'0'..=b'9' | b'A'..=b'D' | b'*' | b'#')
}

fn are_keys(text: &[u8]) -> bool {
    for key in text {
        if !is_key(*key) {
            return false;
        }
    }
    true
}

// The number that a value is.
fn number_in(value: &Value) -> Option<&str> {
    let number = value.as_str()?;
    let is_short = !number.is_empty() && number.len() <= LONGEST_NUMBER;
    if is_short && are_keys(number.as_bytes()) {
        Some(number)
    } else {
        None
    }
}

// A number is put behind those of its gateway: whether it is new.
fn put_number(
    alloc: Global,
    seen: &mut Numbers,
    numbers: &mut Vec<Text>,
    number: &str,
) -> Result<bool, AllocError> {
    let before = seen.insert(String::from_str(alloc, number)?, true)?;
    numbers.push(copied(alloc, number.as_bytes())?)?;
    Ok(before.is_none())
}

// Whether one of these gateways has this address.
fn has_address(gateways: &[GatewayConfig], address: SocketAddrV4) -> bool {
    for other in gateways {
        if other.address == address {
            return true;
        }
    }
    false
}

// What a value is of which its kind is told: as it is written, where that is one piece.
fn seen(alloc: Global, value: &Value) -> Result<Option<String>, OutOfMemory> {
    match value {
        Value::Integer(_) | Value::Float(_) | Value::Boolean(_) | Value::Datetime(_) => Ok(Some(
            written(alloc, value)?,
        )),
        Value::String(_) | Value::Array(_) | Value::Table(_) => Ok(None),
    }
}

// A line about a value, with the value in the place of its kind.
fn with_value(alloc: Global, line: Vec<u8>, value: &Value) -> Result<Vec<u8>, OutOfMemory> {
    let Some(seen) = seen(alloc, value)? else {
        return Ok(line);
    };
    let mut kind = Draft::new(alloc);
    kind.put(b": ");
    kind.put(value.type_str().as_bytes());
    kind.put(b",");
    let kind = kind.end()?;
    let mut instead = Draft::new(alloc);
    instead.put(b": ");
    instead.put(seen.as_bytes());
    instead.put(b",");
    let instead = instead.end()?;
    let kind = std::str::from_utf8(kind.as_slice()).unwrap_or("");
    replaced(alloc, line.as_slice(), kind, instead.as_slice())
}

// What a configuration is read with: where its keys stand, the numbers so far, of all gateways, and what is told of its faults. It is read
// on behind each, so that no piece is an error.
#[derive(Drop)]
struct Reading<'t> {
    alloc: Global,
    places: Places<'t>,
    seen: Numbers,
    faults: Told,
    // Whether memory was refused.
    is_refused: bool,
}

impl Reading<'_> {
    // Notes want of memory.
    fn note<T>(&mut self, done: Result<T, OutOfMemory>) -> Option<T> {
        match done {
            Ok(done) => Some(done),
            Err(_) => {
                self.is_refused = true;
                None
            }
        }
    }

    // The line of a key, or of the table in which it is missing; none of one that is missing at the top.
    fn line_of(&mut self, place: Place<'_>) -> Option<u64> {
        let found = match (place.gateway, place.key) {
            (None, key) => self.places.line_of(self.alloc, &[key]),
            (Some(domain), "") => self.places.line_of(self.alloc, &["gateways", domain]),
            (Some(domain), key) => self.places.line_of(self.alloc, &["gateways", domain, key]),
        };
        match self.note(found) {
            Some(line) => line,
            None => None,
        }
    }

    // It has a fault in this line, where that stands in one.
    fn tell(&mut self, line: Option<u64>, words: &[u8]) {
        let told = self.faults.tell(line, words);
        if told.is_err() {
            self.is_refused = true;
        }
    }

    // It has a fault at a key.
    fn refuse(&mut self, place: Place<'_>, refusal: ConfigRefusal) {
        if self.faults.is_full() {
            return;
        }
        let line = self.line_of(place);
        match refusal {
            ConfigRefusal::OutOfMemory => self.is_refused = true,
            ConfigRefusal::Told { line: words } => self.tell(line, words.as_slice()),
        }
    }

    // What stands at a key may not.
    fn refuse_there(&mut self, place: Place<'_>, value: &Value, fault: ValueFault) {
        if self.faults.is_full() {
            return;
        }
        let words = match refused(self.alloc, place, Some(value), fault) {
            ConfigRefusal::OutOfMemory => Err(AllocError),
            ConfigRefusal::Told { line } => with_value(self.alloc, line, value),
        };
        let line = self.line_of(place);
        if let Some(words) = self.note(words) {
            self.tell(line, words.as_slice());
        }
    }

    // What stands at a key may not, or nothing stands there.
    fn refuse_value(&mut self, place: Place<'_>, value: Option<&Value>, fault: ValueFault) {
        match value {
            Some(value) => self.refuse_there(place, value, fault),
            None => self.refuse(place, missing(self.alloc, place)),
        }
    }

    // So many may not stand at a key.
    fn refuse_count(&mut self, place: Place<'_>, count: usize, fault: ValueFault) {
        let refusal = miscounted(self.alloc, place, count, fault);
        self.refuse(place, refusal);
    }

    // The line of a key that isn't one of these.
    fn unknown_line(&self, place: Place<'_>, known: &[&str]) -> Result<Vec<u8>, OutOfMemory> {
        let mut line = Draft::new(self.alloc);
        match unknown(self.alloc, place) {
            ConfigRefusal::OutOfMemory => return Err(AllocError),
            ConfigRefusal::Told { line: words } => line.put(words.as_slice()),
        }
        put_nearest(self.alloc, &mut line, place.key, known)?;
        line.end()
    }

    // The keys of a table that aren't among these; of a gateway's, where a domain is there.
    fn refuse_others(&mut self, table: &Table, gateway: Option<&str>, known: &[&str]) {
        for (name, _value) in table.iter() {
            if self.faults.is_full() {
                break;
            }
            let key = name.as_str();
            if is_among(known, key) {
                continue;
            }
            let place = Place { gateway, key };
            let words = self.unknown_line(place, known);
            let line = self.line_of(place);
            if let Some(words) = self.note(words) {
                self.tell(line, words.as_slice());
            }
        }
    }

    // A text; an empty one where memory is refused for it.
    fn text(&mut self, bytes: &[u8]) -> Text {
        match copied(self.alloc, bytes) {
            Ok(text) => text,
            Err(_) => {
                self.is_refused = true;
                Text::of(Vec::new(self.alloc))
            }
        }
    }

    // The address at a key; any where none stands there.
    fn address(&mut self, table: &Table, place: Place<'_>) -> SocketAddrV4 {
        let value = table.get(place.key);
        match address_in(value) {
            Some(address) => address,
            None => {
                self.refuse_value(place, value, ValueFault::NoAddress);
                SocketAddrV4::new(Ipv4Addr::UNSPECIFIED, 0)
            }
        }
    }

    // The address at a key, where that is there.
    fn address_if(&mut self, table: &Table, place: Place<'_>) -> Option<SocketAddrV4> {
        if table.get(place.key).is_none() {
            return None;
        }
        Some(self.address(table, place))
    }

    // The digit map, where there is one; it is missing there where calls are to be routed and there is none.
    fn map(&mut self, table: &Table, is_routed: bool) -> Option<Text> {
        let Some(value) = table.get("digit_map") else {
            if is_routed {
                self.refuse_value(own_key("digit_map"), None, ValueFault::NoDigitMap);
            }
            return None;
        };
        let text = value.as_str().unwrap_or("").as_bytes();
        match read_map(self.alloc, text) {
            Ok(_) => {}
            Err(MapFault::OutOfMemory) => self.is_refused = true,
            Err(_) => self.refuse_value(own_key("digit_map"), Some(value), ValueFault::NoDigitMap),
        }
        Some(self.text(text))
    }

    // The number that this value is to be is put behind those of its gateway. No other line has it.
    fn take_number(&mut self, numbers: &mut Vec<Text>, place: Place<'_>, value: &Value) {
        let Some(number) = number_in(value) else {
            return self.refuse_value(place, Some(value), ValueFault::NoNumber);
        };
        match put_number(self.alloc, &mut self.seen, numbers, number) {
            Ok(true) => {}
            Ok(false) => self.refuse_value(place, Some(value), ValueFault::Twice),
            Err(_) => self.is_refused = true,
        }
    }

    // The numbers of a gateway's lines.
    fn numbers(&mut self, place: Place<'_>, values: &[Value]) -> Vec<Text> {
        let mut numbers = Vec::new(self.alloc);
        for value in values {
            self.take_number(&mut numbers, place, value);
        }
        if numbers.is_empty() || numbers.len() > MOST_NUMBERS {
            self.refuse_count(place, numbers.len(), ValueFault::NoNumbers);
        }
        numbers
    }

    // The numbers at a key in the table of a gateway.
    fn numbers_at(&mut self, table: &Table, place: Place<'_>) -> Vec<Text> {
        let value = table.get(place.key);
        let values = match value {
            Some(value) => value.as_array(),
            None => None,
        };
        match values {
            Some(values) => self.numbers(place, values.as_slice()),
            None => {
                self.refuse_value(place, value, ValueFault::NoNumbers);
                Vec::new(self.alloc)
            }
        }
    }

    // The gateway with this domain, whose table this is.
    fn gateway(&mut self, domain: &str, table: &Table) -> GatewayConfig {
        if !is_domain(domain.as_bytes()) {
            let refusal = misnamed(self.alloc, key_of(domain, ""), ValueFault::NoDomain);
            self.refuse(key_of(domain, ""), refusal);
        }
        self.refuse_others(table, Some(domain), &GATEWAY_KEYS);
        GatewayConfig {
            domain: self.text(domain.as_bytes()),
            address: self.address(table, key_of(domain, "address")),
            phones: self.address_if(table, key_of(domain, "phones")),
            numbers: self.numbers_at(table, key_of(domain, "numbers")),
        }
    }

    // The gateway with this domain, which this value is to be, is put behind the others. No other one has its address.
    fn put_gateway(&mut self, gateways: &mut Vec<GatewayConfig>, domain: &str, value: &Value) {
        let Some(table) = value.as_table() else {
            return self.refuse_value(key_of(domain, ""), Some(value), ValueFault::NoGateway);
        };
        let gateway = self.gateway(domain, table);
        if has_address(gateways.as_slice(), gateway.address) {
            let place = key_of(domain, "address");
            self.refuse_value(place, table.get("address"), ValueFault::Twice);
        }
        if gateways.push(gateway).is_err() {
            self.is_refused = true;
        }
    }

    fn gateways(&mut self, table: &Table) -> Vec<GatewayConfig> {
        let mut gateways = Vec::new(self.alloc);
        for (domain, value) in table.iter() {
            self.put_gateway(&mut gateways, domain.as_str(), value);
        }
        if gateways.is_empty() || gateways.len() > MOST_GATEWAYS {
            self.refuse_count(own_key("gateways"), gateways.len(), ValueFault::NoGateways);
        }
        gateways
    }

    // The gateways at their key.
    fn gateways_at(&mut self, table: &Table) -> Vec<GatewayConfig> {
        let value = table.get("gateways");
        let gateways = match value {
            Some(value) => value.as_table(),
            None => None,
        };
        match gateways {
            Some(gateways) => self.gateways(gateways),
            None => {
                self.refuse_value(own_key("gateways"), value, ValueFault::NoGateways);
                Vec::new(self.alloc)
            }
        }
    }

    fn config(&mut self, table: &Table, is_routed: bool) -> AgentConfig {
        self.refuse_others(table, None, &KEYS);
        AgentConfig {
            own: self.address(table, own_key("own")),
            map: self.map(table, is_routed),
            gateways: self.gateways_at(table),
        }
    }
}

// Why a configuration is refused of which these faults are told.
fn refusal_of(faults: Told) -> ConfigRefusal {
    match faults.end() {
        Ok(line) => ConfigRefusal::Told { line },
        Err(_) => ConfigRefusal::OutOfMemory,
    }
}

fn config_of(
    alloc: Global,
    text: &str,
    table: &Table,
    is_routed: bool,
) -> Result<AgentConfig, ConfigRefusal> {
    let places = match Places::of(alloc, text) {
        Ok(places) => places,
        Err(_) => return Err(ConfigRefusal::OutOfMemory),
    };
    let mut reading = Reading {
        alloc,
        places,
        seen: BTreeMap::new(alloc),
        faults: Told::new(alloc),
        is_refused: false,
    };
    let config = reading.config(table, is_routed);
    let Reading {
        alloc: _,
        places,
        seen,
        faults,
        is_refused,
    } = reading;
    drop(places);
    drop(seen);
    if is_refused {
        return Err(ConfigRefusal::OutOfMemory);
    }
    if faults.is_empty() {
        Ok(config)
    } else {
        Err(refusal_of(faults))
    }
}

// What is told in one line of a text, in which it stands.
fn told_at(alloc: Global, line: u64, words: &[u8]) -> ConfigRefusal {
    let mut faults = Told::new(alloc);
    match faults.tell(Some(line), words) {
        Ok(()) => refusal_of(faults),
        Err(_) => ConfigRefusal::OutOfMemory,
    }
}

// A text is no TOML.
fn unreadable(alloc: Global, text: &str, error: &Error) -> ConfigRefusal {
    if error.is_memory() {
        return ConfigRefusal::OutOfMemory;
    }
    let Ok(fault) = toml_fault(alloc, text, error) else {
        return ConfigRefusal::OutOfMemory;
    };
    let mut words = Draft::new(alloc);
    put_toml_fault(&mut words, fault.reason, error.message());
    match told(words) {
        ConfigRefusal::OutOfMemory => ConfigRefusal::OutOfMemory,
        ConfigRefusal::Told { line } => told_at(alloc, fault.line, line.as_slice()),
    }
}

/// The configuration that a text writes, where calls are to be routed one with a digit map; or all that is wrong with it: the line, the
/// key, what stands there, and what may.
pub fn read_config(
    alloc: Global,
    text: &[u8],
    is_routed: bool,
) -> Result<AgentConfig, ConfigRefusal> {
    let words = match std::str::from_utf8(text) {
        Ok(words) => words,
        Err(fault) => return Err(told_at(alloc, line_at(text, fault.valid_up_to()), b"no UTF-8")),
    };
    match toml::table_from_str(alloc, words) {
        Ok(table) => config_of(alloc, words, &table, is_routed),
        Err(error) => Err(unreadable(alloc, words, &error)),
    }
}
