//! Calls about names: of endpoints, of hosts and of call agents.
use crate::texts::are_same;
use crate::values::numbered;
use endpoint_names::{
    NameFault, Pattern, Route, Table, TableFault, is_domain, matches, read_entity, read_name,
    write_name,
};
use scenario_files::Outcome;
use std::fmt::Display;
use std::net::Ipv4Addr;

/// The domain of the endpoints.
pub const DOMAIN: &[u8] = b"rgw.example.net";

/// Puts the endpoints that a name means.
pub fn put_pattern(given: &mut Outcome, pattern: Pattern) {
    match pattern {
        Pattern::One(line) => given.put_behind(b"line ", line),
        Pattern::All => given.put(b"all lines"),
        Pattern::Any => given.put(b"any line"),
    }
}

fn put_fault(given: &mut Outcome, fault: NameFault) {
    given.put_shown(fault as u8);
    given.put(match fault {
        NameFault::Unknown => b" unknown".as_slice(),
        NameFault::TooComplicated => b" too complicated".as_slice(),
    });
}

// What a name means on a gateway with so many lines.
fn put_meaning(given: &mut Outcome, name: &[u8], lines: u16) {
    match read_name(name, DOMAIN, lines) {
        Ok(pattern) => put_pattern(given, pattern),
        Err(fault) => put_fault(given, fault),
    }
}

// The name that is written of what a name means.
fn put_written(given: &mut Outcome, name: &[u8]) {
    match read_name(name, DOMAIN, 65535) {
        Ok(pattern) => given.put_text(write_name(given.alloc, pattern, DOMAIN)),
        Err(fault) => put_fault(given, fault),
    }
}

// Two addresses with a comma between them.
fn put_two<A: Display + Copy>(given: &mut Outcome, one: A, other: A) {
    given.put_shown(one);
    given.put_behind(b",", other);
}

// The addresses of a route, with commas between them, or `none`.
fn put_route<A: Display + Copy>(given: &mut Outcome, route: Option<Route<A>>) {
    match route {
        None => given.put(b"none"),
        Some(Route::One(a)) => given.put_shown(a),
        Some(Route::Two(a, b)) => put_two(given, a, b),
        Some(Route::Three(a, b, c)) => {
            put_two(given, a, b);
            given.put_behind(b",", c);
        }
        Some(Route::Four(a, b, c, d)) => {
            put_two(given, a, b);
            given.put(b",");
            put_two(given, c, d);
        }
    }
}

// The address 127.0.0.n.
fn local(host: u8) -> Ipv4Addr {
    Ipv4Addr::new(127, 0, 0, host)
}

/// The route to 127.0.0.1 and those after it, so many in all.
pub fn route_to(hosts: u32) -> Route<Ipv4Addr> {
    match hosts {
        2 => Route::Two(local(1), local(2)),
        3 => Route::Three(local(1), local(2), local(3)),
        4 => Route::Four(local(1), local(2), local(3), local(4)),
        _ => Route::One(local(1)),
    }
}

// Puts so many hosts into a table: `h00` at 127.0.0.0, `h01` at 127.0.0.1, and so on.
fn add_hosts(given: &mut Outcome, table: &mut Table, count: u16) {
    for place in 0..count {
        let Ok(name) = format!(in given.alloc; "h{place:02}") else {
            return given.refuse();
        };
        let [_, octet] = place.to_be_bytes();
        if table
            .add(name.as_bytes(), Route::One(local(octet)))
            .is_err()
        {
            return given.unread();
        }
    }
}

// What becomes of a host that is added to a table.
fn put_added(given: &mut Outcome, table: &mut Table, name: &[u8]) {
    let Err(fault) = table.add(name, Route::One(Ipv4Addr::LOCALHOST)) else {
        return given.put(b"taken");
    };
    given.put_shown(fault as u8);
    given.put(match fault {
        TableFault::NotADomain => b" no domain".as_slice(),
        TableFault::Twice => b" twice".as_slice(),
        TableFault::Full => b" full".as_slice(),
    });
}

// What a call gives of a host's name and a table of so many hosts.
fn put_of_host(given: &mut Outcome, call: &str, name: &[u8], count: u16) {
    let mut table = Table::new();
    add_hosts(given, &mut table, count);
    match call {
        "host added to" => put_added(given, &mut table, name),
        _ => put_route(given, table.route_to(name)),
    }
}

// Where the entity is that a text names, where ca.example.net has so many addresses; there is no host where that is 0.
fn put_place(given: &mut Outcome, text: &[u8], hosts: u16) {
    let mut table = Table::new();
    if hosts > 0
        && table
            .add(b"ca.example.net", route_to(u32::from(hosts)))
            .is_err()
    {
        return given.unread();
    }
    match read_entity(text, &table) {
        Some(entity) if !are_same(entity.text.as_bytes(), text) => given.put(b"another text"),
        Some(entity) => put_route(given, Some(entity.route)),
        None => given.put(b"none"),
    }
}

/// Puts what a call gives; no where there is no such call here.
pub fn put_answer(given: &mut Outcome, call: &str, value: &[u8]) -> bool {
    let (call, number) = numbered(call);
    match call {
        "name of" => put_meaning(given, value, number),
        "written name" => put_written(given, value),
        "means line" => given.put_judged(match read_name(value, DOMAIN, 65535) {
            Ok(pattern) => matches(pattern, number),
            Err(_) => false,
        }),
        "domain" => given.put_judged(is_domain(value)),
        "host added to" | "host among" => put_of_host(given, call, value, number),
        "entity" => put_place(given, value, 1),
        "entity at" => put_place(given, value, number),
        "entity without hosts" => put_place(given, value, 0),
        _ => return false,
    }
    true
}
