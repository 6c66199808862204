//! What is wrong with the hosts of a configuration.
ghost use Rattle.std.specs.Prelude.{◌≡◌, ◌++◌, [], option_map};
ghost use Rattle.toml.specs.View.{table_view, view};
ghost use Rattle.rgw_scripts.specs.Configuration.{count_of};
ghost use Rattle.gateway_config.specs.NamesWording.{unread_host, refused_host, unread_told, refused_told, refusal_by, hosts_told, names_told};

use crate::pieces::{put, put_text, put_value};
use crate::settings::{key_count, route_in};
use crate::wording::put_domain_wanted;
use endpoint_names::{MOST_ADDRESSES, MOST_HOSTS, TableFault};
use log_format::write_number;
use mg_bytes::Draft;
use toml::{Table, Value};

// The first host whose value gives no addresses.
#[tactic(auto, unfolding(crate::specs::NamesWording::unread_host))]
fn first_unread(hosts: &Table) -> Option<(&str, &Value)>
    ensures { option_map (λ host. (host.0.now, view host.1.now)) result ≡ unread_host (table_view hosts.now) }
{
    for (name, value) in hosts.iter() {
        let Some(_route) = route_in(value) else {
            return Some((name.as_str(), value));
        };
    }
    None
}

// The first host that a gateway can't take, behind those before it, and why.
#[tactic(auto, unfolding(crate::specs::NamesWording::refused_host))]
fn first_refused(hosts: &Table) -> Option<(&str, TableFault)>
    ensures { option_map (λ host. (host.0.now, host.1)) result ≡ refused_host [] (table_view hosts.now) }
{
    let mut taken = endpoint_names::Table::new();
    for (name, value) in hosts.iter() {
        let name = name.as_str();
        let route = route_in(value)?;
        match taken.add(name.as_bytes(), route) {
            Ok(()) => {}
            Err(fault) => return Some((name, fault)),
        }
    }
    None
}

// Puts a host with what stands in the place of its addresses, and what may.
fn put_unread(out: &mut Draft, name: &str, value: &Value)
    ensures { out.new ≡ out.old ++ unread_told name.now (view value.now) }
{
    put_text(out, name, false);
    put(out, " = ");
    put_value(out, value, true);
    put(
        out,
        ", wanted an IPv4 address, as \"10.0.0.7\", or a list of 1 to ",
    );
    write_number(out, MOST_ADDRESSES as u64);
}

// Puts why a gateway can't take a host of so many.
fn put_refused(out: &mut Draft, count: usize, name: &str, fault: TableFault)
    ensures { out.new ≡ out.old ++ refused_told count name.now fault }
{
    match fault {
        TableFault::NotADomain => {
            put_text(out, name, false);
            put(out, ", wanted ");
            put_domain_wanted(out);
        }
        TableFault::Twice => {
            put_text(out, name, false);
            put(out, " stands twice");
        }
        TableFault::Full => {
            write_number(out, count as u64);
            put(out, " hosts, wanted at most ");
            write_number(out, MOST_HOSTS as u64);
        }
    }
}

// Puts why a gateway can't take hosts that can be read.
fn put_refusal(out: &mut Draft, hosts: &Table)
    ensures { out.new ≡ out.old
        ++ refusal_by (refused_host [] (table_view hosts.now)) (count_of (table_view hosts.now)) }
{
    match first_refused(hosts) {
        Some((name, fault)) => put_refused(out, key_count(hosts), name, fault),
        None => {}
    }
}

// Puts what is wrong with the hosts in a table.
fn put_hosts_flaw(out: &mut Draft, hosts: &Table)
    ensures { out.new ≡ out.old ++ hosts_told (table_view hosts.now) }
{
    match first_unread(hosts) {
        Some((name, value)) => put_unread(out, name, value),
        None => put_refusal(out, hosts),
    }
}

/// Puts what stands in the place of hosts, and what may.
pub fn put_names_flaw(out: &mut Draft, value: &Value)
    ensures { out.new ≡ out.old ++ names_told (view value.now) }
{
    if let Some(hosts) = value.as_table() {
        put_hosts_flaw(out, hosts);
        return;
    }
    put_value(out, value, true);
    put(out, ", wanted a table [names]");
}
