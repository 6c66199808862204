//! The configured names of hosts with their addresses, which stand for DNS (RFC 3435, 2.1.4).
ghost use Rattle.std.specs.Prelude.{◌≡◌, ◌++◌, ◌∷◌, [], Some, None, OnOk, OnErr, IfErr, IsOk};
ghost use Rattle.endpoint_names.specs.declared.route.Route.TheVariants.{One};
ghost use Rattle.endpoint_names.specs.Table.{route_to, has_name, fault_of, table_fault_number};

use crate::domain::{LONGEST_DOMAIN, is_domain};
use crate::fixed::FixedText;
use crate::route::Route;
use mg_bytes::{Few, same_no_case};
use std::marker::Model;
use std::net::Ipv4Addr;

/// The most hosts of a table (this gateway's profile).
pub const MOST_HOSTS: usize = 64;

/// A host's configured name and its addresses.
#[derive(Clone, Copy)]
pub struct Host {
    pub name: FixedText<LONGEST_DOMAIN>,
    pub route: Route<Ipv4Addr>,
}

// What stands in a place of the table that has no host yet.
impl Default for Host {
    ghost is_default = { λ host. host ≡ record { name = []; route = One (record { octets = 0 ∷ 0 ∷ 0 ∷ 0 ∷ [] }) } };

    fn default() -> Self {
        Host {
            name: FixedText::of(b""),
            route: Route::One(Ipv4Addr::new(0, 0, 0, 0)),
        }
    }
}

/// Why a name was not added to the table.
#[derive(Clone, Copy)]
pub enum TableFault {
    /// The name isn't 1 to 64 letters, digits, `-` and `.`.
    NotADomain = 1,
    /// The table has the name already, in some case.
    Twice = 2,
    /// The table has 64 names.
    Full = 3,
}

impl TableFault {
    /// Its number, from 1.
    pub fn number(self) -> u8
        ensures { result ≡ table_fault_number self }
    {
        self as u8
    }
}

fn has_name(hosts: &[Host], name: &[u8]) -> bool
    ensures { result ≡ has_name hosts.now name.now }
{
    hosts
        .iter()
        .any(|host| same_no_case(host.name.as_bytes(), name))
}

#[tactic(auto, unfolding(crate::specs::Table::route_to))]
fn route_to(hosts: &[Host], name: &[u8]) -> Option<Route<Ipv4Addr>>
    ensures { result ≡ route_to hosts.now name.now }
{
    let mut rest = hosts;
    while let [host, after @ ..] = rest {
        if same_no_case(host.name.as_bytes(), name) {
            return Some(host.route);
        }
        rest = after;
    }
    None
}

/// The configured names of hosts (RFC 3435, 2.1.4), in the order in which they were added. They stand for DNS.
///
/// A contract sees the list of hosts: at most 64, each with a domain name.
#[derive(Drop)]
pub struct Table {
    hosts: Few<Host, MOST_HOSTS>,
}

impl Model for Table {
    ghost use Rattle.std.specs.Prelude.{◌≡◌, ◌≤◌, true, List, length};
    ghost use Rattle.std.specs.List.{list_all};
    ghost use Rattle.endpoint_names.specs.declared.table.Host.{Host};

    ghost Value = { List Host };

    ghost use Rattle.endpoint_names.specs.Table.{is_domain, most_hosts};

    ghost view = { λ t. t.hosts };

    ghost invariant = { λ t. (length t.hosts ≤ most_hosts)
        × (list_all (λ host. is_domain host.name) t.hosts ≡ true) };
}

impl Table {
    /// A table without names.
    pub fn new() -> Self
        ensures { result ≡ [] }
    {
        Table { hosts: Few::new() }
    }

    /// Adds a host with its addresses (RFC 3435, 2.1.4) after the others. After an error the table is as it was.
    ///
    /// `NotADomain` where the name is not 1 to 64 letters, digits, `-` and `.`; else `Twice` where the table has
    /// the name in some case; else `Full` where it has 64 names.
    #[tactic(auto, using(crate::proofs::FixedLemmas::domain_no_blanks, crate::proofs::FixedLemmas::domain_one_line))]
    pub fn add(&mut self, name: &[u8], route: Route<Ipv4Addr>) -> Result<(), TableFault>
        ensures ok { OnOk result (self.new
            ≡ self.old ++ (record { name = name.now; route = route }) ∷ []) }
        ensures err { OnErr result (self.new ≡ self.old) }
        ensures fault { IfErr result (λ fault. fault_of self.old name.now ≡ Some fault) }
        ensures taken { fault_of self.old name.now ≡ None → IsOk result }
        ensures faultless { OnOk result (fault_of self.old name.now ≡ None) }
    {
        if !is_domain(name) {
            return Err(TableFault::NotADomain);
        }
        if has_name(self.hosts.as_slice(), name) {
            return Err(TableFault::Twice);
        }
        if self.hosts.as_slice().len() >= MOST_HOSTS {
            return Err(TableFault::Full);
        }
        self.hosts.push(Host {
            name: FixedText::of(name),
            route,
        });
        Ok(())
    }

    /// Its hosts, in the order in which they were added.
    pub fn hosts(&self) -> &[Host]
        ensures { result.now ≡ self.now }
    {
        self.hosts.as_slice()
    }

    /// The addresses of the host with this name (RFC 3435, 2.1.4), in any case; `None` where the table has none.
    pub fn route_to(&self, name: &[u8]) -> Option<Route<Ipv4Addr>>
        ensures { result ≡ route_to self.now name.now }
    {
        route_to(self.hosts.as_slice(), name)
    }
}
