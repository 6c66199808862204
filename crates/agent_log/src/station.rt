//! The telephones of all gateways.
ghost use Rattle.std.specs.Prelude.{◌≡◌};
ghost use Rattle.agent_log.specs.Stations.{number_at};

use mg_bytes::Text;

/// A line of a gateway, with its telephone.
pub struct Station {
    /// The place of its gateway, and its number there, from 1.
    pub gateway: usize,
    pub line: u16,
    /// The name of its endpoint, and the number by which it is dialled.
    pub name: Text,
    pub number: Text,
    /// How many events of it were taken.
    pub taken: usize,
}

// Written out: a derived drop, and those of all its parts, are proved anew by each crate that lets one go.
impl Drop for Station {
    fn drop(self) {
        let Station {
            gateway: _,
            line: _,
            name,
            number,
            taken: _,
        } = self;
        drop(name);
        drop(number);
    }
}

/// The number of the station at this place.
pub(crate) fn number_at(stations: &[Station], place: usize) -> &[u8]
    ensures { result.now ≡ number_at stations.now place }
{
    match stations.get(place) {
        Some(station) => station.number.as_bytes(),
        None => b"?",
    }
}
