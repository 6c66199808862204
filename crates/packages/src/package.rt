//! Packages, and names in them.
ghost use Rattle.std.specs.Prelude.{◌≡◌};
ghost use Rattle.packages.specs.Looking.{package_named, in_package, seen};

use mg_bytes::{ReturnCode, same_no_case, split_once};

/// A package of events and signals (RFC 3435, 2.1.6).
#[derive(Clone, Copy, PartialEq, Eq)]
pub enum Package {
    /// L (RFC 3660, 2.5)
    Line,
    /// G (RFC 3660, 2.1)
    Generic,
    /// D (RFC 3660, 2.2)
    Dtmf,
}

fn package_named(text: &[u8]) -> Option<Package>
    ensures { result ≡ package_named text.now }
{
    if same_no_case(text, b"L") {
        Some(Package::Line)
    } else if same_no_case(text, b"G") {
        Some(Package::Generic)
    } else if same_no_case(text, b"D") {
        Some(Package::Dtmf)
    } else {
        None
    }
}

/// The package and the name of `[package/]name` (RFC 3435, 2.1.7), split at the first `/`.
///
/// Without a package L is meant. Another package is 518. The name may be any text.
#[tactic(auto, unfolding(crate::specs::Looking::in_package))]
pub fn in_package(text: &[u8]) -> Result<(Package, &[u8]), u16>
    ensures { seen result ≡ in_package text.now }
{
    let Some((named, name)) = split_once(text, b'/') else {
        return Ok((Package::Line, text));
    };
    match package_named(named) {
        Some(within) => Ok((within, name)),
        None => Err(ReturnCode::UnknownPackage.number()),
    }
}
