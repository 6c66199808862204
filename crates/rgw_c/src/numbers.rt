//! The numbers that C is told. Those of refusals are the plain machine's, and the faults of a configuration are ten higher than there,
//! so that one table has all.
ghost use Rattle.std.specs.Prelude.{◌≡◌, ◌≢◌, ◌≤◌, ℕ, true, Some};
ghost use Rattle.rgw_c.specs.Numbers.{refusal_in, config_fault_in, is_read_number};

use plain_machine::Refusal;

/// The version of the library: 0.1.0.
pub const VERSION: u32 = 100;

/// It went well.
pub const OK: u32 = 0;

/// Memory was refused.
pub const OUT_OF_MEMORY: u32 = 1;

/// There is no such line.
pub const NO_SUCH_LINE: u32 = 4;

/// The text of a configuration has more bytes than are taken.
pub const TOO_LONG: u32 = 18;

/// The handle isn't open.
pub const NOT_OPEN: u32 = 20;

/// The handle is open already.
pub const IS_OPEN: u32 = 21;

/// No ids begin with this number.
pub const BAD_FIRST: u32 = 22;

/// No act has this number.
pub const BAD_ACT: u32 = 23;

/// Nothing has this index, or this place.
pub const NO_SUCH_PLACE: u32 = 24;

/// The buffer is too small.
pub const SMALL_BUFFER: u32 = 25;

/// No connection is at this place.
pub const NO_CONNECTION: u32 = 26;

/// Nothing is due.
pub const NOTHING_DUE: u32 = 27;

/// The configuration would receive at 0.0.0.0, or isn't one, as it is told in words.
pub const HAS_FLAW: u32 = 28;

/// That of a refusal.
pub fn number_of(refusal: Refusal) -> u32
    ensures which { refusal_in result ≡ Some refusal }
    ensures some { 1 ≤ result }
    ensures few { result ≤ 5 }
{
    match refusal {
        Refusal::OutOfMemory => 1,
        Refusal::TickTooFar => 2,
        Refusal::ClockBack => 3,
        Refusal::NoSuchLine => 4,
        Refusal::PhoneState => 5,
    }
}

/// That of a fault of a configuration with this number; where no gateway has one of that number, memory was refused.
pub fn config_number(number: u8) -> u32
    ensures which { (fault : ℕ) → config_fault_in result ≡ Some fault → fault ≡ number }
    ensures wrong { result ≢ OK }
    ensures few { is_read_number result ≡ true }
{
    match number {
        2 => 12,
        3 => 13,
        4 => 14,
        5 => 15,
        6 => 16,
        7 => 17,
        _ => OUT_OF_MEMORY,
    }
}
