//! Calls that are made again where memory was refused.

/// The call, and once more where it failed. What fails changes nothing, so a call that is refused memory once gives
/// what it gives with ample memory, and one that fails for another reason fails again.
#[macro_export]
macro_rules! again {
    ($call:expr) => {
        match $call {
            Ok(given) => Ok(given),
            Err(_) => $call,
        }
    };
}
