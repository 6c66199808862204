//! What programs answer to who types, whichever they are.

/// The answer to what was done.
pub const DONE: &[u8] = b"done\n";

/// The answer where memory is refused for any other, and what who watches is told then.
pub const NO_MEMORY: &[u8] = b"! 1 OutOfMemory\n";

/// What is answered to a line that asks for the program's end, and isn't from the loopback.
pub const STOP_FROM_AFAR: &[u8] = b"! stop is taken from a loopback address alone, 127.0.0.0/8\n";
