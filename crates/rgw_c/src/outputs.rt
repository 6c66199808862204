//! What was sent at the last event, datagram by datagram.
ghost use Rattle.std.specs.Prelude.{◌≡◌, ◌≢◌, length, take, slice_get, IfSome, None};
ghost use Rattle.rgw_c.specs.Telling.{open_number, output_of, output_number_by, output_number, output_at};

use crate::copying::copy_out;
use crate::handle::{Handle, put, take};
use crate::numbers::{NO_SUCH_PLACE, NOT_OPEN, OK};
use crate::structs::Output;
use gateway_core::OutDatagram;
use std::alloc::Global;

/// How many datagrams the last event sent that was taken.
#[unsafe(no_mangle)]
pub extern "C" fn rgw_outputs_nonnull(alloc: Global, handle: &mut Handle, count: &mut usize) -> u32
    ensures number { result ≡ open_number handle.old.held }
    ensures count { IfSome handle.old.held (λ is. count.new ≡ length is.outputs) }
    ensures left { result ≢ OK → count.new ≡ count.old }
    ensures kept { handle.new.held ≡ handle.old.held }
{
    let Some(instance) = take(handle, alloc) else {
        return NOT_OPEN;
    };
    *count = instance.outputs.as_slice().len();
    put(handle, alloc, instance);
    OK
}

// Tells a datagram of these, if there is one at the index.
fn tell_output(
    outputs: &[OutDatagram],
    index: usize,
    output: &mut Output,
    buffer: &mut [u8],
    needed: &mut usize,
) -> u32
    ensures number { result ≡ output_number_by (slice_get outputs.now index) (length buffer.old) }
    ensures output { IfSome (slice_get outputs.now index) (λ datagram. output.new ≡ output_of datagram) }
    ensures needed { IfSome (slice_get outputs.now index) (λ datagram. needed.new ≡ length datagram.bytes) }
    ensures copied { result ≡ OK → IfSome (slice_get outputs.now index) (λ datagram.
        take (length datagram.bytes) buffer.new ≡ datagram.bytes) }
    ensures left { result ≢ OK → buffer.new ≡ buffer.old }
    ensures untold { slice_get outputs.now index ≡ None → output.new ≡ output.old }
    ensures unasked { slice_get outputs.now index ≡ None → needed.new ≡ needed.old }
{
    match outputs.get(index) {
        Some(datagram) => {
            *output = Output {
                moment: datagram.moment,
                host: datagram.to.ip().to_bits(),
                port: datagram.to.port(),
            };
            copy_out(datagram.bytes.as_bytes(), buffer, needed)
        }
        None => NO_SUCH_PLACE,
    }
}

/// A datagram that the last event sent, by its index from 0, in their order: where to and when, and its bytes, which are copied to the
/// start of the buffer. `needed` is how many they are. Where the buffer is too small, it alone is as it was; where there is no such
/// datagram, or no gateway, all three are.
#[unsafe(no_mangle)]
pub extern "C" fn rgw_output_nonnull(
    alloc: Global,
    handle: &mut Handle,
    index: usize,
    output: &mut Output,
    buffer: &mut [u8],
    needed: &mut usize,
) -> u32
    ensures number { result ≡ output_number handle.old.held index (length buffer.old) }
    ensures output { IfSome (output_at handle.old.held index) (λ datagram. output.new ≡ output_of datagram) }
    ensures needed { IfSome (output_at handle.old.held index) (λ datagram. needed.new ≡ length datagram.bytes) }
    ensures copied { result ≡ OK → IfSome (output_at handle.old.held index) (λ datagram.
        take (length datagram.bytes) buffer.new ≡ datagram.bytes) }
    ensures left { result ≢ OK → buffer.new ≡ buffer.old }
    ensures untold { output_at handle.old.held index ≡ None → output.new ≡ output.old }
    ensures unasked { output_at handle.old.held index ≡ None → needed.new ≡ needed.old }
    ensures kept { handle.new.held ≡ handle.old.held }
{
    let Some(instance) = take(handle, alloc) else {
        return NOT_OPEN;
    };
    let number = tell_output(instance.outputs.as_slice(), index, output, buffer, needed);
    put(handle, alloc, instance);
    number
}
