//! The file: its head, and the packets that follow.
ghost use Rattle.std.specs.Prelude.{◌≡◌, ◌≤◌, ◌++◌, length, OnOk, OnErr};
ghost use Rattle.log_format.specs.Packet.{carried, ipv4_packet};
ghost use Rattle.log_format.specs.File.{file_head, record_head, record_of};

use crate::header::{put_ipv4_header, put_udp_header};
use crate::octets::put_number;
use crate::packet::Packet;
use mg_bytes::{Draft, OutOfMemory};
use std::alloc::Global;

// What a file begins with: the number of the format, its version, 0 twice, the greatest length of a packet, and that its
// packets are IP without a link's header.
const HEAD: [u8; 24] = [
    0xa1, 0xb2, 0xc3, 0xd4, 0, 2, 0, 4, 0, 0, 0, 0, 0, 0, 0, 0, 0, 0, 0xff, 0xff, 0, 0, 0, 101,
];

// So many bytes of a datagram fit into a packet.
const MOST_BYTES: usize = 65_507;

// The length of the UDP header, and that of the IPv4 header.
const UDP_HEADER: u16 = 8;

const IPV4_HEADER: u16 = 20;

const MICROSECONDS: u64 = 1_000_000;

/// Puts what a capture file begins with. After an error `out` is as it was.
#[tactic(auto, unfolding(crate::specs::File::file_head))]
pub fn put_head(out: &mut Vec<u8>) -> Result<(), OutOfMemory>
    ensures ok { OnOk result (out.new.items ≡ out.old.items ++ file_head) }
    ensures err { OnErr result (out.new.items ≡ out.old.items) }
{
    out.extend_from_slice(&HEAD)
}

// What of a datagram's bytes a packet has room for.
fn carried(bytes: &[u8]) -> &[u8]
    ensures value { result.now ≡ carried bytes.now }
    ensures few { length result.now ≤ 65507 }
{
    if bytes.len() <= MOST_BYTES {
        bytes
    } else {
        &bytes[..MOST_BYTES]
    }
}

// What stands before a packet of this length.
fn put_record_head(out: &mut Draft, moment: u64, total: u64)
    ensures { out.new ≡ out.old ++ record_head moment total }
{
    put_number(out, moment / MICROSECONDS);
    put_number(out, moment % MICROSECONDS);
    put_number(out, total);
    put_number(out, total);
}

/// Puts a datagram as a packet, with its moment: what tshark, Wireshark and tcpdump show of it. Of one of more than 65,507
/// bytes, which no network carries, the front alone. After an error `out` is as it was.
#[tactic(auto, unfolding(crate::specs::File::record_of, crate::specs::Packet::ipv4_packet))]
pub fn put_packet(alloc: Global, out: &mut Vec<u8>, packet: &Packet<'_>) -> Result<(), OutOfMemory>
    ensures ok { OnOk result (out.new.items ≡ out.old.items ++ record_of packet.now) }
    ensures err { OnErr result (out.new.items ≡ out.old.items) }
{
    let bytes = carried(packet.bytes);
    let udp_total = UDP_HEADER + bytes.len() as u16;
    let total = IPV4_HEADER + udp_total;
    let (from, to) = (packet.from, packet.to);
    let mut record = Draft::new(alloc);
    put_record_head(&mut record, packet.moment, u64::from(total));
    put_ipv4_header(&mut record, total, *from.ip(), *to.ip());
    put_udp_header(&mut record, from.port(), to.port(), udp_total);
    record.put(bytes);
    record.append_to(out)
}
