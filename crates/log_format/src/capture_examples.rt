//! Worked examples of the definitions, as theorems: each sentence of a definition has one that a slip in it breaks.
#![tactic(auto, unfolding(crate::proofs::CaptureComputing::on_examples))]

ghost use Rattle.std.specs.Prelude.{◌≡◌, [], ◌∷◌, ◌++◌, codes, length};
ghost use Rattle.log_format.specs.Octets.{four_octets};
ghost use Rattle.log_format.specs.Checksum.{ones_plus, ones_sum, checksum_of};
ghost use Rattle.log_format.specs.Packet.{header_words, ipv4_header, udp_header, ipv4_packet};
ghost use Rattle.log_format.specs.File.{file_head, record_head, record_of};
ghost use Rattle.log_format.specs.CaptureExample.{packet_at};

/// Each sentence at an example.
pub fn each_sentence_has_an_example()
    // Numbers have their highest byte first.
    ensures four { four_octets 0x01020304 ≡ 1 ∷ 2 ∷ 3 ∷ 4 ∷ [] }
    ensures greatest { four_octets 0xffffffff ≡ 255 ∷ 255 ∷ 255 ∷ 255 ∷ [] }
    // What is above 32 bits is left out.
    ensures above { four_octets 0x100000002 ≡ 0 ∷ 0 ∷ 0 ∷ 2 ∷ [] }
    // What is carried out of 16 bits is added at the low end; 65,535 stays.
    ensures none { ones_plus 0x1234 0x4321 ≡ 0x5555 }
    ensures full { ones_plus 0xff00 0x00ff ≡ 0xffff }
    ensures carried { ones_plus 0xffff 1 ≡ 1 }
    ensures twice { ones_plus 0xffff 0xffff ≡ 0xffff }
    // RFC 1071, 3: the words 0001, f203, f4f5 and f6f7 have the sum ddf2.
    ensures several { ones_sum (0x0001 ∷ 0xf203 ∷ 0xf4f5 ∷ 0xf6f7 ∷ []) ≡ 0xddf2 }
    // The header of a packet of 115 bytes from 192.168.0.1 to 192.168.0.199 has the checksum b861, and with it the sum ffff.
    ensures of_words { checksum_of (header_words 115 (192 ∷ 168 ∷ 0 ∷ 1 ∷ []) (192 ∷ 168 ∷ 0 ∷ 199 ∷ []) 0) ≡ 0xb861 }
    ensures sum { ones_sum (header_words 115 (192 ∷ 168 ∷ 0 ∷ 1 ∷ []) (192 ∷ 168 ∷ 0 ∷ 199 ∷ []) 0xb861) ≡ 0xffff }
    ensures bytes { ipv4_header 115 (192 ∷ 168 ∷ 0 ∷ 1 ∷ []) (192 ∷ 168 ∷ 0 ∷ 199 ∷ [])
        ≡ 0x45 ∷ 0 ∷ 0 ∷ 115 ∷ 0 ∷ 0 ∷ 0x40 ∷ 0 ∷ 64 ∷ 17 ∷ 0xb8 ∷ 0x61
        ∷ 192 ∷ 168 ∷ 0 ∷ 1 ∷ 192 ∷ 168 ∷ 0 ∷ 199 ∷ [] }
    // The UDP header has the source's port first, the length, and no checksum.
    ensures a_udp_header_has_both_ports { udp_header 2727 2427 300 ≡ 10 ∷ 167 ∷ 9 ∷ 123 ∷ 1 ∷ 44 ∷ 0 ∷ 0 ∷ [] }
    // A file begins with the number of its format, version 2.4, and that its packets are IP, of at most 65,535 bytes.
    ensures a_file_has_its_head { file_head
        ≡ 0xa1 ∷ 0xb2 ∷ 0xc3 ∷ 0xd4 ∷ 0 ∷ 2 ∷ 0 ∷ 4 ∷ 0 ∷ 0 ∷ 0 ∷ 0 ∷ 0 ∷ 0 ∷ 0 ∷ 0
        ∷ 0 ∷ 0 ∷ 255 ∷ 255 ∷ 0 ∷ 0 ∷ 0 ∷ 101 ∷ [] }
    // Before a packet stand the seconds, the microseconds, and its length twice.
    ensures first { record_head 0 28 ≡ 0 ∷ 0 ∷ 0 ∷ 0 ∷ 0 ∷ 0 ∷ 0 ∷ 0 ∷ 0 ∷ 0 ∷ 0 ∷ 28 ∷ 0 ∷ 0 ∷ 0 ∷ 28 ∷ [] }
    // A second less a microsecond, and a second.
    ensures before { record_head 999999 0x102
        ≡ 0 ∷ 0 ∷ 0 ∷ 0 ∷ 0 ∷ 15 ∷ 66 ∷ 63 ∷ 0 ∷ 0 ∷ 1 ∷ 2 ∷ 0 ∷ 0 ∷ 1 ∷ 2 ∷ [] }
    ensures second { record_head 1000000 28 ≡ 0 ∷ 0 ∷ 0 ∷ 1 ∷ 0 ∷ 0 ∷ 0 ∷ 0 ∷ 0 ∷ 0 ∷ 0 ∷ 28 ∷ 0 ∷ 0 ∷ 0 ∷ 28 ∷ [] }
    // Three bytes from 10.0.0.7, port 2727, to 127.0.0.1, port 2427: a packet of 31 bytes, whose datagram is 11 bytes long.
    ensures packet { ipv4_packet (packet_at 1000002 (codes "abc"))
        ≡ 0x45 ∷ 0 ∷ 0 ∷ 31 ∷ 0 ∷ 0 ∷ 0x40 ∷ 0 ∷ 64 ∷ 17 ∷ 0xb1 ∷ 0xc6 ∷ 10 ∷ 0 ∷ 0 ∷ 7 ∷ 127 ∷ 0 ∷ 0 ∷ 1
        ∷ 10 ∷ 167 ∷ 9 ∷ 123 ∷ 0 ∷ 11 ∷ 0 ∷ 0 ∷ 97 ∷ 98 ∷ 99 ∷ [] }
    ensures in_the_file { record_of (packet_at 1000002 (codes "abc"))
        ≡ (0 ∷ 0 ∷ 0 ∷ 1 ∷ 0 ∷ 0 ∷ 0 ∷ 2 ∷ 0 ∷ 0 ∷ 0 ∷ 31 ∷ 0 ∷ 0 ∷ 0 ∷ 31 ∷ [])
        ++ ipv4_packet (packet_at 1000002 (codes "abc")) }
    // A datagram may have no bytes.
    ensures empty { length (record_of (packet_at 0 [])) ≡ 44 }
{}
