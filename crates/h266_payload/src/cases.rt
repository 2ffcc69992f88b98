//! Worked cases: what the definitions give on literal bytes. Each is the contract of a function
//! without a result.

ghost use Rattle.std.specs.Prelude.{map, ◌≡◌, [], ◌∷◌, true, false, Some, None, length, replicate};
ghost use Rattle.std.specs.List.{range_with_len};
ghost use Rattle.h26x_core.specs.Kind.{Skipped, Vps, Sps, Pps, Other};
ghost use Rattle.h26x_model.specs.Payload.Reading.{Aggregate, Refused};
ghost use Rattle.h26x_model.specs.Send.Plan.{Alone, Together};
ghost use Rattle.h26x_model.specs.Send.WaitingSets.{AreWaitingSets, entries_with_limit};
ghost use Rattle.h26x_model.specs.Send.Rival.{IsRival};
ghost use Rattle.h26x_model.specs.Payload.Facts.{AreCarried, IsPlanned, CanSend};
ghost use Rattle.h26x_model.specs.Send.Again.{NothingDropped};
ghost use Rattle.h26x_model.specs.Receive.Received.{received};
ghost use Rattle.h26x_model.specs.Receive.DepacketizerState.{depacketization, after_packets, depacketizer_meaning};
ghost use Rattle.h26x_core.specs.ByteStream.{annex_b};
ghost use Rattle.h26x_model.specs.Payload.Extra.{extra_after};
ghost use Rattle.h26x_model.specs.Send.Calls.{fresh_call, all_packets, payload_packets};
ghost use Rattle.h266_payload.specs.H266.{h266};
ghost use Rattle.h26x_model.specs.Send.Packets.{plan_packets};
ghost use Rattle.h26x_model.specs.Send.Every.{every_unit};
ghost use Rattle.h266_payload.specs.EveryUnit.{h266_every};

use h26x_core::{CodecExtra, PacketError};

/// Sets before a unit go in one packet; where packets bear numbers, it has the first set's, and the
/// unit has its own.
pub fn sets_and_a_unit()
    ensures three { payload_packets (h266 false) 1200
        (0x00 ∷ 0x00 ∷ 0x01 ∷ 0x00 ∷ 0x71 ∷ 0xaa ∷ 0x00 ∷ 0x00 ∷ 0x01 ∷ 0x00 ∷ 0x79 ∷ 0xbb
        ∷ 0x00 ∷ 0x00 ∷ 0x01 ∷ 0x00 ∷ 0x81 ∷ 0xcc ∷ 0x00 ∷ 0x00 ∷ 0x01 ∷ 0x00 ∷ 0x39 ∷ 0xdd ∷ [])
        ≡ (0x00 ∷ 0xe1 ∷ 0x00 ∷ 0x03 ∷ 0x00 ∷ 0x71 ∷ 0xaa ∷ 0x00 ∷ 0x03 ∷ 0x00 ∷ 0x79 ∷ 0xbb ∷
        0x00 ∷ 0x03 ∷ 0x00 ∷ 0x81 ∷ 0xcc ∷ []) ∷ (0x00 ∷ 0x39 ∷ 0xdd ∷ []) ∷ [] }
    ensures layers { payload_packets (h266 false) 1200 (0x00 ∷ 0x00 ∷ 0x01 ∷ 0x02 ∷ 0x7a ∷ 0xbb ∷
        0x00 ∷ 0x00 ∷ 0x01 ∷ 0x01 ∷ 0x83 ∷ 0xcc ∷ 0x00 ∷ 0x00 ∷ 0x01 ∷ 0x00 ∷ 0x39 ∷ 0xdd ∷ [])
        ≡ (0x01 ∷ 0xe2 ∷ 0x00 ∷ 0x03 ∷ 0x02 ∷ 0x7a ∷ 0xbb ∷ 0x00 ∷ 0x03 ∷ 0x01 ∷ 0x83 ∷ 0xcc ∷ []) ∷
        (0x00 ∷ 0x39 ∷ 0xdd ∷ []) ∷ [] }
    ensures has_donl { payload_packets (h266 true) 1200 (0x00 ∷ 0x00 ∷ 0x01 ∷ 0x00 ∷ 0x79 ∷
        0xbb ∷ 0x00 ∷ 0x00 ∷ 0x01 ∷ 0x00 ∷ 0x81 ∷ 0xcc ∷ 0x00 ∷ 0x00 ∷ 0x01 ∷ 0x00 ∷ 0x39 ∷ 0xdd ∷
        [])
        ≡ (0x00 ∷ 0xe1 ∷ 0x00 ∷ 0x00 ∷ 0x00 ∷ 0x03 ∷ 0x00 ∷ 0x79 ∷ 0xbb ∷ 0x00 ∷ 0x03 ∷ 0x00 ∷
        0x81 ∷ 0xcc ∷ []) ∷ (0x00 ∷ 0x39 ∷ 0x00 ∷ 0x02 ∷ 0xdd ∷ []) ∷ [] }
{}

/// Of the zeros before 00 00 01 a start code takes one; the others stay with the unit before it.
pub fn zeros_before_a_start_code()
    ensures one_taken { payload_packets (h266 false) 1200 (0x00 ∷ 0x00 ∷ 0x01 ∷ 0x00 ∷ 0x09 ∷
        0xaa ∷ 0x00 ∷ 0x00 ∷ 0x00 ∷ 0x00 ∷ 0x01 ∷ 0x00 ∷ 0x11 ∷ 0xbb ∷ [])
        ≡ (0x00 ∷ 0x09 ∷ 0xaa ∷ 0x00 ∷ []) ∷ (0x00 ∷ 0x11 ∷ 0xbb ∷ []) ∷ [] }
{}

/// An mtu under 4 has no effect: nothing is sent.
pub fn small_mtu()
    ensures { payload_packets (h266 false) 3 (0x00 ∷ 0x01 ∷ 0xaa ∷ []) ≡ [] }
{}

/// At a small limit a unit goes in fragments of few bytes, and in none where there is no room for
/// data.
pub fn tiny_limits()
    ensures none { payload_packets (h266 false) 3 (0x00 ∷ 0x09 ∷ 0x01 ∷ 0x02 ∷ 0x03 ∷ 0x04 ∷
        0x05 ∷ 0x06 ∷ []) ≡ [] }
    ensures six { payload_packets (h266 false) 4 (0x00 ∷ 0x09 ∷ 0x01 ∷ 0x02 ∷ 0x03 ∷ 0x04 ∷
        0x05 ∷ 0x06 ∷ [])
        ≡ (0x00 ∷ 0xe9 ∷ 0x81 ∷ 0x01 ∷ [])
        ∷ (0x00 ∷ 0xe9 ∷ 0x01 ∷ 0x02 ∷ [])
        ∷ (0x00 ∷ 0xe9 ∷ 0x01 ∷ 0x03 ∷ [])
        ∷ (0x00 ∷ 0xe9 ∷ 0x01 ∷ 0x04 ∷ [])
        ∷ (0x00 ∷ 0xe9 ∷ 0x01 ∷ 0x05 ∷ [])
        ∷ (0x00 ∷ 0xe9 ∷ 0x41 ∷ 0x06 ∷ [])
        ∷ [] }
    ensures one { payload_packets (h266 false) 8 (0x00 ∷ 0x09 ∷ 0x01 ∷ 0x02 ∷ 0x03 ∷ 0x04 ∷
        0x05 ∷ 0x06 ∷ [])
        ≡ (0x00 ∷ 0x09 ∷ 0x01 ∷ 0x02 ∷ 0x03 ∷ 0x04 ∷ 0x05 ∷ 0x06 ∷ []) ∷ [] }
    ensures numbered_none { payload_packets (h266 true) 5 (0x00 ∷ 0x09 ∷ 0x01 ∷ 0x02 ∷ 0x03 ∷
        0x04 ∷ 0x05 ∷ 0x06 ∷ []) ≡ [] }
    ensures numbered_three { payload_packets (h266 true) 6 (0x00 ∷ 0x09 ∷ 0x01 ∷ 0x02 ∷ 0x03 ∷
        0x04 ∷ 0x05 ∷ 0x06 ∷ [])
        ≡ (0x00 ∷ 0xe9 ∷ 0x81 ∷ 0x00 ∷ 0x00 ∷ 0x01 ∷ []) ∷ (0x00 ∷ 0xe9 ∷ 0x01 ∷ 0x02 ∷ 0x03 ∷
        0x04 ∷ []) ∷ (0x00 ∷ 0xe9 ∷ 0x41 ∷ 0x05 ∷ 0x06 ∷ []) ∷ [] }
{}

/// Packets that are too short or corrupted are refused; in an aggregate the first fault from the
/// left decides.
pub fn refused_packets()
    ensures one_unit { (h266 false).read (0x00 ∷ 0xe1 ∷ 0x00 ∷ 0x03 ∷ 0x00 ∷ 0x01 ∷ 0xaa ∷
        []) ≡ Refused PacketError.ErrShortPacket }
    ensures length_past_the_end { (h266 false).read (0x00 ∷ 0xe1 ∷ 0x00 ∷ 0x20 ∷
        []) ≡ Refused PacketError.ErrShortPacket }
    ensures aggregate_within { (h266 false).read (0x00 ∷ 0xe1 ∷ 0x00 ∷ 0x03 ∷ 0x00 ∷ 0x09 ∷ 0xaa ∷
        0x00 ∷ 0x02 ∷ 0x00 ∷ 0xe1 ∷ [])
        ≡ Refused PacketError.ErrH266CorruptedPacket }
    ensures forbidden_bit { (h266 false).read (0x80 ∷ 0x01 ∷ 0xaa ∷ 0xbb ∷
        []) ≡ Refused PacketError.ErrH266CorruptedPacket }
    ensures aggregate_first { (h266 false).read (0x00 ∷ 0xe1 ∷ 0x00 ∷ 0x02 ∷ 0x00 ∷ 0xe1 ∷
        []) ≡ Refused PacketError.ErrH266CorruptedPacket }
    ensures cut_first { (h266 false).read (0x00 ∷ 0xe1 ∷ 0x00 ∷ 0x05 ∷ 0x00 ∷ 0xe1 ∷
        []) ≡ Refused PacketError.ErrShortPacket }
    ensures half_a_number { (h266 true).read (0x00 ∷ 0xe9 ∷ 0x87 ∷ 0x00 ∷
        []) ≡ Refused PacketError.ErrShortPacket }
{}

/// An aggregate of two units holds both.
pub fn aggregate_of_two()
    ensures both { (h266 false).read (0x00 ∷ 0xe1 ∷ 0x00 ∷ 0x03 ∷ 0x00 ∷ 0x01 ∷ 0xaa ∷ 0x00 ∷ 0x03 ∷
        0x00 ∷ 0x01 ∷ 0xbb ∷ [])
        ≡ Aggregate ((0x00 ∷ 0x01 ∷ 0xaa ∷ [], None) ∷ (0x00 ∷ 0x01 ∷ 0xbb ∷ [], None) ∷ []) }
{}

/// A fragment whose start did not come brings nothing.
pub fn fragment_without_a_start()
    ensures nothing { received (map (h266 false).read ((0x00 ∷ 0xe9 ∷ 0x40 ∷ 0xaa ∷ 0xbb ∷ []) ∷
        [])) ≡ [] }
{}

/// The fragments of a key unit bring it, without its number, and it is told of.
pub fn numbered_run()
    ensures unit { received (map (h266 true).read ((0x00 ∷ 0xe9 ∷ 0x87 ∷ 0x00 ∷ 0x05 ∷ 0xaa ∷ []) ∷
        (0x00 ∷ 0xe9 ∷ 0x07 ∷ 0xbb ∷ []) ∷ (0x00 ∷ 0xe9 ∷ 0x47 ∷ []) ∷ []))
        ≡ (0x00 ∷ 0x39 ∷ 0xaa ∷ 0xbb ∷ []) ∷ [] }
    ensures key { extra_after (h266 true) CodecExtra.None
        (received (map (h266 true).read ((0x00 ∷ 0xe9 ∷ 0x87 ∷ 0x00 ∷ 0x05 ∷ 0xaa ∷ []) ∷
        (0x00 ∷ 0xe9 ∷ 0x07 ∷ 0xbb ∷ []) ∷ (0x00 ∷ 0xe9 ∷ 0x47 ∷ []) ∷ [])))
        ≡ (h266 true).extra true }
{}

/// A packet of a numbered key unit alone is detected.
pub fn key_unit_detected()
    ensures detected { (h266 true).detects (0x00 ∷ 0x39 ∷ 0x00 ∷ 0x02 ∷ 0xdd ∷ []) ≡ true }
{}

/// How many packets a unit of eight bytes takes, at each limit up to 10.
pub fn packets_by_limit()
    ensures plain { map (λ mtu. length (payload_packets (h266 false) mtu (0x00 ∷ 0x09 ∷ 0x01 ∷
        0x02 ∷ 0x03 ∷ 0x04 ∷ 0x05 ∷ 0x06 ∷ []))) (range_with_len 0 11)
        ≡ 0 ∷ 0 ∷ 0 ∷ 0 ∷ 6 ∷ 3 ∷ 2 ∷ 2 ∷ 1 ∷ 1 ∷ 1 ∷ [] }
    ensures has_donl { map (λ mtu. length (payload_packets (h266 true) mtu (0x00 ∷ 0x09 ∷ 0x01 ∷
        0x02 ∷ 0x03 ∷ 0x04 ∷ 0x05 ∷ 0x06 ∷ []))) (range_with_len 0 11)
        ≡ 0 ∷ 0 ∷ 0 ∷ 0 ∷ 0 ∷ 0 ∷ 3 ∷ 2 ∷ 2 ∷ 2 ∷ 1 ∷ [] }
{}

/// The lengths of packets: none is longer than 1200 bytes; at a limit of 100 a unit of 100 bytes
/// goes alone and one of 101 in two fragments; sets that don't fit one packet go alone; a delimiter
/// is not sent.
pub fn lengths_of_packets()
    ensures fits { map (λ packet. length packet) (payload_packets (h266 false) 100 (0x00 ∷ 0x01 ∷
        replicate 98 0xaa)) ≡ 100 ∷ [] }
    ensures fragments { map (λ packet. length packet) (payload_packets (h266 false) 100 (0x00 ∷
        0x01 ∷ replicate 99 0xaa)) ≡ 100 ∷ 5 ∷ [] }
    ensures longest { map (λ packet. length packet) (payload_packets (h266 false) 5000 (0x00 ∷
        0x09 ∷ replicate 1199 0xaa)) ≡ 1200 ∷ 5 ∷ [] }
    ensures sixteen { length (payload_packets (h266 false) 200 (0x00 ∷ 0x49 ∷
        replicate 2998 0xaa)) ≡ 16 }
    ensures sets { map (λ packet. length packet) (all_packets (h266 false) 0 (
        fresh_call 700 (0x00 ∷ 0x79 ∷ replicate 598 0xaa) ∷
        fresh_call 700 (0x00 ∷ 0x81 ∷ replicate 598 0xaa) ∷
        fresh_call 700 (0x00 ∷ 0x39 ∷ replicate 48 0xaa) ∷ []))
        ≡ 600 ∷ 600 ∷ 50 ∷ [] }
    ensures delimiter { map (λ packet. length packet) (all_packets (h266 false) 0 (
        fresh_call 1200 (0x00 ∷ 0xa1 ∷ replicate 2 0xaa) ∷
        fresh_call 1200 (0x00 ∷ 0x01 ∷ replicate 6 0xaa) ∷
        fresh_call 1200 (0x00 ∷ 0xc9 ∷ replicate 8 0xaa) ∷ []))
        ≡ 8 ∷ 10 ∷ [] }
{}

/// Packets that are refused leave the run open, and an end closes it.
pub fn refusals_within_a_run()
    ensures { received (map (h266 true).read (
        (0x00 ∷ 0xe9 ∷ 0x87 ∷ 0x00 ∷ 0x05 ∷ 0xaa ∷ []) ∷
        (0x00 ∷ 0xe9 ∷ 0x87 ∷ 0x00 ∷ []) ∷
        (0x00 ∷ 0xe9 ∷ 0x07 ∷ 0xbb ∷ []) ∷
        (0x00 ∷ 0xe9 ∷ 0x47 ∷ []) ∷
        (0x00 ∷ 0xe9 ∷ 0x47 ∷ []) ∷ []))
        ≡ (0x00 ∷ 0x39 ∷ 0xaa ∷ 0xbb ∷ []) ∷ [] }
{}

/// A zero at the end of a unit stays with it where it is sent again.
pub fn sent_again()
    ensures first { all_packets (h266 false) 0 (
        fresh_call 100 (0x00 ∷ 0x09 ∷ 0xaa ∷ 0x00 ∷ []) ∷
        fresh_call 100 (0x00 ∷ 0x11 ∷ 0xbb ∷ []) ∷ [])
        ≡ (0x00 ∷ 0x09 ∷ 0xaa ∷ 0x00 ∷ []) ∷ (0x00 ∷ 0x11 ∷ 0xbb ∷ []) ∷ [] }
    ensures again { payload_packets (h266 false) 100 (annex_b ((0x00 ∷ 0x09 ∷ 0xaa ∷ 0x00 ∷ []) ∷
        (0x00 ∷ 0x11 ∷ 0xbb ∷ []) ∷ []))
        ≡ (0x00 ∷ 0x09 ∷ 0xaa ∷ 0x00 ∷ []) ∷ (0x00 ∷ 0x11 ∷ 0xbb ∷ []) ∷ [] }
{}

/// Sets of three bytes take twelve bytes in one packet, and fourteen with their number; at one less
/// they go alone.
pub fn sets_at_their_limit()
    ensures at_12 { payload_packets (h266 false) 12 (
        0x00 ∷ 0x00 ∷ 0x01 ∷ 0x00 ∷ 0x79 ∷ 0xbb ∷
        0x00 ∷ 0x00 ∷ 0x01 ∷ 0x00 ∷ 0x81 ∷ 0xcc ∷
        0x00 ∷ 0x00 ∷ 0x01 ∷ 0x00 ∷ 0x39 ∷ 0xdd ∷ [])
        ≡ (0x00 ∷ 0xe1 ∷ 0x00 ∷ 0x03 ∷ 0x00 ∷ 0x79 ∷ 0xbb ∷ 0x00 ∷ 0x03 ∷ 0x00 ∷ 0x81 ∷ 0xcc ∷ []) ∷
        (0x00 ∷ 0x39 ∷ 0xdd ∷ []) ∷ [] }
    ensures at_11 { payload_packets (h266 false) 11 (
        0x00 ∷ 0x00 ∷ 0x01 ∷ 0x00 ∷ 0x79 ∷ 0xbb ∷
        0x00 ∷ 0x00 ∷ 0x01 ∷ 0x00 ∷ 0x81 ∷ 0xcc ∷
        0x00 ∷ 0x00 ∷ 0x01 ∷ 0x00 ∷ 0x39 ∷ 0xdd ∷ [])
        ≡ (0x00 ∷ 0x79 ∷ 0xbb ∷ []) ∷
        (0x00 ∷ 0x81 ∷ 0xcc ∷ []) ∷
        (0x00 ∷ 0x39 ∷ 0xdd ∷ []) ∷ [] }
    ensures numbered_at_14 { payload_packets (h266 true) 14 (
        0x00 ∷ 0x00 ∷ 0x01 ∷ 0x00 ∷ 0x79 ∷ 0xbb ∷
        0x00 ∷ 0x00 ∷ 0x01 ∷ 0x00 ∷ 0x81 ∷ 0xcc ∷
        0x00 ∷ 0x00 ∷ 0x01 ∷ 0x00 ∷ 0x39 ∷ 0xdd ∷ [])
        ≡ (0x00 ∷ 0xe1 ∷ 0x00 ∷ 0x00 ∷ 0x00 ∷ 0x03 ∷ 0x00 ∷ 0x79 ∷ 0xbb ∷ 0x00 ∷ 0x03 ∷ 0x00 ∷
        0x81 ∷ 0xcc ∷ []) ∷
        (0x00 ∷ 0x39 ∷ 0x00 ∷ 0x02 ∷ 0xdd ∷ []) ∷ [] }
    ensures numbered_at_13 { payload_packets (h266 true) 13 (
        0x00 ∷ 0x00 ∷ 0x01 ∷ 0x00 ∷ 0x79 ∷ 0xbb ∷
        0x00 ∷ 0x00 ∷ 0x01 ∷ 0x00 ∷ 0x81 ∷ 0xcc ∷
        0x00 ∷ 0x00 ∷ 0x01 ∷ 0x00 ∷ 0x39 ∷ 0xdd ∷ [])
        ≡ (0x00 ∷ 0x79 ∷ 0x00 ∷ 0x00 ∷ 0xbb ∷ []) ∷
        (0x00 ∷ 0x81 ∷ 0x00 ∷ 0x01 ∷ 0xcc ∷ []) ∷
        (0x00 ∷ 0x39 ∷ 0x00 ∷ 0x02 ∷ 0xdd ∷ []) ∷ [] }
{}

/// The packet of sets has F where one of them has it, and a temporal id of 1 at least.
pub fn header_of_sets()
    ensures forbidden { payload_packets (h266 false) 100 (
        0x00 ∷ 0x00 ∷ 0x01 ∷ 0x00 ∷ 0x79 ∷ 0xbb ∷
        0x00 ∷ 0x00 ∷ 0x01 ∷ 0x80 ∷ 0x81 ∷ 0xcc ∷
        0x00 ∷ 0x00 ∷ 0x01 ∷ 0x00 ∷ 0x39 ∷ 0xdd ∷ [])
        ≡ (0x80 ∷ 0xe1 ∷ 0x00 ∷ 0x03 ∷ 0x00 ∷ 0x79 ∷ 0xbb ∷ 0x00 ∷ 0x03 ∷ 0x80 ∷ 0x81 ∷ 0xcc ∷ []) ∷
        (0x00 ∷ 0x39 ∷ 0xdd ∷ []) ∷ [] }
    ensures temporal { payload_packets (h266 false) 100 (
        0x00 ∷ 0x00 ∷ 0x01 ∷ 0x00 ∷ 0x78 ∷ 0xbb ∷
        0x00 ∷ 0x00 ∷ 0x01 ∷ 0x00 ∷ 0x80 ∷ 0xcc ∷
        0x00 ∷ 0x00 ∷ 0x01 ∷ 0x00 ∷ 0x39 ∷ 0xdd ∷ [])
        ≡ (0x00 ∷ 0xe1 ∷ 0x00 ∷ 0x03 ∷ 0x00 ∷ 0x78 ∷ 0xbb ∷ 0x00 ∷ 0x03 ∷ 0x00 ∷ 0x80 ∷ 0xcc ∷ []) ∷
        (0x00 ∷ 0x39 ∷ 0xdd ∷ []) ∷ [] }
{}

/// A delimiter, units of the packets' own types and a unit without a whole header are not sent.
pub fn units_not_sent()
    ensures { payload_packets (h266 false) 100 (
        0x00 ∷ 0x00 ∷ 0x01 ∷ 0x00 ∷ 0xa1 ∷ 0xaa ∷
        0x00 ∷ 0x00 ∷ 0x01 ∷ 0x00 ∷ 0xe1 ∷ 0xaa ∷
        0x00 ∷ 0x00 ∷ 0x01 ∷ 0x00 ∷ 0xe9 ∷ 0xaa ∷
        0x00 ∷ 0x00 ∷ 0x01 ∷ 0x02 ∷
        0x00 ∷ 0x00 ∷ 0x01 ∷ 0x00 ∷ 0x01 ∷ 0xaa ∷ [])
        ≡ (0x00 ∷ 0x01 ∷ 0xaa ∷ []) ∷ [] }
{}

/// In an aggregate a length under 2 is too short and a fragment is corrupted; its numbers go round.
pub fn units_of_an_aggregate()
    ensures short_unit { (h266 false).read (0x00 ∷ 0xe1 ∷ 0x00 ∷ 0x01 ∷ 0xaa ∷ 0x00 ∷ 0x03 ∷ 0x00 ∷
        0x01 ∷ 0xbb ∷ []) ≡ Refused PacketError.ErrShortPacket }
    ensures fragment_within { (h266 false).read (0x00 ∷ 0xe1 ∷ 0x00 ∷ 0x03 ∷ 0x00 ∷ 0x01 ∷ 0xaa ∷
        0x00 ∷ 0x02 ∷ 0x00 ∷ 0xe9 ∷ []) ≡ Refused PacketError.ErrH266CorruptedPacket }
    ensures dons { (h266 true).read (0x00 ∷ 0xe1 ∷ 0xff ∷ 0xff ∷ 0x00 ∷ 0x03 ∷ 0x00 ∷ 0x01 ∷
        0xaa ∷ 0x00 ∷ 0x03 ∷ 0x00 ∷ 0x01 ∷ 0xbb ∷ [])
        ≡ Aggregate ((0x00 ∷ 0x01 ∷ 0xaa ∷ [], Some 65535) ∷ (0x00 ∷ 0x01 ∷ 0xbb ∷ [], Some 0) ∷
        []) }
{}

/// Types 7 to 9 are key types; of an aggregate the units up to a length under 2 are looked at.
pub fn key_types_detected()
    ensures { map (h266 false).detects (
        (0x00 ∷ 0x31 ∷ 0xaa ∷ []) ∷
        (0x00 ∷ 0x39 ∷ 0xaa ∷ []) ∷
        (0x00 ∷ 0x49 ∷ 0xaa ∷ []) ∷
        (0x00 ∷ 0x51 ∷ 0xaa ∷ []) ∷
        (0x00 ∷ 0xe9 ∷ 0x87 ∷ 0xaa ∷ []) ∷
        (0x00 ∷ 0xe9 ∷ 0x07 ∷ 0xaa ∷ []) ∷
        (0x00 ∷ 0xe1 ∷ 0x00 ∷ 0x03 ∷ 0x00 ∷ 0x01 ∷ 0xaa ∷ 0x00 ∷ 0x03 ∷ 0x00 ∷ 0x39 ∷ 0xbb ∷ []) ∷
        (0x00 ∷ 0xe1 ∷ 0x00 ∷ 0x01 ∷ 0x39 ∷ 0x00 ∷ 0x03 ∷ 0x00 ∷ 0x39 ∷ 0xbb ∷ []) ∷ [])
        ≡ false ∷ true ∷ true ∷ false ∷ true ∷ false ∷ true ∷ false ∷ [] }
{}

/// Nothing may be left behind the units of an aggregate, and a length of 0 is too short.
pub fn rest_of_an_aggregate()
    ensures lone_byte { (h266 false).read (0x00 ∷ 0xe1 ∷ 0x00 ∷ 0x02 ∷ 0x00 ∷ 0x09 ∷ 0x00 ∷ 0x02 ∷
        0x00 ∷ 0x11 ∷ 0x00 ∷ []) ≡ Refused PacketError.ErrShortPacket }
    ensures past_the_end { (h266 false).read (0x00 ∷ 0xe1 ∷ 0x00 ∷ 0x02 ∷ 0x00 ∷ 0x09 ∷ 0x00 ∷
        0x02 ∷ 0x00 ∷ 0x11 ∷ 0x00 ∷ 0x05 ∷ 0xaa ∷ []) ≡ Refused PacketError.ErrShortPacket }
    ensures length_0 { (h266 false).read (0x00 ∷ 0xe1 ∷ 0x00 ∷ 0x00 ∷ 0x00 ∷ 0x02 ∷ 0x00 ∷ 0x09 ∷
        0x00 ∷ 0x02 ∷ 0x00 ∷ 0x11 ∷ []) ≡ Refused PacketError.ErrShortPacket }
    ensures forbidden { received (map (h266 false).read ((0x00 ∷ 0xe1 ∷ 0x00 ∷ 0x02 ∷ 0x80 ∷ 0x09 ∷
        0x00 ∷ 0x02 ∷ 0x00 ∷ 0x11 ∷ []) ∷ [])) ≡ (0x80 ∷ 0x09 ∷ []) ∷
        (0x00 ∷ 0x11 ∷ []) ∷ [] }
{}

/// The packet of sets has their lowest layer and temporal id, of whichever set, and Z clear.
pub fn layers_of_sets()
    ensures lowest { payload_packets (h266 false) 1200 (
        0x00 ∷ 0x00 ∷ 0x01 ∷ 0x01 ∷ 0x7b ∷ 0xbb ∷
        0x00 ∷ 0x00 ∷ 0x01 ∷ 0x02 ∷ 0x82 ∷ 0xcc ∷
        0x00 ∷ 0x00 ∷ 0x01 ∷ 0x00 ∷ 0x39 ∷ 0xdd ∷ [])
        ≡ (0x01 ∷ 0xe2 ∷ 0x00 ∷ 0x03 ∷ 0x01 ∷ 0x7b ∷ 0xbb ∷ 0x00 ∷ 0x03 ∷ 0x02 ∷ 0x82 ∷ 0xcc ∷ []) ∷
        (0x00 ∷ 0x39 ∷ 0xdd ∷ []) ∷ [] }
    ensures z_clear { payload_packets (h266 false) 100 (
        0x00 ∷ 0x00 ∷ 0x01 ∷ 0x40 ∷ 0x79 ∷ 0xbb ∷
        0x00 ∷ 0x00 ∷ 0x01 ∷ 0x40 ∷ 0x81 ∷ 0xcc ∷
        0x00 ∷ 0x00 ∷ 0x01 ∷ 0x00 ∷ 0x39 ∷ 0xdd ∷ [])
        ≡ (0x00 ∷ 0xe1 ∷ 0x00 ∷ 0x03 ∷ 0x40 ∷ 0x79 ∷ 0xbb ∷ 0x00 ∷ 0x03 ∷ 0x40 ∷ 0x81 ∷ 0xcc ∷ []) ∷
        (0x00 ∷ 0x39 ∷ 0xdd ∷ []) ∷ [] }
{}

/// Fragments keep F, Z, layer and temporal id of their unit, and P of a fragment is not looked at.
pub fn headers_of_fragments()
    ensures sent { payload_packets (h266 false) 4 (0xc5 ∷ 0x0a ∷ 0x01 ∷ 0x02 ∷ 0x03 ∷ [])
        ≡ (0xc5 ∷ 0xea ∷ 0x81 ∷ 0x01 ∷ []) ∷
        (0xc5 ∷ 0xea ∷ 0x01 ∷ 0x02 ∷ []) ∷
        (0xc5 ∷ 0xea ∷ 0x41 ∷ 0x03 ∷ []) ∷ [] }
    ensures received { received (map (h266 false).read ((0x41 ∷ 0xea ∷ 0xe1 ∷ 0xaa ∷ []) ∷
        (0x40 ∷ 0x09 ∷ 0xaa ∷ []) ∷ [])) ≡ (0x41 ∷ 0x0a ∷ 0xaa ∷ []) ∷
        (0x40 ∷ 0x09 ∷ 0xaa ∷ []) ∷ [] }
{}

/// With numbers a single packet has five bytes, an aggregate four, and a start may have no data.
pub fn short_numbered_packets()
    ensures single { (h266 true).read (0x00 ∷ 0x09 ∷ 0x00 ∷ 0x05 ∷
        []) ≡ Refused PacketError.ErrShortPacket }
    ensures aggregate { (h266 true).read (0x00 ∷ 0xe1 ∷ 0x00 ∷
        []) ≡ Refused PacketError.ErrShortPacket }
    ensures start { received (map (h266 true).read ((0x00 ∷ 0xe9 ∷ 0x87 ∷ 0x00 ∷ 0x05 ∷ []) ∷
        (0x00 ∷ 0xe9 ∷ 0x47 ∷ 0xaa ∷ []) ∷ [])) ≡ (0x00 ∷ 0x39 ∷ 0xaa ∷ []) ∷ [] }
{}

/// Two bytes are too short, whatever they are; three with F set are corrupted. Types 30 and 31 are
/// units.
pub fn short_before_corrupted()
    ensures short { (h266 false).read (0x00 ∷ 0x09 ∷ []) ≡ Refused PacketError.ErrShortPacket }
    ensures short_first { (h266 false).read (0x80 ∷ 0x01 ∷
        []) ≡ Refused PacketError.ErrShortPacket }
    ensures corrupted { (h266 false).read (0x80 ∷ 0x09 ∷ 0xaa ∷
        []) ≡ Refused PacketError.ErrH266CorruptedPacket }
    ensures sent { payload_packets (h266 false) 100 (0x00 ∷ 0xf1 ∷ 0xaa ∷ []) ≡ (0x00 ∷ 0xf1 ∷
        0xaa ∷ []) ∷ [] }
    ensures read { received (map (h266 false).read ((0x00 ∷ 0xf1 ∷ 0xaa ∷ []) ∷ [])) ≡ (0x00 ∷
        0xf1 ∷ 0xaa ∷ []) ∷ [] }
{}

/// Detection looks no further than it needs: two bytes of a unit, and lengths within an aggregate.
pub fn detection_of_short_packets()
    ensures { map (h266 false).detects (
        (0x00 ∷ 0x39 ∷ []) ∷
        (0x00 ∷ []) ∷
        (0x00 ∷ 0xe1 ∷ 0x00 ∷ 0x02 ∷ 0x00 ∷ 0x39 ∷ []) ∷
        (0x00 ∷ 0xe1 ∷ 0x00 ∷ 0x09 ∷ 0x00 ∷ 0x39 ∷ []) ∷ [])
        ≡ true ∷ false ∷ true ∷ false ∷ [] }
{}

/// Packets can carry units of three bytes with F clear and a type that is not a packet's own, Z set
/// or clear.
pub fn carried_units()
    ensures types { map (h266 false).carries (
        (0x00 ∷ 0x01 ∷ 0xaa ∷ []) ∷
        (0x00 ∷ 0xdf ∷ 0xaa ∷ []) ∷
        (0x00 ∷ 0xe0 ∷ 0xaa ∷ []) ∷
        (0x00 ∷ 0xef ∷ 0xaa ∷ []) ∷
        (0x00 ∷ 0xf0 ∷ 0xaa ∷ []) ∷
        (0x00 ∷ 0xff ∷ 0xaa ∷ []) ∷ [])
        ≡ true ∷ true ∷ false ∷ false ∷ true ∷ true ∷ [] }
    ensures bits { map (h266 false).carries (
        (0x40 ∷ 0x09 ∷ 0xaa ∷ []) ∷ (0x7f ∷ 0x09 ∷ 0xaa ∷ []) ∷ (0x80 ∷ 0x09 ∷ 0xaa ∷ []) ∷
        (0xff ∷ 0x09 ∷ 0xaa ∷ []) ∷ [])
        ≡ true ∷ true ∷ false ∷ false ∷ [] }
    ensures layers_and_temporal_ids { map (h266 false).carries (
        (0x00 ∷ 0x0f ∷ 0xaa ∷ []) ∷ (0x3f ∷ 0x0a ∷ 0xaa ∷ []) ∷ (0x00 ∷ 0x08 ∷ 0xaa ∷ []) ∷ [])
        ≡ true ∷ true ∷ true ∷ [] }
    ensures long { (h266 false).carries (0x00 ∷ 0x39 ∷ replicate 2000 0xaa) ≡ true }
    ensures lengths { map (h266 true).carries (
        [] ∷ (0x00 ∷ []) ∷ (0x00 ∷ 0x09 ∷ []) ∷ (0x00 ∷ 0x09 ∷ 0x00 ∷ []) ∷ [])
        ≡ false ∷ false ∷ false ∷ true ∷ [] }
    ensures all { AreCarried (h266 true)
        ((0x00 ∷ 0x79 ∷ 0xbb ∷ []) ∷ (0x40 ∷ 0x39 ∷ 0xdd ∷ []) ∷ []) }
{}

/// Only the variant of H.266 with its flag tells of a key unit.
pub fn told_of_a_key_unit()
    ensures { map (h266 false).has_key (
        CodecExtra.H266 (record { is_keyframe = true }) ∷
        CodecExtra.H266 (record { is_keyframe = false }) ∷
        CodecExtra.H264 (record { is_keyframe = true }) ∷
        CodecExtra.H265 (record { is_keyframe = true }) ∷
        CodecExtra.None ∷ [])
        ≡ true ∷ false ∷ false ∷ false ∷ false ∷ [] }
{}

/// Units by their types: 14 to 16 are sets, 20, 28, 29 and units without a whole header are
/// skipped; 7 to 9 are key types.
pub fn kinds_of_units()
    ensures kinds { map (h266 false).kind (
        [] ∷ (0x00 ∷ []) ∷ (0x00 ∷ 0x69 ∷ []) ∷ (0x00 ∷ 0x71 ∷ []) ∷ (0x00 ∷ 0x79 ∷ []) ∷
        (0x00 ∷ 0x81 ∷ []) ∷ (0x00 ∷ 0x89 ∷ []) ∷ [])
        ≡ Skipped ∷ Skipped ∷ Other ∷ Vps ∷ Sps ∷ Pps ∷ Other ∷ [] }
    ensures skipped { map (h266 false).kind (
        (0x00 ∷ 0x99 ∷ []) ∷ (0x00 ∷ 0xa1 ∷ []) ∷ (0x00 ∷ 0xa9 ∷ []) ∷
        (0x00 ∷ 0xd9 ∷ []) ∷ (0x00 ∷ 0xe1 ∷ []) ∷ (0x00 ∷ 0xe9 ∷ []) ∷ (0x00 ∷ 0xf1 ∷ []) ∷ [])
        ≡ Other ∷ Skipped ∷ Other ∷ Other ∷ Skipped ∷ Skipped ∷ Other ∷ [] }
    ensures keys { map (h266 false).is_key (
        (0x39 ∷ []) ∷ (0x00 ∷ 0x31 ∷ []) ∷ (0x00 ∷ 0x39 ∷ []) ∷ (0x00 ∷ 0x49 ∷ []) ∷
        (0x00 ∷ 0x51 ∷ []) ∷ [])
        ≡ false ∷ false ∷ true ∷ true ∷ false ∷ [] }
{}

/// Of each kind one set waits, or none.
pub fn sets_that_wait()
    ensures three { AreWaitingSets (h266 false) (record {
      vps = (0x00 ∷ 0x71 ∷ []) ∷ [];
      sps = (0x00 ∷ 0x79 ∷ []) ∷ [];
      pps = (0x00 ∷ 0x81 ∷ []) ∷ [];
    }) }
    ensures vps_alone { AreWaitingSets (h266 false)
        (record { vps = (0x00 ∷ 0x71 ∷ []) ∷ []; sps = []; pps = [] }) }
    ensures wrong_kind { AreWaitingSets (h266 false)
        (record { vps = (0x00 ∷ 0x79 ∷ []) ∷ []; sps = []; pps = [] }) → ⊥ }
{}

/// What is planned and can be sent: a unit alone, one in fragments, and sets in one packet, with
/// numbers.
pub fn items_that_can_be_sent()
    ensures alone { IsPlanned (h266 true) (Alone 5 (0x00 ∷ 0x09 ∷ 0xaa ∷ []))
        × CanSend (h266 true) (Alone 5 (0x00 ∷ 0x09 ∷ 0xaa ∷ [])) }
    ensures in_fragments { IsPlanned (h266 true) (Alone 6 (0x00 ∷ 0x09 ∷ 0xaa ∷ 0xbb ∷ 0xcc ∷ []))
        × CanSend (h266 true) (Alone 6 (0x00 ∷ 0x09 ∷ 0xaa ∷ 0xbb ∷ 0xcc ∷ [])) }
    ensures dropped { IsPlanned (h266 true) (Alone 5 (0x00 ∷ 0x09 ∷ 0xaa ∷ 0xbb ∷ [])) → ⊥ }
    ensures together { IsPlanned (h266 true) (
        Together 14 ((0x00 ∷ 0x79 ∷ 0xbb ∷ []) ∷ (0x00 ∷ 0x81 ∷ 0xcc ∷ []) ∷ [])
        (0x00 ∷ 0x39 ∷ 0xdd ∷ [])) }
    ensures together_sent { CanSend (h266 true) (
        Together 14 ((0x00 ∷ 0x79 ∷ 0xbb ∷ []) ∷ (0x00 ∷ 0x81 ∷ 0xcc ∷ []) ∷ [])
        (0x00 ∷ 0x39 ∷ 0xdd ∷ [])) }
{}

/// A packetizer's own fragments are a rival of themselves, with numbers and without, and so are
/// more and smaller packets; not without a start.
pub fn rivals()
    ensures own { IsRival (h266 false) 4 (0x01 ∷ 0x02 ∷ 0x03 ∷ [])
        (payload_packets (h266 false) 4 (0x00 ∷ 0x09 ∷ 0x01 ∷ 0x02 ∷ 0x03 ∷ [])) }
    ensures has_donl { IsRival (h266 true) 6 (0x01 ∷ 0x02 ∷ 0x03 ∷ 0x04 ∷ 0x05 ∷ [])
        (payload_packets (h266 true) 6 (0x00 ∷ 0x09 ∷ 0x01 ∷ 0x02 ∷ 0x03 ∷ 0x04 ∷ 0x05 ∷ [])) }
    ensures more { IsRival (h266 true) 6 (0x01 ∷ 0x02 ∷ 0x03 ∷ 0x04 ∷ 0x05 ∷ [])
        ((0x00 ∷ 0xe9 ∷ 0x81 ∷ 0x00 ∷ 0x07 ∷ []) ∷
        (0x00 ∷ 0xe9 ∷ 0x41 ∷ 0x01 ∷ 0x02 ∷ []) ∷
        (0x40 ∷ 0xe9 ∷ 0xc1 ∷ 0xff ∷ 0xff ∷ 0x03 ∷ []) ∷
        (0x00 ∷ 0xe9 ∷ 0x02 ∷ 0x04 ∷ 0x05 ∷ []) ∷ []) }
    ensures startless { IsRival (h266 false) 4 (0x01 ∷ 0x02 ∷ [])
        ((0x00 ∷ 0xe9 ∷ 0x01 ∷ 0x01 ∷ []) ∷ (0x00 ∷ 0xe9 ∷ 0x41 ∷ 0x02 ∷ []) ∷ []) → ⊥ }
{}

/// Nothing is dropped where sets go in one packet or each alone, and each other unit alone or in
/// fragments.
pub fn nothing_dropped()
    ensures together { NothingDropped (h266 false) (entries_with_limit 12 (
        (0x00 ∷ 0x79 ∷ 0xbb ∷ []) ∷ (0x00 ∷ 0x81 ∷ 0xcc ∷ []) ∷ (0x00 ∷ 0x39 ∷ 0xdd ∷ []) ∷
        (0x00 ∷ 0x09 ∷ 0x01 ∷ 0x02 ∷ 0x03 ∷ 0x04 ∷ 0x05 ∷ 0x06 ∷
        0x07 ∷ 0x08 ∷ 0x09 ∷ 0x0a ∷ 0x0b ∷ []) ∷ [])) }
    ensures each_alone { NothingDropped (h266 true) (entries_with_limit 5 (
        (0x00 ∷ 0x79 ∷ 0xbb ∷ []) ∷ (0x00 ∷ 0x81 ∷ 0xcc ∷ []) ∷ (0x00 ∷ 0x39 ∷ 0xdd ∷ []) ∷ [])) }
    ensures set_dropped { NothingDropped (h266 true) (entries_with_limit 5 (
        (0x00 ∷ 0x79 ∷ 0xbb ∷ 0xbb ∷ []) ∷ (0x00 ∷ 0x81 ∷ 0xcc ∷ []) ∷
        (0x00 ∷ 0x39 ∷ 0xdd ∷ []) ∷ [])) → ⊥ }
    ensures unit_dropped { NothingDropped (h266 true)
        (entries_with_limit 5 ((0x00 ∷ 0x39 ∷ 0xdd ∷ 0xdd ∷ []) ∷ [])) → ⊥ }
{}

/// What a depacketizer's later answers depend on: one byte for its settings, and the open run.
pub fn a_depacketizers_meaning()
    ensures plain { depacketizer_meaning
        (record { format = h266 false; is_avc = false; run = None }) ≡ (0 ∷ []) ∷ [] }
    ensures has_donl { depacketizer_meaning
        (record { format = h266 true; is_avc = false; run = None }) ≡ (1 ∷ []) ∷ [] }
    ensures lengths { depacketizer_meaning
        (record { format = h266 false; is_avc = true; run = Some [] }) ≡ (2 ∷ []) ∷ [] ∷ [] }
    ensures both { depacketizer_meaning
        (record { format = h266 true; is_avc = true; run = Some (0xaa ∷ []) })
        ≡ (3 ∷ []) ∷ (0xaa ∷ []) ∷ [] }
{}

/// An end writes its unit behind its length.
pub fn a_unit_behind_its_length()
    ensures { after_packets
        (depacketization (record { format = h266 false; is_avc = true; run = Some (0xaa ∷ []) })
        (0xff ∷ []) CodecExtra.None) ((0x00 ∷ 0xe9 ∷ 0x47 ∷ 0xbb ∷ []) ∷ [])
        ≡ depacketization (record { format = h266 false; is_avc = true; run = None })
        (0xff ∷ 0x00 ∷ 0x00 ∷ 0x00 ∷ 0x04 ∷ 0x00 ∷ 0x39 ∷ 0xaa ∷ 0xbb ∷ []) ((h266 false).extra true) }
{}

/// A PPS of temporal id 3 and a slice of temporal id 1 where every unit goes, with numbers from 7 on:
/// one aggregate of the lowest temporal id at limit 14, with DONL once; two packets at 13.
pub fn every_unit_in_the_fewest_packets()
    ensures one { plan_packets (h266_every true) 7 (every_unit (h266_every true) (λ unit. true) 14
        ((0x00 ∷ 0x83 ∷ 1 ∷ []) ∷ (0x00 ∷ 0x09 ∷ 2 ∷ []) ∷ []))
        ≡ (0x00 ∷ 0xe1 ∷ 0 ∷ 7 ∷ 0 ∷ 3 ∷ 0x00 ∷ 0x83 ∷ 1 ∷ 0 ∷ 3 ∷ 0x00 ∷ 0x09 ∷ 2 ∷ []) ∷ [] }
    ensures two { plan_packets (h266_every true) 7 (every_unit (h266_every true) (λ unit. true) 13
        ((0x00 ∷ 0x83 ∷ 1 ∷ []) ∷ (0x00 ∷ 0x09 ∷ 2 ∷ []) ∷ []))
        ≡ (0x00 ∷ 0x83 ∷ 0 ∷ 7 ∷ 1 ∷ []) ∷ (0x00 ∷ 0x09 ∷ 0 ∷ 8 ∷ 2 ∷ []) ∷ [] }
{}
