//! Worked cases on bytes. Each is the contract of a function without a result.

ghost use Rattle.std.specs.Prelude.{◌≡◌, true, false, [], ◌∷◌, map, replicate, Some, None, length, take};
ghost use Rattle.std.specs.List.{range_with_len};
ghost use Rattle.h26x_core.specs.Kind.{Skipped, Vps, Sps, Pps, Other};
ghost use Rattle.h26x_core.specs.declared.error.PacketError.TheVariants.{ErrShortPacket, ErrH265CorruptedPacket};
ghost use Rattle.h26x_core.specs.declared.extra.CodecExtra.TheVariants as extras;
ghost use Rattle.h26x_model.specs.Payload.Reading.{Single, Aggregate, Refused};
ghost use Rattle.h26x_model.specs.Send.Calls.{fresh_call, all_packets, payload_packets};
ghost use Rattle.h26x_model.specs.Send.Plan.{Alone, Together};
ghost use Rattle.h26x_model.specs.Send.WaitingSets.{AreWaitingSets, entries_with_limit};
ghost use Rattle.h26x_model.specs.Send.Rival.{IsRival};
ghost use Rattle.h26x_model.specs.Payload.Don.{DonsInOrder};
ghost use Rattle.h26x_model.specs.Carry.Detection.{AreDetected};
ghost use Rattle.h26x_model.specs.Payload.Facts.{AreCarried, IsPlanned, CanSend};
ghost use Rattle.h26x_model.specs.Send.Again.{NothingDropped};
ghost use Rattle.h26x_model.specs.Send.PacketizerState.{don_after};
ghost use Rattle.h26x_model.specs.Receive.Received.{received};
ghost use Rattle.h26x_model.specs.Receive.DepacketizerState.{depacketization, after_packets, depacketizer_meaning};
ghost use Rattle.h26x_core.specs.ByteStream.{annex_b, byte_stream};
ghost use Rattle.h26x_model.specs.Payload.Extra.{extra_after};
ghost use Rattle.h265_payload.specs.H265.{h265};
ghost use Rattle.h26x_model.specs.Send.Packets.{plan_packets};
ghost use Rattle.h26x_model.specs.Send.Every.{every_unit};
ghost use Rattle.h265_payload.specs.EveryUnit.{h265_every};

/// A unit of five bytes goes in three fragments at a limit of 4: the first starts it, the last ends
/// it.
pub fn unit_in_fragments()
    ensures { payload_packets (h265 false) 4 (0x26 ∷ 0x01 ∷ 0xaa ∷ 0xbb ∷ 0xcc ∷ [])
        ≡ (0x62 ∷ 0x01 ∷ 0x93 ∷ 0xaa ∷ []) ∷ (0x62 ∷ 0x01 ∷ 0x13 ∷ 0xbb ∷ []) ∷
        (0x62 ∷ 0x01 ∷ 0x53 ∷ 0xcc ∷ []) ∷ [] }
{}

/// An mtu under 4 has no effect: nothing is sent.
pub fn small_mtu()
    ensures { payload_packets (h265 false) 3 (0x02 ∷ 0x01 ∷ 0xaa ∷ []) ≡ [] }
{}

/// No packet is longer than 1200 bytes, whatever the mtu.
pub fn large_mtu()
    ensures { payload_packets (h265 false) 5000 (0x26 ∷ 0x01 ∷ replicate 1199 0xaa)
        ≡ (0x62 ∷ 0x01 ∷ 0x93 ∷ replicate 1197 0xaa) ∷ (0x62 ∷ 0x01 ∷ 0x53 ∷ 0xaa ∷ 0xaa ∷ []) ∷
        [] }
{}

/// A number counts against the limit: at 5 a unit of four bytes is dropped, since a first fragment
/// would have no room for data, and one of three fits; at 6 the first fragment bears the number and
/// one byte. A dropped unit takes no number.
pub fn numbers_take_room()
    ensures { all_packets (h265 true) 0 (
        fresh_call 5 (0x02 ∷ 0x01 ∷ 0xaa ∷ 0xbb ∷ []) ∷
        fresh_call 5 (0x02 ∷ 0x01 ∷ 0xaa ∷ []) ∷
        fresh_call 6 (0x02 ∷ 0x01 ∷ 0xaa ∷ 0xbb ∷ 0xcc ∷ []) ∷ [])
        ≡ (0x02 ∷ 0x01 ∷ 0x00 ∷ 0x00 ∷ 0xaa ∷ []) ∷
        (0x62 ∷ 0x01 ∷ 0x81 ∷ 0x00 ∷ 0x01 ∷ 0xaa ∷ []) ∷ (0x62 ∷ 0x01 ∷ 0x41 ∷ 0xbb ∷ 0xcc ∷ []) ∷
        [] }
{}

/// A VPS, an SPS and a PPS before a key unit go in one aggregate where it is within the limit, and
/// alone at one byte less; with numbers each set behind the first bears the difference 0.
pub fn sets_before_a_key_unit()
    ensures together { payload_packets (h265 false) 17 (
        0x00 ∷ 0x00 ∷ 0x01 ∷ 0x40 ∷ 0x01 ∷ 0x0c ∷
        0x00 ∷ 0x00 ∷ 0x01 ∷ 0x42 ∷ 0x01 ∷ 0x01 ∷
        0x00 ∷ 0x00 ∷ 0x01 ∷ 0x44 ∷ 0x01 ∷ 0xc1 ∷
        0x00 ∷ 0x00 ∷ 0x01 ∷ 0x26 ∷ 0x01 ∷ 0xaf ∷ [])
        ≡ (0x60 ∷ 0x01 ∷
        0x00 ∷ 0x03 ∷ 0x40 ∷ 0x01 ∷ 0x0c ∷
        0x00 ∷ 0x03 ∷ 0x42 ∷ 0x01 ∷ 0x01 ∷
        0x00 ∷ 0x03 ∷ 0x44 ∷ 0x01 ∷ 0xc1 ∷ []) ∷
        (0x26 ∷ 0x01 ∷ 0xaf ∷ []) ∷ [] }
    ensures alone { payload_packets (h265 false) 16 (
        0x00 ∷ 0x00 ∷ 0x01 ∷ 0x40 ∷ 0x01 ∷ 0x0c ∷
        0x00 ∷ 0x00 ∷ 0x01 ∷ 0x42 ∷ 0x01 ∷ 0x01 ∷
        0x00 ∷ 0x00 ∷ 0x01 ∷ 0x44 ∷ 0x01 ∷ 0xc1 ∷
        0x00 ∷ 0x00 ∷ 0x01 ∷ 0x26 ∷ 0x01 ∷ 0xaf ∷ [])
        ≡ (0x40 ∷ 0x01 ∷ 0x0c ∷ []) ∷ (0x42 ∷ 0x01 ∷ 0x01 ∷ []) ∷ (0x44 ∷ 0x01 ∷ 0xc1 ∷ []) ∷
        (0x26 ∷ 0x01 ∷ 0xaf ∷ []) ∷ [] }
    ensures has_donl { payload_packets (h265 true) 100 (
        0x00 ∷ 0x00 ∷ 0x01 ∷ 0x40 ∷ 0x01 ∷ 0x0c ∷
        0x00 ∷ 0x00 ∷ 0x01 ∷ 0x42 ∷ 0x01 ∷ 0x01 ∷
        0x00 ∷ 0x00 ∷ 0x01 ∷ 0x44 ∷ 0x01 ∷ 0xc1 ∷
        0x00 ∷ 0x00 ∷ 0x01 ∷ 0x26 ∷ 0x01 ∷ 0xaf ∷ [])
        ≡ (0x60 ∷ 0x01 ∷ 0x00 ∷ 0x00 ∷
        0x00 ∷ 0x03 ∷ 0x40 ∷ 0x01 ∷ 0x0c ∷
        0x00 ∷ 0x00 ∷ 0x03 ∷ 0x42 ∷ 0x01 ∷ 0x01 ∷
        0x00 ∷ 0x00 ∷ 0x03 ∷ 0x44 ∷ 0x01 ∷ 0xc1 ∷ []) ∷
        (0x26 ∷ 0x01 ∷ 0x00 ∷ 0x03 ∷ 0xaf ∷ []) ∷ [] }
{}

/// Where sets go alone and one of them doesn't fit, it is dropped and takes no number.
pub fn dropped_set_takes_no_number()
    ensures { payload_packets (h265 true) 5 (
        0x00 ∷ 0x00 ∷ 0x01 ∷ 0x42 ∷ 0x01 ∷ 0x01 ∷ 0x02 ∷
        0x00 ∷ 0x00 ∷ 0x01 ∷ 0x44 ∷ 0x01 ∷ 0xc1 ∷
        0x00 ∷ 0x00 ∷ 0x01 ∷ 0x26 ∷ 0x01 ∷ 0xaf ∷ [])
        ≡ (0x44 ∷ 0x01 ∷ 0x00 ∷ 0x00 ∷ 0xc1 ∷ []) ∷ (0x26 ∷ 0x01 ∷ 0x00 ∷ 0x01 ∷ 0xaf ∷ []) ∷ [] }
{}

/// Packets that are refused as too short: an aggregate of one unit and a rest, a fragment without
/// data, a PACI without a payload, and with numbers a unit and a start without data behind the
/// number.
pub fn short_packets()
    ensures aggregate { (h265 false).read (0x60 ∷ 0x01 ∷ 0x00 ∷ 0x03 ∷ 0x02 ∷ 0x01 ∷ 0xaa ∷ 0x00 ∷
        0x09 ∷ 0x02 ∷ []) ≡ Refused ErrShortPacket }
    ensures fragment { (h265 false).read (0x62 ∷ 0x01 ∷ 0x93 ∷ []) ≡ Refused ErrShortPacket }
    ensures paci { (h265 false).read (0x64 ∷ 0x01 ∷ 0x26 ∷ 0x38 ∷ 0x11 ∷ 0x22 ∷ 0x33 ∷
        []) ≡ Refused ErrShortPacket }
    ensures numbered_unit { (h265 true).read (0x02 ∷ 0x01 ∷ 0x00 ∷ 0x05 ∷
        []) ≡ Refused ErrShortPacket }
    ensures numbered_start { (h265 true).read (0x62 ∷ 0x01 ∷ 0x93 ∷ 0x00 ∷ 0x07 ∷
        []) ≡ Refused ErrShortPacket }
{}

/// A packet with F set is corrupted.
pub fn forbidden_bit()
    ensures { (h265 false).read (0xe2 ∷ 0x01 ∷ 0x93 ∷ 0xaa ∷ []) ≡ Refused ErrH265CorruptedPacket }
{}

/// What is left behind the whole units of an aggregate is left out.
pub fn rest_of_an_aggregate()
    ensures { (h265 false).read (0x60 ∷ 0x01 ∷ 0x00 ∷ 0x03 ∷ 0x02 ∷ 0x01 ∷ 0xaa ∷ 0x00 ∷ 0x02 ∷
        0x02 ∷ 0x01 ∷ 0x00 ∷ 0x09 ∷ 0x02 ∷ [])
        ≡ Aggregate ((0x02 ∷ 0x01 ∷ 0xaa ∷ [], None) ∷ (0x02 ∷ 0x01 ∷ [], None) ∷ []) }
{}

/// The numbers of an aggregate go round: 65535 and, with a difference of 1 and one more, 1.
pub fn numbers_go_round()
    ensures dons { (h265 true).read (0x60 ∷ 0x01 ∷ 0xff ∷ 0xff ∷ 0x00 ∷ 0x02 ∷ 0x02 ∷ 0x01 ∷
        0x01 ∷ 0x00 ∷ 0x03 ∷ 0x26 ∷ 0x01 ∷ 0xaf ∷ [])
        ≡ Aggregate ((0x02 ∷ 0x01 ∷ [], Some 65535) ∷ (0x26 ∷ 0x01 ∷ 0xaf ∷ [], Some 1) ∷ []) }
    ensures key { extra_after (h265 true) extras.None (received (map (h265 true).read (
        (0x60 ∷ 0x01 ∷ 0xff ∷ 0xff ∷ 0x00 ∷ 0x02 ∷ 0x02 ∷ 0x01 ∷ 0x01 ∷ 0x00 ∷ 0x03 ∷ 0x26 ∷ 0x01 ∷
        0xaf ∷ []) ∷ [])))
        ≡ (h265 true).extra true }
{}

/// A PACI stands for the unit that has its cType and its payload; its extension is left out. A
/// cType of an aggregate is a unit's type like every other.
pub fn paci_stands_for_a_unit()
    ensures extension { received (map (h265 false).read ((0x64 ∷ 0x01 ∷ 0x26 ∷ 0x38 ∷ 0x11 ∷ 0x22 ∷
        0x33 ∷ 0xaa ∷ []) ∷ []))
        ≡ (0x26 ∷ 0x01 ∷ 0xaa ∷ []) ∷ [] }
    ensures aggregate_type { received (map (h265 false).read ((0x64 ∷ 0x01 ∷ 0x60 ∷ 0x00 ∷ 0xaa ∷
        []) ∷ [])) ≡ (0x60 ∷ 0x01 ∷ 0xaa ∷ []) ∷ [] }
    ensures no_key { extra_after (h265 false) extras.None (received (map (h265 false).read (
        (0x64 ∷ 0x01 ∷ 0x60 ∷ 0x00 ∷ 0xaa ∷ []) ∷ [])))
        ≡ (h265 false).extra false }
    ensures key { extra_after (h265 false) extras.None (received (map (h265 false).read (
        (0x64 ∷ 0x01 ∷ 0x26 ∷ 0x38 ∷ 0x11 ∷ 0x22 ∷ 0x33 ∷ 0xaa ∷ []) ∷ [])))
        ≡ (h265 false).extra true }
{}

/// An aggregate and a PACI between a start and an end leave the run open.
pub fn run_through_other_packets()
    ensures units { received (map (h265 false).read (
        (0x62 ∷ 0x01 ∷ 0x93 ∷ 0xaa ∷ []) ∷
        (0x60 ∷ 0x01 ∷ 0x00 ∷ 0x03 ∷ 0x02 ∷ 0x01 ∷ 0xbb ∷ 0x00 ∷ 0x03 ∷ 0x02 ∷ 0x01 ∷ 0xcc ∷ []) ∷
        (0x64 ∷ 0x01 ∷ 0x02 ∷ 0x00 ∷ 0xdd ∷ []) ∷
        (0x62 ∷ 0x01 ∷ 0x53 ∷ 0xee ∷ []) ∷ []))
        ≡ (0x02 ∷ 0x01 ∷ 0xbb ∷ []) ∷ (0x02 ∷ 0x01 ∷ 0xcc ∷ []) ∷ (0x02 ∷ 0x01 ∷ 0xdd ∷ []) ∷
        (0x26 ∷ 0x01 ∷ 0xaa ∷ 0xee ∷ []) ∷ [] }
    ensures key { extra_after (h265 false) extras.None (received (map (h265 false).read (
        (0x62 ∷ 0x01 ∷ 0x93 ∷ 0xaa ∷ []) ∷
        (0x60 ∷ 0x01 ∷ 0x00 ∷ 0x03 ∷ 0x02 ∷ 0x01 ∷ 0xbb ∷ 0x00 ∷ 0x03 ∷ 0x02 ∷ 0x01 ∷ 0xcc ∷ []) ∷
        (0x64 ∷ 0x01 ∷ 0x02 ∷ 0x00 ∷ 0xdd ∷ []) ∷
        (0x62 ∷ 0x01 ∷ 0x53 ∷ 0xee ∷ []) ∷ [])))
        ≡ (h265 false).extra true }
{}

/// A key unit is detected in a start with a number, and not in its later fragments.
pub fn key_unit_detected()
    ensures start { (h265 true).detects (0x62 ∷ 0x01 ∷ 0x93 ∷ 0x00 ∷ 0x07 ∷ 0xaa ∷ []) ≡ true }
    ensures later { (h265 true).detects (0x62 ∷ 0x01 ∷ 0x13 ∷ 0xbb ∷ []) ≡ false }
{}

/// How many packets a unit of eight bytes takes, at each limit up to 10.
pub fn packets_by_limit()
    ensures plain { map (λ mtu. length (payload_packets (h265 false) mtu (0x02 ∷ 0x01 ∷ 0x01 ∷
        0x02 ∷ 0x03 ∷ 0x04 ∷ 0x05 ∷ 0x06 ∷ []))) (range_with_len 0 11)
        ≡ 0 ∷ 0 ∷ 0 ∷ 0 ∷ 6 ∷ 3 ∷ 2 ∷ 2 ∷ 1 ∷ 1 ∷ 1 ∷ [] }
    ensures has_donl { map (λ mtu. length (payload_packets (h265 true) mtu (0x02 ∷ 0x01 ∷ 0x01 ∷
        0x02 ∷ 0x03 ∷ 0x04 ∷ 0x05 ∷ 0x06 ∷ []))) (range_with_len 0 11)
        ≡ 0 ∷ 0 ∷ 0 ∷ 0 ∷ 0 ∷ 0 ∷ 3 ∷ 2 ∷ 2 ∷ 2 ∷ 1 ∷ [] }
{}

/// An aggregate that is cut anywhere holds fewer than two units; units may be empty.
pub fn cut_and_empty_units()
    ensures cut { map (λ n. (h265 false).read (take n (0x60 ∷ 0x01 ∷ 0x00 ∷ 0x03 ∷ 0x02 ∷ 0x01 ∷
        0xaa ∷ 0x00 ∷ 0x02 ∷ 0x02 ∷ 0x01 ∷ []))) (range_with_len 0 11)
        ≡ replicate 11 (Refused ErrShortPacket) }
    ensures whole { received (map (h265 false).read ((0x60 ∷ 0x01 ∷ 0x00 ∷ 0x03 ∷ 0x02 ∷ 0x01 ∷
        0xaa ∷ 0x00 ∷ 0x02 ∷ 0x02 ∷ 0x01 ∷ []) ∷ []))
        ≡ (0x02 ∷ 0x01 ∷ 0xaa ∷ []) ∷ (0x02 ∷ 0x01 ∷ []) ∷ [] }
    ensures empty { byte_stream false (received
        (map (h265 false).read ((0x60 ∷ 0x01 ∷ 0x00 ∷ 0x00 ∷ 0x00 ∷
        0x00 ∷ []) ∷ [])))
        ≡ 0x00 ∷ 0x00 ∷ 0x00 ∷ 0x01 ∷ 0x00 ∷ 0x00 ∷ 0x00 ∷ 0x01 ∷ [] }
    ensures nothing_told { extra_after (h265 false) extras.None
        (received (map (h265 false).read ((0x60 ∷ 0x01 ∷ 0x00 ∷ 0x00 ∷ 0x00 ∷ 0x00 ∷ []) ∷ [])))
        ≡ extras.None }
    ensures has_donl { received (map (h265 true).read ((0x60 ∷ 0x01 ∷ 0x00 ∷ 0x00 ∷ 0x00 ∷ 0x00 ∷
        0x00 ∷ 0x00 ∷ 0x00 ∷ []) ∷ [])) ≡ [] ∷ [] ∷ [] }
    ensures numbered_cut { (h265 true).read (0x60 ∷ 0x01 ∷ 0x00 ∷ 0x00 ∷ 0x00 ∷ 0x00 ∷ 0x00 ∷ 0x00 ∷
        []) ≡ Refused ErrShortPacket }
{}

/// A number stands behind a unit's header, and in the first fragment alone.
pub fn numbers_of_units()
    ensures unit { (h265 true).read (0x02 ∷ 0x01 ∷ 0x00 ∷ 0x05 ∷ 0xaa ∷ []) ≡ Single (0x02 ∷ 0x01 ∷
        0xaa ∷ []) (Some 5) }
    ensures fragments { received (map (h265 true).read ((0x62 ∷ 0x01 ∷ 0x93 ∷ 0x00 ∷ 0x07 ∷ 0xaa ∷
        []) ∷ (0x62 ∷ 0x01 ∷ 0x53 ∷ 0xbb ∷ []) ∷ []))
        ≡ (0x26 ∷ 0x01 ∷ 0xaa ∷ 0xbb ∷ []) ∷ [] }
{}

/// Packets that are refused leave the run open.
pub fn refusals_within_a_run()
    ensures { received (map (h265 false).read (
        (0x62 ∷ 0x01 ∷ 0x93 ∷ 0xaa ∷ []) ∷
        (0x62 ∷ 0x01 ∷ 0x93 ∷ []) ∷
        (0xe2 ∷ 0x01 ∷ 0x93 ∷ 0xaa ∷ []) ∷
        (0x62 ∷ 0x01 ∷ 0x53 ∷ 0xbb ∷ []) ∷ []))
        ≡ (0x26 ∷ 0x01 ∷ 0xaa ∷ 0xbb ∷ []) ∷ [] }
{}

/// Where a set was dropped for its size, what was sent is not what is sent of it again: the other
/// set waits.
pub fn sets_sent_again()
    ensures first { all_packets (h265 false) 0 (
        fresh_call 4 (0x42 ∷ 0x01 ∷ 0x01 ∷ 0x02 ∷ 0x03 ∷ []) ∷
        fresh_call 4 (0x44 ∷ 0x01 ∷ 0xc1 ∷ []) ∷
        fresh_call 4 (0x02 ∷ 0x01 ∷ 0xaa ∷ []) ∷ [])
        ≡ (0x44 ∷ 0x01 ∷ 0xc1 ∷ []) ∷ (0x02 ∷ 0x01 ∷ 0xaa ∷ []) ∷ [] }
    ensures again { payload_packets (h265 false) 4 (annex_b ((0x44 ∷ 0x01 ∷ 0xc1 ∷ []) ∷
        (0x02 ∷ 0x01 ∷ 0xaa ∷ []) ∷ []))
        ≡ (0x02 ∷ 0x01 ∷ 0xaa ∷ []) ∷ [] }
{}

/// Sets go once, before the first unit that they are due for: a VPS does not go again with later
/// sets.
pub fn sets_go_once()
    ensures once { payload_packets (h265 false) 100 (
        0x00 ∷ 0x00 ∷ 0x01 ∷ 0x42 ∷ 0x01 ∷ 0x01 ∷
        0x00 ∷ 0x00 ∷ 0x01 ∷ 0x44 ∷ 0x01 ∷ 0xc1 ∷
        0x00 ∷ 0x00 ∷ 0x01 ∷ 0x26 ∷ 0x01 ∷ 0xaf ∷
        0x00 ∷ 0x00 ∷ 0x01 ∷ 0x02 ∷ 0x01 ∷ 0xaa ∷ [])
        ≡ (0x60 ∷ 0x01 ∷ 0x00 ∷ 0x03 ∷ 0x42 ∷ 0x01 ∷ 0x01 ∷ 0x00 ∷ 0x03 ∷ 0x44 ∷ 0x01 ∷ 0xc1 ∷ []) ∷
        (0x26 ∷ 0x01 ∷ 0xaf ∷ []) ∷
        (0x02 ∷ 0x01 ∷ 0xaa ∷ []) ∷ [] }
    ensures vps_once { payload_packets (h265 false) 100 (
        0x00 ∷ 0x00 ∷ 0x01 ∷ 0x40 ∷ 0x01 ∷ 0x0c ∷
        0x00 ∷ 0x00 ∷ 0x01 ∷ 0x42 ∷ 0x01 ∷ 0x01 ∷
        0x00 ∷ 0x00 ∷ 0x01 ∷ 0x44 ∷ 0x01 ∷ 0xc1 ∷
        0x00 ∷ 0x00 ∷ 0x01 ∷ 0x26 ∷ 0x01 ∷ 0xaf ∷
        0x00 ∷ 0x00 ∷ 0x01 ∷ 0x42 ∷ 0x01 ∷ 0x01 ∷
        0x00 ∷ 0x00 ∷ 0x01 ∷ 0x44 ∷ 0x01 ∷ 0xc1 ∷
        0x00 ∷ 0x00 ∷ 0x01 ∷ 0x26 ∷ 0x01 ∷ 0xaf ∷ [])
        ≡ (0x60 ∷ 0x01 ∷ 0x00 ∷ 0x03 ∷ 0x40 ∷ 0x01 ∷ 0x0c ∷ 0x00 ∷ 0x03 ∷ 0x42 ∷ 0x01 ∷ 0x01 ∷
        0x00 ∷ 0x03 ∷ 0x44 ∷ 0x01 ∷ 0xc1 ∷ []) ∷
        (0x26 ∷ 0x01 ∷ 0xaf ∷ []) ∷
        (0x60 ∷ 0x01 ∷ 0x00 ∷ 0x03 ∷ 0x42 ∷ 0x01 ∷ 0x01 ∷ 0x00 ∷ 0x03 ∷ 0x44 ∷ 0x01 ∷ 0xc1 ∷ []) ∷
        (0x26 ∷ 0x01 ∷ 0xaf ∷ []) ∷ [] }
    ensures latest { payload_packets (h265 false) 100 (
        0x00 ∷ 0x00 ∷ 0x01 ∷ 0x42 ∷ 0x01 ∷ 0x01 ∷
        0x00 ∷ 0x00 ∷ 0x01 ∷ 0x44 ∷ 0x01 ∷ 0xc1 ∷
        0x00 ∷ 0x00 ∷ 0x01 ∷ 0x42 ∷ 0x01 ∷ 0x02 ∷
        0x00 ∷ 0x00 ∷ 0x01 ∷ 0x26 ∷ 0x01 ∷ 0xaf ∷ [])
        ≡ (0x60 ∷ 0x01 ∷ 0x00 ∷ 0x03 ∷ 0x42 ∷ 0x01 ∷ 0x02 ∷ 0x00 ∷ 0x03 ∷ 0x44 ∷ 0x01 ∷ 0xc1 ∷ []) ∷
        (0x26 ∷ 0x01 ∷ 0xaf ∷ []) ∷ [] }
{}

/// A unit in fragments takes one number.
pub fn one_number_a_unit()
    ensures { payload_packets (h265 true) 6 (
        0x00 ∷ 0x00 ∷ 0x01 ∷ 0x02 ∷ 0x01 ∷ 0xaa ∷ 0xbb ∷ 0xcc ∷
        0x00 ∷ 0x00 ∷ 0x01 ∷ 0x02 ∷ 0x01 ∷ 0xaa ∷ [])
        ≡ (0x62 ∷ 0x01 ∷ 0x81 ∷ 0x00 ∷ 0x00 ∷ 0xaa ∷ []) ∷
        (0x62 ∷ 0x01 ∷ 0x41 ∷ 0xbb ∷ 0xcc ∷ []) ∷
        (0x02 ∷ 0x01 ∷ 0x00 ∷ 0x01 ∷ 0xaa ∷ []) ∷ [] }
{}

/// Numbers and differences count in an aggregate: three sets of three bytes take 21 of them, and go
/// alone at 20.
pub fn numbers_take_room_in_an_aggregate()
    ensures at_21 { payload_packets (h265 true) 21 (
        0x00 ∷ 0x00 ∷ 0x01 ∷ 0x40 ∷ 0x01 ∷ 0x0c ∷
        0x00 ∷ 0x00 ∷ 0x01 ∷ 0x42 ∷ 0x01 ∷ 0x01 ∷
        0x00 ∷ 0x00 ∷ 0x01 ∷ 0x44 ∷ 0x01 ∷ 0xc1 ∷
        0x00 ∷ 0x00 ∷ 0x01 ∷ 0x26 ∷ 0x01 ∷ 0xaf ∷ [])
        ≡ (0x60 ∷ 0x01 ∷ 0x00 ∷ 0x00 ∷ 0x00 ∷ 0x03 ∷ 0x40 ∷ 0x01 ∷ 0x0c ∷ 0x00 ∷ 0x00 ∷ 0x03 ∷
        0x42 ∷ 0x01 ∷ 0x01 ∷ 0x00 ∷ 0x00 ∷ 0x03 ∷ 0x44 ∷ 0x01 ∷ 0xc1 ∷ []) ∷
        (0x26 ∷ 0x01 ∷ 0x00 ∷ 0x03 ∷ 0xaf ∷ []) ∷ [] }
    ensures at_20 { payload_packets (h265 true) 20 (
        0x00 ∷ 0x00 ∷ 0x01 ∷ 0x40 ∷ 0x01 ∷ 0x0c ∷
        0x00 ∷ 0x00 ∷ 0x01 ∷ 0x42 ∷ 0x01 ∷ 0x01 ∷
        0x00 ∷ 0x00 ∷ 0x01 ∷ 0x44 ∷ 0x01 ∷ 0xc1 ∷
        0x00 ∷ 0x00 ∷ 0x01 ∷ 0x26 ∷ 0x01 ∷ 0xaf ∷ [])
        ≡ (0x40 ∷ 0x01 ∷ 0x00 ∷ 0x00 ∷ 0x0c ∷ []) ∷
        (0x42 ∷ 0x01 ∷ 0x00 ∷ 0x01 ∷ 0x01 ∷ []) ∷
        (0x44 ∷ 0x01 ∷ 0x00 ∷ 0x02 ∷ 0xc1 ∷ []) ∷
        (0x26 ∷ 0x01 ∷ 0x00 ∷ 0x03 ∷ 0xaf ∷ []) ∷ [] }
{}

/// A delimiter and a unit without a whole header are not sent.
pub fn units_not_sent()
    ensures { payload_packets (h265 false) 100 (
        0x00 ∷ 0x00 ∷ 0x01 ∷ 0x46 ∷ 0x01 ∷ 0x50 ∷
        0x00 ∷ 0x00 ∷ 0x01 ∷ 0x02 ∷
        0x00 ∷ 0x00 ∷ 0x01 ∷ 0x02 ∷ 0x01 ∷ 0xaa ∷ [])
        ≡ (0x02 ∷ 0x01 ∷ 0xaa ∷ []) ∷ [] }
{}

/// Packets have F, layer and temporal id of their unit, in fragments and in the aggregate before
/// it.
pub fn headers_of_packets()
    ensures fragments { payload_packets (h265 false) 5 (0xa7 ∷ 0x0a ∷ 0xaa ∷ 0xbb ∷ 0xcc ∷ 0xdd ∷
        [])
        ≡ (0xe3 ∷ 0x0a ∷ 0x93 ∷ 0xaa ∷ 0xbb ∷ []) ∷
        (0xe3 ∷ 0x0a ∷ 0x53 ∷ 0xcc ∷ 0xdd ∷ []) ∷ [] }
    ensures aggregate { payload_packets (h265 false) 100 (
        0x00 ∷ 0x00 ∷ 0x01 ∷ 0x42 ∷ 0x01 ∷ 0x01 ∷
        0x00 ∷ 0x00 ∷ 0x01 ∷ 0x44 ∷ 0x01 ∷ 0xc1 ∷
        0x00 ∷ 0x00 ∷ 0x01 ∷ 0x27 ∷ 0x0a ∷ 0xaf ∷ [])
        ≡ (0x61 ∷ 0x0a ∷ 0x00 ∷ 0x03 ∷ 0x42 ∷ 0x01 ∷ 0x01 ∷ 0x00 ∷ 0x03 ∷ 0x44 ∷ 0x01 ∷ 0xc1 ∷ []) ∷
        (0x27 ∷ 0x0a ∷ 0xaf ∷ []) ∷ [] }
    ensures forbidden { payload_packets (h265 false) 100 (
        0x00 ∷ 0x00 ∷ 0x01 ∷ 0x42 ∷ 0x01 ∷ 0x01 ∷
        0x00 ∷ 0x00 ∷ 0x01 ∷ 0x44 ∷ 0x01 ∷ 0xc1 ∷
        0x00 ∷ 0x00 ∷ 0x01 ∷ 0xa6 ∷ 0x01 ∷ 0xaf ∷ [])
        ≡ (0xe0 ∷ 0x01 ∷ 0x00 ∷ 0x03 ∷ 0x42 ∷ 0x01 ∷ 0x01 ∷ 0x00 ∷ 0x03 ∷ 0x44 ∷ 0x01 ∷ 0xc1 ∷ []) ∷
        (0xa6 ∷ 0x01 ∷ 0xaf ∷ []) ∷ [] }
    ensures received { received (map (h265 false).read ((0x63 ∷ 0x0a ∷ 0x93 ∷ 0xaa ∷ 0xbb ∷ []) ∷
        (0x63 ∷ 0x0a ∷ 0x53 ∷ 0xcc ∷ 0xdd ∷ []) ∷ []))
        ≡ (0x27 ∷ 0x0a ∷ 0xaa ∷ 0xbb ∷ 0xcc ∷ 0xdd ∷ []) ∷ [] }
{}

/// Types 16 to 21 are key types; of an aggregate the units up to a length under 2 are looked at.
pub fn key_types_detected()
    ensures { map (h265 false).detects (
        (0x1e ∷ 0x01 ∷ 0xaa ∷ []) ∷
        (0x20 ∷ 0x01 ∷ 0xaa ∷ []) ∷
        (0x2a ∷ 0x01 ∷ 0xaa ∷ []) ∷
        (0x2c ∷ 0x01 ∷ 0xaa ∷ []) ∷
        (0x64 ∷ 0x01 ∷ 0x26 ∷ 0x00 ∷ 0xaa ∷ []) ∷
        (0x60 ∷ 0x01 ∷ 0x00 ∷ 0x03 ∷ 0x02 ∷ 0x01 ∷ 0xaa ∷ 0x00 ∷ 0x03 ∷ 0x26 ∷ 0x01 ∷ 0xaf ∷ []) ∷
        (0x60 ∷ 0x01 ∷ 0x00 ∷ 0x01 ∷ 0x26 ∷ 0x00 ∷ 0x03 ∷ 0x26 ∷ 0x01 ∷ 0xaf ∷ []) ∷ [])
        ≡ false ∷ true ∷ true ∷ false ∷ false ∷ true ∷ false ∷ [] }
{}

/// A start code takes all zeros before it.
pub fn zeros_before_a_start_code()
    ensures { payload_packets (h265 false) 1200 (0x00 ∷ 0x00 ∷ 0x01 ∷ 0x00 ∷ 0x09 ∷ 0xaa ∷ 0x00 ∷
        0x00 ∷ 0x00 ∷ 0x00 ∷ 0x01 ∷ 0x00 ∷ 0x11 ∷ 0xbb ∷ []) ≡ (0x00 ∷ 0x09 ∷ 0xaa ∷ []) ∷
        (0x00 ∷ 0x11 ∷ 0xbb ∷ []) ∷ [] }
{}

/// A PACI bears no number, and stands for a unit with its A as F, and its layer and temporal id.
pub fn headers_of_a_paci()
    ensures has_donl { received (map (h265 true).read ((0x64 ∷ 0x01 ∷ 0x60 ∷ 0x00 ∷ 0xaa ∷ []) ∷
        [])) ≡ (0x60 ∷ 0x01 ∷ 0xaa ∷ []) ∷ [] }
    ensures header { received (map (h265 false).read ((0x65 ∷ 0x0a ∷ 0xa6 ∷ 0x00 ∷ 0xbb ∷ []) ∷ []))
        ≡ (0xa7 ∷ 0x0a ∷ 0xbb ∷ []) ∷ [] }
{}

/// Units of every type but the delimiter's are sent, of the packets' own types too; types from 51
/// on are units to read.
pub fn units_of_other_types()
    ensures sent { payload_packets (h265 false) 100 (
        0x00 ∷ 0x00 ∷ 0x01 ∷ 0x60 ∷ 0x01 ∷ 0xaa ∷
        0x00 ∷ 0x00 ∷ 0x01 ∷ 0x4c ∷ 0x01 ∷ 0xff ∷ 0x80 ∷ [])
        ≡ (0x60 ∷ 0x01 ∷ 0xaa ∷ []) ∷
        (0x4c ∷ 0x01 ∷ 0xff ∷ 0x80 ∷ []) ∷ [] }
    ensures read { (h265 false).read (0x66 ∷ 0x01 ∷ 0xaa ∷ []) ≡ Single (0x66 ∷ 0x01 ∷ 0xaa ∷
        []) None }
{}

/// Two bytes are too short, whatever they are; three with F set are corrupted.
pub fn short_before_corrupted()
    ensures short { (h265 false).read (0x02 ∷ 0x01 ∷ []) ≡ Refused ErrShortPacket }
    ensures short_first { (h265 false).read (0xe2 ∷ 0x01 ∷ []) ≡ Refused ErrShortPacket }
    ensures corrupted { (h265 false).read (0xe2 ∷ 0x01 ∷ 0x93 ∷
        []) ≡ Refused ErrH265CorruptedPacket }
{}

/// In an aggregate F of a unit is not looked at, and with numbers too a rest without a whole unit
/// is left out; a unit of one byte is told of by nothing.
pub fn units_of_an_aggregate()
    ensures forbidden { received (map (h265 false).read ((0x60 ∷ 0x01 ∷ 0x00 ∷ 0x02 ∷ 0x82 ∷ 0x01 ∷
        0x00 ∷ 0x02 ∷ 0x02 ∷ 0x01 ∷ []) ∷ [])) ≡ (0x82 ∷ 0x01 ∷ []) ∷
        (0x02 ∷ 0x01 ∷ []) ∷ [] }
    ensures rest { (h265 true).read (0x60 ∷ 0x01 ∷ 0x00 ∷ 0x05 ∷ 0x00 ∷ 0x02 ∷ 0x02 ∷ 0x01 ∷ 0x00 ∷
        0x00 ∷ 0x02 ∷ 0x04 ∷ 0x01 ∷ 0x00 ∷ 0x00 ∷ []) ≡ Aggregate ((0x02 ∷ 0x01 ∷ [], Some 5) ∷
        (0x04 ∷ 0x01 ∷ [], Some 6) ∷ []) }
    ensures one_byte { extra_after (h265 false) extras.None
        (received (map (h265 false).read ((0x60 ∷ 0x01 ∷ 0x00 ∷ 0x01 ∷ 0x26 ∷ 0x00 ∷ 0x01 ∷ 0x26 ∷
        []) ∷ []))) ≡ extras.None }
{}

/// A unit in fragments has the header of its end.
pub fn header_of_the_end()
    ensures { received (map (h265 false).read ((0x62 ∷ 0x01 ∷ 0x93 ∷ 0xaa ∷ []) ∷
        (0x62 ∷ 0x02 ∷ 0x41 ∷ 0xbb ∷ []) ∷ [])) ≡ (0x02 ∷ 0x02 ∷ 0xaa ∷ 0xbb ∷ []) ∷ [] }
{}

/// Detection looks no further than it needs: two bytes of a unit, three of a fragment, and lengths
/// within an aggregate.
pub fn detection_of_short_packets()
    ensures { map (h265 false).detects (
        (0x26 ∷ 0x01 ∷ []) ∷
        (0x26 ∷ []) ∷
        (0x62 ∷ 0x01 ∷ 0x93 ∷ []) ∷
        (0x62 ∷ 0x01 ∷ []) ∷
        (0x60 ∷ 0x01 ∷ 0x00 ∷ 0x02 ∷ 0x26 ∷ 0x01 ∷ []) ∷
        (0x60 ∷ 0x01 ∷ 0x00 ∷ 0x09 ∷ 0x26 ∷ 0x01 ∷ []) ∷ [])
        ≡ true ∷ false ∷ true ∷ false ∷ true ∷ false ∷ [] }
{}

/// Packets can carry units of three bytes with F clear and a type that is not a packet's own.
pub fn carried_units()
    ensures types { map (h265 false).carries (
        (0x00 ∷ 0x01 ∷ 0xaa ∷ []) ∷
        (0x5f ∷ 0x01 ∷ 0xaa ∷ []) ∷
        (0x60 ∷ 0x01 ∷ 0xaa ∷ []) ∷
        (0x62 ∷ 0x01 ∷ 0xaa ∷ []) ∷
        (0x65 ∷ 0x01 ∷ 0xaa ∷ []) ∷
        (0x66 ∷ 0x01 ∷ 0xaa ∷ []) ∷
        (0x7f ∷ 0x01 ∷ 0xaa ∷ []) ∷ [])
        ≡ true ∷ true ∷ false ∷ false ∷ false ∷ true ∷ true ∷ [] }
    ensures layers_and_temporal_ids { map (h265 false).carries (
        (0x02 ∷ 0x07 ∷ 0xaa ∷ []) ∷ (0x27 ∷ 0xff ∷ 0xaf ∷ []) ∷ (0x02 ∷ 0x00 ∷ 0xaa ∷ []) ∷ [])
        ≡ true ∷ true ∷ true ∷ [] }
    ensures long { (h265 false).carries (0x26 ∷ 0x01 ∷ replicate 2000 0xaa) ≡ true }
    ensures forbidden { map (h265 false).carries (
        (0x80 ∷ 0x01 ∷ 0xaa ∷ []) ∷ (0xff ∷ 0x01 ∷ 0xaa ∷ []) ∷ [])
        ≡ false ∷ false ∷ [] }
    ensures lengths { map (h265 true).carries (
        [] ∷ (0x02 ∷ []) ∷ (0x02 ∷ 0x01 ∷ []) ∷ (0x02 ∷ 0x01 ∷ 0x00 ∷ []) ∷ [])
        ≡ false ∷ false ∷ false ∷ true ∷ [] }
    ensures all { AreCarried (h265 true)
        ((0x42 ∷ 0x01 ∷ 0x01 ∷ []) ∷ (0x26 ∷ 0x01 ∷ 0xaf ∷ []) ∷ []) }
{}

/// The numbers of units go on round from the next one; a packet that begins another unit with another
/// number is out of order.
pub fn numbers_in_order()
    ensures round { DonsInOrder (h265 true) 65535 (
        Alone 6 (0x02 ∷ 0x01 ∷ 0xaa ∷ []) ∷
        Alone 6 (0x02 ∷ 0x01 ∷ 0xaa ∷ 0xbb ∷ 0xcc ∷ []) ∷
        Alone 6 (0x02 ∷ 0x01 ∷ 0xbb ∷ []) ∷ []) }
    ensures none { DonsInOrder (h265 false) 7 (Alone 6 (0x02 ∷ 0x01 ∷ 0xaa ∷ []) ∷ []) }
    ensures another { DonsInOrder (h265 true) 0x8000
        (Alone 9 (0x62 ∷ 0x01 ∷ 0xaa ∷ 0xbb ∷ 0xcc ∷ []) ∷ []) → ⊥ }
{}

/// Key units are detected with numbers too; a packet of another unit that is taken for one is no
/// detection.
pub fn detected_items()
    ensures key { AreDetected (h265 true) 7 (
        Alone 6 (0x02 ∷ 0x01 ∷ 0xaa ∷ []) ∷
        Alone 6 (0x26 ∷ 0x01 ∷ 0xaa ∷ 0xbb ∷ 0xcc ∷ []) ∷ []) }
    ensures another { AreDetected (h265 true) 3
        (Alone 9 (0x60 ∷ 0x01 ∷ 0x26 ∷ 0x01 ∷ 0xaf ∷ []) ∷ []) → ⊥ }
{}

/// Only the variant of H.265 with its flag tells of a key unit.
pub fn told_of_a_key_unit()
    ensures { map (h265 false).has_key (
        extras.H265 (record { is_keyframe = true }) ∷
        extras.H265 (record { is_keyframe = false }) ∷
        extras.H264 (record { is_keyframe = true }) ∷
        extras.H266 (record { is_keyframe = true }) ∷
        extras.None ∷ [])
        ≡ true ∷ false ∷ false ∷ false ∷ false ∷ [] }
{}

/// Units by their types: 32 to 34 are sets, 35 and units without a whole header are skipped; 16 to
/// 21 are key types.
pub fn kinds_of_units()
    ensures kinds { map (h265 false).kind (
        [] ∷ (0x40 ∷ []) ∷ (0x3e ∷ 0x01 ∷ []) ∷
        (0x40 ∷ 0x01 ∷ []) ∷ (0x42 ∷ 0x01 ∷ []) ∷ (0x44 ∷ 0x01 ∷ []) ∷
        (0x46 ∷ 0x01 ∷ []) ∷ (0x48 ∷ 0x01 ∷ []) ∷ (0x60 ∷ 0x01 ∷ []) ∷ [])
        ≡ Skipped ∷ Skipped ∷ Other ∷ Vps ∷ Sps ∷ Pps ∷ Skipped ∷ Other ∷ Other ∷ [] }
    ensures keys { map (h265 false).is_key (
        (0x26 ∷ []) ∷ (0x1e ∷ 0x01 ∷ []) ∷ (0x20 ∷ 0x01 ∷ []) ∷ (0x2a ∷ 0x01 ∷ []) ∷
        (0x2c ∷ 0x01 ∷ []) ∷ [])
        ≡ false ∷ false ∷ true ∷ true ∷ false ∷ [] }
{}

/// Of each kind one set waits, or none.
pub fn sets_that_wait()
    ensures three { AreWaitingSets (h265 false) (record {
      vps = (0x40 ∷ 0x01 ∷ []) ∷ [];
      sps = (0x42 ∷ 0x01 ∷ []) ∷ [];
      pps = (0x44 ∷ 0x01 ∷ []) ∷ [];
    }) }
    ensures vps_alone { AreWaitingSets (h265 false)
        (record { vps = (0x40 ∷ 0x01 ∷ []) ∷ []; sps = []; pps = [] }) }
    ensures wrong_kind { AreWaitingSets (h265 false)
        (record { vps = (0x42 ∷ 0x01 ∷ []) ∷ []; sps = []; pps = [] }) → ⊥ }
{}

/// What is planned and can be sent: a unit alone, one in fragments, and sets in one packet, with
/// numbers.
pub fn items_that_can_be_sent()
    ensures alone { IsPlanned (h265 true) (Alone 5 (0x02 ∷ 0x01 ∷ 0xaa ∷ []))
        × CanSend (h265 true) (Alone 5 (0x02 ∷ 0x01 ∷ 0xaa ∷ [])) }
    ensures in_fragments { IsPlanned (h265 true) (Alone 6 (0x02 ∷ 0x01 ∷ 0xaa ∷ 0xbb ∷ 0xcc ∷ []))
        × CanSend (h265 true) (Alone 6 (0x02 ∷ 0x01 ∷ 0xaa ∷ 0xbb ∷ 0xcc ∷ [])) }
    ensures dropped { IsPlanned (h265 true) (Alone 5 (0x02 ∷ 0x01 ∷ 0xaa ∷ 0xbb ∷ [])) → ⊥ }
    ensures together { IsPlanned (h265 true) (
        Together 15 ((0x42 ∷ 0x01 ∷ 0x01 ∷ []) ∷ (0x44 ∷ 0x01 ∷ 0xc1 ∷ []) ∷ [])
        (0x26 ∷ 0x01 ∷ 0xaf ∷ [])) }
    ensures together_sent { CanSend (h265 true) (
        Together 15 ((0x42 ∷ 0x01 ∷ 0x01 ∷ []) ∷ (0x44 ∷ 0x01 ∷ 0xc1 ∷ []) ∷ [])
        (0x26 ∷ 0x01 ∷ 0xaf ∷ [])) }
{}

/// A packetizer's own fragments are a rival of themselves, with numbers and without, and so are
/// more and smaller packets; not without a start.
pub fn rivals()
    ensures own { IsRival (h265 false) 4 (0xaa ∷ 0xbb ∷ 0xcc ∷ [])
        (payload_packets (h265 false) 4 (0x26 ∷ 0x01 ∷ 0xaa ∷ 0xbb ∷ 0xcc ∷ [])) }
    ensures has_donl { IsRival (h265 true) 6 (0xaa ∷ 0xbb ∷ 0xcc ∷ 0xdd ∷ 0xee ∷ [])
        (payload_packets (h265 true) 6 (0x26 ∷ 0x01 ∷ 0xaa ∷ 0xbb ∷ 0xcc ∷ 0xdd ∷ 0xee ∷ [])) }
    ensures more { IsRival (h265 true) 6 (0xaa ∷ 0xbb ∷ 0xcc ∷ 0xdd ∷ 0xee ∷ [])
        ((0x62 ∷ 0x01 ∷ 0x93 ∷ 0x00 ∷ 0x07 ∷ 0xaa ∷ []) ∷
        (0x62 ∷ 0x01 ∷ 0x53 ∷ 0xbb ∷ []) ∷
        (0x62 ∷ 0x01 ∷ 0xd3 ∷ 0xff ∷ 0xff ∷ 0xcc ∷ []) ∷
        (0x63 ∷ 0x01 ∷ 0x02 ∷ 0xdd ∷ 0xee ∷ []) ∷ []) }
    ensures first_ends { IsRival (h265 false) 4 (0xaa ∷ 0xbb ∷ [])
        ((0x62 ∷ 0x01 ∷ 0xd3 ∷ 0xaa ∷ []) ∷ (0x62 ∷ 0x01 ∷ 0x13 ∷ 0xbb ∷ []) ∷ []) }
    ensures startless { IsRival (h265 false) 4 (0xaa ∷ 0xbb ∷ [])
        ((0x62 ∷ 0x01 ∷ 0x13 ∷ 0xaa ∷ []) ∷ (0x62 ∷ 0x01 ∷ 0x53 ∷ 0xbb ∷ []) ∷ []) → ⊥ }
{}

/// Nothing is dropped where sets go in one packet or each alone, and each other unit alone or in
/// fragments.
pub fn nothing_dropped()
    ensures together { NothingDropped (h265 false) (entries_with_limit 12 (
        (0x42 ∷ 0x01 ∷ 0x01 ∷ []) ∷ (0x44 ∷ 0x01 ∷ 0xc1 ∷ []) ∷ (0x26 ∷ 0x01 ∷ 0xaf ∷ []) ∷
        (0x02 ∷ 0x01 ∷ 0x01 ∷ 0x02 ∷ 0x03 ∷ 0x04 ∷ 0x05 ∷ 0x06 ∷
        0x07 ∷ 0x08 ∷ 0x09 ∷ 0x0a ∷ 0x0b ∷ []) ∷ [])) }
    ensures each_alone { NothingDropped (h265 true) (entries_with_limit 5 (
        (0x42 ∷ 0x01 ∷ 0x01 ∷ []) ∷ (0x44 ∷ 0x01 ∷ 0xc1 ∷ []) ∷ (0x26 ∷ 0x01 ∷ 0xaf ∷ []) ∷ [])) }
    ensures many { NothingDropped (h265 true)
        (entries_with_limit 6 (replicate 20 (0x26 ∷ 0x01 ∷ 0xaf ∷ []))) }
    ensures set_dropped { NothingDropped (h265 true) (entries_with_limit 5 (
        (0x42 ∷ 0x01 ∷ 0x01 ∷ 0x02 ∷ []) ∷ (0x44 ∷ 0x01 ∷ 0xc1 ∷ []) ∷
        (0x26 ∷ 0x01 ∷ 0xaf ∷ []) ∷ [])) → ⊥ }
    ensures unit_dropped { NothingDropped (h265 true)
        (entries_with_limit 5 ((0x26 ∷ 0x01 ∷ 0xaf ∷ 0xbb ∷ []) ∷ [])) → ⊥ }
{}

/// A unit with F set, and one of an aggregate's type, go in fragments too: the first alone starts
/// it, the last alone ends it.
pub fn fragments_of_units_that_are_not_carried()
    ensures forbidden { payload_packets (h265 false) 4 (0xa6 ∷ 0x01 ∷ 0xaa ∷ 0xbb ∷ 0xcc ∷ [])
        ≡ (0xe2 ∷ 0x01 ∷ 0x93 ∷ 0xaa ∷ []) ∷ (0xe2 ∷ 0x01 ∷ 0x13 ∷ 0xbb ∷ []) ∷
        (0xe2 ∷ 0x01 ∷ 0x53 ∷ 0xcc ∷ []) ∷ [] }
    ensures aggregate { payload_packets (h265 false) 4 (0x60 ∷ 0x01 ∷ 0xaa ∷ 0xbb ∷ 0xcc ∷ [])
        ≡ (0x62 ∷ 0x01 ∷ 0xb0 ∷ 0xaa ∷ []) ∷ (0x62 ∷ 0x01 ∷ 0x30 ∷ 0xbb ∷ []) ∷
        (0x62 ∷ 0x01 ∷ 0x70 ∷ 0xcc ∷ []) ∷ [] }
{}

/// The limit is the lesser of the mtu and the largest packet size as the call is made: sets of 1302
/// and 3 bytes go together at 1400, each alone at 1310, and the first is dropped at 1200. That of
/// the last call counts, which brings the other unit.
pub fn largest_packet_sizes()
    ensures together { map length (all_packets (h265 false) 0 (
        record { mtu = 5000; max_packet_size = 1400; payload = 0x42 ∷ 0x01 ∷ replicate 1300 0xaa } ∷
        record { mtu = 5000; max_packet_size = 1400; payload = 0x44 ∷ 0x01 ∷ 0xc1 ∷ [] } ∷
        record { mtu = 5000; max_packet_size = 1400; payload = 0x26 ∷ 0x01 ∷ 0xaf ∷ [] } ∷ []))
        ≡ 1311 ∷ 3 ∷
        [] }
    ensures each_alone { map length (all_packets (h265 false) 0 (
        record { mtu = 5000; max_packet_size = 1310; payload = 0x42 ∷ 0x01 ∷ replicate 1300 0xaa } ∷
        record { mtu = 5000; max_packet_size = 1310; payload = 0x44 ∷ 0x01 ∷ 0xc1 ∷ [] } ∷
        record { mtu = 5000; max_packet_size = 1310; payload = 0x26 ∷ 0x01 ∷ 0xaf ∷ [] } ∷ []))
        ≡ 1302 ∷ 3 ∷
        3 ∷ [] }
    ensures one_dropped { all_packets (h265 false) 0 (
        record { mtu = 5000; max_packet_size = 1200; payload = 0x42 ∷ 0x01 ∷ replicate 1300 0xaa } ∷
        record { mtu = 5000; max_packet_size = 1200; payload = 0x44 ∷ 0x01 ∷ 0xc1 ∷ [] } ∷
        record { mtu = 5000; max_packet_size = 1200; payload = 0x26 ∷ 0x01 ∷ 0xaf ∷ [] } ∷ [])
        ≡ (0x44 ∷ 0x01 ∷ 0xc1 ∷ []) ∷ (0x26 ∷ 0x01 ∷ 0xaf ∷ []) ∷ [] }
    ensures changed { all_packets (h265 false) 0 (
        record { mtu = 5000; max_packet_size = 1400; payload = 0x42 ∷ 0x01 ∷ replicate 1300 0xaa } ∷
        record { mtu = 5000; max_packet_size = 1400; payload = 0x44 ∷ 0x01 ∷ 0xc1 ∷ [] } ∷
        record { mtu = 5000; max_packet_size = 1200; payload = 0x26 ∷ 0x01 ∷ 0xaf ∷ [] } ∷ [])
        ≡ (0x44 ∷ 0x01 ∷ 0xc1 ∷ []) ∷ (0x26 ∷ 0x01 ∷ 0xaf ∷ []) ∷ [] }
    ensures mtu { payload_packets (h265 false) 4 (0x26 ∷ 0x01 ∷ 0xaa ∷ 0xbb ∷ 0xcc ∷ [])
        ≡ all_packets (h265 false) 0 (record {
          mtu = 5000;
          max_packet_size = 4;
          payload = 0x26 ∷ 0x01 ∷
              0xaa ∷ 0xbb ∷ 0xcc ∷ [];
        } ∷ []) }
{}

/// Decoding order numbers go round behind 65535, and calls without effect leave it.
pub fn a_counter_goes_round()
    ensures round { all_packets (h265 true) 65535 (
        fresh_call 100 (0x02 ∷ 0x01 ∷ 0xaa ∷ []) ∷ fresh_call 3 (0x02 ∷ 0x01 ∷ 0xaa ∷ []) ∷
        fresh_call 100 (0x46 ∷ 0x01 ∷ []) ∷
        fresh_call 100 (0x02 ∷ 0x01 ∷ 0xbb ∷ []) ∷ [])
        ≡ (0x02 ∷ 0x01 ∷ 0xff ∷ 0xff ∷ 0xaa ∷ []) ∷ (0x02 ∷ 0x01 ∷ 0x00 ∷ 0x00 ∷ 0xbb ∷ []) ∷ [] }
    ensures counted { don_after true 65535 2 ≡ 1 }
    ensures not_counted { don_after false 0 2 ≡ 0 }
{}

/// What a depacketizer's later answers depend on: one byte for its settings, and the open run.
pub fn a_depacketizers_meaning()
    ensures plain { depacketizer_meaning
        (record { format = h265 false; is_avc = false; run = None }) ≡ (0 ∷ []) ∷ [] }
    ensures has_donl { depacketizer_meaning
        (record { format = h265 true; is_avc = false; run = None }) ≡ (1 ∷ []) ∷ [] }
    ensures lengths { depacketizer_meaning
        (record { format = h265 false; is_avc = true; run = Some [] }) ≡ (2 ∷ []) ∷ [] ∷ [] }
    ensures both { depacketizer_meaning
        (record { format = h265 true; is_avc = true; run = Some (0xaa ∷ []) })
        ≡ (3 ∷ []) ∷ (0xaa ∷ []) ∷ [] }
{}

/// An end writes its unit behind its length.
pub fn a_unit_behind_its_length()
    ensures { after_packets
        (depacketization (record { format = h265 false; is_avc = true; run = Some (0xaa ∷ []) })
        (0xff ∷ []) extras.None) ((0x62 ∷ 0x01 ∷ 0x53 ∷ 0xbb ∷ []) ∷ [])
        ≡ depacketization (record { format = h265 false; is_avc = true; run = None })
        (0xff ∷ 0x00 ∷ 0x00 ∷ 0x00 ∷ 0x04 ∷ 0x26 ∷ 0x01 ∷ 0xaa ∷ 0xbb ∷ []) ((h265 false).extra true) }
{}

/// A PPS of temporal id 3 and a slice of temporal id 1 where every unit goes, with numbers from 7 on:
/// one aggregate of the lowest temporal id at limit 15, with DONL once and a DOND of 0; two packets
/// at 14. An end of sequence of two bytes goes in an aggregate too.
pub fn every_unit_in_the_fewest_packets()
    ensures one { plan_packets (h265_every true) 7 (every_unit (h265_every true) (λ unit. true) 15
        ((0x44 ∷ 0x03 ∷ 1 ∷ []) ∷ (0x02 ∷ 0x01 ∷ 2 ∷ []) ∷ []))
        ≡ (0x60 ∷ 0x01 ∷ 0 ∷ 7 ∷ 0 ∷ 3 ∷ 0x44 ∷ 0x03 ∷ 1 ∷ 0 ∷ 0 ∷ 3 ∷ 0x02 ∷ 0x01 ∷ 2 ∷ []) ∷ [] }
    ensures two { plan_packets (h265_every true) 7 (every_unit (h265_every true) (λ unit. true) 14
        ((0x44 ∷ 0x03 ∷ 1 ∷ []) ∷ (0x02 ∷ 0x01 ∷ 2 ∷ []) ∷ []))
        ≡ (0x44 ∷ 0x03 ∷ 0 ∷ 7 ∷ 1 ∷ []) ∷ (0x02 ∷ 0x01 ∷ 0 ∷ 8 ∷ 2 ∷ []) ∷ [] }
    ensures end { plan_packets (h265_every false) 0 (every_unit (h265_every false) (λ unit. true) 11
        ((0x02 ∷ 0x01 ∷ 2 ∷ []) ∷ (0x48 ∷ 0x01 ∷ []) ∷ []))
        ≡ (0x60 ∷ 0x01 ∷ 0 ∷ 3 ∷ 0x02 ∷ 0x01 ∷ 2 ∷ 0 ∷ 2 ∷ 0x48 ∷ 0x01 ∷ []) ∷ [] }
{}
