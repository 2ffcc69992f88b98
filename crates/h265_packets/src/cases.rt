//! Worked cases of packets, on bytes. Each is the contract of a function without a result.

ghost use Rattle.std.specs.Prelude.{◌≡◌, true, false, [], ◌∷◌, replicate, Some, None};
ghost use Rattle.h265_packets.specs.Paci.{paci_fields, paci_packet};
ghost use Rattle.h265_packets.specs.Payload.{empty_aggregation, tsci_shown, units_shown};

/// A unit of type 19 behind an extension of three bytes, of two and of none, and one with F set.
pub fn packed_units()
    ensures tsci { paci_packet (0x26 ∷ 0x01 ∷ 0xaa ∷ []) (0x11 ∷ 0x22 ∷ 0x33 ∷ [])
        ≡ 0x64 ∷ 0x01 ∷ 0x26 ∷ 0x38 ∷ 0x11 ∷ 0x22 ∷ 0x33 ∷ 0xaa ∷ [] }
    ensures short { paci_packet (0x26 ∷ 0x01 ∷ 0xaa ∷ []) (0x11 ∷ 0x22 ∷ [])
        ≡ 0x64 ∷ 0x01 ∷ 0x26 ∷ 0x20 ∷ 0x11 ∷ 0x22 ∷ 0xaa ∷ [] }
    ensures none { paci_packet (0x26 ∷ 0x01 ∷ 0xaa ∷ []) []
        ≡ 0x64 ∷ 0x01 ∷ 0x26 ∷ 0x00 ∷ 0xaa ∷ [] }
    ensures forbidden { paci_packet (0xa6 ∷ 0x01 ∷ 0xaa ∷ []) []
        ≡ 0x64 ∷ 0x01 ∷ 0xa6 ∷ 0x00 ∷ 0xaa ∷ [] }
    ensures longest { paci_fields 0x26 (replicate 31 0xbb) ≡ 0x27f8 }
{}

/// TSCI of an extension of three bytes whose F0 is set, and where one of these is not so.
pub fn shown_tsci()
    ensures tsci { tsci_shown (record {
      header = 0x6401;
      fields = 0x2638;
      phes = 0x11 ∷ 0x22 ∷ 0x33 ∷ [];
      payload = 0xaa ∷ [];
    }) ≡ Some 0x11223300 }
    ensures no_f0 { tsci_shown (record {
      header = 0x6401;
      fields = 0x2630;
      phes = 0x11 ∷ 0x22 ∷ 0x33 ∷ [];
      payload = 0xaa ∷ [];
    }) ≡ None }
    ensures short { tsci_shown (record {
      header = 0x6401;
      fields = 0x2628;
      phes = 0x11 ∷ 0x22 ∷ [];
      payload = 0xaa ∷ [];
    }) ≡ None }
{}

/// The units of an aggregation packet, and of one without any.
pub fn shown_units()
    ensures two { units_shown (record {
      first = Some (record { donl = Some 7; nal_unit = 0x40 ∷ 0x01 ∷ [] });
      others = record { dond = Some 0; nal_unit = 0x42 ∷ 0x01 ∷ [] } ∷ [];
      has_donl = true;
    }) ≡ (0x40 ∷ 0x01 ∷ []) ∷ (0x42 ∷ 0x01 ∷ []) ∷ [] }
    ensures none { units_shown empty_aggregation ≡ [] }
{}
