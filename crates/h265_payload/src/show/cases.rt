//! Worked cases of what is shown, on bytes. Each is the contract of a function without a result.

ghost use Rattle.std.specs.Prelude.{◌≡◌, true, false, [], ◌∷◌, Some, None};
ghost use Rattle.h265_payload.specs.Shown.{aggregate_shown, shown, units_numbered};
ghost use Rattle.h265_packets.specs.declared.payload.H265Payload.TheVariants as p;

/// A single packet and fragments, with numbers and without.
pub fn packets_of_one_unit_shown()
    ensures single { shown false (0x02 ∷ 0x01 ∷ 0xaa ∷ []) ≡ p.H265SingleNALUnitPacket (record {
      header = 0x0201;
      donl = None;
      payload = 0xaa ∷ [];
      has_donl = false;
    }) }
    ensures has_donl { shown true (0x02 ∷ 0x01 ∷ 0x00 ∷ 0x05 ∷ 0xaa ∷ [])
        ≡ p.H265SingleNALUnitPacket (record {
          header = 0x0201;
          donl = Some 5;
          payload = 0xaa ∷ [];
          has_donl = true;
        }) }
    ensures start { shown true (0x62 ∷ 0x01 ∷ 0x93 ∷ 0x00 ∷ 0x07 ∷ 0xaa ∷ [])
        ≡ p.H265FragmentationUnitPacket (record {
          header = 0x6201;
          fu_header = 0x93;
          donl = Some 7;
          payload = 0xaa ∷ [];
          has_donl = true;
        }) }
    ensures later { shown true (0x62 ∷ 0x01 ∷ 0x53 ∷ 0xbb ∷ [])
        ≡ p.H265FragmentationUnitPacket (record {
          header = 0x6201;
          fu_header = 0x53;
          donl = None;
          payload = 0xbb ∷ [];
          has_donl = true;
        }) }
{}

/// A PACI packet, which bears no number.
pub fn paci_packets_shown()
    ensures { shown true (0x64 ∷ 0x01 ∷ 0x26 ∷ 0x38 ∷ 0x11 ∷ 0x22 ∷ 0x33 ∷ 0xaa ∷ [])
        ≡ p.H265PACIPacket (record {
          header = 0x6401;
          fields = 0x2638;
          phes = 0x11 ∷ 0x22 ∷ 0x33 ∷ [];
          payload = 0xaa ∷ [];
        }) }
{}

/// Aggregates: with numbers, which go round; without, and with a rest that is no whole unit; and of
/// units without a byte.
pub fn aggregates_shown()
    ensures has_donl { aggregate_shown true (0xff ∷ 0xff ∷ 0x00 ∷ 0x02 ∷ 0x02 ∷ 0x01 ∷ 0x01 ∷
        0x00 ∷ 0x03 ∷ 0x26 ∷ 0x01 ∷ 0xaf ∷ []) ≡ record {
          first = Some (record { donl = Some 65535; nal_unit = 0x02 ∷ 0x01 ∷ [] });
          others = record { dond = Some 1; nal_unit = 0x26 ∷ 0x01 ∷ 0xaf ∷ [] } ∷ [];
          has_donl = true;
        } }
    ensures dons { units_numbered (aggregate_shown true (0xff ∷ 0xff ∷ 0x00 ∷ 0x02 ∷ 0x02 ∷
        0x01 ∷ 0x01 ∷ 0x00 ∷ 0x03 ∷ 0x26 ∷ 0x01 ∷ 0xaf ∷ []))
        ≡ (0x02 ∷ 0x01 ∷ [], Some 65535) ∷ (0x26 ∷ 0x01 ∷ 0xaf ∷ [], Some 1) ∷ [] }
    ensures rest { aggregate_shown false (0x00 ∷ 0x03 ∷ 0x02 ∷ 0x01 ∷ 0xaa ∷ 0x00 ∷ 0x02 ∷ 0x02 ∷
        0x01 ∷ 0x00 ∷ 0x09 ∷ 0x02 ∷ []) ≡ record {
          first = Some (record { donl = None; nal_unit = 0x02 ∷ 0x01 ∷ 0xaa ∷ [] });
          others = record { dond = None; nal_unit = 0x02 ∷ 0x01 ∷ [] } ∷ [];
          has_donl = false;
        } }
    ensures no_bytes { units_numbered (aggregate_shown false (0 ∷ 0 ∷ 0 ∷ 0 ∷ []))
        ≡ ([], None) ∷ ([], None) ∷ [] }
{}
