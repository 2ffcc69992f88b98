//! Laws of the packets of H.265. Each is the contract of a function without a result.

ghost use Rattle.std.specs.Prelude.{◌≡◌, ◌↔◌, ◌<◌, ◌≤◌, true, ℕ, length};
ghost use Rattle.h26x_core.specs.Word.{field};
ghost use Rattle.h265_packets.specs.Equality.{payload_eq};
ghost use Rattle.h265_packets.specs.declared.payload.H265Payload.{H265Payload};
ghost use Rattle.h265_packets.specs.Paci.{paci_fields};
ghost use Rattle.h265_packets.specs.Payload.{PaciPacket, tsci_word, tsci_in, tsci_shown};
ghost use Rattle.h265_packets.specs.Payload.{SinglePacket, FragmentationPacket, FirstUnit, OtherUnit, AggregationPacket};
ghost use Rattle.h265_packets.specs.Payload.{single_eq, fragmentation_eq, first_eq, other_eq, aggregation_eq, paci_eq};

/// Of a packet with the fields of a packed one TSCI is shown where its extension has three bytes or
/// more (RFC 7798, 4.5): TL0PICIDX is the first of them, IrapPicID the second; S, E and RES are the
/// third.
pub fn tsci_is_read_back()
    ensures tsci { (high : ℕ) (p : PaciPacket) → length p.phes ≤ 31 →
        p.fields ≡ paci_fields high p.phes → tsci_shown p ≡ tsci_in p.phes }
    ensures tl0picidx { (a b c : ℕ) → a < 256 → b < 256 → c < 256 →
        field (tsci_word a b c) 31 24 ≡ a }
    ensures irap_pic_id { (a b c : ℕ) → b < 256 → c < 256 → field (tsci_word a b c) 23 16 ≡ b }
    ensures third { (a b c : ℕ) → c < 256 → field (tsci_word a b c) 15 8 ≡ c }
    ensures low { (a b c : ℕ) → field (tsci_word a b c) 7 0 ≡ 0 }
{}

/// What is shown is equal where it is the same, its marks too, and nowhere else.
pub fn equal_packets_are_the_same()
    ensures payload { (a b : H265Payload) → (payload_eq a b ≡ true) ↔ (a ≡ b) }
    ensures single { (a b : SinglePacket) → (single_eq a b ≡ true) ↔ (a ≡ b) }
    ensures fragmentation { (a b : FragmentationPacket) →
        (fragmentation_eq a b ≡ true) ↔ (a ≡ b) }
    ensures first { (a b : FirstUnit) → (first_eq a b ≡ true) ↔ (a ≡ b) }
    ensures other { (a b : OtherUnit) → (other_eq a b ≡ true) ↔ (a ≡ b) }
    ensures aggregation { (a b : AggregationPacket) → (aggregation_eq a b ≡ true) ↔ (a ≡ b) }
    ensures paci { (a b : PaciPacket) → (paci_eq a b ≡ true) ↔ (a ≡ b) }
{}
