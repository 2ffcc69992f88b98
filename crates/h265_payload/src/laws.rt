//! Laws of the H.265 payload format, on which those of every format stand (`h26x_model::laws`,
//! `h26x_payload::laws`). Each is the contract of a function without a result.

ghost use Rattle.std.specs.Prelude.{◌≡◌, ◌+◌, ◌*◌, ◌<◌, ◌≤◌, nat_le, true, false, ℕ, Bool, List, [], ◌∷◌, length};
ghost use Rattle.h26x_core.specs.Word.{field, is_set};
ghost use Rattle.h26x_core.specs.H265Unit.{is_forbidden, type_of};
ghost use Rattle.h26x_model.specs.Payload.Reading.{Paci, HasOneReading};
ghost use Rattle.h26x_model.specs.Payload.Facts.{IsPayloadFormat};
ghost use Rattle.h26x_model.specs.Send.Calls.{Call};
ghost use Rattle.h26x_model.specs.Send.PacketizerState.{PacketizerState, IsPacketizerState};
ghost use Rattle.h26x_model.specs.Receive.DepacketizerState.{Depacketization};
ghost use Rattle.h26x_model.specs.Send.Fragments.{HasRoomFrom};
ghost use Rattle.h26x_model.specs.Send.Every.{PacksUnits, CarriesByHeader};
ghost use Rattle.h26x_cut.specs.declared.ZeroRule.TheVariants.{All};
ghost use Rattle.h26x_payload.specs.Units.{CutsBy};
ghost use Rattle.h265_payload.specs.H265.{h265, read};
ghost use Rattle.h265_payload.specs.Reading.{IsReading};
ghost use Rattle.h265_payload.specs.EveryUnit.{h265_every, AreHeadedByUnits};
ghost use Rattle.h265_payload.specs.Shown.{shown, shown_paci_of};
ghost use Rattle.h265_payload.specs.ShownParts.{IsShownAsRead};
ghost use Rattle.h265_payload.specs.Sending.{h265_headed, TakesHeadedAlike};
ghost use Rattle.h265_payload.specs.LowestHeader.{IsHeadedByUnits, IsReadAlike, IsDetectedAlike, CallsAreTakenAlike};
ghost use Rattle.h265_packets.specs.Paci.{paci_fields, paci_packet};
ghost use Rattle.h265_packets.specs.declared.payload.H265Payload.TheVariants as p;

pub use h265_packets::laws::{equal_packets_are_the_same, tsci_is_read_back};

/// A packet has one reading, and `read` finds it.
pub fn one_reading()
    ensures { (has_donl : Bool) → HasOneReading (IsReading has_donl) (read has_donl) }
{}

/// The format meets the facts on which the laws of every format stand.
pub fn meets_the_facts()
    ensures { (has_donl : Bool) → IsPayloadFormat (h265 has_donl) }
{}

/// A start code takes all zeros before it (Annex B of Rec. ITU-T H.265).
pub fn cuts_by_its_rule()
    ensures { (has_donl : Bool) → CutsBy (h265 has_donl) All }
{}

/// What `payload` shows of a packet that is read is its reading: the same kind of packet, number and
/// bytes, and of an aggregate its units, each with the number that its difference (DOND) gives (RFC
/// 7798, 4.4).
pub fn what_is_shown_is_read()
    ensures { (has_donl : Bool) (high low : ℕ) (rest : List ℕ) →
        IsShownAsRead has_donl high low rest }
{}

/// From limit 4 on, 6 with numbers, only sets are dropped for size, and a longer unit goes in
/// fragments (RFC 7798, 4.4.3).
pub fn room_for_fragments()
    ensures plain { HasRoomFrom (h265 false) 4 }
    ensures has_donl { HasRoomFrom (h265 true) 6 }
{}

/// The PACI packet of a unit of three bytes or more, whatever its type and its F, and of an
/// extension of at most 31 bytes is read as them (RFC 7798, 4.4.4), with and without numbers, and
/// shown as it was packed. Its fields are those of the unit and the extension.
pub fn paci_is_read_back()
    ensures back { (has_donl : Bool) (high low : ℕ) (body phes : List ℕ) → high < 256 →
        1 ≤ length body → length phes ≤ 31 →
        read has_donl (paci_packet (high ∷ low ∷ body) phes)
        ≡ Paci (high ∷ low ∷ []) (paci_fields high phes) phes body }
    ensures shows { (has_donl : Bool) (high low : ℕ) (body phes : List ℕ) → length phes ≤ 31 →
        shown has_donl (paci_packet (high ∷ low ∷ body) phes)
        ≡ shown_paci_of high low body phes }
    ensures a { (high : ℕ) (phes : List ℕ) → length phes ≤ 31 →
        is_set (paci_fields high phes) 15 ≡ is_forbidden high }
    ensures ctype { (high : ℕ) (phes : List ℕ) → length phes ≤ 31 →
        field (paci_fields high phes) 14 9 ≡ type_of high }
    ensures phs_size { (high : ℕ) (phes : List ℕ) → length phes ≤ 31 →
        field (paci_fields high phes) 8 4 ≡ length phes }
    ensures f0 { (high : ℕ) (phes : List ℕ) → length phes ≤ 31 →
        is_set (paci_fields high phes) 3 ≡ nat_le 3 (length phes) }
    ensures others { (high : ℕ) (phes : List ℕ) → length phes ≤ 31 →
        field (paci_fields high phes) 2 0 ≡ 0 }
{}

/// The header that `set_lowest_header` gives an aggregate is that of its units (RFC 7798, 4.4.2), and
/// nothing else of a packet changes.
pub fn lowest_headers_are_of_the_units()
    ensures { (has_donl : Bool) (packet : List ℕ) → IsHeadedByUnits has_donl packet }
{}

/// An aggregate with the header of its units is read and detected as before, where F stood in its
/// header as it does in its units. So what calls send of units that can be carried brings the same,
/// whatever run was open.
pub fn lowest_headers_change_no_reading()
    ensures read { (has_donl : Bool) (high low : ℕ) (rest : List ℕ) →
        IsReadAlike has_donl high low rest }
    ensures detected { (has_donl : Bool) (high low : ℕ) (rest : List ℕ) →
        IsDetectedAlike has_donl high low rest }
    ensures taken { (has_donl : Bool) (s : PacketizerState) (w : Depacketization)
        (calls : List Call) → s.format ≡ h265 has_donl → w.state.format ≡ h265 has_donl →
        IsPacketizerState s → CallsAreTakenAlike has_donl s w calls }
{}

/// With either header on sets that share a packet the format meets those facts, and a depacketizer
/// takes packets alike.
pub fn either_header_is_of_the_format()
    ensures facts { (has_donl lowest_header : Bool) →
        IsPayloadFormat (h265_headed has_donl lowest_header) }
    ensures taken { (has_donl lowest_header : Bool) (w : Depacketization)
        (packets : List (List ℕ)) → TakesHeadedAlike has_donl lowest_header w packets }
{}

/// Where every unit goes, the format meets the facts on which the laws of every unit stand; a unit
/// of three bytes or more with a header of its own is carried, and an aggregate has the header that
/// RFC 7798, 4.4.2 asks for: F where a unit has it, type 48, and the lowest layer and temporal id.
pub fn every_unit_goes()
    ensures packs { (has_donl : Bool) → PacksUnits (h265_every has_donl) }
    ensures carries { (has_donl : Bool) → CarriesByHeader (h265_every has_donl) 3 }
    ensures headed { AreHeadedByUnits }
{}
