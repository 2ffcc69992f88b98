//! Laws of the H.266 payload format, on which those of every format stand (`h26x_model::laws`,
//! `h26x_payload::laws`). Each is the contract of a function without a result.

ghost use Rattle.std.specs.Prelude.{true, false, ℕ, Bool, List};
ghost use Rattle.h26x_model.specs.Payload.Reading.{HasOneReading};
ghost use Rattle.h26x_model.specs.Payload.Facts.{IsPayloadFormat};
ghost use Rattle.h26x_model.specs.Send.Fragments.{HasRoomFrom};
ghost use Rattle.h26x_model.specs.Send.Every.{PacksUnits, CarriesByHeader};
ghost use Rattle.h26x_cut.specs.declared.ZeroRule.TheVariants.{AtMostThree};
ghost use Rattle.h26x_payload.specs.Units.{CutsBy};
ghost use Rattle.h266_payload.specs.H266.{h266, read};
ghost use Rattle.h266_payload.specs.Reading.{IsReading};
ghost use Rattle.h266_payload.specs.EveryUnit.{h266_every};
ghost use Rattle.h266_payload.specs.AggregateHeader.{IsHeadedBySets};

/// A packet has one reading, and `read` finds it.
pub fn one_reading()
    ensures { (has_donl : Bool) → HasOneReading (IsReading has_donl) (read has_donl) }
{}

/// The format meets the facts on which the laws of every format stand.
pub fn meets_the_facts()
    ensures { (has_donl : Bool) → IsPayloadFormat (h266 has_donl) }
{}

/// A start code takes at most three zeros (str0m's rule).
pub fn cuts_by_its_rule()
    ensures { (has_donl : Bool) → CutsBy (h266 has_donl) AtMostThree }
{}

/// From limit 4 on, 6 with numbers, only sets are dropped for size, and a longer unit goes in
/// fragments (RFC 9328, 4.3.3).
pub fn room_for_fragments()
    ensures plain { HasRoomFrom (h266 false) 4 }
    ensures has_donl { HasRoomFrom (h266 true) 6 }
{}

/// The aggregate of sets that have temporal ids has the header that RFC 9328, 4.3.2 asks for: F where
/// a set has it, Z clear, the lowest layer and the lowest temporal id.
pub fn aggregates_have_the_header_of_their_sets()
    ensures { (has_donl : Bool) (n : ℕ) (sets : List (List ℕ)) (unit : List ℕ) →
        IsHeadedBySets has_donl n sets unit }
{}

/// Where every unit goes, the format meets the facts on which the laws of every unit stand, and a
/// unit of three bytes or more with a header of its own is carried.
pub fn every_unit_goes()
    ensures packs { (has_donl : Bool) → PacksUnits (h266_every has_donl) }
    ensures carries { (has_donl : Bool) → CarriesByHeader (h266_every has_donl) 3 }
{}
