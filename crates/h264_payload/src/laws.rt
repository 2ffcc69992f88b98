//! Laws of the H.264 payload format, on which those of every format stand (`h26x_model::laws`,
//! `h26x_payload::laws`). Each is the contract of a function without a result.

ghost use Rattle.h26x_model.specs.Payload.Reading.{HasOneReading};
ghost use Rattle.h26x_model.specs.Payload.Facts.{IsPayloadFormat};
ghost use Rattle.h26x_model.specs.Send.Fragments.{HasRoomFrom};
ghost use Rattle.h26x_model.specs.Send.Every.{PacksUnits, CarriesByHeader};
ghost use Rattle.h26x_cut.specs.declared.ZeroRule.TheVariants.{All};
ghost use Rattle.h26x_payload.specs.Units.{CutsBy};
ghost use Rattle.h264_payload.specs.H264.{h264, read};
ghost use Rattle.h264_payload.specs.Reading.{IsReading};
ghost use Rattle.h264_payload.specs.EveryUnit.{h264_every, AreHeadedByUnits};

/// A packet has one reading, and `read` finds it.
pub fn one_reading()
    ensures { HasOneReading IsReading read }
{}

/// The format meets the facts on which the laws of every format stand.
pub fn meets_the_facts()
    ensures { IsPayloadFormat h264 }
{}

/// A start code takes all zeros before it (Annex B of Rec. ITU-T H.264).
pub fn cuts_by_its_rule()
    ensures { CutsBy h264 All }
{}

/// From limit 3 on only sets are dropped for size, and a longer unit goes in fragments (RFC 6184,
/// 5.8).
pub fn room_for_fragments()
    ensures { HasRoomFrom h264 3 }
{}

/// Where every unit goes, the format meets the facts on which the laws of every unit stand; a unit
/// with a header of its own is carried, and a STAP-A has the header that RFC 6184, 5.7 and 5.7.1 ask
/// for: F where a unit has it, type 24, and the greatest NRI.
pub fn every_unit_goes()
    ensures packs { PacksUnits h264_every }
    ensures carries { CarriesByHeader h264_every 1 }
    ensures headed { AreHeadedByUnits }
{}
