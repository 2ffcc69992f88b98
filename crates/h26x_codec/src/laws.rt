//! Laws of what is written of units of any codec. Each is the contract of a function without a
//! result.

ghost use Rattle.std.specs.Prelude.{◌≡◌, ℕ, ◌<◌, ◌≤◌, Bool, true, List, ◌++◌, length};
ghost use Rattle.h26x_core.specs.ByteStream.{byte_stream, annex_b};
ghost use Rattle.h26x_cut.specs.Cutting.{AreUnits, units_of};
ghost use Rattle.h26x_codec.specs.Codec.{codec_format, zero_rule};
ghost use Rattle.h26x_codec.specs.Keyframe.{every_format, TellsKeyUnits};
ghost use Rattle.h26x_codec.specs.SentUnits.{sent_place, sent_units};
ghost use Rattle.h26x_codec.specs.Plain.{EndsUnitAt, IsPlainUnit, ArePlainUnits, ReadsPlainUnits, EachFitsAvcLength};

use crate::codec::Codec;

/// The Annex B text of plain units is cut into exactly these units, and to a reader who ends a unit
/// at `00 00 00` or `00 00 01` none ends before its own end.
pub fn plain_units_are_told_apart()
    ensures units { (codec : Codec) (units : List (List ℕ)) → ArePlainUnits codec units →
        AreUnits (zero_rule codec) (annex_b units) units }
    ensures read { (codec : Codec) (has_donl : Bool) →
        ReadsPlainUnits codec (codec_format codec has_donl) }
    ensures ends { (codec : Codec) (unit : List ℕ) (units : List (List ℕ)) (place : ℕ) →
        IsPlainUnit codec unit → EndsUnitAt (unit ++ annex_b units) place →
        length unit ≤ place }
{
    h26x_cut::laws::text_is_cut_into_its_units();
    h26x_cut::laws::one_cutting();
}

/// What is written behind lengths is so of one list of units, whatever stands in them: no text is that
/// of two lists whose lengths four bytes hold.
pub fn lengths_tell_units_apart()
    ensures { (a b : List (List ℕ)) → EachFitsAvcLength a → EachFitsAvcLength b →
        byte_stream true a ≡ byte_stream true b → a ≡ b }
{}

/// Where delimiters and filler are sent all units of an access unit are, each at its own place.
pub fn all_units_are_sent()
    ensures units { (codec : Codec) (access_unit : List ℕ) →
        sent_units true codec access_unit ≡ units_of (zero_rule codec) access_unit }
    ensures places { (codec : Codec) (access_unit : List ℕ) (place : ℕ) →
        place < length (units_of (zero_rule codec) access_unit) →
        sent_place true codec access_unit place ≡ place }
{}

/// Packets of every unit tell of a keyframe: an aggregate where a key unit is among its units, the
/// packet of one unit where it is one, and of one in fragments the first alone.
pub fn keyframes_are_told()
    ensures { (codec : Codec) (has_donl : Bool) →
        TellsKeyUnits codec has_donl (every_format codec has_donl) }
{
    h264_payload::laws::every_unit_goes();
    h265_payload::laws::every_unit_goes();
    h266_payload::laws::every_unit_goes();
}
