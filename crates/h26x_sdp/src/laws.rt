//! Laws of the codecs' tables, and of values and their text. Each is the contract of a function without
//! a result.

ghost use Rattle.std.specs.Prelude.{◌≡◌, ℕ, Ok, List};
ghost use Rattle.h26x_fmtp.specs.Parameters.{IsTable};
ghost use Rattle.base64.specs.GeneralPurpose.{IsBytes};
ghost use Rattle.h26x_sdp.specs.LevelSets.{LevelSets, AreLevelSets, level_sets_in, level_sets_text};
ghost use Rattle.h26x_sdp.specs.Constraints.{as_constraints, constraints_in, constraints_text};
ghost use Rattle.h26x_sdp.specs.CapabilityPoints.{AreCapabilityPoints, capability_points_in, capability_points_text};
ghost use Rattle.h26x_sdp.specs.declared.capability_points.CapabilityPoint.{CapabilityPoint};
ghost use Rattle.h26x_sdp.specs.Rtx.{IsRtxFormat, rtx_rows, rtx_format_of, rtx_format_text};
ghost use Rattle.h26x_sdp.specs.declared.rtx.RtxFormat.{RtxFormat};
ghost use Rattle.h26x_sdp.specs.H264Rows as h264;
ghost use Rattle.h26x_sdp.specs.H265Rows as h265;
ghost use Rattle.h26x_sdp.specs.H266Rows as h266;

/// The three codecs' tables are such: each row is found by its name, and each default is a value of its
/// kind.
pub fn each_codec_has_a_table()
    ensures h264 { IsTable h264.rows }
    ensures h265 { IsTable h265.rows }
    ensures h266 { IsTable h266.rows }
{}

/// What is written of parameter sets of levels is read as the same, and what is read is read again of
/// what is written of it.
pub fn level_sets_and_their_text()
    ensures read { (levels : List LevelSets) → AreLevelSets levels →
        level_sets_in (level_sets_text levels) ≡ Ok levels }
    ensures again { (text : List ℕ) (levels : List LevelSets) → IsBytes text →
        level_sets_in text ≡ Ok levels → level_sets_in (level_sets_text levels) ≡ Ok levels }
{}

/// What is written of constraints of H.266 is read as the same, and what is read is written as the
/// same text.
pub fn constraints_and_their_text()
    ensures read { (bytes : List ℕ) → IsBytes bytes → as_constraints bytes ≡ Ok bytes →
        constraints_in (constraints_text bytes) ≡ Ok bytes }
    ensures written { (text bytes : List ℕ) → IsBytes text → constraints_in text ≡ Ok bytes →
        constraints_text bytes ≡ text }
{}

/// What is written of capability points is read as the same, and what is read is read again of what
/// is written of it.
pub fn capability_points_and_their_text()
    ensures read { (points : List CapabilityPoint) → AreCapabilityPoints points →
        capability_points_in (capability_points_text points) ≡ Ok points }
    ensures again { (text : List ℕ) (points : List CapabilityPoint) →
        capability_points_in text ≡ Ok points →
        capability_points_in (capability_points_text points) ≡ Ok points }
{}

/// The parameters of retransmission are a table. What is written of such a format is read as the same,
/// and what is read is read again of what is written of it.
pub fn formats_of_retransmission_and_their_text()
    ensures table { IsTable rtx_rows }
    ensures read { (it : RtxFormat) → IsRtxFormat it → rtx_format_of (rtx_format_text it) ≡ Ok it }
    ensures again { (text : List ℕ) (it : RtxFormat) → rtx_format_of text ≡ Ok it →
        rtx_format_of (rtx_format_text it) ≡ Ok it }
{}
