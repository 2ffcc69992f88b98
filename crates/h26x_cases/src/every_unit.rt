//! Worked cases of which units of an access unit are sent, and of packets that begin a keyframe. Each
//! is the contract of a function without a result.

ghost use Rattle.std.specs.Prelude.{◌≡◌, true, false, [], ◌∷◌, filter};
ghost use Rattle.std.specs.List.{range_with_len};
ghost use Rattle.h26x_codec.specs.declared.codec.Codec.TheVariants as codecs;
ghost use Rattle.h26x_codec.specs.Keyframe.{begins_key_unit};
ghost use Rattle.h26x_codec.specs.SentUnits.{is_delimiter, is_delimiter_type, is_sent, place_among};

/// Delimiters and filler data are two types of each codec (H.264, table 7-1; H.265, table 7-1; H.266,
/// table 5), in the first byte of a header, of H.266 in the second.
pub fn delimiters_and_filler()
    ensures h264 { filter (is_delimiter_type codecs.H264) (range_with_len 0 32) ≡ 9 ∷ 12 ∷ [] }
    ensures h265 { filter (is_delimiter_type codecs.H265) (range_with_len 0 64) ≡ 35 ∷ 38 ∷ [] }
    ensures h266 { filter (is_delimiter_type codecs.H266) (range_with_len 0 32) ≡ 20 ∷ 25 ∷ [] }
    ensures of_h264 { is_delimiter codecs.H264 (0x09 ∷ 0xf0 ∷ []) ≡ true }
    ensures of_h265 { is_delimiter codecs.H265 (0x4c ∷ 0x01 ∷ []) ≡ true }
    ensures of_h266 { is_delimiter codecs.H266 (0x00 ∷ 0xa1 ∷ []) ≡ true }
    ensures half { is_delimiter codecs.H266 (0xa1 ∷ []) ≡ false }
    ensures empty { is_delimiter codecs.H265 [] ≡ false }
{}

/// The second of the units that are sent is the fourth of all; where none is at that place, as many as
/// there are.
pub fn places_among_all()
    ensures first { place_among (is_sent false codecs.H264)
        ((0x09 ∷ []) ∷ (0x67 ∷ []) ∷ (0x0c ∷ []) ∷ (0x65 ∷ []) ∷ []) 0 ≡ 1 }
    ensures second { place_among (is_sent false codecs.H264)
        ((0x09 ∷ []) ∷ (0x67 ∷ []) ∷ (0x0c ∷ []) ∷ (0x65 ∷ []) ∷ []) 1 ≡ 3 }
    ensures none { place_among (is_sent false codecs.H264)
        ((0x09 ∷ []) ∷ (0x67 ∷ []) ∷ (0x0c ∷ []) ∷ (0x65 ∷ []) ∷ []) 2 ≡ 4 }
    ensures all { place_among (is_sent true codecs.H264) ((0x09 ∷ []) ∷ (0x67 ∷ []) ∷ []) 1 ≡ 1 }
{}

/// A keyframe is found behind DONL and a DOND of H.265 (RFC 7798, 4.4.2) and DONL of H.266 (RFC 9328,
/// 4.3.2), and not in the DOND itself, nor in a fragment that goes on.
pub fn keyframes_that_begin()
    ensures behind_dond { begins_key_unit codecs.H265 true (0x60 ∷ 0x01 ∷ 0 ∷ 7 ∷ 0 ∷ 3 ∷ 0x02 ∷ 0x01
        ∷ 0xaa ∷ 0 ∷ 0 ∷ 3 ∷ 0x26 ∷ 0x01 ∷ 0xaf ∷ []) ≡ true }
    ensures dond { begins_key_unit codecs.H265 true (0x60 ∷ 0x01 ∷ 0 ∷ 7 ∷ 0 ∷ 3 ∷ 0x02 ∷ 0x01 ∷ 0xaa
        ∷ 0x26 ∷ 0 ∷ 3 ∷ 0x02 ∷ 0x01 ∷ 0xaf ∷ []) ≡ false }
    ensures behind_donl { begins_key_unit codecs.H266 true (0x00 ∷ 0xe1 ∷ 0 ∷ 7 ∷ 0 ∷ 3 ∷ 0x00 ∷ 0x79
        ∷ 0xaa ∷ 0 ∷ 3 ∷ 0x00 ∷ 0x41 ∷ 0xaf ∷ []) ≡ true }
    ensures starts { begins_key_unit codecs.H264 false (0x7c ∷ 0x85 ∷ 0xaa ∷ []) ≡ true }
    ensures goes_on { begins_key_unit codecs.H264 false (0x7c ∷ 0x05 ∷ 0xaa ∷ []) ≡ false }
    ensures refused { begins_key_unit codecs.H264 false (0x7d ∷ 0x85 ∷ 0xaa ∷ []) ≡ false }
{}
