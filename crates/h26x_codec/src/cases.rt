//! Worked cases of what a plain unit is. Each is the contract of a function without a result.

ghost use Rattle.std.specs.Prelude.{◌≡◌, ℕ, ◌≤◌, true, false, List, [], ◌∷◌, ◌++◌, length};
ghost use Rattle.std.specs.List.{AllByRecursion};
ghost use Rattle.h26x_core.specs.ByteStream.{annex_b, byte_stream};
ghost use Rattle.h26x_cut.specs.Cutting.{units_of};
ghost use Rattle.h26x_cut.specs.declared.ZeroRule.TheVariants.{All};
ghost use Rattle.h26x_model.specs.Receive.Outcome.{is_too_long};
ghost use Rattle.h265_payload.specs.H265.{h265};
ghost use Rattle.h26x_codec.specs.Plain.{EndsUnitAt, IsPlainUnit};
ghost use Rattle.h26x_codec.specs.declared.codec.Codec.TheVariants as codecs;

/// Plain units, at the edges of the types that are the video's own.
pub fn plain_units()
    ensures h264_first { IsPlainUnit codecs.H264 (0x01 ∷ []) }
    ensures h264_last { IsPlainUnit codecs.H264 (0x77 ∷ 0x00 ∷ 0x00 ∷ 0x02 ∷ []) }
    ensures h265_first { IsPlainUnit codecs.H265 (0x00 ∷ 0x01 ∷ []) }
    ensures h265_last { IsPlainUnit codecs.H265 (0x5f ∷ 0xff ∷ []) }
    ensures h266_first { IsPlainUnit codecs.H266 (0x00 ∷ 0x01 ∷ []) }
    ensures h266_last { IsPlainUnit codecs.H266 (0x3f ∷ 0xdf ∷ []) }
{}

/// Units that aren't: without a whole header, with F or Z, and of types on both sides.
pub fn units_of_others()
    ensures h264_empty { IsPlainUnit codecs.H264 [] → ⊥ }
    ensures h264_f { IsPlainUnit codecs.H264 (0x81 ∷ []) → ⊥ }
    ensures h264_below { IsPlainUnit codecs.H264 (0x60 ∷ 0xaa ∷ []) → ⊥ }
    ensures h264_above { IsPlainUnit codecs.H264 (0x78 ∷ 0xaa ∷ []) → ⊥ }
    ensures h265_half { IsPlainUnit codecs.H265 (0x26 ∷ []) → ⊥ }
    ensures h265_f { IsPlainUnit codecs.H265 (0x80 ∷ 0x01 ∷ []) → ⊥ }
    ensures h265_above { IsPlainUnit codecs.H265 (0x60 ∷ 0x01 ∷ []) → ⊥ }
    ensures h266_half { IsPlainUnit codecs.H266 (0x00 ∷ []) → ⊥ }
    ensures h266_f { IsPlainUnit codecs.H266 (0x80 ∷ 0x01 ∷ []) → ⊥ }
    ensures h266_z { IsPlainUnit codecs.H266 (0x40 ∷ 0x01 ∷ []) → ⊥ }
    ensures h266_above { IsPlainUnit codecs.H266 (0x00 ∷ 0xe1 ∷ []) → ⊥ }
{}

/// A unit that holds a start code, of which a reader of its text finds an IDR slice; and one with
/// three zeros, and one that ends in a zero.
pub fn units_with_others_in_them()
    ensures code { IsPlainUnit codecs.H264
        (0x41 ∷ 0xaa ∷ 0x00 ∷ 0x00 ∷ 0x00 ∷ 0x01 ∷ 0x65 ∷ 0x88 ∷ []) → ⊥ }
    ensures cut { units_of All (annex_b
        ((0x41 ∷ 0xaa ∷ 0x00 ∷ 0x00 ∷ 0x00 ∷ 0x01 ∷ 0x65 ∷ 0x88 ∷ []) ∷ [])) ≡
        (0x41 ∷ 0xaa ∷ []) ∷ (0x65 ∷ 0x88 ∷ []) ∷ [] }
    ensures short_code { IsPlainUnit codecs.H264 (0x41 ∷ 0x00 ∷ 0x00 ∷ 0x01 ∷ []) → ⊥ }
    ensures zeros { IsPlainUnit codecs.H264 (0x41 ∷ 0x00 ∷ 0x00 ∷ 0x00 ∷ 0x02 ∷ []) → ⊥ }
    ensures zero_last { IsPlainUnit codecs.H264 (0x41 ∷ 0x00 ∷ []) → ⊥ }
{}

/// A unit ends where three zeros or a start code begin, and the text of two plain units is of these
/// two.
pub fn units_told_apart()
    ensures zeros { EndsUnitAt (0x41 ∷ 0xaa ∷ 0x00 ∷ 0x00 ∷ 0x00 ∷ 0x01 ∷ []) 2 }
    ensures code { EndsUnitAt (0x41 ∷ 0x00 ∷ 0x00 ∷ 0x01 ∷ []) 1 }
    ensures two { (a b : List ℕ) → IsPlainUnit codecs.H265 a → IsPlainUnit codecs.H265 b →
        (h265 true).units (annex_b (a ∷ b ∷ [])) ≡ a ∷ b ∷ [] }
    ensures ends { (a : List ℕ) (place : ℕ) → IsPlainUnit codecs.H266 a →
        EndsUnitAt (a ++ 0x00 ∷ 0x00 ∷ 0x00 ∷ 0x01 ∷ 0x00 ∷ 0x41 ∷ []) place → length a ≤ place }
    ensures lengths { (units : List (List ℕ)) →
        AllByRecursion (λ unit. is_too_long unit ≡ false) units →
        byte_stream true units ≡ 0x00 ∷ 0x00 ∷ 0x00 ∷ 0x01 ∷ 0x65 ∷ [] →
        units ≡ (0x65 ∷ []) ∷ [] }
{
    crate::laws::plain_units_are_told_apart();
    crate::laws::lengths_tell_units_apart();
}
