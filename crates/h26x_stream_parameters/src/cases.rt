//! Worked cases of the definitions, which the checker computes. Each is the contract of a function
//! without a result.

ghost use Rattle.std.specs.Prelude.{◌≡◌, true, false, [], ◌∷◌};
ghost use Rattle.h26x_fmtp.specs.UnitTypes.{is_of};
ghost use Rattle.h26x_fmtp.specs.declared.rtp_map.Encoding.TheVariants.{H264, H265, H266};
ghost use Rattle.h26x_stream_parameters.specs.FromStream.{slices};

/// The slices of each codec (Rec. ITU-T H.264, table 7-1; H.265, table 7-1; H.266, table 5).
pub fn types_of_slices()
    ensures h264 { slices H264 ≡ record { encoding = H264; first = 1; last = 5 } }
    ensures h265 { slices H265 ≡ record { encoding = H265; first = 0; last = 31 } }
    ensures h266 { slices H266 ≡ record { encoding = H266; first = 0; last = 11 } }
{}

/// Units by which a picture begins, an IDR slice among them, and those behind and before these types.
pub fn first_slices()
    ensures h264_slice { is_of (slices H264) (0x41 ∷ []) ≡ true }
    ensures h264_idr { is_of (slices H264) (0x65 ∷ []) ≡ true }
    ensures h264_sei { is_of (slices H264) (0x06 ∷ []) ≡ false }
    ensures h265_trail { is_of (slices H265) (0x02 ∷ 0x01 ∷ []) ≡ true }
    ensures h265_idr { is_of (slices H265) (0x26 ∷ 0x01 ∷ []) ≡ true }
    ensures h265_cra { is_of (slices H265) (0x2a ∷ 0x01 ∷ []) ≡ true }
    ensures h265_vps { is_of (slices H265) (0x40 ∷ 0x01 ∷ []) ≡ false }
    ensures h266_trail { is_of (slices H266) (0x00 ∷ 0x01 ∷ []) ≡ true }
    ensures h266_idr { is_of (slices H266) (0x00 ∷ 0x39 ∷ []) ≡ true }
    ensures h266_gdr { is_of (slices H266) (0x00 ∷ 0x51 ∷ []) ≡ true }
    ensures h266_opi { is_of (slices H266) (0x00 ∷ 0x61 ∷ []) ≡ false }
{}
