//! Worked cases of the tables, which the checker computes: how many parameters each RFC registers, what
//! is taken where one is absent, and the bounds of each that is a number. Each is the contract of a
//! function without a result.

ghost use Rattle.std.specs.Prelude.{◌≡◌, codes, length, map, [], ◌∷◌, Some, None, Ok, Err};
ghost use Rattle.h26x_fmtp.specs.declared.error.Fault.TheVariants as fault;
ghost use Rattle.h26x_fmtp.specs.declared.error.ParametersError.TheVariants as refused;
ghost use Rattle.h26x_sdp.specs.declared.error.RtxError.TheVariants as rtx;
ghost use Rattle.h26x_sdp.specs.Rtx.{rtx_rows, rtx_format_of};
ghost use Rattle.h26x_sdp.specs.TableNumbers.{defaults, bounds, texts};
ghost use Rattle.h26x_fmtp.specs.Tables.{row_at};
ghost use Rattle.h26x_fmtp.specs.UnitTypes as unit_types;
ghost use Rattle.h26x_fmtp.specs.declared.kind.Kind.TheVariants as kind;
ghost use Rattle.h26x_sdp.specs.declared.h264.H264Parameter.TheVariants as h264_parameter;
ghost use Rattle.h26x_sdp.specs.declared.h265.H265Parameter.TheVariants as h265_parameter;
ghost use Rattle.h26x_sdp.specs.declared.h266.H266Parameter.TheVariants as h266_parameter;
ghost use Rattle.h26x_sdp.specs.H264Rows as h264;
ghost use Rattle.h26x_sdp.specs.H265Rows as h265;
ghost use Rattle.h26x_sdp.specs.H266Rows as h266;

/// How many parameters there are (RFC 6184, section 8.1; RFC 7798, section 7.1; RFC 9328, section 7.2).
pub fn counts()
    ensures h264 { length h264.rows ≡ 23 }
    ensures h265 { length h265.rows ≡ 30 }
    ensures h266 { length h266.rows ≡ 20 }
{}

/// What H.264 takes for parameters that are absent (RFC 6184, section 8.1): Baseline at level 1, flags
/// and mode 0, no buffer, aspect ratios up to 13.
pub fn h264_defaults()
    ensures { defaults h264.rows ≡ (codes "profile-level-id", codes "42000a")
        ∷ (codes "redundant-pic-cap", codes "0")
        ∷ (codes "use-level-src-parameter-sets", codes "0")
        ∷ (codes "level-asymmetry-allowed", codes "0")
        ∷ (codes "packetization-mode", codes "0") ∷ (codes "deint-buf-cap", codes "0")
        ∷ (codes "sar-understood", codes "13") ∷ [] }
{}

/// What H.265 takes (RFC 7798, section 7.1): Main at level 3.1 in the Main tier, progressive frames,
/// all seven sub-layers, one stream, six pictures, and numbers that packets don't bear.
pub fn h265_defaults()
    ensures { defaults h265.rows ≡ (codes "profile-space", codes "0") ∷ (codes "profile-id", codes "1")
        ∷ (codes "tier-flag", codes "0") ∷ (codes "level-id", codes "93")
        ∷ (codes "interop-constraints", codes "B00000000000")
        ∷ (codes "sprop-sub-layer-id", codes "6") ∷ (codes "tx-mode", codes "SRST")
        ∷ (codes "max-dpb", codes "6") ∷ (codes "sprop-max-don-diff", codes "0")
        ∷ (codes "sprop-depack-buf-nalus", codes "0") ∷ (codes "sprop-depack-buf-bytes", codes "0")
        ∷ (codes "depack-buf-cap", codes "4294967295") ∷ (codes "sprop-segmentation-id", codes "0")
        ∷ [] }
{}

/// What H.266 takes (RFC 9328, section 7.2): Main 10 at level 3.1 in the Main tier, frames alone, all
/// seven sublayers, and numbers that packets don't bear.
pub fn h266_defaults()
    ensures { defaults h266.rows ≡ (codes "profile-id", codes "1") ∷ (codes "tier-flag", codes "0")
        ∷ (codes "interop-constraints", codes "gA==") ∷ (codes "level-id", codes "51")
        ∷ (codes "sprop-sublayer-id", codes "6") ∷ (codes "sprop-max-don-diff", codes "0")
        ∷ (codes "sprop-depack-buf-bytes", codes "0") ∷ (codes "depack-buf-cap", codes "4294967295")
        ∷ [] }
{}

/// The numbers of H.264, with the least and the most (RFC 6184, section 8.1): flags, three modes, 15
/// bits of depth and of difference, 32 bits of buffers, and aspect ratios from 0 to 254 and from 1 to
/// 255.
pub fn h264_bounds()
    ensures { bounds h264.rows ≡ (codes "max-mbps", 0, 18446744073709551615)
        ∷ (codes "max-smbps", 0, 18446744073709551615)
        ∷ (codes "max-fs", 0, 18446744073709551615)
        ∷ (codes "max-cpb", 0, 18446744073709551615)
        ∷ (codes "max-dpb", 0, 18446744073709551615)
        ∷ (codes "max-br", 0, 18446744073709551615) ∷ (codes "redundant-pic-cap", 0, 1)
        ∷ (codes "use-level-src-parameter-sets", 0, 1) ∷ (codes "in-band-parameter-sets", 0, 1)
        ∷ (codes "level-asymmetry-allowed", 0, 1) ∷ (codes "packetization-mode", 0, 2)
        ∷ (codes "sprop-interleaving-depth", 0, 32767)
        ∷ (codes "sprop-deint-buf-req", 0, 4294967295) ∷ (codes "deint-buf-cap", 0, 4294967295)
        ∷ (codes "sprop-init-buf-time", 0, 4294967295) ∷ (codes "sprop-max-don-diff", 0, 32767)
        ∷ (codes "max-rcmd-nalu-size", 0, 4294967295) ∷ (codes "sar-understood", 0, 254)
        ∷ (codes "sar-supported", 1, 255) ∷ [] }
{}

/// The numbers of H.265, with the least and the most (RFC 7798, section 7.1).
pub fn h265_bounds()
    ensures { bounds h265.rows ≡ (codes "profile-space", 0, 3) ∷ (codes "profile-id", 0, 31)
        ∷ (codes "tier-flag", 0, 1) ∷ (codes "level-id", 0, 255)
        ∷ (codes "sprop-sub-layer-id", 0, 6) ∷ (codes "recv-sub-layer-id", 0, 6)
        ∷ (codes "max-recv-level-id", 0, 255) ∷ (codes "max-lsr", 0, 18446744073709551615)
        ∷ (codes "max-lps", 0, 4294967295) ∷ (codes "max-cpb", 0, 18446744073709551615)
        ∷ (codes "max-dpb", 1, 16) ∷ (codes "max-br", 0, 18446744073709551615)
        ∷ (codes "max-tr", 0, 18446744073709551615) ∷ (codes "max-tc", 0, 18446744073709551615)
        ∷ (codes "max-fps", 0, 18446744073709551615) ∷ (codes "sprop-max-don-diff", 0, 32767)
        ∷ (codes "sprop-depack-buf-nalus", 0, 32767)
        ∷ (codes "sprop-depack-buf-bytes", 0, 4294967295)
        ∷ (codes "depack-buf-cap", 1, 4294967295) ∷ (codes "sprop-segmentation-id", 0, 3)
        ∷ (codes "sprop-spatial-segmentation-idc", 0, 4095) ∷ [] }
{}

/// The numbers of H.266, with the least and the most (RFC 9328, section 7.2).
pub fn h266_bounds()
    ensures { bounds h266.rows ≡ (codes "profile-id", 0, 127) ∷ (codes "tier-flag", 0, 1)
        ∷ (codes "level-id", 0, 255) ∷ (codes "sprop-sublayer-id", 0, 6)
        ∷ (codes "sprop-ols-id", 0, 256) ∷ (codes "recv-sublayer-id", 0, 6)
        ∷ (codes "recv-ols-id", 0, 256) ∷ (codes "max-recv-level-id", 0, 255)
        ∷ (codes "max-lsr", 0, 18446744073709551615) ∷ (codes "max-fps", 0, 18446744073709551615)
        ∷ (codes "sprop-max-don-diff", 0, 32767)
        ∷ (codes "sprop-depack-buf-bytes", 0, 4294967295)
        ∷ (codes "depack-buf-cap", 1, 4294967295) ∷ [] }
{}

/// The parameters of H.264 by their names, each at its row (RFC 6184, section 8.1).
pub fn h264_names()
    ensures { map (λ it. (row_at h264.rows (h264.row_place it)).name) (
        h264_parameter.ProfileLevelId ∷ h264_parameter.MaxRecvLevel ∷ h264_parameter.MaxMbps ∷
        h264_parameter.MaxSmbps ∷ h264_parameter.MaxFs ∷ h264_parameter.MaxCpb ∷
        h264_parameter.MaxDpb ∷ h264_parameter.MaxBr ∷ h264_parameter.RedundantPicCap ∷
        h264_parameter.SpropParameterSets ∷ h264_parameter.SpropLevelParameterSets ∷
        h264_parameter.UseLevelSrcParameterSets ∷ h264_parameter.InBandParameterSets ∷
        h264_parameter.LevelAsymmetryAllowed ∷ h264_parameter.PacketizationMode ∷
        h264_parameter.SpropInterleavingDepth ∷ h264_parameter.SpropDeintBufReq ∷
        h264_parameter.DeintBufCap ∷ h264_parameter.SpropInitBufTime ∷
        h264_parameter.SpropMaxDonDiff ∷ h264_parameter.MaxRcmdNaluSize ∷
        h264_parameter.SarUnderstood ∷ h264_parameter.SarSupported ∷ []) ≡
        codes "profile-level-id" ∷ codes "max-recv-level" ∷ codes "max-mbps" ∷ codes "max-smbps" ∷
        codes "max-fs" ∷ codes "max-cpb" ∷ codes "max-dpb" ∷ codes "max-br" ∷
        codes "redundant-pic-cap" ∷ codes "sprop-parameter-sets" ∷
        codes "sprop-level-parameter-sets" ∷ codes "use-level-src-parameter-sets" ∷
        codes "in-band-parameter-sets" ∷ codes "level-asymmetry-allowed" ∷
        codes "packetization-mode" ∷ codes "sprop-interleaving-depth" ∷
        codes "sprop-deint-buf-req" ∷ codes "deint-buf-cap" ∷ codes "sprop-init-buf-time" ∷
        codes "sprop-max-don-diff" ∷ codes "max-rcmd-nalu-size" ∷ codes "sar-understood" ∷
        codes "sar-supported" ∷ [] }
{}

/// The parameters of H.265 by their names, each at its row (RFC 7798, section 7.1).
pub fn h265_names()
    ensures { map (λ it. (row_at h265.rows (h265.row_place it)).name) (
        h265_parameter.ProfileSpace ∷ h265_parameter.ProfileId ∷ h265_parameter.TierFlag ∷
        h265_parameter.LevelId ∷ h265_parameter.InteropConstraints ∷
        h265_parameter.ProfileCompatibilityIndicator ∷ h265_parameter.SpropSubLayerId ∷
        h265_parameter.RecvSubLayerId ∷ h265_parameter.MaxRecvLevelId ∷ h265_parameter.TxMode ∷
        h265_parameter.SpropVps ∷ h265_parameter.SpropSps ∷ h265_parameter.SpropPps ∷
        h265_parameter.SpropSei ∷ h265_parameter.MaxLsr ∷ h265_parameter.MaxLps ∷
        h265_parameter.MaxCpb ∷ h265_parameter.MaxDpb ∷ h265_parameter.MaxBr ∷
        h265_parameter.MaxTr ∷ h265_parameter.MaxTc ∷ h265_parameter.MaxFps ∷
        h265_parameter.SpropMaxDonDiff ∷ h265_parameter.SpropDepackBufNalus ∷
        h265_parameter.SpropDepackBufBytes ∷ h265_parameter.DepackBufCap ∷
        h265_parameter.SpropSegmentationId ∷ h265_parameter.SpropSpatialSegmentationIdc ∷
        h265_parameter.DecParallelCap ∷ h265_parameter.IncludeDph ∷ []) ≡
        codes "profile-space" ∷ codes "profile-id" ∷ codes "tier-flag" ∷ codes "level-id" ∷
        codes "interop-constraints" ∷ codes "profile-compatibility-indicator" ∷
        codes "sprop-sub-layer-id" ∷ codes "recv-sub-layer-id" ∷ codes "max-recv-level-id" ∷
        codes "tx-mode" ∷ codes "sprop-vps" ∷ codes "sprop-sps" ∷ codes "sprop-pps" ∷
        codes "sprop-sei" ∷ codes "max-lsr" ∷ codes "max-lps" ∷ codes "max-cpb" ∷
        codes "max-dpb" ∷ codes "max-br" ∷ codes "max-tr" ∷ codes "max-tc" ∷ codes "max-fps" ∷
        codes "sprop-max-don-diff" ∷ codes "sprop-depack-buf-nalus" ∷
        codes "sprop-depack-buf-bytes" ∷ codes "depack-buf-cap" ∷ codes "sprop-segmentation-id" ∷
        codes "sprop-spatial-segmentation-idc" ∷ codes "dec-parallel-cap" ∷ codes "include-dph"
        ∷ [] }
{}

/// The parameters of H.266 by their names, each at its row (RFC 9328, section 7.2).
pub fn h266_names()
    ensures { map (λ it. (row_at h266.rows (h266.row_place it)).name) (
        h266_parameter.ProfileId ∷ h266_parameter.TierFlag ∷ h266_parameter.SubProfileId ∷
        h266_parameter.InteropConstraints ∷ h266_parameter.LevelId ∷
        h266_parameter.SpropSublayerId ∷ h266_parameter.SpropOlsId ∷
        h266_parameter.RecvSublayerId ∷ h266_parameter.RecvOlsId ∷ h266_parameter.MaxRecvLevelId ∷
        h266_parameter.SpropDci ∷ h266_parameter.SpropVps ∷ h266_parameter.SpropSps ∷
        h266_parameter.SpropPps ∷ h266_parameter.SpropSei ∷ h266_parameter.MaxLsr ∷
        h266_parameter.MaxFps ∷ h266_parameter.SpropMaxDonDiff ∷
        h266_parameter.SpropDepackBufBytes ∷ h266_parameter.DepackBufCap ∷ []) ≡
        codes "profile-id" ∷ codes "tier-flag" ∷ codes "sub-profile-id" ∷
        codes "interop-constraints" ∷ codes "level-id" ∷ codes "sprop-sublayer-id" ∷
        codes "sprop-ols-id" ∷ codes "recv-sublayer-id" ∷ codes "recv-ols-id" ∷
        codes "max-recv-level-id" ∷ codes "sprop-dci" ∷ codes "sprop-vps" ∷ codes "sprop-sps" ∷
        codes "sprop-pps" ∷ codes "sprop-sei" ∷ codes "max-lsr" ∷ codes "max-fps" ∷
        codes "sprop-max-don-diff" ∷ codes "sprop-depack-buf-bytes" ∷ codes "depack-buf-cap" ∷ [] }
{}

/// What is no number of H.264: bytes of a profile and a level, of a level, and parameter sets.
pub fn h264_texts()
    ensures { texts h264.rows ≡ (codes "profile-level-id", kind.Hexadecimal 3) ∷
        (codes "max-recv-level", kind.Hexadecimal 2) ∷
        (codes "sprop-parameter-sets", kind.Units unit_types.h264_sets) ∷
        (codes "sprop-level-parameter-sets", kind.Text) ∷ [] }
{}

/// What is no number of H.265: bytes of constraints and of profiles, a mode, parameter sets and
/// messages, and texts with a grammar of their own.
pub fn h265_texts()
    ensures { texts h265.rows ≡ (codes "interop-constraints", kind.Hexadecimal 6) ∷
        (codes "profile-compatibility-indicator", kind.Hexadecimal 4) ∷
        (codes "tx-mode", kind.TxMode) ∷
        (codes "sprop-vps", kind.Units unit_types.h265_vps) ∷
        (codes "sprop-sps", kind.Units unit_types.h265_sps) ∷
        (codes "sprop-pps", kind.Units unit_types.h265_pps) ∷
        (codes "sprop-sei", kind.Units unit_types.h265_sei) ∷
        (codes "dec-parallel-cap", kind.Text) ∷
        (codes "include-dph", kind.Text) ∷ [] }
{}

/// What is no number of H.266: texts, parameter sets and messages.
pub fn h266_texts()
    ensures { texts h266.rows ≡ (codes "sub-profile-id", kind.Text) ∷
        (codes "interop-constraints", kind.Text) ∷
        (codes "sprop-dci", kind.Units unit_types.h266_dci) ∷
        (codes "sprop-vps", kind.Units unit_types.h266_vps) ∷
        (codes "sprop-sps", kind.Units unit_types.h266_sps) ∷
        (codes "sprop-pps", kind.Units unit_types.h266_pps) ∷
        (codes "sprop-sei", kind.Units unit_types.h266_sei) ∷ [] }
{}

/// The parameters of retransmission: the line of RFC 4588, section 8.7, that of browsers, and such that
/// have no payload type, one above 127, one that is none, or two.
#[tactic(auto, unfolding(h26x_fmtp::specs::Reading::reading))]
pub fn formats_of_retransmission()
    ensures count { length rtx_rows ≡ 2 }
    ensures bounds { bounds rtx_rows
        ≡ (codes "apt", 0, 127) ∷ (codes "rtx-time", 0, 18446744073709551615) ∷ [] }
    ensures whole { rtx_format_of (codes "apt=96;rtx-time=3000")
        ≡ Ok (record { payload_type = 96; rtx_time = Some 3000 }) }
    ensures browsers { rtx_format_of (codes "apt=127")
        ≡ Ok (record { payload_type = 127; rtx_time = None }) }
    ensures spaced { rtx_format_of (codes "RTX-Time=200; x=1; APT = 0")
        ≡ Ok (record { payload_type = 0; rtx_time = Some 200 }) }
    ensures none { rtx_format_of (codes "rtx-time=3000") ≡ Err rtx.NoPayloadType }
    ensures empty { rtx_format_of [] ≡ Err rtx.NoPayloadType }
    ensures above { rtx_format_of (codes "rtx-time=3000;apt=128")
        ≡ Err (rtx.Parameters (refused.Refused 1 fault.OutOfRange)) }
    ensures no_number { rtx_format_of (codes "apt=H264")
        ≡ Err (rtx.Parameters (refused.Refused 0 fault.NotANumber)) }
    ensures twice { rtx_format_of (codes "apt=96;apt=96")
        ≡ Err (rtx.Parameters (refused.Refused 1 fault.Twice)) }
{}
