//! The format parameters of each codec, by their places in its table.

ghost use Rattle.std.specs.Prelude.{◌≡◌, length, map};
ghost use Rattle.std.specs.List.{range_with_len};
ghost use Rattle.std.specs.Option.{option_map};
ghost use Rattle.h26x_fmtp.specs.Tables as tables;

use h26x_answers::CodecRules;
use h26x_fmtp::{Kind, row_of};
use h26x_sdp::{H264Parameter, H265Parameter, H266Parameter};

/// A format parameter of a codec, all of which can be listed.
pub trait ListedParameter: CodecRules + 'static {
    /// All of them, in the order of their places.
    fn all() -> &'static [Self]
        ensures places { map Self.place result.now ≡ range_with_len 0 (length Self.rows) }
        ensures many { length result.now ≡ length Self.rows };
}

static H264: [H264Parameter; 23] = [
    H264Parameter::ProfileLevelId,
    H264Parameter::MaxRecvLevel,
    H264Parameter::MaxMbps,
    H264Parameter::MaxSmbps,
    H264Parameter::MaxFs,
    H264Parameter::MaxCpb,
    H264Parameter::MaxDpb,
    H264Parameter::MaxBr,
    H264Parameter::RedundantPicCap,
    H264Parameter::SpropParameterSets,
    H264Parameter::SpropLevelParameterSets,
    H264Parameter::UseLevelSrcParameterSets,
    H264Parameter::InBandParameterSets,
    H264Parameter::LevelAsymmetryAllowed,
    H264Parameter::PacketizationMode,
    H264Parameter::SpropInterleavingDepth,
    H264Parameter::SpropDeintBufReq,
    H264Parameter::DeintBufCap,
    H264Parameter::SpropInitBufTime,
    H264Parameter::SpropMaxDonDiff,
    H264Parameter::MaxRcmdNaluSize,
    H264Parameter::SarUnderstood,
    H264Parameter::SarSupported,
];

static H265: [H265Parameter; 30] = [
    H265Parameter::ProfileSpace,
    H265Parameter::ProfileId,
    H265Parameter::TierFlag,
    H265Parameter::LevelId,
    H265Parameter::InteropConstraints,
    H265Parameter::ProfileCompatibilityIndicator,
    H265Parameter::SpropSubLayerId,
    H265Parameter::RecvSubLayerId,
    H265Parameter::MaxRecvLevelId,
    H265Parameter::TxMode,
    H265Parameter::SpropVps,
    H265Parameter::SpropSps,
    H265Parameter::SpropPps,
    H265Parameter::SpropSei,
    H265Parameter::MaxLsr,
    H265Parameter::MaxLps,
    H265Parameter::MaxCpb,
    H265Parameter::MaxDpb,
    H265Parameter::MaxBr,
    H265Parameter::MaxTr,
    H265Parameter::MaxTc,
    H265Parameter::MaxFps,
    H265Parameter::SpropMaxDonDiff,
    H265Parameter::SpropDepackBufNalus,
    H265Parameter::SpropDepackBufBytes,
    H265Parameter::DepackBufCap,
    H265Parameter::SpropSegmentationId,
    H265Parameter::SpropSpatialSegmentationIdc,
    H265Parameter::DecParallelCap,
    H265Parameter::IncludeDph,
];

static H266: [H266Parameter; 20] = [
    H266Parameter::ProfileId,
    H266Parameter::TierFlag,
    H266Parameter::SubProfileId,
    H266Parameter::InteropConstraints,
    H266Parameter::LevelId,
    H266Parameter::SpropSublayerId,
    H266Parameter::SpropOlsId,
    H266Parameter::RecvSublayerId,
    H266Parameter::RecvOlsId,
    H266Parameter::MaxRecvLevelId,
    H266Parameter::SpropDci,
    H266Parameter::SpropVps,
    H266Parameter::SpropSps,
    H266Parameter::SpropPps,
    H266Parameter::SpropSei,
    H266Parameter::MaxLsr,
    H266Parameter::MaxFps,
    H266Parameter::SpropMaxDonDiff,
    H266Parameter::SpropDepackBufBytes,
    H266Parameter::DepackBufCap,
];

impl ListedParameter for H264Parameter {
    fn all() -> &'static [H264Parameter] {
        &H264
    }
}

impl ListedParameter for H265Parameter {
    fn all() -> &'static [H265Parameter] {
        &H265
    }
}

impl ListedParameter for H266Parameter {
    fn all() -> &'static [H266Parameter] {
        &H266
    }
}

/// The parameter with a name, without regard to case, and what its value is.
pub fn parameter_of<P: ListedParameter>(name: &[u8]) -> Option<(P, Kind)>
    ensures { option_map (λ it. (P.place it.0, it.1)) result ≡ tables.row_of P.rows name.now }
{
    let (place, kind) = row_of(P::rows(), name)?;
    Some((P::all()[place], kind))
}
