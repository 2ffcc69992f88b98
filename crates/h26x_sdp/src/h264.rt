//! The format parameters of H.264 (RFC 6184, section 8.1).

ghost use Rattle.std.specs.Prelude.{◌≡◌};

use crate::codec::{CodecParameter, CodecParameters};
use crate::error::LevelSetsError;
use crate::level_sets::{LevelSets, read_level_sets};
use h26x_fmtp::kind::{BITS_15, BITS_32, BITS_64, FLAG};
use h26x_fmtp::unit_types::H264_SETS;
use h26x_fmtp::{Kind, ParameterRow};
use std::alloc::Global;

/// A format parameter of H.264, in the order in which they are written (RFC 6184, section 8.1).
#[derive(Debug, Clone, Copy, PartialEq, Eq)]
pub enum H264Parameter {
    /// `profile-level-id`: profile_idc, profile_iop and level_idc, by six digits. Where it's
    /// absent 42000a: Baseline, level 1.
    ProfileLevelId,
    /// `max-recv-level`: profile_iop and level_idc of the highest level that is received, by four
    /// digits. Level 1b is 11 with bit 4 of profile_iop, or 9 without it. Where it's absent, the
    /// level of `profile-level-id`.
    MaxRecvLevel,
    /// `max-mbps`: the most macroblocks in a second, not below the level's. Where it's absent, the
    /// level's.
    MaxMbps,
    /// `max-smbps`: the most static macroblocks in a second, not below `max-mbps`. Where it's
    /// absent, static macroblocks count as others do.
    MaxSmbps,
    /// `max-fs`: the most macroblocks of a frame, not below the level's. Where it's absent, the
    /// level's.
    MaxFs,
    /// `max-cpb`: the largest coded picture buffer, in units of 1000 bits for the VCL and 1200 for
    /// the NAL HRD, not below the level's. Where it's absent, the level's, times `max-br` over
    /// the level's where that is given.
    MaxCpb,
    /// `max-dpb`: the largest decoded picture buffer, in units of 8/3 macroblocks, not below the
    /// level's. Where it's absent, the level's.
    MaxDpb,
    /// `max-br`: the highest bit rate, in units of 1000 bits a second for the VCL and 1200 for the
    /// NAL HRD, not below the level's. Where it's absent, the level's.
    MaxBr,
    /// `redundant-pic-cap`: whether a receiver uses redundant coded pictures, 0 or 1. Where it's
    /// absent 0.
    RedundantPicCap,
    /// `sprop-parameter-sets`: parameter sets in base64, with `,` between them.
    SpropParameterSets,
    /// `sprop-level-parameter-sets`: parameter sets of other levels: six digits as in
    /// `profile-level-id`, `:`, its sets as in `sprop-parameter-sets`, `:` and so on.
    SpropLevelParameterSets,
    /// `use-level-src-parameter-sets`: whether parameter sets of other levels and by source are
    /// used, 0 or 1. Where it's absent 0.
    UseLevelSrcParameterSets,
    /// `in-band-parameter-sets`: 1 where parameter sets outside the stream are discarded, 0 where
    /// they are used. Where it's absent, neither is said.
    InBandParameterSets,
    /// `level-asymmetry-allowed`: whether the two directions may have different levels, 0 or 1.
    /// Where it's absent 0.
    LevelAsymmetryAllowed,
    /// `packetization-mode`: 0 single NAL unit, 1 non-interleaved, 2 interleaved. Where it's
    /// absent 0.
    PacketizationMode,
    /// `sprop-interleaving-depth`: how many VCL units precede one that they follow in decoding
    /// order, at most. Present in mode 2, and there alone.
    SpropInterleavingDepth,
    /// `sprop-deint-buf-req`: the size of the deinterleaving buffer that the stream needs, in
    /// bytes. Present in mode 2, and there alone.
    SpropDeintBufReq,
    /// `deint-buf-cap`: the deinterleaving buffer that a receiver has, in bytes. Where it's
    /// absent 0.
    DeintBufCap,
    /// `sprop-init-buf-time`: how long a receiver buffers before it decodes, in ticks of 90 kHz.
    /// Absent in modes 0 and 1. Where it's absent, it isn't said.
    SpropInitBufTime,
    /// `sprop-max-don-diff`: the largest difference of the decoding order numbers of a unit and
    /// of one that is sent behind it, up to 32767. Absent in modes 0 and 1. Where it's absent, it
    /// isn't said.
    SpropMaxDonDiff,
    /// `max-rcmd-nalu-size`: the largest unit that a receiver handles efficiently, in bytes.
    /// Where it's absent, any.
    MaxRcmdNaluSize,
    /// `sar-understood`: the greatest aspect_ratio_idc below 255 that is understood. Where it's
    /// absent 13.
    SarUnderstood,
    /// `sar-supported`: the greatest aspect_ratio_idc, from 1 to `sar-understood`, that is shown
    /// without distortion, or 255 for all ratios. Where it's absent, it isn't said.
    SarSupported,
}

/// The parameters of the table.
static ROWS: [ParameterRow; 23] = [
    ParameterRow {
        name: b"profile-level-id",
        kind: Kind::Hexadecimal { bytes: 3 },
        default: Some(b"42000a"),
    },
    ParameterRow {
        name: b"max-recv-level",
        kind: Kind::Hexadecimal { bytes: 2 },
        default: None,
    },
    ParameterRow {
        name: b"max-mbps",
        kind: BITS_64,
        default: None,
    },
    ParameterRow {
        name: b"max-smbps",
        kind: BITS_64,
        default: None,
    },
    ParameterRow {
        name: b"max-fs",
        kind: BITS_64,
        default: None,
    },
    ParameterRow {
        name: b"max-cpb",
        kind: BITS_64,
        default: None,
    },
    ParameterRow {
        name: b"max-dpb",
        kind: BITS_64,
        default: None,
    },
    ParameterRow {
        name: b"max-br",
        kind: BITS_64,
        default: None,
    },
    ParameterRow {
        name: b"redundant-pic-cap",
        kind: FLAG,
        default: Some(b"0"),
    },
    ParameterRow {
        name: b"sprop-parameter-sets",
        kind: Kind::Units(H264_SETS),
        default: None,
    },
    ParameterRow {
        name: b"sprop-level-parameter-sets",
        kind: Kind::Text,
        default: None,
    },
    ParameterRow {
        name: b"use-level-src-parameter-sets",
        kind: FLAG,
        default: Some(b"0"),
    },
    ParameterRow {
        name: b"in-band-parameter-sets",
        kind: FLAG,
        default: None,
    },
    ParameterRow {
        name: b"level-asymmetry-allowed",
        kind: FLAG,
        default: Some(b"0"),
    },
    ParameterRow {
        name: b"packetization-mode",
        kind: Kind::Number { least: 0, most: 2 },
        default: Some(b"0"),
    },
    ParameterRow {
        name: b"sprop-interleaving-depth",
        kind: BITS_15,
        default: None,
    },
    ParameterRow {
        name: b"sprop-deint-buf-req",
        kind: BITS_32,
        default: None,
    },
    ParameterRow {
        name: b"deint-buf-cap",
        kind: BITS_32,
        default: Some(b"0"),
    },
    ParameterRow {
        name: b"sprop-init-buf-time",
        kind: BITS_32,
        default: None,
    },
    ParameterRow {
        name: b"sprop-max-don-diff",
        kind: BITS_15,
        default: None,
    },
    ParameterRow {
        name: b"max-rcmd-nalu-size",
        kind: BITS_32,
        default: None,
    },
    ParameterRow {
        name: b"sar-understood",
        kind: Kind::Number {
            least: 0,
            most: 254,
        },
        default: Some(b"13"),
    },
    ParameterRow {
        name: b"sar-supported",
        kind: Kind::Number {
            least: 1,
            most: 255,
        },
        default: None,
    },
];

impl CodecParameter for H264Parameter {
    ghost use Rattle.h26x_sdp.specs.H264Rows as spec;

    ghost rows = { spec.rows };

    ghost place = { spec.row_place };

    fn rows() -> &'static [ParameterRow] {
        &ROWS
    }

    fn place(self) -> usize {
        self as usize
    }
}

impl CodecParameters<H264Parameter> {
    ghost use Rattle.std.specs.Option.{option_map};
    ghost use Rattle.h26x_fmtp.specs.Reading.{value_at};
    ghost use Rattle.h26x_sdp.specs.LevelSets.{level_sets_in};
    ghost use Rattle.h26x_sdp.specs.LevelSetsViews.{SaysLevelsIfGiven};
    ghost use Rattle.h26x_sdp.specs.H264Rows as spec;
    ghost use Rattle.h26x_sdp.specs.declared.h264.H264Parameter.TheVariants.{SpropLevelParameterSets};

    /// The parameter sets of other levels, `sprop-level-parameter-sets`; `None` where it's absent.
    pub fn level_sets(&self, alloc: Global) -> Result<Option<Vec<LevelSets>>, LevelSetsError>
        ensures { SaysLevelsIfGiven result (option_map level_sets_in
            (value_at self.now.values (spec.row_place SpropLevelParameterSets))) }
    {
        let Some(text) = self.value(H264Parameter::SpropLevelParameterSets) else {
            return Ok(None);
        };
        match read_level_sets(alloc, text) {
            Ok(levels) => Ok(Some(levels)),
            Err(error) => Err(error),
        }
    }
}

/// The format parameters of H.264: what an `a=fmtp` line says behind the payload type.
///
/// ```rust
/// let line = b"profile-level-id=42e01f;level-asymmetry-allowed=1;packetization-mode=1";
/// let format = H264Parameters::read(alloc, line)?;
/// assert_eq!(rt; format.number(H264Parameter::PacketizationMode), Some(1));
/// ```
pub type H264Parameters = CodecParameters<H264Parameter>;
