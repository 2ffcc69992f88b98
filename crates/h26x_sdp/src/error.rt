//! Why values of parameters are refused.

use h26x_fmtp::{Fault, ParametersError, UnitsError};
use std::alloc::{AllocError, AllocFailed};
use thiserror::Error;

/// Why a text or bytes are no constraints of H.266.
#[derive(Debug, Clone, Copy, PartialEq, Eq, Error)]
pub enum ConstraintsError {
    /// The text is no base64 (RFC 4648, section 4).
    #[error("the constraints are no base64")]
    NotBase64,

    /// They end before they say all.
    #[error("the constraints are too short")]
    Short,

    /// Bytes stand behind them.
    #[error("bytes stand behind the constraints")]
    Long,

    /// The allocator had no memory.
    #[error("out of memory")]
    OutOfMemory,
}

/// Why a text is no parameter sets of levels. A refused call changes nothing.
#[derive(Debug, Clone, Copy, PartialEq, Eq, Error)]
pub enum LevelSetsError {
    /// The profile and level at this place, counted from 0, isn't six hexadecimal digits.
    #[error("level {place} is not six digits")]
    NotHexadecimal { place: usize },

    /// No sets stand behind the profile and level at this place.
    #[error("level {place} has no sets")]
    NoSets { place: usize },

    /// The sets of the level at this place have this fault.
    #[error("the sets of level {place} are refused")]
    Sets { place: usize, fault: UnitsError },

    /// The allocator had no memory.
    #[error("out of memory")]
    OutOfMemory,
}

impl From<AllocError> for LevelSetsError {
    ghost use Rattle.std.specs.Prelude.{◌≡◌};
    ghost use Rattle.h26x_sdp.specs.declared.error.LevelSetsError.TheVariants.{OutOfMemory};

    ghost from_gives = { λ _ e. e ≡ OutOfMemory };

    fn from(_e: AllocError) -> LevelSetsError {
        LevelSetsError::OutOfMemory
    }
}

impl<T: Drop> From<AllocFailed<T>> for LevelSetsError {
    ghost use Rattle.std.specs.Prelude.{◌≡◌};
    ghost use Rattle.h26x_sdp.specs.declared.error.LevelSetsError.TheVariants.{OutOfMemory};

    ghost from_gives = { λ _ e. e ≡ OutOfMemory };

    fn from(_e: AllocFailed<T>) -> LevelSetsError {
        LevelSetsError::OutOfMemory
    }
}

/// Why a text is no capability points. A refused call changes nothing.
#[derive(Debug, Clone, Copy, PartialEq, Eq, Error)]
pub enum CapabilityPointsError {
    /// The text doesn't begin with `{` and end with `}`.
    #[error("no braces")]
    NoBraces,

    /// The point at this place, counted from 0, starts with neither `w` nor `t` before a `:`.
    #[error("point {place} is for no tool")]
    NoTool {
        place: usize,
    },

    /// The number behind the tool of the point at this place has this fault.
    #[error("the number of point {place} is refused")]
    Segmentation {
        place: usize,
        fault: Fault,
    },

    /// The limits of the point at this place have this fault.
    #[error("the limits of point {place} are refused")]
    Limits {
        place: usize,
        fault: ParametersError,
    },

    /// The point at this place has no limit.
    #[error("point {place} has no limit")]
    NoLimit {
        place: usize,
    },

    /// The allocator had no memory.
    #[error("out of memory")]
    OutOfMemory,
}

impl From<AllocError> for CapabilityPointsError {
    ghost use Rattle.std.specs.Prelude.{◌≡◌};
    ghost use Rattle.h26x_sdp.specs.declared.error.CapabilityPointsError.TheVariants.{OutOfMemory};

    ghost from_gives = { λ _ e. e ≡ OutOfMemory };

    fn from(_e: AllocError) -> CapabilityPointsError {
        CapabilityPointsError::OutOfMemory
    }
}

impl<T: Drop> From<AllocFailed<T>> for CapabilityPointsError {
    ghost use Rattle.std.specs.Prelude.{◌≡◌};
    ghost use Rattle.h26x_sdp.specs.declared.error.CapabilityPointsError.TheVariants.{OutOfMemory};

    ghost from_gives = { λ _ e. e ≡ OutOfMemory };

    fn from(_e: AllocFailed<T>) -> CapabilityPointsError {
        CapabilityPointsError::OutOfMemory
    }
}

/// Why a text is no format of retransmission. A refused call changes nothing.
#[derive(Debug, Clone, Copy, PartialEq, Eq, Error)]
pub enum RtxError {
    /// The parameters have this fault.
    #[error("{0}")]
    Parameters(ParametersError),

    /// There is no `apt`, which RFC 4588, section 8.3, asks for.
    #[error("no associated payload type")]
    NoPayloadType,

    /// The allocator had no memory.
    #[error("out of memory")]
    OutOfMemory,
}
