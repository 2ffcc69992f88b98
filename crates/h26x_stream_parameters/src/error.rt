//! Why units say no parameters.

use std::alloc::{AllocError, AllocFailed};
use thiserror::Error;

/// Why units say no parameters. A refused call changes nothing.
#[derive(Debug, Clone, Copy, PartialEq, Eq, Error)]
pub enum StreamError {
    /// No parameter set that says a profile and a level stands before the first slice.
    #[error("no parameter set says a profile and a level")]
    NoParameterSet,

    /// The first that would say them ends before they do.
    #[error("a parameter set is too short")]
    ShortParameterSet,

    /// The first SPS of H.266 doesn't say them: sps_ptl_dpb_hrd_params_present_flag is 0.
    #[error("the parameter set says no profile")]
    NoProfile,

    /// The allocator had no memory.
    #[error("out of memory")]
    OutOfMemory,
}

impl From<AllocError> for StreamError {
    ghost use Rattle.std.specs.Prelude.{◌≡◌};
    ghost use Rattle.h26x_stream_parameters.specs.declared.error.StreamError.TheVariants.{OutOfMemory};

    ghost from_gives = { λ _ e. e ≡ OutOfMemory };

    fn from(_e: AllocError) -> StreamError {
        StreamError::OutOfMemory
    }
}

impl<T: Drop> From<AllocFailed<T>> for StreamError {
    ghost use Rattle.std.specs.Prelude.{◌≡◌};
    ghost use Rattle.h26x_stream_parameters.specs.declared.error.StreamError.TheVariants.{OutOfMemory};

    ghost from_gives = { λ _ e. e ≡ OutOfMemory };

    fn from(_e: AllocFailed<T>) -> StreamError {
        StreamError::OutOfMemory
    }
}
