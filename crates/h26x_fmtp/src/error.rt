//! Why parameters are refused.

use std::alloc::{AllocError, AllocFailed};
use thiserror::Error;

/// What is wrong with a parameter.
#[derive(Debug, Clone, Copy, PartialEq, Eq)]
pub enum Fault {
    /// The value is no decimal number.
    NotANumber,
    /// The value is a number, but none that the parameter may have.
    OutOfRange,
    /// The value isn't hexadecimal digits, or not as many as the parameter has.
    NotHexadecimal,
    /// The value is none of `SRST`, `MRST` and `MRMT`, in either case.
    NotTxMode,
    /// A parameter of this name stands before it.
    Twice,
}

/// Why a text is no format parameters. A refused call changes nothing.
#[derive(Debug, Clone, Copy, PartialEq, Eq, Error)]
pub enum ParametersError {
    /// A `{` of the text isn't closed.
    #[error("a brace is left open")]
    OpenBrace,

    /// The parameter at this place, counted from 0, has this fault. Blank parts don't count.
    #[error("parameter {place} is refused")]
    Refused { place: usize, fault: Fault },

    /// The allocator had no memory.
    #[error("out of memory")]
    OutOfMemory,
}

impl From<AllocError> for ParametersError {
    ghost use Rattle.std.specs.Prelude.{◌≡◌};
    ghost use Rattle.h26x_fmtp.specs.declared.error.ParametersError.TheVariants.{OutOfMemory};

    ghost from_gives = { λ _ e. e ≡ OutOfMemory };

    fn from(_e: AllocError) -> ParametersError {
        ParametersError::OutOfMemory
    }
}

impl<T: Drop> From<AllocFailed<T>> for ParametersError {
    ghost use Rattle.std.specs.Prelude.{◌≡◌};
    ghost use Rattle.h26x_fmtp.specs.declared.error.ParametersError.TheVariants.{OutOfMemory};

    ghost from_gives = { λ _ e. e ≡ OutOfMemory };

    fn from(_e: AllocFailed<T>) -> ParametersError {
        ParametersError::OutOfMemory
    }
}

/// Why a text is no NAL units. A refused call changes nothing.
#[derive(Debug, Clone, Copy, PartialEq, Eq, Error)]
pub enum UnitsError {
    /// The text at this place, counted from 0, is no base64 (RFC 4648, section 4).
    #[error("unit {place} is no base64")]
    NotBase64 { place: usize },

    /// The unit at this place, counted from 0, has no byte.
    #[error("unit {place} is empty")]
    Empty { place: usize },

    /// The unit at this place, counted from 0, is of no type that the parameter is for.
    #[error("unit {place} is of another type")]
    OtherType { place: usize },

    /// The unit at this place, counted from 0, has a start code, `00 00 01`, inside.
    #[error("unit {place} has a start code inside")]
    StartCode { place: usize },

    /// The allocator had no memory.
    #[error("out of memory")]
    OutOfMemory,
}

impl From<AllocError> for UnitsError {
    ghost use Rattle.std.specs.Prelude.{◌≡◌};
    ghost use Rattle.h26x_fmtp.specs.declared.error.UnitsError.TheVariants.{OutOfMemory};

    ghost from_gives = { λ _ e. e ≡ OutOfMemory };

    fn from(_e: AllocError) -> UnitsError {
        UnitsError::OutOfMemory
    }
}

impl<T: Drop> From<AllocFailed<T>> for UnitsError {
    ghost use Rattle.std.specs.Prelude.{◌≡◌};
    ghost use Rattle.h26x_fmtp.specs.declared.error.UnitsError.TheVariants.{OutOfMemory};

    ghost from_gives = { λ _ e. e ≡ OutOfMemory };

    fn from(_e: AllocFailed<T>) -> UnitsError {
        UnitsError::OutOfMemory
    }
}
