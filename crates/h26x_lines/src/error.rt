//! Why the program ends early.

use std::alloc::AllocError;
use thiserror::Error;

/// Why the program ends before it has answered every line.
#[derive(Debug, Clone, Copy, PartialEq, Eq, Error)]
pub enum RunError {
    /// The input can't be read.
    #[error("h26x: read failed")]
    Read,

    /// An answer can't be written.
    #[error("h26x: write failed")]
    Write,

    /// No memory for the input, for a line's bytes or for the buffer of the answers.
    #[error("h26x: no memory")]
    OutOfMemory,
}

impl From<AllocError> for RunError {
    ghost use Rattle.std.specs.Prelude.{◌≡◌};
    ghost use Rattle.h26x_lines.specs.declared.error.RunError.TheVariants.{OutOfMemory};

    ghost from_gives = { λ _ e. e ≡ OutOfMemory };

    fn from(_e: AllocError) -> RunError {
        RunError::OutOfMemory
    }
}
