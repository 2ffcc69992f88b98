//! Why packets aren't sent.

ghost use Rattle.std.specs.Prelude.{◌≡◌};
ghost use Rattle.h26x_rtp_sender.specs.declared.error.RtpSendError.TheVariants.{OutOfMemory};

use h26x_rtp::RtpWriteError;
use std::alloc::AllocError;
use thiserror::Error;

/// Why the packets of an access unit aren't sent; all stays as it was.
#[derive(Debug, Clone, Copy, PartialEq, Eq, Error)]
pub enum RtpSendError {
    /// Their header isn't one, or has more bytes than the headroom before each, or than 272.
    #[error("{0}")]
    Header(RtpWriteError),

    /// There is no memory for the history.
    #[error("out of memory")]
    OutOfMemory,
}

impl From<AllocError> for RtpSendError {
    ghost from_gives = { λ _ e. e ≡ OutOfMemory };

    fn from(_e: AllocError) -> RtpSendError {
        RtpSendError::OutOfMemory
    }
}
