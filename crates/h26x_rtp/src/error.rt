//! Why bytes are no RTP packet, and why one isn't written.

use thiserror::Error;

/// Why bytes are no RTP packet: the first fault from the left (RFC 3550, 5.1, 5.3.1 and A.1).
#[derive(Debug, Clone, Copy, PartialEq, Eq, Error)]
pub enum RtpError {
    /// They are fewer than the 12 bytes that every header has (RFC 3550, 5.1).
    #[error("shorter than an RTP header")]
    TooShort,

    /// The first two bits say this version, which isn't 2 (RFC 3550, 5.1).
    #[error("RTP version {0}")]
    OtherVersion(u8),

    /// The list of CSRCs passes the end (RFC 3550, 5.1).
    #[error("CSRCs pass the end of the packet")]
    CsrcsPastTheEnd,

    /// The header extension passes the end (RFC 3550, 5.3.1).
    #[error("header extension passes the end of the packet")]
    ExtensionPastTheEnd,

    /// The last byte says that 0 bytes are padding, where it is one itself (RFC 3550, 5.1).
    #[error("padding of 0 bytes")]
    PaddingOfZero,

    /// The padding is longer than what stands behind the header (RFC 3550, 5.1).
    #[error("padding is longer than what is left of the packet")]
    PaddingTooLong,
}

/// Why a packet or a header isn't written; memory then stays as it was. Parts are looked at in this
/// order.
#[derive(Debug, Clone, Copy, PartialEq, Eq, Error)]
pub enum RtpWriteError {
    /// The payload type is above 127 (RFC 3550, 5.1).
    #[error("payload type above 127")]
    PayloadType,

    /// The CSRCs aren't whole, four bytes each, or they are more than 15 (RFC 3550, 5.1).
    #[error("CSRCs that are not whole, or more than 15")]
    Csrcs,

    /// The header extension isn't of whole words, or has more than 65535 (RFC 3550, 5.3.1).
    #[error("header extension that has no whole words, or more than 65535")]
    Extension,

    /// The last byte of the padding doesn't say how long it is (RFC 3550, 5.1).
    #[error("padding whose last byte is not its length")]
    Padding,

    /// So many bytes don't fit.
    #[error("no room for {0} bytes")]
    NoRoom(usize),
}
