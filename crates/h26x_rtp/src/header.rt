//! The header of an RTP packet (RFC 3550, 5.1).

/// A header extension (RFC 3550, 5.3.1).
#[derive(Debug, Clone, Copy, PartialEq, Eq)]
pub struct RtpExtension<'a> {
    /// 16 bits that a profile defines: by RFC 8285 the form of the elements in `bytes`.
    pub profile: u16,
    /// What stands behind the length: whole words of four bytes.
    pub bytes: &'a [u8],
}

/// The header of an RTP packet (RFC 3550, 5.1). Version and P, whether the packet ends in padding,
/// are no part of it.
#[derive(Debug, Clone, Copy, PartialEq, Eq)]
pub struct RtpHeader<'a> {
    /// M, by the payload formats of video the last packet of an access unit.
    pub marker: bool,
    /// The payload type, below 128.
    pub payload_type: u8,
    /// The sequence number.
    pub sequence: u16,
    /// The timestamp.
    pub timestamp: u32,
    /// The SSRC.
    pub ssrc: u32,
    /// The CSRCs as they stand, four bytes each, at most 15.
    pub csrcs: &'a [u8],
    /// The header extension, where X is set.
    pub extension: Option<RtpExtension<'a>>,
}
