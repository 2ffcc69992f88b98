//! What a receiver reads of an RTP packet.

use std::marker::Model;

/// What a receiver reads of an RTP packet (RFC 3550, 5.1).
#[derive(Debug, Drop)]
pub struct RtpPacket<'a> {
    /// Its sequence number.
    pub sequence: u16,
    /// Its timestamp.
    pub timestamp: u32,
    /// Its marker bit, which the last packet of an access unit bears.
    pub marker: bool,
    /// Its payload.
    pub payload: &'a [u8],
}

impl<'a> Model for RtpPacket<'a> {
    ghost use Rattle.std.specs.Prelude.{ℕ};
    ghost use Rattle.h26x_reorder.specs.Rtp.{RtpBody, rtp_body};

    ghost Value = { ℕ × RtpBody };

    ghost view = { λ p. (p.sequence, rtp_body p.timestamp p.marker p.payload.now) };
}
