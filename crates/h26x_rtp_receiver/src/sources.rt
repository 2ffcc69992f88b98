//! The sources of one stream, and which packets are theirs.

ghost use Rattle.std.specs.Prelude.{◌≡◌, ◌==◌};
ghost use Rattle.std.specs.List.{list_any};
ghost use Rattle.h26x_rtp.specs.Views.{datagram_view};
ghost use Rattle.h26x_rtp_receiver.specs.Original.{is_type};
ghost use Rattle.h26x_rtp_receiver.specs.Sources as spec;

use crate::payload_types::RtpPayloadTypes;
use h26x_rtp::{RtpDatagram, RtxPayload};

/// The sources of one stream, by their SSRCs (RFC 3550, 8).
#[derive(Debug, Clone, Copy, PartialEq, Eq)]
pub struct RtpSources {
    /// That of its packets; `None`: that of the first packet of the codec or of RED.
    pub media: Option<u32>,
    /// That of its retransmissions, as `ssrc-group:FID` tells it (RFC 5576, 4.2); `None`: that of the
    /// first retransmission that bears a missing number (RFC 4588, 5.3).
    pub rtx: Option<u32>,
}

/// Whether a number is one of these.
fn is_among(numbers: &[u16], number: u16) -> bool
    ensures { result ≡ list_any (λ n. n == number) numbers.now }
{
    for it in numbers {
        if *it == number {
            return true;
        }
    }
    false
}

/// Whether a retransmission bears one of the numbers that are missing.
pub(crate) fn bears_missing(missing: &[u16], packet: RtpDatagram<'_>) -> bool
    ensures { result ≡ spec.bears_missing missing.now (datagram_view packet.entry) }
{
    match RtxPayload::read(packet.payload) {
        Some(original) => is_among(missing, original.sequence),
        None => false,
    }
}

impl RtpSources {
    /// None is known.
    pub(crate) fn none() -> Self
        ensures { result ≡ spec.no_sources }
    {
        RtpSources {
            media: None,
            rtx: None,
        }
    }

    /// Whether an SSRC is known to be that of the stream's packets.
    #[inline(always)]
    pub(crate) fn is_media(self, ssrc: u32) -> bool
        ensures { result ≡ is_type self.media ssrc }
    {
        let Some(media) = self.media else {
            return false;
        };
        media == ssrc
    }

    /// Whether a packet is of the stream, where that is told by its SSRC.
    pub(crate) fn tell(self, types: RtpPayloadTypes, packet: RtpDatagram<'_>) -> Option<bool>
        ensures { result ≡ spec.told types self (datagram_view packet.entry) }
    {
        let header = packet.header;
        let Some(media) = self.media else {
            return Some(types.begins(header.payload_type));
        };
        if header.ssrc == media {
            return Some(true);
        }
        if types.resent_type(header.payload_type).is_none() {
            return Some(false);
        }
        match self.rtx {
            Some(rtx) => Some(header.ssrc == rtx),
            None => None,
        }
    }

    /// The sources once a packet of this SSRC is one of the stream.
    pub(crate) fn with(self, ssrc: u32) -> Self
        ensures { result ≡ spec.sources_with ssrc self }
    {
        match self.media {
            Some(media) if media != ssrc => RtpSources {
                rtx: Some(ssrc),
                ..self
            },
            _ => RtpSources {
                media: Some(ssrc),
                ..self
            },
        }
    }
}
