//! Retransmission packets (RFC 4588).

ghost use Rattle.std.specs.Prelude.{◌≡◌, ◌<◌, ◌≤◌, ◌++◌, [], false, MatchOption, IfSome, length, drop};
ghost use Rattle.h26x_rtp.specs.Datagram.{HeaderFits, datagram_header};
ghost use Rattle.h26x_rtp.specs.Memory.{overwritten};
ghost use Rattle.h26x_rtp.specs.Rtx.{rtx_bytes, retransmission_of, IsOriginal};
ghost use Rattle.h26x_rtp.specs.Views.{header_view, datagram_view};
ghost use Rattle.h26x_rtp.specs.Words.{word_at};
ghost use Rattle.h26x_rtp.specs.Writing.{IsDatagramWritten, IsBytesWritten};

use crate::datagram::RtpDatagram;
use crate::error::RtpWriteError;
use crate::header::RtpHeader;
use crate::memory::{put, write_behind};
use crate::words::word_in;

/// What the payload of a retransmission packet says (RFC 4588, 4).
#[derive(Debug, Clone, Copy, PartialEq, Eq)]
pub struct RtxPayload<'a> {
    /// The original sequence number (OSN).
    pub sequence: u16,
    /// The original payload.
    pub payload: &'a [u8],
}

impl<'a> RtxPayload<'a> {
    /// Reads the payload of a retransmission packet; there is none where it has fewer than two
    /// bytes, as in a packet of padding alone (RFC 4588, 4).
    pub fn read(bytes: &'a [u8]) -> Option<RtxPayload<'a>>
        ensures spelled { MatchOption result (length bytes.now < 2)
            (λ it. bytes.now ≡ rtx_bytes it.sequence it.payload.now) }
        ensures long { IfSome result (λ it. 2 ≤ length bytes.now) }
        ensures number { IfSome result (λ it. it.sequence ≡ word_at bytes.now 0) }
        ensures payload { IfSome result (λ it. it.payload.now ≡ drop 2 bytes.now) }
    {
        if bytes.len() < 2 {
            return None;
        }
        let (_, payload) = bytes.split_at(2);
        let sequence = word_in(bytes, 0);
        Some(RtxPayload { sequence, payload })
    }

    /// Writes the payload of a retransmission packet to the front of memory; how many bytes it has
    /// (RFC 4588, 4).
    pub fn write(self, to: &mut [u8]) -> Result<usize, RtpWriteError>
        ensures { IsBytesWritten (rtx_bytes self.entry.sequence self.entry.payload.now) to.old to.new
            result }
    {
        write_behind(&self.sequence.to_be_bytes(), self.payload, to)
    }
}

/// Writes a retransmission packet to the front of memory where there is room for it.
fn put_rtx(header: RtpHeader<'_>, sequence: u16, payload: &[u8], to: &mut [u8])
    requires fits { HeaderFits (header_view header) }
    requires room { length (datagram_header (header_view header) false
        ++ rtx_bytes sequence payload.now) ≤ length to.old }
    ensures { to.new ≡ overwritten 0 (datagram_header (header_view header.entry) false
        ++ rtx_bytes sequence payload.now) to.old }
{
    let behind = header.put(false, 0, to);
    let behind = put(&sequence.to_be_bytes(), behind, to);
    put(payload, behind, to);
}

/// Writes a retransmission packet of this header.
fn write_rtx(
    header: RtpHeader<'_>,
    sequence: u16,
    payload: &[u8],
    to: &mut [u8],
) -> Result<usize, RtpWriteError>
    ensures { IsDatagramWritten (record {
      header = header_view header.entry;
      payload = rtx_bytes sequence payload.now;
      padding = [];
    }) to.old to.new result }
{
    header.test()?;
    let size = header
        .size()
        .saturating_add(2)
        .saturating_add(payload.len());
    if to.len() < size {
        return Err(RtpWriteError::NoRoom(size));
    }
    put_rtx(header, sequence, payload, to);
    Ok(size)
}

impl<'a> RtpDatagram<'a> {
    /// The packet that this retransmission packet bears, of the payload type and the SSRC of its
    /// stream; none where the payload has fewer than two bytes (RFC 4588, 4). Padding is left out.
    pub fn original(self, payload_type: u8, ssrc: u32) -> Option<RtpDatagram<'a>>
        ensures { MatchOption result (length self.entry.payload.now < 2)
            (λ it. IsOriginal (datagram_view self.entry) payload_type ssrc (datagram_view it)) }
    {
        let it = RtxPayload::read(self.payload)?;
        let header = RtpHeader {
            payload_type,
            sequence: it.sequence,
            ssrc,
            ..self.header
        };
        Some(RtpDatagram {
            header,
            payload: it.payload,
            padding: &[],
        })
    }

    /// Writes the retransmission packet of this packet, of another payload type and SSRC, to the
    /// front of memory; how many bytes it has, or why it isn't written (RFC 4588, 4). Padding is left
    /// out.
    pub fn write_rtx(
        self,
        payload_type: u8,
        sequence: u16,
        ssrc: u32,
        to: &mut [u8],
    ) -> Result<usize, RtpWriteError>
        ensures { IsDatagramWritten
            (retransmission_of (datagram_view self.entry) payload_type sequence ssrc)
            to.old to.new result }
    {
        let header = RtpHeader {
            payload_type,
            sequence,
            ssrc,
            ..self.header
        };
        write_rtx(header, self.header.sequence, self.payload, to)
    }
}
