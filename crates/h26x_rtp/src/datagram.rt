//! RTP packets read of any bytes (RFC 3550, 5.1).

ghost use Rattle.std.specs.Prelude.{◌≡◌, ◌≤◌, ◌*◌, length, IfOk};
ghost use Rattle.h26x_core.specs.Word.{field, is_set};
ghost use Rattle.std.specs.Option.{option_map};
ghost use Rattle.h26x_rtp.specs.Datagram.{IsDatagram};
ghost use Rattle.h26x_rtp.specs.Reading as reading;
ghost use Rattle.h26x_rtp.specs.Views.{extension_view, header_view, datagram_view};

use crate::error::RtpError;
use crate::header::{RtpExtension, RtpHeader};
use crate::words::{long_in, word_in};

/// How many bytes every header has (RFC 3550, 5.1).
pub const FIXED_SIZE: usize = 12;

/// An RTP packet, a datagram's or one of a file of packets; what it bears is borrowed (RFC 3550,
/// 5.1).
#[derive(Debug, Clone, Copy, PartialEq, Eq)]
pub struct RtpDatagram<'a> {
    /// Its header.
    pub header: RtpHeader<'a>,
    /// Its payload, which is empty in a packet of padding alone.
    pub payload: &'a [u8],
    /// Its padding, whose last byte says how many bytes it has; empty where P is clear.
    pub padding: &'a [u8],
}

/// How many bytes the CSRCs have, by the first byte of a header (RFC 3550, 5.1).
#[inline(always)]
fn csrcs_size(first: u8) -> usize
    ensures { result ≡ 4 * field first 3 0 }
{
    4 * usize::from(first & 0x0f)
}

/// X, by the first byte of a header (RFC 3550, 5.1).
#[inline(always)]
fn is_extended(first: u8) -> bool
    ensures { result ≡ is_set first 4 }
{
    first >> 4 & 1 != 0
}

/// P, by the first byte of a header (RFC 3550, 5.1).
#[inline(always)]
fn is_padded(first: u8) -> bool
    ensures { result ≡ is_set first 5 }
{
    first >> 5 & 1 != 0
}

/// So many bytes, and those behind them.
#[inline(always)]
fn front(bytes: &[u8], count: usize, fault: RtpError) -> Result<(&[u8], &[u8]), RtpError>
    ensures { reading.AnswersAs (λ it. (it.0.now, it.1.now)) result
        (reading.front_of fault count bytes.now) }
{
    if bytes.len() < count {
        return Err(fault);
    }
    Ok(bytes.split_at(count))
}

/// The header extension, where there is one, and what stands behind it (RFC 3550, 5.3.1).
#[inline(always)]
fn read_extension(
    extended: bool,
    bytes: &[u8],
) -> Result<(Option<RtpExtension<'_>>, &[u8]), RtpError>
    ensures { reading.AnswersAs (λ it. (option_map extension_view it.0, it.1.now)) result
        (reading.extension_at extended bytes.now) }
{
    if !extended {
        return Ok((None, bytes));
    }
    let (head, rest) = front(bytes, 4, RtpError::ExtensionPastTheEnd)?;
    let size = 4 * usize::from(word_in(head, 2));
    let (bytes, rest) = front(rest, size, RtpError::ExtensionPastTheEnd)?;
    let profile = word_in(head, 0);
    Ok((Some(RtpExtension { profile, bytes }), rest))
}

/// Payload and padding (RFC 3550, 5.1).
#[inline(always)]
fn read_padding(padded: bool, bytes: &[u8]) -> Result<(&[u8], &[u8]), RtpError>
    ensures { reading.AnswersAs (λ it. (it.0.now, it.1.now)) result
        (reading.padding_at padded bytes.now) }
{
    if !padded {
        return Ok((bytes, &[]));
    }
    if bytes.is_empty() {
        return Err(RtpError::PaddingTooLong);
    }
    let count = usize::from(bytes[bytes.len() - 1]);
    if bytes.len() < count {
        return Err(RtpError::PaddingTooLong);
    }
    if count == 0 {
        return Err(RtpError::PaddingOfZero);
    }
    Ok(bytes.split_at(bytes.len() - count))
}

/// The header by the bytes that every header has, and the parts behind them (RFC 3550, 5.1).
#[inline(always)]
fn header_of<'a>(
    bytes: &[u8],
    csrcs: &'a [u8],
    extension: Option<RtpExtension<'a>>,
) -> RtpHeader<'a>
    requires { FIXED_SIZE ≤ length bytes.now }
    ensures { header_view result
        ≡ reading.header_at bytes.now csrcs.now
        (option_map extension_view extension.entry) }
{
    RtpHeader {
        marker: bytes[1] >> 7 != 0,
        payload_type: bytes[1] & 0x7f,
        sequence: word_in(bytes, 2),
        timestamp: long_in(bytes, 4),
        ssrc: long_in(bytes, 8),
        csrcs,
        extension,
    }
}

/// A packet whose header has 12 bytes and which has no padding, as most are: all behind that is payload
/// (RFC 3550, 5.1).
#[inline(always)]
fn read_alone<'a>(bytes: &[u8], rest: &'a [u8]) -> RtpDatagram<'a>
    requires { FIXED_SIZE ≤ length bytes.now }
    ensures { datagram_view result ≡ reading.payload_alone bytes.now rest.now }
{
    RtpDatagram {
        header: header_of(bytes, &[], None),
        payload: rest,
        padding: &[],
    }
}

/// A packet of version 2: by the first 12 bytes what stands behind them (RFC 3550, 5.1).
#[inline(always)]
fn read_behind<'a>(bytes: &[u8], rest: &'a [u8]) -> Result<RtpDatagram<'a>, RtpError>
    requires { FIXED_SIZE ≤ length bytes.now }
    ensures { reading.AnswersAs datagram_view result (reading.behind_fixed bytes.now rest.now) }
{
    let size = csrcs_size(bytes[0]);
    let (csrcs, rest) = front(rest, size, RtpError::CsrcsPastTheEnd)?;
    let (extension, rest) = read_extension(is_extended(bytes[0]), rest)?;
    let (payload, padding) = read_padding(is_padded(bytes[0]), rest)?;
    let header = header_of(bytes, csrcs, extension);
    Ok(RtpDatagram {
        header,
        payload,
        padding,
    })
}

/// A packet, or why the bytes are none (RFC 3550, 5.1).
#[inline(always)]
fn read_datagram(bytes: &[u8]) -> Result<RtpDatagram<'_>, RtpError>
    ensures { reading.AnswersAs datagram_view result (reading.datagram_of bytes.now) }
{
    if bytes.len() < FIXED_SIZE {
        return Err(RtpError::TooShort);
    }
    let (_, rest) = bytes.split_at(FIXED_SIZE);
    if bytes[0] == 0x80 {
        return Ok(read_alone(bytes, rest));
    }
    let version = bytes[0] >> 6;
    if version != 2 {
        return Err(RtpError::OtherVersion(version));
    }
    read_behind(bytes, rest)
}

impl<'a> RtpDatagram<'a> {
    /// Reads an RTP packet, or says why the bytes are none (RFC 3550, 5.1).
    #[inline(always)]
    pub fn read(bytes: &'a [u8]) -> Result<RtpDatagram<'a>, RtpError>
        ensures read { reading.AnswersAs datagram_view result (reading.datagram_of bytes.now) }
        ensures spelled { IfOk result (λ it. IsDatagram bytes.now (datagram_view it)) }
    {
        read_datagram(bytes)
    }
}
