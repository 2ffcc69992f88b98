//! The calls of a sender of access units, as datagrams.

ghost use Rattle.std.specs.Prelude.{◌≡◌, ◌≢◌, ◌≤◌, ◌⊎◌, true, false, Some, IfOk, length};
ghost use Rattle.std.specs.Option.{option_map};
ghost use Rattle.h26x_model.specs.Where.{Where};
ghost use Rattle.h26x_rtp.specs.Views.{extension_view};
ghost use Rattle.h26x_rtp_sender.specs.InMemory.{are_in_memory};
ghost use Rattle.h26x_rtp_sender.specs.Sending.{RtpSending};
ghost use Rattle.h26x_endpoint.specs.EndpointStates.{is_rtp_sender, endpoint_rtp_sending, place_rtp_sending};
ghost use Rattle.h26x_codes.specs.Codes.{ok, out_of_memory, out_of_range, wrong_end};
ghost use Rattle.h26x_c.specs.RtpSenders as spec;

use crate::const_handle::ConstHandle;
use crate::handle::Handle;
use crate::place::{Place, put};
use crate::rtp::written;
use h26x_codes::code::{OK, OUT_OF_MEMORY, OUT_OF_RANGE, WRONG_END};
use h26x_endpoint::endpoint::Endpoint;
use h26x_rtp::{RtpExtension, RtpWriteError};
use h26x_rtp_sender::{RtpSendError, RtpSender, RtpStream, are_in_memory};
use std::alloc::Global;

/// A payload type has no place in a header.
const PAYLOAD_TYPE: u32 = 56;

/// The streams of a sender: of its packets, and of their retransmissions.
#[repr(C)]
#[derive(Clone, Copy)]
pub struct Streams {
    pub ssrc: u32,
    pub rtx_ssrc: u32,
    pub sequence: u16,
    pub rtx_sequence: u16,
    pub payload_type: u8,
    pub rtx_payload_type: u8,
    pub has_rtx: bool,
}

/// What was sent.
#[repr(C)]
#[derive(Clone, Copy)]
pub struct SentCounts {
    pub packets: u64,
    pub bytes: u64,
    pub rtx_packets: u64,
    pub rtx_bytes: u64,
}

/// The stream of packets that C says.
fn media_in(streams: &Streams) -> RtpStream
    ensures { result ≡ spec.media_in streams.now }
{
    RtpStream {
        ssrc: streams.ssrc,
        payload_type: streams.payload_type,
        sequence: streams.sequence,
    }
}

/// The stream of retransmissions that C says.
fn rtx_in(streams: &Streams) -> Option<RtpStream>
    ensures { result ≡ spec.rtx_in streams.now }
{
    if streams.has_rtx {
        Some(RtpStream {
            ssrc: streams.rtx_ssrc,
            payload_type: streams.rtx_payload_type,
            sequence: streams.rtx_sequence,
        })
    } else {
        None
    }
}

/// Whether each payload type that is looked at has a place in a header.
fn are_payload_types(streams: &Streams) -> bool
    ensures { result ≡ spec.are_payload_types streams.now }
{
    streams.payload_type < 128 && (!streams.has_rtx || streams.rtx_payload_type < 128)
}

/// The streams, as C is told them.
fn streams_told(media: RtpStream, rtx: Option<RtpStream>) -> Streams
    ensures { result ≡ spec.streams_with media rtx }
{
    match rtx {
        None => Streams {
            ssrc: media.ssrc,
            rtx_ssrc: 0,
            sequence: media.sequence,
            rtx_sequence: 0,
            payload_type: media.payload_type,
            rtx_payload_type: 0,
            has_rtx: false,
        },
        Some(rtx) => Streams {
            ssrc: media.ssrc,
            rtx_ssrc: rtx.ssrc,
            sequence: media.sequence,
            rtx_sequence: rtx.sequence,
            payload_type: media.payload_type,
            rtx_payload_type: rtx.payload_type,
            has_rtx: true,
        },
    }
}

/// What was sent, as C is told it.
fn counts_sent(sender: &RtpSender) -> SentCounts
    ensures { result ≡ spec.counts_sent sender.now }
{
    let (sent, resent) = (sender.sent(), sender.resent());
    SentCounts {
        packets: sent.packets,
        bytes: sent.bytes,
        rtx_packets: resent.packets,
        rtx_bytes: resent.bytes,
    }
}

/// The extension of a profile and bytes: none of no bytes.
fn extension_with(profile: u16, bytes: &[u8]) -> Option<RtpExtension<'_>>
    ensures { option_map extension_view result ≡ spec.extension_with profile bytes.now }
{
    if bytes.is_empty() {
        None
    } else {
        Some(RtpExtension { profile, bytes })
    }
}

/// What sending answers; how many bytes each header has, in a headroom of so many.
fn sent(headroom: usize, answer: Result<usize, RtpSendError>, len: &mut usize) -> u32
    requires { IfOk answer (λ start. start ≤ headroom) }
    ensures { (result, len.new) ≡ spec.send_answer headroom answer len.old }
{
    match answer {
        Ok(start) => {
            *len = headroom - start;
            OK
        }
        Err(RtpSendError::Header(error)) => written(Err(error), len),
        Err(RtpSendError::OutOfMemory) => OUT_OF_MEMORY,
    }
}

/// What sending a packet again answers; how many bytes it has, 0 where none is held.
fn told_again(answer: Result<Option<usize>, RtpWriteError>, len: &mut usize) -> u32
    ensures { (result, len.new) ≡ spec.again_answer answer len.old }
{
    match answer {
        Ok(size) => {
            *len = size.unwrap_or(0);
            OK
        }
        Err(error) => written(Err(error), len),
    }
}

/// Makes a sender of these streams, which holds so many bytes of payloads at most.
#[unsafe(no_mangle)]
pub extern "C" fn h26x_rtp_sender_new(
    alloc: Global,
    streams: &Streams,
    history: usize,
    made: &mut Place,
) -> u32
    ensures refused { spec.are_payload_types streams.now ≡ false → result ≡ 56 }
    ensures answer { spec.are_payload_types streams.now ≡ true →
        (result ≡ ok) ⊎ (result ≡ out_of_memory) }
    ensures made { result ≡ ok → place_rtp_sending made.new.value
        ≡ Some (spec.fresh_sender_with streams.now history) }
    ensures kept { result ≢ ok → made.new ≡ made.old }
{
    if !are_payload_types(streams) {
        return PAYLOAD_TYPE;
    }
    let sender = RtpSender::new(alloc, media_in(streams), rtx_in(streams), history);
    put(alloc, Endpoint::RtpSender(sender), made)
}

/// Frees a sender.
#[unsafe(no_mangle)]
pub extern "C" fn h26x_rtp_sender_free(s: Handle) {
    drop(s.into_box());
}

/// Makes RTP packets of the packets of an access unit where they lie, each behind its headroom.
#[unsafe(no_mangle)]
pub extern "C" fn h26x_rtp_sender_send(
    s: &mut Handle,
    timestamp: u32,
    profile: u16,
    extension: &[u8],
    headroom: usize,
    packets: &mut [u8],
    ends: &[usize],
    len: &mut usize,
) -> u32
    ensures wrong { is_rtp_sender s.old.value ≡ false →
        (result ≡ wrong_end) × (len.new ≡ len.old) }
    ensures range { is_rtp_sender s.old.value ≡ true →
        are_in_memory headroom 0 (length packets.old) ends.now ≡ false →
        (result ≡ out_of_range) × (len.new ≡ len.old) }
    ensures sent { Where (endpoint_rtp_sending s.old.value) (λ it.
        are_in_memory headroom 0 (length packets.old) ends.now ≡ true → (new : RtpSending)
        × (endpoint_rtp_sending s.new.value ≡ Some new) × spec.IsSentAnswer timestamp
        (spec.extension_with profile extension.now) it headroom ends.now packets.old new
        packets.new result len.old len.new) }
    ensures kept { result ≢ ok → (s.new.value ≡ s.old.value) × (packets.new ≡ packets.old) }
{
    match s.get_mut() {
        Endpoint::RtpSender(it) => {
            if !are_in_memory(headroom, ends, packets.len()) {
                return OUT_OF_RANGE;
            }
            let extension = extension_with(profile, extension);
            sent(
                headroom,
                it.send_in_memory(timestamp, extension, headroom, ends, packets),
                len,
            )
        }
        _ => WRONG_END,
    }
}

/// Writes what goes again for the packet of a number.
#[unsafe(no_mangle)]
pub extern "C" fn h26x_rtp_sender_resend(
    s: &mut Handle,
    number: u16,
    to: &mut [u8],
    len: &mut usize,
) -> u32
    ensures wrong { is_rtp_sender s.old.value ≡ false → (result ≡ wrong_end)
        × (s.new.value ≡ s.old.value) × (to.new ≡ to.old) × (len.new ≡ len.old) }
    ensures again { Where (endpoint_rtp_sending s.old.value) (λ it. (new : RtpSending)
        × (endpoint_rtp_sending s.new.value ≡ Some new)
        × spec.IsAgainAnswer number it to.old new to.new result len.old len.new) }
{
    match s.get_mut() {
        Endpoint::RtpSender(it) => told_again(it.resend(number, to), len),
        _ => WRONG_END,
    }
}

/// The streams, with the numbers of the next packets.
#[unsafe(no_mangle)]
pub extern "C" fn h26x_rtp_sender_streams(s: &ConstHandle, streams: &mut Streams) -> u32
    ensures wrong { is_rtp_sender s.now.value ≡ false → result ≡ wrong_end }
    ensures streams { Where (endpoint_rtp_sending s.now.value)
        (λ it. (result ≡ ok) × (streams.new ≡ spec.streams_told it)) }
    ensures kept { result ≢ ok → streams.new ≡ streams.old }
{
    match s.get() {
        Endpoint::RtpSender(it) => {
            *streams = streams_told(it.media(), it.rtx());
            OK
        }
        _ => WRONG_END,
    }
}

/// What was sent.
#[unsafe(no_mangle)]
pub extern "C" fn h26x_rtp_sender_count(s: &ConstHandle, sent: &mut SentCounts) -> u32
    ensures wrong { is_rtp_sender s.now.value ≡ false → result ≡ wrong_end }
    ensures counted { Where (endpoint_rtp_sending s.now.value)
        (λ it. (result ≡ ok) × (sent.new ≡ spec.counts_sent it)) }
    ensures kept { result ≢ ok → sent.new ≡ sent.old }
{
    match s.get() {
        Endpoint::RtpSender(it) => {
            *sent = counts_sent(it);
            OK
        }
        _ => WRONG_END,
    }
}
