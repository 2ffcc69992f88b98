//! Payloads sent, written, and sent again.

ghost use Rattle.std.specs.Prelude.{◌≡◌, ◌≤◌, [], ◌∷◌, false, IfOk, IfErr, OnErr, Err, map, Some, None};
ghost use Rattle.h26x_core.specs.ByteStream.{annex_b};
ghost use Rattle.h26x_model.specs.Receive.Received.{received};
ghost use Rattle.h26x_model.specs.Send.PacketizerState.{calls_packets};
ghost use Rattle.h26x_packetizer.specs.Sending.{contents};
ghost use Rattle.h26x_codec.specs.Codec.{codec_format, fresh_depacketizer_state, zero_rule};
ghost use Rattle.h26x_transmission.specs.CodecStates.{codec_packetizer_state, codec_depacketizer_state, OfPacketizer, OfDepacketizer, OfBoth};
ghost use Rattle.h26x_transmission.specs.Transmissions.{IsFresh};
ghost use Rattle.h26x_transmission.specs.Repeating.{starting_packetizer, repeated_calls, calls_at, packets_at, MayBeRepeated, IsTextOf, IsRefusal, received_text, repeated_packets};

use crate::carried::Packets;
use crate::depacketizer::CodecDepacketizer;
use crate::laws::{depacketizer_states, packetizer_states};
use crate::packetizer::CodecPacketizer;
use crate::transmissions::deliver;
use h26x_codec::Codec;
use h26x_core::{CodecExtra, PacketError, Packetizer};
use h26x_model::laws;
use h264_payload::{H264Depacketizer, H264Packetizer};
use h265_payload::{H265Depacketizer, H265Packetizer};
use h266_payload::{H266Depacketizer, H266Packetizer};
use std::alloc::Global;

/// A packetizer of a codec with this setting for numbers and this largest packet size.
fn packetizer_with(alloc: Global, codec: Codec, donl: bool, max_packet_size: u16) -> CodecPacketizer
    requires { 4 ≤ max_packet_size }
    ensures { codec_packetizer_state result ≡ Some (starting_packetizer codec donl
        max_packet_size) }
{
    match codec {
        Codec::H264 => CodecPacketizer::H264(H264Packetizer::new(alloc)),
        Codec::H265 => {
            let mut it = H265Packetizer::new(alloc);
            it.with_donl(donl);
            it.with_max_packet_size(max_packet_size);
            CodecPacketizer::H265(it)
        }
        Codec::H266 => {
            let mut it = H266Packetizer::new(alloc);
            it.with_donl(donl);
            it.with_max_packet_size(max_packet_size);
            CodecPacketizer::H266(it)
        }
    }
}

/// A depacketizer of a codec with this setting for numbers.
fn depacketizer_with(alloc: Global, codec: Codec, donl: bool) -> CodecDepacketizer
    ensures { codec_depacketizer_state result ≡ Some
        (fresh_depacketizer_state (codec_format codec donl)) }
{
    match codec {
        Codec::H264 => CodecDepacketizer::H264(H264Depacketizer::new(alloc)),
        Codec::H265 => {
            let mut it = H265Depacketizer::new(alloc);
            it.with_donl(donl);
            CodecDepacketizer::H265(it)
        }
        Codec::H266 => {
            let mut it = H266Depacketizer::new(alloc);
            it.with_donl(donl);
            CodecDepacketizer::H266(it)
        }
    }
}

/// The packets of payloads at one limit, one payload after the other.
fn packetize_all(
    alloc: Global,
    p: &mut CodecPacketizer,
    limit: usize,
    payloads: &[Vec<u8>],
) -> Result<Vec<Vec<u8>>, PacketError>
    ensures sent { OfPacketizer p.old
        (λ s. IfOk result (λ made.
        contents made.items ≡ calls_packets s (calls_at s limit (contents payloads.now)))) }
    ensures memory { OfPacketizer p.old (λ s. OnErr result (result ≡ Err PacketError.OutOfMemory)) }
{
    packetizer_states(p);
    laws::packetizers_go_on();
    let mut packets = Vec::new(alloc);
    for payload in payloads {
        let mut made = p.packetize(limit, payload)?;
        packets.append(&mut made)?;
    }
    Ok(packets)
}

/// What was sent, written, and sent again.
#[derive(Debug, Drop)]
pub struct Repeated {
    /// The packets of all payloads.
    pub first: Packets,
    /// What a depacketizer writes for them, in Annex B.
    pub written: Vec<u8>,
    /// The packets of that as one payload.
    pub second: Packets,
}

/// Sends payloads by `p`, writes their packets by `d`, and sends what was written by `q`.
fn again_with(
    alloc: Global,
    p: &mut CodecPacketizer,
    d: &mut CodecDepacketizer,
    q: &mut CodecPacketizer,
    limit: usize,
    payloads: &[Vec<u8>],
) -> Result<Repeated, PacketError>
    ensures first { OfPacketizer p.old
        (λ s. IsFresh s →
        IfOk result (λ it. it.first ≡ packets_at s limit (contents payloads.now))) }
    ensures written { OfDepacketizer d.old
        (λ r. r.run ≡ None → IfOk result (λ it. it.written.items ≡ received_text r it.first)) }
    ensures second { OfPacketizer q.old
        (λ t. IsFresh t →
        IfOk result (λ it. it.second ≡ packets_at t limit (it.written.items ∷ []))) }
    ensures carried { OfBoth p.old d.old
        (λ s r. IsFresh s → r.format ≡ s.format →
        IsTextOf s.format r.is_avc (calls_at s limit (contents payloads.now)) result) }
    ensures refused { OfBoth p.old d.old
        (λ s r. OfPacketizer q.old (λ t. IsFresh s → r.is_avc ≡ false →
        IfErr result (λ e. IsRefusal r.format (packets_at s limit (contents payloads.now)) e))) }
{
    packetizer_states(p);
    depacketizer_states(d);
    laws::depacketizers_go_on();
    laws::what_calls_send_is_carried();
    laws::plans_unit_by_unit();
    let first = packetize_all(alloc, p, limit, payloads)?;
    let mut written = Vec::new(alloc);
    let mut extra = CodecExtra::None;
    deliver(d, &first, &mut written, &mut extra)?;
    let second = q.packetize(limit, &written)?;
    Ok(Repeated {
        first: Packets::from_vec(first),
        written,
        second: Packets::from_vec(second),
    })
}

/// Sends payloads at one limit in bytes, one call each, writes their packets in Annex B, and sends
/// what was written as one payload at the same limit. Packetizers and depacketizer are fresh ones of
/// `codec`.
///
/// `donl` sets all three up for decoding order numbers, and `max_packet_size`, 4 or more, is the
/// largest packet size of both packetizers; H.264 has neither. The error is `OutOfMemory`, or the
/// refusal of the first packet of `first` that a depacketizer refuses. Where packets can carry each
/// unit sent, none is dropped for its size and, for H.264 and H.265, none but the last ends in a zero
/// byte, `second` is `first`.
///
/// ```rust
/// let repeated = again(alloc, Codec::H264, false, 1200, 1200, &frames)?;
/// ```
pub fn again(
    alloc: Global,
    codec: Codec,
    donl: bool,
    max_packet_size: u16,
    limit: usize,
    payloads: &[Vec<u8>],
) -> Result<Repeated, PacketError>
    requires { 4 ≤ max_packet_size }
    ensures first { IfOk result (λ it. it.first ≡ repeated_packets codec donl
        max_packet_size limit (contents payloads.now)) }
    ensures written { IfOk result (λ it. it.written.items
        ≡ annex_b (received (map (codec_format codec donl).read it.first))) }
    ensures second { IfOk result (λ it. it.second ≡ repeated_packets codec donl
        max_packet_size limit (it.written.items ∷ [])) }
    ensures same { MayBeRepeated (codec_format codec donl) (zero_rule codec)
        (repeated_calls codec max_packet_size limit (contents payloads.now)) →
        IfOk result (λ it. it.second ≡ it.first) }
    ensures refused { IfErr result (λ error. IsRefusal (codec_format codec donl)
        (repeated_packets codec donl max_packet_size limit (contents payloads.now)) error) }
{
    h26x_payload::laws::sent_again();
    let mut p = packetizer_with(alloc, codec, donl, max_packet_size);
    let mut d = depacketizer_with(alloc, codec, donl);
    let mut q = packetizer_with(alloc, codec, donl, max_packet_size);
    again_with(alloc, &mut p, &mut d, &mut q, limit, payloads)
}
