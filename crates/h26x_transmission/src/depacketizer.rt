//! A depacketizer of any codec, or a caller's own.

ghost use Rattle.std.specs.Prelude.{◌≡◌, [], ◌∷◌, true, Some, OnOk, OnErr, IsOk};
ghost use Rattle.h26x_core.specs.Front.{IsFrontOf};
ghost use Rattle.h26x_core.specs.Hint.{size_hint};
ghost use Rattle.h26x_model.specs.Receive.DepacketizerState.{after_packets, IsPacketOutcome, depacketizer_meaning};
ghost use Rattle.h264_payload.specs.declared.codec.H264.{H264};
ghost use Rattle.h264_payload.specs.H264.{h264};
ghost use Rattle.h265_payload.specs.Setting as h265_setting;
ghost use Rattle.h265_payload.specs.Shown.{shown};
ghost use Rattle.h26x_depacketizer.specs.DepacketizerView.{depacketizer_state};
ghost use Rattle.h266_payload.specs.declared.codec.H266.{H266};
ghost use Rattle.h266_payload.specs.Setting as h266_setting;
ghost use Rattle.h26x_codec.specs.Codec.{default_format, fresh_depacketizer_state, may_begin_h265, may_begin_h266, is_last_h265, is_last_h266, is_startless_h264, is_startless_h266};
ghost use Rattle.h26x_transmission.specs.CodecStates.{codec_depacketizer_state, depacketizer_codec, codec_depacketization, shown_payload, payload_at_first, without_run, OfDepacketizer, OfDepacketization, OfH264, OfH265, OfH266};
ghost use Rattle.h26x_transmission.specs.declared.depacketizer.CodecDepacketizer.TheVariants as d;
ghost use Rattle.h26x_core.specs.H264AccessUnit.{may_begin_h264};

use h26x_codec::Codec;
use h26x_core::{CodecExtra, Depacketizer, PacketError};
use h264_payload::H264Depacketizer;
use h265_payload::H265Depacketizer;
use h266_payload::H266Depacketizer;
use std::alloc::Global;
use std::fmt;

/// A depacketizer of one of the codecs (RFC 6184, RFC 7798, RFC 9328), or a caller's own in a box.
///
/// Every call goes to the depacketizer that it holds.
///
/// ```rust
/// let mut depacketizer = CodecDepacketizer::new(alloc, Codec::H266);
/// let mut extra = CodecExtra::None;
/// for packet in &packets {
///     depacketizer.depacketize(packet, &mut out, &mut extra)?;
/// }
/// ```
#[derive(Drop)]
pub enum CodecDepacketizer {
    /// Receives H.264 (RFC 6184).
    H264(H264Depacketizer),
    /// Receives H.265 (RFC 7798).
    H265(H265Depacketizer),
    /// Receives H.266 (RFC 9328).
    H266(H266Depacketizer),
    /// A caller's own depacketizer. Nothing is known of it but the laws of [`Depacketizer`].
    Boxed(Box<dyn Depacketizer>),
}

impl fmt::Debug for CodecDepacketizer {
    /// The depacketizer of a codec behind its codec's name; of one in a box only `Boxed`.
    fn fmt<W: fmt::Write>(&self, f: &mut fmt::Formatter<W>) -> fmt::Result {
        match self {
            CodecDepacketizer::H264(it) => write!(f, "H264({it:?})"),
            CodecDepacketizer::H265(it) => write!(f, "H265({it:?})"),
            CodecDepacketizer::H266(it) => write!(f, "H266({it:?})"),
            CodecDepacketizer::Boxed(_) => write!(f, "Boxed"),
        }
    }
}

impl CodecDepacketizer {
    /// A depacketizer of a codec that reads packets without decoding order numbers, writes start
    /// codes and has no run open; of H.265 it shows the empty single NAL unit packet. Its memory
    /// comes from `alloc`; none is taken here.
    pub fn new(alloc: Global, codec: Codec) -> Self
        ensures codec { depacketizer_codec result ≡ Some codec }
        ensures fresh { codec_depacketizer_state result
            ≡ Some (fresh_depacketizer_state (default_format codec)) }
        ensures shows { shown_payload result ≡ payload_at_first codec }
    {
        match codec {
            Codec::H264 => CodecDepacketizer::H264(H264Depacketizer::new(alloc)),
            Codec::H265 => CodecDepacketizer::H265(H265Depacketizer::new(alloc)),
            Codec::H266 => CodecDepacketizer::H266(H266Depacketizer::new(alloc)),
        }
    }

    /// Gives up the open run of a codec, if there is one, and gives its buffer back, and of H.265 the
    /// memory that is kept for what `payload` will show; one in a box stays as it is. It takes no
    /// memory.
    ///
    /// A run grows by every fragment until one ends it: a caller that will not hold so much calls
    /// this. Fragments that follow without a start are accepted and complete nothing. A run that ends
    /// leaves its buffer for later ones, if that has 2^20 bytes at most.
    pub fn give_up_run(&mut self)
        ensures { self.new ≡ without_run self.old }
    {
        match self {
            CodecDepacketizer::H264(it) => it.give_up_run(),
            CodecDepacketizer::H265(it) => it.give_up_run(),
            CodecDepacketizer::H266(it) => it.give_up_run(),
            CodecDepacketizer::Boxed(_) => {}
        }
    }
}

impl Depacketizer for CodecDepacketizer {
    // What the later answers of the depacketizer that it holds depend on.
    ghost meaning = { elim [
      | d.H264 it ↦ depacketizer_meaning (depacketizer_state h264 it)
      | d.H265 it ↦ depacketizer_meaning (depacketizer_state (h265_setting.setting_format it.codec) it)
      | d.H266 it ↦ depacketizer_meaning (depacketizer_state (h266_setting.setting_format it.codec) it)
      | d.Boxed it ↦ (Depacketizer-box it).Depacketizer.meaning it.value
    ] };

    /// How many bytes the units of packets of this many bytes may take when they are written. Of a
    /// codec: these bytes, four more, and four for each whole 1200 of them; at most `usize::MAX`.
    fn out_size_hint(&self, packets_size: usize) -> Option<usize>
        ensures { OfDepacketizer self.now (λ r. result ≡ Some (size_hint packets_size)) }
    {
        match self {
            CodecDepacketizer::H264(it) => it.out_size_hint(packets_size),
            CodecDepacketizer::H265(it) => it.out_size_hint(packets_size),
            CodecDepacketizer::H266(it) => it.out_size_hint(packets_size),
            CodecDepacketizer::Boxed(it) => it.out_size_hint(packets_size),
        }
    }

    /// Appends the units that `packet` completes to `out`, and tells of them in `codec_extra`, as
    /// the depacketizer that it holds does. One of H.265 then shows the packet.
    ///
    /// A refusal leaves `out`, `codec_extra` and what later answers depend on, and of H.265 what is
    /// shown; the errors are those of the depacketizer that it holds.
    fn depacketize(
        &mut self,
        packet: &[u8],
        out: &mut Vec<u8>,
        codec_extra: &mut CodecExtra,
    ) -> Result<(), PacketError>
        ensures outcome { OfDepacketization self.old out.old.items codec_extra.old
            (λ w. IsPacketOutcome w packet.now result) }
        ensures taken { OfDepacketization self.old out.old.items codec_extra.old
            (λ w. OnOk result (codec_depacketization self.new out.new.items codec_extra.new ≡ Some
            (after_packets w (packet.now ∷ [])))) }
        ensures kept { OfDepacketizer self.old (λ r. OnErr result (self.new ≡ self.old)) }
        ensures codec { depacketizer_codec self.new ≡ depacketizer_codec self.old }
        ensures shows { OfH265 self.old (λ it.
            OnOk result (shown_payload self.new ≡ Some (shown it.codec.has_donl packet.now))) }

        // Such a packet of H.264 or H.266 takes no memory.
        ensures startless_h264 { OfH264 self.old (λ it.
            is_startless_h264 it packet.now ≡ true → IsOk result) }
        ensures startless_h266 { OfH266 self.old (λ it.
            is_startless_h266 it packet.now ≡ true → IsOk result) }

        // A depacketizer in a box too.
        ensures accepted { OnOk result (IsFrontOf out.old.items out.new.items) }
        ensures kept_out { OnErr result (out.new.items ≡ out.old.items) }
        ensures kept_extra { OnErr result (codec_extra.new ≡ codec_extra.old) }
        ensures kept_meaning { OnErr result (⟦<Self as Depacketizer>⟧.meaning self.new
            ≡ ⟦<Self as Depacketizer>⟧.meaning self.old) }
    {
        match self {
            CodecDepacketizer::H264(it) => it.depacketize(packet, out, codec_extra),
            CodecDepacketizer::H265(it) => it.depacketize(packet, out, codec_extra),
            CodecDepacketizer::H266(it) => it.depacketize(packet, out, codec_extra),
            CodecDepacketizer::Boxed(it) => it.depacketize(packet, out, codec_extra),
        }
    }

    /// Whether `packet` may be the first of an access unit, as the depacketizer that it holds says.
    fn is_partition_head(&self, packet: &[u8]) -> bool
        ensures h264 { OfH264 self.now (λ it. result ≡ may_begin_h264 packet.now) }
        ensures h265 { OfH265 self.now (λ it. result ≡ may_begin_h265 packet.now) }
        ensures h266 { OfH266 self.now (λ it. result ≡ may_begin_h266 packet.now) }
    {
        match self {
            CodecDepacketizer::H264(it) => it.is_partition_head(packet),
            CodecDepacketizer::H265(it) => it.is_partition_head(packet),
            CodecDepacketizer::H266(it) => it.is_partition_head(packet),
            CodecDepacketizer::Boxed(it) => it.is_partition_head(packet),
        }
    }

    /// Whether `packet` is the last of an access unit, with the marker bit of its RTP packet given,
    /// as the depacketizer that it holds says.
    fn is_partition_tail(&self, marker: bool, packet: &[u8]) -> bool
        ensures h264 { OfH264 self.now (λ it. result ≡ marker) }
        ensures h265 { OfH265 self.now (λ it. result ≡ is_last_h265 marker packet.now) }
        ensures h266 { OfH266 self.now (λ it. result ≡ is_last_h266 marker packet.now) }
    {
        match self {
            CodecDepacketizer::H264(it) => it.is_partition_tail(marker, packet),
            CodecDepacketizer::H265(it) => it.is_partition_tail(marker, packet),
            CodecDepacketizer::H266(it) => it.is_partition_tail(marker, packet),
            CodecDepacketizer::Boxed(it) => it.is_partition_tail(marker, packet),
        }
    }
}
