//! A depacketizer of one of the codecs, chosen when it is made.

ghost use Rattle.std.specs.Prelude.{◌≡◌, ◌≤◌, [], ◌∷◌, false, Some, None, Err, IfOk, IsOk, OnErr, OnOk, true, refl};
ghost use Rattle.std.specs.Option.{option_map};
ghost use Rattle.h26x_core.specs.Front.{IsFrontOf};
ghost use Rattle.h26x_core.specs.H264AccessUnit.{may_begin_h264};
ghost use Rattle.h26x_core.specs.Hint.{size_hint};
ghost use Rattle.h26x_model.specs.Receive.DepacketizerState.{after_packets, IsPacketOutcome};
ghost use Rattle.h26x_model.specs.Receive.RunLimit.{run_len};
ghost use Rattle.h26x_depacketizer.specs.Run.{run_memory};
ghost use Rattle.h26x_depacketizer.specs.UnitSink.{bytes_brought, grown_to, TellsRoom};
ghost use Rattle.h264_payload.specs.H264.{h264};
ghost use Rattle.h26x_codec.specs.Codec.{H264View, H265View, H266View, default_format, fresh_depacketizer_state, is_startless_h264, is_startless_h266, may_begin_h265, may_begin_h266, is_last_h265, is_last_h266};
ghost use Rattle.h26x_codec.specs.AnyDepacketizer.{any_depacketizer_state, any_depacketization, any_depacketizer_with_run, any_depacketizer_meaning, any_depacketizer_codec, any_depacketizer_avc, any_depacketizer_with_avc, any_depacketizer_with_donl, fresh_any_depacketizer, any_depacketizer_shown, any_depacketizer_showing, are_same_depacketizers};
ghost use Rattle.h26x_codec.specs.declared.any_depacketizer.AnyDepacketizer.TheVariants as a;
ghost use Rattle.h26x_depacketizer.specs.RunDepacketizer.{IsSameBesideRun};

use crate::codec::{Codec, with_held};
use h26x_core::{CodecExtra, Depacketizer, PacketError};
use h26x_depacketizer::{OpenRun, OpenText, RunDepacketizer, RunRule, UnitSink, UnitTest};
use h264_payload::H264Depacketizer;
use h265_packets::H265Payload;
use h265_payload::H265Depacketizer;
use h266_payload::H266Depacketizer;
use std::alloc::Global;

/// A depacketizer of one of the codecs, chosen when it is made. Every call goes to the one that it
/// holds.
///
/// ```rust
/// let depacketizer = AnyDepacketizer::new(alloc, Codec::H266);
/// let mut receiver = SequencedDepacketizer::new(alloc, depacketizer, 4_000_000);
/// ```
#[derive(Debug, Drop)]
pub enum AnyDepacketizer {
    /// Receives H.264 (RFC 6184).
    H264(H264Depacketizer),
    /// Receives H.265 (RFC 7798).
    H265(H265Depacketizer),
    /// Receives H.266 (RFC 9328).
    H266(H266Depacketizer),
}

impl AnyDepacketizer {
    /// A depacketizer of a codec that reads packets without decoding order numbers, writes start
    /// codes and has no run open.
    pub fn new(alloc: Global, codec: Codec) -> Self
        ensures state { any_depacketizer_state result
            ≡ fresh_depacketizer_state (default_format codec) }
        ensures fresh { result ≡ fresh_any_depacketizer codec false }
    {
        match codec {
            Codec::H264 => AnyDepacketizer::H264(H264Depacketizer::new(alloc)),
            Codec::H265 => AnyDepacketizer::H265(H265Depacketizer::new(alloc)),
            Codec::H266 => AnyDepacketizer::H266(H266Depacketizer::new(alloc)),
        }
    }

    /// Its codec.
    pub fn codec(&self) -> Codec
        ensures { result ≡ any_depacketizer_codec self.now }
    {
        match self {
            AnyDepacketizer::H264(_) => Codec::H264,
            AnyDepacketizer::H265(_) => Codec::H265,
            AnyDepacketizer::H266(_) => Codec::H266,
        }
    }

    /// How many bytes of memory it keeps for runs: twice the open run at most, or 2^20 bytes. Of H.265
    /// what `shown` shows, and will show, is not counted.
    pub fn run_memory(&self) -> usize
        ensures holds { run_len (any_depacketizer_state self.now).run ≤ result }
        ensures most { result ≤ run_memory (run_len (any_depacketizer_state self.now).run) }
    {
        with_held!(self, |it| it.run_memory())
    }

    /// The same depacketizer again, with its open run.
    pub fn clone(&self) -> Result<Self, PacketError>
        ensures same { IfOk result (λ it. it ≡ self.now) }
        ensures memory { OnErr result (result ≡ Err PacketError.OutOfMemory) }
    {
        match self {
            AnyDepacketizer::H264(it) => Ok(AnyDepacketizer::H264(it.clone()?)),
            AnyDepacketizer::H265(it) => Ok(AnyDepacketizer::H265(it.clone()?)),
            AnyDepacketizer::H266(it) => Ok(AnyDepacketizer::H266(it.clone()?)),
        }
    }

    /// Whether both are of one codec, and the same.
    pub fn is_same(&self, other: &AnyDepacketizer) -> bool
        ensures { result ≡ are_same_depacketizers self.now other.now }
    {
        match (self, other) {
            (AnyDepacketizer::H264(a), AnyDepacketizer::H264(b)) => a == b,
            (AnyDepacketizer::H265(a), AnyDepacketizer::H265(b)) => a == b,
            (AnyDepacketizer::H266(a), AnyDepacketizer::H266(b)) => a == b,
            _ => false,
        }
    }

    /// The packet that was accepted last, where the codec shows it: H.265.
    pub fn shown(&self) -> Option<&H265Payload>
        ensures { option_map (λ packet. packet.now) result ≡ any_depacketizer_shown self.now }
    {
        match self {
            AnyDepacketizer::H265(it) => Some(it.payload()),
            AnyDepacketizer::H264(_) | AnyDepacketizer::H266(_) => None,
        }
    }

    /// Whether it writes units behind lengths of four bytes, and not behind start codes.
    pub fn is_avc(&self) -> bool
        ensures { result ≡ any_depacketizer_avc self.now }
    {
        with_held!(self, |it| it.is_avc)
    }

    /// Sets whether it writes units behind lengths or behind start codes.
    pub fn set_avc(&mut self, is_avc: bool)
        ensures { self.new ≡ any_depacketizer_with_avc is_avc self.old }
    {
        with_held!(self, |it| it.is_avc = is_avc)
    }

    /// Sets whether packets bear decoding order numbers; that of H.264 stays as it is.
    pub fn with_donl(&mut self, has_donl: bool)
        ensures { self.new ≡ any_depacketizer_with_donl has_donl self.old }
    {
        match self {
            AnyDepacketizer::H264(_) => {}
            AnyDepacketizer::H265(it) => it.with_donl(has_donl),
            AnyDepacketizer::H266(it) => it.with_donl(has_donl),
        }
    }

    /// Takes a packet as `depacketize` does, and writes the units that it completes to a list of
    /// bytes or to memory of a caller. Where that has no room for them the error is `OutOfMemory`;
    /// a refusal leaves everything, the memory too. A fragment without a start before it is accepted
    /// and completes nothing, and of H.264 and H.266 it takes no memory.
    #[inline]
    pub fn depacketize_into<W: UnitSink>(
        &mut self,
        packet: &[u8],
        out: &mut W,
        codec_extra: &mut CodecExtra,
    ) -> Result<(), PacketError>
        ensures outcome { IsPacketOutcome (any_depacketization self.old (W.sink out.old).bytes
            codec_extra.old) packet.now result }
        ensures taken { OnOk result (any_depacketization self.new (W.sink out.new).bytes
            codec_extra.new ≡ after_packets (any_depacketization self.old (W.sink out.old).bytes
            codec_extra.old) (packet.now ∷ [])) }
        ensures behind { OnOk result (W.sink out.new
            ≡ grown_to (W.sink out.new).bytes (W.sink out.old)) }
        ensures accepted { OnOk result (IsFrontOf (W.sink out.old).bytes (W.sink out.new).bytes) }
        ensures rest { OnOk result (IsSameBesideRun any_depacketizer_with_run self.new
            (any_depacketizer_showing packet.now self.old)) }
        ensures startless_h264 { (it : H264View) → self.old ≡ a.H264 it →
            is_startless_h264 it packet.now ≡ true → IsOk result }
        ensures startless_h266 { (it : H266View) → self.old ≡ a.H266 it →
            is_startless_h266 it packet.now ≡ true → IsOk result }
        ensures kept { OnErr result (self.new ≡ self.old) }
        ensures kept_sink { OnErr result (W.sink out.new ≡ W.sink out.old) }
        ensures kept_extra { OnErr result (codec_extra.new ≡ codec_extra.old) }
        ensures told_room { TellsRoom W.room W.lacks out.old out.new result
            (bytes_brought (any_depacketizer_state self.old) packet.now) }
    {
        with_held!(self, |it| it.depacketize_into(packet, out, codec_extra))
    }

    /// Takes a packet as `depacketize_into` does, and writes units in this form, whatever is set:
    /// behind lengths or behind start codes. It asks once which codec's it is.
    #[inline(always)]
    pub fn depacketize_as<W: UnitSink>(
        &mut self,
        is_avc: bool,
        packet: &[u8],
        out: &mut W,
        codec_extra: &mut CodecExtra,
    ) -> Result<(), PacketError>
        ensures outcome { IsPacketOutcome (any_depacketization
            (any_depacketizer_with_avc is_avc self.old) (W.sink out.old).bytes codec_extra.old)
            packet.now result }
        ensures taken { OnOk result (any_depacketization
            (any_depacketizer_with_avc is_avc self.new) (W.sink out.new).bytes codec_extra.new
            ≡ after_packets (any_depacketization (any_depacketizer_with_avc is_avc self.old)
            (W.sink out.old).bytes codec_extra.old) (packet.now ∷ [])) }
        ensures behind { OnOk result (W.sink out.new
            ≡ grown_to (W.sink out.new).bytes (W.sink out.old)) }
        ensures accepted { OnOk result (IsFrontOf (W.sink out.old).bytes (W.sink out.new).bytes) }
        ensures rest { OnOk result (IsSameBesideRun any_depacketizer_with_run self.new
            (any_depacketizer_showing packet.now self.old)) }
        ensures startless_h264 { (it : H264View) → self.old ≡ a.H264 it →
            is_startless_h264 it packet.now ≡ true → IsOk result }
        ensures startless_h266 { (it : H266View) → self.old ≡ a.H266 it →
            is_startless_h266 it packet.now ≡ true → IsOk result }
        ensures kept { OnErr result (self.new ≡ self.old) }
        ensures kept_sink { OnErr result (W.sink out.new ≡ W.sink out.old) }
        ensures kept_extra { OnErr result (codec_extra.new ≡ codec_extra.old) }
        ensures told_room { TellsRoom W.room W.lacks out.old out.new result (bytes_brought
            (any_depacketizer_state (any_depacketizer_with_avc is_avc self.old)) packet.now) }
    {
        with_held!(
            self,
            |it| it.depacketize_as(is_avc, packet, out, codec_extra)
        )
    }
}

impl Depacketizer for AnyDepacketizer {
    ghost meaning = { any_depacketizer_meaning };

    /// As the depacketizer that it holds says.
    fn out_size_hint(&self, packets_size: usize) -> Option<usize>
        ensures { result ≡ Some (size_hint packets_size) }
    {
        with_held!(self, |it| it.out_size_hint(packets_size))
    }

    /// Takes a packet, as the depacketizer that it holds does. A refusal leaves everything; the errors
    /// are those of that depacketizer.
    fn depacketize(
        &mut self,
        packet: &[u8],
        out: &mut Vec<u8>,
        codec_extra: &mut CodecExtra,
    ) -> Result<(), PacketError>
        ensures outcome { IsPacketOutcome (any_depacketization self.old out.old.items
            codec_extra.old) packet.now result }
        ensures taken { OnOk result (any_depacketization self.new out.new.items
            codec_extra.new ≡ after_packets (any_depacketization self.old out.old.items
            codec_extra.old) (packet.now ∷ [])) }
        ensures rest { OnOk result (IsSameBesideRun any_depacketizer_with_run self.new
            (any_depacketizer_showing packet.now self.old)) }
        ensures startless_h264 { (it : H264View) → self.old ≡ a.H264 it →
            is_startless_h264 it packet.now ≡ true → IsOk result }
        ensures startless_h266 { (it : H266View) → self.old ≡ a.H266 it →
            is_startless_h266 it packet.now ≡ true → IsOk result }
        ensures kept { OnErr result (self.new ≡ self.old) }
        ensures accepted { OnOk result (IsFrontOf out.old.items out.new.items) }
        ensures kept_out { OnErr result (out.new.items ≡ out.old.items) }
        ensures kept_extra { OnErr result (codec_extra.new ≡ codec_extra.old) }
        ensures kept_meaning { OnErr result (any_depacketizer_meaning self.new
            ≡ any_depacketizer_meaning self.old) }
    {
        self.depacketize_into(packet, out, codec_extra)
    }

    /// Whether `packet` may be the first of an access unit, as the depacketizer that it holds says.
    fn is_partition_head(&self, packet: &[u8]) -> bool
        ensures h264 { (it : H264View) → self.now ≡ a.H264 it →
            result ≡ may_begin_h264 packet.now }
        ensures h265 { (it : H265View) → self.now ≡ a.H265 it →
            result ≡ may_begin_h265 packet.now }
        ensures h266 { (it : H266View) → self.now ≡ a.H266 it →
            result ≡ may_begin_h266 packet.now }
    {
        with_held!(self, |it| it.is_partition_head(packet))
    }

    /// Whether `packet` is the last of an access unit, as the depacketizer that it holds says.
    fn is_partition_tail(&self, marker: bool, packet: &[u8]) -> bool
        ensures h264 { (it : H264View) → self.now ≡ a.H264 it → result ≡ marker }
        ensures h265 { (it : H265View) → self.now ≡ a.H265 it →
            result ≡ is_last_h265 marker packet.now }
        ensures h266 { (it : H266View) → self.now ≡ a.H266 it →
            result ≡ is_last_h266 marker packet.now }
    {
        with_held!(self, |it| it.is_partition_tail(marker, packet))
    }
}

impl RunDepacketizer for AnyDepacketizer {
    ghost state = { any_depacketizer_state };

    ghost with_run = { any_depacketizer_with_run };

    ghost having_taken = { any_depacketizer_showing };

    ghost other_run = { λ run. elim [
      | a.H264 it ↦ refl
      | a.H265 it ↦ refl
      | a.H266 it ↦ refl
    ] };

    ghost own_run = { λ run. elim [
      | a.H264 it ↦ refl
      | a.H265 it ↦ refl
      | a.H266 it ↦ refl
    ] };

    ghost last_run = { λ run other. elim [
      | a.H264 it ↦ refl
      | a.H265 it ↦ refl
      | a.H266 it ↦ refl
    ] };

    ghost taken_beside = { λ packet run. elim [
      | a.H264 it ↦ refl
      | a.H265 it ↦ refl
      | a.H266 it ↦ refl
    ] };

    fn meets_the_facts(&self) {
        match self {
            AnyDepacketizer::H264(it) => it.meets_the_facts(),
            AnyDepacketizer::H265(it) => it.meets_the_facts(),
            AnyDepacketizer::H266(it) => it.meets_the_facts(),
        }
    }

    fn is_avc(&self) -> bool {
        with_held!(self, |depacketizer| depacketizer.is_avc)
    }

    fn run_len(&self) -> usize {
        with_held!(self, |it| it.run_len())
    }

    fn swap_run(&mut self, run: &mut OpenRun) {
        with_held!(self, |it| it.swap_run(run))
    }

    fn give_up_run(&mut self) {
        with_held!(self, |it| it.give_up_run())
    }

    #[inline]
    fn take<W: UnitSink>(
        &mut self,
        packet: &[u8],
        out: &mut W,
        codec_extra: &mut CodecExtra,
    ) -> Result<(), PacketError> {
        self.depacketize_into(packet, out, codec_extra)
    }

    #[inline]
    fn take_in_text(
        &mut self,
        rule: RunRule,
        packet: &[u8],
        text: &mut OpenText,
        codec_extra: &mut CodecExtra,
    ) -> Result<(), PacketError> {
        with_held!(
            self,
            |it| it.depacketize_in_text(rule, packet, text, codec_extra)
        )
    }

    fn starts_run(&self, packet: &[u8]) -> bool {
        with_held!(self, |it| it.starts_run(packet))
    }

    fn extra(&self, key: bool) -> CodecExtra {
        with_held!(self, |it| it.extra(key))
    }

    fn bears_unit<T: UnitTest>(&self, packet: &[u8], test: &T) -> bool {
        with_held!(self, |it| it.bears_unit(packet, test))
    }

    fn first_unit_begun(&self, packet: &[u8]) -> Option<[u8; 3]> {
        with_held!(self, |it| it.first_unit_begun(packet))
    }
}
