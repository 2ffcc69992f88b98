//! A depacketizer of one of the codecs, chosen when it is made, which shows no packet.

ghost use Rattle.std.specs.Prelude.{◌≡◌, ◌≤◌, ◌↔◌, [], ◌∷◌, false, Some, None, Err, IfOk, IsOk, IsTrue, OnErr, OnOk, true, refl};
ghost use Rattle.h26x_core.specs.Front.{IsFrontOf};
ghost use Rattle.h26x_core.specs.Hint.{size_hint};
ghost use Rattle.h26x_model.specs.Receive.Outcome.{is_startless};
ghost use Rattle.h26x_model.specs.Receive.DepacketizerState.{after_packets, depacketizer_meaning, IsPacketOutcome};
ghost use Rattle.h26x_model.specs.Receive.RunLimit.{run_len};
ghost use Rattle.h26x_depacketizer.specs.Run.{run_memory};
ghost use Rattle.h26x_depacketizer.specs.OpenText.{IsSameText};
ghost use Rattle.h26x_depacketizer.specs.UnitSink.{bytes_brought, grown_to, TellsRoom};
ghost use Rattle.h26x_codec.specs.Codec.{codec_format};
ghost use Rattle.h26x_codec.specs.AnyPayloadDepacketizer.{any_payload_state, any_payload_depacketization, codec_begins, codec_ends, any_payload_met, any_payload_in_text};

use crate::codec::Codec;
use crate::formats;
use h26x_core::{CodecExtra, Depacketizer, PacketError};
use h26x_depacketizer::{
    OpenRun, OpenText, PacketReader, RunDepacketizer, RunRule, UnitSink, UnitTest, bears_unit,
    first_unit_begun, out_size_hint, starts_run, take_in_text, take_packet,
};
use h26x_payload::{DonlFormat, PayloadFormat};
use h264_payload::H264;
use h265_payload::H265;
use h266_payload::H266;
use std::alloc::Global;
use std::marker::Model;
use std::mem;

/// A depacketizer of one of the codecs, chosen when it is made: what a `PayloadDepacketizer` of it
/// does. It shows no packet, and so copies none for that; where H.265 is to show its packets there is
/// [`AnyDepacketizer`](crate::AnyDepacketizer).
///
/// ```rust
/// let depacketizer = AnyPayloadDepacketizer::new(alloc, Codec::H265);
/// let mut receiver = SequencedDepacketizer::new(alloc, depacketizer, 4_000_000);
/// ```
#[derive(Debug, Drop)]
pub struct AnyPayloadDepacketizer {
    codec: Codec,
    has_donl: bool,
    /// Whether units are written behind lengths of four bytes, as MP4 files have them (ISO/IEC
    /// 14496-15: `avc1`, `hvc1`, `vvc1`), and not behind start codes. False at first.
    pub is_avc: bool,
    run: OpenRun,
}

impl Model for AnyPayloadDepacketizer {
    ghost use Rattle.h26x_codec.specs.AnyPayloadDepacketizer.{AnyPayloadView};

    ghost Value = { AnyPayloadView };

    ghost view = { λ a. record {
      codec = a.codec;
      has_donl = a.has_donl;
      is_avc = a.is_avc;
      run = a.run;
    } };
}

impl AnyPayloadDepacketizer {
    /// A depacketizer of a codec that reads packets without decoding order numbers, writes start
    /// codes and has no run open.
    pub fn new(alloc: Global, codec: Codec) -> Self
        ensures codec { result.codec ≡ codec }
        ensures dons { result.has_donl ≡ false }
        ensures avc { result.is_avc ≡ false }
        ensures run { result.run ≡ None }
    {
        AnyPayloadDepacketizer {
            codec,
            has_donl: false,
            is_avc: false,
            run: OpenRun::none(alloc),
        }
    }

    /// Its codec.
    pub fn codec(&self) -> Codec
        ensures { result ≡ self.now.codec }
    {
        self.codec
    }

    /// How many bytes of memory it keeps for runs: twice the open run at most, or 2^20 bytes. It keeps
    /// no other memory.
    pub fn run_memory(&self) -> usize
        ensures holds { run_len self.now.run ≤ result }
        ensures most { result ≤ run_memory (run_len self.now.run) }
    {
        self.run.memory()
    }

    /// The same depacketizer again, with its open run. With none it takes no memory.
    pub fn clone(&self) -> Result<Self, PacketError>
        ensures same { IfOk result (λ it. it ≡ self.now) }
        ensures memory { OnErr result (result ≡ Err PacketError.OutOfMemory) }
        ensures free { self.now.run ≡ None → IsOk result }
    {
        Ok(AnyPayloadDepacketizer {
            codec: self.codec,
            has_donl: self.has_donl,
            is_avc: self.is_avc,
            run: self.run.clone()?,
        })
    }

    /// Whether both are of one codec, and the same.
    pub fn is_same(&self, other: &AnyPayloadDepacketizer) -> bool
        ensures { IsTrue result ↔ (self.now ≡ other.now) }
    {
        self.is_avc == other.is_avc
            && self.has_donl == other.has_donl
            && self.codec == other.codec
            && self.run == other.run
    }

    /// Sets whether packets bear decoding order numbers; those of H.264 bear none.
    pub fn with_donl(&mut self, has_donl: bool)
        ensures { self.new ≡ record self.old {
          has_donl = (codec_format self.old.codec has_donl).has_donl;
        } }
    {
        self.has_donl = match self.codec {
            Codec::H264 => false,
            Codec::H265 | Codec::H266 => has_donl,
        };
    }

    /// Takes a packet that this codec's reader reads.
    fn take_as<C: PacketReader, W: UnitSink>(
        &mut self,
        codec: C,
        packet: &[u8],
        out: &mut W,
        codec_extra: &mut CodecExtra,
    ) -> Result<(), PacketError>
        requires { C.format codec ≡ codec_format self.old.codec self.old.has_donl }
        ensures outcome { IsPacketOutcome (any_payload_depacketization self.old
            (W.sink out.old).bytes codec_extra.old) packet.now result }
        ensures taken { OnOk result (any_payload_depacketization self.new (W.sink out.new).bytes
            codec_extra.new ≡ after_packets (any_payload_depacketization self.old
            (W.sink out.old).bytes codec_extra.old) (packet.now ∷ [])) }
        ensures behind { OnOk result (W.sink out.new
            ≡ grown_to (W.sink out.new).bytes (W.sink out.old)) }
        ensures setting { self.new ≡ record self.old { run = self.new.run } }
        ensures startless { is_startless self.old.run
            ((codec_format self.old.codec self.old.has_donl).read packet.now) ≡ true → IsOk result }
        ensures kept { OnErr result (self.new ≡ self.old) }
        ensures kept_sink { OnErr result (W.sink out.new ≡ W.sink out.old) }
        ensures kept_extra { OnErr result (codec_extra.new ≡ codec_extra.old) }
        ensures told_room { TellsRoom W.room W.lacks out.old out.new result
            (bytes_brought (any_payload_state self.old) packet.now) }
    {
        let parts = codec.read(packet)?;
        let is_avc = self.is_avc;
        let run = &mut self.run;
        take_packet(codec, is_avc, packet, parts, run, out, codec_extra)
    }

    /// Takes a packet as `depacketize` does, and writes the units that it completes to a list of
    /// bytes or to memory of a caller. Where that has no room for them the error is `OutOfMemory`;
    /// a refusal leaves everything, the memory too. A fragment without a start before it is accepted
    /// and completes nothing, and it takes no memory.
    pub fn depacketize_into<W: UnitSink>(
        &mut self,
        packet: &[u8],
        out: &mut W,
        codec_extra: &mut CodecExtra,
    ) -> Result<(), PacketError>
        ensures outcome { IsPacketOutcome (any_payload_depacketization self.old
            (W.sink out.old).bytes codec_extra.old) packet.now result }
        ensures taken { OnOk result (any_payload_depacketization self.new (W.sink out.new).bytes
            codec_extra.new ≡ after_packets (any_payload_depacketization self.old
            (W.sink out.old).bytes codec_extra.old) (packet.now ∷ [])) }
        ensures behind { OnOk result (W.sink out.new
            ≡ grown_to (W.sink out.new).bytes (W.sink out.old)) }
        ensures accepted { OnOk result (IsFrontOf (W.sink out.old).bytes (W.sink out.new).bytes) }
        ensures setting { self.new ≡ record self.old { run = self.new.run } }
        ensures startless { is_startless self.old.run
            ((codec_format self.old.codec self.old.has_donl).read packet.now) ≡ true → IsOk result }
        ensures kept { OnErr result (self.new ≡ self.old) }
        ensures kept_sink { OnErr result (W.sink out.new ≡ W.sink out.old) }
        ensures kept_extra { OnErr result (codec_extra.new ≡ codec_extra.old) }
        ensures told_room { TellsRoom W.room W.lacks out.old out.new result
            (bytes_brought (any_payload_state self.old) packet.now) }
    {
        let dons = self.has_donl;
        match self.codec {
            Codec::H264 => self.take_as(H264::new(), packet, out, codec_extra),
            Codec::H265 => self.take_as(H265::new().with_donl(dons), packet, out, codec_extra),
            Codec::H266 => self.take_as(H266::new().with_donl(dons), packet, out, codec_extra),
        }
    }

    /// Takes a packet that this codec's reader reads, where the run that is open stands in the text.
    #[inline(always)]
    fn take_as_in_text<C: PacketReader>(
        &self,
        codec: C,
        rule: RunRule,
        packet: &[u8],
        text: &mut OpenText,
        codec_extra: &mut CodecExtra,
    ) -> Result<(), PacketError>
        requires { C.format codec ≡ codec_format self.now.codec self.now.has_donl }
        ensures outcome { IsPacketOutcome (any_payload_met rule.is_next self.now text.old
            codec_extra.old) packet.now result }
        ensures taken { OnOk result (any_payload_in_text self.now text.new codec_extra.new
            ≡ after_packets (any_payload_met rule.is_next self.now text.old codec_extra.old)
            (packet.now ∷ [])) }
        ensures aside { rule.may_be_inside ≡ false → OnOk result (text.new.inside ≡ None) }
        ensures kept { OnErr result (IsSameText text.new text.old) }
        ensures kept_extra { OnErr result (codec_extra.new ≡ codec_extra.old) }
    {
        let parts = codec.read(packet)?;
        take_in_text(codec, self.is_avc, rule, packet, parts, text, codec_extra)
    }
}

impl Depacketizer for AnyPayloadDepacketizer {
    // The setting, and the data of the open run if there is one.
    ghost meaning = { λ it. depacketizer_meaning (any_payload_state it) };

    /// The bytes of the packets, four more, and four for each whole 1200 of them; at most
    /// `usize::MAX`.
    fn out_size_hint(&self, packets_size: usize) -> Option<usize>
        ensures { result ≡ Some (size_hint packets_size) }
    {
        out_size_hint(packets_size)
    }

    /// Takes a packet, as a `PayloadDepacketizer` of its codec does. A refusal leaves everything; the
    /// errors are those of the codec's depacketizer.
    fn depacketize(
        &mut self,
        packet: &[u8],
        out: &mut Vec<u8>,
        codec_extra: &mut CodecExtra,
    ) -> Result<(), PacketError>
        ensures outcome { IsPacketOutcome (any_payload_depacketization self.old out.old.items
            codec_extra.old) packet.now result }
        ensures taken { OnOk result (any_payload_depacketization self.new out.new.items
            codec_extra.new ≡ after_packets (any_payload_depacketization self.old out.old.items
            codec_extra.old) (packet.now ∷ [])) }
        ensures setting { self.new ≡ record self.old { run = self.new.run } }
        ensures startless { is_startless self.old.run
            ((codec_format self.old.codec self.old.has_donl).read packet.now) ≡ true → IsOk result }
        ensures kept { OnErr result (self.new ≡ self.old) }
        ensures accepted { OnOk result (IsFrontOf out.old.items out.new.items) }
        ensures kept_out { OnErr result (out.new.items ≡ out.old.items) }
        ensures kept_extra { OnErr result (codec_extra.new ≡ codec_extra.old) }
    {
        self.depacketize_into(packet, out, codec_extra)
    }

    /// Whether `packet` may be the first of an access unit, as its codec says.
    fn is_partition_head(&self, packet: &[u8]) -> bool
        ensures { result ≡ codec_begins self.now.codec packet.now }
    {
        match self.codec {
            Codec::H264 => H264::new().may_begin(packet),
            Codec::H265 => H265::new().may_begin(packet),
            Codec::H266 => H266::new().may_begin(packet),
        }
    }

    /// Whether `packet` is the last of an access unit, as its codec says.
    fn is_partition_tail(&self, marker: bool, packet: &[u8]) -> bool
        ensures { result ≡ codec_ends self.now.codec marker packet.now }
    {
        match self.codec {
            Codec::H264 => H264::new().is_last(marker, packet),
            Codec::H265 => H265::new().is_last(marker, packet),
            Codec::H266 => H266::new().is_last(marker, packet),
        }
    }
}

impl RunDepacketizer for AnyPayloadDepacketizer {
    ghost state = { any_payload_state };

    ghost with_run = { λ run it. record it { run = run } };

    ghost having_taken = { λ packet it. it };

    ghost other_run = { λ run it. refl };

    ghost own_run = { λ run it. refl };

    ghost last_run = { λ run other it. refl };

    ghost taken_beside = { λ packet run it. refl };

    fn meets_the_facts(&self) {
        formats::formats_meet_the_facts();
    }

    fn is_avc(&self) -> bool {
        self.is_avc
    }

    fn run_len(&self) -> usize {
        self.run.len()
    }

    fn swap_run(&mut self, run: &mut OpenRun) {
        mem::swap(&mut self.run, run);
    }

    fn give_up_run(&mut self) {
        self.run.give_up();
    }

    fn take<W: UnitSink>(
        &mut self,
        packet: &[u8],
        out: &mut W,
        codec_extra: &mut CodecExtra,
    ) -> Result<(), PacketError> {
        self.depacketize_into(packet, out, codec_extra)
    }

    #[inline(always)]
    fn take_in_text(
        &mut self,
        rule: RunRule,
        packet: &[u8],
        text: &mut OpenText,
        codec_extra: &mut CodecExtra,
    ) -> Result<(), PacketError> {
        let dons = self.has_donl;
        match self.codec {
            Codec::H264 => self.take_as_in_text(H264::new(), rule, packet, text, codec_extra),
            Codec::H265 => {
                let codec = H265::new().with_donl(dons);
                self.take_as_in_text(codec, rule, packet, text, codec_extra)
            }
            Codec::H266 => {
                let codec = H266::new().with_donl(dons);
                self.take_as_in_text(codec, rule, packet, text, codec_extra)
            }
        }
    }

    fn starts_run(&self, packet: &[u8]) -> bool {
        let dons = self.has_donl;
        match self.codec {
            Codec::H264 => starts_run(H264::new(), packet),
            Codec::H265 => starts_run(H265::new().with_donl(dons), packet),
            Codec::H266 => starts_run(H266::new().with_donl(dons), packet),
        }
    }

    fn extra(&self, key: bool) -> CodecExtra {
        match self.codec {
            Codec::H264 => H264::new().extra(key),
            Codec::H265 => H265::new().extra(key),
            Codec::H266 => H266::new().extra(key),
        }
    }

    fn bears_unit<T: UnitTest>(&self, packet: &[u8], test: &T) -> bool {
        let dons = self.has_donl;
        match self.codec {
            Codec::H264 => bears_unit(H264::new(), packet, test),
            Codec::H265 => bears_unit(H265::new().with_donl(dons), packet, test),
            Codec::H266 => bears_unit(H266::new().with_donl(dons), packet, test),
        }
    }

    fn first_unit_begun(&self, packet: &[u8]) -> Option<[u8; 3]> {
        let dons = self.has_donl;
        match self.codec {
            Codec::H264 => first_unit_begun(H264::new(), packet),
            Codec::H265 => first_unit_begun(H265::new().with_donl(dons), packet),
            Codec::H266 => first_unit_begun(H266::new().with_donl(dons), packet),
        }
    }
}
