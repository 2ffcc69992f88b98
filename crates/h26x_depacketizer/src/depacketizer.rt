//! NAL units from packets, for every codec.

ghost use Rattle.std.specs.Prelude.{◌≡◌, ◌≤◌, true, false, [], ◌∷◌, Some, None, Err, IfOk, IfSome, OnOk, OnErr, IsOk};
ghost use Rattle.h26x_core.specs.Front.{IsFrontOf};
ghost use Rattle.h26x_core.specs.Hint.{size_hint};
ghost use Rattle.h26x_model.specs.Payload.Reading.{is_start};
ghost use Rattle.h26x_model.specs.Receive.Outcome.{is_startless};
ghost use Rattle.h26x_model.specs.Receive.DepacketizerState.{after_packets, IsPacketOutcome, AreWritten};
ghost use Rattle.h26x_model.specs.Receive.RunLimit.{run_len};
ghost use Rattle.h26x_model.specs.Where.{Where};
ghost use Rattle.h26x_depacketizer.specs.DepacketizerView.{brought_to, depacketization_of, in_form};
ghost use Rattle.h26x_depacketizer.specs.Run.{run_memory};
ghost use Rattle.h26x_depacketizer.specs.OpenText.{IsSameText, view_in_text, view_met_in_text};
ghost use Rattle.h26x_depacketizer.specs.UnitSink.{grown_to, TellsRoom, WantsRoom};

use crate::extra::out_size_hint;
use crate::in_text::{RunRule, take_in_text};
use crate::open_text::OpenText;
use crate::reader::{PacketReader, starts_run};
use crate::run::OpenRun;
use crate::shows::{Nothing, Shows};
use crate::sink::UnitSink;
use crate::take::take_packet;
use h26x_core::{CodecExtra, Depacketizer, PacketError};
use h26x_payload::DonlFormat;
use std::alloc::Global;
use std::marker::Model;
use std::mem;

/// Writes the units of packets (RFC 6184, 5 and 7; RFC 7798, 4.4 and 6; RFC 9328, 4.3 and 6), each
/// behind a start code, or behind its length where `is_avc` is set, and shows the packet that it
/// accepted last, or nothing.
///
/// It keeps the data of the fragments since the latest start, until an end completes their unit.
#[derive(Debug, Drop)]
pub struct PayloadDepacketizer<C: PacketReader, S: Shows<C> = Nothing> {
    codec: C,
    /// Whether units are written behind lengths of four bytes, as MP4 files have them (ISO/IEC
    /// 14496-15: `avc1`, `hvc1`, `vvc1`), and not behind start codes. False at first.
    pub is_avc: bool,
    run: OpenRun,
    payload: S,
    /// What the next packet is shown by goes here first, and changes places with what is shown when
    /// nothing can fail any more.
    spare: S::Spare,
}

impl<C: PacketReader, S: Shows<C>> Model for PayloadDepacketizer<C, S> {
    ghost use Rattle.h26x_depacketizer.specs.DepacketizerView.{DepacketizerView};

    ghost Value = { DepacketizerView C S };

    ghost view = { λ a. record {
      codec = a.codec;
      is_avc = a.is_avc;
      run = a.run;
      payload = a.payload;
    } };
}

impl<C: PacketReader, S: Shows<C>> PayloadDepacketizer<C, S> {
    /// A depacketizer with the setting of a new one, which writes start codes, has no run open and
    /// shows no packet yet.
    pub fn new(alloc: Global) -> Self
        ensures codec { result.codec ≡ C.fresh }
        ensures avc { result.is_avc ≡ false }
        ensures run { result.run ≡ None }
        ensures payload { result.payload ≡ S.fresh }
    {
        PayloadDepacketizer::with_codec(alloc, C::new())
    }

    /// A depacketizer of this setting, which writes start codes, has no run open and shows no packet
    /// yet.
    pub fn with_codec(alloc: Global, codec: C) -> Self
        ensures codec { result.codec ≡ codec }
        ensures avc { result.is_avc ≡ false }
        ensures run { result.run ≡ None }
        ensures payload { result.payload ≡ S.fresh }
    {
        PayloadDepacketizer {
            codec,
            is_avc: false,
            run: OpenRun::none(alloc),
            payload: S::new(alloc),
            spare: S::new_spare(alloc),
        }
    }

    /// How many bytes the open run holds; none where none is open.
    pub fn run_len(&self) -> usize
        ensures { result ≡ run_len self.now.run }
    {
        self.run.len()
    }

    /// How many bytes of memory it keeps for runs: twice the open run at most, or 2^20 bytes. What
    /// `payload` shows, and will show, is not counted.
    pub fn run_memory(&self) -> usize
        ensures holds { run_len self.now.run ≤ result }
        ensures most { result ≤ run_memory (run_len self.now.run) }
    {
        self.run.memory()
    }

    /// Exchanges the open run, or none, for another one. It takes no memory.
    pub fn swap_run(&mut self, run: &mut OpenRun)
        ensures taken { self.new ≡ record self.old { run = run.old } }
        ensures given { run.new ≡ self.old.run }
    {
        mem::swap(&mut self.run, run);
    }

    /// Gives up the open run, if there is one, and gives its buffer back, and the memory that is kept
    /// for what `payload` will show. It takes no memory.
    ///
    /// A run grows by every fragment until one ends it: a caller that will not hold so much asks
    /// `run_len` and calls this. Fragments that follow without a start are accepted and complete
    /// nothing. A run that ends leaves its buffer for later ones, if that has 2^20 bytes at most.
    pub fn give_up_run(&mut self)
        ensures { self.new ≡ record self.old { run = None } }
    {
        self.run.give_up();
        self.spare = S::new_spare(self.run.allocator());
    }

    /// The packet that was accepted last, as it is shown; before any, what a new one shows.
    pub fn payload(&self) -> &S
        ensures { result.now ≡ self.now.payload }
    {
        &self.payload
    }

    /// The same depacketizer again, with its setting, its open run and what it shows. `OutOfMemory` is
    /// its only error; with no run open, and nothing shown, it takes no memory.
    pub fn clone(&self) -> Result<Self, PacketError>
        ensures same { IfOk result (λ it. it ≡ self.now) }
        ensures memory { OnErr result (result ≡ Err PacketError.OutOfMemory) }
        ensures free { S.is_free ≡ true → self.now.run ≡ None → IsOk result }
    {
        let alloc = self.run.allocator();
        Ok(PayloadDepacketizer {
            codec: self.codec,
            is_avc: self.is_avc,
            run: self.run.clone()?,
            payload: self.payload.clone(alloc)?,
            spare: S::new_spare(alloc),
        })
    }
}

impl<C: PacketReader, S: Shows<C>> PayloadDepacketizer<C, S> {
    /// Takes a packet as `depacketize` does, and writes the units that it completes to a list of
    /// bytes or to memory of a caller. Where that has no room for them the error is `OutOfMemory`;
    /// a refusal leaves everything, the memory too.
    #[inline]
    pub fn depacketize_into<W: UnitSink>(
        &mut self,
        packet: &[u8],
        out: &mut W,
        codec_extra: &mut CodecExtra,
    ) -> Result<(), PacketError>
        ensures outcome { IsPacketOutcome (depacketization_of C.format self.old
            (W.sink out.old).bytes codec_extra.old) packet.now result }
        ensures taken { OnOk result
            (depacketization_of C.format self.new (W.sink out.new).bytes codec_extra.new
            ≡ after_packets (depacketization_of C.format self.old (W.sink out.old).bytes
            codec_extra.old) (packet.now ∷ [])) }
        ensures behind { OnOk result (W.sink out.new
            ≡ grown_to (W.sink out.new).bytes (W.sink out.old)) }
        ensures accepted { OnOk result (IsFrontOf (W.sink out.old).bytes (W.sink out.new).bytes) }
        ensures setting { self.new ≡ record self.old {
          run = self.new.run;
          payload = self.new.payload;
        } }
        ensures shows { OnOk result (self.new.payload ≡ S.shown self.old.codec packet.now) }

        // The units of an aggregate are those that are shown.
        ensures aggregate { OnOk result (IfSome (S.units self.new.payload) (λ units.
            AreWritten (depacketization_of C.format self.old (W.sink out.old).bytes
            codec_extra.old) units (W.sink out.new).bytes codec_extra.new)) }

        ensures startless { S.is_free ≡ true → is_startless self.old.run
            ((C.format self.old.codec).read packet.now) ≡ true → IsOk result }
        ensures kept { OnErr result (self.new ≡ self.old) }
        ensures kept_sink { OnErr result (W.sink out.new ≡ W.sink out.old) }
        ensures kept_extra { OnErr result (codec_extra.new ≡ codec_extra.old) }

        // A sink that tells that room lacks tells it only where it does; and where a packet that is
        // not shown brings bytes, want of memory is want of room.
        ensures told_room { TellsRoom W.room W.lacks out.old out.new result
            (brought_to C.format self.old packet.now) }
        ensures lacks { S.is_free ≡ true → WantsRoom result
            (brought_to C.format self.old packet.now) (W.lacks out.new) }
    {
        let (codec, is_avc) = (self.codec, self.is_avc);
        let parts = S::read(codec, packet)?;
        let run_len = self.run.open_len();
        S::prepare(codec, is_avc, packet, parts, run_len, &mut self.spare)?;
        let run = &mut self.run;
        take_packet(codec, is_avc, packet, parts, run, out, codec_extra)?;
        self.payload.show(codec, packet, parts, &mut self.spare);
        Ok(())
    }

    /// Takes a packet as `depacketize_into` does, and writes units in this form, whatever is set:
    /// behind lengths or behind start codes. Code that names the form has no branch on it.
    #[inline(always)]
    pub fn depacketize_as<W: UnitSink>(
        &mut self,
        is_avc: bool,
        packet: &[u8],
        out: &mut W,
        codec_extra: &mut CodecExtra,
    ) -> Result<(), PacketError>
        ensures outcome { IsPacketOutcome (depacketization_of C.format (in_form is_avc self.old)
            (W.sink out.old).bytes codec_extra.old) packet.now result }
        ensures taken { OnOk result
            (depacketization_of C.format (in_form is_avc self.new) (W.sink out.new).bytes
            codec_extra.new
            ≡ after_packets (depacketization_of C.format (in_form is_avc self.old)
            (W.sink out.old).bytes codec_extra.old) (packet.now ∷ [])) }
        ensures behind { OnOk result (W.sink out.new
            ≡ grown_to (W.sink out.new).bytes (W.sink out.old)) }
        ensures accepted { OnOk result (IsFrontOf (W.sink out.old).bytes (W.sink out.new).bytes) }
        ensures setting { self.new ≡ record self.old {
          run = self.new.run;
          payload = self.new.payload;
        } }
        ensures shows { OnOk result (self.new.payload ≡ S.shown self.old.codec packet.now) }

        // The units of an aggregate are those that are shown.
        ensures aggregate { OnOk result (IfSome (S.units self.new.payload) (λ units.
            AreWritten (depacketization_of C.format (in_form is_avc self.old)
            (W.sink out.old).bytes codec_extra.old) units (W.sink out.new).bytes codec_extra.new)) }

        ensures startless { S.is_free ≡ true → is_startless self.old.run
            ((C.format self.old.codec).read packet.now) ≡ true → IsOk result }
        ensures kept { OnErr result (self.new ≡ self.old) }
        ensures kept_sink { OnErr result (W.sink out.new ≡ W.sink out.old) }
        ensures kept_extra { OnErr result (codec_extra.new ≡ codec_extra.old) }

        // As of `depacketize_into`.
        ensures told_room { TellsRoom W.room W.lacks out.old out.new result
            (brought_to C.format (in_form is_avc self.old) packet.now) }
        ensures lacks { S.is_free ≡ true → WantsRoom result
            (brought_to C.format (in_form is_avc self.old) packet.now) (W.lacks out.new) }
    {
        let codec = self.codec;
        let parts = S::read(codec, packet)?;
        let open_len = self.run.open_len();
        S::prepare(codec, is_avc, packet, parts, open_len, &mut self.spare)?;
        let run = &mut self.run;
        take_packet(codec, is_avc, packet, parts, run, out, codec_extra)?;
        self.payload.show(codec, packet, parts, &mut self.spare);
        Ok(())
    }

    /// Takes a packet as `depacketize_into` does, where the run that is open stands in the text that
    /// is written to, and not here: the data of its fragments are copied once. By the rule the packet
    /// goes on with that run, or has it given up. A refusal leaves everything.
    #[inline]
    pub fn depacketize_in_text(
        &mut self,
        rule: RunRule,
        packet: &[u8],
        text: &mut OpenText,
        codec_extra: &mut CodecExtra,
    ) -> Result<(), PacketError>
        ensures outcome { IsPacketOutcome (view_met_in_text rule.is_next C.format self.old
            text.old codec_extra.old) packet.now result }
        ensures taken { OnOk result (view_in_text C.format self.new text.new codec_extra.new
            ≡ after_packets (view_met_in_text rule.is_next C.format self.old text.old
            codec_extra.old) (packet.now ∷ [])) }
        ensures setting { self.new ≡ record self.old { payload = self.new.payload } }
        ensures shows { OnOk result (self.new.payload ≡ S.shown self.old.codec packet.now) }
        ensures aside { rule.may_be_inside ≡ false → OnOk result (text.new.inside ≡ None) }
        ensures kept { OnErr result (self.new ≡ self.old) }
        ensures kept_text { OnErr result (IsSameText text.new text.old) }
        ensures kept_extra { OnErr result (codec_extra.new ≡ codec_extra.old) }
    {
        let (codec, is_avc, spare) = (self.codec, self.is_avc, &mut self.spare);
        let run_len = text.met_run_len(rule.is_next);
        let parts = S::read(codec, packet)?;
        S::prepare(codec, is_avc, packet, parts, run_len, spare)?;
        take_in_text(codec, is_avc, rule, packet, parts, text, codec_extra)?;
        self.payload.show(codec, packet, parts, &mut self.spare);
        Ok(())
    }

    /// Its codec's setting.
    #[inline]
    pub fn codec(&self) -> C
        ensures { result ≡ self.now.codec }
    {
        self.codec
    }

    /// Whether a packet is a fragment that starts, which gives up a run that is open.
    pub fn starts_run(&self, packet: &[u8]) -> bool
        ensures { result ≡ is_start ((C.format self.now.codec).read packet.now) }
    {
        starts_run(self.codec, packet)
    }
}

impl<C: PacketReader + DonlFormat, S: Shows<C>> PayloadDepacketizer<C, S> {
    /// Sets whether packets bear decoding order numbers (RFC 7798, 4.4; RFC 9328, 4.3). An open run
    /// stays open, and what `payload` shows stays.
    pub fn with_donl(&mut self, value: bool)
        ensures { self.new ≡ record self.old {
          codec = C.with_donl_of self.old.codec value;
        } }
    {
        self.codec = self.codec.with_donl(value);
    }
}

impl<C: PacketReader + Eq, S: Shows<C>> PartialEq for PayloadDepacketizer<C, S> {
    ghost use Rattle.std.specs.Prelude.{nat_eq};
    ghost use Rattle.std.specs.Bool.{beq};
    ghost use Rattle.std.specs.Ordering.{eq_of_both, on};
    ghost use Rattle.std.specs.Option.{option_eq};
    ghost use Rattle.std.specs.Cmp.{partial_equiv_from_equiv};
    ghost use Rattle.std.specs.Cmp.Rules.{comparing};
    ghost use Rattle.std.specs.Cmp.Lexicographic.{pointwise};
    ghost use Rattle.std.proofs.Common.{rules};

    ghost eq = { eq_of_both (on (λ it. it.codec) C.eq) (eq_of_both (on (λ it. it.is_avc) beq)
        (eq_of_both (on (λ it. it.run) (option_eq (pointwise nat_eq)))
        (on (λ it. it.payload) S.eq))) };

    ghost laws = { partial_equiv_from_equiv (Prim.search (comparing, rules) depth 9) };

    fn eq(&self, other: &Self) -> bool {
        self.codec == other.codec
            && self.is_avc == other.is_avc
            && self.run == other.run
            && self.payload == other.payload
    }
}

impl<C: PacketReader + Eq, S: Shows<C>> Eq for PayloadDepacketizer<C, S> {
    ghost use Rattle.std.specs.Cmp.Rules.{comparing};
    ghost use Rattle.std.proofs.Common.{rules};

    ghost laws = { Prim.search (comparing, rules) depth 9 };
}

impl<C: PacketReader, S: Shows<C>> Depacketizer for PayloadDepacketizer<C, S> {
    ghost use Rattle.h26x_model.specs.Receive.DepacketizerState.{depacketizer_meaning};
    ghost use Rattle.h26x_depacketizer.specs.DepacketizerView.{depacketizer_state};

    // The setting, and the data of the open run if there is one.
    ghost meaning = { λ it. depacketizer_meaning (depacketizer_state (C.format it.codec) it) };

    /// The bytes of the packets, four more, and four for each whole 1200 of them; at most
    /// `usize::MAX`.
    fn out_size_hint(&self, packets_size: usize) -> Option<usize>
        ensures { result ≡ Some (size_hint packets_size) }
    {
        out_size_hint(packets_size)
    }

    /// Appends the units that `packet` completes to `out`, each behind `00 00 00 01`, or where
    /// `is_avc` is set behind its length in four bytes, and without decoding order numbers.
    /// `codec_extra` then tells whether one of them, or one told of before, is of a keyframe; what
    /// another codec told is replaced. A packet that completes none leaves it. `payload` shows the
    /// packet from then on, where packets are shown.
    ///
    /// A start of fragments gives up a unit that was open, and a fragment without a start before it
    /// is accepted and completes nothing; where no packet is shown it takes no memory. That fragments
    /// between were lost is not noticed here: their unit is written without their data.
    /// `h26x_receiver` notices it, by the sequence numbers of packets.
    ///
    /// The codec says which packets are refused; behind lengths a unit over `u32::MAX` bytes is too
    /// (`AvcUnitTooLong`); else memory may lack. A refusal leaves `out`, `codec_extra`, the open unit
    /// and `payload`.
    fn depacketize(
        &mut self,
        packet: &[u8],
        out: &mut Vec<u8>,
        codec_extra: &mut CodecExtra,
    ) -> Result<(), PacketError>
        ensures outcome { IsPacketOutcome (depacketization_of C.format self.old out.old.items
            codec_extra.old) packet.now result }
        ensures taken { OnOk result
            (depacketization_of C.format self.new out.new.items codec_extra.new
            ≡ after_packets (depacketization_of C.format self.old out.old.items codec_extra.old)
            (packet.now ∷ [])) }
        ensures setting { self.new ≡ record self.old {
          run = self.new.run;
          payload = self.new.payload;
        } }
        ensures shows { OnOk result (self.new.payload ≡ S.shown self.old.codec packet.now) }
        ensures kept { OnErr result
            (depacketization_of C.format self.new out.new.items codec_extra.new
            ≡ depacketization_of C.format self.old out.old.items codec_extra.old) }

        // The units of an aggregate are those that are shown.
        ensures aggregate { OnOk result (IfSome (S.units self.new.payload) (λ units.
            AreWritten (depacketization_of C.format self.old out.old.items codec_extra.old)
            units out.new.items codec_extra.new)) }

        ensures startless { S.is_free ≡ true → is_startless self.old.run
            ((C.format self.old.codec).read packet.now) ≡ true → IsOk result }

        ensures accepted { OnOk result (IsFrontOf out.old.items out.new.items) }
        ensures kept_out { OnErr result (out.new.items ≡ out.old.items) }
        ensures kept_extra { OnErr result (codec_extra.new ≡ codec_extra.old) }
        ensures kept_self { OnErr result (self.new ≡ self.old) }
    {
        self.depacketize_into(packet, out, codec_extra)
    }

    /// Whether `packet` may be the first of an access unit, as its codec says.
    fn is_partition_head(&self, packet: &[u8]) -> bool
        ensures { result ≡ C.begins self.now.codec packet.now }
    {
        self.codec.may_begin(packet)
    }

    /// Whether `packet` is the last of an access unit, as its codec says.
    fn is_partition_tail(&self, marker: bool, packet: &[u8]) -> bool
        ensures { result ≡ C.ends self.now.codec marker packet.now }
    {
        self.codec.is_last(marker, packet)
    }
}
