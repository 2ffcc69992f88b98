//! What a receiver of packets with their sequence numbers asks of a depacketizer.

ghost use Rattle.std.specs.Prelude.{◌≡◌, false, [], ◌∷◌, ℕ, List, Option, None, OnOk, OnErr, refl};
ghost use Rattle.std.specs.List.{list_any};
ghost use Rattle.std.specs.Option.{option_map};
ghost use Rattle.h26x_model.specs.Payload.Facts.{IsPayloadFormat};
ghost use Rattle.h26x_model.specs.Payload.Reading.{is_start};
ghost use Rattle.h26x_model.specs.Receive.DepacketizerState.{DepacketizerState, depacketization, after_packets, IsPacketOutcome};
ghost use Rattle.h26x_model.specs.Receive.RunLimit.{run_len, state_with_run};
ghost use Rattle.h26x_depacketizer.specs.DepacketizerView.{depacketizer_state};
ghost use Rattle.h26x_depacketizer.specs.Look.{first_bytes, borne_units, begun_units, first_unit_of};
ghost use Rattle.h26x_depacketizer.specs.OpenText.{IsSameText, text_depacketization, met_depacketization};
ghost use Rattle.h26x_depacketizer.specs.UnitSink.{bytes_brought, grown_to, TellsRoom};
ghost use Rattle.h26x_depacketizer.specs.RunDepacketizer.{IsSameBesideRun};

use crate::depacketizer::PayloadDepacketizer;
use crate::in_text::RunRule;
use crate::look::{UnitTest, bears_unit, first_unit_begun};
use crate::open_text::OpenText;
use crate::reader::PacketReader;
use crate::run::OpenRun;
use crate::shows::Shows;
use crate::sink::UnitSink;
use h26x_core::{CodecExtra, Depacketizer, PacketError};
use std::alloc::Global;

/// A depacketizer whose open run may be measured, exchanged and given up: those of the codecs, and a
/// caller's own that implements this.
///
/// An implementation names its state, itself with another run, and itself once it has taken a packet.
pub trait RunDepacketizer: Depacketizer {
    ghost state: { Self → DepacketizerState };

    ghost with_run: { Option (List ℕ) → Self → Self };

    // Itself once it has taken a packet, with the run that it had before.
    ghost having_taken: { List ℕ → Self → Self };

    /// A law: its format meets the facts on which the laws of every format stand.
    fn meets_the_facts(&self)
        ensures { IsPayloadFormat (state self.now).format };

    /// Whether it writes units behind their lengths, in the place of start codes (AVC form).
    fn is_avc(&self) -> bool
        ensures { result ≡ (state self.now).is_avc };

    /// How many bytes the open run holds; none where none is open.
    fn run_len(&self) -> usize
        ensures { result ≡ run_len (state self.now).run };

    /// Exchanges the open run, or none, for another one. It takes no memory.
    fn swap_run(&mut self, run: &mut OpenRun)
        ensures taken { self.new ≡ with_run run.old self.old }
        ensures given { run.new ≡ (state self.old).run };

    /// Gives up the open run, and gives its buffer back.
    fn give_up_run(&mut self)
        ensures { self.new ≡ with_run None self.old };

    /// Takes a packet, as [`Depacketizer::depacketize`] does, and writes the units that it completes
    /// to a list of bytes or to memory of a caller.
    fn take<W: UnitSink>(
        &mut self,
        packet: &[u8],
        out: &mut W,
        codec_extra: &mut CodecExtra,
    ) -> Result<(), PacketError>
        ensures outcome { IsPacketOutcome (depacketization (state self.old) (W.sink out.old).bytes
            codec_extra.old) packet.now result }
        ensures taken { OnOk result (depacketization (state self.new) (W.sink out.new).bytes
            codec_extra.new ≡ after_packets (depacketization (state self.old)
            (W.sink out.old).bytes codec_extra.old) (packet.now ∷ [])) }
        ensures behind { OnOk result (W.sink out.new
            ≡ grown_to (W.sink out.new).bytes (W.sink out.old)) }
        ensures rest { OnOk result
            (IsSameBesideRun with_run self.new (having_taken packet.now self.old)) }
        ensures kept { OnErr result (self.new ≡ self.old) }
        ensures kept_sink { OnErr result (W.sink out.new ≡ W.sink out.old) }
        ensures kept_extra { OnErr result (codec_extra.new ≡ codec_extra.old) }

        // A sink that tells that room lacks tells it only where it does.
        ensures told_room { TellsRoom W.room W.lacks out.old out.new result
            (bytes_brought (state self.old) packet.now) };

    /// Takes a packet where the run that is open stands in the text that is written to, so that the
    /// data of its fragments are copied once. Its own run it neither uses nor changes. By the rule the
    /// packet goes on with the run of the text, or has it given up.
    fn take_in_text(
        &mut self,
        rule: RunRule,
        packet: &[u8],
        text: &mut OpenText,
        codec_extra: &mut CodecExtra,
    ) -> Result<(), PacketError>
        ensures outcome { IsPacketOutcome (met_depacketization rule.is_next (state self.old)
            text.old codec_extra.old) packet.now result }
        ensures taken { OnOk result (text_depacketization (state self.new) text.new
            codec_extra.new ≡ after_packets (met_depacketization rule.is_next (state self.old)
            text.old codec_extra.old) (packet.now ∷ [])) }
        ensures rest { OnOk result (self.new ≡ having_taken packet.now self.old) }
        ensures aside { rule.may_be_inside ≡ false → OnOk result (text.new.inside ≡ None) }
        ensures kept { OnErr result (self.new ≡ self.old) }
        ensures kept_text { OnErr result (IsSameText text.new text.old) }
        ensures kept_extra { OnErr result (codec_extra.new ≡ codec_extra.old) };

    /// Whether a packet is a fragment that starts, which gives up a run that is open.
    fn starts_run(&self, packet: &[u8]) -> bool
        ensures { result ≡ is_start ((state self.now).format.read packet.now) };

    /// What it tells of units, with one of a key type among them or not.
    fn extra(&self, key: bool) -> CodecExtra
        ensures { result ≡ (state self.now).format.extra key };

    /// Whether it is so of a unit of which a packet bears something: of a fragment that doesn't start
    /// its unit by the header alone. None is borne by a packet that is refused. It takes no memory.
    fn bears_unit<T: UnitTest>(&self, packet: &[u8], test: &T) -> bool
        ensures { result ≡ list_any (λ unit. T.holds test.now (first_bytes unit))
            (borne_units ((state self.now).format.read packet.now)) };

    /// The first three bytes of the first unit that a packet begins, if it begins one, zeros behind
    /// its end. It takes no memory.
    fn first_unit_begun(&self, packet: &[u8]) -> Option<[u8; 3]>
        ensures { result ≡ option_map first_bytes
            (first_unit_of (begun_units ((state self.now).format.read packet.now))) };

    // With another run all else is the same, and with its own run it is itself.
    ghost other_run: { (run : Option (List ℕ)) (it : Self) →
        state (with_run run it) ≡ state_with_run (state it) run };

    ghost own_run: { (run : Option (List ℕ)) (it : Self) →
        with_run (state it).run (with_run run it) ≡ it };

    // Of two runs the last one stands, and what else a packet changes stands beside the run.
    ghost last_run: { (run other : Option (List ℕ)) (it : Self) →
        with_run run (with_run other it) ≡ with_run run it };

    ghost taken_beside: { (packet : List ℕ) (run : Option (List ℕ)) (it : Self) →
        having_taken packet (with_run run it) ≡ with_run run (having_taken packet it) };
}

/// Removes the open run, for a packet that is to be taken without it. Where none is open a
/// depacketizer keeps its buffer, for the next one.
pub fn remove_run<D: RunDepacketizer>(alloc: Global, depacketizer: &mut D) -> OpenRun
    ensures run { result ≡ (D.state depacketizer.old).run }
    ensures rest { depacketizer.new ≡ D.with_run None depacketizer.old }
{
    let mut run = OpenRun::none(alloc);
    depacketizer.swap_run(&mut run);
    if !run.is_open() {
        depacketizer.swap_run(&mut run);
    }
    run
}

impl<C: PacketReader, S: Shows<C>> RunDepacketizer for PayloadDepacketizer<C, S> {
    ghost state = { λ it. depacketizer_state (C.format it.codec) it };

    ghost with_run = { λ run it. record it { run = run } };

    ghost having_taken = { λ packet it. record it { payload = S.shown it.codec packet } };

    ghost other_run = { λ run it. refl };

    ghost own_run = { λ run it. refl };

    ghost last_run = { λ run other it. refl };

    ghost taken_beside = { λ packet run it. refl };

    fn meets_the_facts(&self) {
        C::format_meets_the_facts();
    }

    fn is_avc(&self) -> bool {
        self.is_avc
    }

    fn run_len(&self) -> usize {
        self.run_len()
    }

    fn swap_run(&mut self, run: &mut OpenRun) {
        self.swap_run(run);
    }

    fn give_up_run(&mut self) {
        self.give_up_run();
    }

    #[inline]
    fn take<W: UnitSink>(
        &mut self,
        packet: &[u8],
        out: &mut W,
        codec_extra: &mut CodecExtra,
    ) -> Result<(), PacketError> {
        self.depacketize_into(packet, out, codec_extra)
    }

    #[inline]
    fn take_in_text(
        &mut self,
        rule: RunRule,
        packet: &[u8],
        text: &mut OpenText,
        codec_extra: &mut CodecExtra,
    ) -> Result<(), PacketError> {
        self.depacketize_in_text(rule, packet, text, codec_extra)
    }

    fn starts_run(&self, packet: &[u8]) -> bool {
        self.starts_run(packet)
    }

    fn extra(&self, key: bool) -> CodecExtra {
        self.codec().extra(key)
    }

    fn bears_unit<T: UnitTest>(&self, packet: &[u8], test: &T) -> bool {
        bears_unit(self.codec(), packet, test)
    }

    fn first_unit_begun(&self, packet: &[u8]) -> Option<[u8; 3]> {
        first_unit_begun(self.codec(), packet)
    }
}
