//! A depacketizer that is given packets with their sequence numbers.

ghost use Rattle.std.specs.Prelude.{◌≡◌, ◌+◌, ◌-◌, ◌^◌, ◌<◌, ◌≤◌, nat_lt, [], ◌∷◌, ℕ, Option, Some, None, Ok, IfSome, OnOk, OnErr, true, false};
ghost use Rattle.h26x_core.specs.Front.{IsFrontOf};
ghost use Rattle.h26x_model.specs.Receive.DepacketizerState.{depacketization, after_packets, IsPacketOutcome};
ghost use Rattle.h26x_model.specs.Receive.RunLimit.{run_len, run_within, state_with_run};
ghost use Rattle.h26x_depacketizer.specs.OpenText.{IsSameText, IsGivenBack};
ghost use Rattle.h26x_depacketizer.specs.UnitSink.{bytes_brought, grown_to, TellsRoom};
ghost use Rattle.h26x_core.specs.Sequence.{missing_count, is_expected};
ghost use Rattle.h26x_receiver.specs.Sequenced.{after_answer, is_taken, skip_answer, expected_after_skip, is_run_kept, receiver_at, receiver_in_text, met_at_sink, RunGrowsByPacket, IsAnswerOf, IsAnswerInText, IsSkipped, IfTaken};
ghost use Rattle.h26x_depacketizer.specs.RunDepacketizer.{IsSameBesideRun, RunStaysWithin, runless, anew_at_sink};

use crate::received::Received;
use h26x_core::{CodecExtra, PacketError};
use h26x_depacketizer::{OpenText, RunDepacketizer, RunRule, UnitSink, remove_run};
use h26x_model::laws;
use std::alloc::Global;

/// How far ahead of the expected number a number is taken as behind it: half of the circle (RFC
/// 1982, 3.2).
const HALF: u16 = 0x8000;

/// How many packets are missing before a number, and whether it is the one expected.
fn place_of(expected: Option<u16>, sequence: u16) -> (u16, bool)
    ensures missing { result.0 ≡ missing_count expected sequence }
    ensures expected { result.1 ≡ is_expected expected sequence }
{
    match expected {
        Some(expected) => (sequence.wrapping_sub(expected), sequence == expected),
        None => (0, false),
    }
}

/// What is answered for a packet that comes late, before which so many seem to be missing.
#[inline]
fn late_by(missing: u16) -> Option<Received>
    ensures early { result ≡ None → missing < 2 ^ 15 }
    ensures late { IfSome result (λ answer. (2 ^ 15 ≤ missing)
        × (answer ≡ Received.Late (2 ^ 16 - missing))) }
{
    if missing >= HALF {
        Some(Received::Late(u16::MAX - missing + 1))
    } else {
        None
    }
}

/// Takes a packet where no run is open: the one that was is given up once the packet is taken.
fn take_anew<D: RunDepacketizer, W: UnitSink>(
    alloc: Global,
    depacketizer: &mut D,
    packet: &[u8],
    out: &mut W,
    codec_extra: &mut CodecExtra,
) -> Result<(), PacketError>
    ensures outcome { IsPacketOutcome (anew_at_sink
        (D.state depacketizer.old) (W.sink out.old) codec_extra.old) packet.now result }
    ensures taken { OnOk result (depacketization (D.state depacketizer.new) (W.sink out.new).bytes
        codec_extra.new ≡ after_packets (anew_at_sink
        (D.state depacketizer.old) (W.sink out.old) codec_extra.old) (packet.now ∷ [])) }
    ensures behind { OnOk result (W.sink out.new
        ≡ grown_to (W.sink out.new).bytes (W.sink out.old)) }
    ensures rest { OnOk result (IsSameBesideRun D.with_run depacketizer.new
        (D.having_taken packet.now depacketizer.old)) }
    ensures kept { OnErr result (depacketizer.new ≡ depacketizer.old) }
    ensures kept_sink { OnErr result (W.sink out.new ≡ W.sink out.old) }
    ensures kept_extra { OnErr result (codec_extra.new ≡ codec_extra.old) }
    ensures told_room { TellsRoom W.room W.lacks out.old out.new result
        (bytes_brought (runless (D.state depacketizer.old)) packet.now) }
{
    let mut run = remove_run(alloc, depacketizer);
    match depacketizer.take(packet, out, codec_extra) {
        Ok(()) => Ok(()),
        Err(error) => {
            depacketizer.swap_run(&mut run);
            Err(error)
        }
    }
}

/// Takes a packet; where it isn't the one expected, the open run is given up once it is taken.
fn take<D: RunDepacketizer, W: UnitSink>(
    alloc: Global,
    is_next: bool,
    depacketizer: &mut D,
    packet: &[u8],
    out: &mut W,
    codec_extra: &mut CodecExtra,
) -> Result<(), PacketError>
    ensures outcome { IsPacketOutcome (met_at_sink is_next
        (D.state depacketizer.old) (W.sink out.old) codec_extra.old) packet.now result }
    ensures taken { OnOk result (depacketization (D.state depacketizer.new) (W.sink out.new).bytes
        codec_extra.new ≡ after_packets (met_at_sink is_next
        (D.state depacketizer.old) (W.sink out.old) codec_extra.old) (packet.now ∷ [])) }
    ensures behind { OnOk result (W.sink out.new
        ≡ grown_to (W.sink out.new).bytes (W.sink out.old)) }
    ensures rest { OnOk result (IsSameBesideRun D.with_run depacketizer.new
        (D.having_taken packet.now depacketizer.old)) }
    ensures kept { OnErr result (depacketizer.new ≡ depacketizer.old) }
    ensures kept_sink { OnErr result (W.sink out.new ≡ W.sink out.old) }
    ensures kept_extra { OnErr result (codec_extra.new ≡ codec_extra.old) }
    ensures told_room { TellsRoom W.room W.lacks out.old out.new result
        (bytes_brought (met_at_sink is_next (D.state depacketizer.old) (W.sink out.old)
        codec_extra.old).state packet.now) }
{
    if is_next {
        depacketizer.take(packet, out, codec_extra)
    } else {
        take_anew(alloc, depacketizer, packet, out, codec_extra)
    }
}

/// Gives up an open run that holds more bytes than this, and tells whether it did.
fn limit_run<D: RunDepacketizer>(depacketizer: &mut D, most: usize) -> bool
    ensures long { result ≡ nat_lt most (run_len (D.state depacketizer.old).run) }
    ensures limited { D.state depacketizer.new ≡ state_with_run (D.state depacketizer.old)
        (run_within most (D.state depacketizer.old).run) }
    ensures rest { IsSameBesideRun D.with_run depacketizer.new depacketizer.old }
{
    if depacketizer.run_len() > most {
        depacketizer.give_up_run();
        true
    } else {
        false
    }
}

/// Gives up the run of a text that holds more bytes than this, and tells whether it did.
#[inline]
fn limit_run_in_text(text: &mut OpenText, most: usize) -> bool
    ensures long { result ≡ nat_lt most (run_len text.old.run) }
    ensures limited { text.new.run ≡ run_within most text.old.run }
    ensures text { text.new.text ≡ text.old.text }
    ensures aside { text.old.inside ≡ None → text.new.inside ≡ None }
    ensures memory { result ≡ true → IsGivenBack text.new }
{
    if text.run_len() > most {
        text.give_up_run();
        true
    } else {
        false
    }
}

/// A depacketizer that is given packets with their sequence numbers of RTP (RFC 3550, 5.1). It gives
/// up the open run wherever a packet is missing, and where it holds more than a limit: so no unit is
/// written of which a part is missing, and no peer makes it hold more.
///
/// ```rust
/// let depacketizer = H265Depacketizer::new(alloc);
/// let mut receiver = SequencedDepacketizer::new(alloc, depacketizer, 4_000_000);
/// let received = receiver.receive(sequence, packet, &mut out, &mut extra)?;
/// ```
#[derive(Debug, Drop)]
pub struct SequencedDepacketizer<D: RunDepacketizer> {
    /// The depacketizer.
    pub depacketizer: D,
    /// The sequence number that is expected next, if a packet was taken.
    pub expected: Option<u16>,
    /// How many bytes an open run may hold from a packet to the next.
    pub run_limit: usize,
    alloc: Global,
}

impl<D: RunDepacketizer> SequencedDepacketizer<D> {
    /// A receiver that takes any sequence number as the first. A run that is open in `depacketizer`
    /// is given up with the first packet.
    pub fn new(alloc: Global, depacketizer: D, run_limit: usize) -> Self
        ensures depacketizer { result.depacketizer ≡ depacketizer }
        ensures expected { result.expected ≡ None }
        ensures limit { result.run_limit ≡ run_limit }
    {
        SequencedDepacketizer {
            depacketizer,
            expected: None,
            run_limit,
            alloc,
        }
    }

    /// Gives up the open run, and takes any sequence number as the next: for a peer that begins
    /// anew, whose packets are late one after the other.
    pub fn restart(&mut self)
        ensures depacketizer { self.new.depacketizer ≡ D.with_run None self.old.depacketizer }
        ensures expected { self.new.expected ≡ None }
        ensures limit { self.new.run_limit ≡ self.old.run_limit }
    {
        self.depacketizer.give_up_run();
        self.expected = None;
    }

    /// Passes over a number that came and bears nothing of the stream, as that of a packet of padding
    /// alone, of forward error correction or of another payload type: it isn't missing. In order only
    /// the number that is expected changes. Where others before it are missing (`Gap`) the open run is
    /// given up; one that is late changes nothing. It takes no memory.
    ///
    /// ```rust
    /// if payload.is_empty() {
    ///     receiver.skip(sequence);
    /// }
    /// ```
    pub fn skip(&mut self, sequence: u16) -> Received
        ensures answer { result ≡ skip_answer self.old.expected sequence }
        ensures after { IsSkipped D.state self.old sequence self.new }
        ensures rest { IsSameBesideRun D.with_run self.new.depacketizer self.old.depacketizer }
        ensures expected { self.new.expected ≡ expected_after_skip self.old.expected sequence }
        ensures limit { self.new.run_limit ≡ self.old.run_limit }

        // In order, or late, nothing else changes.
        ensures kept { is_run_kept self.old.expected sequence ≡ true →
            self.new.depacketizer ≡ self.old.depacketizer }
        ensures given_up { is_run_kept self.old.expected sequence ≡ false →
            self.new.depacketizer ≡ D.with_run None self.old.depacketizer }
    {
        let (_, is_next) = place_of(self.expected, sequence);
        let received = self.skip_in_text(sequence);
        let own = &mut self.depacketizer;
        if received.is_taken() && !is_next {
            own.give_up_run();
        }
        received
    }

    /// As [`Self::skip`], where the open run stands in a text of the caller, who gives it up: the
    /// depacketizer, with its own run, stays as it is.
    pub fn skip_in_text(&mut self, sequence: u16) -> Received
        ensures answer { result ≡ skip_answer self.old.expected sequence }
        ensures expected { self.new.expected ≡ expected_after_skip self.old.expected sequence }
        ensures depacketizer { self.new.depacketizer ≡ self.old.depacketizer }
        ensures limit { self.new.run_limit ≡ self.old.run_limit }
    {
        let (missing, _) = place_of(self.expected, sequence);
        if let Some(late) = late_by(missing) {
            return late;
        }
        self.expected = Some(sequence.wrapping_add(1));
        Received::taken(missing, false)
    }

    /// Takes a packet with its sequence number. What it completes is written to `out`, a list of bytes
    /// or memory of the caller, behind what stands there, and told in `codec_extra`.
    ///
    /// A packet that is late, comes twice or is refused changes nothing, nor the number that is
    /// expected: it is as if it had not come, and one refused for want of memory can be given again.
    /// The errors are those of the depacketizer.
    pub fn receive<W: UnitSink>(
        &mut self,
        sequence: u16,
        packet: &[u8],
        out: &mut W,
        codec_extra: &mut CodecExtra,
    ) -> Result<Received, PacketError>
        // What is answered, and what stands afterwards.
        ensures answer { IsAnswerOf D.state self.old (W.sink out.old).bytes codec_extra.old
            sequence packet.now result }
        ensures after { receiver_at D.state self.new (W.sink out.new).bytes codec_extra.new
            ≡ after_answer self.old.run_limit (receiver_at D.state self.old (W.sink out.old).bytes
            codec_extra.old) sequence packet.now result }
        ensures rest { IfTaken result (IsSameBesideRun D.with_run
            self.new.depacketizer (D.having_taken packet.now self.old.depacketizer)) }
        ensures limit { self.new.run_limit ≡ self.old.run_limit }

        // While a packet is taken the run is no longer than before and the packet, and afterwards it
        // is within the limit.
        ensures while_taken { RunGrowsByPacket (receiver_at D.state self.old
            (W.sink out.old).bytes codec_extra.old) sequence packet.now }
        ensures bounded { RunStaysWithin self.old.run_limit (D.state self.old.depacketizer).run
            (D.state self.new.depacketizer).run }

        // Bytes that stood in `out` stay, and those behind what is written; a late packet and a
        // refusal leave everything.
        ensures front { IsFrontOf (W.sink out.old).bytes (W.sink out.new).bytes }
        ensures behind { W.sink out.new ≡ grown_to (W.sink out.new).bytes (W.sink out.old) }
        ensures late { (n : ℕ) → result ≡ Ok (Received.Late n) → self.new ≡ self.old }
        ensures kept { OnErr result (self.new ≡ self.old) }
        ensures kept_sink { OnErr result (W.sink out.new ≡ W.sink out.old) }
        ensures kept_extra { OnErr result (codec_extra.new ≡ codec_extra.old) }

        // A sink that tells that room lacks tells it only where it does.
        ensures told_room { TellsRoom W.room W.lacks out.old out.new result
            (bytes_brought (met_at_sink (is_expected self.old.expected sequence)
            (D.state self.old.depacketizer) (W.sink out.old) codec_extra.old).state packet.now) }
    {
        self.depacketizer.meets_the_facts();
        laws::runs_grow_by_their_packets();
        let (missing, is_next) = place_of(self.expected, sequence);
        if let Some(late) = late_by(missing) {
            return Ok(late);
        }
        let depacketizer = &mut self.depacketizer;
        take(self.alloc, is_next, depacketizer, packet, out, codec_extra)?;
        self.expected = Some(sequence.wrapping_add(1));
        let is_long = limit_run(&mut self.depacketizer, self.run_limit);
        Ok(Received::taken(missing, is_long))
    }

    /// Takes a packet as `receive` does, where the run that is open stands in the text that is written
    /// to, so that the data of its fragments are copied once. The depacketizer's own run is neither
    /// used nor changed. A run that stays open may stand inside, or is put aside.
    #[inline(always)]
    pub fn receive_in_text(
        &mut self,
        sequence: u16,
        packet: &[u8],
        may_be_inside: bool,
        text: &mut OpenText,
        codec_extra: &mut CodecExtra,
    ) -> Result<Received, PacketError>
        // What is answered, and what stands afterwards.
        ensures answer { IsAnswerInText D.state self.old text.old codec_extra.old sequence
            packet.now result }
        ensures after { receiver_in_text D.state self.new text.new codec_extra.new ≡ after_answer
            self.old.run_limit (receiver_in_text D.state self.old text.old codec_extra.old) sequence
            packet.now result }
        ensures rest { IfTaken result
            (self.new.depacketizer ≡ D.having_taken packet.now self.old.depacketizer) }
        ensures limit { self.new.run_limit ≡ self.old.run_limit }
        ensures while_taken { RunGrowsByPacket (receiver_in_text D.state self.old text.old
            codec_extra.old) sequence packet.now }
        ensures bounded { RunStaysWithin self.old.run_limit text.old.run text.new.run }
        ensures aside { may_be_inside ≡ false → IfTaken result (text.new.inside ≡ None) }

        // Behind a run that was too long, and behind a gap, no more memory is held than what stands
        // there needs.
        ensures memory { (n : ℕ) → result ≡ Ok (Received.TooLong n) → IsGivenBack text.new }
        ensures gap { (n : ℕ) → result ≡ Ok (Received.Gap n) → IsGivenBack text.new }

        // A late packet and a refusal leave everything.
        ensures late { (n : ℕ) → result ≡ Ok (Received.Late n) → self.new ≡ self.old }
        ensures kept { OnErr result (self.new ≡ self.old) }
        ensures kept_text { is_taken result ≡ false → IsSameText text.new text.old }
        ensures kept_extra { is_taken result ≡ false → codec_extra.new ≡ codec_extra.old }
    {
        self.depacketizer.meets_the_facts();
        laws::runs_grow_by_their_packets();
        let (missing, is_next) = place_of(self.expected, sequence);
        if let Some(answer) = late_by(missing) {
            return Ok(answer);
        }
        let rule = RunRule {
            is_next,
            may_be_inside,
        };
        self.depacketizer
            .take_in_text(rule, packet, text, codec_extra)?;
        self.expected = Some(sequence.wrapping_add(1));
        let is_long = limit_run_in_text(text, self.run_limit);
        if missing > 0 && !is_long {
            text.give_back();
        }
        Ok(Received::taken(missing, is_long))
    }
}
