//! Access units, and the one that is open.

ghost use Rattle.std.specs.Option.{option_map};
ghost use Rattle.std.specs.Prelude.{◌≡◌, ◌+◌, ◌≤◌, ◌==◌, ℕ, Ok, nat_lt, ◌&&◌, ◌||◌, ◌++◌, ◌∷◌, [], if◌then◌else◌, true, false, None, Some, length, vec_len, vec_capacity, is_some};
ghost use Rattle.h26x_model.specs.Payload.Reading.{is_start};
ghost use Rattle.h26x_model.specs.Receive.RunLimit.{run_len};
ghost use Rattle.h26x_receiver.specs.Sequenced.{IfTaken, UnlessTaken};
ghost use Rattle.h26x_assembler.specs.AccessUnit.{access_unit_value, units_so_far_value, open_units_of, open_unit_value, open_unit_view, empty_unit, whole_if, one_open, none_open, without_marker, behind_gap, is_following, is_run_closed, unit_len, unit_within, is_unit_at, given_out, after_taken_rtp, parts_at, IsTakenAnswerAt, unit_views};
ghost use Rattle.h26x_depacketizer.specs.OpenText.{IsGivenBack};
ghost use Rattle.h26x_depacketizer.specs.RunDepacketizer.{RunStaysWithin};

use crate::answers::{is_following, is_sound, was_taken};
use h26x_core::{CodecExtra, PacketError};
use h26x_depacketizer::{OpenRun, OpenText, RunDepacketizer};
use h26x_model::laws;
use h26x_receiver::{Received, SequencedDepacketizer};
use h26x_reorder::RtpPacket;
use std::alloc::Global;
use std::marker::Model;

/// An access unit, the units of one picture: its packets bear one timestamp, and the last of them
/// bears the marker (RFC 6184, 5.1; RFC 7798, 4.1; RFC 9328, 4.1).
#[derive(Debug, Drop)]
pub struct AccessUnit {
    /// The timestamp of its packets (RFC 3550, 5.1).
    pub timestamp: u32,
    /// The text of its units, as the depacketizer writes it: nothing of a unit of which a packet is
    /// missing, and nothing of what was given up since it was longer than the assembler's limit.
    pub bytes: Vec<u8>,
    /// What is told of these units; `CodecExtra::None` where there is none.
    pub extra: CodecExtra,
    /// Whether it is known that nothing of it is missing: its packets followed each other, its first
    /// the packet before it, and its last bore the marker or was followed by another timestamp; no
    /// unit of it lacks its start or its end; and no run of it was too long, nor its text. Where the
    /// packet before it is missing it isn't known, since that may have been its first; nor where the
    /// marker ended one of its timestamp right before it, with which it goes on.
    pub is_whole: bool,
}

/// An access unit of which packets came. The open run stands in its text.
#[derive(Debug, Drop)]
pub(crate) struct AccessUnitSoFar {
    pub timestamp: u32,
    pub text: OpenText,
    pub extra: CodecExtra,
    pub is_whole: bool,
}

impl AccessUnitSoFar {
    /// One to which no packet came yet, in memory that was another's.
    #[inline]
    pub(crate) fn new(memory: Vec<u8>, timestamp: u32) -> Self
        ensures unit { open_unit_value result ≡ empty_unit timestamp }
        ensures run { result.text.run ≡ None }
    {
        AccessUnitSoFar {
            timestamp,
            text: OpenText::new(memory),
            extra: CodecExtra::None,
            is_whole: true,
        }
    }

    /// Takes a packet with its timestamp. A marker does not end it yet.
    #[inline(always)]
    fn take<D: RunDepacketizer>(
        &mut self,
        packets: &mut SequencedDepacketizer<D>,
        packet: &RtpPacket<'_>,
        is_gap: bool,
        closed: Option<u32>,
        may_be_inside: bool,
    ) -> Result<Received, PacketError>
        requires { self.old.timestamp ≡ packet.now.1.timestamp }
        ensures answer { IsTakenAnswerAt D.state packets.old
            (one_open self.old is_gap closed) [] packet.now result }
        ensures after { IfTaken result (parts_at D.state packets.new
            (one_open self.new false None) [] ≡ after_taken_rtp packets.old.run_limit (parts_at
            D.state packets.old (one_open self.old is_gap closed) []) (without_marker packet.now)) }
        ensures rest { IfTaken result (packets.new.depacketizer
            ≡ D.having_taken packet.now.1.payload packets.old.depacketizer) }
        ensures limit { packets.new.run_limit ≡ packets.old.run_limit }
        ensures bounded { RunStaysWithin packets.old.run_limit self.old.text.run self.new.text.run }
        ensures aside { may_be_inside ≡ false → IfTaken result (self.new.text.inside ≡ None) }
        ensures memory { (n : ℕ) → result ≡ Ok (Received.TooLong n) → IsGivenBack self.new.text }
        ensures kept { UnlessTaken result ((packets.new ≡ packets.old)
            × (one_open self.new is_gap closed ≡ one_open self.old is_gap closed)) }
    {
        packets.depacketizer.meets_the_facts();
        laws::runs_grow_by_their_packets();
        let follows = is_following(is_gap, closed, packets.expected, packet);
        let len = self.text.len();
        let had_run = self.text.met_run_len(true).is_some();
        let received = packets.receive_in_text(
            packet.sequence,
            packet.payload,
            may_be_inside,
            &mut self.text,
            &mut self.extra,
        );
        if was_taken(&received) {
            let is_broken = self.is_broken(&packets.depacketizer, packet.payload, had_run, len);
            let is_sound = is_sound(follows, is_broken, &received);
            self.is_whole = self.is_whole && is_sound;
        }
        received
    }

    /// Whether a unit lacks its end or its start by a packet that was taken, before which a run was
    /// open or not and the text had so many bytes. A run that is longer than the packet isn't its own.
    #[inline(always)]
    fn is_broken<D: RunDepacketizer>(
        &self,
        depacketizer: &D,
        payload: &[u8],
        had_run: bool,
        len: usize,
    ) -> bool
        requires { is_start ((D.state depacketizer.now).format.read payload.now) ≡ true →
            run_len self.now.text.run ≤ length payload.now }
        ensures { result ≡ ((had_run && is_start ((D.state depacketizer.now).format.read
            payload.now)) || ((len == length self.now.text.text)
            && is_run_closed self.now.text.run)) }
    {
        let may_be_given_up = had_run && self.text.run_len() <= payload.len();
        may_be_given_up && depacketizer.starts_run(payload) || self.is_dropped(len)
    }

    /// Whether no byte stands of a packet before which the text had so many: neither there nor in a
    /// run.
    #[inline]
    pub(crate) fn is_dropped(&self, len: usize) -> bool
        ensures { result ≡ ((len == length self.now.text.text) && is_run_closed self.now.text.run) }
    {
        len == self.text.len() && self.text.run_len() == 0
    }

    /// Packets are missing: gives up the run, and it isn't known to be whole.
    fn break_off(&mut self)
        ensures unit { open_unit_value self.new ≡ whole_if false (open_unit_value self.old) }
        ensures run { self.new.text.run ≡ None }
        ensures memory { IsGivenBack self.new.text }
    {
        self.text.give_up_run();
        self.is_whole = false;
    }

    /// The access unit, known to be whole only if this holds too. A run that is open goes.
    #[inline]
    fn finish(self, holds: bool) -> AccessUnit
        ensures { access_unit_value result ≡ whole_if holds (open_unit_value self) }
    {
        AccessUnit {
            timestamp: self.timestamp,
            bytes: self.text.into_text(),
            extra: self.extra,
            is_whole: self.is_whole && holds,
        }
    }
}

/// What came so far of an access unit that is open.
#[derive(Debug, Clone, Copy)]
pub struct UnitsSoFar<'a> {
    /// The timestamp of its packets (RFC 3550, 5.1).
    pub timestamp: u32,
    /// The text of its units that came whole, in order: packets put further ones behind it.
    pub bytes: &'a [u8],
    /// What is told of these; `CodecExtra::None` where there is none.
    pub extra: CodecExtra,
}

/// The access unit that is open, if one is: the next packet may belong to it. And the run that is
/// open, in its text, or left by the last one; whether packets are missing right before the numbers
/// that were skipped last; and the timestamp of the one that the marker of the last packet ended.
#[derive(Debug, Drop)]
pub struct OpenAccessUnit {
    unit: Option<AccessUnitSoFar>,
    left: OpenRun,
    is_gap: bool,
    closed: Option<u32>,
}

impl Model for OpenAccessUnit {
    ghost use Rattle.std.specs.Prelude.{◌≡◌, true, None, is_some};
    ghost use Rattle.h26x_assembler.specs.AccessUnit.{OpenAccessUnitView, open_unit_view};

    ghost Value = { OpenAccessUnitView };

    ghost view = { λ a. open_unit_view a.unit a.left a.is_gap a.closed };

    ghost invariant = { λ a. is_some a.unit ≡ true → a.left ≡ None };
}

impl OpenAccessUnit {
    /// None is open.
    pub(crate) fn none(alloc: Global) -> Self
        ensures { result ≡ none_open }
    {
        OpenAccessUnit {
            unit: None,
            left: OpenRun::none(alloc),
            is_gap: false,
            closed: None,
        }
    }

    /// Whether one is open.
    pub fn is_open(&self) -> bool
        ensures { result ≡ is_some self.now.unit }
    {
        self.unit.is_some()
    }

    /// The units of it that came whole; `None` where none is open.
    pub fn units_so_far(&self) -> Option<UnitsSoFar<'_>>
        ensures { option_map units_so_far_value result ≡ option_map open_units_of self.now.unit }
    {
        match &self.unit {
            Some(unit) => Some(UnitsSoFar {
                timestamp: unit.timestamp,
                bytes: unit.text.text(),
                extra: unit.extra,
            }),
            None => None,
        }
    }

    /// How many bytes of whole units it holds; none where none is open.
    pub fn bytes_len(&self) -> usize
        ensures { result ≡ unit_len self.now.unit }
    {
        match &self.unit {
            Some(unit) => unit.text.len(),
            None => 0,
        }
    }

    /// How many bytes the run holds that is open; none where none is.
    pub fn run_len(&self) -> usize
        ensures { result ≡ run_len self.now.run }
    {
        match &self.unit {
            Some(unit) => unit.text.run_len(),
            None => self.left.len(),
        }
    }

    /// Gives up its text where that has more bytes than this, with what it tells; it isn't whole then.
    /// A run that is open stays. The memory goes back where the run doesn't stand in it. The answer is
    /// whether it had more.
    #[inline]
    pub(crate) fn limit(&mut self, most: usize) -> bool
        ensures after { self.new ≡ record self.old { unit = unit_within most self.old.unit } }
        ensures given_up { result ≡ nat_lt most (unit_len self.old.unit) }
    {
        if let Some(unit) = &mut self.unit {
            if unit.text.len() > most {
                unit.text.give_up_text();
                unit.extra = CodecExtra::None;
                unit.is_whole = false;
                return true;
            }
        }
        false
    }

    /// Forgets that a marker ended the last one.
    #[inline]
    pub(crate) fn forget_marker(&mut self)
        ensures { self.new ≡ record self.old { closed = None } }
    {
        self.closed = None;
    }

    /// Whether it is known that nothing of its access unit is missing before a packet.
    #[inline]
    pub(crate) fn follows(&self, expected: Option<u16>, packet: &RtpPacket<'_>) -> bool
        ensures { result ≡ is_following self.now.is_gap self.now.closed expected
            packet.now.1.timestamp packet.now.0 }
    {
        is_following(self.is_gap, self.closed, expected, packet)
    }

    /// Packets are missing, and a number behind them is skipped: gives up the run, and neither what is
    /// open nor what the next packet begins is known to be whole.
    pub(crate) fn break_off(&mut self)
        ensures { self.new ≡ behind_gap self.old }
    {
        self.is_gap = true;
        match &mut self.unit {
            Some(unit) => unit.break_off(),
            None => self.left.close(),
        }
    }

    /// Whether packets are missing right before the numbers that were skipped last.
    #[inline]
    pub fn is_gap(&self) -> bool
        ensures { result ≡ self.now.is_gap }
    {
        self.is_gap
    }

    /// Whether one is open that has this timestamp.
    #[inline]
    pub fn is_at(&self, timestamp: u32) -> bool
        ensures { result ≡ is_unit_at self.now.unit timestamp }
    {
        match &self.unit {
            Some(unit) => unit.timestamp == timestamp,
            None => false,
        }
    }

    /// Takes a packet without a marker into the one that is open, where it stands.
    #[inline(always)]
    pub(crate) fn go_on<D: RunDepacketizer>(
        &mut self,
        packets: &mut SequencedDepacketizer<D>,
        packet: &RtpPacket<'_>,
    ) -> Result<Received, PacketError>
        requires { is_unit_at self.old.unit packet.now.1.timestamp ≡ true }
        ensures answer { IsTakenAnswerAt D.state packets.old self.old [] packet.now result }
        ensures after { IfTaken result (parts_at D.state packets.new self.new []
            ≡ after_taken_rtp packets.old.run_limit (parts_at D.state packets.old self.old [])
            (without_marker packet.now)) }
        ensures rest { IfTaken result (packets.new.depacketizer
            ≡ D.having_taken packet.now.1.payload packets.old.depacketizer) }
        ensures limit { packets.new.run_limit ≡ packets.old.run_limit }
        ensures bounded { RunStaysWithin packets.old.run_limit self.old.run self.new.run }
        ensures kept { UnlessTaken result ((packets.new ≡ packets.old) × (self.new ≡ self.old)) }
    {
        match &mut self.unit {
            Some(unit) => {
                let received = unit.take(packets, packet, self.is_gap, self.closed, true);
                if was_taken(&received) {
                    self.is_gap = false;
                    self.closed = None;
                }
                received
            }
            None => unreachable!(),
        }
    }

    /// Takes a packet with a marker into the one that is open, and appends that.
    pub(crate) fn go_on_to_end<D: RunDepacketizer>(
        &mut self,
        packets: &mut SequencedDepacketizer<D>,
        packet: &RtpPacket<'_>,
        out: &mut Vec<AccessUnit>,
    ) -> Result<Received, PacketError>
        requires at { is_unit_at self.old.unit packet.now.1.timestamp ≡ true }
        requires marker { packet.now.1.marker ≡ true }
        requires room { vec_len out.old + 1 ≤ vec_capacity out.old }
        ensures answer { IsTakenAnswerAt D.state packets.old self.old out.old.items
            packet.now result }
        ensures after { IfTaken result (parts_at D.state packets.new self.new out.new.items
            ≡ after_taken_rtp packets.old.run_limit (parts_at D.state packets.old self.old
            out.old.items) packet.now) }
        ensures rest { IfTaken result (packets.new.depacketizer
            ≡ D.having_taken packet.now.1.payload packets.old.depacketizer) }
        ensures limit { packets.new.run_limit ≡ packets.old.run_limit }
        ensures bounded { RunStaysWithin packets.old.run_limit self.old.run self.new.run }
        ensures kept { UnlessTaken result ((packets.new ≡ packets.old)
            × (self.new ≡ self.old) × (out.new.items ≡ out.old.items)) }
    {
        match self.unit.take() {
            Some(mut unit) => {
                let received = unit.take(packets, packet, self.is_gap, self.closed, false);
                if !was_taken(&received) {
                    self.unit = Some(unit);
                    return received;
                }
                self.is_gap = false;
                self.closed = Some(unit.timestamp);
                let is_closed = unit.text.run_len() == 0;
                unit.text.move_run(&mut self.left);
                out.push(unit.finish(is_closed)).unwrap();
                received
            }
            None => unreachable!(),
        }
    }

    /// Puts one in its place, where none is open, or appends it where it has ended: then its run stands
    /// aside.
    #[inline(always)]
    pub(crate) fn put(
        &mut self,
        mut unit: AccessUnitSoFar,
        is_sound: bool,
        is_over: bool,
        out: &mut Vec<AccessUnit>,
    )
        requires none { self.old ≡ none_open }
        requires room { vec_len out.old + 1 ≤ vec_capacity out.old }
        requires aside { is_over ≡ true → unit.text.inside ≡ None }
        ensures unit { self.new.unit ≡ (if is_over then None
            else Some (whole_if is_sound (open_unit_value unit))) }
        ensures run { self.new.run ≡ unit.text.run }
        ensures gap { self.new.is_gap ≡ false }
        ensures closed { self.new.closed ≡ (if is_over then Some unit.timestamp else None) }
        ensures out { unit_views out.new.items ≡ unit_views out.old.items
            ++ (if is_over then whole_if (is_run_closed unit.text.run)
            (whole_if is_sound (open_unit_value unit)) ∷ [] else []) }
    {
        unit.is_whole = unit.is_whole && is_sound;
        if is_over {
            self.closed = Some(unit.timestamp);
            let is_closed = unit.text.run_len() == 0;
            unit.text.move_run(&mut self.left);
            out.push(unit.finish(is_closed)).unwrap();
        } else {
            self.unit = Some(unit);
        }
    }

    /// Appends it, if one is open, and gives up the run.
    #[inline(always)]
    pub(crate) fn finish(&mut self, follows: bool, out: &mut Vec<AccessUnit>)
        requires { vec_len out.old + 1 ≤ vec_capacity out.old }
        ensures none { self.new ≡ none_open }
        ensures out { unit_views out.new.items ≡ unit_views out.old.items
            ++ given_out (follows && is_run_closed self.old.run) self.old.unit }
        ensures len { vec_len out.new ≤ vec_len out.old + 1 }
        ensures capacity { vec_capacity out.old ≤ vec_capacity out.new }
    {
        self.is_gap = false;
        self.closed = None;
        self.left.close();
        if self.unit.is_some() {
            self.finish_open(follows, out);
        }
    }

    /// Appends the one that is open, where no more is known.
    #[inline(never)]
    fn finish_open(&mut self, follows: bool, out: &mut Vec<AccessUnit>)
        requires open { is_some self.old.unit ≡ true }
        requires gap { self.old.is_gap ≡ false }
        requires closed { self.old.closed ≡ None }
        requires room { vec_len out.old + 1 ≤ vec_capacity out.old }
        ensures none { self.new ≡ none_open }
        ensures out { unit_views out.new.items ≡ unit_views out.old.items
            ++ given_out (follows && is_run_closed self.old.run) self.old.unit }
        ensures len { vec_len out.new ≤ vec_len out.old + 1 }
        ensures capacity { vec_capacity out.old ≤ vec_capacity out.new }
    {
        if let Some(unit) = self.unit.take() {
            let is_closed = unit.text.run_len() == 0;
            out.push(unit.finish(follows && is_closed)).unwrap();
        }
    }
}
