//! What becomes of a packet that is due: whether an access unit ends before it, and what is noted.

ghost use Rattle.std.specs.Prelude.{◌≡◌, ℕ, Bool, if◌then◌else◌, Option, List, true, false, not, ◌&&◌, Ok, Err, IfOk, OnOk, OnErr};
ghost use Rattle.h26x_core.specs.Sequence.{missing_count};
ghost use Rattle.h26x_receiver.specs.Sequenced.{IfTaken, skip_answer};
ghost use Rattle.h26x_access_units.specs.Counts.{counted_due, counted_no_unit, counted_framing};
ghost use Rattle.h26x_access_units.specs.Framing.{ends_by_content};
ghost use Rattle.h26x_assembler.specs.Assembler.{assembly_at, gives_text_up};
ghost use Rattle.h26x_assembler.specs.AccessUnit.{is_text_given_up};
ghost use Rattle.h26x_access_units.specs.declared.framing.Framing.{Framing};
ghost use Rattle.h26x_assembler.specs.declared.access_unit.AccessUnit.{AccessUnit};
ghost use Rattle.h26x_access_units.specs.Numbers.{bears_nothing, missing_told, after_gap, numbers_after, numbers_closed, numbers_still};
ghost use Rattle.h26x_access_units.specs.Reception.{begun_for, expected_for, ends_with, after_no_unit, is_behind_missing, is_in_reach, shown_of, ends_before, framing_of, believed, is_one_taken, begins_still, framing_answered, numbers_answered, counts_answered, assembly_after, lacks_memory, marker_forgotten, IsAnswerTo};

use crate::counts::Counts;
use crate::framing::{Framing, Shown, bears_no_unit, bears_slice, shown_by};
use crate::numbers::{NumbersSoFar, is_timestamp, missing_told, missing_with};
use h26x_assembler::{AccessUnit, AccessUnitAssembler};
use h26x_core::{PacketError, is_next};
use h26x_depacketizer::RunDepacketizer;
use h26x_receiver::Received;
use h26x_reorder::RtpPacket;

/// Whether an answer says that memory lacks.
pub(crate) fn is_want_of_memory(received: &Result<Received, PacketError>) -> bool
    ensures { result ≡ lacks_memory received.now }
{
    matches!(received, Err(PacketError::OutOfMemory))
}

/// Gives a packet that is due to the assembler; one without a payload is skipped.
#[inline(always)]
fn take_packet<D: RunDepacketizer>(
    assembler: &mut AccessUnitAssembler<D>,
    packet: &RtpPacket<'_>,
    ended: &mut Vec<AccessUnit>,
) -> Result<Received, PacketError>
    ensures answer { IsAnswerTo assembler.old.packets.run_limit
        (assembly_at D.state assembler.old ended.old.items) packet.now result }
    ensures after { IfOk result (λ received. assembly_at D.state assembler.new ended.new.items
        ≡ assembly_after assembler.old.packets.run_limit assembler.old.unit_limit
        (assembly_at D.state assembler.old ended.old.items) packet.now (Ok received)) }
    ensures limit { assembler.new.packets.run_limit ≡ assembler.old.packets.run_limit }
    ensures unit_limit { assembler.new.unit_limit ≡ assembler.old.unit_limit }
    ensures text { bears_nothing packet.now.1.payload ≡ false → IfTaken result
        (assembler.new.is_text_given_up ≡ gives_text_up D.state assembler.old ended.old.items
        packet.now) }
    ensures kept { OnErr result (assembler.new ≡ assembler.old) }
    ensures kept_ended { OnErr result (ended.new.items ≡ ended.old.items) }
{
    if packet.payload.is_empty() {
        Ok(assembler.skip(packet.sequence))
    } else {
        assembler.receive(packet, ended)
    }
}

/// Passes over a number whose packet is refused and bears nothing to be written. Its marker ends the
/// access unit that is open. Without memory all stays as it was.
#[cold]
#[inline(never)]
fn pass_no_unit<D: RunDepacketizer>(
    assembler: &mut AccessUnitAssembler<D>,
    ended: &mut Vec<AccessUnit>,
    numbers: &mut NumbersSoFar,
    counts: &mut Counts,
    packet: &RtpPacket<'_>,
) -> Result<(), PacketError>
    ensures after { OnOk result (assembly_at D.state assembler.new ended.new.items ≡ marker_forgotten
        (after_no_unit (assembly_at D.state assembler.old ended.old.items) packet.now)) }
    ensures numbers { OnOk result (numbers.new ≡ after_gap
        (if ends_with (assembly_at D.state assembler.old ended.old.items) packet.now
        then numbers_closed numbers.old else numbers.old)
        (missing_told (skip_answer assembler.old.packets.expected packet.now.0))) }
    ensures counts { OnOk result (counts.new ≡ counted_no_unit counts.old
        (skip_answer assembler.old.packets.expected packet.now.0)) }
    ensures limit { assembler.new.packets.run_limit ≡ assembler.old.packets.run_limit }
    ensures unit_limit { assembler.new.unit_limit ≡ assembler.old.unit_limit }
    ensures memory { OnErr result (result ≡ Err PacketError.OutOfMemory) }
    ensures kept { OnErr result (assembly_at D.state assembler.new ended.new.items
        ≡ assembly_at D.state assembler.old ended.old.items) }
    ensures kept_numbers { OnErr result (numbers.new ≡ numbers.old) }
    ensures kept_counts { OnErr result (counts.new ≡ counts.old) }
{
    let is_next = is_next(assembler.packets.expected, packet.sequence);
    if packet.marker && assembler.unit.is_at(packet.timestamp) && is_next {
        assembler.end(ended)?;
        numbers.close();
    }
    let received = assembler.skip(packet.sequence);
    assembler.forget_marker();
    numbers.skip(u32::from(missing_told(received)));
    counts.pass(received);
    Ok(())
}

/// Whether a packet was taken, by what was answered: it has a payload and isn't late.
#[inline]
fn is_one_taken(packet: &RtpPacket<'_>, received: Received) -> bool
    ensures { result ≡ is_one_taken packet.now received }
{
    !packet.payload.is_empty() && received.is_taken()
}

/// Whether an access unit begins by its units at the timestamp of the one before.
#[inline]
fn begins_still<D: RunDepacketizer>(
    assembler: &AccessUnitAssembler<D>,
    at: Framing,
    packet: &RtpPacket<'_>,
) -> bool
    ensures { (ended : List AccessUnit) → result
        ≡ begins_still (assembly_at D.state assembler.now ended) at packet.now }
{
    !assembler.unit.is_at(packet.timestamp) && at.stands_still
}

/// Whether a marker was set that isn't believed.
#[inline]
fn is_unbelieved(marker: bool, packet: &RtpPacket<'_>) -> bool
    ensures { result ≡ (marker && not packet.now.1.marker) }
{
    marker && !packet.marker
}

/// A packet with its marker where that is believed.
#[inline]
fn believed<'a>(at: Framing, packet: &RtpPacket<'a>) -> RtpPacket<'a>
    ensures { result ≡ believed at packet.now }
{
    RtpPacket {
        sequence: packet.sequence,
        timestamp: packet.timestamp,
        marker: at.believes(packet.marker),
        payload: packet.payload,
    }
}

/// Notes of a packet that is due and isn't refused what became of it: `at` is what is known with it of
/// where access units end.
#[inline(always)]
pub(crate) fn note_received(
    framing: &mut Framing,
    numbers: &mut NumbersSoFar,
    counts: &mut Counts,
    at: Framing,
    packet: &RtpPacket<'_>,
    received: Received,
    unbelieved: bool,
    still: bool,
    text: bool,
)
    ensures framing { framing.new ≡ framing_answered framing.old at packet.now (Ok received) }
    ensures numbers { (expected : Option ℕ) → numbers.new ≡ (if is_one_taken packet.now received
        then numbers_after expected (numbers_still at.stands_still numbers.old) packet.now
        (Ok received) else numbers_after expected numbers.old packet.now (Ok received)) }
    ensures counts { (expected : Option ℕ) → counts.new ≡ (if is_one_taken packet.now received
        then counted_framing (counted_due expected counts.old packet.now (Ok received) text) still
        unbelieved else counted_due expected counts.old packet.now (Ok received) text) }
{
    if !is_one_taken(packet, received) {
        numbers.note(packet, received);
        counts.note(packet, received, text);
        return;
    }
    *framing = at.marked(packet.marker);
    numbers.stand(at.stands_still);
    numbers.note(packet, received);
    counts.note(packet, received, text);
    counts.frame(still, unbelieved);
}

/// So of one that was taken in order, whose marker is believed, and that doesn't stand still.
#[inline(always)]
pub(crate) fn note_in_order(
    framing: &mut Framing,
    numbers: &mut NumbersSoFar,
    counts: &mut Counts,
    at: Framing,
    packet: &RtpPacket<'_>,
    text: bool,
)
    requires { bears_nothing packet.now.1.payload ≡ false }
    ensures framing { framing.new
        ≡ framing_answered framing.old at packet.now (Ok Received.InOrder) }
    ensures numbers { (expected : Option ℕ) → numbers.new ≡ numbers_after expected
        (numbers_still at.stands_still numbers.old) packet.now (Ok Received.InOrder) }
    ensures counts { (expected : Option ℕ) → counts.new ≡ counted_framing
        (counted_due expected counts.old packet.now (Ok Received.InOrder) text) false false }
{
    *framing = at.marked(packet.marker);
    let still = at.stands_still;
    numbers.stand(still);
    numbers.take(packet, 0);
    counts.note(packet, Received::InOrder, text);
    counts.frame(false, false);
}

/// What is known with a packet of where access units end: nothing more than before where it goes on
/// with an access unit of which a slice came, so that it isn't looked into.
#[inline]
fn framing_of<D: RunDepacketizer>(
    assembler: &AccessUnitAssembler<D>,
    framing: Framing,
    numbers: &NumbersSoFar,
    packet: &RtpPacket<'_>,
) -> Framing
    ensures { (ended : List AccessUnit) → result
        ≡ framing_of (assembly_at D.state assembler.now ended) framing numbers.now packet.now }
{
    let is_open = assembler.unit.is_at(packet.timestamp);
    let is_closed = is_timestamp(numbers.marked, packet.timestamp);
    if is_open && framing.has_slice && !is_closed {
        return framing;
    }
    let depacketizer = &assembler.packets.depacketizer;
    if !is_closed {
        // (what begins doesn't count then)
        let shown = Shown {
            has_slice: bears_slice(depacketizer, packet.payload),
            first: None,
        };
        return framing.with(is_open, false, shown);
    }
    framing.with(is_open, true, shown_by(depacketizer, packet.payload))
}

/// Passes over a packet that the assembler refused, and notes it. The answer is why it is refused: for
/// want of memory all stays as it was, also where an access unit was to end with it.
#[cold]
#[inline(never)]
pub(crate) fn pass_refused<D: RunDepacketizer>(
    assembler: &mut AccessUnitAssembler<D>,
    ended: &mut Vec<AccessUnit>,
    numbers: &mut NumbersSoFar,
    counts: &mut Counts,
    packet: &RtpPacket<'_>,
    error: PacketError,
) -> PacketError
    requires { IsAnswerTo assembler.old.packets.run_limit
        (assembly_at D.state assembler.old ended.old.items) packet.now (Err error) }
    ensures answer { IsAnswerTo assembler.old.packets.run_limit
        (assembly_at D.state assembler.old ended.old.items) packet.now (Err result) }
    ensures after { lacks_memory (Err result) ≡ false →
        assembly_at D.state assembler.new ended.new.items
        ≡ marker_forgotten (assembly_after assembler.old.packets.run_limit assembler.old.unit_limit
        (assembly_at D.state assembler.old ended.old.items) packet.now (Err result)) }
    ensures numbers { (at : Framing) → lacks_memory (Err result) ≡ false →
        numbers.new ≡ numbers_answered (assembly_at D.state assembler.old ended.old.items) numbers.old
        at packet.now (Err result) }
    ensures counts { (at : Framing) (marker text : Bool) → lacks_memory (Err result) ≡ false →
        counts.new ≡ counts_answered (assembly_at D.state assembler.old ended.old.items) counts.old at
        packet.now marker text (Err result) }
    ensures limit { assembler.new.packets.run_limit ≡ assembler.old.packets.run_limit }
    ensures unit_limit { assembler.new.unit_limit ≡ assembler.old.unit_limit }
    ensures kept { lacks_memory (Err result) ≡ true → assembly_at D.state assembler.new ended.new.items
        ≡ assembly_at D.state assembler.old ended.old.items }
    ensures kept_numbers { lacks_memory (Err result) ≡ true → numbers.new ≡ numbers.old }
    ensures kept_counts { lacks_memory (Err result) ≡ true → counts.new ≡ counts.old }
{
    if matches!(error, PacketError::OutOfMemory) {
        return error;
    }
    let extra = assembler.packets.depacketizer.extra(false);
    if bears_no_unit(extra, error, packet.payload) {
        return match pass_no_unit(assembler, ended, numbers, counts, packet) {
            Ok(()) => error,
            Err(lack) => lack,
        };
    }
    let missing = missing_with(assembler.pass_over(packet.sequence));
    assembler.forget_marker();
    numbers.skip(missing);
    counts.refuse(missing);
    error
}

/// Gives it a packet that is due, passes over one that it refuses, and notes what became of it: `at` is
/// what is known with it of where access units end, and it has its marker where that is believed.
/// Without memory all stays as it was.
#[inline(always)]
fn take_noted<D: RunDepacketizer>(
    assembler: &mut AccessUnitAssembler<D>,
    ended: &mut Vec<AccessUnit>,
    framing: &mut Framing,
    numbers: &mut NumbersSoFar,
    counts: &mut Counts,
    at: Framing,
    packet: &RtpPacket<'_>,
    marker: bool,
) -> Result<Received, PacketError>
    ensures answer { IsAnswerTo assembler.old.packets.run_limit
        (assembly_at D.state assembler.old ended.old.items) packet.now result }
    ensures after { lacks_memory result ≡ false → assembly_at D.state assembler.new ended.new.items
        ≡ marker_forgotten (assembly_after assembler.old.packets.run_limit assembler.old.unit_limit
        (assembly_at D.state assembler.old ended.old.items) packet.now result) }
    ensures framing { lacks_memory result ≡ false → framing.new
        ≡ framing_answered framing.old at packet.now result }
    ensures numbers { lacks_memory result ≡ false → numbers.new ≡ numbers_answered
        (assembly_at D.state assembler.old ended.old.items) numbers.old at packet.now result }
    ensures counts { lacks_memory result ≡ false → counts.new ≡ counts_answered
        (assembly_at D.state assembler.old ended.old.items) counts.old at packet.now marker
        (gives_text_up D.state assembler.old ended.old.items packet.now) result }
    ensures limit { assembler.new.packets.run_limit ≡ assembler.old.packets.run_limit }
    ensures unit_limit { assembler.new.unit_limit ≡ assembler.old.unit_limit }
    ensures kept { lacks_memory result ≡ true → assembly_at D.state assembler.new ended.new.items
        ≡ assembly_at D.state assembler.old ended.old.items }
    ensures kept_framing { lacks_memory result ≡ true → framing.new ≡ framing.old }
    ensures kept_numbers { lacks_memory result ≡ true → numbers.new ≡ numbers.old }
    ensures kept_counts { lacks_memory result ≡ true → counts.new ≡ counts.old }
{
    let still = begins_still(assembler, at, packet);
    match take_packet(assembler, packet, ended) {
        Ok(received) => {
            assembler.forget_marker();
            let text = assembler.is_text_given_up;
            let unbelieved = is_unbelieved(marker, packet);
            note_received(
                framing, numbers, counts, at, packet, received, unbelieved, still, text,
            );
            Ok(received)
        }
        Err(error) => {
            let error = pass_refused(assembler, ended, numbers, counts, packet, error);
            Err(error)
        }
    }
}

/// Whether a number is the one that is expected, or behind others that are missing.
#[inline]
fn is_in_reach<D: RunDepacketizer>(assembler: &AccessUnitAssembler<D>, number: u16) -> bool
    ensures { (ended : List AccessUnit) → result
        ≡ is_in_reach (assembly_at D.state assembler.now ended) number }
{
    match assembler.packets.expected {
        Some(expected) => number.wrapping_sub(expected) < 0x8000,
        None => false,
    }
}

/// Whether numbers are missing right before one that is not late, where a packet was taken.
#[inline]
pub(crate) fn is_behind_missing<D: RunDepacketizer>(
    assembler: &AccessUnitAssembler<D>,
    number: u16,
) -> bool
    ensures { (ended : List AccessUnit) → result
        ≡ is_behind_missing (assembly_at D.state assembler.now ended) number }
{
    if !is_in_reach(assembler, number) {
        return false;
    }
    assembler.unit.is_gap() || !is_next(assembler.packets.expected, number)
}

/// Whether the access unit that is open, of a packet's timestamp, ends before it by its units. Where
/// markers are trusted it isn't looked into.
#[inline]
fn ends_by_content<D: RunDepacketizer>(
    assembler: &AccessUnitAssembler<D>,
    framing: Framing,
    packet: &RtpPacket<'_>,
) -> bool
    ensures { (ended : List AccessUnit) → result ≡ ends_by_content framing
        (shown_of (assembly_at D.state assembler.now ended) packet.now) }
{
    if framing.trusts_markers() || !framing.has_slice {
        return false;
    }
    framing.ends_by_content(shown_by(&assembler.packets.depacketizer, packet.payload))
}

/// Whether the access unit that is open ends before a packet.
#[inline]
pub(crate) fn ends_before<D: RunDepacketizer>(
    assembler: &AccessUnitAssembler<D>,
    framing: Framing,
    packet: &RtpPacket<'_>,
) -> bool
    ensures { (ended : List AccessUnit) → result
        ≡ ends_before (assembly_at D.state assembler.now ended) framing packet.now }
{
    if packet.payload.is_empty() {
        return false;
    }
    if assembler.unit.is_at(packet.timestamp) {
        return is_in_reach(assembler, packet.sequence)
            && ends_by_content(assembler, framing, packet);
    }
    is_behind_missing(assembler, packet.sequence)
}

/// How many numbers are missing before one that is not late, where another is expected, or none yet.
pub(crate) fn missing_before(expected: Option<u16>, number: u16) -> u16
    ensures { result ≡ missing_count expected number }
{
    match expected {
        Some(expected) => number.wrapping_sub(expected),
        None => 0,
    }
}

/// Takes a packet that is due, and has no marker that could be believed, as [`take_noted`] does. Where
/// this is compiled nothing asks for the marker any more, and no packet is copied.
#[inline(always)]
fn take_unmarked<D: RunDepacketizer>(
    assembler: &mut AccessUnitAssembler<D>,
    ended: &mut Vec<AccessUnit>,
    framing: &mut Framing,
    numbers: &mut NumbersSoFar,
    counts: &mut Counts,
    packet: &RtpPacket<'_>,
) -> Result<Received, PacketError>
    requires { packet.now.1.marker ≡ false }
    ensures answer { let s = assembly_at D.state assembler.old ended.old.items in
        let at = framing_of s framing.old numbers.old packet.now in
        IsAnswerTo assembler.old.packets.run_limit s (believed at packet.now) result }
    ensures after { let s = assembly_at D.state assembler.old ended.old.items in
        let at = framing_of s framing.old numbers.old packet.now in
        lacks_memory result ≡ false → assembly_at D.state assembler.new ended.new.items
        ≡ marker_forgotten (assembly_after assembler.old.packets.run_limit assembler.old.unit_limit s
        (believed at packet.now) result) }
    ensures framing { let s = assembly_at D.state assembler.old ended.old.items in
        let at = framing_of s framing.old numbers.old packet.now in lacks_memory result ≡ false →
        framing.new ≡ framing_answered framing.old at (believed at packet.now) result }
    ensures numbers { let s = assembly_at D.state assembler.old ended.old.items in
        let at = framing_of s framing.old numbers.old packet.now in lacks_memory result ≡ false →
        numbers.new ≡ numbers_answered s numbers.old at (believed at packet.now) result }
    ensures counts { let s = assembly_at D.state assembler.old ended.old.items in
        let at = framing_of s framing.old numbers.old packet.now in lacks_memory result ≡ false →
        counts.new ≡ counts_answered s counts.old at (believed at packet.now) packet.now.1.marker
        (is_text_given_up assembler.old.packets.run_limit assembler.old.unit_limit s
        (believed at packet.now)) result }
    ensures limit { assembler.new.packets.run_limit ≡ assembler.old.packets.run_limit }
    ensures unit_limit { assembler.new.unit_limit ≡ assembler.old.unit_limit }
    ensures kept { lacks_memory result ≡ true → assembly_at D.state assembler.new ended.new.items
        ≡ assembly_at D.state assembler.old ended.old.items }
    ensures kept_framing { lacks_memory result ≡ true → framing.new ≡ framing.old }
    ensures kept_numbers { lacks_memory result ≡ true → numbers.new ≡ numbers.old }
    ensures kept_counts { lacks_memory result ≡ true → counts.new ≡ counts.old }
{
    let at = framing_of(assembler, *framing, numbers, packet);
    take_noted(
        assembler, ended, framing, numbers, counts, at, packet, false,
    )
}

/// Takes a packet that is due as [`take_noted`] does, a copy of it that has its marker where that is
/// believed.
#[cold]
#[inline(never)]
fn take_unbelieved<D: RunDepacketizer>(
    assembler: &mut AccessUnitAssembler<D>,
    ended: &mut Vec<AccessUnit>,
    framing: &mut Framing,
    numbers: &mut NumbersSoFar,
    counts: &mut Counts,
    at: Framing,
    packet: &RtpPacket<'_>,
) -> Result<Received, PacketError>
    ensures answer { IsAnswerTo assembler.old.packets.run_limit
        (assembly_at D.state assembler.old ended.old.items) (believed at packet.now) result }
    ensures after { lacks_memory result ≡ false → assembly_at D.state assembler.new ended.new.items
        ≡ marker_forgotten (assembly_after assembler.old.packets.run_limit assembler.old.unit_limit
        (assembly_at D.state assembler.old ended.old.items) (believed at packet.now) result) }
    ensures framing { lacks_memory result ≡ false → framing.new
        ≡ framing_answered framing.old at (believed at packet.now) result }
    ensures numbers { lacks_memory result ≡ false → numbers.new ≡ numbers_answered
        (assembly_at D.state assembler.old ended.old.items) numbers.old at
        (believed at packet.now) result }
    ensures counts { let s = assembly_at D.state assembler.old ended.old.items in
        lacks_memory result ≡ false → counts.new ≡ counts_answered s counts.old at
        (believed at packet.now) packet.now.1.marker
        (is_text_given_up assembler.old.packets.run_limit assembler.old.unit_limit s
        (believed at packet.now)) result }
    ensures limit { assembler.new.packets.run_limit ≡ assembler.old.packets.run_limit }
    ensures unit_limit { assembler.new.unit_limit ≡ assembler.old.unit_limit }
    ensures kept { lacks_memory result ≡ true → assembly_at D.state assembler.new ended.new.items
        ≡ assembly_at D.state assembler.old ended.old.items }
    ensures kept_framing { lacks_memory result ≡ true → framing.new ≡ framing.old }
    ensures kept_numbers { lacks_memory result ≡ true → numbers.new ≡ numbers.old }
    ensures kept_counts { lacks_memory result ≡ true → counts.new ≡ counts.old }
{
    let taken = believed(at, packet);
    take_noted(
        assembler,
        ended,
        framing,
        numbers,
        counts,
        at,
        &taken,
        packet.marker,
    )
}

/// Takes a packet that is due as [`take_noted`] does, with its marker where that is believed.
#[inline(always)]
fn take_seen<D: RunDepacketizer>(
    assembler: &mut AccessUnitAssembler<D>,
    ended: &mut Vec<AccessUnit>,
    framing: &mut Framing,
    numbers: &mut NumbersSoFar,
    counts: &mut Counts,
    packet: &RtpPacket<'_>,
) -> Result<Received, PacketError>
    ensures answer { let s = assembly_at D.state assembler.old ended.old.items in
        let at = framing_of s framing.old numbers.old packet.now in
        IsAnswerTo assembler.old.packets.run_limit s (believed at packet.now) result }
    ensures after { let s = assembly_at D.state assembler.old ended.old.items in
        let at = framing_of s framing.old numbers.old packet.now in
        lacks_memory result ≡ false → assembly_at D.state assembler.new ended.new.items
        ≡ marker_forgotten (assembly_after assembler.old.packets.run_limit assembler.old.unit_limit s
        (believed at packet.now) result) }
    ensures framing { let s = assembly_at D.state assembler.old ended.old.items in
        let at = framing_of s framing.old numbers.old packet.now in lacks_memory result ≡ false →
        framing.new ≡ framing_answered framing.old at (believed at packet.now) result }
    ensures numbers { let s = assembly_at D.state assembler.old ended.old.items in
        let at = framing_of s framing.old numbers.old packet.now in lacks_memory result ≡ false →
        numbers.new ≡ numbers_answered s numbers.old at (believed at packet.now) result }
    ensures counts { let s = assembly_at D.state assembler.old ended.old.items in
        let at = framing_of s framing.old numbers.old packet.now in lacks_memory result ≡ false →
        counts.new ≡ counts_answered s counts.old at (believed at packet.now) packet.now.1.marker
        (is_text_given_up assembler.old.packets.run_limit assembler.old.unit_limit s
        (believed at packet.now)) result }
    ensures limit { assembler.new.packets.run_limit ≡ assembler.old.packets.run_limit }
    ensures unit_limit { assembler.new.unit_limit ≡ assembler.old.unit_limit }
    ensures kept { lacks_memory result ≡ true → assembly_at D.state assembler.new ended.new.items
        ≡ assembly_at D.state assembler.old ended.old.items }
    ensures kept_framing { lacks_memory result ≡ true → framing.new ≡ framing.old }
    ensures kept_numbers { lacks_memory result ≡ true → numbers.new ≡ numbers.old }
    ensures kept_counts { lacks_memory result ≡ true → counts.new ≡ counts.old }
{
    if !packet.marker {
        return take_unmarked(assembler, ended, framing, numbers, counts, packet);
    }
    let at = framing_of(assembler, *framing, numbers, packet);
    if at.believes(packet.marker) {
        return take_noted(
            assembler,
            ended,
            framing,
            numbers,
            counts,
            at,
            packet,
            packet.marker,
        );
    }
    take_unbelieved(assembler, ended, framing, numbers, counts, at, packet)
}

/// Takes a packet that is due as [`take_seen`] does. Where no number is expected its own is, if it
/// has a payload, so that it is known of its access unit from it on whether something is missing.
#[cold]
#[inline(never)]
pub(crate) fn take_begun<D: RunDepacketizer>(
    assembler: &mut AccessUnitAssembler<D>,
    ended: &mut Vec<AccessUnit>,
    framing: &mut Framing,
    numbers: &mut NumbersSoFar,
    counts: &mut Counts,
    packet: &RtpPacket<'_>,
) -> Result<Received, PacketError>
    ensures answer { let s = begun_for (assembly_at D.state assembler.old ended.old.items) packet.now in
        let at = framing_of s framing.old numbers.old packet.now in
        IsAnswerTo assembler.old.packets.run_limit s (believed at packet.now) result }
    ensures after { let s = begun_for (assembly_at D.state assembler.old ended.old.items) packet.now in
        let at = framing_of s framing.old numbers.old packet.now in
        lacks_memory result ≡ false → assembly_at D.state assembler.new ended.new.items
        ≡ marker_forgotten (assembly_after assembler.old.packets.run_limit assembler.old.unit_limit s
        (believed at packet.now) result) }
    ensures framing { let s = begun_for (assembly_at D.state assembler.old ended.old.items)
        packet.now in
        let at = framing_of s framing.old numbers.old packet.now in lacks_memory result ≡ false →
        framing.new ≡ framing_answered framing.old at (believed at packet.now) result }
    ensures numbers { let s = begun_for (assembly_at D.state assembler.old ended.old.items)
        packet.now in
        let at = framing_of s framing.old numbers.old packet.now in lacks_memory result ≡ false →
        numbers.new ≡ numbers_answered s numbers.old at (believed at packet.now) result }
    ensures counts { let s = begun_for (assembly_at D.state assembler.old ended.old.items) packet.now in
        let at = framing_of s framing.old numbers.old packet.now in lacks_memory result ≡ false →
        counts.new ≡ counts_answered s counts.old at (believed at packet.now) packet.now.1.marker
        (is_text_given_up assembler.old.packets.run_limit assembler.old.unit_limit s
        (believed at packet.now)) result }
    ensures limit { assembler.new.packets.run_limit ≡ assembler.old.packets.run_limit }
    ensures unit_limit { assembler.new.unit_limit ≡ assembler.old.unit_limit }
    ensures kept { lacks_memory result ≡ true → assembly_at D.state assembler.new ended.new.items
        ≡ assembly_at D.state assembler.old ended.old.items }
    ensures kept_framing { lacks_memory result ≡ true → framing.new ≡ framing.old }
    ensures kept_numbers { lacks_memory result ≡ true → numbers.new ≡ numbers.old }
    ensures kept_counts { lacks_memory result ≡ true → counts.new ≡ counts.old }
{
    let expected = assembler.packets.expected;
    assembler.packets.expected = expected_for(expected, packet);
    let received = take_seen(assembler, ended, framing, numbers, counts, packet);
    if is_want_of_memory(&received) {
        assembler.packets.expected = expected;
    }
    received
}

/// The number that is expected for a packet that is taken: where none is, and it has a payload, its
/// own.
fn expected_for(expected: Option<u16>, packet: &RtpPacket<'_>) -> Option<u16>
    ensures { result ≡ expected_for expected packet.now }
{
    match expected {
        Some(number) => Some(number),
        None if packet.payload.is_empty() => None,
        None => Some(packet.sequence),
    }
}
