//! The short ways of the packets that most are: one that goes on with the access unit that is open, and
//! the sole one of an access unit.

ghost use Rattle.std.specs.Prelude.{◌≡◌, List, true, false};
ghost use Rattle.h26x_assembler.specs.declared.access_unit.AccessUnit.{AccessUnit};
ghost use Rattle.h26x_assembler.specs.Assembler.{assembly_at};
ghost use Rattle.h26x_assembler.specs.AccessUnit.{is_text_given_up};
ghost use Rattle.h26x_access_units.specs.Reception.{begun_for, framing_of, believed, lacks_memory, IsAnswerTo, assembly_after, marker_forgotten, framing_answered, numbers_answered, counts_answered};
ghost use Rattle.h26x_access_units.specs.Short.{goes_on, is_sole};

use crate::counts::Counts;
use crate::due::{note_in_order, note_received, pass_refused, take_begun};
use crate::framing::{Framing, Shown, bears_slice};
use crate::numbers::{NumbersSoFar, is_timestamp};
use h26x_assembler::{AccessUnit, AccessUnitAssembler};
use h26x_core::{PacketError, is_next};
use h26x_depacketizer::RunDepacketizer;
use h26x_receiver::Received;
use h26x_reorder::RtpPacket;

/// Whether a packet was taken in order.
#[inline(always)]
fn is_in_order(received: Received) -> bool
    ensures { result ≡ true → received ≡ Received.InOrder }
{
    matches!(received, Received::InOrder)
}

/// Whether a packet goes on with the access unit that is open: it is the next one, has no marker, and
/// a slice of its timestamp came.
#[inline(always)]
fn goes_on<D: RunDepacketizer>(
    assembler: &AccessUnitAssembler<D>,
    framing: Framing,
    numbers: &NumbersSoFar,
    packet: &RtpPacket<'_>,
) -> bool
    ensures { (ended : List AccessUnit) → result
        ≡ goes_on (assembly_at D.state assembler.now ended) framing numbers.now packet.now }
{
    !packet.marker
        && !packet.payload.is_empty()
        && framing.has_slice
        && is_next(assembler.packets.expected, packet.sequence)
        && assembler.unit.is_at(packet.timestamp)
        && !is_timestamp(numbers.marked, packet.timestamp)
}

/// Takes a packet that goes on with the access unit that is open, as [`take_begun`] does.
#[inline(always)]
fn take_on<D: RunDepacketizer>(
    assembler: &mut AccessUnitAssembler<D>,
    ended: &mut Vec<AccessUnit>,
    framing: &mut Framing,
    numbers: &mut NumbersSoFar,
    counts: &mut Counts,
    packet: &RtpPacket<'_>,
) -> Result<Received, PacketError>
    requires { goes_on (assembly_at D.state assembler.old ended.old.items) framing.old numbers.old
        packet.now ≡ true }
    ensures answer { let s = begun_for (assembly_at D.state assembler.old ended.old.items) packet.now in
        let at = framing_of s framing.old numbers.old packet.now in
        IsAnswerTo assembler.old.packets.run_limit s (believed at packet.now) result }
    ensures after { let s = begun_for (assembly_at D.state assembler.old ended.old.items) packet.now in
        let at = framing_of s framing.old numbers.old packet.now in
        lacks_memory result ≡ false → assembly_at D.state assembler.new ended.new.items
        ≡ marker_forgotten (assembly_after assembler.old.packets.run_limit assembler.old.unit_limit s
        (believed at packet.now) result) }
    ensures framing { let s = begun_for (assembly_at D.state assembler.old ended.old.items)
        packet.now in
        let at = framing_of s framing.old numbers.old packet.now in lacks_memory result ≡ false →
        framing.new ≡ framing_answered framing.old at (believed at packet.now) result }
    ensures numbers { let s = begun_for (assembly_at D.state assembler.old ended.old.items)
        packet.now in
        let at = framing_of s framing.old numbers.old packet.now in lacks_memory result ≡ false →
        numbers.new ≡ numbers_answered s numbers.old at (believed at packet.now) result }
    ensures counts { let s = begun_for (assembly_at D.state assembler.old ended.old.items) packet.now in
        let at = framing_of s framing.old numbers.old packet.now in lacks_memory result ≡ false →
        counts.new ≡ counts_answered s counts.old at (believed at packet.now) packet.now.1.marker
        (is_text_given_up assembler.old.packets.run_limit assembler.old.unit_limit s
        (believed at packet.now)) result }
    ensures limit { assembler.new.packets.run_limit ≡ assembler.old.packets.run_limit }
    ensures unit_limit { assembler.new.unit_limit ≡ assembler.old.unit_limit }
    ensures kept { lacks_memory result ≡ true → assembly_at D.state assembler.new ended.new.items
        ≡ assembly_at D.state assembler.old ended.old.items }
    ensures kept_framing { lacks_memory result ≡ true → framing.new ≡ framing.old }
    ensures kept_numbers { lacks_memory result ≡ true → numbers.new ≡ numbers.old }
    ensures kept_counts { lacks_memory result ≡ true → counts.new ≡ counts.old }
{
    match assembler.go_on(packet) {
        Ok(received) => {
            assembler.forget_marker();
            let at = *framing;
            let text = assembler.is_text_given_up;
            if is_in_order(received) {
                note_in_order(framing, numbers, counts, at, packet, text);
                return Ok(received);
            }
            note_received(
                framing, numbers, counts, at, packet, received, false, false, text,
            );
            Ok(received)
        }
        Err(error) => {
            let error = pass_refused(assembler, ended, numbers, counts, packet, error);
            Err(error)
        }
    }
}

/// Whether a packet is the sole one of its access unit: it is the next one, none is open, and it bears
/// a slice and a marker that is believed.
#[inline(always)]
fn is_sole<D: RunDepacketizer>(
    assembler: &AccessUnitAssembler<D>,
    framing: Framing,
    numbers: &NumbersSoFar,
    packet: &RtpPacket<'_>,
) -> bool
    ensures { (ended : List AccessUnit) → result
        ≡ is_sole (assembly_at D.state assembler.now ended) framing numbers.now packet.now }
{
    packet.marker
        && !packet.payload.is_empty()
        && !framing.marks_slices
        && is_next(assembler.packets.expected, packet.sequence)
        && !assembler.unit.is_open()
        && !is_timestamp(numbers.marked, packet.timestamp)
        && bears_slice(&assembler.packets.depacketizer, packet.payload)
}

/// Takes a packet that is the sole one of its access unit, as [`take_begun`] does.
#[inline(always)]
fn take_sole<D: RunDepacketizer>(
    assembler: &mut AccessUnitAssembler<D>,
    ended: &mut Vec<AccessUnit>,
    framing: &mut Framing,
    numbers: &mut NumbersSoFar,
    counts: &mut Counts,
    packet: &RtpPacket<'_>,
) -> Result<Received, PacketError>
    requires { is_sole (assembly_at D.state assembler.old ended.old.items) framing.old numbers.old
        packet.now ≡ true }
    ensures answer { let s = begun_for (assembly_at D.state assembler.old ended.old.items) packet.now in
        let at = framing_of s framing.old numbers.old packet.now in
        IsAnswerTo assembler.old.packets.run_limit s (believed at packet.now) result }
    ensures after { let s = begun_for (assembly_at D.state assembler.old ended.old.items) packet.now in
        let at = framing_of s framing.old numbers.old packet.now in
        lacks_memory result ≡ false → assembly_at D.state assembler.new ended.new.items
        ≡ marker_forgotten (assembly_after assembler.old.packets.run_limit assembler.old.unit_limit s
        (believed at packet.now) result) }
    ensures framing { let s = begun_for (assembly_at D.state assembler.old ended.old.items)
        packet.now in
        let at = framing_of s framing.old numbers.old packet.now in lacks_memory result ≡ false →
        framing.new ≡ framing_answered framing.old at (believed at packet.now) result }
    ensures numbers { let s = begun_for (assembly_at D.state assembler.old ended.old.items)
        packet.now in
        let at = framing_of s framing.old numbers.old packet.now in lacks_memory result ≡ false →
        numbers.new ≡ numbers_answered s numbers.old at (believed at packet.now) result }
    ensures counts { let s = begun_for (assembly_at D.state assembler.old ended.old.items) packet.now in
        let at = framing_of s framing.old numbers.old packet.now in lacks_memory result ≡ false →
        counts.new ≡ counts_answered s counts.old at (believed at packet.now) packet.now.1.marker
        (is_text_given_up assembler.old.packets.run_limit assembler.old.unit_limit s
        (believed at packet.now)) result }
    ensures limit { assembler.new.packets.run_limit ≡ assembler.old.packets.run_limit }
    ensures unit_limit { assembler.new.unit_limit ≡ assembler.old.unit_limit }
    ensures kept { lacks_memory result ≡ true → assembly_at D.state assembler.new ended.new.items
        ≡ assembly_at D.state assembler.old ended.old.items }
    ensures kept_framing { lacks_memory result ≡ true → framing.new ≡ framing.old }
    ensures kept_numbers { lacks_memory result ≡ true → numbers.new ≡ numbers.old }
    ensures kept_counts { lacks_memory result ≡ true → counts.new ≡ counts.old }
{
    match assembler.begin(packet, ended) {
        Ok(received) => {
            assembler.forget_marker();
            let shown = Shown {
                has_slice: true,
                first: None,
            };
            let at = framing.with(false, false, shown);
            let text = assembler.is_text_given_up;
            if is_in_order(received) {
                note_in_order(framing, numbers, counts, at, packet, text);
                return Ok(received);
            }
            note_received(
                framing, numbers, counts, at, packet, received, false, false, text,
            );
            Ok(received)
        }
        Err(error) => {
            let error = pass_refused(assembler, ended, numbers, counts, packet, error);
            Err(error)
        }
    }
}

/// Takes a packet that is due as [`take_begun`] does. Where this is compiled the two short ways ask
/// nothing twice.
#[inline(always)]
pub(crate) fn take_due<D: RunDepacketizer>(
    assembler: &mut AccessUnitAssembler<D>,
    ended: &mut Vec<AccessUnit>,
    framing: &mut Framing,
    numbers: &mut NumbersSoFar,
    counts: &mut Counts,
    packet: &RtpPacket<'_>,
) -> Result<Received, PacketError>
    ensures answer { let s = begun_for (assembly_at D.state assembler.old ended.old.items) packet.now in
        let at = framing_of s framing.old numbers.old packet.now in
        IsAnswerTo assembler.old.packets.run_limit s (believed at packet.now) result }
    ensures after { let s = begun_for (assembly_at D.state assembler.old ended.old.items) packet.now in
        let at = framing_of s framing.old numbers.old packet.now in
        lacks_memory result ≡ false → assembly_at D.state assembler.new ended.new.items
        ≡ marker_forgotten (assembly_after assembler.old.packets.run_limit assembler.old.unit_limit s
        (believed at packet.now) result) }
    ensures framing { let s = begun_for (assembly_at D.state assembler.old ended.old.items)
        packet.now in
        let at = framing_of s framing.old numbers.old packet.now in lacks_memory result ≡ false →
        framing.new ≡ framing_answered framing.old at (believed at packet.now) result }
    ensures numbers { let s = begun_for (assembly_at D.state assembler.old ended.old.items)
        packet.now in
        let at = framing_of s framing.old numbers.old packet.now in lacks_memory result ≡ false →
        numbers.new ≡ numbers_answered s numbers.old at (believed at packet.now) result }
    ensures counts { let s = begun_for (assembly_at D.state assembler.old ended.old.items) packet.now in
        let at = framing_of s framing.old numbers.old packet.now in lacks_memory result ≡ false →
        counts.new ≡ counts_answered s counts.old at (believed at packet.now) packet.now.1.marker
        (is_text_given_up assembler.old.packets.run_limit assembler.old.unit_limit s
        (believed at packet.now)) result }
    ensures limit { assembler.new.packets.run_limit ≡ assembler.old.packets.run_limit }
    ensures unit_limit { assembler.new.unit_limit ≡ assembler.old.unit_limit }
    ensures kept { lacks_memory result ≡ true → assembly_at D.state assembler.new ended.new.items
        ≡ assembly_at D.state assembler.old ended.old.items }
    ensures kept_framing { lacks_memory result ≡ true → framing.new ≡ framing.old }
    ensures kept_numbers { lacks_memory result ≡ true → numbers.new ≡ numbers.old }
    ensures kept_counts { lacks_memory result ≡ true → counts.new ≡ counts.old }
{
    if goes_on(assembler, *framing, numbers, packet) {
        return take_on(assembler, ended, framing, numbers, counts, packet);
    }
    if is_sole(assembler, *framing, numbers, packet) {
        return take_sole(assembler, ended, framing, numbers, counts, packet);
    }
    take_begun(assembler, ended, framing, numbers, counts, packet)
}
