//! RTP packets, any whatever, through a buffer and an assembler.

ghost use Rattle.std.specs.Prelude.{◌≡◌, ◌<◌, ◌≤◌, ◌^◌, IfOk, OnErr, Err, map};
ghost use Rattle.h26x_receiver.specs.Sequenced.{having_taken_all};
ghost use Rattle.h26x_reorder.specs.ReorderBuffer.{reordered};
ghost use Rattle.h26x_assembler.specs.AccessUnit.{unit_len, with_open_unit, AreAssembled};
ghost use Rattle.h26x_assembler.specs.Assembler.{assembly_at, BringsAccessUnits, BringsAnyUnits, RefusesNoneBrought};
ghost use Rattle.h26x_depacketizer.specs.RunDepacketizer.{RunStaysWithin, IsSameBesideRun};

use crate::access_unit::AccessUnit;
use crate::assembler::AccessUnitAssembler;
use h26x_core::PacketError;
use h26x_depacketizer::RunDepacketizer;
use h26x_model::laws;
use h26x_receiver::Received;
use h26x_reorder::{RtpPacket, ordered};
use std::alloc::Global;

/// Puts packets in the order of their sequence numbers through a buffer with this window, 1 to 2^14,
/// and gives them to an assembler, in that order; the access units that they end are appended to
/// `out`, and what became of each packet that the buffer gave out is answered. One that is refused is
/// passed over. The access unit of the last packets stays open where its marker is missing:
/// [`AccessUnitAssembler::finish`] gives it out.
///
/// Room for the packets and the answers is taken first; where there is none the error is
/// `OutOfMemory`, and nothing was taken.
///
/// ```rust
/// assemble_all(alloc, &mut assembler, 64, &packets, &mut units)?;
/// assembler.finish(&mut units)?;
/// ```
pub fn assemble_all<D: RunDepacketizer>(
    alloc: Global,
    assembler: &mut AccessUnitAssembler<D>,
    window: u16,
    packets: &[RtpPacket<'_>],
    out: &mut Vec<AccessUnit>,
) -> Result<Vec<Result<Received, PacketError>>, PacketError>
    requires some { 0 < window }
    requires half { window ≤ 2 ^ 14 }

    // Any packets whatever: the answer for each that the buffer gave out by what those before it
    // left, and what stands after them.
    ensures received { IfOk result (λ answers. AreAssembled assembler.old.packets.run_limit
        assembler.old.unit_limit (assembly_at D.state assembler.old out.old.items)
        (reordered window packets.now) answers.items
        (assembly_at D.state assembler.new out.new.items)) }

    // Where they are what a network brings of the packets of calls with timestamps, with losses, in
    // another order and twice: the access units, with the one that is open, are what the packets that
    // were taken leave of the calls, in order.
    ensures in_order { IfOk result (λ answers. BringsAccessUnits D.state assembler.old out.old.items
        window packets.now answers.items (with_open_unit out.new.items assembler.new.unit)) }

    // Whoever sent them, and whatever they are: that part of what all of them would bring of which each
    // packet was taken, and that a run may hold, in access units whose last packets bear the marker.
    ensures came { IfOk result (λ answers. BringsAnyUnits D.state assembler.old out.old.items
        window packets.now answers.items (with_open_unit out.new.items assembler.new.unit)) }

    // None of those of calls is refused for what it is: memory lacks or, in AVC form, a unit is too
    // long.
    ensures refusals { IfOk result (λ answers. RefusesNoneBrought D.state assembler.old
        out.old.items window packets.now answers.items) }

    // What else the packets that were taken change, as what a depacketizer of H.265 shows.
    ensures rest { IfOk result (λ answers. IsSameBesideRun D.with_run
        assembler.new.packets.depacketizer (having_taken_all D.having_taken
        (map (λ p. p.1.payload) (reordered window packets.now)) answers.items
        assembler.old.packets.depacketizer)) }

    // The run that is open is within its limit, and the open access unit within its own.
    ensures bounded { RunStaysWithin assembler.old.packets.run_limit assembler.old.unit.run
        assembler.new.unit.run }
    ensures bounded_unit { unit_len assembler.old.unit.unit ≤ assembler.old.unit_limit →
        unit_len assembler.new.unit.unit ≤ assembler.old.unit_limit }
    ensures limit { assembler.new.packets.run_limit ≡ assembler.old.packets.run_limit }
    ensures unit_limit { assembler.new.unit_limit ≡ assembler.old.unit_limit }

    // Without room for the packets and the answers nothing was taken.
    ensures memory { OnErr result (result ≡ Err PacketError.OutOfMemory) }
    ensures left { OnErr result (assembler.new ≡ assembler.old) }
    ensures left_out { OnErr result (out.new ≡ out.old) }
{
    assembler.packets.depacketizer.meets_the_facts();
    laws::nothing_is_damaged();
    laws::packetizers_go_on();
    laws::what_calls_send_is_carried();
    laws::what_came_is_written();
    let ordered = ordered(alloc, window, packets)?;
    let mut answers = Vec::with_capacity(alloc, ordered.len())?;
    for packet in &ordered {
        let answer = assembler.receive(packet, out);
        answers.push(answer).unwrap();
    }
    Ok(answers)
}
