//! Packets with their sequence numbers, any whatever, through a receiver.

ghost use Rattle.std.specs.Prelude.{◌≡◌, IfOk, OnErr, Err, length, map, vec_len, None};
ghost use Rattle.h26x_core.specs.Front.{IsFrontOf};
ghost use Rattle.h26x_receiver.specs.Delivery.{sequenced_packets, NoneIsRefused, NoneIsRefusedForWhatItIs, WholeUnitsAreWritten, ThoseThatCameAreWritten, WhatWasTakenIsWritten};
ghost use Rattle.h26x_receiver.specs.Sequenced.{AreAllReceived, having_taken_all, receiver_at, work_at};
ghost use Rattle.h26x_depacketizer.specs.RunDepacketizer.{IsSameBesideRun, RunStaysWithin};

use crate::received::Received;
use crate::sequenced::SequencedDepacketizer;
use h26x_core::{CodecExtra, PacketError};
use h26x_depacketizer::RunDepacketizer;
use h26x_model::laws;
use std::alloc::Global;

/// Gives every packet with its sequence number to a receiver, in the order in which they come, and
/// answers what became of each. One that is refused is passed over.
///
/// Room for the answers is taken first; where there is none the error is `OutOfMemory`, and nothing
/// was taken.
pub fn receive_all<D: RunDepacketizer>(
    alloc: Global,
    receiver: &mut SequencedDepacketizer<D>,
    packets: &[(u16, Vec<u8>)],
    out: &mut Vec<u8>,
    codec_extra: &mut CodecExtra,
) -> Result<Vec<Result<Received, PacketError>>, PacketError>
    ensures each { IfOk result (λ answers. vec_len answers ≡ length packets.now) }

    // Any packets whatever: the answer for each by what those before it left, and what stands after
    // them.
    ensures received { IfOk result (λ answers. AreAllReceived receiver.old.run_limit (receiver_at
        D.state receiver.old out.old.items codec_extra.old) (sequenced_packets packets.now)
        answers.items (receiver_at D.state receiver.new out.new.items codec_extra.new)) }

    // Where they are what a network brings of the packets that calls send, with losses, twice and
    // late: nothing damaged is written, but exactly the items of which each packet was taken, and
    // that a run may hold.
    ensures whole { receiver.old.expected ≡ None → IfOk result (λ answers. WholeUnitsAreWritten
        receiver.old.run_limit (work_at D.state receiver.old out.old.items codec_extra.old)
        (sequenced_packets packets.now) answers.items out.new.items codec_extra.new) }

    // Whoever sent them, and whatever they are: exactly that part of what all of them would bring of
    // which each packet was taken, and that a run may hold.
    ensures came { receiver.old.expected ≡ None → IfOk result (λ answers. WhatWasTakenIsWritten
        receiver.old.run_limit (work_at D.state receiver.old out.old.items codec_extra.old)
        (sequenced_packets packets.now) answers.items out.new.items codec_extra.new) }

    // Where those of calls come in order and none is refused: the items of which each packet came.
    ensures in_order { receiver.old.expected ≡ None →
        IfOk result (λ them. NoneIsRefused them.items →
        ThoseThatCameAreWritten receiver.old.run_limit
        (work_at D.state receiver.old out.old.items codec_extra.old)
        (sequenced_packets packets.now) out.new.items codec_extra.new) }

    // None of them is refused for what it is: memory lacks or, in AVC form, a unit is too long.
    ensures refusals { IfOk result (λ answers. NoneIsRefusedForWhatItIs
        (work_at D.state receiver.old out.old.items codec_extra.old)
        (sequenced_packets packets.now) answers.items) }

    // What else the packets that were taken change, as what a depacketizer of H.265 shows.
    ensures rest { IfOk result (λ answers. IsSameBesideRun D.with_run
        receiver.new.depacketizer (having_taken_all D.having_taken
        (map (λ p. p.1) (sequenced_packets packets.now)) answers.items
        receiver.old.depacketizer)) }

    // The run that is open is within the limit.
    ensures bounded { RunStaysWithin receiver.old.run_limit
        (D.state receiver.old.depacketizer).run (D.state receiver.new.depacketizer).run }
    ensures limit { receiver.new.run_limit ≡ receiver.old.run_limit }

    // Bytes that stood in `out` stay.
    ensures front { IsFrontOf out.old.items out.new.items }

    // Without room for the answers nothing was taken.
    ensures memory { OnErr result (result ≡ Err PacketError.OutOfMemory) }
    ensures left { OnErr result (receiver.new ≡ receiver.old) }
    ensures left_out { OnErr result (out.new ≡ out.old) }
    ensures left_extra { OnErr result (codec_extra.new ≡ codec_extra.old) }
{
    receiver.depacketizer.meets_the_facts();
    laws::nothing_is_damaged();
    laws::what_came_is_written();
    laws::what_calls_send_is_carried();
    let mut answers = Vec::with_capacity(alloc, packets.len())?;
    for (sequence, packet) in packets {
        let answer = receiver.receive(*sequence, packet, out, codec_extra);
        answers.push(answer).unwrap();
    }
    Ok(answers)
}
