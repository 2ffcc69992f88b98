//! Packets, any whatever, through a depacketizer.

ghost use Rattle.std.specs.Prelude.{◌≡◌, IfOk, OnErr, Err, IsErr, All, length, vec_len, None};
ghost use Rattle.h26x_core.specs.Front.{IsFrontOf};
ghost use Rattle.h26x_model.specs.Receive.DepacketizerState.{AreAllTaken, accepted_packets, depacketization};
ghost use Rattle.h26x_packetizer.specs.Sending.{contents};
ghost use Rattle.h26x_transmission.specs.CodecStates.{codec_depacketization, OfDepacketizer};
ghost use Rattle.h26x_transmission.specs.Taking.{AreReceivedAs, LossIsWithin};

use crate::depacketizer::CodecDepacketizer;
use crate::laws::depacketizer_states;
use h26x_core::{CodecExtra, Depacketizer, PacketError};
use h26x_model::laws;
use std::alloc::Global;

/// Gives every packet to a depacketizer, in order, and answers what became of each. One that is
/// refused is passed over.
///
/// Room for the outcomes is taken first; where there is none the error is `OutOfMemory`, and nothing
/// was taken. `out` and `extra` are what the accepted packets brought.
///
/// ```rust
/// let outcomes = take_all(alloc, &mut depacketizer, &packets, &mut out, &mut extra)?;
/// let refused = outcomes.iter().filter(|outcome| outcome.is_err()).count();
/// ```
pub fn take_all(
    alloc: Global,
    d: &mut CodecDepacketizer,
    packets: &[Vec<u8>],
    out: &mut Vec<u8>,
    extra: &mut CodecExtra,
) -> Result<Vec<Result<(), PacketError>>, PacketError>
    ensures each { IfOk result (λ outcomes. vec_len outcomes ≡ length packets.now) }

    // From any open run: the outcome of each by what those accepted before it left; what stands
    // after the accepted ones.
    ensures taken { OfDepacketizer d.old
        (λ r. IfOk result (λ outcomes. AreAllTaken (depacketization r out.old.items extra.old)
        (contents packets.now) outcomes.items (codec_depacketization d.new out.new.items
        extra.new))) }

    // Where no run was open, what is received of the accepted ones is written.
    ensures received { OfDepacketizer d.old
        (λ r. r.run ≡ None → IfOk result (λ outcomes. AreReceivedAs (depacketization r out.old.items
        extra.old) (accepted_packets (contents packets.now) outcomes.items) out.new.items
        extra.new)) }

    // Where the accepted ones are some of what calls send, a lost one hurts no item but its own.
    ensures loss { OfDepacketizer d.old
        (λ r. IfOk result (λ outcomes. LossIsWithin (depacketization r out.old.items extra.old)
        (accepted_packets (contents packets.now) outcomes.items) out.new.items extra.new)) }

    // Bytes that stood in `out` stay, and where all are refused all is as it was, `out` and the extra
    // of a depacketizer in a box too.
    ensures kept { IsFrontOf out.old.items out.new.items }
    ensures refused_out { IfOk result (λ outcomes. All (λ o. IsErr o) outcomes.items →
        out.new.items ≡ out.old.items) }
    ensures refused_extra { IfOk result (λ outcomes. All (λ o. IsErr o) outcomes.items →
        extra.new ≡ extra.old) }
    ensures refused { OfDepacketizer d.old
        (λ r. IfOk result (λ outcomes. All (λ o. IsErr o) outcomes.items → d.new ≡ d.old)) }

    // Without room for the outcomes nothing was taken.
    ensures memory { OnErr result (result ≡ Err PacketError.OutOfMemory) }
    ensures left { OnErr result (d.new ≡ d.old) }
    ensures left_out { OnErr result (out.new ≡ out.old) }
    ensures left_extra { OnErr result (extra.new ≡ extra.old) }
{
    depacketizer_states(d);
    laws::depacketizers_go_on();
    laws::received_by_places();
    laws::what_is_left_is_brought();
    let mut outcomes = Vec::with_capacity(alloc, packets.len())?;
    for packet in packets {
        let outcome = d.depacketize(packet, out, extra);
        outcomes.push(outcome).unwrap();
    }
    Ok(outcomes)
}
