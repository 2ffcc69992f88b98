//! Whole transmissions: calls of a packetizer, and their packets through a depacketizer.

ghost use Rattle.std.specs.Prelude.{◌≡◌, IfOk, IfErr, length, map, Some, None};
ghost use Rattle.h26x_model.specs.Carry.Loss.{keep};
ghost use Rattle.h26x_core.specs.Front.{IsFrontOf};
ghost use Rattle.h26x_model.specs.Receive.Received.{received};
ghost use Rattle.h26x_model.specs.Send.Rival.{TakesFewestFragments};
ghost use Rattle.h26x_core.specs.declared.extra.CodecExtra.TheVariants as extras;
ghost use Rattle.h26x_model.specs.Send.PacketizerState.{PacketizerState, call_packets, AreWithinLimits, calls_packets, after_calls, next_call};
ghost use Rattle.h26x_model.specs.Receive.DepacketizerState.{DepacketizerState, after_packets, depacketization, AreWritten};
ghost use Rattle.h26x_model.specs.Where.{WhereBoth};
ghost use Rattle.h26x_packetizer.specs.Sending.{contents};
ghost use Rattle.h26x_transmission.specs.CodecStates.{codec_packetizer_state, codec_depacketizer_state, codec_depacketization, OfPacketizer, OfDepacketizer, OfDepacketization, OfBoth};
ghost use Rattle.h26x_transmission.specs.Transmissions.{AreSent, IsSentCall, AreTaken, IsLeftOver, IsBrokenIfErr, IsStoppedIfErr, AreMade, IsMadeText, IsFresh, AreCarriedWhole, next_calls, OfCarried, HaveDonsInOrder, HaveKeyUnitsDetected};
ghost use Rattle.h26x_model.specs.Carry.Laws.{AreCallsCarried};

use crate::carried::{Carried, Marks, Packets};
use crate::depacketizer::CodecDepacketizer;
use crate::laws::{depacketizer_states, packetizer_states};
use crate::packetizer::CodecPacketizer;
use h26x_core::{CodecExtra, Depacketizer, PacketError, Packetizer};
use h26x_model::laws;
use std::alloc::Global;

/// Gives packets to a depacketizer in order, up to the first that is refused.
pub(crate) fn deliver(
    d: &mut CodecDepacketizer,
    packets: &[Vec<u8>],
    out: &mut Vec<u8>,
    extra: &mut CodecExtra,
) -> Result<(), PacketError>
    ensures taken { OfDepacketization d.old out.old.items extra.old
        (λ w. IfOk result (λ done. codec_depacketization d.new out.new.items extra.new ≡ Some
        (after_packets w (contents packets.now)))) }
    ensures stopped { OfDepacketization d.old out.old.items extra.old
        (λ w. IfErr result (λ error. IsLeftOver w (contents packets.now) error
        (codec_depacketization d.new out.new.items extra.new))) }
    ensures kept { IsFrontOf out.old.items out.new.items }
{
    depacketizer_states(d);
    laws::depacketizers_go_on();
    for packet in packets {
        d.depacketize(packet, out, extra)?;
    }
    Ok(())
}

/// One call through both endpoints. The answer is whether it was made; its packets come behind
/// `packets` once all of them were taken.
fn carry_call(
    p: &mut CodecPacketizer,
    d: &mut CodecDepacketizer,
    mtu: usize,
    payload: &[u8],
    packets: &mut Vec<Vec<u8>>,
    out: &mut Vec<u8>,
    extra: &mut CodecExtra,
) -> Result<bool, PacketError>
    ensures sent { OfPacketizer p.old
        (λ s. IsSentCall s (next_call s mtu payload.now) result (contents packets.old.items)
        (contents packets.new.items) (codec_packetizer_state p.new)) }
    ensures taken { OfDepacketization d.old out.old.items extra.old
        (λ w. IfOk result (λ made.
        AreTaken w (contents packets.old.items) (contents packets.new.items)
        (codec_depacketization d.new out.new.items extra.new))) }
    ensures stopped { WhereBoth (codec_packetizer_state p.old)
        (codec_depacketization d.old out.old.items extra.old)
        (λ s w. IfErr result (λ error.
        IsLeftOver w (call_packets s (next_call s mtu payload.now)) error
        (codec_depacketization d.new out.new.items extra.new))) }
    ensures kept { IsFrontOf out.old.items out.new.items }
{
    depacketizer_states(d);
    laws::depacketizers_go_on();
    match p.packetize(mtu, payload) {
        Ok(mut made) => {
            packets.reserve(made.len())?;
            deliver(d, &made, out, extra)?;
            packets.append(&mut made).unwrap();
            Ok(true)
        }
        Err(_) => Ok(false),
    }
}

/// Calls through both endpoints, one after the other, up to the first packet that is refused.
fn carry_calls(
    alloc: Global,
    p: &mut CodecPacketizer,
    d: &mut CodecDepacketizer,
    calls: &[(usize, Vec<u8>)],
    out: &mut Vec<u8>,
    extra: &mut CodecExtra,
) -> Result<Carried, PacketError>
    ensures each { IfOk result (λ carried. length carried.made ≡ length calls.now) }
    ensures sent { OfPacketizer p.old
        (λ s. IfOk result (λ carried. AreSent s (next_calls s calls.now) carried.made
        carried.packets (codec_packetizer_state p.new))) }
    ensures taken { OfDepacketization d.old out.old.items extra.old
        (λ w. IfOk result (λ carried. codec_depacketization d.new out.new.items extra.new
        ≡ Some (after_packets w carried.packets))) }
    ensures stopped { WhereBoth (codec_packetizer_state p.old)
        (codec_depacketization d.old out.old.items extra.old)
        (λ s w. IsBrokenIfErr s w (next_calls s calls.now) result (codec_packetizer_state p.new)
        (codec_depacketization d.new out.new.items extra.new)) }
    ensures kept { IsFrontOf out.old.items out.new.items }
{
    packetizer_states(p);
    depacketizer_states(d);
    laws::packetizers_go_on();
    laws::depacketizers_go_on();
    let mut packets = Vec::new(alloc);
    let mut made = Vec::with_capacity(alloc, calls.len())?;
    for (mtu, payload) in calls {
        let was_made = carry_call(p, d, *mtu, payload, &mut packets, out, extra)?;
        made.push(was_made).unwrap();
    }
    Ok(Carried {
        packets: Packets::from_vec(packets),
        made: Marks::from_vec(made),
    })
}

/// Gives calls to a packetizer, each its `mtu` in bytes and its payload, and the packets of each to
/// a depacketizer, before the next call.
///
/// A call for which memory lacks is marked as not made, and the transmission goes on. The first
/// packet that is refused ends it with its error. Room for the marks is taken first, and room for
/// the packets of a call before any of them is given on; where there is none the error is
/// `OutOfMemory`. After any error `out` and `extra` are what a front of the packets brought, `d`
/// stands behind that front and `p` behind the calls made.
///
/// ```rust
/// let mut p = CodecPacketizer::new(alloc, Codec::H264);
/// let mut d = CodecDepacketizer::new(alloc, Codec::H264);
/// let carried = carry(alloc, &mut p, &mut d, &[(1200, frame)], &mut out, &mut extra)?;
/// ```
pub fn carry(
    alloc: Global,
    p: &mut CodecPacketizer,
    d: &mut CodecDepacketizer,
    calls: &[(usize, Vec<u8>)],
    out: &mut Vec<u8>,
    extra: &mut CodecExtra,
) -> Result<Carried, PacketError>
    // What is made, whatever waited and whatever the next decoding order number was: one mark a
    // call, true for each without effect; the packets of the plan of the sets that waited and the
    // made calls' units, numbered on; call by call, each within its call's limit; and what waits
    // afterwards.
    ensures each { IfOk result (λ carried. length carried.made ≡ length calls.now) }
    ensures made { OfPacketizer p.old
        (λ s. IfOk result (λ carried. AreMade s.format carried.made (next_calls s calls.now))) }
    ensures packets { OfCarried p.old calls.now result
        (λ s made packets. packets ≡ calls_packets s made) }
    ensures within { OfCarried p.old calls.now result
        (λ s made packets. AreWithinLimits s made packets) }
    ensures waits { OfCarried p.old calls.now result
        (λ s made packets. codec_packetizer_state p.new ≡ Some (after_calls s made)) }

    // A unit that is fragmented takes the fewest fragments that any rival could.
    ensures fewest { OfPacketizer p.old (λ s. TakesFewestFragments s.format) }

    // Where packets can carry each unit sent, whatever run was open: what is sent is written, and
    // nothing else; its numbers are in order; its key units are detected.
    ensures whole { OfBoth p.old d.old
        (λ s r. r.format ≡ s.format → IfOk result (λ carried.
        IsMadeText s (depacketization r out.old.items extra.old) carried.made
        (next_calls s calls.now) out.new.items extra.new)) }
    ensures dons { OfCarried p.old calls.now result
        (λ s made packets. AreCallsCarried s made → HaveDonsInOrder s made) }
    ensures detected { OfCarried p.old calls.now result
        (λ s made packets. AreCallsCarried s made → HaveKeyUnitsDetected s made) }

    // Whatever the packets are: all of them were taken; where no run was open what is received of
    // them is written.
    ensures taken { OfDepacketizer d.old
        (λ r. IfOk result (λ carried. codec_depacketization d.new out.new.items extra.new
        ≡ Some (after_packets (depacketization r out.old.items extra.old) carried.packets))) }
    ensures any { OfDepacketizer d.old
        (λ r. r.run ≡ None → IfOk result (λ carried.
        AreWritten (depacketization r out.old.items extra.old)
        (received (map r.format.read carried.packets)) out.new.items extra.new)) }

    // After a refusal: what a front of the packets wrote, in which call it stopped, and why.
    ensures stopped { OfBoth p.old d.old
        (λ s r. IsStoppedIfErr s r out.old.items extra.old (next_calls s calls.now) result
        (codec_packetizer_state p.new) (codec_depacketization d.new out.new.items extra.new)) }
    ensures kept { IsFrontOf out.old.items out.new.items }

    // The headline, for a fresh pair.
    ensures headline { (s : PacketizerState) (r : DepacketizerState) →
        codec_packetizer_state p.old ≡ Some s →
        codec_depacketizer_state d.old ≡ Some r → IsFresh s → r.run ≡ None → r.format ≡ s.format →
        extra.old ≡ extras.None →
        IfOk result (λ carried. AreCarriedWhole s (depacketization r out.old.items extra.old)
        (keep carried.made (next_calls s calls.now)) carried.packets out.new.items extra.new) }
{
    packetizer_states(p);
    depacketizer_states(d);
    laws::packetizers_go_on();
    laws::depacketizers_go_on();
    laws::what_calls_send_is_carried();
    laws::plans_unit_by_unit();
    laws::fewest_fragments();
    carry_calls(alloc, p, d, calls, out, extra)
}
