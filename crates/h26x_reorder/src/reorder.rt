//! A list of packets, put in the order of their sequence numbers.

ghost use Rattle.std.specs.Prelude.{◌≡◌, ◌+◌, ◌^◌, ◌<◌, ◌≤◌, ◌++◌, IfOk, OnOk, map, length, vec_len, vec_capacity};
ghost use Rattle.h26x_reorder.specs.ReorderBuffer.{numbered_packet, after_push, ready_packets, without_ready, reordered, IsPutInOrder};

use crate::buffer::HeldPacket;
use crate::order::NumberOrder;
use crate::packet::RtpPacket;
use std::alloc::{AllocError, Global};

/// Takes a packet.
#[inline]
fn push<'a, 'b>(
    order: &mut NumberOrder<&'a RtpPacket<'b>>,
    packet: &'a RtpPacket<'b>,
) -> Result<(), AllocError>
    ensures after { OnOk result (order.new ≡ after_push order.old packet.now) }
    ensures one_more { length order.new.held ≤ length order.old.held + 1 }
{
    if let Ok((due, place)) = order.place_of(packet.sequence) {
        order.put(due, place, packet)?;
    }
    Ok(())
}

/// Appends every packet that may go.
#[inline]
fn pop_ready<'a, 'b>(order: &mut NumberOrder<&'a RtpPacket<'b>>, out: &mut Vec<&'a RtpPacket<'b>>)
    requires { vec_len out.old + length order.old.held ≤ vec_capacity out.old }
    ensures packets { map (λ p. p.now) out.new.items ≡ map (λ p. p.now) out.old.items
        ++ ready_packets order.old.window order.old.due order.old.held }
    ensures after { order.new ≡ without_ready order.old.window order.old.due order.old.held }
    ensures len { vec_len out.new + length order.new.held ≤ vec_len out.old + length order.old.held }
    ensures capacity { vec_capacity out.old ≤ vec_capacity out.new }
{
    while let Some(packet) = order.pop() {
        out.push(packet).unwrap();
    }
}

/// Appends every packet that is held.
fn pop_all<'a, 'b>(order: &mut NumberOrder<&'a RtpPacket<'b>>, out: &mut Vec<&'a RtpPacket<'b>>)
    requires { vec_len out.old + length order.old.held ≤ vec_capacity out.old }
    ensures packets { map (λ p. p.now) out.new.items
        ≡ map (λ p. p.now) out.old.items ++ order.old.held }
{
    while let Some(packet) = order.pop_first() {
        out.push(packet).unwrap();
    }
}

/// Puts packets in the order of their sequence numbers, as [`reorder_all`] does, and copies none.
pub fn ordered<'a, 'b>(
    alloc: Global,
    window: u16,
    packets: &'a [RtpPacket<'b>],
) -> Result<Vec<&'a RtpPacket<'b>>, AllocError>
    requires some { 0 < window }
    requires half { window ≤ 2 ^ 14 }
    ensures { IfOk result (λ out. map (λ p. p.now) out.items ≡ reordered window packets.now) }
{
    let mut order = NumberOrder::new(alloc, window);
    let mut out = Vec::with_capacity(alloc, packets.len())?;
    for packet in packets {
        push(&mut order, packet)?;
        pop_ready(&mut order, &mut out);
    }
    pop_all(&mut order, &mut out);
    Ok(out)
}

/// Puts packets in the order of their sequence numbers through a buffer with this window, 1 to 2^14:
/// those that come late or twice are left out.
pub fn reorder_all(
    alloc: Global,
    window: u16,
    packets: &[RtpPacket<'_>],
) -> Result<Vec<HeldPacket>, AllocError>
    requires some { 0 < window }
    requires half { window ≤ 2 ^ 14 }

    // Any packets whatever.
    ensures packets { IfOk result (λ out. map numbered_packet out.items
        ≡ reordered window packets.now) }

    // Where they are those of any packets sent that a network brings, reordered within the window:
    // what came, each once, in the order of sending.
    ensures in_order { IfOk result (λ out. IsPutInOrder window packets.now
        (map numbered_packet out.items)) }
{
    let ordered = ordered(alloc, window, packets)?;
    let mut out = Vec::with_capacity(alloc, ordered.len())?;
    for packet in &ordered {
        out.push(HeldPacket::copy(alloc, packet.sequence, packet)?)
            .unwrap();
    }
    Ok(out)
}
