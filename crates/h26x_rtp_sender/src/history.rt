//! The last packets that were sent, by their numbers.

ghost use Rattle.std.specs.Prelude.{◌≡◌, ◌≤◌, ◌<◌, ◌+◌, ◌^◌, ◌++◌, ◌∷◌, [], drop, map, OnOk, OnErr};
ghost use Rattle.std.specs.Option.{option_map};
ghost use Rattle.std.specs.VecDeque.{deque_len, deque_capacity};
ghost use Rattle.h26x_rtp_sender.specs.Sent.{sent_view};
ghost use Rattle.h26x_rtp_sender.specs.History.{IsHistory, AreNumberedBefore, history_view, history_bytes, has_place, last_within, held_of};

use crate::sent::SentPacket;
use std::alloc::{AllocError, Global};
use std::collections::VecDeque;
use std::marker::Model;

/// How many packets are held at most: half of the circle of sequence numbers.
const MOST_PACKETS: usize = 0x8000;

/// The last packets that were sent, the oldest first, whose payloads have so many bytes at most.
#[derive(Debug, Drop)]
pub struct PacketHistory {
    bound: usize,
    /// How many bytes the payloads have.
    size: usize,
    packets: VecDeque<SentPacket>,
}

impl Model for PacketHistory {
    ghost use Rattle.std.specs.Prelude.{◌≡◌, ◌≤◌, map};
    ghost use Rattle.h26x_rtp_sender.specs.Sent.{sent_view};
    ghost use Rattle.h26x_rtp_sender.specs.History.{HistoryView, history_view, IsHistory};

    ghost Value = { HistoryView };

    ghost view = { λ a. history_view a.bound (map sent_view a.packets.items) };

    ghost invariant = { λ a. IsHistory a.bound a.size (map sent_view a.packets.items) };
}

/// Whether a packet of so many bytes more has a place.
fn has_place(bound: usize, size: usize, count: usize, more: usize) -> bool
    requires { size ≤ bound }
    ensures { result ≡ has_place bound size count more }
{
    more <= bound - size && count < MOST_PACKETS
}

/// Drops the oldest packet; how many bytes its payload had.
fn drop_oldest(packets: &mut VecDeque<SentPacket>) -> usize
    requires { 0 < deque_len packets.old }
    ensures rest { packets.new.items ≡ drop 1 packets.old.items }
    ensures len { deque_len packets.new + 1 ≡ deque_len packets.old }
    ensures capacity { deque_capacity packets.new ≡ deque_capacity packets.old }
    ensures size { history_bytes (map sent_view packets.old.items)
        ≡ result + history_bytes (map sent_view packets.new.items) }
{
    match packets.pop_front() {
        Some(packet) => packet.payload.len(),
        None => 0,
    }
}

/// Puts a packet behind the others, of which the oldest go until there is a place for it; how many
/// bytes the payloads have then.
fn hold(bound: usize, size: usize, packets: &mut VecDeque<SentPacket>, packet: SentPacket) -> usize
    requires size { size ≡ history_bytes (map sent_view packets.old.items) }
    requires within { size ≤ bound }
    requires room { deque_len packets.old < deque_capacity packets.old }
    ensures packets { map sent_view packets.new.items ≡ last_within bound
        (map sent_view packets.old.items ++ sent_view packet ∷ []) }
    ensures size { result ≡ history_bytes (map sent_view packets.new.items) }
    ensures within { result ≤ bound }
    ensures len { deque_len packets.new ≤ deque_len packets.old + 1 }
    ensures capacity { deque_capacity packets.new ≡ deque_capacity packets.old }
{
    let mut held = size;
    let more = packet.payload.len();
    while !packets.is_empty() && !has_place(bound, held, packets.len(), more) {
        held -= drop_oldest(packets);
    }
    if !has_place(bound, held, packets.len(), more) {
        return held;
    }
    packets.push_back_reserved(packet);
    held + more
}

/// Puts packets behind the others, each as `hold`; how many bytes the payloads have then.
fn hold_all(
    bound: usize,
    size: usize,
    packets: &mut VecDeque<SentPacket>,
    made: VecDeque<SentPacket>,
) -> usize
    requires held { IsHistory bound size (map sent_view packets.old.items) }
    requires room { deque_len packets.old + deque_len made ≤ deque_capacity packets.old }
    ensures packets { map sent_view packets.new.items ≡ last_within bound
        (map sent_view packets.old.items ++ map sent_view made.items) }
    ensures held { IsHistory bound result (map sent_view packets.new.items) }
{
    let mut held = size;
    let mut rest = made;
    while let Some(packet) = rest.pop_front() {
        held = hold(bound, held, packets, packet);
    }
    held
}

/// The packet of a number, of packets up to the one before `next`.
fn packet_of(packets: &VecDeque<SentPacket>, next: u16, number: u16) -> Option<&SentPacket>
    requires numbered { AreNumberedBefore next (map sent_view packets.now.items) }
    requires few { deque_len packets.now ≤ 2 ^ 15 }
    ensures { option_map (λ it. sent_view it.now) result
        ≡ held_of number (map sent_view packets.now.items) }
{
    let back = usize::from(next.wrapping_sub(number));
    if back == 0 || packets.len() < back {
        return None;
    }
    Some(&packets[packets.len() - back])
}

impl PacketHistory {
    /// None is held yet.
    pub(crate) fn new(alloc: Global, bound: usize) -> Self
        ensures { result ≡ history_view bound [] }
    {
        PacketHistory {
            bound,
            size: 0,
            packets: VecDeque::new(alloc),
        }
    }

    /// Takes packets behind the others, of which the last are held. Want of memory leaves all.
    pub(crate) fn take(&mut self, made: VecDeque<SentPacket>) -> Result<(), AllocError>
        ensures taken { OnOk result (self.new ≡ record self.old {
          packets = last_within self.old.bound (self.old.packets ++ map sent_view made.items);
        }) }
        ensures kept { OnErr result (self.new ≡ self.old) }
    {
        self.packets.reserve(made.len())?;
        self.size = hold_all(self.bound, self.size, &mut self.packets, made);
        Ok(())
    }

    /// The packet of a number, if it is held, where `next` is the number behind the last.
    pub(crate) fn find(&self, next: u16, number: u16) -> Option<&SentPacket>
        requires { AreNumberedBefore next self.now.packets }
        ensures { option_map (λ it. sent_view it.now) result
            ≡ held_of number self.now.packets }
    {
        packet_of(&self.packets, next, number)
    }
}
