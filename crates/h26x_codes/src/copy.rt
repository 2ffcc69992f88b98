//! Copies into a caller's buffer.

ghost use Rattle.std.specs.Prelude.{◌≡◌, ◌≤◌, length, take, drop};
ghost use Rattle.std.specs.List.{concat};
ghost use Rattle.h26x_codes.specs.Copies.{with_front, with_first, without_room, end_offsets, AreMost, AreCopied};

use h26x_packetizer::PacketBuffer;
use std::{cmp, mem};

/// Copies bytes to the front of a buffer where there is room for them; how many they are.
pub fn copy_where_room(bytes: &[u8], to: &mut [u8]) -> usize
    ensures len { result ≡ length bytes.now }
    ensures copied { to.new ≡ with_front bytes.now to.old }
{
    let len = bytes.len();
    if len <= to.len() {
        to[..len].copy_from_slice(bytes);
    }
    len
}

/// Moves bytes to the front of a buffer where there is room for them, and else to a list, which is
/// empty otherwise; how many they are.
pub fn put_or_keep(bytes: &mut Vec<u8>, to: &mut [u8], kept: &mut Vec<u8>) -> usize
    ensures len { result ≡ length bytes.old.items }
    ensures put { to.new ≡ with_front bytes.old.items to.old }
    ensures kept { kept.new.items ≡ without_room bytes.old.items to.old }
{
    let len = copy_where_room(bytes, to);
    kept.clear();
    if len > to.len() {
        mem::swap(kept, bytes);
    }
    len
}

/// Copies the first entries to the front of a buffer, as many as there is room for; how many they
/// all are.
pub fn copy_first<T: Copy>(entries: &[T], to: &mut [T]) -> usize
    ensures count { result ≡ length entries.now }
    ensures copied { to.new ≡ with_first entries.now to.old }
{
    let len = cmp::min(entries.len(), to.len());
    to[..len].copy_from_slice(&entries[..len]);
    entries.len()
}

/// Where packets end that have no headroom.
pub fn packet_ends(packets: &PacketBuffer) -> &[usize]
    requires { packets.now.headroom ≡ 0 }
    ensures ends { result.now ≡ end_offsets 0 packets.now.packets }
    ensures count { length result.now ≡ length packets.now.packets }
{
    packets.packet_ends()
}

/// Where the packet at a place begins.
pub fn start_of(packets: &PacketBuffer, place: usize) -> usize
    requires headroom { packets.now.headroom ≡ 0 }
    requires place { place ≤ length packets.now.packets }
    ensures { result ≡ length (concat (take place packets.now.packets)) }
{
    if place == 0 {
        return 0;
    }
    packet_ends(packets)[place - 1]
}

/// The bytes of packets from a first one on, one behind the other.
pub fn bytes_from(packets: &PacketBuffer, first: usize) -> &[u8]
    requires headroom { packets.now.headroom ≡ 0 }
    requires first { first ≤ length packets.now.packets }
    ensures { result.now ≡ concat (drop first packets.now.packets) }
{
    &packets.bytes()[start_of(packets, first)..]
}

/// Writes where packets from a first one on end, counted from where it begins, as many as there is
/// room for; how many they are, and how many bytes they have.
fn copy_ends(
    packets: &PacketBuffer,
    first: usize,
    room: usize,
    ends: &mut [usize],
) -> (usize, usize)
    requires headroom { packets.now.headroom ≡ 0 }
    requires first { first ≤ length packets.now.packets }
    ensures most { AreMost (drop first packets.now.packets) room (length ends.old) result.0 }
    ensures len { result.1 ≡ length (concat (take result.0 (drop first packets.now.packets))) }
    ensures marked { ends.new ≡ with_front (end_offsets 0 (take result.0
        (drop first packets.now.packets))) ends.old }
{
    let start = start_of(packets, first);
    let from = &packet_ends(packets)[first..];
    let mut count = 0;
    let mut place = 0;
    while count < from.len() && count < ends.len() {
        let end = from[count] - start;
        if end > room {
            break;
        }
        ends[count] = end;
        place = end;
        count += 1;
    }
    (count, place)
}

/// Copies packets from a first one on to the front of a buffer, one behind the other, as many as
/// there is room for, and writes where each ends; how many they are. They stand so already, and all
/// that fit are copied at once.
pub fn copy_packets(
    packets: &PacketBuffer,
    first: usize,
    to: &mut [u8],
    ends: &mut [usize],
) -> usize
    requires { packets.now.headroom ≡ 0 }
    ensures { AreCopied (drop first packets.now.packets) to.old to.new ends.old ends.new result }
{
    if first > packets.len() {
        return 0;
    }
    let (count, len) = copy_ends(packets, first, to.len(), ends);
    to[..len].copy_from_slice(&bytes_from(packets, first)[..len]);
    count
}
