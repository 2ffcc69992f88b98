//! Packets in memory of the caller.

ghost use Rattle.std.specs.Prelude.{◌≡◌, ◌<◌, ◌≤◌, ◌-◌, ◌^◌, ◌++◌, ◌∷◌, [], drop, length};
ghost use Rattle.h26x_packetizer.specs.Buffer.{packet_ends};
ghost use Rattle.h26x_packetizer.specs.Placement.{laid_size, packets_over, IsPlacement, IsSizeOf};

use crate::packet_parts::PacketParts;

/// How much memory packets take.
#[derive(Debug, Clone, Copy, PartialEq, Eq)]
pub struct PacketsSize {
    /// How many packets there are.
    pub packets: usize,
    /// Their bytes, with what is left free before each; the greatest number where they are more.
    pub bytes: usize,
}

/// What came of packets that were to go into memory of the caller.
#[derive(Debug, Clone, Copy, PartialEq, Eq)]
pub enum Placement {
    /// They stand there.
    Placed(PacketsSize),
    /// They don't fit, and nothing was done.
    NoRoom(PacketsSize),
}

/// How much memory packets take, each behind so many bytes.
pub(crate) fn size_of(packets: &[PacketParts<'_>], headroom: usize) -> PacketsSize
    ensures { IsSizeOf headroom packets.now result }
{
    let mut bytes: usize = 0;
    for packet in packets {
        bytes = bytes.saturating_add(headroom).saturating_add(packet.len());
    }
    PacketsSize {
        packets: packets.len(),
        bytes,
    }
}

/// Copies packets one behind the other to the front of memory, each behind so many bytes that stay,
/// and writes where each ends.
fn lay(packets: &[PacketParts<'_>], headroom: usize, to: &mut [u8], ends: &mut [usize])
    requires room { laid_size headroom packets.now ≤ length to.old }
    requires ends { length packets.now ≤ length ends.old }
    requires small { laid_size headroom packets.now < 2 ^ 64 - 1 }
    ensures laid { to.new ≡ packets_over headroom packets.now to.old }
    ensures ends { ends.new ≡ packet_ends headroom 0 packets.now ++ drop
        (length packets.now) ends.old }
{
    let mut count = 0;
    let mut place = 0;
    while count < packets.len() {
        let start = place + headroom;
        let end = start + packets[count].len();
        packets[count].copy_to(&mut to[start..end]);
        ends[count] = end;
        place = end;
        count += 1;
    }
}

/// Copies packets to the front of memory where they fit.
pub(crate) fn place(
    packets: &[PacketParts<'_>],
    headroom: usize,
    to: &mut [u8],
    ends: &mut [usize],
) -> Placement
    ensures { IsPlacement headroom packets.now to.old to.new ends.old ends.new result }
{
    let size = size_of(packets, headroom);
    if size.bytes > to.len() || size.packets > ends.len() {
        return Placement::NoRoom(size);
    }
    lay(packets, headroom, to, ends);
    Placement::Placed(size)
}

/// Copies a packet to the front of memory where it fits.
#[inline(always)]
pub(crate) fn place_one(
    packet: &PacketParts<'_>,
    headroom: usize,
    to: &mut [u8],
    ends: &mut [usize],
) -> Placement
    ensures { IsPlacement headroom (packet.now ∷ []) to.old to.new ends.old ends.new result }
{
    let end = headroom.saturating_add(packet.len());
    let size = PacketsSize {
        packets: 1,
        bytes: end,
    };
    if end > to.len() || ends.is_empty() {
        return Placement::NoRoom(size);
    }
    packet.copy_to(&mut to[headroom..end]);
    ends[0] = end;
    Placement::Placed(size)
}
