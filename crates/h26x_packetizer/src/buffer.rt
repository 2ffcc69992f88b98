//! Packets behind each other in one buffer.

ghost use Rattle.std.specs.Prelude.{◌≡◌, ◌≤◌, ◌<◌, ◌+◌, ◌-◌, ◌++◌, ◌*◌, max, nat_eq, replicate, vec_len, vec_capacity, ◌∷◌, [], take, length, get_or, OnOk, OnErr, IsOk, IsTrue, ◌↔◌};
ghost use Rattle.std.specs.List.{between};
ghost use Rattle.h26x_packetizer.specs.Buffer.{IsBuffer, HoldPackets, HoldHeadrooms, packet_ends, last_end, packets_from, headrooms_from, first_packets, with_packets, with_memory, IsMemoryFor, IsMemoryWith, headed_at};
ghost use Rattle.h26x_packetizer.specs.Sending.{packet_bytes, contents};

mod cases;
mod loan;
pub mod memory;

use self::memory::{BufferMemory, is_at_most, make_room};
use crate::body::{Body, put_packet};
use crate::buffer_packets::BufferPackets;
use crate::sink::PacketSink;
use std::alloc::{AllocError, Global};
use std::marker::Model;
use std::mem;

/// How many packets' ends a buffer has room for at first.
const FIRST_ENDS: usize = 8;

/// Packets behind each other in one buffer, and before each so many bytes that are free for the
/// headers of the layers below (as of RTP, RFC 3550, 5.1). A buffer that is cleared keeps its
/// memory.
#[derive(Debug, Drop)]
pub struct PacketBuffer {
    bytes: Vec<u8>,
    ends: Vec<usize>,
    headroom: usize,
}

impl Model for PacketBuffer {
    ghost use Rattle.std.specs.Prelude.{vec_capacity};
    ghost use Rattle.h26x_packetizer.specs.Buffer.{PacketBufferView, IsBuffer, buffer_of};

    ghost Value = { PacketBufferView };

    ghost view = { λ a. buffer_of a.headroom a.bytes.items a.ends.items record {
      bytes = vec_capacity a.bytes;
      ends = vec_capacity a.ends;
    } };

    ghost invariant = { λ a. IsBuffer a.headroom a.bytes.items a.ends.items };
}

/// Where the first so many packets end.
fn end_of_first(ends: &[usize], count: usize) -> usize
    requires { count ≤ length ends.now }
    ensures { result ≡ last_end 0 (take count ends.now) }
{
    if count == 0 { 0 } else { ends[count - 1] }
}

/// Where the packet at a place begins and ends.
fn bounds_of(headroom: usize, bytes: &[u8], ends: &[usize], place: usize) -> (usize, usize)
    requires buffer { IsBuffer headroom bytes.now ends.now }
    requires place { place < length ends.now }
    ensures start { result.0 ≡ last_end 0 (take place ends.now) + headroom }
    ensures order { result.0 ≤ result.1 }
    ensures within { result.1 ≤ length bytes.now }
    ensures packet { get_or (packets_from headroom 0 bytes.now ends.now) place []
        ≡ between result.0 result.1 bytes.now }
    ensures headroom { get_or (headrooms_from headroom 0 bytes.now ends.now) place []
        ≡ between (result.0 - headroom) result.0 bytes.now }
{
    let end = ends[place];
    let start = end_of_first(ends, place) + headroom;
    (start, end)
}

impl PacketBuffer {
    /// A buffer without packets, with so many free bytes before each; its memory comes from
    /// `alloc`.
    pub fn new(alloc: Global, headroom: usize) -> Self
        ensures packets { result.packets ≡ [] }
        ensures headrooms { result.headrooms ≡ [] }
        ensures headroom { result.headroom ≡ headroom }
    {
        PacketBuffer {
            bytes: Vec::new(alloc),
            ends: Vec::new(alloc),
            headroom,
        }
    }

    /// Whether it holds none.
    pub fn is_empty(&self) -> bool
        ensures { result ≡ nat_eq (length self.now.packets) 0 }
    {
        self.ends.is_empty()
    }

    /// How many packets it holds.
    pub fn len(&self) -> usize
        ensures packets { result ≡ length self.now.packets }
        ensures headrooms { result ≡ length self.now.headrooms }
    {
        self.ends.len()
    }

    /// For how much it has memory.
    pub fn memory(&self) -> BufferMemory
        ensures { result ≡ self.now.memory }
    {
        BufferMemory {
            bytes: self.bytes.capacity(),
            ends: self.ends.capacity(),
        }
    }

    /// Whether it has no more memory than what stands in it may take, where it had so much before.
    fn is_within(&self, before: BufferMemory) -> bool
        ensures { IsTrue result ↔ IsMemoryFor self.now.headroom self.now.packets before
            self.now.memory }
    {
        is_at_most(self.bytes.capacity(), before.bytes, self.bytes.len())
            && is_at_most(
                self.ends.capacity(),
                before.ends,
                self.ends.len() + FIRST_ENDS,
            )
    }

    /// The bytes that are free before each packet.
    pub fn headroom(&self) -> usize
        ensures { result ≡ self.now.headroom }
    {
        self.headroom
    }

    /// The packet at a place.
    pub fn packet(&self, place: usize) -> &[u8]
        requires { place < length self.now.packets }
        ensures { result.now ≡ get_or self.now.packets place [] }
    {
        let (start, end) = bounds_of(self.headroom, &self.bytes, &self.ends, place);
        &self.bytes[start..end]
    }

    /// The packet at a place behind its headroom.
    pub fn with_headroom(&self, place: usize) -> &[u8]
        requires { place < length self.now.packets }
        ensures { result.now ≡ get_or self.now.headrooms place []
            ++ get_or self.now.packets place [] }
    {
        let (start, end) = bounds_of(self.headroom, &self.bytes, &self.ends, place);
        &self.bytes[start - self.headroom..end]
    }

    /// The packets, in order.
    pub fn iter(&self) -> BufferPackets<'_>
        ensures { result ≡ self.now.packets }
    {
        BufferPackets::new(&self.bytes, &self.ends, self.headroom)
    }

    /// All bytes as they lie: the packets behind each other, each behind its headroom.
    pub fn bytes(&self) -> &[u8]
        ensures packets { HoldPackets self.now.headroom self.now.packets result.now }
        ensures headrooms { HoldHeadrooms self.now.headroom self.now.packets self.now.headrooms
            result.now }
    {
        &self.bytes
    }

    /// The places of [`bytes`](PacketBuffer::bytes) where packets end. Each begins where the one
    /// before it ends, with its headroom.
    pub fn packet_ends(&self) -> &[usize]
        ensures { result.now ≡ packet_ends self.now.headroom 0 self.now.packets }
    {
        &self.ends
    }

    /// Writes a header right before the packet at a place, over the last bytes of its headroom; all
    /// else stays, and the headrooms of the other packets.
    pub fn write_header(&mut self, place: usize, header: &[u8])
        requires place { place < length self.old.packets }
        requires room { length header.now ≤ self.old.headroom }
        ensures { self.new ≡ record self.old {
          headrooms = headed_at place header.now self.old.headrooms;
        } }
    {
        let (start, _) = bounds_of(self.headroom, &self.bytes, &self.ends, place);
        self.bytes[start - header.len()..start].copy_from_slice(header);
    }

    /// Keeps the first so many packets with their headrooms, in the same memory.
    pub fn truncate(&mut self, count: usize)
        ensures { self.new ≡ first_packets count self.old }
    {
        if count < self.ends.len() {
            self.bytes.truncate(end_of_first(&self.ends, count));
            self.ends.truncate(count);
        }
    }

    /// Drops every packet, and keeps the memory.
    pub fn clear(&mut self)
        ensures { self.new ≡ record self.old { packets = []; headrooms = [] } }
    {
        self.bytes.clear();
        self.ends.clear();
    }

    /// Appends a packet of these parts, one behind the other, behind a headroom of zeros.
    #[inline(always)]
    fn push_parts(&mut self, header: &[u8], donl: &[u8], body: Body<'_>) -> Result<(), AllocError>
        ensures pushed { OnOk result (self.new ≡ with_packets self.old
            (packet_bytes header.now donl.now body.entry ∷ []) self.new.memory) }
        ensures kept { OnErr result (self.new ≡ with_memory self.old self.new.memory) }
        ensures bounded { OnErr result (IsMemoryFor self.old.headroom self.old.packets
            self.old.memory self.new.memory) }
    {
        let len = header
            .len()
            .saturating_add(donl.len())
            .saturating_add(body.len());
        make_room(&mut self.ends, 1, FIRST_ENDS)?;
        make_room(&mut self.bytes, self.headroom.saturating_add(len), 0)?;
        put_packet(self.headroom, header, donl, body, &mut self.bytes);
        self.ends.push(self.bytes.len()).unwrap();
        Ok(())
    }

    /// Appends a packet behind its headroom, which is of zeros. Only want of memory refuses it, and
    /// leaves the packets. Memory grows to twice what it was, and only where there is none left.
    pub fn push(&mut self, packet: &[u8]) -> Result<(), AllocError>
        ensures pushed { OnOk result (self.new
            ≡ with_packets self.old (packet.now ∷ []) self.new.memory) }
        ensures kept { OnErr result (self.new ≡ with_memory self.old self.new.memory) }
        ensures bounded { OnOk result (IsMemoryWith self.old (packet.now ∷ []) self.new.memory) }
    {
        let mut made = Appending::from_buffer(*self.bytes.allocator(), self);
        match made.push_packet(packet) {
            Ok(()) => made.finish(self),
            Err(e) => {
                made.give_up(self);
                Err(e)
            }
        }
    }

    /// Appends packets, each behind its headroom of zeros: all of them, or none where memory lacks.
    pub fn push_all(&mut self, packets: &[Vec<u8>]) -> Result<(), AllocError>
        ensures pushed { OnOk result (self.new
            ≡ with_packets self.old (contents packets.now) self.new.memory) }
        ensures kept { OnErr result (self.new ≡ with_memory self.old self.new.memory) }
        ensures bounded { OnOk result (IsMemoryWith self.old (contents packets.now)
            self.new.memory) }
    {
        let mut made = Appending::from_buffer(*self.bytes.allocator(), self);
        match made.push_packets(packets) {
            Ok(()) => made.finish(self),
            Err(e) => {
                made.give_up(self);
                Err(e)
            }
        }
    }

    /// Reserves room for so many packets more, but none for their bytes.
    pub fn reserve(&mut self, count: usize) -> Result<(), AllocError>
        ensures same { self.new ≡ with_memory self.old
            (record self.old.memory { ends = self.new.memory.ends }) }
        ensures room { OnOk result (length self.old.packets + count ≤ self.new.memory.ends) }
        ensures bounded { self.new.memory.ends ≤ max self.old.memory.ends
            (2 * (length self.old.packets + max count 8)) }
    {
        make_room(&mut self.ends, count, FIRST_ENDS)
    }
}

/// A buffer to which packets are appended, and how many and how much memory it had before.
#[derive(Drop)]
pub(crate) struct Appending {
    buffer: PacketBuffer,
    first: usize,
    memory: BufferMemory,
}

impl Model for Appending {
    ghost use Rattle.h26x_packetizer.specs.Buffer.{AppendedView, IsAppending, appended_view};

    ghost Value = { AppendedView };

    ghost view = { λ a. appended_view a.buffer a.first a.memory };

    ghost invariant = { λ a. IsAppending a.buffer a.first a.memory };
}

impl Appending {
    /// The buffer, removed from its place, with nothing appended yet; an empty one stands there.
    pub(crate) fn from_buffer(alloc: Global, into: &mut PacketBuffer) -> Self
        ensures before { result.before ≡ into.old }
        ensures after { result.after ≡ [] }
    {
        let headroom = into.headroom();
        let buffer = mem::replace(into, PacketBuffer::new(alloc, headroom));
        let first = buffer.len();
        let memory = buffer.memory();
        Appending {
            buffer,
            first,
            memory,
        }
    }

    /// Appends a packet.
    fn push_packet(&mut self, packet: &[u8]) -> Result<(), AllocError>
        ensures pushed { OnOk result (self.new.after ≡ self.old.after ++ packet.now ∷ []) }
        ensures before { self.new.before ≡ self.old.before }
    {
        self.buffer.push_parts(&[], &[], Body::Data(packet))
    }

    /// Appends packets.
    fn push_packets(&mut self, packets: &[Vec<u8>]) -> Result<(), AllocError>
        ensures pushed { OnOk result (self.new.after ≡ self.old.after ++ contents packets.now) }
        ensures before { self.new.before ≡ self.old.before }
    {
        for packet in packets {
            self.push_packet(packet)?;
        }
        Ok(())
    }

    /// Puts the buffer in its place, with what was appended; as it was where it has more memory than it
    /// may, which is want of memory.
    pub(crate) fn finish(self, into: &mut PacketBuffer) -> Result<(), AllocError>
        ensures appended { OnOk result (into.new
            ≡ with_packets self.before self.after into.new.memory) }
        ensures bounded { OnOk result (IsMemoryWith self.before self.after into.new.memory) }
        ensures kept { OnErr result (into.new ≡ with_memory self.before into.new.memory) }
        ensures free { self.after ≡ [] → IsOk result }
    {
        if self.buffer.is_within(self.memory) {
            *into = self.buffer;
            Ok(())
        } else {
            self.give_up(into);
            Err(AllocError)
        }
    }

    /// Puts the buffer in its place, as it was.
    pub(crate) fn give_up(self, into: &mut PacketBuffer)
        ensures { into.new ≡ with_memory self.before into.new.memory }
    {
        let mut buffer = self.buffer;
        buffer.truncate(self.first);
        *into = buffer;
    }
}

impl<'a> PacketSink<'a> for Appending {
    ghost packets = { λ appending. appending.after };

    ghost before = { λ appending. appending.before };

    #[inline(always)]
    fn push(&mut self, header: &[u8], donl: &[u8], body: Body<'a>) -> Result<(), AllocError> {
        self.buffer.push_parts(header, donl, body)
    }

    /// None: the buffer grows with its packets, and so has no memory for those that don't come.
    #[inline(always)]
    fn reserve(&mut self, _count: usize) -> Result<(), AllocError> {
        Ok(())
    }
}
