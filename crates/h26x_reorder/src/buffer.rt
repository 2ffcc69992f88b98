//! A buffer for packets that come before earlier ones.

ghost use Rattle.std.specs.Prelude.{◌≡◌, ◌+◌, ◌^◌, ◌<◌, ◌≤◌, ◌==◌, if◌then◌else◌, true, false, ℕ, Ok, None, Some, IfOk, IfErr, OnOk, OnErr, is_some, length, slice_get, slice_index_or};
ghost use Rattle.std.specs.Option.{option_map};
ghost use Rattle.h26x_reorder.specs.Rtp.{RtpBody};
ghost use Rattle.h26x_reorder.specs.ReorderBuffer.{BufferState, numbered_packet, fresh_buffer, begun_at, with_window, goes_straight, newest_of, is_beyond, are_beyond, push_answer, after_push, next_packet, without_first, first_number};
ghost use Rattle.h26x_reorder.specs.ReorderBuffer as spec;

use crate::order::NumberOrder;
use crate::packet::RtpPacket;
use crate::pushed::Pushed;
use crate::spare::SparePayloads;
use std::alloc::{AllocError, Global};
use std::marker::Model;

/// A packet with memory of its own: one that a buffer holds, or gave out.
#[derive(Debug, Drop)]
pub struct HeldPacket {
    /// Its sequence number.
    pub sequence: u16,
    /// Its timestamp.
    pub timestamp: u32,
    /// Its marker bit.
    pub marker: bool,
    /// Its payload.
    pub payload: Vec<u8>,
}

impl HeldPacket {
    /// A packet in the caller's own memory, which is not copied.
    pub fn new(sequence: u16, timestamp: u32, marker: bool, payload: Vec<u8>) -> Self
        ensures { result ≡ record {
          sequence = sequence;
          timestamp = timestamp;
          marker = marker;
          payload = payload;
        } }
    {
        HeldPacket {
            sequence,
            timestamp,
            marker,
            payload,
        }
    }

    /// The memory of its payload, for another packet.
    pub fn into_payload(self) -> Vec<u8>
        ensures { result ≡ self.payload }
    {
        self.payload
    }

    /// A copy of a packet, with this sequence number.
    pub(crate) fn copy(
        alloc: Global,
        sequence: u16,
        packet: &RtpPacket<'_>,
    ) -> Result<Self, AllocError>
        ensures { IfOk result (λ held. numbered_packet held ≡ (sequence, packet.now.1)) }
    {
        Ok(HeldPacket {
            sequence,
            timestamp: packet.timestamp,
            marker: packet.marker,
            payload: Vec::from_slice(alloc, packet.payload)?,
        })
    }

    /// The packet, for a receiver.
    pub fn packet(&self) -> RtpPacket<'_>
        ensures { result ≡ numbered_packet self.now }
    {
        RtpPacket {
            sequence: self.sequence,
            timestamp: self.timestamp,
            marker: self.marker,
            payload: &self.payload,
        }
    }
}

/// A copy of a packet, in memory that is kept, where there is some.
#[inline]
fn copy_of(spare: &mut SparePayloads, packet: &RtpPacket<'_>) -> Result<HeldPacket, AllocError>
    ensures { IfOk result (λ held. numbered_packet held ≡ packet.now) }
{
    Ok(HeldPacket::new(
        packet.sequence,
        packet.timestamp,
        packet.marker,
        spare.copy(packet.payload)?,
    ))
}

/// Why a packet that was given to a buffer by value isn't held.
#[derive(Debug, Clone, Copy, PartialEq, Eq)]
pub enum NotHeldReason {
    /// Its number is so far behind the one that is due.
    Late(u16),

    /// A packet with its number is held.
    Twice,

    /// There is no memory for one more place. It can be given again.
    OutOfMemory,
}

/// Why a packet isn't held for which this is answered: where it would be held, memory lacks.
fn reason_of(answer: Pushed) -> NotHeldReason
    ensures { result ≡ spec.reason_of answer }
{
    match answer {
        Pushed::Held => NotHeldReason::OutOfMemory,
        Pushed::Late(count) => NotHeldReason::Late(count),
        Pushed::Twice => NotHeldReason::Twice,
    }
}

/// A packet that was given to a buffer by value and isn't held, as it was given.
#[derive(Debug, Drop)]
pub struct NotHeld {
    /// The packet.
    pub packet: HeldPacket,
    /// Why it isn't held.
    pub reason: NotHeldReason,
}

/// Holds packets that came before earlier ones until those have come, or until a window of packets
/// has passed (a jitter buffer), and gives them out in the order of their sequence numbers of RTP
/// (RFC 3550, 5.1), each once.
///
/// ```rust
/// let mut buffer = ReorderBuffer::new(alloc, 64);
/// buffer.push(&packet)?;
/// while let Some(held) = buffer.pop() {
///     assembler.receive(&held.packet(), &mut units)?;
/// }
/// ```
///
/// A packet in memory of its own is taken by value, and copied nowhere; its memory comes back with
/// it, for the next datagram:
///
/// ```rust
/// let len = socket.recv(&mut memory)?;
/// let packet = HeldPacket::new(sequence, timestamp, marker, memory);
/// if let Err(not_held) = buffer.push_held(packet) {
///     memories.push(not_held.packet.into_payload())?;
/// }
/// while let Some(held) = buffer.pop() {
///     assembler.receive(&held.packet(), &mut units)?;
///     memories.push(held.into_payload())?;
/// }
/// ```
#[derive(Debug, Drop)]
pub struct ReorderBuffer {
    held: NumberOrder<HeldPacket>,
    spare: SparePayloads,
}

impl Model for ReorderBuffer {
    ghost Value = { BufferState RtpBody };

    ghost view = { λ b. b.held };
}

impl ReorderBuffer {
    /// A buffer with a window of so many packets, 1 to 2^14: one that comes after another that was
    /// sent so many or more behind it may be late. It takes any sequence number as the first.
    ///
    /// Of a stream that begins, packets are held until a window of them has come, since those sent
    /// before the first that came may still come.
    pub fn new(alloc: Global, window: u16) -> Self
        requires some { 0 < window }
        requires half { window ≤ 2 ^ 14 }
        ensures { result ≡ fresh_buffer window }
    {
        ReorderBuffer {
            held: NumberOrder::new(alloc, window),
            spare: SparePayloads::none(alloc),
        }
    }

    /// Has a window of so many packets from now on, 1 to 2^14.
    pub fn set_window(&mut self, window: u16)
        requires some { 0 < window }
        requires half { window ≤ 2 ^ 14 }
        ensures { self.new ≡ with_window window self.old }
    {
        self.held.set_window(window);
    }

    /// How many packets it holds.
    pub fn len(&self) -> usize
        ensures { result ≡ length self.now.held }
    {
        self.held.len()
    }

    /// Whether it holds none.
    #[inline]
    pub fn is_empty(&self) -> bool
        ensures { result ≡ (length self.now.held == 0) }
    {
        self.held.is_empty()
    }

    /// The number that is due: the next one to go where none is missing. None before a packet came.
    #[inline]
    pub fn due(&self) -> Option<u16>
        ensures { result ≡ self.now.due }
    {
        self.held.due()
    }

    /// Has this number due, where no packet came: a peer tells the number of its first packet, as in
    /// the RTP-Info of RTSP (RFC 2326, 12.33). Once one came nothing changes.
    pub fn begin_at(&mut self, number: u16)
        ensures { self.new ≡ begun_at number self.old }
    {
        self.held.begin_at(number);
    }

    /// The first of the packets held, which stays: one that is taken elsewhere, where memory may lack,
    /// is looked at here and popped once it was taken.
    #[inline]
    pub fn first(&self) -> Option<&HeldPacket>
        ensures { option_map (λ p. numbered_packet p.now) result ≡ slice_get self.now.held 0 }
    {
        self.held.first()
    }

    /// The number of the packet at a place of those held, in their order, the first at 0.
    pub fn number_at(&self, place: usize) -> u16
        requires { place < length self.now.held }
        ensures { (d : ℕ × RtpBody) → result ≡ (slice_index_or self.now.held place d).0 }
    {
        self.held.number_at(place)
    }

    /// Whether the first of the packets held may go, so that `pop` gives it out.
    #[inline]
    pub fn is_ready(&self) -> bool
        ensures ready { result ≡ is_some (next_packet self.now) }

        // Where none may go, fewer are held than the window has.
        ensures few { result ≡ false → length self.now.held < self.now.window }
    {
        self.held.is_ready()
    }

    /// Whether the first of the packets held, which has this number, may go.
    #[inline]
    pub fn may_go(&self, first: u16) -> bool
        requires { first_number self.now.held ≡ Some first }
        ensures ready { result ≡ is_some (next_packet self.now) }

        // Where none may go, fewer are held than the window has.
        ensures few { result ≡ false → length self.now.held < self.now.window }
    {
        self.held.may_go(first)
    }

    /// Whether a packet with this number needn't be held: none is, and it is the one that is due. A
    /// caller who used it tells so by `pass`.
    #[inline]
    pub fn goes_straight(&self, number: u16) -> bool
        ensures { result ≡ goes_straight self.now number }
    {
        self.held.goes_straight(number)
    }

    /// The packet with this number, which needn't be held, was used: it is as if it had been pushed and
    /// popped. It takes no memory.
    #[inline]
    pub fn pass(&mut self, number: u16)
        requires { goes_straight self.old number ≡ true }
        ensures { (packet : RtpBody) → self.new
            ≡ without_first (after_push self.old (number, packet)) }
    {
        self.held.pass(number);
    }

    /// What is answered for a packet with this number: whether it would be held.
    pub fn answer_to(&self, number: u16) -> Pushed
        ensures { result ≡ push_answer self.now number }
    {
        match self.held.place_of(number) {
            Ok(_) => Pushed::Held,
            Err(answer) => answer,
        }
    }

    /// Takes a packet, and copies it. Without memory the buffer stays as it was, and the packet can be
    /// given again. One that is late or comes twice takes no memory.
    pub fn push(&mut self, packet: &RtpPacket<'_>) -> Result<Pushed, AllocError>
        ensures answer { IfOk result (λ answer. answer ≡ push_answer self.old packet.now.0) }
        ensures after { OnOk result (self.new ≡ after_push self.old packet.now) }
        ensures late { (n : ℕ) → result ≡ Ok (Pushed.Late n) → self.new ≡ self.old }
        ensures twice { result ≡ Ok Pushed.Twice → self.new ≡ self.old }

        // Only a packet that would be held is refused for want of memory.
        ensures wanted { OnErr result (push_answer self.old packet.now.0 ≡ Pushed.Held) }
        ensures kept { OnErr result (self.new ≡ self.old) }
        ensures one_more { length self.new.held ≤ length self.old.held + 1 }
    {
        match self.held.place_of(packet.sequence) {
            Ok((due, place)) => {
                let held = copy_of(&mut self.spare, packet)?;
                self.held.put(due, place, held)?;
                Ok(Pushed::Held)
            }
            Err(answer) => Ok(answer),
        }
    }

    /// Takes a packet that has memory of its own, and copies nothing of it. One that isn't held comes
    /// back as it was given, with the reason, and the buffer stays as it was.
    pub fn push_held(&mut self, packet: HeldPacket) -> Result<(), NotHeld>
        ensures held { OnOk result (push_answer self.old packet.sequence ≡ Pushed.Held) }
        ensures after { OnOk result (self.new ≡ after_push self.old (numbered_packet packet)) }
        ensures back { IfErr result (λ it. it.packet ≡ packet) }
        ensures reason { IfErr result (λ it. it.reason
            ≡ spec.reason_of (push_answer self.old packet.sequence)) }
        ensures kept { OnErr result (self.new ≡ self.old) }
        ensures one_more { length self.new.held ≤ length self.old.held + 1 }
    {
        match self.held.place_of(packet.sequence) {
            Ok((due, place)) => match self.held.put(due, place, packet) {
                Ok(()) => Ok(()),
                Err(refused) => Err(NotHeld {
                    packet: refused.value,
                    reason: NotHeldReason::OutOfMemory,
                }),
            },
            Err(answer) => Err(NotHeld {
                packet,
                reason: reason_of(answer),
            }),
        }
    }

    /// The number of the last of the packets held, or the one that is due where none is.
    pub fn newest(&self, due: u16) -> u16
        ensures { result ≡ newest_of due self.now.held }
    {
        self.held.newest(due)
    }

    /// Whether a number is ahead of all packets that are held, and not late. None is before a packet
    /// came.
    pub fn is_beyond(&self, number: u16) -> bool
        ensures beyond { result ≡ is_beyond self.now number }
        ensures held { result ≡ true → push_answer self.now number ≡ Pushed.Held }
    {
        self.held.is_beyond(number)
    }

    /// Whether two numbers, the second ahead of the first, are ahead of all packets that are held, and
    /// not late.
    pub fn are_beyond(&self, first: u16, second: u16) -> bool
        ensures { result ≡ are_beyond self.now first second }
    {
        self.held.are_beyond(first, second)
    }

    /// Takes two packets that come behind all others, and copies both. Without memory for both the
    /// buffer stays as it was.
    pub fn push_two(
        &mut self,
        first: &RtpPacket<'_>,
        second: &RtpPacket<'_>,
    ) -> Result<(), AllocError>
        requires { are_beyond self.old first.now.0 second.now.0 ≡ true }
        ensures after { OnOk result
            (self.new ≡ after_push (after_push self.old first.now) second.now) }
        ensures first { OnOk result (push_answer self.old first.now.0 ≡ Pushed.Held) }
        ensures second { OnOk result
            (push_answer (after_push self.old first.now) second.now.0 ≡ Pushed.Held) }
        ensures kept { OnErr result (self.new ≡ self.old) }
    {
        let first = copy_of(&mut self.spare, first)?;
        let second = copy_of(&mut self.spare, second)?;
        self.held.put_two(first, second)
    }

    /// The first of the packets held, if it may go: the one that is due, or one that the window has
    /// passed.
    pub fn pop(&mut self) -> Option<HeldPacket>
        ensures packet { option_map numbered_packet result ≡ next_packet self.old }
        ensures after { self.new ≡ (if is_some result then without_first self.old else self.old) }

        // Where none may go, fewer are held than the window has.
        ensures bounded { result ≡ None → length self.new.held < self.new.window }
    {
        self.held.pop()
    }

    /// The first of the packets held, whether it may go or not: at the end of a stream, or where the
    /// caller has waited long enough.
    pub fn pop_first(&mut self) -> Option<HeldPacket>
        ensures packet { option_map numbered_packet result ≡ slice_get self.old.held 0 }
        ensures after { self.new ≡ without_first self.old }
    {
        self.held.pop_first()
    }

    /// Takes back a packet that was given out, for its memory: a later one is copied there. That of 64
    /// is kept, each of 2048 bytes at most.
    #[inline]
    pub fn give_back(&mut self, packet: HeldPacket)
        ensures { self.new ≡ self.old }
    {
        self.spare.keep(packet.payload);
    }

    /// Drops what it holds, and takes any sequence number as the next: for a peer that begins anew,
    /// whose packets are late one after the other.
    pub fn restart(&mut self)
        ensures { self.new ≡ fresh_buffer self.old.window }
    {
        self.held.restart();
    }
}
