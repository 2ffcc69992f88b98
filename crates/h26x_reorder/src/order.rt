//! Packets in the order of their sequence numbers, until they may go.

ghost use Rattle.std.specs.Prelude.{◌≡◌, ◌+◌, ◌^◌, ◌<◌, ◌≤◌, ◌==◌, if◌then◌else◌, true, false, ℕ, IfOk, IfErr, OnOk, OnErr, None, Some, is_some, length, map, slice_get, slice_index_or};
ghost use Rattle.std.specs.Option.{option_map};
ghost use Rattle.h26x_core.specs.Sequence.{distance_ahead};
ghost use Rattle.h26x_reorder.specs.Rtp.{RtpBody};
ghost use Rattle.h26x_reorder.specs.NumberOrder.{IsPlaceOf, IsSearchResult};
ghost use Rattle.h26x_reorder.specs.ReorderBuffer.{fresh_buffer, begun_at, with_window, goes_straight, newest_of, is_beyond, are_beyond, push_answer, after_push, next_packet, without_first, first_number, AreHeldInOrder};

use crate::numbered::Numbered;
use crate::parted::Parted;
use crate::pushed::Pushed;
use h26x_core::is_next;
use std::alloc::{AllocError, AllocFailed, Global};
use std::marker::Model;

/// How far ahead of the number that is due a number is taken as behind it: half of the circle (RFC
/// 1982, 3.2).
const HALF: u16 = 0x8000;

/// Packets in the order of their numbers, each once, from one that is due on.
#[derive(Debug, Drop)]
pub(crate) struct NumberOrder<T: Numbered> {
    window: u16,
    due: Option<u16>,
    held: Parted<T>,
    /// The number of the last packet, where there is one.
    newest: u16,
}

impl<T: Numbered> Model for NumberOrder<T> {
    ghost use Rattle.std.specs.Prelude.{map};
    ghost use Rattle.h26x_reorder.specs.Rtp.{RtpBody};
    ghost use Rattle.h26x_reorder.specs.NumberOrder.{IsNumberOrder};
    ghost use Rattle.h26x_reorder.specs.ReorderBuffer.{BufferState, buffer_state};

    ghost Value = { BufferState RtpBody };

    ghost view = { λ b. buffer_state b.window b.due (map T.numbered b.held) };

    ghost invariant = { λ b.
        IsNumberOrder b.newest (buffer_state b.window b.due (map T.numbered b.held)) };
}

impl<T: Numbered> NumberOrder<T> {
    /// None, with a window of so many.
    pub(crate) fn new(alloc: Global, window: u16) -> Self
        requires some { 0 < window }
        requires half { window ≤ 2 ^ 14 }
        ensures { result ≡ fresh_buffer window }
    {
        NumberOrder {
            window,
            due: None,
            held: Parted::new(alloc),
            newest: 0,
        }
    }

    /// Has another window from now on.
    pub(crate) fn set_window(&mut self, window: u16)
        requires some { 0 < window }
        requires half { window ≤ 2 ^ 14 }
        ensures { self.new ≡ with_window window self.old }
    {
        self.window = window;
    }

    /// How many packets it holds.
    pub(crate) fn len(&self) -> usize
        ensures { result ≡ length self.now.held }
    {
        self.held.len()
    }

    /// Whether it holds none.
    pub(crate) fn is_empty(&self) -> bool
        ensures { result ≡ (length self.now.held == 0) }
    {
        self.held.is_empty()
    }

    /// The number that is due, if a packet came.
    #[inline]
    pub(crate) fn due(&self) -> Option<u16>
        ensures { result ≡ self.now.due }
    {
        self.due
    }

    /// Has this number due, where no packet came.
    pub(crate) fn begin_at(&mut self, number: u16)
        ensures { self.new ≡ begun_at number self.old }
    {
        if self.due.is_none() {
            self.due = Some(number);
        }
    }

    /// The first packet.
    #[inline]
    pub(crate) fn first(&self) -> Option<&T>
        ensures { option_map (λ p. T.numbered p.now) result ≡ slice_get self.now.held 0 }
    {
        self.held.first()
    }

    /// The number of the packet at a place.
    #[inline]
    pub(crate) fn number_at(&self, place: usize) -> u16
        requires { place < length self.now.held }
        ensures { (d : ℕ × RtpBody) → result ≡ (slice_index_or self.now.held place d).0 }
    {
        self.held.get(place).sequence()
    }

    /// How far ahead of a number the packet at a place is.
    #[inline]
    fn ahead_at(&self, due: u16, place: usize) -> u16
        requires { place < length self.now.held }
        ensures { (d : ℕ × RtpBody) → result
            ≡ distance_ahead due (slice_index_or self.now.held place d).0 }
    {
        self.held.get(place).sequence().wrapping_sub(due)
    }

    /// Where a packet with this number stands, or else where it belongs, by halves.
    fn search(&self, due: u16, number: u16) -> Result<usize, usize>
        requires { AreHeldInOrder due 0 self.now.held }
        ensures { IsSearchResult self.now.held due number result }
    {
        let ahead = number.wrapping_sub(due);
        let (mut low, mut high) = (0, self.len());
        while low < high {
            let middle = low + (high - low) / 2;
            let there = self.ahead_at(due, middle);
            if there == ahead {
                return Ok(middle);
            }
            if there < ahead {
                low = middle + 1;
            } else {
                high = middle;
            }
        }
        Err(low)
    }

    /// Where a packet with this number stands, or else where it belongs. One ahead of the last, as
    /// most are, is not searched for.
    #[inline(always)]
    fn place_from(&self, due: u16, number: u16) -> Result<usize, usize>
        requires { AreHeldInOrder due 0 self.now.held }
        ensures { IsSearchResult self.now.held due number result }
    {
        let len = self.len();
        if len == 0 || self.newest.wrapping_sub(due) < number.wrapping_sub(due) {
            return Err(len);
        }
        self.search(due, number)
    }

    /// The number that is due once a packet comes, and the place where that packet is put; or what
    /// is answered for one that isn't held.
    #[inline(always)]
    pub(crate) fn place_of(&self, sequence: u16) -> Result<(u16, usize), Pushed>
        ensures held { IfOk result (λ at. IsPlaceOf self.now sequence at.0 at.1) }
        ensures answer { IfOk result (λ _. push_answer self.now sequence ≡ Pushed.Held) }
        ensures other { IfErr result (λ answer. answer ≡ push_answer self.now sequence) }
        ensures same { (packet : RtpBody) → OnErr result
            (self.now ≡ after_push self.now (sequence, packet)) }
    {
        let first_due = sequence.wrapping_add(1).wrapping_sub(self.window);
        let due = self.due.unwrap_or(first_due);
        let ahead = sequence.wrapping_sub(due);
        if ahead >= HALF {
            return Err(Pushed::Late(u16::MAX - ahead + 1));
        }
        match self.place_from(due, sequence) {
            Ok(_) => Err(Pushed::Twice),
            Err(place) => Ok((due, place)),
        }
    }

    /// Puts a packet at its place. Without memory all stays as it was, and the packet comes back.
    #[inline(always)]
    pub(crate) fn put(&mut self, due: u16, place: usize, packet: T) -> Result<(), AllocFailed<T>>
        requires { IsPlaceOf self.old (T.numbered packet).0 due place }
        ensures after { OnOk result (self.new ≡ after_push self.old (T.numbered packet)) }
        ensures kept { OnErr result (self.new ≡ self.old) }
        ensures back { IfErr result (λ it. it.value ≡ packet) }
    {
        let newest = if place == self.held.len() {
            packet.sequence()
        } else {
            self.newest
        };
        self.held.insert(place, packet)?;
        self.newest = newest;
        self.due = Some(due);
        Ok(())
    }

    /// The number of the last packet, or the one that is due where there is none.
    pub(crate) fn newest(&self, due: u16) -> u16
        ensures { result ≡ newest_of due self.now.held }
    {
        if self.is_empty() { due } else { self.newest }
    }

    /// Whether a number is ahead of all packets, and not late.
    pub(crate) fn is_beyond(&self, number: u16) -> bool
        ensures beyond { result ≡ is_beyond self.now number }
        ensures held { result ≡ true → push_answer self.now number ≡ Pushed.Held }
    {
        match self.due {
            Some(due) => {
                let ahead = number.wrapping_sub(due);
                self.newest(due).wrapping_sub(due) < ahead && ahead < HALF
            }
            None => false,
        }
    }

    /// Whether two numbers, the second ahead of the first, are ahead of all packets, and not late.
    pub(crate) fn are_beyond(&self, first: u16, second: u16) -> bool
        ensures { result ≡ are_beyond self.now first second }
    {
        match self.due {
            Some(due) if self.is_beyond(first) => {
                let ahead = second.wrapping_sub(due);
                first.wrapping_sub(due) < ahead && ahead < HALF
            }
            _ => false,
        }
    }

    /// Puts two packets behind all others. Without memory for both all stays as it was.
    pub(crate) fn put_two(&mut self, first: T, second: T) -> Result<(), AllocError>
        requires beyond { are_beyond self.old (T.numbered first).0 (T.numbered second).0 ≡ true }
        requires first_small { (T.numbered first).0 < 2 ^ 16 }
        requires second_small { (T.numbered second).0 < 2 ^ 16 }
        ensures after { OnOk result
            (self.new ≡ after_push (after_push self.old (T.numbered first)) (T.numbered second)) }
        ensures first { OnOk result (push_answer self.old (T.numbered first).0 ≡ Pushed.Held) }
        ensures second { OnOk result
            (push_answer (after_push self.old (T.numbered first)) (T.numbered second).0 ≡ Pushed.Held) }
        ensures kept { OnErr result (self.new ≡ self.old) }
    {
        let number = second.sequence();
        self.held.push_two(first, second)?;
        self.newest = number;
        Ok(())
    }

    /// The first packet, if it may go: the one that is due, or one that the window has passed.
    #[inline]
    pub(crate) fn pop(&mut self) -> Option<T>
        ensures packet { option_map T.numbered result ≡ next_packet self.old }
        ensures after { self.new ≡ (if is_some result then without_first self.old else self.old) }
        ensures bounded { result ≡ None → length self.new.held < self.new.window }
    {
        if self.is_ready() {
            self.pop_first()
        } else {
            None
        }
    }

    /// The first packet, whether it may go or not.
    #[inline]
    pub(crate) fn pop_first(&mut self) -> Option<T>
        ensures packet { option_map T.numbered result ≡ slice_get self.old.held 0 }
        ensures after { self.new ≡ without_first self.old }
    {
        let first = self.held.pop_first()?;
        self.due = Some(first.sequence().wrapping_add(1));
        Some(first)
    }

    /// Whether none is held and this number is due, so that its packet needn't be held.
    #[inline]
    pub(crate) fn goes_straight(&self, number: u16) -> bool
        ensures { result ≡ goes_straight self.now number }
    {
        self.is_empty() && is_next(self.due, number)
    }

    /// The packet with this number, which needn't be held, has gone.
    #[inline]
    pub(crate) fn pass(&mut self, number: u16)
        requires { goes_straight self.old number ≡ true }
        ensures { (packet : RtpBody) → self.new
            ≡ without_first (after_push self.old (number, packet)) }
    {
        self.due = Some(number.wrapping_add(1));
    }

    /// Whether the first packet may go.
    #[inline]
    pub(crate) fn is_ready(&self) -> bool
        ensures ready { result ≡ is_some (next_packet self.now) }
        ensures few { result ≡ false → length self.now.held < self.now.window }
    {
        match self.held.first() {
            Some(first) => self.may_go(first.sequence()),
            None => false,
        }
    }

    /// Whether the first packet, which has this number, may go. No packet is looked at for it.
    #[inline]
    pub(crate) fn may_go(&self, first: u16) -> bool
        requires { first_number self.now.held ≡ Some first }
        ensures ready { result ≡ is_some (next_packet self.now) }
        ensures few { result ≡ false → length self.now.held < self.now.window }
    {
        match self.due {
            Some(due) => {
                let ahead = first.wrapping_sub(due);
                let newest = self.newest.wrapping_sub(due);
                first == due || newest - ahead + 1 >= self.window
            }
            None => false,
        }
    }

    /// Drops the packets, and takes any number as the next.
    pub(crate) fn restart(&mut self)
        ensures { self.new ≡ fresh_buffer self.old.window }
    {
        self.held.clear();
        self.due = None;
    }
}
