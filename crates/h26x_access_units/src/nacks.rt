//! Missing numbers that a sender is asked for again (NACK; RFC 4585, 6.2.1), and when.

ghost use Rattle.std.specs.Prelude.{◌≡◌, ◌≤◌, ◌<◌, [], true, IfOk, OnOk, OnErr, Err, take, drop, length};
ghost use Rattle.h26x_access_units.specs.Nacks.{from_number, nack_of, nacks_now, is_nack_due, numbers_due, asked_at, nacks_asked};

use crate::arrival::is_passed;
use h26x_core::PacketError;
use std::alloc::{AllocError, Global};
use std::marker::Model;

/// When missing numbers are asked for, in the caller's ticks, which go round at 2^32.
#[derive(Debug, Clone, Copy, PartialEq, Eq)]
pub struct NackTimes {
    /// How long a missing number may come by itself, since it was first told.
    pub first: u32,
    /// How long after it was asked for it is asked for again: a round trip at least.
    pub again: u32,
    /// How often it is asked for at most.
    pub most: u8,
}

/// What is known of a number that is missing.
#[derive(Debug, Clone, Copy, PartialEq, Eq)]
pub struct Nack {
    /// The sequence number.
    pub number: u16,
    /// The tick at which it was last asked for; before that, at which it was first told.
    pub at: u32,
    /// How often it was asked for.
    pub times: u8,
}

/// The numbers that were missing, and when each was asked for, so that it is asked for in time and not
/// too often.
#[derive(Debug, Drop)]
pub struct Nacks {
    known: Vec<Nack>,
}

impl Model for Nacks {
    ghost use Rattle.std.specs.Prelude.{List};
    ghost use Rattle.h26x_access_units.specs.declared.nacks.Nack.{Nack};

    ghost Value = { List Nack };

    ghost view = { λ it. it.known.items };
}

/// Whether a number is to be asked for.
fn is_due(nack: Nack, times: NackTimes, now: u32) -> bool
    ensures { result ≡ is_nack_due times now nack }
{
    let wait = if nack.times == 0 {
        times.first
    } else {
        times.again
    };
    nack.times < times.most && now.wrapping_sub(nack.at) >= wait
}

/// The place of the first from a place on that isn't behind a number.
fn place_from(known: &[Nack], from: usize, number: u16) -> usize
    requires { from ≤ length known.now }
    ensures behind { drop result known.now ≡ from_number number (drop from known.now) }
    ensures within { result ≤ length known.now }
{
    let mut place = from;
    while place < known.len() && is_passed(number, known[place].number) {
        place += 1;
    }
    place
}

/// What is known of a number that would stand at a place.
fn nack_at(known: &[Nack], place: usize, number: u16, now: u32) -> Nack
    ensures { result ≡ nack_of now number (drop place known.now) }
{
    if place < known.len() && known[place].number == number {
        return known[place];
    }
    Nack {
        number,
        at: now,
        times: 0,
    }
}

impl Nacks {
    /// No number is known. It takes no memory.
    pub fn new(alloc: Global) -> Self
        ensures { result ≡ [] }
    {
        Nacks {
            known: Vec::new(alloc),
        }
    }

    /// Forgets all numbers.
    pub fn clear(&mut self)
        ensures { self.new ≡ [] }
    {
        self.known.clear();
    }

    /// The first so many of the numbers that are due, which count as asked for at this tick: of those
    /// that are missing, in order, as [`missing`](crate::AccessUnitReceiver::missing) tells them.
    /// Others are forgotten. One that waited for room is due at the next call.
    pub fn due(
        &mut self,
        missing: &[u16],
        times: NackTimes,
        now: u32,
        most: usize,
    ) -> Result<Vec<u16>, PacketError>
        ensures numbers { IfOk result (λ numbers. numbers.items
            ≡ take most (numbers_due times now (nacks_now now self.old missing.now))) }
        ensures after { OnOk result (self.new
            ≡ nacks_asked times now most (nacks_now now self.old missing.now)) }
        ensures kept { OnErr result (self.new ≡ self.old) }
        ensures memory { OnErr result (result ≡ Err PacketError.OutOfMemory) }
    {
        let alloc = *self.known.allocator();
        let mut numbers = Vec::new(alloc);
        let mut known = Vec::new(alloc);
        known.reserve(missing.len())?;
        let mut from = 0;
        for place in 0..missing.len() {
            let number = missing[place];
            from = place_from(&self.known, from, number);
            let mut nack = nack_at(&self.known, from, number, now);
            if numbers.len() < most && is_due(nack, times, now) {
                numbers.push(nack.number)?;
                nack.at = now;
                nack.times += 1;
            }
            known.push(nack)?;
        }
        self.known = known;
        Ok(numbers)
    }
}
