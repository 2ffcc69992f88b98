//! Generic NACKs: RTCP packets that ask for packets again (RFC 4585, 6.2.1).

ghost use Rattle.std.specs.Prelude.{◌≡◌, ◌≤◌, ◌<◌, ◌+◌, ◌*◌, ◌^◌, ◌∷◌, [], length, drop, slice_index};
ghost use Rattle.std.specs.List.{flat_map};
ghost use Rattle.std.specs.Option.{option_map};
ghost use Rattle.h26x_core.specs.Sequence.{next_sequence_number};
ghost use Rattle.h26x_rtp.specs.Memory.{filled_from, overwritten};
ghost use Rattle.h26x_rtp.specs.Nack as spec;
ghost use Rattle.h26x_rtp.specs.NackViews.{nack_view};

use crate::error::RtpWriteError;
use crate::feedback::is_rtcp_of;
use crate::memory::put;
use crate::words::{long_in, word_in};
use std::marker::Model;

/// How many bytes stand before the pairs (RFC 4585, 6.1).
const HEAD_SIZE: usize = 12;

/// How many bytes a pair has (RFC 4585, 6.2.1).
const PAIR_SIZE: usize = 4;

/// How many pairs the length of a packet can say, two words being the SSRCs (RFC 3550, 6.4.1).
const MOST_PAIRS: usize = 65533;

/// A number that is asked for, and which of the sixteen behind it are too (RFC 4585, 6.2.1).
#[derive(Debug, Clone, Copy, PartialEq, Eq)]
pub struct NackPair {
    /// The first sequence number, PID.
    pub first: u16,
    /// The bits of those that follow, BLP: the lowest is for the number behind `first`.
    pub following: u16,
}

/// The sequence numbers of a pair that are left, in their order.
#[derive(Debug, Drop)]
pub struct NackNumbers {
    /// How many bits are left.
    left: u8,
    /// The number that the lowest bit is for.
    number: u16,
    /// The bits.
    bits: u32,
}

impl Model for NackNumbers {
    ghost use Rattle.std.specs.Prelude.{ℕ, List};
    ghost use Rattle.h26x_rtp.specs.Nack.{bit_numbers};

    ghost Value = { List ℕ };

    ghost view = { λ it. bit_numbers it.left it.number it.bits };
}

/// The pairs of a generic NACK that are left, in their order (RFC 4585, 6.2.1).
#[derive(Debug, Drop)]
pub struct NackPairs<'a> {
    /// Their bytes.
    bytes: &'a [u8],
}

impl<'a> Model for NackPairs<'a> {
    ghost use Rattle.std.specs.Prelude.{◌≤◌, List, length};
    ghost use Rattle.h26x_rtp.specs.declared.nack.NackPair.{NackPair};
    ghost use Rattle.h26x_rtp.specs.Nack.{pairs_in};

    ghost Value = { List NackPair };

    ghost view = { λ it. pairs_in it.bytes.now };

    ghost invariant = { λ it. length it.bytes.now ≤ 262132 };
}

/// A generic NACK: packets of a source are asked for again (RFC 4585, 6.2.1).
#[derive(Debug, Drop)]
pub struct GenericNack<'a> {
    /// The SSRC of who sends it.
    pub sender: u32,
    /// The SSRC whose packets are asked for.
    pub media: u32,
    /// Which packets, at least one pair.
    pub pairs: NackPairs<'a>,
}

/// What was written of a generic NACK.
#[derive(Debug, Clone, Copy, PartialEq, Eq)]
pub struct NackWritten {
    /// How many bytes the packet has.
    pub size: usize,
    /// How many of the numbers it asks for: the first ones.
    pub count: usize,
}

impl NackPair {
    /// The sequence numbers that it asks for, one to 17, in their order, which go round at 65536.
    pub fn numbers(self) -> NackNumbers
        ensures { result ≡ spec.pair_numbers self }
    {
        NackNumbers {
            left: 17,
            number: self.first,
            bits: 1 + 2 * u32::from(self.following),
        }
    }

    /// Its bytes.
    fn bytes(self) -> [u8; 4]
        ensures { result ≡ spec.pair_bytes self }
    {
        let [a, b] = self.first.to_be_bytes();
        let [c, d] = self.following.to_be_bytes();
        [a, b, c, d]
    }

    /// The first one of bytes.
    fn of(bytes: &[u8]) -> Self
        requires { 4 ≤ length bytes.now }
        ensures { spec.pairs_in bytes.now ≡ result ∷ spec.pairs_in (drop 4 bytes.now) }
    {
        NackPair {
            first: word_in(bytes, 0),
            following: word_in(bytes, 2),
        }
    }
}

impl Iterator for NackNumbers {
    type Item = u16;

    ghost use Rattle.std.specs.Iterator.{YieldsFirstBy, item_count};

    ghost next_gives = { YieldsFirstBy (λ it. it) (λ it. it) };

    ghost remaining = { item_count (λ it. it) };

    fn next(&mut self) -> Option<u16> {
        while self.left > 0 {
            let number = self.number;
            let is_asked = self.bits % 2 == 1;
            *self = NackNumbers {
                left: self.left - 1,
                number: number.wrapping_add(1),
                bits: self.bits / 2,
            };
            if is_asked {
                return Some(number);
            }
        }
        None
    }
}

impl<'a> Iterator for NackPairs<'a> {
    type Item = NackPair;

    ghost use Rattle.std.specs.Iterator.{YieldsFirstBy, item_count};

    ghost next_gives = { YieldsFirstBy (λ it. it) (λ it. it) };

    ghost remaining = { item_count (λ it. it) };

    fn next(&mut self) -> Option<NackPair> {
        if self.bytes.len() < PAIR_SIZE {
            return None;
        }
        let pair = NackPair::of(self.bytes);
        let (_, bytes) = self.bytes.split_at(PAIR_SIZE);
        *self = NackPairs { bytes };
        Some(pair)
    }
}

impl<'a> GenericNack<'a> {
    /// Reads one, an RTCP packet alone; none where the bytes are another, or have no pair (RFC 4585,
    /// 6.2.1).
    pub fn read(bytes: &'a [u8]) -> Option<GenericNack<'a>>
        ensures { option_map nack_view result ≡ spec.nack_of bytes.now }
    {
        if bytes.len() < HEAD_SIZE + PAIR_SIZE || !is_rtcp_of(1, 205, word_in(bytes, 2), bytes) {
            return None;
        }
        let (_, pairs) = bytes.split_at(HEAD_SIZE);
        Some(GenericNack {
            sender: long_in(bytes, 4),
            media: long_in(bytes, 8),
            pairs: NackPairs { bytes: pairs },
        })
    }
}

/// Writes a number to memory where its place is in it.
fn put_number(number: u16, place: usize, to: &mut [u16])
    ensures { to.new ≡ filled_from place (number ∷ []) to.old }
{
    if place < to.len() {
        to[place] = number;
    }
}

/// Copies numbers to memory from a place on, as far as there is room; the place behind them all.
fn copy_behind(numbers: NackNumbers, place: usize, to: &mut [u16]) -> usize
    requires { place + length numbers < 2 ^ 63 }
    ensures copied { to.new ≡ filled_from place numbers to.old }
    ensures end { result ≡ place + length numbers }
{
    let mut end = place;
    for number in numbers {
        put_number(number, end, to);
        end += 1;
    }
    end
}

impl<'a> NackPairs<'a> {
    /// Copies the sequence numbers that the pairs ask for, in their order, to the front of memory as
    /// far as there is room; how many they ask for, which may be more. All else stays.
    pub fn copy_numbers(&self, to: &mut [u16]) -> usize
        ensures copied { to.new ≡ filled_from 0 (flat_map spec.pair_numbers self.now) to.old }
        ensures count { result ≡ length (flat_map spec.pair_numbers self.now) }
    {
        let mut count = 0;
        for pair in (NackPairs { bytes: self.bytes }) {
            count = copy_behind(pair.numbers(), count, to);
        }
        count
    }
}

/// The bits of the numbers that the pair of one asks for with it, and how many these are.
fn following_of(first: u16, numbers: &[u16]) -> (u16, usize)
    ensures bits { result.0 ≡ spec.numbers_bits 16 (next_sequence_number first) numbers.now }
    ensures count { result.1 ≡ spec.bits_count 16 (next_sequence_number first) numbers.now }
    ensures within { result.1 ≤ length numbers.now }
{
    let mut number = first;
    let mut following = 0;
    let mut count = 0;
    for place in 0..16u32 {
        number = number.wrapping_add(1);
        if count < numbers.len() && numbers[count] == number {
            following += 1u16 << place;
            count += 1;
        }
    }
    (following, count)
}

/// The pair of the first number, and the numbers that are left behind it.
fn first_pair(numbers: &[u16]) -> (NackPair, &[u16])
    requires { 0 < length numbers.now }
    ensures pair { result.0 ≡ spec.pair_of (slice_index numbers.now 0) (drop 1 numbers.now) }
    ensures left { result.1.now
        ≡ spec.behind_pair (slice_index numbers.now 0) (drop 1 numbers.now) }
{
    let first = numbers[0];
    let (_, numbers) = numbers.split_at(1);
    let (following, count) = following_of(first, numbers);
    let (_, left) = numbers.split_at(count);
    (NackPair { first, following }, left)
}

/// Writes the pairs of the first ones of numbers, at most so many, behind the place of what stands
/// before them; where they end, and how many numbers they ask for.
fn put_pairs(numbers: &[u16], most: usize, to: &mut [u8]) -> NackWritten
    requires { 12 + 4 * most ≤ length to.old }
    ensures written { to.new
        ≡ overwritten 12 (flat_map spec.pair_bytes (spec.nack_pairs most numbers.now)) to.old }
    ensures size { result.size ≡ 12 + 4 * length (spec.nack_pairs most numbers.now) }
    ensures count { result.count ≡ spec.nack_count most numbers.now }
{
    let mut size = HEAD_SIZE;
    let mut left = most;
    let mut rest = numbers;
    while left > 0 && !rest.is_empty() {
        let (pair, behind) = first_pair(rest);
        size = put(&pair.bytes(), size, to);
        left -= 1;
        rest = behind;
    }
    let count = numbers.len() - rest.len();
    NackWritten { size, count }
}

/// What stands before so many pairs (RFC 4585, 6.1 and 6.2).
fn head(sender: u32, media: u32, pairs: u16) -> [u8; 12]
    requires { pairs ≤ 65533 }
    ensures { result ≡ spec.nack_head sender media pairs }
{
    let [l0, l1] = (pairs + 2).to_be_bytes();
    let [a, b, c, d] = sender.to_be_bytes();
    let [e, f, g, h] = media.to_be_bytes();
    [0x81, 205, l0, l1, a, b, c, d, e, f, g, h]
}

/// Writes one packet that asks for the first ones of sequence numbers, as many as have room, to the
/// front of memory; how many bytes it has, and how many of the numbers it asks for. Call it again with
/// the rest, for a packet behind it. No numbers make no packet (RFC 4585, 6.2.1).
///
/// A number shares a pair with the next ones, as long as each is among the sixteen behind it and
/// behind those before: give them in ascending order. Where there is no room for one pair, it answers
/// `NoRoom(16)`, and memory stays.
///
/// ```rust
/// let written = write_nack(own, media, &[5, 6, 22], &mut rtcp)?;
/// send(&rtcp[..written.size])?;
/// ```
pub fn write_nack(
    sender: u32,
    media: u32,
    numbers: &[u16],
    to: &mut [u8],
) -> Result<NackWritten, RtpWriteError>
    ensures { spec.IsNackWritten sender media numbers.now to.old to.new result }
{
    if numbers.is_empty() {
        return Ok(NackWritten { size: 0, count: 0 });
    }
    if to.len() < HEAD_SIZE + PAIR_SIZE {
        return Err(RtpWriteError::NoRoom(HEAD_SIZE + PAIR_SIZE));
    }
    let most = ((to.len() - HEAD_SIZE) / PAIR_SIZE).min(MOST_PAIRS);
    let written = put_pairs(numbers, most, to);
    let pairs = (written.size - HEAD_SIZE) / PAIR_SIZE;
    put(&head(sender, media, pairs as u16), 0, to);
    Ok(written)
}
