//! What the search for start codes passes over: whole blocks that can have none, and places at which
//! no two zeros stand.

ghost use Rattle.std.specs.Prelude.{◌≡◌, ◌+◌, ◌-◌, ◌*◌, ◌<◌, ◌≤◌, ℕ, List, true, length};
ghost use Rattle.h26x_cut.specs.Search.{HasNoCode, IsFirstZeros, AreLeast};

use std::simd::prelude::*;

/// How many bytes a load takes.
const LANES: usize = 16;

/// How many bytes are tested at once for a pair that a start code may have.
const BLOCK: usize = 128;

/// The bits of two bytes that are clear where these may be two of a start code, the first of them
/// the low one: all but the lowest of the second, since `00 00` and `00 01` may.
const PAIR_MASK: u16 = 0xfeff;

/// How many places are tested at once for two zeros.
pub const PLACES: usize = 64;

/// The bytes from a place on.
#[inline(always)]
fn load(bytes: &[u8], place: usize) -> u8x16
    requires { place + LANES ≤ length bytes.now }
    ensures { AreLeast bytes.now place LANES result }
{
    u8x16::from_slice(&bytes[place..])
}

/// Of each two lanes the lower.
#[inline(always)]
fn lower(front: u8x16, back: u8x16) -> u8x16
    ensures { (bytes : List ℕ) (place next n : ℕ) → AreLeast bytes place (LANES * n) front →
        AreLeast bytes next (LANES * n) back → next ≡ place + LANES * n →
        AreLeast bytes place (2 * LANES * n) result }
{
    front.simd_min(back)
}

/// The least of the bytes of a block, of those that lie whole vectors apart.
#[inline(always)]
fn least_of_block(bytes: &[u8], place: usize) -> u8x16
    requires { place + BLOCK ≤ length bytes.now }
    ensures { AreLeast bytes.now place BLOCK result }
{
    let first = lower(load(bytes, place), load(bytes, place + LANES));
    let second = lower(
        load(bytes, place + 2 * LANES),
        load(bytes, place + 3 * LANES),
    );
    let third = lower(
        load(bytes, place + 4 * LANES),
        load(bytes, place + 5 * LANES),
    );
    let fourth = lower(
        load(bytes, place + 6 * LANES),
        load(bytes, place + 7 * LANES),
    );
    lower(lower(first, second), lower(third, fourth))
}

/// Whether no two lanes that follow each other, from an even one on, may hold two bytes of a start
/// code: `00 00`, or `00 01`.
#[inline(always)]
fn has_no_pair(least: u8x16) -> bool
    ensures { result ≡ true → (bytes : List ℕ) (place : ℕ) → AreLeast bytes place BLOCK least →
        HasNoCode bytes (place - 1) (place + (BLOCK - 1)) }
{
    let pairs = u16x8::from_le_bytes(least) & u16x8::splat(PAIR_MASK);
    pairs.simd_eq(u16x8::splat(0)).to_bitmask() == 0
}

/// Whether no start code stands in a block, nor at the place before it. Each start code has a pair of
/// its bytes at an even place, so a load a vector tells, where a test of each place takes three. Of
/// sixty blocks of random bytes one may have a code by this test and has none.
#[inline(always)]
fn is_quiet(bytes: &[u8], place: usize) -> bool
    requires { place + BLOCK ≤ length bytes.now }
    ensures { result ≡ true → HasNoCode bytes.now (place - 1) (place + (BLOCK - 1)) }
{
    has_no_pair(least_of_block(bytes, place))
}

/// Goes past the blocks from a place on in which no start code stands, one after the other: where the
/// next place is that may have one.
#[inline(always)]
pub fn skip_quiet(bytes: &[u8], from: usize) -> usize
    requires { from ≤ length bytes.now }
    ensures low { from ≤ result }
    ensures high { result ≤ length bytes.now }
    ensures passed { HasNoCode bytes.now from result }
{
    let mut place = from;
    while BLOCK <= bytes.len() - place && is_quiet(bytes, place) {
        place += BLOCK;
    }
    if place == from { from } else { place - 1 }
}

/// The first of `PLACES` places at which two zeros stand.
#[inline(always)]
pub fn first_zeros(bytes: &[u8], place: usize) -> Option<usize>
    requires { place + (PLACES + 1) ≤ length bytes.now }
    ensures { IsFirstZeros bytes.now place (place + PLACES) result }
{
    let zeros = u8x64::from_slice(&bytes[place..]) | u8x64::from_slice(&bytes[place + 1..]);
    let found = zeros.simd_eq(u8x64::splat(0)).to_bitmask();
    if found == 0 {
        None
    } else {
        Some(place + found.trailing_zeros() as usize)
    }
}
