//! Bytes from text, by two hexadecimal digits each in either case, 32 digits at a time.

ghost use Rattle.std.specs.Prelude.{◌≡◌, ◌*◌, ◌%◌, ◌++◌, length, map, min, IsTrue};
ghost use Rattle.h26x_lines.specs.Digits.{are_digits, are_values, bytes_of, digit_value, joined};

use std::simd::prelude::*;

/// How many bytes are read at a time.
pub const LANES: usize = 16;

/// Reads a text of two digits for each byte, and says whether it is one. Where it isn't, what
/// `bytes` then holds means nothing.
///
/// 32 digits are read at a time, in vectors. What is no digit is gathered, and asked for once, at
/// the end.
pub fn read_blocks(text: &[u8], bytes: &mut [u8]) -> bool
    requires two { length text.now ≡ 2 * length bytes.old }
    requires whole { length bytes.old % 16 ≡ 0 }
    ensures digits { result ≡ are_digits text.now }
    ensures bytes { IsTrue result → bytes.new ≡ bytes_of text.now }
{
    let mut seen = u8x16::splat(0);
    let mut at = 0;
    while at < bytes.len() {
        let first = nibbles(u8x16::from_slice(&text[2 * at..]));
        let second = nibbles(u8x16::from_slice(&text[2 * at + LANES..]));
        seen |= first | second;
        joined_pairs(first, second).copy_to_slice(&mut bytes[at..]);
        at += LANES;
    }
    seen.reduce_or() < 16
}

/// The value of each byte as a digit, and 16 or more where it is none, as Geoff Langdale and Wojciech
/// Muła compute it ("Parsing hex numbers with validation", 2022).
///
/// `0` to `9` are moved to 246 to 255. Taking 6 off, but not below 0, leaves all others at 239 or
/// less, and taking 240 off with a wrap then leaves them at 16 or more. Letters lose the bit of
/// their case, and are counted from 10 on. The lesser of both is the value: no lane branches.
#[inline(always)]
fn nibbles(text: u8x16) -> u8x16
    ensures { map (λ value. min value 16) result ≡ map digit_value text }
{
    let at_top = text - u8x16::splat(0x3a);
    let numbers = at_top.saturating_sub(u8x16::splat(6)) - u8x16::splat(0xf0);
    let from_a = (text & u8x16::splat(0xdf)) - u8x16::splat(b'A');
    numbers.simd_min(from_a.simd_min(u8x16::splat(245)) + u8x16::splat(10))
}

/// The bytes of 32 values, two by two.
#[inline(always)]
fn joined_pairs(first: u8x16, second: u8x16) -> u8x16
    ensures { IsTrue (are_values (first ++ second)) → result ≡ joined (first ++ second) }
{
    let (high, low) = first.deinterleave(second);
    (high << u8x16::splat(4)) | low
}
