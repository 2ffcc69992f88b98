//! Bytes as text, by two hexadecimal digits each in lower case, 16 bytes at a time.

ghost use Rattle.std.specs.Prelude.{◌≡◌, ◌*◌, ◌/◌, ◌%◌, ◌++◌, length, map, slice_index};
ghost use Rattle.hex.specs.Hex.{encode_lower, lower_digits};

use std::simd::prelude::*;

/// The digits, by their values.
const DIGITS: [u8; 16] = *b"0123456789abcdef";

/// How many bytes are written at a time.
const LANES: usize = 16;

/// Writes bytes by two digits each.
///
/// The halves of 16 bytes are looked up among the digits all at once; what is left is written as
/// the crate `hex` writes it.
pub fn write_lower(bytes: &[u8], digits: &mut [u8])
    requires { length digits.old ≡ 2 * length bytes.now }
    ensures { digits.new ≡ encode_lower bytes.now }
{
    let mut at = 0;
    while bytes.len() - at >= LANES {
        let (first, second) = digit_pairs(u8x16::from_slice(&bytes[at..]));
        first.copy_to_slice(&mut digits[2 * at..]);
        second.copy_to_slice(&mut digits[2 * at + LANES..]);
        at += LANES;
    }
    let _ = hex::encode_to_slice(&bytes[at..], &mut digits[2 * at..]);
}

/// The digits of 16 bytes, as two vectors.
#[inline(always)]
fn digit_pairs(bytes: u8x16) -> (u8x16, u8x16)
    ensures { result.0 ++ result.1 ≡ encode_lower bytes }
{
    high_digits(bytes).interleave(low_digits(bytes))
}

/// The digit of each byte's high half.
#[inline(always)]
fn high_digits(bytes: u8x16) -> u8x16
    ensures { result ≡ map (λ byte. slice_index lower_digits (byte / 16)) bytes }
{
    u8x16::from_array(DIGITS).swizzle_dyn(bytes >> u8x16::splat(4))
}

/// The digit of each byte's low half.
#[inline(always)]
fn low_digits(bytes: u8x16) -> u8x16
    ensures { result ≡ map (λ byte. slice_index lower_digits (byte % 16)) bytes }
{
    u8x16::from_array(DIGITS).swizzle_dyn(bytes & u8x16::splat(15))
}
