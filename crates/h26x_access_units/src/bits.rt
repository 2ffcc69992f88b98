//! The bits of NAL units, and numbers that are read from them.

ghost use Rattle.std.specs.Prelude.{◌≡◌, ◌≤◌, ◌<◌, ◌^◌, ℕ, Bool, List, Option, ◌++◌};
ghost use Rattle.std.specs.Option.{option_map};
ghost use Rattle.h26x_access_units.specs.Bits.{payload_bytes, low_bits, bits_of, unit_bits, first_bit, behind_bit, behind_bits, bits_number, code_of, behind_codes, next_byte};

use std::marker::Model;

/// The bits of a NAL unit that are left to read; behind the end they are 0.
#[derive(Debug, Drop)]
pub(crate) struct Bits<'a> {
    /// The bytes behind the last one.
    rest: &'a [u8],
    /// The byte before the last one.
    before: u8,
    /// The last one.
    last: u8,
    /// How many of its bits are left.
    left: u8,
}

impl<'a> Model for Bits<'a> {
    ghost Value = { List Bool };

    ghost view = { λ a. low_bits a.last a.left
        ++ bits_of (payload_bytes a.before a.last a.rest.now) };

    ghost invariant = { λ a. a.left ≤ 8 };
}

/// The next byte behind two others, but for one that keeps a start code out.
fn next_byte(before: u8, last: u8, bytes: &[u8]) -> Option<(u8, u8, &[u8])>
    ensures { option_map (λ it. (it.0, it.1, it.2.now)) result ≡ next_byte before last bytes.now }
{
    if bytes.is_empty() {
        return None;
    }
    let byte = bytes[0];
    if before != 0 || last != 0 || byte > 3 {
        return Some((last, byte, &bytes[1..]));
    }
    if byte < 3 || bytes.len() == 1 {
        return None;
    }
    Some((3, bytes[1], &bytes[2..]))
}

impl<'a> Bits<'a> {
    /// Those of a unit from its first byte on.
    pub(crate) fn of(unit: &'a [u8]) -> Self
        ensures { result ≡ unit_bits unit.now }
    {
        Bits {
            rest: unit,
            before: 1,
            last: 1,
            left: 0,
        }
    }

    /// The next bit.
    pub(crate) fn bit(&mut self) -> bool
        ensures bit { result ≡ first_bit self.old }
        ensures behind { self.new ≡ behind_bit self.old }
    {
        if self.left == 0 {
            let Some((before, byte, rest)) = next_byte(self.before, self.last, self.rest) else {
                return false;
            };
            self.before = before;
            self.last = byte;
            self.rest = rest;
            self.left = 7;
            return byte >> 7 != 0;
        }
        self.left -= 1;
        self.last >> self.left & 1 != 0
    }

    /// The number that so many bits are.
    pub(crate) fn number(&mut self, count: u8) -> u32
        requires { count ≤ 31 }
        ensures number { result ≡ bits_number count self.old }
        ensures below { result < 2 ^ count }
        ensures behind { self.new ≡ behind_bits count self.old }
    {
        let mut value = 0;
        for _ in 0..count {
            value = 2 * value + u32::from(self.bit());
        }
        value
    }

    /// The number of the next code.
    pub(crate) fn code(&mut self) -> u32
        ensures number { result ≡ (code_of self.old).value }
        ensures behind { self.new ≡ (code_of self.old).behind }
    {
        for zeros in 0..32 {
            if self.bit() {
                return (1 << zeros) - 1 + self.number(zeros);
            }
        }
        u32::MAX
    }

    /// Passes so many codes.
    pub(crate) fn pass(&mut self, count: u32)
        ensures { self.new ≡ behind_codes count self.old }
    {
        for _ in 0..count {
            let _ = self.code();
        }
    }
}
