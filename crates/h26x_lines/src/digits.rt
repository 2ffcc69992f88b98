//! Bytes from text, by two hexadecimal digits each.

ghost use Rattle.std.specs.Prelude.{◌≡◌, ◌+◌, ◌*◌, ◌/◌, ◌%◌, ◌==◌, ◌&&◌, false, length, IfOk, OnOk, IsTrue};
ghost use Rattle.h26x_lines.specs.Digits.{are_digits, bytes_of, digit_table};

use crate::from_digits::{LANES, read_blocks};
use std::alloc::AllocError;

/// The digits, by their values.
const LOWER: [u8; 16] = *b"0123456789abcdef";

/// The same in upper case.
const UPPER: [u8; 16] = *b"0123456789ABCDEF";

/// Stands for a byte that is no digit; no digit has its bits.
const NONE: u8 = 0xf0;

/// What each byte of a text is as a hexadecimal digit.
#[derive(Debug, Drop)]
pub struct Digits {
    values: [u8; 256],
    ghost are_values: { values ≡ digit_table },
}

impl Digits {
    /// The digits of either case.
    pub fn new() -> Self {
        let mut values = [NONE; 256];
        for value in 0..16 {
            values[usize::from(LOWER[value])] = value as u8;
            values[usize::from(UPPER[value])] = value as u8;
        }
        Digits { values }
    }

    /// Reads a text of two digits each into `bytes`, in the place of what it holds. Where the text
    /// isn't one, it says so, and what `bytes` then holds means nothing.
    pub fn read(&self, text: &[u8], bytes: &mut Vec<u8>) -> Result<bool, AllocError>
        ensures len { OnOk result (length bytes.new.items ≡ length text.now / 2) }
        ensures odd { length text.now % 2 ≡ 1 → IfOk result (λ is_text. is_text ≡ false) }
        ensures digits { IfOk result (λ is_text. is_text
            ≡ (length text.now % 2 == 0 && are_digits text.now)) }
        ensures bytes { IfOk result (λ is_text. IsTrue is_text →
            bytes.new.items ≡ bytes_of text.now) }
    {
        bytes.resize(text.len() / 2, 0)?;
        let are_digits = self.read_whole(&text[..2 * bytes.len()], bytes);
        Ok(text.len() % 2 == 0 && are_digits)
    }

    /// Reads a text of two digits for each byte, and says whether it is one.
    ///
    /// Whole blocks are read by vectors; what is left, or a text that isn't one, by the table.
    fn read_whole(&self, text: &[u8], bytes: &mut [u8]) -> bool
        requires two { length text.now ≡ 2 * length bytes.old }
        ensures digits { result ≡ are_digits text.now }
        ensures bytes { IsTrue result → bytes.new ≡ bytes_of text.now }
    {
        let blocks = bytes.len() / LANES * LANES;
        let (front, back) = bytes.split_at_mut(blocks);
        if read_blocks(&text[..2 * blocks], front) {
            return self.read_by_table(&text[2 * blocks..], back);
        }
        self.read_by_table(text, bytes)
    }

    /// The same by the table, digit by digit: no branch hangs on what a byte is.
    fn read_by_table(&self, text: &[u8], bytes: &mut [u8]) -> bool
        requires two { length text.now ≡ 2 * length bytes.old }
        ensures digits { result ≡ are_digits text.now }
        ensures bytes { IsTrue result → bytes.new ≡ bytes_of text.now }
    {
        let mut all = 0;
        let mut at = 0;
        while at < bytes.len() {
            let high = self.values[usize::from(text[2 * at])];
            let low = self.values[usize::from(text[2 * at + 1])];
            all |= high | low;
            bytes[at] = (high << 4) | (low & 0x0f);
            at += 1;
        }
        all & NONE == 0
    }
}
