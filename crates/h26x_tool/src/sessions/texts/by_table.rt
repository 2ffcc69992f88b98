//! Digits read one after the other by a table alone: the plain form, which the reading by vectors is
//! compared with.

use std::alloc::AllocError;

/// Stands for a byte that is no digit; no digit has its bits.
const NONE: u8 = 0xf0;

/// What each byte of a text is as a hexadecimal digit.
#[derive(Debug, Drop)]
pub struct TableDigits {
    values: [u8; 256],
}

impl TableDigits {
    /// The digits of either case.
    pub(crate) fn new() -> Self {
        let mut values = [NONE; 256];
        for (digit, value) in b"0123456789abcdef".iter().zip(0..16) {
            values[usize::from(*digit)] = value;
            values[usize::from(digit.to_ascii_uppercase())] = value;
        }
        TableDigits { values }
    }

    /// Reads a text of two digits each into `bytes`, in the place of what it holds.
    pub(crate) fn read(&self, text: &[u8], bytes: &mut Vec<u8>) -> Result<bool, AllocError> {
        bytes.resize(text.len() / 2, 0)?;
        let mut all = 0;
        for (byte, pair) in bytes.iter_mut().zip(text.chunks_exact(2)) {
            let high = self.values[usize::from(pair[0])];
            let low = self.values[usize::from(pair[1])];
            all |= high | low;
            *byte = (high << 4) | (low & 0x0f);
        }
        Ok(text.len() % 2 == 0 && all & NONE == 0)
    }
}
