//! The search for start codes.

ghost use Rattle.h26x_cut.specs.Slices.{IsFirstCode};

use crate::behind::first_behind;
use crate::marks::{is_behind_zeros, next_mark};

/// Where the first start code of bytes begins, by its two nearest zeros.
///
/// The next byte 01 is found, and the two bytes before it are looked at.
pub fn first_code(bytes: &[u8]) -> Option<usize>
    ensures { IsFirstCode bytes.now result }
{
    let mark = next_mark(bytes, 0)?;
    if is_behind_zeros(bytes, mark) {
        Some(mark - 2)
    } else {
        first_behind(bytes, mark)
    }
}
