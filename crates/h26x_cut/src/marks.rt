//! The marks of start codes: each is found by a call of memchr, and the two bytes before it are looked
//! at; where many bytes 01 are none, `behind.rt` and `portable.rt` go on by memchr's `memmem`.

ghost use Rattle.std.specs.Prelude.{IsTrue, ◌↔◌, ◌-◌, ◌<◌, ◌≤◌, length};
ghost use Rattle.h26x_cut.specs.Search.{AreZeros, IsNextMark};

use memchr::memchr;

/// The nearest zeros of a start code, and its mark.
pub const CODE: &[u8] = &[0, 0, 1];

/// The last byte of a start code.
const MARK: u8 = 1;

/// The next byte 01 that a start code at a place or behind it may end in, by memchr.
#[inline(always)]
pub fn next_mark(bytes: &[u8], place: usize) -> Option<usize>
    requires { place ≤ length bytes.now }
    ensures { IsNextMark bytes.now place result }
{
    let near = memchr(MARK, bytes.get(place + 2..)?)?;
    Some(place + 2 + near)
}

/// Whether two zeros stand before a byte.
#[inline(always)]
pub fn is_behind_zeros(bytes: &[u8], mark: usize) -> bool
    requires { (2 ≤ mark) × (mark < length bytes.now) }
    ensures { IsTrue result ↔ AreZeros bytes.now (mark - 2) }
{
    bytes[mark - 1] == 0 && bytes[mark - 2] == 0
}
