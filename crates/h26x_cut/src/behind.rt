//! The search for start codes behind a byte 01 that ends none.

ghost use Rattle.std.specs.Prelude.{◌+◌, ◌<◌, ◌≤◌, length};
ghost use Rattle.h26x_cut.specs.Slices.{IsFirstCode};
ghost use Rattle.h26x_cut.specs.Search.{HasNoCode};

use crate::blocks::{PLACES, first_zeros, skip_quiet};
use crate::marks::{CODE, is_behind_zeros, next_mark};
use memchr::memmem;

/// How many bytes 01 that end no start code are tried, and one more for each `PER_TRY` bytes before
/// them.
const PATIENCE: usize = 2;

/// How many times places are tested for two zeros before whole start codes are searched for, and
/// one more for each `PER_TRY` bytes before them.
const TESTS: usize = 4;

/// How many bytes pay for one more try, so that a large unit isn't searched by another way for some
/// bytes at its begin.
const PER_TRY: usize = 1024;

/// Nearer than this to where it was searched from, a byte 01 is taken for one of many.
const DENSE: usize = 8;

/// Where the first start code of bytes begins of which none begins up to a byte 01.
///
/// Blocks that can have none are passed over, and then the next byte 01 is tried. Where such bytes
/// stand close together a call for each is dear, and two zeros are searched for instead. Out of line,
/// since most units end at the first byte 01.
#[inline(never)]
pub fn first_behind(bytes: &[u8], mark: usize) -> Option<usize>
    requires within { mark < length bytes.now }
    requires passed { HasNoCode bytes.now 0 (mark + 1) }
    ensures { IsFirstCode bytes.now result }
{
    let (mut place, mut near, mut failed) = (mark + 1, mark, 0);
    while near >= DENSE && failed < PATIENCE + place / PER_TRY {
        let quiet = skip_quiet(bytes, place);
        let mark = next_mark(bytes, quiet)?;
        if is_behind_zeros(bytes, mark) {
            return Some(mark - 2);
        }
        near = mark - quiet;
        failed += 1;
        place = mark + 1;
    }
    first_by_zeros(bytes, place)
}

/// The same of bytes of which no start code begins before a place: the next two zeros are searched
/// for, and then the byte 01 behind them. Where places were tested many times, as of zeros that
/// stand close together, whole start codes are searched for.
#[inline(never)]
fn first_by_zeros(bytes: &[u8], from: usize) -> Option<usize>
    requires within { from ≤ length bytes.now }
    requires passed { HasNoCode bytes.now 0 from }
    ensures { IsFirstCode bytes.now result }
{
    let (mut place, mut tests) = (skip_quiet(bytes, from), 0);
    while tests < TESTS + place / PER_TRY && PLACES < bytes.len() - place {
        let next = match first_zeros(bytes, place) {
            None => place + PLACES,
            Some(zeros) => {
                let mark = next_mark(bytes, zeros)?;
                if is_behind_zeros(bytes, mark) {
                    return Some(mark - 2);
                }
                mark + 1
            }
        };
        place = skip_quiet(bytes, next);
        tests += 1;
    }
    let rest = memmem::find(&bytes[place..], CODE)?;
    Some(place + rest)
}
