//! Bytes that are put one behind the other.

ghost use Rattle.std.specs.Prelude.{◌≡◌, ◌≤◌, ◌+◌, ◌++◌, length, take};

/// Copies bytes to a place of memory; the place behind them.
#[inline(always)]
pub fn copy_bytes(from: &[u8], place: usize, to: &mut [u8]) -> usize
    requires room { place + length from.now ≤ length to.old }
    ensures copied { take result to.new ≡ take place to.old ++ from.now }
    ensures end { result ≡ place + length from.now }
    ensures len { length to.new ≡ length to.old }
{
    let end = place + from.len();
    if !from.is_empty() {
        to[place..end].copy_from_slice(from);
    }
    end
}
