//! Memory that goes back where less serves.

ghost use Rattle.std.specs.Prelude.{◌≡◌, ◌≤◌, length, vec_capacity, true};
ghost use Rattle.h26x_depacketizer.specs.Run.{run_memory};

use crate::run::{memory_of, most_memory};

/// Moves bytes into memory of their own length, where that is asked for, or theirs has more than a run
/// of so many bytes may have. Whether it has no more now; where there is no other memory they stay
/// where they are.
pub(crate) fn give_back(bytes: &mut Vec<u8>, is_asked_for: bool) -> bool
    ensures bytes { bytes.new.items ≡ bytes.old.items }
    ensures memory { result ≡ true → vec_capacity bytes.new ≤ run_memory (length bytes.new.items) }
    ensures all { is_asked_for ≡ true → result ≡ true →
        vec_capacity bytes.new ≤ length bytes.new.items }
{
    let len = bytes.len();
    if !is_asked_for && bytes.capacity() <= most_memory(len) {
        return true;
    }
    let alloc = *bytes.allocator();
    match memory_of(alloc, len, bytes, &[]) {
        Ok(smaller) => {
            *bytes = smaller;
            true
        }
        Err(_) => false,
    }
}
