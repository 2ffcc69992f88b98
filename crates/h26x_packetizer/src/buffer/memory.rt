//! The memory of a buffer, and how it grows.

ghost use Rattle.std.specs.Prelude.{◌≡◌, ◌≤◌, ◌<◌, ◌+◌, ◌*◌, ◌-◌, ◌^◌, min, max, vec_len, vec_capacity, OnOk, OnErr, IsTrue, ◌↔◌};

use std::alloc::AllocError;

/// For how much a buffer has memory.
#[derive(Debug, Clone, Copy, PartialEq, Eq)]
pub struct BufferMemory {
    /// How many bytes.
    pub bytes: usize,
    /// The ends of how many packets.
    pub ends: usize,
}

/// Whether memory for so much is for twice as much as this at most, or for no more than before.
#[inline]
pub(super) fn is_at_most(memory: usize, before: usize, count: usize) -> bool
    ensures { IsTrue result ↔ (memory ≤ max before (2 * count)) }
{
    memory <= before.max(count.saturating_mul(2))
}

/// Takes room for so many entries more, where there is less: at least twice as much as there was, so
/// that entries that come one by one are moved few times.
#[cold]
#[inline(never)]
fn grow<T>(list: &mut Vec<T>, additional: usize) -> Result<(), AllocError>
    requires { vec_capacity list.old < vec_len list.old + additional }
    ensures items { list.new.items ≡ list.old.items }
    ensures len { vec_len list.new ≡ vec_len list.old }
    ensures room { OnOk result (vec_len list.old + additional ≤ vec_capacity list.new) }
    ensures doubled { OnOk result (min (2 * vec_capacity list.old) (2 ^ 64 - 1)
        ≤ vec_capacity list.new) }
    ensures most { OnOk result (vec_capacity list.new ≤ 2 * (vec_len list.old + additional)) }
    ensures kept { OnErr result (vec_capacity list.new ≡ vec_capacity list.old) }
{
    let double = list.capacity().saturating_mul(2);
    list.try_reserve_exact(additional.max(double - list.len()))?;
    Ok(())
}

/// Has room for so many entries more; where it has to grow, for so many at least.
#[inline(always)]
pub(super) fn make_room<T>(
    list: &mut Vec<T>,
    additional: usize,
    least: usize,
) -> Result<(), AllocError>
    ensures items { list.new.items ≡ list.old.items }
    ensures len { vec_len list.new ≡ vec_len list.old }
    ensures room { OnOk result (vec_len list.old + additional ≤ vec_capacity list.new) }
    ensures most { vec_capacity list.new ≤ max (vec_capacity list.old)
        (2 * (vec_len list.old + max additional least)) }
    ensures kept { OnErr result (vec_capacity list.new ≡ vec_capacity list.old) }
{
    if additional > list.capacity() - list.len() {
        grow(list, additional.max(least))?;
    }
    Ok(())
}
