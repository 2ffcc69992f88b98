//! Memory of payloads that went, for later ones.

ghost use Rattle.std.specs.Prelude.{◌≡◌, IfOk};

use std::alloc::{AllocError, Global};
use std::marker::Model;

/// How many payloads' memory is kept.
const KEPT_PAYLOADS: usize = 64;

/// How many bytes of memory are kept of each at most: those of a datagram on an Ethernet, and more.
const KEPT_BYTES: usize = 2048;

/// Memory of payloads that went, for later ones. To contracts it is nothing.
#[derive(Debug, Drop)]
pub struct SparePayloads {
    memories: Vec<Vec<u8>>,
}

impl Model for SparePayloads {
    ghost use Rattle.std.specs.Prelude.{◌≡◌, ◌≤◌, [], length, vec_capacity};
    ghost use Rattle.std.specs.List.{All};

    ghost Value = { Unit {0} };

    ghost view = { λ _. tt };

    ghost invariant = { λ s. (length s.memories.items ≤ 64)
        × All (λ memory. (memory.items ≡ []) × (vec_capacity memory ≤ 2048)) s.memories.items };
}

impl SparePayloads {
    /// None.
    pub(crate) fn none(alloc: Global) -> Self {
        SparePayloads {
            memories: Vec::new(alloc),
        }
    }

    /// A copy of a payload, in memory that is kept, where there is some.
    #[inline(always)]
    pub(crate) fn copy(&mut self, payload: &[u8]) -> Result<Vec<u8>, AllocError>
        ensures { IfOk result (λ copy. copy.items ≡ payload.now) }
    {
        match self.memories.pop() {
            Some(mut memory) => {
                memory.reserve(payload.len())?;
                memory.extend_from_slice(payload).unwrap();
                Ok(memory)
            }
            None => Vec::from_slice(*self.memories.allocator(), payload),
        }
    }

    /// Keeps the memory of a payload that went, where it is within the limits.
    #[inline]
    pub(crate) fn keep(&mut self, mut memory: Vec<u8>) {
        if memory.capacity() <= KEPT_BYTES && self.memories.len() < KEPT_PAYLOADS {
            memory.clear();
            let _ = self.memories.push(memory);
        }
    }
}
