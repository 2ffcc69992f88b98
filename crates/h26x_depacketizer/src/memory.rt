//! Memory of a caller that units are written to.

ghost use Rattle.std.specs.Prelude.{◌≡◌, ◌≤◌, ◌-◌, false, length};
ghost use Rattle.h26x_depacketizer.specs.UnitSink.{memory_sink};

use crate::sink::UnitSink;
use std::alloc::AllocError;

/// Memory of a caller, which units are written to one behind the other from its front on.
///
/// ```rust
/// let mut out = MemorySink::new(&mut memory);
/// depacketizer.depacketize_into(packet, &mut out, &mut extra)?;
/// let len = out.len();
/// ```
#[derive(Drop)]
pub struct MemorySink<'a> {
    to: &'a mut [u8],
    len: usize,
    lacks: bool,
    ghost within: { len ≤ length to.now },
}

impl<'a> MemorySink<'a> {
    /// Memory of which nothing was written.
    pub fn new(to: &'a mut [u8]) -> Self
        ensures same_reference { result.to.ghost_name ≡ to.entry.ghost_name }
        ensures memory { result.to.now ≡ to.old }
        ensures len { result.len ≡ 0 }
        ensures lacks { result.lacks ≡ false }
    {
        MemorySink {
            to,
            len: 0,
            lacks: false,
        }
    }

    /// How many bytes were written.
    pub fn len(&self) -> usize
        ensures { result ≡ self.now.len }
    {
        self.len
    }

    /// Whether it was asked for room that it doesn't have.
    pub fn lacks_room(&self) -> bool
        ensures { result ≡ self.now.lacks }
    {
        self.lacks
    }
}

impl<'a> UnitSink for MemorySink<'a> {
    ghost sink = { λ it. memory_sink it.len it.to.now it.to.ghost_name };

    ghost room = { λ it. length it.to.now - it.len };

    ghost lacks = { λ it. it.lacks };

    #[inline(always)]
    fn reserve(&mut self, count: usize) -> Result<(), AllocError> {
        if count > self.to.len() - self.len {
            self.lacks = true;
            return Err(AllocError);
        }
        Ok(())
    }

    #[inline(always)]
    fn put(&mut self, bytes: &[u8]) {
        let end = self.len + bytes.len();
        self.to[self.len..end].copy_from_slice(bytes);
        self.len = end;
    }

    #[inline(always)]
    fn put_behind(&mut self, prefix: [u8; 4], bytes: &[u8]) {
        self.put(&prefix);
        self.put(bytes);
    }
}
