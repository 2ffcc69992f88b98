//! Where units are written.

ghost use Rattle.std.specs.Prelude.{◌≡◌, ◌≤◌, ◌<◌, ◌+◌, ◌-◌, ◌^◌, ◌++◌, ℕ, Bool, true, length, OnOk, OnErr, vec_len, vec_capacity};
ghost use Rattle.h26x_depacketizer.specs.UnitSink.{Sink, list_sink, with_written};

use std::alloc::AllocError;

/// What units are written to, one behind the other: a list of bytes, or memory of a caller.
pub trait UnitSink {
    ghost sink: { Self → Sink };

    // How many bytes it takes.
    ghost room: { Self → ℕ };

    // Whether it was asked for room that it doesn't have, as far as it tells.
    ghost lacks: { Self → Bool };

    /// Has room for so many bytes more, or fails, leaves everything and tells that room lacks.
    fn reserve(&mut self, count: usize) -> Result<(), AllocError>
        ensures same { sink self.new ≡ sink self.old }
        ensures room { OnOk result (count ≤ room self.new) }

        // Nothing has room for `usize::MAX` bytes.
        ensures small { OnOk result (count < 2 ^ 64 - 1) }
        ensures refused { OnErr result (room self.old < count) }
        ensures lacks { OnErr result (lacks self.new ≡ true) }
        ensures kept_lacks { OnOk result (lacks self.new ≡ lacks self.old) };

    /// Writes bytes behind the others.
    fn put(&mut self, bytes: &[u8])
        requires { length bytes.now ≤ room self.old }
        ensures written { sink self.new ≡ with_written (sink self.old) bytes.now }
        ensures room { room self.old ≤ room self.new + length bytes.now }
        ensures kept_lacks { lacks self.new ≡ lacks self.old };

    /// Writes bytes behind a prefix of four, and both behind the others.
    fn put_behind(&mut self, prefix: [u8; 4], bytes: &[u8])
        requires { 4 + length bytes.now ≤ room self.old }
        ensures written { sink self.new ≡ with_written (sink self.old) (prefix ++ bytes.now) }
        ensures room { room self.old ≤ room self.new + (4 + length bytes.now) }
        ensures kept_lacks { lacks self.new ≡ lacks self.old };
}

impl UnitSink for Vec<u8> {
    ghost sink = { λ bytes. list_sink bytes.items };

    ghost room = { λ bytes. vec_capacity bytes - vec_len bytes };

    // It tells nothing, so it always may have been.
    ghost lacks = { λ bytes. true };

    #[inline(always)]
    fn reserve(&mut self, count: usize) -> Result<(), AllocError> {
        Vec::reserve(self, count)
    }

    #[inline(always)]
    fn put(&mut self, bytes: &[u8]) {
        self.extend_from_slice(bytes).unwrap();
    }

    #[inline(always)]
    fn put_behind(&mut self, prefix: [u8; 4], bytes: &[u8]) {
        self.put(&prefix);
        self.put(bytes);
    }
}
