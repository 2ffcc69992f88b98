//! The data of the fragments since the latest start (RFC 6184, 5.8; RFC 7798, 4.4.3; RFC 9328,
//! 4.3.3).

ghost use Rattle.std.specs.Prelude.{◌≡◌, ◌⊎◌, ◌++◌, ◌+◌, ◌≤◌, ◌<◌, ◌^◌, length, take, drop, vec_capacity, OnOk, OnErr, IfOk, IsOk, Some, None, Ok, Err, is_some, true};
ghost use Rattle.std.specs.Option.{option_map};
ghost use Rattle.h26x_model.specs.Receive.RunLimit.{run_len};
ghost use Rattle.h26x_depacketizer.specs.Run.{run_bytes, run_memory};

use h26x_core::PacketError;
use std::alloc::Global;
use std::marker::Model;

/// How many bytes of memory a run may have whatever it holds, sixteen of the largest packets: so many a
/// closed one keeps at most.
const KEPT_MEMORY: usize = 1_048_576;

/// How many bytes of memory a run of so many bytes may have.
#[inline]
pub(crate) fn most_memory(len: usize) -> usize
    ensures { result ≤ run_memory len }
{
    KEPT_MEMORY.max(len.saturating_mul(2))
}

/// Memory of so many bytes, with two lists of data one behind the other at its front. It asks once.
pub(crate) fn memory_of(
    alloc: Global,
    size: usize,
    front: &[u8],
    body: &[u8],
) -> Result<Vec<u8>, PacketError>
    requires { length front.now + length body.now ≤ size }
    ensures outcome { OnErr result (result ≡ Err PacketError.OutOfMemory) }
    ensures bytes { IfOk result (λ memory.
        take (length front.now + length body.now) memory.items ≡ front.now ++ body.now) }
    ensures size { IfOk result (λ memory. length memory.items ≡ size) }
    ensures memory { IfOk result (λ memory. vec_capacity memory ≤ size) }
{
    let mut memory = Vec::with_capacity(alloc, size)?;
    memory.extend_from_slice(front).unwrap();
    memory.extend_from_slice(body).unwrap();
    memory.resize(size, 0).unwrap();
    if memory.capacity() > size {
        return Err(PacketError::OutOfMemory);
    }
    Ok(memory)
}

/// Writes these data over those from here on.
#[inline]
fn put_at(bytes: &mut [u8], at: usize, body: &[u8])
    requires { at + length body.now ≤ length bytes.old }
    ensures { bytes.new ≡ take at bytes.old ++ (body.now
        ++ drop (at + length body.now) bytes.old) }
{
    bytes[at..at + body.len()].copy_from_slice(body);
}

/// How many bytes a buffer has that takes the place of a smaller one, for data that end there: twice as
/// many, but where a closed run keeps it no more than that keeps, so that a run of a megabyte has its
/// memory again.
#[inline]
fn grown_size(room: usize, end: usize) -> usize
    ensures holds { end ≤ result }
    ensures memory { room < end → result ≤ run_memory end }
    ensures kept { end ≤ 1048576 → result ≤ 1048576 }
{
    let doubled = room.saturating_mul(2);
    if end > KEPT_MEMORY {
        end.max(doubled)
    } else {
        end.max(doubled.min(KEPT_MEMORY))
    }
}

/// Has these data from here on in another buffer, since this one is too small. Out of the way of those
/// for which there is room.
#[cold]
#[inline(never)]
fn grow(bytes: &mut Vec<u8>, at: usize, body: &[u8]) -> Result<(), PacketError>
    requires within { at ≤ length bytes.old.items }
    requires small { length bytes.old.items < at + length body.now }
    requires fits { at + length body.now < 2 ^ 64 }
    ensures outcome { OnErr result (result ≡ Err PacketError.OutOfMemory) }
    ensures within { OnOk result (at + length body.now ≤ length bytes.new.items) }
    ensures bytes { OnOk result (take (at + length body.now) bytes.new.items
        ≡ take at bytes.old.items ++ body.now) }
    ensures memory { OnOk result (vec_capacity bytes.new ≤ run_memory (at + length body.now)) }
    ensures kept { OnErr result (bytes.new ≡ bytes.old) }
{
    let size = grown_size(bytes.len(), at + body.len());
    let alloc = *bytes.allocator();
    *bytes = memory_of(alloc, size, &bytes[..at], body)?;
    Ok(())
}

/// Has these data in a buffer from here on. Where it is too small another one takes its place. The
/// answer is where they end.
#[inline(always)]
fn put(bytes: &mut Vec<u8>, at: usize, body: &[u8]) -> Result<usize, PacketError>
    requires within { at ≤ length bytes.old.items }
    requires memory { vec_capacity bytes.old ≤ run_memory (at + length body.now) }
    ensures outcome { OnErr result (result ≡ Err PacketError.OutOfMemory) }
    ensures end { IfOk result (λ end. end ≡ at + length body.now) }
    ensures within { OnOk result (at + length body.now ≤ length bytes.new.items) }
    ensures bytes { OnOk result (take (at + length body.now) bytes.new.items
        ≡ take at bytes.old.items ++ body.now) }
    ensures memory { OnOk result (vec_capacity bytes.new ≤ run_memory (at + length body.now)) }
    ensures kept { OnErr result (bytes.new ≡ bytes.old) }
{
    let end = at + body.len();
    if end > bytes.len() {
        grow(bytes, at, body)?;
    } else {
        put_at(bytes, at, body);
    }
    Ok(end)
}

/// The data of an open run, in a buffer that a closed one keeps, of `KEPT_MEMORY` bytes at most.
#[derive(Debug, Drop)]
pub struct OpenRun {
    /// As many bytes as the buffer has memory, the data at its front.
    bytes: Vec<u8>,
    len: usize,
    is_open: bool,
}

impl Model for OpenRun {
    ghost use Rattle.std.specs.Prelude.{◌≡◌, ◌≤◌, false, length, take, vec_capacity, Option, List, ℕ};
    ghost use Rattle.h26x_depacketizer.specs.Run.{run_if_open, run_memory};

    ghost Value = { Option (List ℕ) };

    ghost view = { λ a. run_if_open a.is_open (take a.len a.bytes.items) };

    ghost invariant = { λ a. (a.len ≤ length a.bytes.items) × (a.is_open ≡ false → a.len ≡ 0)
        × (vec_capacity a.bytes ≤ run_memory a.len) };
}

impl OpenRun {
    /// No run.
    pub fn none(alloc: Global) -> Self
        ensures { result ≡ None }
    {
        OpenRun {
            bytes: Vec::new(alloc),
            len: 0,
            is_open: false,
        }
    }

    /// Begins a run anew with these data. A buffer that is too large for them goes back.
    pub fn begin(&mut self, body: &[u8]) -> Result<(), PacketError>
        ensures outcome { (result ≡ Ok tt) ⊎ (result ≡ Err PacketError.OutOfMemory) }
        ensures run { OnOk result (self.new ≡ Some body.now) }
        ensures kept { OnErr result (self.new ≡ self.old) }
    {
        if self.bytes.capacity() > most_memory(body.len()) {
            let alloc = *self.bytes.allocator();
            self.bytes = memory_of(alloc, body.len(), &[], body)?;
            self.len = body.len();
        } else {
            self.len = put(&mut self.bytes, 0, body)?;
        }
        self.is_open = true;
        Ok(())
    }

    /// Where its memory comes from.
    pub(crate) fn allocator(&self) -> Global {
        *self.bytes.allocator()
    }

    /// Whether a run is open.
    pub fn is_open(&self) -> bool
        ensures { result ≡ is_some self.now }
    {
        self.is_open
    }

    /// The data of the run; none where none is open.
    pub fn bytes(&self) -> &[u8]
        ensures { result.now ≡ run_bytes self.now }
    {
        &self.bytes[..self.len]
    }

    /// How many bytes the run holds; none where none is open.
    pub fn len(&self) -> usize
        ensures { result ≡ run_len self.now }
    {
        self.len
    }

    /// How many bytes of memory its buffer has, data or not: twice its data at most, or 2^20.
    pub fn memory(&self) -> usize
        ensures holds { run_len self.now ≤ result }
        ensures most { result ≤ run_memory (run_len self.now) }
    {
        self.bytes.capacity()
    }

    /// The same, if a run is open.
    #[inline]
    pub fn open_len(&self) -> Option<usize>
        ensures { result ≡ option_map length self.now }
    {
        if self.is_open { Some(self.len) } else { None }
    }

    /// Adds these data to the open run. A copy behind the others, without a call, where there is room.
    #[inline(always)]
    pub fn extend(&mut self, body: &[u8]) -> Result<(), PacketError>
        requires { is_some self.old ≡ true }
        ensures outcome { (result ≡ Ok tt) ⊎ (result ≡ Err PacketError.OutOfMemory) }
        ensures run { OnOk result (self.new ≡ Some (run_bytes self.old ++ body.now)) }
        ensures kept { OnErr result (self.new ≡ self.old) }
    {
        self.len = put(&mut self.bytes, self.len, body)?;
        Ok(())
    }

    /// Closes the run. Memory over `KEPT_MEMORY` bytes goes back.
    #[inline]
    pub fn close(&mut self)
        ensures { self.new ≡ None }
    {
        if self.bytes.capacity() > KEPT_MEMORY {
            self.give_up();
        } else {
            self.len = 0;
            self.is_open = false;
        }
    }

    /// Closes the run and gives back its buffer.
    pub fn give_up(&mut self)
        ensures { self.new ≡ None }
    {
        let alloc = *self.bytes.allocator();
        *self = OpenRun::none(alloc);
    }

    /// The same run again; none takes no memory.
    pub fn clone(&self) -> Result<Self, PacketError>
        ensures same { IfOk result (λ it. it ≡ self.now) }
        ensures memory { OnErr result (result ≡ Err PacketError.OutOfMemory) }
        ensures free { self.now ≡ None → IsOk result }
    {
        if !self.is_open {
            return Ok(OpenRun::none(*self.bytes.allocator()));
        }
        let mut run = OpenRun::none(*self.bytes.allocator());
        run.begin(self.bytes())?;
        Ok(run)
    }
}

impl PartialEq for OpenRun {
    ghost use Rattle.std.specs.Prelude.{nat_eq};
    ghost use Rattle.std.specs.Option.{option_eq};
    ghost use Rattle.std.specs.Cmp.{partial_equiv_from_equiv};
    ghost use Rattle.std.specs.Cmp.Rules.{comparing};
    ghost use Rattle.std.specs.Cmp.Lexicographic.{pointwise};
    ghost use Rattle.std.proofs.Common.{rules};

    ghost eq = { option_eq (pointwise nat_eq) };

    ghost laws = { partial_equiv_from_equiv (Prim.search (comparing, rules)) };

    fn eq(&self, other: &Self) -> bool {
        self.is_open == other.is_open && self.bytes() == other.bytes()
    }
}

impl Eq for OpenRun {
    ghost use Rattle.std.specs.Cmp.Rules.{comparing};
    ghost use Rattle.std.proofs.Common.{rules};

    ghost laws = { Prim.search (comparing, rules) };
}
