//! The memory that the next packet is shown by.

ghost use Rattle.std.specs.Prelude.{◌≡◌, ◌+◌, ◌<◌, ◌≤◌, ◌++◌, ◌∷◌, [], nat_le, length, take, vec_capacity, OnOk};
ghost use Rattle.std.specs.List.{list_all};
ghost use Rattle.h265_payload.specs.ShownParts.{other_of};
ghost use Rattle.h265_payload.specs.Spare.{AreFew};

use h265_packets::{H265AggregationUnit, H265Payload};
use std::alloc::{AllocError, Global};
use std::mem;

/// How many units of a list keep their memory for later ones.
const MOST_UNITS: usize = 32;

/// How many bytes each of them may have. A unit that was longer is never used again, so no sender has
/// a depacketizer keep a long list, in each place of which a long unit stood once.
const MOST_BYTES: usize = 1500;

/// For how many units a list that is kept may have room.
const MOST_ROOM: usize = 256;

/// How many bytes of memory are kept for the next packet's data: sixteen of the largest packets.
const MOST_DATA: usize = 1_048_576;

/// Memory of packets that were shown before. What the next packet is shown by is put there first,
/// and changes places with what is shown when nothing can fail any more.
#[derive(Debug, Drop)]
pub struct Spare {
    /// The next packet's data, or the first unit of an aggregate.
    pub data: Vec<u8>,
    /// The further units of an aggregate. Until then, those of one that was shown before.
    pub others: Vec<H265AggregationUnit>,
    /// The second list of further units, while no aggregate is shown that has it.
    second: Vec<H265AggregationUnit>,
    /// Units behind the last of a shorter aggregate. The next longer one takes from the end, and so
    /// finds what stood behind its own last.
    surplus: Vec<H265AggregationUnit>,
    ghost second_kept: { AreFew second.items },
    ghost second_room: { vec_capacity second ≤ 256 },
    ghost surplus_kept: { AreFew surplus.items },
}

/// Whether none of these units is too long to be kept.
fn are_short(units: &[H265AggregationUnit]) -> bool
    ensures { result ≡ list_all (λ unit. nat_le (length unit.nal_unit) 1500) units.now }
{
    units.iter().all(|unit| unit.nal_unit().len() <= MOST_BYTES)
}

/// Keeps the memory of a few units; none where one is too long, or where so many stood there once
/// that the list is.
fn keep_few(units: &mut Vec<H265AggregationUnit>)
    ensures kept { AreFew units.new.items }
    ensures room { vec_capacity units.new ≤ 256 }
{
    units.truncate(MOST_UNITS);
    if units.capacity() > MOST_ROOM || !are_short(units) {
        *units = Vec::new(*units.allocator());
    }
}

impl Spare {
    /// No memory.
    pub fn new(alloc: Global) -> Self
        ensures data { vec_capacity result.data ≡ 0 }
        ensures others { vec_capacity result.others ≡ 0 }
        ensures second { vec_capacity result.second ≡ 0 }
        ensures surplus { vec_capacity result.surplus ≡ 0 }
    {
        Spare {
            data: Vec::new(alloc),
            others: Vec::new(alloc),
            second: Vec::new(alloc),
            surplus: Vec::new(alloc),
        }
    }

    /// Where its memory comes from.
    pub fn allocator(&self) -> Global {
        *self.data.allocator()
    }

    /// Puts the next packet's data in place.
    #[inline]
    pub fn put_data(&mut self, bytes: &[u8]) -> Result<(), AllocError>
        ensures data { OnOk result (self.new.data.items ≡ bytes.now) }
    {
        self.data.clear();
        self.data.extend_from_slice(bytes)
    }

    /// Removes the data.
    #[inline]
    pub fn remove_data(&mut self) -> Vec<u8>
        ensures data { result.items ≡ self.old.data.items }
        ensures others { self.new.others.items ≡ self.old.others.items }
    {
        let alloc = self.allocator();
        mem::replace(&mut self.data, Vec::new(alloc))
    }

    /// Frees the memory of the data where it is more than is kept.
    #[inline]
    pub fn limit_data(&mut self)
        ensures { vec_capacity self.new.data ≤ 1048576 }
    {
        if self.data.capacity() > MOST_DATA {
            self.data = Vec::new(self.allocator());
        }
    }

    /// Keeps the memory of a few of the further units, for the next aggregate.
    pub fn keep_others(&mut self)
        ensures kept { AreFew self.new.others.items }
        ensures room { vec_capacity self.new.others ≤ 256 }
        ensures data { self.new.data.items ≡ self.old.data.items }
    {
        keep_few(&mut self.others);
    }

    /// Puts a further unit of the next aggregate behind so many others.
    pub fn put_other(
        &mut self,
        count: usize,
        dond: Option<u8>,
        unit: &[u8],
    ) -> Result<(), AllocError>
        requires place { count ≤ length self.old.others.items }
        requires short { length unit.now < 65536 }
        ensures others { OnOk result (take (count + 1) self.new.others.items
            ≡ take count self.old.others.items ++ other_of dond unit.now ∷ []) }
        ensures place { OnOk result (count < length self.new.others.items) }
        ensures data { self.new.data.items ≡ self.old.data.items }
    {
        if count < self.others.len() {
            return self.others[count].set(dond, unit);
        }
        let mut other = match self.surplus.pop() {
            Some(other) => other,
            None => H265AggregationUnit::empty(self.allocator()),
        };
        other.set(dond, unit)?;
        self.others.push(other)?;
        Ok(())
    }

    /// Leaves so many further units, and keeps the memory of a few of those behind them where there
    /// is room for it.
    pub fn limit_others(&mut self, count: usize)
        requires { count ≤ length self.old.others.items }
        ensures others { self.new.others.items ≡ take count self.old.others.items }
        ensures data { self.new.data.items ≡ self.old.data.items }
    {
        while self.others.len() > count {
            let Some(unit) = self.others.pop() else {
                return;
            };
            if self.surplus.len() < MOST_UNITS && unit.nal_unit().len() <= MOST_BYTES {
                let _ = self.surplus.push(unit);
            }
        }
    }

    /// Removes the further units.
    pub fn remove_others(&mut self) -> Vec<H265AggregationUnit>
        ensures others { result.items ≡ self.old.others.items }
        ensures kept { AreFew self.new.others.items }
        ensures room { vec_capacity self.new.others ≤ 256 }
    {
        let alloc = self.allocator();
        let second = mem::replace(&mut self.second, Vec::new(alloc));
        mem::replace(&mut self.others, second)
    }

    /// Keeps the memory of what was shown before.
    pub fn keep(&mut self, before: H265Payload)
        ensures others { self.new.others ≡ self.old.others }
    {
        match before {
            H265Payload::H265AggregationPacket(packet) => {
                let (first, mut others) = packet.into_units();
                keep_few(&mut others);
                self.second = others;
                if let Some(unit) = first {
                    self.data = unit.into_buffer();
                }
            }
            other => {
                if let Some(buffer) = other.into_buffer() {
                    self.data = buffer;
                }
            }
        }
    }
}
