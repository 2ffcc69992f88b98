//! Units of an access unit in order, of which few take no memory.

ghost use Rattle.std.specs.Prelude.{◌≡◌, ◌++◌, ◌∷◌, [], OnOk};
ghost use Rattle.h26x_packetizer.specs.Group.{lent_units};
ghost use Rattle.h26x_codec.specs.SentUnits as spec;

use h26x_codec::Codec;
use h26x_cut::{laws, units};
use std::alloc::{AllocError, Global};
use std::marker::Model;

/// So many take no memory of the allocator: few access units have more.
const FEW_UNITS: usize = 16;

/// Units as slices, in order: few stand here, and where they are more all in a list.
#[derive(Drop)]
pub(crate) struct UnitList<'a> {
    few: [&'a [u8]; FEW_UNITS],
    count: usize,
    is_many: bool,
    many: Vec<&'a [u8]>,
}

impl<'a> Model for UnitList<'a> {
    ghost use Rattle.std.specs.Prelude.{◌≡◌, ◌≤◌, ◌⊎◌, false, if◌then◌else◌, List, ℕ, take};
    ghost use Rattle.h26x_packetizer.specs.Group.{lent_units};

    ghost Value = { List (List ℕ) };

    ghost view = { λ a. lent_units (if a.is_many then a.many.items else take a.count a.few) };

    ghost invariant = { λ a. (a.count ≤ 16) × ((a.is_many ≡ false) ⊎ (a.count ≡ 16)) };
}

impl<'a> UnitList<'a> {
    /// A list of none of the units of an access unit; its memory comes from `alloc`.
    #[inline(always)]
    pub(crate) fn new(alloc: Global, access_unit: &'a [u8]) -> Self
        ensures { result ≡ [] }
    {
        UnitList {
            // (what stands in these places is never looked at)
            few: [access_unit; FEW_UNITS],
            count: 0,
            is_many: false,
            many: Vec::new(alloc),
        }
    }

    /// All as a slice.
    #[inline]
    pub(crate) fn as_slice(&self) -> &[&'a [u8]]
        ensures { lent_units result.now ≡ self.now }
    {
        if self.is_many {
            &self.many
        } else {
            &self.few[..self.count]
        }
    }

    /// Appends a unit.
    #[inline(always)]
    pub(crate) fn add(&mut self, unit: &'a [u8]) -> Result<(), AllocError>
        ensures { OnOk result (self.new ≡ self.old ++ unit.now ∷ []) }
    {
        let count = self.count;
        if count < FEW_UNITS {
            self.few[count] = unit;
            self.count = count + 1;
            return Ok(());
        }
        if self.is_many {
            self.many.push(unit)?;
            return Ok(());
        }
        self.add_to_many(unit)
    }

    /// Appends a unit to the list.
    #[cold]
    #[inline(never)]
    fn add_to_many(&mut self, unit: &'a [u8]) -> Result<(), AllocError>
        ensures { OnOk result (self.new ≡ self.old ++ unit.now ∷ []) }
    {
        if !self.is_many {
            let count = self.count;
            let alloc = *self.many.allocator();
            self.many = self.few[..count].to_vec(alloc)?;
            self.many.reserve(3 * FEW_UNITS)?;
            self.count = FEW_UNITS;
            self.is_many = true;
        }
        self.many.push(unit)?;
        Ok(())
    }
}

/// Appends the units of an access unit in Annex B form that are sent to a list, as slices of it: all,
/// or all but delimiters and filler data.
#[inline(always)]
pub(crate) fn list_sent<'a>(
    codec: Codec,
    delimiters: bool,
    access_unit: &'a [u8],
    list: &mut UnitList<'a>,
) -> Result<(), AllocError>
    ensures { OnOk result (list.new ≡ list.old
        ++ spec.sent_units delimiters codec access_unit.now) }
{
    laws::one_cutting();
    for unit in units(access_unit, codec.zero_rule()) {
        if delimiters || !codec.is_delimiter(unit) {
            list.add(unit)?;
        }
    }
    Ok(())
}
