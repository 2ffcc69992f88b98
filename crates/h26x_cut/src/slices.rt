//! The units of a payload, as slices of it.

ghost use Rattle.std.specs.Prelude.{◌≡◌, [], None, IfSome, drop};
ghost use Rattle.std.specs.Iterator.{YieldsFirstBy, item_count};
ghost use Rattle.h26x_cut.specs.Cutting.{AreUnits, IsNextUnit, trimmed, units_of};
ghost use Rattle.h26x_cut.specs.Slices.{units_behind};

use crate::ZeroRule;
use crate::marks::CODE;
use crate::search::first_code;
use std::marker::Model;
use std::ops::Range;

/// The units of a payload that are left, in order, as slices of it (Annex B of H.264, H.265 and
/// H.266).
#[derive(Debug, Drop)]
pub struct UnitSlices<'a> {
    /// What stands behind the last start code that was passed.
    rest: &'a [u8],
    /// Where the next start code begins in it, by its two nearest zeros.
    next_code: Option<usize>,
    rule: ZeroRule,
}

impl<'a> Model for UnitSlices<'a> {
    ghost use Rattle.std.specs.Prelude.{◌≡◌, List, ℕ};
    ghost use Rattle.h26x_cut.specs.Slices.{units_behind, IsFirstCode};

    ghost Value = { List (List ℕ) };

    ghost view = { λ a. units_behind a.rule a.rest.now };

    ghost invariant = { λ a. IsFirstCode a.rest.now a.next_code };
}

/// A segment without the zeros that the start code behind it takes.
fn without_code_zeros(segment: &[u8], rule: ZeroRule) -> &[u8]
    ensures { result.now ≡ trimmed rule segment.now }
{
    match rule {
        ZeroRule::All => {
            let mut end = segment.len();
            while end > 0 && segment[end - 1] == 0 {
                end -= 1;
            }
            &segment[..end]
        }
        ZeroRule::AtMostThree => {
            let len = segment.len();
            if len > 0 && segment[len - 1] == 0 {
                &segment[..len - 1]
            } else {
                segment
            }
        }
    }
}

/// The units of bytes that stand behind a start code.
fn units_behind_code(bytes: &[u8], rule: ZeroRule) -> UnitSlices<'_>
    ensures { result ≡ units_behind rule bytes.now }
{
    UnitSlices {
        rest: bytes,
        next_code: first_code(bytes),
        rule,
    }
}

/// The units of a payload, in order, as slices of it.
///
/// Without a start code the whole payload is one unit. Otherwise the bytes before the first code
/// are dropped, and a unit stands between each code and the next, the last one up to the end. Empty
/// units are left out. It takes no memory and refuses nothing (Annex B of H.264, H.265 and H.266).
///
/// ```rust
/// for unit in units(&[0, 0, 1, 0x67, 0x42, 0, 0, 0, 1, 0x65], ZeroRule::All) {
///     look_at(unit); // first 67 42, then 65
/// }
/// ```
pub fn units(payload: &[u8], rule: ZeroRule) -> UnitSlices<'_>
    ensures { AreUnits rule payload.now result }
{
    match first_code(payload) {
        Some(place) => units_behind_code(&payload[place + CODE.len()..], rule),
        None => UnitSlices {
            rest: payload,
            next_code: None,
            rule,
        },
    }
}

/// Where the next unit of a payload stands: the first one that begins at a place or behind it.
///
/// From 0 on it finds the first unit, and from the end of one the next, so that a caller who can't
/// keep slices goes through the units of [`units`] by their places. `None` where no unit is left. It
/// takes no memory and refuses nothing (Annex B of H.264, H.265 and H.266).
///
/// ```rust
/// let payload = [0, 0, 1, 0x67, 0x42, 0, 0, 0, 1, 0x65];
/// assert_eq!(rt; next_unit(&payload, ZeroRule::All, 0), Some(3..5));
/// assert_eq!(rt; next_unit(&payload, ZeroRule::All, 5), Some(9..10));
/// assert_eq!(rt; next_unit(&payload, ZeroRule::All, 10), None);
/// ```
pub fn next_unit(payload: &[u8], rule: ZeroRule, from: usize) -> Option<Range<usize>>
    ensures none { result ≡ None → units_of rule (drop from payload.now) ≡ [] }
    ensures some { IfSome result (λ place. IsNextUnit (units_of rule) payload.now from
        place.start place.end) }
{
    let behind = payload.get(from..)?;
    let mut rest = match first_code(behind) {
        Some(place) => &behind[place + CODE.len()..],
        None if behind.is_empty() => return None,
        None => return Some(from..payload.len()),
    };
    while !rest.is_empty() {
        let begin = payload.len() - rest.len();
        let Some(place) = first_code(rest) else {
            return Some(begin..payload.len());
        };
        let unit = without_code_zeros(&rest[..place], rule);
        if !unit.is_empty() {
            return Some(begin..begin + unit.len());
        }
        rest = &rest[place + CODE.len()..];
    }
    None
}

impl<'a> Iterator for UnitSlices<'a> {
    type Item = &'a [u8];

    ghost next_gives = { YieldsFirstBy (λ unit. unit.now) (λ s. s) };

    ghost remaining = { item_count (λ s. s) };

    #[inline(always)]
    fn next(&mut self) -> Option<&'a [u8]> {
        while !self.rest.is_empty() {
            match self.next_code {
                Some(place) => {
                    let unit = without_code_zeros(&self.rest[..place], self.rule);
                    self.rest = &self.rest[place + CODE.len()..];
                    self.next_code = first_code(self.rest);
                    if !unit.is_empty() {
                        return Some(unit);
                    }
                }
                None => {
                    let unit = self.rest;
                    self.rest = &[];
                    return Some(unit);
                }
            }
        }
        None
    }
}
