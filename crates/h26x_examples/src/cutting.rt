//! The units of a payload.

use crate::stand_ins::look_at;
use h26x_cut::{ZeroRule, units};

/// Goes over the units of a payload of H.264 or H.265.
pub fn look_at_units() {
    for unit in units(&[0, 0, 1, 0x67, 0x42, 0, 0, 0, 1, 0x65], ZeroRule::All) {
        look_at(unit); // first 67 42, then 65
    }
}

/// The longest unit of a payload of H.264 or H.265, in bytes; 0 where it has none.
pub fn longest_unit(payload: &[u8]) -> usize {
    units(payload, ZeroRule::All)
        .map(|unit| unit.len())
        .max()
        .unwrap_or(0)
}

mod tests {
    use super::*;

    #[test]
    fn the_first_unit_is_the_longest(rt: HostRuntime) {
        let payload = [0, 0, 1, 0x67, 0x42, 0, 0, 0, 1, 0x65];
        assert!(rt; longest_unit(&payload) == 2);
    }
}
