//! Whether a payload may go in single NAL unit packets alone.

ghost use Rattle.std.specs.Prelude.{◌≡◌, ℕ, List, nat_le, length};
ghost use Rattle.std.specs.List.{list_all};
ghost use Rattle.h26x_cut.specs.Cutting.{AreUnits};
ghost use Rattle.h26x_cut.specs.declared.ZeroRule.TheVariants.{All};

use h26x_cut::{ZeroRule, units};

/// Whether a payload of H.264 can be sent where `packetization-mode` is 0, in packets of a limit in
/// bytes: each of its units fits a packet of its own (RFC 6184, sections 5.6 and 6.2).
///
/// A packetizer that puts an SPS and a PPS into one STAP-A, as the one of this library, is given them
/// in calls of their own. It takes no memory.
pub fn fits_single_units(payload: &[u8], limit: usize) -> bool
    ensures { (list : List (List ℕ)) × AreUnits All payload.now list
        × (result ≡ list_all (λ unit. nat_le (length unit) limit) list) }
{
    for unit in units(payload, ZeroRule::All) {
        if unit.len() > limit {
            return false;
        }
    }
    true
}
