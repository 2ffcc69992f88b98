//! Packets for a receiver of access units, many in one call.

ghost use Rattle.std.specs.Prelude.{◌≡◌, ◌&&◌, true, false};
ghost use Rattle.h26x_endpoint.specs.EndpointStates.{is_access_units};
ghost use Rattle.h26x_codes.specs.Codes.{out_of_range, wrong_end};
ghost use Rattle.h26x_c.specs.PushAll.{lie_within, ArePushedTo};

use crate::handle::Handle;
use h26x_codes::code::{OUT_OF_RANGE, WRONG_END};
use h26x_endpoint::endpoint::Endpoint;
use h26x_handles::payloads::{RtpPayload, are_within};
use h26x_handles::push_all::PushTold;

/// Takes packets that came at this tick, whose payloads lie in one buffer, as by one call after the
/// other.
#[unsafe(no_mangle)]
pub extern "C" fn h26x_access_units_push_all(
    u: &mut Handle,
    now: u32,
    bytes: &[u8],
    payloads: &[RtpPayload],
    told: &mut [PushTold],
    taken: &mut usize,
) -> u32
    ensures wrong { is_access_units u.old.value ≡ false → result ≡ wrong_end }
    ensures outside { is_access_units u.old.value ≡ true →
        lie_within bytes.now payloads.now ≡ false → result ≡ out_of_range }
    ensures pushed { ArePushedTo now bytes.now payloads.now u.old.value u.new.value
        told.old told.new result taken.new }
    ensures kept { is_access_units u.old.value && lie_within bytes.now payloads.now ≡ false →
        (u.new.value ≡ u.old.value) × (told.new ≡ told.old) × (taken.new ≡ 0) }
{
    *taken = 0;
    let Endpoint::AccessUnits(it) = u.get_mut() else {
        return WRONG_END;
    };
    if !are_within(payloads, bytes.len()) {
        return OUT_OF_RANGE;
    }
    let (code, count) = it.push_all(now, bytes, payloads, told);
    *taken = count;
    code
}
