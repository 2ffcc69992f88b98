//! Packets with their sequence numbers for a receiver, many in one call.

ghost use Rattle.std.specs.Prelude.{◌≡◌, ◌&&◌, true, false};
ghost use Rattle.h26x_endpoint.specs.EndpointStates.{is_sequenced};
ghost use Rattle.h26x_codes.specs.Codes.{out_of_range, wrong_end};
ghost use Rattle.h26x_c.specs.PushAll.{lie_within};
ghost use Rattle.h26x_c.specs.ReceiveAll.{AreReceivedBy};

use crate::handle::Handle;
use h26x_codes::code::{OUT_OF_RANGE, WRONG_END};
use h26x_endpoint::endpoint::Endpoint;
use h26x_handles::payloads::{RtpPayload, are_within};
use h26x_handles::receive_all::ReceivedTold;

/// Takes packets with their sequence numbers, whose payloads lie in one buffer, as by one call after
/// the other, and writes what they complete one behind the other.
#[unsafe(no_mangle)]
pub extern "C" fn h26x_receive_all(
    r: &mut Handle,
    bytes: &[u8],
    payloads: &[RtpPayload],
    to: &mut [u8],
    told: &mut [ReceivedTold],
    taken: &mut usize,
    written: &mut usize,
) -> u32
    ensures wrong { is_sequenced r.old.value ≡ false → result ≡ wrong_end }
    ensures outside { is_sequenced r.old.value ≡ true →
        lie_within bytes.now payloads.now ≡ false → result ≡ out_of_range }
    ensures received { AreReceivedBy bytes.now payloads.now r.old.value to.old told.old
        r.new.value to.new told.new result taken.new written.new }
    ensures kept { is_sequenced r.old.value && lie_within bytes.now payloads.now ≡ false →
        r.new.value ≡ r.old.value }
    ensures kept_to { is_sequenced r.old.value && lie_within bytes.now payloads.now ≡ false →
        (to.new ≡ to.old) × (told.new ≡ told.old) }
    ensures none { is_sequenced r.old.value && lie_within bytes.now payloads.now ≡ false →
        (taken.new ≡ 0) × (written.new ≡ 0) }
{
    *taken = 0;
    *written = 0;
    let Endpoint::Sequenced(it) = r.get_mut() else {
        return WRONG_END;
    };
    if !are_within(payloads, bytes.len()) {
        return OUT_OF_RANGE;
    }
    let end = it.receive_all(bytes, payloads, to, told);
    *taken = end.taken;
    *written = end.written;
    end.code
}
