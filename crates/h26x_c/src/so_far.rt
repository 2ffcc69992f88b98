//! The calls that show what came of an access unit before it ends.

ghost use Rattle.std.specs.Prelude.{◌≡◌, true, false, None};
ghost use Rattle.std.specs.Option.{option_map};
ghost use Rattle.h26x_model.specs.Where.{Where};
ghost use Rattle.h26x_assembler.specs.AccessUnit.{units_so_far_value};
ghost use Rattle.h26x_endpoint.specs.EndpointStates.{endpoint_open, endpoint_rtp_open};
ghost use Rattle.h26x_c.specs.SoFar.{IsShown};

use crate::const_handle::ConstHandle;
use h26x_assembler::UnitsSoFar;
use h26x_codes::code::number_of;
use h26x_codes::copy::copy_first;
use h26x_endpoint::endpoint::Endpoint;

/// What is told of an access unit that is open.
#[repr(C)]
#[derive(Clone, Copy)]
pub struct SoFarTold {
    pub len: usize,
    pub timestamp: u32,
    pub extra: u8,
}

/// Copies what came whole so far, from a byte on, as many bytes as there is room for, and tells of it.
fn show(open_unit: Option<UnitsSoFar<'_>>, from: usize, to: &mut [u8], told: &mut SoFarTold) -> bool
    ensures shown { Where (option_map units_so_far_value open_unit.entry)
        (λ unit. IsShown from unit result to.old to.new told.new) }
    ensures none { option_map units_so_far_value open_unit.entry ≡ None → (result ≡ false)
        × (to.new ≡ to.old) × (told.new ≡ told.old) }
{
    let Some(unit) = open_unit else {
        return false;
    };
    let bytes = unit.bytes.get(from..).unwrap_or(&[]);
    *told = SoFarTold {
        len: copy_first(bytes, to),
        timestamp: unit.timestamp,
        extra: number_of(unit.extra),
    };
    true
}

/// Shows what came whole so far of the access unit that is open.
#[unsafe(no_mangle)]
pub extern "C" fn h26x_access_units_so_far(
    u: &ConstHandle,
    from: usize,
    to: &mut [u8],
    so_far: &mut SoFarTold,
) -> bool
    ensures shown { Where (endpoint_open u.now.value)
        (λ unit. IsShown from unit result to.old to.new so_far.new) }
    ensures none { endpoint_open u.now.value ≡ None → (result ≡ false)
        × (to.new ≡ to.old) × (so_far.new ≡ so_far.old) }
{
    match u.get() {
        Endpoint::AccessUnits(it) => show(it.units_so_far(), from, to, so_far),
        _ => false,
    }
}

/// Shows what came whole so far of the access unit that is open in a receiver of datagrams.
#[unsafe(no_mangle)]
pub extern "C" fn h26x_rtp_receiver_so_far(
    r: &ConstHandle,
    from: usize,
    to: &mut [u8],
    so_far: &mut SoFarTold,
) -> bool
    ensures shown { Where (endpoint_rtp_open r.now.value)
        (λ unit. IsShown from unit result to.old to.new so_far.new) }
    ensures none { endpoint_rtp_open r.now.value ≡ None → (result ≡ false)
        × (to.new ≡ to.old) × (so_far.new ≡ so_far.old) }
{
    match r.get() {
        Endpoint::RtpReceiver(it) => show(it.units_so_far(), from, to, so_far),
        _ => false,
    }
}
