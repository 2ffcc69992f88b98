//! What waits where a stream begins anew.

ghost use Rattle.std.specs.Prelude.{◌≡◌, ◌^◌, ◌<◌, ◌≤◌, Some, IfOk};
ghost use Rattle.h26x_access_units.specs.Reception.{anew_of};

use crate::config::AccessUnitConfig;
use crate::jitter::JitterBuffer;
use h26x_reorder::RtpPacket;
use std::alloc::{AllocError, Global};

/// What waits of a stream that begins anew with these two packets: both, whatever the limit.
pub(crate) fn anew_with(
    alloc: Global,
    now: u32,
    config: AccessUnitConfig,
    stray: &RtpPacket<'_>,
    packet: &RtpPacket<'_>,
) -> Result<JitterBuffer, AllocError>
    requires some { 0 < config.window }
    requires half { config.window ≤ 2 ^ 14 }
    ensures { IfOk result (λ waiting. waiting ≡ anew_of now config (Some stray.now) packet.now) }
{
    let unlimited = AccessUnitConfig {
        held_limit: usize::MAX,
        ..config
    };
    let mut waiting = JitterBuffer::new(alloc, unlimited);
    let _ = waiting.push(now, stray)?;
    let _ = waiting.push(now, packet)?;
    waiting.set_held_limit(config.held_limit);
    Ok(waiting)
}
