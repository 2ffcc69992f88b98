//! Payloads of small units.

use crate::draws::Draws;
use crate::setting::Setting;
use crate::stream::Picture;
use h26x_core::PacketError;
use std::alloc::Global;

/// How many units a payload has.
const UNITS: u32 = 50;

/// Payloads of fifty units of 20 to 150 bytes.
pub fn small_payloads(
    alloc: Global,
    draws: &mut Draws,
    setting: Setting,
    count: u32,
) -> Result<Vec<Picture>, PacketError> {
    let mut payloads = Vec::new(alloc);
    for _ in 0..count {
        let mut payload = Picture::new(alloc);
        for _ in 0..UNITS {
            let len = 20 + draws.below(131) as usize;
            payload.push_unit(draws, setting.slice_header(), len)?;
        }
        payloads.push(payload)?;
    }
    Ok(payloads)
}
