//! A network that loses, repeats and delays packets.

use crate::draws::Draws;
use h26x_core::PacketError;
use std::alloc::Global;

/// Where the packets of a network come from, in the order in which they come: 1 % are lost, 1 %
/// come twice, and 5 % come up to 16 places late.
pub fn arrivals(alloc: Global, draws: &mut Draws, count: usize) -> Result<Vec<usize>, PacketError> {
    let mut order = Vec::new(alloc);
    let mut late: Vec<(usize, usize)> = Vec::new(alloc);
    for place in 0..count {
        match draws.below(100) {
            0 => {}
            1 => {
                order.push(place)?;
                order.push(place)?;
            }
            2..=6 => {
                let due = place.saturating_add(draws.below(16) as usize);
                late.push((due, place))?;
            }
            _ => order.push(place)?,
        }
        let mut still = Vec::new(alloc);
        for (due, earlier) in late {
            if due <= place {
                order.push(earlier)?;
            } else {
                still.push((due, earlier))?;
            }
        }
        late = still;
    }
    for (_, earlier) in late {
        order.push(earlier)?;
    }
    Ok(order)
}
