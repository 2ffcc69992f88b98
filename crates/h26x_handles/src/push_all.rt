//! Packets for a receiver of access units, many in one call.

ghost use Rattle.std.specs.Prelude.{◌≡◌, true, List, length, map};
ghost use Rattle.std.specs.List.{list_all};
ghost use Rattle.h26x_access_units.specs.declared.pushed.Pushed.{Pushed};
ghost use Rattle.h26x_codes.specs.Copies.{with_first};
ghost use Rattle.h26x_handles.specs.AccessUnits.{units_state_of};
ghost use Rattle.h26x_handles.specs.Payloads.{is_within, packet_in};
ghost use Rattle.h26x_handles.specs.PushAll.{is_full, push_told, AreToldPushed};

use crate::access_units::{AccessUnitEndpoint, numbers_of_push};
use crate::payloads::{RtpPayload, packet_in, put_at};
use h26x_access_units::Pushed;
use h26x_codes::code::{OK, OUT_OF_MEMORY};

/// What became of a packet that was pushed: which of the seven it is, and how far it is behind.
#[repr(C)]
#[derive(Clone, Copy)]
pub struct PushTold {
    pub pushed: u32,
    pub behind: u16,
}

/// What is told of a packet.
fn push_told(pushed: Pushed) -> PushTold
    ensures { result ≡ push_told pushed }
{
    let (pushed, behind) = numbers_of_push(pushed);
    PushTold { pushed, behind }
}

/// Whether a packet is to be given again.
fn is_full(pushed: Pushed) -> bool
    ensures { result ≡ is_full pushed }
{
    match pushed {
        Pushed::Full => true,
        _ => false,
    }
}

impl AccessUnitEndpoint {
    /// Takes packets that came at this tick, one after the other, up to the first that is full or for
    /// which memory lacks; the code of the last call, and how many are not to be given again. What
    /// became of each goes to the caller's memory, as far as there is room.
    pub fn push_all(
        &mut self,
        now: u32,
        bytes: &[u8],
        payloads: &[RtpPayload],
        told: &mut [PushTold],
    ) -> (u32, usize)
        requires { list_all (is_within (length bytes.now)) payloads.now ≡ true }
        ensures { AreToldPushed now (map (packet_in bytes.now) payloads.now)
            (units_state_of self.old) (units_state_of self.new) told.old told.new result.0 result.1 }
    {
        let mut taken = 0;
        for it in payloads {
            let Ok(pushed) = self.push(now, &packet_in(bytes, it)) else {
                return (OUT_OF_MEMORY, taken);
            };
            put_at(told, taken, push_told(pushed));
            if is_full(pushed) {
                return (OK, taken);
            }
            taken += 1;
        }
        (OK, taken)
    }
}
