//! The calls of a packetizer where every unit goes.

ghost use Rattle.std.specs.Prelude.{◌≡◌, ◌≢◌, ◌⊎◌, Some, None, length};
ghost use Rattle.std.specs.Option.{option_map};
ghost use Rattle.h26x_packetizer.specs.EveryView.{after_units};
ghost use Rattle.h26x_codes.specs.Codes.{ok, no_room, out_of_memory, out_of_range, wrong_end, refused_unit_numbers, packing_with_number};
ghost use Rattle.h26x_c.specs.Endpoints.{GivesOrOutOfMemory, HasPacketizer, OnceDone, WherePacketizer};
ghost use Rattle.h26x_handles.specs.PlacementAnswer.{AreCounted, IsPlacementAnswer};
ghost use Rattle.h26x_endpoint.specs.EndpointStates.{endpoint_codec, endpoint_every_packets, endpoint_packetizer_state, endpoint_packets, endpoint_refusal, endpoint_settings, endpoint_units_sent};

use crate::const_handle::ConstHandle;
use crate::handle::Handle;
use h26x_codes::code::{
    OK, OUT_OF_RANGE, Refusal, WRONG_END, code_of_placement, code_of_units, packing_of,
};
use h26x_endpoint::endpoint::Endpoint;
use h26x_handles::settings::SendingSettings;
use h26x_packetizer::{Packing, RefusedUnit};
use std::alloc::Global;

/// Sets which units of an access unit share packets.
#[unsafe(no_mangle)]
pub extern "C" fn h26x_packetizer_set_packing(p: &mut Handle, packing: u32) -> u32
    ensures wrong { endpoint_packetizer_state p.old.value ≡ None → result ≡ wrong_end }
    ensures none { WherePacketizer p.old.value
        (λ it. packing_with_number packing ≡ None → result ≡ out_of_range) }
    ensures set { (asked : Packing) → WherePacketizer p.old.value
        (λ it. packing_with_number packing ≡ Some asked →
        (result ≡ ok) × (endpoint_settings p.new.value ≡ option_map
        (λ (s : SendingSettings). record s { packing = asked }) (endpoint_settings p.old.value))) }
    ensures state { endpoint_packetizer_state p.new.value ≡ endpoint_packetizer_state p.old.value }
    ensures codec { endpoint_codec p.new.value ≡ endpoint_codec p.old.value }
    ensures packets { endpoint_packets p.new.value ≡ endpoint_packets p.old.value }
    ensures kept { result ≢ ok → p.new.value ≡ p.old.value }
{
    let Endpoint::Sending(it) = p.get_mut() else {
        return WRONG_END;
    };
    match packing_of(packing) {
        Some(packing) => {
            it.set(SendingSettings {
                packing,
                ..it.settings()
            });
            OK
        }
        None => OUT_OF_RANGE,
    }
}

/// Sets whether access unit delimiters and filler data go where every unit goes.
#[unsafe(no_mangle)]
pub extern "C" fn h26x_packetizer_set_delimiters(p: &mut Handle, delimiters: bool) -> u32
    ensures wrong { endpoint_packetizer_state p.old.value ≡ None → result ≡ wrong_end }
    ensures set { WherePacketizer p.old.value (λ it. (result ≡ ok) × (endpoint_settings p.new.value
        ≡ option_map (λ (s : SendingSettings). record s { delimiters = delimiters })
        (endpoint_settings p.old.value))) }
    ensures state { endpoint_packetizer_state p.new.value ≡ endpoint_packetizer_state p.old.value }
    ensures codec { endpoint_codec p.new.value ≡ endpoint_codec p.old.value }
    ensures packets { endpoint_packets p.new.value ≡ endpoint_packets p.old.value }
    ensures kept { result ≢ ok → p.new.value ≡ p.old.value }
{
    match p.get_mut() {
        Endpoint::Sending(it) => {
            it.set(SendingSettings {
                delimiters,
                ..it.settings()
            });
            OK
        }
        _ => WRONG_END,
    }
}

/// Makes the packets of the units of an access unit in Annex B form, of which none is left out but
/// delimiters and filler where that is set; they take the place of the last call's, and the sets that
/// wait stay. The first unit that can't go is named.
#[unsafe(no_mangle)]
pub extern "C" fn h26x_packetize_units(
    alloc: Global,
    p: &mut Handle,
    mtu: usize,
    access_unit: &[u8],
    count: &mut usize,
    why: &mut Refusal,
) -> u32
    ensures wrong { endpoint_packetizer_state p.old.value ≡ None → result ≡ wrong_end }
    ensures answer { WherePacketizer p.old.value
        (λ it. endpoint_refusal p.old.value mtu access_unit.now ≡ None →
        (result ≡ ok) ⊎ (result ≡ out_of_memory)) }
    ensures refused { (unit : RefusedUnit) →
        endpoint_refusal p.old.value mtu access_unit.now ≡ Some unit →
        GivesOrOutOfMemory result (why.new.first, why.new.second) (refused_unit_numbers unit) }
    ensures packets { OnceDone p.old.value result
        (λ it. endpoint_packets p.new.value
        ≡ endpoint_every_packets p.old.value mtu access_unit.now) }
    ensures after { OnceDone p.old.value result
        (λ it. HasPacketizer p.new.value
        (after_units it (endpoint_units_sent p.old.value access_unit.now))) }
    ensures codec { endpoint_codec p.new.value ≡ endpoint_codec p.old.value }
    ensures settings { endpoint_settings p.new.value ≡ endpoint_settings p.old.value }
    ensures kept { result ≢ ok → p.new.value ≡ p.old.value }
    ensures kept_why { result ≡ ok → why.new ≡ why.old }
    ensures count { count.new ≡ length (endpoint_packets p.new.value) }
{
    match p.get_mut() {
        Endpoint::Sending(it) => {
            let made = it.packetize_units(alloc, mtu, access_unit);
            *count = it.count();
            match made {
                Ok(()) => OK,
                Err(error) => code_of_units(error, why),
            }
        }
        _ => {
            *count = 0;
            WRONG_END
        }
    }
}

/// How many packets there are of the units of an access unit, and how many bytes they take in memory,
/// each behind `headroom`. Nothing changes.
#[unsafe(no_mangle)]
pub extern "C" fn h26x_units_size(
    alloc: Global,
    p: &ConstHandle,
    mtu: usize,
    access_unit: &[u8],
    headroom: usize,
    count: &mut usize,
    size: &mut usize,
    why: &mut Refusal,
) -> u32
    ensures wrong { endpoint_packetizer_state p.now.value ≡ None → result ≡ wrong_end }
    ensures answer { WherePacketizer p.now.value
        (λ it. endpoint_refusal p.now.value mtu access_unit.now ≡ None →
        (result ≡ ok) ⊎ (result ≡ out_of_memory)) }
    ensures refused { (unit : RefusedUnit) →
        endpoint_refusal p.now.value mtu access_unit.now ≡ Some unit →
        GivesOrOutOfMemory result (why.new.first, why.new.second) (refused_unit_numbers unit) }
    ensures size { OnceDone p.now.value result (λ it. AreCounted headroom
        (endpoint_every_packets p.now.value mtu access_unit.now) count.new size.new) }
    ensures none { result ≢ ok → (count.new ≡ 0) × (size.new ≡ 0) }
    ensures kept_why { result ≡ ok → why.new ≡ why.old }
{
    *count = 0;
    *size = 0;
    let made = match p.get() {
        Endpoint::Sending(it) => it.units_size(alloc, mtu, access_unit, headroom),
        _ => return WRONG_END,
    };
    match made {
        Ok(taken) => {
            *count = taken.packets;
            *size = taken.bytes;
            OK
        }
        Err(error) => code_of_units(error, why),
    }
}

/// Copies the packets of the units of an access unit straight to memory where they fit, each behind
/// `headroom` bytes that stay, and writes where each ends; else nothing is done. The packets of the
/// last call stay.
#[unsafe(no_mangle)]
pub extern "C" fn h26x_packetize_units_into(
    alloc: Global,
    p: &mut Handle,
    mtu: usize,
    access_unit: &[u8],
    headroom: usize,
    to: &mut [u8],
    ends: &mut [usize],
    count: &mut usize,
    size: &mut usize,
    why: &mut Refusal,
) -> u32
    ensures wrong { endpoint_packetizer_state p.old.value ≡ None → result ≡ wrong_end }
    ensures answer { WherePacketizer p.old.value
        (λ it. endpoint_refusal p.old.value mtu access_unit.now ≡ None →
        IsPlacementAnswer headroom (endpoint_every_packets p.old.value mtu access_unit.now)
        to.old to.new ends.old ends.new result count.new size.new) }
    ensures refused { (unit : RefusedUnit) →
        endpoint_refusal p.old.value mtu access_unit.now ≡ Some unit →
        GivesOrOutOfMemory result (why.new.first, why.new.second) (refused_unit_numbers unit) }
    ensures after { OnceDone p.old.value result
        (λ it. HasPacketizer p.new.value
        (after_units it (endpoint_units_sent p.old.value access_unit.now))) }
    ensures codec { endpoint_codec p.new.value ≡ endpoint_codec p.old.value }
    ensures settings { endpoint_settings p.new.value ≡ endpoint_settings p.old.value }
    ensures packets { endpoint_packets p.new.value ≡ endpoint_packets p.old.value }
    ensures kept { result ≢ ok → p.new.value ≡ p.old.value }
    ensures kept_to { result ≢ ok → to.new ≡ to.old }
    ensures kept_ends { result ≢ ok → ends.new ≡ ends.old }
    ensures kept_why { (result ≡ ok) ⊎ (result ≡ no_room) → why.new ≡ why.old }
    ensures none { result ≢ ok → result ≢ no_room → (count.new ≡ 0) × (size.new ≡ 0) }
{
    *count = 0;
    *size = 0;
    let Endpoint::Sending(it) = p.get_mut() else {
        return WRONG_END;
    };
    match it.packetize_units_to_memory(alloc, mtu, access_unit, headroom, to, ends) {
        Ok(made) => code_of_placement(Ok(made), count, size),
        Err(error) => code_of_units(error, why),
    }
}
