//! The calls of a packetizer.

ghost use Rattle.std.specs.Prelude.{◌≡◌, ◌≢◌, ◌≤◌, ◌<◌, ◌⊎◌, ℕ, [], true, false, Some, None, Ok, Err, length, drop};
ghost use Rattle.std.specs.List.{concat};
ghost use Rattle.h26x_model.specs.Send.PacketizerState.{next_packets, after_payload, payload_has_no_effect, one_unit_items, one_unit_packets, after_one_unit};
ghost use Rattle.h26x_codec.specs.Codec.{codec_format, fresh_packetizer_state};
ghost use Rattle.h26x_codec.specs.declared.codec.Codec.{Codec};
ghost use Rattle.h26x_codes.specs.Codes.{codec_or_code, may_have_donl, ok, out_of_memory, wrong_end, not_of_this_codec, out_of_range};
ghost use Rattle.h26x_codes.specs.Copies.{with_front, nth_packet, AreCopied};
ghost use Rattle.h26x_c.specs.Endpoints.{Makes, HasPacketizer, WherePacketizer, OnceDone, WhereDonl};
ghost use Rattle.h26x_handles.specs.PlacementAnswer.{AreCounted, IsPlacementAnswer};
ghost use Rattle.h26x_handles.specs.States.{state_with_donl, state_with_lowest_header};
ghost use Rattle.std.specs.Option.{option_map};
ghost use Rattle.h26x_handles.specs.Settings.{first_settings};
ghost use Rattle.h26x_handles.specs.declared.settings.SendingSettings.{SendingSettings};
ghost use Rattle.h26x_endpoint.specs.EndpointStates.{endpoint_packetizer_state, endpoint_packets, endpoint_codec, endpoint_lowest_header, endpoint_settings, place_packetizer_state, place_packets, place_settings, endpoint_without_output};

use crate::const_handle::ConstHandle;
use crate::handle::Handle;
use crate::place::{Place, put};
use h26x_codes::code::{
    NOT_OF_THIS_CODEC, OK, OUT_OF_MEMORY, OUT_OF_RANGE, WRONG_END, code_of_placement, codec_wanted,
    may_have_donl,
};
use h26x_codes::copy::copy_where_room;
use h26x_endpoint::endpoint::Endpoint;
use h26x_handles::sending::SendingEndpoint;
use std::alloc::Global;

/// Makes a packetizer for which nothing waits.
#[unsafe(no_mangle)]
pub extern "C" fn h26x_packetizer_new(
    alloc: Global,
    codec: u32,
    numbers: bool,
    made: &mut Place,
) -> u32
    ensures refused { (code : ℕ) → codec_or_code codec numbers ≡ Err code → result ≡ code }
    ensures answer { (c : Codec) → codec_or_code codec numbers ≡ Ok c →
        (result ≡ ok) ⊎ (result ≡ out_of_memory) }
    ensures made { Makes (codec_or_code codec numbers) result
        (place_packetizer_state made.new.value) (λ c. fresh_packetizer_state (codec_format c numbers)) }
    ensures none { result ≡ ok → place_packets made.new.value ≡ [] }
    ensures settings { result ≡ ok → place_settings made.new.value ≡ Some first_settings }
    ensures kept { result ≢ ok → made.new ≡ made.old }
{
    match codec_wanted(codec, numbers) {
        Ok(codec) => put(
            alloc,
            Endpoint::Sending(SendingEndpoint::new(alloc, codec, numbers)),
            made,
        ),
        Err(code) => code,
    }
}

/// Makes a packetizer again, without its packets.
#[unsafe(no_mangle)]
pub extern "C" fn h26x_packetizer_clone(alloc: Global, p: &ConstHandle, made: &mut Place) -> u32
    ensures wrong { endpoint_packetizer_state p.now.value ≡ None → result ≡ wrong_end }
    ensures answer { WherePacketizer p.now.value
        (λ it. (result ≡ ok) ⊎ (result ≡ out_of_memory)) }
    ensures made { result ≡ ok → made.new.value ≡ Some (endpoint_without_output p.now.value) }
    ensures kept { result ≢ ok → made.new ≡ made.old }
{
    let copy = match p.get() {
        Endpoint::Sending(it) => it.clone(alloc),
        _ => return WRONG_END,
    };
    match copy {
        Ok(copy) => put(alloc, Endpoint::Sending(copy), made),
        Err(_) => OUT_OF_MEMORY,
    }
}

/// Frees a packetizer.
#[unsafe(no_mangle)]
pub extern "C" fn h26x_packetizer_free(p: Handle) {
    drop(p.into_box());
}

/// Turns decoding order numbers on, from 0, or off.
#[unsafe(no_mangle)]
pub extern "C" fn h26x_packetizer_set_numbers(p: &mut Handle, numbers: bool) -> u32
    ensures wrong { endpoint_packetizer_state p.old.value ≡ None → result ≡ wrong_end }
    ensures none { WherePacketizer p.old.value
        (λ it. may_have_donl (endpoint_codec p.old.value) ≡ false → result ≡ not_of_this_codec) }
    ensures set { WhereDonl p.old.value
        (λ c it. (result ≡ ok) × HasPacketizer p.new.value
        (state_with_donl c numbers (endpoint_lowest_header p.old.value) it)) }
    ensures packets { endpoint_packets p.new.value ≡ endpoint_packets p.old.value }
    ensures settings { endpoint_settings p.new.value ≡ endpoint_settings p.old.value }
    ensures kept { result ≢ ok → p.new.value ≡ p.old.value }
{
    match p.get_mut() {
        Endpoint::Sending(it) => {
            if !may_have_donl(it.packetizer.codec()) {
                return NOT_OF_THIS_CODEC;
            }
            it.with_donl(numbers);
            OK
        }
        _ => WRONG_END,
    }
}

/// Sets the largest packet size.
#[unsafe(no_mangle)]
pub extern "C" fn h26x_packetizer_set_max_size(p: &mut Handle, bytes: u16) -> u32
    ensures wrong { endpoint_packetizer_state p.old.value ≡ None → result ≡ wrong_end }
    ensures none { WherePacketizer p.old.value
        (λ it. may_have_donl (endpoint_codec p.old.value) ≡ false → result ≡ not_of_this_codec) }
    ensures small { WhereDonl p.old.value
        (λ c it. bytes < 4 → result ≡ out_of_range) }
    ensures set { WhereDonl p.old.value
        (λ c it. 4 ≤ bytes → (result ≡ ok)
        × HasPacketizer p.new.value (record it { max_packet_size = bytes })) }
    ensures packets { endpoint_packets p.new.value ≡ endpoint_packets p.old.value }
    ensures settings { endpoint_settings p.new.value ≡ endpoint_settings p.old.value }
    ensures kept { result ≢ ok → p.new.value ≡ p.old.value }
{
    match p.get_mut() {
        Endpoint::Sending(it) => {
            if !may_have_donl(it.packetizer.codec()) {
                return NOT_OF_THIS_CODEC;
            }
            if bytes < 4 {
                return OUT_OF_RANGE;
            }
            it.with_max_packet_size(bytes);
            OK
        }
        _ => WRONG_END,
    }
}

/// Sets whether parameter sets that share a packet of H.265 have the header of their own (RFC 7798,
/// 4.4.2). Those of H.266 have it in any case.
#[unsafe(no_mangle)]
pub extern "C" fn h26x_packetizer_set_lowest_header(p: &mut Handle, lowest: bool) -> u32
    ensures wrong { endpoint_packetizer_state p.old.value ≡ None → result ≡ wrong_end }
    ensures none { WherePacketizer p.old.value
        (λ it. may_have_donl (endpoint_codec p.old.value) ≡ false → result ≡ not_of_this_codec) }
    ensures set { WhereDonl p.old.value
        (λ c it. (result ≡ ok)
        × HasPacketizer p.new.value (state_with_lowest_header c lowest it)) }
    ensures settings { WhereDonl p.old.value
        (λ c it. endpoint_settings p.new.value ≡ option_map
        (λ (s : SendingSettings). record s { lowest_header = lowest })
        (endpoint_settings p.old.value)) }
    ensures codec { endpoint_codec p.new.value ≡ endpoint_codec p.old.value }
    ensures packets { endpoint_packets p.new.value ≡ endpoint_packets p.old.value }
    ensures kept { result ≢ ok → p.new.value ≡ p.old.value }
{
    match p.get_mut() {
        Endpoint::Sending(it) => {
            if !may_have_donl(it.packetizer.codec()) {
                return NOT_OF_THIS_CODEC;
            }
            it.with_lowest_header(lowest);
            OK
        }
        _ => WRONG_END,
    }
}

/// Makes the packets of a payload, which take the place of the last call's.
#[unsafe(no_mangle)]
pub extern "C" fn h26x_packetize(
    p: &mut Handle,
    mtu: usize,
    payload: &[u8],
    count: &mut usize,
) -> u32
    ensures wrong { endpoint_packetizer_state p.old.value ≡ None → result ≡ wrong_end }
    ensures answer { WherePacketizer p.old.value
        (λ it. (result ≡ ok) ⊎ (result ≡ out_of_memory)) }
    ensures free { WherePacketizer p.old.value
        (λ it. payload_has_no_effect it mtu payload.now ≡ true → result ≡ ok) }
    ensures packets { OnceDone p.old.value result
        (λ it. endpoint_packets p.new.value ≡ next_packets it mtu payload.now) }
    ensures after { OnceDone p.old.value result
        (λ it. HasPacketizer p.new.value (after_payload it mtu payload.now)) }
    ensures codec { endpoint_codec p.new.value ≡ endpoint_codec p.old.value }
    ensures settings { endpoint_settings p.new.value ≡ endpoint_settings p.old.value }
    ensures kept { result ≢ ok → p.new.value ≡ p.old.value }
    ensures count { count.new ≡ length (endpoint_packets p.new.value) }
{
    match p.get_mut() {
        Endpoint::Sending(it) => {
            let made = it.packetize(mtu, payload);
            *count = it.count();
            match made {
                Ok(()) => OK,
                Err(_) => OUT_OF_MEMORY,
            }
        }
        _ => {
            *count = 0;
            WRONG_END
        }
    }
}

/// Makes the packets of one unit as it is, without a start code and whatever its kind, which take the
/// place of the last call's; the sets that wait stay.
#[unsafe(no_mangle)]
pub extern "C" fn h26x_packetize_unit(
    p: &mut Handle,
    mtu: usize,
    unit: &[u8],
    count: &mut usize,
) -> u32
    ensures wrong { endpoint_packetizer_state p.old.value ≡ None → result ≡ wrong_end }
    ensures answer { WherePacketizer p.old.value
        (λ it. (result ≡ ok) ⊎ (result ≡ out_of_memory)) }
    ensures packets { OnceDone p.old.value result
        (λ it. endpoint_packets p.new.value ≡ one_unit_packets it mtu unit.now) }
    ensures after { OnceDone p.old.value result
        (λ it. HasPacketizer p.new.value (after_one_unit it mtu unit.now)) }
    ensures codec { endpoint_codec p.new.value ≡ endpoint_codec p.old.value }
    ensures settings { endpoint_settings p.new.value ≡ endpoint_settings p.old.value }
    ensures kept { result ≢ ok → p.new.value ≡ p.old.value }
    ensures count { count.new ≡ length (endpoint_packets p.new.value) }

    // Nothing is sent without memory.
    ensures free { WherePacketizer p.old.value
        (λ it. one_unit_items it mtu unit.now ≡ [] → result ≡ ok) }
{
    match p.get_mut() {
        Endpoint::Sending(it) => {
            let made = it.packetize_unit(mtu, unit);
            *count = it.count();
            match made {
                Ok(()) => OK,
                Err(_) => OUT_OF_MEMORY,
            }
        }
        _ => {
            *count = 0;
            WRONG_END
        }
    }
}

/// How many packets there are of a payload, and how many bytes they take in memory, each behind
/// `headroom`. Nothing changes.
#[unsafe(no_mangle)]
pub extern "C" fn h26x_packets_size(
    p: &ConstHandle,
    mtu: usize,
    payload: &[u8],
    headroom: usize,
    count: &mut usize,
    size: &mut usize,
) -> u32
    ensures wrong { endpoint_packetizer_state p.now.value ≡ None → result ≡ wrong_end }
    ensures answer { WherePacketizer p.now.value
        (λ it. (result ≡ ok) ⊎ (result ≡ out_of_memory)) }
    ensures free { WherePacketizer p.now.value
        (λ it. payload_has_no_effect it mtu payload.now ≡ true → result ≡ ok) }
    ensures size { OnceDone p.now.value result
        (λ it. AreCounted headroom (next_packets it mtu payload.now) count.new size.new) }
    ensures none { result ≢ ok → (count.new ≡ 0) × (size.new ≡ 0) }
{
    *count = 0;
    *size = 0;
    let made = match p.get() {
        Endpoint::Sending(it) => it.packetizer.packets_size(mtu, payload, headroom),
        _ => return WRONG_END,
    };
    match made {
        Ok(taken) => {
            *count = taken.packets;
            *size = taken.bytes;
            OK
        }
        Err(_) => OUT_OF_MEMORY,
    }
}

/// Copies the packets of a payload straight to memory where they fit, each behind `headroom` bytes that
/// stay, and writes where each ends; else nothing is done. The packets of the last call stay.
#[unsafe(no_mangle)]
pub extern "C" fn h26x_packetize_into(
    p: &mut Handle,
    mtu: usize,
    payload: &[u8],
    headroom: usize,
    to: &mut [u8],
    ends: &mut [usize],
    count: &mut usize,
    size: &mut usize,
) -> u32
    ensures wrong { endpoint_packetizer_state p.old.value ≡ None → result ≡ wrong_end }
    ensures answer { WherePacketizer p.old.value
        (λ it. IsPlacementAnswer headroom (next_packets it mtu payload.now) to.old to.new ends.old
        ends.new result count.new size.new) }
    ensures free { WherePacketizer p.old.value
        (λ it. payload_has_no_effect it mtu payload.now ≡ true → result ≢ out_of_memory) }
    ensures after { OnceDone p.old.value result
        (λ it. HasPacketizer p.new.value (after_payload it mtu payload.now)) }
    ensures codec { endpoint_codec p.new.value ≡ endpoint_codec p.old.value }
    ensures settings { endpoint_settings p.new.value ≡ endpoint_settings p.old.value }
    ensures packets { endpoint_packets p.new.value ≡ endpoint_packets p.old.value }
    ensures kept { result ≢ ok → p.new.value ≡ p.old.value }
    ensures kept_to { result ≢ ok → to.new ≡ to.old }
    ensures kept_ends { result ≢ ok → ends.new ≡ ends.old }
    ensures none { result ≡ wrong_end → (count.new ≡ 0) × (size.new ≡ 0) }
{
    match p.get_mut() {
        Endpoint::Sending(it) => {
            let made = it.packetize_to_memory(mtu, payload, headroom, to, ends);
            code_of_placement(made, count, size)
        }
        _ => {
            *count = 0;
            *size = 0;
            WRONG_END
        }
    }
}

/// Copies the packets of one unit as it is straight to memory where they fit, as those of a payload.
#[unsafe(no_mangle)]
pub extern "C" fn h26x_packetize_unit_into(
    p: &mut Handle,
    mtu: usize,
    unit: &[u8],
    headroom: usize,
    to: &mut [u8],
    ends: &mut [usize],
    count: &mut usize,
    size: &mut usize,
) -> u32
    ensures wrong { endpoint_packetizer_state p.old.value ≡ None → result ≡ wrong_end }
    ensures answer { WherePacketizer p.old.value
        (λ it. IsPlacementAnswer headroom (one_unit_packets it mtu unit.now) to.old to.new ends.old
        ends.new result count.new size.new) }
    ensures after { OnceDone p.old.value result
        (λ it. HasPacketizer p.new.value (after_one_unit it mtu unit.now)) }
    ensures codec { endpoint_codec p.new.value ≡ endpoint_codec p.old.value }
    ensures settings { endpoint_settings p.new.value ≡ endpoint_settings p.old.value }
    ensures packets { endpoint_packets p.new.value ≡ endpoint_packets p.old.value }
    ensures kept { result ≢ ok → p.new.value ≡ p.old.value }
    ensures kept_to { result ≢ ok → to.new ≡ to.old }
    ensures kept_ends { result ≢ ok → ends.new ≡ ends.old }
    ensures none { result ≡ wrong_end → (count.new ≡ 0) × (size.new ≡ 0) }

    // Nothing is sent without memory.
    ensures free { WherePacketizer p.old.value
        (λ it. one_unit_items it mtu unit.now ≡ [] → result ≢ out_of_memory) }
{
    match p.get_mut() {
        Endpoint::Sending(it) => {
            let made = it.packetize_unit_to_memory(mtu, unit, headroom, to, ends);
            code_of_placement(made, count, size)
        }
        _ => {
            *count = 0;
            *size = 0;
            WRONG_END
        }
    }
}

/// How many packets there are.
#[unsafe(no_mangle)]
pub extern "C" fn h26x_packet_count(p: &ConstHandle) -> usize
    ensures count { result ≡ length (endpoint_packets p.now.value) }
{
    match p.get() {
        Endpoint::Sending(it) => it.count(),
        _ => 0,
    }
}

/// The length of a packet, counted from 0; past the last one 0.
#[unsafe(no_mangle)]
pub extern "C" fn h26x_packet_len(p: &ConstHandle, i: usize) -> usize
    ensures len { result ≡ length (nth_packet i (endpoint_packets p.now.value)) }
{
    match p.get() {
        Endpoint::Sending(it) => it.packet(i).len(),
        _ => 0,
    }
}

/// How many bytes the packets are together.
#[unsafe(no_mangle)]
pub extern "C" fn h26x_packets_len(p: &ConstHandle) -> usize
    ensures len { result ≡ length (concat (endpoint_packets p.now.value)) }
{
    match p.get() {
        Endpoint::Sending(it) => it.bytes_len(),
        _ => 0,
    }
}

/// Copies a packet, counted from 0, where there is room for it; its length.
#[unsafe(no_mangle)]
pub extern "C" fn h26x_packet_copy(p: &ConstHandle, i: usize, to: &mut [u8]) -> usize
    ensures len { result ≡ length (nth_packet i (endpoint_packets p.now.value)) }
    ensures copied { to.new ≡ with_front (nth_packet i (endpoint_packets p.now.value)) to.old }
{
    match p.get() {
        Endpoint::Sending(it) => copy_where_room(it.packet(i), to),
        _ => copy_where_room(&[], to),
    }
}

/// Copies packets, from one counted from 0 on, to the front of a buffer, one behind the other, as
/// many as there is room for, and writes where each ends; how many they are.
#[unsafe(no_mangle)]
pub extern "C" fn h26x_packets_copy(
    p: &ConstHandle,
    first: usize,
    to: &mut [u8],
    ends: &mut [usize],
) -> usize
    ensures copied { AreCopied (drop first (endpoint_packets p.now.value)) to.old to.new ends.old
        ends.new
        result }
{
    match p.get() {
        Endpoint::Sending(it) => it.copy_packets(first, to, ends),
        _ => 0,
    }
}
