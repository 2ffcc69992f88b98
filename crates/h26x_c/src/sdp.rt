//! The calls on format parameters of SDP.

ghost use Rattle.std.specs.Prelude.{◌≡◌, ◌≢◌, ◌⊎◌, ◌&&◌, ℕ, List, true, false, Some, None, Ok, Err, length};
ghost use Rattle.h26x_model.specs.Where.{Where};
ghost use Rattle.h26x_codec.specs.declared.codec.Codec.{Codec};
ghost use Rattle.h26x_fmtp.specs.Pairs.{Pair};
ghost use Rattle.h26x_sdp_handles.specs.declared.sdp_code.PointRefused.{PointRefused};
ghost use Rattle.h26x_sdp_handles.specs.declared.sdp_code.Refused.{Refused};
ghost use Rattle.h26x_answers.specs.declared.answer.AnswerRules.TheVariants.{Rfc, Webrtc};
ghost use Rattle.h26x_answers.specs.declared.direction.Direction.TheVariants.{SendRecv};
ghost use Rattle.h26x_codes.specs.Codes.{codec_with_number, ok, out_of_memory, out_of_range, unknown_codec, wrong_end};
ghost use Rattle.h26x_codes.specs.Copies.{with_front};
ghost use Rattle.std.specs.Option.{ok_or};
ghost use Rattle.h26x_sdp_handles.specs.SdpCodes.{absent};
ghost use Rattle.h26x_sdp_handles.specs.AnswerOptions.{config_with_options};
ghost use Rattle.h26x_sdp_handles.specs.Sdp.{sdp_name, sdp_read, sdp_of_units, OfPayloadUnits, sdp_text, sdp_value, sdp_number, sdp_max_don_diff};
ghost use Rattle.h26x_sdp_handles.specs.ChangedParameters.{sdp_with_value, sdp_without_value};
ghost use Rattle.h26x_sdp_handles.specs.SdpValues.{sdp_constraints};
ghost use Rattle.h26x_c.specs.Endpoints.{GivesOrOutOfMemory};
ghost use Rattle.h26x_c.specs.Sdp.{IsMade, without_place, IsRefused, is_sdp, endpoint_answer, endpoint_broken_rule, rule_answer, endpoint_sdp_codec, copy_answer, at_sdp, number_answer, units_count, endpoint_sdp_units, nth_unit, pair_code, endpoint_other, constraints_answer, points_answer, endpoint_sdp_points};

use crate::const_handle::ConstHandle;
use crate::copied::copy_out;
use crate::handle::Handle;
use crate::place::{Place, put};
use h26x_answers::{AnswerConfig, AnswerRules, Direction};
use h26x_codes::code::{
    NO_ROOM, OK, OUT_OF_MEMORY, OUT_OF_RANGE, Refusal, UNKNOWN_CODEC, WRONG_END, codec_of,
};
use h26x_codes::copy::{copy_first, copy_where_room};
use h26x_endpoint::endpoint::Endpoint;
use h26x_sdp_handles::answer_options::config_of;
use h26x_sdp_handles::sdp::SdpEndpoint;
use h26x_sdp_handles::sdp_code::{
    ABSENT, PointRefused, Refused, number_of_codec, of_format_fault, point_refused_with,
    refused_with,
};
use h26x_sdp_handles::sdp_values::{ConstraintNumbers, PointNumbers};
use std::alloc::Global;

/// Tells the place of a refusal; its code.
pub(crate) fn tell(refused: Refused, why: &mut Refusal) -> u32
    ensures code { result ≡ refused.code }
    ensures place { why.new ≡ record { first = refused.place; second = 0 } }
{
    *why = Refusal {
        first: refused.place,
        second: 0,
    };
    refused.code
}

/// Tells the place of a capability point that is refused, and what is wrong there; its code.
fn tell_of_point(point: PointRefused, why: &mut Refusal) -> u32
    ensures code { result ≡ point.code }
    ensures place { why.new ≡ record { first = point.place; second = point.fault } }
{
    *why = Refusal {
        first: point.place,
        second: point.fault as usize,
    };
    point.code
}

/// Makes format parameters of what stands behind the payload type in an `a=fmtp` line.
#[unsafe(no_mangle)]
pub extern "C" fn h26x_sdp_read(
    alloc: Global,
    codec: u32,
    text: &[u8],
    made: &mut Place,
    why: &mut Refusal,
) -> u32
    ensures unknown { codec_with_number codec ≡ None → result ≡ unknown_codec }
    ensures answer { Where (codec_with_number codec)
        (λ c. IsMade (without_place (sdp_read c text.now)) result made.new.value) }
    ensures place { (c : Codec) (it : Refused) → codec_with_number codec ≡ Some c →
        sdp_read c text.now ≡ Err it → IsRefused it result why.new.first }
    ensures kept { result ≢ ok → made.new ≡ made.old }
    ensures kept_why { result ≡ ok → why.new ≡ why.old }
{
    let Some(codec) = codec_of(codec) else {
        return UNKNOWN_CODEC;
    };
    match SdpEndpoint::read(alloc, codec, text) {
        Ok(it) => put(alloc, Endpoint::Sdp(it), made),
        Err(it) => tell(it, why),
    }
}

/// Makes the parameters that a sender says of a stream, of the bytes that it begins with.
#[unsafe(no_mangle)]
pub extern "C" fn h26x_sdp_of_payload(
    alloc: Global,
    codec: u32,
    payload: &[u8],
    made: &mut Place,
) -> u32
    ensures unknown { codec_with_number codec ≡ None → result ≡ unknown_codec }
    ensures answer { Where (codec_with_number codec)
        (λ c. OfPayloadUnits c payload.now
        (λ units. IsMade (sdp_of_units c units) result made.new.value)) }
    ensures kept { result ≢ ok → made.new ≡ made.old }
{
    let Some(codec) = codec_of(codec) else {
        return UNKNOWN_CODEC;
    };
    match SdpEndpoint::of_payload(alloc, codec, payload) {
        Ok(it) => put(alloc, Endpoint::Sdp(it), made),
        Err(code) => code,
    }
}

/// Makes the answer to an offered format by one of ours, of what the answerer takes.
fn answered(
    alloc: Global,
    config: AnswerConfig,
    offered: &ConstHandle,
    ours: &ConstHandle,
    made: &mut Place,
) -> u32
    ensures wrong { (is_sdp offered.now.value && is_sdp ours.now.value) ≡ false →
        result ≡ wrong_end }
    ensures answer { IsMade (endpoint_answer config offered.now.value ours.now.value) result
        made.new.value }
    ensures kept { result ≢ ok → made.new ≡ made.old }
{
    let (Endpoint::Sdp(offered), Endpoint::Sdp(ours)) = (offered.get(), ours.get()) else {
        return WRONG_END;
    };
    match offered.answer(alloc, config, ours) {
        Ok(it) => put(alloc, Endpoint::Sdp(it), made),
        Err(code) => code,
    }
}

/// Makes the answer to an offered format by one of ours, whose units are sent as they are decoded.
#[unsafe(no_mangle)]
pub extern "C" fn h26x_sdp_answer(
    alloc: Global,
    offered: &ConstHandle,
    ours: &ConstHandle,
    made: &mut Place,
) -> u32
    ensures wrong { (is_sdp offered.now.value && is_sdp ours.now.value) ≡ false →
        result ≡ wrong_end }
    ensures answer { IsMade (endpoint_answer (record {
      any_order = false;
      rules = Rfc;
      direction = SendRecv;
      multicast = false;
    }) offered.now.value ours.now.value) result made.new.value }
    ensures kept { result ≢ ok → made.new ≡ made.old }
{
    let config = AnswerConfig {
        any_order: false,
        rules: AnswerRules::Rfc,
        direction: Direction::SendRecv,
        multicast: false,
    };
    answered(alloc, config, offered, ours, made)
}

/// The same of units in any order.
#[unsafe(no_mangle)]
pub extern "C" fn h26x_sdp_answer_any_order(
    alloc: Global,
    offered: &ConstHandle,
    ours: &ConstHandle,
    made: &mut Place,
) -> u32
    ensures wrong { (is_sdp offered.now.value && is_sdp ours.now.value) ≡ false →
        result ≡ wrong_end }
    ensures answer { IsMade (endpoint_answer (record {
      any_order = true;
      rules = Rfc;
      direction = SendRecv;
      multicast = false;
    }) offered.now.value ours.now.value) result made.new.value }
    ensures kept { result ≢ ok → made.new ≡ made.old }
{
    let config = AnswerConfig {
        any_order: true,
        rules: AnswerRules::Rfc,
        direction: Direction::SendRecv,
        multicast: false,
    };
    answered(alloc, config, offered, ours, made)
}

/// The same as WebRTC's peers do it, of units in decoding order or in any.
#[unsafe(no_mangle)]
pub extern "C" fn h26x_sdp_answer_webrtc(
    alloc: Global,
    offered: &ConstHandle,
    ours: &ConstHandle,
    any_order: bool,
    made: &mut Place,
) -> u32
    ensures wrong { (is_sdp offered.now.value && is_sdp ours.now.value) ≡ false →
        result ≡ wrong_end }
    ensures answer { IsMade (endpoint_answer (record {
      any_order = any_order;
      rules = Webrtc;
      direction = SendRecv;
      multicast = false;
    }) offered.now.value ours.now.value) result made.new.value }
    ensures kept { result ≢ ok → made.new ≡ made.old }
{
    let config = AnswerConfig {
        any_order,
        rules: AnswerRules::Webrtc,
        direction: Direction::SendRecv,
        multicast: false,
    };
    answered(alloc, config, offered, ours, made)
}

/// The same by options.
#[unsafe(no_mangle)]
pub extern "C" fn h26x_sdp_answer_with(
    alloc: Global,
    offered: &ConstHandle,
    ours: &ConstHandle,
    options: u32,
    made: &mut Place,
) -> u32
    ensures unknown { config_with_options options ≡ None → result ≡ out_of_range }
    ensures wrong { config_with_options options ≢ None →
        (is_sdp offered.now.value && is_sdp ours.now.value) ≡ false → result ≡ wrong_end }
    ensures answer { Where (config_with_options options)
        (λ config. IsMade (endpoint_answer config offered.now.value ours.now.value) result
        made.new.value) }
    ensures kept { result ≢ ok → made.new ≡ made.old }
{
    match config_of(options) {
        Some(config) => answered(alloc, config, offered, ours, made),
        None => OUT_OF_RANGE,
    }
}

/// The first rule that they break as a format of one's own, by which they give no answer.
#[unsafe(no_mangle)]
pub extern "C" fn h26x_sdp_broken_rule(h: &ConstHandle, options: u32, why: &mut Refusal) -> u32
    ensures { (result, why.new) ≡ rule_answer
        (endpoint_broken_rule (config_with_options options) h.now.value) why.old }
{
    let Some(config) = config_of(options) else {
        return tell(refused_with(OUT_OF_RANGE), why);
    };
    let Endpoint::Sdp(it) = h.get() else {
        return tell(refused_with(WRONG_END), why);
    };
    match it.own_fault(config) {
        Some(fault) => tell(of_format_fault(fault), why),
        None => OK,
    }
}

/// The name of the parameter at a place of the RFC's table, where there is room.
#[unsafe(no_mangle)]
pub extern "C" fn h26x_sdp_name(h: &ConstHandle, i: usize, to: &mut [u8], len: &mut usize) -> u32
    ensures { (result, (to.new, len.new)) ≡ copy_answer
        (at_sdp h.now.value (λ it. ok_or (sdp_name it i) absent)) to.old len.old }
{
    let Endpoint::Sdp(it) = h.get() else {
        return WRONG_END;
    };
    match it.name(i) {
        Some(name) => copy_out(name, to, len),
        None => ABSENT,
    }
}

/// Frees format parameters.
#[unsafe(no_mangle)]
pub extern "C" fn h26x_sdp_free(h: Handle) {
    drop(h.into_box());
}

/// The number of their codec.
#[unsafe(no_mangle)]
pub extern "C" fn h26x_sdp_codec(h: &ConstHandle) -> u32
    ensures { result ≡ endpoint_sdp_codec h.now.value }
{
    match h.get() {
        Endpoint::Sdp(it) => number_of_codec(it.codec()),
        _ => 0,
    }
}

/// Writes them, where there is room.
#[unsafe(no_mangle)]
pub extern "C" fn h26x_sdp_write(
    alloc: Global,
    h: &ConstHandle,
    to: &mut [u8],
    len: &mut usize,
) -> u32
    ensures wrong { is_sdp h.now.value ≡ false → result ≡ wrong_end }
    ensures answer { GivesOrOutOfMemory result (to.new, len.new)
        (copy_answer (at_sdp h.now.value (λ it. Ok (sdp_text it))) to.old len.old) }
    ensures kept { result ≡ out_of_memory → (to.new ≡ to.old) × (len.new ≡ len.old) }
{
    let Endpoint::Sdp(it) = h.get() else {
        return WRONG_END;
    };
    match it.write(alloc) {
        Ok(text) => copy_out(text.as_slice(), to, len),
        Err(_) => OUT_OF_MEMORY,
    }
}

/// Gives the parameter with a name a value, in the place of the one that it has.
#[unsafe(no_mangle)]
pub extern "C" fn h26x_sdp_set(alloc: Global, h: &mut Handle, name: &[u8], value: &[u8]) -> u32
    ensures wrong { is_sdp h.old.value ≡ false → result ≡ wrong_end }
    ensures answer { IsMade (at_sdp h.old.value (λ it. sdp_with_value it name.now value.now)) result
        (Some h.new.value) }
    ensures kept { result ≢ ok → h.new.value ≡ h.old.value }
{
    let Endpoint::Sdp(it) = h.get_mut() else {
        return WRONG_END;
    };
    match it.with_value(alloc, name, value) {
        Ok(made) => {
            *it = made;
            OK
        }
        Err(code) => code,
    }
}

/// Takes away the value of the parameter with a name, if it has one.
#[unsafe(no_mangle)]
pub extern "C" fn h26x_sdp_unset(alloc: Global, h: &mut Handle, name: &[u8]) -> u32
    ensures wrong { is_sdp h.old.value ≡ false → result ≡ wrong_end }
    ensures answer { IsMade (at_sdp h.old.value (λ it. sdp_without_value it name.now)) result
        (Some h.new.value) }
    ensures kept { result ≢ ok → h.new.value ≡ h.old.value }
{
    let Endpoint::Sdp(it) = h.get_mut() else {
        return WRONG_END;
    };
    match it.without_value(alloc, name) {
        Ok(made) => {
            *it = made;
            OK
        }
        Err(code) => code,
    }
}

/// The value of the parameter with a name, or where it's absent what the RFC takes for it, where there
/// is room.
#[unsafe(no_mangle)]
pub extern "C" fn h26x_sdp_value(
    h: &ConstHandle,
    name: &[u8],
    or_default: bool,
    to: &mut [u8],
    len: &mut usize,
) -> u32
    ensures { (result, (to.new, len.new)) ≡ copy_answer
        (at_sdp h.now.value (λ it. sdp_value it name.now or_default)) to.old len.old }
{
    let Endpoint::Sdp(it) = h.get() else {
        return WRONG_END;
    };
    match it.value(name, or_default) {
        Ok(value) => copy_out(value, to, len),
        Err(code) => code,
    }
}

/// The number of the parameter with a name, or where it's absent that of what the RFC takes for it.
#[unsafe(no_mangle)]
pub extern "C" fn h26x_sdp_number(
    h: &ConstHandle,
    name: &[u8],
    or_default: bool,
    value: &mut u64,
) -> u32
    ensures { (result, value.new) ≡ number_answer
        (at_sdp h.now.value (λ it. sdp_number it name.now or_default)) value.old }
{
    let Endpoint::Sdp(it) = h.get() else {
        return WRONG_END;
    };
    match it.number(name, or_default) {
        Ok(number) => {
            *value = number;
            OK
        }
        Err(code) => code,
    }
}

/// How many units the parameter with a name has.
#[unsafe(no_mangle)]
pub extern "C" fn h26x_sdp_units(
    h: &ConstHandle,
    name: &[u8],
    count: &mut usize,
    why: &mut Refusal,
) -> u32
    ensures wrong { is_sdp h.now.value ≡ false → result ≡ wrong_end }
    ensures answer { (result, count.new) ≡ number_answer
        (units_count (endpoint_sdp_units h.now.value name.now)) count.old }
    ensures place { (it : Refused) → endpoint_sdp_units h.now.value name.now ≡ Err it →
        why.new ≡ record { first = it.place; second = 0 } }
    ensures kept_why { (units : List (List ℕ)) →
        endpoint_sdp_units h.now.value name.now ≡ Ok units → why.new ≡ why.old }
{
    let Endpoint::Sdp(it) = h.get() else {
        return tell(refused_with(WRONG_END), why);
    };
    match it.units(name) {
        Ok(units) => {
            *count = units.len();
            OK
        }
        Err(it) => tell(it, why),
    }
}

/// A unit of the parameter with a name, counted from 0, where there is room.
#[unsafe(no_mangle)]
pub extern "C" fn h26x_sdp_unit(
    h: &ConstHandle,
    name: &[u8],
    i: usize,
    to: &mut [u8],
    len: &mut usize,
    why: &mut Refusal,
) -> u32
    ensures wrong { is_sdp h.now.value ≡ false → result ≡ wrong_end }
    ensures answer { (result, (to.new, len.new)) ≡ copy_answer
        (nth_unit i (endpoint_sdp_units h.now.value name.now)) to.old len.old }
    ensures place { (it : Refused) → endpoint_sdp_units h.now.value name.now ≡ Err it →
        why.new ≡ record { first = it.place; second = 0 } }
    ensures kept_why { (units : List (List ℕ)) →
        endpoint_sdp_units h.now.value name.now ≡ Ok units → why.new ≡ why.old }
{
    let Endpoint::Sdp(it) = h.get() else {
        return tell(refused_with(WRONG_END), why);
    };
    match it.units(name) {
        Ok(units) => match units.get(i) {
            Some(unit) => copy_out(unit.as_slice(), to, len),
            None => ABSENT,
        },
        Err(it) => tell(it, why),
    }
}

/// The name and the value of a parameter that the RFC doesn't have, counted from 0, where there is room
/// for both.
#[unsafe(no_mangle)]
pub extern "C" fn h26x_sdp_other(
    h: &ConstHandle,
    i: usize,
    name_to: &mut [u8],
    name_len: &mut usize,
    value_to: &mut [u8],
    value_len: &mut usize,
) -> u32
    ensures answer { result ≡ pair_code (endpoint_other i h.now.value)
        name_to.old value_to.old }
    ensures lens { (it : Pair) → endpoint_other i h.now.value ≡ Ok it →
        (name_len.new ≡ length it.name) × (value_len.new ≡ length it.value) }
    ensures copied { (it : Pair) → endpoint_other i h.now.value ≡ Ok it → result ≡ ok →
        (name_to.new ≡ with_front it.name name_to.old)
        × (value_to.new ≡ with_front it.value value_to.old) }
    ensures kept { result ≢ ok → (name_to.new ≡ name_to.old) × (value_to.new ≡ value_to.old) }
    ensures kept_lens { (code : ℕ) → endpoint_other i h.now.value ≡ Err code →
        (name_len.new ≡ name_len.old) × (value_len.new ≡ value_len.old) }
{
    let Endpoint::Sdp(it) = h.get() else {
        return WRONG_END;
    };
    let Some(other) = it.others().get(i) else {
        return ABSENT;
    };
    *name_len = other.name.len();
    *value_len = other.value.len();
    if other.name.len() > name_to.len() || other.value.len() > value_to.len() {
        return NO_ROOM;
    }
    copy_where_room(other.name.as_slice(), name_to);
    copy_where_room(other.value.as_slice(), value_to);
    OK
}

/// What packetizers and receivers of H.265 and H.266 are configured for.
#[unsafe(no_mangle)]
pub extern "C" fn h26x_sdp_max_don_diff(h: &ConstHandle, value: &mut u32) -> u32
    ensures { (result, value.new)
        ≡ number_answer (at_sdp h.now.value sdp_max_don_diff) value.old }
{
    let Endpoint::Sdp(it) = h.get() else {
        return WRONG_END;
    };
    match it.max_don_diff() {
        Ok(most) => {
            *value = most;
            OK
        }
        Err(code) => code,
    }
}

/// What `interop-constraints` says, or where it's absent what the RFC takes for it, and its first
/// bytes, as many as there is room for.
#[unsafe(no_mangle)]
pub extern "C" fn h26x_sdp_constraints(
    alloc: Global,
    h: &ConstHandle,
    to: &mut [u8],
    said: &mut ConstraintNumbers,
) -> u32
    ensures wrong { is_sdp h.now.value ≡ false → result ≡ wrong_end }
    ensures answer { GivesOrOutOfMemory result (to.new, said.new)
        (constraints_answer (at_sdp h.now.value sdp_constraints) to.old said.old) }
    ensures kept { result ≢ ok → (to.new ≡ to.old) × (said.new ≡ said.old) }
{
    let Endpoint::Sdp(it) = h.get() else {
        return WRONG_END;
    };
    match it.constraints(alloc) {
        Ok(constraints) => {
            copy_first(constraints.as_bytes(), to);
            *said = constraints.numbers();
            OK
        }
        Err(code) => code,
    }
}

/// The first capability points of `dec-parallel-cap`, as many as there is room for, each as it
/// stands, or with the limits that it leaves out; and how many they all are.
#[unsafe(no_mangle)]
pub extern "C" fn h26x_sdp_capability_points(
    alloc: Global,
    h: &ConstHandle,
    or_default: bool,
    points: &mut [PointNumbers],
    count: &mut usize,
    why: &mut Refusal,
) -> u32
    ensures wrong { is_sdp h.now.value ≡ false → result ≡ wrong_end }
    ensures answer { GivesOrOutOfMemory result (points.new, count.new)
        (points_answer (endpoint_sdp_points h.now.value or_default) points.old count.old) }
    ensures place { (it : PointRefused) → endpoint_sdp_points h.now.value or_default ≡ Err it →
        (result ≡ out_of_memory) ⊎ (why.new ≡ record { first = it.place; second = it.fault }) }
    ensures kept { result ≢ ok → (points.new ≡ points.old) × (count.new ≡ count.old) }
    ensures kept_why { result ≡ ok → why.new ≡ why.old }
{
    let Endpoint::Sdp(it) = h.get() else {
        return tell_of_point(point_refused_with(WRONG_END), why);
    };
    match it.capability_points(alloc, or_default, points) {
        Ok(all) => {
            *count = all;
            OK
        }
        Err(refused) => tell_of_point(refused, why),
    }
}
