//! The calls of a receiver of access units, of packets as a network brings them.

ghost use Rattle.std.specs.Prelude.{◌≡◌, ◌≢◌, ◌⊎◌, ◌<◌, ℕ, [], true, false, if◌then◌else◌, Some, None, Ok, Err, length};
ghost use Rattle.h26x_model.specs.Where.{Where};
ghost use Rattle.h26x_codec.specs.declared.codec.Codec.{Codec};
ghost use Rattle.h26x_reorder.specs.Rtp.{rtp_body};
ghost use Rattle.h26x_endpoint.specs.EndpointStates.{is_access_units, endpoint_units, endpoint_deadline, endpoint_missing, place_units};
ghost use Rattle.h26x_handles.specs.UnitsState.{UnitsState, is_begun_in_time, units_begun, units_nacks, units_nacked, units_finished, units_restarted, is_window, units_with_settings, IsOutOfMemory};
ghost use Rattle.h26x_codes.specs.Codes.{ok, out_of_memory, out_of_range, wrong_end};
ghost use Rattle.h26x_codes.specs.Copies.{with_first};
ghost use Rattle.h26x_c.specs.AccessUnits.{config_codec_or_code, fresh_units_with, units_config, nack_times, counts_told, TellsPush, IsPushedTo, IsNextOf};
ghost use Rattle.h26x_c.specs.Endpoints.{Makes};

use crate::const_handle::ConstHandle;
use crate::handle::Handle;
use crate::place::{Place, put};
use h26x_access_units::{self, AccessUnitConfig};
use h26x_codes::code::{OK, OUT_OF_MEMORY, OUT_OF_RANGE, WRONG_END};
use h26x_endpoint::endpoint::Endpoint;
use h26x_handles::access_units::{
    AccessUnitEndpoint, GivesUnits, UnitTold, code_of_next, numbers_of_push, units_codec_wanted,
};
use h26x_reorder::RtpPacket;
use std::alloc::Global;

/// What a caller sets.
#[repr(C)]
#[derive(Clone, Copy)]
pub struct Config {
    pub codec: u32,
    pub max_wait: u32,
    pub begin_wait: u32,
    pub window: u16,
    pub far_away: u16,
    pub far_behind: u16,
    pub numbers: bool,
    pub avc: bool,
    pub has_sets: bool,
    pub held_limit: usize,
    pub run_limit: usize,
    pub unit_limit: usize,
}

/// When missing numbers are asked for.
#[repr(C)]
#[derive(Clone, Copy)]
pub struct NackTimes {
    pub first: u32,
    pub again: u32,
    pub most: u8,
}

/// What was counted.
#[repr(C)]
#[derive(Clone, Copy)]
pub struct Counts {
    pub taken: u64,
    pub lost: u64,
    pub late: u64,
    pub twice: u64,
    pub stray: u64,
    pub refused: u64,
    pub skipped: u64,
    pub anew: u64,
    pub units: u64,
    pub whole: u64,
    pub units_given_up: u64,
    pub texts_given_up: u64,
    pub no_unit: u64,
    pub still: u64,
    pub unbelieved: u64,
}

/// The settings of a receiver.
pub fn settings(config: &Config) -> AccessUnitConfig
    ensures { result ≡ units_config config.now }
{
    AccessUnitConfig {
        window: config.window,
        far: config.far_away,
        far_behind: config.far_behind,
        max_wait: config.max_wait,
        begin_wait: config.begin_wait,
        held_limit: config.held_limit,
        run_limit: config.run_limit,
        unit_limit: config.unit_limit,
        has_sets: config.has_sets,
    }
}

/// When a receiver asks for missing numbers.
pub fn nack_times(times: &NackTimes) -> h26x_access_units::NackTimes
    ensures { result ≡ nack_times times.now }
{
    h26x_access_units::NackTimes {
        first: times.first,
        again: times.again,
        most: times.most,
    }
}

/// What was counted, as C is told it.
pub fn counts_told(counts: h26x_access_units::Counts) -> Counts
    ensures { result ≡ counts_told counts }
{
    Counts {
        taken: counts.taken,
        lost: counts.lost,
        late: counts.late,
        twice: counts.twice,
        stray: counts.stray,
        refused: counts.refused,
        skipped: counts.skipped,
        anew: counts.anew,
        units: counts.units,
        whole: counts.whole,
        units_given_up: counts.units_given_up,
        texts_given_up: counts.texts_given_up,
        no_unit: counts.no_unit,
        still: counts.still,
        unbelieved: counts.unbelieved,
    }
}

/// Makes a receiver that takes any sequence number as the first.
#[unsafe(no_mangle)]
pub extern "C" fn h26x_access_units_new(alloc: Global, config: &Config, made: &mut Place) -> u32
    ensures refused { (code : ℕ) → config_codec_or_code config.now ≡ Err code → result ≡ code }
    ensures answer { (c : Codec) → config_codec_or_code config.now ≡ Ok c →
        (result ≡ ok) ⊎ (result ≡ out_of_memory) }
    ensures made { Makes (config_codec_or_code config.now) result (place_units made.new.value)
        (λ c. fresh_units_with c config.now) }
    ensures kept { result ≢ ok → made.new ≡ made.old }
{
    match units_codec_wanted(config.codec, config.numbers, config.window) {
        Ok(codec) => put(
            alloc,
            Endpoint::AccessUnits(AccessUnitEndpoint::new(
                alloc,
                codec,
                config.numbers,
                config.avc,
                settings(config),
            )),
            made,
        ),
        Err(code) => code,
    }
}

/// Frees a receiver of access units.
#[unsafe(no_mangle)]
pub extern "C" fn h26x_access_units_free(u: Handle) {
    drop(u.into_box());
}

/// Has other settings from now on, but for its codec, and how packets and units are written.
#[unsafe(no_mangle)]
pub extern "C" fn h26x_access_units_set_config(u: &mut Handle, config: &Config) -> u32
    ensures wrong { is_access_units u.old.value ≡ false → (result ≡ wrong_end)
        × (u.new.value ≡ u.old.value) }
    ensures answer { is_access_units u.old.value ≡ true →
        result ≡ (if is_window config.now.window then ok else out_of_range) }
    ensures set { Where (endpoint_units u.old.value) (λ it. endpoint_units u.new.value
        ≡ Some (units_with_settings (units_config config.now) it)) }
{
    match u.get_mut() {
        Endpoint::AccessUnits(it) => match it.set_config(settings(config)) {
            true => OK,
            false => OUT_OF_RANGE,
        },
        _ => WRONG_END,
    }
}

/// Takes a packet that came at this tick.
#[unsafe(no_mangle)]
pub extern "C" fn h26x_access_units_push(
    u: &mut Handle,
    now: u32,
    sequence: u16,
    timestamp: u32,
    marker: bool,
    payload: &[u8],
    pushed: &mut u32,
    behind: &mut u16,
) -> u32
    ensures wrong { is_access_units u.old.value ≡ false → (result ≡ wrong_end)
        × (u.new.value ≡ u.old.value) }
    ensures answer { is_access_units u.old.value ≡ true → (result ≡ ok) ⊎ (result ≡ out_of_memory) }
    ensures told { TellsPush u.old.value (sequence, rtp_body timestamp marker payload.now)
        result (pushed.new, behind.new) }
    ensures after { IsPushedTo now (sequence, rtp_body timestamp marker payload.now)
        result u.old.value u.new.value }
    ensures kept { result ≢ ok → endpoint_units u.new.value ≡ endpoint_units u.old.value }
    ensures kept_told { result ≢ ok → (pushed.new ≡ pushed.old) × (behind.new ≡ behind.old) }
{
    let packet = RtpPacket {
        sequence,
        timestamp,
        marker,
        payload,
    };
    match u.get_mut() {
        Endpoint::AccessUnits(it) => match it.push(now, &packet) {
            Ok(what) => {
                (*pushed, *behind) = numbers_of_push(what);
                OK
            }
            Err(_) => OUT_OF_MEMORY,
        },
        _ => WRONG_END,
    }
}

/// Passes over a number that came at this tick and bears nothing of the stream.
#[unsafe(no_mangle)]
pub extern "C" fn h26x_access_units_skip(
    u: &mut Handle,
    now: u32,
    sequence: u16,
    pushed: &mut u32,
    behind: &mut u16,
) -> u32
    ensures wrong { is_access_units u.old.value ≡ false → (result ≡ wrong_end)
        × (u.new.value ≡ u.old.value) }
    ensures answer { is_access_units u.old.value ≡ true → (result ≡ ok) ⊎ (result ≡ out_of_memory) }
    ensures told { TellsPush u.old.value (sequence, rtp_body 0 false [])
        result (pushed.new, behind.new) }
    ensures after { IsPushedTo now (sequence, rtp_body 0 false [])
        result u.old.value u.new.value }
    ensures kept { result ≢ ok → endpoint_units u.new.value ≡ endpoint_units u.old.value }
    ensures kept_told { result ≢ ok → (pushed.new ≡ pushed.old) × (behind.new ≡ behind.old) }
{
    match u.get_mut() {
        Endpoint::AccessUnits(it) => match it.skip(now, sequence) {
            Ok(answer) => {
                (*pushed, *behind) = numbers_of_push(answer);
                OK
            }
            Err(_) => OUT_OF_MEMORY,
        },
        _ => WRONG_END,
    }
}

/// The next access unit, if one has ended at this tick.
#[unsafe(no_mangle)]
pub extern "C" fn h26x_access_units_next(
    u: &mut Handle,
    now: u32,
    to: &mut [u8],
    unit: &mut UnitTold,
) -> u32
    ensures wrong { is_access_units u.old.value ≡ false → (result ≡ wrong_end)
        × (u.new.value ≡ u.old.value) }
    ensures kept { is_access_units u.old.value ≡ false → (to.new ≡ to.old)
        × (unit.new ≡ unit.old) }
    ensures given { IsNextOf now u.old.value u.new.value to.old to.new result unit.old unit.new }
    ensures taken { Where (endpoint_units u.old.value)
        (λ it. result ≡ out_of_memory → (new : UnitsState)
        × (endpoint_units u.new.value ≡ Some new) × IsOutOfMemory now it new) }
    ensures none { result ≡ out_of_memory → (to.new ≡ to.old) × (unit.new ≡ unit.old) }
{
    match u.get_mut() {
        Endpoint::AccessUnits(it) => match it.next(now, to) {
            Ok(answer) => code_of_next(answer, unit),
            Err(_) => OUT_OF_MEMORY,
        },
        _ => WRONG_END,
    }
}

/// When to ask for the next access unit at the latest, if packets wait.
#[unsafe(no_mangle)]
pub extern "C" fn h26x_access_units_deadline(u: &ConstHandle, at: &mut u32) -> bool
    ensures tick { Where (endpoint_deadline u.now.value)
        (λ tick. (result ≡ true) × (at.new ≡ tick)) }
    ensures none { endpoint_deadline u.now.value ≡ None → (result ≡ false) × (at.new ≡ at.old) }
{
    let deadline = match u.get() {
        Endpoint::AccessUnits(it) => it.deadline(),
        _ => None,
    };
    match deadline {
        Some(tick) => {
            *at = tick;
            true
        }
        None => false,
    }
}

/// Copies the numbers that are missing before packets that wait, as many as there is room for.
#[unsafe(no_mangle)]
pub extern "C" fn h26x_access_units_missing(
    u: &ConstHandle,
    numbers: &mut [u16],
    count: &mut usize,
) -> u32
    ensures wrong { is_access_units u.now.value ≡ false → result ≡ wrong_end }
    ensures answer { is_access_units u.now.value ≡ true → (result ≡ ok) ⊎ (result ≡ out_of_memory) }
    ensures count { result ≡ ok → count.new ≡ length (endpoint_missing u.now.value) }
    ensures copied { result ≡ ok →
        numbers.new ≡ with_first (endpoint_missing u.now.value) numbers.old }
    ensures none { result ≢ ok → (count.new ≡ 0) × (numbers.new ≡ numbers.old) }
{
    *count = 0;
    match u.get() {
        Endpoint::AccessUnits(it) => match it.missing(numbers) {
            Ok(all) => {
                *count = all;
                OK
            }
            Err(_) => OUT_OF_MEMORY,
        },
        _ => WRONG_END,
    }
}

/// Copies the missing numbers that are to be asked for at this tick, as many as there is room for,
/// which count as asked for.
#[unsafe(no_mangle)]
pub extern "C" fn h26x_access_units_nacks(
    u: &mut Handle,
    now: u32,
    times: &NackTimes,
    numbers: &mut [u16],
    count: &mut usize,
) -> u32
    ensures wrong { is_access_units u.old.value ≡ false → (result ≡ wrong_end)
        × (u.new.value ≡ u.old.value) }
    ensures answer { is_access_units u.old.value ≡ true →
        (result ≡ ok) ⊎ (result ≡ out_of_memory) }
    ensures count { Where (endpoint_units u.old.value) (λ it. result ≡ ok →
        count.new ≡ length (units_nacks (nack_times times.now) now (length numbers.old) it)) }
    ensures copied { Where (endpoint_units u.old.value) (λ it. result ≡ ok → numbers.new
        ≡ with_first (units_nacks (nack_times times.now) now (length numbers.old) it) numbers.old) }
    ensures after { Where (endpoint_units u.old.value) (λ it. result ≡ ok →
        endpoint_units u.new.value
        ≡ Some (units_nacked (nack_times times.now) now (length numbers.old) it)) }
    ensures kept { result ≢ ok → endpoint_units u.new.value ≡ endpoint_units u.old.value }
    ensures none { result ≢ ok → (count.new ≡ 0) × (numbers.new ≡ numbers.old) }
{
    *count = 0;
    match u.get_mut() {
        Endpoint::AccessUnits(it) => match it.nacks(now, nack_times(times), numbers) {
            Ok(asked) => {
                *count = asked;
                OK
            }
            Err(_) => OUT_OF_MEMORY,
        },
        _ => WRONG_END,
    }
}

/// Says the number of the first packet of the stream.
#[unsafe(no_mangle)]
pub extern "C" fn h26x_access_units_begin_at(
    u: &mut Handle,
    sequence: u16,
    in_time: &mut u32,
) -> u32
    ensures wrong { is_access_units u.old.value ≡ false → (result ≡ wrong_end)
        × (u.new.value ≡ u.old.value) }
    ensures kept { is_access_units u.old.value ≡ false → in_time.new ≡ in_time.old }
    ensures begun { Where (endpoint_units u.old.value)
        (λ it. (result ≡ ok) × (endpoint_units u.new.value ≡ Some (units_begun sequence it))) }
    ensures told { Where (endpoint_units u.old.value)
        (λ it. in_time.new ≡ (if is_begun_in_time it then 1 else 0)) }
{
    match u.get_mut() {
        Endpoint::AccessUnits(it) => {
            *in_time = u32::from(it.begin_at(sequence));
            OK
        }
        _ => WRONG_END,
    }
}

/// At the end of a stream: all that waits is due, and then the open access unit ends.
#[unsafe(no_mangle)]
pub extern "C" fn h26x_access_units_finish(u: &mut Handle) -> u32
    ensures wrong { is_access_units u.old.value ≡ false → (result ≡ wrong_end)
        × (u.new.value ≡ u.old.value) }
    ensures finished { Where (endpoint_units u.old.value)
        (λ it. (result ≡ ok) × (endpoint_units u.new.value ≡ Some (units_finished it))) }
{
    match u.get_mut() {
        Endpoint::AccessUnits(it) => {
            it.finish();
            OK
        }
        _ => WRONG_END,
    }
}

/// Drops all that waits or is open, and takes any sequence number as the next.
#[unsafe(no_mangle)]
pub extern "C" fn h26x_access_units_restart(u: &mut Handle) -> u32
    ensures wrong { is_access_units u.old.value ≡ false → (result ≡ wrong_end)
        × (u.new.value ≡ u.old.value) }
    ensures restarted { Where (endpoint_units u.old.value)
        (λ it. (result ≡ ok) × (endpoint_units u.new.value ≡ Some (units_restarted it))) }
{
    match u.get_mut() {
        Endpoint::AccessUnits(it) => {
            it.restart();
            OK
        }
        _ => WRONG_END,
    }
}

/// What was counted.
#[unsafe(no_mangle)]
pub extern "C" fn h26x_access_units_count(u: &ConstHandle, counts: &mut Counts) -> u32
    ensures wrong { is_access_units u.now.value ≡ false → result ≡ wrong_end }
    ensures counts { Where (endpoint_units u.now.value)
        (λ it. (result ≡ ok) × (counts.new ≡ counts_told it.reception.counts)) }
    ensures kept { result ≢ ok → counts.new ≡ counts.old }
{
    match u.get() {
        Endpoint::AccessUnits(it) => {
            *counts = counts_told(it.counts());
            OK
        }
        _ => WRONG_END,
    }
}
