//! The calls of a receiver of access units, of datagrams as a socket brings them.

ghost use Rattle.std.specs.Prelude.{◌≡◌, ◌≢◌, ◌⊎◌, ℕ, true, false, if◌then◌else◌, Some, None, Ok, Err, length};
ghost use Rattle.h26x_model.specs.Where.{Where};
ghost use Rattle.h26x_codec.specs.declared.codec.Codec.{Codec};
ghost use Rattle.h26x_rtp_receiver.specs.Keyframes.{is_keyframe_due};
ghost use Rattle.h26x_rtp_receiver.specs.RtpReception.{nacks_due, after_nacks, after_keyframe, report_of, after_report_of};
ghost use Rattle.h26x_endpoint.specs.EndpointStates.{is_rtp_receiver, endpoint_rtp, endpoint_rtp_deadline, place_rtp};
ghost use Rattle.h26x_handles.specs.RtpState.{RtpState, with_rtp_reception, rtp_state_with_settings, rtp_state_followed, rtp_state_finished, IsRtpOutOfMemory};
ghost use Rattle.h26x_handles.specs.UnitsState.{is_window};
ghost use Rattle.h26x_codes.specs.Codes.{ok, out_of_memory, out_of_range, wrong_end};
ghost use Rattle.h26x_codes.specs.Copies.{with_first};
ghost use Rattle.h26x_c.specs.AccessUnits.{config_codec_or_code, units_config, nack_times, counts_told};
ghost use Rattle.h26x_c.specs.Endpoints.{Makes};
ghost use Rattle.h26x_c.specs.Rtcp.{number_where, statistics_told};
ghost use Rattle.h26x_c.specs.RtpReceivers as spec;

use crate::access_units::{Config, Counts, NackTimes, counts_told, nack_times, settings};
use crate::const_handle::ConstHandle;
use crate::handle::Handle;
use crate::place::{Place, put};
use crate::rtcp::{Report, Statistics, report_of, statistics_told};
use crate::rtp::{code_of_reading, code_of_red};
use h26x_codes::code::{OK, OUT_OF_MEMORY, OUT_OF_RANGE, WRONG_END};
use h26x_endpoint::endpoint::Endpoint;
use h26x_handles::access_units::{UnitTold, code_of_next, numbers_of_push, units_codec_wanted};
use h26x_handles::rtp_receiver::{GivesRtpUnits, RtpReceiverEndpoint};
use h26x_rtp_receiver::{NoMedia, RtpPayloadTypes, RtpPushError, RtpPushed, RtpSources, RtpTaken};
use std::alloc::Global;

/// The payload types of one stream.
#[repr(C)]
#[derive(Clone, Copy)]
pub struct PayloadTypes {
    pub media: u8,
    pub rtx: u8,
    pub red: u8,
    pub rtx_of_red: u8,
    pub fec: u8,
    pub has_rtx: bool,
    pub has_red: bool,
    pub has_rtx_of_red: bool,
    pub has_fec: bool,
}

/// The sources of one stream, by their SSRCs.
#[repr(C)]
#[derive(Clone, Copy)]
pub struct Sources {
    pub media: u32,
    pub rtx: u32,
    pub has_media: bool,
    pub has_rtx: bool,
}

/// What became of a datagram.
#[repr(C)]
#[derive(Clone, Copy)]
pub struct DatagramTold {
    pub became: u32,
    pub ssrc: u32,
    pub no_media: u32,
    pub pushed: u32,
    pub behind: u16,
    pub sequence: u16,
    pub payload_type: u8,
    pub is_recovered: bool,
}

/// A payload type that may be there.
fn type_where(is_there: bool, payload_type: u8) -> Option<u8>
    ensures { result ≡ number_where is_there payload_type }
{
    if is_there { Some(payload_type) } else { None }
}

/// An SSRC that may be known.
fn ssrc_where(is_known: bool, ssrc: u32) -> Option<u32>
    ensures { result ≡ number_where is_known ssrc }
{
    if is_known { Some(ssrc) } else { None }
}

/// The payload types that C says.
fn payload_types(types: &PayloadTypes) -> RtpPayloadTypes
    ensures { result ≡ spec.payload_types types.now }
{
    RtpPayloadTypes {
        media: types.media,
        rtx: type_where(types.has_rtx, types.rtx),
        red: type_where(types.has_red, types.red),
        rtx_of_red: type_where(types.has_rtx_of_red, types.rtx_of_red),
        fec: type_where(types.has_fec, types.fec),
    }
}

/// The sources that C says.
fn sources_in(sources: &Sources) -> RtpSources
    ensures { result ≡ spec.sources_in sources.now }
{
    RtpSources {
        media: ssrc_where(sources.has_media, sources.media),
        rtx: ssrc_where(sources.has_rtx, sources.rtx),
    }
}

/// The sources, as C is told them.
fn sources_told(sources: RtpSources) -> Sources
    ensures { result ≡ spec.sources_told sources }
{
    Sources {
        media: sources.media.unwrap_or(0),
        rtx: sources.rtx.unwrap_or(0),
        has_media: sources.media.is_some(),
        has_rtx: sources.rtx.is_some(),
    }
}

/// Why a packet bears nothing of the codec, as a number, and its payload type where that is why.
fn no_media_numbers(no_media: Option<NoMedia>) -> (u32, u8)
    ensures { result ≡ spec.no_media_numbers no_media }
{
    match no_media {
        None => (0, 0),
        Some(NoMedia::Padding) => (1, 0),
        Some(NoMedia::Fec) => (2, 0),
        Some(NoMedia::OtherPayloadType(payload_type)) => (3, payload_type),
    }
}

/// What is told of a packet of the stream.
fn taken_told(taken: RtpTaken) -> DatagramTold
    ensures { result ≡ spec.taken_told taken }
{
    let (no_media, payload_type) = no_media_numbers(taken.no_media);
    let (pushed, behind) = numbers_of_push(taken.pushed);
    DatagramTold {
        became: 0,
        ssrc: 0,
        no_media,
        pushed,
        behind,
        sequence: taken.sequence,
        payload_type,
        is_recovered: taken.is_recovered,
    }
}

/// What is told of a datagram that brings no packet of the stream.
fn passed_over(became: u32, ssrc: u32) -> DatagramTold
    ensures { result ≡ spec.passed_over became ssrc }
{
    DatagramTold {
        became,
        ssrc,
        no_media: 0,
        pushed: 0,
        behind: 0,
        sequence: 0,
        payload_type: 0,
        is_recovered: false,
    }
}

/// What is told of a datagram.
fn datagram_told(pushed: RtpPushed) -> DatagramTold
    ensures { result ≡ spec.datagram_told pushed }
{
    match pushed {
        RtpPushed::Packet(taken) => taken_told(taken),
        RtpPushed::Rtcp => passed_over(1, 0),
        RtpPushed::Probe => passed_over(2, 0),
        RtpPushed::NewSource(ssrc) => passed_over(3, ssrc),
        RtpPushed::OtherSource(ssrc) => passed_over(4, ssrc),
    }
}

/// Why a datagram isn't taken, as a code.
fn code_of_push(error: RtpPushError) -> u32
    ensures { result ≡ spec.rtp_push_code error }
{
    match error {
        RtpPushError::Rtp(error) => code_of_reading(error),
        RtpPushError::Red(error) => code_of_red(error),
        RtpPushError::Packet(_) => OUT_OF_MEMORY,
    }
}

/// Makes a receiver that follows the SSRC of the first packet of the codec or of RED.
#[unsafe(no_mangle)]
pub extern "C" fn h26x_rtp_receiver_new(
    alloc: Global,
    config: &Config,
    types: &PayloadTypes,
    made: &mut Place,
) -> u32
    ensures refused { (code : ℕ) → config_codec_or_code config.now ≡ Err code → result ≡ code }
    ensures answer { (c : Codec) → config_codec_or_code config.now ≡ Ok c →
        (result ≡ ok) ⊎ (result ≡ out_of_memory) }
    ensures made { Makes (config_codec_or_code config.now) result (place_rtp made.new.value)
        (λ c. spec.fresh_rtp_with c types.now config.now) }
    ensures kept { result ≢ ok → made.new ≡ made.old }
{
    match units_codec_wanted(config.codec, config.numbers, config.window) {
        Ok(codec) => put(
            alloc,
            Endpoint::RtpReceiver(RtpReceiverEndpoint::new(
                alloc,
                codec,
                config.numbers,
                config.avc,
                payload_types(types),
                settings(config),
            )),
            made,
        ),
        Err(code) => code,
    }
}

/// Frees a receiver of datagrams.
#[unsafe(no_mangle)]
pub extern "C" fn h26x_rtp_receiver_free(r: Handle) {
    drop(r.into_box());
}

/// Has other settings from now on, but for its codec, and how packets and units are written.
#[unsafe(no_mangle)]
pub extern "C" fn h26x_rtp_receiver_set_config(r: &mut Handle, config: &Config) -> u32
    ensures wrong { is_rtp_receiver r.old.value ≡ false → (result ≡ wrong_end)
        × (r.new.value ≡ r.old.value) }
    ensures answer { is_rtp_receiver r.old.value ≡ true →
        result ≡ (if is_window config.now.window then ok else out_of_range) }
    ensures set { Where (endpoint_rtp r.old.value) (λ it. endpoint_rtp r.new.value
        ≡ Some (rtp_state_with_settings (units_config config.now) it)) }
{
    match r.get_mut() {
        Endpoint::RtpReceiver(it) => match it.set_config(settings(config)) {
            true => OK,
            false => OUT_OF_RANGE,
        },
        _ => WRONG_END,
    }
}

/// Follows these sources from now on.
#[unsafe(no_mangle)]
pub extern "C" fn h26x_rtp_receiver_follow(r: &mut Handle, sources: &Sources) -> u32
    ensures wrong { is_rtp_receiver r.old.value ≡ false → (result ≡ wrong_end)
        × (r.new.value ≡ r.old.value) }
    ensures followed { Where (endpoint_rtp r.old.value) (λ it. (result ≡ ok)
        × (endpoint_rtp r.new.value ≡ Some (rtp_state_followed (spec.sources_in sources.now) it))) }
{
    match r.get_mut() {
        Endpoint::RtpReceiver(it) => {
            it.follow(sources_in(sources));
            OK
        }
        _ => WRONG_END,
    }
}

/// The SSRCs that are followed, as far as they are known.
#[unsafe(no_mangle)]
pub extern "C" fn h26x_rtp_receiver_sources(r: &ConstHandle, sources: &mut Sources) -> u32
    ensures wrong { is_rtp_receiver r.now.value ≡ false → result ≡ wrong_end }
    ensures sources { Where (endpoint_rtp r.now.value)
        (λ it. (result ≡ ok) × (sources.new ≡ spec.sources_told it.reception.sources)) }
    ensures kept { result ≢ ok → sources.new ≡ sources.old }
{
    match r.get() {
        Endpoint::RtpReceiver(it) => {
            *sources = sources_told(it.sources());
            OK
        }
        _ => WRONG_END,
    }
}

/// Takes a datagram that came at this tick, and at this one of the timestamps' clock.
#[unsafe(no_mangle)]
pub extern "C" fn h26x_rtp_receiver_push(
    r: &mut Handle,
    now: u32,
    arrival: u32,
    datagram: &[u8],
    told: &mut DatagramTold,
) -> u32
    ensures wrong { is_rtp_receiver r.old.value ≡ false → (result ≡ wrong_end)
        × (r.new.value ≡ r.old.value) }
    ensures pushed { spec.IsPushedDatagram now arrival datagram.now r.old.value r.new.value result
        told.old told.new }
    ensures kept { result ≢ ok → endpoint_rtp r.new.value ≡ endpoint_rtp r.old.value }
    ensures kept_told { result ≢ ok → told.new ≡ told.old }
{
    match r.get_mut() {
        Endpoint::RtpReceiver(it) => match it.push(now, arrival, datagram) {
            Ok(pushed) => {
                *told = datagram_told(pushed);
                OK
            }
            Err(error) => code_of_push(error),
        },
        _ => WRONG_END,
    }
}

/// The next access unit, if one has ended at this tick.
#[unsafe(no_mangle)]
pub extern "C" fn h26x_rtp_receiver_next(
    r: &mut Handle,
    now: u32,
    to: &mut [u8],
    unit: &mut UnitTold,
) -> u32
    ensures wrong { is_rtp_receiver r.old.value ≡ false → (result ≡ wrong_end)
        × (r.new.value ≡ r.old.value) }
    ensures kept { is_rtp_receiver r.old.value ≡ false → (to.new ≡ to.old)
        × (unit.new ≡ unit.old) }
    ensures given { spec.IsRtpNextOf now r.old.value r.new.value to.old to.new result unit.old
        unit.new }
    ensures taken { Where (endpoint_rtp r.old.value)
        (λ it. result ≡ out_of_memory → (new : RtpState)
        × (endpoint_rtp r.new.value ≡ Some new) × IsRtpOutOfMemory now it new) }
    ensures none { result ≡ out_of_memory → (to.new ≡ to.old) × (unit.new ≡ unit.old) }
{
    match r.get_mut() {
        Endpoint::RtpReceiver(it) => match it.next(now, to) {
            Ok(answer) => code_of_next(answer, unit),
            Err(_) => OUT_OF_MEMORY,
        },
        _ => WRONG_END,
    }
}

/// When to ask for the next access unit at the latest, if packets wait.
#[unsafe(no_mangle)]
pub extern "C" fn h26x_rtp_receiver_deadline(r: &ConstHandle, at: &mut u32) -> bool
    ensures tick { Where (endpoint_rtp_deadline r.now.value)
        (λ tick. (result ≡ true) × (at.new ≡ tick)) }
    ensures none { endpoint_rtp_deadline r.now.value ≡ None →
        (result ≡ false) × (at.new ≡ at.old) }
{
    let deadline = match r.get() {
        Endpoint::RtpReceiver(it) => it.deadline(),
        _ => None,
    };
    match deadline {
        Some(tick) => {
            *at = tick;
            true
        }
        None => false,
    }
}

/// Copies the missing numbers that are to be asked for at this tick, as many as there is room for,
/// which count as asked for.
#[unsafe(no_mangle)]
pub extern "C" fn h26x_rtp_receiver_nacks(
    r: &mut Handle,
    now: u32,
    times: &NackTimes,
    numbers: &mut [u16],
    count: &mut usize,
) -> u32
    ensures wrong { is_rtp_receiver r.old.value ≡ false → (result ≡ wrong_end)
        × (r.new.value ≡ r.old.value) }
    ensures answer { is_rtp_receiver r.old.value ≡ true → (result ≡ ok) ⊎ (result ≡ out_of_memory) }
    ensures count { Where (endpoint_rtp r.old.value) (λ it. result ≡ ok →
        count.new ≡ length (nacks_due (nack_times times.now) now (length numbers.old)
        it.reception)) }
    ensures copied { Where (endpoint_rtp r.old.value) (λ it. result ≡ ok →
        numbers.new ≡ with_first (nacks_due (nack_times times.now) now (length numbers.old)
        it.reception) numbers.old) }
    ensures after { Where (endpoint_rtp r.old.value) (λ it. result ≡ ok →
        endpoint_rtp r.new.value ≡ Some (with_rtp_reception (after_nacks (nack_times times.now) now
        (length numbers.old) it.reception) it)) }
    ensures kept { result ≢ ok → endpoint_rtp r.new.value ≡ endpoint_rtp r.old.value }
    ensures none { result ≢ ok → (count.new ≡ 0) × (numbers.new ≡ numbers.old) }
{
    *count = 0;
    match r.get_mut() {
        Endpoint::RtpReceiver(it) => match it.nacks(now, nack_times(times), numbers) {
            Ok(asked) => {
                *count = asked;
                OK
            }
            Err(_) => OUT_OF_MEMORY,
        },
        _ => WRONG_END,
    }
}

/// Whether to ask for a keyframe at this tick, which then counts as asked for.
#[unsafe(no_mangle)]
pub extern "C" fn h26x_rtp_receiver_keyframe_wanted(r: &mut Handle, now: u32, again: u32) -> bool
    ensures wrong { is_rtp_receiver r.old.value ≡ false → (result ≡ false)
        × (r.new.value ≡ r.old.value) }
    ensures wanted { Where (endpoint_rtp r.old.value)
        (λ it. result ≡ is_keyframe_due again now it.reception.keyframes) }
    ensures after { Where (endpoint_rtp r.old.value) (λ it. endpoint_rtp r.new.value
        ≡ Some (with_rtp_reception (after_keyframe again now it.reception) it)) }
{
    match r.get_mut() {
        Endpoint::RtpReceiver(it) => it.keyframe_wanted(now, again),
        _ => false,
    }
}

/// What is counted of the packets of the SSRC that is followed.
#[unsafe(no_mangle)]
pub extern "C" fn h26x_rtp_receiver_statistics(r: &ConstHandle, counted: &mut Statistics) -> u32
    ensures wrong { is_rtp_receiver r.now.value ≡ false → result ≡ wrong_end }
    ensures counted { Where (endpoint_rtp r.now.value)
        (λ it. (result ≡ ok) × (counted.new ≡ statistics_told it.reception.statistics)) }
    ensures kept { result ≢ ok → counted.new ≡ counted.old }
{
    match r.get() {
        Endpoint::RtpReceiver(it) => {
            *counted = statistics_told(it.statistics());
            OK
        }
        _ => WRONG_END,
    }
}

/// Whether the SSRC that is followed is known, and what is reported of it.
#[unsafe(no_mangle)]
pub extern "C" fn h26x_rtp_receiver_report(
    r: &mut Handle,
    last_sender_report: u32,
    delay: u32,
    report: &mut Report,
) -> bool
    ensures wrong { is_rtp_receiver r.old.value ≡ false → (result ≡ false)
        × (r.new.value ≡ r.old.value) × (report.new ≡ report.old) }
    ensures told { Where (endpoint_rtp r.old.value) (λ it. (result, report.new)
        ≡ spec.rtp_report_answer (report_of last_sender_report delay it.reception) report.old) }
    ensures after { Where (endpoint_rtp r.old.value) (λ it. endpoint_rtp r.new.value
        ≡ Some (with_rtp_reception (after_report_of it.reception) it)) }
{
    match r.get_mut() {
        Endpoint::RtpReceiver(it) => match it.report(last_sender_report, delay) {
            Some(block) => {
                *report = report_of(block);
                true
            }
            None => false,
        },
        _ => false,
    }
}

/// At the end of a stream: all that waits is due, and then the open access unit ends.
#[unsafe(no_mangle)]
pub extern "C" fn h26x_rtp_receiver_finish(r: &mut Handle) -> u32
    ensures wrong { is_rtp_receiver r.old.value ≡ false → (result ≡ wrong_end)
        × (r.new.value ≡ r.old.value) }
    ensures finished { Where (endpoint_rtp r.old.value)
        (λ it. (result ≡ ok) × (endpoint_rtp r.new.value ≡ Some (rtp_state_finished it))) }
{
    match r.get_mut() {
        Endpoint::RtpReceiver(it) => {
            it.finish();
            OK
        }
        _ => WRONG_END,
    }
}

/// What was counted.
#[unsafe(no_mangle)]
pub extern "C" fn h26x_rtp_receiver_count(r: &ConstHandle, counts: &mut Counts) -> u32
    ensures wrong { is_rtp_receiver r.now.value ≡ false → result ≡ wrong_end }
    ensures counts { Where (endpoint_rtp r.now.value)
        (λ it. (result ≡ ok) × (counts.new ≡ counts_told it.reception.reception.counts)) }
    ensures kept { result ≢ ok → counts.new ≡ counts.old }
{
    match r.get() {
        Endpoint::RtpReceiver(it) => {
            *counts = counts_told(it.counts());
            OK
        }
        _ => WRONG_END,
    }
}
