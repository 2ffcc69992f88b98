//! The calls of a receiver of packets with their sequence numbers.

ghost use Rattle.std.specs.Prelude.{◌≡◌, ◌≢◌, ◌⊎◌, ◌≤◌, ℕ, true, false, Some, None, Ok, Err};
ghost use Rattle.h26x_model.specs.Where.{Where};
ghost use Rattle.h26x_codec.specs.Codec.{codec_format};
ghost use Rattle.h26x_codec.specs.declared.codec.Codec.{Codec};
ghost use Rattle.h26x_c.specs.Answers.{IsReceiverCode};
ghost use Rattle.h26x_c.specs.Endpoints.{Makes, IfReceived, HandsOver, IsSameShowing};
ghost use Rattle.h26x_receiver.specs.Sequenced.{skip_answer};
ghost use Rattle.h26x_codes.specs.Codes.{codec_or_code, may_have_donl, extra_number, ok, out_of_memory, wrong_end, not_of_this_codec, says_taken, received_numbers};
ghost use Rattle.h26x_handles.specs.States.{receiver_run_len};
ghost use Rattle.h26x_endpoint.specs.EndpointStates.{is_sequenced, endpoint_receiver, endpoint_receiver_state, endpoint_expected, endpoint_run_len, endpoint_codec, fresh_sequenced_endpoint, endpoint_without_output, endpoint_restarted, endpoint_after_skip, endpoint_with_donl, endpoint_with_avc};

use crate::const_handle::ConstHandle;
use crate::handle::Handle;
use crate::place::{Place, put};
use h26x_codes::code::{
    NOT_OF_THIS_CODEC, OK, OUT_OF_MEMORY, Refusal, WRONG_END, code_of, codec_wanted, extra_of,
    may_have_donl, number_of, numbers_of,
};
use h26x_endpoint::endpoint::Endpoint;
use h26x_handles::sequenced::SequencedEndpoint;
use std::alloc::Global;

/// Makes a receiver that takes any sequence number as the first.
#[unsafe(no_mangle)]
pub extern "C" fn h26x_receiver_new(
    alloc: Global,
    codec: u32,
    numbers: bool,
    is_avc: bool,
    run_limit: usize,
    made: &mut Place,
) -> u32
    ensures refused { (code : ℕ) → codec_or_code codec numbers ≡ Err code → result ≡ code }
    ensures answer { (c : Codec) → codec_or_code codec numbers ≡ Ok c →
        (result ≡ ok) ⊎ (result ≡ out_of_memory) }
    ensures made { Makes (codec_or_code codec numbers) result made.new.value
        (λ c. fresh_sequenced_endpoint c numbers is_avc run_limit) }
    ensures fresh { (c : Codec) → endpoint_receiver_state (fresh_sequenced_endpoint c numbers is_avc
        run_limit)
        ≡ Some (record { format = codec_format c numbers; is_avc = is_avc; run = None }) }
    ensures kept { result ≢ ok → made.new ≡ made.old }
{
    match codec_wanted(codec, numbers) {
        Ok(codec) => put(
            alloc,
            Endpoint::Sequenced(SequencedEndpoint::new(alloc, codec, numbers, is_avc, run_limit)),
            made,
        ),
        Err(code) => code,
    }
}

/// Makes a receiver again, without what its last packet completed.
#[unsafe(no_mangle)]
pub extern "C" fn h26x_receiver_clone(alloc: Global, r: &ConstHandle, made: &mut Place) -> u32
    ensures wrong { is_sequenced r.now.value ≡ false → result ≡ wrong_end }
    ensures answer { is_sequenced r.now.value ≡ true → (result ≡ ok) ⊎ (result ≡ out_of_memory) }
    ensures made { result ≡ ok → made.new.value ≡ Some (endpoint_without_output r.now.value) }
    ensures kept { result ≢ ok → made.new ≡ made.old }
{
    let copy = match r.get() {
        Endpoint::Sequenced(it) => it.clone(alloc),
        _ => return WRONG_END,
    };
    match copy {
        Ok(copy) => put(alloc, Endpoint::Sequenced(copy), made),
        Err(_) => OUT_OF_MEMORY,
    }
}

/// Frees a receiver.
#[unsafe(no_mangle)]
pub extern "C" fn h26x_receiver_free(r: Handle) {
    drop(r.into_box());
}

/// Sets whether packets bear decoding order numbers.
#[unsafe(no_mangle)]
pub extern "C" fn h26x_receiver_set_numbers(r: &mut Handle, numbers: bool) -> u32
    ensures wrong { is_sequenced r.old.value ≡ false → result ≡ wrong_end }
    ensures none { is_sequenced r.old.value ≡ true →
        may_have_donl (endpoint_codec r.old.value) ≡ false → result ≡ not_of_this_codec }
    ensures set { is_sequenced r.old.value ≡ true → may_have_donl (endpoint_codec r.old.value) ≡
        true →
        (result ≡ ok) × (r.new.value ≡ endpoint_with_donl numbers r.old.value) }
    ensures kept { result ≢ ok → r.new.value ≡ r.old.value }
{
    match r.get_mut() {
        Endpoint::Sequenced(it) => {
            if !may_have_donl(it.depacketizer().codec()) {
                return NOT_OF_THIS_CODEC;
            }
            it.with_donl(numbers);
            OK
        }
        _ => WRONG_END,
    }
}

/// Sets whether units are written behind lengths or behind start codes.
#[unsafe(no_mangle)]
pub extern "C" fn h26x_receiver_set_avc(r: &mut Handle, is_avc: bool) -> u32
    ensures wrong { is_sequenced r.old.value ≡ false → (result ≡ wrong_end)
        × (r.new.value ≡ r.old.value) }
    ensures set { is_sequenced r.old.value ≡ true → (result ≡ ok)
        × (r.new.value ≡ endpoint_with_avc is_avc r.old.value) }
{
    match r.get_mut() {
        Endpoint::Sequenced(it) => {
            it.set_avc(is_avc);
            OK
        }
        _ => WRONG_END,
    }
}

/// Takes a packet with its sequence number, and writes what it completes where there is room for it.
#[unsafe(no_mangle)]
pub extern "C" fn h26x_receive(
    r: &mut Handle,
    sequence: u16,
    packet: &[u8],
    to: &mut [u8],
    written: &mut usize,
    extra: &mut u8,
    received: &mut u32,
    count: &mut u16,
    why: &mut Refusal,
) -> u32
    // What is answered.
    ensures wrong { is_sequenced r.old.value ≡ false → result ≡ wrong_end }
    ensures answer { IsReceiverCode r.old.value extra.old sequence packet.now
        result why.new.first why.new.second received.new count.new }

    // What stands after a packet that was taken.
    ensures run { IfReceived r.old.value extra.old sequence packet.now result received.new
        (λ w. endpoint_receiver_state r.new.value ≡ Some w.at_work.state) }
    ensures next { IfReceived r.old.value extra.old sequence packet.now result received.new
        (λ w. endpoint_expected r.new.value ≡ w.expected) }
    ensures told { IfReceived r.old.value extra.old sequence packet.now result received.new
        (λ w. extra.new ≡ extra_number w.at_work.extra) }
    ensures given { IfReceived r.old.value extra.old sequence packet.now result received.new
        (λ w. HandsOver r.new.value w.at_work.out to.old to.new written.new) }
    ensures rest { says_taken result received.new ≡ true →
        IsSameShowing endpoint_restarted packet.now r.old.value r.new.value }
    ensures bounded { Where (endpoint_receiver r.old.value)
        (λ it. receiver_run_len it ≤ it.run_limit → endpoint_run_len r.new.value ≤ it.run_limit) }

    // A packet that was late or refused leaves everything.
    ensures kept { says_taken result received.new ≡ false → r.new.value ≡ r.old.value }
    ensures kept_to { says_taken result received.new ≡ false → to.new ≡ to.old }
    ensures kept_extra { says_taken result received.new ≡ false → extra.new ≡ extra.old }
    ensures none_written { says_taken result received.new ≡ false → written.new ≡ 0 }
    ensures kept_received { result ≢ ok → (received.new ≡ received.old) × (count.new ≡ count.old) }
    ensures kept_why { result ≡ ok → why.new ≡ why.old }
{
    *written = 0;
    let Endpoint::Sequenced(it) = r.get_mut() else {
        return WRONG_END;
    };
    let mut told = extra_of(it.depacketizer().codec(), *extra);
    match it.receive(sequence, packet, to, written, &mut told) {
        Ok(what) => {
            if what.is_taken() {
                *extra = number_of(told);
            }
            (*received, *count) = numbers_of(what);
            OK
        }
        Err(error) => code_of(error, why),
    }
}

/// Passes over a number that came and bears nothing of the stream.
#[unsafe(no_mangle)]
pub extern "C" fn h26x_receiver_skip(
    r: &mut Handle,
    sequence: u16,
    received: &mut u32,
    count: &mut u16,
) -> u32
    ensures wrong { is_sequenced r.old.value ≡ false → result ≡ wrong_end }
    ensures answer { is_sequenced r.old.value ≡ true → (result ≡ ok)
        × ((received.new, count.new)
        ≡ received_numbers (skip_answer (endpoint_expected r.old.value) sequence)) }
    ensures after { r.new.value ≡ endpoint_after_skip sequence r.old.value }
    ensures kept_received { result ≢ ok → (received.new ≡ received.old) × (count.new ≡ count.old) }
{
    match r.get_mut() {
        Endpoint::Sequenced(it) => {
            (*received, *count) = numbers_of(it.skip(sequence));
            OK
        }
        _ => WRONG_END,
    }
}

/// Gives up the open run, and takes any sequence number as the next.
#[unsafe(no_mangle)]
pub extern "C" fn h26x_receiver_restart(r: &mut Handle) -> u32
    ensures wrong { is_sequenced r.old.value ≡ false → (result ≡ wrong_end)
        × (r.new.value ≡ r.old.value) }
    ensures restarted { is_sequenced r.old.value ≡ true → (result ≡ ok)
        × (r.new.value ≡ endpoint_restarted r.old.value) }
{
    match r.get_mut() {
        Endpoint::Sequenced(it) => {
            it.restart();
            OK
        }
        _ => WRONG_END,
    }
}

/// How many bytes the open run holds.
#[unsafe(no_mangle)]
pub extern "C" fn h26x_receiver_run_len(r: &ConstHandle) -> usize
    ensures len { result ≡ endpoint_run_len r.now.value }
{
    match r.get() {
        Endpoint::Sequenced(it) => it.run_len(),
        _ => 0,
    }
}
