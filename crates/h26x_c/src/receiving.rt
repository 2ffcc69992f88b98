//! The calls of a depacketizer.

ghost use Rattle.std.specs.Prelude.{◌≡◌, ◌≢◌, ◌⊎◌, ℕ, true, false, Some, Ok, Err, length};
ghost use Rattle.h26x_model.specs.Where.{Where};
ghost use Rattle.h26x_codec.specs.Codec.{codec_format, fresh_depacketizer_state};
ghost use Rattle.h26x_codec.specs.declared.codec.Codec.{Codec};
ghost use Rattle.h26x_c.specs.Answers.{IsAnswer};
ghost use Rattle.h26x_c.specs.Endpoints.{Makes, IfDepacketized, HandsOver, IsSameShowing};
ghost use Rattle.h26x_codes.specs.Codes.{codec_or_code, may_have_donl, extra_number, ok, out_of_memory, wrong_end, not_of_this_codec};
ghost use Rattle.h26x_codes.specs.Copies.{with_front};
ghost use Rattle.h26x_endpoint.specs.EndpointStates.{is_receiving, endpoint_depacketizer_state, endpoint_depacketization, endpoint_written, endpoint_codec, fresh_receiving_endpoint, endpoint_without_output, are_same_endpoints, endpoint_without_run, endpoint_with_donl};

use crate::const_handle::ConstHandle;
use crate::handle::Handle;
use crate::place::{Place, put};
use h26x_codec::Codec;
use h26x_codes::code::{
    NOT_OF_THIS_CODEC, OK, OUT_OF_MEMORY, Refusal, WRONG_END, code_of, codec_wanted, extra_of,
    may_have_donl, number_of,
};
use h26x_codes::copy::copy_where_room;
use h26x_depacketizer::RunDepacketizer;
use h26x_endpoint::endpoint::Endpoint;
use h26x_handles::receiving::ReceivingEndpoint;
use std::alloc::Global;

/// Makes a depacketizer with no run open.
#[unsafe(no_mangle)]
pub extern "C" fn h26x_depacketizer_new(
    alloc: Global,
    codec: u32,
    numbers: bool,
    made: &mut Place,
) -> u32
    ensures refused { (code : ℕ) → codec_or_code codec numbers ≡ Err code → result ≡ code }
    ensures answer { (c : Codec) → codec_or_code codec numbers ≡ Ok c →
        (result ≡ ok) ⊎ (result ≡ out_of_memory) }
    ensures made { Makes (codec_or_code codec numbers) result made.new.value
        (λ c. fresh_receiving_endpoint c numbers) }
    ensures fresh { (c : Codec) → endpoint_depacketizer_state false (fresh_receiving_endpoint c
        numbers)
        ≡ Some (fresh_depacketizer_state (codec_format c numbers)) }
    ensures kept { result ≢ ok → made.new ≡ made.old }
{
    match codec_wanted(codec, numbers) {
        Ok(codec) => put(
            alloc,
            Endpoint::Receiving(ReceivingEndpoint::new(alloc, codec, numbers)),
            made,
        ),
        Err(code) => code,
    }
}

/// Makes a depacketizer again, without what its last packet completed.
#[unsafe(no_mangle)]
pub extern "C" fn h26x_depacketizer_clone(alloc: Global, d: &ConstHandle, made: &mut Place) -> u32
    ensures wrong { is_receiving d.now.value ≡ false → result ≡ wrong_end }
    ensures answer { is_receiving d.now.value ≡ true → (result ≡ ok) ⊎ (result ≡ out_of_memory) }
    ensures made { result ≡ ok → made.new.value ≡ Some (endpoint_without_output d.now.value) }
    ensures kept { result ≢ ok → made.new ≡ made.old }
{
    let copy = match d.get() {
        Endpoint::Receiving(it) => it.clone(alloc),
        _ => return WRONG_END,
    };
    match copy {
        Ok(copy) => put(alloc, Endpoint::Receiving(copy), made),
        Err(_) => OUT_OF_MEMORY,
    }
}

/// Frees a depacketizer.
#[unsafe(no_mangle)]
pub extern "C" fn h26x_depacketizer_free(d: Handle) {
    drop(d.into_box());
}

/// Whether two depacketizers are the same.
#[unsafe(no_mangle)]
pub extern "C" fn h26x_depacketizer_same(a: &ConstHandle, b: &ConstHandle) -> bool
    ensures same { result ≡ are_same_endpoints a.now.value b.now.value }
{
    match (a.get(), b.get()) {
        (Endpoint::Receiving(a), Endpoint::Receiving(b)) => a.depacketizer.is_same(&b.depacketizer),
        _ => false,
    }
}

/// Sets whether packets bear decoding order numbers.
#[unsafe(no_mangle)]
pub extern "C" fn h26x_depacketizer_set_numbers(d: &mut Handle, numbers: bool) -> u32
    ensures wrong { is_receiving d.old.value ≡ false → result ≡ wrong_end }
    ensures none { is_receiving d.old.value ≡ true →
        may_have_donl (endpoint_codec d.old.value) ≡ false → result ≡ not_of_this_codec }
    ensures set { is_receiving d.old.value ≡ true → may_have_donl (endpoint_codec d.old.value) ≡
        true →
        (result ≡ ok) × (d.new.value ≡ endpoint_with_donl numbers d.old.value) }
    ensures kept { result ≢ ok → d.new.value ≡ d.old.value }
{
    match d.get_mut() {
        Endpoint::Receiving(it) => {
            if !may_have_donl(it.depacketizer.codec()) {
                return NOT_OF_THIS_CODEC;
            }
            it.depacketizer.with_donl(numbers);
            OK
        }
        _ => WRONG_END,
    }
}

/// Takes a packet, and writes what it completes, behind lengths or behind start codes, where there is
/// room for it.
#[unsafe(no_mangle)]
pub extern "C" fn h26x_depacketize(
    d: &mut Handle,
    is_avc: bool,
    packet: &[u8],
    to: &mut [u8],
    written: &mut usize,
    extra: &mut u8,
    why: &mut Refusal,
) -> u32
    ensures wrong { is_receiving d.old.value ≡ false → result ≡ wrong_end }
    ensures answer { Where (endpoint_depacketization is_avc d.old.value extra.old)
        (λ w. IsAnswer w packet.now result why.new.first why.new.second) }

    // What stands after a packet that was taken.
    ensures run { IfDepacketized is_avc d.old.value extra.old packet.now result
        (λ w. endpoint_depacketizer_state is_avc d.new.value ≡ Some w.state) }
    ensures told { IfDepacketized is_avc d.old.value extra.old packet.now result
        (λ w. extra.new ≡ extra_number w.extra) }
    ensures given { IfDepacketized is_avc d.old.value extra.old packet.now result
        (λ w. HandsOver d.new.value w.out to.old to.new written.new) }
    ensures rest { result ≡ ok →
        IsSameShowing endpoint_without_run packet.now d.old.value d.new.value }

    // A refusal leaves everything.
    ensures kept_why { result ≡ ok → why.new ≡ why.old }
    ensures none_written { result ≢ ok → written.new ≡ 0 }
    ensures kept { result ≢ ok → d.new.value ≡ d.old.value }
    ensures kept_to { result ≢ ok → to.new ≡ to.old }
    ensures kept_extra { result ≢ ok → extra.new ≡ extra.old }
{
    *written = 0;
    let Endpoint::Receiving(it) = d.get_mut() else {
        return WRONG_END;
    };
    let codec = it.depacketizer.codec();
    let mut told = extra_of(codec, *extra);
    match it.depacketize(is_avc, packet, to, written, &mut told) {
        Ok(()) => {
            *extra = number_of(told);
            OK
        }
        Err(error) => code_of(error, why),
    }
}

/// Copies what the last packet that was taken completed and had no room for, where there is room for
/// it now; its length.
#[unsafe(no_mangle)]
pub extern "C" fn h26x_written_copy(d: &ConstHandle, to: &mut [u8]) -> usize
    ensures len { result ≡ length (endpoint_written d.now.value) }
    ensures copied { to.new ≡ with_front (endpoint_written d.now.value) to.old }
{
    match d.get() {
        Endpoint::Receiving(it) => copy_where_room(it.written(), to),
        Endpoint::Sequenced(it) => copy_where_room(it.written(), to),
        _ => copy_where_room(&[], to),
    }
}

/// Gives up the open run and its buffer.
#[unsafe(no_mangle)]
pub extern "C" fn h26x_give_up_run(d: &mut Handle) -> u32
    ensures wrong { is_receiving d.old.value ≡ false → (result ≡ wrong_end)
        × (d.new.value ≡ d.old.value) }
    ensures closed { is_receiving d.old.value ≡ true → (result ≡ ok)
        × (d.new.value ≡ endpoint_without_run d.old.value) }
{
    match d.get_mut() {
        Endpoint::Receiving(it) => {
            it.depacketizer.give_up_run();
            OK
        }
        _ => WRONG_END,
    }
}
