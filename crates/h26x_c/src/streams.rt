//! The calls on what an offered format and its answer agree on, and on declared formats.

ghost use Rattle.std.specs.Prelude.{◌≡◌, ◌⊎◌, ℕ, List, false, Ok, Err};
ghost use Rattle.h26x_sdp_handles.specs.declared.sdp_code.Refused.{Refused};
ghost use Rattle.h26x_sdp_handles.specs.AnswerOptions.{config_with_options};
ghost use Rattle.h26x_codes.specs.Codes.{out_of_memory, wrong_end};
ghost use Rattle.h26x_c.specs.Endpoints.{GivesOrOutOfMemory};
ghost use Rattle.h26x_c.specs.Sdp.{copy_answer, is_sdp};
ghost use Rattle.h26x_c.specs.Streams.{agreed_answer, endpoint_agreed, declared_code, endpoint_level_unit, unit_or_code};

use crate::const_handle::ConstHandle;
use crate::copied::copy_out;
use crate::sdp::tell;
use h26x_codes::code::{OK, OUT_OF_RANGE, Refusal, WRONG_END};
use h26x_endpoint::endpoint::Endpoint;
use h26x_sdp_handles::answer_options::config_of;
use h26x_sdp_handles::sdp_code::{NO_ANSWER, refused_with};
use h26x_sdp_handles::streams::{StreamNumbers, numbers_of_stream};
use std::alloc::Global;

/// What an offered format and its answer agree on, of the end that wrote the first, whichever of the
/// two that is: what it sends and what it receives.
#[unsafe(no_mangle)]
pub extern "C" fn h26x_sdp_agreed(
    own: &ConstHandle,
    other: &ConstHandle,
    options: u32,
    sends: &mut StreamNumbers,
    receives: &mut StreamNumbers,
) -> u32
    ensures { (result, (sends.new, receives.new)) ≡ agreed_answer
        (endpoint_agreed (config_with_options options) own.now.value other.now.value)
        sends.old receives.old }
{
    let Some(config) = config_of(options) else {
        return OUT_OF_RANGE;
    };
    let (Endpoint::Sdp(own), Endpoint::Sdp(other)) = (own.get(), other.get()) else {
        return WRONG_END;
    };
    match own.agreed(config, other) {
        Some(agreed) => {
            *sends = numbers_of_stream(agreed.sends);
            *receives = numbers_of_stream(agreed.receives);
            OK
        }
        None => NO_ANSWER,
    }
}

/// Whether a format of ours receives a declared one as it is, by the code.
#[unsafe(no_mangle)]
pub extern "C" fn h26x_sdp_accepts_declared(
    declared: &ConstHandle,
    ours: &ConstHandle,
    options: u32,
) -> u32
    ensures { result ≡ declared_code (config_with_options options) declared.now.value
        ours.now.value }
{
    let Some(config) = config_of(options) else {
        return OUT_OF_RANGE;
    };
    let (Endpoint::Sdp(declared), Endpoint::Sdp(ours)) = (declared.get(), ours.get()) else {
        return WRONG_END;
    };
    if declared.is_accepted(config, ours) {
        OK
    } else {
        NO_ANSWER
    }
}

/// A unit, counted from 0, of those that `sprop-level-parameter-sets` has for a level, where there is
/// room.
#[unsafe(no_mangle)]
pub extern "C" fn h26x_sdp_level_unit(
    alloc: Global,
    h: &ConstHandle,
    level: u64,
    i: usize,
    to: &mut [u8],
    len: &mut usize,
    why: &mut Refusal,
) -> u32
    ensures wrong { is_sdp h.now.value ≡ false → result ≡ wrong_end }
    ensures answer { GivesOrOutOfMemory result (to.new, len.new) (copy_answer
        (unit_or_code (endpoint_level_unit h.now.value level i)) to.old len.old) }
    ensures place { (it : Refused) → endpoint_level_unit h.now.value level i ≡ Err it →
        (result ≡ out_of_memory) ⊎ (why.new ≡ record { first = it.place; second = 0 }) }
    ensures kept { result ≡ out_of_memory → (to.new ≡ to.old) × (len.new ≡ len.old) }
    ensures kept_why { (unit : List ℕ) → endpoint_level_unit h.now.value level i ≡ Ok unit →
        (result ≡ out_of_memory) ⊎ (why.new ≡ why.old) }
{
    let Endpoint::Sdp(it) = h.get() else {
        return tell(refused_with(WRONG_END), why);
    };
    match it.level_unit(alloc, level, i) {
        Ok(unit) => copy_out(unit.as_slice(), to, len),
        Err(refused) => tell(refused, why),
    }
}
