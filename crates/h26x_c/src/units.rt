//! The units of payloads, by their places, and what a unit is.

ghost use Rattle.std.specs.Prelude.{◌≡◌, ◌↔◌, ℕ, List, IsTrue, [], true, false, None, Some, drop};
ghost use Rattle.h26x_model.specs.Where.{Where};
ghost use Rattle.h26x_cut.specs.Cutting.{IsNextUnit};
ghost use Rattle.h26x_cut.specs.Lengths.{BeginsWithUnit, IsNextAvcUnit};
ghost use Rattle.h26x_codec.specs.Codec.{codec_format};
ghost use Rattle.h26x_codec.specs.Plain.{IsPlainUnit};
ghost use Rattle.h26x_codes.specs.Codes.{codec_with_number};

use h26x_codes::code::codec_of;
use h26x_cut::{next_avc_unit, next_unit};

/// Where the next unit of a payload stands, from a place on.
#[unsafe(no_mangle)]
pub extern "C" fn h26x_next_unit(
    codec: u32,
    payload: &[u8],
    from: usize,
    begin: &mut usize,
    end: &mut usize,
) -> bool
    ensures unknown { codec_with_number codec ≡ None → result ≡ false }
    ensures none { Where (codec_with_number codec)
        (λ c. result ≡ false → (codec_format c false).units (drop from payload.now) ≡ []) }
    ensures unit { Where (codec_with_number codec)
        (λ c. result ≡ true → IsNextUnit (codec_format c false).units payload.now from begin.new
        end.new) }
    ensures kept { result ≡ false → (begin.new ≡ begin.old) × (end.new ≡ end.old) }
{
    let Some(codec) = codec_of(codec) else {
        return false;
    };
    match next_unit(payload, codec.zero_rule(), from) {
        Some(place) => {
            *begin = place.start;
            *end = place.end;
            true
        }
        None => false,
    }
}

/// Where the next unit of a text behind lengths stands, from a place on.
#[unsafe(no_mangle)]
pub extern "C" fn h26x_next_avc_unit(
    text: &[u8],
    from: usize,
    begin: &mut usize,
    end: &mut usize,
) -> bool
    ensures none { result ≡ false → (empty : ℕ) (unit rest : List ℕ) →
        BeginsWithUnit (drop from text.now) empty unit rest → ⊥ }
    ensures unit { result ≡ true → IsNextAvcUnit text.now from begin.new end.new }
    ensures kept { result ≡ false → (begin.new ≡ begin.old) × (end.new ≡ end.old) }
{
    let Some(found) = next_avc_unit(text, from) else {
        return false;
    };
    *begin = found.start;
    *end = found.end;
    true
}

/// Whether a unit is plain: one of the video itself, in whose Annex B text no reader finds another.
#[unsafe(no_mangle)]
pub extern "C" fn h26x_unit_is_plain(codec: u32, unit: &[u8]) -> bool
    ensures unknown { codec_with_number codec ≡ None → result ≡ false }
    ensures plain { Where (codec_with_number codec)
        (λ c. (IsTrue result ↔ IsPlainUnit c unit.now)) }
{
    match codec_of(codec) {
        Some(codec) => codec.is_plain_unit(unit),
        None => false,
    }
}
