//! The calls on payload types of SDP, and on what `packetization-mode` 0 lets through.

ghost use Rattle.std.specs.Prelude.{◌≡◌, ℕ, List, Err, nat_le, length};
ghost use Rattle.std.specs.List.{list_all};
ghost use Rattle.h26x_cut.specs.Cutting.{AreUnits};
ghost use Rattle.h26x_cut.specs.declared.ZeroRule.TheVariants.{All};
ghost use Rattle.h26x_fmtp.specs.RtpMaps.{rtp_map_of};
ghost use Rattle.h26x_codes.specs.Codes.{out_of_memory};
ghost use Rattle.h26x_c.specs.Endpoints.{GivesOrOutOfMemory};
ghost use Rattle.h26x_c.specs.Sdp.{rtp_map_answer, rtp_map_or_code, copy_answer, rtp_map_text_or_code};

use crate::copied::copy_out;
use h26x_codes::code::{OK, OUT_OF_MEMORY, UNKNOWN_CODEC, codec_of};
use h26x_fmtp::RtpMap;
use h26x_sdp_handles::sdp_code::{
    PAYLOAD_TYPE, codec_of_encoding, encoding_of_codec, number_of_codec, of_rtp_map,
};
use h26x_stream_parameters::fits_single_units;
use std::alloc::Global;

/// Reads what stands behind `a=rtpmap:`.
#[unsafe(no_mangle)]
pub extern "C" fn h26x_rtpmap_read(text: &[u8], payload_type: &mut u8, codec: &mut u32) -> u32
    ensures { (result, (payload_type.new, codec.new))
        ≡ rtp_map_answer (rtp_map_of text.now) payload_type.old codec.old }
{
    match RtpMap::read(text) {
        Ok(map) => {
            *payload_type = map.payload_type;
            *codec = number_of_codec(codec_of_encoding(map.encoding));
            OK
        }
        Err(error) => of_rtp_map(error),
    }
}

/// Writes what stands behind `a=rtpmap:`, where there is room.
#[unsafe(no_mangle)]
pub extern "C" fn h26x_rtpmap_write(
    alloc: Global,
    payload_type: u8,
    codec: u32,
    to: &mut [u8],
    len: &mut usize,
) -> u32
    ensures refused { (code : ℕ) → rtp_map_or_code payload_type codec ≡ Err code →
        result ≡ code }
    ensures answer { GivesOrOutOfMemory result (to.new, len.new)
        (copy_answer (rtp_map_text_or_code payload_type codec) to.old len.old) }
    ensures kept { result ≡ out_of_memory → (to.new ≡ to.old) × (len.new ≡ len.old) }
{
    let Some(codec) = codec_of(codec) else {
        return UNKNOWN_CODEC;
    };
    if payload_type >= 128 {
        return PAYLOAD_TYPE;
    }
    let encoding = encoding_of_codec(codec);
    let map = RtpMap {
        payload_type,
        encoding,
    };
    match map.write(alloc) {
        Ok(text) => copy_out(text.as_slice(), to, len),
        Err(_) => OUT_OF_MEMORY,
    }
}

/// Whether each unit of a payload of H.264 fits a packet of its own.
#[unsafe(no_mangle)]
pub extern "C" fn h26x_fits_single_units(payload: &[u8], limit: usize) -> bool
    ensures { (list : List (List ℕ)) × AreUnits All payload.now list
        × (result ≡ list_all (λ unit. nat_le (length unit) limit) list) }
{
    fits_single_units(payload, limit)
}
