//! Header words, by their constructors and their fields.

use crate::row::{Words, byte, fact, word};
use crate::said::Said;
use crate::tally::Answers;
use anyhow::{Context, Result, bail};
use h26x_core::{
    AUD_NALU_TYPE, FILLER_NALU_TYPE, FU_END_BITMASK, FU_START_BITMASK, FUA_HEADER_SIZE,
    FUA_NALU_TYPE, FUB_NALU_TYPE, H264CodecExtra, H265CodecExtra, H265FragmentationUnitHeader,
    H265NALUHeader, H265TSCI, H266CodecExtra, H266FragmentationUnitHeader, H266NALUHeader,
    IDR_NALU_TYPE, NALU_REF_IDC_BITMASK, NALU_TYPE_BITMASK, OUTPUT_STAP_AHEADER, PPS_NALU_TYPE,
    SPS_NALU_TYPE, STAPA_HEADER_SIZE, STAPA_NALU_LENGTH_SIZE, STAPA_NALU_TYPE,
};
use std::alloc::Global;

/// Each row is of a word, or of what makes one.
#[derive(Drop)]
pub struct HeaderWords;

impl Answers for HeaderWords {
    fn answer(
        &mut self,
        _alloc: Global,
        name: &str,
        words: &mut Words<'_>,
        said: &mut Said,
    ) -> Result<()> {
        match name {
            "h265-header" => say_h265(said, H265NALUHeader(hex_word(words)?)),
            "h265-header-of" => {
                let made = H265NALUHeader::new(hex_byte(words)?, hex_byte(words)?);
                said.bytes(&made.0.to_be_bytes())
            }
            "h265-header-with" => {
                let (nalu_type, layer_id, tid) = (byte(words)?, byte(words)?, byte(words)?);
                let made = H265NALUHeader::new_with_type(nalu_type, layer_id, tid);
                said.bytes(&made.0.to_be_bytes())
            }
            "h265-fragment" => say_h265_fragment(said, hex_byte(words)?),
            "h265-fragment-of" => {
                let (s, e, fu_type) = (fact(words)?, fact(words)?, byte(words)?);
                said.bytes(&[H265FragmentationUnitHeader::new(s, e, fu_type).0])
            }
            "h265-tsci" => say_tsci(said, H265TSCI(hex_number(words)?)),
            "h266-header" => say_h266(said, H266NALUHeader(hex_word(words)?)),
            "h266-header-of" => {
                let made = H266NALUHeader::new(hex_byte(words)?, hex_byte(words)?);
                said.bytes(&made.0.to_be_bytes())
            }
            "h266-header-with" => {
                let (nalu_type, layer_id, tid) = (byte(words)?, byte(words)?, byte(words)?);
                let made = H266NALUHeader::new_with_type(nalu_type, layer_id, tid);
                said.bytes(&made.0.to_be_bytes())
            }
            "h266-fragment" => say_h266_fragment(said, hex_byte(words)?),
            "h266-fragment-of" => {
                let (s, e, p) = (fact(words)?, fact(words)?, fact(words)?);
                said.bytes(&[H266FragmentationUnitHeader::new(s, e, p, byte(words)?).0])
            }
            "defaults" => say_defaults(said),
            "constants" => say_constants(said),
            _ => bail!("no call {name}"),
        }
    }
}

/// The next word as a number in hexadecimal.
pub fn hex_number(words: &mut Words<'_>) -> Result<u32> {
    let word = word(words)?;
    u32::from_str_radix(word, 16).context(format_args!("{word} is no number"))
}

fn hex_word(words: &mut Words<'_>) -> Result<u16> {
    u16::try_from(hex_number(words)?)
        .ok()
        .context("more than two bytes")
}

fn hex_byte(words: &mut Words<'_>) -> Result<u8> {
    u8::try_from(hex_number(words)?)
        .ok()
        .context("more than a byte")
}

/// F, the type, the layer and the temporal id, and then what the type is.
fn say_h265(said: &mut Said, it: H265NALUHeader) -> Result<()> {
    said.fact(it.f())?;
    said.value(&it.nalu_type())?;
    said.value(&it.layer_id())?;
    said.value(&it.tid())?;
    let kinds = [
        (it.is_type_vcl_unit(), "vcl"),
        (it.is_aggregation_packet(), "aggregate"),
        (it.is_fragmentation_unit(), "fragment"),
        (it.is_paci_packet(), "paci"),
        (it.is_idr_picture(), "idr"),
        (it.is_irap(), "irap"),
    ];
    say_kinds(said, &kinds)
}

fn say_kinds(said: &mut Said, kinds: &[(bool, &str)]) -> Result<()> {
    for (is_one, name) in kinds {
        if *is_one {
            said.word(name)?;
        }
    }
    Ok(())
}

/// S, E and the type.
fn say_h265_fragment(said: &mut Said, byte: u8) -> Result<()> {
    let it = H265FragmentationUnitHeader(byte);
    said.fact(it.s())?;
    said.fact(it.e())?;
    said.value(&it.fu_type())
}

/// TL0PICIDX, IrapPicID, S, E and RES.
fn say_tsci(said: &mut Said, it: H265TSCI) -> Result<()> {
    said.value(&it.tl0picidx())?;
    said.value(&it.irap_pic_id())?;
    said.fact(it.s())?;
    said.fact(it.e())?;
    said.value(&it.res())
}

/// F, Z, the layer, the type and the temporal id, and then what the type is.
fn say_h266(said: &mut Said, it: H266NALUHeader) -> Result<()> {
    said.fact(it.f())?;
    said.fact(it.z())?;
    said.value(&it.layer_id())?;
    said.value(&it.nalu_type())?;
    said.value(&it.tid())?;
    let kinds = [
        (it.is_irap(), "irap"),
        (it.is_aggregation_packet(), "aggregate"),
        (it.is_fragmentation_unit(), "fragment"),
    ];
    say_kinds(said, &kinds)
}

/// S, E, P and the type.
fn say_h266_fragment(said: &mut Said, byte: u8) -> Result<()> {
    let it = H266FragmentationUnitHeader(byte);
    said.fact(it.s())?;
    said.fact(it.e())?;
    said.fact(it.p())?;
    said.value(&it.fu_type())
}

/// The words that stand for none, and what is told of a keyframe before there is one.
fn say_defaults(said: &mut Said) -> Result<()> {
    said.value(&H265NALUHeader::default().0)?;
    said.value(&H265FragmentationUnitHeader::default().0)?;
    said.value(&H265TSCI::default().0)?;
    said.value(&H266NALUHeader::default().0)?;
    said.value(&H266FragmentationUnitHeader::default().0)?;
    said.fact(H264CodecExtra::default().is_keyframe)?;
    said.fact(H265CodecExtra::default().is_keyframe)?;
    said.fact(H266CodecExtra::default().is_keyframe)
}

/// Those of RFC 6184, and the start code by each name that it has.
fn say_constants(said: &mut Said) -> Result<()> {
    for nalu_type in [
        STAPA_NALU_TYPE,
        FUA_NALU_TYPE,
        FUB_NALU_TYPE,
        IDR_NALU_TYPE,
        SPS_NALU_TYPE,
        PPS_NALU_TYPE,
        AUD_NALU_TYPE,
        FILLER_NALU_TYPE,
    ] {
        said.value(&nalu_type)?;
    }
    for size in [FUA_HEADER_SIZE, STAPA_HEADER_SIZE, STAPA_NALU_LENGTH_SIZE] {
        said.value(&size)?;
    }
    said.bytes(&[NALU_TYPE_BITMASK, NALU_REF_IDC_BITMASK])?;
    said.bytes(&[FU_START_BITMASK, FU_END_BITMASK])?;
    said.bytes(&[OUTPUT_STAP_AHEADER])?;
    for start_code in [
        h26x_core::ANNEXB_NALUSTART_CODE,
        h264_payload::ANNEXB_NALUSTART_CODE,
        h265_payload::ANNEXB_NALUSTART_CODE,
        h266_payload::ANNEXB_NALUSTART_CODE,
    ] {
        said.bytes(&start_code)?;
    }
    Ok(())
}
