//! A program that sends an Annex B stream, receives it again and tells what it had; and, as tests,
//! which are proved too, the code of the documents and what the laws say of each codec.
//!
//! `h26x_examples CODEC [FILE]` reads the file, or standard input where none is named; the codec is
//! `h264`, `h265` or `h266`.
#![tactic(auto)]

#[cfg(test)]
mod access_units;
mod annex_b;
#[cfg(test)]
mod any_endpoint;
#[cfg(test)]
mod cutting;
#[cfg(test)]
mod first;
#[cfg(test)]
mod h264;
#[cfg(test)]
mod h265;
#[cfg(test)]
mod h266;
#[cfg(test)]
mod laws_met;
#[cfg(test)]
mod model_laws_met;
#[cfg(test)]
mod one_buffer;
#[cfg(test)]
mod outcomes;
#[cfg(test)]
mod own_depacketizer;
#[cfg(test)]
mod profiles;
#[cfg(test)]
mod sdp;
#[cfg(test)]
mod sequenced;
#[cfg(test)]
mod stand_ins;
#[cfg(test)]
mod transmissions;

use annex_b::{count, print, read_stream};
use anyhow::{Context, Result};
use h26x_codec::Codec;
use std::env;

/// The codec of this name.
fn codec_of(name: &str) -> Option<Codec> {
    match name {
        "h264" => Some(Codec::H264),
        "h265" => Some(Codec::H265),
        "h266" => Some(Codec::H266),
        _ => None,
    }
}

fn main(rt: HostRuntime) -> Result<()> {
    let mut args = env::args(&rt)?.skip(1);
    let codec = args
        .next()
        .and_then(|name| codec_of(&name))
        .context("the codec is h264, h265 or h266")?;
    let stream = read_stream(&rt, args.next())?;
    let counts = count(rt.alloc(), codec, &stream)?;
    print(&rt, &counts)?;
    Ok(())
}
