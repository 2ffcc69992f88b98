//! Encoded pictures, as an encoder makes them: slices of bytes that seem drawn, in Annex B form.

ghost use Rattle.std.specs.Prelude.{◌≤◌, ◌<◌};

use crate::draws::Draws;
use crate::setting::Setting;
use h26x_core::PacketError;
use std::alloc::Global;

/// How many bytes a round writes into each unit, so that no two rounds have the same.
pub const STAMP: usize = 4;

/// A picture in Annex B form.
#[derive(Drop)]
pub struct Picture {
    /// Its units, each behind a start code.
    pub bytes: Vec<u8>,
    /// Where in these bytes rounds write.
    stamps: Vec<usize>,
}

impl Picture {
    /// One without units.
    pub fn new(alloc: Global) -> Self {
        Picture {
            bytes: Vec::new(alloc),
            stamps: Vec::new(alloc),
        }
    }

    /// Appends a unit of this header and so many bytes more behind a start code. No start code
    /// stands in it: a byte of 3 goes where one might (7.4.1 of H.264).
    pub fn push_unit(
        &mut self,
        draws: &mut Draws,
        header: &[u8],
        len: usize,
    ) -> Result<(), PacketError> {
        self.bytes.extend_from_slice(&[0, 0, 0, 1])?;
        self.bytes.extend_from_slice(header)?;
        self.stamps.push(self.bytes.len())?;
        self.bytes.extend_from_slice(&[0x80; STAMP])?;
        let mut zeros: u32 = 0;
        for _ in 0..len / 8 {
            for byte in draws.next().to_le_bytes() {
                if zeros >= 2 && byte <= 3 {
                    self.bytes.push(3)?;
                    zeros = 0;
                }
                self.bytes.push(byte)?;
                zeros = if byte == 0 { zeros.wrapping_add(1) } else { 0 };
            }
        }
        self.bytes.push(0x80)?;
        Ok(())
    }

    /// Writes the number of a round into each unit, of 28 bits, none of whose bytes is 0.
    pub fn stamp(&mut self, round: u32) {
        for at in &self.stamps {
            stamp_at(&mut self.bytes, *at, round);
        }
    }
}

/// Writes a number of 28 bits at a place, in bytes of which none is 0.
pub fn stamp_at(bytes: &mut Vec<u8>, at: usize, number: u32) {
    for (place, shift) in [(0, 0), (1, 7), (2, 14), (3, 21)] {
        if let Some(byte) = bytes.get_mut(at.saturating_add(place)) {
            *byte = 0x80 | (number >> shift & 0x7f) as u8;
        }
    }
}

/// A number between these two.
fn between(draws: &mut Draws, least: usize, most: u32) -> usize {
    least.saturating_add(draws.below(most.max(1)) as usize)
}

/// A keyframe behind its parameter sets: 50 to 300 kB.
fn keyframe(alloc: Global, draws: &mut Draws, setting: Setting) -> Result<Picture, PacketError> {
    let mut picture = Picture::new(alloc);
    for header in setting.set_headers() {
        let len = between(draws, 8, 40);
        picture.push_unit(draws, header, len)?;
    }
    let len = between(draws, 50_000, 250_000);
    picture.push_unit(draws, setting.key_header(), len)?;
    Ok(picture)
}

/// A picture of one to eight slices of 2 to 20 kB.
fn slices(alloc: Global, draws: &mut Draws, setting: Setting) -> Result<Picture, PacketError> {
    let mut picture = Picture::new(alloc);
    for _ in 0..=draws.below(8) {
        let len = between(draws, 2_000, 18_000);
        picture.push_unit(draws, setting.slice_header(), len)?;
    }
    Ok(picture)
}

/// So many pictures, of which every 60th, from the first on, is a keyframe.
pub fn pictures(
    alloc: Global,
    draws: &mut Draws,
    setting: Setting,
    count: u32,
) -> Result<Vec<Picture>, PacketError> {
    let mut pictures = Vec::new(alloc);
    for place in 0..count {
        let picture = if place % 60 == 0 {
            keyframe(alloc, draws, setting)?
        } else {
            slices(alloc, draws, setting)?
        };
        pictures.push(picture)?;
    }
    Ok(pictures)
}

/// So many pictures of one slice of 60 to 360 bytes.
pub fn small_pictures(
    alloc: Global,
    draws: &mut Draws,
    setting: Setting,
    count: u32,
) -> Result<Vec<Picture>, PacketError> {
    let mut pictures = Vec::new(alloc);
    for _ in 0..count {
        let mut picture = Picture::new(alloc);
        let len = between(draws, 60, 300);
        picture.push_unit(draws, setting.slice_header(), len)?;
        pictures.push(picture)?;
    }
    Ok(pictures)
}
