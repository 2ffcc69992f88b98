//! Lines of hexadecimal text: payloads to pack, packets to unpack, and payloads to carry.

use crate::packets::{FIRST_UNIT, LEAST, packets_of};
use crate::setting::Setting;
use crate::stream::{Picture, STAMP};
use h26x_codec::Codec;
use h26x_core::PacketError;
use std::alloc::Global;

/// The digits.
const DIGITS: &[u8; 16] = b"0123456789abcdef";

/// The text of a session, and where in it a round writes its number.
#[derive(Drop)]
pub struct Session {
    /// Its lines.
    pub text: Vec<u8>,
    stamps: Vec<usize>,
}

/// How many digits of a line a round writes.
const STAMP_DIGITS: usize = 8;

impl Session {
    /// Appends a line: a word, and bytes as digits. Rounds write behind so many of the bytes.
    fn push_line(&mut self, word: &[u8], bytes: &[u8], stamp: usize) -> Result<(), PacketError> {
        self.text.extend_from_slice(word)?;
        let begin = self.text.len();
        if stamp < bytes.len() {
            self.stamps
                .push(begin.saturating_add(stamp.saturating_mul(2)))?;
        }
        for byte in bytes {
            self.text.push(DIGITS[(*byte >> 4) as usize])?;
            self.text.push(DIGITS[(*byte & 0xf) as usize])?;
        }
        self.text.push(b'\n')?;
        Ok(())
    }

    /// Writes the number of a round into each line, in bytes of which none is 0.
    pub fn stamp(&mut self, round: u32) {
        for at in &self.stamps {
            for place in 0..STAMP_DIGITS {
                let shift = (place / 2 * 7 + place % 2 * 3) as u32;
                let digit = if place % 2 == 0 {
                    8 | (round.wrapping_shr(shift) & 7) as usize
                } else {
                    (round.wrapping_shr(shift) & 0xf) as usize
                };
                if let Some(text) = self.text.get_mut(at.saturating_add(place)) {
                    *text = DIGITS[digit];
                }
            }
        }
    }
}

/// The lines that begin with a setting.
fn first_lines(setting: Setting) -> &'static [u8] {
    match (setting.codec, setting.has_donl) {
        (Codec::H264, _) => b"codec h264\n",
        (Codec::H265, false) => b"codec h265\n",
        (Codec::H265, true) => b"codec h265\ndonl on\n",
        (Codec::H266, false) => b"codec h266\n",
        (Codec::H266, true) => b"codec h266\ndonl on\n",
    }
}

/// A session: pictures to pack, their packets to unpack, and the pictures to carry.
pub fn session_of(
    alloc: Global,
    setting: Setting,
    pictures: &[Picture],
) -> Result<Session, PacketError> {
    let mut session = Session {
        text: Vec::from_slice(alloc, first_lines(setting))?,
        stamps: Vec::new(alloc),
    };
    for picture in pictures {
        session.push_line(b"pack 1200 ", &picture.bytes, FIRST_UNIT)?;
    }
    for packet in &packets_of(alloc, setting, pictures)? {
        let stamp = if packet.payload.len() > LEAST {
            packet.payload.len() - STAMP
        } else {
            usize::MAX
        };
        session.push_line(b"unpack ", &packet.payload, stamp)?;
        if packet.marker {
            session.text.extend_from_slice(b"key\n")?;
        }
    }
    for picture in pictures {
        session.push_line(b"carry 1200 ", &picture.bytes, FIRST_UNIT)?;
    }
    Ok(session)
}
