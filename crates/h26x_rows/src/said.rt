//! What is answered to a row, as text.

use anyhow::{Result, bail};
use h26x_codec::Codec;
use h26x_core::{CodecExtra, PacketError};
use std::alloc::Global;
use std::fmt;
use std::fmt::Write;

/// The words of an answer, with a space behind each.
#[derive(Drop)]
pub struct Said {
    alloc: Global,
    text: String,
    lacked: bool,
    is_refused: bool,
}

impl Said {
    /// No word yet.
    pub fn new(alloc: Global) -> Self {
        Said {
            alloc,
            text: String::new(alloc),
            lacked: false,
            is_refused: false,
        }
    }

    /// Begins anew.
    pub fn clear(&mut self) {
        self.text.clear();
        self.lacked = false;
        self.is_refused = false;
    }

    /// All words.
    pub fn text(&self) -> &str {
        self.text.as_str()
    }

    /// Whether memory lacked for a call, which was then made again.
    pub fn has_lacked(&self) -> bool {
        self.lacked
    }

    /// Whether memory lacked for a call, so that it is to be made again: once in a row.
    pub fn lacks<T>(&mut self, answer: &Result<T, PacketError>) -> bool {
        let lacks = !self.lacked && matches!(answer, Err(PacketError::OutOfMemory));
        self.lacked |= lacks;
        lacks
    }

    /// Whether a call was refused that should not have been; the refusal is all that is said.
    pub fn is_refused(&self) -> bool {
        self.is_refused
    }

    /// What a call brings, which should not be refused.
    pub fn got<T: Drop>(&mut self, answer: Result<T, PacketError>) -> Result<T> {
        match answer {
            Ok(brought) => Ok(brought),
            Err(error) => {
                self.text.clear();
                self.refused(error)?;
                self.is_refused = true;
                bail!("refused: {error}")
            }
        }
    }

    /// A word as it is.
    pub fn word(&mut self, word: &str) -> Result<()> {
        self.text.push_str(word)?;
        self.text.push(' ')?;
        Ok(())
    }

    /// What a value is as text.
    pub fn value<T: fmt::Debug>(&mut self, value: &T) -> Result<()> {
        write!(self.text, "{value:?} ")?;
        Ok(())
    }

    /// Bytes in hexadecimal, `-` for none.
    pub fn bytes(&mut self, bytes: &[u8]) -> Result<()> {
        if bytes.is_empty() {
            return self.word("-");
        }
        let digits = hex::encode(self.alloc, bytes)?;
        self.word(digits.as_str())
    }

    /// Each packet.
    pub fn packets(&mut self, packets: &[Vec<u8>]) -> Result<()> {
        for packet in packets {
            self.bytes(packet)?;
        }
        Ok(())
    }

    /// Yes or no.
    pub fn fact(&mut self, is_so: bool) -> Result<()> {
        self.word(if is_so { "yes" } else { "no" })
    }

    /// What is told of keyframes, behind the codec where that is another than this one.
    pub fn told(&mut self, codec: Option<Codec>, extra: CodecExtra) -> Result<()> {
        let (told_of, is_keyframe) = match extra {
            CodecExtra::None => return self.word("nothing"),
            CodecExtra::H264(told) => (Codec::H264, told.is_keyframe),
            CodecExtra::H265(told) => (Codec::H265, told.is_keyframe),
            CodecExtra::H266(told) => (Codec::H266, told.is_keyframe),
        };
        if codec != Some(told_of) {
            self.value(&told_of)?;
        }
        self.word(if is_keyframe { "key" } else { "no-key" })
    }

    /// A number, `-` for none.
    pub fn number<T: fmt::Debug + Drop>(&mut self, number: Option<T>) -> Result<()> {
        match number {
            Some(number) => self.value(&number),
            None => self.word("-"),
        }
    }

    /// Why a call is refused, with its numbers.
    pub fn refused(&mut self, error: PacketError) -> Result<()> {
        match error {
            PacketError::ErrShortPacket => self.word("short"),
            PacketError::ErrH265CorruptedPacket => self.word("h265-corrupted"),
            PacketError::ErrH266CorruptedPacket => self.word("h266-corrupted"),
            PacketError::ErrH265PACIPHESTooLong => self.word("extension-too-long"),
            PacketError::AvcUnitTooLong => self.word("unit-too-long"),
            PacketError::OutOfMemory => self.word("out-of-memory"),
            PacketError::NaluTypeIsNotHandled(nalu_type) => {
                self.word("type")?;
                self.value(&nalu_type)
            }
            PacketError::StapASizeLargerThanBuffer(size, left) => {
                self.word("size")?;
                self.value(&size)?;
                self.word("of")?;
                self.value(&left)
            }
        }
    }

    /// What became of a packet.
    pub fn outcome(&mut self, outcome: &Result<(), PacketError>) -> Result<()> {
        match outcome {
            Ok(()) => self.word("taken"),
            Err(error) => self.refused(*error),
        }
    }
}
