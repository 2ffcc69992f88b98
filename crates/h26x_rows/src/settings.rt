//! How an endpoint is made.

use crate::row::{Words, bytes_of, word};
use anyhow::{Result, bail, ensure};
use h26x_codec::{AnyDepacketizer, AnyPacketizer, Codec};
use std::alloc::Global;

/// How an endpoint is made: one of a codec, or, where there is none, the plain one in a box.
#[derive(Clone, Copy)]
pub struct Settings {
    pub codec: Option<Codec>,
    pub has_donl: bool,
    pub is_avc: bool,
}

/// The codec of this name, if it is none in a box.
pub fn codec_of(name: &str) -> Result<Option<Codec>> {
    match name {
        "h264" => Ok(Some(Codec::H264)),
        "h265" => Ok(Some(Codec::H265)),
        "h266" => Ok(Some(Codec::H266)),
        "boxed" => Ok(None),
        _ => bail!("no codec {name}"),
    }
}

impl Settings {
    /// Those of a codec of this name, or of one in a box, and no others.
    pub fn of_codec(name: &str) -> Result<Settings> {
        Ok(Settings {
            codec: codec_of(name)?,
            has_donl: false,
            is_avc: false,
        })
    }

    /// Whether a word is a setting, which is then set.
    pub fn takes(&mut self, word: &str) -> bool {
        match word {
            "numbers" => self.has_donl = true,
            "avc" => self.is_avc = true,
            _ => return false,
        }
        true
    }

    /// Those that the next words name, and the bytes of the other words.
    pub fn with_packets(alloc: Global, words: &mut Words<'_>) -> Result<(Settings, Vec<Vec<u8>>)> {
        let mut settings = Settings::of_codec(word(words)?)?;
        let mut packets = Vec::new(alloc);
        for word in words {
            if !settings.takes(word) {
                packets.push(bytes_of(alloc, word)?)?;
            }
        }
        Ok((settings, packets))
    }

    /// Those that the words name.
    pub fn read(alloc: Global, words: &mut Words<'_>) -> Result<Settings> {
        let (settings, packets) = Settings::with_packets(alloc, words)?;
        ensure!(packets.is_empty(), "no setting");
        Ok(settings)
    }

    /// A packetizer of a codec with these.
    pub fn packetizer(self, alloc: Global) -> AnyPacketizer {
        AnyPacketizer::new(alloc, self.codec.unwrap_or(Codec::H264), self.has_donl)
    }

    /// A depacketizer of a codec with these.
    pub fn depacketizer(self, alloc: Global) -> AnyDepacketizer {
        let mut it = AnyDepacketizer::new(alloc, self.codec.unwrap_or(Codec::H264));
        it.with_donl(self.has_donl);
        it.set_avc(self.is_avc);
        it
    }
}
