//! A depacketizer, whose units go to a list of bytes or to memory of the caller.

use crate::row::{Words, byte, bytes, bytes_of, number, word};
use crate::said::Said;
use crate::settings::{Settings, codec_of};
use crate::shown;
use crate::tally::Answers;
use anyhow::{Context, Result, bail, ensure};
use h26x_codec::{AnyDepacketizer, Codec};
use h26x_core::{
    CodecExtra, Depacketizer, H264CodecExtra, H265CodecExtra, H266CodecExtra, PacketError,
};
use h26x_depacketizer::MemorySink;
use h264_payload::{detect_h264_keyframe, detect_h264_nalu};
use h265_payload::detect_h265_keyframe;
use h266_payload::detect_h266_keyframe;
use std::alloc::Global;

/// Where units go.
#[derive(Clone, Copy)]
pub enum Way {
    /// To a list of bytes.
    List,
    /// To memory of the caller.
    Memory,
}

/// A depacketizer.
#[derive(Drop)]
pub struct Receiver {
    depacketizer: AnyDepacketizer,
    way: Way,
}

impl Receiver {
    pub fn new(alloc: Global, way: Way) -> Self {
        Receiver {
            depacketizer: AnyDepacketizer::new(alloc, Codec::H264),
            way,
        }
    }

    /// Makes one as the words say, which takes packets.
    fn make(&mut self, alloc: Global, words: &mut Words<'_>, said: &mut Said) -> Result<()> {
        let (settings, packets) = Settings::with_packets(alloc, words)?;
        self.depacketizer = settings.depacketizer(alloc);
        let (mut out, mut extra) = (Vec::new(alloc), CodecExtra::None);
        for packet in &packets {
            self.take(said, packet, &mut out, &mut extra)?;
        }
        Ok(())
    }

    /// Takes a packet, and once more where memory lacks for it.
    fn take(
        &mut self,
        said: &mut Said,
        packet: &[u8],
        out: &mut Vec<u8>,
        extra: &mut CodecExtra,
    ) -> Result<()> {
        let taken = give(self.way, &mut self.depacketizer, packet, out, extra)?;
        let taken = if said.lacks(&taken) {
            give(self.way, &mut self.depacketizer, packet, out, extra)?
        } else {
            taken
        };
        said.got(taken)
    }

    /// Says what is written of packets behind what stood there, and told.
    fn say_taken(
        &mut self,
        alloc: Global,
        words: &mut Words<'_>,
        said: &mut Said,
        before: (Vec<u8>, CodecExtra),
    ) -> Result<()> {
        let (mut out, mut extra) = before;
        for word in words {
            let packet = bytes_of(alloc, word)?;
            self.take(said, &packet, &mut out, &mut extra)?;
        }
        said.bytes(&out)?;
        said.told(Some(self.depacketizer.codec()), extra)
    }

    /// Says why a packet is refused, which leaves what stood there and the state.
    fn say_refused(&mut self, alloc: Global, packet: &[u8], said: &mut Said) -> Result<()> {
        let before = self.copy(said)?;
        let stood = CodecExtra::H264(H264CodecExtra { is_keyframe: true });
        let mut out = vec![in alloc; 0x11]?;
        let mut extra = stood;
        let given = give(
            self.way,
            &mut self.depacketizer,
            packet,
            &mut out,
            &mut extra,
        )?;
        let Err(error) = given else {
            bail!("the packet is taken");
        };
        ensure!(out.as_slice() == [0x11].as_slice(), "something is written");
        ensure!(extra == stood, "something is told");
        ensure!(self.depacketizer.is_same(&before), "the state is another");
        said.refused(error)
    }

    fn copy(&self, said: &mut Said) -> Result<AnyDepacketizer> {
        let copy = self.depacketizer.clone();
        let copy = if said.lacks(&copy) {
            self.depacketizer.clone()
        } else {
            copy
        };
        said.got(copy)
    }

    /// Whether it is the same as its copy, or as one that is made so.
    fn is_like(&self, alloc: Global, words: &mut Words<'_>, said: &mut Said) -> Result<bool> {
        let mut other = Receiver::new(alloc, self.way);
        let mut rest = words.clone()?;
        if rest.next() == Some("copy") {
            *words = rest;
            return Ok(self.depacketizer.is_same(&self.copy(said)?));
        }
        other.make(alloc, words, said)?;
        Ok(self.depacketizer.is_same(&other.depacketizer))
    }

    fn shown(&self) -> Result<&h265_packets::H265Payload> {
        self.depacketizer.shown().context("nothing is shown")
    }
}

impl Answers for Receiver {
    fn answer(
        &mut self,
        alloc: Global,
        name: &str,
        words: &mut Words<'_>,
        said: &mut Said,
    ) -> Result<()> {
        match name {
            "depacketizer" => self.make(alloc, words, said),
            "take" => {
                let before = (Vec::new(alloc), CodecExtra::None);
                self.say_taken(alloc, words, said, before)
            }
            "take-behind" => {
                let extra = extra_of(words)?;
                let before = (bytes(alloc, words)?, extra);
                self.say_taken(alloc, words, said, before)
            }
            "refuse" => self.say_refused(alloc, &bytes(alloc, words)?, said),
            "like" => {
                let is_like = self.is_like(alloc, words, said)?;
                said.fact(is_like)
            }
            "copy" => {
                self.depacketizer = self.copy(said)?;
                Ok(())
            }
            "numbers" => {
                self.depacketizer.with_donl(word(words)? == "on");
                Ok(())
            }
            "shown" => shown::say(said, self.shown()?),
            "shown-units" => shown::say_units(alloc, said, self.shown()?),
            "shown-copy" => {
                let is_copied = shown::is_copied(alloc, said, self.shown()?)?;
                said.fact(is_copied)
            }
            "paci" => shown::pack(alloc, words, said),
            "cuts" => {
                let are_right = are_cuts_right(alloc, words, said)?;
                said.fact(are_right)
            }
            "hint" => said.number(self.depacketizer.out_size_hint(number(words)?)),
            "has-type" => {
                let nalu_type = byte(words)?;
                said.fact(detect_h264_nalu(&bytes(alloc, words)?, nalu_type))
            }
            name => {
                let packet = bytes(alloc, words)?;
                said.fact(is_so(&self.depacketizer, name, &packet)?)
            }
        }
    }
}

/// What is told before, by a codec and `key` or `no-key`.
fn extra_of(words: &mut Words<'_>) -> Result<CodecExtra> {
    let codec = codec_of(word(words)?)?;
    let is_keyframe = word(words)? == "key";
    Ok(match codec {
        Some(Codec::H264) => CodecExtra::H264(H264CodecExtra { is_keyframe }),
        Some(Codec::H265) => CodecExtra::H265(H265CodecExtra { is_keyframe }),
        Some(Codec::H266) => CodecExtra::H266(H266CodecExtra { is_keyframe }),
        None => CodecExtra::None,
    })
}

/// What is said of a packet.
fn is_so(depacketizer: &AnyDepacketizer, name: &str, packet: &[u8]) -> Result<bool> {
    Ok(match name {
        "head" => depacketizer.is_partition_head(packet),
        "tail" => depacketizer.is_partition_tail(false, packet),
        "marked-tail" => depacketizer.is_partition_tail(true, packet),
        "key" => match depacketizer.codec() {
            Codec::H264 => detect_h264_keyframe(packet),
            Codec::H265 => detect_h265_keyframe(packet),
            Codec::H266 => detect_h266_keyframe(packet),
        },
        _ => bail!("no call {name}"),
    })
}

/// Room for all that a row writes.
const ROOM: usize = 200_000;

/// Gives a packet to a depacketizer. Memory of the caller has no room at first, which changes
/// nothing where something is to be written.
fn give(
    way: Way,
    depacketizer: &mut AnyDepacketizer,
    packet: &[u8],
    out: &mut Vec<u8>,
    extra: &mut CodecExtra,
) -> Result<Result<(), PacketError>> {
    if matches!(way, Way::List) {
        return Ok(depacketizer.depacketize(packet, out, extra));
    }
    let mut none = [];
    let mut sink = MemorySink::new(&mut none);
    let taken = depacketizer.depacketize_into(packet, &mut sink, extra);
    if !sink.lacks_room() {
        ensure!(sink.len() == 0, "bytes outside of the memory");
        return Ok(taken);
    }
    ensure!(taken == Err(PacketError::OutOfMemory), "taken without room");
    let mut memory = vec![in *out.allocator(); 0; ROOM]?;
    let mut sink = MemorySink::new(&mut memory);
    let taken = depacketizer.depacketize_into(packet, &mut sink, extra);
    let len = sink.len();
    ensure!(!sink.lacks_room(), "no room for a row");
    let written = memory.get(..len).context("bytes outside of the memory")?;
    out.extend_from_slice(written)?;
    Ok(taken)
}

/// Whether each packet cut to each of its lengths, where it is refused, leaves all as it was, so that
/// the whole packet is then taken, or refused, as by a fresh depacketizer.
fn are_cuts_right(alloc: Global, words: &mut Words<'_>, said: &mut Said) -> Result<bool> {
    let (settings, packets) = Settings::with_packets(alloc, words)?;
    let mut refused = 0usize;
    for packet in &packets {
        let whole = answer_of(alloc, settings.depacketizer(alloc), packet, said)?;
        for len in 0..packet.len() {
            let cut = packet.get(..len).context("a cut")?;
            let mut depacketizer = settings.depacketizer(alloc);
            let (mut out, mut extra) = (Vec::new(alloc), CodecExtra::None);
            if depacketizer.depacketize(cut, &mut out, &mut extra).is_ok() {
                continue;
            }
            let is_kept = out.is_empty() && extra == CodecExtra::None;
            if !is_kept || answer_of(alloc, depacketizer, packet, said)? != whole {
                return Ok(false);
            }
            refused = refused.saturating_add(1);
        }
    }
    // (without a byte each is)
    Ok(refused >= packets.len())
}

/// What a depacketizer answers to a packet, writes of it and tells.
fn answer_of(
    alloc: Global,
    mut depacketizer: AnyDepacketizer,
    packet: &[u8],
    said: &mut Said,
) -> Result<(Result<(), PacketError>, Vec<u8>, CodecExtra)> {
    let (mut out, mut extra) = (Vec::new(alloc), CodecExtra::None);
    let mut taken = depacketizer.depacketize(packet, &mut out, &mut extra);
    if said.lacks(&taken) {
        taken = depacketizer.depacketize(packet, &mut out, &mut extra);
    }
    Ok((taken, out, extra))
}
