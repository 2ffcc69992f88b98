//! The answers to the program's lines, as text.

ghost use Rattle.std.specs.Prelude.{◌≤◌, length, OnOk};
ghost use Rattle.std.specs.Io.KnownBytes.{Appends};
ghost use Rattle.hex.specs.Hex.{encode_lower};

use crate::error::RunError;
use crate::to_digits::write_lower;
use h26x_core::{CodecExtra, PacketError};
use h26x_transmission::Carried;
use std::alloc::Global;
use std::io::{BufWriter, Write};
use std::marker::Model;

/// How many bytes are written as digits at a time.
const CHUNK: usize = 256;

/// Writes answers in order, through a buffer. What is still in it is written by `flush`.
#[derive(Drop)]
pub struct Answers<W: Write + Drop> {
    writer: BufWriter<W>,
}

/// Contracts see the bytes that were written, where the writer says which it holds.
impl<W: Write + Drop> Model for Answers<W> {
    ghost use Rattle.std.specs.Prelude.{ℕ, List};
    ghost use Rattle.std.specs.Io.Buffered.{writer_contents};
    ghost use Rattle.std.specs.declared.option.Option.{Option};

    ghost Value = { Option (List ℕ) };

    ghost view = { λ answers. writer_contents W.contents answers.writer };
}

impl<W: Write + Drop> Answers<W> {
    /// No answers yet. The buffer's memory comes from `alloc`.
    pub fn new(alloc: Global, writer: W) -> Result<Self, RunError> {
        match BufWriter::new(alloc, writer) {
            Ok(writer) => Ok(Answers { writer }),
            Err(_) => Err(RunError::OutOfMemory),
        }
    }

    /// A line as it is.
    pub fn say(&mut self, answer: &str) -> Result<(), RunError> {
        self.write(answer.as_bytes())?;
        self.write(b"\n")
    }

    /// Whether a line's setting is one of the codec.
    pub fn say_set(&mut self, is_one: bool) -> Result<(), RunError> {
        self.say(if is_one { "ok" } else { "bad line" })
    }

    /// What is known of keyframes.
    pub fn say_key(&mut self, extra: CodecExtra) -> Result<(), RunError> {
        self.say(match extra {
            CodecExtra::None => "key none",
            CodecExtra::H264(told) if told.is_keyframe => "key true",
            CodecExtra::H265(told) if told.is_keyframe => "key true",
            CodecExtra::H266(told) if told.is_keyframe => "key true",
            _ => "key false",
        })
    }

    /// The packets of a payload.
    pub fn say_packed(
        &mut self,
        packets: Result<Vec<Vec<u8>>, PacketError>,
    ) -> Result<(), RunError> {
        match packets {
            Ok(packets) => {
                self.say_packets(&packets)?;
                self.say("done")
            }
            Err(error) => self.say_refused(error),
        }
    }

    /// What was written for a packet.
    pub fn say_unpacked(
        &mut self,
        taken: Result<(), PacketError>,
        out: &[u8],
    ) -> Result<(), RunError> {
        match taken {
            Ok(()) => self.say_bytes("out", out),
            Err(error) => self.say_refused(error),
        }
    }

    /// The packets of the one call of a transmission, and what was written for them.
    pub fn say_carried(
        &mut self,
        carried: Result<Carried, PacketError>,
        out: &[u8],
    ) -> Result<(), RunError> {
        match carried {
            Ok(carried) if carried.made.as_slice() == [true].as_slice() => {
                self.say_packets(carried.packets.as_slice())?;
                self.say_bytes("out", out)
            }
            Ok(_) => self.say_refused(PacketError::OutOfMemory),
            Err(error) => self.say_refused(error),
        }
    }

    /// Writes what is still in the buffer.
    pub fn flush(&mut self) -> Result<(), RunError> {
        self.writer.flush().map_err(|_| RunError::Write)
    }

    /// A word and bytes by two digits each in lower case, `-` for none.
    fn say_bytes(&mut self, word: &str, bytes: &[u8]) -> Result<(), RunError> {
        self.write(word.as_bytes())?;
        if bytes.is_empty() {
            return self.say(" -");
        }
        self.write(b" ")?;
        for chunk in bytes.chunks(CHUNK) {
            self.write_digits(chunk)?;
        }
        self.write(b"\n")
    }

    /// The error's name, and its numbers.
    fn say_refused(&mut self, error: PacketError) -> Result<(), RunError> {
        match error {
            PacketError::NaluTypeIsNotHandled(nalu_type) => {
                writeln!(self.writer, "refused NaluTypeIsNotHandled {nalu_type}")
            }
            PacketError::StapASizeLargerThanBuffer(length, left) => {
                writeln!(
                    self.writer,
                    "refused StapASizeLargerThanBuffer {length} {left}"
                )
            }
            _ => writeln!(self.writer, "refused {error:?}"),
        }
        .map_err(|_| RunError::Write)
    }

    fn say_packets(&mut self, packets: &[Vec<u8>]) -> Result<(), RunError> {
        for packet in packets {
            self.say_bytes("packet", packet)?;
        }
        Ok(())
    }

    /// Writes at most `CHUNK` bytes by two digits each.
    fn write_digits(&mut self, bytes: &[u8]) -> Result<(), RunError>
        requires { length bytes.now ≤ 256 }
        ensures { OnOk result (Appends self.old self.new (encode_lower bytes.now)) }
    {
        let mut digits = [0; 2 * CHUNK];
        let digits = &mut digits[..2 * bytes.len()];
        write_lower(bytes, digits);
        self.write(digits)
    }

    /// Writes a text as it is.
    fn write(&mut self, text: &[u8]) -> Result<(), RunError>
        ensures { OnOk result (Appends self.old self.new text.now) }
    {
        self.writer.write_all(text).map_err(|_| RunError::Write)
    }
}
