//! A session, from a reader to a writer.

use crate::answers::Answers;
use crate::digits::Digits;
use crate::error::RunError;
use crate::line::{Line, read_line};
use crate::settings::{set_avc, set_numbers, set_size};
use h26x_codec::Codec;
use h26x_core::{CodecExtra, Depacketizer, Packetizer};
use h26x_transmission::{CodecDepacketizer, CodecPacketizer, carry};
use memchr::memchr;
use std::alloc::Global;
use std::io;
use std::io::{Read, Write};

/// A failed read, which may be for want of memory.
fn read_error(error: io::Error) -> RunError {
    match error.kind() {
        io::ErrorKind::OutOfMemory => RunError::OutOfMemory,
        _ => RunError::Read,
    }
}

/// Reads all input, and then answers line by line. A line ends at LF or at the end of the input.
///
/// It ends early where the input can't be read, an answer can't be written or memory lacks; a call
/// that is refused for memory is answered, and the next line is done.
///
/// ```rust
/// let mut answers = Vec::new(alloc);
/// run(alloc, b"pack 1200 6501\n".as_slice(), &mut answers)?;
/// assert_eq!(rt; answers.as_slice(), b"packet 6501\ndone\n".as_slice());
/// ```
pub fn run<R: Read + Drop, W: Write + Drop>(
    alloc: Global,
    mut reader: R,
    writer: W,
) -> Result<(), RunError> {
    let mut input = Vec::new(alloc);
    reader.read_to_end(&mut input).map_err(read_error)?;
    let mut answers = Answers::new(alloc, writer)?;
    answer_lines(alloc, &input, &mut answers)?;
    answers.flush()
}

/// Does what each line says, and answers it.
///
/// The endpoints stand in no signature of this crate where a call of theirs is made: the language
/// takes every call of another crate that may change one for one that may put another into its box.
fn answer_lines<W: Write + Drop>(
    alloc: Global,
    mut rest: &[u8],
    answers: &mut Answers<W>,
) -> Result<(), RunError> {
    let digits = Digits::new();
    let mut packetizer = CodecPacketizer::new(alloc, Codec::H264);
    let mut depacketizer = CodecDepacketizer::new(alloc, Codec::H264);
    let mut extra = CodecExtra::None;
    let mut calls = [(0, Vec::new(alloc))];
    let mut out = Vec::new(alloc);
    loop {
        let end = memchr(b'\n', rest).unwrap_or(rest.len());
        out.clear();
        let answered = match read_line(&digits, &rest[..end], &mut calls[0].1)? {
            Line::Blank => Ok(()),
            Line::Codec(codec) => {
                packetizer = CodecPacketizer::new(alloc, codec);
                depacketizer = CodecDepacketizer::new(alloc, codec);
                extra = CodecExtra::None;
                answers.say("ok")
            }
            Line::Donl { is_on } => {
                answers.say_set(set_numbers(&mut packetizer, &mut depacketizer, is_on))
            }
            Line::Avc { is_on } => answers.say_set(set_avc(&mut depacketizer, is_on)),
            Line::Size { max_packet_size } => answers.say_set(set_size(
                &mut packetizer,
                max_packet_size,
            )),
            Line::Pack { limit } => { answers.say_packed(packetizer.packetize(limit, &calls[0].1)) }
            Line::Unpack => {
                let taken = depacketizer.depacketize(&calls[0].1, &mut out, &mut extra);
                answers.say_unpacked(taken, &out)
            }
            Line::Carry { limit } => {
                calls[0].0 = limit;
                let (p, d) = (&mut packetizer, &mut depacketizer);
                let carried = carry(alloc, p, d, &calls, &mut out, &mut extra);
                answers.say_carried(carried, &out)
            }
            Line::Key => answers.say_key(extra),
            Line::Bad => answers.say("bad line"),
        };
        answered?;
        match rest.get(end.saturating_add(1)..) {
            Some(behind) => rest = behind,
            None => return Ok(()),
        }
    }
}
