//! The words of the program's lines.

use crate::digits::Digits;
use h26x_codec::Codec;
use memchr::memchr;
use std::alloc::AllocError;
use std::str;

/// What a line asks for. The bytes of a payload or a packet stand beside it.
#[derive(Debug, Clone, Copy, PartialEq, Eq)]
pub enum Line {
    /// No words: the line is skipped.
    Blank,
    /// A fresh packetizer and a fresh depacketizer.
    Codec(Codec),
    /// Decoding order numbers written and read, or none. H.265 and H.266 alone.
    Donl { is_on: bool },
    /// Units written behind their lengths, in AVC form, or behind start codes. H.264 alone.
    Avc { is_on: bool },
    /// No packet longer than `largest` bytes, 4 or more. H.265 and H.266 alone.
    Size { max_packet_size: u16 },
    /// A payload cut into packets of at most `limit` bytes.
    Pack { limit: usize },
    /// A packet put together.
    Unpack,
    /// A payload cut into packets of at most `limit` bytes, and these put together.
    Carry { limit: usize },
    /// What is known of keyframes.
    Key,
    /// None of the above.
    Bad,
}

/// Reads a line without its LF. One CR at its end is dropped, and words are separated by spaces.
/// The line's payload or packet goes to `bytes`, in the place of what stands there.
pub fn read_line(digits: &Digits, line: &[u8], bytes: &mut Vec<u8>) -> Result<Line, AllocError> {
    let (name, rest) = first_word(line.strip_suffix(b"\r").unwrap_or(line));
    let (word, rest) = first_word(rest);
    Ok(match name {
        b"pack" => match read_call(digits, word, rest, bytes)? {
            Some(limit) => Line::Pack { limit },
            None => Line::Bad,
        },
        b"carry" => match read_call(digits, word, rest, bytes)? {
            Some(limit) => Line::Carry { limit },
            None => Line::Bad,
        },
        _ if !rest.is_empty() => Line::Bad,
        b"unpack" if read_bytes(digits, word, bytes)? => Line::Unpack,
        _ => read_setting(name, word),
    })
}

/// The first word of a text, empty where there is none, and what stands from the next word on.
fn first_word(text: &[u8]) -> (&[u8], &[u8]) {
    let text = without_spaces(text);
    let (word, rest) = text.split_at(memchr(b' ', text).unwrap_or(text.len()));
    (word, without_spaces(rest))
}

/// A text from its first word on.
fn without_spaces(text: &[u8]) -> &[u8] {
    let start = text.iter().position(|byte| *byte != b' ');
    &text[start.unwrap_or(text.len())..]
}

/// A line of one word or two, and no bytes.
fn read_setting(name: &[u8], word: &[u8]) -> Line {
    match (name, word) {
        ([], _) => Line::Blank,
        (b"codec", b"h264") => Line::Codec(Codec::H264),
        (b"codec", b"h265") => Line::Codec(Codec::H265),
        (b"codec", b"h266") => Line::Codec(Codec::H266),
        (b"donl", b"on") => Line::Donl { is_on: true },
        (b"donl", b"off") => Line::Donl { is_on: false },
        (b"avc", b"on") => Line::Avc { is_on: true },
        (b"avc", b"off") => Line::Avc { is_on: false },
        (b"size", max_packet_size) => read_size(max_packet_size),
        (b"key", []) => Line::Key,
        _ => Line::Bad,
    }
}

/// The line that sets the largest packet size.
fn read_size(word: &[u8]) -> Line {
    match str::from_utf8(word).map(|word| word.parse::<u16>()) {
        Ok(Ok(max_packet_size)) => Line::Size { max_packet_size },
        _ => Line::Bad,
    }
}

/// A limit, and the word behind it as bytes.
fn read_call(
    digits: &Digits,
    limit: &[u8],
    rest: &[u8],
    bytes: &mut Vec<u8>,
) -> Result<Option<usize>, AllocError> {
    let (payload, rest) = first_word(rest);
    match str::from_utf8(limit).map(|limit| limit.parse::<usize>()) {
        Ok(Ok(limit)) if rest.is_empty() && read_bytes(digits, payload, bytes)? => Ok(Some(limit)),
        _ => Ok(None),
    }
}

/// Bytes by two hexadecimal digits each, in either case; `-` for none.
fn read_bytes(digits: &Digits, word: &[u8], bytes: &mut Vec<u8>) -> Result<bool, AllocError> {
    match word {
        [] => Ok(false),
        b"-" => digits.read(&[], bytes),
        word => digits.read(word, bytes),
    }
}
