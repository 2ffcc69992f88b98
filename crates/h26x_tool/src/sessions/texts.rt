//! Texts on both sides of what is read at a time and of what is written at a time, beside what the
//! plain reading and the crate `hex` make of them.

mod by_table;

use super::answers::{answer, line_of};
use by_table::TableDigits;
use h26x_lines::digits::Digits;
use std::alloc::{AllocError, Global};
use std::process::Abort;
use std::test::Fail;

/// The digits of either case, and beside each run of them the bytes that are none.
const BYTES: &[u8; 33] = b"0123456789abcdefABCDEF/:@G`g \x00\x80\xb0\xff";

/// How many of them are digits.
const DIGITS: usize = 22;

/// Digits, in no order that a part of them repeats.
fn text_of(alloc: Global, length: usize) -> Result<Vec<u8>, AllocError> {
    let mut text = Vec::new(alloc);
    for place in 0..length {
        let digit = place
            .wrapping_mul(place)
            .wrapping_mul(7)
            .wrapping_add(place);
        text.push(BYTES[digit % DIGITS])?;
    }
    Ok(text)
}

/// What reads texts, and the plain form of it.
#[derive(Drop)]
struct Readers {
    digits: Digits,
    plain: TableDigits,
}

impl Readers {
    fn new() -> Self {
        Readers {
            digits: Digits::new(),
            plain: TableDigits::new(),
        }
    }

    /// Reads a text over other bytes, and compares: what is left where it isn't one, too.
    fn compare(&self, rt: &impl Abort, alloc: Global, text: &[u8]) -> Result<(), Fail> {
        let mut bytes = vec![in alloc; 0xffu8; 20]?;
        let mut plain_bytes = vec![in alloc; 0xffu8; 20]?;
        let is_text = self.digits.read(text, &mut bytes)?;
        let is_plain_text = self.plain.read(text, &mut plain_bytes)?;
        assert!(rt; is_text == is_plain_text, "{text:?}");
        assert!(rt; bytes == plain_bytes, "{text:?}");
        let want = hex::decode(alloc, text).ok();
        let made = if is_text { Some(bytes) } else { None };
        assert!(rt; made == want, "{text:?}");
        Ok(())
    }
}

#[test]
fn texts_are_read_as_the_crate_hex_reads_them(rt: HostRuntime) -> Result<(), Fail> {
    let readers = Readers::new();
    for length in 0..100 {
        let mut text = text_of(rt.alloc(), length)?;
        readers.compare(&rt, rt.alloc(), &text)?;
        for place in 0..text.len() {
            let digit = text[place];
            text[place] = BYTES[DIGITS + place % (BYTES.len() - DIGITS)];
            readers.compare(&rt, rt.alloc(), &text)?;
            text[place] = digit;
        }
    }
    Ok(())
}

#[test]
fn each_byte_stands_at_each_place(rt: HostRuntime) -> Result<(), Fail> {
    let readers = Readers::new();
    let mut text = text_of(rt.alloc(), 66)?;
    for place in 0..text.len() {
        let digit = text[place];
        for byte in 0..=255 {
            text[place] = byte;
            readers.compare(&rt, rt.alloc(), &text)?;
        }
        text[place] = digit;
    }
    Ok(())
}

/// A text of more digits than a number of two bytes counts.
#[test]
fn a_long_text_is_read_as_the_crate_hex_reads_it(rt: HostRuntime) -> Result<(), Fail> {
    let text = text_of(rt.alloc(), 300_000)?;
    Readers::new().compare(&rt, rt.alloc(), &text)
}

#[test]
fn bytes_are_written_as_the_crate_hex_writes_them(rt: HostRuntime) -> Result<(), Fail> {
    let mut bytes = Vec::new(rt.alloc());
    for length in 1..600usize {
        bytes.push((length.wrapping_mul(length).wrapping_mul(29) % 256) as u8)?;
        let said = answer(rt.alloc(), Ok(()), &bytes)?;
        assert!(rt; said.as_slice() == line_of(rt.alloc(), &bytes)?.as_bytes());
    }
    Ok(())
}
