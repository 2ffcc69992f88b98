use super::same;
use h26x_lines::digits::Digits;
use std::alloc::{AllocError, Global};
use std::process::Abort;
use std::test::Fail;

/// The bytes of a text, read over others.
fn read(alloc: Global, digits: &Digits, text: &[u8]) -> Result<Option<Vec<u8>>, AllocError> {
    let mut bytes = vec![in alloc; 0xffu8; 2]?;
    let is_text = digits.read(text, &mut bytes)?;
    Ok(if is_text { Some(bytes) } else { None })
}

fn compare(rt: &impl Abort, alloc: Global, digits: &Digits, text: &[u8]) -> Result<(), Fail> {
    let want = hex::decode(alloc, text).ok();
    same(rt, &read(alloc, digits, text)?, &want, "two digits");
    Ok(())
}

#[test]
fn two_bytes_are_read_as_the_crate_hex_reads_them(rt: HostRuntime) -> Result<(), Fail> {
    let digits = Digits::new();
    for high in 0..=255 {
        for low in 0..=255 {
            compare(&rt, rt.alloc(), &digits, &[high, low])?;
        }
    }
    Ok(())
}

/// Texts, and the bytes that they are.
const TEXTS: [(&str, Option<&[u8]>); 8] = [
    ("", Some(&[])),
    ("0fA0fF", Some(&[0x0f, 0xa0, 0xff])),
    ("0fa0f", None),
    ("0", None),
    ("g0a0ff", None),
    ("0fga0ff", None),
    ("0fa0fg", None),
    ("0f a0 ff", None),
];

fn expect(rt: &impl Abort, alloc: Global, text: &str, want: Option<&[u8]>) -> Result<(), Fail> {
    let read = read(alloc, &Digits::new(), text.as_bytes())?;
    let read = read.as_ref().map(|bytes| bytes.as_slice());
    same(rt, &read, &want, text);
    Ok(())
}

#[test]
fn texts_of_more_bytes(rt: HostRuntime) -> Result<(), Fail> {
    for (text, want) in &TEXTS {
        expect(&rt, rt.alloc(), text, *want)?;
    }
    Ok(())
}
