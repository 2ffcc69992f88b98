use super::same;
use h26x_core::PacketError;
use h26x_lines::RunError;
use h26x_lines::answers::Answers;
use std::alloc::{AllocError, Global};
use std::test::Fail;

/// What is answered to a packet that is taken or refused.
pub(super) fn answer(
    alloc: Global,
    taken: Result<(), PacketError>,
    out: &[u8],
) -> Result<Vec<u8>, RunError> {
    let mut output = Vec::new(alloc);
    let mut answers = Answers::new(alloc, &mut output)?;
    answers.say_unpacked(taken, out)?;
    answers.flush()?;
    drop(answers);
    Ok(output)
}

/// Errors, and the lines that say them.
const REFUSALS: [(PacketError, &str); 8] = [
    (PacketError::ErrShortPacket, "refused ErrShortPacket\n"),
    (
        PacketError::NaluTypeIsNotHandled(0),
        "refused NaluTypeIsNotHandled 0\n",
    ),
    (
        PacketError::StapASizeLargerThanBuffer(15, 14),
        "refused StapASizeLargerThanBuffer 15 14\n",
    ),
    (
        PacketError::ErrH265CorruptedPacket,
        "refused ErrH265CorruptedPacket\n",
    ),
    (
        PacketError::ErrH265PACIPHESTooLong,
        "refused ErrH265PACIPHESTooLong\n",
    ),
    (
        PacketError::ErrH266CorruptedPacket,
        "refused ErrH266CorruptedPacket\n",
    ),
    (PacketError::AvcUnitTooLong, "refused AvcUnitTooLong\n"),
    (PacketError::OutOfMemory, "refused OutOfMemory\n"),
];

#[test]
fn a_refusal_is_named_with_its_numbers(rt: HostRuntime) -> Result<(), Fail> {
    for (error, want) in &REFUSALS {
        let said = answer(rt.alloc(), Err(*error), &[])?;
        same(&rt, &said.as_slice(), &want.as_bytes(), want);
    }
    Ok(())
}

/// All bytes, more often than are written at a time.
fn all_bytes(alloc: Global) -> Result<Vec<u8>, AllocError> {
    let mut bytes = Vec::new(alloc);
    for byte in 0..1000u32 {
        bytes.push((byte * 7 % 256) as u8)?;
    }
    Ok(bytes)
}

/// The line that says bytes, as the crate `hex` writes them.
pub(super) fn line_of(alloc: Global, bytes: &[u8]) -> Result<String, Fail> {
    Ok(format!(in alloc; "out {}\n", hex::encode(alloc, bytes)?)?)
}

#[test]
fn bytes_are_written_with_two_digits_each(rt: HostRuntime) -> Result<(), Fail> {
    let bytes = all_bytes(rt.alloc())?;
    let said = answer(rt.alloc(), Ok(()), &bytes)?;
    assert!(rt; said.as_slice() == line_of(rt.alloc(), &bytes)?.as_bytes());
    Ok(())
}
