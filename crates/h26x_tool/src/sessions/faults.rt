use super::same;
use h26x_core::PacketError;
use h26x_lines::{RunError, run};
use std::alloc::Global;
use std::io::{Read, Write};
use std::process::Abort;
use std::test::Fail;
use std::{fmt, io};

/// Gives a line, and then fails.
#[derive(Debug, Drop)]
struct BrokenReader {
    has_given: bool,
    kind: io::ErrorKind,
}

impl Read for BrokenReader {
    fn read(&mut self, buf: &mut [u8]) -> io::Result<usize> {
        if self.has_given || buf.is_empty() {
            return Err(io::Error::from(self.kind));
        }
        buf[0] = b'\n';
        self.has_given = true;
        Ok(1)
    }
}

/// How a read fails, and how the run then ends.
const FAILED_READS: [(io::ErrorKind, RunError); 2] = [
    (io::ErrorKind::BrokenPipe, RunError::Read),
    (io::ErrorKind::OutOfMemory, RunError::OutOfMemory),
];

#[test]
fn a_read_that_fails(rt: HostRuntime) {
    for (kind, want) in &FAILED_READS {
        let reader = BrokenReader {
            has_given: false,
            kind: *kind,
        };
        let ended = run(rt.alloc(), reader, Vec::new(rt.alloc()));
        same(&rt, &ended, &Err(*want), "a failed read");
    }
}

/// Fails once, when it is to write or when it is to flush, and takes everything before and after.
#[derive(Debug, Drop)]
struct BrokenWriter {
    fails_to_write: bool,
    fails_to_flush: bool,
}

/// A failure where one is due, and none is due any more.
fn fail_once(fails: &mut bool) -> io::Result<()> {
    if *fails {
        *fails = false;
        return Err(io::Error::from(io::ErrorKind::BrokenPipe));
    }
    Ok(())
}

impl Write for BrokenWriter {
    fn write(&mut self, buf: &[u8]) -> io::Result<usize> {
        fail_once(&mut self.fails_to_write)?;
        Ok(buf.len())
    }

    fn flush(&mut self) -> io::Result<()> {
        fail_once(&mut self.fails_to_flush)
    }
}

/// Runs a line again and again, so that more is answered than any buffer holds.
fn run_often(alloc: Global, line: &str, writer: BrokenWriter) -> Result<(), RunError> {
    let mut input = Vec::new(alloc);
    for _ in 0..4000 {
        input.extend_from_slice(line.as_bytes())?;
        input.extend_from_slice(b"\n")?;
    }
    run(alloc, input.as_slice(), writer)
}

/// Lines that are answered in each way.
const ANSWERED: [&str; 15] = [
    "key",
    "hello",
    "codec h266",
    "avc on",
    "donl on",
    "size 4",
    "unpack 65",
    "unpack 1c80",
    "unpack -",
    "unpack 78000f67",
    "pack 5 65",
    "pack 5 -",
    "carry 5 65",
    "carry 5 -",
    "carry 5 60",
];

#[test]
fn a_write_that_fails(rt: HostRuntime) {
    for line in &ANSWERED {
        let writer = BrokenWriter {
            fails_to_write: true,
            fails_to_flush: false,
        };
        let ended = run_often(rt.alloc(), line, writer);
        same(&rt, &ended, &Err(RunError::Write), line);
    }
}

/// Whether writing and flushing fail, and how the run then ends.
const FAILED_WRITES: [(bool, bool, Result<(), RunError>); 3] = [
    (false, false, Ok(())),
    (true, false, Err(RunError::Write)),
    (false, true, Err(RunError::Write)),
];

#[test]
fn a_write_that_fails_at_the_end(rt: HostRuntime) {
    for (fails_to_write, fails_to_flush, want) in &FAILED_WRITES {
        let writer = BrokenWriter {
            fails_to_write: *fails_to_write,
            fails_to_flush: *fails_to_flush,
        };
        let ended = run(rt.alloc(), b"key\n".as_slice(), writer);
        same(&rt, &ended, want, "the end");
    }
}

/// Errors of a packet, and their texts.
const ERRORS: [(PacketError, &str); 8] = [
    (PacketError::ErrShortPacket, "packet is too short"),
    (
        PacketError::NaluTypeIsNotHandled(31),
        "NAL unit type 31 is not handled",
    ),
    (
        PacketError::StapASizeLargerThanBuffer(15, 14),
        "STAP-A unit of 15 bytes, 14 left",
    ),
    (
        PacketError::ErrH265CorruptedPacket,
        "corrupted H.265 packet",
    ),
    (
        PacketError::ErrH265PACIPHESTooLong,
        "PACI extension is longer than 31 bytes",
    ),
    (
        PacketError::ErrH266CorruptedPacket,
        "corrupted H.266 packet",
    ),
    (
        PacketError::AvcUnitTooLong,
        "unit is too long for an AVC length",
    ),
    (PacketError::OutOfMemory, "out of memory"),
];

/// Errors that end a run, and their texts.
const ENDS: [(RunError, &str); 3] = [
    (RunError::Read, "h26x: read failed"),
    (RunError::Write, "h26x: write failed"),
    (RunError::OutOfMemory, "h26x: no memory"),
];

fn say<E: fmt::Display>(rt: &impl Abort, alloc: Global, error: &E, want: &str) -> Result<(), Fail> {
    same(rt, &error.to_string(alloc)?.as_str(), &want, want);
    Ok(())
}

#[test]
fn texts_of_errors(rt: HostRuntime) -> Result<(), Fail> {
    for (error, want) in &ERRORS {
        say(&rt, rt.alloc(), error, want)?;
    }
    for (error, want) in &ENDS {
        say(&rt, rt.alloc(), error, want)?;
    }
    Ok(())
}
