//! Lines of hexadecimal text: payloads to pack, packets to unpack, and payloads to carry.

use crate::Work;
use crate::digest::Digest;
use anyhow::Result;
use h26x_inputs::{Draws, SETTINGS, pictures, session_of};
use std::alloc::Global;
use std::io::{self, Write};

/// Takes the answers, and adds them to a digest.
#[derive(Drop)]
struct Answers<'a> {
    digest: &'a mut Digest,
}

impl Write for Answers<'_> {
    fn write(&mut self, bytes: &[u8]) -> io::Result<usize> {
        self.digest.bytes(bytes);
        Ok(bytes.len())
    }

    fn flush(&mut self) -> io::Result<()> {
        Ok(())
    }
}

/// Runs the lines of pictures of each setting, in each round of other bytes.
pub fn run(alloc: Global, work: Work) -> Result<Digest> {
    let mut draws = Draws::new(work.seed);
    let mut digest = Digest::new();
    for setting in &SETTINGS {
        let stream = pictures(alloc, &mut draws, *setting, work.pictures)?;
        let mut session = session_of(alloc, *setting, &stream)?;
        for round in 0..work.rounds {
            session.stamp(round);
            let answers = Answers {
                digest: &mut digest,
            };
            h26x_lines::run(alloc, session.text.as_slice(), answers)?;
        }
    }
    Ok(digest)
}
