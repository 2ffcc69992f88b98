//! What the tests ask of what the examples give back.

use h26x_core::PacketError;

/// Whether these bytes were written.
pub fn wrote(outcome: Result<Vec<u8>, PacketError>, want: &[u8]) -> bool {
    match outcome {
        Ok(out) => out.as_slice() == want,
        Err(_) => false,
    }
}
