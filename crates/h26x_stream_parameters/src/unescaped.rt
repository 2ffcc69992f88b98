//! What a unit says behind its header: its bytes without those that keep start codes out.

ghost use Rattle.std.specs.Prelude.{◌≡◌, IfOk, take};
ghost use Rattle.h26x_stream_parameters.specs.FromStream as spec;

use std::alloc::{AllocError, Global};

/// How many zeros stand before what follows a byte, as far as two.
fn zeros_behind(zeros: u8, byte: u8) -> u8
    ensures { result ≡ spec.zeros_behind zeros byte }
{
    match (byte, zeros) {
        (0, 0) => 1,
        (0, _) => 2,
        _ => 0,
    }
}

/// So many bytes of those that a unit says, or all where there are fewer (Rec. ITU-T H.264, section
/// 7.3.1; H.265 and H.266, section 7.3.1.1).
pub(crate) fn first_unescaped(
    alloc: Global,
    bytes: &[u8],
    many: usize,
) -> Result<Vec<u8>, AllocError>
    ensures { IfOk result (λ first. first.items ≡ take many (spec.unescaped bytes.now)) }
{
    let mut first = Vec::new(alloc);
    let mut rest = bytes;
    let mut zeros = 0;
    while first.len() < many {
        let [byte, behind @ ..] = rest else {
            return Ok(first);
        };
        if zeros == 2 && *byte == 3 {
            zeros = 0;
        } else {
            first.push(*byte)?;
            zeros = zeros_behind(zeros, *byte);
        }
        rest = behind;
    }
    Ok(first)
}
