//! Units behind lengths of two bytes, as aggregation packets have them (RFC 6184, 5.7.1; RFC 7798,
//! 4.4.2; RFC 9328, 4.3.2).

ghost use Rattle.std.specs.Prelude.{◌≡◌, ◌≤◌, ◌<◌, ◌+◌, ◌*◌, ◌++◌, [], length, drop, slice_index, IfOk, IfErr};
ghost use Rattle.h26x_core.specs.Pieces.{pieces_of, with_piece};

/// The first piece of bytes and what stands behind it, or its length where that passes the end
/// (RFC 6184, 5.7.1; RFC 7798, 4.4.2; RFC 9328, 4.3.2).
#[inline]
pub fn first_piece(bytes: &[u8]) -> Result<(&[u8], &[u8]), usize>
    requires { 2 ≤ length bytes.now }
    ensures whole { IfOk result (λ it. pieces_of bytes.now ≡ with_piece it.0.now
        (pieces_of it.1.now)) }
    ensures parts { IfOk result (λ it. drop 2 bytes.now ≡ it.0.now ++ it.1.now) }
    ensures size { IfOk result (λ it. length it.0.now ≡ slice_index bytes.now 0 * 256
        + slice_index bytes.now 1) }
    ensures short { IfOk result (λ it. length it.0.now < 65536) }
    ensures less { IfOk result (λ it. length it.1.now < length bytes.now) }
    ensures none { IfErr result (λ len. pieces_of bytes.now ≡ record {
      whole = [];
      left = bytes.now;
    }) }
    ensures len { IfErr result (λ len. len ≡ slice_index bytes.now 0 * 256 + slice_index bytes.now
        1) }
    ensures past { IfErr result (λ len. length bytes.now < 2 + len) }
{
    let len = usize::from(bytes[0]) * 256 + usize::from(bytes[1]);
    let behind = &bytes[2..];
    if behind.len() < len {
        return Err(len);
    }
    Ok((&behind[..len], &behind[len..]))
}
