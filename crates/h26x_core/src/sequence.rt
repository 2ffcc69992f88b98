//! Sequence numbers of RTP packets, which go round at 65536 (RFC 3550, 5.1).

ghost use Rattle.std.specs.Prelude.{◌≡◌};
ghost use Rattle.h26x_core.specs.Sequence.{is_expected};

/// Whether a sequence number is the one expected, which none is before the first packet.
#[inline]
pub fn is_next(expected: Option<u16>, sequence: u16) -> bool
    ensures { result ≡ is_expected expected sequence }
{
    match expected {
        Some(expected) => sequence == expected,
        None => false,
    }
}
