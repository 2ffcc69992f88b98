//! Numbers of two and four bytes, the high byte first, as RTP has them (RFC 3550, 4).

ghost use Rattle.std.specs.Prelude.{◌≡◌, ◌+◌, ◌*◌, ◌≤◌, length};
ghost use Rattle.h26x_rtp.specs.Words.{word_at, long_at};

/// The number of two bytes at a place.
#[inline(always)]
pub fn word_in(bytes: &[u8], place: usize) -> u16
    requires { place + 2 ≤ length bytes.now }
    ensures { result ≡ word_at bytes.now place }
{
    u16::from(bytes[place]) << 8 | u16::from(bytes[place + 1])
}

/// The number of four bytes at a place.
#[inline(always)]
pub fn long_in(bytes: &[u8], place: usize) -> u32
    requires { place + 4 ≤ length bytes.now }
    ensures { result ≡ long_at bytes.now place }
{
    u32::from(word_in(bytes, place)) * 65536 + u32::from(word_in(bytes, place + 2))
}
