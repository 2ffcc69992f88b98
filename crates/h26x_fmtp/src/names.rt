//! Names, whose case doesn't count.

ghost use Rattle.std.specs.Prelude.{◌≡◌};
ghost use Rattle.h26x_fmtp.specs.Tables as spec;

/// Whether two names are one, without regard to case (RFC 4855, section 3).
pub fn same_name(a: &[u8], b: &[u8]) -> bool
    ensures { result ≡ spec.same_name a.now b.now }
{
    a.eq_ignore_ascii_case(b)
}
