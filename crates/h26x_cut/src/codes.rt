//! What stands behind start codes.

ghost use Rattle.std.specs.Prelude.{◌≡◌};
ghost use Rattle.std.specs.Option.{option_map};
ghost use Rattle.h26x_cut.specs.Cutting.{behind_first_code};

use crate::marks::CODE;
use crate::search::first_code;

/// What stands behind the first start code of bytes, up to their end: for a caller who looks at how
/// units begin, and needs none behind the last that he looks at (Annex B of H.264, H.265 and H.266).
///
/// ```rust
/// let text = [0, 0, 0, 1, 0x67, 0x42, 0, 0, 0, 1, 0x65];
/// let unit = behind_code(&text); // 67 42 00 00 00 01 65
/// ```
pub fn behind_code(bytes: &[u8]) -> Option<&[u8]>
    ensures { option_map (λ rest. rest.now) result ≡ behind_first_code bytes.now }
{
    match first_code(bytes) {
        Some(place) => Some(&bytes[place + CODE.len()..]),
        None => None,
    }
}
