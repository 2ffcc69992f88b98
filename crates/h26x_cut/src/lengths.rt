//! The units of a text behind lengths, by their places.

ghost use Rattle.std.specs.Prelude.{◌≡◌, ◌<◌, ◌^◌, ◌++◌, ℕ, List, None, IfSome, drop, length};
ghost use Rattle.h26x_core.specs.Word.{long_word};
ghost use Rattle.h26x_cut.specs.Lengths.{BeginsWithUnit, IsNextAvcUnit};

use std::ops::Range;

/// The length at the front of a text, and what stands behind it.
fn first_length(text: &[u8]) -> Option<(usize, &[u8])>
    ensures none { result ≡ None → length text.now < 4 }
    ensures some { IfSome result (λ it. text.now ≡ long_word it.0 ++ it.1.now) }
    ensures fits { IfSome result (λ it. it.0 < 2 ^ 32) }
{
    if text.len() < 4 {
        return None;
    }
    let len = u32::from_be_bytes([text[0], text[1], text[2], text[3]]);
    Some((len as usize, &text[4..]))
}

/// Where the next unit stands of a text in AVC form, each unit behind its length of four bytes: the
/// first one whose length begins at a place or behind it.
///
/// From 0 on it finds the first unit, and from the end of one the next. Empty units are left out.
/// `None` where no unit is left, or what is left has fewer bytes than its length tells; of a text
/// that is whole the last unit ends at its end. It takes no memory and refuses nothing (ISO/IEC
/// 14496-15).
///
/// ```rust
/// let text = [0, 0, 0, 2, 0x67, 0x42, 0, 0, 0, 1, 0x65];
/// assert_eq!(rt; next_avc_unit(&text, 0), Some(4..6));
/// assert_eq!(rt; next_avc_unit(&text, 6), Some(10..11));
/// assert_eq!(rt; next_avc_unit(&text, 11), None);
/// ```
pub fn next_avc_unit(text: &[u8], from: usize) -> Option<Range<usize>>
    ensures none { result ≡ None → (empty : ℕ) (unit rest : List ℕ) →
        BeginsWithUnit (drop from text.now) empty unit rest → ⊥ }
    ensures some { IfSome result (λ place. IsNextAvcUnit text.now from place.start place.end) }
{
    let mut rest = text.get(from..)?;
    while let Some((len, units)) = first_length(rest) {
        if len > units.len() {
            return None;
        }
        if len > 0 {
            let begin = text.len() - units.len();
            return Some(begin..begin + len);
        }
        rest = units;
    }
    None
}
