//! The parameters of an `a=fmtp` value, as they stand in its text.

ghost use Rattle.std.specs.Prelude.{◌≡◌, ◌+◌, ◌<◌, ◌==◌, []};
ghost use Rattle.std.specs.Prelude.{◌∷◌, MatchOption, IfSome, OnOk, OnErr, length, take, drop};
ghost use Rattle.std.specs.List.{cons_option, before_first, after_first};
ghost use Rattle.h26x_fmtp.specs.Pairs as spec;
ghost use Rattle.h26x_fmtp.specs.PairViews.{pair_view};
ghost use Rattle.h26x_fmtp.specs.Written.{with_pair};

use memchr::memchr;
use std::alloc::AllocError;
use std::marker::Model;

/// A parameter as it stands in a text: its name and its value, without white space at their ends.
///
/// Names are compared without regard to case (RFC 4855, section 3). A part without `=` is a
/// parameter with an empty value.
#[derive(Debug, Clone, Copy, PartialEq, Eq)]
pub struct Pair<'a> {
    /// What stands before the first `=`.
    pub name: &'a [u8],
    /// What stands behind it.
    pub value: &'a [u8],
}

/// The parameters of a text that are left, in their order.
#[derive(Debug, Drop)]
pub struct Pairs<'a> {
    rest: &'a [u8],
}

impl<'a> Model for Pairs<'a> {
    ghost use Rattle.std.specs.Prelude.{List};
    ghost use Rattle.h26x_fmtp.specs.Pairs.{Pair, pairs};

    ghost Value = { List Pair };

    ghost view = { λ it. pairs it.rest.now };
}

/// The parameters of an `a=fmtp` value, in their order: what stands behind the payload type.
///
/// They have `;` between them, and white space round `;` and `=` is left out, as are blank parts. A
/// `;` inside braces ends no parameter, since the value of `dec-parallel-cap` has some. It takes no
/// memory and refuses nothing (RFC 6184, section 8.2.1; RFC 7798, section 7.2.1; RFC 9328, section
/// 7.3.1).
///
/// ```rust
/// for parameter in pairs_of(b"packetization-mode=1; profile-level-id=42e01f") {
///     look_at(parameter.name, parameter.value);
/// }
/// ```
pub fn pairs_of(text: &[u8]) -> Pairs<'_>
    ensures { result ≡ spec.pairs text.now }
{
    Pairs { rest: text }
}

/// Whether every brace of a text is closed. Where one isn't, parameters that are written behind the
/// text would be read as part of its last one.
pub fn closes(text: &[u8]) -> bool
    ensures { result ≡ spec.closes text.now }
{
    let mut inside = false;
    for byte in text {
        inside = is_inside(inside, *byte);
    }
    !inside
}

/// Whether what follows a byte stands inside braces.
fn is_inside(inside: bool, byte: u8) -> bool
    ensures { result ≡ spec.is_inside inside byte }
{
    match byte {
        b'{' => true,
        b'}' => false,
        _ => inside,
    }
}

/// Where the first part of a text ends, if a `;` ends it.
fn part_end(text: &[u8]) -> Option<usize>
    ensures within { IfSome result (λ end. end < length text.now) }
    ensures parts { MatchOption result (spec.parts text.now ≡ text.now ∷ [])
        (λ end. spec.parts text.now ≡ take end text.now ∷ spec.parts (drop (end + 1) text.now)) }
{
    let mut inside = false;
    for (place, byte) in text.iter().enumerate() {
        if *byte == b';' && !inside {
            return Some(place);
        }
        inside = is_inside(inside, *byte);
    }
    None
}

/// The first part of a text, and what stands behind its `;`.
fn split_part(text: &[u8]) -> (&[u8], &[u8])
    ensures pairs { spec.pairs text.now
        ≡ cons_option (spec.pair_in result.0.now) (spec.pairs result.1.now) }
    ensures shorter { 0 < length text.now → length result.1.now < length text.now }
{
    match part_end(text) {
        Some(end) => (&text[..end], &text[end + 1..]),
        None => (text, &[]),
    }
}

/// A text without the white space at its ends.
pub fn trimmed(text: &[u8]) -> &[u8]
    ensures { result.now ≡ spec.trim_ascii text.now }
{
    text.trim_ascii()
}

/// What stands before the first byte of a value in a text, and behind it; all of the text and nothing
/// where there is none.
pub fn cut(text: &[u8], at: u8) -> (&[u8], &[u8])
    ensures before { result.0.now ≡ before_first (λ byte. byte == at) text.now }
    ensures behind { result.1.now ≡ after_first (λ byte. byte == at) text.now }
{
    match memchr(at, text) {
        Some(place) => (&text[..place], &text[place + 1..]),
        None => (text, &[]),
    }
}

/// The name and the value of a part.
fn pair_of(part: &[u8]) -> Pair<'_>
    ensures { pair_view result ≡ spec.pair_of part.now }
{
    let (name, value) = cut(part, b'=');
    Pair {
        name: trimmed(name),
        value: trimmed(value),
    }
}

/// Writes a parameter at the end of a text, behind a `;` where it isn't the first.
///
/// What is written is read as the same parameters where each of them has no white space at an end of
/// its name or of its value, no `=` in its name, no `;` outside braces and no brace left open. Where
/// memory lacks nothing changes.
pub fn push_pair(text: &mut Vec<u8>, pair: Pair<'_>) -> Result<(), AllocError>
    ensures ok { OnOk result (text.new.items ≡ with_pair text.old.items (pair_view pair.entry)) }
    ensures err { OnErr result (text.new.items ≡ text.old.items) }
{
    let len = pair.name.len().saturating_add(pair.value.len());
    text.reserve(len.saturating_add(2))?;
    if !text.is_empty() {
        text.push(b';').unwrap();
    }
    text.extend_from_slice(pair.name).unwrap();
    text.push(b'=').unwrap();
    text.extend_from_slice(pair.value).unwrap();
    Ok(())
}

impl<'a> Iterator for Pairs<'a> {
    type Item = Pair<'a>;

    ghost use Rattle.std.specs.Iterator.{YieldsFirstBy, item_count};

    ghost next_gives = { YieldsFirstBy pair_view (λ it. it) };

    ghost remaining = { item_count (λ it. it) };

    fn next(&mut self) -> Option<Pair<'a>> {
        while !self.rest.is_empty() {
            let (part, rest) = split_part(self.rest);
            self.rest = rest;
            let part = trimmed(part);
            if !part.is_empty() {
                return Some(pair_of(part));
            }
        }
        None
    }
}
