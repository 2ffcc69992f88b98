//! Units behind their lengths, one behind the other, as an aggregate has them.

ghost use Rattle.std.specs.Prelude.{◌≡◌, ◌≤◌, ◌+◌, ◌-◌, ◌^◌, ◌++◌, min, length, take, vec_len, vec_capacity};
ghost use Rattle.h26x_core.specs.Pieces.{piece};
ghost use Rattle.h26x_payload.specs.Sets.{sets_behind_lengths};
ghost use Rattle.h26x_packetizer.specs.Group.{lent_units, behind_leads};

use h26x_payload::copy_bytes;

/// How many bytes units take behind their lengths of two bytes, with `gap` before the length of each
/// but the first; the greatest number where they are more.
pub(crate) fn pieces_len(gap: &[u8], units: &[&[u8]]) -> usize
    ensures { result ≡ min (length (sets_behind_lengths gap.now (lent_units units.now)))
        (2 ^ 64 - 1) }
{
    let mut len: usize = 0;
    let mut lead: &[u8] = &[];
    for unit in units {
        len = len
            .saturating_add(lead.len())
            .saturating_add(2)
            .saturating_add(unit.len());
        lead = gap;
    }
    len
}

/// Copies a unit behind its length, and behind these bytes, to a place of memory; the place behind it.
#[inline]
fn copy_piece(lead: &[u8], unit: &[u8], place: usize, to: &mut [u8]) -> usize
    requires room { place + (length lead.now + (2 + length unit.now)) ≤ length to.old }
    ensures copied { take result to.new ≡ take place to.old ++ (lead.now ++ piece unit.now) }
    ensures end { result ≡ place + (length lead.now + (2 + length unit.now)) }
    ensures len { length to.new ≡ length to.old }
{
    let len = unit.len();
    let length = [(len / 256 % 256) as u8, (len % 256) as u8];
    let behind_lead = copy_bytes(lead, place, to);
    let behind_length = copy_bytes(&length, behind_lead, to);
    copy_bytes(unit, behind_length, to)
}

/// Copies units behind their lengths to memory of their length; `gap` goes before the length of each
/// but the first.
pub(crate) fn copy_pieces(gap: &[u8], units: &[&[u8]], to: &mut [u8])
    requires { length to.old ≡ length (sets_behind_lengths gap.now (lent_units units.now)) }
    ensures { to.new ≡ sets_behind_lengths gap.now (lent_units units.now) }
{
    let mut place = 0;
    let mut lead: &[u8] = &[];
    for unit in units {
        place = copy_piece(lead, unit, place, to);
        lead = gap;
    }
}

/// Writes bytes, where there is room for them.
#[inline(always)]
pub(crate) fn put_bytes(from: &[u8], bytes: &mut Vec<u8>)
    requires room { vec_len bytes.old + length from.now ≤ vec_capacity bytes.old }
    ensures written { bytes.new.items ≡ bytes.old.items ++ from.now }
    ensures len { vec_len bytes.new ≡ vec_len bytes.old + length from.now }
    ensures capacity { vec_capacity bytes.old ≤ vec_capacity bytes.new }
{
    if !from.is_empty() {
        bytes.extend_from_slice(from).unwrap();
    }
}

/// Writes a unit behind its length, and behind these bytes, where there is room for them.
#[inline(always)]
fn put_piece(lead: &[u8], unit: &[u8], bytes: &mut Vec<u8>)
    requires room { vec_len bytes.old + (length lead.now + (2 + length unit.now))
        ≤ vec_capacity bytes.old }
    ensures written { bytes.new.items ≡ bytes.old.items ++ (lead.now ++ piece unit.now) }
    ensures len { vec_len bytes.new
        ≡ vec_len bytes.old + (length lead.now + (2 + length unit.now)) }
    ensures capacity { vec_capacity bytes.old ≤ vec_capacity bytes.new }
{
    let unit_len = unit.len();
    let length = [(unit_len / 256 % 256) as u8, (unit_len % 256) as u8];
    put_bytes(lead, bytes);
    bytes.extend_from_slice(&length).unwrap();
    bytes.extend_from_slice(unit).unwrap();
}

/// Writes units behind their lengths, where there is room for them; `gap` goes before the length of
/// each but the first.
#[inline]
pub(crate) fn put_pieces(gap: &[u8], units: &[&[u8]], bytes: &mut Vec<u8>)
    requires room { vec_len bytes.old
        + length (sets_behind_lengths gap.now (lent_units units.now)) ≤ vec_capacity bytes.old }
    ensures { bytes.new.items ≡ bytes.old.items
        ++ sets_behind_lengths gap.now (lent_units units.now) }
{
    let mut lead: &[u8] = &[];
    for unit in units {
        put_piece(lead, unit, bytes);
        lead = gap;
    }
}
