//! What stands behind a packet's header and its number.

ghost use Rattle.std.specs.Prelude.{◌≡◌, ◌≤◌, ◌+◌, ◌-◌, ◌^◌, ◌++◌, replicate, min, length, vec_len, vec_capacity};
ghost use Rattle.h26x_packetizer.specs.Sending.{body_bytes, packet_bytes, packet_len};

use crate::pieces::{copy_pieces, pieces_len, put_bytes, put_pieces};
use h26x_payload::Sets;

/// What stands behind a packet's header and its number.
#[derive(Clone, Copy)]
pub enum Body<'a> {
    /// A unit without its header, or a part of it.
    Data(&'a [u8]),
    /// Sets, each behind its length; `gap` goes before the length of each but the first.
    Sets {
        sets: Sets<'a>,
        gap: &'a [u8],
    },
    /// Units, each behind its length; `gap` goes before the length of each but the first.
    Units {
        units: &'a [&'a [u8]],
        gap: &'a [u8],
    },
}

impl<'a> Body<'a> {
    /// How many bytes it has; the greatest number where they are more.
    #[inline(always)]
    pub(crate) fn len(self) -> usize
        ensures { result ≡ min (length (body_bytes self.entry)) (2 ^ 64 - 1) }
    {
        match self {
            Body::Data(data) => data.len(),
            Body::Sets { sets, gap } => sets.len_with(gap),
            Body::Units { units, gap } => pieces_len(gap, units),
        }
    }

    /// Writes it, where there is room for it.
    #[inline(always)]
    pub(crate) fn put(self, bytes: &mut Vec<u8>)
        requires room { vec_len bytes.old + length (body_bytes self)
            ≤ vec_capacity bytes.old }
        ensures { bytes.new.items ≡ bytes.old.items ++ body_bytes self.entry }
    {
        match self {
            Body::Data(data) => bytes.extend_from_slice(data).unwrap(),
            Body::Sets { sets, gap } => sets.put(gap, bytes),
            Body::Units { units, gap } => put_pieces(gap, units, bytes),
        }
    }

    /// Copies it to memory of its length.
    #[inline(always)]
    pub(crate) fn copy_to(self, to: &mut [u8])
        requires { length to.old ≡ length (body_bytes self) }
        ensures { to.new ≡ body_bytes self.entry }
    {
        match self {
            Body::Data(data) => to.copy_from_slice(data),
            Body::Sets { sets, gap } => sets.copy_to(gap, to),
            Body::Units { units, gap } => copy_pieces(gap, units, to),
        }
    }
}

/// Writes a packet of these parts behind its headroom, where there is room for it.
#[inline(always)]
pub(crate) fn put_packet(
    headroom: usize,
    header: &[u8],
    donl: &[u8],
    body: Body<'_>,
    bytes: &mut Vec<u8>,
)
    requires room { vec_len bytes.old + (headroom + packet_len header.now donl.now body)
        ≤ vec_capacity bytes.old }
    ensures written { bytes.new.items ≡ bytes.old.items
        ++ (replicate headroom 0 ++ packet_bytes header.now donl.now body.entry) }
{
    if headroom > 0 {
        bytes.resize(bytes.len() + headroom, 0).unwrap();
    }
    put_bytes(header, bytes);
    put_bytes(donl, bytes);
    body.put(bytes);
}
