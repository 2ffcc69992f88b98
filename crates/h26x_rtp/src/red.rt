//! Redundant payloads (RFC 2198), which also bear FEC (RFC 5109, 14.2).

ghost use Rattle.std.specs.Prelude.{◌≡◌, ◌<◌, ◌≤◌, ◌+◌, ◌*◌, ◌/◌, ◌%◌, ◌∷◌, ◌↔◌, IsTrue, IfOk, IfSome, MatchOption, [], Contains, length, drop};
ghost use Rattle.h26x_rtp.specs.Red as spec;
ghost use Rattle.h26x_rtp.specs.RedViews.{block_view, red_view, IsReadAsRed};
ghost use Rattle.h26x_rtp.specs.Writing.{IsBytesWritten};

use crate::error::RtpWriteError;
use crate::memory::write_behind;
use std::marker::Model;
use thiserror::Error;

/// How many bytes the header of a block before the primary one has (RFC 2198, 3).
const HEADER_SIZE: usize = 4;

/// Why bytes are no redundant payload: the first fault from the left (RFC 2198, 3).
#[derive(Debug, Clone, Copy, PartialEq, Eq, Error)]
pub enum RedError {
    /// No header has F clear.
    #[error("headers of blocks pass the end of the payload")]
    HeadersPastTheEnd,

    /// The blocks before the primary one are longer than what stands behind the headers.
    #[error("blocks pass the end of the payload")]
    BlocksPastTheEnd,
}

/// A block before the primary one (RFC 2198, 3).
#[derive(Debug, Clone, Copy, PartialEq, Eq)]
pub struct RedBlock<'a> {
    /// Its payload type: by that of FEC the caller knows that it bears no payload of the stream (RFC
    /// 5109, 14.2).
    pub payload_type: u8,
    /// How much earlier than the packet's its timestamp is, below 16384.
    pub timestamp_offset: u16,
    /// Its bytes, at most 1023.
    pub bytes: &'a [u8],
}

/// The blocks before the primary one that are left, in their order (RFC 2198, 3).
#[derive(Debug, Drop)]
pub struct RedBlocks<'a> {
    /// Their headers.
    headers: &'a [u8],
    /// What stands behind the headers.
    bytes: &'a [u8],
}

impl<'a> Model for RedBlocks<'a> {
    ghost use Rattle.std.specs.Prelude.{◌≤◌, List, length};
    ghost use Rattle.h26x_rtp.specs.Red.{BlockParts, blocks_in, blocks_size};

    ghost Value = { List BlockParts };

    ghost view = { λ it. blocks_in it.headers.now it.bytes.now };

    ghost invariant = { λ it. blocks_size it.headers.now ≤ length it.bytes.now };
}

/// A redundant payload (RFC 2198, 3).
#[derive(Debug, Drop)]
pub struct RedPayload<'a> {
    /// The blocks before the primary one.
    pub blocks: RedBlocks<'a>,
    /// The payload type of the primary block.
    pub payload_type: u8,
    /// The primary block: the payload that would be sent without redundancy.
    pub primary: &'a [u8],
}

/// How many bytes the headers before that of the primary block have.
fn headers_end(bytes: &[u8]) -> Option<usize>
    ensures end { result ≡ spec.headers_end bytes.now }
    ensures within { IfSome result (λ end. end < length bytes.now) }
{
    let mut end = 0;
    while end < bytes.len() {
        if bytes[end] < 128 {
            return Some(end);
        }
        end += HEADER_SIZE;
    }
    None
}

/// How many bytes a block has, by the last two bytes of its header.
fn size_of(third: u8, fourth: u8) -> usize
    ensures { result ≡ third % 4 * 256 + fourth }
{
    usize::from(third & 0x03) * 256 + usize::from(fourth)
}

/// A block's payload type, by the first byte of its header.
fn payload_type_of(first: u8) -> u8
    ensures { result ≡ first % 128 }
{
    first & 0x7f
}

/// A block's timestamp offset, by the second and third byte of its header.
fn offset_of(second: u8, third: u8) -> u16
    ensures { result ≡ second * 64 + third / 4 }
{
    u16::from(second) * 64 + u16::from(third >> 2)
}

/// How many bytes the blocks of headers have, where these are at most so many.
fn size_within(headers: &[u8], most: usize) -> Option<usize>
    ensures { MatchOption result (most < spec.blocks_size headers.now)
        (λ size. (size ≡ spec.blocks_size headers.now) × (size ≤ most)) }
{
    let mut left = most;
    let mut rest = headers;
    while rest.len() >= HEADER_SIZE {
        let size = size_of(rest[2], rest[3]);
        if left < size {
            return None;
        }
        left -= size;
        rest = rest.split_at(HEADER_SIZE).1;
    }
    Some(most - left)
}

/// A redundant payload by its headers, and what stands behind that of the primary block.
fn read_parts<'a>(
    headers: &'a [u8],
    payload_type: u8,
    bytes: &'a [u8],
) -> Result<RedPayload<'a>, RedError>
    ensures { IsReadAsRed result (spec.red_of_parts headers.now payload_type bytes.now) }
{
    let Some(size) = size_within(headers, bytes.len()) else {
        return Err(RedError::BlocksPastTheEnd);
    };
    let (_, primary) = bytes.split_at(size);
    Ok(RedPayload {
        blocks: RedBlocks { headers, bytes },
        payload_type,
        primary,
    })
}

/// A redundant payload, or why the bytes are none.
fn read_red(bytes: &[u8]) -> Result<RedPayload<'_>, RedError>
    ensures { IsReadAsRed result (spec.red_of bytes.now) }
{
    match headers_end(bytes) {
        Some(end) => {
            let (headers, rest) = bytes.split_at(end);
            let (_, behind) = rest.split_at(1);
            read_parts(headers, bytes[end], behind)
        }
        None => Err(RedError::HeadersPastTheEnd),
    }
}

impl<'a> RedPayload<'a> {
    /// Reads a redundant payload, or says why the bytes are none (RFC 2198, 3).
    pub fn read(bytes: &'a [u8]) -> Result<RedPayload<'a>, RedError>
        ensures read { IsReadAsRed result (spec.red_of bytes.now) }
        ensures spelled { IfOk result (λ it. spec.IsRed bytes.now (red_view it)) }
    {
        read_red(bytes)
    }
}

/// Writes a redundant payload of a primary block alone to the front of memory; how many bytes it has
/// (RFC 2198, 3).
pub fn write_red(payload_type: u8, payload: &[u8], to: &mut [u8]) -> Result<usize, RtpWriteError>
    requires { payload_type < 128 }
    ensures { IsBytesWritten (spec.red_bytes (record {
      blocks = [];
      payload_type = payload_type;
      primary = payload.now;
    })) to.old to.new result }
{
    write_behind(&[payload_type], payload, to)
}

impl<'a> RedBlock<'a> {
    /// Whether its payload type is one of these, as those of FEC that the session has.
    pub fn is_of(&self, payload_types: &[u8]) -> bool
        ensures { IsTrue result ↔ Contains payload_types.now self.now.payload_type }
    {
        payload_types.contains(&self.payload_type)
    }
}

impl<'a> RedBlocks<'a> {
    /// How many are left.
    pub fn left(&self) -> usize
        ensures { result ≡ length self.now }
    {
        self.headers.len() / HEADER_SIZE
    }
}

/// The next block of headers, and what is left of both.
fn first_block<'a>(headers: &[u8], bytes: &'a [u8]) -> (RedBlock<'a>, &'a [u8])
    requires long { 4 ≤ length headers.now }
    requires fits { spec.blocks_size headers.now ≤ length bytes.now }
    ensures first { spec.blocks_in headers.now bytes.now
        ≡ block_view result.0 ∷ spec.blocks_in (drop 4 headers.now) result.1.now }
    ensures left { spec.blocks_size (drop 4 headers.now) ≤ length result.1.now }
{
    let size = size_of(headers[2], headers[3]);
    let (block, rest) = bytes.split_at(size);
    let block = RedBlock {
        payload_type: payload_type_of(headers[0]),
        timestamp_offset: offset_of(headers[1], headers[2]),
        bytes: block,
    };
    (block, rest)
}

impl<'a> Iterator for RedBlocks<'a> {
    type Item = RedBlock<'a>;

    ghost use Rattle.std.specs.Iterator.{YieldsFirstBy, item_count};

    ghost next_gives = { YieldsFirstBy block_view (λ it. it) };

    ghost remaining = { item_count (λ it. it) };

    fn next(&mut self) -> Option<RedBlock<'a>> {
        if self.headers.len() < HEADER_SIZE {
            return None;
        }
        let (block, bytes) = first_block(self.headers, self.bytes);
        let (_, headers) = self.headers.split_at(HEADER_SIZE);
        *self = RedBlocks { headers, bytes };
        Some(block)
    }
}
