//! RTP packets and headers written to memory of the caller (RFC 3550, 5.1).

ghost use Rattle.std.specs.Prelude.{◌≡◌, ◌<◌, ◌≤◌, ◌+◌, ◌/◌, ◌^◌, ◌++◌, ◌↔◌, IsTrue, true, length};
ghost use Rattle.std.specs.Option.{option_map};
ghost use Rattle.h26x_core.specs.Word.{word};
ghost use Rattle.h26x_rtp.specs.Datagram.{AreWords, ExtensionFits, HeaderFits, IsPadding, fixed_bytes, extension_bytes, datagram_header, datagram_bytes, is_there};
ghost use Rattle.h26x_rtp.specs.Memory.{overwritten};
ghost use Rattle.h26x_rtp.specs.Views.{extension_view, header_view, datagram_view};
ghost use Rattle.h26x_rtp.specs.Writing.{IsHeaderTest, IsHeaderWritten, IsDatagramTest, IsDatagramWritten, told_size};

use crate::datagram::{FIXED_SIZE, RtpDatagram};
use crate::error::RtpWriteError;
use crate::header::{RtpExtension, RtpHeader};
use crate::memory::put;

/// How many bytes 15 CSRCs have (RFC 3550, 5.1).
const LONGEST_CSRCS: usize = 60;

/// How many bytes the longest extension has behind its length (RFC 3550, 5.3.1).
const LONGEST_EXTENSION: usize = 262140;

/// Whether there are bytes.
fn is_there(bytes: &[u8]) -> bool
    ensures { result ≡ is_there bytes.now }
{
    !bytes.is_empty()
}

/// Whether bytes are whole words, at most so many bytes.
fn are_words(bytes: &[u8], longest: usize) -> bool
    requires { longest < 2 ^ 32 }
    ensures { IsTrue result ↔ AreWords bytes.now (longest + 1) }
{
    bytes.len() % 4 == 0 && bytes.len() <= longest
}

/// Whether an extension has a place in a header.
fn extension_fits(extension: Option<RtpExtension<'_>>) -> bool
    ensures { IsTrue result ↔ ExtensionFits (option_map extension_view extension.entry) }
{
    match extension {
        Some(extension) => are_words(extension.bytes, LONGEST_EXTENSION),
        None => true,
    }
}

/// Whether the last byte of padding says how long it is.
fn is_padding(padding: &[u8]) -> bool
    ensures { IsTrue result ↔ IsPadding padding.now }
{
    padding.is_empty() || usize::from(padding[padding.len() - 1]) == padding.len()
}

/// What stands before the words of an extension (RFC 3550, 5.3.1).
fn extension_head(extension: RtpExtension<'_>) -> [u8; 4]
    requires { ExtensionFits (Some (extension_view extension)) }
    ensures { result ≡ word extension.entry.profile ++ word (length extension.entry.bytes.now / 4) }
{
    let [a, b] = extension.profile.to_be_bytes();
    let [c, d] = ((extension.bytes.len() / 4) as u16).to_be_bytes();
    [a, b, c, d]
}

/// Writes an extension at a place; the place behind it (RFC 3550, 5.3.1).
fn put_extension(extension: Option<RtpExtension<'_>>, place: usize, to: &mut [u8]) -> usize
    requires fits { ExtensionFits (option_map extension_view extension) }
    requires room { place + length (extension_bytes (option_map extension_view extension))
        ≤ length to.old }
    ensures written { to.new ≡ overwritten place
        (extension_bytes (option_map extension_view extension.entry)) to.old }
    ensures end { result
        ≡ place + length (extension_bytes (option_map extension_view extension.entry)) }
{
    match extension {
        Some(extension) => {
            let behind = put(&extension_head(extension), place, to);
            put(extension.bytes, behind, to)
        }
        None => place,
    }
}

impl<'a> RtpHeader<'a> {
    /// Whether every part has a place in a header, or the first that has none.
    pub(crate) fn test(self) -> Result<(), RtpWriteError>
        ensures { IsHeaderTest (header_view self.entry) result }
    {
        if self.payload_type > 127 {
            return Err(RtpWriteError::PayloadType);
        }
        if !are_words(self.csrcs, LONGEST_CSRCS) {
            return Err(RtpWriteError::Csrcs);
        }
        if !extension_fits(self.extension) {
            return Err(RtpWriteError::Extension);
        }
        Ok(())
    }

    /// How many bytes it has.
    pub(crate) fn size(self) -> usize
        requires { HeaderFits (header_view self) }
        ensures { result ≡ length (datagram_header (header_view self.entry) true) }
    {
        let extension = match self.extension {
            Some(extension) => 4 + extension.bytes.len(),
            None => 0,
        };
        FIXED_SIZE + self.csrcs.len() + extension
    }

    /// The 12 bytes that every header has.
    fn fixed(self, padded: bool) -> [u8; 12]
        requires { HeaderFits (header_view self) }
        ensures { result ≡ fixed_bytes (header_view self.entry) padded }
    {
        let p = if padded { 32 } else { 0 };
        let x = if self.extension.is_some() { 16 } else { 0 };
        let m = if self.marker { 128 } else { 0 };
        let first = 128 + p + x + (self.csrcs.len() / 4) as u8;
        let [s0, s1] = self.sequence.to_be_bytes();
        let [t0, t1, t2, t3] = self.timestamp.to_be_bytes();
        let [r0, r1, r2, r3] = self.ssrc.to_be_bytes();
        [
            first,
            m + self.payload_type,
            s0,
            s1,
            t0,
            t1,
            t2,
            t3,
            r0,
            r1,
            r2,
            r3,
        ]
    }

    /// Writes it at a place; the place behind it.
    pub(crate) fn put(self, padded: bool, place: usize, to: &mut [u8]) -> usize
        requires fits { HeaderFits (header_view self) }
        requires room { place + length (datagram_header (header_view self) padded)
            ≤ length to.old }
        ensures written { to.new
            ≡ overwritten place (datagram_header (header_view self.entry) padded) to.old }
        ensures end { result ≡ place + length (datagram_header (header_view self.entry) padded) }
    {
        let behind = put(&self.fixed(padded), place, to);
        let behind = put(self.csrcs, behind, to);
        put_extension(self.extension, behind, to)
    }

    /// Writes it so that it ends at a place, where a payload begins; where it begins, or why it isn't
    /// written (RFC 3550, 5.1). `padded` is P: whether the packet ends in padding.
    ///
    /// ```rust
    /// let start = header.write_before(false, headroom, &mut buffer)?;
    /// send(&buffer[start..]);
    /// ```
    pub fn write_before(
        self,
        padded: bool,
        place: usize,
        to: &mut [u8],
    ) -> Result<usize, RtpWriteError>
        ensures { IsHeaderWritten (header_view self.entry) padded place to.old to.new result }
    {
        self.test()?;
        let size = self.size();
        if to.len() < place || place < size {
            return Err(RtpWriteError::NoRoom(size));
        }
        self.put(padded, place - size, to);
        Ok(place - size)
    }
}

impl<'a> RtpDatagram<'a> {
    /// Whether every part has a place in a packet, or the first that has none.
    fn test(self) -> Result<(), RtpWriteError>
        ensures { IsDatagramTest (datagram_view self.entry) result }
    {
        self.header.test()?;
        if !is_padding(self.padding) {
            return Err(RtpWriteError::Padding);
        }
        Ok(())
    }

    /// How many bytes it has; the greatest number where they are more.
    fn size(self) -> usize
        requires { HeaderFits (header_view self.header) }
        ensures { result ≡ told_size (datagram_bytes (datagram_view self.entry)) }
    {
        let size = self.header.size().saturating_add(self.payload.len());
        size.saturating_add(self.padding.len())
    }

    /// Writes it to the front of memory where there is room for it.
    fn put(self, to: &mut [u8])
        requires fits { HeaderFits (header_view self.header) }
        requires room { length (datagram_bytes (datagram_view self)) ≤ length to.old }
        ensures { to.new ≡ overwritten 0 (datagram_bytes (datagram_view self.entry)) to.old }
    {
        let behind = self.header.put(is_there(self.padding), 0, to);
        let behind = put(self.payload, behind, to);
        put(self.padding, behind, to);
    }

    /// Writes the packet to the front of memory; how many bytes it has, or why it isn't written
    /// (RFC 3550, 5.1). It is read as the same.
    pub fn write(self, to: &mut [u8]) -> Result<usize, RtpWriteError>
        ensures { IsDatagramWritten (datagram_view self.entry) to.old to.new result }
    {
        self.test()?;
        let size = self.size();
        if to.len() < size {
            return Err(RtpWriteError::NoRoom(size));
        }
        self.put(to);
        Ok(size)
    }
}
