//! The value of an `a=rtpmap` line of what goes beside video.

ghost use Rattle.std.specs.Prelude.{◌≡◌, IfOk};
ghost use Rattle.h26x_fmtp.specs.RepairMaps as spec;

use crate::names::same_name;
use crate::pairs::{cut, trimmed};
use crate::rtp_map::{RtpMapError, payload_type_in};
use std::alloc::{AllocError, Global};

/// What goes beside video in a session, by the name that stands in an `a=rtpmap` line.
#[derive(Debug, Clone, Copy, PartialEq, Eq)]
pub enum RepairFormat {
    /// `rtx`: packets that are sent again (RFC 4588, section 8.3). `apt` of its `a=fmtp` line is the
    /// payload type that they were sent with.
    Rtx,
    /// `red`: payloads with others before them (RFC 2198, section 5), which bear their payload types.
    Red,
    /// `ulpfec`: forward error correction (RFC 5109, section 13.2).
    Ulpfec,
    /// `flexfec`: forward error correction (RFC 8627, section 5.1.2).
    Flexfec,
    /// `flexfec-03`: the same by the third draft of RFC 8627, as browsers send it.
    Flexfec03,
}

/// A payload type of what goes beside video, with the video's clock rate, 90000: what stands behind
/// `a=rtpmap:` (RFC 8866, section 6.6). That of audio, as `red/48000/2`, is refused by its clock rate.
///
/// ```rust
/// let map = RepairMap::read(b"97 rtx/90000")?;
/// assert_eq!(rt; map.payload_type, 97);
/// ```
#[derive(Debug, Clone, Copy, PartialEq, Eq)]
pub struct RepairMap {
    /// The payload type, below 128.
    pub payload_type: u8,
    /// What it is of.
    pub format: RepairFormat,
}

impl RepairFormat {
    /// The format of a name, without regard to case.
    pub fn of_name(name: &[u8]) -> Option<RepairFormat>
        ensures { result ≡ spec.repair_format_of name.now }
    {
        if same_name(b"rtx", name) {
            Some(RepairFormat::Rtx)
        } else if same_name(b"red", name) {
            Some(RepairFormat::Red)
        } else if same_name(b"ulpfec", name) {
            Some(RepairFormat::Ulpfec)
        } else if same_name(b"flexfec", name) {
            Some(RepairFormat::Flexfec)
        } else if same_name(b"flexfec-03", name) {
            Some(RepairFormat::Flexfec03)
        } else {
            None
        }
    }

    /// Its name.
    pub fn name(self) -> &'static str
        ensures { result.now ≡ spec.repair_format_name self }
    {
        match self {
            RepairFormat::Rtx => "rtx",
            RepairFormat::Red => "red",
            RepairFormat::Ulpfec => "ulpfec",
            RepairFormat::Flexfec => "flexfec",
            RepairFormat::Flexfec03 => "flexfec-03",
        }
    }
}

/// What the parts of a line say.
fn of_parts(
    payload_type: Option<u8>,
    format: Option<RepairFormat>,
    clock: &[u8],
) -> Result<RepairMap, RtpMapError>
    ensures { result ≡ spec.of_parts payload_type format clock.now }
{
    let rate = b"90000";
    match (payload_type, format) {
        (None, _) => Err(RtpMapError::PayloadType),
        (Some(_), None) => Err(RtpMapError::Encoding),
        (Some(_), Some(_)) if clock != rate.as_slice() => Err(RtpMapError::ClockRate),
        (Some(payload_type), Some(format)) => Ok(RepairMap {
            payload_type,
            format,
        }),
    }
}

impl RepairMap {
    /// Reads what stands behind `a=rtpmap:`, without regard to the case of the name. What is wrong
    /// first is told, as by [`RtpMap::read`](crate::RtpMap::read), which reads a codec's. It takes no
    /// memory.
    pub fn read(text: &[u8]) -> Result<RepairMap, RtpMapError>
        ensures { result ≡ spec.repair_map_of text.now }
    {
        let (payload_type, rest) = cut(trimmed(text), b' ');
        let (name, clock) = cut(trimmed(rest), b'/');
        let (payload_type, format) = (payload_type_in(payload_type), RepairFormat::of_name(name));
        of_parts(payload_type, format, clock)
    }

    /// Writes what stands behind `a=rtpmap:`. It is read as the same.
    pub fn write(self, alloc: Global) -> Result<Vec<u8>, AllocError>
        ensures { IfOk result (λ text. text.items ≡ spec.repair_map_text self) }
    {
        let (payload_type, name) = (self.payload_type, self.format.name());
        Ok(format!(in alloc; "{payload_type} {name}/90000")?.into_bytes())
    }
}
