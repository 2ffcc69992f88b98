//! The format parameters of retransmission (RTX).

ghost use Rattle.std.specs.Prelude.{◌≡◌, IfOk};
ghost use Rattle.std.specs.Option.{option_and_then};
ghost use Rattle.h26x_fmtp.specs.Reading.{FormatParameters, read_of};
ghost use Rattle.h26x_fmtp.specs.ParametersViews.{value_view};
ghost use Rattle.h26x_sdp.specs.Rtx as spec;
ghost use Rattle.h26x_sdp.specs.RtxViews.{SaysRtx};

use crate::capability_points::number_text;
use crate::codec::{CodecParameter, CodecParameters};
use crate::error::RtxError;
use h26x_fmtp::kind::BITS_64;
use h26x_fmtp::{
    FormatParameters, Kind, ParameterRow, ParametersError, parameters, payload_type_in,
};
use std::alloc::{AllocError, Global};

/// What stands behind the payload type in an `a=fmtp` line of `rtx` (RFC 4588, sections 8.3 and 8.6).
///
/// ```rust
/// let format = RtxFormat::read(alloc, b"apt=96;rtx-time=3000")?;
/// assert_eq!(rt; format.payload_type, 96);
/// ```
#[derive(Debug, Clone, Copy, PartialEq, Eq)]
pub struct RtxFormat {
    /// `apt`: the payload type that the packets were first sent with, below 128.
    pub payload_type: u8,
    /// `rtx-time`: for how many milliseconds a packet can be sent again; not said where it's absent.
    pub rtx_time: Option<u64>,
}

/// A parameter of the table.
#[derive(Debug, Clone, Copy, PartialEq, Eq)]
pub(crate) enum RtxParameter {
    Apt,
    RtxTime,
}

/// The parameters of the table.
static ROWS: [ParameterRow; 2] = [
    ParameterRow {
        name: b"apt",
        kind: Kind::Number {
            least: 0,
            most: 127,
        },
        default: None,
    },
    ParameterRow {
        name: b"rtx-time",
        kind: BITS_64,
        default: None,
    },
];

impl CodecParameter for RtxParameter {
    ghost rows = { spec.rtx_rows };

    ghost place = { spec.rtx_place };

    fn rows() -> &'static [ParameterRow] {
        &ROWS
    }

    fn place(self) -> usize {
        self as usize
    }
}

/// The payload type that parameters say.
fn associated(it: &CodecParameters<RtxParameter>) -> Option<u8>
    ensures { result ≡ spec.associated it.now }
{
    payload_type_in(it.value(RtxParameter::Apt)?)
}

impl RtxFormat {
    /// Reads what stands behind the payload type. What is refused first is told: an `apt` above 127, a
    /// parameter that is no number, or one that is given twice; and where nothing is, that there is no
    /// `apt`. Parameters that RFC 4588 doesn't have are left out.
    pub fn read(alloc: Global, text: &[u8]) -> Result<RtxFormat, RtxError>
        ensures { SaysRtx result (spec.rtx_format_of text.now) }
    {
        let it = match CodecParameters::<RtxParameter>::read(alloc, text) {
            Ok(it) => it,
            Err(ParametersError::OutOfMemory) => return Err(RtxError::OutOfMemory),
            Err(fault) => return Err(RtxError::Parameters(fault)),
        };
        match associated(&it) {
            Some(payload_type) => Ok(RtxFormat {
                payload_type,
                rtx_time: it.number(RtxParameter::RtxTime),
            }),
            None => Err(RtxError::NoPayloadType),
        }
    }

    /// Writes what stands behind the payload type. It is read as the same.
    pub fn write(self, alloc: Global) -> Result<Vec<u8>, AllocError>
        ensures { IfOk result (λ text. text.items ≡ spec.rtx_format_text self) }
    {
        let payload_type = self.payload_type;
        let mut values = Vec::with_capacity(alloc, 2)?;
        values.push(Some(format!(in alloc; "{payload_type}")?.into_bytes()))?;
        values.push(number_text(alloc, self.rtx_time)?)?;
        let others = Vec::new(alloc);
        parameters::write(alloc, &ROWS, &FormatParameters { values, others })
    }
}
