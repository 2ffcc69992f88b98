//! The grammar of an `a=fmtp` value of SDP that H.264, H.265 and H.266 share (RFC 6184, section 8;
//! RFC 7798, section 7; RFC 9328, section 7): parameters, read and written by a table of them, the
//! kinds of their values, NAL units in base64, and what stands in an `a=rtpmap` line.
//!
//! The definitions that contracts cite stand in `specs/`.
#![tactic(auto)]

mod cases;
mod error;
pub mod kind;
pub mod laws;
mod names;
mod pairs;
pub mod parameters;
mod repair_map;
mod rtp_map;
mod table;
pub mod unit_types;
mod units;

pub use error::{Fault, ParametersError, UnitsError};
pub use kind::{Kind, number_in};
pub use names::same_name;
pub use pairs::{Pair, Pairs, closes, cut, pairs_of, push_pair, trimmed};
pub use parameters::{FormatParameters, OtherParameter};
pub use repair_map::{RepairFormat, RepairMap};
pub use rtp_map::{Encoding, RtpMap, RtpMapError, payload_type_in};
pub use table::{ParameterRow, row_of};
pub use unit_types::UnitTypes;
pub use units::{read_units, split_piece, write_units};
