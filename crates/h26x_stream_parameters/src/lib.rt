//! The format parameters that a stream says of itself (RFC 6184, section 8.1; RFC 7798, section 7.1;
//! RFC 9328, section 7.2): profile and level and its parameter sets, and whether its units can be sent
//! in single NAL unit packets alone.
//!
//! The definitions that contracts cite stand in `specs/`.
#![tactic(auto)]

mod cases;
mod error;
mod from_stream;
mod single_units;
mod unescaped;

pub use error::StreamError;
pub use from_stream::{
    h264_of_payload, h264_of_units, h265_of_payload, h265_of_units, h266_of_payload, h266_of_units,
};
pub use single_units::fits_single_units;
