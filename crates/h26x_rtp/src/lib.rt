//! RTP packets as a network brings them: the header read of any bytes and written (RFC 3550), the
//! elements of header extensions (RFC 8285), RTCP told from RTP (RFC 5761), and what bears other
//! packets, RTX (RFC 4588) and RED (RFC 2198). Nothing takes memory of its own.
#![tactic(auto)]

mod cases;
mod datagram;
mod elements;
mod error;
mod feedback;
mod header;
pub mod laws;
mod memory;
mod nack;
mod red;
mod report;
mod rtcp;
mod rtx;
mod statistics;
mod words;
mod writing;

pub use datagram::RtpDatagram;
pub use elements::{ElementForm, PlacedElement, RtpElement, RtpElementError, RtpElements};
pub use error::{RtpError, RtpWriteError};
pub use feedback::{FullIntraRequest, PictureLoss, ReceiverReport};
pub use header::{RtpExtension, RtpHeader};
pub use nack::{GenericNack, NackNumbers, NackPair, NackPairs, NackWritten, write_nack};
pub use red::{RedBlock, RedBlocks, RedError, RedPayload, write_red};
pub use report::ReportBlock;
pub use rtcp::{is_rtcp, split_rtcp};
pub use rtx::RtxPayload;
pub use statistics::RtpStatistics;
