//! The H.264 payload format (RFC 6184): a packetizer, a depacketizer and the detection of
//! keyframes, with the format's definitions and their laws.
//!
//! ```rust
//! let mut packetizer = H264Packetizer::new(alloc);
//! let packets = packetizer.packetize(1200, frame)?;
//!
//! let mut out = Vec::new(alloc);
//! let mut depacketizer = H264Depacketizer::new(alloc);
//! let mut extra = CodecExtra::None;
//! for packet in &packets {
//!     depacketizer.depacketize(packet, &mut out, &mut extra)?;
//! }
//! ```
#![tactic(auto)]

mod cases;
mod codec;
mod depacketizer;
mod detect;
mod every;
pub mod laws;
mod packet;
mod packetizer;
mod stap;

pub use codec::H264;
pub use depacketizer::H264Depacketizer;
pub use detect::{detect_h264_keyframe, detect_h264_nalu};
pub use h26x_core::ANNEXB_NALUSTART_CODE;
pub use h26x_packetizer::{
    BufferMemory, BufferPackets, EveryUnitError, PacketBuffer, Packing, RefusedUnit, WhyRefused,
};
pub use packetizer::H264Packetizer;
