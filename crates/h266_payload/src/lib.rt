//! The H.266 payload format (RFC 9328): a packetizer, a depacketizer and the detection of
//! keyframes, with the format's definitions and their laws.
//!
//! ```rust
//! let mut packetizer = H266Packetizer::new(alloc);
//! let packets = packetizer.packetize(1200, frame)?;
//!
//! let mut out = Vec::new(alloc);
//! let mut depacketizer = H266Depacketizer::new(alloc);
//! let mut extra = CodecExtra::None;
//! for packet in &packets {
//!     depacketizer.depacketize(packet, &mut out, &mut extra)?;
//! }
//! ```
#![tactic(auto)]

mod aggregate;
mod cases;
mod codec;
mod depacketizer;
mod detect;
mod every;
pub mod laws;
mod packet;
mod packetizer;

pub use codec::H266;
pub use depacketizer::H266Depacketizer;
pub use detect::detect_h266_keyframe;
pub use h26x_core::ANNEXB_NALUSTART_CODE;
pub use h26x_packetizer::{
    BufferMemory, BufferPackets, EveryUnitError, PacketBuffer, Packing, RefusedUnit, WhyRefused,
};
pub use packetizer::H266Packetizer;
