//! The H.265 payload format (RFC 7798): a packetizer, a depacketizer that shows the packet that it
//! accepted last, PACI packets and the detection of keyframes, with the format's definitions and
//! their laws.
//!
//! ```rust
//! let mut packetizer = H265Packetizer::new(alloc);
//! let packets = packetizer.packetize(1200, frame)?;
//!
//! let mut out = Vec::new(alloc);
//! let mut depacketizer = H265Depacketizer::new(alloc);
//! let mut extra = CodecExtra::None;
//! for packet in &packets {
//!     depacketizer.depacketize(packet, &mut out, &mut extra)?;
//! }
//! ```
#![tactic(auto)]

mod aggregate;
mod cases;
mod codec;
mod depacketizer;
mod detect;
mod every;
pub mod laws;
mod lowest_header;
mod packet;
mod packetizer;
mod sending;
mod show;
mod shows;
mod spare;

pub use codec::{H265, H265Sending};
pub use depacketizer::H265Depacketizer;
pub use detect::detect_h265_keyframe;
pub use h26x_core::ANNEXB_NALUSTART_CODE;
pub use h26x_packetizer::{
    BufferMemory, BufferPackets, EveryUnitError, PacketBuffer, Packing, RefusedUnit, WhyRefused,
};
pub use h265_packets::{
    H265AggregationPacket, H265AggregationUnit, H265AggregationUnitFirst,
    H265FragmentationUnitPacket, H265PACIPacket, H265Payload, H265SingleNALUnitPacket,
};
pub use lowest_header::set_lowest_header;
pub use packetizer::H265Packetizer;
