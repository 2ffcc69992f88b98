//! Which codecs there are, and the packetizers and depacketizers of a codec that is chosen when they
//! are made, one type for all codecs.
//!
//! ```rust
//! let mut depacketizer = AnyDepacketizer::new(alloc, Codec::H266);
//! depacketizer.depacketize(packet, &mut out, &mut extra)?;
//! ```
#![tactic(auto)]

mod any_depacketizer;
mod any_packetizer;
mod any_payload_depacketizer;
mod cases;
mod codec;
mod every_unit;
pub mod formats;
mod keyframe;
pub mod laws;
mod plain;

pub use any_depacketizer::AnyDepacketizer;
pub use any_packetizer::AnyPacketizer;
pub use any_payload_depacketizer::AnyPayloadDepacketizer;
pub use codec::Codec;
pub use every_unit::{refused_among_all, sent_units};
pub use h26x_packetizer::{
    BufferMemory, BufferPackets, EveryUnitError, PacketBuffer, Packing, RefusedUnit, WhyRefused,
};
