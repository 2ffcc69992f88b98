//! The packetizers and depacketizers of all codecs behind one type each, with a caller's own, and
//! whole transmissions through them: calls through both endpoints ([`carry`]), packets of any peer
//! ([`take_all`]), and payloads sent, written and sent again ([`again`]).
//!
//! ```rust
//! let mut packetizer = CodecPacketizer::new(alloc, Codec::H266);
//! let packets = packetizer.packetize(1200, frame)?;
//!
//! let mut out = Vec::new(alloc);
//! let mut depacketizer = CodecDepacketizer::new(alloc, Codec::H266);
//! let mut extra = CodecExtra::None;
//! for packet in &packets {
//!     depacketizer.depacketize(packet, &mut out, &mut extra)?;
//! }
//! ```
#![tactic(auto)]

mod carried;
mod cases;
mod depacketizer;
pub mod laws;
mod packetizer;
mod repeated;
mod take;
mod transmissions;

pub use carried::{Carried, Marks, Packets};
pub use depacketizer::CodecDepacketizer;
pub use packetizer::CodecPacketizer;
pub use repeated::{Repeated, again};
pub use take::take_all;
pub use transmissions::carry;
