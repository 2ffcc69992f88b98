//! Packets with their sequence numbers of RTP (RFC 3550, 5.1) through a depacketizer: no unit of which
//! a packet is missing is written, and no run grows past a limit.
//!
//! ```rust
//! let depacketizer = H264Depacketizer::new(alloc);
//! let mut receiver = SequencedDepacketizer::new(alloc, depacketizer, 4_000_000);
//! for (sequence, packet) in &packets {
//!     match receiver.receive(*sequence, packet, &mut out, &mut extra)? {
//!         Received::InOrder | Received::Late(_) => {}
//!         Received::Gap(_) | Received::TooLong(_) => ask_for_a_keyframe(),
//!     }
//! }
//! ```
#![tactic(auto)]

mod cases;
mod delivery;
pub mod laws;
mod received;
mod sequenced;

pub use delivery::receive_all;
pub use received::Received;
pub use sequenced::SequencedDepacketizer;
