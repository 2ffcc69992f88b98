//! What the jobs of `h26x_jobs` work on: pictures, payloads, packets and lines that a seed makes, and
//! the order in which a network brings packets.
#![tactic(auto)]

mod aggregate;
mod awkward;
mod draws;
mod network;
mod packets;
mod session;
mod setting;
mod small;
mod stream;

pub use aggregate::aggregates;
pub use awkward::{awkward_payloads, fragments};
pub use draws::Draws;
pub use network::arrivals;
pub use packets::{FIRST_UNIT, LIMIT, Packet, packets_of, stamp_all, stamp_end};
pub use session::{Session, session_of};
pub use setting::{SETTINGS, Setting};
pub use small::small_payloads;
pub use stream::{Picture, pictures, small_pictures, stamp_at};
