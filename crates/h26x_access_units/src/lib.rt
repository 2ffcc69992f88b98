//! RTP packets as they come from a network, in any order, some lost and some twice, and out of them
//! access units of H.264, H.265 or H.266, one after the other: a jitter buffer with a window, a time
//! and a limit on bytes before an assembler.
#![tactic(auto)]

mod account_cases;
mod anew;
mod arrival;
mod bits;
mod cases;
mod config;
mod content;
mod counts;
mod decoder;
mod due;
mod frame_cases;
mod frame_number;
mod framing;
mod jitter;
pub mod laws;
mod nack_cases;
mod nacks;
mod numbers;
mod passed;
mod pushed;
mod receiver;
mod short;
mod told_cases;
mod unit;
mod way;
mod whole_cases;

pub use arrival::Arrival;
pub use config::AccessUnitConfig;
pub use counts::Counts;
pub use jitter::JitterBuffer;
pub use nacks::{Nack, NackTimes, Nacks};
pub use numbers::AccessUnitNumbers;
pub use pushed::{NotPushed, NotPushedReason, Pushed};
pub use receiver::{AccessUnitReceiver, Receives};
pub use unit::ReceivedAccessUnit;
