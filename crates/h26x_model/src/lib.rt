//! The definitions that the contracts of packetizers and depacketizers cite, and their laws: what
//! calls send, what packets bring, and that the one is the other.
//!
//! The definitions stand in `specs/`: `Payload` says what sets the payload formats apart, `Send`
//! what a packetizer sends, `Receive` what a depacketizer receives, `Carry` what holds of both
//! together. [`laws`] are contracts of functions without a result.
#![tactic(auto)]

mod cases;
pub mod laws;
