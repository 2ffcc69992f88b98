//! The numbers by which calls of the C library answer, and the copies into a caller's buffers.
#![tactic(auto)]

pub mod cases;
pub mod code;
pub mod copy;
