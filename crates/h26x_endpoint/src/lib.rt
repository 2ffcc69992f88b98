//! What stands behind a handle of the C library: an endpoint of a stream, or format parameters of SDP.
#![tactic(auto)]

pub mod endpoint;
