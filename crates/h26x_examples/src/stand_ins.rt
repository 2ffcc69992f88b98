//! What stands in the examples for a caller's own code.

/// Stands for a socket that sends a packet.
pub fn send(_packet: &[u8]) {}

/// Stands for whatever a caller does with a value.
pub fn look_at<T: Drop>(_value: T) {}

/// Stands for a request to a peer to send a keyframe (RFC 4585, 6.3.1; RFC 5104, 4.3.1).
pub fn ask_for_a_keyframe() {}
