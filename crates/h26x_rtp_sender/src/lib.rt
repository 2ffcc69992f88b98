//! From the packets of access units to RTP packets: headers and numbers (RFC 3550), and a history of
//! what was sent, out of which packets that were lost go again, by RTX too (RFC 4588).
#![tactic(auto)]

mod cases;
mod count;
mod error;
mod history;
pub mod laws;
mod payloads;
mod sender;
mod sent;
mod stream;
mod unit;

pub use count::SentCount;
pub use error::RtpSendError;
pub use payloads::are_in_memory;
pub use sender::RtpSender;
pub use stream::RtpStream;
