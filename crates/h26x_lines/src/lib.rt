//! Lines that cut payloads of H.264, H.265 and H.266 into RTP payloads and put them together, and
//! the answers to them. `src/line.rt` says what the lines are.
#![tactic(auto)]

pub mod answers;
mod cases;
pub mod digits;
mod error;
mod from_digits;
pub mod laws;
mod line;
pub mod plain;
mod session;
mod settings;
mod to_digits;

pub use error::RunError;
pub use session::run;
