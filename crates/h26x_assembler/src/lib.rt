//! Access units of packets that come in the order of their sequence numbers, or that a reorder buffer
//! puts in that order, by their timestamps and markers (RFC 3550, 5.1).
#![tactic(auto)]

mod access_unit;
mod answers;
mod assemble;
mod assembler;
pub mod laws;
mod spare;

pub use access_unit::{AccessUnit, OpenAccessUnit, UnitsSoFar};
pub use assemble::assemble_all;
pub use assembler::AccessUnitAssembler;
