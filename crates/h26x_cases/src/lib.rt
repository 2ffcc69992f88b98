//! Worked cases of what receives numbered packets, and of which units are sent: each is the
//! contract of a function without a result.
#![tactic(auto)]

mod access_units;
mod every_unit;
mod receiver;
mod told_whole;
