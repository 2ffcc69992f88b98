//! The program: reads lines and prints the answers, as `h26x_lines` does them. The rows of
//! `h26x_rows` have what it answers; the tests here have inputs and outputs that fail, and digits.
#![tactic(auto)]

#[cfg(test)]
mod sessions;

pub use h26x_lines::{RunError, plain, run};
use std::io;
use std::process::ExitCode;

fn main(rt: HostRuntime) -> ExitCode {
    match run(rt.alloc(), rt.reader(), io::writer(&rt)) {
        Ok(()) => ExitCode::SUCCESS,
        Err(error) => {
            let _ = eprintln!(&rt; "{error}");
            ExitCode::FAILURE
        }
    }
}
