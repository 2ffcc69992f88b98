//! The program's lines: inputs that are no text, and where reading, writing or memory fails. Sessions
//! are rows of `h26x_rows`, in `lines.txt`.

use h26x_lines::{RunError, run};
use std::alloc::Global;
use std::fmt;
use std::process::Abort;

mod answers;
mod digits;
mod faults;
mod inputs;
mod memory;
mod texts;

/// Compares two values of a case. Each assertion that shows its values is proved for itself, which
/// takes long, so this is the one that the tests share.
fn same<T: fmt::Debug + PartialEq>(rt: &impl Abort, made: &T, wanted: &T, at: &str) {
    assert_eq!(rt; *made, *wanted, "at {at}");
}

/// What a fresh session answers.
fn answered(alloc: Global, input: &[u8]) -> Result<Vec<u8>, RunError> {
    let mut output = Vec::new(alloc);
    run(alloc, input, &mut output)?;
    Ok(output)
}
