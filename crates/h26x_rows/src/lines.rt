//! Sessions of the program: what stands behind `> ` is a line as it is, and below it are its answers.

use crate::tally::Tally;
use anyhow::Result;
use std::alloc::Global;

/// Answers all lines of a text in one run, and compares.
pub fn walk<R: Print + AllocGlobal>(rt: &R, text: &str) -> Result<Tally> {
    let alloc = rt.alloc();
    let (mut lines, mut answers) = (String::new(alloc), String::new(alloc));
    let mut tally = Tally::new();
    for line in text.split('\n') {
        if let Some(line) = line.strip_prefix("> ") {
            lines.push_str(line)?;
            lines.push('\n')?;
            tally.rows = tally.rows.saturating_add(1);
        } else if !line.is_empty() && !line.starts_with('#') {
            answers.push_str(line)?;
            answers.push('\n')?;
        }
    }
    let answered = answered(alloc, lines.as_str())?;
    for (answer, wanted) in answered
        .split(|byte| *byte == b'\n')
        .zip(answers.split('\n'))
    {
        if answer != wanted.as_bytes() {
            tally.differing = 1;
            println!(rt; "differs: {wanted}\n  answered: {answer:?}")?;
            return Ok(tally);
        }
    }
    if answered.len() != answers.len() {
        tally.differing = 1;
        println!(rt; "differs: more or fewer answers")?;
    }
    Ok(tally)
}

/// What the program answers to lines.
fn answered(alloc: Global, lines: &str) -> Result<Vec<u8>> {
    let mut answers = Vec::new(alloc);
    h26x_lines::run(alloc, lines.as_bytes(), &mut answers)?;
    Ok(answers)
}
