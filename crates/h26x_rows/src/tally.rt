//! Rows compared with what is answered to them.

use crate::row::{Row, Words, in_full, rows_of};
use crate::said::Said;
use anyhow::{Context, Result, ensure};
use std::alloc::Global;

/// How many bytes of an answer are printed.
const LONGEST: usize = 400;

/// How many rows were walked, and how many differ.
#[derive(Clone, Copy)]
pub struct Tally {
    pub rows: usize,
    pub differing: usize,
}

impl Tally {
    /// No row yet.
    pub fn new() -> Self {
        Tally {
            rows: 0,
            differing: 0,
        }
    }

    /// Adds those of another.
    pub fn add(&mut self, other: Tally) {
        self.rows = self.rows.saturating_add(other.rows);
        self.differing = self.differing.saturating_add(other.differing);
    }

    /// Counts a row, and prints it where another answer was given, or where memory lacked.
    pub fn count<R: Print + AllocGlobal>(
        &mut self,
        rt: &R,
        row: &Row<'_>,
        said: &Said,
    ) -> Result<()> {
        self.rows = self.rows.saturating_add(1);
        let line = row.line;
        if let Some(is_first) = place_of(rt.alloc(), row, said)? {
            if !is_first || said.has_lacked() {
                println!(rt; "memory lacked: {line}")?;
            }
            return Ok(());
        }
        self.differing = self.differing.saturating_add(1);
        let answer = said.text();
        let front = answer.get(..LONGEST).unwrap_or(answer);
        println!(rt; "differs: {line}\n  answered: {front}")?;
        Ok(())
    }
}

/// Whether what was said is the first of a row's answers, if it is one of them.
fn place_of(alloc: Global, row: &Row<'_>, said: &Said) -> Result<Option<bool>> {
    if row.is_free && said.has_lacked() {
        return Ok(None);
    }
    let mut is_first = true;
    for answer in row.answers.split(" | ") {
        if in_full(alloc, answer)?.as_str() == said.text() {
            return Ok(Some(is_first));
        }
        is_first = false;
    }
    Ok(None)
}

/// What answers calls one after the other.
pub trait Answers {
    /// Makes a call, and says what comes of it.
    fn answer(
        &mut self,
        alloc: Global,
        name: &str,
        words: &mut Words<'_>,
        said: &mut Said,
    ) -> Result<()>;
}

/// Makes the calls of a text, and compares each answer.
pub fn walk<R: Print + AllocGlobal, A: Answers>(rt: &R, text: &str, end: &mut A) -> Result<Tally> {
    let mut tally = Tally::new();
    let mut said = Said::new(rt.alloc());
    for row in &rows_of(rt.alloc(), text)? {
        said.clear();
        let (name, mut words) = row.words();
        let answered = end.answer(rt.alloc(), name, &mut words, &mut said);
        if !said.is_refused() {
            let line = row.line;
            answered.context(format_args!("at {line}"))?;
            ensure!(words.next().is_none(), "a word too many at {line}");
        }
        tally.count(rt, row, &said)?;
    }
    Ok(tally)
}
