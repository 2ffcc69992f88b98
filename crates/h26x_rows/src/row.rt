//! Rows of a text: a call a line, with what comes of it behind `=`.

use anyhow::{Context, Result, bail};
use std::alloc::Global;
use std::str::SplitWhitespace;

/// The words of a call, behind its name.
pub type Words<'a> = SplitWhitespace<'a>;

/// A call, and its answers.
#[derive(Clone, Copy)]
pub struct Row<'a> {
    /// The line, without what says that it takes no memory.
    pub line: &'a str,
    /// Whether the call takes no memory: it succeeds whatever is refused.
    pub is_free: bool,
    call: &'a str,
    /// The answer where there is memory, and behind ` | ` those that are right where it lacked.
    pub answers: &'a str,
}

impl<'a> Row<'a> {
    /// The row of a line, if it isn't for the reader alone.
    fn of(line: &'a str) -> Option<Row<'a>> {
        if line.is_empty() || line.starts_with('#') {
            return None;
        }
        let (line, is_free) = match line.strip_prefix("free ") {
            Some(line) => (line, true),
            None => (line, false),
        };
        let (call, answers) = line.split_once(" =").unwrap_or((line, ""));
        Some(Row {
            line,
            is_free,
            call,
            answers,
        })
    }

    /// The name of the call, and its further words.
    pub fn words(&self) -> (&'a str, Words<'a>) {
        let mut words = self.call.split_whitespace();
        (words.next().unwrap_or(""), words)
    }
}

/// The rows of a text.
pub fn rows_of(alloc: Global, text: &str) -> Result<Vec<Row<'_>>> {
    let mut rows = Vec::new(alloc);
    for line in text.lines() {
        if let Some(row) = Row::of(line) {
            rows.push(row)?;
        }
    }
    Ok(rows)
}

/// The next word, which has to be there.
pub fn word<'a>(words: &mut Words<'a>) -> Result<&'a str> {
    words.next().context("a word is missing")
}

/// The next word as a number.
pub fn number(words: &mut Words<'_>) -> Result<usize> {
    let word = word(words)?;
    let read = word.parse::<usize>();
    read.context(format_args!("{word} is no number"))
}

/// The next word as a number of one byte.
pub fn byte(words: &mut Words<'_>) -> Result<u8> {
    let word = word(words)?;
    let read = word.parse::<u8>();
    read.context(format_args!("{word} is no number of a byte"))
}

/// The next word, which is `yes` or `no`.
pub fn fact(words: &mut Words<'_>) -> Result<bool> {
    match word(words)? {
        "yes" => Ok(true),
        "no" => Ok(false),
        word => bail!("{word} is neither yes nor no"),
    }
}

/// Appends a word with all its digits: `+` joins parts, and `aa*3` is `aa` three times.
pub fn spell_out(to: &mut String, word: &str) -> Result<()> {
    for part in word.split('+') {
        let (digits, times) = part.split_once('*').unwrap_or((part, "1"));
        let times = times.parse::<u32>();
        for _ in 0..times.context("no number behind a star")? {
            to.push_str(digits)?;
        }
    }
    Ok(())
}

/// The bytes of a word; `-` has none.
pub fn bytes_of(alloc: Global, word: &str) -> Result<Vec<u8>> {
    if word == "-" {
        return Ok(Vec::new(alloc));
    }
    let mut digits = String::new(alloc);
    spell_out(&mut digits, word)?;
    let read = hex::decode(alloc, digits.as_bytes());
    read.context(format_args!("{word} has no bytes"))
}

/// The next word as bytes.
pub fn bytes(alloc: Global, words: &mut Words<'_>) -> Result<Vec<u8>> {
    bytes_of(alloc, word(words)?)
}

/// An answer in full, with a space behind each word; `3:aabb` stands for three words `aabb`.
pub fn in_full(alloc: Global, answer: &str) -> Result<String> {
    let mut full = String::new(alloc);
    for word in answer.split_whitespace() {
        let (times, word) = times_of(word);
        for _ in 0..times {
            spell_out(&mut full, word)?;
            full.push(' ')?;
        }
    }
    Ok(full)
}

/// How often a word stands, and the word.
fn times_of(word: &str) -> (u32, &str) {
    if let Some((times, rest)) = word.split_once(':')
        && let Ok(times) = times.parse::<u32>()
    {
        return (times, rest);
    }
    (1, word)
}
