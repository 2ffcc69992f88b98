//! Payloads cut into units, and beside them what a plain forward scan finds.

use crate::row::{Words, bytes, number, word};
use crate::said::Said;
use crate::tally::Answers;
use anyhow::{Result, bail};
use h26x_cut::{ZeroRule, units};
use std::alloc::Global;

/// Each row is of a payload, or of many.
#[derive(Drop)]
pub struct Cutting;

impl Answers for Cutting {
    fn answer(
        &mut self,
        alloc: Global,
        name: &str,
        words: &mut Words<'_>,
        said: &mut Said,
    ) -> Result<()> {
        match name {
            "units" => say_units(alloc, words, said),
            "scan" => scan_each(alloc, words, said),
            "scan-places" => scan_places(alloc, words, said),
            _ => bail!("no call {name}"),
        }
    }
}

/// The rule of the zeros before a start code that a word names.
fn rule_of(words: &mut Words<'_>) -> Result<ZeroRule> {
    match word(words)? {
        "all" => Ok(ZeroRule::All),
        "at-most-three" => Ok(ZeroRule::AtMostThree),
        word => bail!("no rule {word}"),
    }
}

fn say_units(alloc: Global, words: &mut Words<'_>, said: &mut Said) -> Result<()> {
    let rule = rule_of(words)?;
    let payload = bytes(alloc, words)?;
    for unit in units(&payload, rule) {
        said.bytes(unit)?;
    }
    Ok(())
}

/// The units of a payload by a plain forward scan: a start code ends at a byte 01 behind two zeros,
/// and takes the further zeros before it, all of them or one.
fn plain_units(alloc: Global, payload: &[u8], rule: ZeroRule) -> Result<Vec<Vec<u8>>> {
    let mut found = Vec::new(alloc);
    let mut unit = Vec::new(alloc);
    let mut is_in_front = true;
    let mut zeros = 0usize;
    for byte in payload {
        if *byte == 1 && zeros >= 2 {
            let further = match rule {
                ZeroRule::All => zeros - 2,
                ZeroRule::AtMostThree => (zeros - 2).min(1),
            };
            let kept = unit.len().saturating_sub(further.saturating_add(2));
            unit.truncate(kept);
            if !unit.is_empty() && !is_in_front {
                found.push(unit.clone()?)?;
            }
            is_in_front = false;
            unit.clear();
        } else {
            unit.push(*byte)?;
        }
        zeros = if *byte == 0 {
            zeros.saturating_add(1)
        } else {
            0
        };
    }
    if !unit.is_empty() {
        found.push(unit)?;
    }
    Ok(found)
}

/// Whether the plain scan finds the same units under each rule.
fn is_as_by_the_plain_scan(alloc: Global, payload: &[u8]) -> Result<bool> {
    for rule in [ZeroRule::All, ZeroRule::AtMostThree] {
        let plain = plain_units(alloc, payload, rule)?;
        let mut wanted = plain.iter();
        for unit in units(payload, rule) {
            if !wanted.next().is_some_and(|plain| plain.as_slice() == unit) {
                return Ok(false);
            }
        }
        if wanted.next().is_some() {
            return Ok(false);
        }
    }
    Ok(true)
}

/// The same of a payload as it is, behind a start code, and with more bytes on each side.
fn is_so_anywhere(alloc: Global, payload: &[u8]) -> Result<bool> {
    let mut longer = Vec::new(alloc);
    longer.extend_from_slice(&[0, 0, 1])?;
    longer.extend_from_slice(payload)?;
    let mut around = vec![in alloc; 0x41; 70]?;
    around.extend_from_slice(payload)?;
    around.resize(around.len().saturating_add(70), 0x41)?;
    Ok(
        is_as_by_the_plain_scan(alloc, payload)?
            && is_as_by_the_plain_scan(alloc, &longer)?
            && is_as_by_the_plain_scan(alloc, &around)?,
    )
}

/// The next text of the digits 0, 1 and 2 of the same length, if there is one.
fn is_next(digits: &mut [u8]) -> bool {
    for digit in digits {
        if *digit < 2 {
            *digit += 1;
            return true;
        }
        *digit = 0;
    }
    false
}

/// Counts the payloads of at most so many bytes 00, 01 and 02 in which the plain scan finds the same.
fn scan_each(alloc: Global, words: &mut Words<'_>, said: &mut Said) -> Result<()> {
    let longest = number(words)?;
    let mut count = 0u32;
    for len in 0..=longest.min(9) {
        let mut payload = vec![in alloc; 0u8; len]?;
        for _ in 0..20_000u32 {
            if !is_so_anywhere(alloc, &payload)? {
                return said.bytes(&payload);
            }
            count = count.saturating_add(1);
            if !is_next(&mut payload) {
                break;
            }
        }
    }
    said.value(&count)
}

/// Counts the places of a payload of so many bytes, with a byte 01 in so many, at which a start code,
/// or as much of it as there is room for, is found as by the plain scan.
fn scan_places(alloc: Global, words: &mut Words<'_>, said: &mut Said) -> Result<()> {
    let (len, apart) = (number(words)?, number(words)?);
    for place in 0..len {
        let mut payload = vec![in alloc; 0x41; len]?;
        for byte in payload.iter_mut().step_by(apart.max(1)) {
            *byte = 1;
        }
        for (byte, code) in payload.iter_mut().skip(place).zip([0, 0, 1]) {
            *byte = code;
        }
        if !is_as_by_the_plain_scan(alloc, &payload)? {
            return said.bytes(&payload);
        }
    }
    said.value(&len)
}
