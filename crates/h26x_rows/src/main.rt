//! Walks texts of rows, each a call of the library with what comes of it, and prints each row to
//! which another answer is given, and how many rows there are.
//!
//! `h26x_rows WALK:FILE..`: how a text is walked, and the text. In a text words stand between spaces:
//! the call's name, what it is given, `=`, and its answer; behind ` | ` stand answers that are right
//! where memory lacked. A line that begins with `#` is for the reader, and one that ends in a
//! backslash goes on in the next. Bytes have two hexadecimal digits each, and `-` stands for none.
//! `+` joins parts, `aa*3` is `aa` three times, and in an answer `3:aabb` is three words. `free` before
//! a call says that it takes no memory. Where a call finds no memory it is made again, but for `carry`,
//! and the row is printed behind `memory lacked: `. Texts of `lines` are otherwise (`lines.rt`).
#![tactic(auto)]

mod cutting;
mod dispatch;
mod header_words;
mod lines;
mod profiles;
mod receiving;
mod row;
mod said;
mod sending;
mod settings;
mod shown;
mod tally;
mod transmissions;

use anyhow::{Context, Result, bail};
use cutting::Cutting;
use header_words::HeaderWords;
use profiles::Profiles;
use receiving::Receiver;
use sending::Sender;
use std::process::ExitCode;
use std::rt::{Env, Files};
use std::{env, fs};
use tally::{Tally, walk};
use transmissions::Transmissions;

/// Walks the text of a packetizer in each way: to a list, to memory of the caller, and by the one that
/// is chosen while the program runs, to a list and to a buffer.
fn walk_sending<R: Print + AllocGlobal>(rt: &R, text: &str) -> Result<Tally> {
    let mut tally = Tally::new();
    for way in [
        sending::Way::List,
        sending::Way::Memory(0),
        sending::Way::Memory(12),
    ] {
        tally.add(walk(rt, text, &mut Sender::new(rt.alloc(), way))?);
    }
    tally.add(walk_dispatch(rt, text)?);
    Ok(tally)
}

/// Walks the text of a packetizer that is chosen while the program runs.
fn walk_dispatch<R: Print + AllocGlobal>(rt: &R, text: &str) -> Result<Tally> {
    let mut tally = Tally::new();
    for way in [
        dispatch::Way::List,
        dispatch::Way::Buffer(0),
        dispatch::Way::Buffer(12),
    ] {
        tally.add(dispatch::walk_sending(rt, text, way)?);
    }
    Ok(tally)
}

/// Walks the text of a depacketizer in each way.
fn walk_receiving<R: Print + AllocGlobal>(rt: &R, text: &str) -> Result<Tally> {
    let mut tally = Tally::new();
    for way in [receiving::Way::List, receiving::Way::Memory] {
        tally.add(walk(rt, text, &mut Receiver::new(rt.alloc(), way))?);
    }
    Ok(tally)
}

/// Walks a text as the name of the walk says.
fn walk_by_name<R: Print + AllocGlobal>(rt: &R, name: &str, text: &str) -> Result<Tally> {
    match name {
        "sending" => walk_sending(rt, text),
        "dispatch" => walk_dispatch(rt, text),
        "receiving" => walk_receiving(rt, text),
        "dispatch-receiving" => dispatch::walk_receiving(rt, text),
        "transmissions" => walk(rt, text, &mut Transmissions),
        "cutting" => walk(rt, text, &mut Cutting),
        "header-words" => walk(rt, text, &mut HeaderWords),
        "profiles" => walk(rt, text, &mut Profiles),
        "lines" => lines::walk(rt, text),
        _ => bail!("no walk {name}"),
    }
}

fn walk_all<R: Print + AllocGlobal + Files + Env>(rt: &R) -> Result<Tally> {
    let mut all = Tally::new();
    for arg in env::args(rt)?.skip(1) {
        let (name, file) = arg.split_once(':').context("a walk and a text")?;
        let text = fs::read_to_string(rt, file).context("no text")?;
        let text = text.replace(rt.alloc(), "\\\n", "")?;
        let tally = walk_by_name(rt, name, text.as_str())?;
        let (rows, differing) = (tally.rows, tally.differing);
        println!(rt; "{file}: {rows} rows, {differing} differ")?;
        all.add(tally);
    }
    Ok(all)
}

fn main(rt: HostRuntime) -> Result<ExitCode> {
    let all = walk_all(&rt)?;
    Ok(if all.differing == 0 {
        ExitCode::SUCCESS
    } else {
        ExitCode::FAILURE
    })
}
