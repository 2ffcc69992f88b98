//! The jobs that a user of the library waits for, on inputs that it makes, for timing: `bench/run`
//! runs them in two checkouts by turns.
//!
//! `h26x_jobs JOB SEED ROUNDS PICTURES` does a job, `send`, `receive`, `receive_owned`, `record`,
//! `small`, `lines` or `awkward`, so many times over pictures that the seed makes, each time on other
//! bytes, and prints a digest of all that was answered. `all` does each of them.
#![tactic(auto)]

mod awkward;
mod digest;
mod lines;
mod receive;
mod receive_owned;
mod record;
mod send;
mod small;

use anyhow::{Context, Result};
use digest::Digest;
use std::alloc::Global;
use std::env;

/// What a run is to do, of each job.
#[derive(Clone, Copy)]
pub struct Work {
    /// By which the inputs are made.
    pub seed: u64,
    /// How often the job is done, each time on other bytes.
    pub rounds: u32,
    /// How many pictures there are of each setting of a codec.
    pub pictures: u32,
}

/// The digest of a job's answers, if there is a job of this name.
fn digest_of(alloc: Global, job: &str, work: Work) -> Result<Option<Digest>> {
    let digest = match job {
        "send" => send::run(alloc, work)?,
        "receive" => receive::run(alloc, work)?,
        "receive_owned" => receive_owned::run(alloc, work)?,
        "record" => record::run(alloc, work)?,
        "small" => small::run(alloc, work)?,
        "lines" => lines::run(alloc, work)?,
        "awkward" => awkward::run(alloc, work)?,
        _ => return Ok(None),
    };
    Ok(Some(digest))
}

/// Does a job, and prints the digest of its answers.
fn print_job(rt: &(impl Print + AllocGlobal), job: &str, work: Work) -> Result<()> {
    let digest = digest_of(rt.alloc(), job, work)?.context("there is no job of this name")?;
    let (answers, sum) = (digest.answers(), digest.sum());
    println!(rt; "{job}: {answers} answers, digest {sum:016x}")?;
    Ok(())
}

fn main(rt: HostRuntime) -> Result<()> {
    let mut args = env::args(&rt)?.skip(1);
    let job = args.next().context("which job?")?;
    let seed = args.next().context("which seed?")?;
    let rounds = args.next().context("how many rounds?")?;
    let pictures = args.next().context("how many pictures?")?;
    let work = Work {
        seed: seed.parse::<u64>().context("the seed is a number")?,
        rounds: rounds.parse::<u32>().context("the rounds are a number")?,
        pictures: pictures
            .parse::<u32>()
            .context("the pictures are a number")?,
    };
    if job.as_str() == "all" {
        for job in [
            "send",
            "receive",
            "receive_owned",
            "record",
            "small",
            "lines",
            "awkward",
        ] {
            print_job(&rt, job, work)?;
        }
        return Ok(());
    }
    print_job(&rt, job.as_str(), work)
}
