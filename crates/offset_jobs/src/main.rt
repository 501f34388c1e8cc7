//! The jobs that a user waits for, each on inputs that it makes from a seed. It prints a digest of all
//! results.
//!
//! The words are the job, the seed, the number of rounds, and the size of a round's inputs. Each round has
//! inputs of its own. `all` does every job of those. `bench/README.md` says how they are timed; `.ci/speed`
//! counts instructions, of some more jobs too (`rows`).
#![tactic(auto)]

mod calls;
mod engine;
mod random;
mod rows;
mod spaces;
mod texts;
mod upkeep;

use engine::Kept;
use random::{Digest, Random};
use std::alloc::{AllocError, Global};
use std::process::ExitCode;
use std::{env, io};

// One round of a job, or `false` where no job has this name.
fn round(
    alloc: Global,
    job: &str,
    size: u32,
    kept: &mut Kept,
    random: &mut Random,
    digest: &mut Digest,
) -> Result<bool, AllocError> {
    match job {
        "engine" => engine::engine(alloc, size, random, digest)?,
        "tight" => engine::tight(alloc, size, kept, random, digest)?,
        "upkeep" => upkeep::upkeep(alloc, size, random, digest)?,
        "calls" => calls::calls(alloc, size, random, digest)?,
        "scripts" => texts::scripts(alloc, size, random, digest)?,
        "pictures" => texts::pictures(alloc, size, random, digest)?,
        "all" => {
            engine::engine(alloc, size, random, digest)?;
            engine::tight(alloc, size, kept, random, digest)?;
            upkeep::upkeep(alloc, size, random, digest)?;
            calls::calls(alloc, size, random, digest)?;
            texts::scripts(alloc, size, random, digest)?;
            texts::pictures(alloc, size, random, digest)?;
        }
        _ => return rows::row(alloc, job, size, random, digest),
    }
    Ok(true)
}

// All rounds of a job, or `None` where no job has this name.
fn digest_of(
    alloc: Global,
    job: &str,
    seed: u32,
    rounds: u32,
    size: u32,
) -> Result<Option<u64>, AllocError> {
    let mut digest = Digest { value: 0 };
    let mut kept = Kept::new(alloc);
    for at in 0..rounds {
        let mut random = Random::new(seed, at);
        if !round(alloc, job, size, &mut kept, &mut random, &mut digest)? {
            return Ok(None);
        }
    }
    Ok(Some(digest.value))
}

// A number among the words, or none.
fn number(word: Option<String>) -> Option<u32> {
    word?.parse::<u32>().ok()
}

fn main(rt: HostRuntime) -> io::Result<ExitCode> {
    let mut words = env::args(&rt)?;
    let _program = words.next();
    let (Some(job), Some(seed), Some(rounds), Some(size)) = (
        words.next(),
        number(words.next()),
        number(words.next()),
        number(words.next()),
    ) else {
        eprintln!(rt; "offset_jobs JOB SEED ROUNDS SIZE")?;
        return Ok(ExitCode::from(2));
    };
    match digest_of(rt.alloc(), &job, seed, rounds, size) {
        Ok(Some(digest)) => {
            println!(rt; "{job} {digest}")?;
            Ok(ExitCode::SUCCESS)
        }
        Ok(None) => {
            eprintln!(rt; "no such job: {job}")?;
            Ok(ExitCode::from(2))
        }
        Err(_) => {
            eprintln!(rt; "out of memory")?;
            Ok(ExitCode::from(3))
        }
    }
}
