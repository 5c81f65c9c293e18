//! The benchmark: runs a workload, and prints a digest of all that it was answered.
//!
//!     watchtree_bench WORKLOAD SEED ROUNDS
//!
//! `bench/workloads.txt` has the workloads; `all` runs each of them. The seed decides what is called, and nothing else
//! does.
#![tactic(auto)]

mod answers;
mod awkward;
mod bases;
mod desk;
mod digest;
mod fan;
mod fault;
mod history;
mod listen;
mod moves;
mod rng;
mod saves;
mod script;
mod sync;
mod upkeep;

use digest::Digest;
use fault::BenchFault;
use std::alloc::Global;
use std::env;
use std::process::ExitCode;

/// What is run: the name of a workload, its seed, and its rounds.
#[derive(Clone, Copy)]
struct Asked<'a> {
    workload: &'a str,
    seed: u64,
    rounds: u64,
}

/// What the words of the command line ask for.
fn asked_of(words: &[String]) -> Option<Asked<'_>> {
    let [_, workload, seed, rounds] = words else {
        return None;
    };
    Some(Asked {
        workload: workload.as_str(),
        seed: u64::from(seed.as_str().parse::<u32>().ok()?),
        rounds: u64::from(rounds.as_str().parse::<u32>().ok()?),
    })
}

/// The digest of a workload.
fn digest_of(alloc: Global, asked: &Asked<'_>) -> Result<Digest, BenchFault> {
    let Asked {
        workload,
        seed,
        rounds,
    } = asked;
    match *workload {
        "sync" => sync::run(alloc, *seed, *rounds),
        "fan" => fan::run(alloc, *seed, *rounds),
        "awkward" => awkward::run(alloc, *seed, *rounds),
        "history" => history::run(alloc, *seed, *rounds),
        "listen" => listen::run(alloc, *seed, *rounds),
        "upkeep" => upkeep::run(alloc, *seed, *rounds),
        _ => Err(BenchFault::Words),
    }
}

/// One digest of all workloads.
fn digest_of_all(alloc: Global, seed: u64, rounds: u64) -> Result<Digest, BenchFault> {
    let mut digest = Digest::new();
    for workload in ["sync", "fan", "awkward", "history", "listen", "upkeep"] {
        let asked = Asked {
            workload,
            seed,
            rounds,
        };
        digest.add(digest_of(alloc, &asked)?.value());
    }
    Ok(digest)
}

fn main(rt: HostRuntime) -> ExitCode {
    let alloc = rt.alloc();
    let words = match env::args(&rt) {
        Ok(args) => args.collect::<Vec<String>>(alloc),
        Err(_) => return ExitCode::from(2),
    };
    let Ok(words) = words else {
        return ExitCode::from(2);
    };
    let Some(asked) = asked_of(&words) else {
        let _ = eprintln!(rt; "usage: watchtree_bench WORKLOAD SEED ROUNDS");
        return ExitCode::from(2);
    };
    let digest = match asked.workload {
        "all" => digest_of_all(alloc, asked.seed, asked.rounds),
        _ => digest_of(alloc, &asked),
    };
    match digest {
        Ok(digest) => match println!(rt; "{}", digest.value()) {
            Ok(()) => ExitCode::SUCCESS,
            Err(_) => ExitCode::from(1),
        },
        Err(fault) => {
            let _ = eprintln!(rt; "watchtree_bench: {fault:?}");
            ExitCode::from(1)
        }
    }
}
