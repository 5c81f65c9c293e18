//! Ninety-six instances that each watch eight of twenty-four directories, with six files each: each change of a file
//! notifies about a third of them, and each is read now and then. Every eighth has a queue of five records, which
//! overflows. A name has ten bytes at most.

use crate::digest::Digest;
use crate::fault::BenchFault;
use crate::rng::Rng;
use crate::script::Script;
use std::alloc::Global;

/// How many instances there are.
const INSTANCES: u64 = 96;

/// How many directories there are.
const FOLDERS: u64 = 24;

/// The most bytes of a script, less those of the calls that follow one roll.
const FULL: usize = 700_000;

/// A directory and a file in it, as a path.
fn add_file(script: &mut Script, folder: u64, file: u64) {
    script.text("/jobs/w");
    script.number(folder);
    script.text("/part-");
    script.number(file);
    script.text(".log");
}

/// Makes the directories with six files each, the instances and their watches.
fn begin(script: &mut Script, rng: &mut Rng) {
    script.text("mkdir /jobs 755\n");
    for folder in 0..FOLDERS {
        script.text("mkdir /jobs/w");
        script.number(folder);
        script.text(" 755\n");
        for file in 0..6 {
            script.text("create ");
            add_file(script, folder, file);
            script.text(" 644\n");
        }
    }
    for instance in 1..INSTANCES + 1 {
        script.text("init ");
        script.text(if instance % 8 == 0 { "5" } else { "1024" });
        for watch in 0..8 {
            script.text("\nwatch ");
            script.number(instance);
            script.text(" /jobs/w");
            script.number(rng.below(3).wrapping_add(watch * 3));
            script.text(if instance % 4 == 0 {
                " 0xfff"
            } else {
                " 0x3c2"
            });
        }
        script.text("\n");
    }
}

/// A change of a file.
fn change(script: &mut Script, rng: &mut Rng) {
    let folder = rng.below(FOLDERS);
    let file = rng.below(6);
    match rng.below(8) {
        0..3 => {
            script.text("truncate ");
            add_file(script, folder, file);
            script.text(" ");
            script.number(rng.below(512));
        }
        3..6 => {
            script.text("write ");
            add_file(script, folder, file);
            script.text(" ");
            script.number(rng.below(300));
            script.text(" 0a61");
        }
        _ => {
            script.text("rename ");
            add_file(script, folder, file);
            script.text(" ");
            add_file(script, rng.below(FOLDERS), file);
            script.text("\ncreate ");
            add_file(script, folder, file);
            script.text(" 640");
        }
    }
    script.text("\n");
}

/// Reads of some instances.
fn read_some(script: &mut Script, rng: &mut Rng) {
    for _ in 0..12 {
        script.text(if rng.below(4) == 0 { "hex " } else { "read " });
        script.number(rng.below(INSTANCES).wrapping_add(1));
        script.text(" 2048\n");
    }
}

/// A script of this seed.
fn script_of(alloc: Global, seed: u64) -> Script {
    let mut script = Script::new(alloc);
    let mut rng = Rng::new(seed);
    begin(&mut script, &mut rng);
    for _ in 0..50_000 {
        if script.len() > FULL {
            break;
        }
        for _ in 0..4 {
            change(&mut script, &mut rng);
        }
        read_some(&mut script, &mut rng);
    }
    script
}

/// Runs a script each round, each of other numbers.
pub(crate) fn run(alloc: Global, seed: u64, rounds: u64) -> Result<Digest, BenchFault> {
    let mut seeds = Rng::new(seed);
    let mut digest = Digest::new();
    for _ in 0..rounds {
        let script = script_of(alloc, seeds.bits());
        digest = script.run(alloc, digest)?;
    }
    Ok(digest)
}
