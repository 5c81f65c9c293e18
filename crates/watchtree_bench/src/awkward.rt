//! Scripts that are awkward: forty directories in one another, all of them watched, with paths of at most 41 names;
//! names of at most 147 bytes with a character of two bytes in every five, which takes six bytes of escapes; calls that
//! are refused, exchanges, links, equal neighbours, a queue of one record and one of seven, oneshot watches, cuts,
//! comments and blank lines.

use crate::digest::Digest;
use crate::fault::BenchFault;
use crate::rng::Rng;
use crate::script::Script;
use std::alloc::Global;

/// The most bytes of a script, less those of the calls that follow one roll.
const FULL: usize = 1_030_000;

/// How many directories stand in one another.
const DEEP: u64 = 40;

/// Adds a path of `depth` names.
fn add_deep(script: &mut Script, depth: u64) {
    for at in 0..depth {
        script.text(if at % 3 == 0 { "//x" } else { "/yz" });
        script.number(at);
    }
}

/// Adds a name: a number of at most three digits, and `length` characters. With at most 120 of these it has at most 147
/// bytes, and takes at most 243 in a script.
fn add_long(script: &mut Script, which: u64, length: u64) {
    script.number(which);
    for at in 0..length {
        script.text(if at % 5 == 0 { "%c3%A9" } else { "m" });
    }
}

/// Makes the deep directories, the instances and their watches.
fn begin(script: &mut Script) {
    script.text("# awkward\n\ninit 1\ninit 7\ninit\n   \n");
    for depth in 1..DEEP + 1 {
        script.text("mkdir ");
        add_deep(script, depth);
        script.text(" 2755\nwatch 3 ");
        add_deep(script, depth);
        script.text(" 0xfff\n");
    }
    script.text("mkdir /e 777\nmkdir /o 777\nwatch 1 /e 0x0fff\nwatch 2 /o 0x80000fff\n");
}

/// A file deep in the tree is made, linked, moved and taken away.
fn go_deep(script: &mut Script, rng: &mut Rng) {
    let depth = rng.below(DEEP).wrapping_add(1);
    script.text("create ");
    add_deep(script, depth);
    script.text("/f 644\nlink ");
    add_deep(script, depth);
    script.text("/f /o/f\nrename /o/f ");
    add_deep(script, depth);
    script.text("/g\nunlink ");
    add_deep(script, depth);
    script.text("/f\nrename2 ");
    add_deep(script, depth);
    script.text("/g /o 2\nstat ");
    add_deep(script, depth);
    script.text("/g\nrename2 ");
    add_deep(script, depth);
    script.text("/g /o 2\nunlink ");
    add_deep(script, depth);
    script.text("/g\n");
}

/// A file with a long name is made, written, listed, moved and taken away.
fn go_long(script: &mut Script, rng: &mut Rng) {
    let which = rng.below(1000);
    let length = rng.below(120);
    script.text("create /e/");
    add_long(script, which, length);
    script.text(" 7\nwrite /e/");
    add_long(script, which, length);
    script.text(" 4000 00ff\nlist /e\nread 1 4096\nrename /e/");
    add_long(script, which, length);
    script.text(" /e/");
    add_long(script, which, length.wrapping_add(1));
    script.text("\nhex 1 400\nunlink /e/");
    add_long(script, which, length.wrapping_add(1));
    script.text("\n");
}

/// Calls that are refused.
fn go_wrong(script: &mut Script, rng: &mut Rng) {
    script.text(match rng.below(10) {
        0 => "mkdir /e 755\nrmdir /e/none\nrmdir /x0\n",
        1 => "create /nowhere/f 644\ncreate /e/. 644\nstat e\n",
        2 => "unlink /e\nrename /e /e/f\nrename /o /e/../o\n",
        3 => "read 9 4096\nread 3 15\nclose 77\nunwatch 1 5\n",
        4 => "watch 3 /none 0xfff\nwatch 3 /e 0x30000fff\nwatch 3 /e 0x0\n",
        5 => "link /e /e2\nlink /none /o/f\nrename2 /e /o 7\n",
        6 => "truncate /e 5\ncat /e 0 5\nwrite /o 0 00\nlist /none\n",
        7 => "chmod / 10000\nmkdir / 7\nstat /\nchmod / 755\n",
        8 => "init 0\ninit 70000\nrename / /e\nrename2 /none /e 1\n",
        _ => "truncate /none 99999999999\ncat / 3 4\nrmdir /\n",
    });
}

/// Equal neighbours, events that a full queue loses, and a watch of one event that is set anew.
fn go_full(script: &mut Script, rng: &mut Rng) {
    for _ in 0..rng.below(12) {
        script.text("truncate /o/t 4\n");
    }
    script.text(
        "create /o/t 644\nwrite /o/t 0 31\nchmod /o/t 600\nwatch 2 /o 0x80000fff\nunlink /o/t\n",
    );
    script.text("watch 2 /o 0x20000fff\nread 2 512\nread 2 512\n");
    if rng.below(200) == 0 {
        script.text("cut\n");
    }
    script.text("# a comment of a line that asks for nothing\n\n");
}

/// A script of this seed.
fn script_of(alloc: Global, seed: u64) -> Script {
    let mut script = Script::new(alloc);
    let mut rng = Rng::new(seed);
    begin(&mut script);
    for _ in 0..50_000 {
        if script.len() > FULL {
            break;
        }
        match rng.below(8) {
            0 => go_deep(&mut script, &mut rng),
            1 => go_long(&mut script, &mut rng),
            2 | 3 => go_wrong(&mut script, &mut rng),
            4 => script.text("read 3 100000\n"),
            _ => go_full(&mut script, &mut rng),
        }
    }
    script
}

/// Runs a script each round, each of other numbers.
pub(crate) fn run(alloc: Global, seed: u64, rounds: u64) -> Result<Digest, BenchFault> {
    let mut seeds = Rng::new(seed);
    let mut digest = Digest::new();
    for _ in 0..rounds {
        let script = script_of(alloc, seeds.bits());
        digest = script.run(alloc, digest)?;
    }
    Ok(digest)
}
