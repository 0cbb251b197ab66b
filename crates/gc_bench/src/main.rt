//! The program `gc_bench`: loops over the calls of the libraries, for the scripts of bench/ to time.
//!
//! The first word says what is done, the second how often. A checksum of what the calls gave is printed, so that
//! each of them has to be made. `steps` is the yardstick: a step adds one to a word at a pseudo-random place of
//! an array of 1 MiB.
#![tactic(auto)]

mod loops;
mod random;
#[cfg(test)]
mod tests;

use std::env;
use std::process::ExitCode;

/// Why no checksum is printed.
enum Fault {
    /// The words aren't what to do and how often.
    Words,
    /// There isn't enough memory, or the output can't be written.
    System,
}

fn main(rt: HostRuntime) -> ExitCode {
    match run(&rt) {
        Ok(()) => ExitCode::from(0),
        Err(Fault::Words) => ExitCode::from(1),
        Err(Fault::System) => ExitCode::from(2),
    }
}

/// Does what the words say, and prints the checksum.
fn run(rt: &HostRuntime) -> Result<(), Fault> {
    let alloc = rt.alloc();
    let words = env::args(rt).map_err(|_| Fault::Words)?;
    let words: Vec<String> = words.skip(1).collect(alloc).map_err(|_| Fault::System)?;
    let [task, count] = words.as_slice() else {
        return Err(Fault::Words);
    };
    let count = count.as_str().parse().map_err(|_| Fault::Words)?;
    let checksum = match task.as_str() {
        "steps" => loops::steps(alloc, count),
        "cells" => loops::cells(alloc, count),
        "bumps" => loops::bumps(alloc, count),
        _ => return Err(Fault::Words),
    };
    let Ok(checksum) = checksum else {
        return Err(Fault::System);
    };
    println!(rt; "{checksum}").map_err(|_| Fault::System)
}
