//! The program `pairs`: a small language on the heap of one thread, written as the author of a language would write it
//! who embeds the collector. docs/EMBEDDING.md goes through it.
//!
//! A value of the language is a number, a pair of values, or nothing. The word of the command line is a length. A list
//! of the numbers 1 to that length is built of pairs, and twenty times over it is reversed and summed. Each reversal makes
//! a new list and drops the old one, on a heap that holds 3,000 pairs at most; so it collects again and again.
#![tactic(auto)]

mod fault;
mod list;
mod machine;
#[cfg(test)]
mod tests;

use fault::Fault;
use machine::Machine;
use std::env;
use std::process::ExitCode;

/// How often the list is reversed and summed.
const TIMES: u32 = 20;

fn main(rt: HostRuntime) -> ExitCode {
    match run(&rt) {
        Ok(()) => ExitCode::from(0),
        Err(fault) => {
            // Where this can't be written either, the status still tells the fault.
            let _ = eprintln!(rt; "pairs: {fault}");
            ExitCode::from(fault.status())
        }
    }
}

/// All of the program but how it ends.
fn run(rt: &HostRuntime) -> Result<(), Fault> {
    let length = length_asked_for(rt)?;
    let mut machine = Machine::make(rt.alloc(), reports_for(length))?;
    list::build(&mut machine, length)?;
    for _ in 0..TIMES {
        let before = list::first_number(&mut machine)?;
        list::reverse(&mut machine)?;
        let after = list::first_number(&mut machine)?;
        let sum = list::sum(&mut machine)?;
        println!(rt; "sum {sum}, the first was {before} and is {after}")?;
    }
    let kept = machine.collect()?;
    println!(rt; "kept {} objects of {} words", kept.objects, kept.words)?;
    let counts = machine.collections();
    println!(rt; "collections: {} minor, {} full", counts.minor, counts.full)?;
    Ok(())
}

/// The length that the one word of the command line asks for.
fn length_asked_for(rt: &HostRuntime) -> Result<u16, Fault> {
    let words = env::args(rt).map_err(|_| Fault::Usage)?;
    let words: Vec<String> = words
        .skip(1)
        .collect(rt.alloc())
        .map_err(|_| Fault::NoMemory)?;
    match words.as_slice() {
        [length] => length.as_str().parse().map_err(|_| Fault::Usage),
        _ => Err(Fault::Usage),
    }
}

/// How many collections a run may bring: two for each value that it makes, which are the numbers and pairs of the list and
/// the pairs of each reversal, and one that is asked for at the end.
fn reports_for(length: u16) -> u32 {
    let length = u32::from(length);
    2 * (2 * length + TIMES * length) + 1
}
