//! Worked rows as data, and what hands them to the top call.

ghost use Rattle.std.specs.Prelude.{◌≤◌, length};
ghost use Rattle.gc_cli.specs.Played.{AreAllowed};

use crate::run_in_memory;
use gc_cli::{Opts, Status, play_bytes};
use gc_io::{Gate, Hold, HoldGate, MeetGate, MemorySink, MemorySource, OpenGate, SteadySource};
use std::process::Abort;
use std::sync::Wait;
use std::test::Fail;
use std::thread::Threads;

/// The most bytes that a script prints here.
const MOST_PRINTED: usize = 4_194_304;

/// A box is made, set and asked.
pub const ONE_BOX: &str = "moar-gc 1\n\
     mutators 1\n\
     type box 0 1\n\
     0 new r0 box\n\
     0 set r0 0 42\n\
     0 ask r0 0\n";

/// What it prints.
pub const ONE_BOX_OUTPUT: &str = "4 done\n\
     5 done\n\
     6 42\n";

/// The words of most rows.
const PLAY: &[&str] = &["play"];

/// The words for a worker for each mutator.
pub const RUN: &[&str] = &["run"];

/// The words for the same, with reports.
pub const RUN_REPORTS: &[&str] = &["run", "--reports"];

/// So often a line that is held is asked for in vain, at most.
const MOST_REFUSALS: u32 = 100_000_000;

/// So often a line turns until those come that it meets, at most.
const MOST_TURNS: u32 = 1_000_000_000;

/// The words for the least heap.
const PLAY_SMALL: &[&str] = &["play", "--nursery", "64", "--pages", "1"];

/// The words for halves of 64 words and one page, with reports.
pub const ONE_PAGE: &[&str] = &["play", "--nursery", "64", "--pages", "1", "--reports"];

/// The words for halves of 64 words and two pages, with reports.
pub const TWO_PAGES: &[&str] = &["play", "--nursery", "64", "--pages", "2", "--reports"];

/// The words for halves of 64 words and three pages, with reports.
pub const THREE_PAGES: &[&str] = &["play", "--nursery", "64", "--pages", "3", "--reports"];

/// A worked row: what is handed to the top call, and what comes of it.
#[derive(Clone, Copy)]
pub struct Row<'a> {
    name: &'a str,
    words: &'a [&'a str],
    script: &'a str,
    /// The most bytes that a call of the source gives.
    step: usize,
    /// The calls of the source that fail, counted from 1.
    failing_reads: &'a [u32],
    output: &'a str,
    /// What may be printed as well, where that depends on the schedule.
    other: Option<&'a str>,
    error: &'a str,
    status: u8,
}

impl<'a> Row<'a> {
    /// A script that is played to its end.
    pub fn plays(name: &'a str, script: &'a str, output: &'a str) -> Row<'a> {
        Row {
            name,
            words: PLAY,
            script,
            step: 65_536,
            failing_reads: &[],
            output,
            other: None,
            error: "",
            status: 0,
        }
    }

    /// A script that is refused.
    pub fn refuses(name: &'a str, script: &'a str, error: &'a str) -> Row<'a> {
        Row {
            error,
            status: 2,
            ..Row::plays(name, script, "")
        }
    }

    /// Words that are no command. The source would fail if it were asked.
    pub fn misuses(name: &'a str, words: &'a [&'a str], script: &'a str) -> Row<'a> {
        Row {
            words,
            failing_reads: &[1],
            error: "moar_gc: usage\n",
            status: 1,
            ..Row::plays(name, script, "")
        }
    }

    /// Words that ask for no script, and what they write. The source would fail if it were asked.
    pub fn writes(name: &'a str, words: &'a [&'a str], output: &'a str) -> Row<'a> {
        Row {
            words,
            failing_reads: &[1],
            ..Row::plays(name, ONE_BOX, output)
        }
    }

    /// A script that is run by a worker for each mutator to its end.
    pub fn runs(name: &'a str, script: &'a str, output: &'a str) -> Row<'a> {
        Row::plays(name, script, output).with_words(RUN)
    }

    /// The same script, which in another schedule prints this.
    pub fn or_prints(self, other: &'a str) -> Row<'a> {
        Row {
            other: Some(other),
            ..self
        }
    }

    /// The same script with these words.
    pub fn with_words(self, words: &'a [&'a str]) -> Row<'a> {
        Row { words, ..self }
    }

    /// The same script from a source that gives at most so many bytes a call.
    pub fn with_step(self, step: usize) -> Row<'a> {
        Row { step, ..self }
    }

    /// Checks the row, and then the same on the least heap, which its objects fit, and where there is one mutator with a
    /// worker for it.
    pub fn check_small_too<R: Abort + AllocGlobal + Threads + Wait + Sync>(
        &self,
        rt: &R,
    ) -> Result<(), Fail> {
        self.check(rt)?;
        self.with_words(PLAY_SMALL).check(rt)?;
        if self.script.contains("\nmutators 1\n") {
            self.with_words(RUN).check(rt)?;
        }
        Ok(())
    }

    /// Checks the row with a gate that holds lines until others were answered, at most 32 holds, and that didn't give up.
    pub fn check_held<R: Abort + AllocGlobal + Threads + Wait + Sync>(
        &self,
        rt: &R,
        holds: &[Hold],
    ) -> Result<(), Fail>
        requires { length holds.now ≤ 32 }
    {
        let gate = HoldGate::make(rt.alloc(), holds, MOST_REFUSALS)?;
        self.check_with(rt, &gate)?;
        assert!(rt; !gate.gave_up(), "the gate of {}", self.name);
        Ok(())
    }

    /// Checks the row with a gate at which lines meet, at most 32 holds, and that didn't give up.
    pub fn check_meeting<R: Abort + AllocGlobal + Threads + Wait + Sync>(
        &self,
        rt: &R,
        holds: &[Hold],
    ) -> Result<(), Fail>
        requires { length holds.now ≤ 32 }
    {
        let gate = MeetGate::make(rt.alloc(), holds, MOST_TURNS)?;
        self.check_with(rt, &gate)?;
        assert!(rt; !gate.gave_up(), "the gate of {}", self.name);
        Ok(())
    }

    /// Checks the row with a gate that holds nothing.
    pub fn check<R: Abort + AllocGlobal + Threads + Wait + Sync>(
        &self,
        rt: &R,
    ) -> Result<(), Fail> {
        self.check_with(rt, &OpenGate)
    }

    /// Hands the row to the top call with this gate, and compares what comes of it.
    fn check_with<R: Abort + AllocGlobal + Threads + Wait + Sync, G: Gate + Sync>(
        &self,
        rt: &R,
        gate: &G,
    ) -> Result<(), Fail> {
        let alloc = rt.alloc();
        let mut words = Vec::new(alloc);
        for word in self.words {
            words.push(word.to_string(alloc)?)?;
        }
        assert!(rt; self.step > 0, "the step of {}", self.name);
        let script = self.script.as_bytes().to_vec(alloc)?;
        let mut src = MemorySource::make(script, self.step, self.failing_reads.to_vec(alloc)?);
        let mut out = MemorySink::make(alloc, MOST_PRINTED, Vec::new(alloc))?;
        let mut err = MemorySink::make(alloc, 256, Vec::new(alloc))?;
        let outcome = run_in_memory(
            rt,
            alloc,
            words.as_slice(),
            &mut src,
            &mut out,
            &mut err,
            gate,
        );
        let code = outcome.status.code();
        assert_eq!(rt; code, self.status, "the status of {}", self.name);
        assert_eq!(rt;
            err.bytes(),
            self.error.as_bytes(),
            "the error of {}",
            self.name
        );
        if let Some(other) = self.other
            && out.bytes() == other.as_bytes()
        {
            return Ok(());
        }
        assert_eq!(rt;
            out.bytes(),
            self.output.as_bytes(),
            "the output of {}",
            self.name
        );
        Ok(())
    }
}

/// What a script that is played to its end prints, on the heap that these options ask for.
pub fn printed<R: Abort + AllocGlobal>(
    rt: &R,
    name: &str,
    script: &[u8],
    opts: &Opts,
) -> Result<MemorySink, Fail>
    requires { AreAllowed opts.now }
{
    let alloc = rt.alloc();
    let mut src = SteadySource::make(script.to_vec(alloc)?);
    let mut out = MemorySink::make(alloc, MOST_PRINTED, Vec::new(alloc))?;
    let outcome = play_bytes(alloc, opts, &mut src, &mut out);
    assert_eq!(rt; outcome.status, Status::Done, "the status of {name}");
    Ok(out)
}
