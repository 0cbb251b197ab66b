//! Failures at every place: each call of the source and of the sinks fails in turn, and so do the calls behind it.
//! The tables are generated. Nothing is tried again: the source isn't asked after a fault or after its end, and a
//! sink is given nothing after a fault. Each line is one piece, and no piece is empty.

ghost use Rattle.std.specs.Prelude.{◌<◌};

use crate::doubles::{AskedSource, PieceSink};
use crate::row::ONE_BOX;
use gc_cli::{Status, moar_gc, write_reports, write_status};
use gc_io::{MemorySink, MemorySource, OpenGate, Put};
use gc_model::RunReport;
use std::alloc::{AllocError, Global};
use std::process::Abort;
use std::sync::Wait;
use std::test::Fail;
use std::thread::Threads;

/// The most bytes that a call of the source gives; the script has 72.
const STEPS: [usize; 6] = [8, 15, 36, 71, 72, 65_536];

/// The calls that fail: those from the first to the last, counted from 1.
#[derive(Clone, Copy)]
struct Calls {
    first: u32,
    last: u32,
}

/// No call.
const NONE: Calls = Calls { first: 1, last: 0 };

/// What is handed to the top call: the words, and the source and the sinks, whose chosen calls fail.
#[derive(Clone, Copy)]
struct Trial<'a> {
    words: &'a [&'a str],
    script: &'a str,
    step: usize,
    reads: Calls,
    writes: Calls,
    error_writes: Calls,
}

/// What `ONE_BOX` prints, piece by piece.
const ONE_BOX_PIECES: &str = "4 done\n|5 done\n|6 42\n|";

/// Five calls.
const FIVE_CALLS: &str = "moar-gc 1\n\
     mutators 1\n\
     type box 0 1\n\
     0 ask r0 0\n\
     0 new r0 box\n\
     0 set r0 0 7\n\
     0 ask r0 0\n\
     0 swap r0 0 8 9\n";

/// What they reply.
const FIVE_REPLIES: &str = "4 nil base\n\
     5 done\n\
     6 done\n\
     7 7\n\
     8 no 7\n";

/// Calls of a mutator whose register 0 names a node, and what they reply, each time again. All replies but `full` are here.
const ROUND: [(&str, &str); 12] = [
    ("ask r1 0", "nil base"),
    ("set r0 0 7", "done"),
    ("ask r0 0", "7"),
    ("swap r0 0 7 18446744073709551615", "yes"),
    ("swap r0 0 7 8", "no 18446744073709551615"),
    ("get r2 r0 0", "nil"),
    ("get r2 r0 1", "range"),
    ("same r0 r1", "no"),
    ("unblock", "not blocked"),
    ("block", "done"),
    ("ask r0 0", "blocked"),
    ("unblock", "done"),
];

/// What collections report.
const REPORTS: [RunReport; 10] = [
    RunReport::Minor,
    RunReport::Full {
        objects: 0,
        words: 0,
    },
    RunReport::Full {
        objects: 1,
        words: 18,
    },
    RunReport::Minor,
    RunReport::Minor,
    RunReport::Full {
        objects: u64::MAX,
        words: 0,
    },
    RunReport::Full {
        objects: 7,
        words: u64::MAX,
    },
    RunReport::Full {
        objects: u64::MAX,
        words: u64::MAX,
    },
    RunReport::Minor,
    RunReport::Full {
        objects: u64::MAX,
        words: u64::MAX,
    },
];

/// The lines of these reports.
const REPORT_LINES: &str = "run 1 minor\n\
     run 2 full objects 0 words 0\n\
     run 3 full objects 1 words 18\n\
     run 4 minor\n\
     run 5 minor\n\
     run 6 full objects 18446744073709551615 words 0\n\
     run 7 full objects 7 words 18446744073709551615\n\
     run 8 full objects 18446744073709551615 words 18446744073709551615\n\
     run 9 minor\n\
     run 10 full objects 18446744073709551615 words 18446744073709551615\n";

impl<'a> Trial<'a> {
    /// A script that is played, where nothing fails.
    fn plays(script: &'a str) -> Trial<'a> {
        Trial {
            words: &["play"],
            script,
            step: 65_536,
            reads: NONE,
            writes: NONE,
            error_writes: NONE,
        }
    }

    /// Hands it to the top call.
    fn run<R: Abort + AllocGlobal + Threads + Wait + Sync>(&self, rt: &R) -> Result<Ended, Fail> {
        let alloc = rt.alloc();
        let mut words = Vec::new(alloc);
        for word in self.words {
            words.push(word.to_string(alloc)?)?;
        }
        assert!(rt; self.step > 0);
        let script = self.script.as_bytes().to_vec(alloc)?;
        let source = MemorySource::make(script, self.step, numbers(alloc, self.reads)?);
        let mut src = AskedSource::make(alloc, source);
        let mut out = sink(alloc, self.writes)?;
        let mut err = sink(alloc, self.error_writes)?;
        let words = words.as_slice();
        let outcome = moar_gc(rt, alloc, words, &mut src, &mut out, &mut err, &OpenGate);
        Ok(Ended {
            status: outcome.status,
            src,
            out,
            err,
        })
    }
}

/// How it ended, and what the source and the sinks were asked.
#[derive(Drop)]
struct Ended {
    status: Status,
    src: AskedSource,
    out: PieceSink,
    err: PieceSink,
}

impl Ended {
    /// Compares the status, the number of the source's calls, and the pieces of the sinks.
    fn check<R: Abort>(&self, rt: &R, status: Status, reads: usize, output: &str, error: &str) {
        assert_eq!(rt; self.status, status);
        assert_eq!(rt; self.src.rooms().len(), reads);
        assert_eq!(rt; self.out.pieces(), output.as_bytes());
        assert_eq!(rt; self.err.pieces(), error.as_bytes());
    }
}

/// A sink whose calls with these numbers fail.
fn sink(alloc: Global, failing: Calls) -> Result<PieceSink, Fail> {
    let sink = MemorySink::make(alloc, 65_536, numbers(alloc, failing)?)?;
    Ok(PieceSink::make(alloc, sink))
}

/// The numbers from the first to the last.
fn numbers(alloc: Global, calls: Calls) -> Result<Vec<u32>, AllocError> {
    let mut numbers = Vec::new(alloc);
    for number in calls.first..=calls.last {
        numbers.push(number)?;
    }
    Ok(numbers)
}

/// How often a source of the script is asked until it has told its end.
fn calls_of(script: &str, step: usize) -> usize
    requires { 0 < step }
{
    script.len().div_ceil(step).saturating_add(1)
}

/// The pieces of a text whose lines are written up to one that fails.
fn pieces_until(alloc: Global, text: &str, failing: u32) -> Result<String, AllocError> {
    let mut pieces = String::new(alloc);
    let mut number = 1u32;
    for line in text.lines() {
        pieces.push_str(line)?;
        if number == failing {
            pieces.push_str("\n!")?;
            break;
        }
        pieces.push_str("\n|")?;
        number = number.saturating_add(1);
    }
    Ok(pieces)
}

/// Plays a box from a source that gives so many bytes a call, where these calls fail. The first of them that comes
/// ends it, and the source isn't asked after it or after its end.
fn check_reads<R: Abort + AllocGlobal + Threads + Wait + Sync>(
    rt: &R,
    step: usize,
    reads: Calls,
) -> Result<(), Fail>
    requires { 0 < step }
{
    let calls = calls_of(ONE_BOX, step);
    let ended = Trial {
        step,
        reads,
        ..Trial::plays(ONE_BOX)
    }
    .run(rt)?;
    let first = reads.first as usize;
    if first <= calls {
        ended.check(rt, Status::ReadFault, first, "", "moar_gc: read fault\n|");
    } else {
        ended.check(rt, Status::Done, calls, ONE_BOX_PIECES, "");
    }
    Ok(())
}

#[test]
fn each_read_fails_in_turn(rt: HostRuntime) -> Result<(), Fail> {
    for step in STEPS {
        assert!(rt; step > 0);
        let behind = u32::try_from(calls_of(ONE_BOX, step))?.saturating_add(1);
        for first in 1..=behind {
            for last in first..=behind {
                check_reads(&rt, step, Calls { first, last })?;
            }
        }
    }
    Ok(())
}

#[test]
fn each_read_of_one_byte_fails_in_turn(rt: HostRuntime) -> Result<(), Fail> {
    let behind = u32::try_from(calls_of(ONE_BOX, 1))?.saturating_add(1);
    for first in 1..=behind {
        for last in [first, behind] {
            check_reads(&rt, 1, Calls { first, last })?;
        }
    }
    Ok(())
}

#[test]
fn each_write_fails_in_turn(rt: HostRuntime) -> Result<(), Fail> {
    let lines = u32::try_from(FIVE_REPLIES.lines().count())?;
    let behind = lines.saturating_add(1);
    for first in 1..=behind {
        for last in first..=behind {
            let ended = Trial {
                writes: Calls { first, last },
                ..Trial::plays(FIVE_CALLS)
            }
            .run(&rt)?;
            let pieces = pieces_until(rt.alloc(), FIVE_REPLIES, first)?;
            if first <= lines {
                let error = "moar_gc: write fault\n|";
                ended.check(&rt, Status::WriteFault, 2, pieces.as_str(), error);
            } else {
                ended.check(&rt, Status::Done, 2, pieces.as_str(), "");
            }
        }
    }
    Ok(())
}

#[test]
fn the_line_of_a_status_is_one_piece(rt: HostRuntime) -> Result<(), Fail> {
    let played = Trial::plays(ONE_BOX);
    let refused = Trial::plays("moar-gc 2\n");
    let bad = Status::Bad { line: 1, cause: 1 };
    let calls = Calls { first: 1, last: 9 };
    let no_words = Trial {
        words: &[],
        ..played
    };
    let no_read = Trial {
        reads: calls,
        ..played
    };
    let no_write = Trial {
        writes: calls,
        ..played
    };
    for (trial, status, reads, output, line) in [
        (no_words, Status::Usage, 0, "", "moar_gc: usage\n"),
        (refused, bad, 2, "", "moar_gc: line 1: version\n"),
        (no_read, Status::ReadFault, 1, "", "moar_gc: read fault\n"),
        (
            no_write,
            Status::WriteFault,
            2,
            "4 done\n!",
            "moar_gc: write fault\n",
        ),
    ] {
        let told = format!(in rt.alloc(); "{line}|")?;
        trial
            .run(&rt)?
            .check(&rt, status, reads, output, told.as_str());

        // A fault of standard error changes nothing, and the line isn't tried again.
        let failed = format!(in rt.alloc(); "{line}!")?;
        let trial = Trial {
            error_writes: calls,
            ..trial
        };
        trial
            .run(&rt)?
            .check(&rt, status, reads, output, failed.as_str());
    }
    Ok(())
}

/// The line of a status as it is put: once, and not tried again where that fails.
fn check_status_line<R: Abort + AllocGlobal + Threads + Wait + Sync>(
    rt: &R,
    status: Status,
    line: &str,
) -> Result<(), Fail> {
    let alloc = rt.alloc();
    let mut err = sink(alloc, NONE)?;
    write_status(status, &mut err);
    let told = format!(in alloc; "{line}|")?;
    assert_eq!(rt; err.pieces(), told.as_bytes());

    let mut failing = sink(alloc, Calls { first: 1, last: 9 })?;
    write_status(status, &mut failing);
    let failed = format!(in alloc; "{line}!")?;
    assert_eq!(rt; failing.pieces(), failed.as_bytes());
    Ok(())
}

#[test]
fn each_status_has_its_line_as_one_piece(rt: HostRuntime) -> Result<(), Fail> {
    for (status, line) in [
        (Status::Usage, "moar_gc: usage\n"),
        (Status::Long, "moar_gc: script too long\n"),
        (Status::ReadFault, "moar_gc: read fault\n"),
        (Status::WriteFault, "moar_gc: write fault\n"),
        (Status::NoMemory, "moar_gc: no memory\n"),
    ] {
        check_status_line(&rt, status, line)?;
    }
    for (cause, word) in [
        (1, "version"),
        (2, "word"),
        (3, "number"),
        (4, "register"),
        (5, "type"),
        (6, "mutator"),
        (7, "duplicate"),
    ] {
        for line in [1, 9, 10, 1234567, u32::MAX] {
            let told = format!(in rt.alloc(); "moar_gc: line {line}: {word}\n")?;
            check_status_line(&rt, Status::Bad { line, cause }, told.as_str())?;
        }
    }
    let mut err = sink(rt.alloc(), NONE)?;
    write_status(Status::Done, &mut err);
    assert_eq!(rt; err.pieces().len(), 0);
    Ok(())
}

/// A script of so many rounds of calls, and what it prints.
fn rounds(alloc: Global, count: u32) -> Result<(String, String), AllocError> {
    let mut script = String::new(alloc);
    let mut output = String::new(alloc);
    script.push_str("moar-gc 1\nmutators 1\ntype node 1 1\n0 new r0 node\n")?;
    output.push_str("4 done\n")?;
    let mut number = 5u32;
    for _ in 0..count {
        for (call, reply) in ROUND {
            writeln!(script, "0 {call}")?;
            writeln!(output, "{number} {reply}")?;
            number = number.saturating_add(1);
        }
    }
    Ok((script, output))
}

#[test]
fn each_reply_of_a_long_script_is_one_piece(rt: HostRuntime) -> Result<(), Fail> {
    let (script, output) = rounds(rt.alloc(), 100)?;
    let pieces = pieces_until(rt.alloc(), output.as_str(), 0)?;
    let ended = Trial::plays(script.as_str()).run(&rt)?;
    ended.check(&rt, Status::Done, 2, pieces.as_str(), "");
    Ok(())
}

/// Writes the reports to a sink whose calls with these numbers fail.
fn check_reports<R: Abort + AllocGlobal + Threads + Wait + Sync>(
    rt: &R,
    writes: Calls,
) -> Result<(), Fail> {
    let alloc = rt.alloc();
    let mut out = sink(alloc, writes)?;
    let put = write_reports(&REPORTS, &mut out);
    let pieces = pieces_until(alloc, REPORT_LINES, writes.first)?;
    let expected = if writes.first as usize <= REPORTS.len() {
        Put::Failed
    } else {
        Put::All
    };
    assert_eq!(rt; put, expected);
    assert_eq!(rt; out.pieces(), pieces.as_bytes());
    Ok(())
}

#[test]
fn each_report_is_one_piece_and_fails_in_turn(rt: HostRuntime) -> Result<(), Fail> {
    for first in 1..=11 {
        for last in first..=11 {
            check_reports(&rt, Calls { first, last })?;
        }
    }
    Ok(())
}

#[test]
fn no_report_is_no_piece(rt: HostRuntime) -> Result<(), Fail> {
    let mut out = sink(rt.alloc(), Calls { first: 1, last: 9 })?;
    assert_eq!(rt; write_reports(&[], &mut out), Put::All);
    assert_eq!(rt; out.pieces().len(), 0);
    Ok(())
}
