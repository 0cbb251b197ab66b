//! The program `moar_gc`: plays heap scripts.
//!
//! It hands the words of the command line and the three standard streams to the top call, flushes what is
//! still buffered, and ends with the status. Standard output is written in pieces of 64 KiB.
//!
//! It decides nothing itself. Before the top call it can only refuse the words, or have no memory for them or for
//! the buffer; after it, it can only find that the last flush fails. Below `main` the streams are parameters, so
//! that contracts speak of every source and sink, and each status but want of memory is the top call's or that
//! of the flush.
#![tactic(auto)]

ghost use Rattle.std.specs.Prelude.{◌≡◌, ◌≢◌, ◌⊎◌, ◌≤◌, ℕ, List, None, map, string_bytes, IfOk, IfErr};
ghost use Rattle.std.specs.Result.{ForErr};
ghost use Rattle.gc_io.specs.Faults.{HasRisen};
ghost use Rattle.gc_io.specs.Streams.{Appends};
ghost use Rattle.gc_cli.specs.Causes.{IsOrNoMemory};
ghost use Rattle.gc_cli.specs.Command.{request_of, status_line};
ghost use Rattle.gc_cli.specs.Played.{AsksNoScript, AsksScript, GivesScript, IsTooLong, IsNoScript, BreaksOff};

use gc_cli::{Status, moar_gc, write_status};
use gc_io::{OpenGate, Put, Sink, Source, StdSink, StdSource};
use std::alloc::{AllocError, Global};
use std::env;
use std::io::{self, BufWriter, ErrorKind, Write};
use std::process::ExitCode;
use std::sync::Wait;
use std::thread::Threads;

/// How many bytes of the output are gathered before they are written.
const BUFFER: usize = 65_536;

fn main(rt: HostRuntime) -> ExitCode {
    let mut src = StdSource::make(rt.stdin());
    let mut err = StdSink::make(rt.stderr());
    ExitCode::from(run(&rt, words(&rt), &mut src, rt.stdout(), &mut err).code())
}

/// The words after the program's name. Words that aren't UTF-8 are a faulty command line.
fn words(rt: &HostRuntime) -> Result<Vec<String>, Status>
    ensures { IfErr result (λ status. (status ≡ Status.Usage) ⊎ (status ≡ Status.NoMemory)) }
{
    match env::args(rt) {
        Ok(words) => words
            .skip(1)
            .collect(rt.alloc())
            .map_err(|_| Status::NoMemory),
        Err(error) if error.kind() == ErrorKind::InvalidData => Err(Status::Usage),
        Err(_) => Err(Status::NoMemory),
    }
}

/// All of the program but its exit status. Where there are no words it ends with what refused them.
fn run<R: AllocGlobal + Threads + Wait + Sync, S: Source, W: Write + Drop, E: Sink>(
    rt: &R,
    words: Result<Vec<String>, Status>,
    src: &mut S,
    stdout: W,
    err: &mut E,
) -> Status
    requires { ForErr words (λ status. (status ≡ Status.Usage) ⊎ (status ≡ Status.NoMemory)) }
    ensures no_words { IfErr words (λ status. result ≡ status) }
    ensures no_words_reads_nothing { IfErr words (λ _. src.new ≡ src.old) }
    ensures usage { IfOk words (λ words. result ≡ Status.Usage → request_of (map string_bytes words.items) ≡ None) }
    ensures usage_is_told { IfOk words (λ words. request_of (map string_bytes words.items) ≡ None
        → IsOrNoMemory Status.Usage result) }
    ensures reads_nothing { IfOk words (λ words. AsksNoScript (map string_bytes words.items) → src.new ≡ src.old) }

    // What the top call says of the source, whatever source it is.
    ensures done { IfOk words (λ words. AsksScript (map string_bytes words.items) → result ≡ Status.Done
        → GivesScript (S.rest src.old) (S.rest src.new)) }
    ensures write_fault { IfOk words (λ words. AsksScript (map string_bytes words.items) → result ≡ Status.WriteFault
        → GivesScript (S.rest src.old) (S.rest src.new)) }
    ensures read_fault { result ≡ Status.ReadFault
        → ((bytes : List ℕ) × BreaksOff (S.rest src.old) (S.rest src.new) (S.faults src.old) (S.faults src.new) bytes) }
    ensures long { result ≡ Status.Long
        → ((bytes : List ℕ) × IsTooLong (S.rest src.old) (S.rest src.new) bytes) }
    ensures bad { (line cause : ℕ) → result ≡ Status.Bad line cause
        → ((bytes : List ℕ) × IsNoScript (S.rest src.old) (S.rest src.new) bytes line cause) }
    ensures src_quiet { result ≢ Status.ReadFault → S.faults src.new ≡ S.faults src.old }

    ensures told { ¬ HasRisen (E.faults err.old) (E.faults err.new)
        → Appends (E.written err.old) (E.written err.new) (status_line result) }
{
    let words = match words {
        Ok(words) => words,
        Err(status) => return refused(status, err),
    };
    let Ok(writer) = BufWriter::with_capacity(rt.alloc(), BUFFER, stdout) else {
        return refused(Status::NoMemory, err);
    };
    let mut out = StdSink::make(writer);
    play_and_flush(rt, words.as_slice(), src, &mut out, err)
}

/// Ends with this status before the top call or after it, and writes its line.
fn refused<E: Sink>(status: Status, err: &mut E) -> Status
    ensures same { result ≡ status }
    ensures told { ¬ HasRisen (E.faults err.old) (E.faults err.new)
        → Appends (E.written err.old) (E.written err.new) (status_line status) }
    ensures never_falls { E.faults err.old ≤ E.faults err.new }
{
    write_status(status, err);
    status
}

/// Calls the top call, and then flushes the output. A last flush that fails is a write fault.
fn play_and_flush<R: AllocGlobal + Threads + Wait + Sync, S: Source, W: Write + Drop, E: Sink>(
    rt: &R,
    words: &[String],
    src: &mut S,
    out: &mut StdSink<W>,
    err: &mut E,
) -> Status
    ensures usage { result ≡ Status.Usage → request_of (map string_bytes words.now) ≡ None }
    ensures usage_is_told { request_of (map string_bytes words.now) ≡ None → IsOrNoMemory Status.Usage result }
    ensures reads_nothing { AsksNoScript (map string_bytes words.now) → src.new ≡ src.old }
    ensures done { AsksScript (map string_bytes words.now) → result ≡ Status.Done → GivesScript (S.rest src.old) (S.rest src.new) }
    ensures write_fault { AsksScript (map string_bytes words.now) → result ≡ Status.WriteFault
        → GivesScript (S.rest src.old) (S.rest src.new) }
    ensures write_fault_counted { result ≡ Status.WriteFault → HasRisen out.old.faults out.new.faults }
    ensures read_fault { result ≡ Status.ReadFault
        → ((bytes : List ℕ) × BreaksOff (S.rest src.old) (S.rest src.new) (S.faults src.old) (S.faults src.new) bytes) }
    ensures long { result ≡ Status.Long
        → ((bytes : List ℕ) × IsTooLong (S.rest src.old) (S.rest src.new) bytes) }
    ensures bad { (line cause : ℕ) → result ≡ Status.Bad line cause
        → ((bytes : List ℕ) × IsNoScript (S.rest src.old) (S.rest src.new) bytes line cause) }

    // Each fault that was counted is told, that of the last flush too.
    ensures src_quiet { result ≢ Status.ReadFault → S.faults src.new ≡ S.faults src.old }
    ensures out_quiet { result ≢ Status.WriteFault → out.new.faults ≡ out.old.faults }

    ensures told { ¬ HasRisen (E.faults err.old) (E.faults err.new)
        → Appends (E.written err.old) (E.written err.new) (status_line result) }
{
    let status = moar_gc(rt, rt.alloc(), words, src, out, err, &OpenGate).status;
    let Status::Done = status else {
        return status;
    };
    match out.finish() {
        Put::All => Status::Done,
        Put::Failed => refused(Status::WriteFault, err),
    }
}
