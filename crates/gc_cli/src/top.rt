//! The top call: what the words ask for is done, and the line of the status is written last.

ghost use Rattle.std.specs.Prelude.{◌≡◌, ◌≢◌, ◌≤◌, ◌<◌, ℕ, List, length, None, Some, map, string_bytes, IfSome};
ghost use Rattle.gc_io.specs.Faults.{HasRisen};
ghost use Rattle.gc_io.specs.Streams.{Appends, AppendsPrefix};
ghost use Rattle.gc_script.specs.Grammar.{IsScript, IsFirstFault};
ghost use Rattle.gc_script.specs.Text.{most_bytes};
ghost use Rattle.gc_script.specs.Script.{Script as Text};
ghost use Rattle.gc_cli.specs.Causes.{Tells, IsOrNoMemory};
ghost use Rattle.gc_cli.specs.Command.{request_of, status_line};
ghost use Rattle.gc_cli.specs.Played.{IsTooLong, IsNoScript, BreaksOff, HasDone, HasDoneInPart, IsAllowed, AsksScript, AsksNoScript};
ghost use Rattle.gc_cli.specs.declared.opts.Opts.{Opts as PlayOpts};

use crate::command::{Request, request_of};
use crate::modes::{drill, make, play_bytes, run_bytes};
use crate::status::{Left, Outcome, Status, write_status};
use gc_io::{Gate, Sink, Source};
use gc_layout::NoMemory;
use std::alloc::Global;
use std::sync::Wait;
use std::thread::Threads;

/// The top call: all that the program does. `args` are the words after the program's name, `src` is its
/// standard input, `out` its standard output and `err` its standard error. `run` alone starts workers, waits, and asks
/// the gate.
pub fn moar_gc<R: Threads + Wait + Sync, S: Source, K: Sink, E: Sink, G: Gate + Sync>(
    rt: &R,
    alloc: Global,
    args: &[String],
    src: &mut S,
    out: &mut K,
    err: &mut E,
    gate: &G,
) -> Outcome
    // What the words ask for was done. To play or run: the source was read to its end, its bytes are a script, and the
    // sink got the text of a legal history that fits the script, by these options; the heap that is left stands for that
    // history, or the journal has it. To drill: so with a generated script, and its summary. To make: the sink got the generated script.
    ensures done { result.status ≡ Status.Done → IfSome (request_of (map string_bytes args.now)) (λ request.
        HasDone request (S.rest src.old) (S.rest src.new) (K.written out.old) (K.written out.new) result.left) }

    // The words ask for nothing beyond the limits.
    ensures allowed { IfSome (request_of (map string_bytes args.now)) IsAllowed }

    // Each other status has its cause; want of memory is free.
    ensures usage { result.status ≡ Status.Usage → request_of (map string_bytes args.now) ≡ None }
    ensures read_fault { result.status ≡ Status.ReadFault
        → ((bytes : List ℕ) × BreaksOff (S.rest src.old) (S.rest src.new) (S.faults src.old) (S.faults src.new) bytes) }
    ensures long { result.status ≡ Status.Long
        → ((bytes : List ℕ) × IsTooLong (S.rest src.old) (S.rest src.new) bytes) }
    ensures bad { (line cause : ℕ) → result.status ≡ Status.Bad line cause
        → ((bytes : List ℕ) × IsNoScript (S.rest src.old) (S.rest src.new) bytes line cause) }
    ensures write_fault { result.status ≡ Status.WriteFault → HasRisen (K.faults out.old) (K.faults out.new) }
    ensures write_part { result.status ≡ Status.WriteFault → IfSome (request_of (map string_bytes args.now)) (λ request.
        HasDoneInPart request (S.rest src.old) (S.rest src.new) (K.written out.old) (K.written out.new) result.left) }

    // What else was given is told: words that are no command; a text that is too long, the first fault of one that
    // is no script; and a script is played, or generated, where the sink counts no fault. Want of memory may stand in
    // place of each.
    ensures usage_is_told { request_of (map string_bytes args.now) ≡ None → IsOrNoMemory Status.Usage result.status }
    ensures long_is_told { (bytes : List ℕ) → AsksScript (map string_bytes args.now)
        → Tells (S.rest src.old) (S.faults src.old) (S.faults src.new) bytes
        → most_bytes < length bytes → IsOrNoMemory Status.Long result.status }
    ensures bad_is_told { (bytes : List ℕ) (line cause : ℕ) → AsksScript (map string_bytes args.now)
        → Tells (S.rest src.old) (S.faults src.old) (S.faults src.new) bytes
        → length bytes ≤ most_bytes → IsFirstFault bytes line cause → IsOrNoMemory (Status.Bad line cause) result.status }
    ensures complete { (bytes : List ℕ) (script : Text) → AsksScript (map string_bytes args.now)
        → Tells (S.rest src.old) (S.faults src.old) (S.faults src.new) bytes
        → length bytes ≤ most_bytes → IsScript bytes script → ¬ HasRisen (K.faults out.old) (K.faults out.new)
        → IsOrNoMemory Status.Done result.status }
    ensures make_complete { (rounds : ℕ) → request_of (map string_bytes args.now) ≡ Some (Request.Make rounds)
        → ¬ HasRisen (K.faults out.old) (K.faults out.new) → IsOrNoMemory Status.Done result.status }
    ensures drill_complete { (rounds : ℕ) (opts : PlayOpts)
        → request_of (map string_bytes args.now) ≡ Some (Request.Drill rounds opts)
        → ¬ HasRisen (K.faults out.old) (K.faults out.new) → IsOrNoMemory Status.Done result.status }

    // The source is read only where a script is asked for.
    ensures reads_nothing { AsksNoScript (map string_bytes args.now) → src.new ≡ src.old }

    // Each fault that was counted is told.
    ensures src_quiet { result.status ≢ Status.ReadFault → S.faults src.new ≡ S.faults src.old }
    ensures out_quiet { result.status ≢ Status.WriteFault → K.faults out.new ≡ K.faults out.old }

    // Unless something was written, the sink is as before, and no heap is left.
    ensures untouched { result.status ≢ Status.Done → result.status ≢ Status.WriteFault → out.new ≡ out.old }
    ensures left { result.status ≢ Status.Done → result.status ≢ Status.WriteFault → result.left ≡ Left.Nothing }

    // The line of the status goes to standard error, whole where no fault was counted there.
    ensures told { ¬ HasRisen (E.faults err.old) (E.faults err.new)
        → Appends (E.written err.old) (E.written err.new) (status_line result.status) }
    ensures told_part { AppendsPrefix (E.written err.old) (E.written err.new) (status_line result.status) }
    ensures src_never_falls { S.faults src.old ≤ S.faults src.new }
    ensures out_never_falls { K.faults out.old ≤ K.faults out.new }
    ensures err_never_falls { E.faults err.old ≤ E.faults err.new }
{
    let outcome = match request_of(alloc, args) {
        Ok(Some(Request::Play(opts))) => play_bytes(alloc, &opts, src, out),
        Ok(Some(Request::Run(opts))) => run_bytes(rt, alloc, &opts, src, out, gate),
        Ok(Some(Request::Make(rounds))) => make(alloc, rounds, out),
        Ok(Some(Request::Drill(rounds, opts))) => drill(alloc, rounds, &opts, out),
        Ok(None) => Outcome::nothing_left(Status::Usage),
        Err(NoMemory) => Outcome::nothing_left(Status::NoMemory),
    };
    write_status(outcome.status, err);
    outcome
}
