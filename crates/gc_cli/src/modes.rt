//! The modes of the program: a script that is read is played, by one thread or by a worker for each mutator; a generated
//! one is written, or is played. Each step but the last can end the whole with a status of its own.

ghost use Rattle.std.specs.Prelude.{◌≡◌, ◌≢◌, ◌<◌, ◌≤◌, ℕ, List, length, IfOk, IfErr, IsErrOf};
ghost use Rattle.gc_io.specs.Faults.{HasRisen};
ghost use Rattle.gc_io.specs.Streams.{Appends, AppendsPrefix};
ghost use Rattle.gc_model.specs.History.{History};
ghost use Rattle.gc_script.specs.Generated.{generated};
ghost use Rattle.gc_script.specs.Grammar.{IsScript, IsFirstFault};
ghost use Rattle.gc_script.specs.Text.{most_bytes};
ghost use Rattle.gc_script.specs.Script.{Script as Text};
ghost use Rattle.gc_script.specs.Written.{written};
ghost use Rattle.gc_cli.specs.Causes.{HasNoScript, Tells, IsOrNoMemory};
ghost use Rattle.gc_cli.specs.Played.{AreAllowed, AreAllowedRounds, IsRead, IsTooLong, IsNoScript, BreaksOff, IsPlayedByOne, IsPlayedByWorkers, Plays, PlaysInPart, Prints, PrintsInPart, summarized};

use crate::input::{InputFault, read_input};
use crate::opts::Opts;
use crate::output::write_text;
use crate::play::{Played, play};
use crate::run::run;
use crate::status::{Left, Outcome, Status};
use gc_io::{Gate, Put, Sink, Source};
use gc_script::{Script, ScriptFault, make_script, read_script, write_script};
use std::alloc::Global;
use std::sync::Wait;
use std::thread::Threads;

/// Reads a script, plays its lines in the order of the text, and then each mutator's End, and writes the replies
/// by line number and, with `reports`, the reports of the collections behind them. It waits for nobody. A half of
/// the heap has `nursery` words, and each mutator `pages` pages.
pub fn play_bytes<S: Source, K: Sink>(
    alloc: Global,
    opts: &Opts,
    src: &mut S,
    out: &mut K,
) -> Outcome
    requires { AreAllowed opts.now }

    // The source was read to its end, its bytes are a script, and the sink got the text of a legal history that
    // fits the script. The heap that is left stands for that history.
    ensures done { result.status ≡ Status.Done
        → ((bytes : List ℕ) × (script : Text) × (history : History) × Plays opts.now (S.rest src.old) (S.rest src.new)
        (K.written out.old) (K.written out.new) (IsPlayedByOne result.left) bytes script history) }

    // Each other status has its cause; want of memory is free.
    ensures no_usage { result.status ≢ Status.Usage }
    ensures read_fault { result.status ≡ Status.ReadFault
        → ((bytes : List ℕ) × BreaksOff (S.rest src.old) (S.rest src.new) (S.faults src.old) (S.faults src.new) bytes) }
    ensures long { result.status ≡ Status.Long
        → ((bytes : List ℕ) × IsTooLong (S.rest src.old) (S.rest src.new) bytes) }
    ensures bad { (line cause : ℕ) → result.status ≡ Status.Bad line cause
        → ((bytes : List ℕ) × IsNoScript (S.rest src.old) (S.rest src.new) bytes line cause) }
    ensures write_fault { result.status ≡ Status.WriteFault → HasRisen (K.faults out.old) (K.faults out.new) }
    ensures write_part { result.status ≡ Status.WriteFault
        → ((bytes : List ℕ) × (script : Text) × (history : History) × PlaysInPart opts.now (S.rest src.old) (S.rest src.new)
        (K.written out.old) (K.written out.new) (IsPlayedByOne result.left) bytes script history) }

    // What else was given is told: a text that is too long, the first fault of one that is no script; and a
    // script is played, where the sink counts no fault. Want of memory may stand in place of each.
    ensures long_is_told { (bytes : List ℕ) → Tells (S.rest src.old) (S.faults src.old) (S.faults src.new) bytes
        → most_bytes < length bytes → IsOrNoMemory Status.Long result.status }
    ensures bad_is_told { (bytes : List ℕ) (line cause : ℕ) → Tells (S.rest src.old) (S.faults src.old) (S.faults src.new) bytes
        → length bytes ≤ most_bytes → IsFirstFault bytes line cause → IsOrNoMemory (Status.Bad line cause) result.status }
    ensures complete { (bytes : List ℕ) (script : Text) → Tells (S.rest src.old) (S.faults src.old) (S.faults src.new) bytes
        → length bytes ≤ most_bytes → IsScript bytes script → ¬ HasRisen (K.faults out.old) (K.faults out.new)
        → IsOrNoMemory Status.Done result.status }

    // Each fault that was counted is told.
    ensures src_quiet { result.status ≢ Status.ReadFault → S.faults src.new ≡ S.faults src.old }
    ensures out_quiet { result.status ≢ Status.WriteFault → K.faults out.new ≡ K.faults out.old }

    // Unless something was played and written, the sink is as before, and no heap is left.
    ensures untouched { result.status ≢ Status.Done → result.status ≢ Status.WriteFault → out.new ≡ out.old }
    ensures left { result.status ≢ Status.Done → result.status ≢ Status.WriteFault → result.left ≡ Left.Nothing }
    ensures src_never_falls { S.faults src.old ≤ S.faults src.new }
    ensures out_never_falls { K.faults out.old ≤ K.faults out.new }
{
    let script = match read_source(alloc, src) {
        Ok(script) => script,
        Err(status) => return Outcome::nothing_left(status),
    };
    play_script(alloc, opts, script, out)
}

/// Reads a script, plays it with a worker for each mutator, and writes what `play_bytes` writes. Each worker makes its
/// mutator's lines in their order, each when the gate lets it pass, and then the End; the replies are written when all
/// are done.
pub(crate) fn run_bytes<R: Threads + Wait + Sync, S: Source, K: Sink, G: Gate + Sync>(
    rt: &R,
    alloc: Global,
    opts: &Opts,
    src: &mut S,
    out: &mut K,
    gate: &G,
) -> Outcome
    requires { AreAllowed opts.now }

    // The source was read to its end, its bytes are a script, and the sink got the text of a legal history that
    // fits the script. The journal that is left has that history.
    ensures done { result.status ≡ Status.Done
        → ((bytes : List ℕ) × (script : Text) × (history : History) × Plays opts.now (S.rest src.old) (S.rest src.new)
        (K.written out.old) (K.written out.new) (IsPlayedByWorkers result.left) bytes script history) }

    // Each other status has its cause; want of memory is free.
    ensures no_usage { result.status ≢ Status.Usage }
    ensures read_fault { result.status ≡ Status.ReadFault
        → ((bytes : List ℕ) × BreaksOff (S.rest src.old) (S.rest src.new) (S.faults src.old) (S.faults src.new) bytes) }
    ensures long { result.status ≡ Status.Long
        → ((bytes : List ℕ) × IsTooLong (S.rest src.old) (S.rest src.new) bytes) }
    ensures bad { (line cause : ℕ) → result.status ≡ Status.Bad line cause
        → ((bytes : List ℕ) × IsNoScript (S.rest src.old) (S.rest src.new) bytes line cause) }
    ensures write_fault { result.status ≡ Status.WriteFault → HasRisen (K.faults out.old) (K.faults out.new) }
    ensures write_part { result.status ≡ Status.WriteFault
        → ((bytes : List ℕ) × (script : Text) × (history : History) × PlaysInPart opts.now (S.rest src.old) (S.rest src.new)
        (K.written out.old) (K.written out.new) (IsPlayedByWorkers result.left) bytes script history) }

    // What else was given is told: a text that is too long, the first fault of one that is no script; and a
    // script is played, where the sink counts no fault. Want of memory may stand in place of each.
    ensures long_is_told { (bytes : List ℕ) → Tells (S.rest src.old) (S.faults src.old) (S.faults src.new) bytes
        → most_bytes < length bytes → IsOrNoMemory Status.Long result.status }
    ensures bad_is_told { (bytes : List ℕ) (line cause : ℕ) → Tells (S.rest src.old) (S.faults src.old) (S.faults src.new) bytes
        → length bytes ≤ most_bytes → IsFirstFault bytes line cause → IsOrNoMemory (Status.Bad line cause) result.status }
    ensures complete { (bytes : List ℕ) (script : Text) → Tells (S.rest src.old) (S.faults src.old) (S.faults src.new) bytes
        → length bytes ≤ most_bytes → IsScript bytes script → ¬ HasRisen (K.faults out.old) (K.faults out.new)
        → IsOrNoMemory Status.Done result.status }

    // Each fault that was counted is told.
    ensures src_quiet { result.status ≢ Status.ReadFault → S.faults src.new ≡ S.faults src.old }
    ensures out_quiet { result.status ≢ Status.WriteFault → K.faults out.new ≡ K.faults out.old }

    // Unless something was played and written, the sink is as before, and no heap is left.
    ensures untouched { result.status ≢ Status.Done → result.status ≢ Status.WriteFault → out.new ≡ out.old }
    ensures left { result.status ≢ Status.Done → result.status ≢ Status.WriteFault → result.left ≡ Left.Nothing }
    ensures src_never_falls { S.faults src.old ≤ S.faults src.new }
    ensures out_never_falls { K.faults out.old ≤ K.faults out.new }
{
    let script = match read_source(alloc, src) {
        Ok(script) => script,
        Err(status) => return Outcome::nothing_left(status),
    };
    run_script(rt, alloc, opts, script, out, gate)
}

/// Writes the generated script of so many rounds. It reads nothing, and no heap is left.
pub(crate) fn make<K: Sink>(alloc: Global, rounds: u32, out: &mut K) -> Outcome
    requires { AreAllowedRounds rounds }
    ensures done { result.status ≡ Status.Done → Appends (K.written out.old) (K.written out.new) (written (generated rounds)) }
    ensures write_fault { result.status ≡ Status.WriteFault → HasRisen (K.faults out.old) (K.faults out.new) }
    ensures write_part { result.status ≡ Status.WriteFault
        → AppendsPrefix (K.written out.old) (K.written out.new) (written (generated rounds)) }
    ensures no_other { result.status ≢ Status.Done → result.status ≢ Status.WriteFault → result.status ≡ Status.NoMemory }
    ensures out_quiet { result.status ≢ Status.WriteFault → K.faults out.new ≡ K.faults out.old }
    ensures untouched { result.status ≢ Status.Done → result.status ≢ Status.WriteFault → out.new ≡ out.old }
    ensures left { result.left ≡ Left.Nothing }
    ensures out_never_falls { K.faults out.old ≤ K.faults out.new }
{
    let Ok(script) = make_script(alloc, rounds) else {
        return Outcome::nothing_left(Status::NoMemory);
    };
    match write_script(&script, out) {
        Put::All => Outcome::nothing_left(Status::Done),
        Put::Failed => Outcome::nothing_left(Status::WriteFault),
    }
}

/// Plays the generated script of so many rounds, and writes the summary of the replies and, where the options ask for
/// them, the reports of the collections behind it. It reads nothing.
pub(crate) fn drill<K: Sink>(alloc: Global, rounds: u32, opts: &Opts, out: &mut K) -> Outcome
    requires rounds { AreAllowedRounds rounds }
    requires opts { AreAllowed opts.now }
    ensures done { result.status ≡ Status.Done → ((history : History)
        × Prints (summarized opts.now) (K.written out.old) (K.written out.new) (IsPlayedByOne result.left) (generated rounds) history) }
    ensures write_fault { result.status ≡ Status.WriteFault → HasRisen (K.faults out.old) (K.faults out.new) }
    ensures write_part { result.status ≡ Status.WriteFault → ((history : History)
        × PrintsInPart (summarized opts.now) (K.written out.old) (K.written out.new) (IsPlayedByOne result.left) (generated rounds) history) }
    ensures no_other { result.status ≢ Status.Done → result.status ≢ Status.WriteFault → result.status ≡ Status.NoMemory }
    ensures out_quiet { result.status ≢ Status.WriteFault → K.faults out.new ≡ K.faults out.old }
    ensures untouched { result.status ≢ Status.Done → result.status ≢ Status.WriteFault → out.new ≡ out.old }
    ensures left { result.status ≢ Status.Done → result.status ≢ Status.WriteFault → result.left ≡ Left.Nothing }
    ensures out_never_falls { K.faults out.old ≤ K.faults out.new }
{
    let Ok(script) = make_script(alloc, rounds) else {
        return Outcome::nothing_left(Status::NoMemory);
    };
    let opts = Opts {
        summary: true,
        ..*opts
    };
    play_script(alloc, &opts, script, out)
}

/// Plays a script on one thread, and writes what is to be printed of it.
fn play_script<K: Sink>(alloc: Global, opts: &Opts, script: Script, out: &mut K) -> Outcome
    requires { AreAllowed opts.now }
    ensures done { result.status ≡ Status.Done → ((history : History)
        × Prints opts.now (K.written out.old) (K.written out.new) (IsPlayedByOne result.left) script history) }
    ensures write_fault { result.status ≡ Status.WriteFault → HasRisen (K.faults out.old) (K.faults out.new) }
    ensures write_part { result.status ≡ Status.WriteFault → ((history : History)
        × PrintsInPart opts.now (K.written out.old) (K.written out.new) (IsPlayedByOne result.left) script history) }
    ensures no_other { result.status ≢ Status.Done → result.status ≢ Status.WriteFault → result.status ≡ Status.NoMemory }
    ensures out_quiet { result.status ≢ Status.WriteFault → K.faults out.new ≡ K.faults out.old }
    ensures untouched { result.status ≢ Status.Done → result.status ≢ Status.WriteFault → out.new ≡ out.old }
    ensures left { result.status ≢ Status.Done → result.status ≢ Status.WriteFault → result.left ≡ Left.Nothing }
    ensures out_never_falls { K.faults out.old ≤ K.faults out.new }
{
    let Ok(played) = play(alloc, opts, &script) else {
        return Outcome::nothing_left(Status::NoMemory);
    };
    let Played { solo, replies } = played;
    let (heading, _) = script.into_parts();
    match write_text(opts, &heading, replies.as_slice(), solo.reports(), out) {
        Put::All => Outcome::solo_left(Status::Done, solo),
        Put::Failed => Outcome::solo_left(Status::WriteFault, solo),
    }
}

/// Plays a script with a worker for each mutator, and writes what is to be printed of it.
fn run_script<R: Threads + Wait + Sync, K: Sink, G: Gate + Sync>(
    rt: &R,
    alloc: Global,
    opts: &Opts,
    script: Script,
    out: &mut K,
    gate: &G,
) -> Outcome
    requires { AreAllowed opts.now }
    ensures done { result.status ≡ Status.Done → ((history : History)
        × Prints opts.now (K.written out.old) (K.written out.new) (IsPlayedByWorkers result.left) script history) }
    ensures write_fault { result.status ≡ Status.WriteFault → HasRisen (K.faults out.old) (K.faults out.new) }
    ensures write_part { result.status ≡ Status.WriteFault → ((history : History)
        × PrintsInPart opts.now (K.written out.old) (K.written out.new) (IsPlayedByWorkers result.left) script history) }
    ensures no_other { result.status ≢ Status.Done → result.status ≢ Status.WriteFault → result.status ≡ Status.NoMemory }
    ensures out_quiet { result.status ≢ Status.WriteFault → K.faults out.new ≡ K.faults out.old }
    ensures untouched { result.status ≢ Status.Done → result.status ≢ Status.WriteFault → out.new ≡ out.old }
    ensures left { result.status ≢ Status.Done → result.status ≢ Status.WriteFault → result.left ≡ Left.Nothing }
    ensures out_never_falls { K.faults out.old ≤ K.faults out.new }
{
    let Ok((journal, heading)) = run(rt, alloc, opts, script, gate) else {
        return Outcome::nothing_left(Status::NoMemory);
    };
    match write_text(opts, &heading, journal.replies(), journal.reports(), out) {
        Put::All => Outcome::journal_left(Status::Done, journal),
        Put::Failed => Outcome::journal_left(Status::WriteFault, journal),
    }
}

/// Reads a script from a source that is read to its end.
fn read_source<S: Source>(alloc: Global, src: &mut S) -> Result<Script, Status>
    ensures script { IfOk result (λ script. (bytes : List ℕ)
        × IsRead (S.rest src.old) (S.rest src.new) bytes × IsScript bytes script) }
    ensures fault { IfErr result (λ status.
        HasNoScript status (S.rest src.old) (S.rest src.new) (S.faults src.old) (S.faults src.new)) }
    ensures quiet { ¬ IsErrOf result Status.ReadFault → S.faults src.new ≡ S.faults src.old }
    ensures never_falls { S.faults src.old ≤ S.faults src.new }
{
    let bytes = match read_input(alloc, src) {
        Ok(bytes) => bytes,
        Err(InputFault::Fault) => return Err(Status::ReadFault),
        Err(InputFault::Long) => return Err(Status::Long),
        Err(InputFault::NoMemory) => return Err(Status::NoMemory),
    };
    match read_script(alloc, bytes.as_slice()) {
        Ok(script) => Ok(script),
        Err(ScriptFault::Bad { line, cause }) => Err(Status::Bad { line, cause }),
        Err(ScriptFault::Long) => unreachable!(),
        Err(ScriptFault::NoMemory) => Err(Status::NoMemory),
    }
}
