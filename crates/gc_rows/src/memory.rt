//! The theorem of the top call where all bytes are told: a source and sinks in memory.

ghost use Rattle.std.specs.Prelude.{◌≡◌, ◌≢◌, ℕ, ◌+◌, ◌<◌, ◌≤◌, ◌++◌, List, [], length, take, None, Some, map, string_bytes, IfSome};
ghost use Rattle.gc_io.specs.Faults.{HasRisen};
ghost use Rattle.gc_model.specs.History.{History};
ghost use Rattle.gc_script.specs.Generated.{generated};
ghost use Rattle.gc_script.specs.Grammar.{IsScript, IsFirstFault};
ghost use Rattle.gc_script.specs.Script.{Script};
ghost use Rattle.gc_script.specs.Text.{most_bytes};
ghost use Rattle.gc_script.specs.Written.{written};
ghost use Rattle.gc_cli.specs.Causes.{IsOrNoMemory};
ghost use Rattle.gc_cli.specs.Command.{request_of, status_line};
ghost use Rattle.gc_cli.specs.Played.{AsksNoScript, AsksScript, IsAllowed, IsHistoryOf, IsPlayedByOne, IsPlayedByWorkers, summarized};
ghost use Rattle.gc_cli.specs.Text.{text_of};
ghost use Rattle.gc_cli.specs.declared.command.Request.TheVariants.{Drill, Make, Play, Run};
ghost use Rattle.gc_cli.specs.declared.opts.Opts.{Opts};

use gc_cli::{Left, Outcome, Status, moar_gc};
use gc_io::{Gate, MemorySink, MemorySource};
use std::alloc::Global;
use std::sync::Wait;
use std::thread::Threads;

/// The top call over a source and sinks in memory, with a gate.
pub fn run_in_memory<R: Threads + Wait + Sync, G: Gate + Sync>(
    rt: &R,
    alloc: Global,
    words: &[String],
    src: &mut MemorySource,
    out: &mut MemorySink,
    err: &mut MemorySink,
    gate: &G,
) -> Outcome
    // Where it is done and the words ask for a script to be played, all that the source had is a script, and the output
    // has got the text of a legal history that fits it, by these options. The heap that is left stands for that history.
    ensures played { (opts : Opts) → request_of (map string_bytes words.now) ≡ Some (Play opts) → result.status ≡ Status.Done
        → ((script : Script) × (history : History) × IsScript src.old.rest script
        × IsHistoryOf opts script history × IsPlayedByOne result.left opts script history
        × (out.new.written ≡ out.old.written ++ text_of opts script history)) }
    ensures reads_all { AsksScript (map string_bytes words.now) → result.status ≡ Status.Done → src.new.rest ≡ [] }

    // Where they ask for it to be run, the journal that is left has the history.
    ensures ran { (opts : Opts) → request_of (map string_bytes words.now) ≡ Some (Run opts) → result.status ≡ Status.Done
        → ((script : Script) × (history : History) × IsScript src.old.rest script
        × IsHistoryOf opts script history × IsPlayedByWorkers result.left opts script history
        × (out.new.written ≡ out.old.written ++ text_of opts script history)) }

    // Where they ask for a generated script, it was written, or it was played and its summary written.
    ensures made { (rounds : ℕ) → request_of (map string_bytes words.now) ≡ Some (Make rounds) → result.status ≡ Status.Done
        → out.new.written ≡ out.old.written ++ written (generated rounds) }
    ensures make_leaves_nothing { (rounds : ℕ) → request_of (map string_bytes words.now) ≡ Some (Make rounds)
        → result.left ≡ Left.Nothing }
    ensures drilled { (rounds : ℕ) (opts : Opts) → request_of (map string_bytes words.now) ≡ Some (Drill rounds opts)
        → result.status ≡ Status.Done
        → ((history : History) × IsHistoryOf (summarized opts) (generated rounds) history
        × IsPlayedByOne result.left (summarized opts) (generated rounds) history
        × (out.new.written ≡ out.old.written ++ text_of (summarized opts) (generated rounds) history)) }

    // The words ask for nothing beyond the limits.
    ensures allowed { IfSome (request_of (map string_bytes words.now)) IsAllowed }

    // Usage is answered exactly where the words are no command line, want of memory apart; and the source is read only
    // where a script is asked for.
    ensures usage { result.status ≡ Status.Usage → request_of (map string_bytes words.now) ≡ None }
    ensures usage_is_told { request_of (map string_bytes words.now) ≡ None → IsOrNoMemory Status.Usage result.status }
    ensures reads_nothing { AsksNoScript (map string_bytes words.now) → src.new ≡ src.old }

    // A script is refused only where all that the source had is none, and with its first fault.
    ensures bad { (line cause : ℕ) → result.status ≡ Status.Bad line cause
        → IsFirstFault src.old.rest line cause }
    ensures bad_reads_all { (line cause : ℕ) → result.status ≡ Status.Bad line cause → src.new.rest ≡ [] }
    ensures bad_is_told { (line cause : ℕ) → AsksScript (map string_bytes words.now)
        → ¬ HasRisen src.old.faults src.new.faults → length src.old.rest ≤ most_bytes
        → IsFirstFault src.old.rest line cause → IsOrNoMemory (Status.Bad line cause) result.status }

    // It is too long only where the source had more than a script may have; then one byte more was read.
    ensures long { result.status ≡ Status.Long → most_bytes < length src.old.rest }
    ensures long_stops { result.status ≡ Status.Long
        → ((bytes : List ℕ) × (length bytes ≡ most_bytes + 1) × (src.old.rest ≡ bytes ++ src.new.rest)) }
    ensures long_is_told { AsksScript (map string_bytes words.now)
        → ¬ HasRisen src.old.faults src.new.faults → most_bytes < length src.old.rest
        → IsOrNoMemory Status.Long result.status }

    // A fault of the source is told only where it was counted, and before the byte that is too many.
    ensures read_fault { result.status ≡ Status.ReadFault → HasRisen src.old.faults src.new.faults }
    ensures read_fault_stops { result.status ≡ Status.ReadFault
        → ((bytes : List ℕ) × (length bytes ≤ most_bytes) × (src.old.rest ≡ bytes ++ src.new.rest)) }

    // So is a fault of the output, which has then got a first part of the text.
    ensures write_fault { result.status ≡ Status.WriteFault → HasRisen out.old.faults out.new.faults }
    ensures write_part { (opts : Opts) → request_of (map string_bytes words.now) ≡ Some (Play opts)
        → result.status ≡ Status.WriteFault
        → ((script : Script) × (history : History) × (count : ℕ) × IsScript src.old.rest script
        × IsHistoryOf opts script history × IsPlayedByOne result.left opts script history
        × (out.new.written ≡ out.old.written ++ take count (text_of opts script history))) }
    ensures run_part { (opts : Opts) → request_of (map string_bytes words.now) ≡ Some (Run opts)
        → result.status ≡ Status.WriteFault
        → ((script : Script) × (history : History) × (count : ℕ) × IsScript src.old.rest script
        × IsHistoryOf opts script history × IsPlayedByWorkers result.left opts script history
        × (out.new.written ≡ out.old.written ++ take count (text_of opts script history))) }
    ensures write_fault_reads_all { AsksScript (map string_bytes words.now) → result.status ≡ Status.WriteFault
        → src.new.rest ≡ [] }
    ensures make_part { (rounds : ℕ) → request_of (map string_bytes words.now) ≡ Some (Make rounds)
        → result.status ≡ Status.WriteFault
        → ((count : ℕ) × (out.new.written ≡ out.old.written ++ take count (written (generated rounds)))) }
    ensures drill_part { (rounds : ℕ) (opts : Opts) → request_of (map string_bytes words.now) ≡ Some (Drill rounds opts)
        → result.status ≡ Status.WriteFault
        → ((history : History) × (count : ℕ) × IsHistoryOf (summarized opts) (generated rounds) history
        × IsPlayedByOne result.left (summarized opts) (generated rounds) history
        × (out.new.written ≡ out.old.written ++ take count (text_of (summarized opts) (generated rounds) history))) }

    // A script is played where no fault is counted, and a generated one is written or played; or memory is wanting.
    ensures complete { (script : Script) → AsksScript (map string_bytes words.now)
        → ¬ HasRisen src.old.faults src.new.faults → length src.old.rest ≤ most_bytes
        → IsScript src.old.rest script → ¬ HasRisen out.old.faults out.new.faults
        → IsOrNoMemory Status.Done result.status }
    ensures make_complete { (rounds : ℕ) → request_of (map string_bytes words.now) ≡ Some (Make rounds)
        → ¬ HasRisen out.old.faults out.new.faults → IsOrNoMemory Status.Done result.status }
    ensures drill_complete { (rounds : ℕ) (opts : Opts) → request_of (map string_bytes words.now) ≡ Some (Drill rounds opts)
        → ¬ HasRisen out.old.faults out.new.faults → IsOrNoMemory Status.Done result.status }

    // Each fault that was counted is told, and unless something was played and written the output is as before.
    ensures src_quiet { result.status ≢ Status.ReadFault → src.new.faults ≡ src.old.faults }
    ensures out_quiet { result.status ≢ Status.WriteFault → out.new.faults ≡ out.old.faults }
    ensures untouched { result.status ≢ Status.Done → result.status ≢ Status.WriteFault → out.new ≡ out.old }
    ensures left { result.status ≢ Status.Done → result.status ≢ Status.WriteFault → result.left ≡ Left.Nothing }

    // The line of the status goes to standard error, whole where no fault was counted there.
    ensures told { ¬ HasRisen err.old.faults err.new.faults
        → err.new.written ≡ err.old.written ++ status_line result.status }
    ensures told_part { (count : ℕ) × (err.new.written ≡ err.old.written ++ take count (status_line result.status)) }
    ensures src_never_falls { src.old.faults ≤ src.new.faults }
    ensures out_never_falls { out.old.faults ≤ out.new.faults }
    ensures err_never_falls { err.old.faults ≤ err.new.faults }
{
    moar_gc(rt, alloc, words, src, out, err, gate)
}
