//! Runs a script: a worker for each mutator plays its lines.
ghost use Rattle.std.specs.Prelude.{◌≡◌, IfOk};
ghost use Rattle.gc_cli.specs.Played.{AreAllowed, IsHistoryOf, IsJournalOf, heap_for};

use crate::opts::Opts;
use gc_io::Gate;
use gc_layout::{NoMemory, Places};
use gc_locked::Journal;
use gc_script::{Heading, Script};
use gc_workers::play_script;
use std::alloc::Global;
use std::sync::Wait;
use std::thread::Threads;

/// Plays a script with a worker for each mutator on a heap of its own. All memory is taken before the first line is
/// played. The journal keeps the script's lines; what stands before them is handed back.
pub(crate) fn run<R: Threads + Wait + Sync, G: Gate + Sync>(
    rt: &R,
    alloc: Global,
    opts: &Opts,
    script: Script,
    gate: &G,
) -> Result<(Journal, Heading), NoMemory>
    requires { AreAllowed opts.now }
    ensures history { IfOk result (λ ran. IsHistoryOf opts.now script ran.0.entries) }
    ensures journal { IfOk result (λ ran. IsJournalOf ran.0 (heap_for opts.now script) ran.0.entries) }
    ensures lines { IfOk result (λ ran. ran.0.lines ≡ script.lines) }
    ensures heading { IfOk result (λ ran. ran.1 ≡ script) }
{
    let places = Places::make(script.mutators(), opts.nursery, opts.pages).unwrap();
    play_script(rt, alloc, places, script, gate)
}
