//! A script, played by its workers.
ghost use Rattle.std.specs.Prelude.{◌≡◌, IfOk};
ghost use Rattle.gc_model.specs.History.{FitsScript};
ghost use Rattle.gc_solo.specs.Stands.{StandsFor, configuration_of};
ghost use Rattle.gc_workers.specs.Workers.{configuration_for};

use crate::fan_out::play_all;
use gc_io::Gate;
use gc_layout::{NoMemory, Places};
use gc_locked::{Journal, Locked};
use gc_script::{Heading, Script};
use std::alloc::Global;
use std::sync::Wait;
use std::thread::Threads;

/// Plays a script on a heap of its own, with a worker for each mutator. All memory is taken before the first line is
/// played. The journal is a legal history that fits the script, and the heap stands for it. It keeps the script's lines;
/// what stands before them is handed back.
pub fn play_script<R: Threads + Wait + Sync, G: Gate + Sync>(
    rt: &R,
    alloc: Global,
    places: Places,
    script: Script,
    gate: &G,
) -> Result<(Journal, Heading), NoMemory>
    requires mutators { places.mutators ≡ script.preamble.mutators }
    ensures configuration { IfOk result (λ played. configuration_of played.0.heap ≡ configuration_for places script) }
    ensures fits { IfOk result (λ played. FitsScript script.preamble.mutators script.lines played.0.entries) }
    ensures stands { IfOk result (λ played. StandsFor played.0.heap played.0.entries) }
    ensures lines { IfOk result (λ played. played.0.lines ≡ script.lines) }
    ensures heading { IfOk result (λ played. played.1 ≡ script) }
{
    let (heading, lines) = script.into_parts();
    let (locked, passes) = Locked::make(alloc, places, heading.types(), lines)?;
    let passes = play_all(rt, &locked, heading.first_line(), gate, passes);
    Ok((locked.finish(passes), heading))
}
