//! A worker for each pass.
ghost use Rattle.std.specs.Prelude.{◌≡◌, ◌≤◌, All, map, vec_capacity};
ghost use Rattle.std.specs.Thread.{IsSync};
ghost use Rattle.gc_locked.specs.Locked.{LockedHeap, PassView};
ghost use Rattle.gc_workers.specs.Workers.{IsFresh, done_by};

use crate::worker::play_part;
use gc_io::Gate;
use gc_locked::{Locked, Pass};
use std::sync::Wait;
use std::thread::{Threads, join};

/// Plays the lines of the mutators of all passes, at once, and gives the passes back in their order. One worker is
/// started for the last of them, and beside it the others go on in this way.
pub(crate) fn play_all<R: Threads + Wait + Sync, G: Gate + Sync>(
    rt: &R,
    locked: &Locked,
    first: u32,
    gate: &G,
    mut passes: Vec<Pass>,
) -> Vec<Pass>
    requires first { first ≤ 258 }
    requires fresh { All (IsFresh locked.now) passes.items }
    ensures done { result.items ≡ map (done_by locked.now) passes.items }
    ensures memory { vec_capacity passes ≤ vec_capacity result }
{
    let Some(pass) = passes.pop() else {
        return passes;
    };
    let (pass, mut passes) = join(
        rt,
        || -> Pass
            requires { IsFresh locked.now pass × (first ≤ 258) }
            ensures { result ≡ done_by locked.entry.now pass }
        { play_part(rt, locked, first, gate, pass) },
        || -> Vec<Pass>
            requires { IsSync R.row × IsSync G.row × All (IsFresh locked.now) passes.items × (first ≤ 258) }
            ensures { (result.items ≡ map (done_by locked.entry.now) passes.items) × (vec_capacity passes ≤ vec_capacity result) }
        { play_all(rt, locked, first, gate, passes) },
    );
    passes.push_reserved(pass);
    passes
}
