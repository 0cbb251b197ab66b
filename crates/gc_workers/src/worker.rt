//! What one worker does.
ghost use Rattle.std.specs.Prelude.{◌≡◌, ◌+◌, ◌≤◌, length};
ghost use Rattle.gc_locked.specs.Locked.{IsPassOf};
ghost use Rattle.gc_locked.specs.Setup.{lines_of};
ghost use Rattle.gc_model.specs.History.{calls_in};
ghost use Rattle.gc_workers.specs.Workers.{IsFresh, done_by};

use crossbeam_utils::Backoff;
use gc_io::Gate;
use gc_locked::{Locked, Pass};
use std::sync::Wait;

/// Makes the lines of the pass's mutator in their order, each after the gate let it pass, and then its End. The first line
/// of all has the number `first` in the text.
pub(crate) fn play_part<R: Wait, G: Gate>(
    rt: &R,
    locked: &Locked,
    first: u32,
    gate: &G,
    mut pass: Pass,
) -> Pass
    requires first { first ≤ 258 }
    requires fresh { IsFresh locked.now pass }
    ensures done { result ≡ done_by locked.now pass }
{
    let lines = locked.lines();
    for index in 0..lines.len() {
        if lines[index].mutator == pass.mutator() {
            play_line(rt, locked, gate, &mut pass, first + index as u32);
        }
    }
    locked.step(rt, &mut pass);
    pass
}

/// Makes the next line of the pass's mutator, which has this number, after the gate let it pass.
fn play_line<R: Wait, G: Gate>(rt: &R, locked: &Locked, gate: &G, pass: &mut Pass, line: u32)
    requires own { IsPassOf locked.now pass.old }
    requires left { pass.old.made ≤ length (calls_in pass.old.mutator (lines_of locked.now.setup)) }
    ensures own { IsPassOf locked.now pass.new }
    ensures mutator { pass.new.mutator ≡ pass.old.mutator }
    ensures made { pass.new.made ≡ pass.old.made + 1 }
{
    wait_for(rt, gate, pass.mutator(), line);
    locked.step(rt, pass);
    gate.after(pass.mutator(), line);
}

/// Asks a gate until it lets a line pass. Between two questions the processor is left to others.
fn wait_for<R: Wait, G: Gate>(rt: &R, gate: &G, mutator: u8, line: u32) {
    let backoff = Backoff::new();
    for _ in rt.forever() {
        if gate.before(mutator, line) {
            break;
        }
        backoff.snooze();
    }
}
