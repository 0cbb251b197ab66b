//! What the lock guards: the heap and the journal. Its type keeps that the heap stands for the journal, and that the
//! report places and the journal's memory are enough for the calls that are still to be made.
ghost use Rattle.std.specs.Prelude.{◌≡◌, ◌+◌, ◌-◌, ◌<◌, ◌≤◌, ◌++◌, [], length, slice_get, vec_capacity, IfOk, IsTrue, Some};
ghost use Rattle.std.specs.List.{range_with_len};
ghost use Rattle.gc_model.specs.Answer.{IsFit};
ghost use Rattle.gc_solo.specs.Stands.{StandsFor};
ghost use Rattle.gc_locked.specs.Guarded.{IsEntered, StandsForItsJournal, asks_again};
ghost use Rattle.gc_locked.specs.Locked.{AreFit};
ghost use Rattle.gc_locked.specs.Order.{IsKept, journal_of};
ghost use Rattle.gc_locked.specs.Setup.{allowance_of_lines, call_at, count_of, heap_of, lines_of, mutators_of, places_of};

use crate::setup::Setup;
use gc_layout::NoMemory;
use gc_model::{Call, Line, Reply};
use gc_solo::Solo;
use std::alloc::Global;
use std::marker::Model;

/// The heap, and the journal of what was called on it.
#[derive(Drop)]
pub struct Guarded {
    solo: Solo,
    /// The places of the calls that were made, in that order. A collection has the place of its report, behind those of
    /// all calls.
    order: Vec<u32>,
    /// The reply at each place, once its call was made.
    replies: Vec<Reply>,
    setup: Setup,
}

impl Model for Guarded {
    ghost use Rattle.gc_locked.specs.Guarded.{GuardedHeap, IsGuarded, guarded_of};

    ghost Value = { GuardedHeap };

    ghost view = { guarded_of };

    ghost invariant = { IsGuarded };
}

impl Guarded {
    /// The heap, on which nothing was called yet. The journal's memory is taken here: for each line and for each
    /// mutator's End, and for the collections that the lines may bring.
    pub(crate) fn make(
        alloc: Global,
        solo: Solo,
        lines: &Vec<Line>,
        mutators: u8,
        reports: u32,
    ) -> Result<Guarded, NoMemory>
        requires stands { StandsFor solo [] }
        requires mutators { mutators ≡ solo.layout.mutators }
        requires fit { AreFit solo.types solo.layout.mutators lines.now.items }
        requires few { length lines.now.items ≤ 16777216 }
        requires allowance { reports ≡ allowance_of_lines lines.now.items }
        requires most { reports ≤ 33554432 }
        requires room { solo.room ≡ reports }
        ensures journal { IfOk result (λ guarded. guarded.journal ≡ []) }
        ensures heap { IfOk result (λ guarded. guarded.setup.heap.value ≡ solo) }
        ensures lines { IfOk result (λ guarded. guarded.setup.lines.value ≡ lines.now) }
    {
        let places = lines.len() + mutators as usize;
        let Ok(order) = Vec::with_capacity(alloc, places + reports as usize) else {
            return Err(NoMemory);
        };
        let Ok(replies) = vec![in alloc; Reply::Done; places] else {
            return Err(NoMemory);
        };
        let setup = Setup::of(&solo, lines);
        Ok(Guarded {
            solo,
            order,
            replies,
            setup,
        })
    }

    /// Makes a mutator's next call, which stands at this place. The collections that it brought and the call with its
    /// reply enter the journal; but an Await that finds nothing is left out and is to be asked again, unless this is the
    /// last time. It takes no memory.
    pub(crate) fn enter(&mut self, t: u8, place: u32, call: &Call, last: bool) -> bool
        requires fit { IsFit (heap_of self.old.setup).types (mutators_of self.old.setup) t call.now }
        requires next { slice_get (places_of (lines_of self.old.setup) t) (count_of t self.old.journal) ≡ Some place }
        requires call { call.now ≡ call_at (lines_of self.old.setup) place }
        ensures entered { IsEntered result self.old self.new t call.now }
        ensures setup { self.new.setup ≡ self.old.setup }
        ensures last { IsTrue last → IsTrue result }
    {
        let before = self.replies.len() + self.solo.reports().len();
        let reply = self.solo.call(t, call);
        if !last && asks_again(call, reply) {
            return false;
        }
        let behind = self.replies.len() + self.solo.reports().len();
        append(&mut self.order, before, behind);
        self.order.push_reserved(place);
        self.replies[place as usize] = reply;
        true
    }

    /// The heap, the order of the places, and the replies at them.
    pub(crate) fn into_parts(self) -> (Solo, Vec<u32>, Vec<Reply>)
        ensures heap { result.0 ≡ self.heap }
        ensures journal { journal_of (lines_of self.setup) result.2.items self.heap.reports result.1.items ≡ self.journal }
        ensures kept { IsKept (mutators_of self.setup) (lines_of self.setup) result.2.items self.heap.reports result.1.items }
        ensures few { mutators_of self.setup < 256 }
        ensures stands { StandsForItsJournal self }
    {
        let Guarded {
            solo,
            order,
            replies,
            setup: _,
        } = self;
        (solo, order, replies)
    }
}

/// Whether a call is an Await that found nothing.
fn asks_again(call: &Call, reply: Reply) -> bool
    ensures { result ≡ asks_again call.now reply }
{
    match (call, reply) {
        (Call::Await { .. }, Reply::Nil) => true,
        _ => false,
    }
}

/// Appends the places from one on and up to another. There is memory for them.
fn append(order: &mut Vec<u32>, first: usize, behind: usize)
    requires memory { length order.old.items + (behind - first) ≤ vec_capacity order.old }
    requires rise { first ≤ behind }
    requires few { behind ≤ 4294967296 }
    ensures places { order.new.items ≡ order.old.items ++ range_with_len first (behind - first) }
    ensures memory { vec_capacity order.new ≡ vec_capacity order.old }
{
    for place in first..behind {
        order.push_reserved(place as u32);
    }
}
