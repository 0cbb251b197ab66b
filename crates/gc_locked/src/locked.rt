//! The locked heap, and the step of a mutator.
ghost use Rattle.std.specs.Prelude.{◌≡◌, ◌+◌, ◌<◌, ◌≤◌, [], ◌∷◌, length, map, slice_get, IfOk, Some, false, true};
ghost use Rattle.gc_model.specs.Answer.{IsFit};
ghost use Rattle.gc_model.specs.History.{calls_in};
ghost use Rattle.gc_solo.specs.Stands.{StandsFor};
ghost use Rattle.gc_locked.specs.Setup.{call_at, count_of, heap_of, lines_of, mutators_of, places_of};

use crate::guarded::Guarded;
use crate::journal::Journal;
use crate::pass::{Pass, deal};
use crate::plan::{allowance, call_at, plans};
use crate::rule::{Claim, Gather, Lock, Release};
use crate::setup::Setup;
use crate::view::View;
use atomic_table::{Seat, Table};
use crossbeam_utils::Backoff;
use gc_layout::{NoMemory, Places, Types};
use gc_model::{Call, Line};
use gc_solo::Solo;
use std::alloc::Global;
use std::marker::Model;
use std::sync::Wait;

/// How often an Await is asked at most.
const MOST_ASKS: u32 = 1_000_000;

/// A heap of one thread under a lock, for workers that step with a pass each.
#[derive(Drop)]
pub struct Locked {
    table: Lock,
    lines: Vec<Line>,
    /// Of each mutator the places of its calls, in the order in which it makes them.
    plans: Vec<Vec<u32>>,
}

impl Model for Locked {
    ghost use Rattle.gc_locked.specs.Locked.{IsLocked, LockedHeap, locked_of};

    ghost Value = { LockedHeap };

    ghost view = { locked_of };

    ghost invariant = { IsLocked };
}

/// What came of a turn at the lock.
enum Turn {
    /// Another seat had the lock.
    Busy,
    /// The call was an Await that found nothing.
    Vain,
    /// The call was made and entered the journal.
    Made,
}

impl Locked {
    ghost use Rattle.gc_locked.specs.Guarded.{GuardedHeap};
    ghost use Rattle.gc_locked.specs.Locked.{AreAllPasses, AreFirstPasses, AreFit, IsFinished, IsPassOf, number_of};
    ghost use Rattle.gc_locked.specs.Rule.{free_view};
    ghost use Rattle.gc_locked.specs.Turns.{HasMadeOn, HoldsFor, counted_to, made_by};

    /// A heap on which the lines of all mutators are to be played, and a pass for each mutator, in their order. All
    /// memory is taken here: the heap, report places for all collections that the lines may bring, the journal.
    pub fn make(
        alloc: Global,
        places: Places,
        types: &Types,
        lines: Vec<Line>,
    ) -> Result<(Locked, Vec<Pass>), NoMemory>
        requires fit { AreFit types.now places.mutators lines.items }
        requires few { length lines.items ≤ 16777216 }
        ensures types { IfOk result (λ made. (heap_of made.0.setup).types ≡ types.now) }
        ensures layout { IfOk result (λ made. (heap_of made.0.setup).layout ≡ places) }
        ensures lines { IfOk result (λ made. lines_of made.0.setup ≡ lines.items) }
        ensures passes { IfOk result (λ made. AreFirstPasses made.0 made.1.items) }
    {
        let reports = allowance(lines.as_slice());
        let solo = Solo::make(alloc, places, types, reports)?;
        let Ok(plans) = plans(alloc, lines.as_slice(), places.mutators()) else {
            return Err(NoMemory);
        };
        let setup = Setup::of(&solo, &lines);
        let guarded = Guarded::make(alloc, solo, &lines, places.mutators(), reports)?;
        let Ok(mut slots) = Vec::with_capacity(alloc, 1) else {
            return Err(NoMemory);
        };
        slots.push_reserved(guarded);
        let Ok((table, seat)) = Table::new(alloc, &[0], slots, &setup) else {
            return Err(NoMemory);
        };
        let passes = deal(alloc, &table, seat, places.mutators())?;
        Ok((
            Locked {
                table,
                lines,
                plans,
            },
            passes,
        ))
    }

    /// The lines of all mutators.
    pub fn lines(&self) -> &[Line]
        ensures lines { result.now ≡ lines_of self.now.setup }
        ensures few { length result.now ≤ 16777216 }
    {
        self.lines.as_slice()
    }

    /// Makes the next call of the pass's mutator, its next line or, behind the last, its End, in one critical section.
    /// It waits until the lock is its own. An Await that finds nothing is asked again, at most 1,000,000 times in all,
    /// and enters the journal once. It takes no memory. The pass is one of this heap's, and its mutator's End wasn't
    /// made.
    pub fn step<R: Wait>(&self, rt: &R, pass: &mut Pass)
        requires own { IsPassOf self.now pass.old }
        requires left { pass.old.made ≤ length (calls_in pass.old.mutator (lines_of self.now.setup)) }
        ensures own { IsPassOf self.now pass.new }
        ensures mutator { pass.new.mutator ≡ pass.old.mutator }
        ensures made { pass.new.made ≡ pass.old.made + 1 }
    {
        let (place, call) = self.next_call(pass.mutator, pass.made);
        let mut asks_left = MOST_ASKS;
        let backoff = Backoff::new();
        for _ in rt.forever() {
            match self.turn(pass, place, &call, asks_left <= 1) {
                Turn::Made => break,
                Turn::Vain => asks_left = asks_left.saturating_sub(1),
                Turn::Busy => {}
            }
            backoff.snooze();
        }
        pass.made += 1;
    }

    /// The call of a mutator behind so many that it made, and the place of that call.
    fn next_call(&self, mutator: u8, made: u32) -> (u32, Call)
        requires mutator { mutator < mutators_of self.now.setup }
        requires left { made ≤ length (calls_in mutator (lines_of self.now.setup)) }
        ensures next { slice_get (places_of (lines_of self.now.setup) mutator) made ≡ Some result.0 }
        ensures call { result.1 ≡ call_at (lines_of self.now.setup) result.0 }
        ensures fit { IsFit (heap_of self.now.setup).types (mutators_of self.now.setup) mutator result.1 }
        ensures few { made ≤ 16777216 }
    {
        let place = self.plans[mutator as usize][made as usize];
        (place, call_at(self.lines.as_slice(), place))
    }

    /// Makes the next call of the pass's mutator, which stands at this place, where the lock is to be had at once.
    fn turn(&self, pass: &mut Pass, place: u32, call: &Call, last: bool) -> Turn
        requires own { IsPassOf self.now pass.old }
        requires next { slice_get (places_of (lines_of self.now.setup) pass.old.mutator) pass.old.made ≡ Some place }
        requires call { call.now ≡ call_at (lines_of self.now.setup) place }
        requires fit { IsFit (heap_of self.now.setup).types (mutators_of self.now.setup) pass.old.mutator call.now }
        ensures counted { pass.new ≡ counted_to self.now pass.old (made_by result) }
    {
        if self
            .table
            .shared
            .compare_exchange::<Claim>(&mut pass.seat, 0, 0, 1)
            != 0
        {
            return Turn::Busy;
        }
        let entered = self.enter(&mut pass.seat, pass.mutator, place, call, last);
        self.table.shared.store::<Release>(&mut pass.seat, 0, 0);
        if entered { Turn::Made } else { Turn::Vain }
    }

    /// Makes a call on the heap that the seat holds.
    fn enter(
        &self,
        seat: &mut Seat<Guarded, View>,
        t: u8,
        place: u32,
        call: &Call,
        last: bool,
    ) -> bool
        requires table { seat.old.table_id ≡ self.now.table }
        requires holds { HoldsFor self.now.setup t place seat.old.me.1 }
        requires call { call.now ≡ call_at (lines_of self.now.setup) place }
        requires fit { IsFit (heap_of self.now.setup).types (mutators_of self.now.setup) t call.now }
        ensures seat { (seat.new.table_id ≡ seat.old.table_id) × (seat.new.id ≡ seat.old.id) × (seat.new.me.0 ≡ seat.old.me.0) }
        ensures made { (before : GuardedHeap) → seat.old.me.1 ≡ (0, before) ∷ []
            → HasMadeOn before self.now.setup t call.now result seat.new.me.1 }
    {
        seat.slot_mut(&self.table.shared, 0)
            .enter(t, place, call, last)
    }

    /// Takes all passes, and hands the journal back: it is legal, and has of each mutator the first calls of its
    /// plan, as many as its pass says.
    pub fn finish(self, passes: Vec<Pass>) -> Journal
        requires all { AreAllPasses self passes.items }
        ensures finished { IsFinished self passes.items result }
        ensures lines { result.lines ≡ lines_of self.setup }
        ensures stands { StandsFor result.heap result.entries }
    {
        let seat = self.gather(passes);
        let Locked {
            table,
            lines,
            plans: _,
        } = self;
        let mut closed = table.close_with(seat);
        let (solo, order, replies) = closed.take(0).into_parts();
        closed.free();
        Journal {
            solo,
            lines,
            order,
            replies,
        }
    }

    /// One seat that carries the numbers of all passes.
    fn gather(&self, mut passes: Vec<Pass>) -> Seat<Guarded, View>
        requires all { AreAllPasses self.now passes.items }
        requires some { 0 < mutators_of self.now.setup }
        ensures table { result.table_id ≡ self.now.table }
        ensures carries { result.me ≡ (free_view (map (λ pass. number_of self.now.setup pass.mutator pass.made) passes.items), []) }
    {
        let mut seat = passes.pop().unwrap().seat;
        while let Some(pass) = passes.pop() {
            self.table.shared.join_seat::<Gather>(&mut seat, pass.seat);
        }
        seat
    }
}
