//! The public type: a heap that stands for a history.
ghost use Rattle.std.specs.Prelude.{◌≡◌, ◌<◌, ◌≤◌, ◌++◌, ◌∷◌, ◌+◌, ◌↔◌, ℕ, [], false, length, slice_get, IfOk, IsNone};
ghost use Rattle.gc_model.specs.Answer.{IsFit};
ghost use Rattle.gc_model.specs.History.{History, allowance_of, world_after};
ghost use Rattle.gc_model.specs.declared.entry.Entry.TheVariants.{Made, Run};

use crate::heap::Heap;
use gc_layout::{NoMemory, Places, Types};
use gc_model::{Call, Reply, RunKind, RunReport};
use std::alloc::Global;
use std::marker::Model;

/// A heap of one thread. It stands for a history: a legal one, after which it shows the graph's world, with the
/// reports of the history's collections.
#[derive(Debug, Drop)]
pub struct Solo {
    heap: Heap,
}

impl Model for Solo {
    ghost use Rattle.gc_solo.specs.Kept.{Kept};

    ghost Value = { Kept };

    ghost use Rattle.gc_solo.specs.Kept.{kept_of};
    ghost use Rattle.gc_solo.specs.Stands.{Stands};

    ghost view = { λ solo. kept_of solo.heap };

    ghost invariant = { λ solo. Stands (kept_of solo.heap) };
}

impl Solo {
    ghost use Rattle.gc_solo.specs.Kept.{IsSameHeap, bay_at};
    ghost use Rattle.gc_solo.specs.Collecting.{IsReportOf};
    ghost use Rattle.gc_solo.specs.Made.{IsCallMade};
    ghost use Rattle.gc_solo.specs.Runs.{HasRun};
    ghost use Rattle.gc_solo.specs.Stands.{HasCalled, Stands, StandsFor, configuration_of};

    /// A heap that stands for the empty history: it has the common object alone, all registers are nothing, and
    /// nobody is blocked. No page counts as given. All memory is taken here, with room for so many reports of
    /// collections.
    pub fn make(
        alloc: Global,
        places: Places,
        types: &Types,
        reports: u32,
    ) -> Result<Solo, NoMemory>
        ensures stands { IfOk result (λ solo. StandsFor solo []) }
        ensures types { IfOk result (λ solo. solo.types ≡ types.now) }
        ensures layout { IfOk result (λ solo. solo.layout ≡ places) }
        ensures room { IfOk result (λ solo. solo.room ≡ reports) }
        ensures given { IfOk result (λ solo. (t : ℕ) → t < places.mutators → (bay_at solo.bays t).given ≡ 0) }
        ensures due { IfOk result (λ solo. solo.due ≡ false) }
    {
        Ok(Solo {
            heap: Heap::make(alloc, places, types, reports)?,
        })
    }

    /// Makes a mutator's call. Whatever history the heap stood for, it stands afterwards for that one, the collections that the
    /// call brought, and the call with its reply. A New that nothing refuses brings a first collection exactly where the object
    /// doesn't fit its mutator's current half, which is full where that is due; and a second one, which is full, exactly where the
    /// first was minor and left no room in the half. A Collect that nothing refuses brings one, which is full; no other call brings
    /// any. Full is answered only where the last collection of the call was full, the half had no room after it, no cell of the
    /// object's class was free, and each page had a class. It takes no memory.
    pub fn call(&mut self, t: u8, c: &Call) -> Reply
        requires fit { IsFit self.old.types self.old.layout.mutators t c.now }
        requires room { allowance_of c.now ≤ self.old.room }
        ensures stands { (history : History) → (before : StandsFor self.old history) → HasCalled self.old self.new history t c.now result
            × IsCallMade self.old self.new before.placement (world_after (configuration_of self.old) history) t c.now result }
        ensures same { IsSameHeap self.old self.new }
        ensures room { self.old.room ≤ self.new.room + allowance_of c.now }
        ensures places { length self.new.reports + self.new.room ≡ length self.old.reports + self.old.room }
    {
        self.heap.call(t, c)
    }

    /// Makes a collection of a kind, and gives its report. Whatever history the heap stood for, it stands afterwards for that
    /// one and the collection, which changes nothing of the world. A minor one keeps the objects in pages and, of those in
    /// halves, exactly what it reaches from registers and remembered objects. A full one keeps exactly what is reachable, gives
    /// back the cells of all else, and counts what it keeps in its report. What survives a second time is promoted to a cell
    /// where there is one. It takes no memory.
    pub fn collect(&mut self, kind: RunKind) -> RunReport
        requires room { 1 ≤ self.old.room }
        ensures report { (history : History) → StandsFor self.old history
            → IsReportOf kind (world_after (configuration_of self.old) history) result }
        ensures stands { (history : History) → (before : StandsFor self.old history)
            → (after : StandsFor self.new (history ++ Run result ∷ []))
            × HasRun kind self.old self.new before.placement after.placement (world_after (configuration_of self.old) history) result }
        ensures same { IsSameHeap self.old self.new }
        ensures reports { self.new.reports ≡ self.old.reports ++ result ∷ [] }
        ensures room { self.new.room + 1 ≡ self.old.room }
    {
        self.heap.collect(kind)
    }

    /// For how many more reports there is room.
    pub fn reports_left(&self) -> u32
        ensures room { result ≡ self.now.room }
        ensures stands { Stands self.now }
    {
        self.heap.book.room()
    }

    /// The report of a collection, counted from 0. None exactly where there were no more.
    pub fn run(&self, i: usize) -> Option<RunReport>
        ensures report { result ≡ slice_get self.now.reports i }
        ensures none { IsNone result ↔ (length self.now.reports ≤ i) }
    {
        self.heap.book.reports().get(i).copied()
    }

    /// The reports of all collections, in their order.
    pub fn reports(&self) -> &[RunReport]
        ensures reports { result.now ≡ self.now.reports }
        ensures stands { Stands self.now }
    {
        self.heap.book.reports()
    }
}
