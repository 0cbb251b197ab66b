//! A collection as a whole. Each mutator's other half becomes the current one. From the roots all objects are reached that are
//! kept: those in halves are copied, and then their slots are treated in turn, until no copy has a slot that is still to be
//! treated. Then no word that is needed names what was left behind, and the words and bays show the same world by where the
//! objects are now. Last the remembered set is made exact.
//!
//! A minor collection starts from registers and remembered objects, and leaves what lies in pages as it is. A full one starts
//! from registers and the common object, marks what it reaches in pages, and gives the cells of all else back. So it keeps
//! exactly what is reachable, and reports how much that is.
//!
//! What is dead in a half costs nothing: no word of it is touched.
ghost use Rattle.std.specs.Prelude.{◌≡◌, ◌<◌, ◌≤◌, ◌-◌, ◌+◌, ◌++◌, ◌∷◌, [], ℕ, length};
ghost use Rattle.gc_layout.specs.Places.{IsWithinLimits};
ghost use Rattle.gc_model.specs.World.{World};
ghost use Rattle.gc_placement.specs.Placement.{Placement};
ghost use Rattle.gc_solo.specs.Collecting.{Beginning, HasBegun, HasCollected, HasCounts, HasTracedAll, IsFlippedFull, IsReportOf, beginning};
ghost use Rattle.gc_solo.specs.Kept.{bay_at, kept_of, memory_of};
ghost use Rattle.gc_solo.specs.Runs.{HasRun, given_pages, is_due};
ghost use Rattle.gc_solo.specs.Stands.{IsReadyFor, IsReadyIn};

use crate::heap::Heap;
use crate::heap::roots::{ListCounts, list_counts};
use gc_model::{RunKind, RunReport};

impl Heap {
    /// Makes a collection of a kind, and reports it. At its end it says whether the next one that a New brings is to be full.
    pub(crate) fn collect(&mut self, kind: RunKind) -> RunReport
        requires ready { IsReadyIn (kept_of self.old) 0 }
        requires room { 1 ≤ self.old.book.room }
        ensures run { (placement : Placement) (world : World) → IsReadyFor (kept_of self.old) placement world 0
            → (after : Placement) × HasRun kind (kept_of self.old) (kept_of self.new) placement after world result }
        ensures reports { self.new.book.reports ≡ self.old.book.reports ++ result ∷ [] }
        ensures left { self.new.book.room + 1 ≡ self.old.book.room }
        ensures rest { self.new
            ≡ record self.old { words = self.new.words; bays = self.new.bays; book = self.new.book; due = self.new.due } }
    {
        let report = match kind {
            RunKind::Minor => self.collect_minor(),
            RunKind::Full => self.collect_full(),
        };
        self.book.append(report);
        self.due = kind == RunKind::Minor && self.is_due();
        report
    }

    /// Whether a full collection is due: of all pages a quarter were given a class since the last one.
    fn is_due(&self) -> bool
        requires bays { length self.now.bays.items ≡ self.now.places.mutators }
        requires limits { IsWithinLimits self.now.places }
        requires each { (t : ℕ) → t < self.now.places.mutators → (bay_at self.now.bays.items t).given ≤ self.now.places.pages }
        ensures { result ≡ is_due (kept_of self.now) }
    {
        let mut given = 0;
        for bay in &self.bays {
            given += u32::from(bay.given());
        }
        4 * given >= u32::from(self.places.mutators()) * u32::from(self.places.pages())
    }

    /// Makes a minor collection.
    fn collect_minor(&mut self) -> RunReport
        requires ready { IsReadyIn (kept_of self.old) 0 }
        ensures report { result ≡ RunReport.Minor }
        ensures collected { (placement : Placement) (world : World) → IsReadyFor (kept_of self.old) placement world 0
            → HasCollected RunKind.Minor (kept_of self.old) (kept_of self.new) placement world }
        ensures rest { self.new ≡ record self.old { words = self.new.words; bays = self.new.bays } }
    {
        let counts = self.begin_minor();
        self.trace_registers(RunKind::Minor);
        self.trace_remembered(&counts);
        self.scan_grey(RunKind::Minor);
        self.tidy();
        RunReport::Minor
    }

    /// Begins a minor collection: the other half of each mutator becomes the current one. Gives how many objects stand on
    /// each remembered list.
    fn begin_minor(&mut self) -> ListCounts
        requires ready { IsReadyIn (kept_of self.old) 0 }
        ensures begun { (placement : Placement) (world : World) → IsReadyFor (kept_of self.old) placement world 0
            → HasBegun (kept_of self.new) (beginning RunKind.Minor (memory_of (kept_of self.old)) placement world) }
        ensures counts { (placement : Placement) (world : World)
            → HasCounts (beginning RunKind.Minor (memory_of (kept_of self.old)) placement world) result }
        ensures rest { self.new ≡ record self.old { bays = self.new.bays } }
    {
        for t in 0..self.places.mutators() {
            self.bays[usize::from(t)].flip();
        }
        list_counts(&self.bays)
    }

    /// Makes a full collection.
    fn collect_full(&mut self) -> RunReport
        requires ready { IsReadyIn (kept_of self.old) 0 }
        ensures report { (placement : Placement) (world : World) → IsReadyFor (kept_of self.old) placement world 0
            → IsReportOf RunKind.Full world result }
        ensures collected { (placement : Placement) (world : World) → IsReadyFor (kept_of self.old) placement world 0
            → HasCollected RunKind.Full (kept_of self.old) (kept_of self.new) placement world }
        ensures given { given_pages (kept_of self.new) ≡ 0 }
        ensures rest { self.new ≡ record self.old { words = self.new.words; bays = self.new.bays } }
    {
        self.begin_full();
        self.trace_registers(RunKind::Full);
        self.scan_grey(RunKind::Full);
        let report = self.kept_report();
        self.sweep();
        self.tidy();
        report
    }

    /// Begins a full collection: the halves are flipped, and the common object is marked.
    fn begin_full(&mut self)
        requires ready { IsReadyIn (kept_of self.old) 0 }
        ensures begun { (placement : Placement) (world : World) → IsReadyFor (kept_of self.old) placement world 0
            → HasBegun (kept_of self.new) (beginning RunKind.Full (memory_of (kept_of self.old)) placement world) }
        ensures rest { self.new ≡ record self.old { words = self.new.words; bays = self.new.bays } }
    {
        self.flip_full();
        let common = self.places.cell_address(0, 0);
        self.mark(common);
    }

    /// The other half of each mutator becomes the current one, its remembered list is emptied, and its tally is cleared.
    fn flip_full(&mut self)
        requires ready { IsReadyIn (kept_of self.old) 0 }
        ensures flipped { (placement : Placement) (world : World) → IsReadyFor (kept_of self.old) placement world 0
            → IsFlippedFull (kept_of self.new) (beginning RunKind.Full (memory_of (kept_of self.old)) placement world) }
        ensures rest { self.new ≡ record self.old { bays = self.new.bays } }
    {
        for t in 0..self.places.mutators() {
            let bay = &mut self.bays[usize::from(t)];
            bay.flip();
            bay.forget_all();
            bay.clear_tally();
        }
    }

    /// What a full collection has kept, by the tallies of all mutators.
    fn kept_report(&self) -> RunReport
        requires traced { (start : Beginning) × HasTracedAll (kept_of self.now) start }
        ensures report { (start : Beginning) → HasTracedAll (kept_of self.now) start → IsReportOf RunKind.Full start.world result }
    {
        let (mut objects, mut words) = (0, 0);
        for bay in &self.bays {
            let tally = bay.tally();
            objects += tally.0;
            words += tally.1;
        }
        RunReport::Full { objects, words }
    }
}
