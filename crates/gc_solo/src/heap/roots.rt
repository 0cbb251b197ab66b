//! Roots. A collection starts from the registers of all mutators, in order of number. A minor one goes on with the slots of
//! the objects that stood on remembered lists when it began, the lists in order of mutator. What it promotes meanwhile
//! is put behind them, and is grey, so it isn't gone through here. A full one has marked the common object before.
ghost use Rattle.std.specs.Prelude.{◌≡◌, ◌≤◌, ◌<◌, ℕ, length, slice_index};
ghost use Rattle.gc_solo.specs.Collecting.{AreTraced, Beginning, HasCounts, at_list, first_stage};
ghost use Rattle.gc_solo.specs.Kept.{bay_at, kept_of, most_mutators};

use crate::heap::{Heap, MOST_MUTATORS};
use gc_bay::Bay;
use gc_layout::REGISTERS;
use gc_model::RunKind;

/// How many objects stood on each mutator's remembered list.
pub(crate) type ListCounts = [usize; MOST_MUTATORS];

impl Heap {
    /// Treats each register of each mutator.
    pub(crate) fn trace_registers(&mut self, kind: RunKind)
        requires collecting { (start : Beginning) × (start.kind ≡ kind) × AreTraced (kept_of self.old) start 0 0 (first_stage start) }
        ensures traced { (start : Beginning) → start.kind ≡ kind → AreTraced (kept_of self.old) start 0 0 (first_stage start)
            → AreTraced (kept_of self.new) start self.old.places.mutators 0 (first_stage start) }
        ensures rest { self.new ≡ record self.old { words = self.new.words; bays = self.new.bays } }
    {
        for t in 0..self.places.mutators() {
            for reg in 0..REGISTERS {
                let address = self.bays[usize::from(t)].reg(reg);
                let kept = self.forward(kind, address);
                self.bays[usize::from(t)].set_reg(reg, kept);
            }
        }
    }

    /// Scans the objects that stood on remembered lists, so many on each.
    pub(crate) fn trace_remembered(&mut self, counts: &ListCounts)
        requires collecting { (start : Beginning) × (start.kind ≡ RunKind.Minor)
            × AreTraced (kept_of self.old) start self.old.places.mutators 0 (at_list 0 0) × HasCounts start counts.now }
        ensures traced { (start : Beginning) → start.kind ≡ RunKind.Minor → HasCounts start counts.now
            → AreTraced (kept_of self.old) start self.old.places.mutators 0 (at_list 0 0)
            → AreTraced (kept_of self.new) start self.old.places.mutators 0 (at_list self.old.places.mutators 0) }
        ensures rest { self.new ≡ record self.old { words = self.new.words; bays = self.new.bays } }
    {
        for t in 0..self.places.mutators() {
            for index in 0..counts[usize::from(t)] {
                let address = self.bays[usize::from(t)].remembered(index).unwrap();
                self.scan(RunKind::Minor, address);
            }
        }
    }
}

/// How many objects stand on each mutator's remembered list.
pub(crate) fn list_counts(bays: &[Bay]) -> ListCounts
    requires { length bays.now ≤ most_mutators }
    ensures { (t : ℕ) → t < length bays.now → slice_index result t ≡ length (bay_at bays.now t).remembered }
{
    let mut counts = [0; MOST_MUTATORS];
    for (t, bay) in bays.iter().enumerate() {
        counts[t] = bay.remembered_count();
    }
    counts
}
