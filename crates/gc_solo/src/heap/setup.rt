//! How a heap is made: all memory is taken here, and the common object is made by nobody, in the first cell of page 0 of
//! mutator 0.
ghost use Rattle.std.specs.Prelude.{◌≡◌, ◌+◌, ◌<◌, ℕ, [], false, length, replicate, IfOk};
ghost use Rattle.gc_bay.specs.Bay.{fresh_bay};
ghost use Rattle.gc_layout.specs.Places.{IsWithinLimits, word_count};
ghost use Rattle.gc_layout.specs.Types.{AreTypes};
ghost use Rattle.gc_model.specs.World.{first_world};
ghost use Rattle.gc_placement.specs.Placement.{Placement};
ghost use Rattle.gc_solo.specs.Kept.{ShowsBy, bay_at, kept_of, most_mutators};

use crate::heap::book::Book;
use crate::heap::{Heap, MOST_MUTATORS};
use gc_bay::Bay;
use gc_layout::{NoMemory, Places, Shape, TypeNo, Types};
use std::alloc::Global;

impl Heap {
    /// The heap that shows the first world, with room for so many reports. No page counts as given.
    pub(crate) fn make(
        alloc: Global,
        places: Places,
        types: &Types,
        reports: u32,
    ) -> Result<Heap, NoMemory>
        ensures types { IfOk result (λ heap. heap.types ≡ types.now) }
        ensures places { IfOk result (λ heap. heap.places ≡ places) }
        ensures reports { IfOk result (λ heap. heap.book.reports ≡ []) }
        ensures room { IfOk result (λ heap. heap.book.room ≡ reports) }
        ensures shown { IfOk result (λ heap. (placement : Placement) × ShowsBy (kept_of heap) placement (first_world places.mutators)) }
        ensures given { IfOk result (λ heap. (t : ℕ) → t < places.mutators → (bay_at heap.bays.items t).given ≡ 0) }
        ensures due { IfOk result (λ heap. heap.due ≡ false) }
    {
        let Ok(words) = vec![in alloc; 0; 1 + places.words() as usize] else {
            return Err(NoMemory);
        };
        let mut heap = Heap {
            types: copy_types(alloc, types)?,
            places,
            words,
            bays: fresh_bays(alloc, places)?,
            blocked: [false; MOST_MUTATORS],
            book: Book::make(alloc, reports)?,
            due: false,
        };
        heap.make_common();
        Ok(heap)
    }

    /// Makes the common object, where all bays are fresh. Its page doesn't count as given.
    fn make_common(&mut self)
        requires types { AreTypes self.old.types }
        requires limits { IsWithinLimits self.old.places }
        requires words { length self.old.words.items ≡ 1 + word_count self.old.places }
        requires bays { length self.old.bays.items ≡ self.old.places.mutators }
        requires fresh { (t : ℕ) → t < self.old.places.mutators → bay_at self.old.bays.items t ≡ fresh_bay self.old.places t }
        requires blocked { self.old.blocked ≡ replicate most_mutators false }
        ensures shown { (placement : Placement) × ShowsBy (kept_of self.new) placement (first_world self.new.places.mutators) }
        ensures given { (t : ℕ) → t < self.new.places.mutators → (bay_at self.new.bays.items t).given ≡ 0 }
        ensures rest { self.new ≡ record self.old { words = self.new.words; bays = self.new.bays } }
    {
        let size = Shape::COMMON.size();
        let bay = &mut self.bays[0];
        let address = bay.cell(size).unwrap();
        bay.reset_given();
        self.write_fresh(address, size, TypeNo(0), true);
    }
}

/// A list of the same types.
fn copy_types(alloc: Global, types: &Types) -> Result<Types, NoMemory>
    ensures copy { IfOk result (λ copy. copy ≡ types.now) }
    ensures types { IfOk result AreTypes }
{
    let mut copy = Types::make(alloc)?;
    for shape in types.as_slice().iter().skip(1) {
        // Each type of a list fits a list that has room for as many.
        let _added = copy.add(*shape);
    }
    Ok(copy)
}

/// A fresh bay for each mutator.
fn fresh_bays(alloc: Global, places: Places) -> Result<Vec<Bay>, NoMemory>
    ensures bays { IfOk result (λ bays. length bays.items ≡ places.mutators) }
    ensures fresh { IfOk result (λ bays. (t : ℕ) → t < places.mutators → bay_at bays.items t ≡ fresh_bay places t) }
{
    let Ok(mut bays) = Vec::with_capacity(alloc, usize::from(places.mutators())) else {
        return Err(NoMemory);
    };
    for mutator in 0..places.mutators() {
        bays.push_reserved(Bay::make(alloc, places, mutator)?);
    }
    Ok(bays)
}
