//! The write barrier. An object in a page that comes to name an object in a half is remembered: its header has the bit,
//! and its address stands on a list, so that a minor collection finds the name without looking at other pages. Where it
//! has the bit already, it stands on a list, and there is nothing to do.
ghost use Rattle.std.specs.Prelude.{◌≡◌, ◌<◌, ℕ, Option, length, Some};
ghost use Rattle.gc_layout.specs.Shape.{slot_address};
ghost use Rattle.gc_model.specs.Graph.{object_at};
ghost use Rattle.gc_model.specs.World.{World, with_slot};
ghost use Rattle.gc_placement.specs.Placement.{IsNamePlaced, Placement, name_address};
ghost use Rattle.gc_solo.specs.Fields.{IsPut};
ghost use Rattle.gc_solo.specs.Kept.{ShowsBy, Stays, kept_of};
ghost use Rattle.gc_solo.specs.Stands.{IsReadyFor};

use crate::heap::Heap;
use gc_layout::Head;

impl Heap {
    /// Stores a name, 0 for nothing, into a slot of the object at an address. Where that lies in a page and the named
    /// object in a half, the object is remembered by this mutator.
    pub(crate) fn put_name(&mut self, t: u8, object: u64, slot: u64, name: u64)
        requires ready { (placement : Placement) × (world : World) × (number : ℕ) × (place : ℕ) × (named : Option ℕ)
            × IsReadyFor (kept_of self.old) placement world t × IsPut placement world object slot name number place named }
        ensures stays { Stays (kept_of self.old) (kept_of self.new) }
        ensures put { (placement : Placement) (world : World) (number place : ℕ) (named : Option ℕ)
            → IsReadyFor (kept_of self.old) placement world t → IsPut placement world object slot name number place named
            → ShowsBy (kept_of self.new) placement (with_slot world number place named) }
    {
        self.store(slot, name);
        let head = self.head(object);
        if head.old && !head.remembered && name != 0 && !self.head(name).old {
            let remembered = Head {
                remembered: true,
                ..head
            };
            self.store(object, remembered.word());
            self.bays[usize::from(t)].remember(object);
        }
    }
}
