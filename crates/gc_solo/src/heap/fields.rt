//! The calls on slots and on numbers. Each finds the word of the field that is meant, or the refusal.
ghost use Rattle.std.specs.Prelude.{◌≡◌, ◌<◌, ◌+◌, ℕ, true, length, Err, IfOk, IfErr};
ghost use Rattle.gc_layout.specs.Sizes.{common_slots};
ghost use Rattle.gc_model.specs.Answer.{effect, number_owner, slot_owner};
ghost use Rattle.gc_model.specs.World.{World};
ghost use Rattle.gc_model.specs.declared.call.Call.TheVariants.{Get, Put, Ask, Set, SwapIf, Share, Take};
ghost use Rattle.gc_placement.specs.Placement.{Placement};
ghost use Rattle.gc_solo.specs.Fields.{IsNumber, IsSlot, IsSlotOf};
ghost use Rattle.gc_solo.specs.Kept.{Stays, kept_of};
ghost use Rattle.gc_solo.specs.Stands.{IsAnswered, IsReadyFor, IsReadyIn};

use crate::heap::Heap;
use gc_layout::FIRST_SLOT;
use gc_model::{Reg, Reply};

impl Heap {
    /// The address of a slot of the object that a register names. Refused where it names nothing, or the object
    /// has no such slot.
    fn find_slot(&self, t: u8, base: Reg, place: u8) -> Result<u64, Reply>
        requires ready { IsReadyIn (kept_of self.now) t }
        ensures address { IfOk result (λ address. (placement : Placement) (world : World) → IsReadyFor (kept_of self.now) placement world t
            → IsSlot placement world t base place address) }
        ensures refused { IfErr result (λ refusal. (placement : Placement) (world : World) → IsReadyFor (kept_of self.now) placement world t
            → slot_owner world t base place ≡ Err refusal) }
    {
        let address = self.register(t, base);
        if address == 0 {
            return Err(Reply::NilBase);
        }
        let shape = self.shape_at(address);
        if place >= shape.slots {
            return Err(Reply::Range);
        }
        Ok(address + FIRST_SLOT + u64::from(place))
    }

    /// The address of a number of the object that a register names. Refused where it names nothing, or the
    /// object has no such number.
    fn find_number(&self, t: u8, base: Reg, place: u8) -> Result<u64, Reply>
        requires ready { IsReadyIn (kept_of self.now) t }
        ensures address { IfOk result (λ address. (placement : Placement) (world : World) → IsReadyFor (kept_of self.now) placement world t
            → IsNumber placement world t base place address) }
        ensures refused { IfErr result (λ refusal. (placement : Placement) (world : World) → IsReadyFor (kept_of self.now) placement world t
            → number_owner world t base place ≡ Err refusal) }
    {
        let address = self.register(t, base);
        if address == 0 {
            return Err(Reply::NilBase);
        }
        let shape = self.shape_at(address);
        if place >= shape.numbers {
            return Err(Reply::Range);
        }
        Ok(address + shape.first_number() + u64::from(place))
    }

    /// The address of a slot of the common object.
    fn common_slot(&self, t: u8, place: u8) -> u64
        requires ready { IsReadyIn (kept_of self.now) t }
        requires within { place < common_slots }
        ensures { (placement : Placement) (world : World) → IsReadyFor (kept_of self.now) placement world t
            → IsSlotOf placement world 0 place result }
    {
        self.places.page_start(0, 0) + FIRST_SLOT + u64::from(place)
    }

    /// Loads a slot.
    pub(crate) fn get(&mut self, t: u8, into: Reg, base: Reg, place: u8) -> Reply
        requires ready { IsReadyIn (kept_of self.old) t }
        ensures stays { Stays (kept_of self.old) (kept_of self.new) }
        ensures answered { (placement : Placement) (world : World) → IsReadyFor (kept_of self.old) placement world t
            → IsAnswered (kept_of self.new) result (effect self.old.types world t true (Get into base place)) }
    {
        match self.find_slot(t, base, place) {
            Ok(address) => {
                let slot = self.word(address);
                self.load(t, into, slot)
            }
            Err(refusal) => refusal,
        }
    }

    /// Stores into a slot.
    pub(crate) fn put(&mut self, t: u8, base: Reg, place: u8, value: Reg) -> Reply
        requires ready { IsReadyIn (kept_of self.old) t }
        ensures stays { Stays (kept_of self.old) (kept_of self.new) }
        ensures answered { (placement : Placement) (world : World) → IsReadyFor (kept_of self.old) placement world t
            → IsAnswered (kept_of self.new) result (effect self.old.types world t true (Put base place value)) }
    {
        match self.find_slot(t, base, place) {
            Ok(address) => {
                let object = self.register(t, base);
                let name = self.register(t, value);
                self.put_name(t, object, address, name);
                Reply::Done
            }
            Err(refusal) => refusal,
        }
    }

    /// Stores into a slot of the common object.
    pub(crate) fn share(&mut self, t: u8, place: u8, value: Reg) -> Reply
        requires ready { IsReadyIn (kept_of self.old) t }
        requires within { place < common_slots }
        ensures stays { Stays (kept_of self.old) (kept_of self.new) }
        ensures answered { (placement : Placement) (world : World) → IsReadyFor (kept_of self.old) placement world t
            → IsAnswered (kept_of self.new) result (effect self.old.types world t true (Share place value)) }
    {
        let object = self.places.page_start(0, 0);
        let address = self.common_slot(t, place);
        let name = self.register(t, value);
        self.put_name(t, object, address, name);
        Reply::Done
    }

    /// Loads a slot of the common object.
    pub(crate) fn take(&mut self, t: u8, into: Reg, place: u8) -> Reply
        requires ready { IsReadyIn (kept_of self.old) t }
        requires within { place < common_slots }
        ensures stays { Stays (kept_of self.old) (kept_of self.new) }
        ensures answered { (placement : Placement) (world : World) → IsReadyFor (kept_of self.old) placement world t
            → IsAnswered (kept_of self.new) result (effect self.old.types world t true (Take into place)) }
    {
        let slot = self.word(self.common_slot(t, place));
        self.load(t, into, slot)
    }

    /// Reads a number.
    pub(crate) fn ask(&self, t: u8, base: Reg, place: u8) -> Reply
        requires ready { IsReadyIn (kept_of self.now) t }
        ensures { (placement : Placement) (world : World) → IsReadyFor (kept_of self.now) placement world t
            → IsAnswered (kept_of self.now) result (effect self.now.types world t true (Ask base place)) }
    {
        match self.find_number(t, base, place) {
            Ok(address) => Reply::Number(self.word(address)),
            Err(refusal) => refusal,
        }
    }

    /// Writes a number.
    pub(crate) fn set(&mut self, t: u8, base: Reg, place: u8, number: u64) -> Reply
        requires ready { IsReadyIn (kept_of self.old) t }
        ensures stays { Stays (kept_of self.old) (kept_of self.new) }
        ensures answered { (placement : Placement) (world : World) → IsReadyFor (kept_of self.old) placement world t
            → IsAnswered (kept_of self.new) result (effect self.old.types world t true (Set base place number)) }
    {
        match self.find_number(t, base, place) {
            Ok(address) => {
                self.store(address, number);
                Reply::Done
            }
            Err(refusal) => refusal,
        }
    }

    /// Writes a number where the expected one stands there.
    pub(crate) fn swap_if(
        &mut self,
        t: u8,
        base: Reg,
        place: u8,
        expected: u64,
        replacement: u64,
    ) -> Reply
        requires ready { IsReadyIn (kept_of self.old) t }
        ensures stays { Stays (kept_of self.old) (kept_of self.new) }
        ensures answered { (placement : Placement) (world : World) → IsReadyFor (kept_of self.old) placement world t
            → IsAnswered (kept_of self.new) result (effect self.old.types world t true (SwapIf base place expected replacement)) }
    {
        match self.find_number(t, base, place) {
            Ok(address) => {
                let there = self.word(address);
                if there != expected {
                    return Reply::Found(there);
                }
                self.store(address, replacement);
                Reply::Yes
            }
            Err(refusal) => refusal,
        }
    }
}
