//! The calls on slots and on numbers, of an object that a register names or of the common one. Each first finds the
//! object that is meant, or its refusal.
ghost use Rattle.std.specs.Prelude.{◌≡◌, ◌<◌, true, length, IfOk, IfSome};
ghost use Rattle.gc_layout.specs.Sizes.{common_slots};
ghost use Rattle.gc_model.specs.Answer.{effect, number_owner, slot_owner};
ghost use Rattle.gc_model.specs.Graph.{object_at};
ghost use Rattle.gc_model.specs.Plain.{with_world};
ghost use Rattle.gc_model.specs.World.{named_by, number_at, slot_at, with_number, with_slot};
ghost use Rattle.gc_model.specs.declared.call.Call.TheVariants.{Get, Put, Ask, Set, SwapIf, Take};

use crate::world::World;
use crate::{Reg, Reply};

impl World {
    /// Loads a slot.
    pub(crate) fn get(&mut self, t: u8, into: Reg, base: Reg, place: u8) -> Reply
        requires { t < length self.old.world.mutators }
        ensures types { self.new.types ≡ self.old.types }
        ensures got { effect self.old.types self.old.world t true (Get into base place)
            ≡ record { world = self.new.world; reply = result } }
    {
        match self.slot_owner(t, base, place) {
            Ok(number) => {
                let slot = self.slot(number, place);
                self.load(t, into, slot)
            }
            Err(refusal) => refusal,
        }
    }

    /// Stores into a slot.
    pub(crate) fn put(&mut self, t: u8, base: Reg, place: u8, value: Reg) -> Reply
        requires { t < length self.old.world.mutators }
        ensures types { self.new.types ≡ self.old.types }
        ensures put { effect self.old.types self.old.world t true (Put base place value)
            ≡ record { world = self.new.world; reply = result } }
    {
        match self.slot_owner(t, base, place) {
            Ok(number) => {
                let name = self.named(t, value);
                self.set_slot(number, place, name);
                Reply::Done
            }
            Err(refusal) => refusal,
        }
    }

    /// Stores into a slot of the common object.
    pub(crate) fn share(&mut self, t: u8, place: u8, value: Reg)
        requires mutator { t < length self.old.world.mutators }
        requires within { place < common_slots }
        ensures { self.new ≡ with_world self.old (with_slot self.old.world 0 place (named_by self.old.world t value)) }
    {
        // The common object is there, and has 16 slots.
        let _ = &self.objects;
        let name = self.named(t, value);
        self.set_slot(0, place, name);
    }

    /// Loads a slot of the common object.
    pub(crate) fn take(&mut self, t: u8, into: Reg, place: u8) -> Reply
        requires mutator { t < length self.old.world.mutators }
        requires within { place < common_slots }
        ensures types { self.new.types ≡ self.old.types }
        ensures took { effect self.old.types self.old.world t true (Take into place)
            ≡ record { world = self.new.world; reply = result } }
    {
        // The common object is there, and has 16 slots.
        let _ = &self.objects;
        let slot = self.slot(0, place);
        self.load(t, into, slot)
    }

    /// Reads a number.
    pub(crate) fn ask(&self, t: u8, base: Reg, place: u8) -> Reply
        requires { t < length self.now.world.mutators }
        ensures { effect self.now.types self.now.world t true (Ask base place)
            ≡ record { world = self.now.world; reply = result } }
    {
        match self.number_owner(t, base, place) {
            Ok(number) => Reply::Number(self.number(number, place)),
            Err(refusal) => refusal,
        }
    }

    /// Writes a number.
    pub(crate) fn set(&mut self, t: u8, base: Reg, place: u8, value: u64) -> Reply
        requires { t < length self.old.world.mutators }
        ensures types { self.new.types ≡ self.old.types }
        ensures set { effect self.old.types self.old.world t true (Set base place value)
            ≡ record { world = self.new.world; reply = result } }
    {
        match self.number_owner(t, base, place) {
            Ok(number) => {
                self.set_number(number, place, value);
                Reply::Done
            }
            Err(refusal) => refusal,
        }
    }

    /// Writes a number where the expected one stands there.
    pub(crate) fn swap_if(
        &mut self,
        t: u8,
        base: Reg,
        place: u8,
        expected: u64,
        replacement: u64,
    ) -> Reply
        requires { t < length self.old.world.mutators }
        ensures types { self.new.types ≡ self.old.types }
        ensures swapped { effect self.old.types self.old.world t true (SwapIf base place expected replacement)
            ≡ record { world = self.new.world; reply = result } }
    {
        match self.number_owner(t, base, place) {
            Ok(number) => {
                let there = self.number(number, place);
                if there != expected {
                    return Reply::Found(there);
                }
                self.set_number(number, place, replacement);
                Reply::Yes
            }
            Err(refusal) => refusal,
        }
    }

    /// The object whose slot is meant. Refused where the base is nothing, or has no such slot.
    fn slot_owner(&self, t: u8, base: Reg, place: u8) -> Result<usize, Reply>
        requires { t < length self.now.world.mutators }
        ensures owner { result ≡ slot_owner self.now.world t base place }
        ensures there { IfOk result (λ number. number < length self.now.world.graph) }
        ensures within { IfOk result (λ number. place < length (object_at self.now.world.graph number).slots) }
    {
        let Some(number) = self.named(t, base) else {
            return Err(Reply::NilBase);
        };
        if usize::from(place) >= self.objects[number].slots.len() {
            return Err(Reply::Range);
        }
        Ok(number)
    }

    /// The object whose number is meant. Refused where the base is nothing, or has no such number.
    fn number_owner(&self, t: u8, base: Reg, place: u8) -> Result<usize, Reply>
        requires { t < length self.now.world.mutators }
        ensures owner { result ≡ number_owner self.now.world t base place }
        ensures there { IfOk result (λ number. number < length self.now.world.graph) }
        ensures within { IfOk result (λ number. place < length (object_at self.now.world.graph number).numbers) }
    {
        let Some(number) = self.named(t, base) else {
            return Err(Reply::NilBase);
        };
        if usize::from(place) >= self.objects[number].numbers.len() {
            return Err(Reply::Range);
        }
        Ok(number)
    }

    /// What a slot of an object names.
    pub(crate) fn slot(&self, number: usize, place: u8) -> Option<usize>
        requires there { number < length self.now.world.graph }
        requires within { place < length (object_at self.now.world.graph number).slots }
        ensures slot { result ≡ slot_at self.now.world number place }
        ensures there { IfSome result (λ named. named < length self.now.world.graph) }
    {
        self.objects[number].slots[usize::from(place)]
    }

    /// Makes a slot of an object name an object, or nothing.
    pub(crate) fn set_slot(&mut self, number: usize, place: u8, name: Option<usize>)
        requires there { number < length self.old.world.graph }
        requires within { place < length (object_at self.old.world.graph number).slots }
        requires named { IfSome name (λ named. named < length self.old.world.graph) }
        ensures { self.new ≡ with_world self.old (with_slot self.old.world number place name) }
    {
        self.objects[number].slots[usize::from(place)] = name;
    }

    /// A number of an object.
    fn number(&self, number: usize, place: u8) -> u64
        requires there { number < length self.now.world.graph }
        requires within { place < length (object_at self.now.world.graph number).numbers }
        ensures { result ≡ number_at self.now.world number place }
    {
        self.objects[number].numbers[usize::from(place)]
    }

    /// Makes a number of an object another one.
    fn set_number(&mut self, number: usize, place: u8, value: u64)
        requires there { number < length self.old.world.graph }
        requires within { place < length (object_at self.old.world.graph number).numbers }
        ensures { self.new ≡ with_world self.old (with_number self.old.world number place value) }
    {
        self.objects[number].numbers[usize::from(place)] = value;
    }
}
