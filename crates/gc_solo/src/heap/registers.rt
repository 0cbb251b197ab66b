//! The registers of a mutator, and whether it is blocked.
ghost use Rattle.std.specs.Prelude.{◌≡◌, ◌<◌, ℕ, Option, true, false, slice_index, slice_index_or};
ghost use Rattle.gc_model.specs.Answer.{effect, loads, does};
ghost use Rattle.gc_model.specs.World.{World, is_blocked, with_register, with_blocked};
ghost use Rattle.gc_model.specs.declared.call.Call.TheVariants.{Same, CopyReg, ClearReg, End};
ghost use Rattle.gc_placement.specs.Placement.{Placement, IsNamePlaced, name_address};
ghost use Rattle.gc_solo.specs.Kept.{ShowsBy, Stays, bay_at, kept_of};
ghost use Rattle.gc_solo.specs.Stands.{IsAnswered, IsReadyFor, IsReadyIn};

use crate::heap::Heap;
use gc_layout::REGISTERS;
use gc_model::{Reg, Reply};

impl Heap {
    /// The address that a register of a mutator holds, 0 for nothing.
    pub(crate) fn register(&self, t: u8, reg: Reg) -> u64
        requires ready { IsReadyIn (kept_of self.now) t }
        ensures { result ≡ slice_index (bay_at self.now.bays.items t).registers reg }
    {
        self.bays[usize::from(t)].reg(reg.index())
    }

    /// Lets a register of a mutator hold an address, 0 for nothing.
    pub(crate) fn set_register(&mut self, t: u8, reg: Reg, address: u64)
        requires ready { IsReadyIn (kept_of self.old) t }
        ensures stays { Stays (kept_of self.old) (kept_of self.new) }
        ensures named { (placement : Placement) (world : World) (name : Option ℕ) → IsReadyFor (kept_of self.old) placement world t
            → address ≡ name_address placement name → IsNamePlaced placement name
            → ShowsBy (kept_of self.new) placement (with_register world t reg name) }
    {
        self.bays[usize::from(t)].set_reg(reg.index(), address);
    }

    /// Whether a mutator is blocked.
    pub(crate) fn is_blocked(&self, t: u8) -> bool
        requires ready { IsReadyIn (kept_of self.now) t }
        ensures { (placement : Placement) (world : World) → IsReadyFor (kept_of self.now) placement world t
            → result ≡ is_blocked world t }
    {
        self.blocked[usize::from(t)]
    }

    /// Blocks a mutator, or unblocks it.
    pub(crate) fn set_blocked(&mut self, t: u8, blocked: bool) -> Reply
        requires ready { IsReadyIn (kept_of self.old) t }
        ensures stays { Stays (kept_of self.old) (kept_of self.new) }
        ensures answered { (placement : Placement) (world : World) → IsReadyFor (kept_of self.old) placement world t
            → IsAnswered (kept_of self.new) result (does (with_blocked world t blocked)) }
    {
        self.blocked[usize::from(t)] = blocked;
        Reply::Done
    }

    /// Makes all registers of a mutator nothing, and blocks it.
    pub(crate) fn end(&mut self, t: u8) -> Reply
        requires ready { IsReadyIn (kept_of self.old) t }
        ensures stays { Stays (kept_of self.old) (kept_of self.new) }
        ensures answered { (placement : Placement) (world : World) → IsReadyFor (kept_of self.old) placement world t
            → IsAnswered (kept_of self.new) result (effect self.old.types world t true End) }
    {
        let bay = &mut self.bays[usize::from(t)];
        for reg in 0..REGISTERS {
            bay.set_reg(reg, 0);
        }
        self.blocked[usize::from(t)] = true;
        Reply::Done
    }

    /// Whether two registers name the same object, or are both nothing.
    pub(crate) fn same(&self, t: u8, left: Reg, right: Reg) -> Reply
        requires ready { IsReadyIn (kept_of self.now) t }
        ensures { (placement : Placement) (world : World) → IsReadyFor (kept_of self.now) placement world t
            → IsAnswered (kept_of self.now) result (effect self.now.types world t true (Same left right)) }
    {
        if self.register(t, left) == self.register(t, right) {
            Reply::Yes
        } else {
            Reply::No
        }
    }

    /// Copies a register.
    pub(crate) fn copy(&mut self, t: u8, into: Reg, source: Reg) -> Reply
        requires ready { IsReadyIn (kept_of self.old) t }
        ensures stays { Stays (kept_of self.old) (kept_of self.new) }
        ensures answered { (placement : Placement) (world : World) → IsReadyFor (kept_of self.old) placement world t
            → IsAnswered (kept_of self.new) result (effect self.old.types world t true (CopyReg into source)) }
    {
        let address = self.register(t, source);
        self.set_register(t, into, address);
        Reply::Done
    }

    /// Makes a register nothing.
    pub(crate) fn clear(&mut self, t: u8, reg: Reg) -> Reply
        requires ready { IsReadyIn (kept_of self.old) t }
        ensures stays { Stays (kept_of self.old) (kept_of self.new) }
        ensures answered { (placement : Placement) (world : World) → IsReadyFor (kept_of self.old) placement world t
            → IsAnswered (kept_of self.new) result (effect self.old.types world t true (ClearReg reg)) }
    {
        self.set_register(t, reg, 0);
        Reply::Done
    }

    /// Lets a register hold the address that a slot holds, where that isn't nothing.
    pub(crate) fn load(&mut self, t: u8, into: Reg, slot: u64) -> Reply
        requires ready { IsReadyIn (kept_of self.old) t }
        ensures stays { Stays (kept_of self.old) (kept_of self.new) }
        ensures loaded { (placement : Placement) (world : World) (name : Option ℕ) → IsReadyFor (kept_of self.old) placement world t
            → slot ≡ name_address placement name → IsNamePlaced placement name
            → IsAnswered (kept_of self.new) result (loads world t into name) }
    {
        if slot == 0 {
            return Reply::Nil;
        }
        self.set_register(t, into, slot);
        Reply::Done
    }
}
