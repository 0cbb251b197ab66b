//! The calls on registers, and on whether a mutator is blocked.
ghost use Rattle.std.specs.Prelude.{◌≡◌, ◌<◌, None, true, length, replicate, IfSome};
ghost use Rattle.gc_layout.specs.Sizes.{register_count};
ghost use Rattle.gc_model.specs.Answer.{effect, loads};
ghost use Rattle.gc_model.specs.Plain.{with_world};
ghost use Rattle.gc_model.specs.World.{is_blocked, named_by, with_blocked, with_mutator, with_register};
ghost use Rattle.gc_model.specs.declared.call.Call.TheVariants.{Same};

use crate::world::{REGISTER_COUNT, World};
use crate::{Reg, Reply};

impl World {
    /// What a register of a mutator names.
    pub(crate) fn named(&self, t: u8, reg: Reg) -> Option<usize>
        requires { t < length self.now.world.mutators }
        ensures named { result ≡ named_by self.now.world t reg }
        ensures there { IfSome result (λ number. number < length self.now.world.graph) }
    {
        let mutator = &self.mutators[usize::from(t)];
        mutator.registers[usize::from(reg.index())]
    }

    /// Makes a register name an object, or nothing.
    pub(crate) fn name(&mut self, t: u8, reg: Reg, name: Option<usize>)
        requires mutator { t < length self.old.world.mutators }
        requires there { IfSome name (λ number. number < length self.old.world.graph) }
        ensures { self.new ≡ with_world self.old (with_register self.old.world t reg name) }
    {
        let mutator = &mut self.mutators[usize::from(t)];
        mutator.registers[usize::from(reg.index())] = name;
    }

    /// Whether a mutator is blocked.
    pub(crate) fn is_blocked(&self, t: u8) -> bool
        requires { t < length self.now.world.mutators }
        ensures { result ≡ is_blocked self.now.world t }
    {
        self.mutators[usize::from(t)].blocked
    }

    /// Blocks a mutator, or unblocks it.
    pub(crate) fn set_blocked(&mut self, t: u8, blocked: bool)
        requires { t < length self.old.world.mutators }
        ensures { self.new ≡ with_world self.old (with_blocked self.old.world t blocked) }
    {
        self.mutators[usize::from(t)].blocked = blocked;
    }

    /// Makes all registers of a mutator nothing, and blocks it.
    pub(crate) fn end(&mut self, t: u8)
        requires { t < length self.old.world.mutators }
        ensures { self.new ≡ with_world self.old
            (with_mutator self.old.world t (record { registers = replicate register_count None; blocked = true })) }
    {
        let mutator = &mut self.mutators[usize::from(t)];
        mutator.registers = [None; REGISTER_COUNT];
        mutator.blocked = true;
    }

    /// Whether two registers name the same object, or are both nothing.
    pub(crate) fn same(&self, t: u8, left: Reg, right: Reg) -> Reply
        requires { t < length self.now.world.mutators }
        ensures { effect self.now.types self.now.world t true (Same left right)
            ≡ record { world = self.now.world; reply = result } }
    {
        if self.named(t, left) == self.named(t, right) {
            Reply::Yes
        } else {
            Reply::No
        }
    }

    /// Makes a register name what a slot names, where that isn't nothing.
    pub(crate) fn load(&mut self, t: u8, into: Reg, slot: Option<usize>) -> Reply
        requires mutator { t < length self.old.world.mutators }
        requires there { IfSome slot (λ number. number < length self.old.world.graph) }
        ensures types { self.new.types ≡ self.old.types }
        ensures loads { loads self.old.world t into slot ≡ record { world = self.new.world; reply = result } }
    {
        if slot.is_none() {
            return Reply::Nil;
        }
        self.name(t, into, slot);
        Reply::Done
    }
}
