//! The plain graph: the slow program that computes the graph's answers. Objects stand in a list, in which an object's
//! number is its index, and none is ever taken away. A call is first refused for being blocked, or for not being so;
//! else it is made: a New takes memory for one object, and each other call changes one register, slot or number at
//! most. What is reachable is counted by a search from the common object and the registers.
ghost use Rattle.std.specs.Prelude.{◌≡◌, ◌<◌, ◌≤◌, Bool, true, length, replicate, IfOk, OnOk, OnErr};
ghost use Rattle.gc_layout.specs.Sizes.{largest_size};
ghost use Rattle.gc_model.specs.Answer.{answer, effect, IsFit, IsNew, Suits};
ghost use Rattle.gc_model.specs.Graph.{fresh_object, object_size};
ghost use Rattle.gc_model.specs.World.{first_world, fresh_mutator};
ghost use Rattle.gc_model.specs.Plain.{Plain};

mod fields;
mod reach;
mod registers;
mod worklist;

use crate::{Call, Reg, Reply};
use gc_layout::{NoMemory, REGISTERS, Shape, TypeNo, Types};
use std::alloc::{AllocError, Global};
use std::marker::Model;

/// How many registers a mutator has.
const REGISTER_COUNT: usize = REGISTERS as usize;

/// How many objects are reachable, and the sum of their sizes in words.
#[derive(Clone, Copy, Debug, PartialEq, Eq)]
pub struct Live {
    pub objects: u64,
    pub words: u64,
}

/// The slow plain graph: a world, with the types of its objects. Nothing is ever reclaimed.
#[derive(Debug, Drop)]
pub struct World {
    types: Vec<Shape>,
    objects: Vec<Object>,
    mutators: Vec<Mutator>,
}

impl Model for World {
    ghost use Rattle.gc_model.specs.Plain.{Plain, plain_of, IsWellFormed};

    ghost Value = { Plain };

    ghost view = { λ w. plain_of w.types.items w.objects.items w.mutators.items };

    ghost invariant = { λ w. IsWellFormed (plain_of w.types.items w.objects.items w.mutators.items) };
}

impl World {
    /// The graph of the common object alone: all registers are nothing and nobody is blocked. There are 1
    /// to 8 mutators.
    pub fn make(alloc: Global, types: &Types, mutators: u8) -> Result<World, NoMemory>
        requires some { 0 < mutators }
        requires few { mutators ≤ 8 }
        ensures { IfOk result (λ made. made ≡ record { types = types.now; world = first_world mutators }) }
    {
        Self::try_make(alloc, types, mutators).map_err(|_| NoMemory)
    }

    fn try_make(alloc: Global, types: &Types, mutators: u8) -> Result<World, AllocError>
        ensures { IfOk result (λ made. made ≡ record { types = types.now; world = first_world mutators }) }
    {
        let common = Object::fresh(alloc, TypeNo(0), None, Shape::COMMON)?;
        let mut objects = Vec::new(alloc);
        objects.push(common)?;
        Ok(World {
            types: Vec::from_slice(alloc, types.as_slice())?,
            objects,
            mutators: fresh_mutators(alloc, mutators)?,
        })
    }

    /// Makes the call `c` of the mutator `t`. A New that no refusal meets is Done exactly where there is
    /// `room`. Only a New takes memory; after want of memory nothing has changed.
    pub fn answer(&mut self, alloc: Global, t: u8, c: &Call, room: bool) -> Result<Reply, NoMemory>
        requires fit { IsFit self.old.types (length self.old.world.mutators) t c.now }
        ensures types { self.new.types ≡ self.old.types }
        ensures mutators { length self.new.world.mutators ≡ length self.old.world.mutators }
        ensures reply { IfOk result (λ reply. reply ≡ (answer self.old.types self.old.world t c.now room).reply) }
        ensures world { OnOk result (self.new.world ≡ (answer self.old.types self.old.world t c.now room).world) }
        ensures no_memory { OnErr result (self.new ≡ self.old) }
        ensures only_new { OnErr result (IsNew c.now) }
        ensures only_done { OnErr result ((answer self.old.types self.old.world t c.now room).reply ≡ Reply.Done) }
    {
        match c.refusal(self.is_blocked(t)) {
            Some(refusal) => Ok(refusal),
            None => self.make_call(alloc, t, c, room),
        }
    }

    /// Makes a call that being blocked doesn't stand against.
    fn make_call(&mut self, alloc: Global, t: u8, c: &Call, room: bool) -> Result<Reply, NoMemory>
        requires mutator { t < length self.old.world.mutators }
        requires suits { Suits (length self.old.types) c.now }
        ensures types { self.new.types ≡ self.old.types }
        ensures made { IfOk result (λ reply. effect self.old.types self.old.world t room c.now
            ≡ record { world = self.new.world; reply = reply }) }
        ensures mutators { length self.new.world.mutators ≡ length self.old.world.mutators }
        ensures no_memory { OnErr result (self.new ≡ self.old) }
        ensures only_new { OnErr result (IsNew c.now) }
        ensures only_room { OnErr result (room ≡ true) }
    {
        match *c {
            Call::New { into, ty } if room => self.make_object(alloc, t, into, ty),
            Call::New { .. } => Ok(Reply::Full),
            _ => Ok(self.make_other_call(t, c)),
        }
    }

    /// Makes a call that makes no object.
    fn make_other_call(&mut self, t: u8, c: &Call) -> Reply
        requires mutator { t < length self.old.world.mutators }
        requires suits { Suits (length self.old.types) c.now }
        requires other { ¬ IsNew c.now }
        ensures types { self.new.types ≡ self.old.types }
        ensures made { (room : Bool) → effect self.old.types self.old.world t room c.now
            ≡ record { world = self.new.world; reply = result } }
    {
        match *c {
            Call::Get { into, base, place } => return self.get(t, into, base, place),
            Call::Put { base, place, value } => return self.put(t, base, place, value),
            Call::Ask { base, place } => return self.ask(t, base, place),
            Call::Set {
                base,
                place,
                number,
            } => return self.set(t, base, place, number),
            Call::SwapIf {
                base,
                place,
                expected,
                replacement,
            } => return self.swap_if(t, base, place, expected, replacement),
            Call::Same { left, right } => return self.same(t, left, right),
            Call::Take { into, place } => return self.take(t, into, place),
            Call::Await { into, place } => return self.take(t, into, place),
            Call::CopyReg { into, source } => self.name(t, into, self.named(t, source)),
            Call::ClearReg { reg } => self.name(t, reg, None),
            Call::Share { place, value } => self.share(t, place, value),
            Call::Block => self.set_blocked(t, true),
            Call::Unblock => self.set_blocked(t, false),
            Call::End => self.end(t),
            Call::Safepoint | Call::Collect => {}
            Call::New { .. } => unreachable!(),
        }
        Reply::Done
    }

    /// Makes an object, which a register comes to name.
    fn make_object(
        &mut self,
        alloc: Global,
        t: u8,
        into: Reg,
        ty: TypeNo,
    ) -> Result<Reply, NoMemory>
        requires mutator { t < length self.old.world.mutators }
        requires known { ty.0 < length self.old.types }
        ensures types { self.new.types ≡ self.old.types }
        ensures made { IfOk result (λ reply. effect self.old.types self.old.world t true (Call.New into ty)
            ≡ record { world = self.new.world; reply = reply }) }
        ensures mutators { length self.new.world.mutators ≡ length self.old.world.mutators }
        ensures no_memory { OnErr result (self.new ≡ self.old) }
    {
        let shape = self.types[usize::from(ty.0)];
        let number = self.objects.len();
        let Ok(object) = Object::fresh(alloc, ty, Some(t), shape) else {
            return Err(NoMemory);
        };
        let Ok(()) = self.objects.push(object) else {
            return Err(NoMemory);
        };
        self.name(t, into, Some(number));
        Ok(Reply::Done)
    }
}

/// An object of the graph. A slot names an object by its number.
#[derive(Debug, Drop)]
struct Object {
    ty: TypeNo,
    maker: Option<u8>,
    slots: Vec<Option<usize>>,
    numbers: Vec<u64>,
}

impl Model for Object {
    ghost use Rattle.gc_model.specs.Graph.{Object as GraphObject};

    ghost Value = { GraphObject };

    ghost view = { λ o. record { ty = o.ty.0; maker = o.maker; slots = o.slots.items; numbers = o.numbers.items } };
}

impl Object {
    /// A new object: all slots are nothing and all numbers 0.
    fn fresh(
        alloc: Global,
        ty: TypeNo,
        maker: Option<u8>,
        shape: Shape,
    ) -> Result<Object, AllocError>
        ensures { IfOk result (λ object. object ≡ fresh_object ty.0 maker shape) }
    {
        Ok(Object {
            ty,
            maker,
            slots: vec![in alloc; None; usize::from(shape.slots)]?,
            numbers: vec![in alloc; 0; usize::from(shape.numbers)]?,
        })
    }

    /// The size in words: header, forwarding word, slots and numbers.
    fn size(&self) -> u64
        requires { object_size self.now ≤ largest_size }
        ensures { result ≡ object_size self.now }
    {
        2 + self.slots.len() as u64 + self.numbers.len() as u64
    }
}

/// A mutator: what its registers name, and whether it is blocked.
#[derive(Debug, Drop)]
struct Mutator {
    registers: [Option<usize>; REGISTER_COUNT],
    blocked: bool,
}

impl Model for Mutator {
    ghost use Rattle.gc_model.specs.World.{Mutator as WorldMutator};

    ghost Value = { WorldMutator };

    ghost view = { λ m. record { registers = m.registers; blocked = m.blocked } };
}

/// Mutators that have done nothing yet.
fn fresh_mutators(alloc: Global, count: u8) -> Result<Vec<Mutator>, AllocError>
    ensures { IfOk result (λ made. made.items ≡ replicate count fresh_mutator) }
{
    let mut mutators = Vec::new(alloc);
    for _ in 0..count {
        mutators.push(Mutator {
            registers: [None; REGISTER_COUNT],
            blocked: false,
        })?;
    }
    Ok(mutators)
}
