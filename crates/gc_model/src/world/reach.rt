//! What is reachable is found by a search: it marks the common object and what registers name, and lists each object as
//! it marks it. Then it goes through the list, marks what the slots of each object name, and so lists more; at the end
//! of the list nothing is left to mark. What stands in the list before the next object was scanned, so all that its
//! slots name is marked; and whatever stands in the list was reached. So at the end exactly the reachable is marked.
ghost use Rattle.std.specs.Prelude.{◌≡◌, ◌≤◌, length, All, IfOk};
ghost use Rattle.gc_layout.specs.Sizes.{largest_size};
ghost use Rattle.gc_model.specs.Graph.{object_size};
ghost use Rattle.gc_model.specs.Laws.{AreThere};
ghost use Rattle.gc_model.specs.Reach.{every, live, registers_of, whole};
ghost use Rattle.gc_model.specs.Worklist.{Adds, HasReached, IsUnderWay, marked_of, sum_of};

use crate::world::worklist::Worklist;
use crate::world::{Live, Mutator, Object, World};
use gc_layout::NoMemory;
use std::alloc::{AllocError, Global};

impl World {
    /// How many objects are reachable from the common object and the registers, and the sum of their sizes
    /// in words. The registers of blocked mutators count. It takes memory for a mark and a number for each
    /// object, and is refused only for want of that. It looks at each register, and at each slot of a
    /// reachable object, once.
    pub fn count_live(&self, alloc: Global) -> Result<Live, NoMemory>
        ensures live { IfOk result (λ counted. counted ≡ live self.now.world) }
    {
        match self.mark_reachable(alloc) {
            Ok(work) => Ok(sum_marked(&self.objects, &work)),
            Err(_) => Err(NoMemory),
        }
    }

    /// Marks the reachable objects.
    fn mark_reachable(&self, alloc: Global) -> Result<Worklist, AllocError>
        ensures marks { IfOk result (λ work. length work.marks ≡ length self.now.world.graph) }
        ensures reachable { IfOk result (HasReached (whole self.now.world)) }
    {
        let mut work = Worklist::make(alloc, self.objects.len())?;
        work.mark(0);
        mark_registers(&self.mutators, &mut work);
        self.mark_slots(&mut work);
        Ok(work)
    }

    /// Marks what the slots of marked objects name, each object's slots once, until there is nothing more.
    fn mark_slots(&self, work: &mut Worklist)
        requires { IsUnderWay (whole self.now.world) work.old 0 }
        ensures marks { length work.new.marks ≡ length work.old.marks }
        ensures reachable { HasReached (whole self.now.world) work.new }
    {
        let mut next = 0;
        while let Some(number) = work.listed(next) {
            let object = &self.objects[number];
            work.mark_named(&object.slots);
            next += 1;
        }
    }
}

/// Marks what the registers of these mutators name.
fn mark_registers(mutators: &[Mutator], work: &mut Worklist)
    requires { All (λ mutator. AreThere (length work.old.marks) mutator.registers) mutators.now }
    ensures { Adds every (registers_of mutators.now) work.old work.new }
{
    for mutator in mutators {
        work.mark_named(&mutator.registers);
    }
}

/// How many objects are marked, and the sum of their sizes in words. The sum fits: all objects lie in less
/// than half of the memory that there are addresses for, each takes more than 32 bytes there, and none has
/// more than 64 words.
fn sum_marked(objects: &[Object], work: &Worklist) -> Live
    requires marks { length work.now.marks ≡ length objects.now }
    requires sizes { All (λ object. object_size object ≤ largest_size) objects.now }
    ensures { result ≡ sum_of (marked_of objects.now work.now) }
{
    let mut live = Live {
        objects: 0,
        words: 0,
    };
    for (number, object) in objects.iter().enumerate() {
        if work.is_marked(number) {
            live.objects += 1;
            live.words += object.size();
        }
    }
    live
}
