//! The plain graph of a script: it gives replies, and counts what is reachable.

ghost use Rattle.std.specs.Prelude.{◌≡◌, length, IfOk};
ghost use Rattle.gc_model.specs.Answer.{IsFit};

use gc_layout::NoMemory;
use gc_model::{Call, Line, Live, Reply, World};
use gc_script::Script;
use std::alloc::Global;

/// The plain graph, with the types and the mutators of a script.
#[derive(Drop)]
pub struct Graph<'a> {
    pub script: &'a Script,
    world: World,
    ghost types_are: { world.types ≡ script.now.preamble.types },
    ghost mutators_are: { length world.world.mutators ≡ script.now.preamble.mutators },
}

impl<'a> Graph<'a> {
    /// The graph before the first call.
    pub fn make(alloc: Global, script: &'a Script) -> Result<Graph<'a>, NoMemory>
        ensures { IfOk result (λ graph. graph.script ≡ script.entry) }
    {
        let world = World::make(alloc, script.types(), script.mutators())?;
        Ok(Graph { script, world })
    }

    /// The reply to a line of the script, counted from 0. Each new object has room. None where there is no such line.
    pub fn reply_to_line(
        &mut self,
        alloc: Global,
        index: usize,
    ) -> Result<Option<Reply>, NoMemory> {
        let Some(Line { mutator, call }) = self.script.line(index) else {
            return Ok(None);
        };
        let reply = self.reply(alloc, mutator, &call, true)?;
        Ok(Some(reply))
    }

    /// The reply to a mutator's call. A new object has room where that is said.
    pub fn reply(
        &mut self,
        alloc: Global,
        t: u8,
        call: &Call,
        room: bool,
    ) -> Result<Reply, NoMemory>
        requires { IsFit self.old.script.now.preamble.types self.old.script.now.preamble.mutators t call.now }
        ensures { self.new.script ≡ self.old.script }
    {
        self.world.answer(alloc, t, call, room)
    }

    /// What is reachable.
    pub fn live(&self, alloc: Global) -> Result<Live, NoMemory> {
        self.world.count_live(alloc)
    }
}
