//! A heap of one thread and the plain graph, on which the same calls are made. The replies are to be the same, and a full
//! collection is to count what the graph finds reachable before the call that brought it: a collection changes nothing of
//! the graph's world.

ghost use Rattle.std.specs.Prelude.{◌≡◌, IfOk};
ghost use Rattle.gc_cli.specs.Played.{AreAllowed};
ghost use Rattle.gc_model.specs.Answer.{Suits};

use crate::graph::Graph;
use gc_cli::Opts;
use gc_layout::{NoMemory, Places};
use gc_model::{Call, Line, Reply, RunReport};
use gc_script::Script;
use gc_solo::Solo;
use std::alloc::Global;
use std::process::Abort;
use std::test::Fail;

/// For how many reports of collections there is room.
const REPORTS: u32 = 16_384;

/// A heap and the graph, with the types and the mutators of a script.
#[derive(Drop)]
pub struct Pair<'a> {
    graph: Graph<'a>,
    solo: Solo,
    ghost types_are: { solo.types ≡ graph.script.now.preamble.types },
    ghost mutators_are: { solo.layout.mutators ≡ graph.script.now.preamble.mutators },
}

impl<'a> Pair<'a> {
    ghost use Rattle.std.specs.Prelude.{length};

    /// Both before the first call. The heap is the one that the options ask for.
    pub fn make(alloc: Global, script: &'a Script, opts: &Opts) -> Result<Pair<'a>, NoMemory>
        requires { AreAllowed opts.now }
    {
        let places = Places::make(script.mutators(), opts.nursery, opts.pages).unwrap();
        let solo = Solo::make(alloc, places, script.types(), REPORTS)?;
        let graph = Graph::make(alloc, script)?;
        Ok(Pair { graph, solo })
    }

    /// Makes the call of a line of the script, counted from 0. None where there is no such line.
    pub fn play_line<R: Abort + AllocGlobal>(
        &mut self,
        rt: &R,
        index: usize,
    ) -> Result<Option<Reply>, Fail> {
        let Some(Line { mutator, call }) = self.graph.script.line(index) else {
            return Ok(None);
        };
        let reply = self.call(rt, mutator, &call)?;
        Ok(Some(reply))
    }

    /// Makes a mutator's call on both, and compares. Whether a new object has room is the heap's choice, which the graph is
    /// told.
    pub fn call<R: Abort + AllocGlobal>(
        &mut self,
        rt: &R,
        t: u8,
        call: &Call,
    ) -> Result<Reply, Fail>
        requires { Suits (length self.old.graph.script.now.preamble.types) call.now }
    {
        assert!(rt; t < self.mutators());
        assert!(rt; self.solo.reports_left() >= 2);
        let before = self.solo.reports().len();
        let reply = self.solo.call(t, call);
        self.compare_counts(rt, before)?;
        let room = reply != Reply::Full;
        let graphs = self.graph.reply(rt.alloc(), t, call, room)?;
        assert_eq!(rt; reply, graphs, "{call:?} of mutator {t}");
        Ok(reply)
    }

    /// Compares what the full collections counted that stand behind so many others.
    fn compare_counts<R: Abort + AllocGlobal>(&self, rt: &R, before: usize) -> Result<(), Fail> {
        for report in self.solo.reports().iter().skip(before) {
            if let &RunReport::Full { objects, words } = report {
                let live = self.graph.live(rt.alloc())?;
                assert_eq!(rt; objects, live.objects);
                assert_eq!(rt; words, live.words);
            }
        }
        Ok(())
    }

    /// How many mutators there are.
    pub fn mutators(&self) -> u8
        ensures { result ≡ self.now.graph.script.now.preamble.mutators }
    {
        self.graph.script.mutators()
    }

    /// How many objects are reachable, the common object among them.
    pub fn live_objects(&self, alloc: Global) -> Result<u64, NoMemory> {
        Ok(self.graph.live(alloc)?.objects)
    }

    /// The reports of all collections, in their order.
    pub fn reports(&self) -> &[RunReport] {
        self.solo.reports()
    }
}
