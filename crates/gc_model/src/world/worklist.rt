//! The marks of a search through the graph, and the list of what it still has to scan: the objects that it has marked,
//! in the order in which it met them. Each marked object stands in the list once, and nothing else does.
ghost use Rattle.std.specs.Prelude.{◌≡◌, ◌<◌, ◌≤◌, ◌↔◌, ◌∷◌, [], Some, false, length, replicate, slice_index, IfOk, IfSome, IsNone};
ghost use Rattle.gc_model.specs.Laws.{AreThere};
ghost use Rattle.gc_model.specs.Reach.{every};
ghost use Rattle.gc_model.specs.Worklist.{Adds, is_marked, IsListed};

use std::alloc::{AllocError, Global};
use std::marker::Model;

/// The worklist of a search: a mark for each object of the graph, and the marked ones in the order in which they
/// were met.
#[derive(Drop)]
pub(crate) struct Worklist {
    marks: Vec<bool>,
    listed: Vec<usize>,
}

impl Model for Worklist {
    ghost use Rattle.std.specs.Prelude.{◌≤◌, length, vec_capacity};
    ghost use Rattle.gc_model.specs.Worklist.{Worklist as GraphWorklist, IsListed};

    ghost Value = { GraphWorklist };

    ghost view = { λ w. record { marks = w.marks.items; listed = w.listed.items } };

    ghost invariant = { λ w. (length w.marks.items ≤ vec_capacity w.listed)
        × IsListed (record { marks = w.marks.items; listed = w.listed.items }) };
}

impl Worklist {
    /// Nothing is marked yet of so many objects. All the memory of a search is taken here.
    pub(crate) fn make(alloc: Global, count: usize) -> Result<Worklist, AllocError>
        ensures { IfOk result (λ work. work ≡ record { marks = replicate count false; listed = [] }) }
    {
        Ok(Worklist {
            marks: vec![in alloc; false; count]?,
            listed: Vec::with_capacity(alloc, count)?,
        })
    }

    /// Marks the objects that these name.
    pub(crate) fn mark_named(&mut self, named: &[Option<usize>])
        requires { AreThere (length self.old.marks) named.now }
        ensures { Adds every named.now self.old self.new }
    {
        for name in named {
            if let Some(number) = *name {
                self.mark(number);
            }
        }
    }

    /// Marks an object and lists it, unless it is marked already.
    pub(crate) fn mark(&mut self, number: usize)
        requires { number < length self.old.marks }
        ensures { Adds every (Some number ∷ []) self.old self.new }
    {
        if self.marks[number] {
            return;
        }
        self.marks[number] = true;
        self.listed.push_reserved(number);
    }

    /// The object at an index of the list. None exactly where the list ends before it.
    pub(crate) fn listed(&self, index: usize) -> Option<usize>
        ensures listed { IfSome result (λ number. number ≡ slice_index self.now.listed index) }
        ensures there { IfSome result (λ number. number < length self.now.marks) }
        ensures within { IfSome result (λ _. index < length self.now.listed) }
        ensures none { IsNone result ↔ (length self.now.listed ≤ index) }
        ensures list { IsListed self.now }
        ensures few { length self.now.listed ≤ length self.now.marks }
    {
        self.listed.get(index).copied()
    }

    /// Whether an object is marked.
    pub(crate) fn is_marked(&self, number: usize) -> bool
        requires { number < length self.now.marks }
        ensures { result ≡ is_marked self.now number }
    {
        self.marks[number]
    }
}
