//! The memory of a heap of one thread, and how a call is made on it. Word 0 is never used, so that an address is an
//! index.
ghost use Rattle.std.specs.Prelude.{◌≡◌, ◌<◌, ◌≤◌, ◌+◌, ◌++◌, ◌∷◌, [], ℕ, None, length, slice_index};
ghost use Rattle.gc_layout.specs.Places.{word_count};
ghost use Rattle.gc_model.specs.Answer.{Suits, shape_at};
ghost use Rattle.gc_model.specs.Graph.{object_at};
ghost use Rattle.gc_model.specs.History.{allowance_of};
ghost use Rattle.gc_model.specs.World.{World};
ghost use Rattle.gc_placement.specs.Changes.{Stores};
ghost use Rattle.gc_placement.specs.Headers.{IsHeader, head_of};
ghost use Rattle.gc_placement.specs.Placement.{Placement};
ghost use Rattle.gc_solo.specs.Kept.{IsSameHeap, kept_of, memory_of};
ghost use Rattle.gc_solo.specs.Made.{IsCallMade, IsEffect};
ghost use Rattle.gc_solo.specs.Stands.{IsReadyFor, IsReadyIn};

mod allocation;
mod barrier;
mod book;
mod collection;
mod copying;
mod fields;
mod marking;
mod registers;
mod roots;
mod scanning;
mod setup;
mod sweeping;
mod tidying;

use crate::heap::book::Book;
use gc_bay::Bay;
use gc_layout::{Head, Places, Shape, Types};
use gc_model::{Call, Reply, RunKind, RunReport};

/// The most mutators.
pub(crate) const MOST_MUTATORS: usize = 8;

/// The memory of a heap of one thread, who is blocked, and the reports of its collections.
#[derive(Debug, Drop)]
pub(crate) struct Heap {
    pub(crate) types: Types,
    pub(crate) places: Places,
    pub(crate) words: Vec<u64>,
    pub(crate) bays: Vec<Bay>,
    pub(crate) blocked: [bool; MOST_MUTATORS],
    pub(crate) book: Book,
    /// Whether the next collection that a New brings is full.
    pub(crate) due: bool,
}

impl Heap {
    /// Makes a mutator's call: refused where being blocked, or not being so, stands against it. A New that isn't refused may
    /// bring collections before, and a Collect brings a full one.
    pub(crate) fn call(&mut self, t: u8, call: &Call) -> Reply
        requires ready { IsReadyIn (kept_of self.old) t }
        requires suits { Suits (length self.old.types) call.now }
        requires room { allowance_of call.now ≤ self.old.book.room }
        ensures made { (placement : Placement) (world : World) → IsReadyFor (kept_of self.old) placement world t
            → IsCallMade (kept_of self.old) (kept_of self.new) placement world t call.now result }
        ensures rest { IsSameHeap (kept_of self.old) (kept_of self.new) }
    {
        match call.refusal(self.is_blocked(t)) {
            Some(refusal) => refusal,
            None => self.make_call(t, call),
        }
    }

    /// Makes a call that being blocked doesn't stand against.
    fn make_call(&mut self, t: u8, call: &Call) -> Reply
        requires ready { IsReadyIn (kept_of self.old) t }
        requires suits { Suits (length self.old.types) call.now }
        requires room { allowance_of call.now ≤ self.old.book.room }
        ensures made { (placement : Placement) (world : World) → IsReadyFor (kept_of self.old) placement world t
            → IsEffect (kept_of self.old) (kept_of self.new) placement world t call.now result }
        ensures rest { IsSameHeap (kept_of self.old) (kept_of self.new) }
    {
        match *call {
            Call::New { into, ty } => self.make_object(t, into, ty),
            Call::Get { into, base, place } => self.get(t, into, base, place),
            Call::Put { base, place, value } => self.put(t, base, place, value),
            Call::Ask { base, place } => self.ask(t, base, place),
            Call::Set {
                base,
                place,
                number,
            } => self.set(t, base, place, number),
            Call::SwapIf {
                base,
                place,
                expected,
                replacement,
            } => self.swap_if(t, base, place, expected, replacement),
            Call::Same { left, right } => self.same(t, left, right),
            Call::CopyReg { into, source } => self.copy(t, into, source),
            Call::ClearReg { reg } => self.clear(t, reg),
            Call::Share { place, value } => self.share(t, place, value),
            Call::Take { into, place } => self.take(t, into, place),
            Call::Await { into, place } => self.take(t, into, place),
            Call::Safepoint => Reply::Done,
            Call::Block => self.set_blocked(t, true),
            Call::Unblock => self.set_blocked(t, false),
            Call::End => self.end(t),
            Call::Collect => {
                self.collect(RunKind::Full);
                Reply::Done
            }
        }
    }

    /// The shape of the object whose header has this address.
    fn shape_at(&self, address: u64) -> Shape
        requires placed { (t : ℕ) × (placement : Placement) × (world : World) × (number : ℕ)
            × IsReadyFor (kept_of self.now) placement world t × (placement number ≡ Some address) }
        ensures { (t : ℕ) (placement : Placement) (world : World) (number : ℕ)
            → IsReadyFor (kept_of self.now) placement world t → placement number ≡ Some address
            → result ≡ shape_at self.now.types (object_at world.graph number).ty }
    {
        self.shape_of(address)
    }

    /// The shape of the object whose header has this address.
    pub(crate) fn shape_of(&self, address: u64) -> Shape
        requires header { (ty : ℕ) × IsHeader (slice_index self.now.words.items address) ty × (ty < length self.now.types) }
        requires there { address < length self.now.words.items }
        ensures { (ty : ℕ) → IsHeader (slice_index self.now.words.items address) ty → result ≡ shape_at self.now.types ty }
    {
        self.types.shape(self.head(address).ty).unwrap()
    }

    /// What the header at this address says.
    pub(crate) fn head(&self, address: u64) -> Head
        requires header { (ty : ℕ) × IsHeader (slice_index self.now.words.items address) ty }
        requires there { address < length self.now.words.items }
        ensures { result ≡ head_of (slice_index self.now.words.items address) }
    {
        Head::of_word(self.word(address)).unwrap()
    }

    /// The word of this address.
    pub(crate) fn word(&self, address: u64) -> u64
        requires { address < length self.now.words.items }
        ensures { result ≡ slice_index self.now.words.items address }
    {
        self.words[address as usize]
    }

    /// Stores the word of this address.
    fn store(&mut self, address: u64, word: u64)
        requires { address < length self.old.words.items }
        ensures stored { Stores (memory_of (kept_of self.old)).word (memory_of (kept_of self.new)).word address word }
        ensures count { length self.new.words.items ≡ length self.old.words.items }
        ensures rest { self.new ≡ record self.old { words = self.new.words } }
    {
        self.words[address as usize] = word;
    }
}
