//! The machine of the language: its values on the heap, and its registers.
ghost use Rattle.std.specs.Prelude.{◌≡◌, ◌+◌, ◌<◌, ◌≤◌, ◌↔◌, length, IfOk, IsErrOf, IsOk};
ghost use Rattle.gc_layout.specs.Sizes.{register_count};
ghost use Rattle.gc_model.specs.Answer.{IsFit};
ghost use Rattle.gc_model.specs.History.{allowance_of};

use crate::fault::Fault;
use gc_layout::{Places, Shape, TypeNo, Types};
use gc_model::{Call, Live, Reg, Reply, RunReport};
use gc_solo::Solo;
use std::alloc::Global;

/// The register that holds the list.
pub(crate) const LIST: u8 = 0;
/// The register that holds the list that is being made of another one.
pub(crate) const MADE: u8 = 1;
/// The register that goes along a list.
pub(crate) const AT: u8 = 2;
/// The register that holds an element at hand.
pub(crate) const ELEMENT: u8 = 3;
/// The register that holds a pair just made.
pub(crate) const FRESH: u8 = 4;
/// The register that is never set, and so is always nothing.
pub(crate) const NOTHING: u8 = 15;

/// The one mutator.
const MUTATOR: u8 = 0;

/// How many mutators there are.
const MUTATORS: u8 = 1;

/// The words of a half. With the pages they are 12,000, as many as 3,000 pairs have.
const HALF_WORDS: u32 = 3_808;

/// The pages, of 1,024 words.
const PAGES: u16 = 8;

/// What a number looks like: it has 3 words.
const NUMBER: Shape = Shape {
    slots: 0,
    numbers: 1,
};

/// What a pair looks like: it has 4 words.
const PAIR: Shape = Shape {
    slots: 2,
    numbers: 0,
};

/// The place of a number's own number.
const VALUE: u8 = 0;

/// The place of a pair's first slot.
const FIRST: u8 = 0;

/// The place of a pair's second slot.
const REST: u8 = 1;

/// The machine of the language, whose values lie on a heap with one mutator. A register holds a number, a pair or nothing,
/// and so does a field of a pair.
#[derive(Debug, Drop)]
pub(crate) struct Machine {
    heap: Solo,
    number: TypeNo,
    pair: TypeNo,
    ghost one_mutator: { heap.layout.mutators ≡ 1 },
    ghost number_is_known: { number.0 < length heap.types },
    ghost pair_is_known: { pair.0 < length heap.types },
}

/// How many collections there were, of either kind.
#[derive(Clone, Copy, Debug, PartialEq, Eq)]
pub(crate) struct Counts {
    pub(crate) minor: u32,
    pub(crate) full: u32,
}

impl Machine {
    /// A machine whose registers all hold nothing, with room for so many reports of collections.
    pub(crate) fn make(alloc: Global, reports: u32) -> Result<Machine, Fault>
        ensures { IfOk result (λ machine. machine.heap.room ≡ reports) }
    {
        let mut types = Types::make(alloc)?;
        let number = types.add(NUMBER).unwrap();
        let pair = types.add(PAIR).unwrap();
        let places = Places::make(MUTATORS, HALF_WORDS, PAGES).unwrap();
        let heap = Solo::make(alloc, places, &types, reports)?;
        Ok(Machine { heap, number, pair })
    }

    /// Lets a register hold a new number.
    pub(crate) fn new_number(&mut self, into: u8, number: u64) -> Result<(), Fault>
        requires { into < register_count }
        ensures out_of_reports { IsErrOf result Fault.OutOfReports ↔ (self.old.heap.room < 2) }
        ensures room { self.old.heap.room ≤ self.new.heap.room + 2 }
    {
        self.new_value(into, self.number)?;
        done(self.call(&Call::Set {
            base: register(into),
            place: VALUE,
            number,
        }))
    }

    /// Lets a register hold a new pair, of nothing and nothing.
    pub(crate) fn new_pair(&mut self, into: u8) -> Result<(), Fault>
        requires { into < register_count }
        ensures out_of_reports { IsErrOf result Fault.OutOfReports ↔ (self.old.heap.room < 2) }
        ensures room { self.old.heap.room ≤ self.new.heap.room + 2 }
    {
        self.new_value(into, self.pair)
    }

    /// The number that a register holds.
    pub(crate) fn number(&mut self, base: u8) -> Result<u64, Fault>
        requires { base < register_count }
    {
        match self.call(&Call::Ask {
            base: register(base),
            place: VALUE,
        }) {
            Reply::Number(number) => Ok(number),
            reply => Err(reply.into()),
        }
    }

    /// Lets a register hold the first of a pair.
    pub(crate) fn first(&mut self, into: u8, base: u8) -> Result<(), Fault>
        requires into { into < register_count }
        requires base { base < register_count }
    {
        self.field(into, base, FIRST)
    }

    /// Lets a register hold the rest of a pair.
    pub(crate) fn rest(&mut self, into: u8, base: u8) -> Result<(), Fault>
        requires into { into < register_count }
        requires base { base < register_count }
    {
        self.field(into, base, REST)
    }

    /// Lets the first of a pair be what a register holds.
    pub(crate) fn set_first(&mut self, base: u8, value: u8) -> Result<(), Fault>
        requires base { base < register_count }
        requires value { value < register_count }
    {
        self.set_field(base, FIRST, value)
    }

    /// Lets the rest of a pair be what a register holds.
    pub(crate) fn set_rest(&mut self, base: u8, value: u8) -> Result<(), Fault>
        requires base { base < register_count }
        requires value { value < register_count }
    {
        self.set_field(base, REST, value)
    }

    /// Whether a register holds nothing: whether it is the same as one that is never set.
    pub(crate) fn is_nothing(&mut self, tested: u8) -> Result<bool, Fault>
        requires { tested < register_count }
    {
        match self.call(&Call::Same {
            left: register(tested),
            right: register(NOTHING),
        }) {
            Reply::Yes => Ok(true),
            Reply::No => Ok(false),
            reply => Err(reply.into()),
        }
    }

    /// Lets a register hold what another one holds.
    pub(crate) fn copy(&mut self, into: u8, source: u8) -> Result<(), Fault>
        requires into { into < register_count }
        requires source { source < register_count }
    {
        done(self.call(&Call::CopyReg {
            into: register(into),
            source: register(source),
        }))
    }

    /// Lets a register hold nothing.
    pub(crate) fn clear(&mut self, cleared: u8) -> Result<(), Fault>
        requires { cleared < register_count }
    {
        done(self.call(&Call::ClearReg {
            reg: register(cleared),
        }))
    }

    /// Makes a full collection, and gives what it counted: the values that are kept, and the common object.
    pub(crate) fn collect(&mut self) -> Result<Live, Fault>
        ensures out_of_reports { IsErrOf result Fault.OutOfReports ↔ (self.old.heap.room < 1) }
        ensures room { self.old.heap.room ≤ self.new.heap.room + 1 }
    {
        if self.heap.reports_left() < 1 {
            return Err(Fault::OutOfReports);
        }
        let reply = self.heap.call(MUTATOR, &Call::Collect);
        match self.heap.reports().last() {
            Some(&RunReport::Full { objects, words }) if reply == Reply::Done => {
                Ok(Live { objects, words })
            }
            _ => Err(reply.into()),
        }
    }

    /// How many collections there were so far.
    pub(crate) fn collections(&self) -> Counts {
        let mut counts = Counts { minor: 0, full: 0 };
        for report in self.heap.reports() {
            match report {
                RunReport::Minor => counts.minor = counts.minor.saturating_add(1),
                RunReport::Full { .. } => counts.full = counts.full.saturating_add(1),
            }
        }
        counts
    }

    /// Lets a register hold a new value of a type. That may bring two collections, each of which takes a report place.
    fn new_value(&mut self, into: u8, ty: TypeNo) -> Result<(), Fault>
        requires into { into < register_count }
        requires known { ty.0 < length self.old.heap.types }
        ensures out_of_reports { IsErrOf result Fault.OutOfReports ↔ (self.old.heap.room < 2) }
        ensures room { self.old.heap.room ≤ self.new.heap.room + 2 }
    {
        if self.heap.reports_left() < 2 {
            return Err(Fault::OutOfReports);
        }
        done(
            self.heap.call(
                MUTATOR,
                &Call::New {
                    into: register(into),
                    ty,
                },
            ),
        )
    }

    /// Lets a register hold a field of a pair. Where the field is nothing the heap leaves the register as it was, and the
    /// language lets it be nothing.
    fn field(&mut self, into: u8, base: u8, place: u8) -> Result<(), Fault>
        requires into { into < register_count }
        requires base { base < register_count }
    {
        match self.call(&Call::Get {
            into: register(into),
            base: register(base),
            place,
        }) {
            Reply::Nil => self.clear(into),
            reply => done(reply),
        }
    }

    /// Lets a field of a pair be what a register holds.
    fn set_field(&mut self, base: u8, place: u8, value: u8) -> Result<(), Fault>
        requires base { base < register_count }
        requires value { value < register_count }
    {
        done(self.call(&Call::Put {
            base: register(base),
            place,
            value: register(value),
        }))
    }

    /// Makes a call that brings no collection.
    fn call(&mut self, call: &Call) -> Reply
        requires fit { IsFit self.old.heap.types MUTATORS MUTATOR call.now }
        requires quiet { allowance_of call.now ≡ 0 }
        ensures room { self.old.heap.room ≤ self.new.heap.room }
    {
        self.heap.call(MUTATOR, call)
    }
}

/// The register of a number.
fn register(number: u8) -> Reg
    requires { number < register_count }
    ensures { result ≡ number }
{
    Reg::make(number).unwrap()
}

/// Whether a call was made, or what its reply means where it wasn't.
fn done(reply: Reply) -> Result<(), Fault>
    ensures ok { IsOk result ↔ (reply ≡ Reply.Done) }
    ensures full { IsErrOf result Fault.Full ↔ (reply ≡ Reply.Full) }
    ensures reports { ¬ IsErrOf result Fault.OutOfReports }
{
    match reply {
        Reply::Done => Ok(()),
        reply => Err(reply.into()),
    }
}
