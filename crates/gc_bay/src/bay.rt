//! The bay itself: whose it is, its registers, its batches and its tally.

ghost use Rattle.std.specs.Prelude.{◌≡◌, ◌+◌, ◌<◌, ◌^◌, [], IfOk, replicate, slice_index, slice_index_or, slice_set};
ghost use Rattle.std.specs.Borrow.{sem};
ghost use Rattle.gc_gen2.specs.Page.{free_page};
ghost use Rattle.gc_layout.specs.Sizes.{register_count};

mod cells;
mod lists;
mod nursery;

use crate::Batch;
use gc_gen2::Gen2;
use gc_layout::{NoMemory, Places, REGISTERS};
use std::alloc::{AllocError, Global};
use std::marker::Model;

/// How many registers there are.
const REGISTER_COUNT: usize = REGISTERS as usize;

/// The most cells of a page: those of the least class.
const MOST_CELLS: usize = 256;

/// The number of a register, 0 to 15.
pub type Reg16 = u8;

/// What one mutator owns beside the words of the heap.
#[derive(Debug, Drop)]
pub struct Bay {
    places: Places,
    mutator: u8,
    registers: [u64; REGISTER_COUNT],
    half: u8,
    /// The address of the current half's first word.
    start: u64,
    used: u64,
    remembered: Vec<u64>,
    grey: Vec<u64>,
    gen2: Gen2,
    given: u16,
    batches: Vec<Batch>,
    objects: u64,
    words: u64,
}

impl Model for Bay {
    ghost use Rattle.gc_bay.specs.Bay.{Bay as Possessions};

    ghost Value = { Possessions };

    ghost use Rattle.gc_bay.specs.Inside.{bay_of, IsInOrder};

    ghost view = { bay_of };

    ghost invariant = { IsInOrder };
}

impl Bay {
    ghost use Rattle.gc_bay.specs.Bay.{IsBay, fresh_bay, no_tally};
    ghost use Rattle.gc_bay.specs.Lending.{LendsBatch};

    /// The bay of a mutator, with all registers nothing, nothing used and all lists empty. All memory is taken
    /// here: room for 256 entries a page and mutator in the remembered list, and in the grey list for 256 a page
    /// and one for each two words of a half.
    pub fn make(alloc: Global, places: Places, m: u8) -> Result<Bay, NoMemory>
        requires { m < places.mutators }
        ensures fresh { IfOk result (λ bay. bay ≡ fresh_bay places m) }
        ensures bay { IfOk result IsBay }
    {
        let Ok(gen2) = Gen2::make(alloc, places.pages()) else {
            return Err(NoMemory);
        };
        Self::with_cells(alloc, places, m, gen2).map_err(|_| NoMemory)
    }

    /// The bay over cells of which none is used.
    fn with_cells(alloc: Global, places: Places, m: u8, gen2: Gen2) -> Result<Bay, AllocError>
        requires mutator { m < places.mutators }
        requires cells { gen2 ≡ replicate places.pages free_page }
        ensures fresh { IfOk result (λ bay. bay ≡ fresh_bay places m) }
        ensures bay { IfOk result IsBay }
    {
        let cells = MOST_CELLS * usize::from(places.pages());
        Ok(Bay {
            places,
            mutator: m,
            registers: [0; REGISTER_COUNT],
            half: 0,
            start: places.half_start(m, 0),
            used: 0,
            remembered: Vec::with_capacity(alloc, cells * usize::from(places.mutators()))?,
            grey: Vec::with_capacity(alloc, places.nursery() as usize / 2 + cells)?,
            gen2,
            given: 0,
            batches: empty_batches(alloc, places.mutators())?,
            objects: 0,
            words: 0,
        })
    }

    /// Where everything in the heap lies.
    pub fn places(&self) -> Places
        ensures places { result ≡ self.now.layout }
        ensures bay { IsBay self.now }
    {
        self.places
    }

    /// Whose bay it is.
    pub fn mutator(&self) -> u8
        ensures mutator { result ≡ self.now.mutator }
        ensures bay { IsBay self.now }
    {
        self.mutator
    }

    /// The address in a register, 0 where it is nothing.
    pub fn reg(&self, r: Reg16) -> u64
        requires { r < register_count }
        ensures { result ≡ slice_index self.now.registers r }
    {
        self.registers[usize::from(r)]
    }

    /// Puts an address, or 0 for nothing, into a register.
    pub fn set_reg(&mut self, r: Reg16, a: u64)
        requires { r < register_count }
        ensures register { self.new ≡ record self.old { registers = slice_set self.old.registers r a } }
        ensures bay { IsBay self.new }
    {
        self.registers[usize::from(r)] = a;
    }

    /// The batch of slots for an owner.
    pub fn batch(&mut self, owner: u8) -> &mut Batch
        requires { owner < self.old.layout.mutators }
        ensures* writes_back { sem 𝓛 (LendsBatch self.entry owner result) }
        ensures value { result.now ≡ slice_index_or self.old.batches owner [] }
    {
        &mut self.batches[usize::from(owner)]
    }

    /// The batch of slots for an owner, to look at.
    pub fn peek_batch(&self, owner: u8) -> &Batch
        requires { owner < self.now.layout.mutators }
        ensures { result.now ≡ slice_index_or self.now.batches owner [] }
    {
        &self.batches[usize::from(owner)]
    }

    /// How many objects were counted since the tally was cleared, and then their words.
    pub fn tally(&self) -> (u64, u64)
        ensures objects { result.0 ≡ self.now.tally.objects }
        ensures words { result.1 ≡ self.now.tally.words }
    {
        (self.objects, self.words)
    }

    /// Counts an object of so many words.
    pub fn count_kept(&mut self, size: u64)
        requires objects { self.old.tally.objects + 1 < 2 ^ 32 }
        requires words { self.old.tally.words + size < 2 ^ 32 }
        ensures tally { self.new ≡ record self.old {
          tally = record {
            objects = self.old.tally.objects + 1;
            words = self.old.tally.words + size;
          };
        } }
        ensures bay { IsBay self.new }
    {
        self.objects += 1;
        self.words += size;
    }

    /// Sets the tally to nothing.
    pub fn clear_tally(&mut self)
        ensures tally { self.new ≡ record self.old { tally = no_tally } }
        ensures bay { IsBay self.new }
    {
        self.objects = 0;
        self.words = 0;
    }
}

/// A batch without addresses for each of so many owners.
fn empty_batches(alloc: Global, owners: u8) -> Result<Vec<Batch>, AllocError>
    ensures { IfOk result (λ batches. batches.items ≡ replicate owners []) }
{
    let mut batches = Vec::with_capacity(alloc, usize::from(owners))?;
    for _ in 0..owners {
        batches.push_reserved(Batch::empty());
    }
    Ok(batches)
}
