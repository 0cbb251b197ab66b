//! Where everything in a heap lies: the regions, their parts, and the owner and the part of an address.
//!
//! The owner of an address is the number of whole regions before it. A collection asks for it at each word that
//! it looks at, so no division is made there: `Places` keeps the reciprocal of a region's words, scaled by 2 to
//! the 42 and rounded up, and the product of it and the words before an address, scaled back, is the quotient.
//! That is exact, since the rounding adds less than one region's share for as many words as a heap can have.
//! What an address is inside its region follows by comparing and subtracting, and by shifts for the pages.

ghost use Rattle.std.specs.Prelude.{◌≡◌, ℕ, ◌+◌, ◌*◌, ◌-◌, ◌/◌, ◌%◌, ◌<◌, ◌≤◌, ◌↔◌, ◌⊎◌, Some, IfSome, IsNone, IsTrue};
ghost use Rattle.gc_layout.specs.declared.places.Part.{Part};
ghost use Rattle.gc_layout.specs.Places.{IsWithinLimits, region_words, word_count, region_start, words_before, address_of, IsInside, owner_of, IsInHalf, IsInPages, cell_address};
ghost use Rattle.gc_layout.specs.Sizes.{page_words, register_count};

use crate::{LARGEST_SIZE, PAGE_WORDS, REGISTERS};
use std::marker::Model;

/// The most mutators.
const MOST_MUTATORS: u8 = 8;

/// The fewest words of a half.
const SMALLEST_NURSERY: u32 = LARGEST_SIZE as u32;

/// The most words of a half.
const LARGEST_NURSERY: u32 = 65_536;

/// The most pages of a mutator.
const MOST_PAGES: u16 = 128;

/// The root words of a region.
const ROOTS: u64 = REGISTERS as u64;

/// By how much the reciprocal of a region's words is scaled: 2 to the 42.
const SCALE: u64 = 4_398_046_511_104;

/// A word of a mutator's region.
#[derive(Clone, Copy, Debug, PartialEq, Eq)]
pub enum Part {
    /// The root word of a register, 0 to 15.
    Root { reg: u8 },
    /// A word of semispace half 0 or 1, counted from 0.
    Half { half: u8, offset: u32 },
    /// A word of a page, 0 to 1023. Pages count from 0.
    Page { page: u16, offset: u32 },
}

/// Where everything in a heap lies. Each mutator has a region: 16 root words, then half 0, half 1 and the
/// pages in order. The regions follow one another from address 1 on, and addresses count words.
#[derive(Clone, Copy, Debug, PartialEq, Eq)]
pub struct Places {
    mutators: u8,
    nursery: u32,
    pages: u16,
    reciprocal: u64,
}

impl Model for Places {
    ghost use Rattle.std.specs.Prelude.{◌≡◌};
    ghost use Rattle.gc_layout.specs.Places.{Layout, IsWithinLimits};
    ghost use Rattle.gc_layout.specs.Reciprocal.{reciprocal_of};
    ghost use Rattle.std.proofs.Common.{ap, sym};

    ghost Value = { Layout };

    ghost view = { λ p. record { mutators = p.mutators; nursery = p.nursery; pages = p.pages } };

    ghost invariant = { λ p. IsWithinLimits (record { mutators = p.mutators; nursery = p.nursery; pages = p.pages })
        × (p.reciprocal ≡ reciprocal_of (record { mutators = p.mutators; nursery = p.nursery; pages = p.pages })) };

    ghost inverse = { λ l. record { mutators = l.mutators; nursery = l.nursery; pages = l.pages; reciprocal = reciprocal_of l } };

    ghost inverse_ok = { λ p h. ap (λ reciprocal. record { mutators = p.mutators; nursery = p.nursery; pages = p.pages; reciprocal = reciprocal }) (sym h.1) };
}

impl Places {
    /// The places of a heap with 1 to 8 mutators, 64 to 65,536 words in a half, and 1 to 128 pages for each
    /// mutator. None exactly where one of the numbers is outside its limit.
    pub fn make(mutators: u8, nursery: u32, pages: u16) -> Option<Places>
        ensures made { IfSome result (λ places. places ≡ record { mutators = mutators; nursery = nursery; pages = pages }) }
        ensures none { IsNone result ↔ ¬ IsWithinLimits (record { mutators = mutators; nursery = nursery; pages = pages }) }
    {
        let within = (1..=MOST_MUTATORS).contains(&mutators)
            && (SMALLEST_NURSERY..=LARGEST_NURSERY).contains(&nursery)
            && (1..=MOST_PAGES).contains(&pages);
        if within {
            Some(Places {
                mutators,
                nursery,
                pages,
                reciprocal: SCALE / region(nursery, pages) + 1,
            })
        } else {
            None
        }
    }

    /// The mutator in whose region an address lies. None exactly where the address is 0 or above the number
    /// of words.
    pub fn owner(&self, a: u64) -> Option<u8>
        ensures none { IsNone result ↔ ((a ≡ 0) ⊎ (word_count self.now < a)) }
        ensures owner { IfSome result (λ m. (m ≡ owner_of self.now a) × (m < self.now.mutators)) }
        ensures exact { (m : ℕ) (part : Part) → m < self.now.mutators → IsInside self.now part → address_of self.now m part ≡ a → result ≡ Some m }
    {
        if self.is_address(a) {
            Some(self.regions_before(a - 1))
        } else {
            None
        }
    }

    /// The part of its owner's region that an address is. None exactly where the address is 0 or above the
    /// number of words.
    pub fn part(&self, a: u64) -> Option<Part>
        ensures none { IsNone result ↔ ((a ≡ 0) ⊎ (word_count self.now < a)) }
        ensures inside { IfSome result (λ part. IsInside self.now part) }
        ensures address { IfSome result (λ part. address_of self.now (owner_of self.now a) part ≡ a) }
        ensures exact { (m : ℕ) (part : Part) → m < self.now.mutators → IsInside self.now part → address_of self.now m part ≡ a → result ≡ Some part }
    {
        if self.is_address(a) {
            let before = a - 1;
            let owner = self.regions_before(before);
            Some(self.part_after(before - u64::from(owner) * self.region()))
        } else {
            None
        }
    }

    /// Whether an address is a word of this half, 0 or 1, of a mutator.
    pub fn is_in_half(&self, m: u8, half: u8, a: u64) -> bool
        requires mutator { m < self.now.mutators }
        requires half { half < 2 }
        ensures { IsTrue result ↔ IsInHalf self.now m half a }
    {
        let first = self.half_start(m, half);
        (first..first + u64::from(self.nursery)).contains(&a)
    }

    /// Whether an address is a word of a page of a mutator.
    pub fn is_in_pages(&self, m: u8, a: u64) -> bool
        requires { m < self.now.mutators }
        ensures { IsTrue result ↔ IsInPages self.now m a }
    {
        let first = self.pages_start(m);
        (first..first + u64::from(self.pages) * PAGE_WORDS).contains(&a)
    }

    /// The address of the root word of register 0. The other registers' root words follow it.
    pub fn root(&self, m: u8) -> u64
        requires { m < self.now.mutators }
        ensures { result ≡ address_of self.now m (Part.Root 0) }
    {
        self.start(m)
    }

    /// The address of the first word of half 0 or 1.
    pub fn half_start(&self, m: u8, half: u8) -> u64
        requires mutator { m < self.now.mutators }
        requires half { half < 2 }
        ensures start { result ≡ address_of self.now m (Part.Half half 0) }
        ensures limits { IsWithinLimits self.now }
    {
        self.start(m) + ROOTS + u64::from(half) * u64::from(self.nursery)
    }

    /// The address of the first word of a page.
    pub fn page_start(&self, m: u8, page: u16) -> u64
        requires mutator { m < self.now.mutators }
        requires page { page < self.now.pages }
        ensures { result ≡ address_of self.now m (Part.Page page 0) }
    {
        self.pages_start(m) + u64::from(page) * PAGE_WORDS
    }

    /// The address of a cell, by its offset: how many words of the mutator's pages stand before it.
    pub fn cell_address(&self, m: u8, offset: u64) -> u64
        requires mutator { m < self.now.mutators }
        requires offset { offset < page_words * self.now.pages }
        ensures address { result ≡ cell_address self.now m offset }
        ensures inside { IsInPages self.now m result }
    {
        self.pages_start(m) + offset
    }

    /// The offset of the cell at an address of the mutator's pages: how many words of the pages stand before it.
    pub fn cell_offset(&self, m: u8, a: u64) -> u64
        requires mutator { m < self.now.mutators }
        requires inside { IsInPages self.now m a }
        ensures address { cell_address self.now m result ≡ a }
        ensures offset { result < page_words * self.now.pages }
    {
        a - self.pages_start(m)
    }

    /// How many words the heap has. The addresses are 1 to this number.
    pub fn words(&self) -> u64
        ensures words { result ≡ word_count self.now }
        ensures limits { IsWithinLimits self.now }
    {
        u64::from(self.mutators) * self.region()
    }

    /// How many mutators there are, 1 to 8.
    pub fn mutators(&self) -> u8
        ensures mutators { result ≡ self.now.mutators }
        ensures limits { IsWithinLimits self.now }
    {
        self.mutators
    }

    /// The words of a half, 64 to 65,536.
    pub fn nursery(&self) -> u32
        ensures nursery { result ≡ self.now.nursery }
        ensures limits { IsWithinLimits self.now }
    {
        self.nursery
    }

    /// The pages of a mutator, 1 to 128.
    pub fn pages(&self) -> u16
        ensures pages { result ≡ self.now.pages }
        ensures limits { IsWithinLimits self.now }
    {
        self.pages
    }

    /// Whether this is an address of the heap.
    fn is_address(&self, a: u64) -> bool
        ensures { IsTrue result ↔ ((1 ≤ a) × (a ≤ word_count self.now)) }
    {
        (1..=self.words()).contains(&a)
    }

    /// How many whole regions so many words are.
    fn regions_before(&self, before: u64) -> u8
        requires { before < word_count self.now }
        ensures regions { result ≡ before / region_words self.now }
        ensures owner { result < self.now.mutators }
    {
        (before * self.reciprocal / SCALE) as u8
    }

    /// The address at which the region of a mutator begins.
    fn start(&self, m: u8) -> u64
        requires { m < self.now.mutators }
        ensures start { result ≡ region_start self.now m }
        ensures address { result ≤ 2097280 }
    {
        let _ = &self.mutators;
        1 + u64::from(m) * self.region()
    }

    /// The address of the first word of page 0.
    fn pages_start(&self, m: u8) -> u64
        requires { m < self.now.mutators }
        ensures start { result ≡ address_of self.now m (Part.Page 0 0) }
        ensures limits { IsWithinLimits self.now }
        ensures address { result ≤ 2228368 }
    {
        self.start(m) + ROOTS + 2 * u64::from(self.nursery)
    }

    /// The words of a region.
    fn region(&self) -> u64
        ensures words { result ≡ region_words self.now }
        ensures most { result ≤ 262160 }
    {
        region(self.nursery, self.pages)
    }

    /// The part that has so many words of its region before it.
    fn part_after(&self, before: u64) -> Part
        requires { before < region_words self.now }
        ensures inside { IsInside self.now result }
        ensures before { words_before self.now result ≡ before }
    {
        let nursery = u64::from(self.nursery);
        if before < ROOTS {
            return Part::Root { reg: before as u8 };
        }
        let in_halves = before - ROOTS;
        if in_halves < nursery {
            return Part::Half {
                half: 0,
                offset: in_halves as u32,
            };
        }
        let in_second = in_halves - nursery;
        if in_second < nursery {
            return Part::Half {
                half: 1,
                offset: in_second as u32,
            };
        }
        let in_pages = in_second - nursery;
        Part::Page {
            page: (in_pages / PAGE_WORDS) as u16,
            offset: (in_pages % PAGE_WORDS) as u32,
        }
    }
}

/// The words of a region with so many words in a half and so many pages.
fn region(nursery: u32, pages: u16) -> u64
    ensures { result ≡ register_count + 2 * nursery + page_words * pages }
{
    ROOTS + 2 * u64::from(nursery) + u64::from(pages) * PAGE_WORDS
}
