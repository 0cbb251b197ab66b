//! The pages of the second generation, and which of their cells are used.
//!
//! A page is a class, or none yet, and a set of its free cells. Beside the pages stand, by class, the set of
//! the pages that have a free cell of it and the number of these cells; the number of all used cells; and the
//! number of the pages that have a class, which are the first ones. Every call keeps these true of the pages.
//! So the next cell of a class is at the lowest bit of two sets, and no call searches or counts.

ghost use Rattle.std.specs.Prelude.{◌≡◌, ◌≢◌, ◌↔◌, ◌⊎◌, ℕ, ◌+◌, ◌*◌, ◌/◌, ◌%◌, ◌<◌, ◌≤◌, IsTrue, Some, IfOk, IfSome, IfNone, IsNone, length, replicate, slice_set};
ghost use Rattle.gc_gen2.specs.Class.{IsClass};
ghost use Rattle.gc_gen2.specs.Page.{Page, free_page, empty_page, first_free_in, free_in, with_used};
ghost use Rattle.gc_gen2.specs.Cells.{IsWellFormed, page_at, class_at, offset_of as offset_for, IsUsed, used_cells, free_cells, free_pages, first_page_with_room, first_free_page, next_cell, with_cell, without_cell, TakesCell, GivesCell};

use crate::NoMemory;
use crate::class::{PAGE_WORDS, cells_before, cells_in_page, index_of};
use crate::page::PageCells;
use std::alloc::Global;
use std::marker::Model;

/// The second generation of one mutator: a list of pages, each with a class or none, and which of its cells
/// are used. Offsets and classes are in words.
#[derive(Debug, Drop)]
pub struct Gen2 {
    pages: Vec<PageCells>,
    /// By class, 4 words first: the pages that have a free cell of it, a bit each.
    rooms: [u128; 16],
    /// By class: how many cells of it are free.
    free: [u32; 16],
    /// How many cells are used.
    used: u32,
    /// How many pages have a class.
    with_class: u16,
}

impl Model for Gen2 {
    ghost use Rattle.std.specs.Prelude.{List};
    ghost use Rattle.gc_gen2.specs.Page.{Page};
    ghost use Rattle.gc_gen2.specs.Summary.{IsSummary};

    ghost Value = { List Page };

    ghost view = { λ g. g.pages.items };

    ghost invariant = { λ g. IsSummary g.pages.items g.rooms g.free g.used g.with_class };
}

impl Gen2 {
    /// The second generation of 1 to 128 pages, none of which has a class. Nothing allocates afterwards.
    pub fn make(alloc: Global, pages: u16) -> Result<Gen2, NoMemory>
        requires some { 1 ≤ pages }
        requires few { pages ≤ 128 }
        ensures { IfOk result (λ gen2. gen2 ≡ replicate pages free_page) }
    {
        let Ok(mut bare) = Vec::with_capacity(alloc, usize::from(pages)) else {
            return Err(NoMemory);
        };
        for _ in 0..pages {
            bare.push_reserved(PageCells::new());
        }
        Ok(Gen2 {
            pages: bare,
            rooms: [0; 16],
            free: [0; 16],
            used: 0,
            with_class: 0,
        })
    }

    /// Takes a cell of a class, 4 to 64 and a multiple of 4: the free cell of the class with the least
    /// offset or, where none is free, the first cell of the first page without class, which is given the
    /// class. None exactly where no cell of the class is free and every page has a class.
    pub fn take_cell(&mut self, class: u8) -> Option<u64>
        requires { IsClass class }
        ensures cell { result ≡ next_cell self.old class }
        ensures none { IsNone result ↔ ((free_cells self.old class ≡ 0) × (free_pages self.old ≡ 0)) }
        ensures unchanged { IfNone result (self.new ≡ self.old) }
        ensures pages { IfSome result (λ offset. self.new ≡ with_cell self.old class offset) }
        ensures takes { IfSome result (TakesCell self.old self.new class) }
    {
        if let Some(page) = self.page_with_room(class) {
            return Some(self.take_in(page, class));
        }
        let Some(page) = self.page_without_class() else {
            return None;
        };
        self.give_class(page, class);
        Some(self.take_in(page, class))
    }

    /// The cell that `take_cell` would take now. Nothing changes.
    pub fn peek_cell(&self, class: u8) -> Option<u64>
        requires { IsClass class }
        ensures cell { result ≡ next_cell self.now class }
        ensures none { IsNone result ↔ ((free_cells self.now class ≡ 0) × (free_pages self.now ≡ 0)) }
    {
        if let Some(page) = self.page_with_room(class) {
            let number = self.pages[usize::from(page)].first_free().unwrap();
            return Some(offset_of(page, number, class));
        }
        let Some(page) = self.page_without_class() else {
            return None;
        };
        Some(offset_of(page, 0, class))
    }

    /// Gives back the used cell at an offset. Its page keeps its class.
    pub fn give_cell(&mut self, offset: u64)
        requires { IsUsed self.old offset }
        ensures pages { self.new ≡ without_cell self.old offset }
        ensures gives { GivesCell self.old self.new offset }
    {
        let page = (offset / PAGE_WORDS) as usize;
        let cells = &mut self.pages[page];
        let class = cells.class().unwrap();
        cells.give(cells_before(class, (offset % PAGE_WORDS) as u16));
        let index = index_of(class);
        self.rooms[index] |= 1 << page;
        self.free[index] += 1;
        self.used -= 1;
    }

    /// Whether an offset names a used cell. An offset that names no cell doesn't.
    pub fn is_used(&self, offset: u64) -> bool
        ensures { IsTrue result ↔ IsUsed self.now offset }
    {
        if offset / PAGE_WORDS >= self.pages.len() as u64 {
            return false;
        }
        let cells = &self.pages[(offset / PAGE_WORDS) as usize];
        let Some(class) = cells.class() else {
            return false;
        };
        let start = (offset % PAGE_WORDS) as u16;
        let words = u16::from(class);
        let number = cells_before(class, start);
        number * words == start && start + words <= PAGE_WORDS as u16 && cells.is_used(number)
    }

    /// The class of a page, or None where it has none yet. Pages count from 0.
    pub fn page_class(&self, page: u16) -> Option<u8>
        requires { page < length self.now }
        ensures { result ≡ class_at self.now page }
    {
        self.pages[usize::from(page)].class()
    }

    /// How many pages there are, 1 to 128.
    pub fn page_count(&self) -> u16
        ensures count { result ≡ length self.now }
        ensures pages { IsWellFormed self.now }
    {
        let _ = &self.used;
        self.pages.len() as u16
    }

    /// How many cells are used.
    pub fn used_cells(&self) -> u32
        ensures count { result ≡ used_cells self.now }
        ensures pages { IsWellFormed self.now }
    {
        self.used
    }

    /// How many cells of a class are free in the pages of that class.
    pub fn free_cells(&self, class: u8) -> u32
        requires { IsClass class }
        ensures { result ≡ free_cells self.now class }
    {
        self.free[index_of(class)]
    }

    /// How many pages have no class yet.
    pub fn free_pages(&self) -> u16
        ensures { result ≡ free_pages self.now }
    {
        self.pages.len() as u16 - self.with_class
    }

    /// The first page that has a free cell of a class.
    fn page_with_room(&self, class: u8) -> Option<u16>
        requires { IsClass class }
        ensures page { result ≡ first_page_with_room self.now class }
        ensures pages { IsWellFormed self.now }
    {
        let rooms = self.rooms[index_of(class)];
        if rooms == 0 {
            None
        } else {
            Some(rooms.trailing_zeros() as u16)
        }
    }

    /// The first page without class.
    fn page_without_class(&self) -> Option<u16>
        ensures { result ≡ first_free_page self.now }
    {
        if usize::from(self.with_class) < self.pages.len() {
            Some(self.with_class)
        } else {
            None
        }
    }

    /// Gives a class to the first page without one.
    fn give_class(&mut self, page: u16, class: u8)
        requires page { first_free_page self.old ≡ Some page }
        requires class { IsClass class }
        ensures { self.new ≡ slice_set self.old page (empty_page class) }
    {
        let index = index_of(class);
        self.pages[usize::from(page)] = PageCells::empty(class);
        self.rooms[index] |= 1 << page;
        self.free[index] += u32::from(cells_in_page(class));
        self.with_class = page + 1;
    }

    /// Takes the first free cell of the first page that has one of the class, and answers its offset.
    fn take_in(&mut self, page: u16, class: u8) -> u64
        requires page { first_page_with_room self.old class ≡ Some page }
        requires class { IsClass class }
        ensures cell { result ≡ offset_for class page (first_free_in (page_at self.old page)) }
        ensures pages { self.new ≡ slice_set self.old page (with_used (page_at self.old page) (first_free_in (page_at self.old page))) }
    {
        let cells = &mut self.pages[usize::from(page)];
        let number = cells.take_first();
        let full = cells.is_full();
        let index = index_of(class);
        self.free[index] -= 1;
        self.used += 1;
        if full {
            self.rooms[index] &= !(1 << page);
        }
        offset_of(page, number, class)
    }
}

/// The offset of a cell, from its page, its number in the page, and the page's class.
fn offset_of(page: u16, number: u16, class: u8) -> u64
    ensures { result ≡ offset_for class page number }
{
    u64::from(page) * PAGE_WORDS + u64::from(number) * u64::from(class)
}
