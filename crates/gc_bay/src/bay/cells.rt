//! The cells of the mutator's pages.

ghost use Rattle.std.specs.Prelude.{◌≡◌, ◌+◌, ◌≤◌, ◌↔◌, ℕ, IsNone, IfNone, IfSome, Some};
ghost use Rattle.gc_gen2.specs.Class.{class_of};
ghost use Rattle.gc_gen2.specs.Cells.{TakesCell, GivesCell, next_cell, free_cells, free_pages, with_cell, without_cell};
ghost use Rattle.gc_layout.specs.Places.{cell_address};
ghost use Rattle.gc_layout.specs.Sizes.{largest_size};

use crate::Bay;
use gc_gen2::{Gen2, class_of};

impl Bay {
    ghost use Rattle.gc_bay.specs.Bay.{IsBay};
    ghost use Rattle.gc_bay.specs.Extent.{IsFreshExtent, IsUsedCellAt, next_in_cells};

    /// Takes a cell for an object of so many words, 2 to 64, and gives its address. None exactly where no cell
    /// of the size's class is free and every page has a class.
    pub fn cell(&mut self, size: u64) -> Option<u64>
        requires least { 2 ≤ size }
        requires most { size ≤ largest_size }
        ensures address { result ≡ next_in_cells self.old size }
        ensures none { IsNone result ↔ ((free_cells self.old.pages (class_of size) ≡ 0) × (free_pages self.old.pages ≡ 0)) }
        ensures unchanged { IfNone result (self.new ≡ self.old) }
        ensures pages { (offset : ℕ) → next_cell self.old.pages (class_of size) ≡ Some offset
            → self.new.pages ≡ with_cell self.old.pages (class_of size) offset }
        ensures takes { (offset : ℕ) → next_cell self.old.pages (class_of size) ≡ Some offset
            → TakesCell self.old.pages self.new.pages (class_of size) offset }
        ensures given { self.new.given + free_pages self.new.pages ≡ self.old.given + free_pages self.old.pages }
        ensures rest { self.new ≡ record self.old { pages = self.new.pages; given = self.new.given } }
        ensures fresh { IfSome result (λ a. IsFreshExtent self.old a size) }
        ensures bay { IsBay self.new }
    {
        let class = class_of(size);
        let without_class = self.gen2.free_pages();
        let offset = self.gen2.take_cell(class)?;
        self.given += without_class - self.gen2.free_pages();
        Some(self.places.cell_address(self.mutator, offset))
    }

    /// What `cell` would give. Nothing changes.
    pub fn peek_cell(&self, size: u64) -> Option<u64>
        requires least { 2 ≤ size }
        requires most { size ≤ largest_size }
        ensures address { result ≡ next_in_cells self.now size }
        ensures none { IsNone result ↔ ((free_cells self.now.pages (class_of size) ≡ 0) × (free_pages self.now.pages ≡ 0)) }
    {
        let offset = self.gen2.peek_cell(class_of(size))?;
        Some(self.places.cell_address(self.mutator, offset))
    }

    /// Gives the used cell at an address back.
    pub fn free(&mut self, a: u64)
        requires { IsUsedCellAt self.old a }
        ensures pages { (offset : ℕ) → cell_address self.old.layout self.old.mutator offset ≡ a
            → self.new.pages ≡ without_cell self.old.pages offset }
        ensures cell { (offset : ℕ) → cell_address self.old.layout self.old.mutator offset ≡ a
            → GivesCell self.old.pages self.new.pages offset }
        ensures rest { self.new ≡ record self.old { pages = self.new.pages } }
        ensures bay { IsBay self.new }
    {
        self.gen2
            .give_cell(self.places.cell_offset(self.mutator, a));
    }

    /// How many pages were given a class since the bay was made or this was reset.
    pub fn given(&self) -> u16
        ensures { result ≡ self.now.given }
    {
        self.given
    }

    /// Counts the pages that are given a class from none on again.
    pub fn reset_given(&mut self)
        ensures given { self.new ≡ record self.old { given = 0 } }
        ensures bay { IsBay self.new }
    {
        self.given = 0;
    }

    /// The cells, to look at.
    pub fn gen2(&self) -> &Gen2
        ensures pages { result.now ≡ self.now.pages }
        ensures bay { IsBay self.now }
    {
        &self.gen2
    }
}
