//! One page: its class, and its free cells as a set of bits.
//!
//! Cell n of the page is free where bit n % 64 of word n / 64 is set. Past the page's cells no bit is set.

ghost use Rattle.std.specs.Prelude.{◌≡◌, ◌-◌, ◌^◌, ◌<◌, ◌↔◌, min, not, IsTrue, length, position, count_by};
ghost use Rattle.gc_gen2.specs.Class.{IsClass};
ghost use Rattle.gc_gen2.specs.Page.{Page, free_page, empty_page, is_used_in, first_free_in, with_used, with_free};

use crate::class::cells_in_page;
use std::marker::Model;

/// The cells of one page.
#[derive(Debug, Drop)]
pub struct PageCells {
    /// The words of each cell, where the page has a class.
    class: Option<u8>,
    /// The free cells, a bit each.
    free: [u64; 4],
}

impl Model for PageCells {
    ghost use Rattle.gc_gen2.specs.Page.{Page};
    ghost use Rattle.gc_gen2.specs.FreeSet.{used_of, IsFreeSet};

    ghost Value = { Page };

    ghost view = { λ p. record { class = p.class; used = used_of p.class p.free } };

    ghost invariant = { λ p. IsFreeSet p.class p.free };
}

impl PageCells {
    /// A page without class.
    pub fn new() -> PageCells
        ensures { result ≡ free_page }
    {
        PageCells {
            class: None,
            free: [0; 4],
        }
    }

    /// A page that was just given a class: all its cells are free.
    pub fn empty(class: u8) -> PageCells
        requires { IsClass class }
        ensures { result ≡ empty_page class }
    {
        let cells = cells_in_page(class);
        PageCells {
            class: Some(class),
            free: [
                ones(cells),
                ones(cells.saturating_sub(64)),
                ones(cells.saturating_sub(128)),
                ones(cells.saturating_sub(192)),
            ],
        }
    }

    /// The page's class, where it has one.
    pub fn class(&self) -> Option<u8>
        ensures { result ≡ self.now.class }
    {
        self.class
    }

    /// The number of the first free cell. None exactly where none is free.
    pub fn first_free(&self) -> Option<u16>
        ensures { result ≡ position not self.now.used }
    {
        for (i, word) in self.free.iter().enumerate() {
            if *word != 0 {
                return Some(64 * i as u16 + word.trailing_zeros() as u16);
            }
        }
        None
    }

    /// Whether no cell is free.
    pub fn is_full(&self) -> bool
        ensures { IsTrue result ↔ (count_by not self.now.used ≡ 0) }
    {
        self.first_free().is_none()
    }

    /// Makes the first free cell used, and answers its number.
    pub fn take_first(&mut self) -> u16
        requires { 0 < count_by not self.old.used }
        ensures number { result ≡ first_free_in self.old }
        ensures page { self.new ≡ with_used self.old result }
    {
        let number = self.first_free().unwrap();
        self.take(number);
        number
    }

    /// Whether a cell is used.
    pub fn is_used(&self, number: u16) -> bool
        requires { number < length self.now.used }
        ensures { result ≡ is_used_in self.now number }
    {
        self.free[number as usize / 64] >> (number % 64) & 1 == 0
    }

    /// Makes a cell used.
    fn take(&mut self, number: u16)
        requires { number < length self.old.used }
        ensures { self.new ≡ with_used self.old number }
    {
        self.free[number as usize / 64] &= !(1 << (number % 64));
    }

    /// Makes a cell free.
    pub fn give(&mut self, number: u16)
        requires { number < length self.old.used }
        ensures { self.new ≡ with_free self.old number }
    {
        self.free[number as usize / 64] |= 1 << (number % 64);
    }
}

/// A word whose lowest bits are set: so many of them, or all 64.
fn ones(count: u16) -> u64
    ensures { result ≡ 2 ^ min count 64 - 1 }
{
    if count >= 64 {
        u64::MAX
    } else {
        (1 << count) - 1
    }
}
