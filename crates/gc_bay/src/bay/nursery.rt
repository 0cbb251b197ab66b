//! The semispace halves: allocation by moving a pointer, and the flip.

ghost use Rattle.std.specs.Prelude.{◌≡◌, ◌+◌, ◌-◌, ◌<◌, ◌↔◌, IsNone, IfNone, OnSome, IfSome};

use crate::Bay;

impl Bay {
    ghost use Rattle.gc_bay.specs.Bay.{IsBay};
    ghost use Rattle.gc_bay.specs.Extent.{IsFreshExtent, next_in_half};

    /// Takes the next words of the current half, and gives the address of the first. None exactly where the half
    /// has fewer left.
    pub fn bump(&mut self, size: u64) -> Option<u64>
        ensures address { result ≡ next_in_half self.old size }
        ensures none { IsNone result ↔ (self.old.layout.nursery < self.old.used + size) }
        ensures unchanged { IfNone result (self.new ≡ self.old) }
        ensures used { OnSome result (self.new ≡ record self.old { used = self.old.used + size }) }
        ensures fresh { IfSome result (λ a. IsFreshExtent self.old a size) }
        ensures bay { IsBay self.new }
    {
        let a = self.peek_bump(size)?;
        self.used += size;
        Some(a)
    }

    /// What `bump` would give. Nothing changes.
    pub fn peek_bump(&self, size: u64) -> Option<u64>
        ensures address { result ≡ next_in_half self.now size }
        ensures none { IsNone result ↔ (self.now.layout.nursery < self.now.used + size) }
    {
        if size <= u64::from(self.places.nursery()) - self.used {
            Some(self.start + self.used)
        } else {
            None
        }
    }

    /// How many words of the current half are used, at most a half.
    pub fn used(&self) -> u64
        ensures used { result ≡ self.now.used }
        ensures bay { IsBay self.now }
    {
        self.used
    }

    /// Which half is the current one, 0 or 1.
    pub fn half(&self) -> u8
        ensures half { result ≡ self.now.half }
        ensures bay { IsBay self.now }
    {
        self.half
    }

    /// Makes the other half the current one, of which nothing is used.
    pub fn flip(&mut self)
        ensures half { self.new ≡ record self.old { half = 1 - self.old.half; used = 0 } }
        ensures bay { IsBay self.new }
    {
        self.half = 1 - self.half;
        self.start = self.places.half_start(self.mutator, self.half);
        self.used = 0;
    }
}
