//! A register's number.
ghost use Rattle.std.specs.Prelude.{◌≡◌, ◌<◌, ◌≤◌, ◌↔◌, IsNone, IfSome};
ghost use Rattle.gc_layout.specs.Sizes.{register_count};

use gc_layout::REGISTERS;
use std::marker::Model;

/// A register of a mutator, seen as its number, 0 to 15.
#[derive(Clone, Copy, Debug, PartialEq, Eq)]
pub struct Reg {
    number: u8,
}

impl Model for Reg {
    ghost use Rattle.std.specs.Prelude.{ℕ, ◌<◌};
    ghost use Rattle.gc_layout.specs.Sizes.{register_count};

    ghost Value = { ℕ };

    ghost view = { λ r. r.number };

    ghost invariant = { λ r. r.number < register_count };

    ghost inverse = { λ n. record { number = n } };
}

impl Reg {
    /// The register of this number. None exactly where it is 16 or more.
    pub fn make(n: u8) -> Option<Reg>
        ensures same { IfSome result (λ reg. reg ≡ n) }
        ensures none { IsNone result ↔ (register_count ≤ n) }
    {
        if n < REGISTERS {
            Some(Reg { number: n })
        } else {
            None
        }
    }

    /// The register's number, 0 to 15.
    pub fn index(self) -> u8
        ensures index { result ≡ self }
        ensures below { result < register_count }
    {
        self.number
    }
}
