//! The pass of a mutator.
ghost use Rattle.std.specs.Prelude.{◌≡◌, [], IfOk};
ghost use Rattle.gc_locked.specs.Locked.{AreFirstPasses, locked_by};
ghost use Rattle.gc_locked.specs.Rule.{first_view};
ghost use Rattle.gc_locked.specs.Setup.{mutators_of};

use crate::guarded::Guarded;
use crate::rule::{Deal, Lock};
use crate::view::View;
use atomic_table::Seat;
use gc_layout::NoMemory;
use std::alloc::Global;
use std::marker::Model;

/// A token of a mutator at a locked heap, in which its worker carries how many calls the mutator made.
#[derive(Drop)]
pub struct Pass {
    pub(crate) mutator: u8,
    pub(crate) made: u32,
    pub(crate) seat: Seat<Guarded, View>,
}

impl Model for Pass {
    ghost use Rattle.gc_locked.specs.Locked.{IsPass, PassView, pass_of};

    ghost Value = { PassView };

    ghost view = { pass_of };

    ghost invariant = { IsPass };
}

impl Pass {
    /// The mutator's number.
    pub fn mutator(&self) -> u8
        ensures { result ≡ self.now.mutator }
    {
        self.mutator
    }

    /// How many calls the mutator made.
    pub fn made(&self) -> u32
        ensures { result ≡ self.now.made }
    {
        self.made
    }
}

/// A pass for each mutator, in their order, from a seat that carries all numbers.
pub(crate) fn deal(
    alloc: Global,
    table: &Lock,
    mut seat: Seat<Guarded, View>,
    mutators: u8,
) -> Result<Vec<Pass>, NoMemory>
    requires words { table.now.shared.table_id.words ≡ 1 }
    requires table { seat.table_id ≡ table.now.shared.table_id }
    requires first { seat.me ≡ (first_view table.now.shared.key, []) }
    requires mutators { mutators ≡ mutators_of table.now.shared.key }
    ensures passes { IfOk result (λ passes. AreFirstPasses (locked_by table.now.shared.table_id table.now.shared.key) passes.items) }
{
    let Ok(mut passes) = Vec::with_capacity(alloc, mutators as usize) else {
        return Err(NoMemory);
    };
    for mutator in 0..mutators {
        passes.push_reserved(Pass {
            mutator,
            made: 0,
            seat: table.shared.split_seat::<Deal>(&mut seat),
        });
    }
    Ok(passes)
}
