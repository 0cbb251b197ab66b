//! The rule of the table, and the names of its steps.
ghost use Rattle.gc_locked.specs.Rule.{IsRuled, both_of, claims, first_alone, first_view, others, releases, spent_view};

use crate::guarded::Guarded;
use crate::setup::Setup;
use crate::view::View;
use atomic_table::{Join, Play, Split, Table, TableRule};
use std::alloc::Global;

/// One word, which is the lock, and one place, in which the heap and its journal lie.
pub(crate) type Lock = Table<Guarded, View, Setup, Ruled, Global>;

/// What holds between any two steps.
pub struct Ruled;

impl TableRule<Guarded, View, Setup> for Ruled {
    ghost holds = { IsRuled };

    ghost first = { first_view };
}

/// The first number goes to a seat of its own.
pub(crate) struct Deal;

impl Split<View> for Deal {
    ghost left = { others };

    ghost right = { first_alone };
}

/// A seat takes the numbers of another.
pub(crate) struct Gather;

impl Join<View> for Gather {
    ghost both = { both_of };

    ghost spent = { spent_view };
}

/// From 0 to 1: the lock is claimed, and the seat takes the heap.
pub(crate) struct Claim;

impl Play<Guarded, View> for Claim {
    ghost then = { claims };
}

/// A 0 is stored: the seat puts the heap back, and its numbers are counted anew.
pub(crate) struct Release;

impl Play<Guarded, View> for Release {
    ghost then = { releases };
}
