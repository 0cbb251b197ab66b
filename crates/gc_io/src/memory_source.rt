//! A source in memory, which fails at chosen calls.

ghost use Rattle.std.specs.Prelude.{◌≡◌, ◌≢◌, ℕ, ◌<◌, ◌≤◌, [], length, take, Some};
ghost use Rattle.gc_io.specs.Faults.{HasRisen};
ghost use Rattle.gc_io.specs.Streams.{GivesUp};
ghost use Rattle.gc_io.specs.declared.source.Taken.TheVariants.{Bytes, End, Failed};

use crate::failing::lists;
use crate::unread::Unread;
use crate::{Source, Taken};
use std::marker::Model;

/// A source of bytes in memory that gives at most so many bytes a call and fails at chosen calls.
#[derive(Debug, Drop)]
pub struct MemorySource {
    unread: Unread,
    step: usize,
    failing: Vec<u32>,
    calls: u64,
    faults: u64,
}

impl Model for MemorySource {
    ghost use Rattle.std.specs.Prelude.{◌<◌};
    ghost use Rattle.gc_io.specs.Supply.{Supply};

    ghost Value = { Supply };

    ghost view = { λ s. record {
      rest = s.unread;
      step = s.step;
      failing = s.failing.items;
      calls = s.calls;
      faults = s.faults;
    } };

    ghost invariant = { λ s. 0 < s.step };
}

impl MemorySource {
    ghost use Rattle.gc_io.specs.Supply.{Supply};

    /// A source of these bytes. A call gives at most `step` bytes, and the calls whose numbers, counted
    /// from 1, are listed fail.
    pub fn make(bytes: Vec<u8>, step: usize, failing: Vec<u32>) -> MemorySource
        requires { 0 < step }
        ensures { result
            ≡ record { rest = bytes.items; step = step; failing = failing.items; calls = 0; faults = 0 } }
    {
        MemorySource {
            unread: Unread::make(bytes),
            step,
            failing,
            calls: 0,
            faults: 0,
        }
    }
}

impl Source for MemorySource {
    ghost use Rattle.gc_io.specs.Supply.{next_answer, supply_after};

    ghost rest = { λ s. Some s.rest };

    ghost faults = { λ s. s.faults };

    /// Gives up to `step` bytes, unless the call is listed.
    fn take(&mut self, room: &mut [u8]) -> Taken
        requires { 0 < length room.old }
        ensures some { (count : ℕ) → result ≡ Bytes count → (0 < count) × (count ≤ length room.new) }
        ensures bytes { (count : ℕ) → result ≡ Bytes count
            → GivesUp (Some self.old.rest) (Some self.new.rest) (take count room.new) }
        ensures end { result ≡ End → self.old.rest ≡ [] }
        ensures end_stays { result ≡ End → self.new.rest ≡ self.old.rest }
        ensures failed { result ≡ Failed → HasRisen self.old.faults self.new.faults }
        ensures failed_stays { result ≡ Failed → self.new.rest ≡ self.old.rest }
        ensures quiet { result ≢ Failed → self.new.faults ≡ self.old.faults }
        ensures never_falls { self.old.faults ≤ self.new.faults }

        ensures answer { result ≡ next_answer self.old (length room.old) }
        ensures supply { self.new ≡ supply_after self.old result }
    {
        self.calls = self.calls.saturating_add(1);
        if lists(&self.failing, self.calls) {
            self.faults = self.faults.saturating_add(1);
            return Taken::Failed;
        }
        if self.unread.left().is_empty() {
            return Taken::End;
        }
        Taken::Bytes(self.unread.read(self.step, room))
    }
}
