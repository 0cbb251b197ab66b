//! A source in memory that never fails.

ghost use Rattle.std.specs.Prelude.{◌≡◌, ◌≢◌, ℕ, ◌<◌, ◌≤◌, [], length, take, Some};
ghost use Rattle.gc_io.specs.Streams.{GivesUp};
ghost use Rattle.gc_io.specs.declared.source.Taken.TheVariants.{Bytes, End, Failed};

use crate::unread::Unread;
use crate::{Source, Taken};
use std::marker::Model;

/// A source of bytes in memory that gives as many as fit the room, and never fails. It is seen as the
/// bytes that are left.
#[derive(Debug, Drop)]
pub struct SteadySource {
    unread: Unread,
}

impl Model for SteadySource {
    ghost use Rattle.std.specs.Prelude.{ℕ, List};

    ghost Value = { List ℕ };

    ghost view = { λ s. s.unread };
}

impl SteadySource {
    /// A source of these bytes.
    pub fn make(bytes: Vec<u8>) -> SteadySource
        ensures { result ≡ bytes.items }
    {
        SteadySource {
            unread: Unread::make(bytes),
        }
    }
}

impl Source for SteadySource {
    ghost use Rattle.gc_io.specs.Supply.{steady_answer, rest_after};

    ghost rest = { λ s. Some s };

    ghost faults = { λ _. 0 };

    /// Gives as many bytes as fit the room.
    fn take(&mut self, room: &mut [u8]) -> Taken
        requires { 0 < length room.old }
        ensures some { (count : ℕ) → result ≡ Bytes count → (0 < count) × (count ≤ length room.new) }
        ensures bytes { (count : ℕ) → result ≡ Bytes count
            → GivesUp (Some self.old) (Some self.new) (take count room.new) }
        ensures end { result ≡ End → self.old ≡ [] }
        ensures never_fails { result ≢ Failed }
        ensures answer { result ≡ steady_answer self.old (length room.old) }
        ensures rest { self.new ≡ rest_after self.old result }
    {
        if self.unread.left().is_empty() {
            return Taken::End;
        }
        Taken::Bytes(self.unread.read(usize::MAX, room))
    }
}
