//! A sink that keeps only the number of its bytes.

ghost use Rattle.std.specs.Prelude.{◌≡◌, length, None};
ghost use Rattle.gc_io.specs.declared.sink.Put.TheVariants.{All};

use crate::{Put, Sink};
use std::marker::Model;

/// A sink that counts the bytes of its pieces, keeps none of them, and never fails. It tells no bytes. It is
/// seen as the number of bytes, which stands still at its greatest value.
#[derive(Debug, Drop)]
pub struct TallySink {
    count: u64,
}

impl Model for TallySink {
    ghost use Rattle.std.specs.Prelude.{ℕ};

    ghost Value = { ℕ };

    ghost view = { λ s. s.count };
}

impl TallySink {
    /// A sink that has got no byte.
    pub fn make() -> TallySink
        ensures { result ≡ 0 }
    {
        TallySink { count: 0 }
    }

    /// The number of bytes that it has got.
    pub fn count(&self) -> u64
        ensures { result ≡ self.now }
    {
        self.count
    }
}

impl Sink for TallySink {
    ghost use Rattle.gc_io.specs.Tally.{count_after};

    ghost written = { λ _. None };

    ghost faults = { λ _. 0 };

    /// Takes every piece.
    fn put(&mut self, piece: &[u8]) -> Put
        ensures answer { result ≡ All }
        ensures count { self.new ≡ count_after self.old (length piece.now) }
    {
        self.count = self.count.saturating_add(piece.len() as u64);
        Put::All
    }
}
