//! What every sink of bytes keeps.

ghost use Rattle.std.specs.Prelude.{◌≡◌, ◌≢◌, ℕ, ◌≤◌, List, [], Option};
ghost use Rattle.gc_io.specs.Faults.{HasRisen};
ghost use Rattle.gc_io.specs.Streams.{Appends, AppendsPrefix};
ghost use Rattle.gc_io.specs.declared.sink.Put.TheVariants.{All, Failed};

/// How a write ended.
#[derive(Clone, Copy, Debug, PartialEq, Eq)]
pub enum Put {
    /// The whole piece was taken.
    All,
    /// A fault; some first bytes of the piece may have been taken.
    Failed,
}

/// Takes bytes, a piece at a time.
pub trait Sink {
    /// The bytes so far, where the sink tells them.
    ghost written: { Self → Option (List ℕ) };

    /// How many faults there were.
    ghost faults: { Self → ℕ };

    /// Takes a piece. An empty piece is always taken.
    fn put(&mut self, piece: &[u8]) -> Put
        ensures all { result ≡ All → Appends (written self.old) (written self.new) piece.now }
        ensures failed { result ≡ Failed → HasRisen (faults self.old) (faults self.new) }
        ensures first_bytes { result ≡ Failed
            → AppendsPrefix (written self.old) (written self.new) piece.now }
        ensures empty { piece.now ≡ [] → result ≡ All }
        // Each fault that was counted is told.
        ensures quiet { result ≢ Failed → faults self.new ≡ faults self.old }
        ensures never_falls { faults self.old ≤ faults self.new };
}
