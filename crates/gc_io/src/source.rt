//! What every source of bytes keeps.

ghost use Rattle.std.specs.Prelude.{◌≡◌, ◌≢◌, ℕ, ◌<◌, ◌≤◌, List, [], length, take, Option, Some, IfSome};
ghost use Rattle.gc_io.specs.Faults.{HasRisen};
ghost use Rattle.gc_io.specs.Streams.{GivesUp};
ghost use Rattle.gc_io.specs.declared.source.Taken.TheVariants.{Bytes, End, Failed};

/// What a source gave.
#[derive(Clone, Copy, Debug, PartialEq, Eq)]
pub enum Taken {
    /// So many bytes, at least 1, at the front of the room.
    Bytes(usize),
    /// There is nothing left.
    End,
    /// A fault; nothing was taken, and the source may be asked again.
    Failed,
}

/// Gives bytes, in pieces of its own choice.
pub trait Source {
    /// The bytes that are left, where the source tells them.
    ghost rest: { Self → Option (List ℕ) };

    /// How many faults there were.
    ghost faults: { Self → ℕ };

    /// Takes some of the bytes that are left.
    fn take(&mut self, room: &mut [u8]) -> Taken
        requires { 0 < length room.old }
        ensures some { (count : ℕ) → result ≡ Bytes count → (0 < count) × (count ≤ length room.new) }
        ensures bytes { (count : ℕ) → result ≡ Bytes count
            → GivesUp (rest self.old) (rest self.new) (take count room.new) }
        ensures end { result ≡ End → IfSome (rest self.old) (λ bytes. bytes ≡ []) }
        ensures end_stays { result ≡ End → rest self.new ≡ rest self.old }
        ensures failed { result ≡ Failed → HasRisen (faults self.old) (faults self.new) }
        ensures failed_stays { result ≡ Failed → rest self.new ≡ rest self.old }
        // Each fault that was counted is told.
        ensures quiet { result ≢ Failed → faults self.new ≡ faults self.old }
        ensures never_falls { faults self.old ≤ faults self.new };
}
