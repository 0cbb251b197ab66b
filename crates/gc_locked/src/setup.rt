//! What a locked heap is made for. It takes no bytes: only clauses read it.
ghost use Rattle.std.specs.Prelude.{◌≡◌};

use gc_model::Line;
use gc_solo::Solo;
use std::snapshot::Snapshot;

/// The heap as it was made, and the lines that are to be played.
#[derive(Drop)]
pub struct Setup {
    pub heap: Snapshot<Solo>,
    pub lines: Snapshot<Vec<Line>>,
}

impl Setup {
    /// For this heap and these lines.
    pub(crate) fn of(heap: &Solo, lines: &Vec<Line>) -> Setup
        ensures heap { result.heap.value ≡ heap.now }
        ensures lines { result.lines.value ≡ lines.now }
    {
        Setup {
            heap: Snapshot::of(heap),
            lines: Snapshot::of(lines),
        }
    }
}
