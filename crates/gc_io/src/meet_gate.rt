//! A gate at which lines wait for one another.

ghost use Rattle.std.specs.Prelude.{◌≤◌, length};

use crate::watch::Watch;
use crate::{Gate, Hold, NoMemory};
use std::alloc::Global;
use std::hint::spin_loop;
use std::sync::atomic::{AtomicBool, Ordering};

/// Lets a held line wait inside its question until every line that its holds name has come, for `limit` turns
/// at most. So two lines that hold each other pass before it gives up only where two callers ask at once.
/// For tests.
#[derive(Drop)]
pub struct MeetGate {
    watch: Watch,
    limit: u32,
    has_given_up: AtomicBool,
}

impl MeetGate {
    /// A gate with these holds, at most 32 of them, at which a line waits for `limit` turns at most.
    pub fn make(alloc: Global, holds: &[Hold], limit: u32) -> Result<MeetGate, NoMemory>
        requires { length holds.now ≤ 32 }
    {
        let watch = Watch::make(alloc, holds)?;
        Ok(MeetGate {
            watch,
            limit,
            has_given_up: AtomicBool::new(false),
        })
    }

    /// Whether a line has waited for all its turns.
    pub fn gave_up(&self) -> bool {
        self.has_given_up.load(Ordering::SeqCst)
    }

    /// Turns until the line is free, at most `limit` times, and says whether it is.
    fn meets(&self, mutator: u8, line: u32) -> bool {
        for _ in 0..self.limit {
            if self.watch.is_free(mutator, line) {
                return true;
            }
            spin_loop();
        }
        self.watch.is_free(mutator, line)
    }
}

impl Gate for MeetGate {
    /// The line has come; then it waits. Its answer is always true.
    fn before(&self, mutator: u8, line: u32) -> bool {
        self.watch.see(line);
        if !self.meets(mutator, line) {
            self.has_given_up.store(true, Ordering::SeqCst);
        }
        true
    }

    fn after(&self, _mutator: u8, _line: u32) {}
}
