//! Holds, and which of the lines that they wait for were seen. It has no clauses: gates hold lines back in
//! tests only, and no theorem rests on them.

ghost use Rattle.std.specs.Prelude.{◌≤◌, length, vec_len};

use crate::NoMemory;
use std::alloc::Global;
use std::sync::atomic::{AtomicU32, Ordering};

/// The line `line` of the mutator `mutator` is held until the line `until`. Lines are counted from 1, as the
/// script's are.
#[derive(Clone, Copy, Debug, PartialEq, Eq)]
pub struct Hold {
    pub mutator: u8,
    pub line: u32,
    pub until: u32,
}

/// Holds, with a word of which bit `i` is set once the line that hold `i` waits for was seen.
#[derive(Drop)]
pub(crate) struct Watch {
    holds: Vec<Hold>,
    seen: AtomicU32,
    ghost few: { vec_len holds ≤ 32 },
}

impl Watch {
    /// No line was seen yet.
    pub(crate) fn make(alloc: Global, holds: &[Hold]) -> Result<Watch, NoMemory>
        requires { length holds.now ≤ 32 }
    {
        let Ok(holds) = Vec::from_slice(alloc, holds) else {
            return Err(NoMemory);
        };
        Ok(Watch {
            holds,
            seen: AtomicU32::new(0),
        })
    }

    /// The line was seen.
    pub(crate) fn see(&self, line: u32) {
        let mut waiting = 0;
        for (i, hold) in self.holds.iter().enumerate() {
            if hold.until == line {
                waiting |= 1 << i;
            }
        }
        self.seen.fetch_or(waiting, Ordering::SeqCst);
    }

    /// Whether every line was seen that a hold of this line waits for.
    pub(crate) fn is_free(&self, mutator: u8, line: u32) -> bool {
        let seen = self.seen.load(Ordering::SeqCst);
        self.holds.iter().enumerate().all(|(i, hold)| hold.mutator != mutator
            || hold.line != line
            || seen & (1 << i) != 0)
    }
}
