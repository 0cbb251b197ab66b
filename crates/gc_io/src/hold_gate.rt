//! A gate that holds lines back until others were answered.

ghost use Rattle.std.specs.Prelude.{◌≤◌, length};

use crate::watch::Watch;
use crate::{Gate, Hold, NoMemory};
use std::alloc::Global;
use std::sync::atomic::{AtomicBool, AtomicU64, Ordering};

/// Refuses a held line until every line that its holds name was answered. It gives up with its `limit`th
/// refusal, and refuses no more. For tests.
#[derive(Drop)]
pub struct HoldGate {
    watch: Watch,
    limit: u32,
    refusals: AtomicU64,
    has_given_up: AtomicBool,
}

impl HoldGate {
    /// A gate with these holds, at most 32 of them, that refuses `limit` times in all.
    pub fn make(alloc: Global, holds: &[Hold], limit: u32) -> Result<HoldGate, NoMemory>
        requires { length holds.now ≤ 32 }
    {
        let watch = Watch::make(alloc, holds)?;
        Ok(HoldGate {
            watch,
            limit,
            refusals: AtomicU64::new(0),
            has_given_up: AtomicBool::new(false),
        })
    }

    /// Whether it refused as often as it may.
    pub fn gave_up(&self) -> bool {
        self.has_given_up.load(Ordering::SeqCst)
    }
}

impl Gate for HoldGate {
    /// Each refusal takes a number of its own, so that no more than `limit` are made, whoever asks at once.
    fn before(&self, mutator: u8, line: u32) -> bool {
        if self.gave_up() || self.watch.is_free(mutator, line) {
            return true;
        }
        let earlier = self.refusals.fetch_add(1, Ordering::SeqCst);
        let last = u64::from(self.limit);
        if earlier.saturating_add(1) >= last {
            self.has_given_up.store(true, Ordering::SeqCst);
        }
        earlier >= last
    }

    fn after(&self, _mutator: u8, line: u32) {
        self.watch.see(line);
    }
}
