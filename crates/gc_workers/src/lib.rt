//! Plays a script with a worker for each mutator, over a locked heap.
//!
//! `play_script` lays a heap out for a script and starts its workers, each in a thread of its own where one can be
//! started; where none can be, the caller does that work. A worker makes its mutator's lines in their order, each
//! after a gate let it pass, and then the mutator's End. When all are done, the journal is handed back: one legal
//! history, in which each mutator's lines stand once, in their order, whatever the schedule.
//!
//! `worker` has what one worker does, `fan_out` starts them, one by one, by a recursion.
#![tactic(auto)]

mod fan_out;
mod play;
#[cfg(test)]
mod tests;
mod worker;

pub use play::play_script;
