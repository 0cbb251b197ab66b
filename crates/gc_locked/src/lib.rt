//! A heap of several threads under one lock.
//!
//! `Locked` has a heap of one thread and the journal of what was called on it. Each mutator has a `Pass`, a token in
//! which its worker carries how many calls the mutator made. `step` makes the mutator's next call in one critical
//! section: it claims the lock, makes the call on the heap, writes the collections that it brought and the call with
//! its reply into the journal, and releases the lock. `finish` takes all passes and hands the journal back.
//!
//! The lock is the one word of a table with one place, in which the heap and the journal lie. What holds between any
//! two steps is the table's rule: the word is 1 exactly where one seat has the lock, each mutator's number is carried
//! by one seat, and where the word is 0, the heap is at home and its journal has of each mutator as many calls as the
//! seat says that carries its number. That the heap stands for its journal is a fact of the type that lies in the
//! place, so it holds at each moment at which the lock is got.
//!
//! The journal is kept by places: each line has one, and behind the lines each mutator's End. Of a call are noted its
//! place, behind those of the calls before it, and its reply, at that place. So the replies to the lines stand in the
//! order of the lines when the last one is made.
//!
//! `setup` says what a locked heap is made for, `guarded` has what the lock guards, `view` and `rule` the table's
//! rule and the names of its steps, `plan` the places of each mutator's calls, `pass`, `locked` and `journal` the public
//! types.
#![tactic(auto)]

mod guarded;
mod journal;
mod locked;
mod pass;
mod plan;
mod rule;
mod setup;
#[cfg(test)]
mod tests;
mod view;

pub use journal::Journal;
pub use locked::Locked;
pub use pass::Pass;
