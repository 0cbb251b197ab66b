//! The entries of a history: calls with their replies, and collections.
use crate::{Call, Reply};

/// The kind of a collection.
#[derive(Clone, Copy, Debug, PartialEq, Eq)]
pub enum RunKind {
    /// Of the nurseries alone.
    Minor,
    /// Of the whole heap.
    Full,
}

/// What a collection reports. A full one counts the reachable objects and their words.
#[derive(Clone, Copy, Debug, PartialEq, Eq)]
pub enum RunReport {
    Minor,
    Full { objects: u64, words: u64 },
}

/// An entry of a history: a call with its reply, or a collection.
#[derive(Clone, Copy, Debug, PartialEq, Eq)]
pub enum Entry {
    Made {
        mutator: u8,
        call: Call,
        reply: Reply,
    },
    Run(RunReport),
}
