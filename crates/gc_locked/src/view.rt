//! What a seat at the table knows. No value of these types is made.
use crate::setup::Setup;
use gc_model::Entry;
use std::collections::LinkedList;

/// A mutator's number, and how many calls the mutator made.
pub struct Carried {
    pub setup: Setup,
    pub mutator: u8,
    pub made: u32,
}

/// The numbers that a seat carries, and, where it has the lock, the journal as it was when it took it.
pub struct View {
    pub carried: LinkedList<Carried>,
    pub lock: Option<LinkedList<Entry>>,
}
