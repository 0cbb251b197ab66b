//! The plain graph beside the heap and beside the program: what is played on one of them is played on the others too.
//!
//! The plain graph never reclaims, so it knows nothing of collections, and it is the slow program that gives the graph's
//! answers. A `Pair` is a heap of one thread and the graph: each call is made on both, and the replies are to be the same.
//! What a full collection of the heap counts is to be what the graph finds reachable at that moment. After each call that
//! brought a collection both are walked: by calls on slots, numbers and registers, over all that each mutator can reach.
//! In the end the program plays the script, and is to print these very replies and reports. The scripts are written
//! down, drawn or counted out, with more replies than could be worked out by hand. All of it is tests.
#![tactic(auto)]

#[cfg(test)]
mod graph;
#[cfg(test)]
mod pair;
#[cfg(test)]
mod scripts;
#[cfg(test)]
mod tests;
#[cfg(test)]
mod walk;
