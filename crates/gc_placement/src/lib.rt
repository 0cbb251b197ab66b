//! How the words and the bays of a heap show a world of the graph.
//!
//! A placement gives each object that is needed an address. By it, an object stands in the words: its header, its
//! forwarding word, its slots, which hold the addresses of what they name, and its numbers. Its extent lies in the
//! used part of its maker's current half, or in a used cell of its size class, where it is old. No two extents
//! share a word, each used cell holds an object, the registers of the bays hold the addresses of what they name,
//! and what is named is placed. Each of these is a definition of its own in specs/, over only what it reads, and
//! each has its frame laws in a file of proofs/ with the same name: a change of the memory that touches nothing
//! that a part reads keeps it.
//!
//! The parts read the word at an address and the bay of a mutator through functions. So they say nothing of how
//! these are kept, and what is under way at a moment is a parameter of the parts that it touches.
#![tactic(auto)]

pub mod laws;
