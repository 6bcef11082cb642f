// What a replay of recorded answers compares without a call of the boundary: answers as a row's words, what a row lays out in its own bytes, put into lent memory and held to it, and
// what is recorded of a lent transcript, built or damaged.
#![tactic(auto)]

pub mod answers;
pub mod buffers;
pub mod elements;
pub mod lent;
pub mod slices;
