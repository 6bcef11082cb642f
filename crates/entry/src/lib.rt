// The host's boundary: the functions of include/txc.h. Each takes plain numbers and lent memory apart, calls one function of the floors
// below and lays its answer out; no rule lives here.
#![tactic(auto)]

pub mod ask;
pub mod bam;
pub mod build;
pub mod logs;
pub mod slots;
pub mod strand;
pub mod text;
