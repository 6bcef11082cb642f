// The host's boundary in C: the functions of include/txc.h, under their C names. Each is one call of the function of that name in `entry`,
// and promises what that one does.
#![tactic(auto)]

pub mod ask;
pub mod bam;
pub mod build;
pub mod logs;
pub mod slots;
pub mod strand;
pub mod text;
