// The calls that rows name, by the numbers that they are recorded with.
use crate::say;
use std::io;

pub const BUILD_CARD: usize = 1;

pub const BUILD: usize = 2;

pub const BUILD_LENGTH: usize = 3;
// No call: the host changes one number of lent memory.
pub const DAMAGE: usize = 4;

pub const G_TO_N: usize = 5;

pub const G_TO_C: usize = 6;

pub const N_TO_G: usize = 7;

pub const N_TO_C: usize = 8;

pub const C_TO_N: usize = 9;

pub const C_TO_G: usize = 10;

pub const IN_BOUNDS: usize = 11;

pub const IS_CODING: usize = 12;

pub const READ_CIGAR: usize = 13;

pub const WRITE_CIGAR: usize = 14;

pub const WRITE_CARD: usize = 15;

pub const TRIM_PREFIX: usize = 16;

pub const TRIM_SUFFIX: usize = 17;

pub const CHANGED: usize = 18;

pub const READ_BAM: usize = 19;

pub const WRITE_BAM: usize = 20;
// One past the last of these numbers.
pub const END: usize = WRITE_BAM + 1;

// Writes the name of a call.
pub(crate) fn say(rt: &impl Print, call: usize) -> io::Result<()> {
    let names =
        b"no call\nbuild_card\nbuild\nbuild_length\ndamage\ng_to_n\ng_to_c\nn_to_g\nn_to_c\nc_to_n\nc_to_g\nin_bounds\nis_coding\nread_cigar\nwrite_cigar\nwrite_card\ntrim_prefix\ntrim_suffix\nchanged\nread_bam\nwrite_bam";
    if call < END {
        say::line(rt, names, call)
    } else {
        say::line(rt, names, 0)
    }
}
