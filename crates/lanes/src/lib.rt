// What all segments of lent tables show whose letters are common, one of = M N X: of few segments by two blocks, of many by lanes, which the compiler takes at once.
#![tactic(auto)]

ghost use Rattle.std.specs.Prelude.{◌≡◌, ℕ, ◌+◌, ◌≤◌, ◌&&◌};
ghost use Rattle.refusals.specs.Numbers.{most_segments};
ghost use Rattle.segments.specs.Tables.{tables, all_below};
ghost use Rattle.numbered.specs.Stretches.{from};
ghost use Rattle.stepping.specs.Steps.{within, common_same, common_within, common_same_at, common_within_at};
ghost use Rattle.lanes.specs.Lanes.{lanes_within};

use refusals::{MOST_SEGMENTS, MOST_STARTS};
use stepping::{CommonLetters, Seen};

// How many segments are looked at together where there are many: each has a lane of its own, and the compiler takes the lanes at once.
const LANES: usize = 8;

// What one lane has gathered: bits that are 0 where each segment's steps are the same as far as its letter lets the sides see them, and
// all bits of the genome's steps together.
#[derive(Clone, Copy)]
struct Lane {
    apart: u32,
    bits: u32,
}

// A lane with one segment more, whose letter is common.
fn lane_on(lane: Lane, letter: u8, g0: u32, g1: u32, t0: u32, t1: u32) -> Lane
    ensures apart_value { within 0 result.apart ≡ (within 0 lane.apart && common_same letter g0 g1 t0 t1) }
    ensures by_index { (k : ℕ) → within k result.bits ≡ (within k lane.bits && common_within k g0 g1) }
{
    let dg = g1.wrapping_sub(g0);
    let dt = t1.wrapping_sub(t0);
    let step = stepping::unless(letter == b'N', dg);
    let apart = stepping::with_bits(lane.apart, step.wrapping_sub(dt));
    let bits = stepping::with_bits(lane.bits, dg);
    Lane { apart, bits }
}

// Takes the segments from one on into the lanes, one into each.
fn lanes_on(
    genome: &[u32; MOST_STARTS],
    transcript: &[u32; MOST_STARTS],
    letters: &[u8; MOST_SEGMENTS],
    first: usize,
    apart: &mut [u32; LANES],
    bits: &mut [u32; LANES],
)
    requires { first + 8 ≤ most_segments }
    ensures apart_after { lanes_within 0 apart.new ≡ (lanes_within 0 apart.old && all_below (from first (common_same_at (tables genome.now transcript.now letters.now))) (first + 8)) }
    ensures by_index { (k : ℕ) → lanes_within k bits.new ≡ (lanes_within k bits.old && all_below (from first (common_within_at k (tables genome.now transcript.now letters.now))) (first + 8)) }
{
    for k in 0..LANES {
        let i = first + k;
        let before = Lane {
            apart: apart[k],
            bits: bits[k],
        };
        let after = lane_on(
            before,
            letters[i],
            genome[i],
            genome[i + 1],
            transcript[i],
            transcript[i + 1],
        );
        apart[k] = after.apart;
        bits[k] = after.bits;
    }
}

// All bits of the lanes together.
fn all_bits(lanes: &[u32; LANES]) -> u32
    ensures { (k : ℕ) → within k result ≡ lanes_within k lanes.now }
{
    let mut bits = 0;
    for lane in lanes {
        bits = stepping::with_bits(bits, *lane);
    }
    bits
}

// What all segments show, whose letters are common, by blocks of a segment a lane. The last block overlaps the one before it: each begins at a minimum,
// so that the compiler takes a block whole and does not mix the segments of several.
fn common_lanes(
    genome: &[u32; MOST_STARTS],
    transcript: &[u32; MOST_STARTS],
    letters: &[u8; MOST_SEGMENTS],
    count: usize,
) -> Seen
    requires { (8 ≤ count) × (count ≤ most_segments) }
    ensures same_value { result.same ≡ all_below (common_same_at (tables genome.now transcript.now letters.now)) count }
    ensures by_index { (k : ℕ) → within k result.bits ≡ all_below (common_within_at k (tables genome.now transcript.now letters.now)) count }
{
    let mut apart = [0u32; LANES];
    let mut bits = [0u32; LANES];
    let last = count - LANES;
    for block in 0..count.div_ceil(LANES) {
        let first = last.min(block * LANES);
        lanes_on(genome, transcript, letters, first, &mut apart, &mut bits);
    }
    let same = all_bits(&apart) == 0;
    let bits = all_bits(&bits);
    Seen { same, bits }
}

// What all segments show, whose letters are common: two blocks of 8 that overlap, or lanes.
pub fn common_steps(
    genome: &[u32; MOST_STARTS],
    transcript: &[u32; MOST_STARTS],
    letters: &[u8; MOST_SEGMENTS],
    count: usize,
) -> Seen
    requires { (8 ≤ count) × (count ≤ most_segments) }
    ensures same_value { result.same ≡ all_below (common_same_at (tables genome.now transcript.now letters.now)) count }
    ensures by_index { (k : ℕ) → within k result.bits ≡ all_below (common_within_at k (tables genome.now transcript.now letters.now)) count }
{
    if count < 16 {
        return stepping::in_blocks::<CommonLetters, 8>(genome, transcript, letters, count);
    }
    common_lanes(genome, transcript, letters, count)
}
