// The finder: which segment of a table of starts a place lies in.
// Segment i begins at entry i of the table and ends at entry i + 1. A place is a whole number and may lie outside the table on either side.
#![tactic(auto)]

ghost use Rattle.std.specs.Prelude.{◌≡◌, true, cond, ◌≤◌, ◌<◌, ltb, pos};
ghost use Rattle.std.specs.Int.Signed.{lt_z, le_z};
ghost use Rattle.refusals.specs.Numbers.{most_segments};
ghost use Rattle.finding.specs.Finding.{Rising, index_of};

use refusals::{MOST_SEGMENTS, MOST_STARTS};

// Not more segments than these are few: there the processor learns to guess which half it is.
const FEW: usize = 16;
// Not more than these take four rounds by quarters, and the most take six.
const SOME: usize = 256;

// Whether a segment's end is above p.
fn is_above(end: u32, p: i64) -> bool
    ensures { result ≡ lt_z p (pos end) }
{
    p < (end as i64)
}

// What `find` finds, by halves, each of which the processor has to guess. `partition_point` was tried, and misses the speed: it takes a third more time at 10 segments.
fn halved(starts: &[u32; MOST_STARTS], count: usize, p: u32) -> usize
    requires { (1 ≤ count) × (count ≤ most_segments) }
    ensures within { result < count }
    ensures found { Rising starts.now count → result ≡ index_of starts.now count (pos p) }
{
    let mut low = 0;
    let mut high = count - 1;
    while low < high {
        let middle = (low + high) / 2;
        if p < starts[middle + 1] {
            high = middle;
        } else {
            low = middle + 1;
        }
    }
    low
}

// The number at hand, or the next one, if what begins there is not past p. It is compiled without a jump.
fn later(p: u32, begin: u32, low: usize, next: usize) -> usize
    ensures { result ≡ cond (ltb p begin) low next }
{
    if p < begin { low } else { next }
}

// The number that goes with the last of three begins that is not past p, or the number at hand.
fn farthest(
    p: u32,
    a: u32,
    first: usize,
    b: u32,
    second: usize,
    c: u32,
    third: usize,
    low: usize,
) -> usize
    ensures { result ≡ cond (ltb p c) (cond (ltb p b) (cond (ltb p a) low first) second) third }
{
    later(p, c, later(p, b, later(p, a, low, first), second), third)
}

// What `find` finds, by quarters, as often as SIZE segments need: three entries are asked for at once, so that none waits for another, and no answer is guessed.
fn quartered<const SIZE: usize>(starts: &[u32; MOST_STARTS], count: usize, p: u32) -> usize
    requires le_count { (1 ≤ count) × (count ≤ SIZE) }
    requires size_le_most_segments { SIZE ≤ most_segments }
    ensures within { result < count }
    ensures found { Rising starts.now count → result ≡ index_of starts.now count (pos p) }
{
    let mut low = 0;
    let mut left = count;
    let mut most = SIZE;
    // Each round leaves half, so no range counts the rounds more plainly.
    while 1 < most {
        let half = left / 2;
        let rest = left - half;
        let quarter = rest / 2;
        let first = low + quarter;
        let second = low + half;
        let third = second + quarter;
        low = farthest(
            p,
            starts[first],
            first,
            starts[second],
            second,
            starts[third],
            third,
            low,
        );
        left = rest - quarter;
        let upper = most - most / 2;
        most = upper - upper / 2;
    }
    low
}

// What `find` finds of a place that is not before all, which is asked for before a table is known to rise, by the way that is the quickest for so many segments. The sizes are known where it is compiled: the rounds are written one after the other.
pub fn find_natural(starts: &[u32; MOST_STARTS], count: usize, p: u32) -> usize
    requires { (1 ≤ count) × (count ≤ most_segments) }
    ensures within { result < count }
    ensures found { Rising starts.now count → result ≡ index_of starts.now count (pos p) }
{
    if count <= FEW {
        return halved(starts, count, p);
    }
    if count <= SOME {
        return quartered::<SOME>(starts, count, p);
    }
    quartered::<MOST_SEGMENTS>(starts, count, p)
}

// A place that is neither before all nor at the end or behind it, as a table has it.
pub fn natural(p: i64, end: u32) -> u32
    requires { (le_z (pos 0) p ≡ true) × (lt_z p (pos end) ≡ true) }
    ensures { pos result ≡ p }
{
    p as u32
}

// The number of the segment of the place p: the first whose end is above p, or else the last, where the table rises. Of any table it is the number of some segment.
pub fn find(starts: &[u32; MOST_STARTS], count: usize, p: i64) -> usize
    requires { (1 ≤ count) × (count ≤ most_segments) }
    ensures within { result < count }
    ensures found { Rising starts.now count → result ≡ index_of starts.now count p }
{
    if p < 0 {
        return 0;
    }
    let end = starts[count];
    if is_above(end, p) {
        return find_natural(starts, count, natural(p, end));
    }
    count - 1
}

// The number of the segment of the place p, from a segment on that is not past it: one step at a time, and none back.
pub fn find_from(starts: &[u32; MOST_STARTS], count: usize, from: usize, p: i64) -> usize
    requires le_count { (1 ≤ count) × (count ≤ most_segments) }
    requires from_bound { from ≤ index_of starts.now count p }
    ensures { result ≡ index_of starts.now count p }
{
    let last = count - 1;
    for i in from..last {
        if is_above(starts[i + 1], p) {
            return i;
        }
    }
    last
}
