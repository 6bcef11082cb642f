// Whether the segments of lent tables hold together, which every question asks first: it is to cost what reading the tables costs.
// A step is taken as a difference that may wrap. Where all steps are short, 2,048 of them do not come as far as to wrap. Where one is not, the entries are looked at too: where no step and
// no entry has the highest bit of 32, none has wrapped; and where the last entries lack it, any entry that has it makes a table fall later. So one pass that gathers
// bits and compares steps (`stepping`, and of common letters `lanes`) decides, with no early way out, and is vectorised.
#![tactic(auto)]

ghost use Rattle.std.specs.Prelude.{◌≡◌, true, ◌&&◌, ◌||◌, ℕ, ◌≤◌};
ghost use Rattle.refusals.specs.Numbers.{most_segments};
ghost use Rattle.segments.specs.Tables.{tables, all_below, known_at, segments_hold};
ghost use Rattle.numbered.specs.Stretches.{from};
ghost use Rattle.stepping.specs.Steps.{within, same_at, within_at};
ghost use Rattle.together.specs.Ends.{ends_within_at, begin, LowEnds};

use refusals::{MOST_SEGMENTS, MOST_STARTS};
use stepping::Seen;

// The highest bit of 32.
const HIGH: u32 = 2_147_483_648;

// No short step has this or more: 2,048 short steps have no more than 32 bits together.
const SHORT: u32 = 2_097_152;

// Whether both tables begin at 0. It is asked last: an entry that is at hand before a loop is woven into it at a cost.
fn begins(genome: &[u32; MOST_STARTS], transcript: &[u32; MOST_STARTS]) -> bool
    ensures { result ≡ begin genome.now transcript.now }
{
    (genome[0] == 0) & (transcript[0] == 0)
}

// All bits of both ends of the segments from one up to another together.
fn ends_in(
    genome: &[u32; MOST_STARTS],
    transcript: &[u32; MOST_STARTS],
    first: usize,
    to: usize,
) -> u32
    requires { (first ≤ to) × (to ≤ most_segments) }
    ensures { (k : ℕ) → within k result ≡ all_below (from first (ends_within_at k genome.now transcript.now)) to }
{
    let mut bits = 0;
    for i in first..to {
        let ends = stepping::with_bits(genome[i + 1], transcript[i + 1]);
        bits = stepping::with_bits(bits, ends);
    }
    bits
}

// All bits of both ends of the first count segments together, by blocks of which the last overlaps the others.
fn ends_of(genome: &[u32; MOST_STARTS], transcript: &[u32; MOST_STARTS], count: usize) -> u32
    requires { count ≤ most_segments }
    ensures { (k : ℕ) → within k result ≡ all_below (ends_within_at k genome.now transcript.now) count }
{
    if count < 4 {
        return ends_in(genome, transcript, 0, count);
    }
    if count < 8 {
        let front = ends_in(genome, transcript, 0, 4);
        let back = ends_in(genome, transcript, count - 4, count);
        return stepping::with_bits(front, back);
    }
    let front = ends_in(genome, transcript, 0, count - count % 8);
    let back = ends_in(genome, transcript, count - 8, count);
    stepping::with_bits(front, back)
}

// Whether steps are the same and none has wrapped: all are short, or no step and no end has the highest bit.
fn is_fine(
    seen: Seen,
    genome: &[u32; MOST_STARTS],
    transcript: &[u32; MOST_STARTS],
    count: usize,
) -> bool
    requires { count ≤ most_segments }
    ensures { result ≡ (seen.same && (within 21 seen.bits || (within 31 seen.bits && all_below (ends_within_at 31 genome.now transcript.now) count))) }
{
    let same = seen.same;
    let bits = seen.bits;
    if bits < SHORT {
        return same;
    }
    let all = stepping::with_bits(bits, ends_of(genome, transcript, count));
    same & (all < HIGH)
}

// What all segments show: whether their letters are known and their steps the same, and where they are, the bits of the steps.
fn shown(
    genome: &[u32; MOST_STARTS],
    transcript: &[u32; MOST_STARTS],
    letters: &[u8; MOST_SEGMENTS],
    count: usize,
) -> Seen
    requires { count ≤ most_segments }
    ensures same_value { result.same ≡ (all_below (known_at letters.now) count && all_below (same_at (tables genome.now transcript.now letters.now)) count) }
    ensures bits_value { result.same ≡ true → (k : ℕ) → within k result.bits ≡ all_below (within_at k (tables genome.now transcript.now letters.now)) count }
{
    if letters::all_common(letters, count) {
        return lanes::common_steps(genome, transcript, letters, count);
    }
    let known = letters::all_known(letters, count);
    let seen = stepping::steps(genome, transcript, letters, count);
    let same = known & seen.same;
    let bits = seen.bits;
    Seen { same, bits }
}

// Whether count segments hold together, where no table goes as far as the highest bit: the caller has longer ones refused in any case.
pub fn segments_hold(
    genome: &[u32; MOST_STARTS],
    transcript: &[u32; MOST_STARTS],
    letters: &[u8; MOST_SEGMENTS],
    count: usize,
) -> bool
    requires { count ≤ most_segments }
    ensures { LowEnds genome.now transcript.now count → result ≡ segments_hold (tables genome.now transcript.now letters.now) count }
{
    let seen = shown(genome, transcript, letters, count);
    let fine = is_fine(seen, genome, transcript, count);
    begins(genome, transcript) & fine
}
