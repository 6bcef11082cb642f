// What a stretch of segments of lent tables shows: whether the two sides' steps are the same, as far as each letter lets the sides see them, and how many bits the steps have. A step is taken as a
// difference that may wrap. One pass gathers bits and compares steps, with no early way out, and is vectorised. Letters = M N X alone have a shorter pass.
#![tactic(auto)]

ghost use Rattle.std.specs.Prelude.{◌≡◌, ℕ, ◌+◌, ◌≤◌, Bool, ◌&&◌, if◌then◌else◌};
ghost use Rattle.refusals.specs.Numbers.{most_segments};
ghost use Rattle.segments.specs.Tables.{tables, all_below};
ghost use Rattle.numbered.specs.Stretches.{from};
ghost use Rattle.stepping.specs.Steps.{within, same, steps_within, common_same, common_within, at, same_at, within_at};

use refusals::{MOST_SEGMENTS, MOST_STARTS};

// What a stretch of segments showed: whether each one's steps are the same as far as its letter lets the sides see them, and
// all bits of the steps together.
#[derive(Clone, Copy)]
pub struct Seen {
    pub same: bool,
    pub bits: u32,
}

// 0 where the flag is true, else x.
pub fn unless(flag: bool, x: u32) -> u32
    ensures { result ≡ (if flag then 0 else x) }
{
    if flag { 0 } else { x }
}

// The bits of two numbers together.
pub fn with_bits(a: u32, b: u32) -> u32
    ensures { (k : ℕ) → within k result ≡ (within k a && within k b) }
{
    a | b
}

// How one segment more is taken into what a stretch showed: whether its steps are the same, and the bits that are gathered of them.
pub trait Pass {
    ghost sames: { ℕ → ℕ → ℕ → ℕ → ℕ → Bool };

    ghost gathers: { ℕ → ℕ → ℕ → ℕ → ℕ → ℕ → Bool };

    fn one_on(seen: Seen, letter: u8, g0: u32, g1: u32, t0: u32, t1: u32) -> Seen
        ensures same_value { result.same ≡ (seen.same && sames letter g0 g1 t0 t1) }
        ensures by_index { (k : ℕ) → within k result.bits ≡ (within k seen.bits && gathers k letter g0 g1 t0 t1) };
}

// Of all letters.
pub struct AllLetters;

impl Pass for AllLetters {
    ghost sames = { same };

    ghost gathers = { λ k c. steps_within k };

    fn one_on(seen: Seen, letter: u8, g0: u32, g1: u32, t0: u32, t1: u32) -> Seen {
        let dg = g1.wrapping_sub(g0);
        let dt = t1.wrapping_sub(t0);
        let genome = unless((letter == b'I') | (letter == b'N'), dg);
        let transcript = unless(letter == b'D', dt);
        let same = seen.same & (genome == transcript);
        let bits = with_bits(seen.bits, with_bits(dg, dt));
        Seen { same, bits }
    }
}

// Of common letters, one of = M N X.
pub struct CommonLetters;

impl Pass for CommonLetters {
    ghost sames = { common_same };

    ghost gathers = { λ k c g0 g1 t0 t1. common_within k g0 g1 };

    fn one_on(seen: Seen, letter: u8, g0: u32, g1: u32, t0: u32, t1: u32) -> Seen {
        let dg = g1.wrapping_sub(g0);
        let dt = t1.wrapping_sub(t0);
        let step = unless(letter == b'N', dg);
        let same = seen.same & (step == dt);
        let bits = with_bits(seen.bits, dg);
        Seen { same, bits }
    }
}

// What the segments from one up to another show.
fn steps_in<P: Pass>(
    genome: &[u32; MOST_STARTS],
    transcript: &[u32; MOST_STARTS],
    letters: &[u8; MOST_SEGMENTS],
    first: usize,
    to: usize,
) -> Seen
    requires { (first ≤ to) × (to ≤ most_segments) }
    ensures same_value { result.same ≡ all_below (from first (at P.sames (tables genome.now transcript.now letters.now))) to }
    ensures by_index { (k : ℕ) → within k result.bits ≡ all_below (from first (at (P.gathers k) (tables genome.now transcript.now letters.now))) to }
{
    let mut seen = Seen {
        same: true,
        bits: 0,
    };
    for i in first..to {
        seen = P::one_on(
            seen,
            letters[i],
            genome[i],
            genome[i + 1],
            transcript[i],
            transcript[i + 1],
        );
    }
    seen
}

// What two stretches showed.
fn both_seen(a: Seen, b: Seen) -> Seen
    ensures same_value { result.same ≡ (a.same && b.same) }
    ensures by_index { (k : ℕ) → within k result.bits ≡ (within k a.bits && within k b.bits) }
{
    let same = a.same & b.same;
    let bits = with_bits(a.bits, b.bits);
    Seen { same, bits }
}

// What count segments show, which are two blocks of one size: the last overlaps the first, or meets it.
pub fn in_blocks<P: Pass, const SIZE: usize>(
    genome: &[u32; MOST_STARTS],
    transcript: &[u32; MOST_STARTS],
    letters: &[u8; MOST_SEGMENTS],
    count: usize,
) -> Seen
    requires { (SIZE ≤ count) × (count ≤ SIZE + SIZE) × (count ≤ most_segments) }
    ensures same_value { result.same ≡ all_below (at P.sames (tables genome.now transcript.now letters.now)) count }
    ensures by_index { (k : ℕ) → within k result.bits ≡ all_below (at (P.gathers k) (tables genome.now transcript.now letters.now)) count }
{
    let front = steps_in::<P>(genome, transcript, letters, 0, SIZE);
    let back = steps_in::<P>(genome, transcript, letters, count - SIZE, count);
    both_seen(front, back)
}

// What the first count segments show. The compiler makes straight code of whole blocks, so the last block overlaps the others; below 16
// segments two blocks do, of 8 or 4.
pub fn steps(
    genome: &[u32; MOST_STARTS],
    transcript: &[u32; MOST_STARTS],
    letters: &[u8; MOST_SEGMENTS],
    count: usize,
) -> Seen
    requires { count ≤ most_segments }
    ensures same_value { result.same ≡ all_below (same_at (tables genome.now transcript.now letters.now)) count }
    ensures by_index { (k : ℕ) → within k result.bits ≡ all_below (within_at k (tables genome.now transcript.now letters.now)) count }
{
    if count < 4 {
        return steps_in::<AllLetters>(genome, transcript, letters, 0, count);
    }
    if count < 8 {
        return in_blocks::<AllLetters, 4>(genome, transcript, letters, count);
    }
    if count < 16 {
        return in_blocks::<AllLetters, 8>(genome, transcript, letters, count);
    }
    let front = steps_in::<AllLetters>(genome, transcript, letters, 0, count - count % 8);
    let back = steps_in::<AllLetters>(genome, transcript, letters, count - 8, count);
    both_seen(front, back)
}
