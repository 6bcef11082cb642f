// Whether the exon numbers of lent tables hold, which every question asks too. A step is taken as a difference that may wrap: where the numbers begin and end
// as they are to and no step is above 1, none comes near to wrapping. So one pass gathers how far steps are above what the letter lets them be, or of few whether any is, with no
// early way out, and is vectorised; where none is above, both ends decide. From which of two neighbours a step is taken is a matter of the strand: the loop is told by two numbers, 0 and 1.
#![tactic(auto)]

ghost use Rattle.std.specs.Prelude.{◌≡◌, ◌+◌, ◌<◌, ◌≤◌, ◌&&◌, if◌then◌else◌, ◌==◌};
ghost use Rattle.refusals.specs.Numbers.{most_segments};
ghost use Rattle.segments.specs.Tables.{all_below};
ghost use Rattle.segments.specs.Exons.{first_number, numbers_hold};
ghost use Rattle.numbered.specs.Stretches.{from};
ghost use Rattle.numbered.specs.Numbers.{most_after, stepped, stepped_at, end_stepped};

use refusals::MOST_SEGMENTS;

// How far the number may step after a segment of the letter.
fn most_after(letter: u8) -> u16
    ensures { result ≡ most_after letter }
{
    if letter == b'N' { 1 } else { 0 }
}

// The bits of two numbers together.
fn with_bits(a: u16, b: u16) -> u16
    ensures { (result == 0) ≡ (a == 0 && b == 0) }
{
    a | b
}

// What was found above, with one step more.
fn step_on(wrong: u16, letter: u8, low: u16, high: u16) -> u16
    ensures { (result == 0) ≡ (wrong == 0 && stepped letter low high) }
{
    let step = high.wrapping_sub(low);
    let most = most_after(letter);
    with_bits(wrong, step.saturating_sub(most))
}

// What is above in the steps after the segments from one up to another.
fn steps_in(
    letters: &[u8; MOST_SEGMENTS],
    exons: &[u16; MOST_SEGMENTS],
    low: usize,
    high: usize,
    first: usize,
    to: usize,
) -> u16
    requires { (low ≤ 1) × (high ≤ 1) × (first ≤ to) × (to < most_segments) }
    ensures { (result == 0) ≡ all_below (from first (stepped_at letters.now exons.now low high)) to }
{
    let mut wrong = 0;
    for i in first..to {
        wrong = step_on(wrong, letters[i], exons[i + low], exons[i + high]);
    }
    wrong
}

// Whether a step is no more than the letter lets it be. The most is 0 or 1, so a step is no more than it where it adds no bit to it: a compare that the compiler takes for eight steps at
// once at less cost than an order.
fn is_stepped(letter: u8, low: u16, high: u16) -> bool
    ensures { result ≡ stepped letter low high }
{
    let step = high.wrapping_sub(low);
    let most = most_after(letter);
    (step | most) == most
}

// Whether each step after the segments from one up to another is no more than it may be: of few segments this costs less than gathering how far they are above.
fn stepped_in(
    letters: &[u8; MOST_SEGMENTS],
    exons: &[u16; MOST_SEGMENTS],
    low: usize,
    high: usize,
    first: usize,
    to: usize,
) -> bool
    requires { (low ≤ 1) × (high ≤ 1) × (first ≤ to) × (to < most_segments) }
    ensures { result ≡ all_below (from first (stepped_at letters.now exons.now low high)) to }
{
    let mut ok = true;
    for i in first..to {
        ok = ok & is_stepped(letters[i], exons[i + low], exons[i + high]);
    }
    ok
}

// Whether as many steps are no more than they may be as two blocks of one size have: the last overlaps the first, or meets it.
fn in_blocks<const SIZE: usize>(
    letters: &[u8; MOST_SEGMENTS],
    exons: &[u16; MOST_SEGMENTS],
    low: usize,
    high: usize,
    to: usize,
) -> bool
    requires { (low ≤ 1) × (high ≤ 1) × (SIZE ≤ to) × (to ≤ SIZE + SIZE) × (to < most_segments) }
    ensures { result ≡ all_below (stepped_at letters.now exons.now low high) to }
{
    let front = steps_in(letters, exons, low, high, 0, SIZE);
    let back = steps_in(letters, exons, low, high, to - SIZE, to);
    with_bits(front, back) == 0
}

// Whether so many steps from the first segment on are no more than they may be. The compiler makes straight code of whole blocks, so the last block overlaps the others; from 16 to 31
// steps two blocks of 16 do, from 8 to 15 two of 8, which are compared and not gathered, and from 4 to 7 two of 4. No size is told by more than three tests.
fn steps_hold(
    letters: &[u8; MOST_SEGMENTS],
    exons: &[u16; MOST_SEGMENTS],
    low: usize,
    high: usize,
    to: usize,
) -> bool
    requires { (low ≤ 1) × (high ≤ 1) × (to < most_segments) }
    ensures { result ≡ all_below (stepped_at letters.now exons.now low high) to }
{
    if to < 16 {
        if to < 8 {
            if to < 4 {
                return steps_in(letters, exons, low, high, 0, to) == 0;
            }
            return in_blocks::<4>(letters, exons, low, high, to);
        }
        let front = stepped_in(letters, exons, low, high, 0, 8);
        let back = stepped_in(letters, exons, low, high, to - 8, to);
        return front & back;
    }
    if to < 32 {
        return in_blocks::<16>(letters, exons, low, high, to);
    }
    let front = steps_in(letters, exons, low, high, 0, to - to % 16);
    let back = steps_in(letters, exons, low, high, to - 16, to);
    with_bits(front, back) == 0
}

// The neighbour from which a step is taken: the earlier one on strand 1.
fn from_neighbour(forward: bool) -> usize
    ensures { (result ≡ (if forward then 0 else 1)) × (result ≤ 1) }
{
    if forward { 0 } else { 1 }
}

// The neighbour to which it is taken.
fn to_neighbour(forward: bool) -> usize
    ensures { (result ≡ (if forward then 1 else 0)) × (result ≤ 1) }
{
    if forward { 1 } else { 0 }
}

// Whether the numbers begin and end as they are to: with the first number, and with the step from the last, at the last segment's letter, to what stands behind it.
fn ends_hold(letter: u8, number: u16, last: u16, forward: bool, records: u16) -> bool
    ensures { result ≡ (number == first_number forward records && end_stepped forward records letter last) }
{
    if forward {
        return (number == 1) & is_stepped(letter, last, records);
    }
    (number == records) & is_stepped(letter, 1, last)
}

// Whether the exon numbers of count segments hold.
pub fn numbers_hold(
    letters: &[u8; MOST_SEGMENTS],
    exons: &[u16; MOST_SEGMENTS],
    count: usize,
    forward: bool,
    records: u16,
) -> bool
    requires { (1 ≤ count) × (count ≤ most_segments) }
    ensures { result ≡ numbers_hold forward records letters.now exons.now count }
{
    let last = count - 1;
    let low = from_neighbour(forward);
    let high = to_neighbour(forward);
    if steps_hold(letters, exons, low, high, last) {
        return ends_hold(letters[last], exons[0], exons[last], forward, records);
    }
    false
}
