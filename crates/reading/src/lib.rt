// The pass over the CIGARs of all records, which refuses 3, 7, 8 and 32 and sums how far the elements go. Sums are of 64 bits: a total
// passes 32 bits before 9 is due.
#![tactic(auto)]

ghost use Rattle.std.specs.Prelude.{◌≡◌, false, ◌+◌, ◌-◌, ◌*◌, ◌≤◌, ◌<◌, pos, nat_abs, length};
ghost use Rattle.std.specs.Int.Signed.{lt_z};
ghost use Rattle.refusals.specs.Numbers.{most_segments};
ghost use Rattle.cigar.specs.Text.{element, read_all};
ghost use Rattle.records.specs.Layout.{cigar_text};
ghost use Rattle.records.specs.Records.{field_at, record_at, records_from};
ghost use Rattle.records.specs.Walk.{Beside, Stands, Walk, Ready};
ghost use Rattle.reading.specs.Reading.{spans, spanned, read_first, read_next, gap_of, between, genome_end_of, exons_after, exons_of};
ghost use Rattle.reading.specs.Tallies.{Bounded, BoundedTally, one_on, nothing, tallied, tallied_after, tallied_all};

use records::{ALT_END, ALT_START, CIGAR_TEXT};
use refusals::{MOST_SEGMENTS, MOST_TEXT, Refusal};

// How many segments there are, and how far they go along the genome and the transcript.
#[derive(Clone, Copy)]
pub struct Sums {
    pub count: usize,
    pub genome: u64,
    pub transcript: u64,
}

// The sums with one element more.
pub fn one_on(from: Sums, letter: u8, count: u32) -> Sums
    requires { Bounded from × (from.count < most_segments) }
    ensures { (result ≡ one_on from (element count letter)) × Bounded result }
{
    let more = from.count + 1;
    let genome = from.genome + cigar::along_genome(letter, count) as u64;
    let transcript = from.transcript + cigar::along_transcript(letter, count) as u64;
    Sums {
        count: more,
        genome,
        transcript,
    }
}

// The sums with the elements of one text.
fn tally_text(text: &[u8], from: Sums) -> Result<Sums, Refusal>
    requires { Bounded from }
    ensures { (result ≡ tallied from (read_all (most_segments - from.count) text.now)) × BoundedTally result }
{
    let mut at = 0;
    let mut sums = from;
    // An element's step says where the next one begins, so no range or chain goes over them.
    while let Some(step) = cigar::step_at(text, at)? {
        if sums.count == MOST_SEGMENTS {
            return Err(Refusal::TooMuch);
        }
        sums = one_on(sums, step.letter, step.count);
        at = step.next;
    }
    Ok(sums)
}

// Whether a length along the genome is that of the bounds.
fn spans(start: i32, end: i32, length: u64) -> bool
    requires { length ≤ most_segments * 4294967296 }
    ensures { result ≡ spans start end length }
{
    let reached = i64::from(start) + length as i64;
    reached == i64::from(end)
}

// The sums with the elements of the record at `at`, or 32 where they are not as long along the genome as its bounds.
fn tally_record(s: &[u8], at: usize, from: Sums) -> Result<Sums, Refusal>
    requires { Stands s.now at × Bounded from }
    ensures { (result ≡ tallied from (spanned (record_at s.now at) (read_all (most_segments - from.count) (record_at s.now at).cigar))) × BoundedTally result }
{
    let start = at + CIGAR_TEXT;
    let end = records::next_at(s, at);
    let to = tally_text(&s[start..end], from)?;
    let alt_start = fields::i32_at(s, at + ALT_START);
    let alt_end = fields::i32_at(s, at + ALT_END);
    let length = to.genome - from.genome;
    if spans(alt_start, alt_end, length) {
        return Ok(to);
    }
    Err(Refusal::NotSpanning)
}

// A bound that is not negative.
pub fn bound(s: &[u8], at: usize) -> u32
    requires at_in_bounds { at + 4 ≤ length s.now }
    requires pos_value { lt_z (field_at s.now at) (pos 0) ≡ false }
    ensures { result ≡ nat_abs (field_at s.now at) }
{
    fields::u32_at(s, at)
}

// The length of the gap between two records.
pub fn gap_at(s: &[u8], previous: usize, at: usize) -> u32
    requires cigar_text_in_bounds { (previous + cigar_text ≤ length s.now) × (at + cigar_text ≤ length s.now) }
    requires beside { Beside (record_at s.now previous) (record_at s.now at) }
    ensures { result ≡ gap_of (record_at s.now previous) (record_at s.now at) }
{
    let start = bound(s, at + ALT_START);
    let end = bound(s, previous + ALT_END);
    start - end
}

// The sums of the first record's elements.
pub fn tally_first(s: &[u8]) -> Result<Sums, Refusal>
    requires { Stands s.now 0 }
    ensures { (result ≡ tallied nothing (spanned (record_at s.now 0) (read_first (record_at s.now 0)))) × BoundedTally result }
{
    let to = records::next_at(s, 0);
    if to - CIGAR_TEXT > MOST_TEXT {
        return Err(Refusal::TooMuch);
    }
    let from = Sums {
        count: 0,
        genome: 0,
        transcript: 0,
    };
    tally_record(s, 0, from)
}

// The sums with the gap before the record at `at` and its elements.
pub fn tally_next(s: &[u8], previous: usize, at: usize, from: Sums) -> Result<Sums, Refusal>
    requires cigar_text_in_bounds { (previous + cigar_text ≤ length s.now) × Stands s.now at }
    requires beside { Beside (record_at s.now previous) (record_at s.now at) }
    requires bounded { Bounded from }
    ensures { (result ≡ tallied (one_on from (between (record_at s.now previous) (record_at s.now at))) (spanned (record_at s.now at) (read_next from.count (record_at s.now at)))) × BoundedTally result }
{
    let start = at + CIGAR_TEXT;
    let to = records::next_at(s, at);
    if to - start > MOST_TEXT {
        return Err(Refusal::TooMuch);
    }
    if from.count == MOST_SEGMENTS {
        return Err(Refusal::TooMuch);
    }
    let gap = gap_at(s, previous, at);
    tally_record(s, at, one_on(from, b'N', gap))
}

// The sums with the records after the one at `previous`.
fn tally_rest(
    s: &[u8],
    mut previous: usize,
    left: usize,
    mut at: usize,
    mut sums: Sums,
) -> Result<Sums, Refusal>
    requires walk { Walk s.now previous left at }
    requires bounded { Bounded sums }
    ensures { (result ≡ tallied_after (genome_end_of (record_at s.now previous)) sums (exons_after sums.count (records_from left s.now at))) × BoundedTally result }
{
    for _ in 0..left {
        sums = tally_next(s, previous, at, sums)?;
        previous = at;
        at = records::next_at(s, at);
    }
    Ok(sums)
}

// The sums of all records' elements.
pub fn tally_all(count: usize, s: &[u8]) -> Result<Sums, Refusal>
    requires { Ready count s.now }
    ensures { (result ≡ tallied_all (exons_of (records_from count s.now 0))) × BoundedTally result }
{
    let first = tally_first(s)?;
    tally_rest(s, 0, count - 1, records::next_at(s, 0), first)
}
