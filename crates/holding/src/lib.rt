// Refusal 23: whether a transcript that a host lends holds together. Every number may be wrong, so the head is looked at before the tables are.
#![tactic(auto)]

ghost use Rattle.std.specs.Prelude.{◌≡◌, true, ◌≤◌, pos, nat_abs};
ghost use Rattle.std.specs.Int.Signed.{le_z};
ghost use Rattle.refusals.specs.Numbers.{most_segments};
ghost use Rattle.segments.specs.Tables.{tables};
ghost use Rattle.holding.specs.Holding.{segments_in, records_in, is_forward, head_holds, cds_holds, totals_hold};
ghost use Rattle.holding.specs.Parts.{bases_of, tables_hold};

use refusals::{MOST_BASES, MOST_RECORDS, MOST_SEGMENTS, MOST_STARTS};
use transcript::{BOTH_GIVEN, Head, NONE_GIVEN, OF_LENGTH, OF_RECORDS};

// A number that is not negative.
pub fn natural(x: i32) -> u32
    requires { le_z (pos 0) x ≡ true }
    ensures { result ≡ nat_abs x }
{
    x as u32
}

// Whether neither CDS bound is given, or both are and 0 <= start <= end <= length.
#[tactic(auto, unfolding(crate::specs::Holding::cds_holds))]
pub fn cds_holds(head: Head, length: u32) -> bool
    ensures { result ≡ cds_holds head length }
{
    let bits = head.bits;
    let start = head.start;
    let end = head.end;
    if bits == NONE_GIVEN {
        return true;
    }
    if bits == BOTH_GIVEN {
        return (0 <= start) & (start <= end) & ((end as i64) <= (length as i64));
    }
    false
}

// Whether the strand is 1 or -1, there are 1 to 2,048 segments and 1 to 512 records, and the first start is not negative.
fn head_holds(head: Head) -> bool
    ensures { result ≡ head_holds head }
{
    let strand = head.strand;
    let count = head.count;
    let records = head.records;
    let first = head.first;
    ((strand == 1) | (strand == -1))
        & ((1 <= count) & ((count as i64) <= (MOST_SEGMENTS as i64)))
        & ((1 <= records) & ((records as i64) <= (MOST_RECORDS as i64)))
        & (0 <= first)
}

// How many segments a right head tells of.
pub fn segment_count(head: Head) -> usize
    requires { head_holds head ≡ true }
    ensures { (result ≡ segments_in head) × (1 ≤ result) × (result ≤ most_segments) }
{
    let count = natural(head.count);
    count as usize
}

// How many records a right head tells of.
pub fn record_count(head: Head) -> u16
    requires { head_holds head ≡ true }
    ensures { result ≡ records_in head }
{
    let records = natural(head.records);
    records as u16
}

// Whether the strand of a right head is 1.
pub fn is_forward(head: Head) -> bool
    ensures { result ≡ is_forward head }
{
    let strand = head.strand;
    strand == 1
}

// The first start of a right head.
pub fn first_start(head: Head) -> u32
    requires { head_holds head ≡ true }
    ensures { result ≡ nat_abs head.first }
{
    natural(head.first)
}

// Whether neither the genome's end nor the transcript length is above the largest.
fn totals_hold(first: u32, genome: u32, transcript: u32) -> bool
    ensures { result ≡ totals_hold first genome transcript }
{
    ((first as u64) + (genome as u64) <= (MOST_BASES as u64)) & (transcript <= MOST_BASES)
}

// How many bases a transcript has, which is known only where the head's own tests pass: of records as many as the transcript's table says, of a length as many as that.
#[tactic(auto, unfolding(crate::specs::Parts::bases_of))]
pub fn bases_of(head: Head, transcript: &[u32; MOST_STARTS]) -> Option<u32>
    ensures { result ≡ bases_of head transcript.now }
{
    let kind = head.kind;
    if kind == OF_RECORDS {
        if head_holds(head) {
            let count = segment_count(head);
            return Some(transcript[count]);
        }
        return None;
    }
    if kind == OF_LENGTH {
        let length = head.length;
        if length < 0 {
            return None;
        }
        let bases = natural(length);
        if bases <= MOST_BASES {
            return Some(bases);
        }
    }
    None
}

// Whether the tables of a right head hold. The segments are looked at before the totals: an entry that is at hand before that is woven into it at a cost. Counts stand
// before the tables, as the compiler then hands the host's own pointers on without moving them.
#[tactic(auto, unfolding(crate::specs::Parts::tables_hold))]
pub fn tables_hold(
    count: usize,
    records: u16,
    genome: &[u32; MOST_STARTS],
    transcript: &[u32; MOST_STARTS],
    letters: &[u8; MOST_SEGMENTS],
    exons: &[u16; MOST_SEGMENTS],
    forward: bool,
    first: u32,
) -> bool
    requires { (1 ≤ count) × (count ≤ most_segments) }
    ensures { result ≡ tables_hold forward records first (tables genome.now transcript.now letters.now) exons.now count }
{
    if together::segments_hold(genome, transcript, letters, count) {
        if totals_hold(first, genome[count], transcript[count]) {
            return numbered::numbers_hold(letters, exons, count, forward, records);
        }
    }
    false
}
