// Filling: the elements of records that passed every test are put into the lent tables.
#![tactic(auto)]

ghost use Rattle.std.specs.Prelude.{◌∷◌, ◌≡◌, ◌+◌, ◌-◌, ◌≤◌, ◌<◌, length, replicate};
ghost use Rattle.std.proofs.lemmas.List.Edits.{sets};
ghost use Rattle.refusals.specs.Numbers.{most_records, most_segments, most_starts, most_bases};
ghost use Rattle.cigar.specs.Text.{read_all, elements_in};
ghost use Rattle.records.specs.Layout.{cigar_text};
ghost use Rattle.records.specs.Records.{record_at, records_from};
ghost use Rattle.records.specs.Walk.{Beside, Stands, Walk, Ready};
ghost use Rattle.reading.specs.Reading.{between, genome_end_of, read_first, read_next, exons_after, exons_of};
ghost use Rattle.reading.specs.Tallies.{Bounded, nothing, one_on, tallied, tallied_after, tallied_all};
ghost use Rattle.segments.specs.Tables.{tables, padded, tables_of};
ghost use Rattle.transcript.specs.Building.{numbered_by};
ghost use Rattle.filling.specs.Filling.{Long, fill, tables_finished, ordered, turned_on, next_elements, elements_past, elements_all, numbers_past, numbers_all, UpTo, Before, SmallSums, SmallTally};

use reading::Sums;
use records::CIGAR_TEXT;
use refusals::MOST_SEGMENTS;

// A number that passed 9.
fn narrow(x: u64) -> u32
    requires { x ≤ most_bases }
    ensures { result ≡ x }
{
    x as u32
}

// Where an element begins that goes from `at` to `after` along a text, whose elements go from `from` to `to`.
fn turned(forward: bool, from: Sums, to: Sums, at: Sums, after: Sums) -> Sums
    requires { UpTo from at × Before at after × UpTo after to × SmallSums to }
    ensures { (result ≡ turned_on forward from to at after) × Before result to }
{
    if forward {
        return at;
    }
    let count = from.count + (to.count - after.count);
    let genome = from.genome + (to.genome - after.genome);
    let transcript = from.transcript + (to.transcript - after.transcript);
    Sums {
        count,
        genome,
        transcript,
    }
}

// The elements of a text that go from `from` to `to` are put in, in genomic order.
fn fill_text(
    forward: bool,
    text: &[u8],
    from: Sums,
    to: Sums,
    genome: &mut [u32],
    transcript: &mut [u32],
    letters: &mut [u8],
)
    requires long { Long (tables genome.old transcript.old letters.old) }
    requires text_value { tallied from (read_all (most_segments - from.count) text.now) ≡ Ok to }
    requires bounded { Bounded from × SmallSums to }
    ensures { tables genome.new transcript.new letters.new ≡ fill (tables genome.old transcript.old letters.old) from (ordered forward (elements_in (read_all (most_segments - from.count) text.now))) }
{
    let mut at = 0;
    let mut sums = from;
    // `while let` was tried: after it no proof knows which of the two other arms was met.
    loop {
        match cigar::step_at(text, at) {
            Ok(Some(step)) => {
                let after = reading::one_on(sums, step.letter, step.count);
                let begin = turned(forward, from, to, sums, after);
                let place = begin.count;
                let on_genome = narrow(begin.genome);
                let on_transcript = narrow(begin.transcript);
                genome[place] = on_genome;
                transcript[place] = on_transcript;
                letters[place] = step.letter;
                sums = after;
                at = step.next;
            }
            Ok(None) => return,
            Err(_) => return,
        }
    }
}

// The first record's elements are put in, which go to `to`.
fn fill_first(
    forward: bool,
    s: &[u8],
    to: Sums,
    genome: &mut [u32],
    transcript: &mut [u32],
    letters: &mut [u8],
)
    requires long { Long (tables genome.old transcript.old letters.old) }
    requires stands { Stands s.now 0 × SmallSums to }
    requires s_value { tallied nothing (read_first (record_at s.now 0)) ≡ Ok to }
    ensures { tables genome.new transcript.new letters.new ≡ fill (tables genome.old transcript.old letters.old) nothing (ordered forward (elements_in (read_first (record_at s.now 0)))) }
{
    let from = Sums {
        count: 0,
        genome: 0,
        transcript: 0,
    };
    let end = records::next_at(s, 0);
    let text = &s[CIGAR_TEXT..end];
    fill_text(forward, text, from, to, genome, transcript, letters);
}

// The gap before the record at `at` and its elements are put in, which go from `from` to `to`.
fn fill_next(
    forward: bool,
    s: &[u8],
    previous: usize,
    at: usize,
    from: Sums,
    to: Sums,
    genome: &mut [u32],
    transcript: &mut [u32],
    letters: &mut [u8],
)
    requires long { Long (tables genome.old transcript.old letters.old) }
    requires cigar_text_in_bounds { (previous + cigar_text ≤ length s.now) × Stands s.now at × Beside (record_at s.now previous) (record_at s.now at) }
    requires at_value { tallied (one_on from (between (record_at s.now previous) (record_at s.now at))) (read_next from.count (record_at s.now at)) ≡ Ok to }
    requires bounded { Bounded from × SmallSums to }
    ensures { tables genome.new transcript.new letters.new ≡ fill (tables genome.old transcript.old letters.old) from (next_elements forward from.count (record_at s.now previous) (record_at s.now at)) }
{
    let gap = reading::gap_at(s, previous, at);
    let after = reading::one_on(from, b'N', gap);
    let place = from.count;
    let on_genome = narrow(from.genome);
    let on_transcript = narrow(from.transcript);
    genome[place] = on_genome;
    transcript[place] = on_transcript;
    letters[place] = b'N';
    let start = at + CIGAR_TEXT;
    let end = records::next_at(s, at);
    let text = &s[start..end];
    fill_text(forward, text, after, to, genome, transcript, letters);
}

// The number of the record that has so many before it and so many after it, along the genome.
fn number_of(forward: bool, before: usize, after: usize) -> u16
    requires { (before < most_records) × (after < most_records) }
    ensures { result ≡ numbered_by forward before after }
{
    let number = if forward { before + 1 } else { after + 1 };
    number as u16
}

// One number is put in at the places from `from` to `to`.
fn put_number(number: u16, from: usize, to: usize, exons: &mut [u16])
    requires { (to ≤ length exons.old) × (length exons.old ≤ most_segments) }
    ensures { exons.new ≡ sets exons.old from (replicate (to - from) number) }
{
    for i in from..to {
        exons[i] = number;
    }
}

// The numbers of a gap and of the record after it are put in, whose elements go from `from` to `to`. The record before the gap has `before` before it and `after` after it.
fn put_next(forward: bool, before: usize, after: usize, from: usize, to: usize, exons: &mut [u16])
    requires after_nonzero { (0 < after) × (before + after < most_records) }
    requires from_lt_to { (from < to) × (to ≤ length exons.old) × (length exons.old ≤ most_segments) }
    ensures { exons.new ≡ sets exons.old from (numbered_by forward before after ∷ replicate (to - (from + 1)) (numbered_by forward (before + 1) (after - 1))) }
{
    let gap = number_of(forward, before, after);
    let further = before + 1;
    let fewer = after - 1;
    let own = number_of(forward, further, fewer);
    exons[from] = gap;
    let next = from + 1;
    put_number(own, next, to, exons);
}

// The elements of the records after the one at `previous` are put in, from `from` on, and their exon numbers. `before` records stand before that one.
fn fill_rest(
    forward: bool,
    s: &[u8],
    mut previous: usize,
    before: usize,
    left: usize,
    mut at: usize,
    mut from: Sums,
    genome: &mut [u32],
    transcript: &mut [u32],
    letters: &mut [u8],
    exons: &mut [u16],
)
    requires long { Long (tables genome.old transcript.old letters.old) }
    requires exons_len { (length exons.old ≡ most_segments) × (before + left < most_records) }
    requires walk { Walk s.now previous left at × Bounded from }
    requires small_tally { SmallTally (tallied_after (genome_end_of (record_at s.now previous)) from (exons_after from.count (records_from left s.now at))) }
    ensures letters_after { tables genome.new transcript.new letters.new ≡ fill (tables genome.old transcript.old letters.old) from (elements_past forward (genome_end_of (record_at s.now previous)) (exons_after from.count (records_from left s.now at))) }
    ensures exons_after { exons.new ≡ sets exons.old from.count (numbers_past forward before (exons_after from.count (records_from left s.now at))) }
{
    for done in 0..left {
        match reading::tally_next(s, previous, at, from) {
            Ok(to) => {
                fill_next(
                    forward, s, previous, at, from, to, genome, transcript, letters,
                );
                put_next(
                    forward,
                    before + done,
                    left - done,
                    from.count,
                    to.count,
                    exons,
                );
                from = to;
                previous = at;
                at = records::next_at(s, at);
            }
            Err(_) => return,
        }
    }
}

// All records' elements are put in, from the front, and their exon numbers.
fn fill_all(
    forward: bool,
    count: usize,
    s: &[u8],
    genome: &mut [u32],
    transcript: &mut [u32],
    letters: &mut [u8],
    exons: &mut [u16],
)
    requires long { Long (tables genome.old transcript.old letters.old) }
    requires exons_len { (length exons.old ≡ most_segments) × Ready count s.now × (count ≤ most_records) }
    requires small_tally { SmallTally (tallied_all (exons_of (records_from count s.now 0))) }
    ensures letters_after { tables genome.new transcript.new letters.new ≡ fill (tables genome.old transcript.old letters.old) nothing (elements_all forward (exons_of (records_from count s.now 0))) }
    ensures exons_after { exons.new ≡ sets exons.old 0 (numbers_all forward (exons_of (records_from count s.now 0))) }
{
    match reading::tally_first(s) {
        Ok(first) => {
            fill_first(forward, s, first, genome, transcript, letters);
            let left = count - 1;
            let own = number_of(forward, 0, left);
            let end = first.count;
            put_number(own, 0, end, exons);
            let at = records::next_at(s, 0);
            fill_rest(
                forward, s, 0, 0, left, at, first, genome, transcript, letters, exons,
            );
        }
        Err(_) => return,
    }
}

// The totals are put behind the last segment, and 0 at the places that are not used.
fn finish(to: Sums, genome: &mut [u32], transcript: &mut [u32], letters: &mut [u8])
    requires { Long (tables genome.old transcript.old letters.old) × SmallSums to }
    ensures { tables genome.new transcript.new letters.new ≡ tables_finished (tables genome.old transcript.old letters.old) to }
{
    let place = to.count;
    let on_genome = narrow(to.genome);
    let on_transcript = narrow(to.transcript);
    genome[place] = on_genome;
    transcript[place] = on_transcript;
    let next = place + 1;
    genome[next..].fill(0);
    transcript[next..].fill(0);
    letters[place..].fill(0);
}

// The tables of records that passed every test, whose elements go to `to`, and their exon numbers, with 0 at the places that are not used.
pub fn write_tables(
    forward: bool,
    count: usize,
    s: &[u8],
    to: Sums,
    genome: &mut [u32],
    transcript: &mut [u32],
    letters: &mut [u8],
    exons: &mut [u16],
)
    requires long { Long (tables genome.old transcript.old letters.old) }
    requires exons_len { length exons.old ≡ most_segments }
    requires ready { Ready count s.now × (count ≤ most_records) × SmallSums to }
    requires s_value { tallied_all (exons_of (records_from count s.now 0)) ≡ Ok to }
    ensures letters_after { tables genome.new transcript.new letters.new ≡ tables_of (elements_all forward (exons_of (records_from count s.now 0))) }
    ensures exons_after { exons.new ≡ padded most_segments (numbers_all forward (exons_of (records_from count s.now 0))) }
{
    fill_all(forward, count, s, genome, transcript, letters, exons);
    finish(to, genome, transcript, letters);
    let end = to.count;
    put_number(0, end, MOST_SEGMENTS, exons);
}
