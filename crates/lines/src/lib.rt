// The listing of a transcript as text in a lent buffer: a header, and a line for each segment.
#![tactic(auto)]

ghost use Rattle.std.specs.Prelude.{◌≡◌, true, ◌+◌, ◌*◌, ◌-◌, ◌≤◌, ◌<◌, max, length, get_or, pos, nat_abs};
ghost use Rattle.std.specs.Int.Signed.{le_z};
ghost use Rattle.whole.specs.Whole.{eq_z};
ghost use Rattle.refusals.specs.Numbers.{number, most_segments};
ghost use Rattle.lines.specs.Listing.{number_text, numbers_text, sign_of, listing_header, listing_text, refusal_text, judgment_text};
ghost use Rattle.lines.specs.Tables.{line_at, lines_from};
ghost use Rattle.cigar.specs.Lent.{at_front};
ghost use Rattle.segments.specs.Tables.{tables, Holds, read};
ghost use Rattle.building.specs.Afterwards.{tables_after, exons_after};
ghost use Rattle.card.specs.Putting.{Put};
ghost use Rattle.card.specs.Writing.{judge_card};
ghost use Rattle.lines.specs.Lengths.{most_number, most_numbers, most_header, most_line, most_listing, most_refusal};

use refusals::{MOST_SEGMENTS, MOST_STARTS, Refusal};

// The most bytes of a header and of a line, whose numbers have ten digits at most, and of a listing: 71,719.
const MOST_HEADER: usize = 39;

const MOST_LINE: usize = 35;

pub const MOST_LISTING: usize = MOST_HEADER + MOST_LINE * MOST_SEGMENTS;

// A space and a number. Returns the place after it.
#[tactic(auto, using(crate::specs::Lengths::number_short))]
fn put_number(buffer: &mut [u8], at: usize, n: u32) -> usize
    requires { at + most_number ≤ length buffer.old }
    ensures put { Put buffer.old buffer.new at result (number_text n) }
    ensures within { result ≤ at + most_number }
{
    buffer[at] = b' ';
    spelling::put_digits(buffer, at + 1, n)
}

// The three numbers that end a line, and the newline. Returns the place after it.
fn put_numbers(buffer: &mut [u8], at: usize, a: u32, b: u32, c: u32) -> usize
    requires { at + most_numbers ≤ length buffer.old }
    ensures put { Put buffer.old buffer.new at result (numbers_text a b c) }
    ensures within { result ≤ at + most_numbers }
{
    let second = put_number(buffer, at, a);
    let third = put_number(buffer, second, b);
    let end = put_number(buffer, third, c);
    buffer[end] = b'\n';
    end + 1
}

// The count of segment i.
fn count_at(genome: &[u32; MOST_STARTS], transcript: &[u32; MOST_STARTS], i: usize) -> u32
    requires { i < most_segments }
    ensures { result ≡ max (get_or genome.now (i + 1) 0 - get_or genome.now i 0) (get_or transcript.now (i + 1) 0 - get_or transcript.now i 0) }
{
    let along_genome = genome[i + 1].saturating_sub(genome[i]);
    let along_transcript = transcript[i + 1].saturating_sub(transcript[i]);
    along_genome.max(along_transcript)
}

// The line of segment i. Returns the place after it.
fn put_line(
    buffer: &mut [u8],
    at: usize,
    genome: &[u32; MOST_STARTS],
    transcript: &[u32; MOST_STARTS],
    letters: &[u8; MOST_SEGMENTS],
    i: usize,
) -> usize
    requires { (i < most_segments) × (at + most_line ≤ length buffer.old) }
    ensures put { Put buffer.old buffer.new at result (line_at (tables genome.now transcript.now letters.now) i) }
    ensures within { result ≤ at + most_line }
{
    let count = count_at(genome, transcript, i);
    buffer[at] = letters[i];
    put_numbers(buffer, at + 1, genome[i], transcript[i], count)
}

// The lines of all segments, from a place on. Returns the place after them.
fn put_lines(
    buffer: &mut [u8],
    from: usize,
    count: usize,
    genome: &[u32; MOST_STARTS],
    transcript: &[u32; MOST_STARTS],
    letters: &[u8; MOST_SEGMENTS],
) -> usize
    requires { (count ≤ most_segments) × (from + most_line * count ≤ length buffer.old) }
    ensures put { Put buffer.old buffer.new from result (lines_from (tables genome.now transcript.now letters.now) 0 count) }
    ensures within { result ≤ from + most_line * count }
{
    let mut at = from;
    for i in 0..count {
        at = put_line(buffer, at, genome, transcript, letters, i);
    }
    at
}

// The sign of a strand.
fn sign(forward: bool) -> u8
    ensures { result ≡ sign_of forward }
{
    if forward { b'+' } else { b'-' }
}

// The header. Returns the place after it.
fn put_header(buffer: &mut [u8], forward: bool, count: u32, genome: u32, transcript: u32) -> usize
    requires { most_header ≤ length buffer.old }
    ensures put { Put buffer.old buffer.new 0 result (listing_header forward count genome transcript) }
    ensures within { result ≤ most_header }
{
    card::put_mark(buffer);
    buffer[3] = b' ';
    buffer[4] = sign(forward);
    put_numbers(buffer, 5, count, genome, transcript)
}

// The listing, at the front of a buffer that has room for any. Returns its length.
fn put_listing(
    buffer: &mut [u8],
    forward: bool,
    count: usize,
    genome: &[u32; MOST_STARTS],
    transcript: &[u32; MOST_STARTS],
    letters: &[u8; MOST_SEGMENTS],
) -> usize
    requires count_le_most_segments { (count ≤ most_segments) × (most_listing ≤ length buffer.old) }
    requires holds { Holds (tables genome.now transcript.now letters.now) count }
    ensures put { Put buffer.old buffer.new 0 result (listing_text forward (read (tables genome.now transcript.now letters.now) count)) }
    ensures within { result ≤ most_listing }
{
    let header = put_header(
        buffer,
        forward,
        count as u32,
        genome[count],
        transcript[count],
    );
    put_lines(buffer, header, count, genome, transcript, letters)
}

// The line of a refusal, at the front. Returns its length.
pub fn put_refusal(buffer: &mut [u8], refusal: Refusal) -> usize
    requires { most_refusal ≤ length buffer.old }
    ensures put { Put buffer.old buffer.new 0 result (refusal_text (number refusal)) }
    ensures within { result ≤ most_refusal }
{
    buffer[..7].copy_from_slice(b"refused");
    let last = put_number(buffer, 7, u32::from(refusal.number()));
    buffer[last] = b'\n';
    last + 1
}

// Whether a strand is 1.
fn is_plus(strand: i32) -> bool
    ensures { result ≡ eq_z strand (pos 1) }
{
    strand == 1
}

// A head's count of segments.
fn count_in(count: i32) -> usize
    requires { le_z (pos 0) count ≡ true }
    ensures { result ≡ nat_abs count }
{
    count as usize
}

// What a card is listed as, at the front of a buffer that has room for any: the listing of what it makes, or the line of a refusal.
// The tables are left as building leaves them. Returns the text's length.
pub fn list_card(
    card: &[u8],
    genome: &mut [u32; MOST_STARTS],
    transcript: &mut [u32; MOST_STARTS],
    letters: &mut [u8; MOST_SEGMENTS],
    exons: &mut [u16; MOST_SEGMENTS],
    buffer: &mut [u8],
) -> usize
    requires { most_listing ≤ length buffer.old }
    ensures value { result ≡ length (judgment_text (judge_card card.now)) }
    ensures within { result ≤ most_listing }
    ensures buffer_after { buffer.new ≡ at_front (judgment_text (judge_card card.now)) buffer.old }
    ensures letters_after { tables genome.new transcript.new letters.new ≡ tables_after (judge_card card.now) (tables genome.old transcript.old letters.old) }
    ensures exons_after { exons.new ≡ exons_after (judge_card card.now) exons.old }
{
    match card::build_card(card, genome, transcript, letters, exons) {
        Ok(head) => {
            let forward = is_plus(head.strand);
            let count = count_in(head.count);
            put_listing(buffer, forward, count, genome, transcript, letters)
        }
        Err(refusal) => put_refusal(buffer, refusal),
    }
}
