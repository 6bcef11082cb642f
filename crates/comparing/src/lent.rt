// The lent transcript: what a row records of one that was built, and one number of it damaged.
ghost use Rattle.std.specs.Prelude.{◌≡◌, set};
ghost use Rattle.segments.specs.Tables.{tables};
ghost use Rattle.comparing.specs.Changes.{total_of, records_words, length_only_words, head_damaged, tables_damaged, exons_damaged, places_of, damage_words};

use crate::answers;
use refusals::{MOST_SEGMENTS, MOST_STARTS};
use rows::ANSWER;

// The numbers of a head.
pub const HEAD: usize = 9;
// What damage answers where there is no such place.
const NO_PLACE: u32 = 1;

// The start of a table at the segment count that a row expects: the total. 0 where the table has no such place.
fn total(row: &[u8], starts: &[u32; MOST_STARTS]) -> u32
    ensures { result ≡ total_of row.now starts.now }
{
    let count = rows::answer(row, 3);
    if MOST_STARTS <= count {
        return 0;
    }
    starts[count]
}

// What is recorded of a transcript from records: strand, first start, segment count, and the two lengths; or of its refusal.
pub fn of_records(
    row: &[u8],
    number: u32,
    head: &[i32; HEAD],
    genome: &[u32; MOST_STARTS],
    transcript: &[u32; MOST_STARTS],
) -> [i64; ANSWER]
    ensures { result ≡ records_words row.now number head.now genome.now transcript.now }
{
    if number == 0 {
        let strand = head[1];
        let first = head[2];
        let count = head[3];
        let along_genome = total(row, genome);
        let along_transcript = total(row, transcript);
        return answers::of_numbers(
            0,
            strand as i64,
            first as i64,
            count as i64,
            along_genome as i64,
            along_transcript as i64,
        );
    }
    answers::of_refusal(number)
}

// What is recorded of a length-only transcript: its length, with zeros in the place of what it lacks; or of its refusal.
pub fn of_length_only(number: u32, head: &[i32; HEAD]) -> [i64; ANSWER]
    ensures { result ≡ length_only_words number head.now }
{
    if number == 0 {
        let length = head[7];
        return answers::of_numbers(0, 0, 0, 0, 0, length as i64);
    }
    answers::of_refusal(number)
}

// Puts a number into a head, where it has that place.
fn put_signed(table: &mut [i32], i: usize, z: i32)
    ensures { table.new ≡ set table.old i z }
{
    if table.len() <= i {
        return;
    }
    table[i] = z;
}

// Puts a number into a table of starts, where it has that place.
fn put_start(table: &mut [u32], i: usize, n: u32)
    ensures { table.new ≡ set table.old i n }
{
    if table.len() <= i {
        return;
    }
    table[i] = n;
}

// Puts a letter into the table of letters, where it has that place.
fn put_letter(table: &mut [u8], i: usize, letter: u8)
    ensures { table.new ≡ set table.old i letter }
{
    if table.len() <= i {
        return;
    }
    table[i] = letter;
}

// Puts a number into the table of exon numbers, where it has that place.
fn put_exon(table: &mut [u16], i: usize, exon: u16)
    ensures { table.new ≡ set table.old i exon }
{
    if table.len() <= i {
        return;
    }
    table[i] = exon;
}

// Changes one number of the lent memory: of the head (0), of a table of starts (1, 2), of the letters (3) or of the exon numbers (4).
pub fn damage(
    row: &[u8],
    head: &mut [i32; HEAD],
    genome: &mut [u32; MOST_STARTS],
    transcript: &mut [u32; MOST_STARTS],
    letters: &mut [u8; MOST_SEGMENTS],
    exons: &mut [u16; MOST_SEGMENTS],
)
    ensures head_after { head.new ≡ head_damaged row.now head.old }
    ensures letters_after { tables genome.new transcript.new letters.new ≡ tables_damaged row.now (tables genome.old transcript.old letters.old) }
    ensures exons_after { exons.new ≡ exons_damaged row.now exons.old }
{
    let table = rows::size(row, 0);
    let i = rows::size(row, 1);
    let value = rows::bits(row, 2);
    if table == 0 {
        put_signed(head, i, rows::number(row, 2));
        return;
    }
    if table == 1 {
        put_start(genome, i, value);
        return;
    }
    if table == 2 {
        put_start(transcript, i, value);
        return;
    }
    if table == 3 {
        put_letter(letters, i, (value % 256) as u8);
        return;
    }
    if table == 4 {
        put_exon(exons, i, (value % 65_536) as u16);
    }
}

// How many places the head (0), a table of starts (1, 2), the letters (3) and the exon numbers (4) have.
fn places(table: usize) -> usize
    ensures { result ≡ places_of table }
{
    if table == 0 {
        return HEAD;
    }
    if table < 3 {
        return MOST_STARTS;
    }
    if table < 5 {
        return MOST_SEGMENTS;
    }
    0
}

// What is recorded of damage: nothing. Where there is no such place, a number that no such row expects.
pub fn of_damage(row: &[u8]) -> [i64; ANSWER]
    ensures { result ≡ damage_words row.now }
{
    if rows::size(row, 1) < places(rows::size(row, 0)) {
        return answers::of_refusal(0);
    }
    answers::of_refusal(NO_PLACE)
}
