// CIGAR text, read by a byte cursor: the element at a place, the whole text counted or read into two lent tables. And how far an
// element goes along the genome and the transcript.
#![tactic(auto)]

ghost use Rattle.std.specs.Prelude.{◌≡◌, true, ◌+◌, ◌*◌, ◌-◌, ◌≤◌, min, pos};
ghost use Rattle.refusals.specs.Numbers.{most_count, most_segments};
ghost use Rattle.cigar.specs.Elements.{is_letter, kind_of, along_genome, along_transcript};
ghost use Rattle.refusals.specs.Outcome.{Answered};
ghost use Rattle.cigar.specs.Text.{is_digit, count_of, finished, step_at, read_all, elements_in, counted_of};
ghost use Rattle.cigar.specs.Read.{read_text, counts_after, letters_after, FullLength, Filled};

use refusals::{MOST_COUNT, MOST_SEGMENTS, MOST_TEXT, Refusal};

// An element that stands in a text: its count, its letter and the place after it.
#[derive(Clone, Copy)]
pub struct Step {
    pub count: u32,
    pub letter: u8,
    pub next: usize,
}

// Whether a byte is one of the six letters.
pub fn is_letter(b: u8) -> bool
    ensures { result ≡ is_letter b }
{
    match b {
        b'=' | b'D' | b'I' | b'M' | b'X' => true,
        b'N' => true,
        _ => false,
    }
}

// One above the largest count. No count above the largest is finished, so this one stands for all of them.
const OVER: u64 = MOST_COUNT as u64 + 1;

// The count with one digit more, or one above the largest.
fn more(n: u64, digit: u8) -> u64
    requires { (n ≤ most_count + 1) × (is_digit digit ≡ true) }
    ensures { result ≡ min (n * 10 + (digit - 48)) (most_count + 1) }
{
    let m = n * 10 + ((digit - b'0') as u64);
    if m <= OVER { m } else { OVER }
}

// The element of a letter that was read. No digits mean 1, and a count above the largest is 8.
fn finish(given: bool, n: u64, letter: u8, next: usize) -> Result<Option<Step>, Refusal>
    ensures { result ≡ finished (count_of given n) letter next }
{
    if !given {
        return Ok(Some(Step {
            count: 1,
            letter,
            next,
        }));
    }
    if n < OVER {
        let count = n as u32;
        return Ok(Some(Step {
            count,
            letter,
            next,
        }));
    }
    Err(Refusal::BadCount)
}

// The element that begins at `at`, its 7 or 8, or nothing at the end of the text.
pub fn step_at(text: &[u8], at: usize) -> Result<Option<Step>, Refusal>
    ensures { result ≡ step_at text.now at }
{
    if text.len() <= at {
        return Ok(None);
    }
    let mut n: u64 = 0;
    let mut given = false;
    for i in at..text.len() {
        let b = text[i];
        if b.is_ascii_digit() {
            n = more(n, b);
            given = true;
        } else if is_letter(b) {
            return finish(given, n, b, i + 1);
        } else {
            return Err(Refusal::NoElement);
        }
    }
    Err(Refusal::NoElement)
}

// How many elements a text has, or the first refusal: each element's 7, 8, and 3 where there is no room for it.
pub fn count_elements(text: &[u8]) -> Result<usize, Refusal>
    ensures { result ≡ counted_of (read_all most_segments text.now) }
{
    let mut at = 0;
    let mut n: usize = 0;
    // An element's step says where the next one begins, so no range or chain goes over them.
    while let Some(step) = step_at(text, at)? {
        if n == MOST_SEGMENTS {
            return Err(Refusal::TooMuch);
        }
        at = step.next;
        n += 1;
    }
    Ok(n)
}

// A count as the signed number of a table.
pub fn signed(count: u32) -> i32
    requires { count ≤ most_count }
    ensures { result ≡ pos count }
{
    count as i32
}

// The elements of a text that is not refused, from the front of two tables.
fn fill_elements(text: &[u8], counts: &mut [i32], letters: &mut [u8])
    requires full_length { FullLength counts.old letters.old }
    requires answered { Answered (read_all most_segments text.now) }
    ensures { Filled counts.old letters.old counts.new letters.new 0 (elements_in (read_all most_segments text.now)) }
{
    let mut at = 0;
    let mut n = 0;
    // `while let` was tried: after it no proof knows which of the two other arms was met.
    loop {
        match step_at(text, at) {
            Ok(Some(step)) => {
                let number = signed(step.count);
                counts[n] = number;
                letters[n] = step.letter;
                n += 1;
                at = step.next;
            }
            Ok(None) => return,
            Err(_) => return,
        }
    }
}

// A text's elements, read into the front of two lent tables, or a refusal, which leaves them as they are.
pub fn read_cigar(
    text: &[u8],
    counts: &mut [i32; MOST_SEGMENTS],
    letters: &mut [u8; MOST_SEGMENTS],
) -> Result<usize, Refusal>
    ensures value { result ≡ counted_of (read_text text.now) }
    ensures counts_after { counts.new ≡ counts_after counts.old (read_text text.now) }
    ensures letters_after { letters.new ≡ letters_after letters.old (read_text text.now) }
{
    if MOST_TEXT < text.len() {
        return Err(Refusal::TooMuch);
    }
    let n = count_elements(text)?;
    fill_elements(text, counts, letters);
    Ok(n)
}

// How far an element goes along the genome.
pub fn along_genome(letter: u8, count: u32) -> u32
    ensures { (result ≡ along_genome (kind_of letter) count) × (result ≤ count) }
{
    if letter == b'D' { 0 } else { count }
}

// How far an element goes along the transcript.
pub fn along_transcript(letter: u8, count: u32) -> u32
    ensures { (result ≡ along_transcript (kind_of letter) count) × (result ≤ count) }
{
    match letter {
        b'I' | b'N' => 0,
        _ => count,
    }
}
