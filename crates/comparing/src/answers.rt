// Answers as the ten words that a row records of them, each a number: what an answer lacks is 0.
ghost use Rattle.std.specs.Prelude.{◌≡◌, pos};
ghost use Rattle.comparing.specs.Words.{six_words, two_words, answer_words, said_words, size_word, length_words};
ghost use Rattle.comparing.specs.Texts.{part_words, common_words};

use layout::lay::{Answer, Length, Said};
use results::Part;
use rows::ANSWER;

// No word of a row is this number: what a length is that no word can hold.
const TOO_LONG: i64 = 4_294_967_296;

// Up to six numbers.
pub fn of_numbers(a: i64, b: i64, c: i64, d: i64, e: i64, f: i64) -> [i64; ANSWER]
    ensures { result ≡ six_words a b c d e f }
{
    [a, b, c, d, e, f, 0, 0, 0, 0]
}

// An answer in positions.
pub fn of_answer(a: Answer) -> [i64; ANSWER]
    ensures { result ≡ answer_words a }
{
    let start = a.start;
    let end = a.end;
    [
        a.number as i64,
        a.mark as i64,
        start.base as i64,
        start.offset as i64,
        start.star as i64,
        start.exon as i64,
        end.base as i64,
        end.offset as i64,
        end.star as i64,
        end.exon as i64,
    ]
}

// A yes or no.
pub fn of_said(a: Said) -> [i64; ANSWER]
    ensures { result ≡ said_words a }
{
    of_numbers(a.number as i64, a.yes as i64, 0, 0, 0, 0)
}

// A refusal's number, or 0, and nothing else.
pub fn of_refusal(number: u32) -> [i64; ANSWER]
    ensures { result ≡ two_words number (pos 0) }
{
    of_numbers(number as i64, 0, 0, 0, 0, 0)
}

// A size.
pub fn of_size(n: usize) -> i64
    ensures { result ≡ size_word n }
{
    if n < 4_294_967_296 {
        return n as i64;
    }
    TOO_LONG
}

// A length.
pub fn of_length(a: Length) -> [i64; ANSWER]
    ensures { result ≡ length_words a }
{
    of_numbers(a.number as i64, of_size(a.length), 0, 0, 0, 0)
}

// The part of two alleles that changed.
pub fn of_part(part: Part) -> [i64; ANSWER]
    ensures { result ≡ part_words part }
{
    of_numbers(
        0,
        part.alternative as i64,
        of_size(part.from),
        of_size(part.to),
        0,
        0,
    )
}

// How much of two alleles is common.
pub fn of_common(length: usize) -> [i64; ANSWER]
    ensures { result ≡ common_words length }
{
    of_numbers(0, of_size(length), 0, 0, 0, 0)
}
