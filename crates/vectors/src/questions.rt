// Rows that put a question to a lent transcript. Bit 0 of a row's flags says that bounds are strict, bits 1 and 2 that start and end have a star, and
// bits 3 and 4 which ends are missing, as the boundary has it.
ghost use Rattle.std.specs.Prelude.{◌≡◌};
ghost use Rattle.lending.specs.Lending.{lent_at};
ghost use Rattle.vectors.specs.Questions.{is_strict, start_star, end_star, missing_of, from_g, from_n, map_c_to_n, map_c_to_g, from_c, said_to, question_words};

use crate::calls;
use comparing::answers;
use comparing::lent::HEAD;
use entry::ask;
use layout::lay::{Answer, Said};
use refusals::{MOST_SEGMENTS, MOST_STARTS};
use rows::ANSWER;

// Whether bounds are strict.
fn is_strict(row: &[u8]) -> bool
    ensures { result ≡ is_strict row.now }
{
    rows::flags(row) % 2 == 1
}

// Whether the start has a star.
fn has_start_star(row: &[u8]) -> bool
    ensures { result ≡ start_star row.now }
{
    rows::flags(row) / 2 % 2 == 1
}

// Whether the end has a star.
fn has_end_star(row: &[u8]) -> bool
    ensures { result ≡ end_star row.now }
{
    rows::flags(row) / 4 % 2 == 1
}

// Which ends are missing.
fn missing(row: &[u8]) -> u32
    ensures { result ≡ missing_of row.now }
{
    rows::flags(row) / 8 % 4
}

// What is answered to a g. interval, in c. or in n.
fn from_g(
    row: &[u8],
    head: &[i32; HEAD],
    genome: &[u32; MOST_STARTS],
    transcript: &[u32; MOST_STARTS],
    letters: &[u8; MOST_SEGMENTS],
    exons: &[u16; MOST_SEGMENTS],
) -> Answer
    ensures { result ≡ from_g row.now (lent_at head.now genome.now transcript.now letters.now exons.now) }
{
    let start = rows::number(row, 0);
    let end = rows::number(row, 2);
    let missing = missing(row);
    let strict = is_strict(row);
    if rows::call(row) == calls::G_TO_C {
        return ask::txc_g_to_c(
            head, genome, transcript, letters, exons, start, end, missing, strict,
        );
    }
    ask::txc_g_to_n(
        head, genome, transcript, letters, exons, start, end, missing, strict,
    )
}

// What is answered to an n. interval, in c. or in g.
fn from_n(
    row: &[u8],
    head: &[i32; HEAD],
    genome: &[u32; MOST_STARTS],
    transcript: &[u32; MOST_STARTS],
    letters: &[u8; MOST_SEGMENTS],
    exons: &[u16; MOST_SEGMENTS],
) -> Answer
    ensures { result ≡ from_n row.now (lent_at head.now genome.now transcript.now letters.now exons.now) }
{
    if rows::call(row) == calls::N_TO_C {
        return ask::txc_n_to_c(
            head,
            genome,
            transcript,
            letters,
            exons,
            rows::number(row, 0),
            rows::number(row, 1),
            rows::number(row, 2),
            rows::number(row, 3),
            is_strict(row),
        );
    }
    ask::txc_n_to_g(
        head,
        genome,
        transcript,
        letters,
        exons,
        rows::number(row, 0),
        rows::number(row, 1),
        rows::number(row, 2),
        rows::number(row, 3),
        is_strict(row),
    )
}

// What is answered to a c. interval in n.
fn c_to_n(
    row: &[u8],
    head: &[i32; HEAD],
    genome: &[u32; MOST_STARTS],
    transcript: &[u32; MOST_STARTS],
    letters: &[u8; MOST_SEGMENTS],
    exons: &[u16; MOST_SEGMENTS],
) -> Answer
    ensures { result ≡ map_c_to_n row.now (lent_at head.now genome.now transcript.now letters.now exons.now) }
{
    ask::txc_c_to_n(
        head,
        genome,
        transcript,
        letters,
        exons,
        rows::number(row, 0),
        rows::number(row, 1),
        has_start_star(row),
        rows::number(row, 2),
        rows::number(row, 3),
        has_end_star(row),
        is_strict(row),
    )
}

// What is answered to a c. interval in g.
fn c_to_g(
    row: &[u8],
    head: &[i32; HEAD],
    genome: &[u32; MOST_STARTS],
    transcript: &[u32; MOST_STARTS],
    letters: &[u8; MOST_SEGMENTS],
    exons: &[u16; MOST_SEGMENTS],
) -> Answer
    ensures { result ≡ map_c_to_g row.now (lent_at head.now genome.now transcript.now letters.now exons.now) }
{
    ask::txc_c_to_g(
        head,
        genome,
        transcript,
        letters,
        exons,
        rows::number(row, 0),
        rows::number(row, 1),
        has_start_star(row),
        rows::number(row, 2),
        rows::number(row, 3),
        has_end_star(row),
        is_strict(row),
    )
}

// What is answered to a c. interval, in n. or in g.
fn from_c(
    row: &[u8],
    head: &[i32; HEAD],
    genome: &[u32; MOST_STARTS],
    transcript: &[u32; MOST_STARTS],
    letters: &[u8; MOST_SEGMENTS],
    exons: &[u16; MOST_SEGMENTS],
) -> Answer
    ensures { result ≡ from_c row.now (lent_at head.now genome.now transcript.now letters.now exons.now) }
{
    if rows::call(row) == calls::C_TO_N {
        return c_to_n(row, head, genome, transcript, letters, exons);
    }
    c_to_g(row, head, genome, transcript, letters, exons)
}

// What is answered to a yes or no question.
fn said(
    row: &[u8],
    head: &[i32; HEAD],
    genome: &[u32; MOST_STARTS],
    transcript: &[u32; MOST_STARTS],
    letters: &[u8; MOST_SEGMENTS],
    exons: &[u16; MOST_SEGMENTS],
) -> Said
    ensures { result ≡ said_to row.now (lent_at head.now genome.now transcript.now letters.now exons.now) }
{
    let start = rows::number(row, 0);
    let end = rows::number(row, 2);
    let missing = missing(row);
    if rows::call(row) == calls::IN_BOUNDS {
        return ask::txc_in_bounds(
            head, genome, transcript, letters, exons, start, end, missing,
        );
    }
    ask::txc_is_coding(head, genome, transcript, letters, exons)
}

// What is answered to a question.
pub(crate) fn answered(
    row: &[u8],
    head: &[i32; HEAD],
    genome: &[u32; MOST_STARTS],
    transcript: &[u32; MOST_STARTS],
    letters: &[u8; MOST_SEGMENTS],
    exons: &[u16; MOST_SEGMENTS],
) -> [i64; ANSWER]
    ensures { result ≡ question_words row.now (lent_at head.now genome.now transcript.now letters.now exons.now) }
{
    let call = rows::call(row);
    if call < calls::N_TO_G {
        return answers::of_answer(from_g(row, head, genome, transcript, letters, exons));
    }
    if call < calls::C_TO_N {
        return answers::of_answer(from_n(row, head, genome, transcript, letters, exons));
    }
    if call < calls::IN_BOUNDS {
        return answers::of_answer(from_c(row, head, genome, transcript, letters, exons));
    }
    answers::of_said(said(row, head, genome, transcript, letters, exons))
}
