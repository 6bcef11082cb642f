// Rows that change the lent transcript: they build it, or damage one number of it.
ghost use Rattle.std.specs.Prelude.{◌≡◌};
ghost use Rattle.segments.specs.Tables.{tables};
ghost use Rattle.building.specs.Afterwards.{built_answer, length_answer, tables_after, exons_after};
ghost use Rattle.results.specs.Results.{built_number, built_head};
ghost use Rattle.comparing.specs.Changes.{card_made, records_made, length_made, length_only_words, built_words, head_after, tables_then, exons_then, change_words};

use crate::calls;
use comparing::lent;
use comparing::lent::HEAD;
use refusals::{MOST_SEGMENTS, MOST_STARTS};
use rows::ANSWER;

// What `txc_build_card` answers.
fn build_card(
    row: &[u8],
    head: &mut [i32; HEAD],
    genome: &mut [u32; MOST_STARTS],
    transcript: &mut [u32; MOST_STARTS],
    letters: &mut [u8; MOST_SEGMENTS],
    exons: &mut [u16; MOST_SEGMENTS],
) -> [i64; ANSWER]
    ensures value { result ≡ built_words row.now (built_answer (card_made row.now)) head.new (tables genome.new transcript.new letters.new) }
    ensures head_after { head.new ≡ built_head (built_answer (card_made row.now)) head.old }
    ensures letters_after { tables genome.new transcript.new letters.new ≡ tables_after (card_made row.now) (tables genome.old transcript.old letters.old) }
    ensures exons_after { exons.new ≡ exons_after (card_made row.now) exons.old }
{
    let card = rows::payload(row);
    let number = entry::build::txc_build_card(card, head, genome, transcript, letters, exons);
    lent::of_records(row, number, head, genome, transcript)
}

// What `txc_build` answers.
fn build(
    row: &[u8],
    head: &mut [i32; HEAD],
    genome: &mut [u32; MOST_STARTS],
    transcript: &mut [u32; MOST_STARTS],
    letters: &mut [u8; MOST_SEGMENTS],
    exons: &mut [u16; MOST_SEGMENTS],
) -> [i64; ANSWER]
    ensures value { result ≡ built_words row.now (built_answer (records_made row.now)) head.new (tables genome.new transcript.new letters.new) }
    ensures head_after { head.new ≡ built_head (built_answer (records_made row.now)) head.old }
    ensures letters_after { tables genome.new transcript.new letters.new ≡ tables_after (records_made row.now) (tables genome.old transcript.old letters.old) }
    ensures exons_after { exons.new ≡ exons_after (records_made row.now) exons.old }
{
    let number = entry::build::txc_build(
        rows::number(row, 0),
        rows::flags(row),
        rows::number(row, 1),
        rows::number(row, 2),
        rows::size(row, 3),
        rows::payload(row),
        head,
        genome,
        transcript,
        letters,
        exons,
    );
    lent::of_records(row, number, head, genome, transcript)
}

// What `txc_build_length` answers.
fn build_length(row: &[u8], head: &mut [i32; HEAD]) -> [i64; ANSWER]
    ensures value { result ≡ length_only_words (built_number (length_answer (length_made row.now))) head.new }
    ensures head_after { head.new ≡ built_head (length_answer (length_made row.now)) head.old }
{
    let number = entry::build::txc_build_length(
        rows::number(row, 0),
        rows::flags(row),
        rows::number(row, 1),
        rows::number(row, 2),
        head,
    );
    lent::of_length_only(number, head)
}

// What is answered to a row that changes the lent transcript.
pub(crate) fn answered(
    row: &[u8],
    head: &mut [i32; HEAD],
    genome: &mut [u32; MOST_STARTS],
    transcript: &mut [u32; MOST_STARTS],
    letters: &mut [u8; MOST_SEGMENTS],
    exons: &mut [u16; MOST_SEGMENTS],
) -> [i64; ANSWER]
    ensures value { result ≡ change_words row.now head.new (tables genome.new transcript.new letters.new) }
    ensures head_after { head.new ≡ head_after row.now head.old }
    ensures letters_after { tables genome.new transcript.new letters.new ≡ tables_then row.now (tables genome.old transcript.old letters.old) }
    ensures exons_after { exons.new ≡ exons_then row.now exons.old }
{
    let call = rows::call(row);
    if call == calls::BUILD_CARD {
        return build_card(row, head, genome, transcript, letters, exons);
    }
    if call == calls::BUILD {
        return build(row, head, genome, transcript, letters, exons);
    }
    if call == calls::BUILD_LENGTH {
        return build_length(row, head);
    }
    lent::damage(row, head, genome, transcript, letters, exons);
    lent::of_damage(row)
}
