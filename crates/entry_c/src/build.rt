// Building for the host, and a card that is written into a lent buffer.
ghost use Rattle.std.specs.Prelude.{◌≡◌, length};
ghost use Rattle.spelling.specs.Write.{written_answer, buffer_after};
ghost use Rattle.segments.specs.Tables.{tables};
ghost use Rattle.judging.specs.Input.{numbers_of};
ghost use Rattle.judging.specs.Judging.{judge, judge_length};
ghost use Rattle.building.specs.Afterwards.{built_answer, length_answer, tables_after, exons_after};
ghost use Rattle.card.specs.Writing.{card_writing, judge_card};
ghost use Rattle.results.specs.Results.{built_number, built_head, counted_laid};

use layout::lay::Length;
use refusals::{MOST_SEGMENTS, MOST_STARTS};

// A transcript from records that are laid out as in a card: 0, or a refusal's number.
#[unsafe(no_mangle)]
pub extern "C" fn txc_build(
    strand: i32,
    cds: u32,
    cds_start: i32,
    cds_end: i32,
    count: usize,
    records: &[u8],
    head: &mut [i32; 9],
    genome: &mut [u32; MOST_STARTS],
    transcript: &mut [u32; MOST_STARTS],
    letters: &mut [u8; MOST_SEGMENTS],
    exons: &mut [u16; MOST_SEGMENTS],
) -> u32
    ensures value { result ≡ built_number (built_answer (judge (numbers_of strand cds cds_start cds_end count) records.now)) }
    ensures head_after { head.new ≡ built_head (built_answer (judge (numbers_of strand cds cds_start cds_end count) records.now)) head.old }
    ensures letters_after { tables genome.new transcript.new letters.new ≡ tables_after (judge (numbers_of strand cds cds_start cds_end count) records.now) (tables genome.old transcript.old letters.old) }
    ensures exons_after { exons.new ≡ exons_after (judge (numbers_of strand cds cds_start cds_end count) records.now) exons.old }
{
    entry::build::txc_build(
        strand, cds, cds_start, cds_end, count, records, head, genome, transcript, letters, exons,
    )
}

// A transcript from a card: 0, or a refusal's number.
#[unsafe(no_mangle)]
pub extern "C" fn txc_build_card(
    card: &[u8],
    head: &mut [i32; 9],
    genome: &mut [u32; MOST_STARTS],
    transcript: &mut [u32; MOST_STARTS],
    letters: &mut [u8; MOST_SEGMENTS],
    exons: &mut [u16; MOST_SEGMENTS],
) -> u32
    ensures value { result ≡ built_number (built_answer (judge_card card.now)) }
    ensures head_after { head.new ≡ built_head (built_answer (judge_card card.now)) head.old }
    ensures letters_after { tables genome.new transcript.new letters.new ≡ tables_after (judge_card card.now) (tables genome.old transcript.old letters.old) }
    ensures exons_after { exons.new ≡ exons_after (judge_card card.now) exons.old }
{
    entry::build::txc_build_card(card, head, genome, transcript, letters, exons)
}

// A transcript from its length alone: 0, or a refusal's number.
#[unsafe(no_mangle)]
pub extern "C" fn txc_build_length(
    length: i32,
    cds: u32,
    cds_start: i32,
    cds_end: i32,
    head: &mut [i32; 9],
) -> u32
    ensures value { result ≡ built_number (length_answer (judge_length length cds cds_start cds_end)) }
    ensures head_after { head.new ≡ built_head (length_answer (judge_length length cds cds_start cds_end)) head.old }
{
    entry::build::txc_build_length(length, cds, cds_start, cds_end, head)
}

// How many bytes the card of building's input has, at the front of the buffer.
#[unsafe(no_mangle)]
pub extern "C" fn txc_write_card(
    strand: i32,
    cds: u32,
    cds_start: i32,
    cds_end: i32,
    count: usize,
    records: &[u8],
    buffer: &mut [u8],
) -> Length
    ensures value { result ≡ counted_laid (written_answer (card_writing (numbers_of strand cds cds_start cds_end count) records.now (length buffer.old))) }
    ensures buffer_after { buffer.new ≡ buffer_after buffer.old (card_writing (numbers_of strand cds cds_start cds_end count) records.now (length buffer.old)) }
{
    entry::build::txc_write_card(strand, cds, cds_start, cds_end, count, records, buffer)
}
