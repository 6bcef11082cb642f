// Rows about CIGAR words of BAM: each asks the boundary and says whether it answers as recorded.
ghost use Rattle.std.specs.Prelude.{◌≡◌, length};
ghost use Rattle.cigar.specs.Read.{counts_after, letters_after};
ghost use Rattle.spelling.specs.Write.{buffer_after};
ghost use Rattle.words.specs.Words.{read_words, write_words};
ghost use Rattle.rows.specs.Rows.{recorded_size};
ghost use Rattle.comparing.specs.Bam.{words_put, elements_agree, words_agree, read_bam_agrees, write_bam_agrees, bam_row_agrees};

use crate::calls;
use comparing::elements::ELEMENT;
use comparing::slices::{MOST_WORDS, WORD};
use comparing::{answers, elements, slices};
use refusals::MOST_SEGMENTS;

// Whether the words laid out, put into one slice, are read into two others as recorded.
fn reads(
    row: &[u8],
    layout: &[u8],
    words: &mut [u32],
    elements: &[u8],
    counts: &mut [i32],
    letters: &mut [u8],
) -> bool
    ensures value { result ≡ elements_agree row.now (read_words (words_put layout.now words.old (length words.old)) (length counts.old) (length letters.old)) counts.old letters.old elements.now }
    ensures words_after { words.new ≡ words_put layout.now words.old (length words.old) }
    ensures counts_after { counts.new ≡ counts_after counts.old (read_words (words_put layout.now words.old (length words.old)) (length counts.old) (length letters.old)) }
    ensures letters_after { letters.new ≡ letters_after letters.old (read_words (words_put layout.now words.old (length words.old)) (length counts.old) (length letters.old)) }
{
    slices::put_words(layout, words);
    let answer = entry::bam::txc_read_bam(words, counts, letters);
    rows::expects(row, answers::of_length(answer))
        & slices::holds_counts(counts, elements)
        & slices::holds_letters(letters, elements)
}

// Whether `txc_read_bam` answers as recorded.
fn read_bam(row: &[u8]) -> bool
    ensures { result ≡ read_bam_agrees row.now }
{
    let number = rows::size(row, 0);
    let counts_len = rows::size(row, 1);
    let letters_len = rows::size(row, 2);
    if MOST_WORDS < number {
        return false;
    }
    if MOST_WORDS < counts_len {
        return false;
    }
    if MOST_WORDS < letters_len {
        return false;
    }
    let size = WORD * number;
    let bytes = rows::payload(row);
    let mut words = slices::word_room();
    let mut counts = slices::count_room();
    let mut letters = slices::letter_room();
    let words_from = MOST_WORDS - number;
    let counts_from = MOST_WORDS - counts_len;
    let letters_from = MOST_WORDS - letters_len;
    reads(
        row,
        rows::first(bytes, size),
        &mut words[words_from..],
        sequences::rest(bytes, size),
        &mut counts[counts_from..],
        &mut letters[letters_from..],
    )
}

// Whether elements are written into a slice as recorded.
fn writes(
    row: &[u8],
    counts: &[i32; MOST_SEGMENTS],
    letters: &[u8; MOST_SEGMENTS],
    layout: &[u8],
    words: &mut [u32],
) -> bool
    ensures value { result ≡ words_agree row.now (write_words (recorded_size row.now 0) counts.now letters.now (length words.old)) words.old layout.now }
    ensures words_after { words.new ≡ buffer_after words.old (write_words (recorded_size row.now 0) counts.now letters.now (length words.old)) }
{
    let answer = entry::bam::txc_write_bam(rows::size(row, 0), counts, letters, words);
    rows::expects(row, answers::of_length(answer)) & slices::holds_words(words, layout)
}

// Whether `txc_write_bam` answers as recorded.
fn write_bam(row: &[u8]) -> bool
    ensures { result ≡ write_bam_agrees row.now }
{
    let size = ELEMENT * (rows::bits(row, 1) as usize);
    let lent = rows::size(row, 2);
    let bytes = rows::payload(row);
    let elements = rows::first(bytes, size);
    if MOST_SEGMENTS < elements.len() / ELEMENT {
        return false;
    }
    if MOST_WORDS < lent {
        return false;
    }
    let from = MOST_WORDS - lent;
    let mut counts = [0i32; MOST_SEGMENTS];
    let mut letters = [0u8; MOST_SEGMENTS];
    elements::put_elements(elements, &mut counts, &mut letters);
    let mut words = slices::word_room();
    writes(
        row,
        &counts,
        &letters,
        sequences::rest(bytes, size),
        &mut words[from..],
    )
}

// Whether a row about words is answered as recorded.
pub(crate) fn agrees(row: &[u8]) -> bool
    ensures { result ≡ bam_row_agrees row.now }
{
    let call = rows::call(row);
    if call == calls::READ_BAM {
        return read_bam(row);
    }
    if call == calls::WRITE_BAM {
        return write_bam(row);
    }
    false
}
