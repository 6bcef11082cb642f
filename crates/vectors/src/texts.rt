// Rows about CIGAR text, cards that are written, and alleles: each asks the boundary and says whether it answers as recorded.
ghost use Rattle.std.specs.Prelude.{◌≡◌, length};
ghost use Rattle.spelling.specs.Write.{writing, buffer_after};
ghost use Rattle.card.specs.Writing.{card_writing};
ghost use Rattle.rows.specs.Rows.{recorded_size};
ghost use Rattle.comparing.specs.Changes.{recorded_numbers};
ghost use Rattle.comparing.specs.Texts.{text_agrees, card_agrees, alleles_words, alleles_agree, read_agrees, write_agrees, write_card_agrees, text_row_agrees};

use crate::calls;
use card::RECORDS_AT;
use comparing::buffers::MOST_ROOM;
use comparing::elements::ELEMENT;
use comparing::{answers, buffers, elements};
use refusals::MOST_SEGMENTS;
use rows::ANSWER;

// Whether `txc_read_cigar` answers as recorded.
fn read_cigar(row: &[u8]) -> bool
    ensures { result ≡ read_agrees row.now }
{
    let size = rows::size(row, 0);
    let bytes = rows::payload(row);
    let elements = sequences::rest(bytes, size);
    let number = elements.len() / ELEMENT;
    let mut counts = [0i32; MOST_SEGMENTS];
    let mut letters = [0u8; MOST_SEGMENTS];
    let answer = entry::text::txc_read_cigar(rows::first(bytes, size), &mut counts, &mut letters);
    if MOST_SEGMENTS < number {
        return false;
    }
    rows::expects(row, answers::of_length(answer))
        & (answer.length == number)
        & elements::begin_with(elements, &counts, &letters)
}

// Whether a text is written into a buffer as recorded.
fn writes_cigar(
    row: &[u8],
    counts: &[i32; MOST_SEGMENTS],
    letters: &[u8; MOST_SEGMENTS],
    text: &[u8],
    buffer: &mut [u8],
) -> bool
    ensures value { result ≡ text_agrees row.now (writing (recorded_size row.now 0) counts.now letters.now (length buffer.old)) buffer.old text.now }
    ensures buffer_after { buffer.new ≡ buffer_after buffer.old (writing (recorded_size row.now 0) counts.now letters.now (length buffer.old)) }
{
    let answer = entry::text::txc_write_cigar(rows::size(row, 0), counts, letters, buffer);
    rows::expects(row, answers::of_length(answer)) & buffers::holds(buffer, text)
}

// Whether `txc_write_cigar` answers as recorded.
fn write_cigar(row: &[u8]) -> bool
    ensures { result ≡ write_agrees row.now }
{
    let size = ELEMENT * (rows::bits(row, 1) as usize);
    let lent = rows::size(row, 2);
    let bytes = rows::payload(row);
    let elements = rows::first(bytes, size);
    if MOST_SEGMENTS < elements.len() / ELEMENT {
        return false;
    }
    if MOST_ROOM < lent {
        return false;
    }
    let from = MOST_ROOM - lent;
    let mut counts = [0i32; MOST_SEGMENTS];
    let mut letters = [0u8; MOST_SEGMENTS];
    elements::put_elements(elements, &mut counts, &mut letters);
    let mut buffer = buffers::room();
    writes_cigar(
        row,
        &counts,
        &letters,
        sequences::rest(bytes, size),
        &mut buffer[from..],
    )
}

// Whether a card is written into a buffer as recorded: the records stand after its head, and a refusal leaves the buffer.
fn writes_card(row: &[u8], records: &[u8], buffer: &mut [u8]) -> bool
    ensures value { result ≡ card_agrees row.now (card_writing (recorded_numbers row.now) records.now (length buffer.old)) buffer.old records.now }
    ensures buffer_after { buffer.new ≡ buffer_after buffer.old (card_writing (recorded_numbers row.now) records.now (length buffer.old)) }
{
    let answer = entry::build::txc_write_card(
        rows::number(row, 0),
        rows::flags(row),
        rows::number(row, 1),
        rows::number(row, 2),
        rows::size(row, 3),
        records,
        buffer,
    );
    let same = rows::expects(row, answers::of_length(answer));
    if answer.number == 0 {
        return same & buffers::holds(sequences::rest(buffer, RECORDS_AT), records);
    }
    same & buffers::holds(buffer, b"")
}

// Whether `txc_write_card` answers as recorded.
fn write_card(row: &[u8]) -> bool
    ensures { result ≡ write_card_agrees row.now }
{
    let lent = rows::size(row, 4);
    if MOST_ROOM < lent {
        return false;
    }
    let from = MOST_ROOM - lent;
    let mut buffer = buffers::room();
    writes_card(row, rows::payload(row), &mut buffer[from..])
}

// What is answered to a row about two alleles.
fn of_alleles(call: usize, reference: &[u8], alternative: &[u8]) -> [i64; ANSWER]
    ensures { result ≡ alleles_words call reference.now alternative.now }
{
    if call == calls::TRIM_PREFIX {
        return answers::of_common(entry::text::txc_trim_prefix(reference, alternative));
    }
    if call == calls::TRIM_SUFFIX {
        return answers::of_common(entry::text::txc_trim_suffix(reference, alternative));
    }
    answers::of_part(entry::text::txc_changed(reference, alternative))
}

// Whether a row about two alleles is answered as recorded.
fn alleles_agree(row: &[u8]) -> bool
    ensures { result ≡ alleles_agree row.now }
{
    let size = rows::size(row, 0);
    let bytes = rows::payload(row);
    let reference = rows::first(bytes, size);
    let alternative = sequences::rest(bytes, size);
    rows::expects(row, of_alleles(rows::call(row), reference, alternative))
}

// Whether a row about texts, cards or alleles is answered as recorded.
pub(crate) fn agrees(row: &[u8]) -> bool
    ensures { result ≡ text_row_agrees row.now }
{
    let call = rows::call(row);
    if call == calls::READ_CIGAR {
        return read_cigar(row);
    }
    if call == calls::WRITE_CIGAR {
        return write_cigar(row);
    }
    if call == calls::WRITE_CARD {
        return write_card(row);
    }
    alleles_agree(row)
}
