// A card: building's input as bytes. Reading, and then building; and writing into a lent buffer.
#![tactic(auto)]

ghost use Rattle.std.specs.Prelude.{◌≡◌, ◌+◌, ◌≤◌, true, [], ◌∷◌, ◌++◌, eqb, length};
ghost use Rattle.std.proofs.lemmas.List.Edits.{sets};
ghost use Rattle.refusals.specs.Numbers.{most_records, most_card};
ghost use Rattle.spelling.specs.Write.{fitted, written_answer, buffer_after};
ghost use Rattle.records.specs.Records.{exactly};
ghost use Rattle.transcript.specs.Heads.{strand_of};
ghost use Rattle.segments.specs.Tables.{tables};
ghost use Rattle.building.specs.Afterwards.{built_answer, tables_after, exons_after};
ghost use Rattle.card.specs.Layout.{mark, version, start_at, records_at};
ghost use Rattle.fields.specs.Fields.{bytes16};
ghost use Rattle.card.specs.Card.{strand_byte, given_bit, cds_byte, header_text, card_text, is_marked, numbers_in, are_plain, is_card, read_card};
ghost use Rattle.judging.specs.Input.{input_of};
ghost use Rattle.card.specs.Writing.{judge_card, card_writing};

use refusals::{MOST_CARD, MOST_SEGMENTS, MOST_STARTS, Refusal};
use transcript::{BOTH_BITS, Head, Numbers};

const VERSION: u32 = 1;

// Where a card's numbers stand: the version, the strand and CDS bytes, the CDS start and end, the record count; and its records.
const VERSION_AT: usize = 3;

const STRAND_AT: usize = 5;

const CDS_AT: usize = 6;

const START_AT: usize = 7;

const END_AT: usize = 11;

const COUNT_AT: usize = 15;

pub const RECORDS_AT: usize = 17;

// Writes the mark at the front.
pub fn put_mark(buffer: &mut [u8])
    requires { 3 ≤ length buffer.old }
    ensures { buffer.new ≡ sets buffer.old 0 mark }
{
    buffer[0] = b'T';
    buffer[1] = b'X';
    buffer[2] = b'C';
}

// Whether bytes are long enough for a version and begin with the mark.
fn is_marked(card: &[u8]) -> bool
    ensures { result ≡ is_marked card.now }
{
    STRAND_AT <= card.len() && card.starts_with(b"TXC")
}

// The strand of a strand byte.
fn strand_of(b: u8) -> i32
    ensures { result ≡ strand_of (eqb b 0) }
{
    if b == 0 { 1 } else { -1 }
}

// The numbers before the records.
fn read_numbers(card: &[u8]) -> Numbers
    requires { records_at ≤ length card.now }
    ensures { result ≡ numbers_in card.now }
{
    let strand = strand_of(card[STRAND_AT]);
    let cds = card[CDS_AT] as u32;
    let start = fields::i32_at(card, START_AT);
    let end = fields::i32_at(card, END_AT);
    let count = fields::u16_at(card, COUNT_AT) as usize;
    Numbers {
        strand,
        cds,
        start,
        end,
        count,
    }
}

// Whether the number of a CDS bound that is not given is 0.
fn are_plain(cds: u32, start: i32, end: i32) -> bool
    ensures { result ≡ are_plain cds start end }
{
    let from = transcript::number_of(transcript::start_of(cds, start));
    let to = transcript::number_of(transcript::end_of(cds, end));
    from == start && to == end
}

// Whether bytes with the mark and the version are a card.
fn is_card(card: &[u8]) -> bool
    ensures { result ≡ is_card card.now }
{
    if card.len() < RECORDS_AT {
        return false;
    }
    if 1 < card[STRAND_AT] {
        return false;
    }
    let n = read_numbers(card);
    if BOTH_BITS < n.cds {
        return false;
    }
    if are_plain(n.cds, n.start, n.end) {
        return records::are_records(n.count, &card[RECORDS_AT..]);
    }
    false
}

// The numbers of the input that a card holds, whose records are its bytes from RECORDS_AT on, or a refusal: 3, 21 or 22.
pub fn read_card(card: &[u8]) -> Result<Numbers, Refusal>
    ensures { result ≡ read_card card.now }
{
    if MOST_CARD < card.len() {
        return Err(Refusal::TooMuch);
    }
    if !is_marked(card) {
        return Err(Refusal::NoCard);
    }
    if fields::u16_at(card, VERSION_AT) != VERSION {
        return Err(Refusal::BadVersion);
    }
    if is_card(card) {
        Ok(read_numbers(card))
    } else {
        Err(Refusal::NoCard)
    }
}

// The transcript that a card's input makes, or a refusal, which leaves the tables as they are.
pub fn build_card(
    card: &[u8],
    genome: &mut [u32; MOST_STARTS],
    transcript: &mut [u32; MOST_STARTS],
    letters: &mut [u8; MOST_SEGMENTS],
    exons: &mut [u16; MOST_SEGMENTS],
) -> Result<Head, Refusal>
    ensures value { result ≡ built_answer (judge_card card.now) }
    ensures letters_after { tables genome.new transcript.new letters.new ≡ tables_after (judge_card card.now) (tables genome.old transcript.old letters.old) }
    ensures exons_after { exons.new ≡ exons_after (judge_card card.now) exons.old }
{
    let n = read_card(card)?;
    building::build(n, &card[RECORDS_AT..], genome, transcript, letters, exons)
}

// Writes bytes from a place on.
fn put_bytes(buffer: &mut [u8], at: usize, bytes: &[u8])
    requires { at + length bytes.now ≤ length buffer.old }
    ensures { buffer.new ≡ sets buffer.old at bytes.now }
{
    // A loop, since a slice's copy is a call of memmove, which the archive needs nowhere else.
    for i in 0..bytes.len() {
        buffer[at + i] = bytes[i];
    }
}

// The byte of a strand.
fn strand_byte(strand: i64) -> u8
    ensures { result ≡ strand_byte strand }
{
    if strand == 1 { 0 } else { 1 }
}

// Whether a bound is given, as a bit.
fn given_bit(bound: Option<i32>) -> u8
    ensures { (result ≡ given_bit bound) × (result ≤ 1) }
{
    u8::from(bound.is_some())
}

// The CDS byte.
fn cds_byte(start: Option<i32>, end: Option<i32>) -> u8
    ensures { result ≡ cds_byte start end }
{
    given_bit(start) + 2 * given_bit(end)
}

// Writes the mark, the version, and the strand and CDS bytes.
fn put_front(buffer: &mut [u8], strand: u8, cds: u8)
    requires { start_at ≤ length buffer.old }
    ensures { buffer.new ≡ sets buffer.old 0 (mark ++ bytes16 version ++ strand ∷ cds ∷ []) }
{
    put_mark(buffer);
    fields::put_u16(buffer, VERSION_AT, VERSION);
    buffer[STRAND_AT] = strand;
    buffer[CDS_AT] = cds;
}

// Writes what stands before the records.
fn put_header(buffer: &mut [u8], strand: i32, start: Option<i32>, end: Option<i32>, count: u32)
    requires { records_at ≤ length buffer.old }
    ensures { buffer.new ≡ sets buffer.old 0 (header_text strand start end count) }
{
    put_front(buffer, strand_byte(strand as i64), cds_byte(start, end));
    fields::put_i32(buffer, START_AT, transcript::number_of(start));
    fields::put_i32(buffer, END_AT, transcript::number_of(end));
    fields::put_u16(buffer, COUNT_AT, count);
}

// The card of records that stand in bytes, unless it is too large (3) or too long for the buffer (20).
fn write_taken(numbers: Numbers, records: &[u8], buffer: &mut [u8]) -> Result<usize, Refusal>
    requires { (numbers.count ≤ most_records) × (exactly numbers.count records.now 0 ≡ true) }
    ensures value { result ≡ written_answer (fitted most_card (length buffer.old) (card_text (input_of numbers records.now))) }
    ensures buffer_after { buffer.new ≡ buffer_after buffer.old (fitted most_card (length buffer.old) (card_text (input_of numbers records.now))) }
{
    let size = RECORDS_AT + records.len();
    if MOST_CARD < size {
        return Err(Refusal::TooMuch);
    }
    if buffer.len() < size {
        return Err(Refusal::NoRoom);
    }
    let from = transcript::start_of(numbers.cds, numbers.start);
    let to = transcript::end_of(numbers.cds, numbers.end);
    put_header(buffer, numbers.strand, from, to, numbers.count as u32);
    put_bytes(buffer, RECORDS_AT, records);
    Ok(size)
}

// The card of building's input at the front of a lent buffer, or a refusal, which leaves the buffer as it is.
pub fn write_card(numbers: Numbers, records: &[u8], buffer: &mut [u8]) -> Result<usize, Refusal>
    ensures value { result ≡ written_answer (card_writing numbers records.now (length buffer.old)) }
    ensures buffer_after { buffer.new ≡ buffer_after buffer.old (card_writing numbers records.now (length buffer.old)) }
{
    judging::judge(numbers, records)?;
    write_taken(numbers, records, buffer)
}
