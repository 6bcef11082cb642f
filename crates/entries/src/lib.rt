// An entry of a log as bytes, read and written where it lies.
#![tactic(auto)]

ghost use Rattle.std.specs.Prelude.{◌≡◌, ◌+◌, ◌≤◌, length};
ghost use Rattle.std.proofs.lemmas.List.Edits.{sets};
ghost use Rattle.entries.specs.Layout.{entry_size, question_size, answer_size};
ghost use Rattle.entries.specs.Entries.{four_bytes, four_numbers, question_bytes, answer_bytes, entry_bytes, question_at, answer_at, entry_at};

use layout::lay::{Answer, Position};
use taking::question::Question;

// The bytes of an entry: a question's, and behind them an answer's.
pub const ENTRY_SIZE: usize = 44;

const QUESTION_SIZE: usize = 20;

// Where the numbers stand, counted from the first byte of a question or an answer. Of either the numbers of its positions:
const START_AT: usize = 4;

const START_OFFSET_AT: usize = 8;

const END_AT: usize = 12;

const END_OFFSET_AT: usize = 16;

// Of a question, behind the kind:
const STRICT_AT: usize = 1;

const START_MARKS_AT: usize = 2;

const END_MARKS_AT: usize = 3;

// Of an answer, behind the tag:
const REFUSAL_AT: usize = 1;

const START_STAR_AT: usize = 2;

const END_STAR_AT: usize = 3;

const START_EXON_AT: usize = 20;

const END_EXON_AT: usize = 22;

// A question of one of the six mappings, and its answer or refusal as the boundary lays it out.
#[derive(Clone, Copy)]
pub struct Entry {
    pub question: Question,
    pub answer: Answer,
}

// The question at a place.
fn question_at(s: &[u8], at: usize) -> Question
    requires { at + question_size ≤ length s.now }
    ensures { result ≡ question_at s.now at }
{
    let kind = fields::u8_at(s, at);
    let strict = fields::u8_at(s, at + STRICT_AT);
    let start_marks = fields::u8_at(s, at + START_MARKS_AT);
    let end_marks = fields::u8_at(s, at + END_MARKS_AT);
    let start = fields::i32_at(s, at + START_AT);
    let start_offset = fields::i32_at(s, at + START_OFFSET_AT);
    let end = fields::i32_at(s, at + END_AT);
    let end_offset = fields::i32_at(s, at + END_OFFSET_AT);
    Question {
        kind,
        strict,
        start_marks,
        end_marks,
        start,
        start_offset,
        end,
        end_offset,
    }
}

// The answer at a place.
fn answer_at(s: &[u8], at: usize) -> Answer
    requires { at + answer_size ≤ length s.now }
    ensures { result ≡ answer_at s.now at }
{
    let mark = fields::u8_at(s, at);
    let number = fields::u8_at(s, at + REFUSAL_AT);
    let start = Position {
        base: fields::i32_at(s, at + START_AT),
        offset: fields::i32_at(s, at + START_OFFSET_AT),
        star: fields::u8_at(s, at + START_STAR_AT),
        exon: fields::u16_at(s, at + START_EXON_AT),
    };
    let end = Position {
        base: fields::i32_at(s, at + END_AT),
        offset: fields::i32_at(s, at + END_OFFSET_AT),
        star: fields::u8_at(s, at + END_STAR_AT),
        exon: fields::u16_at(s, at + END_EXON_AT),
    };
    Answer {
        number,
        mark,
        start,
        end,
    }
}

// The entry at a place.
pub fn entry_at(log: &[u8], at: usize) -> Entry
    requires { at + entry_size ≤ length log.now }
    ensures { result ≡ entry_at log.now at }
{
    let question = question_at(log, at);
    let answer = answer_at(log, at + QUESTION_SIZE);
    Entry { question, answer }
}

// Writes four numbers from a place on, a byte each.
fn put_bytes(buffer: &mut [u8], at: usize, a: u32, b: u32, c: u32, d: u32)
    requires { at + 4 ≤ length buffer.old }
    ensures { buffer.new ≡ sets buffer.old at (four_bytes a b c d) }
{
    fields::put_u8(buffer, at, a);
    fields::put_u8(buffer, at + 1, b);
    fields::put_u8(buffer, at + 2, c);
    fields::put_u8(buffer, at + 3, d);
}

// Writes four signed numbers from a place on.
fn put_numbers(buffer: &mut [u8], at: usize, a: i32, b: i32, c: i32, d: i32)
    requires { at + 16 ≤ length buffer.old }
    ensures { buffer.new ≡ sets buffer.old at (four_numbers a b c d) }
{
    fields::put_i32(buffer, at, a);
    fields::put_i32(buffer, at + 4, b);
    fields::put_i32(buffer, at + 8, c);
    fields::put_i32(buffer, at + 12, d);
}

// Writes a question from a place on.
fn put_question(buffer: &mut [u8], at: usize, q: Question)
    requires { at + question_size ≤ length buffer.old }
    ensures { buffer.new ≡ sets buffer.old at (question_bytes q) }
{
    put_bytes(buffer, at, q.kind, q.strict, q.start_marks, q.end_marks);
    put_numbers(
        buffer,
        at + START_AT,
        q.start,
        q.start_offset,
        q.end,
        q.end_offset,
    );
}

// Writes an answer from a place on.
fn put_answer(buffer: &mut [u8], at: usize, a: Answer)
    requires { at + answer_size ≤ length buffer.old }
    ensures { buffer.new ≡ sets buffer.old at (answer_bytes a) }
{
    let start = a.start;
    let end = a.end;
    put_bytes(buffer, at, a.mark, a.number, start.star, end.star);
    put_numbers(
        buffer,
        at + START_AT,
        start.base,
        start.offset,
        end.base,
        end.offset,
    );
    fields::put_u16(buffer, at + START_EXON_AT, start.exon);
    fields::put_u16(buffer, at + END_EXON_AT, end.exon);
}

// Writes an entry from a place on, and no other byte.
pub fn put_entry(buffer: &mut [u8], at: usize, entry: Entry)
    requires { at + entry_size ≤ length buffer.old }
    ensures { buffer.new ≡ sets buffer.old at (entry_bytes entry) }
{
    put_question(buffer, at, entry.question);
    put_answer(buffer, at + QUESTION_SIZE, entry.answer);
}
