// The entries whose answers differ: measured in a pass that only reads, then listed.
ghost use Rattle.std.specs.Prelude.{◌≡◌, ◌+◌, ◌*◌, ◌≤◌, length};
ghost use Rattle.spelling.specs.Write.{written_answer, buffer_after};
ghost use Rattle.holding.specs.Holding.{lent};
ghost use Rattle.card.specs.Putting.{Put};
ghost use Rattle.journal.specs.Layout.{entries_at};
ghost use Rattle.entries.specs.Layout.{entry_size};
ghost use Rattle.entries.specs.Entries.{entry_at};
ghost use Rattle.journal.specs.Logs.{entries_from};
ghost use Rattle.playback.specs.Lines.{lines_of, most_entries};
ghost use Rattle.playback.specs.Replay.{same_answer, differs, differing, roomed, replay_text};

use crate::text;
use entries::ENTRY_SIZE;
use journal::ENTRIES_AT;
use layout::lay;
use layout::lay::Answer;
use refusals::{MOST_SEGMENTS, MOST_STARTS, Refusal};
use transcript::Head;

// How many entries differ, and how many bytes the lines of their indices take.
#[derive(Clone, Copy)]
pub struct Measured {
    pub total: u32,
    pub size: usize,
}

// Whether two answers are the same, refusals and the exons' numbers too.
fn is_same(a: Answer, b: Answer) -> bool
    ensures { result ≡ same_answer a b }
{
    a == b
}

// Whether the entry at a place has another answer than is said now.
fn differs_at<'a>(
    head: Head,
    genome: &'a [u32; MOST_STARTS],
    transcript: &'a [u32; MOST_STARTS],
    letters: &'a [u8; MOST_SEGMENTS],
    exons: &'a [u16; MOST_SEGMENTS],
    log: &'a [u8],
    at: usize,
) -> bool
    requires { at + entry_size ≤ length log.now }
    ensures { result ≡ differs (lent head genome.now transcript.now letters.now exons.now) (entry_at log.now at) }
{
    let entry = entries::entry_at(log, at);
    let said = asking::ask(head, genome, transcript, letters, exons, entry.question);
    !is_same(entry.answer, said)
}

// How many entries differ, and how long their lines are.
fn measure<'a>(
    head: Head,
    genome: &'a [u32; MOST_STARTS],
    transcript: &'a [u32; MOST_STARTS],
    letters: &'a [u8; MOST_SEGMENTS],
    exons: &'a [u16; MOST_SEGMENTS],
    log: &'a [u8],
    count: usize,
) -> Measured
    requires { (count ≤ most_entries) × (entries_at + entry_size * count ≤ length log.now) }
    ensures total_value { result.total ≡ length (differing (lent head genome.now transcript.now letters.now exons.now) (entries_from count log.now entries_at)) }
    ensures size_value { result.size ≡ length (lines_of (differing (lent head genome.now transcript.now letters.now exons.now) (entries_from count log.now entries_at))) }
{
    let mut total = 0;
    let mut size = 0;
    for i in 0..count {
        let at = ENTRIES_AT + ENTRY_SIZE * i;
        let differ = differs_at(head, genome, transcript, letters, exons, log, at);
        total += lay::star_number(differ);
        size += text::len_if(differ, i as u32);
    }
    Measured { total, size }
}

// The lines of the indices, from the front of a buffer that has room for them. Returns the place after them.
fn put_lines<'a>(
    head: Head,
    genome: &'a [u32; MOST_STARTS],
    transcript: &'a [u32; MOST_STARTS],
    letters: &'a [u8; MOST_SEGMENTS],
    exons: &'a [u16; MOST_SEGMENTS],
    log: &'a [u8],
    count: usize,
    buffer: &mut [u8],
) -> usize
    requires count_le_most_entries { (count ≤ most_entries) × (entries_at + entry_size * count ≤ length log.now) }
    requires entries_at_in_bounds { length (lines_of (differing (lent head genome.now transcript.now letters.now exons.now) (entries_from count log.now entries_at))) ≤ length buffer.old }
    ensures { Put buffer.old buffer.new 0 result (lines_of (differing (lent head genome.now transcript.now letters.now exons.now) (entries_from count log.now entries_at))) }
{
    let mut end = 0;
    for index in 0..count {
        let at = ENTRIES_AT + ENTRY_SIZE * index;
        let differ = differs_at(head, genome, transcript, letters, exons, log, at);
        end = text::put_if(buffer, end, differ, index as u32);
    }
    end
}

// The text of a log of that many entries, unless it is too long for the buffer (20).
pub fn list<'a>(
    head: Head,
    genome: &'a [u32; MOST_STARTS],
    transcript: &'a [u32; MOST_STARTS],
    letters: &'a [u8; MOST_SEGMENTS],
    exons: &'a [u16; MOST_SEGMENTS],
    log: &'a [u8],
    count: usize,
    buffer: &mut [u8],
) -> Result<usize, Refusal>
    requires { (count ≤ most_entries) × (entries_at + entry_size * count ≤ length log.now) }
    ensures value { result ≡ written_answer (roomed (length buffer.old) (replay_text (differing (lent head genome.now transcript.now letters.now exons.now) (entries_from count log.now entries_at)))) }
    ensures buffer_after { buffer.new ≡ buffer_after buffer.old (roomed (length buffer.old) (replay_text (differing (lent head genome.now transcript.now letters.now exons.now) (entries_from count log.now entries_at)))) }
{
    let lines = measure(head, genome, transcript, letters, exons, log, count);
    let total = lines.total;
    let size = lines.size + text::line_len(total);
    if buffer.len() < size {
        return Err(Refusal::NoRoom);
    }
    let end = put_lines(head, genome, transcript, letters, exons, log, count, buffer);
    text::put_line(buffer, end, total);
    Ok(size)
}
