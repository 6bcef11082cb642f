// A question as one value for the host: asked, recorded in a log, and a log replayed.
ghost use Rattle.std.specs.Prelude.{◌≡◌, length};
ghost use Rattle.spelling.specs.Write.{written_answer, buffer_after};
ghost use Rattle.lending.specs.Lending.{lent_at};
ghost use Rattle.journal.specs.Logs.{appended_of, log_after};
ghost use Rattle.asking.specs.Asking.{asked, recording, recorded_laid};
ghost use Rattle.playback.specs.Replay.{replaying};
ghost use Rattle.results.specs.Results.{counted_laid};

use asking::Recorded;
use layout::lay::{Answer, Length};
use refusals::{MOST_SEGMENTS, MOST_STARTS};
use taking::question::Question;

// What the mapping says that a question names.
pub fn txc_ask(
    head: &[i32; 9],
    genome: &[u32; MOST_STARTS],
    transcript: &[u32; MOST_STARTS],
    letters: &[u8; MOST_SEGMENTS],
    exons: &[u16; MOST_SEGMENTS],
    question: Question,
) -> Answer
    ensures { result ≡ asked (lent_at head.now genome.now transcript.now letters.now exons.now) question }
{
    let known = lending::head_of(head);
    asking::ask(known, genome, transcript, letters, exons, question)
}

// The question with what is said to it, behind the bytes of a log that are in use; and the log's new length.
pub fn txc_record(
    head: &[i32; 9],
    genome: &[u32; MOST_STARTS],
    transcript: &[u32; MOST_STARTS],
    letters: &[u8; MOST_SEGMENTS],
    exons: &[u16; MOST_SEGMENTS],
    question: Question,
    log: &mut [u8],
    log_len: usize,
) -> Recorded
    ensures value { result ≡ recorded_laid (asked (lent_at head.now genome.now transcript.now letters.now exons.now) question) (appended_of log_len (recording (lent_at head.now genome.now transcript.now letters.now exons.now) question log.old log_len)) }
    ensures log_after { log.new ≡ log_after log.old log_len (recording (lent_at head.now genome.now transcript.now letters.now exons.now) question log.old log_len) }
{
    let known = lending::head_of(head);
    asking::record(
        known, genome, transcript, letters, exons, question, log, log_len,
    )
}

// The index of each entry of a log whose answer differs, a line each, then the total.
pub fn txc_replay<'a>(
    head: &'a [i32; 9],
    genome: &'a [u32; MOST_STARTS],
    transcript: &'a [u32; MOST_STARTS],
    letters: &'a [u8; MOST_SEGMENTS],
    exons: &'a [u16; MOST_SEGMENTS],
    log: &'a [u8],
    buffer: &mut [u8],
) -> Length
    ensures value { result ≡ counted_laid (written_answer (replaying (lent_at head.now genome.now transcript.now letters.now exons.now) log.now (length buffer.old))) }
    ensures buffer_after { buffer.new ≡ buffer_after buffer.old (replaying (lent_at head.now genome.now transcript.now letters.now exons.now) log.now (length buffer.old)) }
{
    let known = lending::head_of(head);
    let told = playback::replay(known, genome, transcript, letters, exons, log, buffer);
    results::counted_laid(told)
}
