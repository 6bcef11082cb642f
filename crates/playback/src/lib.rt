// A log replayed: which of its questions a transcript answers otherwise than is recorded.
#![tactic(auto)]

ghost use Rattle.std.specs.Prelude.{◌≡◌, length};
ghost use Rattle.spelling.specs.Write.{written_answer, buffer_after};
ghost use Rattle.holding.specs.Holding.{lent};
ghost use Rattle.playback.specs.Replay.{replaying};

use refusals::{MOST_SEGMENTS, MOST_STARTS, Refusal};
use transcript::Head;

pub mod differing;
pub mod text;

// The index of each entry whose answer differs, a line each, then the total, at the front of a lent buffer: 23, 3, 35, 20, and nothing is written
// before all four were asked.
pub fn replay<'a>(
    head: Head,
    genome: &'a [u32; MOST_STARTS],
    transcript: &'a [u32; MOST_STARTS],
    letters: &'a [u8; MOST_SEGMENTS],
    exons: &'a [u16; MOST_SEGMENTS],
    log: &'a [u8],
    buffer: &mut [u8],
) -> Result<usize, Refusal>
    ensures value { result ≡ written_answer (replaying (lent head genome.now transcript.now letters.now exons.now) log.now (length buffer.old)) }
    ensures buffer_after { buffer.new ≡ buffer_after buffer.old (replaying (lent head genome.now transcript.now letters.now exons.now) log.now (length buffer.old)) }
{
    if !knowing::is_held(head, genome, transcript, letters, exons) {
        return Err(Refusal::NotTogether);
    }
    let count = journal::read_log(log)?;
    differing::list(head, genome, transcript, letters, exons, log, count, buffer)
}
