// A sorted worklist: the g. positions of a list are answered as g. to n. answers one base in strict mode, in one walk along the segments that never steps back.
#![tactic(auto)]

ghost use Rattle.std.specs.Prelude.{◌≡◌};
ghost use Rattle.holding.specs.Holding.{lent};
ghost use Rattle.worklist.specs.Worklist.{listed, steps_laid, slots_after};
ghost use Rattle.worklist.specs.Walking.{along};

use knowing::Known;
use layout::lay::Answer;
use refusals::{MOST_SEGMENTS, MOST_STARTS, Refusal};
use spots::Alignment;
use transcript::Head;

pub mod order;
pub mod walk;

// A g. position, and room for its answer.
#[repr(C)]
#[derive(Clone, Copy)]
pub struct Slot {
    pub position: i32,
    pub answer: Answer,
}

// How many segments were stepped over, or the number of the refusal.
#[repr(C)]
#[derive(Clone, Copy)]
pub struct Steps {
    pub number: u32,
    pub steps: u32,
}

// How the transcript lies that a list is walked along, or why it is not walked: 23, 18, then 33.
fn along<'a>(
    head: Head,
    genome: &'a [u32; MOST_STARTS],
    transcript: &'a [u32; MOST_STARTS],
    letters: &'a [u8; MOST_SEGMENTS],
    exons: &'a [u16; MOST_SEGMENTS],
    rises: bool,
) -> Result<Alignment, Refusal>
    ensures { result ≡ along (lent head genome.now transcript.now letters.now exons.now) rises }
{
    match knowing::known_of(head, genome, transcript, letters, exons)? {
        Known::Aligned(_, at) => { if rises { Ok(at) } else { Err(Refusal::Falling) } }
        Known::OfLength(_, _) => Err(Refusal::NoGenome),
    }
}

// A refusal of the whole list.
fn refused(k: Refusal) -> Steps
    ensures { result ≡ steps_laid (Err k) }
{
    Steps {
        number: u32::from(k.number()),
        steps: 0,
    }
}

// A list's slots, each answered: 23, 18, then 33, and nothing is written before all three were asked.
pub fn answer_list<'a>(
    head: Head,
    genome: &'a [u32; MOST_STARTS],
    transcript: &'a [u32; MOST_STARTS],
    letters: &'a [u8; MOST_SEGMENTS],
    exons: &'a [u16; MOST_SEGMENTS],
    slots: &mut [Slot],
) -> Steps
    ensures { (result ≡ steps_laid (listed (lent head genome.now transcript.now letters.now exons.now) slots.old)) × (slots.new ≡ slots_after (lent head genome.now transcript.now letters.now exons.now) slots.old) }
{
    let rises = order::never_falls(slots);
    match along(head, genome, transcript, letters, exons, rises) {
        Ok(at) => walk::fill(at, genome, transcript, letters, exons, slots),
        Err(k) => refused(k),
    }
}
