// The walk: slots are answered from the first to the last, along the segments from the first on, and it never steps back.
ghost use Rattle.std.specs.Prelude.{◌≡◌, true, map, ◌≤◌};
ghost use Rattle.refusals.specs.Numbers.{most_segments};
ghost use Rattle.segments.specs.Tables.{tables};
ghost use Rattle.spots.specs.Aligned.{aligned_by, Aligns, InSegment};
ghost use Rattle.worklist.specs.Worklist.{positions_of, never_falls, steps_of, steps_laid};
ghost use Rattle.worklist.specs.Walking.{track_by, next_index, Ready, answered_by};

use crate::{Slot, Steps};
use layout::lay;
use refusals::{MOST_SEGMENTS, MOST_STARTS};
use spots::Alignment;

// Where the walk stands after a slot: on the slot's segment, or where it stood if the slot's place lies outside.
fn step(at: Alignment, genome: &[u32; MOST_STARTS], index: usize, s: Slot) -> usize
    requires { (at.count ≤ most_segments) × Ready (track_by at genome.now) index s.position }
    ensures { result ≡ next_index (track_by at genome.now) index s.position }
{
    let p = spots::place_of_g(at.first, s.position);
    if spots::is_inside(true, spots::last(genome, at.count), p) {
        return finding::find_from(genome, at.count, index, p.0);
    }
    index
}

// The slot with its answer, by the segment where the walk stands.
fn answer_slot<'a>(
    at: Alignment,
    genome: &'a [u32; MOST_STARTS],
    transcript: &'a [u32; MOST_STARTS],
    letters: &'a [u8; MOST_SEGMENTS],
    exons: &'a [u16; MOST_SEGMENTS],
    index: usize,
    s: Slot,
) -> Slot
    requires { Aligns at (tables genome.now transcript.now letters.now) × InSegment at genome.now index s.position }
    ensures { result ≡ answered_by (aligned_by at (tables genome.now transcript.now letters.now) exons.now) s }
{
    let position = s.position;
    let n = lone::one_to_n_at(at, genome, transcript, letters, exons, index, position);
    let answer = lay::lay(n);
    Slot { position, answer }
}

// How far the walk went.
fn told(index: usize) -> Steps
    requires { index ≤ most_segments }
    ensures { result ≡ steps_laid (Ok index) }
{
    Steps {
        number: 0,
        steps: index as u32,
    }
}

// Each slot is answered, in one pass.
pub fn fill<'a>(
    at: Alignment,
    genome: &'a [u32; MOST_STARTS],
    transcript: &'a [u32; MOST_STARTS],
    letters: &'a [u8; MOST_SEGMENTS],
    exons: &'a [u16; MOST_SEGMENTS],
    slots: &mut [Slot],
) -> Steps
    requires { Aligns at (tables genome.now transcript.now letters.now) × (never_falls (positions_of slots.old) ≡ true) }
    ensures { (result ≡ steps_laid (Ok (steps_of (track_by at genome.now) (positions_of slots.old)))) × (slots.new ≡ map (answered_by (aligned_by at (tables genome.now transcript.now letters.now) exons.now)) slots.old) }
{
    let mut index = 0;
    for slot in slots.iter_mut() {
        index = step(at, genome, index, *slot);
        *slot = answer_slot(at, genome, transcript, letters, exons, index, *slot);
    }
    told(index)
}
