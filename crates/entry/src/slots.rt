// A sorted worklist for the host.
ghost use Rattle.std.specs.Prelude.{◌≡◌};
ghost use Rattle.lending.specs.Lending.{lent_at};
ghost use Rattle.entry.specs.Told.{told_steps, told_slots};

use refusals::{MOST_SEGMENTS, MOST_STARTS};
use worklist::{Slot, Steps};

pub fn txc_worklist<'a>(
    head: &'a [i32; 9],
    genome: &'a [u32; MOST_STARTS],
    transcript: &'a [u32; MOST_STARTS],
    letters: &'a [u8; MOST_SEGMENTS],
    exons: &'a [u16; MOST_SEGMENTS],
    slots: &mut [Slot],
) -> Steps
    ensures { (result ≡ told_steps (lent_at head.now genome.now transcript.now letters.now exons.now) slots.old) × (slots.new ≡ told_slots (lent_at head.now genome.now transcript.now letters.now exons.now) slots.old) }
{
    let known = lending::head_of(head);
    worklist::answer_list(known, genome, transcript, letters, exons, slots)
}
