// What a host lends, known once: how it lies on the genome, its length alone, or that it does not hold together (23).
#![tactic(auto)]

ghost use Rattle.std.specs.Prelude.{◌≡◌, true, ◌≤◌};
ghost use Rattle.refusals.specs.Numbers.{most_segments};
ghost use Rattle.segments.specs.Tables.{tables};
ghost use Rattle.holding.specs.Holding.{head_holds, lent, holds};
ghost use Rattle.holding.specs.Parts.{tables_hold};
ghost use Rattle.knowing.specs.Knowing.{NaturalBounds, alignment_of, coding_in, told_of, known_of};

use refusals::{MOST_SEGMENTS, MOST_STARTS, Refusal};
use spots::Alignment;
use transcript::{BOTH_GIVEN, Head, OF_RECORDS};

// A CDS by its two bounds.
#[derive(Clone, Copy)]
pub struct Cds {
    pub start: u32,
    pub end: u32,
}

// The CDS of a transcript that was built from records, or of one that is known by its length alone, and how the one lies or how long the other is. The CDS stands first, so that it lies at one place in memory in both: what is handed on is then read in the pieces in which it was stored.
#[derive(Clone, Copy)]
pub enum Known {
    Aligned(Option<Cds>, Alignment),
    OfLength(Option<Cds>, u32),
}

// How a transcript that was built from records lies on the genome.
pub fn alignment(head: Head) -> Alignment
    requires { head_holds head ≡ true }
    ensures { result ≡ alignment_of head }
{
    let forward = holding::is_forward(head);
    let first = holding::first_start(head);
    let count = holding::segment_count(head);
    let records = holding::record_count(head);
    Alignment {
        forward,
        first,
        count,
        records,
    }
}

// The CDS of a head that holds together.
pub fn coding_of(head: Head) -> Option<Cds>
    requires { NaturalBounds head }
    ensures { result ≡ coding_in head }
{
    let bits = head.bits;
    if bits == BOTH_GIVEN {
        let start = holding::natural(head.start);
        let end = holding::natural(head.end);
        return Some(Cds { start, end });
    }
    None
}

// What the head tells of what is lent, before the tables are looked at: how a transcript lies if they hold, its length alone, or that it does not hold together whatever they are (23).
#[tactic(auto, unfolding(crate::specs::Knowing::told_of))]
pub fn told_of(head: Head, transcript: &[u32; MOST_STARTS]) -> Result<Known, Refusal>
    ensures { result ≡ told_of head transcript.now }
{
    let bases = holding::bases_of(head, transcript).ok_or(Refusal::NotTogether)?;
    if holding::cds_holds(head, bases) {
        let cds = coding_of(head);
        let kind = head.kind;
        if kind == OF_RECORDS {
            return Ok(Known::Aligned(cds, alignment(head)));
        }
        return Ok(Known::OfLength(cds, holding::natural(head.length)));
    }
    Err(Refusal::NotTogether)
}

// Whether the tables of a transcript that lies so hold, which is all that is left to ask once the head has told.
pub fn tables_hold(
    at: Alignment,
    genome: &[u32; MOST_STARTS],
    transcript: &[u32; MOST_STARTS],
    letters: &[u8; MOST_SEGMENTS],
    exons: &[u16; MOST_SEGMENTS],
) -> bool
    requires { (1 ≤ at.count) × (at.count ≤ most_segments) }
    ensures { result ≡ tables_hold at.forward at.records at.first (tables genome.now transcript.now letters.now) exons.now at.count }
{
    holding::tables_hold(
        at.count, at.records, genome, transcript, letters, exons, at.forward, at.first,
    )
}

// What is lent, known once, or 23.
pub fn known_of(
    head: Head,
    genome: &[u32; MOST_STARTS],
    transcript: &[u32; MOST_STARTS],
    letters: &[u8; MOST_SEGMENTS],
    exons: &[u16; MOST_SEGMENTS],
) -> Result<Known, Refusal>
    ensures { result ≡ known_of (lent head genome.now transcript.now letters.now exons.now) }
{
    match told_of(head, transcript)? {
        Known::Aligned(cds, at) => {
            if tables_hold(at, genome, transcript, letters, exons) {
                return Ok(Known::Aligned(cds, at));
            }
            Err(Refusal::NotTogether)
        }
        Known::OfLength(cds, length) => Ok(Known::OfLength(cds, length)),
    }
}

// Whether it holds together.
pub fn is_held(
    head: Head,
    genome: &[u32; MOST_STARTS],
    transcript: &[u32; MOST_STARTS],
    letters: &[u8; MOST_SEGMENTS],
    exons: &[u16; MOST_SEGMENTS],
) -> bool
    ensures { result ≡ holds (lent head genome.now transcript.now letters.now exons.now) }
{
    known_of(head, genome, transcript, letters, exons).is_ok()
}
