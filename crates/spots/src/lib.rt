// How a transcript lies on the genome, and one place of it between g. and n.: the place of a number, its spot, its exon's number, and two spots as the ends of an answer.
#![tactic(auto)]

ghost use Rattle.std.specs.Prelude.{◌≡◌, ◌&&◌, ◌≤◌, ◌<◌, get_or};
ghost use Rattle.refusals.specs.Numbers.{most_segments};
ghost use Rattle.whole.specs.Whole.{Within};
ghost use Rattle.numbering.specs.Numbers.{place_of_n};
ghost use Rattle.segments.specs.Tables.{tables};
ghost use Rattle.segments.specs.Places.End.{start};
ghost use Rattle.segments.specs.Paper.{Small, end_said, spot_said, to_transcript, to_genome};
ghost use Rattle.segments.specs.Exons.{last_number, exon_found, exon_chosen};
ghost use Rattle.positions.specs.Paper.{paper_g_end, paper_n_end, paper_g, paper_n};
ghost use Rattle.spots.specs.Mapping.{inside, turned, signed, place_of_g};
ghost use Rattle.spots.specs.Aligned.{number_by, Aligns, Numbers, n_end_at, n_joined, g_end_at, g_joined};

use numbering::Place;
use positions::{Answer, Exons, GPosition, NPosition, fitting};
use refusals::{MOST_SEGMENTS, MOST_STARTS, Refusal};
use segments::{End, Spot, exons};

// How a transcript lies on the genome, beside its tables: whether its strand is 1, its first start, how many segments it has, and of how many records.
#[derive(Clone, Copy)]
pub struct Alignment {
    pub forward: bool,
    pub first: u32,
    pub count: usize,
    pub records: u16,
}

// The last entry of a table of count segments: how far they go in all.
pub fn last(starts: &[u32; MOST_STARTS], count: usize) -> u32
    requires { count ≤ most_segments }
    ensures { result ≡ get_or starts.now count 0 }
{
    starts[count]
}

// The place of a g. number. g. numbers are counted from 1 and run through 0, so this 1 is not the missing zero's.
pub fn place_of_g(first: u32, g: i32) -> Place
    ensures { (result.0 ≡ place_of_g first g) × Within 36 result.0 }
{
    let number = g as i64;
    let start = first as i64;
    let place = number - 1 - start;
    Place(place)
}

// Whether a place lies at or above 0 and below the last entry, which is asked in strict mode alone.
#[tactic(auto, unfolding(crate::specs::Mapping::inside))]
pub fn is_inside(strict: bool, len: u32, p: Place) -> bool
    ensures { result ≡ inside strict len p.0 }
{
    if strict {
        let z = p.0;
        let end = len as i64;
        if 0 <= z {
            return z < end;
        }
        return false;
    }
    true
}

// Whether both places do.
pub fn are_inside(strict: bool, len: u32, p: Place, q: Place) -> bool
    ensures { result ≡ (inside strict len p.0 && inside strict len q.0) }
{
    is_inside(strict, len, p) & is_inside(strict, len, q)
}

// The turn of a place: on strand -1 it becomes length - 1 - place.
#[tactic(auto, unfolding(crate::specs::Mapping::turned))]
fn turn(forward: bool, len: u32, p: Place) -> Place
    requires { Within 38 p.0 }
    ensures { result.0 ≡ turned forward len p.0 }
{
    if forward {
        p
    } else {
        let z = p.0;
        let end = len as i64;
        let place = end - 1 - z;
        Place(place)
    }
}

// The turn of an offset: on strand -1 its sign changes.
fn sign(forward: bool, offset: i64) -> i64
    requires { Within 38 offset }
    ensures { result ≡ signed forward offset }
{
    if forward { offset } else { -offset }
}

// The place of an n. number, turned.
#[tactic(auto, using(crate::proofs::Sizes::of_n_34, crate::proofs::Sizes::widen_34, crate::proofs::Sizes::turned_36))]
pub fn place_of_n(forward: bool, len: u32, base: i32) -> Place
    ensures { (result.0 ≡ turned forward len (place_of_n base)) × Within 36 result.0 }
{
    let p = numbering::n_to_place(fitting::whole_n(base));
    turn(forward, len, p)
}

// The n. position of a spot of the transcript: place and offset turned; 17.
#[tactic(auto, using(crate::proofs::Sizes::turned_40))]
pub fn n_of_spot(forward: bool, len: u32, s: Spot) -> Result<NPosition, Refusal>
    requires { Small 38 s }
    ensures { paper_n_end result ≡ n_end_at forward len (spot_said s) }
{
    let p = turn(forward, len, s.place);
    let n = numbering::place_to_n(p);
    let offset = sign(forward, s.offset);
    fitting::n_end(n, offset)
}

// The g. number of a place of the genome with an n. number's own offset, which is turned; 17.
pub fn g_of_place(forward: bool, first: u32, p: Place, offset: i32) -> Result<GPosition, Refusal>
    requires { Within 38 p.0 }
    ensures { paper_g_end result ≡ g_end_at forward first p.0 offset }
{
    let z = p.0;
    let start = first as i64;
    let given = offset as i64;
    let own = sign(forward, given);
    let g = z + start + 1 + own;
    fitting::g_end(g)
}

// The spot of a place of the genome, which begins an interval or ends it.
pub fn spot_of_g(
    at: Alignment,
    genome: &[u32; MOST_STARTS],
    transcript: &[u32; MOST_STARTS],
    letters: &[u8; MOST_SEGMENTS],
    p: Place,
    end: End,
) -> Spot
    requires { Aligns at (tables genome.now transcript.now letters.now) × Within 36 p.0 }
    ensures said { spot_said result ≡ to_transcript (tables genome.now transcript.now letters.now) at.count p.0 (end_said end) at.forward }
    ensures small { Small 37 result × (result.number < at.count) }
{
    segments::genome_to_transcript(genome, transcript, letters, at.count, p, end, at.forward)
}

// The spot of a place of the transcript.
pub fn spot_of_n(
    at: Alignment,
    genome: &[u32; MOST_STARTS],
    transcript: &[u32; MOST_STARTS],
    letters: &[u8; MOST_SEGMENTS],
    p: Place,
    end: End,
) -> Spot
    requires { Aligns at (tables genome.now transcript.now letters.now) × Within 36 p.0 }
    ensures said { spot_said result ≡ to_genome (tables genome.now transcript.now letters.now) at.count p.0 (end_said end) }
    ensures small { Small 37 result × (result.number < at.count) }
{
    segments::transcript_to_genome(genome, transcript, letters, at.count, p, end)
}

// The spot of a place of the genome that begins an interval, by the number of its segment, which is at hand.
pub fn spot_at_g(
    at: Alignment,
    genome: &[u32; MOST_STARTS],
    transcript: &[u32; MOST_STARTS],
    letters: &[u8; MOST_SEGMENTS],
    p: Place,
    number: usize,
) -> Spot
    requires { Aligns at (tables genome.now transcript.now letters.now) × Within 36 p.0 × Numbers genome.now at.count p.0 number }
    ensures said { spot_said result ≡ to_transcript (tables genome.now transcript.now letters.now) at.count p.0 start at.forward }
    ensures small { Small 37 result × (result.number < at.count) }
{
    let z = p.0;
    segments::map_at(
        genome,
        transcript,
        letters,
        number,
        z,
        End::Start,
        at.forward,
    )
}

// The same of a place of the transcript.
pub fn spot_at_n(
    at: Alignment,
    genome: &[u32; MOST_STARTS],
    transcript: &[u32; MOST_STARTS],
    letters: &[u8; MOST_SEGMENTS],
    p: Place,
    number: usize,
) -> Spot
    requires { Aligns at (tables genome.now transcript.now letters.now) × Within 36 p.0 × Numbers transcript.now at.count p.0 number }
    ensures said { spot_said result ≡ to_genome (tables genome.now transcript.now letters.now) at.count p.0 start }
    ensures small { Small 37 result × (result.number < at.count) }
{
    let z = p.0;
    segments::map_at(transcript, genome, letters, number, z, End::Start, true)
}

// What stands behind the last segment's exon number.
pub fn behind(at: Alignment) -> u16
    ensures { result ≡ last_number at.forward at.records }
{
    if at.forward { at.records } else { 1 }
}

// The exon number of a spot of the transcript.
pub fn found_exon(at: Alignment, exons: &[u16; MOST_SEGMENTS], spot: Spot) -> u16
    requires { (spot.number < at.count) × (at.count ≤ most_segments) }
    ensures { result ≡ exon_found (number_by at exons.now) (spot_said spot) }
{
    exons::found(exons, at.count, behind(at), spot)
}

// The exon number of a spot of the genome.
pub fn chosen_exon(at: Alignment, exons: &[u16; MOST_SEGMENTS], spot: Spot) -> u16
    requires { (spot.number < at.count) × (at.count ≤ most_segments) }
    ensures { result ≡ exon_chosen at.forward (number_by at exons.now) (spot_said spot) }
{
    exons::chosen(at.forward, exons, at.count, behind(at), spot)
}

// The n. interval of an interval's two spots, with these exons: on strand -1 start and end change places.
#[tactic(auto, unfolding(crate::specs::Aligned::n_joined), using(positions::specs::laws::Reading::marked_both))]
pub fn n_answer(forward: bool, len: u32, exons: Exons, a: Spot, b: Spot) -> Answer<NPosition>
    requires { Small 38 a × Small 38 b }
    ensures { paper_n result ≡ n_joined forward len exons (spot_said a) (spot_said b) }
{
    let sure = a.sure & b.sure;
    let first = n_of_spot(forward, len, a);
    let second = n_of_spot(forward, len, b);
    if forward {
        fitting::marked(sure, exons, fitting::both(first, second))
    } else {
        fitting::marked(sure, exons, fitting::both(second, first))
    }
}

// The g. interval of an interval's two spots, with these exons and the numbers' own offsets o and u.
pub fn g_answer(
    forward: bool,
    first: u32,
    exons: Exons,
    a: Spot,
    b: Spot,
    o: i32,
    u: i32,
) -> Answer<GPosition>
    requires { Small 38 a × Small 38 b }
    ensures { paper_g result ≡ g_joined forward first exons (spot_said a) (spot_said b) o u }
{
    let sure = a.sure & b.sure;
    let from = g_of_place(forward, first, a.place, o);
    let to = g_of_place(forward, first, b.place, u);
    fitting::marked(sure, exons, fitting::both(from, to))
}
