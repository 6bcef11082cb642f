// One base by itself between g. and n., start and end of its interval alike: its spot, and the answer that follows from it.
#![tactic(auto)]

ghost use Rattle.std.specs.Prelude.{◌≡◌, true, ◌≤◌, ◌<◌};
ghost use Rattle.refusals.specs.Numbers.{most_segments};
ghost use Rattle.whole.specs.Whole.{Within};
ghost use Rattle.segments.specs.Tables.{tables};
ghost use Rattle.segments.specs.Paper.{Small, spot_said};
ghost use Rattle.segments.specs.Places.{unsurely, stop_of};
ghost use Rattle.segments.specs.Exons.{exon_chosen};
ghost use Rattle.positions.specs.Answers.{g_fits, fitting};
ghost use Rattle.positions.specs.Paper.{paper_g, paper_n};
ghost use Rattle.spots.specs.Mapping.{map_g_to_n, g_of_ends};
ghost use Rattle.spots.specs.Aligned.{aligned_by, number_by, Aligns, InSegment, n_joined, g_joined};
ghost use Rattle.lone.specs.Lone.{n_beside, g_beside, SoughtAt};

use numbering::Place;
use positions::{Answer, Exons, GPosition, NPosition, fitting};
use refusals::{MOST_SEGMENTS, MOST_STARTS, Refusal};
use segments::{Edge, End, Spot, exons};
use spots::Alignment;

// A base by itself, sought before its tables were looked at: its place, which lies inside, and the number of the segment that it lies in if they hold. What it is answered with follows from that.
#[derive(Clone, Copy)]
pub struct Sought {
    pub place: Place,
    pub number: usize,
}

// A place of the first count segments of a table of starts, sought; one that lies outside is none, since its question goes the long way.
#[tactic(auto, unfolding(spots::specs::Mapping::inside))]
pub fn seek(starts: &[u32; MOST_STARTS], count: usize, p: Place) -> Option<Sought>
    requires { (1 ≤ count) × (count ≤ most_segments) × Within 36 p.0 }
    ensures { SoughtAt starts.now count p.0 result }
{
    let len = spots::last(starts, count);
    if spots::is_inside(true, len, p) {
        let z = p.0;
        let number = finding::find_natural(starts, count, finding::natural(z, len));
        return Some(Sought { place: p, number });
    }
    None
}

// The n. interval of one place, by its spot as an interval's start, whose exon has this number, as the end's has: a sure one is numbered once.
#[tactic(auto, using(positions::specs::laws::Reading::marked_both, crate::specs::laws::Once::one_joined))]
fn n_of_one(forward: bool, len: u32, number: u16, start: Spot) -> Answer<NPosition>
    requires { Small 37 start }
    ensures { paper_n result ≡ n_joined forward len (record { from = number; to = number }) (spot_said start) (stop_of (spot_said start)) }
{
    let both = Exons {
        from: number,
        to: number,
    };
    if start.sure {
        let end = spots::n_of_spot(forward, len, start);
        return fitting::marked(true, both, fitting::both(end, end));
    }
    spots::n_answer(forward, len, both, start, segments::stop_of(start))
}

// The spot of a base beside an I or a D, by its place in the segment with this number.
fn spot_beside(place: Place, number: usize) -> Spot
    requires { Within 37 place.0 }
    ensures said { spot_said result ≡ unsurely number place.0 }
    ensures small { Small 37 result × (result.number ≡ number) }
{
    Spot {
        place,
        offset: 0,
        sure: false,
        number,
        edge: Edge::None,
    }
}

// The n. interval of a base beside an I or a D, by its place in the segment with this number.
pub fn beside_n(
    at: Alignment,
    transcript: &[u32; MOST_STARTS],
    exons: &[u16; MOST_SEGMENTS],
    place: Place,
    number: usize,
) -> Answer<NPosition>
    requires { Within 37 place.0 × (number < at.count) × (at.count ≤ most_segments) }
    ensures { paper_n result ≡ n_beside at transcript.now exons.now place.0 number }
{
    let count = at.count;
    let start = spot_beside(place, number);
    let exon = spots::found_exon(at, exons, start);
    n_of_one(at.forward, spots::last(transcript, count), exon, start)
}

// g. to n. of an interval of one base.
pub fn one_to_n(
    at: Alignment,
    genome: &[u32; MOST_STARTS],
    transcript: &[u32; MOST_STARTS],
    letters: &[u8; MOST_SEGMENTS],
    exons: &[u16; MOST_SEGMENTS],
    g: i32,
    strict: bool,
) -> Answer<NPosition>
    requires { Aligns at (tables genome.now transcript.now letters.now) }
    ensures { paper_n result ≡ map_g_to_n strict (aligned_by at (tables genome.now transcript.now letters.now) exons.now) (record { from = g; to = g }) }
{
    let forward = at.forward;
    let count = at.count;
    let place = spots::place_of_g(at.first, g);
    if spots::is_inside(strict, spots::last(genome, count), place) {
        let start = spots::spot_of_g(at, genome, transcript, letters, place, End::Start);
        let exon = exons::found(exons, count, spots::behind(at), start);
        return n_of_one(forward, spots::last(transcript, count), exon, start);
    }
    Err(Refusal::Outside)
}

// The same in strict mode, by the number of the segment that holds the base, which is at hand.
pub fn one_to_n_at(
    at: Alignment,
    genome: &[u32; MOST_STARTS],
    transcript: &[u32; MOST_STARTS],
    letters: &[u8; MOST_SEGMENTS],
    exons: &[u16; MOST_SEGMENTS],
    number: usize,
    g: i32,
) -> Answer<NPosition>
    requires aligns { Aligns at (tables genome.now transcript.now letters.now) }
    requires in_segment { InSegment at genome.now number g }
    ensures { paper_n result ≡ map_g_to_n true (aligned_by at (tables genome.now transcript.now letters.now) exons.now) (record { from = g; to = g }) }
{
    let forward = at.forward;
    let count = at.count;
    let p = spots::place_of_g(at.first, g);
    if spots::is_inside(true, spots::last(genome, count), p) {
        let start = segments::map_at(
            genome,
            transcript,
            letters,
            number,
            p.0,
            End::Start,
            forward,
        );
        let exon = exons::found(exons, count, spots::behind(at), start);
        return n_of_one(forward, spots::last(transcript, count), exon, start);
    }
    Err(Refusal::Outside)
}

// The g. interval of two positions with one number, by its spot as an interval's start, and their offsets o and u.
fn g_of_start(
    at: Alignment,
    exons: &[u16; MOST_SEGMENTS],
    start: Spot,
    o: i32,
    u: i32,
) -> Answer<GPosition>
    requires { Small 37 start × (start.number < at.count) × (at.count ≤ most_segments) }
    ensures { paper_g result ≡ g_joined at.forward at.first (record { from = exon_chosen at.forward (number_by at exons.now) (spot_said start); to = exon_chosen at.forward (number_by at exons.now) (spot_said start) }) (spot_said start) (stop_of (spot_said start)) o u }
{
    let forward = at.forward;
    let number = spots::chosen_exon(at, exons, start);
    let both = Exons {
        from: number,
        to: number,
    };
    spots::g_answer(
        forward,
        at.first,
        both,
        start,
        segments::stop_of(start),
        o,
        u,
    )
}

// The g. interval of a position beside an I or a D, by its place in the segment with this number, and its own offset.
pub fn beside_g(
    at: Alignment,
    exons: &[u16; MOST_SEGMENTS],
    place: Place,
    number: usize,
    offset: i32,
) -> Answer<GPosition>
    requires { Within 37 place.0 × (number < at.count) × (at.count ≤ most_segments) }
    ensures { paper_g result ≡ g_beside at exons.now place.0 number offset }
{
    let start = spot_beside(place, number);
    g_of_start(at, exons, start, offset, offset)
}

// n. to g. of two positions with one number, whose offsets are o and u: its place is looked for once.
pub fn g_of_one(
    at: Alignment,
    genome: &[u32; MOST_STARTS],
    transcript: &[u32; MOST_STARTS],
    letters: &[u8; MOST_SEGMENTS],
    exons: &[u16; MOST_SEGMENTS],
    base: i32,
    o: i32,
    u: i32,
    strict: bool,
) -> Answer<GPosition>
    requires { Aligns at (tables genome.now transcript.now letters.now) }
    ensures { paper_g result ≡ fitting g_fits (g_of_ends strict (aligned_by at (tables genome.now transcript.now letters.now) exons.now) (record { base = base; offset = o }) (record { base = base; offset = u })) }
{
    let forward = at.forward;
    let count = at.count;
    let len = spots::last(transcript, count);
    let p = spots::place_of_n(forward, len, base);
    if spots::is_inside(strict, len, p) {
        let start = spots::spot_of_n(at, genome, transcript, letters, p, End::Start);
        return g_of_start(at, exons, start, o, u);
    }
    Err(Refusal::Outside)
}
