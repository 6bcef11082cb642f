// Between g. and n. of a transcript that lies on the genome: whole intervals.
#![tactic(auto)]

ghost use Rattle.std.specs.Prelude.{◌≡◌, ◌≤◌, ◌<◌, get_or};
ghost use Rattle.refusals.specs.Numbers.{most_segments};
ghost use Rattle.segments.specs.Tables.{tables};
ghost use Rattle.segments.specs.Paper.{spot_said};
ghost use Rattle.positions.specs.Answers.{g_fits, fitting};
ghost use Rattle.positions.specs.Paper.{paper_n_asked, paper_n_question, paper_g, paper_n};
ghost use Rattle.spots.specs.Mapping.{found_exons, chosen_exons, map_g_to_n, g_of_ends, map_n_to_g, lies_in_bounds};
ghost use Rattle.spots.specs.Aligned.{aligned_by, number_by, Aligns};

use positions::{Answer, Exons, GPosition, NAsked, NPosition, NQuestion};
use refusals::{MOST_SEGMENTS, MOST_STARTS, Refusal};
use segments::{End, Spot, exons};
use spots::Alignment;

// The exon numbers of an interval's two spots of the transcript: on strand -1 they change places, as start and end do.
fn found_exons(at: Alignment, exons: &[u16; MOST_SEGMENTS], a: Spot, b: Spot) -> Exons
    requires { (a.number < at.count) × (b.number < at.count) × (at.count ≤ most_segments) }
    ensures { result ≡ found_exons at.forward (number_by at exons.now) (spot_said a) (spot_said b) }
{
    let forward = at.forward;
    let count = at.count;
    let last = spots::behind(at);
    let first = exons::found(exons, count, last, a);
    let second = exons::found(exons, count, last, b);
    if forward {
        Exons {
            from: first,
            to: second,
        }
    } else {
        Exons {
            from: second,
            to: first,
        }
    }
}

// The exon numbers of an interval's two spots of the genome.
fn chosen_exons(at: Alignment, exons: &[u16; MOST_SEGMENTS], a: Spot, b: Spot) -> Exons
    requires { (a.number < at.count) × (b.number < at.count) × (at.count ≤ most_segments) }
    ensures { result ≡ chosen_exons at.forward (number_by at exons.now) (spot_said a) (spot_said b) }
{
    let forward = at.forward;
    let count = at.count;
    let last = spots::behind(at);
    let from = exons::chosen(forward, exons, count, last, a);
    let to = exons::chosen(forward, exons, count, last, b);
    Exons { from, to }
}

// g. to n.: 14, then 17.
pub fn to_n(
    at: Alignment,
    genome: &[u32; MOST_STARTS],
    transcript: &[u32; MOST_STARTS],
    letters: &[u8; MOST_SEGMENTS],
    exons: &[u16; MOST_SEGMENTS],
    from: i32,
    to: i32,
    strict: bool,
) -> Answer<NPosition>
    requires { Aligns at (tables genome.now transcript.now letters.now) }
    ensures { paper_n result ≡ map_g_to_n strict (aligned_by at (tables genome.now transcript.now letters.now) exons.now) (record { from = from; to = to }) }
{
    if from == to {
        return lone::one_to_n(at, genome, transcript, letters, exons, from, strict);
    }
    let forward = at.forward;
    let count = at.count;
    let p = spots::place_of_g(at.first, from);
    let q = spots::place_of_g(at.first, to);
    if spots::are_inside(strict, spots::last(genome, count), p, q) {
        let a = spots::spot_of_g(at, genome, transcript, letters, p, End::Start);
        let b = spots::spot_of_g(at, genome, transcript, letters, q, End::Stop);
        let numbers = found_exons(at, exons, a, b);
        return spots::n_answer(forward, spots::last(transcript, count), numbers, a, b);
    }
    Err(Refusal::Outside)
}

// n. to g. of two positions in genomic order.
fn g_of_ends(
    at: Alignment,
    genome: &[u32; MOST_STARTS],
    transcript: &[u32; MOST_STARTS],
    letters: &[u8; MOST_SEGMENTS],
    exons: &[u16; MOST_SEGMENTS],
    a: NAsked,
    b: NAsked,
    strict: bool,
) -> Answer<GPosition>
    requires { Aligns at (tables genome.now transcript.now letters.now) }
    ensures { paper_g result ≡ fitting g_fits (g_of_ends strict (aligned_by at (tables genome.now transcript.now letters.now) exons.now) (paper_n_asked a) (paper_n_asked b)) }
{
    let x = a.base;
    let y = b.base;
    if x == y {
        return lone::g_of_one(
            at, genome, transcript, letters, exons, x, a.offset, b.offset, strict,
        );
    }
    let forward = at.forward;
    let count = at.count;
    let len = spots::last(transcript, count);
    let p = spots::place_of_n(forward, len, x);
    let q = spots::place_of_n(forward, len, y);
    if spots::are_inside(strict, len, p, q) {
        let start = spots::spot_of_n(at, genome, transcript, letters, p, End::Start);
        let stop = spots::spot_of_n(at, genome, transcript, letters, q, End::Stop);
        let numbers = chosen_exons(at, exons, start, stop);
        return spots::g_answer(forward, at.first, numbers, start, stop, a.offset, b.offset);
    }
    Err(Refusal::Outside)
}

// n. to g.: 14, then 17. On strand -1 start and end change places.
#[tactic(auto, unfolding(spots::specs::Mapping::map_n_to_g))]
pub fn to_g(
    at: Alignment,
    genome: &[u32; MOST_STARTS],
    transcript: &[u32; MOST_STARTS],
    letters: &[u8; MOST_SEGMENTS],
    exons: &[u16; MOST_SEGMENTS],
    q: NQuestion,
    strict: bool,
) -> Answer<GPosition>
    requires { Aligns at (tables genome.now transcript.now letters.now) }
    ensures { paper_g result ≡ map_n_to_g strict (aligned_by at (tables genome.now transcript.now letters.now) exons.now) (paper_n_question q) }
{
    let from = q.from;
    let to = q.to;
    let forward = at.forward;
    if forward {
        g_of_ends(at, genome, transcript, letters, exons, from, to, strict)
    } else {
        g_of_ends(at, genome, transcript, letters, exons, to, from, strict)
    }
}

// Whether both places lie inside as in strict mode, whichever comes first.
pub fn is_in_bounds(at: Alignment, genome: &[u32; MOST_STARTS], from: i32, to: i32) -> bool
    requires { at.count ≤ most_segments }
    ensures { result ≡ lies_in_bounds at.first (get_or genome.now at.count 0) (record { from = from; to = to }) }
{
    let count = at.count;
    let p = spots::place_of_g(at.first, from);
    let q = spots::place_of_g(at.first, to);
    spots::are_inside(true, spots::last(genome, count), p, q)
}
