// The tables of a transcript: the mapping of a place, once for both directions.
// Segment i begins at entry i of the two tables of starts and ends at entry i + 1. A place is a whole number and may lie outside the tables on either side.
#![tactic(auto)]

ghost use Rattle.std.specs.Prelude.{◌≡◌, true, ◌≤◌, ◌<◌};
ghost use Rattle.refusals.specs.Numbers.{most_segments};
ghost use Rattle.whole.specs.Whole.{Within};
ghost use Rattle.cigar.specs.Elements.{kind_of};
ghost use Rattle.segments.specs.Tables.{tables, segments_hold};
ghost use Rattle.segments.specs.Places.{segment_at, unsurely, beside, left_nearer, nearer, spot_in, spot_of, stop_of};
ghost use Rattle.segments.specs.Paper.{end_said, spot_said, to_transcript, to_genome, Small};

use numbering::Place;
use refusals::{MOST_SEGMENTS, MOST_STARTS};

pub mod exons;

// An interval's end.
#[derive(Clone, Copy)]
pub enum End {
    Start,
    Stop,
}

// The edge of an N that a place of it counts from; a place of any other segment counts from none.
#[derive(Clone, Copy)]
pub enum Edge {
    None,
    Left,
    Right,
}

// A place on the other side, with its offset; it is not sure if it fell in an I or a D; the number of the segment that it fell in, and the edge
// that it counts from.
#[derive(Clone, Copy)]
pub struct Spot {
    pub place: Place,
    pub offset: i64,
    pub sure: bool,
    pub number: usize,
    pub edge: Edge,
}

// Whether the left edge of an N is the nearer one; halfway it is on strand 1.
fn is_left_nearer(forward: bool, left: i64, right: i64) -> bool
    ensures { result ≡ left_nearer forward left right }
{
    if forward { left <= right } else { left < right }
}

// From the N with this number at t: the nearer edge, and how far it is.
fn nearer_edge(number: usize, forward: bool, t: u32, left: i64, right: i64) -> Spot
    requires within { Within 37 left }
    requires within_2 { Within 37 right }
    ensures said { spot_said result ≡ nearer number forward t left right }
    ensures small { Small 37 result }
{
    let place = t as i64;
    if is_left_nearer(forward, left, right) {
        let before = place - 1;
        Spot {
            place: Place(before),
            offset: left,
            sure: true,
            number,
            edge: Edge::Left,
        }
    } else {
        let back = -right;
        Spot {
            place: Place(place),
            offset: back,
            sure: true,
            number,
            edge: Edge::Right,
        }
    }
}

// Beside an I or a D at t: t - 1 for an interval's start, t for its end.
fn beside_at(number: usize, end: End, t: u32) -> Spot
    ensures said { spot_said result ≡ unsurely number (beside (end_said end) t) }
    ensures small { Small 37 result }
{
    let place = t as i64;
    match end {
        End::Start => {
            let before = place - 1;
            Spot {
                place: Place(before),
                offset: 0,
                sure: false,
                number,
                edge: Edge::None,
            }
        }
        End::Stop => Spot {
            place: Place(place),
            offset: 0,
            sure: false,
            number,
            edge: Edge::None,
        },
    }
}

// The place p of the segment with this number, which goes from f to h and begins at t on the other side.
fn spot_in(
    number: usize,
    letter: u8,
    f: u32,
    h: u32,
    t: u32,
    p: i64,
    end: End,
    forward: bool,
) -> Spot
    requires { Within 36 p }
    ensures said { spot_said result ≡ spot_in number (kind_of letter) f h t p (end_said end) forward }
    ensures small { Small 37 result }
{
    let along = p - (f as i64);
    match letter {
        b'N' => {
            let left = along + 1;
            let right = (h as i64) - p;
            nearer_edge(number, forward, t, left, right)
        }
        b'I' => beside_at(number, end, t),
        b'D' => beside_at(number, end, t),
        _ => {
            let place = (t as i64) + along;
            Spot {
                place: Place(place),
                offset: 0,
                sure: true,
                number,
                edge: Edge::None,
            }
        }
    }
}

// The place p, which begins an interval or ends it, by the segment with this number.
pub fn map_at(
    from: &[u32; MOST_STARTS],
    to: &[u32; MOST_STARTS],
    letters: &[u8; MOST_SEGMENTS],
    number: usize,
    p: i64,
    end: End,
    forward: bool,
) -> Spot
    requires number_lt_most_segments { number < most_segments }
    requires within { Within 36 p }
    ensures said { spot_said result ≡ spot_of (segment_at from.now to.now letters.now number) p (end_said end) forward }
    ensures small { Small 37 result }
{
    spot_in(
        number,
        letters[number],
        from[number],
        from[number + 1],
        to[number],
        p,
        end,
        forward,
    )
}

// From the genome to the transcript; forward says whether the strand is 1.
pub fn genome_to_transcript(
    genome: &[u32; MOST_STARTS],
    transcript: &[u32; MOST_STARTS],
    letters: &[u8; MOST_SEGMENTS],
    count: usize,
    p: Place,
    end: End,
    forward: bool,
) -> Spot
    requires le_count { (1 ≤ count) × (count ≤ most_segments) }
    requires count_value { segments_hold (tables genome.now transcript.now letters.now) count ≡ true }
    requires within { Within 36 p.0 }
    ensures said { spot_said result ≡ to_transcript (tables genome.now transcript.now letters.now) count p.0 (end_said end) forward }
    ensures small { Small 37 result }
{
    let z = p.0;
    let number = finding::find(genome, count, z);
    map_at(genome, transcript, letters, number, z, end, forward)
}

// From the transcript to the genome, where the strand counts as 1.
pub fn transcript_to_genome(
    genome: &[u32; MOST_STARTS],
    transcript: &[u32; MOST_STARTS],
    letters: &[u8; MOST_SEGMENTS],
    count: usize,
    p: Place,
    end: End,
) -> Spot
    requires le_count { (1 ≤ count) × (count ≤ most_segments) }
    requires count_value { segments_hold (tables genome.now transcript.now letters.now) count ≡ true }
    requires within { Within 36 p.0 }
    ensures said { spot_said result ≡ to_genome (tables genome.now transcript.now letters.now) count p.0 (end_said end) }
    ensures small { Small 37 result }
{
    let z = p.0;
    let number = finding::find(transcript, count, z);
    map_at(transcript, genome, letters, number, z, end, true)
}

// The spot of an interval's end, where its start is the same place and has this spot: the place is looked for once.
pub fn stop_of(start: Spot) -> Spot
    requires { Small 37 start }
    ensures said { spot_said result ≡ stop_of (spot_said start) }
    ensures small { Small 38 result }
{
    if start.sure {
        start
    } else {
        let number = start.number;
        let edge = start.edge;
        let place = start.place.0;
        let next = place + 1;
        Spot {
            place: Place(next),
            offset: 0,
            sure: false,
            number,
            edge,
        }
    }
}
