// The exon number of a place that was mapped, by the number of its segment and the edge of an N that it counts from.
ghost use Rattle.std.specs.Prelude.{◌≡◌, cond, ◌+◌, ◌≤◌, ◌<◌};
ghost use Rattle.refusals.specs.Numbers.{most_segments};
ghost use Rattle.segments.specs.Exons.{number_at, numbered_from, upstream_of, exon_found, exon_chosen};
ghost use Rattle.segments.specs.Paper.{edge_said, spot_said};

use crate::{Edge, Spot};
use refusals::MOST_SEGMENTS;

// The exon number of segment i, or what stands behind the last.
fn number_at(exons: &[u16; MOST_SEGMENTS], count: usize, behind: u16, i: usize) -> u16
    requires { count ≤ most_segments }
    ensures { result ≡ number_at exons.now count behind i }
{
    if i < count { exons[i] } else { behind }
}

// Which number a place of the genome has, in segment i: of an N, that of the side whose edge it counts from.
fn numbered_from(edge: Edge, i: usize) -> usize
    requires { i < most_segments }
    ensures { result ≡ numbered_from (edge_said edge) i }
{
    match edge {
        Edge::Right => i + 1,
        Edge::Left => i,
        Edge::None => i,
    }
}

// Which number is before segment i in transcript order, where it is an N.
fn upstream_side(forward: bool, i: usize) -> usize
    requires { i < most_segments }
    ensures { result ≡ cond forward i (i + 1) }
{
    if forward { i } else { i + 1 }
}

// Which number a place of the transcript has: an N counts as what is before it in transcript order.
fn upstream_of(forward: bool, edge: Edge, i: usize) -> usize
    requires { i < most_segments }
    ensures { result ≡ upstream_of forward (edge_said edge) i }
{
    let skipped = upstream_side(forward, i);
    match edge {
        Edge::None => i,
        Edge::Left => skipped,
        Edge::Right => skipped,
    }
}

// The exon number of a place of the genome.
pub fn found(exons: &[u16; MOST_SEGMENTS], count: usize, behind: u16, spot: Spot) -> u16
    requires { (spot.number < count) × (count ≤ most_segments) }
    ensures { result ≡ exon_found (number_at exons.now count behind) (spot_said spot) }
{
    let edge = spot.edge;
    let i = numbered_from(edge, spot.number);
    number_at(exons, count, behind, i)
}

// The exon number of a place of the transcript.
pub fn chosen(
    forward: bool,
    exons: &[u16; MOST_SEGMENTS],
    count: usize,
    behind: u16,
    spot: Spot,
) -> u16
    requires { (spot.number < count) × (count ≤ most_segments) }
    ensures { result ≡ exon_chosen forward (number_at exons.now count behind) (spot_said spot) }
{
    let edge = spot.edge;
    let i = upstream_of(forward, edge, spot.number);
    number_at(exons, count, behind, i)
}
