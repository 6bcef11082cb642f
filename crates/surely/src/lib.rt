// The short way of a question about one base: whether an interval is one, where it is sought by its name, and what a host is told of a sure base by its spot, laid out.
// The four that lay an answer out are woven into their callers by word of the source, as a call hands an answer back through memory, where it is copied in other pieces than it was stored in, and the copy waits.
#![tactic(auto)]

ghost use Rattle.std.specs.Prelude.{◌≡◌, ◌≤◌, ◌<◌};
ghost use Rattle.refusals.specs.Numbers.{most_segments};
ghost use Rattle.whole.specs.Whole.{eq_z};
ghost use Rattle.segments.specs.Paper.{Small, spot_said};
ghost use Rattle.positions.specs.Answers.{certain, ends};
ghost use Rattle.positions.specs.Positions.{between};
ghost use Rattle.positions.specs.Paper.{paper_c_question};
ghost use Rattle.refusals.specs.Outcome.{through};
ghost use Rattle.knowing.specs.Knowing.{paper_coding};
ghost use Rattle.layout.specs.Layout.{laid};
ghost use Rattle.surely.specs.Surely.{sure_n, sure_c, sure_g, SoughtName};

use knowing::Cds;
use layout::lay;
use layout::lay::{Answer, Laid};
use lone::Sought;
use positions::CQuestion;
use refusals::{MOST_SEGMENTS, MOST_STARTS, Refusal};
use segments::Spot;
use spots::Alignment;

// Whether an interval is one base.
pub fn is_base(from: i32, to: i32) -> bool
    ensures { result ≡ eq_z from to }
{
    from == to
}

// A position of any kind, or why there is none, as the answer of a base with this exon.
#[inline(always)]
fn laid_base<P: Laid>(exon: u16, end: Result<P, Refusal>) -> Answer
    ensures { result ≡ laid P.place (ends (certain (between exon exon)) (through P.says end) (through P.says end)) }
{
    match end {
        Ok(a) => lay::lay_one(exon, a),
        Err(k) => lay::refusal_of(k),
    }
}

// The n. answer of a sure base, by its spot. The strands part here, so that nothing is turned on strand 1.
#[inline(always)]
pub fn sure_n(
    at: Alignment,
    transcript: &[u32; MOST_STARTS],
    exons: &[u16; MOST_SEGMENTS],
    spot: Spot,
) -> Answer
    requires { (at.count ≤ most_segments) × Small 37 spot × (spot.number < at.count) }
    ensures { result ≡ sure_n at transcript.now exons.now (spot_said spot) }
{
    let exon = spots::found_exon(at, exons, spot);
    let len = spots::last(transcript, at.count);
    if at.forward {
        return laid_base(exon, spots::n_of_spot(true, len, spot));
    }
    laid_base(exon, spots::n_of_spot(false, len, spot))
}

// The c. answer of a sure base, by its spot.
#[inline(always)]
#[tactic(auto, using(crate::proofs::Once::c_once))]
pub fn sure_c(
    at: Alignment,
    transcript: &[u32; MOST_STARTS],
    exons: &[u16; MOST_SEGMENTS],
    cds: Option<Cds>,
    spot: Spot,
    strict: bool,
) -> Answer
    requires { (at.count ≤ most_segments) × Small 37 spot × (spot.number < at.count) }
    ensures { result ≡ sure_c strict at transcript.now exons.now (paper_coding cds) (spot_said spot) }
{
    let exon = spots::found_exon(at, exons, spot);
    let len = spots::last(transcript, at.count);
    match spots::n_of_spot(at.forward, len, spot) {
        Ok(n) => match cds {
            Some(c) => laid_base(exon, coding::one_to_c(strict, len, c.start, c.end, n)),
            None => lay::refusal_of(Refusal::NotCoding),
        },
        Err(k) => lay::refusal_of(k),
    }
}

// The base of a c. interval whose ends are one position, where the transcript has a CDS, sought in the transcript's table.
pub fn seek_name(
    at: Alignment,
    transcript: &[u32; MOST_STARTS],
    cds: Option<Cds>,
    c: CQuestion,
    strict: bool,
) -> Option<Sought>
    requires { (1 ≤ at.count) × (at.count ≤ most_segments) }
    ensures { SoughtName strict at transcript.now (paper_coding cds) (paper_c_question c) result }
{
    let bounds = cds?;
    if coding::is_same(c.from, c.to) {
        let len = spots::last(transcript, at.count);
        let n = coding::n_position(strict, len, bounds.start, bounds.end, c.from).ok()?;
        return lone::seek(
            transcript,
            at.count,
            spots::place_of_n(at.forward, len, n.base),
        );
    }
    None
}

// The g. answer of a sure base, by its spot, with its number's own offset.
#[inline(always)]
pub fn sure_g(at: Alignment, exons: &[u16; MOST_SEGMENTS], spot: Spot, offset: i32) -> Answer
    requires { (at.count ≤ most_segments) × Small 37 spot × (spot.number < at.count) }
    ensures { result ≡ sure_g at exons.now (spot_said spot) offset }
{
    let exon = spots::chosen_exon(at, exons, spot);
    let end = spots::g_of_place(at.forward, at.first, spot.place, offset);
    laid_base(exon, end)
}
