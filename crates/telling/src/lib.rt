// What a host is told of the three questions that it asks most, laid out. One base that is sure goes a short way, which asks for no more than it needs; one that is not is answered by where it lies, and every other question goes the way that logs and alleles go too.
// An answer is laid out where it is found: one that is handed on as it is would be copied in other pieces than it was stored in, and wait for them.
#![tactic(auto)]

ghost use Rattle.std.specs.Prelude.{◌≡◌, get_or, ◌≤◌, ◌<◌};
ghost use Rattle.refusals.specs.Numbers.{most_segments};
ghost use Rattle.whole.specs.Whole.{Within};
ghost use Rattle.segments.specs.Tables.{tables};
ghost use Rattle.holding.specs.Holding.{lent, checked};
ghost use Rattle.positions.specs.Positions.{asks_n};
ghost use Rattle.positions.specs.Answers.{chain};
ghost use Rattle.positions.specs.Paper.{paper_c};
ghost use Rattle.coding.specs.Coding.{map_n_to_c};
ghost use Rattle.spots.specs.Mapping.{map_g_to_n};
ghost use Rattle.spots.specs.Aligned.{aligned_by, Aligns};
ghost use Rattle.lone.specs.Lone.{n_beside};
ghost use Rattle.mapper.specs.Asking.{ask_g_to_n, ask_g_to_c, ask_c_to_g};
ghost use Rattle.knowing.specs.Knowing.{paper_coding};
ghost use Rattle.taking.specs.Taking.{g_asked, c_asked};
ghost use Rattle.layout.specs.Layout.{g_laid, n_laid, c_laid, laid};
ghost use Rattle.refusals.specs.Outcome.{and_then};
ghost use Rattle.telling.specs.Seeking.{SoughtBase};

use knowing::{Cds, Known};
use layout::lay;
use layout::lay::Answer;
use lone::Sought;
use numbering::Place;
use positions::{CPosition, Interval};
use refusals::{MOST_SEGMENTS, MOST_STARTS, Refusal};
use spots::Alignment;
use transcript::Head;

// The base that a g. interval is, sought in the genome's table. A base is sought before the tables are looked at: halving waits for one entry after the other, and the processor looks at the tables meanwhile.
fn seek_base(
    at: Alignment,
    genome: &[u32; MOST_STARTS],
    ends: Result<Interval<i32>, Refusal>,
) -> Option<Sought>
    requires { (1 ≤ at.count) × (at.count ≤ most_segments) }
    ensures { SoughtBase at genome.now ends result }
{
    let i = ends.ok()?;
    if surely::is_base(i.from, i.to) {
        return lone::seek(genome, at.count, spots::place_of_g(at.first, i.from));
    }
    None
}

// The n. answer of any g. interval: 19, 14, 17.
fn interval_n(
    at: Alignment,
    genome: &[u32; MOST_STARTS],
    transcript: &[u32; MOST_STARTS],
    letters: &[u8; MOST_SEGMENTS],
    exons: &[u16; MOST_SEGMENTS],
    ends: Result<Interval<i32>, Refusal>,
    strict: bool,
) -> Answer
    requires { Aligns at (tables genome.now transcript.now letters.now) }
    ensures { result ≡ laid n_laid (and_then ends (map_g_to_n strict (aligned_by at (tables genome.now transcript.now letters.now) exons.now))) }
{
    match ends {
        Ok(i) => lay::lay(places::to_n(
            at, genome, transcript, letters, exons, i.from, i.to, strict,
        )),
        Err(k) => lay::refusal_of(k),
    }
}

// g. to n.: 23, 18, 19, 14, 17.
pub fn g_to_n(
    head: Head,
    genome: &[u32; MOST_STARTS],
    transcript: &[u32; MOST_STARTS],
    letters: &[u8; MOST_SEGMENTS],
    exons: &[u16; MOST_SEGMENTS],
    start: i32,
    end: i32,
    missing: u32,
    strict: bool,
) -> Answer
    ensures { result ≡ laid n_laid (checked (lent head genome.now transcript.now letters.now exons.now) (ask_g_to_n strict (g_asked start end missing))) }
{
    match knowing::told_of(head, transcript) {
        Ok(Known::Aligned(_, at)) => {
            let ends = chaining::both_ends(taking::g_asked(start, end, missing));
            let sought = seek_base(at, genome, ends);
            if knowing::tables_hold(at, genome, transcript, letters, exons) {
                if let Some(base) = sought {
                    let spot = spots::spot_at_g(
                        at,
                        genome,
                        transcript,
                        letters,
                        base.place,
                        base.number,
                    );
                    if spot.sure {
                        return surely::sure_n(at, transcript, exons, spot);
                    }
                    return lay::lay(lone::beside_n(at, transcript, exons, spot.place, spot.number));
                }
                return interval_n(at, genome, transcript, letters, exons, ends, strict);
            }
            lay::refusal_of(Refusal::NotTogether)
        }
        Ok(Known::OfLength(_, _)) => lay::refusal_of(Refusal::NoGenome),
        Err(k) => lay::refusal_of(k),
    }
}

// The c. interval of a base beside an I or a D, by its place in the segment with this number.
fn beside_c(
    at: Alignment,
    transcript: &[u32; MOST_STARTS],
    exons: &[u16; MOST_SEGMENTS],
    cds: Option<Cds>,
    place: Place,
    number: usize,
    strict: bool,
) -> positions::Answer<CPosition>
    requires { Within 37 place.0 × (number < at.count) × (at.count ≤ most_segments) }
    ensures { paper_c result ≡ chain asks_n (n_beside at transcript.now exons.now place.0 number) (map_n_to_c strict (get_or transcript.now at.count 0) (paper_coding cds)) }
{
    let len = spots::last(transcript, at.count);
    let n = lone::beside_n(at, transcript, exons, place, number);
    chaining::then_n_to_c(n, len, cds, strict)
}

// The c. answer of any g. interval: g. to n. wholly, then n. to c.
fn interval_c(
    at: Alignment,
    genome: &[u32; MOST_STARTS],
    transcript: &[u32; MOST_STARTS],
    letters: &[u8; MOST_SEGMENTS],
    exons: &[u16; MOST_SEGMENTS],
    cds: Option<Cds>,
    ends: Result<Interval<i32>, Refusal>,
    strict: bool,
) -> Answer
    requires { Aligns at (tables genome.now transcript.now letters.now) }
    ensures { result ≡ laid c_laid (chain asks_n (and_then ends (map_g_to_n strict (aligned_by at (tables genome.now transcript.now letters.now) exons.now))) (map_n_to_c strict (get_or transcript.now at.count 0) (paper_coding cds))) }
{
    match ends {
        Ok(i) => {
            let len = spots::last(transcript, at.count);
            let n = places::to_n(at, genome, transcript, letters, exons, i.from, i.to, strict);
            lay::lay(chaining::then_n_to_c(n, len, cds, strict))
        }
        Err(k) => lay::refusal_of(k),
    }
}

// g. to c.: g. to n. wholly, then n. to c.
pub fn g_to_c(
    head: Head,
    genome: &[u32; MOST_STARTS],
    transcript: &[u32; MOST_STARTS],
    letters: &[u8; MOST_SEGMENTS],
    exons: &[u16; MOST_SEGMENTS],
    start: i32,
    end: i32,
    missing: u32,
    strict: bool,
) -> Answer
    ensures { result ≡ laid c_laid (checked (lent head genome.now transcript.now letters.now exons.now) (ask_g_to_c strict (g_asked start end missing))) }
{
    match knowing::told_of(head, transcript) {
        Ok(Known::Aligned(cds, at)) => {
            let ends = chaining::both_ends(taking::g_asked(start, end, missing));
            let sought = seek_base(at, genome, ends);
            if knowing::tables_hold(at, genome, transcript, letters, exons) {
                if let Some(base) = sought {
                    let spot = spots::spot_at_g(
                        at,
                        genome,
                        transcript,
                        letters,
                        base.place,
                        base.number,
                    );
                    if spot.sure {
                        return surely::sure_c(at, transcript, exons, cds, spot, strict);
                    }
                    return lay::lay(beside_c(
                        at,
                        transcript,
                        exons,
                        cds,
                        spot.place,
                        spot.number,
                        strict,
                    ));
                }
                return interval_c(at, genome, transcript, letters, exons, cds, ends, strict);
            }
            lay::refusal_of(Refusal::NotTogether)
        }
        Ok(Known::OfLength(_, _)) => lay::refusal_of(Refusal::NoGenome),
        Err(k) => lay::refusal_of(k),
    }
}

// c. to g.: c. to n. wholly, then n. to g.
pub fn c_to_g(
    head: Head,
    genome: &[u32; MOST_STARTS],
    transcript: &[u32; MOST_STARTS],
    letters: &[u8; MOST_SEGMENTS],
    exons: &[u16; MOST_SEGMENTS],
    start: i32,
    start_offset: i32,
    start_star: bool,
    end: i32,
    end_offset: i32,
    end_star: bool,
    strict: bool,
) -> Answer
    ensures { result ≡ laid g_laid (checked (lent head genome.now transcript.now letters.now exons.now) (ask_c_to_g strict (c_asked start start_offset start_star end end_offset end_star))) }
{
    let asked = taking::c_asked(start, start_offset, start_star, end, end_offset, end_star);
    match knowing::told_of(head, transcript) {
        Ok(Known::Aligned(cds, at)) => {
            let sought = surely::seek_name(at, transcript, cds, asked, strict);
            if knowing::tables_hold(at, genome, transcript, letters, exons) {
                if let Some(base) = sought {
                    let spot = spots::spot_at_n(
                        at,
                        genome,
                        transcript,
                        letters,
                        base.place,
                        base.number,
                    );
                    if spot.sure {
                        return surely::sure_g(at, exons, spot, start_offset);
                    }
                    return lay::lay(lone::beside_g(
                        at,
                        exons,
                        spot.place,
                        spot.number,
                        start_offset,
                    ));
                }
                let len = spots::last(transcript, at.count);
                let n = chaining::c_to_n(len, cds, asked, strict);
                return lay::lay(chaining::then_n_to_g(
                    n, at, genome, transcript, letters, exons, strict,
                ));
            }
            lay::refusal_of(Refusal::NotTogether)
        }
        Ok(Known::OfLength(cds, length)) => {
            lay::lay(chaining::then_no_genome(chaining::c_to_n(length, cds, asked, strict)))
        }
        Err(k) => lay::refusal_of(k),
    }
}
