// The steps of the questions, over what is known of a transcript: 19, 13, the mappings, and the second step of a chain.
#![tactic(auto)]

ghost use Rattle.std.specs.Prelude.{◌≡◌, ◌≤◌, get_or};
ghost use Rattle.refusals.specs.Numbers.{most_segments};
ghost use Rattle.refusals.specs.declared.Refusal.TheVariants.{NoGenome};
ghost use Rattle.refusals.specs.Outcome.{and_then, through};
ghost use Rattle.segments.specs.Tables.{tables};
ghost use Rattle.positions.specs.Positions.{asks_n};
ghost use Rattle.positions.specs.Answers.{chain};
ghost use Rattle.positions.specs.Paper.{paper_n_question, paper_c_question, paper_g, paper_n, paper_c, paper_n_plain, paper_c_plain};
ghost use Rattle.coding.specs.Coding.{map_n_to_c, map_c_to_n};
ghost use Rattle.spots.specs.Mapping.{map_g_to_n, map_n_to_g, lies_in_bounds};
ghost use Rattle.spots.specs.Aligned.{aligned_by, Aligns};
ghost use Rattle.chaining.specs.Given.{given, codes};
ghost use Rattle.knowing.specs.Knowing.{paper_coding};

use knowing::Cds;
use positions::{
    Answer, CPosition, CQuestion, GPosition, GQuestion, Interval, Marked, NPosition, NQuestion,
    Plain, fitting,
};
use refusals::{MOST_SEGMENTS, MOST_STARTS, Refusal};
use spots::Alignment;

// The two ends of a g. interval, where both are given; 19.
pub fn both_ends(q: GQuestion) -> Result<Interval<i32>, Refusal>
    ensures { result ≡ given q }
{
    let from = q.from.ok_or(Refusal::MissingEnd)?;
    let to = q.to.ok_or(Refusal::MissingEnd)?;
    Ok(Interval { from, to })
}

// g. to n.: 19, 14, 17.
pub fn g_to_n(
    at: Alignment,
    genome: &[u32; MOST_STARTS],
    transcript: &[u32; MOST_STARTS],
    letters: &[u8; MOST_SEGMENTS],
    exons: &[u16; MOST_SEGMENTS],
    q: GQuestion,
    strict: bool,
) -> Answer<NPosition>
    requires { Aligns at (tables genome.now transcript.now letters.now) }
    ensures { paper_n result ≡ and_then (given q) (map_g_to_n strict (aligned_by at (tables genome.now transcript.now letters.now) exons.now)) }
{
    let ends = both_ends(q)?;
    places::to_n(
        at, genome, transcript, letters, exons, ends.from, ends.to, strict,
    )
}

// n. to c. of a transcript of that length: 13, 15, 17.
#[tactic(auto, unfolding(coding::specs::Coding::map_n_to_c, coding::specs::Coding::c_of_interval))]
pub fn n_to_c(length: u32, cds: Option<Cds>, q: NQuestion, strict: bool) -> Plain<CPosition>
    ensures { paper_c_plain result ≡ map_n_to_c strict length (paper_coding cds) (paper_n_question q) }
{
    let c = cds.ok_or(Refusal::NotCoding)?;
    coding::to_c(strict, length, c.start, c.end, q)
}

// c. to n. of a transcript of that length: 13, 16, 17.
#[tactic(auto, unfolding(coding::specs::Coding::map_c_to_n))]
pub fn c_to_n(length: u32, cds: Option<Cds>, q: CQuestion, strict: bool) -> Plain<NPosition>
    ensures { paper_n_plain result ≡ map_c_to_n strict length (paper_coding cds) (paper_c_question q) }
{
    let c = cds.ok_or(Refusal::NotCoding)?;
    coding::to_n(strict, length, c.start, c.end, q)
}

// The second step of g. to c.
pub fn then_n_to_c(
    n: Answer<NPosition>,
    length: u32,
    cds: Option<Cds>,
    strict: bool,
) -> Answer<CPosition>
    ensures { paper_c result ≡ chain asks_n (paper_n n) (map_n_to_c strict length (paper_coding cds)) }
{
    match n? {
        Marked::Certain(i, exons) => {
            let q = positions::asked_again(i);
            fitting::marked(true, exons, n_to_c(length, cds, q, strict))
        }
        Marked::Uncertain(i, exons) => {
            let q = positions::asked_again(i);
            fitting::marked(false, exons, n_to_c(length, cds, q, strict))
        }
    }
}

// The second step of c. to g.
pub fn then_n_to_g(
    n: Plain<NPosition>,
    at: Alignment,
    genome: &[u32; MOST_STARTS],
    transcript: &[u32; MOST_STARTS],
    letters: &[u8; MOST_SEGMENTS],
    exons: &[u16; MOST_SEGMENTS],
    strict: bool,
) -> Answer<GPosition>
    requires { Aligns at (tables genome.now transcript.now letters.now) }
    ensures { paper_g result ≡ chain asks_n (paper_n_plain n) (map_n_to_g strict (aligned_by at (tables genome.now transcript.now letters.now) exons.now)) }
{
    let q = positions::asked_again(n?);
    places::to_g(at, genome, transcript, letters, exons, q, strict)
}

// The same of a transcript that is known by its length alone: 18 after the first step.
pub fn then_no_genome(n: Plain<NPosition>) -> Answer<GPosition>
    ensures { paper_g result ≡ chain asks_n (paper_n_plain n) (λ i. Err NoGenome) }
{
    n?;
    Err(Refusal::NoGenome)
}

// Whether there is a CDS.
pub fn is_coding(cds: Option<Cds>) -> bool
    ensures { result ≡ codes (paper_coding cds) }
{
    cds.is_some()
}

// Whether a g. interval is in bounds: 19, then the question.
pub fn is_in_bounds(
    at: Alignment,
    genome: &[u32; MOST_STARTS],
    q: GQuestion,
) -> Result<bool, Refusal>
    requires { at.count ≤ most_segments }
    ensures { result ≡ through (lies_in_bounds at.first (get_or genome.now at.count 0)) (given q) }
{
    let bounds = both_ends(q)?;
    Ok(places::is_in_bounds(at, genome, bounds.from, bounds.to))
}
