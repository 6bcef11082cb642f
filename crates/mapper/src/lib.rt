// The g., n. and c. questions to a transcript that a host lends. What is lent is known once, and each question is one match over it.
#![tactic(auto)]

ghost use Rattle.std.specs.Prelude.{◌≡◌};
ghost use Rattle.holding.specs.Holding.{lent, checked};
ghost use Rattle.positions.specs.Paper.{paper_n_question, paper_c_question, paper_g, paper_n, paper_c, paper_n_plain, paper_c_plain};
ghost use Rattle.mapper.specs.Asking.{ask_g_to_n, ask_n_to_g, ask_n_to_c, ask_c_to_n, ask_g_to_c, ask_c_to_g, ask_coding, ask_in_bounds};

use knowing::Known;
use positions::{Answer, CPosition, CQuestion, GPosition, GQuestion, NPosition, NQuestion, Plain};
use refusals::{MOST_SEGMENTS, MOST_STARTS, Refusal};
use transcript::Head;

// g. to n.: 23, 18, 19, 14, 17.
pub fn g_to_n(
    head: Head,
    genome: &[u32; MOST_STARTS],
    transcript: &[u32; MOST_STARTS],
    letters: &[u8; MOST_SEGMENTS],
    exons: &[u16; MOST_SEGMENTS],
    q: GQuestion,
    strict: bool,
) -> Answer<NPosition>
    ensures { paper_n result ≡ checked (lent head genome.now transcript.now letters.now exons.now) (ask_g_to_n strict q) }
{
    match knowing::known_of(head, genome, transcript, letters, exons)? {
        Known::Aligned(_, at) => chaining::g_to_n(
            at, genome, transcript, letters, exons, q, strict,
        ),
        Known::OfLength(_, _) => Err(Refusal::NoGenome),
    }
}

// n. to g.: 23, 18, 14, 17.
pub fn n_to_g(
    head: Head,
    genome: &[u32; MOST_STARTS],
    transcript: &[u32; MOST_STARTS],
    letters: &[u8; MOST_SEGMENTS],
    exons: &[u16; MOST_SEGMENTS],
    q: NQuestion,
    strict: bool,
) -> Answer<GPosition>
    ensures { paper_g result ≡ checked (lent head genome.now transcript.now letters.now exons.now) (ask_n_to_g strict (paper_n_question q)) }
{
    match knowing::known_of(head, genome, transcript, letters, exons)? {
        Known::Aligned(_, at) => places::to_g(at, genome, transcript, letters, exons, q, strict),
        Known::OfLength(_, _) => Err(Refusal::NoGenome),
    }
}

// n. to c.: 23, 13, 15, 17.
pub fn n_to_c(
    head: Head,
    genome: &[u32; MOST_STARTS],
    transcript: &[u32; MOST_STARTS],
    letters: &[u8; MOST_SEGMENTS],
    exons: &[u16; MOST_SEGMENTS],
    q: NQuestion,
    strict: bool,
) -> Plain<CPosition>
    ensures { paper_c_plain result ≡ checked (lent head genome.now transcript.now letters.now exons.now) (ask_n_to_c strict (paper_n_question q)) }
{
    match knowing::known_of(head, genome, transcript, letters, exons)? {
        Known::Aligned(cds, at) => {
            chaining::n_to_c(spots::last(transcript, at.count), cds, q, strict)
        }
        Known::OfLength(cds, length) => chaining::n_to_c(length, cds, q, strict),
    }
}

// c. to n.: 23, 13, then the start's 16, 17, then the end's.
pub fn c_to_n(
    head: Head,
    genome: &[u32; MOST_STARTS],
    transcript: &[u32; MOST_STARTS],
    letters: &[u8; MOST_SEGMENTS],
    exons: &[u16; MOST_SEGMENTS],
    q: CQuestion,
    strict: bool,
) -> Plain<NPosition>
    ensures { paper_n_plain result ≡ checked (lent head genome.now transcript.now letters.now exons.now) (ask_c_to_n strict (paper_c_question q)) }
{
    match knowing::known_of(head, genome, transcript, letters, exons)? {
        Known::Aligned(cds, at) => {
            chaining::c_to_n(spots::last(transcript, at.count), cds, q, strict)
        }
        Known::OfLength(cds, length) => chaining::c_to_n(length, cds, q, strict),
    }
}

// g. to c.: g. to n. wholly, then n. to c., checked once.
pub fn g_to_c(
    head: Head,
    genome: &[u32; MOST_STARTS],
    transcript: &[u32; MOST_STARTS],
    letters: &[u8; MOST_SEGMENTS],
    exons: &[u16; MOST_SEGMENTS],
    q: GQuestion,
    strict: bool,
) -> Answer<CPosition>
    ensures { paper_c result ≡ checked (lent head genome.now transcript.now letters.now exons.now) (ask_g_to_c strict q) }
{
    match knowing::known_of(head, genome, transcript, letters, exons)? {
        Known::Aligned(cds, at) => {
            let length = spots::last(transcript, at.count);
            let n = chaining::g_to_n(at, genome, transcript, letters, exons, q, strict);
            chaining::then_n_to_c(n, length, cds, strict)
        }
        Known::OfLength(_, _) => Err(Refusal::NoGenome),
    }
}

// c. to g.: c. to n. wholly, then n. to g., checked once.
pub fn c_to_g(
    head: Head,
    genome: &[u32; MOST_STARTS],
    transcript: &[u32; MOST_STARTS],
    letters: &[u8; MOST_SEGMENTS],
    exons: &[u16; MOST_SEGMENTS],
    q: CQuestion,
    strict: bool,
) -> Answer<GPosition>
    ensures { paper_g result ≡ checked (lent head genome.now transcript.now letters.now exons.now) (ask_c_to_g strict (paper_c_question q)) }
{
    match knowing::known_of(head, genome, transcript, letters, exons)? {
        Known::Aligned(cds, at) => {
            let length = spots::last(transcript, at.count);
            let n = chaining::c_to_n(length, cds, q, strict);
            chaining::then_n_to_g(n, at, genome, transcript, letters, exons, strict)
        }
        Known::OfLength(cds, length) => chaining::then_no_genome(chaining::c_to_n(
            length, cds, q, strict,
        )),
    }
}

// Whether the transcript codes: 23.
pub fn is_coding_transcript(
    head: Head,
    genome: &[u32; MOST_STARTS],
    transcript: &[u32; MOST_STARTS],
    letters: &[u8; MOST_SEGMENTS],
    exons: &[u16; MOST_SEGMENTS],
) -> Result<bool, Refusal>
    ensures { result ≡ checked (lent head genome.now transcript.now letters.now exons.now) ask_coding }
{
    // One or-pattern for both arms was tried, and its proof did not close.
    match knowing::known_of(head, genome, transcript, letters, exons)? {
        Known::Aligned(cds, _) => Ok(chaining::is_coding(cds)),
        Known::OfLength(cds, _) => Ok(chaining::is_coding(cds)),
    }
}

// Whether a g. interval is in bounds: 23, 18, 19.
pub fn is_g_interval_in_bounds(
    head: Head,
    genome: &[u32; MOST_STARTS],
    transcript: &[u32; MOST_STARTS],
    letters: &[u8; MOST_SEGMENTS],
    exons: &[u16; MOST_SEGMENTS],
    q: GQuestion,
) -> Result<bool, Refusal>
    ensures { result ≡ checked (lent head genome.now transcript.now letters.now exons.now) (ask_in_bounds q) }
{
    match knowing::known_of(head, genome, transcript, letters, exons)? {
        Known::Aligned(_, at) => chaining::is_in_bounds(at, genome, q),
        Known::OfLength(_, _) => Err(Refusal::NoGenome),
    }
}
