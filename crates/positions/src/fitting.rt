// Numbers of the boundary as whole numbers and back: 17 where one does not fit its 32 bits; and intervals of two such ends.
ghost use Rattle.std.specs.Prelude.{◌≡◌};
ghost use Rattle.whole.specs.Whole.{Within};
ghost use Rattle.whole.specs.Fits.{fits};
ghost use Rattle.refusals.specs.Outcome.{through, both};
ghost use Rattle.positions.specs.Positions.{between};
ghost use Rattle.positions.specs.Answers.{g_fits, n_fits, c_fits, if_fits};
ghost use Rattle.positions.specs.Paper.{paper_g_end, paper_n_end, paper_c_end, marking};

use crate::{Answer, CPosition, Exons, GPosition, Interval, Marked, NPosition, Plain};
use numbering::{CNumber, NNumber};
use refusals::Refusal;

// An n. number of the boundary as a whole number.
pub fn whole_n(base: i32) -> NNumber
    ensures { (result.0 ≡ base) × Within 40 result.0 }
{
    let n = base as i64;
    NNumber(n)
}

// The number in 32 bits, or 17.
fn fitted(z: i64) -> Result<i32, Refusal>
    ensures { result ≡ if_fits fits z }
{
    whole::fits(z).ok_or(Refusal::TooWide)
}

// The g. number, or 17.
pub fn g_end(g: i64) -> Result<GPosition, Refusal>
    ensures { paper_g_end result ≡ if_fits g_fits (record { base = g }) }
{
    let base = fitted(g)?;
    Ok(GPosition { base })
}

// The n. number with its offset, or 17.
pub fn n_end(n: NNumber, offset: i64) -> Result<NPosition, Refusal>
    ensures { paper_n_end result ≡ if_fits n_fits (record { base = n.0; offset = offset }) }
{
    let base = fitted(n.0)?;
    let offset = fitted(offset)?;
    Ok(NPosition { base, offset })
}

// The c. number with its offset, which is the boundary's, or 17.
pub fn c_end(c: CNumber, offset: i32) -> Result<CPosition, Refusal>
    ensures { paper_c_end result ≡ if_fits c_fits (record { base = c; offset = offset }) }
{
    let star = c.1;
    let base = fitted(c.0)?;
    Ok(CPosition { base, star, offset })
}

// The interval of two ends, or the first refusal.
pub fn both<P: Copy>(a: Result<P, Refusal>, b: Result<P, Refusal>) -> Plain<P>
    ensures { result ≡ both between a b }
{
    let from = a?;
    let to = b?;
    Ok(Interval { from, to })
}

// An interval that bore no mark, with the mark and the exons of the step before it; a refusal stays.
pub fn marked<P: Copy>(certain: bool, exons: Exons, a: Plain<P>) -> Answer<P>
    ensures { result ≡ through (marking certain exons) a }
{
    let interval = a?;
    if certain {
        return Ok(Marked::Certain(interval, exons));
    }
    Ok(Marked::Uncertain(interval, exons))
}
