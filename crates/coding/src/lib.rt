// Between n. and c., with the transcript's length and the CDS's start s and end e: numbers, then positions, then intervals.
#![tactic(auto)]

ghost use Rattle.std.specs.Prelude.{◌≡◌, pos};
ghost use Rattle.whole.specs.Whole.{Within};
ghost use Rattle.numbering.specs.Numbers.{n_of_c};
ghost use Rattle.positions.specs.Answers.{if_fits, c_fits};
ghost use Rattle.positions.specs.Positions.{asks_n};
ghost use Rattle.positions.specs.Paper.{paper_c_asked, paper_n_question, paper_c_question, paper_n_position, paper_n_end, paper_c_end, paper_n_plain, paper_c_plain};
ghost use Rattle.transcript.specs.Transcript.{Cds.cds};
ghost use Rattle.coding.specs.Coding.{beyond, c_position, one_to_c, n_position, map_n_to_c, map_c_to_n, same_c};

use numbering::{CNumber, NNumber};
use positions::{CAsked, CPosition, CQuestion, NPosition, NQuestion, Plain, fitting};
use refusals::Refusal;

// Strict: whether the number is 0 or less, or above the length.
#[tactic(auto, unfolding(crate::specs::Coding::beyond))]
fn is_beyond(strict: bool, len: u32, n: NNumber) -> bool
    ensures { result ≡ beyond strict len n.0 }
{
    if strict {
        let number = n.0;
        let end = len as i64;
        if number <= 0 {
            return true;
        }
        return end < number;
    }
    false
}

// A position as c.: its number crosses over, its offset stays; 17.
#[tactic(auto, unfolding(crate::specs::Coding::c_position))]
fn c_position(s: u32, e: u32, n: NNumber, offset: i32) -> Result<CPosition, Refusal>
    requires { Within 40 n.0 }
    ensures { paper_c_end result ≡ if_fits c_fits (c_position s e (record { base = n.0; offset = offset })) }
{
    let start = s as i64;
    let end = e as i64;
    fitting::c_end(numbering::n_to_c(n, start, end), offset)
}

// The n. number of a c. position.
fn n_number(s: u32, e: u32, c: CAsked) -> NNumber
    ensures { result.0 ≡ n_of_c (pos s) (pos e) (paper_c_asked c).base }
{
    let base = c.base as i64;
    let start = s as i64;
    let end = e as i64;
    numbering::c_to_n(CNumber(base, c.star), start, end)
}

// A position as n.: its number crosses over, its offset stays; 16, then 17.
#[tactic(auto, unfolding(crate::specs::Coding::n_position))]
pub fn n_position(strict: bool, len: u32, s: u32, e: u32, c: CAsked) -> Result<NPosition, Refusal>
    ensures { paper_n_end result ≡ n_position strict len s e (paper_c_asked c) }
{
    let n = n_number(s, e, c);
    if is_beyond(strict, len, n) {
        return Err(Refusal::COutside);
    }
    let offset = c.offset as i64;
    fitting::n_end(n, offset)
}

// n. to c. of a transcript that has a CDS: 15, then 17.
#[tactic(auto, unfolding(crate::specs::Coding::map_n_to_c, crate::specs::Coding::c_of_interval))]
pub fn to_c(strict: bool, len: u32, s: u32, e: u32, q: NQuestion) -> Plain<CPosition>
    ensures { paper_c_plain result ≡ map_n_to_c strict len (cds s e) (paper_n_question q) }
{
    let from = q.from;
    let to = q.to;
    let a = fitting::whole_n(from.base);
    let b = fitting::whole_n(to.base);
    if is_beyond(strict, len, a) | is_beyond(strict, len, b) {
        return Err(Refusal::NOutside);
    }
    fitting::both(
        c_position(s, e, a, from.offset),
        c_position(s, e, b, to.offset),
    )
}

// n. to c. of one position, which is both ends of its interval: 15, then 17.
#[tactic(auto, unfolding(crate::specs::Coding::one_to_c))]
pub fn one_to_c(strict: bool, len: u32, s: u32, e: u32, n: NPosition) -> Result<CPosition, Refusal>
    ensures { paper_c_end result ≡ one_to_c strict len s e (asks_n (paper_n_position n)) }
{
    let number = fitting::whole_n(n.base);
    if is_beyond(strict, len, number) {
        return Err(Refusal::NOutside);
    }
    c_position(s, e, number, n.offset)
}

// Whether two c. positions are one.
#[tactic(auto, unfolding(crate::specs::Coding::same_c))]
pub fn is_same(a: CAsked, b: CAsked) -> bool
    ensures { result ≡ same_c (paper_c_asked a) (paper_c_asked b) }
{
    a == b
}

// c. to n. of a transcript that has a CDS: the start wholly, then the end. A position that is both is numbered once, for speed.
#[tactic(auto, unfolding(crate::specs::Coding::map_c_to_n), using(positions::specs::laws::Reading::both_says))]
pub fn to_n(strict: bool, len: u32, s: u32, e: u32, q: CQuestion) -> Plain<NPosition>
    ensures { paper_n_plain result ≡ map_c_to_n strict len (cds s e) (paper_c_question q) }
{
    let from = q.from;
    let to = q.to;
    if is_same(from, to) {
        let one = n_position(strict, len, s, e, from);
        return fitting::both(one, one);
    }
    fitting::both(
        n_position(strict, len, s, e, from),
        n_position(strict, len, s, e, to),
    )
}
