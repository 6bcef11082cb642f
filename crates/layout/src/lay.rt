// Answers as the host has them: a `#[repr(C)]` struct of numbers for each kind, all 0 but its number where it is a refusal. Marks, stars and refusals are numbers here, since the C interface has them so.
ghost use Rattle.std.specs.Prelude.{◌≡◌, ℕ};
ghost use Rattle.refusals.specs.Numbers.{number};
ghost use Rattle.refusals.specs.Outcome.{through};
ghost use Rattle.positions.specs.Positions.{each, GPosition as PaperG, NPosition as PaperN, CPosition as PaperC};
ghost use Rattle.positions.specs.Answers.{once, mark_of, unmarked};
ghost use Rattle.positions.specs.Paper.{paper_marked, paper_unmarked, paper_g_position, paper_n_position, paper_c_position};
ghost use Rattle.layout.specs.Layout.{star_of, g_laid, n_laid, c_laid, refusal, laid, said_laid};

use positions::{CPosition, Exons, GPosition, Interval, Marked, NPosition, Plain};
use refusals::Refusal;

// `exon` is 0 where the mapping carries no exon's number.
#[repr(C)]
#[derive(Clone, Copy, PartialEq, Eq)]
pub struct Position {
    pub base: i32,
    pub offset: i32,
    pub star: u32,
    pub exon: u32,
}

// `mark` is 1 for a certain answer, 2 for an uncertain one, 3 where it bears none.
#[repr(C)]
#[derive(Clone, Copy, PartialEq, Eq)]
pub struct Answer {
    pub number: u32,
    pub mark: u32,
    pub start: Position,
    pub end: Position,
}

#[repr(C)]
#[derive(Clone, Copy)]
pub struct Said {
    pub number: u32,
    pub yes: u32,
}

#[repr(C)]
#[derive(Clone, Copy)]
pub struct Length {
    pub number: u32,
    pub length: usize,
}

// A star or another yes as a number.
pub fn star_number(star: bool) -> u32
    ensures { result ≡ star_of star }
{
    u32::from(star)
}

// A position of any kind, laid out with its exon's number.
pub trait Laid: Copy {
    ghost use Rattle.layout.specs.declared.lay.Position.{Position};

    ghost Paper: { Type 0 };

    ghost says: { Self → Paper };

    ghost place: { ℕ → Paper → Position };

    fn lay_with(self, exon: u16) -> Position
        ensures { result ≡ place exon (says self) };
}

impl Laid for GPosition {
    ghost Paper = { PaperG };

    ghost says = { paper_g_position };

    ghost place = { g_laid };

    fn lay_with(self, exon: u16) -> Position {
        Position {
            base: self.base,
            offset: 0,
            star: 0,
            exon: u32::from(exon),
        }
    }
}

impl Laid for NPosition {
    ghost Paper = { PaperN };

    ghost says = { paper_n_position };

    ghost place = { n_laid };

    fn lay_with(self, exon: u16) -> Position {
        Position {
            base: self.base,
            offset: self.offset,
            star: 0,
            exon: u32::from(exon),
        }
    }
}

impl Laid for CPosition {
    ghost Paper = { PaperC };

    ghost says = { paper_c_position };

    ghost place = { c_laid };

    fn lay_with(self, exon: u16) -> Position {
        Position {
            base: self.base,
            offset: self.offset,
            star: star_number(self.star),
            exon: u32::from(exon),
        }
    }
}

// A number alone, laid out: all else is 0. It is put together once, as an answer that is made of another is copied in other pieces than it was stored in.
fn bare(number: u32) -> Answer
    ensures { result ≡ refusal number }
{
    let nowhere = Position {
        base: 0,
        offset: 0,
        star: 0,
        exon: 0,
    };
    Answer {
        number,
        mark: 0,
        start: nowhere,
        end: nowhere,
    }
}

// Nothing laid out: all is 0.
pub fn blank() -> Answer
    ensures { result ≡ refusal 0 }
{
    bare(0)
}

// A refusal laid out: all but its number is 0.
pub fn refusal_of(k: Refusal) -> Answer
    ensures { result ≡ refusal (number k) }
{
    bare(u32::from(k.number()))
}

// A certain answer of one position, with its exon.
pub fn lay_one<P: Laid>(exon: u16, a: P) -> Answer
    ensures { result ≡ laid P.place (once exon (P.says a)) }
{
    let at = a.lay_with(exon);
    Answer {
        number: 0,
        mark: 1,
        start: at,
        end: at,
    }
}

// An interval laid out, with its mark's number and its exons.
fn lay_interval<P: Laid>(mark: u32, exons: Exons, i: Interval<P>) -> Answer
    ensures { result ≡ record { number = 0; mark = mark; start = P.place exons.from (P.says i.from); end = P.place exons.to (P.says i.to) } }
{
    let start = i.from.lay_with(exons.from);
    let end = i.to.lay_with(exons.to);
    Answer {
        number: 0,
        mark,
        start,
        end,
    }
}

// An answer across the genome. It is woven into its callers, so that the answer is stored once, where the host has it.
#[inline(always)]
pub fn lay<P: Laid>(a: positions::Answer<P>) -> Answer
    ensures { result ≡ laid P.place (through (paper_marked P.says) a) }
{
    match a {
        Ok(Marked::Certain(i, exons)) => lay_interval(1, exons, i),
        Ok(Marked::Uncertain(i, exons)) => lay_interval(2, exons, i),
        Err(k) => refusal_of(k),
    }
}

// An answer between n. and c., which bears no mark.
pub fn lay_plain<P: Laid>(a: Plain<P>) -> Answer
    ensures { result ≡ laid P.place (through (paper_unmarked P.says) a) }
{
    match a {
        Ok(i) => lay_interval(3, Exons { from: 0, to: 0 }, i),
        Err(k) => refusal_of(k),
    }
}

// A yes or a no.
pub fn lay_said(a: Result<bool, Refusal>) -> Said
    ensures { result ≡ said_laid a }
{
    match a {
        Ok(yes) => Said {
            number: 0,
            yes: star_number(yes),
        },
        Err(k) => Said {
            number: u32::from(k.number()),
            yes: 0,
        },
    }
}
