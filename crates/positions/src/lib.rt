// Positions and intervals as they are asked and as they are answered, and what a question is answered with.
#![tactic(auto)]

ghost use Rattle.std.specs.Prelude.{◌≡◌};
ghost use Rattle.positions.specs.Positions.{each, asks_n};
ghost use Rattle.positions.specs.Paper.{paper_n_asked, paper_n_position, paper_n_interval, paper_n_question};

use refusals::Refusal;

pub mod fitting;

// An interval by its two ends, of positions of any kind.
#[derive(Clone, Copy)]
pub struct Interval<P> {
    pub from: P,
    pub to: P,
}

// An n. number with an intron offset, 0 for none, as it is asked.
#[derive(Clone, Copy)]
pub struct NAsked {
    pub base: i32,
    pub offset: i32,
}

// A c. number, whether it bears a star, and an intron offset, 0 for none, as it is asked.
#[derive(Clone, Copy, PartialEq, Eq)]
pub struct CAsked {
    pub base: i32,
    pub star: bool,
    pub offset: i32,
}

// What is asked of. Either end of a g. interval is a number, or missing.
pub type GQuestion = Interval<Option<i32>>;

pub type NQuestion = Interval<NAsked>;

pub type CQuestion = Interval<CAsked>;

// The same three positions as they are answered.
#[derive(Clone, Copy)]
pub struct GPosition {
    pub base: i32,
}

#[derive(Clone, Copy)]
pub struct NPosition {
    pub base: i32,
    pub offset: i32,
}

#[derive(Clone, Copy)]
pub struct CPosition {
    pub base: i32,
    pub star: bool,
    pub offset: i32,
}

// The number of the exon of each end of an interval, which a question across the genome is answered with too.
pub type Exons = Interval<u16>;

// An interval across the genome with its exons, which is certain or uncertain.
#[derive(Clone, Copy)]
pub enum Marked<P> {
    Certain(Interval<P>, Exons),
    Uncertain(Interval<P>, Exons),
}

// What a question across the genome is answered with.
pub type Answer<P> = Result<Marked<P>, Refusal>;

// What n. to c. and back are answered with: they bear no mark.
pub type Plain<P> = Result<Interval<P>, Refusal>;

// An n. position that was answered, asked again.
impl From<NPosition> for NAsked {
    ghost from_gives = { λ a r. paper_n_asked r ≡ asks_n (paper_n_position a) };

    fn from(a: NPosition) -> NAsked {
        let base = a.base;
        let offset = a.offset;
        NAsked { base, offset }
    }
}

// An n. interval that was answered, asked again.
pub fn asked_again(i: Interval<NPosition>) -> NQuestion
    ensures { paper_n_question result ≡ each asks_n (paper_n_interval i) }
{
    let from = NAsked::from(i.from);
    let to = NAsked::from(i.to);
    Interval { from, to }
}
