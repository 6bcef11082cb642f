// A question of one of the six mappings as one value of plain numbers, as the host and a log have it.
ghost use Rattle.std.specs.Prelude.{◌≡◌};
ghost use Rattle.positions.specs.Paper.{paper_n_question, paper_c_question};
ghost use Rattle.taking.specs.Questions.{is_star, is_missing, is_strict, kind_of, g_of, n_of, c_of};

use positions::{CQuestion, GQuestion, Interval, NQuestion};
use refusals::Refusal;

// The numbers of the kinds at the boundary and in a log.
pub const G_TO_N: u32 = 0;

pub const N_TO_G: u32 = 1;

pub const N_TO_C: u32 = 2;

pub const C_TO_N: u32 = 3;

pub const G_TO_C: u32 = 4;

pub const C_TO_G: u32 = 5;

// Which mapping is asked for.
#[derive(Clone, Copy, PartialEq, Eq)]
pub enum Kind {
    GToN,
    NToG,
    NToC,
    CToN,
    GToC,
    CToG,
}

// 35 of a number that no kind has.
impl TryFrom<u32> for Kind {
    type Error = Refusal;

    ghost try_from_gives = { λ k r. r ≡ kind_of k };

    fn try_from(number: u32) -> Result<Kind, Refusal> {
        match number {
            G_TO_N => Ok(Kind::GToN),
            N_TO_G => Ok(Kind::NToG),
            N_TO_C => Ok(Kind::NToC),
            C_TO_N => Ok(Kind::CToN),
            G_TO_C => Ok(Kind::GToC),
            C_TO_G => Ok(Kind::CToG),
            _ => Err(Refusal::NoLog),
        }
    }
}

// `kind` is the number of a kind and `strict` is 0 or 1: the C interface has them so. Of an end's marks bit 0 says star and bit 1 says missing.
#[repr(C)]
#[derive(Clone, Copy)]
pub struct Question {
    pub kind: u32,
    pub strict: u32,
    pub start_marks: u32,
    pub end_marks: u32,
    pub start: i32,
    pub start_offset: i32,
    pub end: i32,
    pub end_offset: i32,
}

// Whether an end's marks say star.
pub fn is_star(marks: u32) -> bool
    ensures { result ≡ is_star marks }
{
    marks % 2 == 1
}

// Whether an end's marks say missing.
pub fn is_missing(marks: u32) -> bool
    ensures { result ≡ is_missing marks }
{
    marks / 2 % 2 == 1
}

// Whether a question asks for strict bounds.
pub fn is_strict(q: Question) -> bool
    ensures { result ≡ is_strict q }
{
    q.strict == 1
}

// The g. interval of a question.
#[tactic(auto, unfolding(crate::specs::Questions::g_of))]
pub fn g_of(q: Question) -> GQuestion
    ensures { result ≡ g_of q }
{
    let from = crate::g_end(is_missing(q.start_marks), q.start);
    let to = crate::g_end(is_missing(q.end_marks), q.end);
    Interval { from, to }
}

// The n. interval of a question.
#[tactic(auto, unfolding(crate::specs::Questions::n_of))]
pub fn n_of(q: Question) -> NQuestion
    ensures { paper_n_question result ≡ n_of q }
{
    crate::n_asked(q.start, q.start_offset, q.end, q.end_offset)
}

// The c. interval of a question.
#[tactic(auto, unfolding(crate::specs::Questions::c_of))]
pub fn c_of(q: Question) -> CQuestion
    ensures { paper_c_question result ≡ c_of q }
{
    let start_star = is_star(q.start_marks);
    let end_star = is_star(q.end_marks);
    crate::c_asked(
        q.start,
        q.start_offset,
        start_star,
        q.end,
        q.end_offset,
        end_star,
    )
}
