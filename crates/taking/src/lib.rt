// What a host asks, taken apart: the ends of an interval.
#![tactic(auto)]

ghost use Rattle.std.specs.Prelude.{◌≡◌};
ghost use Rattle.positions.specs.Paper.{paper_n_question, paper_c_question};
ghost use Rattle.taking.specs.Taking.{g_end, g_asked, n_asked, c_asked};

use positions::{CAsked, CQuestion, GQuestion, Interval, NAsked, NQuestion};

pub mod question;

// One end of a g. interval.
pub fn g_end(missing: bool, z: i32) -> Option<i32>
    ensures { result ≡ g_end missing z }
{
    if missing { None } else { Some(z) }
}

// A g. interval: bit 0 of `missing` is the start's, bit 1 the end's.
#[tactic(auto, unfolding(crate::specs::Taking::g_asked))]
pub fn g_asked(start: i32, end: i32, missing: u32) -> GQuestion
    ensures { result ≡ g_asked start end missing }
{
    let from = g_end(missing % 2 == 1, start);
    let to = g_end(missing / 2 % 2 == 1, end);
    Interval { from, to }
}

// An n. interval.
pub fn n_asked(start: i32, start_offset: i32, end: i32, end_offset: i32) -> NQuestion
    ensures { paper_n_question result ≡ n_asked start start_offset end end_offset }
{
    Interval {
        from: NAsked {
            base: start,
            offset: start_offset,
        },
        to: NAsked {
            base: end,
            offset: end_offset,
        },
    }
}

// A c. interval.
pub fn c_asked(
    start: i32,
    start_offset: i32,
    start_star: bool,
    end: i32,
    end_offset: i32,
    end_star: bool,
) -> CQuestion
    ensures { paper_c_question result ≡ c_asked start start_offset start_star end end_offset end_star }
{
    Interval {
        from: CAsked {
            base: start,
            star: start_star,
            offset: start_offset,
        },
        to: CAsked {
            base: end,
            star: end_star,
            offset: end_offset,
        },
    }
}
