// The questions for the host, over a lent head and the four lent tables.
ghost use Rattle.std.specs.Prelude.{◌≡◌};
ghost use Rattle.lending.specs.Lending.{lent_at};
ghost use Rattle.entry.specs.Told.{told_g_to_n, told_g_to_c, told_n_to_g, told_n_to_c, told_c_to_n, told_c_to_g, told_in_bounds, told_coding};

use layout::lay;
use layout::lay::{Answer, Said};
use refusals::{MOST_SEGMENTS, MOST_STARTS};

pub fn txc_g_to_n(
    head: &[i32; 9],
    genome: &[u32; MOST_STARTS],
    transcript: &[u32; MOST_STARTS],
    letters: &[u8; MOST_SEGMENTS],
    exons: &[u16; MOST_SEGMENTS],
    start: i32,
    end: i32,
    missing: u32,
    strict: bool,
) -> Answer
    ensures { result ≡ told_g_to_n (lent_at head.now genome.now transcript.now letters.now exons.now) start end missing strict }
{
    telling::g_to_n(
        lending::head_of(head),
        genome,
        transcript,
        letters,
        exons,
        start,
        end,
        missing,
        strict,
    )
}

pub fn txc_g_to_c(
    head: &[i32; 9],
    genome: &[u32; MOST_STARTS],
    transcript: &[u32; MOST_STARTS],
    letters: &[u8; MOST_SEGMENTS],
    exons: &[u16; MOST_SEGMENTS],
    start: i32,
    end: i32,
    missing: u32,
    strict: bool,
) -> Answer
    ensures { result ≡ told_g_to_c (lent_at head.now genome.now transcript.now letters.now exons.now) start end missing strict }
{
    telling::g_to_c(
        lending::head_of(head),
        genome,
        transcript,
        letters,
        exons,
        start,
        end,
        missing,
        strict,
    )
}

pub fn txc_n_to_g(
    head: &[i32; 9],
    genome: &[u32; MOST_STARTS],
    transcript: &[u32; MOST_STARTS],
    letters: &[u8; MOST_SEGMENTS],
    exons: &[u16; MOST_SEGMENTS],
    start: i32,
    start_offset: i32,
    end: i32,
    end_offset: i32,
    strict: bool,
) -> Answer
    ensures { result ≡ told_n_to_g (lent_at head.now genome.now transcript.now letters.now exons.now) start start_offset end end_offset strict }
{
    let n = taking::n_asked(start, start_offset, end, end_offset);
    lay::lay(mapper::n_to_g(
        lending::head_of(head),
        genome,
        transcript,
        letters,
        exons,
        n,
        strict,
    ))
}

pub fn txc_n_to_c(
    head: &[i32; 9],
    genome: &[u32; MOST_STARTS],
    transcript: &[u32; MOST_STARTS],
    letters: &[u8; MOST_SEGMENTS],
    exons: &[u16; MOST_SEGMENTS],
    start: i32,
    start_offset: i32,
    end: i32,
    end_offset: i32,
    strict: bool,
) -> Answer
    ensures { result ≡ told_n_to_c (lent_at head.now genome.now transcript.now letters.now exons.now) start start_offset end end_offset strict }
{
    let n = taking::n_asked(start, start_offset, end, end_offset);
    lay::lay_plain(mapper::n_to_c(
        lending::head_of(head),
        genome,
        transcript,
        letters,
        exons,
        n,
        strict,
    ))
}

pub fn txc_c_to_n(
    head: &[i32; 9],
    genome: &[u32; MOST_STARTS],
    transcript: &[u32; MOST_STARTS],
    letters: &[u8; MOST_SEGMENTS],
    exons: &[u16; MOST_SEGMENTS],
    start: i32,
    start_offset: i32,
    start_star: bool,
    end: i32,
    end_offset: i32,
    end_star: bool,
    strict: bool,
) -> Answer
    ensures { result ≡ told_c_to_n (lent_at head.now genome.now transcript.now letters.now exons.now) start start_offset start_star end end_offset end_star strict }
{
    let c = taking::c_asked(start, start_offset, start_star, end, end_offset, end_star);
    lay::lay_plain(mapper::c_to_n(
        lending::head_of(head),
        genome,
        transcript,
        letters,
        exons,
        c,
        strict,
    ))
}

pub fn txc_c_to_g(
    head: &[i32; 9],
    genome: &[u32; MOST_STARTS],
    transcript: &[u32; MOST_STARTS],
    letters: &[u8; MOST_SEGMENTS],
    exons: &[u16; MOST_SEGMENTS],
    start: i32,
    start_offset: i32,
    start_star: bool,
    end: i32,
    end_offset: i32,
    end_star: bool,
    strict: bool,
) -> Answer
    ensures { result ≡ told_c_to_g (lent_at head.now genome.now transcript.now letters.now exons.now) start start_offset start_star end end_offset end_star strict }
{
    telling::c_to_g(
        lending::head_of(head),
        genome,
        transcript,
        letters,
        exons,
        start,
        start_offset,
        start_star,
        end,
        end_offset,
        end_star,
        strict,
    )
}

// Whether a g. interval lies in the bounds of the alignment.
pub fn txc_in_bounds(
    head: &[i32; 9],
    genome: &[u32; MOST_STARTS],
    transcript: &[u32; MOST_STARTS],
    letters: &[u8; MOST_SEGMENTS],
    exons: &[u16; MOST_SEGMENTS],
    start: i32,
    end: i32,
    missing: u32,
) -> Said
    ensures { result ≡ told_in_bounds (lent_at head.now genome.now transcript.now letters.now exons.now) start end missing }
{
    let g = taking::g_asked(start, end, missing);
    lay::lay_said(mapper::is_g_interval_in_bounds(
        lending::head_of(head),
        genome,
        transcript,
        letters,
        exons,
        g,
    ))
}

// Whether the transcript codes.
pub fn txc_is_coding(
    head: &[i32; 9],
    genome: &[u32; MOST_STARTS],
    transcript: &[u32; MOST_STARTS],
    letters: &[u8; MOST_SEGMENTS],
    exons: &[u16; MOST_SEGMENTS],
) -> Said
    ensures { result ≡ told_coding (lent_at head.now genome.now transcript.now letters.now exons.now) }
{
    lay::lay_said(mapper::is_coding_transcript(
        lending::head_of(head),
        genome,
        transcript,
        letters,
        exons,
    ))
}
