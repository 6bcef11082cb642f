// What the boundary returns beside the mappings' answers, laid out as the host has it: lengths of texts and of lists, parts of alleles, and what building tells with its head.
#![tactic(auto)]

ghost use Rattle.std.specs.Prelude.{◌≡◌};
ghost use Rattle.lending.specs.Lending.{head_row};
ghost use Rattle.results.specs.Results.{counted_laid, part_laid, built_number, built_head};

use layout::lay::Length;
use refusals::Refusal;
use transcript::Head;

// Where the changed part stands: of the reference (0) or of the alternative (1).
#[repr(C)]
#[derive(Clone, Copy)]
pub struct Part {
    pub alternative: u32,
    pub from: usize,
    pub to: usize,
}

// A number of elements, words or bytes, as a length.
pub fn counted_laid(counted: Result<usize, Refusal>) -> Length
    ensures { result ≡ counted_laid counted }
{
    match counted {
        Ok(length) => Length { number: 0, length },
        Err(refusal) => Length {
            number: u32::from(refusal.number()),
            length: 0,
        },
    }
}

// Where the changed part stands, its side as a number.
pub fn part_laid(part: sequences::Part) -> Part
    ensures { result ≡ part_laid part }
{
    Part {
        alternative: layout::lay::star_number(part.alternative),
        from: part.from,
        to: part.to,
    }
}

// The nine numbers of a head, laid out in lent memory.
fn lay_head(h: Head, head: &mut [i32; 9])
    ensures { head.new ≡ head_row h }
{
    *head = [
        h.kind, h.strand, h.first, h.count, h.bits, h.start, h.end, h.length, h.records,
    ];
}

// 0 and the head laid out, or a refusal's number with the head as it was.
pub fn lay_built(b: Result<Head, Refusal>, head: &mut [i32; 9]) -> u32
    ensures value { result ≡ built_number b }
    ensures head_after { head.new ≡ built_head b head.old }
{
    match b {
        Ok(h) => {
            lay_head(h, head);
            0
        }
        Err(refusal) => u32::from(refusal.number()),
    }
}
