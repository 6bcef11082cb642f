// Alleles on the reverse strand for the host: an allele turned, and a g. interval with two alleles as the transcript reads them.
ghost use Rattle.std.specs.Prelude.{◌≡◌, length};
ghost use Rattle.strands.specs.Turned.{turning, turned_into};
ghost use Rattle.lending.specs.Lending.{lent_at};
ghost use Rattle.alleles.specs.Joining.{alleles, rooms, joined_laid, reference_after, alternative_after};
ghost use Rattle.results.specs.Results.{text_laid};
ghost use Rattle.entry.specs.Told.{told_joined};

use alleles::Joined;
use layout::lay::Length;
use refusals::{MOST_SEGMENTS, MOST_STARTS};

// How many bytes the turned allele has, at the front of the buffer.
pub fn txc_turn(allele: &[u8], buffer: &mut [u8]) -> Length
    ensures value { result ≡ text_laid (turning allele.now (length buffer.old)) }
    ensures buffer_after { buffer.new ≡ turned_into buffer.old (turning allele.now (length buffer.old)) }
{
    let turned = strands::turn::turn(allele, buffer);
    results::counted_laid(turned.map(|()| allele.len()))
}

// g. to c., and what is left of the two alleles at the fronts of the two buffers.
pub fn txc_g_to_c_alleles(
    head: &[i32; 9],
    genome: &[u32; MOST_STARTS],
    transcript: &[u32; MOST_STARTS],
    letters: &[u8; MOST_SEGMENTS],
    exons: &[u16; MOST_SEGMENTS],
    start: i32,
    end: i32,
    missing: u32,
    strict: bool,
    reference: &[u8],
    alternative: &[u8],
    reference_out: &mut [u8],
    alternative_out: &mut [u8],
) -> Joined
    ensures value { result ≡ joined_laid (told_joined (lent_at head.now genome.now transcript.now letters.now exons.now) start end missing strict (alleles reference.now alternative.now) (rooms (length reference_out.old) (length alternative_out.old))) }
    ensures reference_out_after { reference_out.new ≡ reference_after reference_out.old (told_joined (lent_at head.now genome.now transcript.now letters.now exons.now) start end missing strict (alleles reference.now alternative.now) (rooms (length reference_out.old) (length alternative_out.old))) }
    ensures alternative_out_after { alternative_out.new ≡ alternative_after alternative_out.old (told_joined (lent_at head.now genome.now transcript.now letters.now exons.now) start end missing strict (alleles reference.now alternative.now) (rooms (length reference_out.old) (length alternative_out.old))) }
{
    let g = taking::g_asked(start, end, missing);
    let known = lending::head_of(head);
    alleles::join(
        known,
        genome,
        transcript,
        letters,
        exons,
        g,
        strict,
        reference,
        alternative,
        reference_out,
        alternative_out,
    )
}
