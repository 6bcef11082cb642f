// A g. interval with two alleles: the plain mapping's c. interval, and both alleles as the transcript reads them, trimmed, in two lent buffers. Nothing is written until all of it is answered.
#![tactic(auto)]

ghost use Rattle.std.specs.Prelude.{◌≡◌, ◌&&◌, length};
ghost use Rattle.holding.specs.Holding.{lent};
ghost use Rattle.positions.specs.Paper.{paper_c};
ghost use Rattle.strands.specs.Turned.{are_bases};
ghost use Rattle.alleles.specs.Joining.{alleles, rooms, joined, joined_laid, laid_with, reference_after, alternative_after};
ghost use Rattle.alleles.specs.Deciding.{head_reads_back, enough, first_refusal};

use layout::lay;
use layout::lay::Answer;
use positions::{CPosition, GQuestion};
use refusals::{MOST_SEGMENTS, MOST_STARTS, Refusal};
use strands::{Removed, turn};
use transcript::{Head, OF_RECORDS};

// The plain mapping's answer, how many bytes of both alleles went at the front and at the back, and how many of each stand in its buffer.
#[repr(C)]
#[derive(Clone, Copy)]
pub struct Joined {
    pub answer: Answer,
    pub prefix: usize,
    pub suffix: usize,
    pub reference: usize,
    pub alternative: usize,
}

// Whether the transcript reads its genome backwards.
fn reads_back(head: Head) -> bool
    ensures { result ≡ head_reads_back head }
{
    let kind = head.kind;
    if kind == OF_RECORDS {
        return !holding::is_forward(head);
    }
    false
}

// Whether all letters of both alleles are in the list.
fn are_both_bases(reference: &[u8], alternative: &[u8]) -> bool
    ensures { result ≡ (are_bases reference.now && are_bases alternative.now) }
{
    turn::are_bases(reference) && turn::are_bases(alternative)
}

// Whether that many bytes of each fit its buffer.
fn have_room(
    reference: usize,
    reference_room: usize,
    alternative: usize,
    alternative_room: usize,
) -> bool
    ensures { result ≡ (enough reference_room reference && enough alternative_room alternative) }
{
    reference <= reference_room && alternative <= alternative_room
}

// The refusal that comes first, if there is one: 23, 34, 20, then the mapping's own.
fn first_refusal(told: positions::Answer<CPosition>, bases: bool, room: bool) -> Result<(), Refusal>
    ensures { result ≡ first_refusal (paper_c told) bases room }
{
    match told {
        Err(Refusal::NotTogether) => Err(Refusal::NotTogether),
        _ if !bases => Err(Refusal::NoBase),
        _ if !room => Err(Refusal::NoRoom),
        Err(k) => Err(k),
        Ok(_) => Ok(()),
    }
}

// An answer, with what went and what is left.
fn told_with(
    told: positions::Answer<CPosition>,
    gone: Removed,
    reference: usize,
    alternative: usize,
) -> Joined
    ensures { result ≡ laid_with (paper_c told) gone reference alternative }
{
    Joined {
        answer: lay::lay(told),
        prefix: gone.prefix,
        suffix: gone.suffix,
        reference,
        alternative,
    }
}

// A refusal.
fn refused(k: Refusal) -> Joined
    ensures { result ≡ joined_laid (Err k) }
{
    Joined {
        answer: lay::refusal_of(k),
        prefix: 0,
        suffix: 0,
        reference: 0,
        alternative: 0,
    }
}

// g. to c. with two alleles of the genome. The mapping is asked first, as it alone checks what is lent, and told last.
pub fn join(
    head: Head,
    genome: &[u32; MOST_STARTS],
    transcript: &[u32; MOST_STARTS],
    letters: &[u8; MOST_SEGMENTS],
    exons: &[u16; MOST_SEGMENTS],
    q: GQuestion,
    strict: bool,
    reference: &[u8],
    alternative: &[u8],
    reference_out: &mut [u8],
    alternative_out: &mut [u8],
) -> Joined
    ensures value { result ≡ joined_laid (joined (lent head genome.now transcript.now letters.now exons.now) strict q (alleles reference.now alternative.now) (rooms (length reference_out.old) (length alternative_out.old))) }
    ensures reference_out_after { reference_out.new ≡ reference_after reference_out.old (joined (lent head genome.now transcript.now letters.now exons.now) strict q (alleles reference.now alternative.now) (rooms (length reference_out.old) (length alternative_out.old))) }
    ensures alternative_out_after { alternative_out.new ≡ alternative_after alternative_out.old (joined (lent head genome.now transcript.now letters.now exons.now) strict q (alleles reference.now alternative.now) (rooms (length reference_out.old) (length alternative_out.old))) }
{
    let told = mapper::g_to_c(head, genome, transcript, letters, exons, q, strict);
    let back = reads_back(head);
    let gone = strands::trim(reference, alternative, back);
    let r = strands::left(reference, back, gone);
    let a = strands::left(alternative, back, gone);
    let bases = are_both_bases(reference, alternative);
    let room = have_room(r.len(), reference_out.len(), a.len(), alternative_out.len());
    match first_refusal(told, bases, room) {
        Ok(()) => {
            turn::put_on_strand(r, back, reference_out);
            turn::put_on_strand(a, back, alternative_out);
            told_with(told, gone, r.len(), a.len())
        }
        Err(k) => refused(k),
    }
}
