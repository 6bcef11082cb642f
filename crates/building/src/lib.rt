// Building: the tables of a transcript from its records. All is judged first, and then the lent tables are filled.
#![tactic(auto)]

ghost use Rattle.std.specs.Prelude.{◌≡◌, ◌≤◌, length};
ghost use Rattle.refusals.specs.Numbers.{most_records, most_segments};
ghost use Rattle.records.specs.Layout.{alt_start_at, cigar_text};
ghost use Rattle.records.specs.Records.{field_at};
ghost use Rattle.transcript.specs.Heads.{both_bits, with_cds, bare_head};
ghost use Rattle.judging.specs.Judging.{judge};
ghost use Rattle.segments.specs.Tables.{tables};
ghost use Rattle.filling.specs.Filling.{Long};
ghost use Rattle.building.specs.Afterwards.{built_answer, tables_after, exons_after};

use reading::Sums;
use records::ALT_START;
use refusals::{MOST_SEGMENTS, MOST_STARTS, Refusal};
use transcript::{Head, Numbers, OF_RECORDS};

pub mod length_only;

// The head of records that passed every test, whose elements go to `to`.
fn head_of(numbers: Numbers, s: &[u8], to: Sums) -> Head
    requires { (cigar_text ≤ length s.now) × (to.count ≤ most_segments) × (numbers.cds ≤ both_bits) × (numbers.count ≤ most_records) }
    ensures { result ≡ with_cds (bare_head numbers.strand (field_at s.now alt_start_at) to.count numbers.count) numbers.cds numbers.start numbers.end }
{
    let strand = numbers.strand;
    let first = fields::i32_at(s, ALT_START);
    let count = to.count as i32;
    let records = numbers.count as i32;
    let bare = Head {
        kind: OF_RECORDS,
        strand,
        first,
        count,
        bits: 0,
        start: 0,
        end: 0,
        length: 0,
        records,
    };
    transcript::with_cds(bare, numbers.cds, numbers.start, numbers.end)
}

// The transcript that records make, in tables of the right lengths.
fn build_into(
    numbers: Numbers,
    s: &[u8],
    genome: &mut [u32],
    transcript: &mut [u32],
    letters: &mut [u8],
    exons: &mut [u16],
) -> Result<Head, Refusal>
    requires { Long (tables genome.old transcript.old letters.old) × (length exons.old ≡ most_segments) }
    ensures value { result ≡ built_answer (judge numbers s.now) }
    ensures letters_after { tables genome.new transcript.new letters.new ≡ tables_after (judge numbers s.now) (tables genome.old transcript.old letters.old) }
    ensures exons_after { exons.new ≡ exons_after (judge numbers s.now) exons.old }
{
    let to = judging::judge(numbers, s)?;
    let forward = numbers.strand == 1;
    filling::write_tables(
        forward,
        numbers.count,
        s,
        to,
        genome,
        transcript,
        letters,
        exons,
    );
    Ok(head_of(numbers, s, to))
}

// The transcript that records make: its head, with its tables in the lent memory, or a refusal, which leaves them as they are.
pub fn build(
    numbers: Numbers,
    records: &[u8],
    genome: &mut [u32; MOST_STARTS],
    transcript: &mut [u32; MOST_STARTS],
    letters: &mut [u8; MOST_SEGMENTS],
    exons: &mut [u16; MOST_SEGMENTS],
) -> Result<Head, Refusal>
    ensures value { result ≡ built_answer (judge numbers records.now) }
    ensures letters_after { tables genome.new transcript.new letters.new ≡ tables_after (judge numbers records.now) (tables genome.old transcript.old letters.old) }
    ensures exons_after { exons.new ≡ exons_after (judge numbers records.now) exons.old }
{
    build_into(numbers, records, genome, transcript, letters, exons)
}
