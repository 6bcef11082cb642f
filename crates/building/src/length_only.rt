// The length-only kind: a transcript that is known by its length and its CDS alone.
ghost use Rattle.std.specs.Prelude.{◌≡◌, pos, nat_abs};
ghost use Rattle.judging.specs.Judging.{length_fault, judge_length};
ghost use Rattle.building.specs.Afterwards.{length_answer};

use refusals::{MOST_BASES, Refusal};
use transcript::{BOTH_BITS, Head, OF_LENGTH};

// 4 and 9.
fn length_fault(length: i64) -> Result<(), Refusal>
    ensures { result ≡ length_fault length }
{
    if length < 0 {
        return Err(Refusal::BadBound);
    }
    if length > MOST_BASES as i64 {
        return Err(Refusal::TooLong);
    }
    Ok(())
}

// A length that is not negative.
fn bases_of(length: i32) -> u64
    requires { length ≡ pos (nat_abs length) }
    ensures { result ≡ nat_abs length }
{
    length as u64
}

// The transcript of a length: its head, or a refusal.
pub fn build_length(length: i32, cds: u32, start: i32, end: i32) -> Result<Head, Refusal>
    ensures { result ≡ length_answer (judge_length length cds start end) }
{
    if cds > BOTH_BITS {
        return Err(Refusal::NotTogether);
    }
    length_fault(i64::from(length))?;
    let from = transcript::start_of(cds, start);
    let to = transcript::end_of(cds, end);
    judging::half_fault(from, to)?;
    judging::cds_fault(from, to, bases_of(length))?;
    let bare = Head {
        kind: OF_LENGTH,
        strand: 0,
        first: 0,
        count: 0,
        bits: 0,
        start: 0,
        end: 0,
        length,
        records: 0,
    };
    Ok(transcript::with_cds(bare, cds, start, end))
}
