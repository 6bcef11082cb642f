// Building's judgment: every refusal of document 01's build order is found here, before anything is written.
#![tactic(auto)]

ghost use Rattle.std.specs.Prelude.{◌≡◌, true, ◌≤◌, ◌<◌, pos};
ghost use Rattle.refusals.specs.Numbers.{most_bases};
ghost use Rattle.records.specs.Records.{exactly};
ghost use Rattle.judging.specs.Input.{input_of};
ghost use Rattle.judging.specs.Judging.{half_fault, range_fault, cds_fault, last_fault, judge_on, judge_input, judge, told_of};
ghost use Rattle.reading.specs.Tallies.{Bounded, BoundedTally};

use reading::Sums;
use records::ALT_START;
use refusals::{MOST_BASES, MOST_RECORDS, Refusal};
use transcript::{BOTH_BITS, Numbers};

// 11, where one bound is given and the other is not.
pub fn half_fault(start: Option<i32>, end: Option<i32>) -> Result<(), Refusal>
    ensures { result ≡ half_fault start end }
{
    match (start, end) {
        (Some(_), None) | (None, Some(_)) => Err(Refusal::HalfCds),
        (Some(_), Some(_)) | (None, None) => Ok(()),
    }
}

// 12, where not 0 <= start <= end <= last.
fn range_fault(start: i64, end: i64, last: i64) -> Result<(), Refusal>
    ensures { result ≡ range_fault start end last }
{
    if start < 0 || end < start || last < end {
        return Err(Refusal::BadCds);
    }
    Ok(())
}

// A length that passed 9, as a signed number.
fn signed(n: u64) -> i64
    requires { n ≤ most_bases }
    ensures { result ≡ pos n }
{
    n as i64
}

// 12, where both bounds are given.
pub fn cds_fault(start: Option<i32>, end: Option<i32>, last: u64) -> Result<(), Refusal>
    requires { last ≤ most_bases }
    ensures { result ≡ cds_fault start end last }
{
    match (start, end) {
        (Some(from), Some(to)) => range_fault(i64::from(from), i64::from(to), signed(last)),
        _ => Ok(()),
    }
}

// 10, 9 and 12.
fn last_fault(start: Option<i32>, end: Option<i32>, first: u32, sums: Sums) -> Result<(), Refusal>
    requires { Bounded sums }
    ensures { result ≡ last_fault start end sums.count first sums.genome sums.transcript }
{
    if sums.count == 0 {
        return Err(Refusal::NoSegment);
    }
    let length = sums.transcript;
    if length > MOST_BASES as u64 {
        return Err(Refusal::TooLong);
    }
    let last = u64::from(first) + sums.genome;
    if last > MOST_BASES as u64 {
        return Err(Refusal::TooLong);
    }
    cds_fault(start, end, length)
}

// The records on a strand.
fn judge_on(forward: bool, numbers: Numbers, s: &[u8]) -> Result<Sums, Refusal>
    requires { (0 < numbers.count) × (exactly numbers.count s.now 0 ≡ true) }
    ensures { (result ≡ told_of (judge_on forward (input_of numbers s.now))) × BoundedTally result }
{
    let count = numbers.count;
    if count > MOST_RECORDS {
        return Err(Refusal::TooMuch);
    }
    records::records_fault(forward, count, s)?;
    let start = transcript::start_of(numbers.cds, numbers.start);
    let end = transcript::end_of(numbers.cds, numbers.end);
    half_fault(start, end)?;
    let sums = reading::tally_all(count, s)?;
    let first = reading::bound(s, ALT_START);
    last_fault(start, end, first, sums)?;
    Ok(sums)
}

// Building's own order: 1, 2, and the rest on a strand.
fn judge_input(numbers: Numbers, s: &[u8]) -> Result<Sums, Refusal>
    requires { exactly numbers.count s.now 0 ≡ true }
    ensures { (result ≡ told_of (judge_input (input_of numbers s.now))) × BoundedTally result }
{
    if numbers.count == 0 {
        return Err(Refusal::NoRecords);
    }
    let strand = numbers.strand;
    if strand == 1 {
        return judge_on(true, numbers, s);
    }
    if strand == -1 {
        return judge_on(false, numbers, s);
    }
    Err(Refusal::NoStrand)
}

// Building's refusal, or how many segments the records make and how far they go.
pub fn judge(numbers: Numbers, records: &[u8]) -> Result<Sums, Refusal>
    ensures { (result ≡ told_of (judge numbers records.now)) × BoundedTally result }
{
    if numbers.cds > BOTH_BITS {
        return Err(Refusal::NotTogether);
    }
    if records::are_records(numbers.count, records) {
        return judge_input(numbers, records);
    }
    Err(Refusal::NoCard)
}
