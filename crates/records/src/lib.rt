// Records as a card lays them out: reading one at a place, walking all of them, and refusals 21, 4, 5 and 6. A record is known by the
// place at which it begins, so that the loops hold unsigned numbers alone.
#![tactic(auto)]

ghost use Rattle.std.specs.Prelude.{◌≡◌, true, ◌+◌, ◌≤◌, length};
ghost use Rattle.records.specs.Layout.{cigar_text};
ghost use Rattle.records.specs.Records.{field_at, next_at, record_at, exactly, records_from};
ghost use Rattle.records.specs.Faults.{span_fault, start_fault, rise_fault, join_fault, own_fault, follow_fault, pair_fault, faults};

use refusals::Refusal;

// Where a record's numbers stand in it, and where its CIGAR's bytes begin.
pub const ALT_START: usize = 0;

pub const ALT_END: usize = 4;

pub const TX_START: usize = 8;

pub const TX_END: usize = 12;

pub const ORD: usize = 16;

pub const CIGAR_SIZE: usize = 20;

pub const CIGAR_TEXT: usize = 22;

// A signed number at a place, widened.
pub fn field(s: &[u8], at: usize) -> i64
    requires { at + 4 ≤ length s.now }
    ensures { result ≡ field_at s.now at }
{
    i64::from(fields::i32_at(s, at))
}

// The place after the record at a place.
pub fn next_at(s: &[u8], at: usize) -> usize
    requires { at + cigar_text ≤ length s.now }
    ensures { result ≡ next_at s.now at }
{
    let size = fields::u16_at(s, at + CIGAR_SIZE);
    at + CIGAR_TEXT + size as usize
}

// 4, where a bound is negative or the end is below the start.
fn span_fault(start: i64, end: i64) -> Result<(), Refusal>
    ensures { result ≡ span_fault start end }
{
    if start < 0 || end < 0 || end < start {
        return Err(Refusal::BadBound);
    }
    Ok(())
}

// 4, where a record starts below the previous end.
fn start_fault(previous_end: i64, start: i64) -> Result<(), Refusal>
    ensures { result ≡ start_fault previous_end start }
{
    if start < previous_end {
        return Err(Refusal::BadBound);
    }
    Ok(())
}

// 5, where `ord` does not rise.
fn rise_fault(a: i64, b: i64) -> Result<(), Refusal>
    ensures { result ≡ rise_fault a b }
{
    if a < b {
        return Ok(());
    }
    Err(Refusal::BadOrd)
}

// 6, where an exon does not end where the next one starts.
fn join_fault(end: i64, start: i64) -> Result<(), Refusal>
    ensures { result ≡ join_fault end start }
{
    if end == start {
        return Ok(());
    }
    Err(Refusal::NotAdjacent)
}

// 4, of a record alone.
fn own_fault(s: &[u8], at: usize) -> Result<(), Refusal>
    requires { at + cigar_text ≤ length s.now }
    ensures { result ≡ own_fault (record_at s.now at) }
{
    span_fault(field(s, at + ALT_START), field(s, at + ALT_END))?;
    span_fault(field(s, at + TX_START), field(s, at + TX_END))
}

// 5 and 6, where the record at `b` follows that at `a` in `ord` order.
fn follow_fault(s: &[u8], a: usize, b: usize) -> Result<(), Refusal>
    requires { (a + cigar_text ≤ length s.now) × (b + cigar_text ≤ length s.now) }
    ensures { result ≡ follow_fault (record_at s.now a) (record_at s.now b) }
{
    rise_fault(field(s, a + ORD), field(s, b + ORD))?;
    join_fault(field(s, a + TX_END), field(s, b + TX_START))
}

// 4, 5 and 6 of the record at `at` beside the one at `previous`.
fn pair_fault(forward: bool, s: &[u8], previous: usize, at: usize) -> Result<(), Refusal>
    requires { (previous + cigar_text ≤ length s.now) × (at + cigar_text ≤ length s.now) }
    ensures { result ≡ pair_fault forward (record_at s.now previous) (record_at s.now at) }
{
    start_fault(field(s, previous + ALT_END), field(s, at + ALT_START))?;
    if forward {
        return follow_fault(s, previous, at);
    }
    follow_fault(s, at, previous)
}

// Whether the bytes are just that many records: 21 stands or falls by this.
pub fn are_records(count: usize, s: &[u8]) -> bool
    ensures { result ≡ exactly count s.now 0 }
{
    let mut at = 0;
    for _ in 0..count {
        if s.len() - at < CIGAR_TEXT {
            return false;
        }
        at = next_at(s, at);
        if s.len() < at {
            return false;
        }
    }
    at == s.len()
}

// The first of 4, 5 and 6, in list order.
pub fn records_fault(forward: bool, count: usize, s: &[u8]) -> Result<(), Refusal>
    requires { exactly count s.now 0 ≡ true }
    ensures { result ≡ faults forward (records_from count s.now 0) }
{
    if count == 0 {
        return Ok(());
    }
    own_fault(s, 0)?;
    let mut previous = 0;
    let mut at = next_at(s, 0);
    for _ in 1..count {
        own_fault(s, at)?;
        pair_fault(forward, s, previous, at)?;
        previous = at;
        at = next_at(s, at);
    }
    Ok(())
}
