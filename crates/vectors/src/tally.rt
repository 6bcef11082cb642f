// Counts of replayed rows, and how they are told. A tally is a table: all rows, those that agreed, and the rows of each call, those of them that agreed,
// and the rows by the refusal that they expect and by where that comes from. Row 1 is the first after the file's head.
ghost use Rattle.std.specs.Prelude.{◌≡◌, ◌+◌, ◌%◌, ◌^◌, ◌≤◌, slice_index};
ghost use Rattle.vectors.specs.Tally.{counts, bumped, counted};

use crate::{calls, say};
use refusals::Refusal;
use std::io;

// The refusals' numbers, and 0 for none.
const NUMBERS: usize = Refusal::NotSpanning as usize + 1;
// Where an expectation comes from: nowhere, the crate's answer, its error, or the documents where the crate panics, is narrowed, has no such call or is departed from.
const ORIGINS: usize = 7;
// Where the counts stand.
const ROWS: usize = 0;

const AGREED: usize = 1;

const CALLS: usize = 2;

const CALLS_AGREED: usize = CALLS + calls::END;

const BY_NUMBER: usize = CALLS_AGREED + calls::END;

const BY_ORIGIN: usize = BY_NUMBER + NUMBERS;
// How many there are.
pub const COUNTS: usize = BY_ORIGIN + ORIGINS;
// The most differences that are told one by one.
const MOST_TOLD: u64 = 20;

// One more at a place of so many from the first on, where there is such a place. A file has far fewer rows than there are numbers.
fn bump(tally: &mut [u64], first: usize, size: usize, i: usize)
    requires { first + size ≤ counts }
    ensures { tally.new ≡ bumped tally.old first size i }
{
    if size <= i {
        return;
    }
    let at = first + i;
    if tally.len() <= at {
        return;
    }
    let n = std::num::wrapping_add_u64(tally[at], 1);
    tally[at] = n;
}

// Counts one row more. A call, a number or an origin that rows cannot have is counted among all rows alone.
pub(crate) fn count(tally: &mut [u64; COUNTS], row: &[u8], agrees: bool)
    ensures { tally.new ≡ counted tally.old row.now agrees }
{
    let call = rows::call(row);
    bump(tally, ROWS, 1, 0);
    bump(tally, CALLS, calls::END, call);
    bump(tally, BY_NUMBER, NUMBERS, rows::answer(row, 0));
    bump(tally, BY_ORIGIN, ORIGINS, rows::origin(row));
    if agrees {
        bump(tally, AGREED, 1, 0);
        bump(tally, CALLS_AGREED, calls::END, call);
        return;
    }
}

// How many rows there are.
pub(crate) fn rows_in(tally: &[u64; COUNTS]) -> u64
    ensures { result ≡ slice_index tally.now 0 }
{
    tally[ROWS]
}

// How many rows differed, of so many of which some agreed.
fn differed(rows: u64, agreed: u64) -> u64
    ensures { (result + agreed) % 2 ^ 64 ≡ rows }
{
    std::num::wrapping_sub_u64(rows, agreed)
}

// Tells how many rows there are, and how many of them agreed.
fn tell_agreed(rt: &impl Print, rows: u64, agreed: u64) -> io::Result<()> {
    say::number(rt, rows)?;
    say::text(rt, b" rows, ")?;
    say::number(rt, agreed)?;
    say::text(rt, b" agreed")
}

// Tells of one call how many rows make it, how many agreed and how many differed.
fn tell_call(rt: &impl Print, call: usize, rows: u64, agreed: u64) -> io::Result<()> {
    calls::say(rt, call)?;
    say::text(rt, b": ")?;
    tell_agreed(rt, rows, agreed)?;
    say::text(rt, b", ")?;
    say::number(rt, differed(rows, agreed))?;
    say::text(rt, b" differed\n")
}

// Tells how many rows have what was told before.
fn tell_rows(rt: &impl Print, rows: u64) -> io::Result<()> {
    say::text(rt, b": ")?;
    say::number(rt, rows)?;
    say::text(rt, b" rows\n")
}

// Tells how many rows expect one refusal, or none. A number that no row expects is passed over: the refusals' numbers have gaps.
fn tell_number(rt: &impl Print, number: usize, rows: u64) -> io::Result<()> {
    if rows == 0 {
        return Ok(());
    }
    if number == 0 {
        say::text(rt, b"no refusal")?;
    } else {
        say::text(rt, b"refusal ")?;
        say::number(rt, number as u64)?;
    }
    tell_rows(rt, rows)
}

// Tells how many expectations come from one origin.
fn tell_origin(rt: &impl Print, origin: usize, rows: u64) -> io::Result<()> {
    say::line(
        rt,
        b"nothing expected\nexpected by the crate's answer\nexpected by the crate's error\nexpected by document 01, the crate panics\nexpected by document 01, which narrows the crate\nexpected by the documents, the crate has no such call\nexpected by document 02, which departs from the crate",
        origin,
    )?;
    tell_rows(rt, rows)
}

// Tells that the last row differs, unless many did before it.
pub(crate) fn tell_difference(
    rt: &impl Print,
    tally: &[u64; COUNTS],
    row: &[u8],
) -> io::Result<()> {
    let rows = tally[ROWS];
    if differed(rows, tally[AGREED]) <= MOST_TOLD {
        say::text(rt, b"row ")?;
        say::number(rt, rows)?;
        say::text(rt, b" differs: ")?;
        calls::say(rt, rows::call(row))?;
        say::text(rt, b"\n")?;
    }
    Ok(())
}

// Tells that the row after the last one is cut off.
pub(crate) fn tell_cut_off(rt: &impl Print, tally: &[u64; COUNTS]) -> io::Result<()> {
    say::text(rt, b"cut off after row ")?;
    say::number(rt, tally[ROWS])?;
    say::text(rt, b"\n")
}

// Tells of each call how many rows make it and how many of them agreed.
fn tell_calls(rt: &impl Print, tally: &[u64; COUNTS]) -> io::Result<()> {
    for call in calls::BUILD_CARD..calls::END {
        tell_call(rt, call, tally[CALLS + call], tally[CALLS_AGREED + call])?;
    }
    Ok(())
}

// Tells of each refusal how many rows expect it.
fn tell_numbers(rt: &impl Print, tally: &[u64; COUNTS]) -> io::Result<()> {
    for number in 0..NUMBERS {
        tell_number(rt, number, tally[BY_NUMBER + number])?;
    }
    Ok(())
}

// Tells how many expectations come from where.
fn tell_origins(rt: &impl Print, tally: &[u64; COUNTS]) -> io::Result<()> {
    for origin in 0..ORIGINS {
        tell_origin(rt, origin, tally[BY_ORIGIN + origin])?;
    }
    Ok(())
}

// Tells how many rows a file's head promises, unless it has just so many.
pub(crate) fn tell_promised(rt: &impl Print, file: &[u8], rows: u64) -> io::Result<()> {
    let promised = rows::size(file, 1) as u64;
    if promised != rows {
        say::text(rt, b"promised are ")?;
        say::number(rt, promised)?;
        say::text(rt, b" rows\n")?;
    }
    Ok(())
}

// Tells the counts, the whole last.
pub(crate) fn tell(rt: &impl Print, tally: &[u64; COUNTS]) -> io::Result<()> {
    tell_calls(rt, tally)?;
    tell_numbers(rt, tally)?;
    tell_origins(rt, tally)?;
    tell_agreed(rt, tally[ROWS], tally[AGREED])?;
    say::text(rt, b"\n")
}
