// Replays recorded answers: a file of calls of the host's boundary, with what each must answer, is read from standard input. Each call is
// made over memory kept here, its answer compared, and the counts are told.
#![tactic(auto)]

ghost use Rattle.std.specs.Prelude.{◌≡◌, IfOk};
ghost use Rattle.segments.specs.Tables.{tables};
ghost use Rattle.vectors.specs.Tally.{counted};
ghost use Rattle.vectors.specs.Replay.{agreed, head_next, tables_next, exons_next, replayed};

mod bam;
mod calls;
mod questions;
mod say;
mod tally;
mod texts;
mod transcripts;

use comparing::lent::HEAD;
use refusals::{MOST_SEGMENTS, MOST_STARTS};
use std::io;
use tally::COUNTS;

// Whether a row is answered as recorded.
fn agrees(
    row: &[u8],
    head: &mut [i32; HEAD],
    genome: &mut [u32; MOST_STARTS],
    transcript: &mut [u32; MOST_STARTS],
    letters: &mut [u8; MOST_SEGMENTS],
    exons: &mut [u16; MOST_SEGMENTS],
) -> bool
    ensures value { result ≡ agreed row.now head.old (tables genome.old transcript.old letters.old) exons.old }
    ensures head_after { head.new ≡ head_next row.now head.old }
    ensures letters_after { tables genome.new transcript.new letters.new ≡ tables_next row.now (tables genome.old transcript.old letters.old) }
    ensures exons_after { exons.new ≡ exons_next row.now exons.old }
{
    let call = rows::call(row);
    if call < calls::BUILD_CARD {
        return false;
    }
    if call < calls::G_TO_N {
        let words = transcripts::answered(row, head, genome, transcript, letters, exons);
        return rows::expects(row, words);
    }
    if call < calls::READ_CIGAR {
        let words = questions::answered(row, head, genome, transcript, letters, exons);
        return rows::expects(row, words);
    }
    if call < calls::READ_BAM {
        return texts::agrees(row);
    }
    bam::agrees(row)
}

// Counts a row; one that differs is told.
fn count(rt: &impl Print, tally: &mut [u64; COUNTS], row: &[u8], agrees: bool) -> io::Result<()>
    ensures { tally.new ≡ counted tally.old row.now agrees }
{
    tally::count(tally, row, agrees);
    if !agrees {
        return tally::tell_difference(rt, tally, row);
    }
    Ok(())
}

// The counts of rows that stand one after the other, up to one that is cut off.
fn replay(rt: &impl Print, file: &[u8]) -> io::Result<[u64; COUNTS]>
    ensures { IfOk result (λ tally. tally ≡ replayed file.now) }
{
    let mut head = [0i32; HEAD];
    let mut genome = [0u32; MOST_STARTS];
    let mut transcript = [0u32; MOST_STARTS];
    let mut letters = [0u8; MOST_SEGMENTS];
    let mut exons = [0u16; MOST_SEGMENTS];
    let mut tally = [0u64; COUNTS];
    let mut at = 0;
    // A row's size leads to the next row, so no range or chain goes over them.
    while at < file.len() {
        let size = rows::row_size(&file[at..]);
        if size == 0 {
            tally::tell_cut_off(rt, &tally)?;
            return Ok(tally);
        }
        let row = rows::first(&file[at..], size);
        let agrees = agrees(
            row,
            &mut head,
            &mut genome,
            &mut transcript,
            &mut letters,
            &mut exons,
        );
        count(rt, &mut tally, row, agrees)?;
        at += size;
    }
    Ok(tally)
}

fn main(rt: HostRuntime) -> io::Result<()> {
    let mut space = rows::space();
    let n = intake::read_full(&mut rt.stdin(), &mut space)?;
    let file = &space[..n];
    if rows::has_head(file) {
        let tally = replay(&rt, sequences::rest(file, rows::BLOCK))?;
        tally::tell_promised(&rt, file, tally::rows_in(&tally))?;
        tally::tell(&rt, &tally)
    } else {
        say::text(&rt, b"no recorded answers of version 2\n")
    }
}
