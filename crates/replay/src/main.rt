// Reads a card with its size before it, and behind it a log, from standard input, and writes which of the log's answers differ, or the line of a refusal.
#![tactic(auto)]

use playback::text::MOST_REPLAY;
use playing::SIZE;
use refusals::{MOST_CARD, MOST_LOG, MOST_SEGMENTS, MOST_STARTS};
use std::io;

// One byte more than the largest card and the largest log, so that a log that is too large is seen to be. A card that is, is by its size.
const MOST_INPUT: usize = SIZE + MOST_CARD + MOST_LOG + 1;

fn main(rt: HostRuntime) -> io::Result<()> {
    let mut input = [0u8; MOST_INPUT];
    let mut genome = [0u32; MOST_STARTS];
    let mut transcript = [0u32; MOST_STARTS];
    let mut letters = [0u8; MOST_SEGMENTS];
    let mut exons = [0u16; MOST_SEGMENTS];
    let mut text = [0u8; MOST_REPLAY];
    let read = intake::read_full(&mut rt.stdin(), &mut input)?;
    let size = playing::play_input(
        &input[..read],
        &mut genome,
        &mut transcript,
        &mut letters,
        &mut exons,
        &mut text,
    );
    rt.write_all(&text[..size])
}
