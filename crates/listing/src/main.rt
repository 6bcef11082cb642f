// Reads a card from standard input and writes its listing, or the line of its refusal.
#![tactic(auto)]

use lines::MOST_LISTING;
use refusals::{MOST_CARD, MOST_SEGMENTS, MOST_STARTS};
use std::io;

// One byte more than the largest card is read, so that a card that is too large is seen to be.
fn main(rt: HostRuntime) -> io::Result<()> {
    let mut card = [0u8; MOST_CARD + 1];
    let mut genome = [0u32; MOST_STARTS];
    let mut transcript = [0u32; MOST_STARTS];
    let mut letters = [0u8; MOST_SEGMENTS];
    let mut exons = [0u16; MOST_SEGMENTS];
    let mut text = [0u8; MOST_LISTING];
    let read = intake::read_full(&mut rt.stdin(), &mut card)?;
    let size = lines::list_card(
        &card[..read],
        &mut genome,
        &mut transcript,
        &mut letters,
        &mut exons,
        &mut text,
    );
    rt.write_all(&text[..size])
}
