// Reads cards from standard input, one after the other, each with its size before it, and writes the listing or the line of the
// refusal of each.
#![tactic(auto)]

ghost use Rattle.std.specs.Prelude.{◌≡◌, ◌≤◌, length, OnOk, OnErr};
ghost use Rattle.segments.specs.Tables.{tables};
ghost use Rattle.lines.specs.Lengths.{most_listing};
ghost use Rattle.listings.specs.Cards.{cards_in, tables_all, exons_all, text_all, LeavesAfterSome};

use lines::MOST_LISTING;
use refusals::{MOST_SEGMENTS, MOST_STARTS};
use std::io;

// The most bytes that are read.
const MOST_INPUT: usize = 262_144;

// A card's size is a number of 32 bits.
const SIZE: usize = 4;

// Writes what each card is listed as, up to the end or to a size that leads past it. The tables and the buffer are left as the last card leaves them.
// A write that fails ends it, and they are left as the card leaves them whose text was to be written.
fn list_all(
    rt: &impl Print,
    cards: &[u8],
    genome: &mut [u32; MOST_STARTS],
    transcript: &mut [u32; MOST_STARTS],
    letters: &mut [u8; MOST_SEGMENTS],
    exons: &mut [u16; MOST_SEGMENTS],
    text: &mut [u8],
) -> io::Result<()>
    requires { most_listing ≤ length text.old }
    ensures letters_after { OnOk result (tables genome.new transcript.new letters.new ≡ tables_all (cards_in cards.now) (tables genome.old transcript.old letters.old)) }
    ensures exons_after { OnOk result (exons.new ≡ exons_all (cards_in cards.now) exons.old) }
    ensures text_after { OnOk result (text.new ≡ text_all (cards_in cards.now) text.old) }
    ensures err { OnErr result (LeavesAfterSome (cards_in cards.now) (tables genome.old transcript.old letters.old) exons.old text.old (tables genome.new transcript.new letters.new) exons.new text.new) }
{
    let mut at = 0;
    // A card's size leads to the next card, so no range or chain goes over them.
    while SIZE <= cards.len() - at {
        let from = at + SIZE;
        let size = fields::u32_at(cards, at) as usize;
        if cards.len() - from < size {
            return Ok(());
        }
        let to = from + size;
        let n = lines::list_card(&cards[from..to], genome, transcript, letters, exons, text);
        rt.write_all(&text[..n])?;
        at = to;
    }
    Ok(())
}

fn main(rt: HostRuntime) -> io::Result<()> {
    let mut cards = [0u8; MOST_INPUT];
    let mut genome = [0u32; MOST_STARTS];
    let mut transcript = [0u32; MOST_STARTS];
    let mut letters = [0u8; MOST_SEGMENTS];
    let mut exons = [0u16; MOST_SEGMENTS];
    let mut text = [0u8; MOST_LISTING];
    let read = intake::read_full(&mut rt.stdin(), &mut cards)?;
    list_all(
        &rt,
        &cards[..read],
        &mut genome,
        &mut transcript,
        &mut letters,
        &mut exons,
        &mut text,
    )
}
