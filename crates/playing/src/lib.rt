// A log replayed on the transcript that a card makes, as text; and a card and a log as one input of bytes.
#![tactic(auto)]

ghost use Rattle.std.specs.Prelude.{◌≡◌, ◌≤◌, length};
ghost use Rattle.cigar.specs.Lent.{at_front};
ghost use Rattle.segments.specs.Tables.{tables};
ghost use Rattle.building.specs.Afterwards.{tables_after, exons_after};
ghost use Rattle.card.specs.Writing.{judge_card};
ghost use Rattle.playback.specs.Lines.{most_replay};
ghost use Rattle.playing.specs.Played.{played, played_text, card_end, input_made, input_played};

use refusals::{MOST_CARD, MOST_SEGMENTS, MOST_STARTS, Refusal};

// A card's size is a number of 32 bits.
pub const SIZE: usize = 4;

// What a log is replayed as on the transcript that a card makes, at the front of a buffer that has room for any: the lines, or the line of a refusal,
// the card's own before the log's. The tables are left as building leaves them. Returns the text's length.
pub fn play(
    card: &[u8],
    log: &[u8],
    genome: &mut [u32; MOST_STARTS],
    transcript: &mut [u32; MOST_STARTS],
    letters: &mut [u8; MOST_SEGMENTS],
    exons: &mut [u16; MOST_SEGMENTS],
    text: &mut [u8],
) -> usize
    requires { most_replay ≤ length text.old }
    ensures value { result ≡ length (played_text (played card.now log.now)) }
    ensures within { result ≤ most_replay }
    ensures text_after { text.new ≡ at_front (played_text (played card.now log.now)) text.old }
    ensures letters_after { tables genome.new transcript.new letters.new ≡ tables_after (judge_card card.now) (tables genome.old transcript.old letters.old) }
    ensures exons_after { exons.new ≡ exons_after (judge_card card.now) exons.old }
{
    match card::build_card(card, genome, transcript, letters, exons) {
        Ok(head) => {
            match playback::replay(head, genome, transcript, letters, exons, log, text) {
                Ok(n) => n,
                Err(k) => lines::put_refusal(text, k),
            }
        }
        Err(k) => lines::put_refusal(text, k),
    }
}

// Where the card of an input ends: 3 where its size is above the largest, 21 where it is cut off.
fn card_end(input: &[u8]) -> Result<usize, Refusal>
    ensures { result ≡ card_end input.now }
{
    if input.len() < SIZE {
        return Err(Refusal::NoCard);
    }
    let size = fields::u32_at(input, 0) as usize;
    if MOST_CARD < size {
        return Err(Refusal::TooMuch);
    }
    if input.len() - SIZE < size {
        return Err(Refusal::NoCard);
    }
    Ok(SIZE + size)
}

// An input is a card with its size before it, and behind it a log: what `play` makes of the two.
pub fn play_input(
    input: &[u8],
    genome: &mut [u32; MOST_STARTS],
    transcript: &mut [u32; MOST_STARTS],
    letters: &mut [u8; MOST_SEGMENTS],
    exons: &mut [u16; MOST_SEGMENTS],
    text: &mut [u8],
) -> usize
    requires { most_replay ≤ length text.old }
    ensures value { result ≡ length (played_text (input_played input.now)) }
    ensures within { result ≤ most_replay }
    ensures text_after { text.new ≡ at_front (played_text (input_played input.now)) text.old }
    ensures letters_after { tables genome.new transcript.new letters.new ≡ tables_after (input_made input.now) (tables genome.old transcript.old letters.old) }
    ensures exons_after { exons.new ≡ exons_after (input_made input.now) exons.old }
{
    match card_end(input) {
        Ok(to) => play(
            &input[SIZE..to],
            &input[to..],
            genome,
            transcript,
            letters,
            exons,
            text,
        ),
        Err(k) => lines::put_refusal(text, k),
    }
}
