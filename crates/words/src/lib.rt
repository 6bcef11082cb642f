// CIGAR words of BAM, read into two lent tables and written from two tables. Words and elements keep their order: BAM's run along the genome and a record's along the
// transcript, so on strand -1 the caller turns them round.
#![tactic(auto)]

ghost use Rattle.std.specs.Prelude.{◌≡◌, true, map, ◌≤◌, pos, nat_abs, length};
ghost use Rattle.std.proofs.lemmas.List.Edits.{sets};
ghost use Rattle.refusals.specs.Numbers.{most_word_count, most_segments};
ghost use Rattle.refusals.specs.Outcome.{no_fault};
ghost use Rattle.cigar.specs.Elements.{is_letter};
ghost use Rattle.cigar.specs.Text.{element, counted_of};
ghost use Rattle.cigar.specs.Read.{counts_after, letters_after, FullLength, Filled};
ghost use Rattle.spelling.specs.Write.{buffer_after};
ghost use Rattle.words.specs.Words.{letter_of, code_of, length_in, code_in, element_of_word, word_of, is_known, all_known, read_words, fault_of, fault_from, elements_at, write_words, counted_words, Room};

use refusals::{MOST_SEGMENTS, MOST_WORD_COUNT, Refusal};

// The lower 4 bits of a word have room for so many codes: the word is its length times that, and its code.
const CODES: u32 = 16;

// The letter of a word's code, 0 where it has none: BAM's are MIDNSHP=X, its I is our D, and its D our I.
fn letter_in(word: u32) -> u8
    ensures { result ≡ letter_of (code_in word) }
{
    let letters = b"MDINSHP=X";
    let code = (word % CODES) as usize;
    letters.get(code).copied().unwrap_or(0)
}

// A word's length as the signed number of a table.
fn length_in(word: u32) -> i32
    ensures { (result ≡ pos (length_in word)) × (length_in word ≤ most_word_count) }
{
    cigar::signed(word / CODES)
}

// Whether a word's code is that of one of the six letters.
fn is_known(word: u32) -> bool
    ensures { result ≡ is_known word }
{
    cigar::is_letter(letter_in(word))
}

// Whether every word's code is.
fn all_known(words: &[u32]) -> bool
    ensures { result ≡ all_known words.now }
{
    words.iter().all(|word| is_known(*word))
}

// The elements of words, from the front of two tables that have room for them.
fn fill_from_words(words: &[u32], counts: &mut [i32], letters: &mut [u8])
    requires { Room counts.old letters.old (length words.now) }
    ensures { Filled counts.old letters.old counts.new letters.new 0 (map element_of_word words.now) }
{
    for (i, word) in words.iter().enumerate() {
        counts[i] = length_in(*word);
        letters[i] = letter_in(*word);
    }
}

// The elements of BAM's words in their order, read into the fronts of two lent tables, or a refusal, which leaves them as they are. On strand -1 the caller turns them round.
pub fn read_words(words: &[u32], counts: &mut [i32], letters: &mut [u8]) -> Result<usize, Refusal>
    ensures value { result ≡ counted_of (read_words words.now (length counts.old) (length letters.old)) }
    ensures counts_after { counts.new ≡ counts_after counts.old (read_words words.now (length counts.old) (length letters.old)) }
    ensures letters_after { letters.new ≡ letters_after letters.old (read_words words.now (length counts.old) (length letters.old)) }
{
    if !all_known(words) {
        return Err(Refusal::NoOperation);
    }
    let number = words.len();
    if MOST_SEGMENTS < number {
        return Err(Refusal::TooMuch);
    }
    if counts.len() < number || letters.len() < number {
        return Err(Refusal::NoRoom);
    }
    fill_from_words(words, counts, letters);
    Ok(number)
}

// The code of one of the six letters.
fn code_of(letter: u8) -> u32
    requires { is_letter letter ≡ true }
    ensures { (result ≡ code_of letter) × (result ≤ 8) }
{
    match letter {
        b'M' => 0,
        b'D' => 1,
        b'I' => 2,
        b'N' => 3,
        b'=' => 7,
        _ => 8,
    }
}

// An element's refusal: 7, then 31.
fn fault_of(count: i32, letter: u8) -> Result<(), Refusal>
    ensures { result ≡ fault_of count letter }
{
    if !cigar::is_letter(letter) {
        return Err(Refusal::NoElement);
    }
    if count < 0 || MOST_WORD_COUNT < count {
        return Err(Refusal::NoWord);
    }
    Ok(())
}

// The first refusal of the first elements of the tables.
fn first_fault(number: usize, counts: &[i32], letters: &[u8]) -> Result<(), Refusal>
    requires { FullLength counts.now letters.now × (number ≤ most_segments) }
    ensures { result ≡ fault_from counts.now letters.now 0 number }
{
    for i in 0..number {
        fault_of(counts[i], letters[i])?;
    }
    Ok(())
}

// The word of an element that is not refused.
fn word_of(count: i32, letter: u8) -> u32
    requires { fault_of count letter ≡ no_fault }
    ensures { result ≡ word_of (element (nat_abs count) letter) }
{
    spelling::unsigned(count) * CODES + code_of(letter)
}

// The words of the first elements of the tables, from the front of lent words that have room for them.
fn put_words(number: usize, counts: &[i32], letters: &[u8], words: &mut [u32])
    requires full_length { FullLength counts.now letters.now × (number ≤ most_segments) }
    requires number_value { fault_from counts.now letters.now 0 number ≡ no_fault }
    requires number_in_bounds { number ≤ length words.old }
    ensures { words.new ≡ sets words.old 0 (map word_of (elements_at counts.now letters.now 0 number)) }
{
    for i in 0..number {
        words[i] = word_of(counts[i], letters[i]);
    }
}

// BAM's words of the first elements of two tables in their order, written at the front of lent words, or a refusal, which leaves them as they are. On strand -1 the
// caller turns them round.
pub fn write_words(
    number: usize,
    counts: &[i32; MOST_SEGMENTS],
    letters: &[u8; MOST_SEGMENTS],
    words: &mut [u32],
) -> Result<usize, Refusal>
    ensures value { result ≡ counted_words (write_words number counts.now letters.now (length words.old)) }
    ensures words_after { words.new ≡ buffer_after words.old (write_words number counts.now letters.now (length words.old)) }
{
    // Elements past the tables' ends are not there to be judged.
    first_fault(number.min(MOST_SEGMENTS), counts, letters)?;
    if MOST_SEGMENTS < number {
        return Err(Refusal::TooMuch);
    }
    if words.len() < number {
        return Err(Refusal::NoRoom);
    }
    put_words(number, counts, letters, words);
    Ok(number)
}
