// Lent slices of words, of counts and of letters: what a row lays out in its own bytes, put into them and held to them.
ghost use Rattle.std.specs.Prelude.{◌≡◌, pos, length, replicate};
ghost use Rattle.comparing.specs.Sizes.{most_words};
ghost use Rattle.comparing.specs.Bam.{word_or, count_or, letter_or, words_put, holds_words, is_count, holds_counts, holds_letters};

use crate::elements;
use crate::elements::ELEMENT;
use refusals::MOST_SEGMENTS;

// The most words that a row has, and the most places of a slice that it lends.
pub const MOST_WORDS: usize = 2 * MOST_SEGMENTS;
// A word is laid out in four bytes.
pub const WORD: usize = 4;

// Room for words.
pub fn word_room() -> [u32; MOST_WORDS]
    ensures value { result ≡ replicate most_words 0 }
    ensures size { most_words ≡ length result }
{
    [0; MOST_WORDS]
}

// Room for counts.
pub fn count_room() -> [i32; MOST_WORDS]
    ensures value { result ≡ replicate most_words (pos 0) }
    ensures size { most_words ≡ length result }
{
    [0; MOST_WORDS]
}

// Room for letters.
pub fn letter_room() -> [u8; MOST_WORDS]
    ensures value { result ≡ replicate most_words 0 }
    ensures size { most_words ≡ length result }
{
    [0; MOST_WORDS]
}

// The word at an index of a layout, 0 where there is none.
fn word_at(layout: &[u8], i: usize) -> u32
    ensures { result ≡ word_or layout.now i }
{
    if i < layout.len() / WORD {
        return fields::u32_at(layout, WORD * i);
    }
    0
}

// The count of the element at an index of a layout, 0 where there is none.
fn count_at(elements: &[u8], i: usize) -> i32
    ensures { result ≡ count_or elements.now i }
{
    if i < elements.len() / ELEMENT {
        return elements::count_at(elements, i);
    }
    0
}

// Its letter.
fn letter_at(elements: &[u8], i: usize) -> u8
    ensures { result ≡ letter_or elements.now i }
{
    if i < elements.len() / ELEMENT {
        return elements::letter_at(elements, i);
    }
    0
}

// Puts the words laid out into a slice.
pub fn put_words(layout: &[u8], words: &mut [u32])
    ensures { words.new ≡ words_put layout.now words.old (length words.old) }
{
    for (i, word) in words.iter_mut().enumerate() {
        *word = word_at(layout, i);
    }
}

// Whether a slice holds the words laid out and after them only zeros.
pub fn holds_words(words: &[u32], layout: &[u8]) -> bool
    ensures { result ≡ holds_words words.now layout.now }
{
    let mut same = true;
    for (i, word) in words.iter().enumerate() {
        same &= *word == word_at(layout, i);
    }
    same & (layout.len() / WORD <= words.len())
}

// Whether a slice holds the letters of the elements laid out and after them only zeros.
pub fn holds_letters(letters: &[u8], elements: &[u8]) -> bool
    ensures { result ≡ holds_letters letters.now elements.now }
{
    let mut same = true;
    for (i, letter) in letters.iter().enumerate() {
        same &= *letter == letter_at(elements, i);
    }
    same & (elements.len() / ELEMENT <= letters.len())
}

// Whether this is the count of the element at an index of a layout, 0 where there is none.
fn is_count(elements: &[u8], i: usize, count: i32) -> bool
    ensures { result ≡ is_count elements.now i count }
{
    count_at(elements, i) == count
}

// Whether a slice holds the counts of the elements laid out and after them only zeros.
pub fn holds_counts(counts: &[i32], elements: &[u8]) -> bool
    ensures { result ≡ holds_counts counts.now elements.now }
{
    let mut same = true;
    for (i, count) in counts.iter().enumerate() {
        same &= is_count(elements, i, *count);
    }
    same & (elements.len() / ELEMENT <= counts.len())
}
