// Elements that a row lays out in its own bytes: put into tables, and compared with the fronts of tables.
ghost use Rattle.std.specs.Prelude.{◌≡◌, ◌≤◌, ◌<◌, length};
ghost use Rattle.refusals.specs.Numbers.{most_segments};
ghost use Rattle.comparing.specs.Texts.{laid_out, recorded_count, letter_at, is_element, begin_with, counts_put, letters_put};

use refusals::MOST_SEGMENTS;

// An element is laid out as a count of 32 bits and a letter.
pub const ELEMENT: usize = 5;

// The count of the element at an index of a layout.
pub fn count_at(elements: &[u8], i: usize) -> i32
    requires { i < laid_out elements.now }
    ensures { result ≡ recorded_count elements.now i }
{
    fields::i32_at(elements, ELEMENT * i)
}

// Its letter.
pub fn letter_at(elements: &[u8], i: usize) -> u8
    requires { i < laid_out elements.now }
    ensures { result ≡ letter_at elements.now i }
{
    elements[ELEMENT * i + 4]
}

// Whether the element at an index of a layout has this count and letter.
fn is_element(elements: &[u8], i: usize, count: i32, letter: u8) -> bool
    requires { i < laid_out elements.now }
    ensures { result ≡ is_element elements.now i count letter }
{
    count_at(elements, i) == count && letter_at(elements, i) == letter
}

// Whether the tables begin with the elements laid out.
pub fn begin_with(
    elements: &[u8],
    counts: &[i32; MOST_SEGMENTS],
    letters: &[u8; MOST_SEGMENTS],
) -> bool
    requires { laid_out elements.now ≤ most_segments }
    ensures { result ≡ begin_with elements.now counts.now letters.now }
{
    let number = elements.len() / ELEMENT;
    let mut same = true;
    for i in 0..number {
        same &= is_element(elements, i, counts[i], letters[i]);
    }
    same
}

// Puts the elements laid out at the front of the tables.
pub fn put_elements(elements: &[u8], counts: &mut [i32], letters: &mut [u8])
    requires { (laid_out elements.now ≤ length counts.old) × (laid_out elements.now ≤ length letters.old) }
    ensures counts_after { counts.new ≡ counts_put elements.now counts.old (laid_out elements.now) }
    ensures letters_after { letters.new ≡ letters_put elements.now letters.old (laid_out elements.now) }
{
    let number = elements.len() / ELEMENT;
    for i in 0..number {
        let count = count_at(elements, i);
        counts[i] = count;
        letters[i] = letter_at(elements, i);
    }
}
