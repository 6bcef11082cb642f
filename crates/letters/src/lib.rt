// Whether the letters of lent tables are known, one of = D I M N X, and whether they are common, one of = M N X: each in one pass with no early way out, which is vectorised.
#![tactic(auto)]

ghost use Rattle.std.specs.Prelude.{◌≡◌, ℕ, ◌+◌, ◌≤◌, Bool, ◌&&◌, if◌then◌else◌, nat_le, slice_index};
ghost use Rattle.refusals.specs.Numbers.{most_segments};
ghost use Rattle.cigar.specs.Elements.{is_letter};
ghost use Rattle.segments.specs.Tables.{all_below, known_at};
ghost use Rattle.numbered.specs.Stretches.{from};
ghost use Rattle.stepping.specs.Steps.{within};
ghost use Rattle.letters.specs.Letters.{is_common, common_at};

use refusals::MOST_SEGMENTS;

// A test of one letter.
trait Test {
    ghost passes: { ℕ → Bool };

    fn passes(letter: u8) -> bool
        ensures { result ≡ passes letter };
}

// Whether the letter is one of = D I M N X.
struct Known;

impl Test for Known {
    ghost passes = { is_letter };

    fn passes(letter: u8) -> bool {
        (letter == b'=')
            | (letter == b'D')
            | (letter == b'I')
            | (letter == b'M')
            | (letter == b'N')
            | (letter == b'X')
    }
}

// Whether the letter is one of = M N X.
struct Common;

impl Test for Common {
    ghost passes = { is_common };

    fn passes(letter: u8) -> bool {
        (letter == b'=') | (letter == b'M') | (letter == b'N') | (letter == b'X')
    }
}

// Whether the letters from one segment up to another pass.
fn all_in<T: Test>(letters: &[u8; MOST_SEGMENTS], first: usize, to: usize) -> bool
    requires { (first ≤ to) × (to ≤ most_segments) }
    ensures { result ≡ all_below (from first (λ i. T.passes (slice_index letters.now i))) to }
{
    let mut ok = true;
    for i in first..to {
        ok = ok & T::passes(letters[i]);
    }
    ok
}

// Whether count letters pass, which are two blocks of one size: the last overlaps the first, or meets it.
fn in_blocks<T: Test, const SIZE: usize>(letters: &[u8; MOST_SEGMENTS], count: usize) -> bool
    requires { (SIZE ≤ count) × (count ≤ SIZE + SIZE) × (count ≤ most_segments) }
    ensures { result ≡ all_below (λ i. T.passes (slice_index letters.now i)) count }
{
    let front = all_in::<T>(letters, 0, SIZE);
    let back = all_in::<T>(letters, count - SIZE, count);
    front & back
}

// Whether the first count letters are known. The compiler makes straight code of whole blocks, so the last block overlaps the others; below 64
// letters two blocks do, of 32, 16, 8 or 4.
pub fn all_known(letters: &[u8; MOST_SEGMENTS], count: usize) -> bool
    requires { count ≤ most_segments }
    ensures { result ≡ all_below (known_at letters.now) count }
{
    if count < 4 {
        return all_in::<Known>(letters, 0, count);
    }
    if count < 8 {
        return in_blocks::<Known, 4>(letters, count);
    }
    if count < 16 {
        return in_blocks::<Known, 8>(letters, count);
    }
    if count < 32 {
        return in_blocks::<Known, 16>(letters, count);
    }
    if count < 64 {
        return in_blocks::<Known, 32>(letters, count);
    }
    let front = all_in::<Known>(letters, 0, count - count % 16);
    let back = all_in::<Known>(letters, count - 16, count);
    front & back
}

// 0 where the flag is true, else x.
fn unless_byte(flag: bool, x: u8) -> u8
    ensures { result ≡ (if flag then 0 else x) }
{
    if flag { 0 } else { x }
}

// The bits that letters have above an M's number, with one letter more, where = and X count as an M: an N has the lowest, and any other letter has more.
fn common_letter_on(bits: u8, letter: u8) -> u8
    ensures { within 1 result ≡ (within 1 bits && is_common letter) }
{
    let above = letter.wrapping_sub(b'M');
    bits | unless_byte((letter == b'=') | (letter == b'X'), above)
}

// Whether many letters, from one segment up to another, are common: over whole blocks, bits are gathered at less cost than the letters' tests.
fn many_common_in(letters: &[u8; MOST_SEGMENTS], first: usize, to: usize) -> bool
    requires { (first ≤ to) × (to ≤ most_segments) }
    ensures { result ≡ all_below (from first (common_at letters.now)) to }
{
    let mut bits = 0;
    for i in first..to {
        bits = common_letter_on(bits, letters[i]);
    }
    bits < 2
}

// Whether there are 8 letters at least and all are common, by blocks too. The last block comes first: where it has another letter, which most tables with one show, the others need no look.
pub fn all_common(letters: &[u8; MOST_SEGMENTS], count: usize) -> bool
    requires { count ≤ most_segments }
    ensures { result ≡ (nat_le 8 count && all_below (common_at letters.now) count) }
{
    if count < 8 {
        return false;
    }
    if count < 16 {
        return in_blocks::<Common, 8>(letters, count);
    }
    if count < 32 {
        return in_blocks::<Common, 16>(letters, count);
    }
    if count < 64 {
        return in_blocks::<Common, 32>(letters, count);
    }
    if many_common_in(letters, count - 16, count) {
        return many_common_in(letters, 0, count - count % 16);
    }
    false
}
