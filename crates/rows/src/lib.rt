// The file of recorded answers, as host/compare/README.md lays it out. A row is a block and as many more as its own bytes fill. A block is
// eighteen words of 32 bits: call, flags and origin in one, how many bytes follow, six numbers of the call, and ten words to expect, the
// refusal's number first. What a row lacks reads as 0.
#![tactic(auto)]

ghost use Rattle.std.specs.Prelude.{◌≡◌, ◌≤◌, ◌<◌, length, replicate};
ghost use Rattle.rows.specs.Sizes.{most_file};
ghost use Rattle.rows.specs.Rows.{block_words, answer_size, first_of, word_at, signed_at, call_of, flags_of, origin_of, recorded_size, recorded_number, payload_of, recorded_answer, is_word, expected, has_head, row_size};

// The bytes of a block.
pub const BLOCK: usize = 72;
// The most bytes of a file.
const MOST_FILE: usize = 16_384 * BLOCK;
// The layout's version.
const VERSION: usize = 2;
// Where the call's six numbers begin, and the answer's ten words.
const FIRST_NUMBER: usize = 2;

const FIRST_ANSWER: usize = 8;
// How many words an answer has.
pub const ANSWER: usize = 10;

// Room for a file.
pub fn space() -> [u8; MOST_FILE]
    ensures value { result ≡ replicate most_file 0 }
    ensures size { most_file ≡ length result }
{
    [0; MOST_FILE]
}

// So many bytes from the front, none where there are fewer.
pub fn first(s: &[u8], size: usize) -> &[u8]
    ensures { result.now ≡ first_of s.now size }
{
    if s.len() < size {
        return &s[..0];
    }
    &s[..size]
}

// A word of a row.
fn word(row: &[u8], i: usize) -> u32
    requires { i < block_words }
    ensures { result ≡ word_at row.now i }
{
    if row.len() < BLOCK {
        return 0;
    }
    fields::u32_at(row, 4 * i)
}

// A word of a row as a signed number.
fn signed_word(row: &[u8], i: usize) -> i32
    requires { i < block_words }
    ensures { result ≡ signed_at row.now i }
{
    word(row, i).cast_signed()
}

// What a row calls.
pub fn call(row: &[u8]) -> usize
    ensures { result ≡ call_of row.now }
{
    (word(row, 0) % 256) as usize
}

// A row's flags.
pub fn flags(row: &[u8]) -> u32
    ensures { result ≡ flags_of row.now }
{
    word(row, 0) / 256 % 256
}

// Where a row's expectation comes from.
pub fn origin(row: &[u8]) -> usize
    ensures { result ≡ origin_of row.now }
{
    (word(row, 0) / 65_536 % 256) as usize
}

// A number of the call.
pub fn number(row: &[u8], i: usize) -> i32
    requires { i < 6 }
    ensures { result ≡ recorded_number row.now i }
{
    signed_word(row, FIRST_NUMBER + i)
}

// A number of the call as 32 bits.
pub fn bits(row: &[u8], i: usize) -> u32
    requires { i < 6 }
    ensures { result ≡ recorded_size row.now i }
{
    word(row, FIRST_NUMBER + i)
}

// A number of the call as a size.
pub fn size(row: &[u8], i: usize) -> usize
    requires { i < 6 }
    ensures { result ≡ recorded_size row.now i }
{
    bits(row, i) as usize
}

// A row's own bytes.
pub fn payload(row: &[u8]) -> &[u8]
    ensures { result.now ≡ payload_of row.now }
{
    first(sequences::rest(row, BLOCK), word(row, 1) as usize)
}

// A word of the answer that a row expects, as a size.
pub fn answer(row: &[u8], i: usize) -> usize
    requires { i < answer_size }
    ensures { result ≡ recorded_answer row.now i }
{
    word(row, FIRST_ANSWER + i) as usize
}

// Whether a word of the answer is this number.
fn is_word(row: &[u8], i: usize, z: i64) -> bool
    requires { i < answer_size }
    ensures { result ≡ is_word row.now i z }
{
    i64::from(signed_word(row, FIRST_ANSWER + i)) == z
}

// Whether the answer that a row expects is these words.
pub fn expects(row: &[u8], words: [i64; ANSWER]) -> bool
    ensures { result ≡ expected row.now words }
{
    let mut same = true;
    for i in 0..ANSWER {
        same = same & is_word(row, i, words[i]);
    }
    same
}

// Whether a file begins with a head of this layout.
pub fn has_head(file: &[u8]) -> bool
    ensures { result ≡ has_head file.now }
{
    (BLOCK <= file.len()) & (call(file) == 0) & (size(file, 0) == VERSION)
}

// How many bytes the row at the front of what is left has, 0 where it is cut off.
pub fn row_size(left: &[u8]) -> usize
    ensures value { result ≡ row_size left.now }
    ensures within { result ≤ length left.now }
{
    let blocks = (word(left, 1) as usize + BLOCK - 1) / BLOCK;
    let whole = BLOCK + BLOCK * blocks;
    if left.len() < whole {
        return 0;
    }
    whole
}
