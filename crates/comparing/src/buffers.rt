// A lent buffer, and whether it holds a text.
ghost use Rattle.std.specs.Prelude.{◌≡◌, length, get_or, replicate};
ghost use Rattle.comparing.specs.Sizes.{most_room};
ghost use Rattle.comparing.specs.Texts.{holds_text};

// The most bytes that a row lends as a buffer.
pub const MOST_ROOM: usize = 2 * refusals::MOST_CARD;

// Room for a buffer.
pub fn room() -> [u8; MOST_ROOM]
    ensures value { result ≡ replicate most_room 0 }
    ensures size { most_room ≡ length result }
{
    [0; MOST_ROOM]
}

// A byte, 0 where there is none.
fn byte_at(s: &[u8], i: usize) -> u8
    ensures { result ≡ get_or s.now i 0 }
{
    if i < s.len() { s[i] } else { 0 }
}

// Whether a buffer holds a text and after it only zeros.
pub fn holds(buffer: &[u8], text: &[u8]) -> bool
    ensures { result ≡ holds_text buffer.now text.now }
{
    let mut same = true;
    for (i, byte) in buffer.iter().enumerate() {
        same &= *byte == byte_at(text, i);
    }
    same & (text.len() <= buffer.len())
}
