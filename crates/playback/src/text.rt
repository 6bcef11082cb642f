// Lines of numbers: the decimal digits and a newline each.
ghost use Rattle.std.specs.Prelude.{◌≡◌, ◌+◌, ◌≤◌, length};
ghost use Rattle.card.specs.Putting.{Put};
ghost use Rattle.playback.specs.Lines.{line_of, lines_of, index_if, most_line};

// The most bytes of a replay's text: that of a log whose 1,489 entries all differ.
pub const MOST_REPLAY: usize = 6_340;

// How many bytes the line of a number takes.
pub fn line_len(n: u32) -> usize
    ensures value { result ≡ length (line_of n) }
    ensures within { result ≤ most_line }
{
    spelling::digits_len(n) + 1
}

// The line of a number. Returns the place after it.
pub fn put_line(buffer: &mut [u8], at: usize, n: u32) -> usize
    requires { at + length (line_of n) ≤ length buffer.old }
    ensures { Put buffer.old buffer.new at result (line_of n) }
{
    let end = spelling::put_digits(buffer, at, n);
    buffer[end] = b'\n';
    end + 1
}

// How many bytes an index takes that is listed or not.
pub fn len_if(listed: bool, i: u32) -> usize
    ensures value { result ≡ length (lines_of (index_if listed i)) }
    ensures within { result ≤ most_line }
{
    if listed { line_len(i) } else { 0 }
}

// The line of an index that is listed. Returns the place after it.
pub fn put_if(buffer: &mut [u8], at: usize, listed: bool, i: u32) -> usize
    requires { at + length (lines_of (index_if listed i)) ≤ length buffer.old }
    ensures { Put buffer.old buffer.new at result (lines_of (index_if listed i)) }
{
    if listed {
        return put_line(buffer, at, i);
    }
    at
}
