// What the program writes to standard output.
use std::io;

// Writes a text.
pub(crate) fn text(rt: &impl Print, text: &[u8]) -> io::Result<()> {
    rt.write_all(text)
}

// Writes a number in decimal digits.
pub(crate) fn number(rt: &impl Print, n: u64) -> io::Result<()> {
    rt.print(n)
}

// Writes one line of a text, counted from 0.
pub(crate) fn line(rt: &impl Print, lines: &[u8], n: usize) -> io::Result<()> {
    match lines.split(|b| *b == b'\n').nth(n) {
        Some(line) => text(rt, line),
        None => Ok(()),
    }
}
