// An allele as the other strand reads it: its letters from the back, each as its complement.
ghost use Rattle.std.specs.Prelude.{◌≡◌, true, ◌++◌, ◌≤◌, length, drop};
ghost use Rattle.refusals.specs.Outcome.{through};
ghost use Rattle.strands.specs.Turned.{partner, are_bases, turned, on_strand, turning, turned_into};

use refusals::Refusal;

// What stands for a letter's partner where it has none.
const NO_PARTNER: u8 = 0;

// The letter opposite, case kept. One look tells whether a letter is in the list and what it becomes.
fn partner(letter: u8) -> u8
    ensures { result ≡ partner letter }
{
    match letter {
        b'A' => b'T',
        b'T' => b'A',
        b'C' => b'G',
        b'G' => b'C',
        b'R' => b'Y',
        b'Y' => b'R',
        b'K' => b'M',
        b'M' => b'K',
        b'B' => b'V',
        b'V' => b'B',
        b'D' => b'H',
        b'H' => b'D',
        b'S' => b'S',
        b'W' => b'W',
        b'N' => b'N',
        b'a' => b't',
        b't' => b'a',
        b'c' => b'g',
        b'g' => b'c',
        b'r' => b'y',
        b'y' => b'r',
        b'k' => b'm',
        b'm' => b'k',
        b'b' => b'v',
        b'v' => b'b',
        b'd' => b'h',
        b'h' => b'd',
        b's' => b's',
        b'w' => b'w',
        b'n' => b'n',
        _ => NO_PARTNER,
    }
}

// Whether all letters are in the list. They are judged on either strand, turned or not.
pub fn are_bases(allele: &[u8]) -> bool
    ensures { result ≡ are_bases allele.now }
{
    allele.iter().all(|letter| partner(*letter) != NO_PARTNER)
}

// An allele of bases, turned, at the front of a buffer that has room for it.
fn put_turned(allele: &[u8], buffer: &mut [u8])
    requires { (are_bases allele.now ≡ true) × (length allele.now ≤ length buffer.old) }
    ensures { buffer.new ≡ turned allele.now ++ drop (length allele.now) buffer.old }
{
    for (i, letter) in allele.iter().rev().enumerate() {
        buffer[i] = partner(*letter);
    }
}

// An allele, as it stands, at the front of a buffer that has room for it.
fn put_plain(allele: &[u8], buffer: &mut [u8])
    requires { length allele.now ≤ length buffer.old }
    ensures { buffer.new ≡ allele.now ++ drop (length allele.now) buffer.old }
{
    // A loop, since a slice's copy is a call of memmove, which the archive needs nowhere else.
    for i in 0..allele.len() {
        buffer[i] = allele[i];
    }
}

// An allele of bases, turned, or as it stands, at the front of a buffer that has room for it.
pub fn put_on_strand(allele: &[u8], back: bool, buffer: &mut [u8])
    requires { (are_bases allele.now ≡ true) × (length allele.now ≤ length buffer.old) }
    ensures { buffer.new ≡ on_strand back allele.now ++ drop (length allele.now) buffer.old }
{
    if back {
        put_turned(allele, buffer);
    } else {
        put_plain(allele, buffer);
    }
}

// An allele, turned, at the front of a lent buffer, or a refusal, which leaves the buffer as it is.
pub fn turn(allele: &[u8], buffer: &mut [u8]) -> Result<(), Refusal>
    ensures value { result ≡ through (λ _. tt) (turning allele.now (length buffer.old)) }
    ensures buffer_after { buffer.new ≡ turned_into buffer.old (turning allele.now (length buffer.old)) }
{
    if !are_bases(allele) {
        return Err(Refusal::NoBase);
    }
    if buffer.len() < allele.len() {
        return Err(Refusal::NoRoom);
    }
    put_on_strand(allele, true, buffer);
    Ok(())
}
