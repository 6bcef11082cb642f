// The numbers of cards and logs, read and written where they lie: a byte, 16 and 32 bits with the least significant byte first, and signed numbers of 32 bits.
#![tactic(auto)]

ghost use Rattle.std.specs.Prelude.{◌≡◌, ◌+◌, ◌≤◌, ◌<◌, length, get_or};
ghost use Rattle.std.proofs.lemmas.List.Edits.{sets};
ghost use Rattle.fields.specs.Fields.{bytes, le16, le32, bytes16, bytes32, signed32, bits32};

// The byte at a place.
pub fn u8_at(s: &[u8], at: usize) -> u32
    requires { at + 1 ≤ length s.now }
    ensures value { result ≡ get_or s.now at 0 }
    ensures within { result < 256 }
{
    u32::from(s[at])
}

// The 16-bit number at a place.
pub fn u16_at(s: &[u8], at: usize) -> u32
    requires { at + 2 ≤ length s.now }
    ensures value { result ≡ le16 s.now at }
    ensures within { result < 65536 }
{
    u32::from(u16::from_le_bytes([s[at], s[at + 1]]))
}

// The 32-bit number at a place.
pub fn u32_at(s: &[u8], at: usize) -> u32
    requires { at + 4 ≤ length s.now }
    ensures { result ≡ le32 s.now at }
{
    u32::from_le_bytes([s[at], s[at + 1], s[at + 2], s[at + 3]])
}

// The signed number at a place.
pub fn i32_at(s: &[u8], at: usize) -> i32
    requires { at + 4 ≤ length s.now }
    ensures { result ≡ signed32 (le32 s.now at) }
{
    u32_at(s, at).cast_signed()
}

// Writes the lowest byte of a number at a place.
pub fn put_u8(buf: &mut [u8], at: usize, n: u32)
    requires { at + 1 ≤ length buf.old }
    ensures { buf.new ≡ sets buf.old at (bytes 1 n) }
{
    buf[at] = (n % 256) as u8;
}

// Writes the lower 16 bits of a number, two bytes from a place on.
pub fn put_u16(buf: &mut [u8], at: usize, n: u32)
    requires { at + 2 ≤ length buf.old }
    ensures { buf.new ≡ sets buf.old at (bytes16 n) }
{
    let low = (n % 65536) as u16;
    buf[at..at + 2].copy_from_slice(&low.to_le_bytes());
}

// Writes a number, four bytes from a place on.
pub fn put_u32(buf: &mut [u8], at: usize, n: u32)
    requires { at + 4 ≤ length buf.old }
    ensures { buf.new ≡ sets buf.old at (bytes32 n) }
{
    buf[at..at + 4].copy_from_slice(&n.to_le_bytes());
}

// Writes a signed number, four bytes from a place on.
pub fn put_i32(buf: &mut [u8], at: usize, z: i32)
    requires { at + 4 ≤ length buf.old }
    ensures { buf.new ≡ sets buf.old at (bytes32 (bits32 z)) }
{
    put_u32(buf, at, z.cast_unsigned());
}
