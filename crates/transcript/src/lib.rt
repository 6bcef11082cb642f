// What is known of a transcript: its head, and the CDS bounds that are handed over.
#![tactic(auto)]

ghost use Rattle.std.specs.Prelude.{◌≡◌, ◌≤◌};
ghost use Rattle.transcript.specs.Heads.{both_bits, start_of, end_of, number_of, with_cds};

// The kinds of a head and its CDS bits are numbers, since the C interface has them so.
// The kind of a head built from records.
pub const OF_RECORDS: i32 = 0;
// The kind of a head built from a length.
pub const OF_LENGTH: i32 = 1;
// The CDS bits where neither bound is given.
pub const NONE_GIVEN: i32 = 0;
// The CDS bits where both bounds are given: 1 says that the start is, 2 that the end is.
pub const BOTH_GIVEN: i32 = 3;
// The same as they are handed over.
pub const BOTH_BITS: u32 = BOTH_GIVEN as u32;

// A transcript beside its four tables: kind (0 built from records, 1 from a length), strand, first start, segment count, CDS bits
// (1 start given, 2 end given), CDS start, CDS end, the length of a length-only one, and the record count. The numbers are the host's own, and any may be wrong.
#[derive(Clone, Copy)]
pub struct Head {
    pub kind: i32,
    pub strand: i32,
    pub first: i32,
    pub count: i32,
    pub bits: i32,
    pub start: i32,
    pub end: i32,
    pub length: i32,
    pub records: i32,
}

// What building is handed beside the records' bytes, by a host or by a card: strand, CDS bits (1 start given, 2 end given), CDS start, CDS end, and how many records there are. Any number may be wrong.
#[derive(Clone, Copy)]
pub struct Numbers {
    pub strand: i32,
    pub cds: u32,
    pub start: i32,
    pub end: i32,
    pub count: usize,
}

// The CDS start, whose number counts only where it is given.
pub fn start_of(bits: u32, number: i32) -> Option<i32>
    ensures { result ≡ start_of bits number }
{
    (bits % 2 == 1).then_some(number)
}

// The CDS end.
pub fn end_of(bits: u32, number: i32) -> Option<i32>
    ensures { result ≡ end_of bits number }
{
    (2 <= bits).then_some(number)
}

// The number of a bound, 0 where it is not given.
pub fn number_of(bound: Option<i32>) -> i32
    ensures { result ≡ number_of bound }
{
    bound.unwrap_or(0)
}

// A head with a CDS that passed.
pub fn with_cds(mut head: Head, bits: u32, start: i32, end: i32) -> Head
    requires { bits ≤ both_bits }
    ensures { result ≡ with_cds head bits start end }
{
    let given = bits as i32;
    let from = number_of(start_of(bits, start));
    let to = number_of(end_of(bits, end));
    head.bits = given;
    head.start = from;
    head.end = to;
    head
}
