// What every question may be refused with, and the limits, each named once: the refusals of document 01 in their order, and those of the requests after it.
#![tactic(auto)]

ghost use Rattle.std.specs.Prelude.{◌≡◌};
ghost use Rattle.refusals.specs.Numbers.{number};

// A refusal. What stands behind the sign of equality is its number in the documents, which a host is told.
#[derive(Clone, Copy, PartialEq, Eq, Debug)]
pub enum Refusal {
    // No exon records.
    NoRecords = 1,
    // The strand is neither 1 nor -1.
    NoStrand = 2,
    // Over a limit: records, a CIGAR's bytes or words, segments, a card's or a log's bytes.
    TooMuch = 3,
    // A bound or a given length is negative, an end is below its start, a genome start is below the previous end.
    BadBound = 4,
    // `ord` does not rise strictly on strand 1, or fall on strand -1.
    BadOrd = 5,
    // An exon's transcript end differs from the next one's start.
    NotAdjacent = 6,
    // A CIGAR byte or end where an element can't be finished; in writing, a letter not of the six.
    NoElement = 7,
    // A finished element's count is above the largest; in writing, a count is negative.
    BadCount = 8,
    // The transcript length, or the first start plus the genome length, is above the largest.
    TooLong = 9,
    // No segment at all.
    NoSegment = 10,
    // One CDS bound is given and the other is not.
    HalfCds = 11,
    // Not 0 <= start <= end <= transcript length.
    BadCds = 12,
    // c. is asked, and there is no CDS.
    NotCoding = 13,
    // Strict: a place lies outside the from-table.
    Outside = 14,
    // Strict n. to c.: the start number is 0 or less, or the end number is above the length.
    NOutside = 15,
    // Strict c. to n.: the number is 0 or less, or above the length.
    COutside = 16,
    // A result number does not fit 32 signed bits.
    TooWide = 17,
    // g. is asked of a length-only transcript.
    NoGenome = 18,
    // The g. start or end is missing.
    MissingEnd = 19,
    // What is written is longer than the lent memory.
    NoRoom = 20,
    // Bytes that are no card.
    NoCard = 21,
    // A card's version is not 1.
    BadVersion = 22,
    // A transcript does not hold together.
    NotTogether = 23,
    // A BAM word's code is none of those of the six letters.
    NoOperation = 30,
    // A count that no BAM word can hold: below 0, or above the largest.
    NoWord = 31,
    // A record's CIGAR is not as long along the genome as the record's bounds.
    NotSpanning = 32,
    // A worklist's positions fall somewhere.
    Falling = 33,
    // An allele has a letter outside the nucleotide list.
    NoBase = 34,
    // Bytes that are no log, or a question that no entry of one can hold.
    NoLog = 35,
}

impl Refusal {
    // The number of a refusal.
    pub fn number(self) -> u8
        ensures { result ≡ number self }
    {
        self as u8
    }
}

// The most exon records of a transcript.
pub const MOST_RECORDS: usize = 512;
// The most segments of a transcript: the length of the table of letters.
pub const MOST_SEGMENTS: usize = 2048;
// The length of a table of starts: one for each segment, and the total.
pub const MOST_STARTS: usize = MOST_SEGMENTS + 1;
// The most bytes of a CIGAR's text.
pub const MOST_TEXT: usize = 4096;
// The most bytes of a card.
pub const MOST_CARD: usize = 65_536;
// The most bytes of a log.
pub const MOST_LOG: usize = 65_536;
// The largest transcript length, and the largest genome end.
pub const MOST_BASES: u32 = 2_000_000_000;
// The largest count of an element.
pub const MOST_COUNT: u32 = 2_147_483_647;
// The largest count that a BAM word has bits for: 28 of them.
pub const MOST_WORD_COUNT: i32 = 268_435_455;
