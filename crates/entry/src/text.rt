// CIGAR text and alleles for the host.
ghost use Rattle.std.specs.Prelude.{◌≡◌, length};
ghost use Rattle.cigar.specs.Text.{counted_of};
ghost use Rattle.cigar.specs.Read.{read_text, counts_after, letters_after};
ghost use Rattle.spelling.specs.Write.{writing, written_answer, buffer_after};
ghost use Rattle.sequences.specs.Alleles.{prefix_len, suffix_len, changed_part};
ghost use Rattle.results.specs.Results.{counted_laid, part_laid};

use layout::lay::Length;
use refusals::MOST_SEGMENTS;
use results::Part;

// How many elements a text has, which then stand at the front of the two tables.
pub fn txc_read_cigar(
    text: &[u8],
    counts: &mut [i32; MOST_SEGMENTS],
    letters: &mut [u8; MOST_SEGMENTS],
) -> Length
    ensures value { result ≡ counted_laid (counted_of (read_text text.now)) }
    ensures counts_after { counts.new ≡ counts_after counts.old (read_text text.now) }
    ensures letters_after { letters.new ≡ letters_after letters.old (read_text text.now) }
{
    results::counted_laid(cigar::read_cigar(text, counts, letters))
}

// How many bytes the first elements of the two tables are written with, at the front of the buffer.
pub fn txc_write_cigar(
    number: usize,
    counts: &[i32; MOST_SEGMENTS],
    letters: &[u8; MOST_SEGMENTS],
    buffer: &mut [u8],
) -> Length
    ensures value { result ≡ counted_laid (written_answer (writing number counts.now letters.now (length buffer.old))) }
    ensures buffer_after { buffer.new ≡ buffer_after buffer.old (writing number counts.now letters.now (length buffer.old)) }
{
    results::counted_laid(spelling::write_cigar(number, counts, letters, buffer))
}

// How many bytes two alleles have in common from the front.
pub fn txc_trim_prefix(reference: &[u8], alternative: &[u8]) -> usize
    ensures { result ≡ prefix_len reference.now alternative.now }
{
    sequences::trim_common_prefixes(reference, alternative)
}

// How many bytes two alleles have in common from the back.
pub fn txc_trim_suffix(reference: &[u8], alternative: &[u8]) -> usize
    ensures { result ≡ suffix_len reference.now alternative.now }
{
    sequences::trim_common_suffixes(reference, alternative)
}

// Where the part of two alleles that changed stands.
pub fn txc_changed(reference: &[u8], alternative: &[u8]) -> Part
    ensures { result ≡ part_laid (changed_part reference.now alternative.now) }
{
    results::part_laid(sequences::changed_part(reference, alternative))
}
