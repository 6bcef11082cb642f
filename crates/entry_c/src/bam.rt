// CIGAR words of BAM for the host.
ghost use Rattle.std.specs.Prelude.{◌≡◌, length};
ghost use Rattle.cigar.specs.Text.{counted_of};
ghost use Rattle.cigar.specs.Read.{counts_after, letters_after};
ghost use Rattle.spelling.specs.Write.{buffer_after};
ghost use Rattle.words.specs.Words.{read_words, write_words, counted_words};
ghost use Rattle.results.specs.Results.{counted_laid};

use layout::lay::Length;
use refusals::MOST_SEGMENTS;

// How many elements words have, which then stand at the fronts of the two slices.
#[unsafe(no_mangle)]
pub extern "C" fn txc_read_bam(words: &[u32], counts: &mut [i32], letters: &mut [u8]) -> Length
    ensures value { result ≡ counted_laid (counted_of (read_words words.now (length counts.old) (length letters.old))) }
    ensures counts_after { counts.new ≡ counts_after counts.old (read_words words.now (length counts.old) (length letters.old)) }
    ensures letters_after { letters.new ≡ letters_after letters.old (read_words words.now (length counts.old) (length letters.old)) }
{
    entry::bam::txc_read_bam(words, counts, letters)
}

// How many words the first elements of the two tables are written with, at the front of the lent words.
#[unsafe(no_mangle)]
pub extern "C" fn txc_write_bam(
    number: usize,
    counts: &[i32; MOST_SEGMENTS],
    letters: &[u8; MOST_SEGMENTS],
    words: &mut [u32],
) -> Length
    ensures value { result ≡ counted_laid (counted_words (write_words number counts.now letters.now (length words.old))) }
    ensures words_after { words.new ≡ buffer_after words.old (write_words number counts.now letters.now (length words.old)) }
{
    entry::bam::txc_write_bam(number, counts, letters, words)
}
