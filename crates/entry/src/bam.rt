// CIGAR words of BAM for the host. Words and elements keep their order: BAM's run along the genome and a record's along the transcript, so on strand -1 the host turns them
// round.
ghost use Rattle.std.specs.Prelude.{◌≡◌, length};
ghost use Rattle.cigar.specs.Text.{counted_of};
ghost use Rattle.cigar.specs.Read.{counts_after, letters_after};
ghost use Rattle.spelling.specs.Write.{buffer_after};
ghost use Rattle.words.specs.Words.{read_words, write_words, counted_words};
ghost use Rattle.results.specs.Results.{counted_laid};

use layout::lay::Length;
use refusals::MOST_SEGMENTS;

// How many elements words have, which then stand at the fronts of the two slices.
pub fn txc_read_bam(words: &[u32], counts: &mut [i32], letters: &mut [u8]) -> Length
    ensures value { result ≡ counted_laid (counted_of (read_words words.now (length counts.old) (length letters.old))) }
    ensures counts_after { counts.new ≡ counts_after counts.old (read_words words.now (length counts.old) (length letters.old)) }
    ensures letters_after { letters.new ≡ letters_after letters.old (read_words words.now (length counts.old) (length letters.old)) }
{
    results::counted_laid(words::read_words(words, counts, letters))
}

// How many words the first elements of the two tables are written with, at the front of the lent words.
pub fn txc_write_bam(
    number: usize,
    counts: &[i32; MOST_SEGMENTS],
    letters: &[u8; MOST_SEGMENTS],
    words: &mut [u32],
) -> Length
    ensures value { result ≡ counted_laid (counted_words (write_words number counts.now letters.now (length words.old))) }
    ensures words_after { words.new ≡ buffer_after words.old (write_words number counts.now letters.now (length words.old)) }
{
    results::counted_laid(words::write_words(number, counts, letters, words))
}
