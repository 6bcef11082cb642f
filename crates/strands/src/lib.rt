// Two alleles of the genome trimmed as a transcript reads them, prefix first and then suffix. Nothing is turned for it: on strand -1 what they end with is what the transcript reads first.
#![tactic(auto)]

ghost use Rattle.std.specs.Prelude.{◌≡◌};
ghost use Rattle.sequences.specs.Slices.{slice_of};
ghost use Rattle.strands.specs.Turned.{on_strand};
ghost use Rattle.strands.specs.Trimmed.{removed_of, left_at};

pub mod turn;

// How many bytes of both alleles go, at the front and at the back, as the transcript reads them.
#[derive(Clone, Copy)]
pub struct Removed {
    pub prefix: usize,
    pub suffix: usize,
}

// What goes of two alleles.
pub fn trim(reference: &[u8], alternative: &[u8], back: bool) -> Removed
    ensures { result ≡ removed_of (on_strand back reference.now) (on_strand back alternative.now) }
{
    if back {
        let last = sequences::trim_common_suffixes(reference, alternative);
        let first = sequences::trim_common_prefixes(
            sequences::front(reference, last),
            sequences::front(alternative, last),
        );
        return Removed {
            prefix: last,
            suffix: first,
        };
    }
    let prefix = sequences::trim_common_prefixes(reference, alternative);
    let suffix = sequences::trim_common_suffixes(
        sequences::rest(reference, prefix),
        sequences::rest(alternative, prefix),
    );
    Removed { prefix, suffix }
}

// What is left of an allele, as the genome has it.
pub fn left(allele: &[u8], back: bool, gone: Removed) -> &[u8]
    ensures { slice_of result ≡ left_at back gone (slice_of allele.entry) }
{
    let prefix = gone.prefix;
    let suffix = gone.suffix;
    if back {
        return sequences::front(sequences::rest(allele, suffix), prefix);
    }
    sequences::front(sequences::rest(allele, prefix), suffix)
}
