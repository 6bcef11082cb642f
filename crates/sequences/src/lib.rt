// Two alleles: their common prefix and suffix, what is left without them, and the part that changed. Any bytes are taken.
#![tactic(auto)]

ghost use Rattle.std.specs.Prelude.{◌≡◌, ◌≤◌, length};
ghost use Rattle.sequences.specs.Alleles.{prefix_len, suffix_len, changed_part};
ghost use Rattle.sequences.specs.Slices.{slice_of, part_between, rest_of, front_of, part_of};

// How many bytes the two have in common from the front.
pub fn trim_common_prefixes(reference: &[u8], alternative: &[u8]) -> usize
    ensures { result ≡ prefix_len reference.now alternative.now }
{
    let from_front = reference.iter().zip(alternative);
    from_front.take_while(|(r, a)| **r == **a).count()
}

// How many bytes the two have in common from the back.
pub fn trim_common_suffixes(reference: &[u8], alternative: &[u8]) -> usize
    ensures { result ≡ suffix_len reference.now alternative.now }
{
    let from_back = reference.iter().rev().zip(alternative.iter().rev());
    from_back.take_while(|(r, a)| **r == **a).count()
}

// A part of the caller's own slice.
fn cut(s: &[u8], from: usize, to: usize) -> &[u8]
    requires { (from ≤ to) × (to ≤ length s.now) }
    ensures { slice_of result ≡ part_between (slice_of s.entry) from to }
{
    &s[from..to]
}

// What is left of a slice without its first p bytes: where it has fewer, the empty part at its end.
pub fn rest(s: &[u8], p: usize) -> &[u8]
    ensures { slice_of result ≡ rest_of (slice_of s.entry) p }
{
    let n = s.len();
    cut(s, p.min(n), n)
}

// What is left of a slice without its last q bytes: where it has fewer, the empty part at its beginning.
pub fn front(s: &[u8], q: usize) -> &[u8]
    ensures { slice_of result ≡ front_of (slice_of s.entry) q }
{
    let to = s.len().saturating_sub(q);
    cut(s, 0, to)
}

// A part of one of two alleles: of the alternative or of the reference, and its bounds.
#[derive(Clone, Copy)]
pub struct Part {
    pub alternative: bool,
    pub from: usize,
    pub to: usize,
}

// Prefix, then suffix removed: where the rest of the longer allele stands, the reference's when lengths tie.
pub fn changed_part(reference: &[u8], alternative: &[u8]) -> Part
    ensures { result ≡ changed_part reference.now alternative.now }
{
    let p = trim_common_prefixes(reference, alternative);
    let q = trim_common_suffixes(rest(reference, p), rest(alternative, p));
    if alternative.len() <= reference.len() {
        let to = reference.len() - q;
        Part {
            alternative: false,
            from: p,
            to,
        }
    } else {
        let to = alternative.len() - q;
        Part {
            alternative: true,
            from: p,
            to,
        }
    }
}

// That part itself, of the caller's own slices.
pub fn changed<'a>(reference: &'a [u8], alternative: &'a [u8]) -> &'a [u8]
    ensures { slice_of result ≡ part_of (changed_part reference.now alternative.now) (slice_of reference.entry) (slice_of alternative.entry) }
{
    let part = changed_part(reference, alternative);
    let from = part.from;
    let to = part.to;
    if part.alternative {
        cut(alternative, from, to)
    } else {
        cut(reference, from, to)
    }
}
