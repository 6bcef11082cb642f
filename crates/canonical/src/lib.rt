// The questions and answers that an entry can hold: 35 stands or falls by this.
#![tactic(auto)]

ghost use Rattle.std.specs.Prelude.{◌≡◌};
ghost use Rattle.taking.specs.Questions.{from_g, from_c, to_g, to_c, is_plain};
ghost use Rattle.canonical.specs.Canonical.{kind_number, ◌only◌, end_holdable, holdable, refusals_of, is_number_of, tag_of_kind, exon_of_kind, end_sayable, is_nowhere, sayable, canonical};

use entries::Entry;
use layout::lay::{Answer, Position};
use refusals::Refusal;
use taking::question;
use taking::question::{Kind, Question};

// Star and missing together, two bits of a number, since the C interface and a log have them so.
const BOTH_MARKS: u32 = 3;

// The tags, which are an answer's marks: numbers, since the C interface and a log have them so.
const REFUSED: u32 = 0;

const CERTAIN: u32 = 1;

const UNCERTAIN: u32 = 2;

const UNMARKED: u32 = 3;

fn from_g(kind: Kind) -> bool
    ensures { result ≡ from_g (kind_number kind) }
{
    matches!(kind, Kind::GToN | Kind::GToC)
}

fn from_c(kind: Kind) -> bool
    ensures { result ≡ from_c (kind_number kind) }
{
    matches!(kind, Kind::CToN | Kind::CToG)
}

fn to_g(kind: Kind) -> bool
    ensures { result ≡ to_g (kind_number kind) }
{
    matches!(kind, Kind::NToG | Kind::CToG)
}

fn to_c(kind: Kind) -> bool
    ensures { result ≡ to_c (kind_number kind) }
{
    matches!(kind, Kind::NToC | Kind::GToC)
}

// Whether a kind is n. to c. or back.
fn is_plain(kind: Kind) -> bool
    ensures { result ≡ is_plain (kind_number kind) }
{
    matches!(kind, Kind::NToC | Kind::CToN)
}

// Whether a holds only where b does.
fn only(a: bool, b: bool) -> bool
    ensures { result ≡ a only b }
{
    if a {
        return b;
    }
    true
}

// Whether an entry can hold an end of a question: its marks, its number and its offset.
#[tactic(auto, unfolding(crate::specs::Canonical::end_holdable))]
fn is_end_holdable(kind: Kind, marks: u32, base: i32, offset: i32) -> bool
    ensures { result ≡ end_holdable (kind_number kind) marks base offset }
{
    let in_g = from_g(kind);
    let missing = question::is_missing(marks);
    (marks <= BOTH_MARKS)
        & only(question::is_star(marks), from_c(kind))
        & only(missing, in_g)
        & only(in_g, offset == 0)
        & only(missing, base == 0)
}

// Whether an entry can hold a question.
#[tactic(auto, unfolding(crate::specs::Canonical::holdable))]
pub fn is_holdable(q: Question) -> bool
    ensures { result ≡ holdable q }
{
    let Ok(kind) = Kind::try_from(q.kind) else {
        return false;
    };
    (q.strict <= 1)
        & is_end_holdable(kind, q.start_marks, q.start, q.start_offset)
        & is_end_holdable(kind, q.end_marks, q.end, q.end_offset)
}

// Whether a number is that of a refusal in a list.
fn is_listed(n: u32, refusals: &[Refusal]) -> bool
    ensures { result ≡ is_number_of n refusals.now }
{
    refusals
        .iter()
        .any(|refusal| n == u32::from(refusal.number()))
}

// Whether a kind can give the refusal of a number.
#[tactic(auto, unfolding(crate::specs::Canonical::refusals_of))]
fn can_refuse(kind: Kind, n: u32) -> bool
    ensures { result ≡ is_number_of n (refusals_of (kind_number kind)) }
{
    use Refusal::{
        COutside, MissingEnd, NOutside, NoGenome, NotCoding, NotTogether, Outside, TooWide,
    };
    match kind {
        Kind::GToN => is_listed(n, &[Outside, TooWide, NoGenome, MissingEnd, NotTogether]),
        Kind::NToG => is_listed(n, &[Outside, TooWide, NoGenome, NotTogether]),
        Kind::NToC => is_listed(n, &[NotCoding, NOutside, TooWide, NotTogether]),
        Kind::CToN => is_listed(n, &[NotCoding, COutside, TooWide, NotTogether]),
        Kind::GToC => is_listed(
            n,
            &[
                NotCoding,
                Outside,
                NOutside,
                TooWide,
                NoGenome,
                MissingEnd,
                NotTogether,
            ],
        ),
        Kind::CToG => is_listed(n, &[NotCoding, COutside, TooWide, NoGenome, NotTogether]),
    }
}

// Whether an answer's tag is one of the kind.
#[tactic(auto, unfolding(crate::specs::Canonical::tag_of_kind))]
fn is_tag_of_kind(kind: Kind, tag: u32) -> bool
    ensures { result ≡ tag_of_kind (kind_number kind) tag }
{
    if is_plain(kind) {
        return tag == UNMARKED;
    }
    (tag == CERTAIN) | (tag == UNCERTAIN)
}

// Whether an answer of the kind can have an exon's number.
#[tactic(auto, unfolding(crate::specs::Canonical::exon_of_kind))]
fn is_exon_of_kind(kind: Kind, exon: u32) -> bool
    ensures { result ≡ exon_of_kind (kind_number kind) exon }
{
    if is_plain(kind) {
        return exon == 0;
    }
    0 < exon
}

// Whether a position can be an end of an answer.
#[tactic(auto, unfolding(crate::specs::Canonical::end_sayable))]
fn is_end_sayable(kind: Kind, p: Position) -> bool
    ensures { result ≡ end_sayable (kind_number kind) p }
{
    (p.star <= 1)
        & only(p.star == 1, to_c(kind))
        & only(to_g(kind), p.offset == 0)
        & is_exon_of_kind(kind, p.exon)
}

// Whether there is no position, as beside a refusal.
#[tactic(auto, unfolding(crate::specs::Canonical::is_nowhere))]
fn is_nowhere(p: Position) -> bool
    ensures { result ≡ is_nowhere p }
{
    (p.base == 0) & (p.offset == 0) & (p.star == 0) & (p.exon == 0)
}

// Whether an answer or a refusal can stand beside a question of a kind.
#[tactic(auto, unfolding(crate::specs::Canonical::sayable))]
fn is_sayable(kind: Kind, a: Answer) -> bool
    ensures { result ≡ sayable (kind_number kind) a }
{
    if a.mark == REFUSED {
        return can_refuse(kind, a.number) & is_nowhere(a.start) & is_nowhere(a.end);
    }
    is_tag_of_kind(kind, a.mark)
        & (a.number == 0)
        & is_end_sayable(kind, a.start)
        & is_end_sayable(kind, a.end)
}

// Whether a log can hold an entry.
#[tactic(auto, unfolding(crate::specs::Canonical::canonical, crate::specs::Canonical::holdable))]
pub fn is_canonical(e: Entry) -> bool
    ensures { result ≡ canonical e }
{
    let Ok(kind) = Kind::try_from(e.question.kind) else {
        return false;
    };
    is_holdable(e.question) & is_sayable(kind, e.answer)
}
