// A question of one of the six mappings as one value: what is said to it, and the entry of a log that says so.
#![tactic(auto)]

ghost use Rattle.std.specs.Prelude.{◌≡◌};
ghost use Rattle.holding.specs.Holding.{lent};
ghost use Rattle.journal.specs.Logs.{appended_of, log_after};
ghost use Rattle.asking.specs.Asking.{held_kind, named, asked, recording, recorded_laid};
ghost use Rattle.taking.specs.Questions.{kind_of};

use entries::Entry;
use layout::lay;
use layout::lay::Answer;
use refusals::{MOST_SEGMENTS, MOST_STARTS, Refusal};
use taking::question;
use taking::question::{Kind, Question};
use transcript::Head;

// What was said to a question, and how long the log is with it; all but the number is 0 where it is refused.
#[repr(C)]
#[derive(Clone, Copy)]
pub struct Recorded {
    pub number: u32,
    pub length: usize,
    pub answer: Answer,
}

// The kind of a question; 35 where no entry of a log can hold it.
fn held_kind(q: Question) -> Result<Kind, Refusal>
    ensures { result ≡ held_kind q }
{
    if canonical::is_holdable(q) {
        return Kind::try_from(q.kind);
    }
    Err(Refusal::NoLog)
}

// What the mapping says that a question of this kind names.
#[tactic(auto, unfolding(crate::specs::Asking::named), using(canonical::proofs::KindNumbers::number_back))]
fn answer_of(
    head: Head,
    genome: &[u32; MOST_STARTS],
    transcript: &[u32; MOST_STARTS],
    letters: &[u8; MOST_SEGMENTS],
    exons: &[u16; MOST_SEGMENTS],
    kind: Kind,
    q: Question,
) -> Answer
    requires { kind_of q.kind ≡ Ok kind }
    ensures { result ≡ named (lent head genome.now transcript.now letters.now exons.now) q }
{
    let strict = question::is_strict(q);
    match kind {
        Kind::GToN => {
            let g = question::g_of(q);
            lay::lay(mapper::g_to_n(head, genome, transcript, letters, exons, g, strict))
        }
        Kind::NToG => {
            let n = question::n_of(q);
            lay::lay(mapper::n_to_g(head, genome, transcript, letters, exons, n, strict))
        }
        Kind::NToC => {
            let n = question::n_of(q);
            lay::lay_plain(mapper::n_to_c(head, genome, transcript, letters, exons, n, strict))
        }
        Kind::CToN => {
            let c = question::c_of(q);
            lay::lay_plain(mapper::c_to_n(head, genome, transcript, letters, exons, c, strict))
        }
        Kind::GToC => {
            let g = question::g_of(q);
            lay::lay(mapper::g_to_c(head, genome, transcript, letters, exons, g, strict))
        }
        Kind::CToG => {
            let c = question::c_of(q);
            lay::lay(mapper::c_to_g(head, genome, transcript, letters, exons, c, strict))
        }
    }
}

// What is said to a question: 35 first, where no entry of a log can hold it.
pub fn ask(
    head: Head,
    genome: &[u32; MOST_STARTS],
    transcript: &[u32; MOST_STARTS],
    letters: &[u8; MOST_SEGMENTS],
    exons: &[u16; MOST_SEGMENTS],
    q: Question,
) -> Answer
    ensures { result ≡ asked (lent head genome.now transcript.now letters.now exons.now) q }
{
    match held_kind(q) {
        Ok(kind) => answer_of(head, genome, transcript, letters, exons, kind, q),
        Err(k) => lay::refusal_of(k),
    }
}

// What was said, where the log has its entry; a refusal has neither.
fn lay_recorded(answer: Answer, appended: Result<usize, Refusal>) -> Recorded
    ensures { result ≡ recorded_laid answer appended }
{
    match appended {
        Ok(length) => Recorded {
            number: 0,
            length,
            answer,
        },
        Err(k) => Recorded {
            number: u32::from(k.number()),
            length: 0,
            answer: lay::blank(),
        },
    }
}

// Asks a question and puts it with what is said, answer or refusal, behind the bytes of a log that are in use: 35, 3, 20.
pub fn record(
    head: Head,
    genome: &[u32; MOST_STARTS],
    transcript: &[u32; MOST_STARTS],
    letters: &[u8; MOST_SEGMENTS],
    exons: &[u16; MOST_SEGMENTS],
    q: Question,
    log: &mut [u8],
    used: usize,
) -> Recorded
    ensures value { result ≡ recorded_laid (asked (lent head genome.now transcript.now letters.now exons.now) q) (appended_of used (recording (lent head genome.now transcript.now letters.now exons.now) q log.old used)) }
    ensures log_after { log.new ≡ log_after log.old used (recording (lent head genome.now transcript.now letters.now exons.now) q log.old used) }
{
    match held_kind(q) {
        Ok(kind) => {
            let answer = answer_of(head, genome, transcript, letters, exons, kind, q);
            let entry = Entry {
                question: q,
                answer,
            };
            lay_recorded(answer, journal::append(log, used, entry))
        }
        Err(k) => lay_recorded(lay::blank(), Err(k)),
    }
}
