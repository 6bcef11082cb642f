// A log: a mark, a version, and entries of a fixed size. Reading all of it, and putting an entry behind it.
#![tactic(auto)]

ghost use Rattle.std.specs.Prelude.{◌≡◌, ◌+◌, ◌*◌, ◌≤◌, length, ◌++◌};
ghost use Rattle.std.proofs.lemmas.List.Edits.{sets};
ghost use Rattle.journal.specs.Layout.{entries_at};
ghost use Rattle.entries.specs.Layout.{entry_size};
ghost use Rattle.entries.specs.Entries.{entry_bytes};
ghost use Rattle.journal.specs.Logs.{header_bytes, is_marked, is_headed, entries_from, all_canonical, read_log, answer_of, fitted, appending, appended_of, log_after};

use entries::{ENTRY_SIZE, Entry};
use refusals::{MOST_LOG, Refusal};

const VERSION: u32 = 1;

const VERSION_AT: usize = 3;

// Where the entries begin.
pub const ENTRIES_AT: usize = 5;

const MARK: &[u8] = b"QLG";

// Whether bytes begin with the mark.
fn is_marked(log: &[u8]) -> bool
    ensures { result ≡ is_marked log.now }
{
    log.starts_with(MARK)
}

// Whether the first bytes have the mark, the version and the length of a log.
fn is_headed(log: &[u8], used: usize) -> bool
    requires { used ≤ length log.now }
    ensures { result ≡ is_headed log.now used }
{
    if used < ENTRIES_AT {
        return false;
    }
    let marked = is_marked(log);
    let version = fields::u16_at(log, VERSION_AT);
    let rest = (used - ENTRIES_AT) % ENTRY_SIZE;
    marked & (version == VERSION) & (rest == 0)
}

// Whether that many entries are such as a log holds.
fn are_canonical(log: &[u8], count: usize) -> bool
    requires { entries_at + entry_size * count ≤ length log.now }
    ensures { result ≡ all_canonical (entries_from count log.now entries_at) }
{
    for i in 0..count {
        if !canonical::is_canonical(entries::entry_at(log, ENTRIES_AT + ENTRY_SIZE * i)) {
            return false;
        }
    }
    true
}

// How many entries bytes are, or a refusal.
#[tactic(auto, using(crate::specs::laws::LogTrips::from_length), unfolding(crate::specs::Logs::read_log))]
pub fn read_log(log: &[u8]) -> Result<usize, Refusal>
    ensures { result ≡ answer_of (read_log log.now) }
{
    let size = log.len();
    if MOST_LOG < size {
        return Err(Refusal::TooMuch);
    }
    if !is_headed(log, size) {
        return Err(Refusal::NoLog);
    }
    let count = (size - ENTRIES_AT) / ENTRY_SIZE;
    if !are_canonical(log, count) {
        return Err(Refusal::NoLog);
    }
    Ok(count)
}

// Writes the mark and the version at the front.
fn put_header(log: &mut [u8])
    requires { entries_at ≤ length log.old }
    ensures { log.new ≡ sets log.old 0 header_bytes }
{
    log[..VERSION_AT].copy_from_slice(MARK);
    fields::put_u16(log, VERSION_AT, VERSION);
}

// The first entry, behind the header.
fn put_first(log: &mut [u8], entry: Entry) -> Result<usize, Refusal>
    ensures value { result ≡ appended_of 0 (fitted (length log.old) 0 (header_bytes ++ entry_bytes entry)) }
    ensures log_after { log.new ≡ log_after log.old 0 (fitted (length log.old) 0 (header_bytes ++ entry_bytes entry)) }
{
    let size = ENTRIES_AT + ENTRY_SIZE;
    if log.len() < size {
        return Err(Refusal::NoRoom);
    }
    put_header(log);
    entries::put_entry(log, ENTRIES_AT, entry);
    Ok(size)
}

// An entry more, behind the bytes in use.
fn put_next(log: &mut [u8], used: usize, entry: Entry) -> Result<usize, Refusal>
    ensures value { result ≡ appended_of used (fitted (length log.old) used (entry_bytes entry)) }
    ensures log_after { log.new ≡ log_after log.old used (fitted (length log.old) used (entry_bytes entry)) }
{
    if MOST_LOG - ENTRY_SIZE < used {
        return Err(Refusal::TooMuch);
    }
    let size = used + ENTRY_SIZE;
    if log.len() < size {
        return Err(Refusal::NoRoom);
    }
    entries::put_entry(log, used, entry);
    Ok(size)
}

// Puts an entry behind the bytes in use, or refuses and leaves all bytes as they are.
#[tactic(auto, unfolding(crate::specs::Logs::appending))]
pub fn append(log: &mut [u8], used: usize, entry: Entry) -> Result<usize, Refusal>
    ensures value { result ≡ appended_of used (appending log.old used entry) }
    ensures log_after { log.new ≡ log_after log.old used (appending log.old used entry) }
{
    if log.len() < used {
        return Err(Refusal::NoLog);
    }
    if used == 0 {
        return put_first(log, entry);
    }
    if !is_headed(log, used) {
        return Err(Refusal::NoLog);
    }
    put_next(log, used, entry)
}
