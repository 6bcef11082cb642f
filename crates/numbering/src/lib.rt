// Three units that must not be mixed, and the routines that own the crossings between them: only here is the 1 of the missing zero added or taken off.
// Every number is a whole number held as an i64; each routine asks that what it is handed is below 2^40 in size, so that no sum wraps.
// Each sum has a name, so that its need in the proof has that name and not a temporary's number.
#![tactic(auto)]

ghost use Rattle.std.specs.Prelude.{◌≡◌};
ghost use Rattle.whole.specs.Whole.{Within};
ghost use Rattle.numbering.specs.Numbers.{n_of_place, place_of_n, c_of_n, skip_zero, n_of_c};

// A zero-based place.
#[derive(Clone, Copy)]
pub struct Place(pub i64);

// An n. number.
#[derive(Clone, Copy)]
pub struct NNumber(pub i64);

// A c. number: its base, and whether it bears a star and counts from the CDS's end.
#[derive(Clone, Copy)]
pub struct CNumber(pub i64, pub bool);

// A place as an n. number (`zbc_to_hgvs`): at 0 or above add 1, below 0 keep.
pub fn place_to_n(p: Place) -> NNumber
    requires { Within 40 p.0 }
    ensures { result.0 ≡ n_of_place p.0 }
{
    let z = p.0;
    if z >= 0 {
        let next = z + 1;
        NNumber(next)
    } else {
        NNumber(z)
    }
}

// An n. number as a place (`hgvs_to_zbc`): at 1 or above take 1 off, otherwise keep.
pub fn n_to_place(n: NNumber) -> Place
    requires { Within 40 n.0 }
    ensures { result.0 ≡ place_of_n n.0 }
{
    let z = n.0;
    if z >= 1 {
        let last = z - 1;
        Place(last)
    } else {
        Place(z)
    }
}

// An n. number as a c. number (`pos_n_to_c`), with the CDS's start s and end e.
pub fn n_to_c(n: NNumber, s: i64, e: i64) -> CNumber
    requires within { Within 40 n.0 }
    requires within_2 { Within 40 s }
    requires within_3 { Within 40 e }
    ensures { result ≡ c_of_n s e n.0 }
{
    let b = n.0;
    if b <= s {
        if b > 0 {
            let base = b - s - 1;
            CNumber(base, false)
        } else {
            let base = b - s;
            CNumber(base, false)
        }
    } else if b <= e {
        let base = b - s;
        CNumber(base, false)
    } else {
        let base = b - e;
        CNumber(base, true)
    }
}

// The last step of c. to n.: a result that is 0 or less goes 1 down.
fn skip_zero(r: i64) -> NNumber
    requires { Within 44 r }
    ensures { result.0 ≡ skip_zero r }
{
    if r <= 0 {
        let last = r - 1;
        NNumber(last)
    } else {
        NNumber(r)
    }
}

// A c. number as an n. number (`pos_c_to_n`), with the same two.
pub fn c_to_n(c: CNumber, s: i64, e: i64) -> NNumber
    requires within { Within 40 c.0 }
    requires within_2 { Within 40 s }
    requires within_3 { Within 40 e }
    ensures { result.0 ≡ n_of_c s e c }
{
    let b = c.0;
    let star = c.1;
    if star {
        let r = b + e;
        skip_zero(r)
    } else if b < 0 {
        let r = b + s + 1;
        skip_zero(r)
    } else {
        let r = b + s;
        skip_zero(r)
    }
}
