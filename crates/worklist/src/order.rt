// Whether a list of positions falls anywhere, found by a pass that only reads.
ghost use Rattle.std.specs.Prelude.{◌≡◌, ◌&&◌};
ghost use Rattle.std.specs.Int.Signed.{le_z};
ghost use Rattle.worklist.specs.Worklist.{positions_of, never_falls};

use crate::Slot;

// Whether it rose so far, and does not fall from s to t.
fn goes_on(rose: bool, s: Slot, t: Slot) -> bool
    ensures { result ≡ (rose && le_z s.position t.position) }
{
    rose & (s.position <= t.position)
}

// Whether the positions fall nowhere. The pass has no early way out, which `is_sorted_by` would take.
pub fn never_falls(slots: &[Slot]) -> bool
    ensures { result ≡ never_falls (positions_of slots.now) }
{
    let mut rose = true;
    for i in 1..slots.len() {
        rose = goes_on(rose, slots[i - 1], slots[i]);
    }
    rose
}
