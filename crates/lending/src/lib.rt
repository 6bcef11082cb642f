// What a host lends, taken apart: a head of nine numbers, beside the tables.
#![tactic(auto)]

ghost use Rattle.std.specs.Prelude.{◌≡◌};
ghost use Rattle.lending.specs.Lending.{head_at};

use transcript::Head;

// The head that nine lent numbers make.
#[tactic(auto, unfolding(crate::specs::Lending::head_at))]
pub fn head_of(head: &[i32; 9]) -> Head
    ensures { result ≡ head_at head.now }
{
    Head {
        kind: head[0],
        strand: head[1],
        first: head[2],
        count: head[3],
        bits: head[4],
        start: head[5],
        end: head[6],
        length: head[7],
        records: head[8],
    }
}
