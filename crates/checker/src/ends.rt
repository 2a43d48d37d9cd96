// Loose ends: refusal 17. Of the nets with a loose end the lowest is kept, with its first: a net below the one kept has had none so far.
ghost use Rattle.std.specs.Prelude.{◌≡◌, ◌+◌};
ghost use Rattle.checker.specs.Working.{alone, alone_net, lowest_alone};
ghost use Rattle.checker.specs.Points.{lowest_at, KeptBefore};

use crate::points::Point;

// A net with a loose end, and the column and row of its first, counted from 1.
#[derive(Clone, Copy)]
pub(crate) struct Loose {
    pub(crate) net: u16,
    pub(crate) column: usize,
    pub(crate) row: usize,
}

// What is kept before any loose end: its number is above every net, so that the first takes its place by the same comparison as a lower one.
pub(crate) const NO_END: Loose = Loose {
    net: 257,
    column: 0,
    row: 0,
};

// Whether an entry is an edge, and the only one of its net among the four at a point.
fn is_alone(e: u16, a: u16, b: u16, c: u16) -> bool
    ensures { result ≡ alone e a b c }
{
    (e != 0) & (e != a) & (e != b) & (e != c)
}

// The net of an entry that is, else 257: a number and no `Option`, so that the lowest of several is their `min`.
fn alone_net(e: u16, a: u16, b: u16, c: u16) -> u16
    ensures { result ≡ alone_net e a b c }
{
    if is_alone(e, a, b, c) { e } else { 257 }
}

// The lowest net of an entry that is, else 257. Most points are empty or have nets that only cross.
#[tactic(auto, unfolding(crate::specs::Working::lowest_alone))]
fn lowest_alone(below: u16, above: u16, left: u16, right: u16) -> u16
    ensures { result ≡ lowest_alone below above left right }
{
    if below == above && left == right {
        return 257;
    }
    let v = alone_net(below, above, left, right).min(alone_net(above, below, left, right));
    let h = alone_net(left, below, above, right).min(alone_net(right, below, above, left));
    v.min(h)
}

impl Point<'_> {
    // The lowest net with a loose end there, else 257.
    fn lowest_net(self) -> u16
        ensures { result ≡ lowest_at self.entry }
    {
        lowest_alone(self.below, self.above, self.left, self.right)
    }

    // What is kept after it.
    pub(crate) fn keep(self, kept: Loose) -> Loose
        requires { KeptBefore self.column self.j kept }
        ensures { KeptBefore self.entry.column (self.entry.j + 1) result }
    {
        let net = self.lowest_net();
        if net < kept.net {
            return Loose {
                net,
                column: self.column.x + 1,
                row: self.j + 1,
            };
        }
        kept
    }
}
