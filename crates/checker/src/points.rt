// A column of a drawing within the limits, and a point of it with its four edges.
ghost use Rattle.std.specs.Prelude.{◌≡◌, ◌+◌, ◌*◌, ◌<◌, length};
ghost use Rattle.std.proofs.Props.{props};
ghost use Rattle.pieces.specs.Labels.{net_of, left_from};
ghost use Rattle.checker.specs.Working.{Within};

use crate::entries::entry;

// Column x of w columns of t tracks each: b is its first position, and q where the horizontal entries of the column before begin, past the end in the first.
#[derive(Clone, Copy)]
pub(crate) struct Column<'a> {
    pub(crate) layout: &'a [u16],
    pub(crate) w: usize,
    pub(crate) t: usize,
    pub(crate) x: usize,
    pub(crate) b: usize,
    pub(crate) q: usize,
    pub ghost within: { Within layout.now w t } by { Prim.hlevel props },
    pub ghost inside: { x < w },
    pub ghost base: { b ≡ x * (2 * t + 1) },
    pub ghost before: { q ≡ left_from (length layout.now) t x },
}

// Point j of a column, with the nets of the edges below, to the left, above and to the right of it.
#[derive(Clone, Copy)]
pub(crate) struct Point<'a> {
    pub(crate) column: Column<'a>,
    pub(crate) j: usize,
    pub(crate) below: u16,
    pub(crate) left: u16,
    pub(crate) above: u16,
    pub(crate) right: u16,
    pub ghost row: { j < column.t },
    pub ghost below_is: { below ≡ net_of column.layout.now (column.b + j) },
    pub ghost left_is: { left ≡ net_of column.layout.now (column.q + j) },
    pub ghost above_is: { above ≡ net_of column.layout.now (column.b + j + 1) },
    pub ghost right_is: { right ≡ net_of column.layout.now (column.b + column.t + 1 + j) },
}

impl<'a> Column<'a> {
    // Its point j.
    pub(crate) fn point(self, j: usize) -> Point<'a>
        requires { j < self.t }
        ensures column { result.column ≡ self.entry }
        ensures number { result.j ≡ j }
    {
        let Column {
            layout,
            t,
            b,
            q,
            ..
        } = self;
        Point {
            column: self,
            j,
            below: layout[b + j],
            left: entry(layout, q + j),
            above: layout[b + j + 1],
            right: layout[b + t + 1 + j],
        }
    }
}
