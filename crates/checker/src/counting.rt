// The pieces of each net: each strand has a label, and where two labels of a net meet one takes the place of the other. A net has as many pieces as
// begin, less the joins of two. The same pass sees the loose ends.
ghost use Rattle.std.specs.Prelude.{◌≡◌, ◌+◌, ◌*◌, ◌<◌};
ghost use Rattle.checker.specs.Check.{split};
ghost use Rattle.checker.specs.Working.{first_below, in_pieces, Within, PerNet, CountedAll, Kept, LowestLoose};
ghost use Rattle.checker.specs.Points.{CrossingsIn, KeptBefore, LabsBefore, CountedBefore};

use crate::ends::{Loose, NO_END};
use crate::meeting::Counts;
use crate::points::Column;

// The lowest net in more than one piece, and the lowest with a loose end.
#[derive(Clone, Copy)]
pub(crate) struct FaultyNets {
    pub(crate) split: Option<usize>,
    pub(crate) loose: Option<Loose>,
}

// The first point from j on where nets may do more than cross, t where there is none: nothing changes where they only cross.
fn next_meeting(column: Column, j: usize) -> usize
    requires { j < column.t }
    ensures { CrossingsIn column.entry j result }
{
    let Column {
        layout,
        t,
        b,
        q,
        ..
    } = column;
    if layout.len() <= q {
        return j;
    }
    let vd = layout[b + j];
    for k in j..t {
        if layout[b + k + 1] != vd {
            return k;
        }
        let ln = layout[q + k];
        if ln == vd {
            return k;
        }
        if layout[b + t + 1 + k] != ln {
            return k;
        }
    }
    t
}

// One column. Its lowest edge begins a piece. Where nets only cross no end is loose.
fn pass_column(column: Column, before: Loose, lab: &mut [u32; 512], counts: &mut Counts) -> Loose
    requires kept { KeptBefore column 0 before }
    requires labs { LabsBefore column 0 lab.old }
    requires counted { CountedBefore column 0 column.b counts.old }
    ensures kept_after { Kept column.entry.t column.entry.layout.now (column.entry.x + 1) 0 result }
    ensures labs_after { LabsBefore column.entry column.entry.t lab.new }
    ensures counted_after { CountedBefore column.entry column.entry.t (column.entry.b + 2 * column.entry.t + 1) counts.new }
{
    let mut kept = before;
    let mut vl = column.b as u32;
    counts.begin(column.layout[column.b], vl, vl);
    let mut j = 0;
    // A `while`, since it passes over all crossings up to the next meeting at once.
    while j < column.t {
        j = next_meeting(column, j);
        if j < column.t {
            let point = column.point(j);
            kept = point.keep(kept);
            vl = point.meet(vl, lab, counts);
            j += 1;
        }
    }
    kept
}

// How many pieces of each net begin, and how many joins it has; the lowest net with a loose end.
fn count_pieces(layout: &[u16], w: usize, t: usize, counts: &mut Counts) -> Option<Loose>
    requires within { Within layout.now w t }
    requires begun_zero { PerNet 0 counts.old.begun }
    requires joined_zero { PerNet 0 counts.old.joined }
    ensures lowest_loose { LowestLoose w t layout.now result }
    ensures counted_all { CountedAll layout.now w t counts.new.begun counts.new.joined }
{
    let mut kept = NO_END;
    let mut lab: [u32; 512] = [0; 512];
    let mut b = 0;
    let mut q = layout.len();
    for x in 0..w {
        let column = Column {
            layout,
            w,
            t,
            x,
            b,
            q,
        };
        kept = pass_column(column, kept, &mut lab, counts);
        q = b + t + 1;
        b = b + 2 * t + 1;
    }
    (kept.net < NO_END.net).then_some(kept)
}

// The lowest net with more than one piece.
fn find_in_pieces(counts: &Counts) -> Option<usize>
    requires { PerNet 1000000 counts.now.joined }
    ensures { result ≡ first_below 257 (in_pieces counts.now.begun counts.now.joined) }
{
    for n in 1..257 {
        if 1 + counts.joined[n] < counts.begun[n] {
            return Some(n);
        }
    }
    None
}

// The lowest net in more than one piece, and the lowest with a loose end.
pub(crate) fn faulty_nets(layout: &[u16], w: usize, t: usize) -> FaultyNets
    requires { Within layout.now w t }
    ensures split_value { result.split ≡ first_below 257 (split t layout.now) }
    ensures lowest_loose { LowestLoose w t layout.now result.loose }
{
    let mut counts = Counts {
        begun: [0; 257],
        joined: [0; 257],
    };
    let loose = count_pieces(layout, w, t, &mut counts);
    FaultyNets {
        split: find_in_pieces(&counts),
        loose,
    }
}
