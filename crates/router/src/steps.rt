// One column of a channel of two-pin nets at a time, on arrays that the caller holds and lends one by one, as C passes them. Every function here ends on any
// arrays; what it promises, it promises of arrays that stand for a channel.
ghost use Rattle.std.specs.Prelude.{◌≡◌, true, List, ℕ, ◌+◌, ◌*◌, ◌<◌, ◌≤◌, length};
ghost use Rattle.sweep.specs.Drawing.{width};
ghost use Rattle.router.specs.Answers.{formula_length};
ghost use Rattle.router.specs.Working.{DrawnTo};
ghost use Rattle.router.specs.State.{Standing, Begun};

use crate::index;
use crate::lent::{Marks, Mates, Plan, Strands, Sweep, Tracks};
use grid::Family;

// Document 01's slice length for n columns on t tracks; 0 where the numbers are no channel's.
pub fn formula(n: usize, t: usize) -> usize
    ensures { n ≤ 256 → t ≤ 511 → result ≡ formula_length n t }
{
    if (256 < n) | (511 < t) {
        return 0;
    }
    crate::formula_length(n, t)
}

// Makes the arrays those before the first column, on t tracks.
pub fn begin(
    t: usize,
    tracks: &mut [u16; 512],
    free: &mut [u64; 8],
    low: &mut [u16; 257],
    high: &mut [u16; 257],
    many: &mut [u16; 257],
    extended: &mut [u64; 8],
)
    ensures { t ≤ 511 → Begun t tracks.new free.new low.new high.new many.new
        extended.new }
{
    *tracks = crate::no_tracks();
    *free = index::all_free(t % 512);
    *low = crate::no_nets();
    *high = crate::no_nets();
    *many = crate::no_nets();
    *extended = sets::empty();
}

// Draws column c + 1 into its place in the layout, and leaves the arrays as they are then. Nothing is done where the layout has no such place.
pub fn draw_next(
    top: &[u16; 256],
    bottom: &[u16; 256],
    first: &[u16; 257],
    last: &[u16; 257],
    tracks: &mut [u16; 512],
    free: &mut [u64; 8],
    low: &mut [u16; 257],
    high: &mut [u16; 257],
    many: &mut [u16; 257],
    extended: &mut [u64; 8],
    t: usize,
    c: usize,
    layout: &mut [u16],
)
    ensures { (tp bt : List ℕ) → Standing tp bt t c top.now bottom.now first.now last.now
        tracks.old free.old low.old high.old many.old extended.old
        → c < width t tp bt → c ≤ 511 → c * (2 * t + 1) + (2 * t + 1) ≤ length layout.old
        → Standing tp bt t (c + 1) top.now bottom.now first.now last.now
        tracks.new free.new low.new high.new many.new extended.new
        × ((l : List ℕ) → DrawnTo true tp bt t c l layout.old → DrawnTo true tp bt t (c + 1) l layout.new) }
{
    if (510 < c) | (256 < t) {
        return;
    }
    let each = 2 * t + 1;
    if layout.len() < (c + 1) * each {
        return;
    }
    let mut wide = sets::empty();
    let mut mates = crate::no_nets();
    let mut lone = sets::empty();
    let tracks = Tracks { nets: tracks, free };
    let mut sweep = Sweep {
        plan: Plan {
            first,
            last,
            t,
            family: Family::TwoPin,
        },
        strands: Strands {
            tracks,
            low,
            high,
            many,
        },
        marks: Marks {
            extended,
            wide: &mut wide,
        },
        mates: Mates {
            mates: &mut mates,
            lone: &mut lone,
        },
    };
    sweep.columns(top, bottom, layout, true, c, c + 1);
}
