// The columns that a step draws.
ghost use Rattle.std.specs.Prelude.{◌≡◌, true, List, ℕ, ◌≤◌, ltb, length};
ghost use Rattle.sweep.specs.Drawing.{width};
ghost use Rattle.router.specs.Answers.{formula_length};
ghost use Rattle.router.specs.State.{Standing};
ghost use Rattle.stepwise.specs.Working.{DrawsOn};

use router::steps;

// Whether there is a column after column c of a channel of n columns: one of these, or after them one for an extended net.
pub(crate) fn has_next(extended: &[u64; 8], n: usize, c: usize) -> bool
    ensures c_bound { result ≡ true → c ≤ 511 }
    ensures value { (tp bt upper lower first last a f low high number : List ℕ) (t : ℕ) → n ≡ length tp
        → Standing tp bt t c upper lower first last a f low high number extended.now → result ≡ ltb c (width t tp bt) }
{
    if 511 < c {
        return false;
    }
    if c < n {
        return true;
    }
    sets::lowest_member(extended) < 512
}

// Draws up to k columns after column c of a channel of n columns; the answer is the columns drawn then.
pub(crate) fn draw(
    upper: &[u16; 256],
    lower: &[u16; 256],
    first: &[u16; 257],
    last: &[u16; 257],
    strands: &mut [u16; 512],
    free: &mut [u64; 8],
    low: &mut [u16; 257],
    high: &mut [u16; 257],
    many: &mut [u16; 257],
    extended: &mut [u64; 8],
    n: usize,
    t: usize,
    c: usize,
    k: usize,
    layout: &mut [u16],
) -> usize
    ensures { (tp bt : List ℕ) → n ≡ length tp → formula_length n t ≤ length layout.old
        → Standing tp bt t c upper.now lower.now first.now last.now
        strands.old free.old low.old high.old many.old extended.old
        → DrawsOn tp bt t c k result upper.now lower.now first.now last.now
        strands.new free.new low.new high.new many.new extended.new
        layout.old layout.new }
{
    let mut e = c;
    for _ in 0..k {
        if !has_next(extended, n, e) {
            return e;
        }
        steps::draw_next(
            upper, lower, first, last, strands, free, low, high, many, extended, t, e, layout,
        );
        e += 1;
    }
    e
}
