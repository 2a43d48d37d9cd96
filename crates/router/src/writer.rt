// One column of the layout.
ghost use Rattle.std.specs.Prelude.{◌≡◌, ℕ, ◌+◌, ◌*◌, ◌≤◌, length, take, drop, ◌++◌};
ghost use Rattle.grid.specs.Segments.{segment};
ghost use Rattle.sweep.specs.Tracks.{values_from, verticals};
ghost use Rattle.router.specs.Working.{tracks_in, is_flat, runs, two_runs, with_column};

use crate::lent::Tracks;
use grid::Segments;
use sweep::Action;

// The vertical edge between the rows k and k + 1: of net q below row a, of net m from there to row b, of net p above.
fn vertical_at(k: u16, q: u16, a: u16, m: u16, b: u16, p: u16) -> u16
    ensures { result ≡ runs q a m b p k }
{
    if k < a {
        return q;
    }
    if k < b { m } else { p }
}

// The same edge where there are two nets: q below row a, p above.
fn vertical_of_two(k: u16, q: u16, a: u16, p: u16) -> u16
    ensures { result ≡ two_runs q a p k }
{
    if k < a { q } else { p }
}

// The same edge of any column: five segments.
fn segment_at(k: u16, w: Segments) -> u16
    ensures { result ≡ segment w k }
{
    if k < w.low {
        return w.bottom;
    }
    if k < w.start {
        return 0;
    }
    if k < w.stop {
        return w.middle;
    }
    if k < w.high { 0 } else { w.top }
}

// Whether a column is flat: its five segments are three runs at most.
fn is_flat(w: Segments) -> bool
    ensures { result ≡ is_flat w }
{
    ((w.bottom == 0) | (w.start <= w.low)) & ((w.middle == 0) | (w.high <= w.stop))
}

// Writes the vertical edges of a column: `edge(k)` is the one above row k.
fn write_edges<F: Fn(u16) -> u16>(part: &mut [u16], t: usize, edge: F)
    requires callable { F.IsAlwaysCallable edge }
    requires entries { (t ≤ 511) × (length part.old ≡ 2 * t + 1) }
    ensures { (f : ℕ → ℕ) → ((k r : ℕ) → k ≤ t → F.post edge k r → r ≡ f k)
        → part.new ≡ values_from (t + 1) 0 f ++ drop (t + 1) part.old }
{
    for k in 0..t + 1 {
        part[k] = edge(k as u16);
    }
}

// Writes the vertical edges of a column. A flat one has no gaps between its nets: the middle net has no edges where a and b are the same row.
fn write_verticals(part: &mut [u16], t: usize, x: Action)
    requires { (t ≤ 511) × (length part.old ≡ 2 * t + 1) }
    ensures { part.new ≡ verticals t x ++ drop (t + 1) part.old }
{
    let w = x.wires;
    if !is_flat(w) {
        write_edges(part, t, move |k| segment_at(k, w));
        return;
    }
    let a = w.low.max(w.start);
    let b = w.stop.max(w.high);
    if a == b {
        write_edges(part, t, move |k| vertical_of_two(k, w.bottom, a, w.top));
        return;
    }
    write_edges(
        part,
        t,
        move |k| vertical_at(k, w.bottom, a, w.middle, b, w.top),
    );
}

// Copies the tracks that leave a column behind its vertical edges.
fn copy_tracks(part: &mut [u16], tracks: &Tracks, t: usize)
    requires { (t ≤ 511) × (length part.old ≡ 2 * t + 1) }
    ensures { length tracks.now.nets.now ≡ 512
        → part.new ≡ take (t + 1) part.old ++ tracks_in t tracks.now.nets.now }
{
    let nets = &*tracks.nets;
    for i in 0..t {
        part[t + 1 + i] = nets[1 + i];
    }
}

// Writes a column: its vertical edges, and the tracks that leave it.
fn write_column(part: &mut [u16], tracks: &Tracks, t: usize, x: Action)
    requires { (t ≤ 511) × (length part.old ≡ 2 * t + 1) }
    ensures { length tracks.now.nets.now ≡ 512 → part.new ≡ verticals t x ++ tracks_in t tracks.now.nets.now }
{
    write_verticals(part, t, x);
    copy_tracks(part, tracks, t);
}

// Writes a column into its part of a layout, which begins at `at`.
pub(crate) fn write_at(layout: &mut [u16], at: usize, tracks: &Tracks, t: usize, x: Action)
    requires { (t ≤ 511) × (at + (2 * t + 1) ≤ length layout.old) }
    ensures { length tracks.now.nets.now ≡ 512
        → layout.new ≡ with_column t at x (tracks_in t tracks.now.nets.now) layout.old }
{
    let each = 2 * t + 1;
    write_column(&mut layout[at..at + each], tracks, t, x);
}
