// The columns 1 to n.
ghost use Rattle.std.specs.Prelude.{◌≡◌, true, List, ℕ, ◌+◌, ◌*◌, ◌≤◌, length, get_or};
ghost use Rattle.grid.specs.Channel.{pick};
ghost use Rattle.sweep.specs.Tracks.{after};
ghost use Rattle.sweep.specs.Drawing.{move_at, mates_after};
ghost use Rattle.router.specs.Working.{tracks_in, Reads, RowsAndLasts, Fitting, FitsAt, FitsFrom, DrawnTo, forms, OthersTold, PairsSettled, with_column};
ghost use Rattle.router.specs.Lent.{SameMates, SameSweep, on, Planned, Keeping, Mating, At};

use crate::lent::{Mates, Plan, Strands, Sweep, Tracks};
use crate::{nets, writer};
use grid::Family;
use sweep::{Action, Move};

// Whether pairs of nets are formed in the sweep of a family.
fn forms_pairs(family: Family) -> bool
    ensures { result ≡ forms family }
{
    matches!(family, Family::ThreePin)
}

// The net of the pin in column c + 1 of a row, 0 for none: past its end there is no pin, and a number over 256 is no net.
fn net_at(row: &[u16], c: usize) -> u16
    ensures is_net { result ≤ 256 }
    ensures pin { get_or row.now c 0 ≤ 256 → result ≡ get_or row.now c 0 }
{
    if c < row.len() {
        return nets::net_of(row[c]);
    }
    0
}

impl Mates<'_> {
    // The pairs after column c + 1 with the pins p and q and its move x, where the sweep of the family forms any, by how many strands the nets have.
    fn settle(&mut self, plan: &Plan, strands: &Strands, p: u16, q: u16, c: usize, x: Move)
        requires { c ≤ 511 }
        ensures settled { (top bottom : List ℕ) → get_or top c 0 ≡ p → get_or bottom c 0 ≡ q → RowsAndLasts top bottom plan.now.last.now
            → (x.action.ended ≤ 256) × (x.double ≤ 256) × (x.single ≤ 256) → forms plan.now.family ≡ true
            → OthersTold strands.now.many.now self.old.mates.now self.old.lone.now x.action.ended p q
            → PairsSettled top bottom c x strands.now.many.now self.old.mates.now self.new.mates.now self.new.lone.now }
        ensures lent { SameMates self.old self.new }
    {
        if forms_pairs(plan.family) {
            let k = c as u16 + 1;
            let ended = x.action.ended;
            let last = plan.last;
            let many = &*strands.many;
            let mates = &mut *self.mates;
            let lone = &mut *self.lone;
            pairs::renew(last, many, mates, lone, k, ended, p, q, x.double, x.single);
        }
    }
}

// Draws a column into its part of the layout, which begins at `at`; in a dry run nothing.
fn draw_column(layout: &mut [u16], at: usize, tracks: &Tracks, t: usize, x: Action, drawing: bool)
    requires { (t ≤ 511) × (drawing ≡ true → at + (2 * t + 1) ≤ length layout.old) }
    ensures { length tracks.now.nets.now ≡ 512
        → layout.new ≡ pick drawing (with_column t at x (tracks_in t tracks.now.nets.now) layout.old) layout.old }
{
    if drawing {
        writer::write_at(layout, at, tracks, t, x);
    }
}

impl Sweep<'_> {
    // Applies the move x of column c + 1 with the pins p and q and marks the nets of the column.
    fn settle(&mut self, p: u16, q: u16, c: usize, x: Move)
        requires { c ≤ 511 }
        ensures settled { (top bottom : List ℕ) → get_or top c 0 ≡ p → get_or bottom c 0 ≡ q
            → RowsAndLasts top bottom self.old.plan.last.now
            → Keeping self.old.plan c (on self.old.plan.t self.old.strands) self.old
            → Mating self.old.plan self.old.mates.mates.now self.old
            → Fitting top bottom c x (on self.old.plan.t self.old.strands)
            → Keeping self.old.plan (c + 1) (after x.action (on self.old.plan.t self.old.strands)) self.new
            × Mating self.old.plan (mates_after top bottom c x self.old.mates.mates.now) self.new }
        ensures lent { SameSweep self.old self.new }
    {
        let ended = x.action.ended;
        self.strands.apply(x.action);
        self.marks
            .mark_three(&self.plan, &self.strands, c as u16 + 1, ended, p, q);
        self.mates.settle(&self.plan, &self.strands, p, q, c, x);
    }

    // One column of the sweep without its drawing: chooses the move of column c + 1 with the pins p and q, applies it and marks the nets. The answer is the
    // action. It ends on any arrays; what it promises, it promises of arrays that hold gap c of a channel's sweep.
    fn advance(&mut self, p: u16, q: u16, c: usize) -> Action
        requires { (p ≤ 256) × (q ≤ 256) × (c ≤ 511) × (self.old.plan.t ≤ 511) }
        ensures advanced { (top bottom : List ℕ) → get_or top c 0 ≡ p → get_or bottom c 0 ≡ q
            → Planned top bottom self.old.plan → FitsAt self.old.plan.t top bottom c
            → At top bottom self.old.plan c self.old
            → (result ≡ (move_at self.old.plan.t top bottom c).action) × At top bottom self.old.plan (c + 1) self.new }
        ensures lent { SameSweep self.old self.new }
    {
        let x = self.column_at(p, q, c);
        self.settle(p, q, c, x);
        x.action
    }

    // Goes over the columns from + 1 to `to` and draws them; in a dry run nothing is drawn. It ends on any arrays; what it promises, it promises of rows that
    // read as those of a channel, and of arrays that hold gap `from` of its sweep.
    pub(crate) fn columns(
        &mut self,
        top: &[u16],
        bottom: &[u16],
        layout: &mut [u16],
        drawing: bool,
        from: usize,
        to: usize,
    )
        requires { (from ≤ to) × (to ≤ 511) × (self.old.plan.t ≤ 511)
            × (drawing ≡ true → to * (2 * self.old.plan.t + 1) ≤ length layout.old) }
        ensures swept { (tp bt : List ℕ) → Reads top.now tp → Reads bottom.now bt
            → Planned tp bt self.old.plan → FitsFrom self.old.plan.t tp bt from to → At tp bt self.old.plan from self.old
            → At tp bt self.old.plan to self.new
            × ((l : List ℕ) → DrawnTo drawing tp bt self.old.plan.t from l layout.old
            → DrawnTo drawing tp bt self.old.plan.t to l layout.new) }
        ensures lent { SameSweep self.old self.new }
    {
        let t = self.plan.t;
        let each = 2 * t + 1;
        for i in from..to {
            let p = net_at(top, i);
            let q = net_at(bottom, i);
            let x = self.advance(p, q, i);
            draw_column(layout, i * each, &self.strands.tracks, t, x, drawing);
        }
    }
}
