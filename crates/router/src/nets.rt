// The free tracks, and the net that rule 2 joins: the lowest of the extended nets, or else of the wide ones.
ghost use Rattle.std.specs.Prelude.{◌≡◌, List, not, ◌&&◌, ℕ, ◌+◌, ◌<◌, ◌≤◌, ltb, length, get_or};
ghost use Rattle.sweep.specs.Tracks.{second, lowest, highest};
ghost use Rattle.sweep.specs.Drawing.{free_of};
ghost use Rattle.router.specs.Working.{tracks_in, Frees, Next, ToJoin, MarkedAt, MarksNet, MarksThree, joint_by, narrow};
ghost use Rattle.router.specs.Lent.{SameMarks, on, Held};

use crate::lent::{Marks, Plan, Strands};
use grid::Family;
use sweep::{Free, Joint};

// The two lowest free tracks.
pub(crate) fn free_tracks(free: &[u64; 8]) -> Free
    ensures { (t : ℕ) (a : List ℕ) → t ≤ 511 → length a ≡ 512 → Frees t a free.now → result ≡ free_of (tracks_in t a) }
{
    let f = sets::lowest_member(free) % 512;
    let g = sets::above(free, f) % 512;
    Free {
        first: f as u16,
        second: g as u16,
    }
}

// The lowest net of a set, 0 where there is none.
pub(crate) fn lowest_net(s: &[u64; 8]) -> u16
    ensures { Next s.now 0 result }
{
    (sets::lowest_member(s) % 512) as u16
}

// The lowest net of a set above net v, 0 where there is none.
pub(crate) fn next_net(s: &[u64; 8], v: u16) -> u16
    requires { v ≤ 256 }
    ensures { Next s.now (v + 1) result }
{
    (sets::above(s, usize::from(v)) % 512) as u16
}

// A net number, 0 where it is over 256.
pub(crate) fn net_of(v: u16) -> u16
    ensures { (result ≤ 256) × (v ≤ 256 → result ≡ v) }
{
    if 256 < v { 0 } else { v }
}

impl Strands<'_> {
    // The second lowest strand of a net whose lowest is a and highest b, 0 where there is none.
    fn second_of(&self, a: u16, b: u16, v: u16) -> u16
        ensures { (t : ℕ) → t ≤ 511 → length self.now.tracks.nets.now ≡ 512 → a ≡ lowest v (on t self.now)
            → b ≡ highest v (on t self.now) → result ≡ second v (on t self.now) }
    {
        let nets = &*self.tracks.nets;
        for y in usize::from(a)..usize::from(b % 512) {
            if nets[y + 1] == v {
                return y as u16 + 1;
            }
        }
        0
    }

    // The net v (0: none) as the net that rule 2 joins in column c + 1; its second lowest strand only where it has pins after that column.
    pub(crate) fn joint_at(&self, plan: &Plan, c: u16, v: u16) -> Joint
        requires { (c ≤ 511) × (v ≤ 256) }
        ensures { (t : ℕ) → Held t self.now (on t self.now) → result ≡ joint_by (get_or plan.now.last.now v 0) (get_or self.now.low.now v 0)
            (second v (on t self.now)) (get_or self.now.high.now v 0) c v }
    {
        if v == 0 {
            return Joint {
                net: 0,
                low: 0,
                second: 0,
                high: 0,
                later: false,
            };
        }
        let i = usize::from(v);
        let low = &*self.low;
        let high = &*self.high;
        let a = low[i];
        let b = high[i];
        if plan.last[i] <= c + 1 {
            return Joint {
                net: v,
                low: a,
                second: 0,
                high: b,
                later: false,
            };
        }
        let next = self.second_of(a, b, v);
        Joint {
            net: v,
            low: a,
            second: next,
            high: b,
            later: true,
        }
    }
}

// Whether a net is extended at gap c, by its last column and how many strands it has; and whether it is wide.
fn is_extended(last: u16, many: u16, c: u16) -> bool
    ensures { result ≡ (not (ltb c last) && ltb 0 many) }
{
    if c < last {
        return false;
    }
    0 < many
}

fn is_wide(last: u16, many: u16, c: u16) -> bool
    ensures { result ≡ (ltb c last && ltb 2 many) }
{
    if c < last {
        return 2 < many;
    }
    false
}

// Whether open nets have two strands at most in the sweep of a family.
fn is_narrow(family: Family) -> bool
    ensures { result ≡ narrow family }
{
    !matches!(family, Family::ManyPin)
}

impl Marks<'_> {
    // The net that rule 2 of a many-pin channel joins.
    pub(crate) fn net_to_join(&self) -> u16
        ensures { ToJoin self.now.extended.now self.now.wide.now result }
    {
        let v = lowest_net(self.extended);
        if v == 0 {
            return lowest_net(self.wide);
        }
        v
    }

    // Marks net v as it is at gap c, by how many strands the nets have; where open nets have two strands at most, wide ones are not kept.
    fn mark_net(&mut self, plan: &Plan, strands: &Strands, c: u16, v: u16)
        ensures marks { v ≤ 256 → MarkedAt plan.now.last.now strands.now.many.now c self.old.extended.now self.old.wide.now plan.now.family 0
            → MarksNet plan.now.last.now strands.now.many.now c plan.now.family v self.old.extended.now self.old.wide.now
            self.new.extended.now self.new.wide.now }
        ensures lent { SameMarks self.old self.new }
    {
        if (v == 0) | (256 < v) {
            return;
        }
        let i = usize::from(v);
        let e = plan.last[i];
        let many = &*strands.many;
        let n = many[i];
        sets::put(self.extended, i, is_extended(e, n, c));
        if is_narrow(plan.family) {
            return;
        }
        sets::put(self.wide, i, is_wide(e, n, c));
    }

    // Marks three nets.
    pub(crate) fn mark_three(
        &mut self,
        plan: &Plan,
        strands: &Strands,
        c: u16,
        u: u16,
        v: u16,
        w: u16,
    )
        ensures marks { u ≤ 256 → v ≤ 256 → w ≤ 256
            → MarkedAt plan.now.last.now strands.now.many.now c self.old.extended.now self.old.wide.now plan.now.family 0
            → MarksThree plan.now.last.now strands.now.many.now c plan.now.family u v w self.old.extended.now self.old.wide.now
            self.new.extended.now self.new.wide.now }
        ensures lent { SameMarks self.old self.new }
    {
        let a = pairs::apart(u, v, w);
        self.mark_net(plan, strands, c, a);
        self.mark_net(plan, strands, c, v);
        self.mark_net(plan, strands, c, w);
    }
}
