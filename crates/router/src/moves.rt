// What a column does, by its pins, the free tracks, the net of rule 2 and the unpaired double nets.
ghost use Rattle.std.specs.Prelude.{◌≡◌, true, ◌&&◌, ◌||◌, List, ℕ, ◌≤◌, eqb, length, get_or};
ghost use Rattle.sets.specs.Member.{member};
ghost use Rattle.sweep.specs.Pairs.{latest_to};
ghost use Rattle.pairs.specs.Working.{LeastAbove, but_for};
ghost use Rattle.sweep.specs.Drawing.{move as move_by};
ghost use Rattle.sweep.specs.Working.{Kinded};
ghost use Rattle.router.specs.Working.{Next, ToJoin, IsLowestJoint, ChosenTwo, ChosenThree, ChosenMany};
ghost use Rattle.router.specs.Lent.{on, Held, Planned, Keeping, Mating};

use crate::lent::Sweep;
use crate::{choose, nets};
use grid::Family;
use rules::{actions, many_pin, three_pin};
use sweep::{Action, Joint, Move, Pin};

// Whether a column asks for the unpaired double nets: a pin starts, and there is no net to join.
fn asks_doubles(a: Pin, b: Pin, n: Joint) -> bool
    ensures { result ≡ (eqb n.net 0 && (eqb a.kind 1 || eqb b.kind 1)) }
{
    (n.net == 0) & ((a.kind == 1) | (b.kind == 1))
}

// The unpaired double net that ends last, where a column asks for it.
fn latest_asked(asks: bool, last: &[u16; 257], lone: &[u64; 8]) -> u16
    ensures { asks ≡ true → result ≡ latest_to (λ v. get_or last.now v 0) (member lone.now) 511 }
{
    if asks { pairs::latest(last, lone) } else { 0 }
}

// The lowest one other than net v, where a column asks for it.
fn other_asked(asks: bool, lone: &[u64; 8], v: u16) -> u16
    ensures { asks ≡ true → LeastAbove (but_for lone.now v) 0 result }
{
    if asks { pairs::other(lone, v) } else { 0 }
}

impl Sweep<'_> {
    // The net that rule 2 of a two-pin channel joins in column c + 1: the lowest of the extended ones.
    fn lowest_joint(&self, c: u16) -> Joint
        requires { c ≤ 511 }
        ensures { (t : ℕ) → Held t self.now.strands (on t self.now.strands)
            → ((v : ℕ) → Next self.now.marks.extended.now 0 v → v ≤ 256)
            → IsLowestJoint self.now.plan.last.now self.now.strands.low.now self.now.strands.high.now self.now.marks.extended.now
            (on t self.now.strands) c result }
    {
        let v = nets::net_of(nets::lowest_net(self.marks.extended));
        self.strands.joint_at(&self.plan, c, v)
    }

    // What column c + 1 of a two-pin channel does; starting pins ask for the net of rule 2 and the free tracks, a column without pins for that net.
    fn pair_column(&self, a: Pin, b: Pin, c: u16) -> Action
        requires kinds { (a.kind ≤ 3) × (b.kind ≤ 3) × (c ≤ 511) × (self.now.plan.t ≤ 511) }
        requires kinded { Kinded a × Kinded b }
        ensures { Held self.now.plan.t self.now.strands (on self.now.plan.t self.now.strands)
            → ((v : ℕ) → Next self.now.marks.extended.now 0 v → v ≤ 256)
            → ChosenTwo self.now.plan.t a b self.now.plan.last.now self.now.strands.low.now self.now.strands.high.now
            self.now.marks.extended.now (on self.now.plan.t self.now.strands) c result }
    {
        if (a.net != 0) & (a.net == b.net) {
            return actions::go_full(self.plan.t as u16 + 1, a.net, 0);
        }
        let free = &*self.strands.tracks.free;
        match 4 * a.kind + b.kind {
            0 => actions::join_alone(self.lowest_joint(c)),
            1 => choose::bottom_starts(a, b, free, self.lowest_joint(c)),
            3 => actions::bottom_ends(a, b),
            4 => choose::top_starts(a, b, free, self.lowest_joint(c)),
            5 => choose::both_start(a, b, free, self.lowest_joint(c)),
            7 => actions::bottom_ends(a, b),
            12 => actions::top_ends(a, b),
            13 => actions::top_ends(a, b),
            15 => actions::both_end(a, b),
            // No pin of a two-pin net continues.
            _ => actions::go_straight(),
        }
    }

    // What column c + 1 of a three-pin channel does.
    fn three_column(&self, a: Pin, b: Pin, c: u16) -> Move
        requires { (a.net ≤ 256) × (b.net ≤ 256) × (c ≤ 511) × (self.now.plan.t ≤ 511) }
        ensures { Held self.now.plan.t self.now.strands (on self.now.plan.t self.now.strands)
            → ((v : ℕ) → Next self.now.marks.extended.now 0 v → v ≤ 256)
            → ChosenThree self.now.plan.t a b self.now.plan.last.now self.now.strands.low.now self.now.strands.high.now
            self.now.marks.extended.now self.now.mates.lone.now (on self.now.plan.t self.now.strands) c result }
    {
        let last = self.plan.last;
        let lone = &*self.mates.lone;
        let f = nets::free_tracks(self.strands.tracks.free);
        let n = self.lowest_joint(c);
        let ea = last[usize::from(a.net)];
        let eb = last[usize::from(b.net)];
        let asks = asks_doubles(a, b, n);
        let v = latest_asked(asks, last, lone);
        let w = other_asked(asks, lone, v);
        let d = pairs::double_at(last, self.strands.low, self.strands.high, v);
        let m = pairs::double_at(last, self.strands.low, self.strands.high, w);
        three_pin::choose_three(self.plan.t as u16 + 1, a, b, ea, eb, f, n, d, m)
    }

    // What column c + 1 of a many-pin channel does; `later` tells whether the top pin's net has later pins.
    fn many_column(&self, a: Pin, b: Pin, later: bool, c: u16) -> Action
        requires { (c ≤ 511) × (self.now.plan.t ≤ 511) }
        ensures { Held self.now.plan.t self.now.strands (on self.now.plan.t self.now.strands)
            → ((v : ℕ) → ToJoin self.now.marks.extended.now self.now.marks.wide.now v → v ≤ 256)
            → ChosenMany self.now.plan.t a b later self.now.plan.last.now self.now.strands.low.now self.now.strands.high.now
            self.now.marks.extended.now self.now.marks.wide.now (on self.now.plan.t self.now.strands) c result }
    {
        let f = nets::free_tracks(self.strands.tracks.free);
        let v = nets::net_of(self.marks.net_to_join());
        let n = self.strands.joint_at(&self.plan, c, v);
        many_pin::choose_many(self.plan.t as u16 + 1, a, b, f, n, later)
    }

    // What column c + 1 with the pins p and q (0: none) does, by the sweep of its family. It ends on any arrays; what it promises, it promises of arrays
    // that hold what they should.
    pub(crate) fn column_at(&self, p: u16, q: u16, c: usize) -> Move
        requires { (p ≤ 256) × (q ≤ 256) × (c ≤ 511) × (self.now.plan.t ≤ 511) }
        ensures { (top bottom : List ℕ) → get_or top c 0 ≡ p → get_or bottom c 0 ≡ q → Planned top bottom self.now.plan
            → Keeping self.now.plan c (on self.now.plan.t self.now.strands) self.now
            → Mating self.now.plan self.now.mates.mates.now self.now
            → result ≡ move_by self.now.plan.t top bottom c (on self.now.plan.t self.now.strands) self.now.mates.mates.now }
    {
        let k = c as u16;
        let a = self.strands.pin_at(&self.plan, k, p);
        let b = self.strands.pin_at(&self.plan, k, q);
        match self.plan.family {
            Family::TwoPin => three_pin::still(self.pair_column(a, b, k)),
            Family::ThreePin => self.three_column(a, b, k),
            Family::ManyPin => {
                let later = self.plan.goes_on(k, p);
                three_pin::still(self.many_column(a, b, later, k))
            }
        }
    }
}
