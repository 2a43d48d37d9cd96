// One grid point: the labels of the edges that meet there, the pieces that begin and the joins of two.
ghost use Rattle.std.specs.Prelude.{◌≡◌, ◌+◌, ◌≤◌, length};
ghost use Rattle.checker.specs.Working.{chosen, Merged, PerNet, JoinCounted, PieceCounted};
ghost use Rattle.checker.specs.Points.{StateAt, LabelsAt, LabelsLeft, LabsLeft, LabelsUp, LabelsRight, JoinsOf, BeginsUpOf, BeginsRightOf};

use crate::points::Point;

// The label `l` of an edge of net `n` if that is the net, else `o`.
fn choose(net: u16, n: u16, l: u32, o: u32) -> u32
    ensures { result ≡ chosen net n l o }
{
    if net == 0 {
        return o;
    }
    if net == n {
        return l;
    }
    o
}

// `new` for `old` in the labels of the tracks.
fn merge(lab: &mut [u32; 512], t: usize, old: u32, new: u32)
    requires t_bound { t ≤ 512 }
    requires lab_len { length lab.old ≡ 512 }
    ensures { Merged old new t lab.old lab.new }
{
    if old == new {
        return;
    }
    for label in lab[..t].iter_mut() {
        if *label == old {
            *label = new;
        }
    }
}

// How many pieces of each net begin, and how many joins of two it has.
#[derive(Drop)]
pub(crate) struct Counts {
    pub(crate) begun: [u32; 257],
    pub(crate) joined: [u32; 257],
}

impl Counts {
    // One more piece begun, of the net, if the labels are the same: the edge keeps its own.
    pub(crate) fn begin(&mut self, net: u16, a: u32, b: u32)
        requires net_bound { net ≤ 256 }
        requires per_net { PerNet 1000000 self.old.begun }
        ensures counted { PieceCounted a b net self.old.begun self.new.begun }
        ensures joined { self.new.joined ≡ self.old.joined }
    {
        if a == b {
            self.begun[usize::from(net)] += 1;
        }
    }

    // One more join, of the net, if the labels differ.
    fn join(&mut self, net: u16, a: u32, b: u32)
        requires net_bound { net ≤ 256 }
        requires per_net { PerNet 1000000 self.old.joined }
        ensures counted { JoinCounted a b net self.old.joined self.new.joined }
        ensures begun { self.new.begun ≡ self.old.begun }
    {
        if a != b {
            self.joined[usize::from(net)] += 1;
        }
    }
}

impl Point<'_> {
    // The left edge joins the edge below it.
    fn label_left(self, vl: u32, lab: &mut [u32; 512], counts: &mut Counts) -> u32
        requires labels { LabelsAt self vl lab.old }
        requires per_net { PerNet 1000000 counts.old.joined }
        ensures labels_left { LabelsLeft self.entry vl result }
        ensures labs { LabsLeft self.entry lab.new }
        ensures joins_left { JoinsOf self.entry counts.old.joined counts.new.joined }
        ensures begun { counts.new.begun ≡ counts.old.begun }
    {
        let ll = lab[self.j];
        let nl = choose(self.left, self.below, vl, ll);
        merge(lab, self.column.t, ll, nl);
        counts.join(self.left, ll, nl);
        nl
    }

    // The upper edge takes the label of the left edge or of the edge below.
    fn label_up(self, vl: u32, nl: u32, counts: &mut Counts) -> u32
        requires labels_left { LabelsLeft self vl nl }
        requires per_net { PerNet 1000000 counts.old.begun }
        ensures labels_up { LabelsUp self.entry vl nl result }
        ensures begins_up { BeginsUpOf self.entry counts.old.begun counts.new.begun }
        ensures joined { counts.new.joined ≡ counts.old.joined }
    {
        let u = (self.column.b + self.j + 1) as u32;
        let o = choose(self.above, self.below, vl, u);
        let ul = choose(self.above, self.left, nl, o);
        counts.begin(self.above, u, ul);
        ul
    }

    // The right edge takes the label of one of the three.
    fn label_right(self, vl: u32, nl: u32, ul: u32, counts: &mut Counts) -> u32
        requires labels_up { LabelsUp self vl nl ul }
        requires per_net { PerNet 1000000 counts.old.begun }
        ensures labels_right { LabelsRight self.entry ul result }
        ensures begins_right { BeginsRightOf self.entry counts.old.begun counts.new.begun }
        ensures joined { counts.new.joined ≡ counts.old.joined }
    {
        let r = (self.column.b + self.column.t + 1 + self.j) as u32;
        let o = choose(self.right, self.below, vl, r);
        let p = choose(self.right, self.left, nl, o);
        let rl = choose(self.right, self.above, ul, p);
        counts.begin(self.right, r, rl);
        rl
    }

    // Its edges: the left, the upper and the right one, one after the other. The label of the edge below is given, that of the upper one returned.
    pub(crate) fn meet(self, vl: u32, lab: &mut [u32; 512], counts: &mut Counts) -> u32
        requires { StateAt self.column self.j vl lab.old counts.old }
        ensures { StateAt self.entry.column (self.entry.j + 1) result lab.new counts.new }
    {
        let nl = self.label_left(vl, lab, counts);
        let ul = self.label_up(vl, nl, counts);
        let rl = self.label_right(vl, nl, ul, counts);
        lab[self.j] = rl;
        ul
    }
}
