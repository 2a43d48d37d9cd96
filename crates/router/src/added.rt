// The columns added after column n.
ghost use Rattle.std.specs.Prelude.{◌≡◌, ◌+◌, ◌*◌, ◌<◌, ◌≤◌, length, take, drop, ◌++◌};
ghost use Rattle.grid.specs.Channel.{count};
ghost use Rattle.sets.specs.Member.{member};
ghost use Rattle.sweep.specs.Tracks.{clear};
ghost use Rattle.sweep.specs.Drawing.{remains, added};
ghost use Rattle.router.specs.Working.{NetsOnly, Remaining, with_joining};
ghost use Rattle.router.specs.Lent.{SameStrands, on, Held};

use crate::lent::{Marks, Strands};
use crate::{nets, writer};
use rules::actions;

impl Strands<'_> {
    // Adds the column that joins net v, as column w + 1.
    fn join_net(&mut self, layout: &mut [u16], t: usize, v: u16, w: usize)
        requires is_net { (0 < v) × (v ≤ 256) × (w ≤ 511) }
        requires held { Held t self.old (on t self.old) }
        requires fits { w * (2 * t + 1) + (2 * t + 1) ≤ length layout.old }
        ensures net_ended { Held t self.new (clear v (on t self.old)) }
        ensures drawing { layout.new ≡ with_joining t (on t self.old) v w layout.old }
        ensures lent { SameStrands self.old self.new }
    {
        let i = usize::from(v);
        let x = actions::join_strands(v, self.low[i], self.high[i]);
        self.drop_net(v);
        writer::write_at(layout, w * (2 * t + 1), &self.tracks, t, x);
    }

    // Adds a column for each net that still has strands, lowest number first; n columns are drawn. The answer is the width.
    pub(crate) fn finish(&mut self, layout: &mut [u16], marks: &Marks, t: usize, n: usize) -> usize
        requires few_columns { n ≤ 256 }
        requires few_added { n + count (remains (on t self.old)) 256 ≤ 511 }
        requires held { Held t self.old (on t self.old) }
        requires remaining { Remaining (on t self.old) marks.now.extended.now }
        requires fits { (n + count (remains (on t self.old)) 256) * (2 * t + 1) ≤ length layout.old }
        ensures width { result ≡ n + count (remains (on t self.old)) 256 }
        ensures drawing { layout.new ≡ take (n * (2 * t + 1)) layout.old
            ++ (added t (on t self.old) 256 ++ drop (result * (2 * t + 1)) layout.old) }
    {
        let mut w = n;
        let mut v = nets::lowest_net(marks.extended);
        while v != 0 {
            self.join_net(layout, t, v, w);
            w += 1;
            v = nets::next_net(marks.extended, v);
        }
        w
    }
}

impl Marks<'_> {
    // How many columns there are to add: one for each extended net.
    pub(crate) fn columns_to_add(&self) -> usize
        requires { NetsOnly self.now.extended.now }
        ensures { result ≡ count (member self.now.extended.now) 256 }
    {
        let mut k = 0;
        let mut v = nets::lowest_net(self.extended);
        while v != 0 {
            k += 1;
            v = nets::next_net(self.extended, v);
        }
        k
    }
}
