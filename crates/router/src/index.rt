// The tracks in a gap, the set of the free ones and the index of the nets' strands, as an action changes them. Every function here ends on any arrays;
// what it promises, it promises of arrays that hold what they should.
ghost use Rattle.std.specs.Prelude.{◌≡◌, ℕ, ◌+◌, ◌<◌, ◌≤◌, get_or, set};
ghost use Rattle.sweep.specs.Tracks.{lesser, clear, give, after};
ghost use Rattle.sweep.specs.Working.{FreeAt, Applies};
ghost use Rattle.router.specs.Working.{cleared, NoneBetween, Frees, Among, Ended, blank};
ghost use Rattle.router.specs.Lent.{SameTracks, SameStrands, on, Held};

use crate::lent::{Strands, Tracks};
use sweep::{Action, Gift};

// The set of t free tracks.
pub(crate) fn all_free(t: usize) -> [u64; 8]
    requires { t ≤ 511 }
    ensures { Frees t blank result }
{
    let mut s = sets::empty();
    for i in 0..t {
        sets::insert(&mut s, i + 1);
    }
    s
}

impl Tracks<'_> {
    // Ends the strand on track y, if it is one of the net's.
    fn end_at(&mut self, y: usize, net: u16)
        requires { y ≤ 511 }
        ensures nets { self.new.nets.now ≡ set self.old.nets.now y (cleared net (get_or self.old.nets.now y 0)) }
        ensures frees { (t : ℕ) → Among t y y self.old.nets.now self.old.free.now → Frees t self.new.nets.now self.new.free.now }
        ensures lent { SameTracks self.old self.new }
    {
        if self.nets[y] == net {
            self.nets[y] = 0;
            sets::insert(self.free, y);
        }
    }

    // Ends the strands of a net on the tracks a to b.
    fn end_between(&mut self, a: u16, b: u16, net: u16)
        requires { b ≤ 511 }
        ensures ended { (t : ℕ) → Among t a b self.old.nets.now self.old.free.now
            → Ended t net a b self.old.nets.now self.new.nets.now self.new.free.now }
        ensures lent { SameTracks self.old self.new }
    {
        for y in usize::from(a)..usize::from(b) + 1 {
            self.end_at(y, net);
        }
    }

    // Ends the strands of a net whose lowest is on track a, the highest on track b, and that has so many.
    fn end_strands(&mut self, a: u16, b: u16, number: u16, net: u16)
        requires { (a ≤ 511) × (b ≤ 511) }
        ensures ended { (t : ℕ) → Among t a b self.old.nets.now self.old.free.now → 0 < net
            → (number ≤ 2 → NoneBetween net a b self.old.nets.now)
            → Ended t net a b self.old.nets.now self.new.nets.now self.new.free.now }
        ensures lent { SameTracks self.old self.new }
    {
        if number <= 2 {
            self.end_at(usize::from(a), net);
            self.end_at(usize::from(b), net);
            return;
        }
        self.end_between(a, b, net);
    }
}

// The lower of two tracks, where 0 is none.
fn lesser_of(x: u16, y: u16) -> u16
    ensures { result ≡ lesser x y }
{
    if x == 0 {
        return y;
    }
    if y == 0 {
        return x;
    }
    x.min(y)
}

impl Strands<'_> {
    // Ends all strands of a net.
    pub(crate) fn drop_net(&mut self, net: u16)
        ensures held { (t : ℕ) → net ≤ 256 → Held t self.old (on t self.old) → Held t self.new (clear net (on t self.old)) }
        ensures lent { SameStrands self.old self.new }
    {
        if (net == 0) | (256 < net) {
            return;
        }
        let v = usize::from(net);
        let number = self.many[v];
        if number == 0 {
            return;
        }
        let a = self.low[v] % 512;
        let b = self.high[v] % 512;
        self.tracks.end_strands(a, b, number, net);
        self.low[v] = 0;
        self.high[v] = 0;
        self.many[v] = 0;
    }

    // Gives a free track to a net; nothing where either is 0.
    fn add_strand(&mut self, g: Gift)
        ensures held { (t : ℕ) → g.net ≤ 256 → FreeAt g.track (on t self.old)
            → Held t self.old (on t self.old) → Held t self.new (give g.track g.net (on t self.old)) }
        ensures lent { SameStrands self.old self.new }
    {
        let track = g.track;
        let net = g.net;
        if track == 0 {
            return;
        }
        if (net == 0) | (256 < net) {
            return;
        }
        let y = usize::from(track % 512);
        let v = usize::from(net);
        self.tracks.nets[y] = net;
        sets::remove(self.tracks.free, y);
        self.low[v] = lesser_of(self.low[v], track);
        self.high[v] = self.high[v].max(track);
        self.many[v] = self.many[v] % 512 + 1;
    }

    // The tracks after an action.
    pub(crate) fn apply(&mut self, x: Action)
        ensures held { (t : ℕ) → Applies x (on t self.old) → Held t self.old (on t self.old)
            → Held t self.new (after x (on t self.old)) }
        ensures lent { SameStrands self.old self.new }
    {
        self.drop_net(x.ended);
        self.drop_net(x.closed);
        self.add_strand(x.gift1);
        self.add_strand(x.gift2);
        self.add_strand(x.gift3);
    }
}
