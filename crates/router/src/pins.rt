// A column's pins.
ghost use Rattle.std.specs.Prelude.{◌≡◌, ◌+◌, ◌<◌, ◌≤◌, not, ◌&&◌, eqb, ltb, leb, get_or};
ghost use Rattle.sweep.specs.Drawing.{kind_by};
ghost use Rattle.router.specs.Working.{pin_by};

use crate::lent::{Plan, Strands};
use sweep::Pin;

// The kind of a pin in column c + 1 by its net's first and last column: 1 starts, 2 continues, 3 ends.
fn kind_at(first: u16, last: u16, c: u16) -> u16
    requires { c ≤ 511 }
    ensures { result ≡ kind_by (not (eqb first 0) && leb first c) (ltb (c + 1) last) }
{
    if first == 0 {
        return 1;
    }
    if c < first {
        return 1;
    }
    if c + 1 < last { 2 } else { 3 }
}

impl Strands<'_> {
    // The pin of net v in column c + 1.
    pub(crate) fn pin_at(&self, plan: &Plan, c: u16, v: u16) -> Pin
        requires { (c ≤ 511) × (v ≤ 256) }
        ensures { result ≡ pin_by (get_or plan.now.first.now v 0) (get_or plan.now.last.now v 0)
            (get_or self.now.low.now v 0) (get_or self.now.high.now v 0) (get_or self.now.many.now v 0) c v }
    {
        if v == 0 {
            return Pin {
                net: 0,
                kind: 0,
                low: 0,
                high: 0,
                many: 0,
            };
        }
        let i = usize::from(v);
        let kind = kind_at(plan.first[i], plan.last[i], c);
        let low = &*self.low;
        let high = &*self.high;
        let many = &*self.many;
        Pin {
            net: v,
            kind,
            low: low[i],
            high: high[i],
            many: many[i],
        }
    }
}

impl Plan<'_> {
    // Whether net v has pins after column c + 1.
    pub(crate) fn goes_on(&self, c: u16, v: u16) -> bool
        requires { (c ≤ 511) × (v ≤ 256) }
        ensures { result ≡ ltb (c + 1) (get_or self.now.last.now v 0) }
    {
        c + 1 < self.last[usize::from(v)]
    }
}
