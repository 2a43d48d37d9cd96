// Pairs of nets in three-pin channels: each net's mate, the set of the unpaired double nets, and of these the one that ends last and the lowest other one.
// Total functions of lent tables with a figure of each net at its number.
#![tactic(auto)]

ghost use Rattle.std.specs.Prelude.{◌≡◌, false, ◌||◌, ◌%◌, ◌≤◌, eqb, ltb, get_or, set};
ghost use Rattle.grid.specs.Channel.{pick};
ghost use Rattle.sets.specs.Member.{member};
ghost use Rattle.sweep.specs.Pairs.{mate, latest_to};
ghost use Rattle.sweep.specs.Pairs.{unpair as unpaired, pair_up};
ghost use Rattle.pairs.specs.Working.{MarksLone, MarksLoneThree, ending_by, renewed, Numbers, MarksAllLone, LeastAbove, but_for, double_by, apart_from};

use sets::MembersAbove;
use sweep::Double;

// What a table holds at v, 0 past its end.
fn entry(table: &[u16], v: u16) -> u16
    ensures { result ≡ get_or table.now v 0 }
{
    table.get(usize::from(v)).copied().unwrap_or(0)
}

// Stores x at v, nothing past the end. By index: after a write through `get_mut` the elements are not known.
fn store(table: &mut [u16], v: u16, x: u16)
    ensures { table.new ≡ set table.old v x }
{
    let i = usize::from(v);
    if i < table.len() {
        table[i] = x;
    }
}

// The pair of net v ends (0: none). The answer is its former mate.
#[tactic(auto, unfolding(sweep::specs::Pairs::unpair))]
fn unpair(mates: &mut [u16], v: u16) -> u16
    ensures mates { mates.new ≡ unpaired v mates.old }
    ensures former { result ≡ mate v mates.old }
{
    let w = entry(mates, v);
    store(mates, w, 0);
    store(mates, v, 0);
    w
}

// The nets d and s become a pair (0 and 0: none).
#[tactic(auto, unfolding(sweep::specs::Pairs::pair_up))]
fn pair_up(mates: &mut [u16], d: u16, s: u16)
    ensures { mates.new ≡ pair_up d s mates.old }
{
    store(mates, s, d);
    store(mates, d, s);
}

// Net v if column c is its last, else 0.
#[tactic(auto, unfolding(crate::specs::Working::ending_by))]
fn ending(last: &[u16], c: u16, v: u16) -> u16
    ensures { result ≡ ending_by last.now c v }
{
    if c < entry(last, v) { 0 } else { v }
}

// Marks net v in the set of the unpaired double nets.
fn mark(many: &[u16], mates: &[u16], lone: &mut [u64; 8], v: u16)
    ensures { v ≤ 511 → (member lone.old 0 ≡ false)
        → MarksLone many.now mates.now v lone.old lone.new }
{
    if v == 0 {
        return;
    }
    let b = (entry(many, v) == 2) & (entry(mates, v) == 0);
    sets::put(lone, usize::from(v), b);
}

// Net u, or 0 where it is v or w: it need not be marked beside them.
#[tactic(auto, unfolding(crate::specs::Working::apart_from))]
pub fn apart(u: u16, v: u16, w: u16) -> u16
    ensures { result ≡ apart_from v w u }
{
    if (u == v) | (u == w) { 0 } else { u }
}

// Marks three nets.
fn mark_three(many: &[u16], mates: &[u16], lone: &mut [u64; 8], u: u16, v: u16, w: u16)
    ensures { u ≤ 511 → v ≤ 511 → w ≤ 511 → (member lone.old 0 ≡ false)
        → MarksLoneThree many.now mates.now u v w lone.old lone.new }
{
    mark(many, mates, lone, apart(u, v, w));
    mark(many, mates, lone, v);
    mark(many, mates, lone, w);
}

// The pairs after column c with pins of the nets p and q: those of the nets that end there end, and d and s become one (0 and 0: none). Marks the nets whose
// strands or mates have changed: the strands are those of p, q and a, the net whose strands ended.
pub fn renew(
    last: &[u16],
    many: &[u16],
    mates: &mut [u16],
    lone: &mut [u64; 8],
    c: u16,
    a: u16,
    p: u16,
    q: u16,
    d: u16,
    s: u16,
)
    ensures mates { mates.new ≡ renewed last.now c p q d s mates.old }
    ensures lone { Numbers a p q d s mates.old
        → MarksAllLone many.now mates.old mates.new a p q lone.old lone.new }
{
    let g = unpair(mates, ending(last, c, p));
    let h = unpair(mates, ending(last, c, q));
    pair_up(mates, d, s);
    mark_three(many, mates, lone, a, p, q);
    mark_three(many, mates, lone, g, h, d);
    mark(many, mates, lone, s);
}

// The lowest net of a set above net v, 0 where there is none.
fn above(s: &[u64; 8], v: u16) -> u16
    ensures { LeastAbove (member s.now) (v % 512) result }
{
    (sets::above(s, usize::from(v)) % 512) as u16
}

// Of the nets u and v the one that ends later, u where they end together; v where u is 0.
fn later_of(last: &[u16], u: u16, v: u16) -> u16
    ensures { result ≡ pick (eqb u 0 || ltb (get_or last.now u 0) (get_or last.now v 0)) v u }
{
    if (u == 0) | (entry(last, u) < entry(last, v)) {
        v
    } else {
        u
    }
}

// Of the nets of a set the one that ends last, of those that end together the lowest-numbered; 0 where there is none.
pub fn latest(last: &[u16], lone: &[u64; 8]) -> u16
    ensures { result ≡ latest_to (λ v. get_or last.now v 0) (member lone.now) 511 }
{
    let mut best = 0;
    for v in (MembersAbove { set: lone, last: 0 }) {
        best = later_of(last, best, v as u16);
    }
    best
}

// The lowest net of a set other than d, 0 where there is none.
pub fn other(lone: &[u64; 8], d: u16) -> u16
    ensures { LeastAbove (but_for lone.now d) 0 result }
{
    let v = above(lone, 0);
    if v == d { above(lone, v) } else { v }
}

// Net v as a double net (0: none).
#[tactic(auto, unfolding(crate::specs::Working::double_by))]
pub fn double_at(last: &[u16], low: &[u16], high: &[u16], v: u16) -> Double
    ensures { result ≡ double_by last.now low.now high.now v }
{
    if v == 0 {
        return Double {
            net: 0,
            low: 0,
            high: 0,
            last: 0,
        };
    }
    Double {
        net: v,
        low: entry(low, v),
        high: entry(high, v),
        last: entry(last, v),
    }
}
