// Actions that the rules of the sweeps share.
ghost use Rattle.std.specs.Prelude.{◌≡◌, ℕ, ◌+◌, eqb};
ghost use Rattle.grid.specs.Channel.{pick};
ghost use Rattle.sweep.specs.Rules.{pin_wires, goes as goes_to, no_track, act, straight, full, taken, join_net};
ghost use Rattle.sweep.specs.Rules.{top_takes_free, bottom_takes_free, both_take_free, top_ends, bottom_ends, both_join, both_end, join_only};
ghost use Rattle.sweep.specs.Working.{join_alone};

use grid::Segments;
use sweep::{Action, Free, Gift, Joint, Pin};

// The wires of two pins: the bottom net b up to row q, the top net a down to row p.
pub fn pin_wires(b: u16, q: u16, a: u16, p: u16) -> Segments
    ensures { result ≡ pin_wires b q a p }
{
    Segments {
        bottom: b,
        low: q,
        start: q,
        middle: 0,
        stop: q,
        high: p,
        top: a,
    }
}

// A track goes to a net.
pub fn goes(track: u16, net: u16) -> Gift
    ensures { result ≡ goes_to track net }
{
    Gift { track, net }
}

pub fn no_track() -> Gift
    ensures { result ≡ no_track }
{
    Gift { track: 0, net: 0 }
}

// Wires are drawn, the strands of one net end (0: none), and one track is given.
pub fn one_gift(wires: Segments, ended: u16, g: Gift) -> Action
    ensures { result ≡ act wires ended 0 g no_track no_track }
{
    three_gifts(wires, ended, g, no_track(), no_track())
}

// The same with three tracks.
pub fn three_gifts(wires: Segments, ended: u16, g1: Gift, g2: Gift, g3: Gift) -> Action
    ensures { result ≡ act wires ended 0 g1 g2 g3 }
{
    Action {
        wires,
        ended,
        closed: 0,
        gift1: g1,
        gift2: g2,
        gift3: g3,
    }
}

pub fn go_straight() -> Action
    ensures { result ≡ straight }
{
    one_gift(pin_wires(0, 0, 0, 0), 0, no_track())
}

// Net v from row 0 to the last row, t + 1; it leaves on track y (0: it does not).
pub fn go_full(last: u16, v: u16, y: u16) -> Action
    ensures { (t : ℕ) → last ≡ t + 1 → result ≡ full t v y }
{
    one_gift(pin_wires(v, last, v, last), v, goes(y, v))
}

// Track y for net v, and none where v is 0.
pub fn track_for(v: u16, y: u16) -> u16
    ensures { result ≡ taken v y }
{
    if v == 0 { 0 } else { y }
}

// Track y for net v, and none where v is 0 or the net that is joined.
pub fn track_beside(v: u16, joined: u16, y: u16) -> u16
    ensures { result ≡ pick (eqb v joined) 0 (taken v y) }
{
    if v == joined { 0 } else { track_for(v, y) }
}

pub fn track_later(later: bool, y: u16) -> u16
    ensures { result ≡ pick later y 0 }
{
    if later { y } else { 0 }
}

pub fn join_net(n: Joint, a: u16, b: u16) -> Action
    ensures { result ≡ join_net n a b }
{
    let wires = Segments {
        bottom: b,
        low: n.low,
        start: n.low,
        middle: n.net,
        stop: n.high,
        high: n.high,
        top: a,
    };
    three_gifts(
        wires,
        n.net,
        goes(track_beside(b, n.net, n.low), b),
        goes(track_beside(a, n.net, n.high), a),
        goes(track_later(n.later, n.second), n.net),
    )
}

// The strands of net v, the lowest on track `low` and the highest on track `high`, are joined, and nothing else is done.
pub fn join_strands(v: u16, low: u16, high: u16) -> Action
    ensures { result ≡ join_only v low high }
{
    let wires = Segments {
        bottom: 0,
        low: 0,
        start: low,
        middle: v,
        stop: high,
        high,
        top: 0,
    };
    one_gift(wires, v, no_track())
}

// What a column without pins does: the net of rule 2 is joined if it has no later pins, else all runs straight.
#[tactic(auto, unfolding(sweep::specs::Working::join_alone))]
pub fn join_alone(n: Joint) -> Action
    ensures { result ≡ join_alone n }
{
    if (n.net == 0) | n.later {
        return go_straight();
    }
    join_strands(n.net, n.low, n.high)
}

pub fn top_takes_free(f: Free, a: u16) -> Action
    ensures { result ≡ top_takes_free f a }
{
    one_gift(pin_wires(0, 0, a, f.first), 0, goes(f.first, a))
}

pub fn bottom_takes_free(f: Free, b: u16) -> Action
    ensures { result ≡ bottom_takes_free f b }
{
    one_gift(pin_wires(b, f.first, 0, f.first), 0, goes(f.first, b))
}

pub fn both_take_free(f: Free, a: u16, b: u16) -> Action
    ensures { result ≡ both_take_free f a b }
{
    three_gifts(
        pin_wires(b, f.first, a, f.second),
        0,
        goes(f.first, b),
        goes(f.second, a),
        no_track(),
    )
}

pub fn top_ends(a: Pin, b: Pin) -> Action
    ensures { result ≡ top_ends a b }
{
    one_gift(
        pin_wires(b.net, a.low, a.net, a.low),
        a.net,
        goes(track_for(b.net, a.low), b.net),
    )
}

pub fn bottom_ends(a: Pin, b: Pin) -> Action
    ensures { result ≡ bottom_ends a b }
{
    one_gift(
        pin_wires(b.net, b.high, a.net, b.high),
        b.net,
        goes(track_for(a.net, b.high), a.net),
    )
}

// Both nets end, the bottom net's strands below the top net's.
pub fn both_join(a: Pin, b: Pin) -> Action
    ensures { result ≡ both_join a b }
{
    Action {
        wires: pin_wires(b.net, b.high, a.net, a.low),
        ended: a.net,
        closed: b.net,
        gift1: no_track(),
        gift2: no_track(),
        gift3: no_track(),
    }
}

#[tactic(auto, unfolding(sweep::specs::Rules::both_end))]
pub fn both_end(a: Pin, b: Pin) -> Action
    ensures { result ≡ both_end a b }
{
    if b.high < a.low {
        both_join(a, b)
    } else {
        top_ends(a, b)
    }
}
