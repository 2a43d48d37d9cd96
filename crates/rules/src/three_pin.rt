// The rules of three-pin channels: what a column does and the pair that it forms, by its pins, the last columns of their nets, the two lowest free tracks, the
// net of rule 2 and two double nets without a mate: the one that ends last and the lowest-numbered other one.
ghost use Rattle.std.specs.Prelude.{◌≡◌, ℕ, ◌+◌};
ghost use Rattle.grid.specs.Channel.{pick};
ghost use Rattle.sweep.specs.Rules.{kind_of};
ghost use Rattle.sweep.specs.Working.{no_pins, join_alone};
ghost use Rattle.sweep.specs.Drawing.{no_joint};
ghost use Rattle.sweep.proofs.Rules.Kinds.{may_join};
ghost use Rattle.sweep.specs.ThreePin.{pairing as with_pair, still as without_pair, reduce as reducing, beside as beside_of, three_way, either_ends, both_go_on};
ghost use Rattle.sweep.specs.ThreePin.{paired_with, top_starts, bottom_starts, both_start, top_goes_on, bottom_goes_on, by_kinds, choose_three};

use crate::{actions, many_pin};
use grid::Segments;
use sweep::{Action, Double, Free, Joint, Move, Pin};

// An action and the pair that it forms, a double and a single net.
fn pairing(action: Action, double: u16, single: u16) -> Move
    ensures { result ≡ with_pair action double single }
{
    Move {
        action,
        double,
        single,
    }
}

// An action that forms no pair.
pub fn still(action: Action) -> Move
    ensures { result ≡ without_pair action }
{
    pairing(action, 0, 0)
}

// Net d is joined and leaves on track y; the bottom net b takes track x and the top net a track z (0: no net).
fn reduce(d: Double, a: u16, b: u16, x: u16, y: u16, z: u16) -> Action
    ensures { result ≡ reducing d a b x y z }
{
    let wires = Segments {
        bottom: b,
        low: x,
        start: d.low,
        middle: d.net,
        stop: d.high,
        high: z,
        top: a,
    };
    actions::three_gifts(
        wires,
        d.net,
        actions::goes(actions::track_for(b, x), b),
        actions::goes(actions::track_for(a, z), a),
        actions::goes(y, d.net),
    )
}

// The bottom net, d and the top net leave on the lowest, the middle and the highest of d's two tracks and free track y.
#[tactic(auto, unfolding(sweep::specs::ThreePin::three_way))]
fn three_way(d: Double, y: u16, a: u16, b: u16) -> Action
    ensures { result ≡ three_way d y a b }
{
    if y < d.low {
        return reduce(d, a, b, y, d.low, d.high);
    }
    if y < d.high {
        return reduce(d, a, b, d.low, y, d.high);
    }
    reduce(d, a, b, d.low, d.high, y)
}

// Two pins that end their nets.
#[tactic(auto, unfolding(sweep::specs::ThreePin::either_ends))]
fn either_ends(a: Pin, b: Pin) -> Action
    ensures { result ≡ either_ends a b }
{
    if b.high < a.low {
        return actions::both_join(a, b);
    }
    if (b.many < a.many) | ((a.many == b.many) & (a.net < b.net)) {
        return actions::top_ends(a, b);
    }
    actions::bottom_ends(a, b)
}

// Two continuing pins, whose nets end at the columns ea and eb.
#[tactic(auto, unfolding(sweep::specs::ThreePin::both_go_on))]
fn both_go_on(a: Pin, b: Pin, ea: u16, eb: u16, f: Free) -> Move
    ensures { result ≡ both_go_on a b ea eb f }
{
    if b.low < a.high {
        return still(many_pin::go_direct(a, b, b.low, a.high));
    }
    if (ea < eb) | ((ea == eb) & (a.net < b.net)) {
        return pairing(many_pin::bottom_continues(a, b, f), a.net, b.net);
    }
    pairing(many_pin::top_continues(a, b, f), b.net, a.net)
}

// An action that reduces d, which becomes the single net of a pair with m, if there is such a net.
fn paired_with(m: Double, d: Double, action: Action) -> Move
    ensures { result ≡ paired_with m d action }
{
    pairing(action, m.net, actions::track_for(m.net, d.net))
}

// Only starting pins: one, or two of two nets.
#[tactic(auto, unfolding(sweep::specs::ThreePin::top_starts))]
fn top_starts(a: Pin, b: Pin, f: Free, d: Double, m: Double) -> Move
    ensures { result ≡ top_starts a b f d m }
{
    if d.net == 0 {
        return still(actions::top_takes_free(f, a.net));
    }
    paired_with(m, d, reduce(d, a.net, 0, d.low, d.low, d.high))
}

#[tactic(auto, unfolding(sweep::specs::ThreePin::bottom_starts))]
fn bottom_starts(a: Pin, b: Pin, f: Free, d: Double, m: Double) -> Move
    ensures { result ≡ bottom_starts a b f d m }
{
    if d.net == 0 {
        return still(actions::bottom_takes_free(f, b.net));
    }
    paired_with(m, d, reduce(d, 0, b.net, d.low, d.high, d.high))
}

#[tactic(auto, unfolding(sweep::specs::ThreePin::both_start))]
fn both_start(a: Pin, b: Pin, f: Free, d: Double, m: Double) -> Move
    ensures { result ≡ both_start a b f d m }
{
    if d.net == 0 {
        return still(actions::both_take_free(f, a.net, b.net));
    }
    paired_with(m, d, three_way(d, f.first, a.net, b.net))
}

// The double net that a continuing pin is paired with: m if there is one, else d.
fn beside(d: Double, m: Double) -> Double
    ensures { result ≡ beside_of d m }
{
    if m.net == 0 { d } else { m }
}

// A continuing top pin, whose net ends at column ea, opposite a starting one; e is the double net beside it.
#[tactic(auto, unfolding(sweep::specs::ThreePin::top_goes_on))]
fn top_goes_on(a: Pin, b: Pin, f: Free, e: Double, ea: u16) -> Move
    ensures { result ≡ top_goes_on a b f e ea }
{
    if e.net == 0 {
        return still(many_pin::top_continues(a, b, f));
    }
    if ea < e.last {
        return pairing(three_way(e, f.first, a.net, b.net), a.net, e.net);
    }
    pairing(many_pin::top_continues(a, b, f), e.net, a.net)
}

#[tactic(auto, unfolding(sweep::specs::ThreePin::bottom_goes_on))]
fn bottom_goes_on(a: Pin, b: Pin, f: Free, e: Double, eb: u16) -> Move
    ensures { result ≡ bottom_goes_on a b f e eb }
{
    if e.net == 0 {
        return still(many_pin::bottom_continues(a, b, f));
    }
    if eb < e.last {
        return pairing(three_way(e, f.first, a.net, b.net), b.net, e.net);
    }
    pairing(many_pin::bottom_continues(a, b, f), e.net, b.net)
}

// What a column of a three-pin channel does by its pair of kinds, where rule 2 does not fit; a match on a number, as in many_pin.rt.
fn kinds_three(a: Pin, b: Pin, ea: u16, eb: u16, f: Free, d: Double, m: Double) -> Move
    ensures { result ≡ by_kinds a b ea eb f no_joint d m (kind_of a.kind) (kind_of b.kind) }
{
    match 4 * many_pin::kind_number(a.kind) + many_pin::kind_number(b.kind) {
        1 => bottom_starts(a, b, f, d, m),
        2 => still(many_pin::go_direct(a, b, b.low, b.low)),
        3 => still(actions::bottom_ends(a, b)),
        4 => top_starts(a, b, f, d, m),
        5 => both_start(a, b, f, d, m),
        6 => bottom_goes_on(a, b, f, beside(d, m), eb),
        7 => still(actions::bottom_ends(a, b)),
        8 => still(many_pin::go_direct(a, b, 0, a.high)),
        9 => top_goes_on(a, b, f, beside(d, m), ea),
        10 => both_go_on(a, b, ea, eb, f),
        11 => still(actions::bottom_ends(a, b)),
        12 => still(actions::top_ends(a, b)),
        13 => still(actions::top_ends(a, b)),
        14 => still(actions::top_ends(a, b)),
        15 => still(either_ends(a, b)),
        _ => still(actions::go_straight()),
    }
}

// Whether rule 2 fits two kinds where a net is extended: there is a pin, and none ends its net. By their numbers, as the law of rule 2 says it.
fn may_join(k: u16, l: u16) -> bool
    ensures { result ≡ may_join k l }
{
    (k < 3) & (l < 3) & ((0 < k) | (0 < l))
}

// What a column does, also one without pins. The last row is t + 1; the nets of its pins end at the columns ea and eb.
pub fn choose_three(
    last: u16,
    a: Pin,
    b: Pin,
    ea: u16,
    eb: u16,
    f: Free,
    n: Joint,
    d: Double,
    m: Double,
) -> Move
    ensures { (t : ℕ) → last ≡ t + 1
        → result ≡ pick (no_pins a b) (without_pair (join_alone n)) (choose_three t a b ea eb f n d m) }
{
    if a.net == b.net {
        if a.net == 0 {
            return still(actions::join_alone(n));
        }
        return still(actions::go_full(last, a.net, 0));
    }
    if (n.net != 0) & may_join(a.kind, b.kind) {
        return still(actions::join_net(n, a.net, b.net));
    }
    kinds_three(a, b, ea, eb, f, d, m)
}
