// The rules of many-pin channels: what a column does, by its pins, the two lowest free tracks and the net of rule 2.
ghost use Rattle.std.specs.Prelude.{◌≡◌, ℕ, ◌+◌, min, eqb};
ghost use Rattle.grid.specs.Channel.{pick};
ghost use Rattle.sweep.specs.Rules.{kind_of};
ghost use Rattle.sweep.specs.Working.{no_pins, join_alone};
ghost use Rattle.sweep.specs.ManyPin.{choose_many, direct, top_continues, bottom_continues, both_continue, both_pins, by_kinds};

use crate::actions;
use sweep::{Action, Free, Joint, Pin};

// Each pin goes direct: the bottom net up to row q, the top net down to row p.
pub(crate) fn go_direct(a: Pin, b: Pin, q: u16, p: u16) -> Action
    ensures { result ≡ direct a b q p 0 0 }
{
    actions::one_gift(
        actions::pin_wires(b.net, q, a.net, p),
        0,
        actions::no_track(),
    )
}

// A continuing top net opposite a starting one, or opposite a continuing one where neither has two strands.
#[tactic(auto, unfolding(sweep::specs::ManyPin::top_continues))]
pub(crate) fn top_continues(a: Pin, b: Pin, f: Free) -> Action
    ensures { result ≡ top_continues a b f }
{
    if f.first < a.high {
        return actions::one_gift(
            actions::pin_wires(b.net, f.first, a.net, a.high),
            0,
            actions::goes(f.first, b.net),
        );
    }
    actions::three_gifts(
        actions::pin_wires(b.net, a.high, a.net, a.high),
        a.net,
        actions::goes(f.first, a.net),
        actions::goes(a.high, b.net),
        actions::goes(track_if_more(a.many, a.low), a.net),
    )
}

#[tactic(auto, unfolding(sweep::specs::ManyPin::bottom_continues))]
pub(crate) fn bottom_continues(a: Pin, b: Pin, f: Free) -> Action
    ensures { result ≡ bottom_continues a b f }
{
    if b.low < f.first {
        return actions::one_gift(
            actions::pin_wires(b.net, b.low, a.net, f.first),
            0,
            actions::goes(f.first, a.net),
        );
    }
    actions::three_gifts(
        actions::pin_wires(b.net, b.low, a.net, b.low),
        b.net,
        actions::goes(f.first, b.net),
        actions::goes(b.low, a.net),
        actions::goes(track_if_more(b.many, b.high), b.net),
    )
}

// Track y, and none where its net has one strand.
fn track_if_more(many: u16, y: u16) -> u16
    ensures { result ≡ pick (eqb many 1) 0 y }
{
    if many == 1 { 0 } else { y }
}

#[tactic(auto, unfolding(sweep::specs::ManyPin::both_continue))]
fn both_continue(a: Pin, b: Pin, f: Free) -> Action
    ensures { result ≡ both_continue a b f }
{
    if b.low < a.high {
        return go_direct(a, b, b.low, a.high);
    }
    if a.many == 2 {
        return actions::three_gifts(
            actions::pin_wires(b.net, a.low, a.net, a.low),
            a.net,
            actions::goes(a.high, a.net),
            actions::goes(a.low, b.net),
            actions::no_track(),
        );
    }
    if b.many == 2 {
        return actions::three_gifts(
            actions::pin_wires(b.net, b.high, a.net, b.high),
            b.net,
            actions::goes(b.low, b.net),
            actions::goes(b.high, a.net),
            actions::no_track(),
        );
    }
    top_continues(a, b, f)
}

// The number of a kind; those over 3 stand for 3.
pub(crate) fn kind_number(kind: u16) -> u16
    ensures { result ≡ min kind 3 }
{
    kind.min(3)
}

// What a column of a many-pin channel does by its pair of kinds, where rules 1 and 2 do not fit. The customer asks for a match on a number made of the two.
fn kinds_many(a: Pin, b: Pin, f: Free) -> Action
    ensures { result ≡ by_kinds a b f (kind_of a.kind) (kind_of b.kind) }
{
    match 4 * kind_number(a.kind) + kind_number(b.kind) {
        1 => actions::bottom_takes_free(f, b.net),
        2 => go_direct(a, b, b.low, b.low),
        3 => actions::bottom_ends(a, b),
        4 => actions::top_takes_free(f, a.net),
        5 => actions::both_take_free(f, a.net, b.net),
        6 => bottom_continues(a, b, f),
        7 => actions::bottom_ends(a, b),
        8 => go_direct(a, b, 0, a.high),
        9 => top_continues(a, b, f),
        10 => both_continue(a, b, f),
        11 => actions::bottom_ends(a, b),
        12 => actions::top_ends(a, b),
        13 => actions::top_ends(a, b),
        14 => actions::top_ends(a, b),
        15 => actions::both_end(a, b),
        _ => actions::go_straight(),
    }
}

// One net with both pins in the column.
fn both_pins(last: u16, a: Pin, f: Free, n: Joint, later: bool) -> Action
    ensures { (t : ℕ) → last ≡ t + 1 → result ≡ both_pins t a f n later }
{
    if 0 < a.many {
        return actions::go_full(last, a.net, actions::track_later(later, a.low));
    }
    if later {
        if n.net == 0 {
            return actions::go_full(last, a.net, f.first);
        }
        return actions::join_net(n, a.net, a.net);
    }
    actions::go_full(last, a.net, 0)
}

// What a column does, also one without pins. The last row is t + 1; `later` tells whether the top pin's net has later pins.
#[tactic(auto, unfolding(sweep::specs::ManyPin::choose_many))]
pub fn choose_many(last: u16, a: Pin, b: Pin, f: Free, n: Joint, later: bool) -> Action
    ensures { (t : ℕ) → last ≡ t + 1 → result ≡ pick (no_pins a b) (join_alone n) (choose_many t a b f n later) }
{
    if a.net == b.net {
        if a.net == 0 {
            return actions::join_alone(n);
        }
        return both_pins(last, a, f, n, later);
    }
    if n.net == 0 {
        return kinds_many(a, b, f);
    }
    actions::join_net(n, a.net, b.net)
}
