// The family of a channel: by the pin counts of its nets and, where the largest has three pins, by one pass over the columns.
ghost use Rattle.std.specs.Prelude.{◌≡◌, ◌<◌, ltb, length};
ghost use Rattle.grid.specs.Channel.{first_two_to, pins as pins_of, family as family_of};
ghost use Rattle.grid.specs.Nets.{first_column, table};
ghost use Rattle.grid.specs.Working.{Rows, some_to, first_two_by};

use crate::Family;

// Whether column c, with the pins p above and q below, has the first two pins of a net of three.
fn has_first_two(p: u16, q: u16, c: u16, first: &[u16], pins: &[u16]) -> bool
    requires { (p < length first.now) × (p < length pins.now) }
    ensures { result ≡ first_two_by first.now pins.now c p q }
{
    let v = usize::from(p);
    (p != 0) & ((p == q) & ((pins[v] == 3) & (first[v] == c)))
}

// Whether a column of accepted rows has them. By index, as the passes of spans.rt.
fn first_two(top: &[u16], bottom: &[u16], first: &[u16], pins: &[u16]) -> bool
    requires { Rows top.now bottom.now
        × (first.now ≡ table (first_column top.now bottom.now))
        × (pins.now ≡ table (pins_of top.now bottom.now)) }
    ensures { result ≡ first_two_to top.now bottom.now (length top.now) }
{
    let mut found = false;
    for i in 0..top.len() {
        found |= has_first_two(top[i], bottom[i], i as u16 + 1, first, pins);
    }
    found
}

// The family of accepted rows, by whether a net has three or more pins and whether one has four or more.
pub(crate) fn family_of(
    top: &[u16],
    bottom: &[u16],
    first: &[u16],
    pins: &[u16],
    three: bool,
    four: bool,
) -> Family
    requires rows { Rows top.now bottom.now
        × (first.now ≡ table (first_column top.now bottom.now))
        × (pins.now ≡ table (pins_of top.now bottom.now)) }
    requires three { three ≡ some_to (λ v. ltb 2 (pins_of top.now bottom.now v)) 256 }
    requires four { four ≡ some_to (λ v. ltb 3 (pins_of top.now bottom.now v)) 256 }
    ensures { result ≡ family_of top.now bottom.now }
{
    if !three {
        return Family::TwoPin;
    }
    if four {
        return Family::ManyPin;
    }
    if first_two(top, bottom, first, pins) {
        return Family::ManyPin;
    }
    Family::ThreePin
}
