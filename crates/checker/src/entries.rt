// Tests of single entries: refusals 13 to 15, with 19 and 20, which stand with 14.
ghost use Rattle.std.specs.Prelude.{◌≡◌, true, false, ℕ, ◌+◌, ◌*◌, ◌≤◌, ◌<◌, length, get_or, position, not, eqb};
ghost use Rattle.grid.specs.Channel.{over};
ghost use Rattle.grid.specs.Refusals.{number};
ghost use Rattle.checker.specs.Check.{strange, mispinned, terminal_fault, pin_fault, leaves_last};
ghost use Rattle.checker.specs.Working.{PinTable, unknown, first_below, AllKnown, KnownMarks};

use grid::Refusal;

// An entry, 0 past the end.
pub(crate) fn entry(layout: &[u16], i: usize) -> u16
    ensures { result ≡ get_or layout.now i 0 }
{
    layout.get(i).copied().unwrap_or(0)
}

// Whether an entry is neither 0 nor a net by the table of pin counts.
fn stranger(e: u16, pins: &[u16; 257]) -> bool
    ensures { result ≡ unknown pins.now e }
{
    e != 0 && (256 < e || pins[usize::from(e)] == 0)
}

// The lowest entry that is neither 0 nor a net by the table.
fn find_unknown(layout: &[u16], pins: &[u16; 257]) -> Option<usize>
    ensures { result ≡ position (unknown pins.now) layout.now }
{
    layout.iter().position(|e| stranger(*e, pins))
}

// Marks of the numbers up to 256: only 0 and nets by the table have one.
fn known_numbers(pins: &[u16; 257]) -> [bool; 257]
    requires { length pins.now ≡ 257 }
    ensures { KnownMarks pins.now result 257 }
{
    let mut known = [true; 257];
    for v in 1..257 {
        known[v] = pins[v] != 0;
    }
    known
}

// True only where all entries, of at most 256 each, are marked.
fn all_marked(layout: &[u16], known: &[bool; 257]) -> bool
    requires { over layout.now ≡ false }
    ensures { result ≡ true → (p : ℕ) → p < length layout.now → get_or known.now (get_or layout.now p 0) false ≡ true }
{
    let mut all = true;
    // By `&` and with no way out: `all` would stop at each entry to branch, and this loop takes four at once.
    for e in layout {
        all = all & known[usize::from(*e)];
    }
    all
}

// True only where all entries are 0 or nets by the table.
fn all_known(layout: &[u16], pins: &[u16; 257]) -> bool
    requires { length pins.now ≡ 257 }
    ensures { result ≡ true → AllKnown pins.now layout.now }
{
    if grid::has_over(layout) {
        return false;
    }
    let known = known_numbers(pins);
    all_marked(layout, &known)
}

// The lowest entry that is neither 0 nor a net.
pub(crate) fn find_strange(
    top: &[u16],
    bottom: &[u16],
    layout: &[u16],
    pins: &[u16; 257],
) -> Option<usize>
    requires { PinTable top.now bottom.now pins.now }
    ensures { result ≡ first_below (length layout.now) (strange top.now bottom.now layout.now) }
{
    if all_known(layout, pins) {
        return None;
    }
    find_unknown(layout, pins)
}

// The lowest pin entry that is not its pin.
pub(crate) fn find_pin(
    top: &[u16],
    bottom: &[u16],
    w: usize,
    t: usize,
    layout: &[u16],
) -> Option<usize>
    requires layout_len { length layout.now ≡ w * (2 * t + 1) }
    requires w_bound { w ≤ 511 }
    requires t_bound { t ≤ 511 }
    ensures { result ≡ first_below (length layout.now) (mispinned top.now bottom.now t layout.now) }
{
    let s = 2 * t + 1;
    for x in 0..w {
        let b = x * s;
        if entry(layout, b) != entry(bottom, x) {
            return Some(b);
        }
        let e = b + t;
        if entry(layout, e) != entry(top, x) {
            return Some(e);
        }
    }
    None
}

// What is wrong with an edge at the terminal of column x, counted from 0, in a row of pins.
fn terminal_fault(row: &[u16], x: usize, edge: u16) -> Refusal
    ensures { number result ≡ terminal_fault row.now x edge }
{
    if row.len() <= x {
        return Refusal::UnpinnedWire;
    }
    if row[x] == 0 {
        Refusal::UnpinnedWire
    } else if edge == 0 {
        Refusal::UnwiredPin
    } else {
        Refusal::MiswiredPin
    }
}

// What is wrong with the pin entry at position p. Without tracks it belongs to both terminals of its column, and the bottom pin is compared first.
pub(crate) fn pin_fault(top: &[u16], bottom: &[u16], t: usize, layout: &[u16], p: usize) -> Refusal
    requires { t ≤ 511 }
    ensures { number result ≡ pin_fault top.now bottom.now t layout.now p }
{
    let s = 2 * t + 1;
    let x = p / s;
    let i = p % s;
    let edge = entry(layout, p);
    let pin = entry(bottom, x);
    if (i == 0) & (edge != pin) {
        return terminal_fault(bottom, x, edge);
    }
    terminal_fault(top, x, edge)
}

// The first entry that is not 0.
fn find_edge(entries: &[u16]) -> Option<usize>
    ensures { result ≡ position (λ e. not (eqb e 0)) entries.now }
{
    entries.iter().position(|e| *e != 0)
}

// The lowest horizontal edge of the last column. They are the last t entries.
pub(crate) fn find_last(w: usize, t: usize, layout: &[u16]) -> Option<usize>
    requires { length layout.now ≡ w * (2 * t + 1) }
    ensures { result ≡ first_below (length layout.now) (leaves_last w t layout.now) }
{
    let start = layout.len().saturating_sub(t);
    let edge = find_edge(&layout[start..])?;
    Some(start + edge)
}
