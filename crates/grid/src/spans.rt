// First column, last column and pin count of each net, in two passes over the rows: one from the left and one from the right. Or the pin count alone, in one.
// The rows are two slices with the fact `Rows`: of a struct of both an `ensures` would read `channel.entry.top.now`, and each clause grow by more than the fact.
ghost use Rattle.std.specs.Prelude.{◌≡◌, ◌+◌, ◌<◌, length, get_or, set};
ghost use Rattle.grid.specs.Channel.{pins as pins_of};
ghost use Rattle.grid.specs.Nets.{first_column, last_column, zero_table};
ghost use Rattle.grid.specs.Working.{Rows, ByNet, Filled};

// Counts a pin of a net.
fn count_pin(net: usize, pins: &mut [u16])
    requires { (net < length pins.old) × (get_or pins.old net 0 < 1024) }
    ensures { pins.new ≡ set pins.old net (get_or pins.old net 0 + 1) }
{
    pins[net] += 1;
}

// Counts the pins of each net in a table of zeros. At 0 stands anything after it.
pub(crate) fn count_pins(top: &[u16], bottom: &[u16], pins: &mut [u16])
    requires { Rows top.now bottom.now × (pins.old ≡ zero_table) }
    ensures { ByNet (pins_of top.now bottom.now) pins.new }
{
    for (&p, &q) in top.iter().zip(bottom) {
        count_pin(usize::from(p), pins);
        count_pin(usize::from(q), pins);
    }
}

// Notes a pin of a net in column c.
fn note(net: usize, c: u16, last: &mut [u16], pins: &mut [u16])
    requires { (net < length last.old) × (net < length pins.old) × (get_or pins.old net 0 < 1024) }
    ensures last { last.new ≡ set last.old net c }
    ensures pins { pins.new ≡ set pins.old net (get_or pins.old net 0 + 1) }
{
    last[net] = c;
    count_pin(net, pins);
}

// Notes the last column and the pin count of each net, from the left. By index: a zip of the rows with their numbers takes a tenth more of the time.
fn note_from_left(top: &[u16], bottom: &[u16], last: &mut [u16], pins: &mut [u16])
    requires { Rows top.now bottom.now × (last.old ≡ zero_table) × (pins.old ≡ zero_table) }
    ensures last { ByNet (last_column top.now bottom.now) last.new }
    ensures pins { ByNet (pins_of top.now bottom.now) pins.new }
{
    for i in 0..top.len() {
        let c = i as u16 + 1;
        note(usize::from(top[i]), c, last, pins);
        note(usize::from(bottom[i]), c, last, pins);
    }
}

// Notes the first column of each net, from the right: the pin stored last is the leftmost. By index, since proofs know little of `rev` behind `zip`.
fn note_from_right(top: &[u16], bottom: &[u16], first: &mut [u16])
    requires { Rows top.now bottom.now × (first.old ≡ zero_table) }
    ensures { ByNet (first_column top.now bottom.now) first.new }
{
    for i in (0..top.len()).rev() {
        let c = i as u16 + 1;
        first[usize::from(top[i])] = c;
        first[usize::from(bottom[i])] = c;
    }
}

// Fills three tables of zeros with the facts of each net.
pub(crate) fn fill(
    top: &[u16],
    bottom: &[u16],
    first: &mut [u16],
    last: &mut [u16],
    pins: &mut [u16],
)
    requires { Rows top.now bottom.now × (first.old ≡ zero_table) × (last.old ≡ zero_table) × (pins.old ≡ zero_table) }
    ensures { Filled top.now bottom.now first.new last.new pins.new }
{
    note_from_left(top, bottom, last, pins);
    note_from_right(top, bottom, first);
    first[0] = 0;
    last[0] = 0;
    pins[0] = 0;
}
