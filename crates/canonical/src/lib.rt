// One spelling of a channel: a record of kind 1 with its nets renumbered in the order of their first pin.
#![tactic(auto)]

ghost use Rattle.std.specs.Prelude.{◌≡◌, List, false, ℕ, ◌≤◌, length};
ghost use Rattle.grid.specs.Channel.{over};
ghost use Rattle.grid.specs.Nets.{table, zero_table};
ghost use Rattle.grid.specs.Refusals.{if_accepted, number_of};
ghost use Rattle.grid.specs.Working.{Rows};
ghost use Rattle.record.specs.Record.{two_bytes, words};
ghost use Rattle.record.specs.Writing.{Room, Puts};
ghost use Rattle.canonical.specs.Renaming.{with_net, new_number};
ghost use Rattle.canonical.specs.Canonical.{length_of, canonical, record_size, refused, answer, bytes_after};
ghost use Rattle.canonical.specs.Working.{Ranked, head, by_table};

use grid::Refusal;
use record::Writer;

// Numbers the net of a pin, unless it has a number; how many are given then.
fn number_pin(net: u16, given: u16, numbers: &mut [u16]) -> u16
    requires { (net ≤ 256) × (given ≤ 512) × (length numbers.old ≡ 257) }
    ensures { (l : List ℕ) → Ranked l given numbers.old → Ranked (with_net l net) result numbers.new }
{
    let net = usize::from(net);
    let old = numbers[net];
    let last = if old == 0 { given + 1 } else { given };
    numbers[net] = if old == 0 { last } else { old };
    last
}

// Numbers the nets in the order of their first pin: column by column, top before bottom. Meanwhile 0 has a number, so that it is given none; at last it has
// none.
fn number_nets(top: &[u16], bottom: &[u16], numbers: &mut [u16])
    requires { Rows top.now bottom.now × (numbers.old ≡ zero_table) }
    ensures { numbers.new ≡ table (new_number top.now bottom.now) }
{
    numbers[0] = 1;
    let mut given = 0;
    for (&above, &below) in top.iter().zip(bottom) {
        given = number_pin(above, given, numbers);
        given = number_pin(below, given, numbers);
    }
    numbers[0] = 0;
}

// A number as two bytes.
fn put_word(out: &mut Writer, v: u16)
    requires { Room out.old (two_bytes v) }
    ensures { Puts out.old (two_bytes v) out.new }
{
    out.put_bytes(&v.to_le_bytes());
}

// The head of a record of n columns: the length of what follows, the kind and n.
fn put_head(out: &mut Writer, n: usize)
    requires n_bound { n ≤ 256 }
    requires room { Room out.old (words (head n)) }
    ensures { Puts out.old (words (head n)) out.new }
{
    put_word(out, (4 + 4 * n) as u16);
    put_word(out, 1);
    put_word(out, n as u16);
}

// The new numbers of a row.
fn put_row(out: &mut Writer, row: &[u16], numbers: &[u16])
    requires row { over row.now ≡ false }
    requires numbers { length numbers.now ≡ 257 }
    requires room { Room out.old (words (by_table numbers.now row.now)) }
    ensures { Puts out.old (words (by_table numbers.now row.now)) out.new }
{
    for &net in row {
        put_word(out, numbers[usize::from(net)]);
    }
}

// The record of the renamed channel, of accepted rows.
fn put_channel(out: &mut Writer, top: &[u16], bottom: &[u16])
    requires rows { Rows top.now bottom.now }
    requires room { Room out.old (canonical top.now bottom.now) }
    ensures { Puts out.old (canonical top.now bottom.now) out.new }
{
    let mut numbers = grid::zeros();
    number_nets(top, bottom, &mut numbers);
    put_head(out, top.len());
    put_row(out, top, &numbers);
    put_row(out, bottom, &numbers);
}

// Writes a channel as a record of kind 1 at the front of the bytes, its nets renumbered 1, 2, 3 in the order of their first pin; how many
// bytes it has. What stands behind it stays. A refusal leaves the bytes as they are.
pub fn write(top: &[u16], bottom: &[u16], bytes: &mut [u8]) -> Result<usize, Refusal>
    ensures answer { result ≡ answer top.now bottom.now (length bytes.old) }
    ensures number { number_of result ≡ refused top.now bottom.now (length bytes.old) }
    ensures length { length_of result ≡ if_accepted (number_of result) (record_size top.now bottom.now) 0 }
    ensures bytes { bytes.new ≡ bytes_after top.now bottom.now bytes.old }
{
    grid::rows_refusal(top, bottom, 256)?;
    if bytes.len() < 6 + 4 * top.len() {
        return Err(Refusal::OutputTooShort);
    }
    let mut out = Writer::new(bytes);
    put_channel(&mut out, top, bottom);
    Ok(out.written())
}
