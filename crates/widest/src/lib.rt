// The widest drawing: a channel of two-pin nets for which the router adds the most columns, written into two lent rows.
#![tactic(auto)]

ghost use Rattle.std.specs.Prelude.{◌≡◌, ◌/◌, ◌%◌, ◌≤◌, length};
ghost use Rattle.grid.specs.Refusals.{if_accepted, number_of};
ghost use Rattle.widest.specs.Widest.{by_two, halves, columns_of, refused, answer, top_after, bottom_after};

use grid::Refusal;

// Fills a part of a row, counting by two.
fn count_by_two(part: &mut [u16], first: u16)
    requires { (length part.old ≤ 256) × (first ≤ 2) }
    ensures { part.new ≡ by_two first (length part.old) }
{
    let mut net = first;
    for pin in part.iter_mut() {
        *pin = net;
        net += 2;
    }
}

// Writes a row of the channel: its first column is empty where it has an odd number of them, and its halves count from `first` and from `second`.
fn write_halves(row: &mut [u16], first: u16, second: u16)
    requires { (length row.old ≤ 256) × (first ≤ 2) × (second ≤ 2) }
    ensures { row.new ≡ halves (length row.old % 2) (length row.old / 2) first second }
{
    let n = row.len();
    let (front, rest) = row.split_at_mut(n % 2);
    let (one, other) = rest.split_at_mut(n / 2);
    front.fill(0);
    count_by_two(one, first);
    count_by_two(other, second);
}

// Writes the channel into two rows of n entries each; how many columns its drawing adds. A refusal leaves the rows as they are.
pub fn write(top: &mut [u16], bottom: &mut [u16]) -> Result<usize, Refusal>
    ensures answer { result ≡ answer (length top.old) (length bottom.old) }
    ensures number { number_of result ≡ refused (length top.old) (length bottom.old) }
    ensures columns { columns_of result ≡ if_accepted (number_of result) (length top.old / 2) 0 }
    ensures top { top.new ≡ top_after top.old bottom.old }
    ensures bottom { bottom.new ≡ bottom_after top.old bottom.old }
{
    let n = top.len();
    if n != bottom.len() {
        return Err(Refusal::RowLengths);
    }
    if 256 < n {
        return Err(Refusal::TooManyColumns);
    }
    write_halves(top, 2, 1);
    write_halves(bottom, 1, 2);
    Ok(n / 2)
}
