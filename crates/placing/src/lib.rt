// Placing a two-pin net in the rows of a channel whose first columns may be drawn.
#![tactic(auto)]

ghost use Rattle.std.specs.Prelude.{◌≡◌, ◌≤◌, ltb, length};
ghost use Rattle.grid.specs.Channel.{times};
ghost use Rattle.grid.specs.Refusals.{if_accepted, number_of};
ghost use Rattle.placing.specs.Placing.{is_free_in, is_free, place_refused, with_pin, placed_top, placed_bottom};

use grid::Refusal;

// Whether a net has a pin in a row.
fn has_pin(row: &[u16], net: u16) -> bool
    ensures { result ≡ ltb 0 (times net row.now) }
{
    row.contains(&net)
}

// Whether a column of a row lies right of the drawn ones and has no pin there.
fn is_free_in(row: &[u16], drawn: usize, column: usize) -> bool
    ensures { result ≡ is_free_in row.now drawn column }
{
    drawn < column && column <= row.len() && row[column - 1] == 0
}

// A terminal: a column, counted from 1, and a side, 0 for the top and 1 for the bottom.
#[derive(Clone, Copy, PartialEq, Eq)]
struct Terminal {
    column: usize,
    side: u16,
}

impl Terminal {
    // Whether it is free.
    #[tactic(auto, unfolding(crate::specs::Placing::is_free))]
    fn is_free(self, top: &[u16], bottom: &[u16], drawn: usize) -> bool
        ensures { result ≡ is_free top.now bottom.now drawn self.column self.side }
    {
        match self.side {
            0 => is_free_in(top, drawn, self.column),
            1 => is_free_in(bottom, drawn, self.column),
            _ => false,
        }
    }

    // Puts a pin of a net there.
    #[tactic(auto, unfolding(crate::specs::Placing::with_pin))]
    fn put_pin(self, top: &mut [u16], bottom: &mut [u16], net: u16)
        requires top { self.side ≡ 0 → (1 ≤ self.column) × (self.column ≤ length top.old) }
        requires bottom { self.side ≡ 1 → (1 ≤ self.column) × (self.column ≤ length bottom.old) }
        ensures top { top.new ≡ with_pin 0 top.old net self.column self.side }
        ensures bottom { bottom.new ≡ with_pin 1 bottom.old net self.column self.side }
    {
        match self.side {
            0 => top[self.column - 1] = net,
            1 => bottom[self.column - 1] = net,
            _ => {}
        }
    }
}

// Whether a net with these terminals is refused.
#[tactic(auto, using(crate::proofs::Search::found_either), unfolding(crate::specs::Placing::place_refused))]
fn refusal(
    top: &[u16],
    bottom: &[u16],
    drawn: usize,
    net: u16,
    one: Terminal,
    other: Terminal,
) -> Result<(), Refusal>
    ensures { number_of result ≡ place_refused top.now bottom.now drawn net one.column one.side other.column other.side }
{
    if net == 0 || 256 < net {
        return Err(Refusal::NetNumber);
    }
    if has_pin(top, net) || has_pin(bottom, net) {
        return Err(Refusal::NumberInUse);
    }
    if !one.is_free(top, bottom, drawn) || !other.is_free(top, bottom, drawn) || one == other {
        return Err(Refusal::TerminalTaken);
    }
    Ok(())
}

// Places a net at two terminals, each a column, counted from 1, and a side, 0 for the top and 1 for the bottom; the columns 1 to `drawn` are drawn. A
// refused net leaves the rows as they were.
pub fn place_net(
    top: &mut [u16],
    bottom: &mut [u16],
    drawn: usize,
    net: u16,
    column1: usize,
    side1: u16,
    column2: usize,
    side2: u16,
) -> Result<(), Refusal>
    ensures number { number_of result ≡ place_refused top.old bottom.old drawn net column1 side1 column2 side2 }
    ensures top { top.new ≡ if_accepted (number_of result) (placed_top top.old net column1 side1 column2 side2) top.old }
    ensures bottom { bottom.new ≡ if_accepted (number_of result) (placed_bottom bottom.old net column1 side1 column2 side2) bottom.old }
{
    let one = Terminal {
        column: column1,
        side: side1,
    };
    let other = Terminal {
        column: column2,
        side: side2,
    };
    refusal(top, bottom, drawn, net, one, other)?;
    one.put_pin(top, bottom, net);
    other.put_pin(top, bottom, net);
    Ok(())
}
