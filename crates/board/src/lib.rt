// A channel on the drawing board: nets of two pins are added and dropped, and the count of open nets at each gap is stored and mended by each change. The
// caller holds the board, a number and three arrays, and lends it to each call, part by part, as C passes it. Every call ends on any board; what it promises,
// it promises of a board that the call before left.
#![tactic(auto)]

mod counts;
mod rows;

ghost use Rattle.std.specs.Prelude.{◌≡◌, List, ℕ};
ghost use Rattle.grid.specs.Channel.{density as density_of};
ghost use Rattle.grid.specs.Refusals.{number_of};
ghost use Rattle.board.specs.Changes.{Channel, Add, Drop};
ghost use Rattle.board.specs.Board.{board_with, board_of, StandsFor, board_refused, start_channel, Makes, gap_count};

use grid::Refusal;

// Begins a board of n columns without pins. One of over 256 is refused, and the board has no columns then.
pub fn start(
    n: usize,
    columns: &mut usize,
    top: &mut [u16; 256],
    bottom: &mut [u16; 256],
    counts: &mut [u16; 256],
) -> Result<(), Refusal>
    ensures number { number_of result ≡ board_refused n }
    ensures board { board_with columns.new top.new bottom.new counts.new ≡ board_of (start_channel n) }
{
    *top = grid::no_row();
    *bottom = grid::no_row();
    *counts = grid::no_row();
    if 256 < n {
        *columns = 0;
        return Err(Refusal::TooManyColumns);
    }
    *columns = n;
    Ok(())
}

// Adds a net at two terminals: columns from 1, side 0 for the top and 1 for the bottom.
pub fn add(
    columns: usize,
    top: &mut [u16; 256],
    bottom: &mut [u16; 256],
    counts: &mut [u16; 256],
    net: u16,
    column1: usize,
    side1: u16,
    column2: usize,
    side2: u16,
) -> Result<(), Refusal>
    ensures { Makes (Add net column1 side1 column2 side2) (number_of result) (board_with columns top.old bottom.old counts.old)
        (board_with columns top.new bottom.new counts.new) }
{
    let n = grid::columns_held(columns);
    placing::place_net(
        &mut top[..n],
        &mut bottom[..n],
        0,
        net,
        column1,
        side1,
        column2,
        side2,
    )?;
    let first = column1.min(column2);
    let last = column1.max(column2);
    counts::mend(counts, first, last, |count| count.saturating_add(1));
    Ok(())
}

// Drops a net.
pub fn drop(
    columns: usize,
    top: &mut [u16; 256],
    bottom: &mut [u16; 256],
    counts: &mut [u16; 256],
    net: u16,
) -> Result<(), Refusal>
    ensures { Makes (Drop net) (number_of result) (board_with columns top.old bottom.old counts.old)
        (board_with columns top.new bottom.new counts.new) }
{
    if net == 0 || 256 < net {
        return Err(Refusal::NetNumber);
    }
    let n = grid::columns_held(columns);
    let Some(last) = rows::last_column(&top[..n], &bottom[..n], net) else {
        return Err(Refusal::AbsentNet);
    };
    let Some(first) = rows::first_column(&top[..n], &bottom[..n], net) else {
        return Err(Refusal::AbsentNet);
    };
    counts::mend(counts, first, last, |count| count.saturating_sub(1));
    rows::clear(&mut top[..n], net);
    rows::clear(&mut bottom[..n], net);
    Ok(())
}

// The density: the largest stored count.
pub fn density(columns: usize, counts: &[u16; 256]) -> u16
    ensures { (ch : Channel) (top bottom : List ℕ) → StandsFor ch (board_with columns top bottom counts.now)
        → result ≡ density_of ch.top ch.bottom }
{
    counts::largest(&counts[..grid::columns_held(columns)])
}

// The stored count of a gap; 0 outside 1 to one less than the columns.
pub fn count(columns: usize, counts: &[u16; 256], gap: usize) -> u16
    ensures { (ch : Channel) (top bottom : List ℕ) → StandsFor ch (board_with columns top bottom counts.now) → result ≡ gap_count ch gap }
{
    if gap < 1 {
        return 0;
    }
    if grid::columns_held(columns) <= gap {
        return 0;
    }
    counts[gap]
}
