// The calls of a channel on the drawing board.
ghost use Rattle.std.specs.Prelude.{◌≡◌, List, ℕ};
ghost use Rattle.grid.specs.Channel.{density as density_of};
ghost use Rattle.board.specs.Changes.{Channel, Add, Drop};
ghost use Rattle.board.specs.Board.{board_with, board_of, StandsFor, board_refused, start_channel, Makes, gap_count};

// Begins a board of n columns. The board, which the caller holds, is lent to each call on it: a number, and arrays that pass as pointers.
#[unsafe(no_mangle)]
pub extern "C" fn gaxwethi_board_start(
    n: usize,
    columns: &mut usize,
    top: &mut [u16; 256],
    bottom: &mut [u16; 256],
    counts: &mut [u16; 256],
) -> u16
    ensures number { result ≡ board_refused n }
    ensures board { board_with columns.new top.new bottom.new counts.new ≡ board_of (start_channel n) }
{
    grid::number_of(&board::start(n, columns, top, bottom, counts))
}

// Adds a net of two pins to a board.
#[unsafe(no_mangle)]
pub extern "C" fn gaxwethi_board_add(
    columns: usize,
    top: &mut [u16; 256],
    bottom: &mut [u16; 256],
    counts: &mut [u16; 256],
    net: u16,
    column1: usize,
    side1: u16,
    column2: usize,
    side2: u16,
) -> u16
    ensures { Makes (Add net column1 side1 column2 side2) result (board_with columns top.old bottom.old counts.old)
        (board_with columns top.new bottom.new counts.new) }
{
    grid::number_of(&board::add(
        columns, top, bottom, counts, net, column1, side1, column2, side2,
    ))
}

// Drops a net from a board.
#[unsafe(no_mangle)]
pub extern "C" fn gaxwethi_board_drop(
    columns: usize,
    top: &mut [u16; 256],
    bottom: &mut [u16; 256],
    counts: &mut [u16; 256],
    net: u16,
) -> u16
    ensures { Makes (Drop net) result (board_with columns top.old bottom.old counts.old)
        (board_with columns top.new bottom.new counts.new) }
{
    grid::number_of(&board::drop(columns, top, bottom, counts, net))
}

// The density of the channel on a board.
#[unsafe(no_mangle)]
pub extern "C" fn gaxwethi_board_density(columns: usize, counts: &[u16; 256]) -> u16
    ensures { (ch : Channel) (top bottom : List ℕ) → StandsFor ch (board_with columns top bottom counts.now)
        → result ≡ density_of ch.top ch.bottom }
{
    board::density(columns, counts)
}

// The count at a gap of the channel on a board.
#[unsafe(no_mangle)]
pub extern "C" fn gaxwethi_board_count(columns: usize, counts: &[u16; 256], gap: usize) -> u16
    ensures { (ch : Channel) (top bottom : List ℕ) → StandsFor ch (board_with columns top bottom counts.now) → result ≡ gap_count ch gap }
{
    board::count(columns, counts, gap)
}
