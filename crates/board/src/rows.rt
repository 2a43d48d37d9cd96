// The pins of a net in the rows of a channel: its first and last column, and the rows without it.
ghost use Rattle.std.specs.Prelude.{◌≡◌, length};
ghost use Rattle.grid.specs.Nets.{first_column, last_column};
ghost use Rattle.board.specs.Changes.{without_net};
ghost use Rattle.board.specs.Working.{column_by};

// The first column with a pin of a net, counted from 1.
pub(crate) fn first_column(top: &[u16], bottom: &[u16], net: u16) -> Option<usize>
    requires { length top.now ≡ length bottom.now }
    ensures { result ≡ column_by (first_column top.now bottom.now net) }
{
    for c in 0..top.len() {
        if top[c] == net || bottom[c] == net {
            return Some(c + 1);
        }
    }
    None
}

// The last one.
pub(crate) fn last_column(top: &[u16], bottom: &[u16], net: u16) -> Option<usize>
    requires { length top.now ≡ length bottom.now }
    ensures { result ≡ column_by (last_column top.now bottom.now net) }
{
    for c in (0..top.len()).rev() {
        if top[c] == net || bottom[c] == net {
            return Some(c + 1);
        }
    }
    None
}

// Clears the pins of a net in a row.
#[tactic(auto, unfolding(crate::specs::Changes::without_net))]
pub(crate) fn clear(row: &mut [u16], net: u16)
    ensures { row.new ≡ without_net net row.old }
{
    for pin in row.iter_mut() {
        *pin = if *pin == net { 0 } else { *pin };
    }
}
