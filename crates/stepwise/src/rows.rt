// Rows in 256 places.
ghost use Rattle.std.specs.Prelude.{◌≡◌, ◌≤◌, length};
ghost use Rattle.grid.specs.Places.{padded as padded_of};

// A row of up to 256 numbers, with zeros behind it.
pub(crate) fn padded(row: &[u16]) -> [u16; 256]
    requires { length row.now ≤ 256 }
    ensures { result ≡ padded_of row.now }
{
    let mut r = grid::no_row();
    r[..row.len()].copy_from_slice(row);
    r
}
