// The density: a running count of the open nets from their first and last columns.
ghost use Rattle.std.specs.Prelude.{◌≡◌, ◌+◌, ◌-◌, ◌≤◌, ◌<◌, length};
ghost use Rattle.grid.specs.Channel.{density as density_of};
ghost use Rattle.grid.specs.Nets.{first_column, last_column, table};
ghost use Rattle.grid.specs.Working.{Rows, nets_on};

// The open nets right of column c, with pins of the nets p and q, where `here` are open left of it. A net that starts and ends in c counts in both figures.
fn after(here: usize, c: u16, p: usize, q: usize, first: &[u16], last: &[u16]) -> usize
    requires size { (p < length first.now) × (q < length first.now) × (p < length last.now) × (q < length last.now) }
    requires count { (here ≤ 256) × (nets_on last.now c p q ≤ here + nets_on first.now c p q) }
    ensures { result ≡ here + nets_on first.now c p q - nets_on last.now c p q }
{
    let f = first[p];
    let l = last[p];
    let g = first[q];
    let m = last[q];
    if p == q {
        return here + usize::from(f == c) - usize::from(l == c);
    }
    here + usize::from(f == c) + usize::from(g == c) - usize::from(l == c) - usize::from(m == c)
}

// The density of accepted rows: the largest count over the gaps. By index, as the passes of spans.rt.
pub(crate) fn largest_count(top: &[u16], bottom: &[u16], first: &[u16], last: &[u16]) -> usize
    requires { Rows top.now bottom.now
        × (first.now ≡ table (first_column top.now bottom.now))
        × (last.now ≡ table (last_column top.now bottom.now)) }
    ensures { result ≡ density_of top.now bottom.now }
{
    let mut here = 0;
    let mut most = 0;
    for i in 0..top.len().saturating_sub(1) {
        let p = usize::from(top[i]);
        let q = usize::from(bottom[i]);
        here = after(here, i as u16 + 1, p, q, first, last);
        most = most.max(here);
    }
    most
}
