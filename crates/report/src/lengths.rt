// Wire lengths: in a drawing each entry that carries a net's number is one of its edges.
ghost use Rattle.std.specs.Prelude.{◌≡◌, false, ℕ, ◌+◌, ◌≤◌, ◌<◌, length, get_or};
ghost use Rattle.grid.specs.Channel.{over, times};
ghost use Rattle.grid.specs.Nets.{zero_table};
ghost use Rattle.grid.specs.Working.{ByNet};
ghost use Rattle.grid.proofs.Tables.{tallied};
ghost use Rattle.report.specs.Working.{four, FourTables, CountedTo};

// No lengths.
pub(crate) fn none() -> [u32; 257]
    ensures { result ≡ zero_table }
{
    [0u32; 257]
}

// An entry, 0 past the end.
fn entry(layout: &[u16], i: usize) -> u16
    ensures { result ≡ get_or layout.now i 0 }
{
    if i < layout.len() { layout[i] } else { 0 }
}

// One more for a number. A count of up to 600,000, more than the 522,753 entries of the largest drawing, leaves room for it.
fn tally(counts: &mut [u32], number: u16)
    requires { (number < length counts.old) × (get_or counts.old number 0 ≤ 600000) }
    ensures { counts.new ≡ tallied counts.old number }
{
    counts[usize::from(number)] += 1;
}

// Counts the four entries from i on, each in a table of its own, so that no count waits for the one before; the zeros past the end are no net.
fn tally_four(layout: &[u16], i: usize, a: &mut [u32], b: &mut [u32], c: &mut [u32], d: &mut [u32])
    requires { (over layout.now ≡ false) × (i ≤ 522753) × CountedTo layout.now i a.old b.old c.old d.old }
    ensures { CountedTo layout.now (i + 4) a.new b.new c.new d.new }
{
    tally(a, entry(layout, i));
    tally(b, entry(layout, i + 1));
    tally(c, entry(layout, i + 2));
    tally(d, entry(layout, i + 3));
}

// The sums of four tables, number by number.
fn added(a: &[u32], b: &[u32], c: &[u32], d: &[u32]) -> [u32; 257]
    requires { FourTables a.now b.now c.now d.now 600000 }
    ensures { (length result ≡ 257) × ((v : ℕ) → v < 257 → get_or result v 0 ≡ four a.now b.now c.now d.now v) }
{
    let mut sums = [0; 257];
    for (v, sum) in sums.iter_mut().enumerate() {
        *sum = a[v] + b[v] + c[v] + d[v];
    }
    sums
}

// How often each number up to 256 stands in a layout of such numbers.
pub(crate) fn counted(layout: &[u16]) -> [u32; 257]
    requires layout_value { over layout.now ≡ false }
    requires layout_len_bound { length layout.now ≤ 522753 }
    ensures { ByNet (λ v. times v layout.now) result }
{
    let mut a = none();
    let mut b = none();
    let mut c = none();
    let mut d = none();
    let mut i = 0;
    while i < layout.len() {
        tally_four(layout, i, &mut a, &mut b, &mut c, &mut d);
        i += 4;
    }
    added(&a, &b, &c, &d)
}
